// Merge patches between values.
use crate::calls::{Row, is_value_of, merge, row_of};
use json_diff::merge_diff;
use json_text::Result as TextResult;
use json_value::Value;
use std::alloc::Global;
use test_fixtures::{shows, value_of};

// Two values, and the merge patch that leads from the one to the other: RFC 7396, appendix A and
// section 1, and more.
const MERGE_PATCHES: &str = r#"{"a": "b"} → {"a": "c"} → {"a":"c"}
{"a": "b"} → {"a": "b", "b": "c"} → {"b":"c"}
{"a": "b"} → {} → {"a":null}
{"a": "b", "b": "c"} → {"b": "c"} → {"a":null}
{"a": ["b"]} → {"a": "c"} → {"a":"c"}
{"a": {"b": "c"}} → {"a": {"b": "d"}} → {"a":{"b":"d"}}
{"a": [{"b": "c"}]} → {"a": [1]} → {"a":[1]}
["a", "b"] → ["c", "d"] → ["c","d"]
{"a": "foo"} → null → null
{"e": null} → {"e": null, "a": 1} → {"a":1}
[1, 2] → {"a": "b"} → {"a":"b"}
{} → {"a": {"bb": {}}} → {"a":{"bb":{}}}
{"a": "b", "c": {"d": "e", "f": "g"}} → {"c": {"d": "e"}, "a": "z"} → {"c":{"f":null},"a":"z"}
{"a": 1, "b": [null, 1.0]} → {"b": [null, 1.0], "a": 1} → {}
{"a": 1.0} → {"a": 1} → {"a":1}
{"a": {"x": 1, "x": 2}, "b": 1} → {"a": {"x": 1, "x": 2}} → {"b":null}"#;

// Two values between which there is no merge patch.
const NONE: &str = r#"{} → {"a": null}
{"a": 1} → {"a": null}
1 → {"a": {"b": null}}
{"a": {"b": [null]}} → {"a": {"b": null}}
{"a": 1, "a": 2} → {"a": 1}
{} → {"a": 1, "a": 2}"#;

// Returns the merge patch from the value to that of the text, if there is one.
fn patch_to(alloc: Global, from: &Value, to: &str) -> TextResult<Option<Value>> {
    let to = value_of(alloc, to)?;
    merge_diff(alloc, from, &to)
}

// Returns the merge patch between the values of two texts, if there is one.
fn patch_between(alloc: Global, from: &str, to: &str) -> TextResult<Option<Value>> {
    let from = value_of(alloc, from)?;
    patch_to(alloc, &from, to)
}

// Whether the merge patch makes of the first value the second.
fn leads(alloc: Global, patch: &Value, from: &str, to: &str) -> TextResult<bool> {
    let mut value = value_of(alloc, from)?;
    if merge(alloc, &mut value, patch.view()) {
        is_value_of(alloc, &value, to)
    } else {
        Ok(false)
    }
}

// Whether the merge patch has this compact text, and makes of the first value the second.
fn is_right(alloc: Global, patch: &Value, row: Row<'_>) -> TextResult<bool> {
    Ok(shows(alloc, patch, row.want)? && leads(alloc, patch, row.document, row.patch)?)
}

// Whether the merge patch between the first two values of a row is the third, which is empty where
// there is none.
fn is_merge_patch(alloc: Global, row: Row<'_>) -> TextResult<bool> {
    let patch = patch_between(alloc, row.document, row.patch)?;
    match &patch {
        Some(patch) => is_right(alloc, patch, row),
        None => Ok(row.want.is_empty()),
    }
}

#[test]
fn merge_patches_between_values(rt: HostRuntime) {
    for line in MERGE_PATCHES.lines() {
        assert!(rt;
            matches!(is_merge_patch(rt.alloc(), row_of(line)), Ok(true)),
            "{line}"
        );
    }
}

#[test]
fn no_merge_patch_between_values(rt: HostRuntime) {
    for line in NONE.lines() {
        assert!(rt;
            matches!(is_merge_patch(rt.alloc(), row_of(line)), Ok(true)),
            "{line}"
        );
    }
}
