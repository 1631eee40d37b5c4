// Patches between values.
use crate::calls::{Row, apply, is_value_of, row_of};
use json_diff::diff;
use json_text::Result as TextResult;
use json_value::Value;
use std::alloc::Global;
use test_fixtures::{shows, value_of};

// Two values, and the patch that leads from the one to the other (RFC 6902).
const PATCHES: &str =
    r#"{"foo": "bar"} → {"foo": "bar", "baz": "qux"} → [{"op":"add","path":"/baz","value":"qux"}]
{"foo": ["bar", "baz"]} → {"foo": ["bar", "qux", "baz"]} → [{"op":"add","path":"/foo/1","value":"qux"}]
{"baz": "qux", "foo": "bar"} → {"foo": "bar"} → [{"op":"remove","path":"/baz"}]
{"foo": ["bar", "qux", "baz"]} → {"foo": ["bar", "baz"]} → [{"op":"remove","path":"/foo/1"}]
{"baz": "qux", "foo": "bar"} → {"foo": "bar", "baz": "boo"} → [{"op":"replace","path":"/baz","value":"boo"}]
{"foo": ["bar"]} → {"foo": ["bar", ["abc", "def"]]} → [{"op":"add","path":"/foo/1","value":["abc","def"]}]
[1, 2, 3, 4, 5] → [5] → [{"op":"remove","path":"/0"},{"op":"remove","path":"/0"},{"op":"remove","path":"/0"},{"op":"remove","path":"/0"}]
[[1, {"a": 2}], 3] → [[1, {"a": 4}], 3] → [{"op":"replace","path":"/0/1/a","value":4}]
{"a/b": 1, "m~n": [2]} → {"a/b": 3, "m~n": []} → [{"op":"replace","path":"/a~1b","value":3},{"op":"remove","path":"/m~0n/0"}]
{"a": 1} → [1] → [{"op":"replace","path":"","value":[1]}]
1 → 1.0 → [{"op":"replace","path":"","value":1.0}]
{"a": 1, "b": [2, null]} → {"b": [2, null], "a": 1} → []
{"a": 1, "a": 2} → {"a": 1} → [{"op":"replace","path":"","value":{"a":1}}]"#;

// Returns the patch from the value to that of the text.
fn patch_to(alloc: Global, from: &Value, to: &str) -> TextResult<Value> {
    let to = value_of(alloc, to)?;
    diff(alloc, from, &to)
}

// Returns the patch between the values of two texts.
fn patch_between(alloc: Global, from: &str, to: &str) -> TextResult<Value> {
    let from = value_of(alloc, from)?;
    patch_to(alloc, &from, to)
}

// Whether the patch makes the second value of the first.
fn leads(alloc: Global, patch: &Value, from: &str, to: &str) -> TextResult<bool> {
    let mut value = value_of(alloc, from)?;
    if apply(alloc, &mut value, patch.view()).is_ok() {
        is_value_of(alloc, &value, to)
    } else {
        Ok(false)
    }
}

// Whether the patch has this compact text, and makes the second value of the first.
fn is_right(alloc: Global, patch: &Value, row: Row<'_>) -> TextResult<bool> {
    Ok(shows(alloc, patch, row.want)? && leads(alloc, patch, row.document, row.patch)?)
}

// Whether the patch between the first two values of a row is the third.
fn is_patch(alloc: Global, row: Row<'_>) -> TextResult<bool> {
    let patch = patch_between(alloc, row.document, row.patch)?;
    is_right(alloc, &patch, row)
}

#[test]
fn patches_between_values(rt: HostRuntime) {
    for line in PATCHES.lines() {
        assert!(rt;
            matches!(is_patch(rt.alloc(), row_of(line)), Ok(true)),
            "{line}"
        );
    }
}
