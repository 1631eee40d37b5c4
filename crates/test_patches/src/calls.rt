// Pointers, patches and merge patches through the calls.
ghost use Rattle.std.specs.Prelude.{◌≡◌, ◌<◌, ◌^◌, length};
ghost use Rattle.json_doc.specs.Readings.{elements};
ghost use Rattle.json_value.specs.Seen.{seen};

use json_patch::{PatchCode, PatchError, Pointer, apply_merge, apply_patch};
use json_text::Result as TextResult;
use json_value::{Value, View};
use std::alloc::Global;
use std::test::Fail;
use test_fixtures::{read, shows, value_of};

// The document of RFC 6901, section 5.
const DOCUMENT: &str =
    r#"{"foo": ["bar", "baz"], "": 0, "a/b": 1, "c%d": 2, "e^f": 3, "g|h": 4, "i\\j": 5, "k\"l": 6, " ": 7, "m~n": 8}"#;

// RFC 6901, section 5: pointers, and what they reference.
const POINTERS: &str =
    r#" → {"foo":["bar","baz"],"":0,"a/b":1,"c%d":2,"e^f":3,"g|h":4,"i\\j":5,"k\"l":6," ":7,"m~n":8}
/foo → ["bar","baz"]
/foo/0 → "bar"
/ → 0
/a~1b → 1
/c%d → 2
/e^f → 3
/g|h → 4
/i\j → 5
/k"l → 6
/  → 7
/m~0n → 8"#;

// Documents, patches, and what the patches make: RFC 6902, appendix A, and more.
const PATCHES: &str =
    r#"{"foo": "bar"} → [{"op": "add", "path": "/baz", "value": "qux"}] → {"foo":"bar","baz":"qux"}
{"foo": ["bar", "baz"]} → [{"op": "add", "path": "/foo/1", "value": "qux"}] → {"foo":["bar","qux","baz"]}
{"baz": "qux", "foo": "bar"} → [{"op": "remove", "path": "/baz"}] → {"foo":"bar"}
{"foo": ["bar", "qux", "baz"]} → [{"op": "remove", "path": "/foo/1"}] → {"foo":["bar","baz"]}
{"baz": "qux", "foo": "bar"} → [{"op": "replace", "path": "/baz", "value": "boo"}] → {"baz":"boo","foo":"bar"}
{"foo": {"bar": "baz", "waldo": "fred"}, "qux": {"corge": "grault"}} → [{"op": "move", "from": "/foo/waldo", "path": "/qux/thud"}] → {"foo":{"bar":"baz"},"qux":{"corge":"grault","thud":"fred"}}
{"foo": ["all", "grass", "cows", "eat"]} → [{"op": "move", "from": "/foo/1", "path": "/foo/3"}] → {"foo":["all","cows","eat","grass"]}
{"baz": "qux", "foo": ["a", 2, "c"]} → [{"op": "test", "path": "/baz", "value": "qux"}, {"op": "test", "path": "/foo/1", "value": 2}] → {"baz":"qux","foo":["a",2,"c"]}
{"foo": "bar"} → [{"op": "add", "path": "/child", "value": {"grandchild": {}}}] → {"foo":"bar","child":{"grandchild":{}}}
{"foo": "bar"} → [{"op": "add", "path": "/baz", "value": "qux", "xyz": 123}] → {"foo":"bar","baz":"qux"}
{"/": 9, "~1": 10} → [{"op": "test", "path": "/~01", "value": 10}] → {"/":9,"~1":10}
{"foo": ["bar"]} → [{"op": "add", "path": "/foo/-", "value": ["abc", "def"]}] → {"foo":["bar",["abc","def"]]}
1 → [] → 1
1 → [{"op": "add", "path": "", "value": [2]}] → [2]
[1] → [{"op": "move", "from": "/0", "path": "/0"}] → [1]
[1] → [{"op": "move", "from": "/0", "path": ""}] → 1
[1] → [{"op": "copy", "from": "", "path": "/0"}] → [[1],1]
{"a": 1, "b": 2, "a": 3} → [{"op": "replace", "path": "/a", "value": 4}, {"op": "copy", "from": "/a", "path": "/c"}] → {"a":4,"b":2,"a":3,"c":4}
{"a": 1, "b": 2, "a": 3} → [{"op": "remove", "path": "/a"}] → {"b":2}
{"a": {"b": {"c": {}}}} → [{"op": "move", "from": "/a/b/c", "path": "/a/b"}, {"op": "add", "path": "/a/b/d", "value": -0}] → {"a":{"b":{"d":-0}}}"#;

// Documents, patches that fail, the number of the code, and the operation: RFC 6902, appendix A,
// and more.
const FAILING: &str = r#"{"baz": "qux"} → [{"op": "test", "path": "/baz", "value": "bar"}] → 31 0
{"foo": "bar"} → [{"op": "add", "path": "/baz/bat", "value": "qux"}] → 19 0
{"foo": "bar"} → [{"op": "add", "path": "/baz", "value": "qux", "op": "remove"}] → 30 0
{"/": 9, "~1": 10} → [{"op": "test", "path": "/~01", "value": "10"}] → 31 0
{"baz": "qux"} → [{"op": "add", "path": "/a", "value": 1}, {"op": "test", "path": "/baz", "value": "bar"}] → 31 1
1 → {} → 30 none
1 → [1] → 30 0
1 → [{"op": "remove", "path": "/a"}, {"op": "add", "path": "/a"}] → 30 1
1 → [{"op": "remove", "path": "a"}] → 30 0
1 → [{"op": "drop", "path": ""}] → 30 0
{"a": {"b": 1}} → [{"op": "move", "from": "/a", "path": "/a/b"}] → 30 0
1 → [{"op": "remove", "path": ""}] → 20 0
1 → [{"op": "remove", "path": "/a"}] → 20 0
[1] → [{"op": "remove", "path": "/-"}] → 19 0
[1] → [{"op": "replace", "path": "/00", "value": 1}] → 19 0
[1] → [{"op": "add", "path": "/2", "value": 1}] → 19 0
[1] → [{"op": "test", "path": "/0", "value": 1.0}] → 31 0
[1] → [{"op": "test", "path": "/18446744073709551616", "value": 1}] → 19 0"#;

// Documents, merge patches, and what they make: RFC 7396, appendix A and section 3, and more.
const MERGES: &str = r#"{"a": "b"} → {"a": "c"} → {"a":"c"}
{"a": "b"} → {"b": "c"} → {"a":"b","b":"c"}
{"a": "b"} → {"a": null} → {}
{"a": "b", "b": "c"} → {"a": null} → {"b":"c"}
{"a": ["b"]} → {"a": "c"} → {"a":"c"}
{"a": "c"} → {"a": ["b"]} → {"a":["b"]}
{"a": {"b": "c"}} → {"a": {"b": "d", "c": null}} → {"a":{"b":"d"}}
{"a": [{"b": "c"}]} → {"a": [1]} → {"a":[1]}
["a", "b"] → ["c", "d"] → ["c","d"]
{"a": "b"} → ["c"] → ["c"]
{"a": "foo"} → null → null
{"a": "foo"} → "bar" → "bar"
{"e": null} → {"a": 1} → {"e":null,"a":1}
[1, 2] → {"a": "b", "c": null} → {"a":"b"}
{} → {"a": {"bb": {"ccc": null}}} → {"a":{"bb":{}}}
{"title": "Goodbye!", "author": {"givenName": "John", "familyName": "Doe"}, "tags": ["example", "sample"], "content": "This will be unchanged"} → {"title": "Hello!", "phoneNumber": "+01-123-456-7890", "author": {"familyName": null}, "tags": ["example"]} → {"title":"Hello!","author":{"givenName":"John"},"tags":["example"],"content":"This will be unchanged","phoneNumber":"+01-123-456-7890"}
{"a": 1, "b": 2, "a": 3} → {"a": null} → {"b":2}
{"a": 1, "b": 2, "a": 3} → {"a": 4} → {"a":4,"b":2,"a":3}"#;

// Returns the two parts of a row.
pub(crate) fn parts(row: &str) -> (&str, &str) {
    row.split_once(" → ").unwrap_or((row, ""))
}

// The three parts of a row.
#[derive(Clone, Copy)]
pub(crate) struct Row<'a> {
    pub(crate) document: &'a str,
    pub(crate) patch: &'a str,
    pub(crate) want: &'a str,
}

pub(crate) fn row_of(line: &str) -> Row<'_> {
    let (document, rest) = parts(line);
    let (patch, want) = parts(rest);
    Row {
        document,
        patch,
        want,
    }
}

// Applies a patch that has few enough operations.
pub(crate) fn apply(alloc: Global, value: &mut Value, patch: View<'_>) -> Result<(), PatchError> {
    let few = match patch.as_array() {
        Some(list) => list.len() < 4_294_967_296,
        None => true,
    };
    if few {
        apply_patch(alloc, value, patch)
    } else {
        Err(PatchError {
            code: PatchCode::BadPatch,
            op: None,
        })
    }
}

// Applies a merge patch.
pub(crate) fn merge(alloc: Global, value: &mut Value, patch: View<'_>) -> bool {
    apply_merge(alloc, value, patch).is_ok()
}

// Whether the pointer is spelled so, and references a value with this compact text.
fn finds(
    alloc: Global,
    pointer: &Pointer,
    document: View<'_>,
    row: (&str, &str),
) -> TextResult<bool> {
    let spelled = pointer.to_text(alloc)?.as_str() == row.0;
    match pointer.find(document) {
        Some(found) if spelled => is_shown(alloc, found, row.1),
        _ => Ok(false),
    }
}

// Whether the compact text of a view is this one.
fn is_shown(alloc: Global, view: View<'_>, json: &str) -> TextResult<bool> {
    let value = view.to_value(alloc)?;
    shows(alloc, &value, json)
}

// Whether the pointer of this text references a value with this compact text, and is spelled so
// again.
fn references(alloc: Global, document: View<'_>, row: (&str, &str)) -> TextResult<bool> {
    match Pointer::parse(alloc, row.0) {
        Ok(pointer) => finds(alloc, &pointer, document, row),
        Err(_) => Ok(false),
    }
}

// The same in the document of RFC 6901.
fn references_there(alloc: Global, text: &str, want: &str) -> TextResult<bool> {
    let document = read(alloc, DOCUMENT)?;
    references(alloc, View::packed(document.view()), (text, want))
}

// Whether the pointer of this text references nothing.
fn references_nothing(alloc: Global, document: View<'_>, text: &str) -> bool {
    match Pointer::parse(alloc, text) {
        Ok(pointer) => pointer.find(document).is_none(),
        Err(_) => false,
    }
}

// The same in the document of RFC 6901.
fn references_nothing_there(alloc: Global, text: &str) -> TextResult<bool> {
    let document = read(alloc, DOCUMENT)?;
    Ok(references_nothing(alloc, View::packed(document.view()), text))
}

// Whether this text is refused as no pointer.
fn is_no_pointer(alloc: Global, text: &str) -> bool {
    match Pointer::parse(alloc, text) {
        Ok(_) => false,
        Err(error) => error.code.number() == 29 && error.op.is_none(),
    }
}

// What a patch of the document is, and what is wanted of it.
#[derive(Clone, Copy)]
pub(crate) enum Kind {
    /// A patch that makes a value with this compact text.
    Patch,
    /// A merge patch that does.
    Merge,
    /// A patch that fails with the number of a code and an operation, and keeps the value.
    Failing,
}

// Whether the error has the number and the operation that are wanted.
fn is_error(error: &PatchError, want: &str) -> bool {
    let (number, op) = want.split_once(' ').unwrap_or((want, ""));
    Some(error.code.number()) == number.parse().ok() && error.op == op.parse().ok()
}

// Whether the patch fails as it is wanted to.
fn fails(alloc: Global, value: &mut Value, patch: View<'_>, want: &str) -> bool {
    match apply(alloc, value, patch) {
        Ok(()) => false,
        Err(error) => is_error(&error, want),
    }
}

// Whether the value is that of the text.
pub(crate) fn is_value_of(alloc: Global, value: &Value, json: &str) -> TextResult<bool> {
    let other = value_of(alloc, json)?;
    Ok(*value == other)
}

// Whether the patch does what the row says, where the value is that of its document.
fn changes(
    alloc: Global,
    kind: Kind,
    value: &mut Value,
    patch: View<'_>,
    row: Row<'_>,
) -> TextResult<bool> {
    match kind {
        Kind::Patch if apply(alloc, value, patch).is_ok() => shows(alloc, value, row.want),
        Kind::Merge if merge(alloc, value, patch) => shows(alloc, value, row.want),
        Kind::Failing if fails(alloc, value, patch, row.want) => {
            is_value_of(alloc, value, row.document)
        }
        _ => Ok(false),
    }
}

fn changes_document(alloc: Global, kind: Kind, patch: View<'_>, row: Row<'_>) -> TextResult<bool> {
    let mut value = value_of(alloc, row.document)?;
    changes(alloc, kind, &mut value, patch, row)
}

// Whether the row's patch does what it says.
fn holds(alloc: Global, kind: Kind, row: Row<'_>) -> TextResult<bool> {
    let patch = read(alloc, row.patch)?;
    changes_document(alloc, kind, View::packed(patch.view()), row)
}

#[test]
fn pointers_reference_values(rt: HostRuntime) {
    for line in POINTERS.lines() {
        let (text, want) = parts(line);
        assert!(rt;
            matches!(references_there(rt.alloc(), text, want), Ok(true)),
            "{text}"
        );
    }
}

const TO_NOTHING: [&str; 8] = [
    "/bar", "/foo/2", "/foo/-", "/foo/00", "/foo/0/0", "/foo/", "/foo/1e0", "/foo/+1",
];

#[test]
fn pointers_reference_nothing(rt: HostRuntime) {
    for text in TO_NOTHING {
        assert!(rt;
            matches!(references_nothing_there(rt.alloc(), text), Ok(true)),
            "{text}"
        );
    }
}

const NO_POINTERS: [&str; 6] = ["a", "/~2", "/~", "~0", "#/a", " /a"];

#[test]
fn what_is_no_pointer(rt: HostRuntime) {
    for text in NO_POINTERS {
        assert!(rt; is_no_pointer(rt.alloc(), text), "{text}");
    }
}

// Returns the number of the first row that does not hold.
fn first_other(alloc: Global, kind: Kind, rows: &str) -> TextResult<Option<usize>> {
    for (i, line) in rows.lines().enumerate() {
        if !holds(alloc, kind, row_of(line))? {
            return Ok(Some(i));
        }
    }
    Ok(None)
}

#[test]
fn patches_apply(rt: HostRuntime) {
    assert!(rt; matches!(first_other(rt.alloc(), Kind::Patch, PATCHES), Ok(None)));
}

#[test]
fn patches_fail_and_keep_the_value(rt: HostRuntime) {
    assert!(rt; matches!(first_other(rt.alloc(), Kind::Failing, FAILING), Ok(None)));
}

#[test]
fn merge_patches_apply(rt: HostRuntime) {
    assert!(rt; matches!(first_other(rt.alloc(), Kind::Merge, MERGES), Ok(None)));
}

#[test]
fn the_text_of_an_error(rt: HostRuntime) -> Result<(), Fail> {
    let error = PatchError {
        code: PatchCode::TestFailed,
        op: Some(1),
    };
    let text = format!(in rt.alloc(); "{error}")?;
    assert_eq!(rt; text.as_str(), "patch refused");
    Ok(())
}
