// Changes of documents, and the content of strings.
use crate::files::runs::{Outcome, Row, all_hold, compact};
use json_patch::Pointer;
use json_text::Result;
use json_value::{Edit, Path, PointerNode, Text, Value, View};
use mezdruk_files::{ApplyMerge, ApplyPatch, EditAll, GetPath, GetPointer, InputForm, Unchanged};
use std::alloc::Global;
use test_fixtures::read;

// Returns the path to the member `a`.
fn path_of_a(alloc: Global) -> Result<Path> {
    let mut path = Path::new(alloc);
    path.push(PointerNode::Key(Text::from_static("a")))?;
    Ok(path)
}

// Returns the edit that sets the member `a` to 2.
fn set_a(alloc: Global) -> Result<Edit> {
    let path = path_of_a(alloc)?;
    let value = Value::new_u64(2);
    Ok(Edit::Set { path, value })
}

// Returns the edit that appends `true` to the document.
fn push_true(alloc: Global) -> Edit {
    let path = Path::new(alloc);
    let value = Value::new_bool(true);
    Edit::Push { path, value }
}

// Whether edits make of inputs of this form what the rows say.
fn edits_make(alloc: Global, edits: &[Edit], form: InputForm, rows: &[Row]) -> bool {
    match EditAll::new(edits) {
        Some(change) => {
            let mut job = compact(change);
            job.input = form;
            all_hold(alloc, &job, rows)
        }
        None => false,
    }
}

// The same of the edit that sets the member `a` to 2.
fn set_makes(alloc: Global, form: InputForm, rows: &[Row]) -> bool {
    match set_a(alloc) {
        Ok(edit) => edits_make(alloc, &[edit], form, rows),
        Err(_) => false,
    }
}

const IN_TURN: &[Row] = &[Row {
    input: b" {\"a\":1, \"b\":1.50}",
    outcome: Outcome {
        output: b"{\"a\":2,\"b\":1.50}\n",
        reports: b"",
        status: 0,
    },
}];

#[test]
fn edits_in_turn(rt: HostRuntime) {
    assert!(rt; set_makes(rt.alloc(), InputForm::One, IN_TURN));
}

const NOT_APPLIED: &[Row] = &[
    Row {
        input: b"{\"a\":1}",
        outcome: Outcome {
            output: b"",
            reports: b"f: edit 1: a key meets no object, or an index no array (TypeUnmatched)\n",
            status: 3,
        },
    },
    Row {
        input: b"{}",
        outcome: Outcome {
            output: b"",
            reports: b"f: edit 0: a key or an index is not there (NotFound)\n",
            status: 3,
        },
    },
];

// The same of that edit and the one that appends `true`.
fn both_make(alloc: Global, rows: &[Row]) -> bool {
    match set_a(alloc) {
        Ok(edit) => edits_make(alloc, &[edit, push_true(alloc)], InputForm::One, rows),
        Err(_) => false,
    }
}

#[test]
fn the_first_edit_that_does_not_apply(rt: HostRuntime) {
    assert!(rt; both_make(rt.alloc(), NOT_APPLIED));
}

const LINES: &[Row] = &[Row {
    input: b"{\"a\":1}\n  []\n{\"a\":3}\nx\n",
    outcome: Outcome {
        output: b"{\"a\":2}\n{\"a\":2}\n",
        reports: b"f:2:1: edit 0: a key meets no object, or an index no array \
                (TypeUnmatched)\n  []\n^\nf:4:1: a value is expected (InvalidJsonValue)\nx\n^\n",
        status: 3,
    },
}];

#[test]
fn a_line_to_which_an_edit_does_not_apply(rt: HostRuntime) {
    assert!(rt; set_makes(rt.alloc(), InputForm::Lines, LINES));
}

const STREAM: &[Row] = &[Row {
    input: b"{\"a\":1} [] {\"a\":3}",
    outcome: Outcome {
        output: b"{\"a\":2}\n{\"a\":2}\n",
        reports: b"f: value 1: edit 0: a key meets no object, or an index no array \
                (TypeUnmatched)\n",
        status: 3,
    },
}];

#[test]
fn a_value_of_a_stream_to_which_an_edit_does_not_apply(rt: HostRuntime) {
    assert!(rt; set_makes(rt.alloc(), InputForm::Stream, STREAM));
}

// Whether a patch makes of inputs what the rows say.
fn patch_makes(alloc: Global, patch: &str, rows: &[Row]) -> Result<bool> {
    let patch = read(alloc, patch)?;
    match ApplyPatch::new(View::packed(patch.view())) {
        Some(change) => Ok(all_hold(alloc, &compact(change), rows)),
        None => Ok(false),
    }
}

const PATCH: &str =
    "[{\"op\":\"test\",\"path\":\"/a\",\"value\":1},{\"op\":\"remove\",\"path\":\"/a\"}]";

const PATCHED: &[Row] = &[
    Row {
        input: b"{\"a\":1,\"b\":2}",
        outcome: Outcome {
            output: b"{\"b\":2}\n",
            reports: b"",
            status: 0,
        },
    },
    Row {
        input: b"{\"a\":2}",
        outcome: Outcome {
            output: b"",
            reports: b"f: operation 0: `test` found another value (TestFailed)\n",
            status: 3,
        },
    },
];

#[test]
fn a_patch(rt: HostRuntime) {
    assert!(rt; matches!(patch_makes(rt.alloc(), PATCH, PATCHED), Ok(true)));
}

/// A patch that is none, and its report.
struct NoPatch {
    patch: &'static str,
    report: &'static [u8],
}

const NO_PATCHES: &[NoPatch] = &[
    NoPatch {
        patch: "{}",
        report: b"f: the patch is not an array of operations (BadPatch)\n",
    },
    NoPatch {
        patch: "[[]]",
        report: b"f: operation 0: it is no object (BadPatch)\n",
    },
    NoPatch {
        patch: "[{\"op\":\"test\",\"path\":\"\",\"value\":1},{}]",
        report: b"f: operation 1: it has no `op` (BadPatch)\n",
    },
    NoPatch {
        patch: "[{\"op\":\"add\",\"op\":\"test\",\"path\":\"\",\"value\":1}]",
        report: b"f: operation 0: its `op` occurs twice (BadPatch)\n",
    },
    NoPatch {
        patch: "[{\"op\":\"frob\",\"path\":\"\"}]",
        report: b"f: operation 0: its `op` is none of add, remove, replace, move, copy and test \
            (BadPatch)\n",
    },
    NoPatch {
        patch: "[{\"op\":1}]",
        report: b"f: operation 0: its `op` is none of add, remove, replace, move, copy and test \
            (BadPatch)\n",
    },
    NoPatch {
        patch: "[{\"op\":\"remove\"}]",
        report: b"f: operation 0: it has no `path` (BadPatch)\n",
    },
    NoPatch {
        patch: "[{\"op\":\"replace\",\"path\":\"a\",\"value\":1}]",
        report: b"f: operation 0: its `path` is no JSON Pointer (BadPatch)\n",
    },
    NoPatch {
        patch: "[{\"op\":\"test\",\"path\":\"\"}]",
        report: b"f: operation 0: it has no `value` (BadPatch)\n",
    },
    NoPatch {
        patch: "[{\"op\":\"copy\",\"path\":\"\"}]",
        report: b"f: operation 0: it has no `from` (BadPatch)\n",
    },
    NoPatch {
        patch: "[{\"op\":\"copy\",\"from\":[],\"path\":\"\"}]",
        report: b"f: operation 0: its `from` is no JSON Pointer (BadPatch)\n",
    },
    NoPatch {
        patch: "[{\"op\":\"move\",\"from\":\"/a\",\"path\":\"/a/b\"}]",
        report: b"f: operation 0: its `path` leads into the value at its `from` (BadPatch)\n",
    },
];

// Whether each is reported as it has to be, over a document.
fn no_patches_are_reported(alloc: Global, rows: &[NoPatch]) -> Result<bool> {
    for row in rows {
        let outcome = Outcome {
            output: b"",
            reports: row.report,
            status: 3,
        };
        let made = Row {
            input: b"1",
            outcome,
        };
        if !patch_makes(alloc, row.patch, &[made])? {
            return Ok(false);
        }
    }
    Ok(true)
}

#[test]
fn patches_that_are_none(rt: HostRuntime) {
    assert!(rt; matches!(no_patches_are_reported(rt.alloc(), NO_PATCHES), Ok(true)));
}

// Whether a merge patch makes of inputs what the rows say.
fn merge_makes(alloc: Global, patch: &str, rows: &[Row]) -> Result<bool> {
    let patch = read(alloc, patch)?;
    let change = ApplyMerge::new(View::packed(patch.view()));
    Ok(all_hold(alloc, &compact(change), rows))
}

const MERGED: &[Row] = &[Row {
    input: b"{\"a\":1,\"b\":2}",
    outcome: Outcome {
        output: b"{\"b\":2,\"c\":3}\n",
        reports: b"",
        status: 0,
    },
}];

#[test]
fn a_merge_patch(rt: HostRuntime) {
    let patch = "{\"a\":null,\"c\":3}";
    assert!(rt; matches!(merge_makes(rt.alloc(), patch, MERGED), Ok(true)));
}

const NOT_FOUND: &[u8] = b"f: a key or an index is not there (NotFound)\n";

// Whether a pointer leads in inputs to what the rows say.
fn pointer_leads(alloc: Global, pointer: &str, rows: &[Row]) -> bool {
    match Pointer::parse(alloc, pointer) {
        Ok(pointer) => all_hold(alloc, &compact(GetPointer { pointer: &pointer }), rows),
        Err(_) => false,
    }
}

const BY_POINTER: &[Row] = &[
    Row {
        input: b"{\"a\":[1, {\"b\": []}]}",
        outcome: Outcome {
            output: b"{\"b\":[]}\n",
            reports: b"",
            status: 0,
        },
    },
    Row {
        input: b"{\"a\":[1]}",
        outcome: Outcome {
            output: b"",
            reports: NOT_FOUND,
            status: 3,
        },
    },
];

#[test]
fn the_value_at_a_pointer(rt: HostRuntime) {
    assert!(rt; pointer_leads(rt.alloc(), "/a/1", BY_POINTER));
}

// Whether the path to the member `a` leads in inputs to what the rows say.
fn path_leads(alloc: Global, rows: &[Row]) -> bool {
    match path_of_a(alloc) {
        Ok(path) => all_hold(alloc, &compact(GetPath { path: &path }), rows),
        Err(_) => false,
    }
}

const BY_PATH: &[Row] = &[
    Row {
        input: b"{\"a\":\"x\\ty\"}",
        outcome: Outcome {
            output: b"\"x\\ty\"\n",
            reports: b"",
            status: 0,
        },
    },
    Row {
        input: b"1",
        outcome: Outcome {
            output: b"",
            reports: NOT_FOUND,
            status: 3,
        },
    },
];

#[test]
fn the_value_at_a_path(rt: HostRuntime) {
    assert!(rt; path_leads(rt.alloc(), BY_PATH));
}

// Whether inputs have the results of the rows where the content of strings is printed.
fn content_is_printed(alloc: Global, rows: &[Row]) -> bool {
    let mut job = compact(Unchanged);
    job.raw = true;
    all_hold(alloc, &job, rows)
}

const CONTENT: &[Row] = &[
    Row {
        input: b"\"x\\ty \\u00e9\"",
        outcome: Outcome {
            output: b"x\ty \xc3\xa9\n",
            reports: b"",
            status: 0,
        },
    },
    Row {
        input: b"[\"x\\ty\"]",
        outcome: Outcome {
            output: b"[\"x\\ty\"]\n",
            reports: b"",
            status: 0,
        },
    },
];

#[test]
fn the_content_of_a_string(rt: HostRuntime) {
    assert!(rt; content_is_printed(rt.alloc(), CONTENT));
}
