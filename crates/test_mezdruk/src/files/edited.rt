// Documents that are edited in the layout that they have.
use crate::files::runs::compact;
use json_text::VecSink;
use json_value::{Edit, Path, PointerNode, Text, Value};
use mezdruk_files::{EditAll, InputForm, NamedDocument, edit_document};
use std::alloc::Global;

// A document, and its text after the member `a` is set to 2.
struct Row {
    input: &'static [u8],
    text: &'static [u8],
}

// Returns the edit that sets the member `a` to 2.
fn set_a(alloc: Global) -> Option<Edit> {
    let mut path = Path::new(alloc);
    if path.push(PointerNode::Key(Text::from_static("a"))).is_err() {
        return None;
    }
    let value = Value::new_u64(2);
    Some(Edit::Set { path, value })
}

// Whether the edit makes of the document of a row its text.
fn holds(alloc: Global, edit: &[Edit], form: InputForm, row: &Row) -> bool {
    let (Ok(document), Some(change)) = (
        NamedDocument::new(alloc, "f", row.input),
        EditAll::new(edit),
    ) else {
        return false;
    };
    let mut job = compact(change);
    job.input = form;
    let edited = edit_document(alloc, &document, &job, &mut VecSink::new(alloc));
    edited.status == 0 && edited.text.as_slice() == row.text
}

// The same of all rows.
fn all_hold(alloc: Global, form: InputForm, rows: &[Row]) -> bool {
    let Some(edit) = set_a(alloc) else {
        return false;
    };
    let edits = [edit];
    for row in rows {
        if !holds(alloc, &edits, form, row) {
            return false;
        }
    }
    true
}

const LAYOUTS: &[Row] = &[
    Row {
        input: b"{\"a\":1,\"b\":[]}",
        text: b"{\"a\":2,\"b\":[]}",
    },
    Row {
        input: b"{ \"a\": 1 }\n",
        text: b"{\"a\":2}\n",
    },
    Row {
        input: b"{\n  \"a\": 1,\n  \"b\": [1]\n}\n",
        text: b"{\n  \"a\": 2,\n  \"b\": [\n    1\n  ]\n}\n",
    },
    Row {
        input: b"\n{\n    \"a\": 1}",
        text: b"{\n    \"a\": 2\n}",
    },
    Row {
        input: b"{\r\n\r\n\t\"a\":\r\n\t1}\r\n\r\n",
        text: b"{\n\t\"a\": 2\n}\n",
    },
    Row {
        input: b"{\n\"a\": 1\n} ",
        text: b"{\n\"a\": 2\n}",
    },
    Row {
        input: b"{\"a\":\n  [\n  1]}",
        text: b"{\"a\":2}",
    },
];

#[test]
fn the_layout_of_a_document_is_kept(rt: HostRuntime) {
    assert!(rt; all_hold(rt.alloc(), InputForm::One, LAYOUTS));
}

const LINES: &[Row] = &[
    Row {
        input: b"{\"a\": 1}\n\n{\"a\": 3}",
        text: b"{\"a\":2}\n{\"a\":2}",
    },
    Row {
        input: b"\n",
        text: b"",
    },
    Row {
        input: b" ",
        text: b"",
    },
];

#[test]
fn lines_stay_lines(rt: HostRuntime) {
    assert!(rt; all_hold(rt.alloc(), InputForm::Lines, LINES));
}
