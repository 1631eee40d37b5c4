// Edits at the places of pointers.
use json_patch::Pointer;
use json_text::Result;
use json_value::{Edit, Path, PointerNode, Text, Value};
use mezdruk_files::{ChangeCode, ChangeError, EditAt, ValueChange};
use std::alloc::Global;
use test_fixtures::read;

// The edits that are made at the place of a pointer: each has no path of its own.
fn edits(alloc: Global) -> Result<Vec<Edit>> {
    let path = Path::new;
    let value = Value::new_bool;
    Ok(vec![in alloc;
        Edit::Set {
            path: path(alloc),
            value: value(true)
        },
        Edit::Insert {
            path: path(alloc),
            key: Text::from_static("k"),
            value: value(true)
        },
        Edit::Push {
            path: path(alloc),
            value: value(true)
        },
        Edit::Remove {
            path: path(alloc),
            step: PointerNode::Key(Text::from_static("k"))
        },
        Edit::Remove {
            path: path(alloc),
            step: PointerNode::Index(0)
        },
    ]?)
}

// One line: the input, the number of the edit, the pointer, and the output or the code of the
// error.
type Row = (&'static str, usize, &'static str, &'static str);

/// A pointer leads to the same place as the steps that it means in the document.
const ROWS: [Row; 16] = [
    ("{\"a\":[1,2]}", 0, "/a/1", "{\"a\":[1,true]}"),
    ("{\"a\":{\"1\":2}}", 0, "/a/1", "{\"a\":{\"1\":true}}"),
    (
        "{\"a/b\":{\"~\":2}}",
        0,
        "/a~1b/~0",
        "{\"a/b\":{\"~\":true}}",
    ),
    ("[1]", 0, "", "true"),
    ("{\"\":1}", 0, "/", "{\"\":true}"),
    ("{\"a\":1,\"a\":2}", 0, "/a", "{\"a\":true,\"a\":2}"),
    ("[{}]", 1, "/0", "[{\"k\":true}]"),
    ("{\"a\":[]}", 2, "/a", "{\"a\":[true]}"),
    ("[{\"k\":1,\"l\":2,\"k\":3}]", 3, "/0", "[{\"l\":2}]"),
    ("{\"a\":[1,2]}", 4, "/a", "{\"a\":[2]}"),
    ("{\"a\":[1]}", 0, "/a/1", "NotFound"),
    ("{\"a\":[1]}", 0, "/a/00", "NotFound"),
    ("{\"a\":[1]}", 0, "/b", "NotFound"),
    ("{\"a\":1}", 0, "/a/b", "TypeUnmatched"),
    ("{\"a\":1}", 2, "/a", "TypeUnmatched"),
    ("{\"a\":[]}", 4, "/a", "NotFound"),
];

// Whether a refusal is of the first edit, or is a want of memory.
fn has_number(error: &ChangeError) -> bool {
    let number = if error.code == ChangeCode::NoMemory {
        None
    } else {
        Some(0)
    };
    error.number == number
}

fn holds(alloc: Global, row: &Row) -> Result<bool> {
    let (input, number, pointer, expected) = *row;
    let doc = read(alloc, input)?;
    let mut value = Value::from_place(alloc, &doc, doc.root())?;
    let Ok(pointer) = Pointer::parse(alloc, pointer) else {
        return Ok(false);
    };
    let edits = edits(alloc)?;
    let Some(edit) = edits.get(number) else {
        return Ok(false);
    };
    let pointer = &pointer;
    match (EditAt { pointer, edit }).apply(alloc, &mut value) {
        Ok(()) => Ok(value.to_string(alloc)?.as_str() == expected),
        Err(error) => Ok(error.code.name() == expected && has_number(&error)),
    }
}

#[test]
fn a_pointer_leads_where_its_steps_do(rt: HostRuntime) {
    for row in &ROWS {
        assert!(rt; matches!(holds(rt.alloc(), row), Ok(true)));
    }
}
