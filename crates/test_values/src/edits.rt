// First writes of packed containers, copies, and edits.
use crate::looks::{Call, Row, assert_none, wrong_row};
use crate::positions::element_stands;
use crate::writing::set;
use json_doc::Doc;
use json_text::{ErrorCode, Result};
use json_value::{Edit, Pair, Path, PointerNode, Text, Value};
use std::alloc::Global;
use test_fixtures::{copied, is_made, key, list_in, or_null, pairs_in, read, said, whole};

fn is_at(value: &Value, cell: u32) -> bool {
    match value.place() {
        Some((_, at)) => at == cell,
        None => false,
    }
}

// Whether there are three elements, which are at cells 1, 3 and 5.
fn are_packed(list: &[Value]) -> bool {
    match list {
        [first, second, third] => is_at(first, 1) && is_at(second, 3) && is_at(third, 5),
        _ => false,
    }
}

// Whether a value is there, of these characters.
fn is_said(value: Option<Value>, literal: &str) -> bool {
    match value {
        Some(value) => said(&value) == Some(literal),
        None => false,
    }
}

// The first write of a list whose last element is a literal, which is taken out.
fn write_list(value: &mut Value, alloc: Global) -> bool {
    match list_in(value, alloc) {
        Ok(Some(list)) => are_packed(list.as_slice()) && is_said(list.pop(), "1.5"),
        _ => false,
    }
}

// Makes the first write of a list; answers whether it is one, and then no place.
fn open_list(value: &mut Value, alloc: Global) -> bool {
    let opened = matches!(list_in(value, alloc), Ok(Some(_)));
    opened && value.place().is_none()
}

// Whether a clone from before a first write is still the place of cell 0, and the value is none.
fn clone_and_write(value: &mut Value, alloc: Global) -> bool {
    let copy = or_null(copied(alloc, value));
    let opened = open_list(value, alloc);
    let stays = is_at(&copy, 0);
    opened && stays
}

// Whether the first member has this key and is the place of this cell; its value is null from then
// on.
fn first_is(members: &mut [Pair], key: &str, at: u32) -> bool {
    match members {
        [first, ..] => {
            let as_said = first.key() == key && is_at(first.value(), at);
            set(first.value_mut(), Value::new_null());
            as_said
        }
        _ => false,
    }
}

// The first write of two members, the first of which is the place of cell 2.
fn write_pairs(value: &mut Value, alloc: Global) -> bool {
    match pairs_in(value, alloc) {
        Ok(Some(members)) => { members.len() == 2 && first_is(members.as_mut_slice(), "a", 2) }
        _ => false,
    }
}

fn refused_code(applied: Result<()>) -> Option<ErrorCode> {
    match applied {
        Ok(()) => None,
        Err(error) => Some(error.code),
    }
}

// The path of one step.
fn path_of(alloc: Global, step: PointerNode) -> Result<Path> {
    let mut path = Path::new(alloc);
    path.push(step)?;
    Ok(path)
}

// Appends a number at a path that was made; answers why not, if so.
fn push(value: &mut Value, alloc: Global, path: Result<Path>, number: u64) -> Option<ErrorCode> {
    match path {
        Ok(path) => {
            let value_of_number = Value::new_u64(number);
            let edit = Edit::Push {
                path,
                value: value_of_number,
            };
            refused_code(value.apply(alloc, &edit))
        }
        Err(error) => Some(error.code),
    }
}

// Appends 3 to the first element.
fn push_into_first(value: &mut Value, alloc: Global) -> bool {
    push(value, alloc, path_of(alloc, PointerNode::Index(0)), 3).is_none()
}

// The same, and whether a clone from before still has the compact text that was.
fn push_beside_clone(value: &mut Value, alloc: Global) -> bool {
    let copy = copied(alloc, value);
    let pushed = push_into_first(value, alloc);
    is_made(alloc, copy, "[[1],[\"x\"],2]") && pushed
}

// The same, and whether the second element of such a clone, and of the value, is cell 3 of the
// document.
fn push_in_document(value: &mut Value, alloc: Global, doc: &Doc) -> bool {
    let copy = or_null(copied(alloc, value));
    let pushed = push_into_first(value, alloc);
    let copy_stays = element_stands(&copy, 1, doc, 3);
    element_stands(value, 1, doc, 3) && copy_stays && pushed
}

// Whether an edit of one step can be applied twice, and no third time.
fn applies_twice(value: &mut Value, alloc: Global, edit: &Edit) -> bool {
    let first = value.apply(alloc, edit).is_ok();
    let second = value.apply(alloc, edit).is_ok();
    let third = value.apply(alloc, edit).is_err();
    first && second && third && edit.path().steps().len() == 1
}

fn remove_twice(value: &mut Value, alloc: Global) -> bool {
    match path_of(alloc, key("a")) {
        Ok(path) => {
            let step = PointerNode::Index(0);
            applies_twice(value, alloc, &Edit::Remove { path, step })
        }
        Err(_) => false,
    }
}

fn set_to_object(value: &mut Value, alloc: Global) -> bool {
    match path_of(alloc, key("k")) {
        Ok(path) => {
            let edit = Edit::Set {
                path,
                value: Value::new_object(),
            };
            value.apply(alloc, &edit).is_ok()
        }
        Err(_) => false,
    }
}

fn insert_null(value: &mut Value, alloc: Global) -> bool {
    let edit = Edit::Insert {
        path: Path::new(alloc),
        key: Text::from_static("z"),
        value: Value::new_null(),
    };
    value.apply(alloc, &edit).is_ok()
}

// A first write, or an edit, and what is there then.
#[derive(Clone, Copy)]
enum Change {
    WriteList,
    CloneAndWrite,
    WritePairs,
    PushBesideClone,
    RemoveTwice,
    PushAtRoot(Option<ErrorCode>),
    SetToObject,
    InsertNull,
}

impl Call for Change {
    fn is_right(self, value: &mut Value, alloc: Global) -> bool {
        match self {
            Change::WriteList => write_list(value, alloc),
            Change::CloneAndWrite => clone_and_write(value, alloc),
            Change::WritePairs => write_pairs(value, alloc),
            Change::PushBesideClone => push_beside_clone(value, alloc),
            Change::RemoveTwice => remove_twice(value, alloc),
            Change::PushAtRoot(refused) => push(value, alloc, Ok(Path::new(alloc)), 2) == refused,
            Change::SetToObject => set_to_object(value, alloc),
            Change::InsertNull => insert_null(value, alloc),
        }
    }
}

const LISTS: &str = "[[1],[\"x\"],2]";

const ROWS: &[Row<Change>] = &[
    (
        "first write of an array",
        "[[1],[\"x\"],1.5]",
        Change::WriteList,
        "[[1],[\"x\"]]",
    ),
    (
        "a clone from before a first write stays a place",
        "[[1],[\"x\"],1.5]",
        Change::CloneAndWrite,
        "[[1],[\"x\"],1.5]",
    ),
    (
        "first write of an object",
        "{\"a\":[true],\"b\":null}",
        Change::WritePairs,
        "{\"a\":null,\"b\":null}",
    ),
    (
        "a clone keeps its elements",
        LISTS,
        Change::PushBesideClone,
        "[[1,3],[\"x\"],2]",
    ),
    (
        "an edit is applied",
        "{\"a\":[1,2.5]}",
        Change::RemoveTwice,
        "{\"a\":[]}",
    ),
    (
        "elements are appended at the root",
        "[1]",
        Change::PushAtRoot(None),
        "[1,2]",
    ),
    (
        "nothing is appended to an object",
        "{}",
        Change::PushAtRoot(Some(ErrorCode::TypeUnmatched)),
        "{}",
    ),
    (
        "a place is set",
        "{\"k\":1}",
        Change::SetToObject,
        "{\"k\":{}}",
    ),
    (
        "a member is inserted",
        "{\"k\":1}",
        Change::InsertNull,
        "{\"k\":1,\"z\":null}",
    ),
];

// Whether an element beside a push stays a place.
fn stays_beside_push(alloc: Global) -> bool {
    match read(alloc, LISTS) {
        Ok(doc) => push_in_document(&mut or_null(whole(alloc, &doc)), alloc, &doc),
        Err(_) => false,
    }
}

#[test]
fn values_are_written_and_edited(rt: HostRuntime) {
    assert_none(&rt, wrong_row(rt.alloc(), ROWS));
    assert!(rt;
        stays_beside_push(rt.alloc()),
        "an element beside a push stays a place"
    );
}
