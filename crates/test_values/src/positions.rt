// Places beside one that is written stay the same places.
use crate::looks::{Open, assert_none, wrong_document};
use crate::writing::{write_at, write_step};
use json_doc::{Doc, JsonType};
use json_value::{Array, Index, PointerNode, Value, View, put};
use std::alloc::Global;
use std::rc::Rc;
use test_fixtures::{is_shown, or_null, whole};

// Six cells in the order of the text, counted from 0: the list, `[1]`, `1`, `["x"]`, `"x"` and `2`.
const LIST: &str = "[[1],[\"x\"],2]";

// Seven cells: the object, `"a"`, `[1]`, `1`, `"b"`, `["x"]` and `"x"`.
const MEMBERS: &str = "{\"a\":[1],\"b\":[\"x\"]}";

fn are_alike(first: &Doc, second: &Doc) -> bool {
    first.cells().len() == second.cells().len() && first.text() == second.text()
}

// Whether it is this cell of the document.
fn is_cell(found: Option<(&Doc, u32)>, doc: &Doc, at: u32) -> bool {
    match found {
        Some((other, place)) => place == at && are_alike(other, doc),
        None => false,
    }
}

// The same of what is seen.
fn stands(seen: Option<View<'_>>, doc: &Doc, at: u32) -> bool {
    match seen {
        Some(view) => is_cell(view.place(), doc, at),
        None => false,
    }
}

// Whether the element of an index is this cell of the document.
pub(crate) fn element_stands(value: &Value, index: usize, doc: &Doc, at: u32) -> bool {
    stands(value.get(index), doc, at)
}

// The element of an index or the member of a key, and the cell that it is.
#[derive(Clone, Copy)]
enum Child {
    Element(usize, u32),
    Member(&'static str, u32),
}

fn child_is_at(value: &Value, child: Child, doc: &Doc) -> bool {
    match child {
        Child::Element(index, at) => stands(value.get(index), doc, at),
        Child::Member(key, at) => stands(value.get(key), doc, at),
    }
}

// Whether there are that many cells, the first of which is the root, and these texts in a row.
fn is_packed(doc: &Doc, cells: usize, texts: &str) -> bool {
    doc.cells().len() == cells && doc.root() == 0 && doc.text() == texts
}

// A write, or a look, at the value of a document.
#[derive(Clone, Copy)]
enum Write {
    ReachFirst,
    PutFirst,
    StepToFirst,
    AppendNull,
    InsertNull,
    LendKey,
}

fn is_written(value: &mut Value, alloc: Global, write: Write) -> bool {
    match write {
        Write::ReachFirst => write_at(value, alloc, &[PointerNode::Index(0)], 1),
        Write::PutFirst => {
            put(value, alloc, &[PointerNode::Index(0)], Value::new_null()).is_ok()
        }
        Write::StepToFirst => write_step(value, alloc, 0_usize, 1),
        Write::AppendNull => {
            value.view().get_type() == JsonType::Array
                && value.append_value(alloc, Value::new_null()).is_ok()
        }
        Write::InsertNull => {
            value.view().get_type() == JsonType::Object
                && value.insert(alloc, "a", Value::new_null()).is_ok()
        }
        Write::LendKey => matches!("c".index_or_insert(alloc, value), Ok(Value::Null)),
    }
}

fn second_place(array: &Array) -> Option<(&Doc, u32)> {
    array.view().get(1)?.place()
}

// Whether an array has a list of its own, and its element of index 1 is cell 3 of the document.
fn is_lent(array: &Array, doc: &Doc) -> bool {
    array.list().is_some() && is_cell(second_place(array), doc, 3)
}

// Whether such an array is lent.
fn lends(value: &mut Value, alloc: Global, doc: &Doc) -> bool {
    match value.as_array_mut(alloc) {
        Ok(Some(array)) => is_lent(array, doc),
        _ => false,
    }
}

// The same, and whether it is this cell in the value as well.
fn lends_and_keeps(value: &mut Value, alloc: Global, doc: &Doc) -> bool {
    let lent = lends(value, alloc, doc);
    lent && element_stands(value, 1, doc, 3)
}

// What a document has: this many cells with these texts; a child and a compact text after a write;
// or an element of the array that is lent.
#[derive(Clone, Copy)]
enum Look {
    Cells(usize, &'static str),
    After(Write, Child, &'static str),
    Lent,
}

fn is_left(alloc: Global, doc: &Rc<Doc>, write: Write, child: Child, then: &str) -> bool {
    let mut value = or_null(whole(alloc, doc));
    is_written(&mut value, alloc, write)
        && child_is_at(&value, child, doc)
        && is_shown(alloc, &value, then)
}

impl Open for Look {
    fn is_right(self, doc: &Rc<Doc>, alloc: Global) -> bool {
        match self {
            Look::Cells(cells, texts) => is_packed(doc, cells, texts),
            Look::After(write, child, then) => is_left(alloc, doc, write, child, then),
            Look::Lent => lends_and_keeps(&mut or_null(whole(alloc, doc)), alloc, doc),
        }
    }
}

const FIRST: Child = Child::Element(0, 1);

const SECOND: Child = Child::Element(1, 3);

const MEMBER: Child = Child::Member("b", 5);

const ROWS: &[(&str, &str, Look)] = &[
    (
        "an element beside a place that is reached",
        LIST,
        Look::After(Write::ReachFirst, SECOND, "[1,[\"x\"],2]"),
    ),
    (
        "an element beside one that is put",
        LIST,
        Look::After(Write::PutFirst, SECOND, "[null,[\"x\"],2]"),
    ),
    (
        "an element beside a step that is written",
        LIST,
        Look::After(Write::StepToFirst, SECOND, "[1,[\"x\"],2]"),
    ),
    (
        "the first element before one that is appended",
        LIST,
        Look::After(Write::AppendNull, FIRST, "[[1],[\"x\"],2,null]"),
    ),
    (
        "the second element before one that is appended",
        LIST,
        Look::After(Write::AppendNull, SECOND, "[[1],[\"x\"],2,null]"),
    ),
    (
        "a member beside one that is inserted",
        MEMBERS,
        Look::After(Write::InsertNull, MEMBER, "{\"a\":null,\"b\":[\"x\"]}"),
    ),
    (
        "a member before a key that lacked",
        MEMBERS,
        Look::After(
            Write::LendKey,
            MEMBER,
            "{\"a\":[1],\"b\":[\"x\"],\"c\":null}",
        ),
    ),
    ("the cells of a list", LIST, Look::Cells(6, "x")),
    ("the cells of an object", MEMBERS, Look::Cells(7, "abx")),
    ("an element of an array that is lent", LIST, Look::Lent),
];

#[test]
fn what_is_beside_a_write_stays_a_place(rt: HostRuntime) {
    assert_none(&rt, wrong_document(rt.alloc(), ROWS));
}
