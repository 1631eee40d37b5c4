// Places that are lent through the trait, to be changed.
use crate::looks::{Call, Look, Row, assert_none, wrong_look, wrong_row};
use crate::writing::{is_nowhere, write_number};
use json_access::JsonValueMutTrait;
use json_text::Result;
use json_value::{Array, Index, Object, PointerNode, Value};
use std::alloc::Global;
use test_fixtures::key;

// Whether an array has `len` elements, once it is written.
fn is_long(array: &mut Array, alloc: Global, len: Option<usize>) -> bool {
    match array.list_mut(alloc) {
        Ok(list) => len == Some(list.len()),
        Err(_) => false,
    }
}

// Whether an array is lent, and then with `len` elements.
fn has_elements(lent: Option<&mut Array>, alloc: Global, len: Option<usize>) -> bool {
    match lent {
        Some(array) => is_long(array, alloc, len),
        None => len.is_none(),
    }
}

// Whether an object has `len` members, once it is written.
fn is_large(object: &mut Object, alloc: Global, len: Option<usize>) -> bool {
    match object.pairs_mut(alloc) {
        Ok(pairs) => len == Some(pairs.len()),
        Err(_) => false,
    }
}

// Whether an object is lent, and then with `len` members.
fn has_members(lent: Option<&mut Object>, alloc: Global, len: Option<usize>) -> bool {
    match lent {
        Some(object) => is_large(object, alloc, len),
        None => len.is_none(),
    }
}

// Whether an array of that many elements is lent, or none.
fn lends_array<V: JsonValueMutTrait>(value: &mut V, alloc: Global, len: Option<usize>) -> bool {
    match value.as_array_mut(alloc) {
        Ok(lent) => has_elements(lent, alloc, len),
        Err(_) => false,
    }
}

// Whether an object of that many members is lent, or none.
fn lends_object<V: JsonValueMutTrait>(value: &mut V, alloc: Global, len: Option<usize>) -> bool {
    match value.as_object_mut(alloc) {
        Ok(lent) => has_members(lent, alloc, len),
        Err(_) => false,
    }
}

// Writes 1 at the place of a path; answers whether there is one.
fn write_at<V: JsonValueMutTrait>(value: &mut V, alloc: Global, path: &[PointerNode]) -> bool {
    match value.pointer_mut(alloc, path) {
        Ok(place) => write_number(place, 1),
        Err(_) => false,
    }
}

// Whether no place is at the path.
fn leads_nowhere<V: JsonValueMutTrait>(value: &mut V, alloc: Global, path: &[PointerNode]) -> bool {
    is_nowhere(value.pointer_mut(alloc, path))
}

// Writes 1 at the first element, and finds no place at another key.
fn write_first(value: &mut Value, alloc: Global) -> bool {
    let written = write_at(value, alloc, &[key("x"), key("y"), PointerNode::Index(0)]);
    written && leads_nowhere(value, alloc, &[key("a")])
}

// Writes 2 at a child; answers whether there is one.
fn write_child<V: JsonValueMutTrait, I: Index>(value: &mut V, alloc: Global, step: I) -> bool {
    match value.get_mut(alloc, step) {
        Ok(place) => write_number(place, 2),
        Err(_) => false,
    }
}

// Whether there is no child at the step.
fn has_no_child<V: JsonValueMutTrait, I: Index>(value: &mut V, alloc: Global, step: I) -> bool {
    is_nowhere(value.get_mut(alloc, step))
}

// Writes 2 at the member `k`, and finds no place at an index.
fn write_member(value: &mut Value, alloc: Global) -> bool {
    let written = write_child(value, alloc, "k");
    written && has_no_child(value, alloc, 1_usize)
}

// Appends true to an array.
fn push_true(array: &mut Array, alloc: Global) -> bool {
    match array.list_mut(alloc) {
        Ok(list) => list.push(Value::new_bool(true)).is_ok(),
        Err(_) => false,
    }
}

// The same of an array that is lent; answers whether one is.
fn append_by<V: JsonValueMutTrait>(value: &mut V, alloc: Global) -> bool {
    match value.as_array_mut(alloc) {
        Ok(Some(array)) => push_true(array, alloc),
        _ => false,
    }
}

// Appends true, and writes 2 over it.
fn append_two(value: &mut Value, alloc: Global) -> bool {
    let appended = append_by(value, alloc);
    appended && write_child(value, alloc, 0_usize)
}

// What is lent of a value, and what is written there.
#[derive(Clone, Copy)]
enum Lend {
    // An array of that many elements, or none, and an object of that many members, or none.
    Both(Option<usize>, Option<usize>),
    WriteFirst,
    WriteMember,
    AppendTrue,
    AppendTwo,
}

impl Call for Lend {
    fn is_right(self, value: &mut Value, alloc: Global) -> bool {
        match self {
            Lend::Both(len, count) => {
                lends_array(value, alloc, len) && lends_object(value, alloc, count)
            }
            Lend::WriteFirst => write_first(value, alloc),
            Lend::WriteMember => write_member(value, alloc),
            Lend::AppendTrue => append_by(value, alloc),
            Lend::AppendTwo => append_two(value, alloc),
        }
    }
}

const LENT: &[Look<Lend>] = &[
    ("an empty array is lent", "[]", Lend::Both(Some(0), None)),
    ("an array is lent", "[1]", Lend::Both(Some(1), None)),
    ("an empty object is lent", "{}", Lend::Both(None, Some(0))),
    ("an object is lent", "{\"k\":1}", Lend::Both(None, Some(1))),
    ("of a number nothing is lent", "1", Lend::Both(None, None)),
];

const WRITTEN: &[Row<Lend>] = &[
    (
        "an element of a path is written",
        "{\"x\":{\"y\":[\"z\",\"zz\"]}}",
        Lend::WriteFirst,
        "{\"x\":{\"y\":[1,\"zz\"]}}",
    ),
    (
        "a child is written",
        "{\"k\":1}",
        Lend::WriteMember,
        "{\"k\":2}",
    ),
    ("an element is appended", "[]", Lend::AppendTrue, "[true]"),
    ("what is appended is written", "[]", Lend::AppendTwo, "[2]"),
];

#[test]
fn places_are_lent_through_the_trait(rt: HostRuntime) {
    assert_none(&rt, wrong_look(rt.alloc(), LENT));
    assert_none(&rt, wrong_row(rt.alloc(), WRITTEN));
}
