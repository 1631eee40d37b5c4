// Places of values, lent.
use crate::looks::{Call, Look, Row, assert_none, wrong_look, wrong_row};
use crate::writing::{is_nowhere, set, set_text, write_at, write_step, write_text};
use json_doc::JsonType;
use json_text::{ErrorCode, Result};
use json_value::{Index, Places, PointerNode, Value, put, update};
use std::alloc::Global;
use test_fixtures::key;

// The steps to an element of the member `a`.
fn element(index: usize) -> [PointerNode; 2] {
    [key("a"), PointerNode::Index(index)]
}

// Writes 1 at the second element of the member `a`, and finds no third.
fn write_second(value: &mut Value, alloc: Global) -> bool {
    let written = write_at(value, alloc, &element(1), 1);
    written && is_nowhere(value.reach(alloc, &element(2)))
}

// Writes 2 at the member `k`, and finds no member `m`.
fn write_only(value: &mut Value, alloc: Global) -> bool {
    let written = write_step(value, alloc, "k", 2);
    written && is_nowhere(value.step_mut(alloc, "m"))
}

// Appends "k" to an array, and puts "l" in its place.
fn append_text(list: &mut Value, alloc: Global) -> bool {
    list.view().get_type() == JsonType::Array
        && write_text(list.append_value(alloc, Value::from_static_str("k")), "l")
}

// The same of an array that is lent.
fn put_element(lent: Result<&mut Value>, alloc: Global) -> bool {
    match lent {
        Ok(list) => append_text(list, alloc),
        Err(_) => false,
    }
}

// Puts `{"a":["l"]}` together from what is lent of an object; answers whether it is one.
fn put_together(value: &mut Value, alloc: Global) -> bool {
    value.view().get_type() == JsonType::Object
        && put_element(value.insert(alloc, "a", Value::new_array()), alloc)
}

// Whether a number is lent.
fn lends_number(lent: Result<&mut Value>, number: u64) -> bool {
    match lent {
        Ok(place) => place.eq_u64(number),
        Err(_) => false,
    }
}

// Appends 2 to an array; answers whether it is one, and lends the number.
fn append_two(value: &mut Value, alloc: Global) -> bool {
    value.view().get_type() == JsonType::Array
        && lends_number(value.append_value(alloc, Value::new_u64(2)), 2)
}

// Puts 1 at the key `k` of an object; answers whether it is one, and lends the number.
fn insert_one(value: &mut Value, alloc: Global) -> bool {
    value.view().get_type() == JsonType::Object
        && lends_number(value.insert(alloc, "k", Value::new_u64(1)), 1)
}

// Whether no place is lent, for this reason.
fn is_refused(lent: Result<&mut Value>, code: ErrorCode) -> bool {
    match lent {
        Ok(_) => false,
        Err(error) => error.code == code,
    }
}

// Writes null through the trait at an element of the member `a`; answers why not, if so.
fn write_place<V: Places>(value: &mut V, alloc: Global, index: usize) -> Option<ErrorCode> {
    match value.place_mut(alloc, &element(index)) {
        Ok(place) => {
            set(place, Value::new_null());
            None
        }
        Err(error) => Some(error.code),
    }
}

// The same at the second element, and not at a third.
fn write_second_place(value: &mut Value, alloc: Global) -> bool {
    let written = write_place(value, alloc, 1).is_none();
    written && write_place(value, alloc, 2) == Some(ErrorCode::NotFound)
}

// Changes the second element of the member `a` to "y".
fn update_second(value: &mut Value, alloc: Global) -> bool {
    update(value, alloc, &element(1), |place| set_text(place, "y")).is_ok()
}

// A call that lends a place in a value.
#[derive(Clone, Copy)]
enum Lend {
    WriteSecond,
    WriteOnly,
    PutTogether,
    AppendTwo,
    InsertOne,
    LendNull,
    WriteKey,
    WriteSecondPlace,
    PutFirst,
    UpdateSecond,
}

impl Call for Lend {
    fn is_right(self, value: &mut Value, alloc: Global) -> bool {
        match self {
            Lend::WriteSecond => write_second(value, alloc),
            Lend::WriteOnly => write_only(value, alloc),
            Lend::PutTogether => put_together(value, alloc),
            Lend::AppendTwo => append_two(value, alloc),
            Lend::InsertOne => insert_one(value, alloc),
            Lend::LendNull => matches!("z".index_or_insert(alloc, value), Ok(Value::Null)),
            Lend::WriteKey => write_text(key("z").index_or_insert(alloc, value), "x"),
            Lend::WriteSecondPlace => write_second_place(value, alloc),
            Lend::PutFirst => {
                put(value, alloc, &element(0), Value::from_static_str("x")).is_ok()
            }
            Lend::UpdateSecond => update_second(value, alloc),
        }
    }
}

const ROWS: &[Row<Lend>] = &[
    (
        "a write changes its place and no other",
        "{\"a\":[\"k\",\"l\"],\"b\":[\"m\"]}",
        Lend::WriteSecond,
        "{\"a\":[\"k\",1],\"b\":[\"m\"]}",
    ),
    (
        "the only member is written",
        "{\"k\":1}",
        Lend::WriteOnly,
        "{\"k\":2}",
    ),
    (
        "a member is written",
        "{\"k\":1,\"l\":1}",
        Lend::WriteOnly,
        "{\"k\":2,\"l\":1}",
    ),
    (
        "what is put in is lent",
        "{}",
        Lend::PutTogether,
        "{\"a\":[\"l\"]}",
    ),
    ("a number is appended", "[1]", Lend::AppendTwo, "[1,2]"),
    ("a number is inserted", "{}", Lend::InsertOne, "{\"k\":1}"),
    (
        "a key that null lacks is appended",
        "null",
        Lend::LendNull,
        "{\"z\":null}",
    ),
    (
        "the place of a key is written",
        "{\"z\":null}",
        Lend::WriteKey,
        "{\"z\":\"x\"}",
    ),
    (
        "the place of a path is written",
        "{\"a\":[1,2]}",
        Lend::WriteSecondPlace,
        "{\"a\":[1,null]}",
    ),
    (
        "a value is put along a path",
        "{\"a\":[\"k\",\"l\"]}",
        Lend::PutFirst,
        "{\"a\":[\"x\",\"l\"]}",
    ),
    (
        "a value is updated along a path",
        "{\"a\":[\"k\",\"l\"]}",
        Lend::UpdateSecond,
        "{\"a\":[\"k\",\"y\"]}",
    ),
];

// A step that leads to no place, and why.
#[derive(Clone, Copy)]
enum Refused {
    Index(usize, ErrorCode),
    Key(&'static str, ErrorCode),
}

impl Call for Refused {
    fn is_right(self, value: &mut Value, alloc: Global) -> bool {
        match self {
            Refused::Index(step, code) => is_refused(step.index_or_insert(alloc, value), code),
            Refused::Key(step, code) => is_refused(step.index_or_insert(alloc, value), code),
        }
    }
}

const NOWHERE: &[Look<Refused>] = &[
    (
        "no element after the last",
        "[1]",
        Refused::Index(1, ErrorCode::NotFound),
    ),
    (
        "no member of a number",
        "1",
        Refused::Key("k", ErrorCode::TypeUnmatched),
    ),
    (
        "no element of an object",
        "{}",
        Refused::Index(0, ErrorCode::TypeUnmatched),
    ),
];

#[test]
fn places_are_lent(rt: HostRuntime) {
    assert_none(&rt, wrong_row(rt.alloc(), ROWS));
    assert_none(&rt, wrong_look(rt.alloc(), NOWHERE));
}
