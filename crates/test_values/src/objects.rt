// The calls of objects.
use crate::looks::{Call, Row, assert_none, gave, is_number, sees, was_number, wrong_row};
use crate::writing::{put, set_text};
use json_containers::ObjectCalls;
use json_text::Result;
use json_value::{Object, Pair, Text, Value};
use std::alloc::Global;
use test_fixtures::{first_wrong, object_in, or_null, value_of};

// A call of an object, or some, with what is expected of the results.
#[derive(Clone, Copy)]
enum Change {
    LookUp,
    NameFirst,
    SetA,
    SetFirstPair,
    InsertD,
    ReserveOne,
    Clear,
    RemoveA,
    RemoveEntry,
    Append,
    Extend,
    KeepA,
}

fn looks_up(object: &Object) -> bool {
    let found = sees(object.get("a"), 1) && object.get("b").is_none();
    let said = object.contains_key("a") && !object.contains_key("b") && !object.is_empty();
    found && said && object.len() == 3 && object.iter().len() == 3
}

fn sets_a(object: &mut Object, alloc: Global) -> bool {
    match object.get_mut(alloc, "a") {
        Ok(Some(place)) => {
            put(place, 5);
            true
        }
        _ => false,
    }
}

// Puts a text in the place of a member's value.
fn write_member(member: Result<&mut Pair>) -> bool {
    match member {
        Ok(member) => {
            set_text(member.value_mut(), "x");
            true
        }
        Err(_) => false,
    }
}

fn inserts_d(object: &mut Object, alloc: Global) -> bool {
    let first = gave(
        alloc,
        object.insert(alloc, "d", Value::from_static_str("e")),
        "",
    );
    let second = gave(
        alloc,
        object.insert(alloc, "d", Value::from_static_str("f")),
        "\"e\"",
    );
    first && second && object.len() == 4
}

fn removes_entry(object: &mut Object, alloc: Global) -> bool {
    match object.remove_entry(alloc, "b") {
        Ok(Some((key, value))) => key == "b" && was_number(value, 2),
        _ => false,
    }
}

fn appends_from(object: &mut Object, alloc: Global, more: &mut Value) -> bool {
    match object_in(more) {
        Some(other) => object.append(alloc, other).is_ok() && other.is_empty(),
        None => false,
    }
}

fn appends(object: &mut Object, alloc: Global) -> bool {
    let mut more = or_null(value_of(alloc, "{\"a\":null,\"b\":1}"));
    appends_from(object, alloc, &mut more)
}

// Makes a call that reads or replaces what is there.
fn sets(object: &mut Object, alloc: Global, change: Change) -> bool {
    match change {
        Change::LookUp => looks_up(object),
        Change::NameFirst => match object.get_key_value("a") {
            Some((key, first)) => key == "a" && is_number(first, 1),
            None => false,
        },
        Change::SetA => sets_a(object, alloc),
        Change::SetFirstPair => !object.is_empty() && write_member(object.pair_mut(alloc, 0)),
        Change::InsertD => inserts_d(object, alloc),
        Change::Append => appends(object, alloc),
        Change::Extend => {
            let more = [Pair::new(Text::from_static("b"), Value::new_u64(2))];
            object.extend(alloc, &more).is_ok()
        }
        _ => resizes(object, alloc, change),
    }
}

// Makes a call that takes members out, or makes room for more.
fn resizes(object: &mut Object, alloc: Global, change: Change) -> bool {
    match change {
        Change::ReserveOne => {
            object.reserve(alloc, 1).is_ok() && object.capacity() > object.len()
        }
        Change::RemoveA => {
            let first = gave(alloc, object.remove(alloc, "a"), "1");
            first && gave(alloc, object.remove(alloc, "d"), "")
        }
        Change::RemoveEntry => removes_entry(object, alloc),
        Change::KeepA => object
            .retain(alloc, |key: &str, _value: &mut Value| key == "a")
            .is_ok(),
        Change::Clear => {
            object.clear();
            true
        }
        _ => false,
    }
}

impl Call for Change {
    fn is_right(self, value: &mut Value, alloc: Global) -> bool {
        match object_in(value) {
            Some(object) => sets(object, alloc, self),
            None => false,
        }
    }
}

const THREE: &str = "{\"a\":1,\"a\":true,\"a\":null}";

const OTHERS: &str = "{\"a\":1,\"b\":true,\"c\":null}";

const ROWS: &[Row<Change>] = &[
    ("the first is read", THREE, Change::LookUp, THREE),
    ("the first is named", THREE, Change::NameFirst, THREE),
    (
        "the first is written",
        THREE,
        Change::SetA,
        "{\"a\":5,\"a\":true,\"a\":null}",
    ),
    (
        "the first of all is written",
        "{\"a\":1}",
        Change::SetFirstPair,
        "{\"a\":\"x\"}",
    ),
    (
        "all are removed",
        "{\"a\":1,\"b\":2,\"a\":3}",
        Change::RemoveA,
        "{\"b\":2}",
    ),
    (
        "the only one is removed",
        "{\"b\":2}",
        Change::RemoveEntry,
        "{}",
    ),
    (
        "a member is inserted",
        OTHERS,
        Change::InsertD,
        "{\"a\":1,\"b\":true,\"c\":null,\"d\":\"f\"}",
    ),
    ("room for one more", OTHERS, Change::ReserveOne, OTHERS),
    ("all are dropped", "{\"a\":1}", Change::Clear, "{}"),
    (
        "another object is appended",
        "{\"a\":1}",
        Change::Append,
        "{\"a\":null,\"b\":1}",
    ),
    (
        "copies are appended",
        "{\"a\":\"x\"}",
        Change::Extend,
        "{\"a\":\"x\",\"b\":2}",
    ),
    (
        "some are kept",
        "{\"a\":1,\"b\":true}",
        Change::KeepA,
        "{\"a\":1}",
    ),
];

fn reserves_five(object: &mut Object, alloc: Global) -> bool {
    let held = object.capacity() >= 3;
    let done = object.reserve(alloc, 5).is_ok();
    held && done && object.is_empty() && object.capacity() >= 5
}

fn has_room(alloc: Global) -> bool {
    match Object::with_capacity(alloc, 3) {
        Ok(mut object) => reserves_five(&mut object, alloc),
        Err(_) => false,
    }
}

#[test]
fn members_are_read_and_changed(rt: HostRuntime) {
    assert_none(&rt, wrong_row(rt.alloc(), ROWS));
    assert_none(
        &rt,
        first_wrong(&[("room for three", has_room(rt.alloc()))]),
    );
}
