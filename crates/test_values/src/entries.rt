// The entries of objects.
use crate::looks::{Call, Row, assert_none, is_number, was_number, wrong_row};
use crate::writing::put;
use json_containers::{Entry, ObjectCalls, OccupiedEntry};
use json_text::Result;
use json_value::{Object, Value};
use std::alloc::Global;
use test_fixtures::object_in;

// Whether the entry of a key was found, and has this key.
fn is_named(found: Result<Entry<'_>>, key: &str) -> bool {
    match found {
        Ok(entry) => entry.key() == key,
        Err(_) => false,
    }
}

// Whether 1 is the value of the entry, once the number is inserted where the key is missing.
fn has_one(found: Result<Entry<'_>>, number: u64) -> bool {
    match found {
        Ok(entry) => is_number(entry.or_insert(Value::new_u64(number)).view(), 1),
        Err(_) => false,
    }
}

fn inserts_or_keeps(object: &mut Object, alloc: Global) -> bool {
    let named = is_named(object.entry(alloc, "hello"), "hello");
    let inserted = has_one(object.entry(alloc, "hello"), 1);
    named && inserted && has_one(object.entry(alloc, "hello"), 2)
}

// Makes 1 where the key is missing, and puts 4 in its place.
fn makes_one(found: Result<Entry<'_>>) -> bool {
    match found {
        Ok(entry) => {
            put(entry.or_insert_with(|| Value::new_u64(1)), 4);
            true
        }
        Err(_) => false,
    }
}

// Makes the length of the key where it is missing; answers whether it is 1.
fn makes_length(found: Result<Entry<'_>>) -> bool {
    match found {
        Ok(entry) => {
            let place = entry.or_insert_with_key(|key: &str| Value::new_u64(key.len() as u64));
            is_number(place.view(), 1)
        }
        Err(_) => false,
    }
}

// Makes null where the key is missing.
fn makes_null(found: Result<Entry<'_>>) -> bool {
    match found {
        Ok(entry) => entry.or_default().view().as_bool().is_none(),
        Err(_) => false,
    }
}

fn makes_where_missing(object: &mut Object, alloc: Global) -> bool {
    let one = makes_one(object.entry(alloc, "a"));
    let length = makes_length(object.entry(alloc, "b"));
    one && length && makes_null(object.entry(alloc, "c"))
}

// Puts 2 in the place of the value there, if there is one; answers whether the entry is of the key
// `a`.
fn modifies_by(found: Result<Entry<'_>>) -> bool {
    match found {
        Ok(entry) => entry.and_modify(|place: &mut Value| put(place, 2)).key() == "a",
        Err(_) => false,
    }
}

// Sets the value there, twice.
fn sets_by(entry: &mut OccupiedEntry<'_>) -> bool {
    let named = entry.key() == "a" && is_number(entry.get().view(), 0);
    put(entry.get_mut(), 2);
    let set = was_number(entry.insert(Value::new_u64(3)), 2);
    named && set
}

// The same, and once more.
fn sets_there(object: &mut Object, alloc: Global) -> bool {
    let Ok(found) = object.entry(alloc, "a") else {
        return false;
    };
    match found {
        Entry::Occupied(entry) => {
            let mut entry = entry;
            let set = sets_by(&mut entry);
            put(entry.into_mut(), 4);
            set
        }
        Entry::Vacant(_entry) => false,
    }
}

// Removes what is there; answers whether it was 0.
fn removes_by(found: Entry<'_>) -> bool {
    match found {
        Entry::Occupied(entry) => was_number(entry.remove(), 0),
        Entry::Vacant(_entry) => false,
    }
}

fn removes_there(object: &mut Object, alloc: Global) -> bool {
    match object.entry(alloc, "a") {
        Ok(found) => removes_by(found),
        Err(_) => false,
    }
}

// Inserts 5 where the key `b` is missing.
fn inserts_by(found: Entry<'_>) -> bool {
    match found {
        Entry::Occupied(_entry) => false,
        Entry::Vacant(entry) => {
            let named = entry.key() == "b";
            is_number(entry.insert(Value::new_u64(5)).view(), 5) && named
        }
    }
}

fn inserts_missing(object: &mut Object, alloc: Global) -> bool {
    match object.entry(alloc, "b") {
        Ok(found) => inserts_by(found),
        Err(_) => false,
    }
}

// What is done with entries of an object.
#[derive(Clone, Copy)]
enum Change {
    InsertOrKeep,
    MakeMissing,
    Modify,
    Set,
    Remove,
    InsertMissing,
}

fn changes(object: &mut Object, alloc: Global, change: Change) -> bool {
    match change {
        Change::InsertOrKeep => inserts_or_keeps(object, alloc),
        Change::MakeMissing => makes_where_missing(object, alloc),
        Change::Modify => modifies_by(object.entry(alloc, "a")),
        Change::Set => sets_there(object, alloc),
        Change::Remove => removes_there(object, alloc),
        Change::InsertMissing => inserts_missing(object, alloc),
    }
}

impl Call for Change {
    fn is_right(self, value: &mut Value, alloc: Global) -> bool {
        match object_in(value) {
            Some(object) => changes(object, alloc, self),
            None => false,
        }
    }
}

const ROWS: &[Row<Change>] = &[
    (
        "a value is inserted or kept",
        "{}",
        Change::InsertOrKeep,
        "{\"hello\":1}",
    ),
    (
        "values are made where they are missing",
        "{}",
        Change::MakeMissing,
        "{\"a\":4,\"b\":1,\"c\":null}",
    ),
    (
        "a value is modified",
        "{\"a\":0}",
        Change::Modify,
        "{\"a\":2}",
    ),
    (
        "the first of equal keys is set",
        "{\"a\":0,\"a\":1}",
        Change::Set,
        "{\"a\":4,\"a\":1}",
    ),
    (
        "all members of a key are removed",
        "{\"a\":0,\"a\":1}",
        Change::Remove,
        "{}",
    ),
    (
        "a missing key is inserted",
        "{\"a\":0}",
        Change::InsertMissing,
        "{\"a\":0,\"b\":5}",
    ),
];

#[test]
fn entries_are_changed(rt: HostRuntime) {
    assert_none(&rt, wrong_row(rt.alloc(), ROWS));
}
