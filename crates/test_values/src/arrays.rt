// The calls of arrays.
use crate::looks::{
    Call, Item, Row, assert_none, gave, is_next, is_null, is_number, made, wrong_row,
};
use crate::writing::put;
use json_containers::{ArrayCalls, IntoIter};
use json_number::JsonNumberTrait;
use json_text::Result;
use json_value::{Array, Value};
use std::alloc::Global;
use test_fixtures::{array_in, first_wrong, is_made, or_null, value_of, was_shown};

// A call of an array, with its arguments and what is expected of its result.
#[derive(Clone, Copy)]
enum Change {
    Reserve,
    Resize(usize, Item),
    Double,
    DropOneAndFour,
    AddOrDrop,
    Truncate(usize),
    Clear,
    SplitOff(usize),
    Drain(usize, usize),
    SwapRemove(usize, &'static str),
    Remove(usize, &'static str),
    Pop(&'static str),
    Push(Item, Item),
    Append,
    Extend,
    Repeat(usize, usize),
    Insert,
    SetFirst,
}

fn doubles(array: &mut Array, alloc: Global) -> bool {
    let mut last = 1_u64;
    array
        .resize_with(alloc, 4, || {
            last = last.wrapping_mul(2);
            Value::new_u64(last)
        })
        .is_ok()
}

fn drops_one_and_four(array: &mut Array, alloc: Global) -> bool {
    let keeps = |item: &Value| !is_number(item.view(), 1) && !is_number(item.view(), 4);
    array.retain(alloc, keeps).is_ok()
}

// The number of a value, if it is one of at most 3.
fn small_number(item: &Value) -> Option<u64> {
    let number = item.view().as_number()?.as_u64()?;
    if number <= 3 { Some(number) } else { None }
}

// Adds 1 to a number of at most 3; answers whether it was one.
fn adds_one(item: &mut Value) -> bool {
    match small_number(item) {
        Some(number) => {
            put(item, number.saturating_add(1));
            true
        }
        None => false,
    }
}

fn adds_or_drops(array: &mut Array, alloc: Global) -> bool {
    array
        .retain_mut(alloc, |item: &mut Value| adds_one(item))
        .is_ok()
}

// Makes a call that changes how many elements there are.
fn resizes(array: &mut Array, alloc: Global, change: Change) -> bool {
    match change {
        Change::Reserve => {
            let done = array.reserve(alloc, 10).is_ok();
            done && array.len() == 3 && array.capacity() >= 13
        }
        Change::Resize(len, item) => array.resize(alloc, len, &made(item)).is_ok(),
        Change::Double => doubles(array, alloc),
        Change::DropOneAndFour => drops_one_and_four(array, alloc),
        Change::AddOrDrop => adds_or_drops(array, alloc),
        Change::Truncate(len) => array.truncate(alloc, len).is_ok(),
        Change::Clear => {
            array.clear();
            array.is_empty()
        }
        _ => removes(array, alloc, change),
    }
}

// Whether these two elements were taken out.
fn are_two_and_three(alloc: Global, taken: Result<Array>) -> bool {
    match taken {
        Ok(taken) => was_shown(alloc, taken.into_value(), "[2,3]"),
        Err(_) => false,
    }
}

// Makes a call that takes elements out.
fn removes(array: &mut Array, alloc: Global, change: Change) -> bool {
    match change {
        Change::SplitOff(at) => {
            array.len() >= at && are_two_and_three(alloc, array.split_off(alloc, at))
        }
        Change::Drain(from, to) => {
            from <= to
                && array.len() >= to
                && are_two_and_three(alloc, array.drain(alloc, from, to))
        }
        Change::SwapRemove(index, json) => {
            array.len() > index && is_made(alloc, array.swap_remove(alloc, index), json)
        }
        Change::Remove(index, json) => {
            array.len() > index && is_made(alloc, array.remove(alloc, index), json)
        }
        Change::Pop(json) => gave(alloc, array.pop(alloc), json),
        _ => adds(array, alloc, change),
    }
}

fn appends_from(array: &mut Array, alloc: Global, more: &mut Value) -> bool {
    match array_in(more) {
        Some(other) => array.append(alloc, other).is_ok() && other.is_empty(),
        None => false,
    }
}

fn extends(array: &mut Array, alloc: Global) -> bool {
    let more = [Value::new_u64(4), Value::new_u64(5), Value::new_u64(6)];
    array.extend(alloc, &more).is_ok()
}

fn inserts(array: &mut Array, alloc: Global, index: usize, text: &'static str) -> bool {
    let value = Value::from_static_str(text);
    array.len() >= index && array.insert(alloc, index, value).is_ok()
}

// Puts 9 at the first of the elements, if there is one.
fn put_first(items: &mut [Value]) -> bool {
    match items.first_mut() {
        Some(first) => {
            put(first, 9);
            true
        }
        None => false,
    }
}

// Makes a call that puts elements in.
fn adds(array: &mut Array, alloc: Global, change: Change) -> bool {
    match change {
        Change::Push(first, second) => {
            let pushed = array.push(alloc, made(first)).is_ok();
            array.push(alloc, made(second)).is_ok() && pushed
        }
        Change::Append => {
            let mut more = or_null(value_of(alloc, "[1,\"arr1\"]"));
            appends_from(array, alloc, &mut more)
        }
        Change::Extend => extends(array, alloc),
        Change::Repeat(from, to) => {
            from <= to && array.len() >= to && array.extend_from_within(alloc, from, to).is_ok()
        }
        Change::Insert => {
            inserts(array, alloc, 1, "inserted1") && inserts(array, alloc, 4, "inserted2")
        }
        Change::SetFirst => match array.as_mut_slice(alloc) {
            Ok(items) => put_first(items),
            Err(_) => false,
        },
        _ => false,
    }
}

impl Call for Change {
    fn is_right(self, value: &mut Value, alloc: Global) -> bool {
        match array_in(value) {
            Some(array) => resizes(array, alloc, self),
            None => false,
        }
    }
}

const WORLD: Item = Item::Text("world");

const ROWS: &[Row<Change>] = &[
    ("room for ten more", "[1,2,3]", Change::Reserve, "[1,2,3]"),
    (
        "longer",
        "[\"hello\"]",
        Change::Resize(3, WORLD),
        "[\"hello\",\"world\",\"world\"]",
    ),
    (
        "shorter",
        "[\"hello\",\"world\",\"world\"]",
        Change::Resize(2, Item::Number(0)),
        "[\"hello\",\"world\"]",
    ),
    ("longer by a closure", "[]", Change::Double, "[2,4,8,16]"),
    (
        "some are kept",
        "[1,2,3,4,5]",
        Change::DropOneAndFour,
        "[2,3,5]",
    ),
    (
        "some are changed and kept",
        "[1,2,3,4]",
        Change::AddOrDrop,
        "[2,3,4]",
    ),
    (
        "the end is split off",
        "[1,2,3]",
        Change::SplitOff(1),
        "[1]",
    ),
    ("a range is drained", "[1,2,3]", Change::Drain(1, 3), "[1]"),
    (
        "the end is dropped",
        "[1,2,3,true,\"hi\"]",
        Change::Truncate(2),
        "[1,2]",
    ),
    (
        "no end is dropped",
        "[1,2,3]",
        Change::Truncate(8),
        "[1,2,3]",
    ),
    (
        "an element makes room for the last",
        "[\"foo\",\"bar\",\"baz\",\"qux\"]",
        Change::SwapRemove(1, "\"bar\""),
        "[\"foo\",\"qux\",\"baz\"]",
    ),
    (
        "an element is removed",
        "[0,1,2]",
        Change::Remove(1, "1"),
        "[0,2]",
    ),
    ("no last element", "[]", Change::Pop(""), "[]"),
    (
        "the last element is taken out",
        "[1,2,3,\"hi\"]",
        Change::Pop("\"hi\""),
        "[1,2,3]",
    ),
    ("all are dropped", "[1,2]", Change::Clear, "[]"),
    (
        "elements are pushed",
        "[1,2]",
        Change::Push(Item::Number(3), Item::Text("hi")),
        "[1,2,3,\"hi\"]",
    ),
    (
        "another array is appended",
        "[2,\"arr2\"]",
        Change::Append,
        "[2,\"arr2\",1,\"arr1\"]",
    ),
    (
        "copies are appended",
        "[1,2,3]",
        Change::Extend,
        "[1,2,3,4,5,6]",
    ),
    (
        "copies of a range are appended",
        "[0,1,2,3,4]",
        Change::Repeat(2, 5),
        "[0,1,2,3,4,2,3,4]",
    ),
    (
        "elements are inserted",
        "[1,2,3]",
        Change::Insert,
        "[1,\"inserted1\",2,3,\"inserted2\"]",
    ),
    ("an element is set", "[1,2]", Change::SetFirst, "[9,2]"),
];

fn has_room(alloc: Global, capacity: usize) -> bool {
    match Array::with_capacity(alloc, capacity) {
        Ok(array) => array.is_empty() && array.capacity() >= capacity,
        Err(_) => false,
    }
}

// Whether these are null, the number 2, and null.
fn shows_second(items: &[Value]) -> bool {
    match items {
        [first, second, third] => {
            is_null(first) && is_number(second.view(), 2) && is_null(third)
        }
        _ => false,
    }
}

fn gives_three(items: &mut IntoIter, alloc: Global) -> bool {
    let first = is_next(alloc, items.next(), "1");
    let last = is_next(alloc, items.next_back(), "3");
    let shown = shows_second(items.as_slice());
    let left = items.len() == 1 && items.as_mut_slice().len() == 3;
    let second = is_next(alloc, items.next(), "2");
    first && last && shown && left && second && items.next().is_none()
}

fn gives_from_both_ends(array: Array, alloc: Global) -> bool {
    match array.into_iter(alloc) {
        Ok(mut items) => gives_three(&mut items, alloc),
        Err(_) => false,
    }
}

// Whether the elements of the array that a value is are given; null is left in its place.
fn takes_and_gives(alloc: Global) -> bool {
    let mut value = or_null(value_of(alloc, "[1,2,3]"));
    match value.take().into_array() {
        Some(array) => gives_from_both_ends(array, alloc) && is_null(&value),
        None => false,
    }
}

fn gives_nothing(alloc: Global) -> bool {
    match Array::new().into_iter(alloc) {
        Ok(mut items) => items.as_slice().is_empty() && items.next_back().is_none(),
        Err(_) => false,
    }
}

fn wrong(alloc: Global) -> Option<&'static str> {
    first_wrong(&[
        ("room for four", has_room(alloc, 4)),
        ("room for none", has_room(alloc, 0)),
        ("elements are given from both ends", takes_and_gives(alloc)),
        ("no elements are given", gives_nothing(alloc)),
    ])
}

#[test]
fn arrays_are_changed(rt: HostRuntime) {
    assert_none(&rt, wrong_row(rt.alloc(), ROWS));
    assert_none(&rt, wrong(rt.alloc()));
}
