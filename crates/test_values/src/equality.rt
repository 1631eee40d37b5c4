// Values that are the same, places of documents and values of their own.
use crate::looks::{Call, Item, Look, MadeRow, assert_none, is_null, wrong_look, wrong_made};
use json_text::Result;
use json_value::{Array, Value};
use std::alloc::Global;
use test_fixtures::{or_null, value_of};

// Whether two values, neither of which is null, are compared so, from either side.
fn are_compared(value: &Value, other: &Value, same: bool) -> bool {
    let (one, back) = (*value == *other, *other == *value);
    one == same && back == same && !is_null(value) && !is_null(other)
}

// Whether a value was made, and is the same as this one.
fn is_like(value: &Value, made: Result<Value>) -> bool {
    match made {
        Ok(other) => *value == other,
        Err(_) => false,
    }
}

// Whether a value is the array of these elements.
fn is_array(value: &Value, alloc: Global, items: &[Value]) -> bool {
    value.eq_slice(items) && is_like(value, Value::from_slice_of(alloc, items))
}

fn has_three(value: &Value, alloc: Global) -> bool {
    let two = value.eq_slice(&[Value::new_u64(1), Value::new_u64(2)]);
    let items = [Value::new_u64(1), Value::new_u64(2), Value::new_u64(3)];
    is_array(value, alloc, &items) && !two
}

// Whether a value is `[true,"x",[]]`, made by hand.
fn is_by_hand(value: &Value, alloc: Global) -> bool {
    let list = Array::default().into_value();
    let items = [Value::new_bool(true), Value::from_static_str("x"), list];
    is_array(value, alloc, &items)
}

// What a value is compared with.
#[derive(Clone, Copy)]
enum Compare {
    Same(&'static str),
    Other(&'static str),
    True,
    X,
    Twelve,
    NotOne,
    Three,
    ByHand,
}

// Whether a value is the same as that of a text, or not, as is expected.
fn compares(value: &Value, alloc: Global, other: &str, same: bool) -> bool {
    are_compared(value, &or_null(value_of(alloc, other)), same)
}

impl Call for Compare {
    fn is_right(self, value: &mut Value, alloc: Global) -> bool {
        match self {
            Compare::Same(other) => compares(value, alloc, other, true),
            Compare::Other(other) => compares(value, alloc, other, false),
            Compare::True => value.eq_bool(true) && !value.eq_bool(false),
            Compare::X => value.eq_str("x") && !value.eq_str("y"),
            Compare::Twelve => value.eq_i64(12) && value.eq_u64(12),
            Compare::NotOne => !value.eq_i64(1) && !value.eq_u64(1),
            Compare::Three => has_three(value, alloc),
            Compare::ByHand => is_by_hand(value, alloc),
        }
    }
}

const ROWS: &[Look<Compare>] = &[
    (
        "members in another order",
        "{\"a\":1,\"b\":2}",
        Compare::Same("{\"b\":2,\"a\":1}"),
    ),
    (
        "a key twice for two keys",
        "{\"a\":1,\"a\":1}",
        Compare::Other("{\"a\":1,\"b\":2}"),
    ),
    ("a number is its literal", "1", Compare::Other("1.0")),
    (
        "the second value of a key",
        "{\"a\":true,\"a\":null}",
        Compare::Same("{\"a\":true,\"a\":2}"),
    ),
    (
        "the first value of a key",
        "{\"a\":true,\"a\":null}",
        Compare::Other("{\"a\":null,\"a\":true}"),
    ),
    (
        "arrays in members in another order",
        "{\"a\":true,\"b\":[1]}",
        Compare::Same("{\"b\":[1],\"a\":true}"),
    ),
    (
        "an element in a member",
        "{\"a\":true,\"b\":[1]}",
        Compare::Other("{\"b\":[1.0],\"a\":true}"),
    ),
    (
        "another key",
        "{\"a\":true,\"b\":1}",
        Compare::Other("{\"a\":true,\"c\":1}"),
    ),
    (
        "fewer members of a key",
        "{\"a\":true,\"a\":1}",
        Compare::Other("{\"a\":true}"),
    ),
    ("elements", "[1,2,3]", Compare::Three),
    (
        "a place and a value of its own",
        "[true,\"x\",[]]",
        Compare::ByHand,
    ),
];

const OWN: &[MadeRow<Compare>] = &[
    ("a boolean", Item::Boolean(true), Compare::True),
    ("a text", Item::Text("x"), Compare::X),
    ("an integer", Item::Number(12), Compare::Twelve),
    ("an integer below zero", Item::Negative(-1), Compare::NotOne),
];

#[test]
fn values_are_compared(rt: HostRuntime) {
    assert_none(&rt, wrong_look(rt.alloc(), ROWS));
    assert_none(&rt, wrong_made(rt.alloc(), OWN));
}
