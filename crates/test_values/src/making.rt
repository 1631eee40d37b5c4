// Values that are made from what is none yet, taken apart, and copied.
use crate::looks::{Call, Item, Look, Row, assert_none, is_null, made, wrong_look, wrong_row};
use json_doc::JsonType;
use json_number::{Number, RawNumber};
use json_text::Result;
use json_value::{Array, Literal, Object, Pair, Text, Value, ValueRef};
use std::alloc::Global;
use test_fixtures::{
    copied, first_wrong, is_made, list_in, or_null, pairs_in, said, value_of, was_shown,
};

// A call that makes a value.
#[derive(Clone, Copy)]
enum Making {
    Default,
    Item(Item),
    Small(u8),
    Unit,
    Absent,
    Present,
    Literal(&'static str),
    Text(&'static str),
    Copy(&'static str),
    Character(char),
    Slice,
    List,
    ArrayWithRoom(usize),
    ObjectWithRoom(usize),
    Pairs,
}

fn literal(alloc: Global, text: &str) -> Result<Value> {
    Ok(Value::from_raw_number(RawNumber::new(alloc, text)?))
}

// The list `[1]`.
fn list_of_one(alloc: Global) -> Result<Vec<Value>> {
    Ok(vec![in alloc; Value::new_u64(1)]?)
}

fn array_of_list(alloc: Global) -> Result<Value> {
    Ok(Value::from_vec(list_of_one(alloc)?))
}

// A member of this key and number.
fn numbered(key: &'static str, number: u64) -> Pair {
    Pair::new(Text::from_static(key), Value::new_u64(number))
}

// The object of the members `"a":1`, `"b":2` and `"a":3`.
fn object_of_pairs(alloc: Global) -> Result<Value> {
    let (first, second, third) = (numbered("a", 1), numbered("b", 2), numbered("a", 3));
    Value::from_pairs(alloc, vec![in alloc; first, second, third]?)
}

// Makes a value for which no memory is asked.
fn make_scalar(make: Making) -> Value {
    match make {
        Making::Item(item) => made(item),
        Making::Small(number) => Value::from_number(Number::from(number)),
        Making::Unit => Value::from_unit(),
        Making::Absent => Value::from_option(None),
        Making::Present => Value::from_option(Some(Value::new_bool(false))),
        _ => Value::new(),
    }
}

fn make(alloc: Global, make: Making) -> Result<Value> {
    match make {
        Making::Literal(text) => literal(alloc, text),
        Making::Text(text) => Value::from_str(alloc, text),
        Making::Copy(text) => Value::copy_str(alloc, text),
        Making::Character(character) => Value::from_char(alloc, character),
        Making::Slice => Value::from_slice_of(alloc, &[Value::new_u64(1)]),
        Making::List => array_of_list(alloc),
        Making::ArrayWithRoom(room) => Value::new_array_with(alloc, room),
        Making::ObjectWithRoom(room) => Value::new_object_with(alloc, room),
        Making::Pairs => object_of_pairs(alloc),
        _ => Ok(make_scalar(make)),
    }
}

// What a row shows, how its value is made, and the compact text of the value.
const VALUES: &[(&str, Making, &str)] = &[
    ("a new value", Making::Default, "null"),
    ("null", Making::Item(Item::Null), "null"),
    ("of nothing", Making::Unit, "null"),
    ("of none", Making::Absent, "null"),
    ("of some", Making::Present, "false"),
    ("true", Making::Item(Item::Boolean(true)), "true"),
    ("an integer", Making::Item(Item::Number(12)), "12"),
    ("one below zero", Making::Item(Item::Negative(-7)), "-7"),
    ("a number", Making::Small(7), "7"),
    ("a literal", Making::Literal("1e5"), "1e5"),
    ("a text", Making::Item(Item::Text("x")), "\"x\""),
    ("an array", Making::Item(Item::Array), "[]"),
    ("an object", Making::Item(Item::Object), "{}"),
    ("of a slice", Making::Slice, "[1]"),
    ("of a list", Making::List, "[1]"),
    ("an array with room", Making::ArrayWithRoom(2), "[]"),
    ("an object with room", Making::ObjectWithRoom(2), "{}"),
    (
        "a later value of a key replaces the first",
        Making::Pairs,
        "{\"a\":3,\"b\":2}",
    ),
];

fn wrong_value(alloc: Global) -> Option<&'static str> {
    for (shown, call, json) in VALUES {
        if !is_made(alloc, make(alloc, *call), json) {
            return Some(*shown);
        }
    }
    None
}

// Whether a string of these characters was made.
fn is_text(made: Result<Value>, text: &str) -> bool {
    match made {
        Ok(value) => value.view().get_type() == JsonType::String && said(&value) == Some(text),
        Err(_) => false,
    }
}

// What a row shows, how its string is made, and the characters of the string.
const TEXTS: &[(&str, Making, &str)] = &[
    ("a text as it is", Making::Text("null"), "null"),
    ("a copied text", Making::Copy("x"), "x"),
    ("a wide character", Making::Character('😁'), "😁"),
    ("a character", Making::Character('é'), "é"),
];

fn wrong_text(alloc: Global) -> Option<&'static str> {
    for (shown, call, text) in TEXTS {
        if !is_text(make(alloc, *call), text) {
            return Some(*shown);
        }
    }
    None
}

fn default_values_are_null() -> bool {
    Value::default() == Value::new()
}

fn default_arrays_are_empty() -> bool {
    Array::default() == Array::new()
}

fn default_objects_are_empty() -> bool {
    Object::default() == Object::new()
}

fn wrong_default() -> Option<&'static str> {
    first_wrong(&[
        ("default values are null", default_values_are_null()),
        ("default arrays are empty", default_arrays_are_empty()),
        ("default objects are empty", default_objects_are_empty()),
    ])
}

// The kind of a value, and how many elements or members it has.
fn parts(value: &Value) -> (JsonType, usize) {
    match value.as_ref() {
        ValueRef::Null => (JsonType::Null, 0),
        ValueRef::Bool(_) => (JsonType::Boolean, 0),
        ValueRef::Number(_) | ValueRef::RawNumber(_) => (JsonType::Number, 0),
        ValueRef::String(_) => (JsonType::String, 0),
        ValueRef::Array(array) => (JsonType::Array, array.view().len()),
        ValueRef::Object(object) => (JsonType::Object, object.view().len()),
    }
}

// The kind of a value, and how many elements or members it is expected to have.
#[derive(Clone, Copy)]
struct Size(JsonType, usize);

impl Call for Size {
    fn is_right(self, value: &mut Value, _alloc: Global) -> bool {
        parts(value) == (self.0, self.1)
    }
}

const SIZES: &[Look<Size>] = &[
    ("parts of null", "null", Size(JsonType::Null, 0)),
    ("of true", "true", Size(JsonType::Boolean, 0)),
    ("of a number", "1", Size(JsonType::Number, 0)),
    ("of a text", "\"x\"", Size(JsonType::String, 0)),
    ("of an array", "[1,[]]", Size(JsonType::Array, 2)),
    ("of an object", "{\"k\":1}", Size(JsonType::Object, 1)),
];

// How many elements there are in an array, and whether there is none.
fn elements(array: Option<Array>) -> Option<(usize, bool)> {
    match array {
        Some(list) => Some((list.view().len(), list.view().is_empty())),
        None => None,
    }
}

// How many members there are in an object.
fn members(object: Option<Object>) -> Option<usize> {
    match object {
        Some(pairs) => Some(pairs.view().iter().len()),
        None => None,
    }
}

fn wrong_content(alloc: Global) -> Option<&'static str> {
    let list = elements(or_null(value_of(alloc, "[1]")).into_array());
    let pairs = members(or_null(value_of(alloc, "{\"k\":1}")).into_object());
    first_wrong(&[
        ("an array is taken out", list == Some((1, false))),
        ("an object is taken out", pairs == Some(1)),
        (
            "no object of an array",
            members(Value::new_array().into_object()).is_none(),
        ),
        (
            "no array of an object",
            elements(Value::new_object().into_array()).is_none(),
        ),
    ])
}

// The array `["x","y"]`, of a text that is lent and one of its own.
fn two_texts(alloc: Global) -> Result<Value> {
    let lent = Value::from_static_str("x");
    let owned = or_null(Value::copy_str(alloc, "y"));
    Value::from_slice_of(alloc, &[lent, owned])
}

fn are_both_said(list: &[Value]) -> bool {
    match list {
        [first, second] => said(first) == Some("x") && said(second) == Some("y"),
        _ => false,
    }
}

// Whether both texts are in a list.
fn holds_both(copy: &mut Value, alloc: Global) -> bool {
    match list_in(copy, alloc) {
        Ok(Some(list)) => are_both_said(list.as_slice()),
        _ => false,
    }
}

// Whether null is left, and both texts are in the copy of what is taken out.
fn take_and_copy(alloc: Global) -> bool {
    let mut value = or_null(two_texts(alloc));
    let mut copy = or_null(copied(alloc, &value.take()));
    holds_both(&mut copy, alloc) && is_null(&value)
}

// Whether a literal was copied, and spells this number.
fn is_spelled(copy: Result<Literal>, literal: &str) -> bool {
    match copy {
        Ok(raw) => raw.as_str() == literal,
        Err(_) => false,
    }
}

// Whether the copy of a literal spells this number, and that of its value has this compact text.
fn literal_is_copied(value: &Value, alloc: Global) -> bool {
    match value {
        Value::Raw(raw) => {
            let spelled = is_spelled(raw.clone(alloc), "-1.50e3");
            is_made(alloc, copied(alloc, value), "-1.50e3") && spelled
        }
        _ => false,
    }
}

fn is_copied(text: Result<Text>, characters: &str) -> bool {
    match text {
        Ok(text) => text.as_str() == characters,
        Err(_) => false,
    }
}

fn copied_text_is_copied(alloc: Global) -> bool {
    match Text::copy(alloc, "k") {
        Ok(text) => is_copied(text.clone(alloc), "k"),
        Err(_) => false,
    }
}

// Whether the copy of an array has a list of its own or not, as asked, and the compact text `[1]`.
fn is_array_copy(alloc: Global, copy: Result<Array>, owned: bool) -> bool {
    match copy {
        Ok(copy) => {
            let as_asked = copy.list().is_some() == owned;
            was_shown(alloc, copy.into_value(), "[1]") && as_asked
        }
        Err(_) => false,
    }
}

fn array_copy(value: &Value, alloc: Global, owned: bool) -> bool {
    match value {
        Value::Array(array) => is_array_copy(alloc, array.clone(alloc), owned),
        _ => false,
    }
}

// Makes the first write of a list; answers whether it has one element.
fn opens_list(value: &mut Value, alloc: Global) -> bool {
    match list_in(value, alloc) {
        Ok(Some(list)) => list.len() == 1,
        _ => false,
    }
}

// The copies before and after a first write.
fn copy_array(value: &mut Value, alloc: Global) -> bool {
    let before = array_copy(value, alloc, false);
    before && opens_list(value, alloc) && array_copy(value, alloc, true)
}

// The same of an object, with the compact text `{"k":1}`.
fn is_object_copy(alloc: Global, copy: Result<Object>, owned: bool) -> bool {
    match copy {
        Ok(copy) => {
            let as_asked = copy.pairs().is_some() == owned;
            was_shown(alloc, copy.into_value(), "{\"k\":1}") && as_asked
        }
        Err(_) => false,
    }
}

fn object_copy(value: &Value, alloc: Global, owned: bool) -> bool {
    match value {
        Value::Object(object) => is_object_copy(alloc, object.clone(alloc), owned),
        _ => false,
    }
}

// Makes the first write of an object; answers whether it has one member.
fn opens_members(value: &mut Value, alloc: Global) -> bool {
    match pairs_in(value, alloc) {
        Ok(Some(pairs)) => pairs.len() == 1,
        _ => false,
    }
}

// The copies before and after a first write.
fn copy_object(value: &mut Value, alloc: Global) -> bool {
    let before = object_copy(value, alloc, false);
    before && opens_members(value, alloc) && object_copy(value, alloc, true)
}

// What is done with a value, and whether its copies are right.
#[derive(Clone, Copy)]
enum Copies {
    Literal,
    Array,
    Object,
}

impl Call for Copies {
    fn is_right(self, value: &mut Value, alloc: Global) -> bool {
        match self {
            Copies::Literal => literal_is_copied(value, alloc),
            Copies::Array => copy_array(value, alloc),
            Copies::Object => copy_object(value, alloc),
        }
    }
}

const ROWS: &[Row<Copies>] = &[
    ("a literal is copied", "-1.50e3", Copies::Literal, "-1.50e3"),
    ("an array is copied", "[1]", Copies::Array, "[1]"),
    (
        "an object is copied",
        "{\"k\":1}",
        Copies::Object,
        "{\"k\":1}",
    ),
];

fn wrong_copy(alloc: Global) -> Option<&'static str> {
    first_wrong(&[
        ("a list is taken and copied", take_and_copy(alloc)),
        ("a text is copied", copied_text_is_copied(alloc)),
    ])
}

#[test]
fn values_are_made(rt: HostRuntime) {
    assert_none(&rt, wrong_value(rt.alloc()));
    assert_none(&rt, wrong_text(rt.alloc()));
    assert_none(&rt, wrong_default());
}

#[test]
fn values_are_taken_apart_and_copied(rt: HostRuntime) {
    assert_none(&rt, wrong_look(rt.alloc(), SIZES));
    assert_none(&rt, wrong_content(rt.alloc()));
    assert_none(&rt, wrong_copy(rt.alloc()));
    assert_none(&rt, wrong_row(rt.alloc(), ROWS));
}
