// What is read through the traits.
use crate::looks::{Call, Item, MadeRow, assert_none, wrong_made};
use json_access::{JsonContainerTrait, JsonValueTrait};
use json_doc::JsonType;
use json_number::{JsonNumberTrait, Number, RawNumber};
use json_text::{Error, ErrorCode, Place, Result};
use json_value::{Array, Object, Value, View};
use std::alloc::Global;
use test_fixtures::{first_wrong, or_null, value_of};

const GREATEST: u64 = 18446744073709551615;

// What was refused.
fn refused() -> Result<Value> {
    Err(Error {
        code: ErrorCode::NotFound,
        place: Place::None,
    })
}

// Whether the kind is this one, and the question for just this kind is answered by yes.
fn is_kind<V: JsonValueTrait>(value: &V, kind: JsonType) -> bool {
    let null = value.is_null() == (kind == JsonType::Null);
    let boolean = value.is_boolean() == (kind == JsonType::Boolean);
    let number = value.is_number() == (kind == JsonType::Number);
    let text = value.is_str() == (kind == JsonType::String);
    let array = value.is_array() == (kind == JsonType::Array);
    let object = value.is_object() == (kind == JsonType::Object);
    value.get_type() == kind && null && boolean && number && text && array && object
}

// Whether a value, a view of it, the value where it is lent, and what may be missing but is this
// value are of this kind.
fn seen_are_of_kind(value: &Value, kind: JsonType) -> bool {
    let (own, seen) = (is_kind(value, kind), is_kind(&value.view(), kind));
    let (lent, found) = (is_kind(&value, kind), is_kind(&Some(value), kind));
    own && seen && lent && found
}

// The same of the value of a text, and of what may be refused but is this value.
fn are_of_kind(alloc: Global, json: &str, kind: JsonType) -> bool {
    let answer = value_of(alloc, json);
    let answered = answer.is_ok() && is_kind(&answer, kind);
    seen_are_of_kind(&or_null(answer), kind) && answered
}

fn is_missing<V: JsonContainerTrait>(value: &V) -> bool {
    value.is_null() && value.as_array().is_none() && value.as_object().is_none()
}

fn is_no_scalar<V: JsonValueTrait>(value: &V) -> bool {
    value.as_str().is_none() && value.as_bool().is_none() && value.as_number().is_none()
}

fn has_no_literal<V: JsonValueTrait>(alloc: Global, value: &V) -> bool {
    matches!(value.as_raw_number(alloc), Ok(None))
}

// Whether a missing value is null, and has no literal.
fn none_is_null(alloc: Global, none: Option<Value>) -> bool {
    is_missing(&none) && has_no_literal(alloc, &none)
}

// Whether a refused value is null, and no scalar, and has no literal.
fn refused_is_null(alloc: Global, refused: Result<Value>) -> bool {
    is_missing(&refused) && is_no_scalar(&refused) && has_no_literal(alloc, &refused)
}

// Whether it is the one boolean and not the other.
fn is_boolean<V: JsonValueTrait>(value: &V, boolean: bool) -> bool {
    value.is_true() == boolean && value.is_false() != boolean
}

// Whether it is so of a value, of its view, and of what may be missing but is this value.
fn are_boolean(value: &Value, boolean: bool) -> bool {
    let (own, seen) = (
        is_boolean(value, boolean),
        is_boolean(&value.view(), boolean),
    );
    own && seen && is_boolean(&Some(value), boolean)
}

// Whether this text, this boolean and this number are read of it, each or none.
fn is_scalar<V: JsonValueTrait>(
    value: &V,
    text: Option<&str>,
    boolean: Option<bool>,
    number: Option<Number>,
) -> bool {
    let said = value.as_str() == text;
    let counted = value.as_number() == number;
    value.as_bool() == boolean && said && counted
}

// Whether it is so of a value, of its view, of the value where it is lent, and of what may be
// missing or refused but is this value.
fn are_scalar(
    value: &Value,
    text: Option<&str>,
    boolean: Option<bool>,
    number: Option<Number>,
) -> bool {
    let answer: Result<&Value> = Ok(value);
    let own = is_scalar(value, text, boolean, number);
    let seen = is_scalar(&value.view(), text, boolean, number);
    let lent = is_scalar(&value, text, boolean, number);
    let found = is_scalar(&Some(value), text, boolean, number);
    let answered = is_scalar(&answer, text, boolean, number);
    own && seen && lent && found && answered
}

// Whether what was found is the number 7.
fn found_seven(found: Option<Value>) -> bool {
    is_scalar(&found, None, None, Some(Number::from(7_u8)))
}

fn is_greatest(value: &Value) -> bool {
    let found = Some(value);
    let fits = found.is_u64() && !found.is_i64();
    fits && found.as_u64() == Some(GREATEST) && found.as_i64().is_none()
}

// What is read of a value.
#[derive(Clone, Copy)]
enum Reading {
    Boolean(bool),
    NoBoolean,
    Scalar(Option<&'static str>, Option<bool>, Option<u8>),
    Greatest,
    Integer(Option<i64>),
}

fn number_of(number: Option<u8>) -> Option<Number> {
    match number {
        Some(number) => Some(Number::from(number)),
        None => None,
    }
}

impl Call for Reading {
    fn is_right(self, value: &mut Value, _alloc: Global) -> bool {
        match self {
            Reading::Boolean(boolean) => are_boolean(value, boolean),
            Reading::NoBoolean => !value.is_true() && !value.is_false(),
            Reading::Scalar(text, boolean, number) => {
                are_scalar(value, text, boolean, number_of(number))
            }
            Reading::Greatest => is_greatest(value),
            Reading::Integer(number) => value.as_u64().is_none() && value.as_i64() == number,
        }
    }
}

const SCALARS: &[MadeRow<Reading>] = &[
    ("true", Item::Boolean(true), Reading::Boolean(true)),
    ("false", Item::Boolean(false), Reading::Boolean(false)),
    ("null is no boolean", Item::Null, Reading::NoBoolean),
    (
        "a text",
        Item::Text("a"),
        Reading::Scalar(Some("a"), None, None),
    ),
    (
        "a truth",
        Item::Boolean(true),
        Reading::Scalar(None, Some(true), None),
    ),
    (
        "a number",
        Item::Number(7),
        Reading::Scalar(None, None, Some(7)),
    ),
    (
        "the greatest integer",
        Item::Number(GREATEST),
        Reading::Greatest,
    ),
    (
        "an integer below zero",
        Item::Negative(-7),
        Reading::Integer(Some(-7)),
    ),
    ("null is no integer", Item::Null, Reading::Integer(None)),
];

// Whether there is a literal, and it is this one.
fn is_literal(made: Result<Option<RawNumber>>, literal: &str) -> bool {
    match made {
        Ok(Some(number)) => number.as_str() == literal,
        _ => false,
    }
}

// Whether the literal of a value, of its view, of the value where it is lent, and of what may be
// missing but is this value is this one.
fn seen_are_spelled(alloc: Global, value: &Value, literal: &str) -> bool {
    let own = is_literal(value.as_raw_number(alloc), literal);
    let seen = is_literal(value.view().as_raw_number(alloc), literal);
    let lent = is_literal((&value).as_raw_number(alloc), literal);
    let found = is_literal(Some(value).as_raw_number(alloc), literal);
    own && seen && lent && found
}

// So of the value of a literal, and of what may have been refused but is this value.
fn are_spelled(alloc: Global, literal: &str) -> bool {
    let answer = value_of(alloc, literal);
    let spelled = is_literal(answer.as_raw_number(alloc), literal);
    seen_are_spelled(alloc, &or_null(answer), literal) && spelled
}

// Whether an array is of that many elements, and an object of that many members.
fn are_sized(
    array: Option<&Array>,
    object: Option<&Object>,
    len: Option<usize>,
    count: Option<usize>,
) -> bool {
    let elements = match array {
        Some(array) => Some(array.view().len()),
        None => None,
    };
    let members = match object {
        Some(object) => Some(object.view().len()),
        None => None,
    };
    elements == len && members == count
}

// Whether a value, the value where it is lent, and what may be missing but is this value have as
// many.
fn seen_are_sized(value: &Value, len: Option<usize>, count: Option<usize>) -> bool {
    let (lent, some) = (&value, Some(value));
    let own = are_sized(value.as_array(), value.as_object(), len, count);
    let passed = are_sized(lent.as_array(), lent.as_object(), len, count);
    own && passed && are_sized(some.as_array(), some.as_object(), len, count)
}

// The same of the value of a text, and of what may be refused but is this value.
fn has_size(alloc: Global, json: &str, len: Option<usize>, count: Option<usize>) -> bool {
    let answer = value_of(alloc, json);
    let sized = are_sized(answer.as_array(), answer.as_object(), len, count);
    let answered = answer.is_ok() && sized;
    seen_are_sized(&or_null(answer), len, count) && answered
}

// What the value of a text is read as.
#[derive(Clone, Copy)]
enum Text {
    Kind(JsonType),
    Literal,
    Size(Option<usize>, Option<usize>),
}

fn is_read(alloc: Global, json: &str, text: Text) -> bool {
    match text {
        Text::Kind(kind) => are_of_kind(alloc, json, kind),
        Text::Literal => are_spelled(alloc, json),
        Text::Size(len, count) => has_size(alloc, json, len, count),
    }
}

const ROWS: &[(&str, &str, Text)] = &[
    ("null", "null", Text::Kind(JsonType::Null)),
    ("a boolean", "true", Text::Kind(JsonType::Boolean)),
    ("an integer", "12", Text::Kind(JsonType::Number)),
    ("a literal", "1.5", Text::Kind(JsonType::Number)),
    ("a text", "\"a\"", Text::Kind(JsonType::String)),
    ("an array", "[1]", Text::Kind(JsonType::Array)),
    ("an object", "{\"k\":1}", Text::Kind(JsonType::Object)),
    ("12", "12", Text::Literal),
    ("-7", "-7", Text::Literal),
    ("the greatest", "18446744073709551615", Text::Literal),
    ("1.50e3", "1.50e3", Text::Literal),
    ("-0", "-0", Text::Literal),
    ("elements", "[1,2]", Text::Size(Some(2), None)),
    ("members", "{\"k\":1}", Text::Size(None, Some(1))),
    ("null has neither", "null", Text::Size(None, None)),
];

fn wrong_text(alloc: Global) -> Option<&'static str> {
    for (shown, json, text) in ROWS {
        if !is_read(alloc, json, *text) {
            return Some(*shown);
        }
    }
    None
}

fn wrong_missing(alloc: Global) -> Option<&'static str> {
    let none: Option<View<'_>> = None;
    first_wrong(&[
        ("a missing view is null", is_kind(&none, JsonType::Null)),
        ("a missing value is null", none_is_null(alloc, None)),
        ("a refused value is null", refused_is_null(alloc, refused())),
        ("a found number", found_seven(Some(Value::new_u64(7)))),
    ])
}

#[test]
fn values_are_read(rt: HostRuntime) {
    assert_none(&rt, wrong_text(rt.alloc()));
    assert_none(&rt, wrong_made(rt.alloc(), SCALARS));
    assert_none(&rt, wrong_missing(rt.alloc()));
}
