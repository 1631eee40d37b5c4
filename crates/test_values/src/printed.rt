// The compact texts of values and of views.
use crate::looks::{Call, Look, Open, assert_none, wrong_document, wrong_look};
use json_doc::Doc;
use json_number::{Number, RawNumber};
use json_print::{BufferedWriter, OneLine, Serializer};
use json_text::{Result, VecSink, flush_all};
use json_value::{Array, Object, Pair, Text, Value, View};
use std::alloc::Global;
use std::rc::Rc;
use test_fixtures::{first_wrong, or_null, pairs_in, whole};

// Whether this is the compact text of what is seen.
fn prints(alloc: Global, view: View<'_>, json: &[u8]) -> bool {
    let mut out = Serializer::new(alloc, VecSink::new(alloc));
    let done = view.emit(&mut out).is_ok();
    done && out.into_inner().as_slice() == json
}

// The same of a value that was made.
fn made_prints(alloc: Global, made: Result<Value>, json: &[u8]) -> bool {
    prints(alloc, or_null(made).view(), json)
}

const TEXT: &str = "{\"a\":[1,-2.50e3,\"\\n\"],\"b\":{},\"a\":[],\"c\":false,\"d\":null}";

// The same of the value of a whole document, and of its copy, which are the text `TEXT`.
fn document_prints(doc: &Rc<Doc>, alloc: Global) -> bool {
    let packed = made_prints(alloc, whole(alloc, doc), TEXT.as_bytes());
    let copied = View::packed(doc.view()).to_value(alloc);
    made_prints(alloc, copied, TEXT.as_bytes()) && packed
}

// `{"a":true,"b":[],"a":{}}`, made by hand.
fn made_object(alloc: Global) -> Result<Value> {
    let first = Pair::new(Text::from_static("a"), Value::new_bool(true));
    let second = Pair::new(Text::from_static("b"), Value::new_array());
    let third = Pair::new(Text::from_static("a"), Value::new_object());
    Ok(Object::from_list(vec![in alloc; first, second, third]?).into_value())
}

// `[null,{"a":true,"b":[],"a":{}},"x"]`, made by hand.
fn made(alloc: Global) -> Result<Value> {
    let object = or_null(made_object(alloc));
    let text = Value::from_static_str("x");
    Ok(Value::from_vec(vec![in alloc; Value::new_null(), object, text]?))
}

fn literal(alloc: Global, text: &str) -> Result<Value> {
    Ok(Value::from_raw_number(RawNumber::new(alloc, text)?))
}

// The numbers `[18446744073709551615,-7,1,-0]`.
fn numbers(alloc: Global) -> Result<Value> {
    let greatest = Value::new_u64(18_446_744_073_709_551_615);
    let one = Value::from_number(Number::from(1u8));
    let zero = or_null(literal(alloc, "-0"));
    Value::from_slice_of(alloc, &[greatest, Value::new_i64(-7), one, zero])
}

// The compact text of what is seen with the members of each object in the order of their keys.
fn sorted(alloc: Global, view: View<'_>) -> Result<VecSink> {
    let mut out = BufferedWriter::new(alloc, VecSink::new(alloc))?;
    view.print_sorted(alloc, OneLine, &mut out)?;
    flush_all(&mut out)?;
    Ok(out.into_inner())
}

// Whether it is this one.
fn prints_sorted(alloc: Global, view: View<'_>, json: &[u8]) -> bool {
    match sorted(alloc, view) {
        Ok(out) => out.as_slice() == json,
        Err(_) => false,
    }
}

// What is printed of a document.
#[derive(Clone, Copy)]
enum Print {
    Text,
    Sorted(&'static str),
}

impl Open for Print {
    fn is_right(self, doc: &Rc<Doc>, alloc: Global) -> bool {
        match self {
            Print::Text => document_prints(doc, alloc),
            Print::Sorted(json) => {
                prints_sorted(alloc, View::packed(doc.view()), json.as_bytes())
            }
        }
    }
}

const DOCUMENTS: &[Look<Print>] = &[
    ("values of a document are printed", TEXT, Print::Text),
    (
        "objects of a document are printed in the order of their keys",
        "{\"c\":[{\"b\":1,\"a\":2}],\"b\":3,\"b\":4,\"a\":5}",
        Print::Sorted("{\"a\":5,\"b\":3,\"b\":4,\"c\":[{\"a\":2,\"b\":1}]}"),
    ),
];

fn wrong_text(alloc: Global) -> Option<&'static str> {
    let by_hand = or_null(made(alloc));
    let written = b"[null,{\"a\":true,\"b\":[],\"a\":{}},\"x\"]";
    let sorted = b"[null,{\"a\":true,\"a\":{},\"b\":[]},\"x\"]";
    let spelled = b"[18446744073709551615,-7,1,-0]";
    first_wrong(&[
        (
            "values made by hand are printed",
            prints(alloc, by_hand.view(), written),
        ),
        (
            "objects made by hand are printed in the order of their keys",
            prints_sorted(alloc, by_hand.view(), sorted),
        ),
        (
            "numbers are printed",
            made_prints(alloc, numbers(alloc), spelled),
        ),
    ])
}

// Whether a text was made, and is this one.
fn is_text<E: Drop>(made: std::result::Result<String, E>, text: &str) -> bool {
    match made {
        Ok(made) => made.as_str() == text,
        Err(_) => false,
    }
}

// Whether both texts of a value, by its method and by `Display`, are this one.
fn is_displayed(alloc: Global, value: &Value, json: &str) -> bool {
    let displayed = is_text(format!(in alloc; "{value}"), json);
    is_text(value.to_string(alloc), json) && displayed
}

// The same of an array.
fn is_array_displayed(alloc: Global, array: &Array, json: &str) -> bool {
    let displayed = is_text(format!(in alloc; "{array}"), json);
    is_text(array.to_string(alloc), json) && displayed
}

// The same of an object.
fn is_object_displayed(alloc: Global, object: &Object, json: &str) -> bool {
    let displayed = is_text(format!(in alloc; "{object}"), json);
    is_text(object.to_string(alloc), json) && displayed
}

// The same of the array or the object that a value is.
fn is_container_displayed(alloc: Global, value: &Value, json: &str) -> bool {
    match value {
        Value::Array(array) => is_array_displayed(alloc, array, json),
        Value::Object(object) => is_object_displayed(alloc, object, json),
        _ => false,
    }
}

// The same of the value of the first of the members.
fn is_first_displayed(alloc: Global, members: &[Pair], json: &str) -> bool {
    match members.first() {
        Some(first) => is_container_displayed(alloc, first.value(), json),
        None => false,
    }
}

// The same of the first member of a value, after the first write of its object.
fn first_is_displayed(alloc: Global, value: &mut Value, json: &str) -> bool {
    match pairs_in(value, alloc) {
        Ok(Some(members)) => is_first_displayed(alloc, members.as_slice(), json),
        _ => false,
    }
}

const NESTED: &str = "{\"a\":[\"\\u001f\\\"é\",-2.50e3],\"b\":{}}";

// The value, the first of its members, and the object that it is.
fn all_are_displayed(value: &mut Value, alloc: Global) -> bool {
    let whole = is_displayed(alloc, value, NESTED);
    let inner = first_is_displayed(alloc, value, "[\"\\u001f\\\"é\",-2.50e3]");
    is_container_displayed(alloc, value, NESTED) && whole && inner
}

fn error_is_displayed(alloc: Global) -> bool {
    match RawNumber::new(alloc, "01") {
        Ok(_) => false,
        Err(refused) => is_text(refused.to_string(alloc), "InvalidNumber"),
    }
}

// What is displayed of a value.
#[derive(Clone, Copy)]
enum Display {
    All,
    List,
}

impl Call for Display {
    fn is_right(self, value: &mut Value, alloc: Global) -> bool {
        match self {
            Display::All => all_are_displayed(value, alloc),
            Display::List => is_displayed(alloc, value, "[1]"),
        }
    }
}

const DISPLAYED: &[Look<Display>] = &[
    (
        "a value, its object and an array in it are displayed",
        NESTED,
        Display::All,
    ),
    ("an array is displayed", "[1]", Display::List),
];

fn wrong_display(alloc: Global) -> Option<&'static str> {
    first_wrong(&[
        (
            "a number is displayed",
            is_text(Number::from(7_u8).to_string(alloc), "7"),
        ),
        ("an error is displayed", error_is_displayed(alloc)),
    ])
}

#[test]
fn values_are_printed_and_displayed(rt: HostRuntime) {
    assert_none(&rt, wrong_document(rt.alloc(), DOCUMENTS));
    assert_none(&rt, wrong_text(rt.alloc()));
    assert_none(&rt, wrong_look(rt.alloc(), DISPLAYED));
    assert_none(&rt, wrong_display(rt.alloc()));
}
