// How tests look at values, at what calls return, and at the rows of their tables.
use json_doc::Doc;
use json_number::{Number, RawNumber};
use json_text::Result;
use json_value::{ArrayView, Value, View};
use std::alloc::Global;
use std::process::Abort;
use std::rc::Rc;
use test_fixtures::{is_shown, read, value_of, was_shown};

// Fails with what the first wrong row shows, if there is one.
pub(crate) fn assert_none(rt: &impl Abort, wrong: Option<&'static str>) {
    assert!(rt; wrong.is_none(), "{wrong:?}");
}

// A call that a row makes of a value, with what is expected of its result.
pub(crate) trait Call: Copy {
    // Whether the result is what is expected.
    fn is_right(self, value: &mut Value, alloc: Global) -> bool;
}

// What a row shows, the text of a value, a call, and the text that the value then has.
pub(crate) type Row<C> = (&'static str, &'static str, C, &'static str);

// Whether the text has a value, the call is right, and the value then has the other text.
fn becomes<C: Call>(alloc: Global, json: &str, call: C, then: &str) -> bool {
    match value_of(alloc, json) {
        Ok(mut value) => call.is_right(&mut value, alloc) && is_shown(alloc, &value, then),
        Err(_) => false,
    }
}

// What the first row shows that is wrong, if there is one.
pub(crate) fn wrong_row<C: Call>(alloc: Global, rows: &[Row<C>]) -> Option<&'static str> {
    for (shown, json, call, then) in rows {
        if !becomes(alloc, json, *call, then) {
            return Some(*shown);
        }
    }
    None
}

// What a row shows, the text of a value, and a call.
pub(crate) type Look<C> = (&'static str, &'static str, C);

// Whether the text has a value, and the call is right.
fn looks_right<C: Call>(alloc: Global, json: &str, call: C) -> bool {
    match value_of(alloc, json) {
        Ok(mut value) => call.is_right(&mut value, alloc),
        Err(_) => false,
    }
}

// What the first row shows that is wrong, if there is one.
pub(crate) fn wrong_look<C: Call>(alloc: Global, rows: &[Look<C>]) -> Option<&'static str> {
    for (shown, json, call) in rows {
        if !looks_right(alloc, json, *call) {
            return Some(*shown);
        }
    }
    None
}

// A look at a document, with what is expected there.
pub(crate) trait Open: Copy {
    // Whether that is there.
    fn is_right(self, doc: &Rc<Doc>, alloc: Global) -> bool;
}

fn document_is_right<C: Open>(alloc: Global, json: &str, look: C) -> bool {
    match read(alloc, json) {
        Ok(doc) => look.is_right(&doc, alloc),
        Err(_) => false,
    }
}

// What the first row shows that is wrong, if there is one.
pub(crate) fn wrong_document<C: Open>(alloc: Global, rows: &[Look<C>]) -> Option<&'static str> {
    for (shown, json, look) in rows {
        if !document_is_right(alloc, json, *look) {
            return Some(*shown);
        }
    }
    None
}

// What a value is made of.
#[derive(Clone, Copy)]
pub(crate) enum Item {
    Null,
    Boolean(bool),
    Number(u64),
    Negative(i64),
    Text(&'static str),
    Array,
    Object,
}

pub(crate) fn made(item: Item) -> Value {
    match item {
        Item::Null => Value::new_null(),
        Item::Boolean(boolean) => Value::new_bool(boolean),
        Item::Number(number) => Value::new_u64(number),
        Item::Negative(number) => Value::new_i64(number),
        Item::Text(text) => Value::from_static_str(text),
        Item::Array => Value::new_array(),
        Item::Object => Value::new_object(),
    }
}

// What a row shows, what a value is made of, and a call.
pub(crate) type MadeRow<C> = (&'static str, Item, C);

fn made_is_right<C: Call>(alloc: Global, item: Item, call: C) -> bool {
    let mut value = made(item);
    call.is_right(&mut value, alloc)
}

// What the first row shows that is wrong, if there is one.
pub(crate) fn wrong_made<C: Call>(alloc: Global, rows: &[MadeRow<C>]) -> Option<&'static str> {
    for (shown, item, call) in rows {
        if !made_is_right(alloc, *item, *call) {
            return Some(*shown);
        }
    }
    None
}

pub(crate) fn is_null(value: &Value) -> bool {
    matches!(value, Value::Null)
}

pub(crate) fn is_number(view: View<'_>, number: u64) -> bool {
    view.as_number() == Some(Number::from(number))
}

// Whether a value is this number.
pub(crate) fn was_number(value: Value, number: u64) -> bool {
    is_number(value.view(), number)
}

// Whether a value is seen, and it is this number.
pub(crate) fn sees(view: Option<View<'_>>, number: u64) -> bool {
    match view {
        Some(view) => is_number(view, number),
        None => false,
    }
}

// Whether a value is seen, and it is this text.
pub(crate) fn sees_text(view: Option<View<'_>>, text: &str) -> bool {
    match view {
        Some(view) => view.text() == Some(text),
        None => false,
    }
}

// How many elements there are in an array that is seen, and whether there is none.
pub(crate) fn elements(array: Option<ArrayView<'_>>) -> Option<(usize, bool)> {
    match array {
        Some(array) => Some((array.iter().len(), array.is_empty())),
        None => None,
    }
}

// Whether a literal was made, and has these characters.
pub(crate) fn is_spelled(made: Result<RawNumber>, literal: &str) -> bool {
    match made {
        Ok(raw) => raw.as_str() == literal,
        Err(_) => false,
    }
}

// Whether the value that was asked for has this compact text; none is expected where the text is
// empty.
pub(crate) fn gave(alloc: Global, given: Result<Option<Value>>, json: &str) -> bool {
    match given {
        Ok(Some(value)) => was_shown(alloc, value, json),
        Ok(None) => json.is_empty(),
        Err(_) => false,
    }
}

// Whether there is a value, and it has this compact text; none is expected where the text is empty.
pub(crate) fn is_next(alloc: Global, next: Option<Value>, json: &str) -> bool {
    match next {
        Some(value) => was_shown(alloc, value, json),
        None => json.is_empty(),
    }
}
