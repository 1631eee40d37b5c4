//! What tests of values read, and how they look at it; and [`callers`], to copy from. No clause
//! says what is made here: tests compare it with what they expect. A test is a list of rows, each
//! with what it shows and whether that is so. It is proved fastest where a row is one call that
//! answers yes or no, and no more is done where something is owned.
//!
//! ```
//! use test_fixtures::{becomes, first_wrong};
//! use json_value::Value;
//! fn take(value: &mut Value, alloc: Global) -> bool {
//!     value.take().to_string(alloc).is_ok()
//! }
//! let rows = [("null is left", becomes(alloc, "[1]", take, "null"))];
//! assert_eq!(rt; first_wrong(&rows), None);
//! ```
#![tactic(auto)]

pub mod callers;

use json_doc::{Doc, read_document};
use json_text::{Error, ErrorCode, Place, Result};
use json_value::{Array, Object, Pair, PointerNode, Text, Value, ValueRef};
use std::alloc::Global;
use std::rc::Rc;

/// The document of a text of fewer than 1000 bytes; a longer one is `TooLarge`.
pub fn read(alloc: Global, json: &str) -> Result<Rc<Doc>> {
    if json.len() < 1000 {
        read_document(alloc, json)
    } else {
        Err(Error {
            code: ErrorCode::TooLarge,
            place: Place::None,
        })
    }
}

/// The value of a whole document: a place of it, unless it is a scalar or has no members. Fails
/// with `NoMemory` if memory runs out.
pub fn whole(alloc: Global, doc: &Rc<Doc>) -> Result<Value> {
    Value::from_place(alloc, doc, doc.root())
}

/// The value of a text, as of its document. Fails with `NoMemory` if memory runs out.
pub fn value_of(alloc: Global, json: &str) -> Result<Value> {
    let doc = read(alloc, json)?;
    whole(alloc, &doc)
}

/// What the first row shows of which that is not so, if there is one.
pub fn first_wrong(rows: &[(&'static str, bool)]) -> Option<&'static str> {
    for (shown, right) in rows {
        if !*right {
            return Some(*shown);
        }
    }
    None
}

/// Whether a text has a document, and that is as it should be.
pub fn is_document(alloc: Global, json: &str, is_right: fn(&Rc<Doc>, Global) -> bool) -> bool
    requires { IsAlwaysCallable is_right }
{
    match read(alloc, json) {
        Ok(doc) => is_right(&doc, alloc),
        Err(_) => false,
    }
}

/// Whether a value is as it should be.
pub fn is_so(alloc: Global, value: Value, is_right: fn(&Value, Global) -> bool) -> bool
    requires { IsAlwaysCallable is_right }
{
    is_right(&value, alloc)
}

/// Whether a value was made, and is as it should be.
pub fn is_made_so(alloc: Global, made: Result<Value>, is_right: fn(&Value, Global) -> bool) -> bool
    requires { IsAlwaysCallable is_right }
{
    match made {
        Ok(value) => is_right(&value, alloc),
        Err(_) => false,
    }
}

/// Whether a text has a value, and that is as it should be.
pub fn is_value(alloc: Global, json: &str, is_right: fn(&Value, Global) -> bool) -> bool
    requires { IsAlwaysCallable is_right }
{
    is_made_so(alloc, value_of(alloc, json), is_right)
}

/// Whether a value was made, and the change answers that it was done.
pub fn is_done(alloc: Global, made: Result<Value>, change: fn(&mut Value, Global) -> bool) -> bool
    requires { IsAlwaysCallable change }
{
    match made {
        Ok(mut value) => change(&mut value, alloc),
        Err(_) => false,
    }
}

/// Whether the text has a value, the change answers that it was done, and the value then has this
/// compact text.
pub fn becomes(
    alloc: Global,
    json: &str,
    change: fn(&mut Value, Global) -> bool,
    then: &str,
) -> bool
    requires { IsAlwaysCallable change }
{
    match value_of(alloc, json) {
        Ok(mut value) => change(&mut value, alloc) && is_shown(alloc, &value, then),
        Err(_) => false,
    }
}

/// Whether the compact text of a value is this one, and is made.
pub fn is_shown(alloc: Global, value: &Value, json: &str) -> bool {
    matches!(shows(alloc, value, json), Ok(true))
}

/// Whether the compact text of a value is this one, and is made; the value is dropped.
pub fn was_shown(alloc: Global, value: Value, json: &str) -> bool {
    is_shown(alloc, &value, json)
}

/// Whether a value was made, and its compact text is this one.
pub fn is_made(alloc: Global, made: Result<Value>, json: &str) -> bool {
    match made {
        Ok(value) => was_shown(alloc, value, json),
        Err(_) => false,
    }
}

/// A value that was made; null if it was not.
pub fn or_null(made: Result<Value>) -> Value {
    made.unwrap_or(Value::new_null())
}

/// Whether the compact text of a value is this one. Fails with `NoMemory` if memory runs out.
pub fn shows(alloc: Global, value: &Value, json: &str) -> Result<bool> {
    let shown = value.to_string(alloc)?;
    Ok(shown.as_str() == json)
}

/// A copy of a value. Fails with `NoMemory` if memory runs out.
pub fn copied(alloc: Global, value: &Value) -> Result<Value> {
    value.clone(alloc)
}

/// The characters of a string, or of a literal that is kept as it was written.
pub fn said(value: &Value) -> Option<&str> {
    match value.as_ref() {
        ValueRef::String(text) | ValueRef::RawNumber(text) => Some(text),
        _ => None,
    }
}

/// The step to the first member of a key.
pub fn key(name: &'static str) -> PointerNode {
    PointerNode::Key(Text::from_static(name))
}

/// The array that a value is, to be changed.
pub fn array_in(value: &mut Value) -> Option<&mut Array> {
    match value {
        Value::Array(array) => Some(array),
        _ => None,
    }
}

/// The object that a value is, to be changed.
pub fn object_in(value: &mut Value) -> Option<&mut Object> {
    match value {
        Value::Object(object) => Some(object),
        _ => None,
    }
}

/// Returns the list of the array that a value is, after its first write. Fails with `NoMemory` if
/// memory runs out.
pub fn list_in(value: &mut Value, alloc: Global) -> Result<Option<&mut Vec<Value>>> {
    match array_in(value) {
        Some(array) => Ok(Some(array.list_mut(alloc)?)),
        None => Ok(None),
    }
}

/// Returns the members of the object that a value is, after its first write. Fails with `NoMemory`
/// if memory runs out.
pub fn pairs_in(value: &mut Value, alloc: Global) -> Result<Option<&mut Vec<Pair>>> {
    match object_in(value) {
        Some(object) => Ok(Some(object.pairs_mut(alloc)?)),
        None => Ok(None),
    }
}
