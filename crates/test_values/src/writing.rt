// What is written at places that are lent.
use json_text::Result;
use json_value::{Index, PointerNode, Value};
use std::alloc::Global;

// Puts a value in the place of another.
pub(crate) fn set(place: &mut Value, value: Value) {
    *place = value;
}

// Puts a number in the place of a value.
pub(crate) fn put(place: &mut Value, number: u64) {
    set(place, Value::new_u64(number));
}

// Puts a text in the place of a value.
pub(crate) fn set_text(place: &mut Value, text: &'static str) {
    set(place, Value::from_static_str(text));
}

// Puts a text at a place that is lent; answers whether one is.
pub(crate) fn write_text(lent: Result<&mut Value>, text: &'static str) -> bool {
    match lent {
        Ok(place) => {
            set_text(place, text);
            true
        }
        Err(_) => false,
    }
}

// Puts a number at a place; answers whether there is one.
pub(crate) fn write_number(place: Option<&mut Value>, number: u64) -> bool {
    match place {
        Some(place) => {
            put(place, number);
            true
        }
        None => false,
    }
}

// Puts a number at the place to which the steps lead; answers whether there is one.
pub(crate) fn write_at(
    value: &mut Value,
    alloc: Global,
    path: &[PointerNode],
    number: u64,
) -> bool {
    match value.reach(alloc, path) {
        Ok(place) => write_number(place, number),
        Err(_) => false,
    }
}

// The same of the place of one step.
pub(crate) fn write_step<I: Index>(value: &mut Value, alloc: Global, step: I, number: u64) -> bool {
    match value.step_mut(alloc, step) {
        Ok(place) => write_number(place, number),
        Err(_) => false,
    }
}

// Whether a place was looked for and there is none.
pub(crate) fn is_nowhere(place: Result<Option<&mut Value>>) -> bool {
    matches!(place, Ok(None))
}
