// The values that are edits and steps, and what is wrong with one that is no edit.
ghost use Rattle.std.specs.Prelude.{◌≡◌, is_some};
ghost use Rattle.json_number.specs.Numbers.{value_of};
ghost use Rattle.json_value.specs.EditTrees.{index_of, step_in};
ghost use Rattle.json_value.specs.Seen.{seen};

use json_number::{JsonNumberTrait, Number};
use json_value::{ArrayView, View};

// Whether a number is an index: an integer from 0 that is below 2^32.
fn is_index(number: Number) -> bool
    ensures { result ≡ is_some (index_of (value_of number)) }
{
    match number.as_u64() {
        Some(index) => u32::try_from(index).is_ok(),
        None => false,
    }
}

/// Returns whether a value is a step: a string, which is a key, or an index.
pub fn is_step(value: View<'_>) -> bool
    ensures { result ≡ is_some (step_in (seen value.entry)) }
{
    if value.text().is_some() {
        return true;
    }
    match value.as_number() {
        Some(number) => is_index(number),
        None => false,
    }
}

/// Returns whether a value is an array of steps.
pub(crate) fn is_path(value: View<'_>) -> bool {
    match value.as_array() {
        Some(array) => array.iter().all(is_step),
        None => false,
    }
}

/// Returns the string that is an element of an array, counted from 0.
pub(crate) fn text_element<'a>(array: ArrayView<'a>, i: usize) -> Option<&'a str> {
    array.get(i)?.text()
}

// Returns what is wrong with the operands of an edit of this name.
fn operands_fault(name: &str, edit: ArrayView<'_>) -> Option<&'static str> {
    if !edit.get(1).is_some_and(is_path) {
        return Some("its path is no array of steps");
    }
    if name == "insert" && text_element(edit, 2).is_none() {
        return Some("its key is no string");
    }
    if name == "remove" && !edit.get(2).is_some_and(is_step) {
        return Some("its step is no string and no index");
    }
    None
}

/// Returns what is wrong with a value that is no edit; `None` if it is one. An edit is
/// `["set", path, value]`, `["insert", path, key, value]`, `["push", path, value]` or
/// `["remove", path, step]`.
///
/// ```
/// use json_doc::read_document;
/// use json_value::View;
/// use mezdruk_help::edit_fault;
/// let edit = read_document(alloc, "[\"sett\", [], 1]")?;
/// let fault = "its name is none of set, insert, push and remove";
/// assert_eq!(rt; edit_fault(View::packed(edit.view())), Some(fault));
/// ```
pub fn edit_fault(value: View<'_>) -> Option<&'static str> {
    let Some(edit) = value.as_array() else {
        return Some("it is no array");
    };
    let Some(name) = text_element(edit, 0) else {
        return Some("it does not begin with a name");
    };
    let form = match name {
        "set" => (3, "it is not [\"set\", path, value]"),
        "insert" => (4, "it is not [\"insert\", path, key, value]"),
        "push" => (3, "it is not [\"push\", path, value]"),
        "remove" => (3, "it is not [\"remove\", path, step]"),
        _ => return Some("its name is none of set, insert, push and remove"),
    };
    if edit.len() != form.0 {
        return Some(form.1);
    }
    operands_fault(name, edit)
}
