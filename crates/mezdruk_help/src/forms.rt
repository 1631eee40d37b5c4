// What is wrong with the value of an argument that is a JSON text.
use crate::edits::{edit_fault, is_path, is_step, text_element};
use crate::usage::{ArgumentForm, TextArgument};
use json_value::View;
use std::alloc::{AllocError, Global};

impl ArgumentForm {
    // Returns what the value has to be.
    fn wanted(self) -> &'static str {
        match self {
            ArgumentForm::Edits => "array of edits",
            ArgumentForm::Calls => "array of edits, [\"undo\"] and [\"redo\"]",
            ArgumentForm::Columns => "array of 1 to 64 columns",
            ArgumentForm::Path => "array of steps",
            ArgumentForm::Any => "value",
        }
    }

    // Returns what an element of the value is called.
    fn element_name(self) -> &'static str {
        match self {
            ArgumentForm::Path => "step",
            _ => "element",
        }
    }

    // Returns what is wrong with an element of the value.
    fn element_fault(self, element: View<'_>) -> Option<(&'static str, &'static str)> {
        match self {
            ArgumentForm::Edits => Some(("edit", edit_fault(element)?)),
            ArgumentForm::Calls => Some(("edit, undo or redo", call_fault(element)?)),
            ArgumentForm::Columns => Some(("column", column_fault(element)?)),
            ArgumentForm::Path if is_step(element) => None,
            ArgumentForm::Path => Some(("string and no index", "")),
            ArgumentForm::Any => None,
        }
    }
}

// Returns what is wrong with an edit, an undo or a redo.
fn call_fault(value: View<'_>) -> Option<&'static str> {
    if let Some(array) = value.as_array() {
        if array.len() == 1 && matches!(text_element(array, 0), Some("undo" | "redo")) {
            return None;
        }
    }
    edit_fault(value)
}

// Returns what is wrong with a column.
fn column_fault(value: View<'_>) -> Option<&'static str> {
    let Some(column) = value.as_array() else {
        return Some("it is no array");
    };
    if column.len() != 2 {
        return Some("it is not [path, kind]");
    }
    if !column.get(0).is_some_and(is_path) {
        return Some("its path is no array of steps");
    }
    match text_element(column, 1) {
        Some("text" | "int" | "bool" | "json") => None,
        _ => Some("its kind is none of text, int, bool and json"),
    }
}

// Returns what is wrong with an element of this number of the argument, where something is.
fn element_report(
    alloc: Global,
    argument: TextArgument,
    number: usize,
    element: View<'_>,
) -> Result<Option<String>, AllocError> {
    let Some((wanted, fault)) = argument.form.element_fault(element) else {
        return Ok(None);
    };
    let (name, called) = (argument.name, argument.form.element_name());
    let mut text = format!(in alloc; "{called} {number} of {name} is no {wanted}")?;
    if !fault.is_empty() {
        text.push_str(": ")?;
        text.push_str(fault)?;
    }
    Ok(Some(text))
}

/// Returns what is wrong with the form of an argument's JSON value; `None` if it has the form.
/// Fails if memory runs out.
pub(crate) fn form_fault(
    alloc: Global,
    argument: TextArgument,
    value: View<'_>,
) -> Result<Option<String>, AllocError> {
    let (name, form) = (argument.name, argument.form);
    if form == ArgumentForm::Any {
        return Ok(None);
    }
    let Some(array) = value.as_array() else {
        return Ok(Some(format!(in alloc; "{name} is no {}", form.wanted())?));
    };
    let mut number = 0usize;
    'elements: for element in array.iter() {
        if let Some(text) = element_report(alloc, argument, number, element)? {
            return Ok(Some(text));
        }
        number = number.saturating_add(1);
    }
    if form == ArgumentForm::Columns && (number < 1 || number > 64) {
        return Ok(Some(format!(in alloc; "{name} is no {}", form.wanted())?));
    }
    Ok(None)
}
