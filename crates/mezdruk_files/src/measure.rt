// The keys and the length of a value as changes.
ghost use Rattle.std.specs.Prelude.{◌≡◌, ◌++◌, Ok, map, length, IfOk, IfErr, option_map};
ghost use Rattle.json_grammar.specs.Tree.{text, list, list_trees};
ghost use Rattle.mezdruk_files.specs.Changes.{ChangeFails};
ghost use Rattle.mezdruk_files.specs.ValuePaths.{tree_at_value_path, key_texts, length_of as length_in, found_in, array_of, length_number};
ghost use Rattle.json_io.specs.Errors.{OnlyNoMemory};
ghost use Rattle.json_value.specs.Denotes.{tree_of};
ghost use Rattle.json_value.specs.Seen.{seen, members_seen};

use crate::change::ValueChange;
use crate::change_error::{ChangeCode, ChangeError};
use crate::value_path::{OUT_OF_MEMORY, ValuePath};
use json_value::{ObjectView, Value, View};
use std::alloc::Global;

/// The change to an array of the keys of the object at a path, in the order of its members. It
/// fails with `NotFound` if nothing is there, and with `TypeUnmatched` if it is no object.
///
/// ```
/// use json_doc::read_document;
/// use mezdruk_files::{ValueChange, GetKeys, ValuePath};
/// use json_patch::Pointer;
/// use json_value::Value;
/// let path = ValuePath::Pointer(Pointer::parse(alloc, "")?);
/// let document = read_document(alloc, "{\"b\": 1, \"a\": 2}")?;
/// let mut value = Value::from_place(alloc, &document, document.root())?;
/// assert!(rt; GetKeys { path: &path }.apply(alloc, &mut value).is_ok());
/// assert_eq!(rt; value.to_string(alloc)?.as_str(), "[\"b\",\"a\"]");
/// ```
#[derive(Clone, Copy, Drop)]
pub struct GetKeys<'a> {
    /// The path.
    pub path: &'a ValuePath,
}

/// The change to the number of elements or members of the array or the object at a path. It fails
/// with `NotFound` if nothing is there, and with `TypeUnmatched` if it is neither.
///
/// ```
/// use mezdruk_files::{ValueChange, GetLength, ValuePath};
/// use json_patch::Pointer;
/// use json_value::Value;
/// let path = ValuePath::Pointer(Pointer::parse(alloc, "")?);
/// let mut value = Value::from_vec(vec![in alloc; Value::new_null(), Value::new_null()]?);
/// assert!(rt; GetLength { path: &path }.apply(alloc, &mut value).is_ok());
/// assert_eq!(rt; value.to_string(alloc)?.as_str(), "2");
/// ```
#[derive(Clone, Copy, Drop)]
pub struct GetLength<'a> {
    /// The path.
    pub path: &'a ValuePath,
}

// The error if nothing is at the path.
const NOT_THERE: ChangeError = ChangeError {
    code: ChangeCode::NotFound,
    number: None,
};

// The error if the value is of another kind.
const WRONG_KIND: ChangeError = ChangeError {
    code: ChangeCode::TypeUnmatched,
    number: None,
};

// Returns the keys.
fn collect_keys(alloc: Global, object: ObjectView<'_>) -> json_io::Result<Vec<Value>>
    ensures ok { IfOk result (λ keys. map (λ m. text m.0) (members_seen object.entry)
        ≡ map tree_of keys.items) }
    ensures only { OnlyNoMemory result }
{
    let mut keys = Vec::new(alloc);
    'members: for (key, _) in object.iter() {
        keys.push(Value::copy_str(alloc, key)?)?;
    }
    Ok(keys)
}

// Returns the array of the keys of the object that was found.
fn keys_value(alloc: Global, found: Option<View<'_>>) -> Result<Value, ChangeError>
    ensures ok { IfOk result (λ value.
        array_of (found_in key_texts (option_map seen found.entry)) ≡ Ok (tree_of value)) }
    ensures err { IfErr result (ChangeFails
        (array_of (found_in key_texts (option_map seen found.entry)))) }
{
    let Some(view) = found else {
        return Err(NOT_THERE);
    };
    let Some(object) = view.as_object() else {
        return Err(WRONG_KIND);
    };
    match collect_keys(alloc, object) {
        Ok(keys) => Ok(Value::from_vec(keys)),
        Err(_) => Err(OUT_OF_MEMORY),
    }
}

// Returns the number of elements or members.
fn length_of(view: View<'_>) -> Option<usize>
    ensures { result ≡ length_in (seen view.entry) }
{
    match view.as_array() {
        Some(array) => Some(array.len()),
        None => match view.as_object() {
            Some(object) => Some(object.len()),
            None => None,
        },
    }
}

// Returns the length of the value that was found.
fn length_value(found: Option<View<'_>>) -> Result<Value, ChangeError>
    ensures ok { IfOk result (λ value.
        length_number (found_in length_in (option_map seen found.entry)) ≡ Ok (tree_of value)) }
    ensures err { IfErr result (ChangeFails
        (length_number (found_in length_in (option_map seen found.entry)))) }
{
    let Some(view) = found else {
        return Err(NOT_THERE);
    };
    match length_of(view) {
        Some(length) => Ok(Value::new_u64(length as u64)),
        None => Err(WRONG_KIND),
    }
}

impl<'a> ValueChange for GetKeys<'a> {
    ghost use Rattle.mezdruk_files.specs.ValuePaths.{tree_at_value_path, key_texts, found_in, array_of};

    ghost changed = { λ change tree. array_of (found_in key_texts (tree_at_value_path change.path.now tree)) };

    fn apply(&self, alloc: Global, value: &mut Value) -> Result<(), ChangeError> {
        let keys = keys_value(alloc, self.path.find(value.view()));
        match keys {
            Ok(keys) => {
                *value = keys;
                Ok(())
            }
            Err(error) => Err(error),
        }
    }

    fn part_name(&self) -> &'static str {
        "key"
    }
}

impl<'a> ValueChange for GetLength<'a> {
    ghost use Rattle.mezdruk_files.specs.ValuePaths.{tree_at_value_path, length_of, found_in, length_number};

    ghost changed = { λ change tree.
        length_number (found_in length_of (tree_at_value_path change.path.now tree)) };

    fn apply(&self, alloc: Global, value: &mut Value) -> Result<(), ChangeError> {
        let _ = alloc;
        let length = length_value(self.path.find(value.view()));
        match length {
            Ok(length) => {
                *value = length;
                Ok(())
            }
            Err(error) => Err(error),
        }
    }

    fn part_name(&self) -> &'static str {
        "element"
    }
}
