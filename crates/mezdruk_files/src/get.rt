// The value at a path as a change.
ghost use Rattle.std.specs.Prelude.{◌≡◌, Ok, None, Some, ok_or, option_map, IfOk, IfErr};
ghost use Rattle.std.specs.Result.{result_ok};
ghost use Rattle.mezdruk_files.specs.Changes.{ChangeFails, not_there};
ghost use Rattle.json_patch.specs.Lookups.{pointer_tokens};
ghost use Rattle.json_patch.specs.Pointer.{value_at_pointer};
ghost use Rattle.json_value.specs.Denotes.{tree_of};
ghost use Rattle.json_value.specs.Edits.{path_steps};
ghost use Rattle.json_value.specs.Seen.{seen};
ghost use Rattle.json_value.specs.Steps.{tree_at};

use crate::change::ValueChange;
use crate::change_error::{ChangeCode, ChangeError};
use json_patch::Pointer;
use json_value::{Path, Value, View};
use std::alloc::Global;

/// The change that replaces a value by the part of it that a JSON Pointer (RFC 6901) references. It
/// fails with `NotFound` if the pointer references nothing.
///
/// ```
/// use mezdruk_files::{ValueChange, ChangeCode, GetPointer};
/// use json_patch::Pointer;
/// use json_value::Value;
/// let pointer = Pointer::parse(alloc, "/0")?;
/// let change = GetPointer { pointer: &pointer };
/// let mut value = Value::from_vec(vec![in alloc; Value::new_bool(true)]?);
/// assert!(rt; change.apply(alloc, &mut value).is_ok());
/// assert_eq!(rt; value.to_string(alloc)?.as_str(), "true");
/// let error = change.apply(alloc, &mut value).err();
/// assert!(rt; error.is_some_and(|error| error.code == ChangeCode::NotFound));
/// ```
#[derive(Clone, Copy, Drop)]
pub struct GetPointer<'a> {
    /// The pointer to the part that remains.
    pub pointer: &'a Pointer,
}

/// The change that replaces a value by the part of it that a path leads to. It fails with
/// `NotFound` if the path leads to nothing.
///
/// ```
/// use mezdruk_files::{ValueChange, GetPath};
/// use json_value::{Path, PointerNode, Value};
/// let mut path = Path::new(alloc);
/// path.push(PointerNode::Index(0))?;
/// let mut value = Value::from_vec(vec![in alloc; Value::new_bool(true)]?);
/// assert!(rt; GetPath { path: &path }.apply(alloc, &mut value).is_ok());
/// assert_eq!(rt; value.to_string(alloc)?.as_str(), "true");
/// ```
#[derive(Clone, Copy, Drop)]
pub struct GetPath<'a> {
    /// The path to the part that remains.
    pub path: &'a Path,
}

// Returns a value of the view that was found, or `NotFound` if there is none.
fn value_found(alloc: Global, found: Option<View<'_>>) -> Result<Value, ChangeError>
    ensures ok { IfOk result (λ value.
        ok_or (option_map seen found.entry) not_there ≡ Ok (tree_of value)) }
    ensures err { IfErr result (ChangeFails (ok_or (option_map seen found.entry) not_there)) }
{
    let Some(view) = found else {
        return Err(ChangeError {
            code: ChangeCode::NotFound,
            number: None,
        });
    };
    match view.to_value(alloc) {
        Ok(value) => Ok(value),
        Err(_) => Err(ChangeError {
            code: ChangeCode::NoMemory,
            number: None,
        }),
    }
}

impl<'a> ValueChange for GetPointer<'a> {
    ghost changed = { λ change tree.
        ok_or (result_ok (value_at_pointer (pointer_tokens change.pointer.now) tree)) not_there };

    fn apply(&self, alloc: Global, value: &mut Value) -> Result<(), ChangeError> {
        let found = value_found(alloc, self.pointer.find(value.view()));
        match found {
            Ok(found) => {
                *value = found;
                Ok(())
            }
            Err(error) => Err(error),
        }
    }

    fn part_name(&self) -> &'static str {
        "token"
    }
}

impl<'a> ValueChange for GetPath<'a> {
    ghost changed = { λ change tree. ok_or (tree_at (path_steps change.path.now) tree) not_there };

    fn apply(&self, alloc: Global, value: &mut Value) -> Result<(), ChangeError> {
        let found = value_found(alloc, value.pointer(self.path.steps()));
        match found {
            Ok(found) => {
                *value = found;
                Ok(())
            }
            Err(error) => Err(error),
        }
    }

    fn part_name(&self) -> &'static str {
        "step"
    }
}
