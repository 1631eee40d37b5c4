// A list of edits as a change.
ghost use Rattle.std.specs.Prelude.{◌≡◌, ◌<◌, ◌↔◌, ◌^◌, List, length, map, IsSome, IfSome};
ghost use Rattle.mezdruk_files.specs.Changes.{ChangeFails, outcome_of_edits};
ghost use Rattle.json_grammar.specs.Tree.{Tree};
ghost use Rattle.json_model.specs.Edit.{Edit as ModelEdit, edited};
ghost use Rattle.json_value.specs.Edits.{edit_of};
ghost use Rattle.reshape.specs.Reshape.{EditingRefuses};

use crate::change::ValueChange;
use crate::change_error::{ChangeCode, ChangeError};
use json_io::{Error, ErrorCode, Place};
use json_value::{Edit, Value};
use reshape::apply_all;
use std::alloc::Global;

/// The change by a list of edits, which apply in order. Each applies to the result of those before
/// it.
///
/// ```
/// use mezdruk_files::{ValueChange, EditAll};
/// use json_value::{Edit, Path, Value};
/// let edits = [Edit::Push { path: Path::new(alloc), value: Value::new_bool(true) }];
/// let change = EditAll::new(&edits).ok_or("too many edits")?;
/// let mut value = Value::new_array();
/// assert!(rt; change.apply(alloc, &mut value).is_ok());
/// assert_eq!(rt; value.to_string(alloc)?.as_str(), "[true]");
/// ```
#[derive(Clone, Copy, Drop)]
pub struct EditAll<'a> {
    edits: &'a [Edit],
    ghost few: { length edits.now < 2 ^ 32 },
}

impl<'a> EditAll<'a> {
    ghost use Rattle.mezdruk_files.specs.EditLists.{listed_edits};

    /// Creates the change by these edits. Returns `None` if there are more than 4,294,967,295.
    pub fn new(edits: &'a [Edit]) -> Option<EditAll<'a>>
        ensures some { IsSome result ↔ (length edits.now < 2 ^ 32) }
        ensures edits { IfSome result (λ change. listed_edits change ≡ map edit_of edits.now) }
    {
        if edits.len() > u32::MAX as usize {
            return None;
        }
        Some(EditAll { edits })
    }
}

// Returns the error of edits.
fn change_error(error: Error) -> ChangeError
    ensures { (edits : List ModelEdit) (tree : Tree)
        → EditingRefuses edits tree error.code error.place
        → ChangeFails (outcome_of_edits (edited edits tree)) result }
{
    match (error.code, error.place) {
        (ErrorCode::NotFound, Place::Edit(number)) => ChangeError {
            code: ChangeCode::NotFound,
            number: Some(number),
        },
        (ErrorCode::TypeUnmatched, Place::Edit(number)) => ChangeError {
            code: ChangeCode::TypeUnmatched,
            number: Some(number),
        },
        _ => ChangeError {
            code: ChangeCode::NoMemory,
            number: None,
        },
    }
}

impl<'a> ValueChange for EditAll<'a> {
    ghost use Rattle.mezdruk_files.specs.EditLists.{listed_edits};

    ghost changed = { λ change tree. outcome_of_edits (edited (listed_edits change) tree) };

    fn apply(&self, alloc: Global, value: &mut Value) -> Result<(), ChangeError> {
        match apply_all(alloc, value, self.edits) {
            Ok(()) => Ok(()),
            Err(error) => Err(change_error(error)),
        }
    }

    fn part_name(&self) -> &'static str {
        "edit"
    }
}
