// An edit at the place of a pointer as a change.
ghost use Rattle.std.specs.Prelude.{◌≡◌, Result, IfOk, OnOk};
ghost use Rattle.mezdruk_files.specs.Changes.{ChangeFails, outcome_of_edit};
ghost use Rattle.mezdruk_files.specs.PointedEdits.{edited_at};
ghost use Rattle.json_grammar.specs.Tree.{Tree};
ghost use Rattle.json_io.specs.Errors.{OnlyNoMemory};
ghost use Rattle.json_model.specs.Edit.{EditRefusal};
ghost use Rattle.json_patch.specs.Lookups.{pointer_tokens};
ghost use Rattle.json_value.specs.Denotes.{tree_of};
ghost use Rattle.json_value.specs.Edits.{step_of, path_steps, edit_of, edit_at, Makes, FailsAs, RefusesChange};

use crate::change::ValueChange;
use crate::change_error::{ChangeCode, ChangeError};
use json_io::{Error, ErrorCode};
use json_patch::Pointer;
use json_value::{Edit, Path, PointerNode, Value};
use std::alloc::Global;

/// The change by one edit where a JSON Pointer (RFC 6901) leads. The path that the edit itself has
/// is ignored. A token of the pointer is an index where it meets an array, and a key where it meets
/// an object.
///
/// ```
/// use mezdruk_files::{ValueChange, EditAt};
/// use json_patch::Pointer;
/// use json_value::{Edit, Path, Value};
/// let pointer = Pointer::parse(alloc, "/0")?;
/// let edit = Edit::Push { path: Path::new(alloc), value: Value::new_bool(true) };
/// let change = EditAt { pointer: &pointer, edit: &edit };
/// let mut value = Value::from_vec(vec![in alloc; Value::new_array()]?);
/// assert!(rt; change.apply(alloc, &mut value).is_ok());
/// assert_eq!(rt; value.to_string(alloc)?.as_str(), "[[true]]");
/// ```
#[derive(Clone, Copy, Drop)]
pub struct EditAt<'a> {
    /// Where the edit applies.
    pub pointer: &'a Pointer,
    /// The edit. Its own path is ignored.
    pub edit: &'a Edit,
}

// Copies a step.
fn copy_path_step(alloc: Global, step: &PointerNode) -> json_io::Result<PointerNode>
    ensures same { IfOk result (λ copy. step_of copy ≡ step_of step.now) }
    ensures only { OnlyNoMemory result }
{
    match step {
        PointerNode::Key(key) => {
            let key = key.clone(alloc)?;
            Ok(PointerNode::Key(key))
        }
        PointerNode::Index(index) => Ok(PointerNode::Index(*index)),
    }
}

// Returns a copy of an edit with another path.
fn copy_at(alloc: Global, edit: &Edit, path: Path) -> json_io::Result<Edit>
    ensures same { IfOk result (λ copy. edit_of copy ≡ edit_at (path_steps path) edit.now) }
    ensures only { OnlyNoMemory result }
{
    match edit {
        Edit::Set { value, .. } => {
            let value = value.clone(alloc)?;
            Ok(Edit::Set { path, value })
        }
        Edit::Insert { key, value, .. } => {
            let key = key.clone(alloc)?;
            let value = value.clone(alloc)?;
            Ok(Edit::Insert { path, key, value })
        }
        Edit::Push { value, .. } => {
            let value = value.clone(alloc)?;
            Ok(Edit::Push { path, value })
        }
        Edit::Remove { step, .. } => {
            let step = copy_path_step(alloc, step)?;
            Ok(Edit::Remove { path, step })
        }
    }
}

// Applies an edit where a pointer leads.
fn apply_at(alloc: Global, pointer: &Pointer, edit: &Edit, value: &mut Value) -> json_io::Result<()>
    ensures ok { OnOk result (Makes (edited_at (pointer_tokens pointer.now) edit.now
        (tree_of value.old)) value.new) }
    ensures refused { FailsAs (edited_at (pointer_tokens pointer.now) edit.now
        (tree_of value.old)) result }
{
    let path = pointer.path_in(alloc, value.view())?;
    let moved = copy_at(alloc, edit, path)?;
    value.apply(alloc, &moved)
}

// Returns the error of the edit.
fn change_error(error: Error) -> ChangeError
    ensures { (made : Result Tree EditRefusal) → RefusesChange made error.code error.place
        → ChangeFails (outcome_of_edit made) result }
{
    match error.code {
        ErrorCode::NotFound => ChangeError {
            code: ChangeCode::NotFound,
            number: Some(0),
        },
        ErrorCode::TypeUnmatched => ChangeError {
            code: ChangeCode::TypeUnmatched,
            number: Some(0),
        },
        _ => ChangeError {
            code: ChangeCode::NoMemory,
            number: None,
        },
    }
}

impl<'a> ValueChange for EditAt<'a> {
    ghost changed = { λ change tree. outcome_of_edit
        (edited_at (pointer_tokens change.pointer.now) change.edit.now tree) };

    fn apply(&self, alloc: Global, value: &mut Value) -> Result<(), ChangeError> {
        match apply_at(alloc, self.pointer, self.edit, value) {
            Ok(()) => Ok(()),
            Err(error) => Err(change_error(error)),
        }
    }

    fn part_name(&self) -> &'static str {
        "edit"
    }
}
