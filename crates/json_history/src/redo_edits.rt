// The edits that redo what changes undo.
ghost use Rattle.std.specs.Prelude.{◌≡◌, IfOk, IfSome, Some, option_map};
ghost use Rattle.std.specs.Result.{result_ok};
ghost use Rattle.json_model.specs.Edit.{within, set_at, insert_at, push_at};
ghost use Rattle.json_grammar.specs.Tree.{list_pairs, list_trees};
ghost use Rattle.json_value.specs.Denotes.{tree_of};
ghost use Rattle.json_value.specs.Edits.{edit_of, path_steps};
ghost use Rattle.json_value.specs.Seen.{seen, members_seen, elements_seen};
ghost use Rattle.json_value.specs.TargetParts.{elements_targets, members_targets};
ghost use Rattle.json_value.specs.ViewTargets.{ViewTarget, view_target, whole_value};
ghost use Rattle.json_history.specs.Change.{redo_edit, edit_of_last, last_member, last_element, edit_of_removal};
ghost use Rattle.json_history.specs.ChangeTrees.{tree_change_of, removed_members};
ghost use Rattle.json_history.specs.SharedParts.{EditShares, EditSharesParts, EditSharesElement, EditSharesMember};
ghost use Rattle.json_io.specs.Errors.{OnlyNoMemory};

use crate::change::Change;
use crate::path_copy::copy_path;
use crate::taken::Taken;
use json_io::Result;
use json_value::{ArrayView, Edit, ObjectView, Path, PointerNode, Text, Value, View};
use std::alloc::Global;

// The insertion of the last member; `None` if there is none.
fn last_insert_edit(alloc: Global, object: ObjectView<'_>, path: &Path) -> Result<Option<Edit>>
    ensures edit { IfOk result (λ o. option_map edit_of o
        ≡ result_ok (within (λ e. insert_at (path_steps path.now) e.0 e.1)
        (last_member (list_pairs (members_seen object.entry))))) }
    ensures shares { EditSharesMember (path_steps path.now) (members_targets object.entry) result }
    ensures only { OnlyNoMemory result }
{
    let len = object.len();
    if len == 0 {
        return Ok(None);
    }
    match object.pair(len - 1) {
        Some((key, value)) => {
            let key = Text::copy(alloc, key)?;
            let value = value.to_value(alloc)?;
            let path = copy_path(alloc, path)?;
            Ok(Some(Edit::Insert { path, key, value }))
        }
        None => Ok(None),
    }
}

// The push of the last element; `None` if there is none.
fn last_push_edit(alloc: Global, array: ArrayView<'_>, path: &Path) -> Result<Option<Edit>>
    ensures edit { IfOk result (λ o. option_map edit_of o
        ≡ result_ok (within (λ u. push_at (path_steps path.now) u)
        (last_element (list_trees (elements_seen array.entry))))) }
    ensures shares { EditSharesElement (path_steps path.now) (elements_targets array.entry) result }
    ensures only { OnlyNoMemory result }
{
    let len = array.len();
    if len == 0 {
        return Ok(None);
    }
    match array.get(len - 1) {
        Some(value) => {
            let value = value.to_value(alloc)?;
            let path = copy_path(alloc, path)?;
            Ok(Some(Edit::Push { path, value }))
        }
        None => Ok(None),
    }
}

// The edit that adds the last member or element; `None` if there is none.
fn last_edit(alloc: Global, target: View<'_>, path: &Path) -> Result<Option<Edit>>
    ensures edit { IfOk result (λ o. option_map edit_of o
        ≡ result_ok (edit_of_last (path_steps path.now) (seen target.entry))) }
    ensures shares { EditShares (path_steps path.now) (view_target target.entry) result }
    ensures only { OnlyNoMemory result }
{
    if let Some(object) = target.as_object() {
        return last_insert_edit(alloc, object, path);
    }
    match target.as_array() {
        Some(array) => last_push_edit(alloc, array, path),
        None => Ok(None),
    }
}

// The edit that sets the value at the path.
fn set_edit(alloc: Global, target: View<'_>, path: &Path) -> Result<Option<Edit>>
    ensures edit { IfOk result (λ o. option_map edit_of o
        ≡ Some (set_at (path_steps path.now) (seen target.entry))) }
    ensures shares { EditShares (path_steps path.now) (view_target target.entry) result }
    ensures only { OnlyNoMemory result }
{
    let value = target.to_value(alloc)?;
    let path = copy_path(alloc, path)?;
    Ok(Some(Edit::Set { path, value }))
}

// The removal of the first member's key; `None` if there is no member.
fn build_removal_edit(alloc: Global, taken: &Taken, path: &Path) -> Result<Option<Edit>>
    ensures edit { IfOk result (λ o. option_map edit_of o
        ≡ result_ok (edit_of_removal (path_steps path.now) (removed_members taken.now))) }
    ensures shares { (root : ViewTarget) → IfOk result (λ o. IfSome o (EditSharesParts root)) }
    ensures only { OnlyNoMemory result }
{
    if taken.len() == 0 {
        return Ok(None);
    }
    let (_, pair) = taken.at(0);
    let key = Text::copy(alloc, pair.key())?;
    let path = copy_path(alloc, path)?;
    Ok(Some(Edit::Remove {
        path,
        step: PointerNode::Key(key),
    }))
}

// The edit that redoes what the change undoes, where the value has the edit applied.
// `None` if the change does not fit the value.
pub(crate) fn edit_to_redo(alloc: Global, value: &Value, change: &Change) -> Result<Option<Edit>>
    ensures edit { IfOk result (λ o. option_map edit_of o
        ≡ result_ok (redo_edit (tree_of value.now) (tree_change_of change.now))) }
    ensures shares { IfOk result (λ o. IfSome o (EditSharesParts (whole_value value.now))) }
    ensures only { OnlyNoMemory result }
{
    match change {
        Change::Put { path, .. } => match value.pointer(path.steps()) {
            Some(target) => set_edit(alloc, target, path),
            None => Ok(None),
        },
        Change::DropLast { path } => match value.pointer(path.steps()) {
            Some(target) => last_edit(alloc, target, path),
            None => Ok(None),
        },
        Change::PutBack { path, index, .. } => {
            let path = copy_path(alloc, path)?;
            Ok(Some(Edit::Remove {
                path,
                step: PointerNode::Index(*index),
            }))
        }
        Change::PutPairs { path, pairs } => build_removal_edit(alloc, pairs, path),
    }
}
