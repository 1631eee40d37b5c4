// The calls of a history, on its value, its changes and its edits to redo.
ghost use Rattle.std.specs.Prelude.{◌≡◌, ◌<◌, IsOk, IfOk, Ok, OnOk, OnErr};
ghost use Rattle.std.specs.Vec.{vec_len, vec_capacity};
ghost use Rattle.json_model.specs.Edit.{edited_once};
ghost use Rattle.json_value.specs.Denotes.{tree_of};
ghost use Rattle.json_value.specs.Edits.{edit_of, edit_path, FailsAs, Makes};
ghost use Rattle.json_value.specs.ViewTargets.{whole_value};
ghost use Rattle.json_value.specs.Touched.{Along, KeptAlong, Touches, KeepsOnRefusal};
ghost use Rattle.json_history.specs.Change.{undone, redo_edit};
ghost use Rattle.json_history.specs.ChangeTrees.{tree_change_of, change_path};
ghost use Rattle.json_history.specs.History.{IsValidLog, log_edit, log_call, undo, redo, is_nonempty};
ghost use Rattle.json_history.specs.Limits.{last_entries};
ghost use Rattle.json_history.specs.Logs.{log_in};
ghost use Rattle.json_history.specs.SharedParts.{AppendsChange, EditSharesParts, MovesToRedos, MovesToChanges};
ghost use Rattle.json_history.specs.Restores.{RestoresAt, RestoreKeeps, UndoTouches, UndoKeeps, RedoTouches, RedoKeeps};
ghost use Rattle.json_io.specs.Errors.{OnlyNoMemory};

use crate::change::Change;
use crate::edit_change::change_of_edit;
use crate::redo::Redo;
use crate::redo_edits::edit_to_redo;
use crate::restore::restore;
use json_io::Result;
use json_value::{Edit, Value, put};
use std::alloc::Global;

// Applies the edit. A value that is set is moved to its place; one that is inserted or pushed is
// copied.
fn apply_edit(alloc: Global, value: &mut Value, edit: Edit) -> Result<()>
    ensures ok { OnOk result
        (Makes (edited_once (edit_of edit) (tree_of value.old)) value.new) }
    ensures kept { OnErr result (tree_of value.new ≡ tree_of value.old) }
    ensures refused { FailsAs (edited_once (edit_of edit) (tree_of value.old)) result }
    ensures children { OnOk result (Touches (edit_path edit) edit value.old value.new) }
    ensures kept_along { OnErr result (KeepsOnRefusal (edit_path edit) edit value.old value.new) }
{
    match edit {
        Edit::Set { path, value: new } => put(value, alloc, path.steps(), new),
        edit => value.apply(alloc, &edit),
    }
}

// Applies the edit, appends its change, and clears the edits to redo.
pub(crate) fn apply_and_log(
    alloc: Global,
    value: &mut Value,
    changes: &mut Vec<Change>,
    redos: &mut Vec<Redo>,
    edit: Edit,
) -> Result<()>
    ensures ok { OnOk result (log_edit (log_in value.old changes.old.items redos.old.items)
        (edit_of edit) ≡ Ok (log_in value.new changes.new.items redos.new.items)) }
    ensures kept { OnErr result (log_in value.new changes.new.items redos.new.items
        ≡ log_in value.old changes.old.items redos.old.items) }
    ensures refused { FailsAs (edited_once (edit_of edit) (tree_of value.old)) result }
    ensures children { OnOk result (Touches (edit_path edit) edit value.old value.new) }
    ensures kept_along { OnErr result (KeepsOnRefusal (edit_path edit) edit value.old value.new) }
    ensures lists { OnErr result
        ((changes.new.items ≡ changes.old.items) × (redos.new.items ≡ redos.old.items)) }
    ensures shares { OnOk result (AppendsChange value.old changes.old.items changes.new.items) }
{
    match change_of_edit(alloc, value, &edit)? {
        Some(change) => {
            changes.reserve(1)?;
            apply_edit(alloc, value, edit)?;
            // There is room.
            changes.push(change)?;
            redos.clear();
            Ok(())
        }
        None => apply_edit(alloc, value, edit),
    }
}

// Undoes the change, and makes room for one more edit to redo. Returns the edit that redoes it.
fn undo_change(
    alloc: Global,
    value: &mut Value,
    redos: &mut Vec<Redo>,
    change: &Change,
) -> Result<Edit>
    requires undone { IsOk (undone (tree_of value.old) (tree_change_of change.now)) }
    requires again { IsOk (redo_edit (tree_of value.old) (tree_change_of change.now)) }
    ensures ok { OnOk result
        (Makes (undone (tree_of value.old) (tree_change_of change.now)) value.new) }
    ensures again { IfOk result (λ e. redo_edit (tree_of value.old) (tree_change_of change.now)
        ≡ Ok (edit_of e)) }
    ensures shares { IfOk result (EditSharesParts (whole_value value.old)) }
    ensures kept { OnErr result (tree_of value.new ≡ tree_of value.old) }
    ensures children { OnOk result (Along (change_path change.now) (RestoresAt change.now)
        value.old value.new) }
    ensures kept_along { OnErr result (KeptAlong (change_path change.now) RestoreKeeps
        value.old value.new) }
    ensures redos { redos.new.items ≡ redos.old.items }
    ensures room { OnOk result (vec_len redos.new < vec_capacity redos.new) }
    ensures only { OnlyNoMemory result }
{
    redos.reserve(1)?;
    match edit_to_redo(alloc, value, change)? {
        Some(edit) => {
            restore(value, alloc, change)?;
            Ok(edit)
        }
        None => unreachable!(),
    }
}

// Undoes the last change, and keeps it with an edit that redoes it. Returns whether there was one.
pub(crate) fn undo_last(
    alloc: Global,
    value: &mut Value,
    changes: &mut Vec<Change>,
    redos: &mut Vec<Redo>,
) -> Result<bool>
    requires { ∥ IsValidLog (log_in value.old changes.old.items redos.old.items) ∥₁ }
    ensures ok { OnOk result (log_in value.new changes.new.items redos.new.items
        ≡ log_call (log_in value.old changes.old.items redos.old.items) undo) }
    ensures answer { IfOk result (λ b. b
        ≡ is_nonempty (log_in value.old changes.old.items redos.old.items).changes) }
    ensures kept { OnErr result (log_in value.new changes.new.items redos.new.items
        ≡ log_in value.old changes.old.items redos.old.items) }
    ensures children { OnOk result (UndoTouches changes.old.items value.old value.new) }
    ensures moves { OnOk result (MovesToRedos value.old
        changes.old.items changes.new.items redos.old.items redos.new.items) }
    ensures kept_along { OnErr result (UndoKeeps changes.old.items value.old value.new) }
    ensures lists { OnErr result
        ((changes.new.items ≡ changes.old.items) × (redos.new.items ≡ redos.old.items)) }
    ensures only { OnlyNoMemory result }
{
    match changes.pop() {
        Some(change) => match undo_change(alloc, value, redos, &change) {
            Ok(edit) => {
                // There is room.
                redos.push(Redo { edit, change })?;
                Ok(true)
            }
            Err(error) => {
                // There is room.
                changes.push(change)?;
                Err(error)
            }
        },
        None => Ok(false),
    }
}

// Applies the edit, and makes room for one more change.
fn reapply(alloc: Global, value: &mut Value, changes: &mut Vec<Change>, edit: &Edit) -> Result<()>
    requires { IsOk (edited_once (edit_of edit.now) (tree_of value.old)) }
    ensures ok { OnOk result
        (Makes (edited_once (edit_of edit.now) (tree_of value.old)) value.new) }
    ensures kept { OnErr result (tree_of value.new ≡ tree_of value.old) }
    ensures children { OnOk result (Touches (edit_path edit.now) edit.now value.old value.new) }
    ensures kept_along { OnErr result
        (KeepsOnRefusal (edit_path edit.now) edit.now value.old value.new) }
    ensures changes { changes.new.items ≡ changes.old.items }
    ensures room { OnOk result (vec_len changes.new < vec_capacity changes.new) }
    ensures only { OnlyNoMemory result }
{
    changes.reserve(1)?;
    value.apply(alloc, edit)
}

// Redoes the next edit, and appends its change. Returns whether there was one.
pub(crate) fn redo_next(
    alloc: Global,
    value: &mut Value,
    changes: &mut Vec<Change>,
    redos: &mut Vec<Redo>,
) -> Result<bool>
    requires { ∥ IsValidLog (log_in value.old changes.old.items redos.old.items) ∥₁ }
    ensures ok { OnOk result (log_in value.new changes.new.items redos.new.items
        ≡ log_call (log_in value.old changes.old.items redos.old.items) redo) }
    ensures answer { IfOk result (λ b. b
        ≡ is_nonempty (log_in value.old changes.old.items redos.old.items).redos) }
    ensures kept { OnErr result (log_in value.new changes.new.items redos.new.items
        ≡ log_in value.old changes.old.items redos.old.items) }
    ensures children { OnOk result (RedoTouches redos.old.items value.old value.new) }
    ensures moves { OnOk result (MovesToChanges
        changes.old.items changes.new.items redos.old.items redos.new.items) }
    ensures kept_along { OnErr result (RedoKeeps redos.old.items value.old value.new) }
    ensures lists { OnErr result
        ((changes.new.items ≡ changes.old.items) × (redos.new.items ≡ redos.old.items)) }
    ensures only { OnlyNoMemory result }
{
    match redos.pop() {
        Some(redo) => match reapply(alloc, value, changes, &redo.edit) {
            Ok(()) => {
                let Redo { edit: _, change } = redo;
                // There is room.
                changes.push(change)?;
                Ok(true)
            }
            Err(error) => {
                // There is room.
                redos.push(redo)?;
                Err(error)
            }
        },
        None => Ok(false),
    }
}

// Keeps the last elements, at most `max`.
pub(crate) fn keep_last<T: Drop>(list: &mut Vec<T>, max: usize)
    ensures { list.new.items ≡ last_entries max list.old.items }
{
    if max < list.len() {
        list.reverse();
        list.truncate(max);
        list.reverse();
    }
}
