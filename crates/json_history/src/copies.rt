// Copies of changes and of edits to redo.
ghost use Rattle.std.specs.Prelude.{◌≡◌, IfOk, map};
ghost use Rattle.json_value.specs.Edits.{edit_of};
ghost use Rattle.json_history.specs.ChangeTrees.{removed_members, tree_change_of};
ghost use Rattle.json_history.specs.Logs.{redo_of};
ghost use Rattle.json_io.specs.Errors.{OnlyNoMemory};

use crate::change::Change;
use crate::path_copy::{copy_path, copy_step};
use crate::redo::Redo;
use crate::taken::{Taken, copy_removed_members};
use json_io::Result;
use json_value::Edit;
use std::alloc::Global;

// Copies the removed members.
fn copy_taken(alloc: Global, taken: &Taken) -> Result<Taken>
    ensures members { IfOk result (λ t. removed_members t ≡ removed_members taken.now) }
    ensures only { OnlyNoMemory result }
{
    let list = copy_removed_members(alloc, taken)?;
    Ok(Taken { list })
}

// Copies the change.
fn copy_change(alloc: Global, change: &Change) -> Result<Change>
    ensures change { IfOk result (λ c. tree_change_of c ≡ tree_change_of change.now) }
    ensures only { OnlyNoMemory result }
{
    match change {
        Change::Put { path, old } => {
            let path = copy_path(alloc, path)?;
            let old = old.clone(alloc)?;
            Ok(Change::Put { path, old })
        }
        Change::DropLast { path } => {
            let path = copy_path(alloc, path)?;
            Ok(Change::DropLast { path })
        }
        Change::PutBack { path, index, old } => {
            let path = copy_path(alloc, path)?;
            let old = old.clone(alloc)?;
            let index = *index;
            Ok(Change::PutBack { path, index, old })
        }
        Change::PutPairs { path, pairs } => {
            let path = copy_path(alloc, path)?;
            let pairs = copy_taken(alloc, pairs)?;
            Ok(Change::PutPairs { path, pairs })
        }
    }
}

// Copies the edit.
fn copy_edit(alloc: Global, edit: &Edit) -> Result<Edit>
    ensures edit { IfOk result (λ e. edit_of e ≡ edit_of edit.now) }
    ensures only { OnlyNoMemory result }
{
    match edit {
        Edit::Set { path, value } => {
            let path = copy_path(alloc, path)?;
            let value = value.clone(alloc)?;
            Ok(Edit::Set { path, value })
        }
        Edit::Insert { path, key, value } => {
            let path = copy_path(alloc, path)?;
            let key = key.clone(alloc)?;
            let value = value.clone(alloc)?;
            Ok(Edit::Insert { path, key, value })
        }
        Edit::Push { path, value } => {
            let path = copy_path(alloc, path)?;
            let value = value.clone(alloc)?;
            Ok(Edit::Push { path, value })
        }
        Edit::Remove { path, step } => {
            let path = copy_path(alloc, path)?;
            let step = copy_step(alloc, step)?;
            Ok(Edit::Remove { path, step })
        }
    }
}

// Copies the edit to redo.
fn copy_redo(alloc: Global, redo: &Redo) -> Result<Redo>
    ensures redo { IfOk result (λ r. redo_of r ≡ redo_of redo.now) }
    ensures only { OnlyNoMemory result }
{
    let edit = copy_edit(alloc, &redo.edit)?;
    let change = copy_change(alloc, &redo.change)?;
    Ok(Redo { edit, change })
}

// Copies the changes.
pub(crate) fn copy_changes(alloc: Global, changes: &[Change]) -> Result<Vec<Change>>
    ensures changes { IfOk result (λ v. map tree_change_of v.items
        ≡ map tree_change_of changes.now) }
    ensures only { OnlyNoMemory result }
{
    let mut copies = Vec::with_capacity(alloc, changes.len())?;
    for change in changes {
        copies.push(copy_change(alloc, change)?)?;
    }
    Ok(copies)
}

// Copies the edits to redo.
pub(crate) fn copy_redos(alloc: Global, redos: &[Redo]) -> Result<Vec<Redo>>
    ensures redos { IfOk result (λ v. map redo_of v.items ≡ map redo_of redos.now) }
    ensures only { OnlyNoMemory result }
{
    let mut copies = Vec::with_capacity(alloc, redos.len())?;
    for redo in redos {
        copies.push(copy_redo(alloc, redo)?)?;
    }
    Ok(copies)
}
