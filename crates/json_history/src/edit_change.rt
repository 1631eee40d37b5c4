// The change of an edit, made before the edit is applied.
ghost use Rattle.std.specs.Prelude.{◌≡◌, IfOk, IfSome, map, option_map};
ghost use Rattle.std.specs.List.{All};
ghost use Rattle.std.specs.Result.{result_ok};
ghost use Rattle.json_grammar.specs.Tree.{list_pairs};
ghost use Rattle.json_model.specs.Edit.{index_step, key_step};
ghost use Rattle.json_value.specs.Denotes.{tree_of, text_bytes};
ghost use Rattle.json_value.specs.Edits.{edit_of, edit_path, path_steps};
ghost use Rattle.json_value.specs.Seen.{seen, members_seen};
ghost use Rattle.json_value.specs.TargetParts.{members_targets};
ghost use Rattle.json_value.specs.ViewTargets.{view_target, whole_value};
ghost use Rattle.json_value.specs.Written.{value_in};
ghost use Rattle.json_history.specs.Change.{change, members_named};
ghost use Rattle.json_history.specs.ChangeTrees.{tree_change_of, removed_member};
ghost use Rattle.json_history.specs.SharedParts.{SharesWith, MemberShares, SharesParts, ChangeShares};
ghost use Rattle.json_history.specs.Target.{change_in, insert_change_in, push_change_in, remove_change_in};
ghost use Rattle.json_io.specs.Errors.{OnlyNoMemory};

use crate::change::Change;
use crate::path_copy::{copy_path, path_with_key};
use crate::taken::Taken;
use json_io::Result;
use json_value::{Edit, ObjectView, Pair, Path, PointerNode, Text, Value, View};
use std::alloc::Global;

// The change of an insertion; `None` if there is no object.
fn change_of_insert(
    alloc: Global,
    target: View<'_>,
    path: &Path,
    key: &Text,
) -> Result<Option<Change>>
    ensures tree_change { IfOk result (λ o. option_map tree_change_of o
        ≡ result_ok (insert_change_in (path_steps path.now) (text_bytes key.now)
        (seen target.entry))) }
    ensures shares { ChangeShares (path_steps path.now) (view_target target.entry) result }
    ensures only { OnlyNoMemory result }
{
    let Some(object) = target.as_object() else {
        return Ok(None);
    };
    match object.get(key.as_str()) {
        Some(old) => {
            let old = old.to_value(alloc)?;
            let path = path_with_key(alloc, path, key)?;
            Ok(Some(Change::Put { path, old }))
        }
        None => {
            let path = copy_path(alloc, path)?;
            Ok(Some(Change::DropLast { path }))
        }
    }
}

// The change of a push; `None` if there is no array.
fn change_of_push(alloc: Global, target: View<'_>, path: &Path) -> Result<Option<Change>>
    ensures tree_change { IfOk result (λ o. option_map tree_change_of o
        ≡ result_ok (push_change_in (path_steps path.now) (seen target.entry))) }
    ensures shares { ChangeShares (path_steps path.now) (view_target target.entry) result }
    ensures only { OnlyNoMemory result }
{
    match target.as_array() {
        Some(_) => {
            let path = copy_path(alloc, path)?;
            Ok(Some(Change::DropLast { path }))
        }
        None => Ok(None),
    }
}

// The change of an element's removal; `None` if there is no such element.
fn change_of_removed_element(
    alloc: Global,
    target: View<'_>,
    path: &Path,
    index: usize,
) -> Result<Option<Change>>
    ensures tree_change { IfOk result (λ o. option_map tree_change_of o
        ≡ result_ok (remove_change_in (path_steps path.now) (index_step index)
        (seen target.entry))) }
    ensures shares { ChangeShares (path_steps path.now) (view_target target.entry) result }
    ensures only { OnlyNoMemory result }
{
    match target.get(index) {
        Some(old) => {
            let old = old.to_value(alloc)?;
            let path = copy_path(alloc, path)?;
            Ok(Some(Change::PutBack { path, index, old }))
        }
        None => Ok(None),
    }
}

// A copy of a member, with its index.
fn copy_member_at(alloc: Global, index: usize, key: &str, value: View<'_>) -> Result<(usize, Pair)>
    ensures member { IfOk result (λ e. removed_member e ≡ (index, key.now, seen value.entry)) }
    ensures index { IfOk result (λ e. e.0 ≡ index) }
    ensures shares { IfOk result (λ e. SharesWith (view_target value.entry) (value_in e.1)) }
    ensures only { OnlyNoMemory result }
{
    let key = Text::copy(alloc, key)?;
    let value = value.to_value(alloc)?;
    Ok((index, Pair::new(key, value)))
}

// Copies of the members with the key, with their indexes.
fn members_with_key(alloc: Global, object: ObjectView<'_>, key: &str) -> Result<Vec<(usize, Pair)>>
    ensures members { IfOk result (λ v. map removed_member v.items
        ≡ members_named 0 key.now (list_pairs (members_seen object.entry))) }
    ensures shares { IfOk result (λ v.
        All (MemberShares (members_targets object.entry)) v.items) }
    ensures only { OnlyNoMemory result }
{
    let mut list = Vec::new(alloc);
    let len = object.len();
    let mut left = len;
    for (name, value) in object.iter() {
        if name == key {
            list.push(copy_member_at(alloc, len - left, name, value)?)?;
        }
        left -= 1;
    }
    Ok(list)
}

// The change of a key's removal; `None` if there is no object, or no member with the key.
fn change_of_removed_members(
    alloc: Global,
    target: View<'_>,
    path: &Path,
    key: &Text,
) -> Result<Option<Change>>
    ensures tree_change { IfOk result (λ o. option_map tree_change_of o
        ≡ result_ok (remove_change_in (path_steps path.now) (key_step (text_bytes key.now))
        (seen target.entry))) }
    ensures shares { ChangeShares (path_steps path.now) (view_target target.entry) result }
    ensures only { OnlyNoMemory result }
{
    let Some(object) = target.as_object() else {
        return Ok(None);
    };
    let list = members_with_key(alloc, object, key.as_str())?;
    if list.is_empty() {
        return Ok(None);
    }
    let path = copy_path(alloc, path)?;
    Ok(Some(Change::PutPairs {
        path,
        pairs: Taken { list },
    }))
}

// The change of the edit, where `target` is the value at its path; `None` if it does not apply.
fn change_at(alloc: Global, target: View<'_>, edit: &Edit) -> Result<Option<Change>>
    ensures tree_change { IfOk result (λ o. option_map tree_change_of o
        ≡ result_ok (change_in edit.now (seen target.entry))) }
    ensures shares { ChangeShares (edit_path edit.now) (view_target target.entry) result }
    ensures only { OnlyNoMemory result }
{
    match edit {
        Edit::Set { path, .. } => {
            let old = target.to_value(alloc)?;
            let path = copy_path(alloc, path)?;
            Ok(Some(Change::Put { path, old }))
        }
        Edit::Insert { path, key, .. } => change_of_insert(alloc, target, path, key),
        Edit::Push { path, .. } => change_of_push(alloc, target, path),
        Edit::Remove { path, step } => match step {
            PointerNode::Index(index) => change_of_removed_element(alloc, target, path, *index),
            PointerNode::Key(key) => change_of_removed_members(alloc, target, path, key),
        },
    }
}

// The change of the edit; `None` if it does not apply.
pub(crate) fn change_of_edit(alloc: Global, value: &Value, edit: &Edit) -> Result<Option<Change>>
    ensures tree_change { IfOk result (λ o. option_map tree_change_of o
        ≡ result_ok (change (tree_of value.now) (edit_of edit.now))) }
    ensures shares { IfOk result (λ o. IfSome o (SharesParts (whole_value value.now))) }
    ensures only { OnlyNoMemory result }
{
    match value.pointer(edit.path().steps()) {
        Some(target) => change_at(alloc, target, edit),
        None => Ok(None),
    }
}
