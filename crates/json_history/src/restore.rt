// Undoes changes.
ghost use Rattle.std.specs.Prelude.{◌≡◌, ◌⊎◌, ◌+◌, ◌-◌, ◌<◌, ◌≤◌, IsOk, OnOk, OnErr, length, map, take, insert, Ok};
ghost use Rattle.std.specs.Vec.{vec_len, vec_capacity};
ghost use Rattle.json_grammar.specs.Tree.{list_pairs};
ghost use Rattle.json_model.specs.Edit.{on_list, on_pairs};
ghost use Rattle.json_value.specs.Denotes.{tree_of, pair_of, list_in, pairs_in, KeepsTreeOnErr};
ghost use Rattle.json_value.specs.Edits.{Makes};
ghost use Rattle.json_value.specs.Places.{value_origin};
ghost use Rattle.json_value.specs.Touched.{ArrayTouched, ObjectTouched, ArrayKept, ObjectKept, Same, Along, KeptAlong};
ghost use Rattle.json_history.specs.Change.{undone, without_last, insert_element_at, insert_members};
ghost use Rattle.json_history.specs.ChangeTrees.{tree_change_of, change_path, removed_member, removed_members};
ghost use Rattle.json_history.specs.Restores.{DropsLast, InsertsAt, InsertsMembers, ElementsTouched, MembersTouched, RestoresAt, RestoreKeeps, origins_of, with_restored_members};
ghost use Rattle.json_history.specs.Target.{undone_in, all_but_last};
ghost use Rattle.json_io.specs.Errors.{OnlyNoMemory};

use crate::change::Change;
use crate::taken::{Taken, copy_removed_members};
use json_io::Result;
use json_value::{Array, Object, Pair, Places, Value};
use std::alloc::Global;

// Removes the last one, if there is one.
fn pop_last<T: Drop>(list: &mut Vec<T>)
    ensures { list.new.items ≡ take (vec_len list.old - 1) list.old.items }
{
    let _ = list.pop();
}

// Removes the last element, if there is one.
fn remove_last_element(array: &mut Array, alloc: Global) -> Result<()>
    ensures ok { OnOk result (list_in array.new ≡ all_but_last (list_in array.old)) }
    ensures kept { OnErr result (list_in array.new ≡ list_in array.old) }
    ensures touched { OnOk result (ElementsTouched DropsLast array.old array.new) }
    ensures untouched { OnErr result (array.new ≡ array.old) }
    ensures only { OnlyNoMemory result }
{
    let list = array.list_mut(alloc)?;
    pop_last(list);
    Ok(())
}

// Removes the last member, if there is one.
fn remove_last_member(object: &mut Object, alloc: Global) -> Result<()>
    ensures ok { OnOk result (pairs_in object.new ≡ all_but_last (pairs_in object.old)) }
    ensures kept { OnErr result (pairs_in object.new ≡ pairs_in object.old) }
    ensures touched { OnOk result (MembersTouched DropsLast object.old object.new) }
    ensures untouched { OnErr result (object.new ≡ object.old) }
    ensures only { OnlyNoMemory result }
{
    let pairs = object.pairs_mut(alloc)?;
    pop_last(pairs);
    Ok(())
}

// Removes the last member or element, of which there is one.
fn remove_last(value: &mut Value, alloc: Global) -> Result<()>
    requires { IsOk (without_last (tree_of value.old)) }
    ensures ok { OnOk result (Makes (without_last (tree_of value.old)) value.new) }
    ensures kept { OnErr result (tree_of value.new ≡ tree_of value.old) }
    ensures touched { OnOk result (ArrayTouched DropsLast value.old value.new
        ⊎ ObjectTouched DropsLast value.old value.new) }
    ensures untouched { OnErr result (value.new ≡ value.old) }
    ensures only { OnlyNoMemory result }
{
    match value.take() {
        Value::Array(mut array) => {
            let outcome = remove_last_element(&mut array, alloc);
            *value = Value::Array(array);
            outcome
        }
        Value::Object(mut object) => {
            let outcome = remove_last_member(&mut object, alloc);
            *value = Value::Object(object);
            outcome
        }
        _ => unreachable!(),
    }
}

// Inserts a copy of the element at an index of at most the array's length.
fn insert_into_array(array: &mut Array, alloc: Global, index: usize, old: &Value) -> Result<()>
    requires { index ≤ length (list_in array.old) }
    ensures ok { OnOk result
        (list_in array.new ≡ insert (list_in array.old) index (tree_of old.now)) }
    ensures kept { OnErr result (list_in array.new ≡ list_in array.old) }
    ensures touched { OnOk result
        (ElementsTouched (InsertsAt index (value_origin old.now)) array.old array.new) }
    ensures untouched { OnErr result
        ((array.new ≡ array.old) ⊎ ElementsTouched Same array.old array.new) }
    ensures only { OnlyNoMemory result }
{
    let old = old.clone(alloc)?;
    let list = array.list_mut(alloc)?;
    list.insert(index, old)?;
    Ok(())
}

// Inserts a copy of the element into an array, at an index of at most its length.
fn restore_element(value: &mut Value, alloc: Global, index: usize, old: &Value) -> Result<()>
    requires { IsOk (on_list (insert_element_at index (tree_of old.now)) (tree_of value.old)) }
    ensures ok { OnOk result
        (Makes (on_list (insert_element_at index (tree_of old.now)) (tree_of value.old))
        value.new) }
    ensures kept { OnErr result (tree_of value.new ≡ tree_of value.old) }
    ensures touched { OnOk result
        (ArrayTouched (InsertsAt index (value_origin old.now)) value.old value.new) }
    ensures untouched { OnErr result (ArrayKept Same value.old value.new) }
    ensures only { OnlyNoMemory result }
{
    match value.take() {
        Value::Array(mut array) => {
            let outcome = insert_into_array(&mut array, alloc, index, old);
            *value = Value::Array(array);
            outcome
        }
        _ => unreachable!(),
    }
}

// Inserts a member at an index. There is room for it.
fn restore_member(pairs: &mut Vec<Pair>, index: usize, pair: Pair)
    requires room { vec_len pairs.old < vec_capacity pairs.old }
    requires within { index ≤ vec_len pairs.old }
    ensures items { pairs.new.items ≡ insert pairs.old.items index pair }
    ensures len { vec_len pairs.new ≡ vec_len pairs.old + 1 }
    ensures capacity { vec_capacity pairs.old ≤ vec_capacity pairs.new }
{
    let _ = pairs.insert(index, pair);
}

// Inserts members at their indexes, one after another. There is room for them.
fn insert_reserved_members(pairs: &mut Vec<Pair>, members: Vec<(usize, Pair)>)
    requires room { vec_len pairs.old + vec_len members ≤ vec_capacity pairs.old }
    requires places { IsOk (insert_members (map removed_member members.items)
        (list_pairs (map pair_of pairs.old.items))) }
    ensures trees { insert_members (map removed_member members.items)
        (list_pairs (map pair_of pairs.old.items))
        ≡ Ok (list_pairs (map pair_of pairs.new.items)) }
    ensures items { pairs.new.items ≡ with_restored_members members.items pairs.old.items }
{
    for (index, pair) in members {
        restore_member(pairs, index, pair);
    }
}

// Inserts copies of the members at their indexes, one after another.
fn insert_into_object(object: &mut Object, alloc: Global, taken: &Taken) -> Result<()>
    requires { IsOk (insert_members (removed_members taken.now)
        (list_pairs (pairs_in object.old))) }
    ensures ok { OnOk result (insert_members (removed_members taken.now)
        (list_pairs (pairs_in object.old)) ≡ Ok (list_pairs (pairs_in object.new))) }
    ensures kept { OnErr result (pairs_in object.new ≡ pairs_in object.old) }
    ensures touched { OnOk result (MembersTouched
        (InsertsMembers (origins_of taken.now)) object.old object.new) }
    ensures untouched { OnErr result
        ((object.new ≡ object.old) ⊎ MembersTouched Same object.old object.new) }
    ensures only { OnlyNoMemory result }
{
    let members = copy_removed_members(alloc, taken)?;
    let pairs = object.pairs_mut(alloc)?;
    pairs.reserve(members.len())?;
    insert_reserved_members(pairs, members);
    Ok(())
}

// Inserts copies of the members into an object at their indexes, one after another.
fn insert_members(value: &mut Value, alloc: Global, taken: &Taken) -> Result<()>
    requires { IsOk (on_pairs (insert_members (removed_members taken.now)) (tree_of value.old)) }
    ensures ok { OnOk result
        (Makes (on_pairs (insert_members (removed_members taken.now)) (tree_of value.old))
        value.new) }
    ensures kept { OnErr result (tree_of value.new ≡ tree_of value.old) }
    ensures touched { OnOk result
        (ObjectTouched (InsertsMembers (origins_of taken.now)) value.old value.new) }
    ensures untouched { OnErr result (ObjectKept Same value.old value.new) }
    ensures only { OnlyNoMemory result }
{
    match value.take() {
        Value::Object(mut object) => {
            let outcome = insert_into_object(&mut object, alloc, taken);
            *value = Value::Object(object);
            outcome
        }
        _ => unreachable!(),
    }
}

// Undoes the change in the value at its path.
fn restore_target(place: &mut Value, alloc: Global, change: &Change) -> Result<()>
    requires { IsOk (undone_in change.now (tree_of place.old)) }
    ensures ok { OnOk result (Makes (undone_in change.now (tree_of place.old)) place.new) }
    ensures kept { OnErr result (tree_of place.new ≡ tree_of place.old) }
    ensures touched { OnOk result (RestoresAt change.now place.old place.new) }
    ensures untouched { OnErr result (RestoreKeeps place.old place.new) }
    ensures only { OnlyNoMemory result }
{
    match change {
        Change::Put { old, .. } => {
            *place = old.clone(alloc)?;
            Ok(())
        }
        Change::DropLast { .. } => remove_last(place, alloc),
        Change::PutBack { index, old, .. } => restore_element(place, alloc, *index, old),
        Change::PutPairs { pairs, .. } => insert_members(place, alloc, pairs),
    }
}

// Undoes the change of what lends places.
fn restore_in<V: Places>(target: &mut V, alloc: Global, change: &Change) -> Result<()>
    requires { IsOk (undone (tree_of (V.held target.old)) (tree_change_of change.now)) }
    ensures ok { OnOk result
        (Makes (undone (tree_of (V.held target.old)) (tree_change_of change.now))
        (V.held target.new)) }
    ensures kept { KeepsTreeOnErr (V.held target.old) (V.held target.new) result }
    ensures children { OnOk result (Along (change_path change.now) (RestoresAt change.now)
        (V.held target.old) (V.held target.new)) }
    ensures kept_along { OnErr result (KeptAlong (change_path change.now) RestoreKeeps
        (V.held target.old) (V.held target.new)) }
    ensures only { OnlyNoMemory result }
{
    match target.place_mut(alloc, change.path().steps()) {
        Ok(place) => restore_target(place, alloc, change),
        Err(error) => Err(error),
    }
}

// Undoes the change, which an edit of the value made.
pub(crate) fn restore(value: &mut Value, alloc: Global, change: &Change) -> Result<()>
    requires { IsOk (undone (tree_of value.old) (tree_change_of change.now)) }
    ensures ok { OnOk result
        (Makes (undone (tree_of value.old) (tree_change_of change.now)) value.new) }
    ensures kept { OnErr result (tree_of value.new ≡ tree_of value.old) }
    ensures children { OnOk result (Along (change_path change.now) (RestoresAt change.now)
        value.old value.new) }
    ensures kept_along { OnErr result (KeptAlong (change_path change.now) RestoreKeeps
        value.old value.new) }
    ensures only { OnlyNoMemory result }
{
    restore_in(value, alloc, change)
}
