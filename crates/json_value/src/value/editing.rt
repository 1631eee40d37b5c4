// Edits, applied.
ghost use Rattle.std.specs.Prelude.{◌≡◌, OnOk, OnErr};
ghost use Rattle.json_model.specs.Edit.{removed, edited_once};
ghost use Rattle.json_value.specs.Denotes.{tree_of, text_bytes, KeepsTreeOnErr};
ghost use Rattle.json_value.specs.Edits.{step_of, edit_path, edit_of, change_of, Makes, FailsAs, inserted_in, pushed_in};
ghost use Rattle.json_value.specs.Places.{value_origin};
ghost use Rattle.json_value.specs.Touched.{ArrayTouched, ObjectTouched, Inserts, Pushes, RemovalTouches, ChangeTouches, Touches, Same, ArrayKept, ObjectKept, RemovalKeeps, ChangeKeeps, KeepsOnRefusal};

use crate::container_mut::{not_found_error, type_unmatched_error};
use crate::pair::{insert_pair, remove_pairs};
use crate::path::{Edit, PointerNode};
use crate::places::Places;
use crate::text::Text;
use crate::value::Value;
use json_io::Result;
use std::alloc::Global;

impl Value {
    fn insert_copy(&mut self, alloc: Global, key: &Text, value: &Value) -> Result<()>
        ensures ok { OnOk result (Makes (inserted_in (text_bytes key.now) (tree_of value.now)
            (tree_of self.old)) self.new) }
        ensures kept { OnErr result (tree_of self.new ≡ tree_of self.old) }
        ensures refused { FailsAs (inserted_in (text_bytes key.now) (tree_of value.now)
            (tree_of self.old)) result }
        ensures children { OnOk result (ObjectTouched (Inserts key.now (value_origin value.now))
            self.old self.new) }
        ensures kept_along { OnErr result (ObjectKept Same self.old self.new) }
    {
        match self.object_mut() {
            Some(object) => {
                let value = value.clone(alloc)?;
                let pairs = object.pairs_mut(alloc)?;
                insert_pair(pairs, alloc, key, value)
            }
            None => Err(type_unmatched_error()),
        }
    }

    fn push(&mut self, alloc: Global, value: &Value) -> Result<()>
        ensures ok { OnOk result (Makes (pushed_in (tree_of value.now) (tree_of self.old))
            self.new) }
        ensures kept { OnErr result (tree_of self.new ≡ tree_of self.old) }
        ensures refused { FailsAs (pushed_in (tree_of value.now) (tree_of self.old)) result }
        ensures children { OnOk result (ArrayTouched (Pushes (value_origin value.now))
            self.old self.new) }
        ensures kept_along { OnErr result (ArrayKept Same self.old self.new) }
    {
        match self.array_mut() {
            Some(array) => {
                let value = value.clone(alloc)?;
                let list = array.list_mut(alloc)?;
                list.push(value)?;
                Ok(())
            }
            None => Err(type_unmatched_error()),
        }
    }

    fn remove(&mut self, alloc: Global, step: &PointerNode) -> Result<()>
        ensures ok { OnOk result (Makes (removed (step_of step.now) (tree_of self.old)) self.new) }
        ensures kept { OnErr result (tree_of self.new ≡ tree_of self.old) }
        ensures refused { FailsAs (removed (step_of step.now) (tree_of self.old)) result }
        ensures children { OnOk result (RemovalTouches step.now self.old self.new) }
        ensures kept_along { OnErr result (RemovalKeeps step.now self.old self.new) }
    {
        match step {
            PointerNode::Key(key) => match self.object_mut() {
                Some(object) => {
                    let pairs = object.pairs_mut(alloc)?;
                    if remove_pairs(pairs, key.as_str()) {
                        Ok(())
                    } else {
                        Err(not_found_error())
                    }
                }
                None => Err(type_unmatched_error()),
            },
            PointerNode::Index(i) => match self.array_mut() {
                Some(array) => {
                    let list = array.list_mut(alloc)?;
                    if *i < list.len() {
                        let _ = list.remove(*i);
                        Ok(())
                    } else {
                        Err(not_found_error())
                    }
                }
                None => Err(type_unmatched_error()),
            },
        }
    }

    // Changes the value itself, whatever the path of the edit.
    fn change(&mut self, alloc: Global, edit: &Edit) -> Result<()>
        ensures ok { OnOk result (Makes (change_of edit.now (tree_of self.old)) self.new) }
        ensures kept { OnErr result (tree_of self.new ≡ tree_of self.old) }
        ensures refused { FailsAs (change_of edit.now (tree_of self.old)) result }
        ensures children { OnOk result (ChangeTouches edit.now self.old self.new) }
        ensures kept_along { OnErr result (ChangeKeeps edit.now self.old self.new) }
    {
        match edit {
            Edit::Set { value, .. } => {
                *self = value.clone(alloc)?;
                Ok(())
            }
            Edit::Insert { key, value, .. } => self.insert_copy(alloc, key, value),
            Edit::Push { value, .. } => self.push(alloc, value),
            Edit::Remove { step, .. } => self.remove(alloc, step),
        }
    }

    /// Changes the value as `edit` says, where the edit's path leads; the value in the edit is
    /// cloned. Fails with `NotFound` if a step of the path, or the step of a removal, names a key
    /// or an index that is missing. Fails with `TypeUnmatched` if a key or an insertion meets no
    /// object, or if an index or a push meets no array. Fails with `NoMemory` if memory runs out.
    ///
    /// After an error nothing is changed, except that packed containers on the way may have been
    /// copied by one level each.
    pub fn apply(&mut self, alloc: Global, edit: &Edit) -> Result<()>
        ensures ok { OnOk result (Makes (edited_once (edit_of edit.now) (tree_of self.old))
            self.new) }
        ensures kept { OnErr result (tree_of self.new ≡ tree_of self.old) }
        ensures refused { FailsAs (edited_once (edit_of edit.now) (tree_of self.old)) result }
        ensures children { OnOk result (Touches (edit_path edit.now) edit.now self.old self.new) }
        ensures kept_along { OnErr result
            (KeepsOnRefusal (edit_path edit.now) edit.now self.old self.new) }
    {
        apply_in(self, alloc, edit)
    }
}

// Changes the value at the end of the edit's path.
fn apply_in<V: Places>(target: &mut V, alloc: Global, edit: &Edit) -> Result<()>
    ensures ok { OnOk result (Makes (edited_once (edit_of edit.now) (tree_of (V.held target.old)))
        (V.held target.new)) }
    ensures kept { KeepsTreeOnErr (V.held target.old) (V.held target.new) result }
    ensures refused { FailsAs (edited_once (edit_of edit.now) (tree_of (V.held target.old)))
        result }
    ensures children { OnOk result (Touches (edit_path edit.now) edit.now (V.held target.old)
        (V.held target.new)) }
    ensures kept_along { OnErr result
        (KeepsOnRefusal (edit_path edit.now) edit.now (V.held target.old)
        (V.held target.new)) }
{
    let place = target.place_mut(alloc, edit.path().steps())?;
    place.change(alloc, edit)
}
