// Places of a value, and the array and the object that it is, lent.
ghost use Rattle.std.specs.Prelude.{◌≡◌, [], ◌∷◌, option_map, IfOk, IfSome};
ghost use Rattle.std.specs.Borrow.{LendsSoOk, sem};
ghost use Rattle.json_doc.specs.Readings.{type_of};
ghost use Rattle.json_doc.specs.declared.json_type.JsonType.{JsonType};
ghost use Rattle.json_value.specs.Denotes.{tree_of, list_in, pairs_in};
ghost use Rattle.json_value.specs.Edits.{steps_of};
ghost use Rattle.json_value.specs.Lending.{missing_as_none, PutsAtPath, PutsNothing, AddsNothing, UpsertsNothing, LendsPlace, lent, Opens, LendsPart, AppendsElement, PutsMember};
ghost use Rattle.json_value.specs.Rows.{value_row, array_row, object_row};
ghost use Rattle.json_value.specs.Steps.{child, tree_at};
ghost use Rattle.json_grammar.specs.Tree.{list, pairs, list_trees, list_pairs};
ghost use Rattle.json_value.specs.Seen.{list_of, object_pairs};
ghost use Rattle.json_value.specs.Written.{ArrayOpened, ObjectOpened};
ghost use Rattle.json_value.specs.declared.value.Value.{Array as ArrayValue, Object as ObjectValue};
ghost use Rattle.json_io.specs.Errors.{OnlyNoMemory};

use crate::array::Array;
use crate::container_mut::{append_of, insert_of, step_of, type_unmatched_error};
use crate::index::Index;
use crate::object::Object;
use crate::path::PointerNode;
use crate::places::{none_if_missing, reach_in};
use crate::value::Value;
use json_io::{ErrorCode, Result};
use std::alloc::Global;

// Turns every error but `NoMemory` into `None`: there was no array to lend.
fn none_if_no_array<'a>(r: Result<&'a mut Array>) -> Result<Option<&'a mut Array>>
    ensures missing_as_none { result ≡ missing_as_none r.entry }
{
    match r {
        Ok(array) => Ok(Some(array)),
        Err(error) => match error.code {
            ErrorCode::NoMemory => Err(error),
            _ => Ok(None),
        },
    }
}

// Turns every error but `NoMemory` into `None`: there was no object to lend.
fn none_if_no_object<'a>(r: Result<&'a mut Object>) -> Result<Option<&'a mut Object>>
    ensures missing_as_none { result ≡ missing_as_none r.entry }
{
    match r {
        Ok(object) => Ok(Some(object)),
        Err(error) => match error.code {
            ErrorCode::NoMemory => Err(error),
            _ => Ok(None),
        },
    }
}

impl Value {
    /// Returns a mutable reference to the value to which the steps of `path` lead, or `None` if a
    /// step names a member or an element that is not there. Without steps it is the whole value. A
    /// write through it changes that value and nothing else.
    ///
    /// Packed containers on the way are copied by one level each. Fails with `NoMemory` if memory
    /// runs out. After `None` or an error nothing is changed, except that such copies may have been
    /// made.
    pub fn reach(&mut self, alloc: Global, path: &[PointerNode]) -> Result<Option<&mut Value>>
        ensures* writes_back { sem 𝓛 (LendsPlace self.entry result
            (λ x w n. PutsAtPath (steps_of path.now) x w self.old n)
            (PutsNothing (steps_of path.now) self.old)) }
        ensures leads { IfOk result (λ o. option_map (λ x. tree_of x.now) o
            ≡ tree_at (steps_of path.now) (tree_of self.old)) }
        ensures only { OnlyNoMemory result }
    {
        none_if_missing(reach_in(self, alloc, path))
    }

    /// Returns a mutable reference to the value of the first member named `index`, or to the
    /// element at `index`, counted from 0, or `None` if there is none. `index` is a `&str`, a
    /// `usize` or a [`PointerNode`]. A write through it changes that value and nothing else.
    ///
    /// A packed container is first copied by one level. Fails with `NoMemory` if memory runs out.
    /// After `None` or an error nothing is changed, except that this copy may have been made.
    pub fn step_mut<I: Index>(&mut self, alloc: Global, index: I) -> Result<Option<&mut Value>>
        ensures* writes_back { sem 𝓛 (LendsPlace self.entry result
            (λ x w n. PutsAtPath (I.step index ∷ []) x w self.old n)
            (PutsNothing (I.step index ∷ []) self.old)) }
        ensures leads { IfOk result (λ o. option_map (λ x. tree_of x.now) o
            ≡ child (I.step index) (tree_of self.old)) }
        ensures only { OnlyNoMemory result }
    {
        none_if_missing(step_of(self, alloc, index))
    }

    /// Appends `val` to the array and returns a mutable reference to the new element. The value
    /// must be an array; a packed one is first copied by one level. Fails with `NoMemory` if memory
    /// runs out. Then nothing is changed, except that this copy may have been made.
    pub fn append_value(&mut self, alloc: Global, val: Value) -> Result<&mut Value>
        requires { type_of (tree_of self.old) ≡ JsonType.Array }
        ensures* writes_back { sem 𝓛 (LendsSoOk value_row value_row self.entry result
            (λ n w. AppendsElement w self.old n) (AddsNothing self.old)) }
        ensures value { IfOk result (λ v. v.now ≡ val) }
        ensures only { OnlyNoMemory result }
    {
        append_of(self, alloc, val)
    }

    /// Sets the value of the first member named `key` to `val`, or appends such a member if there
    /// is none, and returns a mutable reference to the member's value. The value must be an object;
    /// a packed one is first copied by one level. Fails with `NoMemory` if memory runs out. Then
    /// nothing is changed, except that this copy may have been made.
    pub fn insert(&mut self, alloc: Global, key: &str, val: Value) -> Result<&mut Value>
        requires { type_of (tree_of self.old) ≡ JsonType.Object }
        ensures* writes_back { sem 𝓛 (LendsSoOk value_row value_row self.entry result
            (λ n w. PutsMember key.now w self.old n) (UpsertsNothing self.old)) }
        ensures value { IfOk result (λ v. v.now ≡ val) }
        ensures only { OnlyNoMemory result }
    {
        insert_of(self, alloc, key, val)
    }

    // Returns the array, which then has an owned list. Fails with `TypeUnmatched` for another kind.
    fn array_open(&mut self, alloc: Global) -> Result<&mut Array>
        ensures* writes_back { sem 𝓛 (LendsSoOk value_row array_row self.entry result
            (λ n w. (tree_of n ≡ list (list_trees (list_in w))) × (n ≡ ArrayValue w))
            (λ n. n ≡ self.old)) }
        ensures opens { Opens list_in (list_of (tree_of self.old)) (ArrayOpened self.old) result }
    {
        match self.array_mut() {
            Some(array) => {
                array.make_owned(alloc)?;
                Ok(array)
            }
            None => Err(type_unmatched_error()),
        }
    }

    // Returns the object, which then has an owned list. Fails with `TypeUnmatched` for another
    // kind.
    fn object_open(&mut self, alloc: Global) -> Result<&mut Object>
        ensures* writes_back { sem 𝓛 (LendsSoOk value_row object_row self.entry result
            (λ n w. (tree_of n ≡ pairs (list_pairs (pairs_in w))) × (n ≡ ObjectValue w))
            (λ n. n ≡ self.old)) }
        ensures opens { Opens pairs_in (object_pairs (tree_of self.old)) (ObjectOpened self.old)
            result }
    {
        match self.object_mut() {
            Some(object) => {
                object.make_owned(alloc)?;
                Ok(object)
            }
            None => Err(type_unmatched_error()),
        }
    }

    /// Returns a mutable reference to the array that the value is, or `None` if it is of another
    /// kind. What is written through it becomes the value's array. A packed array is first copied
    /// by one level. Fails with `NoMemory` if memory runs out. `None` and an error leave the value
    /// as it was.
    pub fn as_array_mut(&mut self, alloc: Global) -> Result<Option<&mut Array>>
        ensures* writes_back { sem 𝓛 (LendsPart value_row array_row self.entry result
            (λ n w. (tree_of n ≡ list (list_trees (list_in w))) × (n ≡ ArrayValue w))
            (λ n. n ≡ self.old)) }
        ensures array { IfOk result (λ o. option_map (λ a. list_in a.now) o
            ≡ list_of (tree_of self.old)) }
        ensures children { IfSome (lent result) (ArrayOpened self.old) }
        ensures only { OnlyNoMemory result }
    {
        none_if_no_array(self.array_open(alloc))
    }

    /// Returns a mutable reference to the object that the value is, or `None` if it is of another
    /// kind. What is written through it becomes the value's object. A packed object is first copied
    /// by one level. Fails with `NoMemory` if memory runs out. `None` and an error leave the value
    /// as it was.
    pub fn as_object_mut(&mut self, alloc: Global) -> Result<Option<&mut Object>>
        ensures* writes_back { sem 𝓛 (LendsPart value_row object_row self.entry result
            (λ n w. (tree_of n ≡ pairs (list_pairs (pairs_in w))) × (n ≡ ObjectValue w))
            (λ n. n ≡ self.old)) }
        ensures object { IfOk result (λ o. option_map (λ a. pairs_in a.now) o
            ≡ object_pairs (tree_of self.old)) }
        ensures children { IfSome (lent result) (ObjectOpened self.old) }
        ensures only { OnlyNoMemory result }
    {
        none_if_no_object(self.object_open(alloc))
    }
}
