// What lends its elements and its members, and the places one step below.
ghost use Rattle.std.specs.Prelude.{◌≡◌, ◌⊎◌, map, IfOk, OnOk, OnErr, [], ◌∷◌, Some, ◌++◌, length};
ghost use Rattle.std.specs.Borrow.{LendsSoOk, sem};
ghost use Rattle.json_grammar.specs.Tree.{list, pairs, list_trees, list_pairs};
ghost use Rattle.json_io.specs.Errors.{not_found, type_unmatched, OnlyNoMemory};
ghost use Rattle.json_model.specs.Edit.{key_step, index_step};
ghost use Rattle.json_value.specs.Denotes.{tree_of, pair_of};
ghost use Rattle.json_value.specs.Edits.{FailsAlong, FailsOnList, FailsOnPairs};
ghost use Rattle.json_value.specs.Lending.{null_as_object, opened_with, PutsNothing, LeadsTo, AddsNothing, UpsertsNothing, PutsAt, PutsMember, AppendsElement, PutsOrInserts, FailsToInsert, BecomesList, BecomesPairs, BecomesPairsOrNull};
ghost use Rattle.json_value.specs.Rows.{value_row, pair_row, vec_row, IsOwnObject};
ghost use Rattle.json_value.specs.declared.value.Value.{Value, Null as NullValue};
ghost use Rattle.json_value.specs.Steps.{child, tree_or_null};
ghost use Rattle.json_doc.specs.Readings.{type_of};
ghost use Rattle.json_doc.specs.declared.json_type.JsonType.{JsonType};

use crate::container::{Container, Form};
use crate::index::Index;
use crate::pair::{Keyed, Pair, find_key, find_or_insert};
use crate::text::Text;
use crate::value::Value;
use json_io::{Error, ErrorCode, Place, Result};
use std::alloc::Global;

pub(crate) fn not_found_error() -> Error
    ensures { result ≡ not_found }
{
    Error {
        code: ErrorCode::NotFound,
        place: Place::None,
    }
}

pub(crate) fn type_unmatched_error() -> Error
    ensures { result ≡ type_unmatched }
{
    Error {
        code: ErrorCode::TypeUnmatched,
        place: Place::None,
    }
}

// What holds a value that may be an array or an object, and lends its elements or members.
pub(crate) trait ContainerMut {
    ghost held: { Self → Value };

    // The elements, to be changed.
    fn list(&mut self, alloc: Global) -> Result<&mut Vec<Value>>
        ensures* writes_back { sem 𝓛 (LendsSoOk Self.row (vec_row value_row) self.entry result
            (λ n w. BecomesList result w (held self.old) (held n)) (λ n. held n ≡ held self.old)) }
        ensures value { IfOk result (λ v. tree_of (held self.old)
            ≡ list (list_trees (map tree_of v.now.items))) }
        ensures refused { FailsOnList (tree_of (held self.old)) result };

    // The members, to be changed.
    fn pairs(&mut self, alloc: Global) -> Result<&mut Vec<Pair>>
        ensures* writes_back { sem 𝓛 (LendsSoOk Self.row (vec_row pair_row) self.entry result
            (λ n w. BecomesPairs result w (held self.old) (held n)) (λ n. held n ≡ held self.old)) }
        ensures value { IfOk result (λ v. tree_of (held self.old)
            ≡ pairs (list_pairs (map pair_of v.now.items))) }
        ensures refused { FailsOnPairs (tree_of (held self.old)) result };

    // The members, to be changed, where null is first made the object of this key with null.
    fn pairs_with(&mut self, alloc: Global, key: &str) -> Result<&mut Vec<Pair>>
        ensures* writes_back { sem 𝓛 (LendsSoOk Self.row (vec_row pair_row) self.entry result
            (λ n w. BecomesPairsOrNull result w (held self.old) (held n))
            (λ n. held n ≡ held self.old)) }
        ensures value { IfOk result (λ v. opened_with key.now (tree_of (held self.old))
            ≡ pairs (list_pairs (map pair_of v.now.items))) }
        ensures refused { FailsOnPairs (null_as_object (tree_of (held self.old))) result };
}

impl Value {
    // Turns null into an object with one member, `key` with null; any other value stays.
    fn open_with(&mut self, alloc: Global, key: &str) -> Result<()>
        ensures ok { OnOk result (tree_of self.new ≡ opened_with key.now (tree_of self.old)) }
        ensures made { OnOk result ((self.new ≡ self.old)
            ⊎ ((self.old ≡ NullValue) × IsOwnObject self.new)) }
        ensures kept { OnErr result (self.new ≡ self.old) }
        ensures only { OnlyNoMemory result }
    {
        if let Value::Null = self {
            let key = Text::copy(alloc, key)?;
            let mut list = Vec::with_capacity(alloc, 1)?;
            list.push(Keyed {
                key,
                value: Value::Null,
            })?;
            *self = Value::Object(Container {
                form: Form::Owned(list),
            });
        }
        Ok(())
    }
}

impl ContainerMut for Value {
    ghost held = { λ v. v };

    fn list(&mut self, alloc: Global) -> Result<&mut Vec<Value>> {
        match self.array_mut() {
            Some(array) => {
                let list = array.list_mut(alloc)?;
                Ok(list)
            }
            None => Err(type_unmatched_error()),
        }
    }

    fn pairs(&mut self, alloc: Global) -> Result<&mut Vec<Pair>> {
        match self.object_mut() {
            Some(object) => {
                let pairs = object.pairs_mut(alloc)?;
                Ok(pairs)
            }
            None => Err(type_unmatched_error()),
        }
    }

    fn pairs_with(&mut self, alloc: Global, key: &str) -> Result<&mut Vec<Pair>> {
        self.open_with(alloc, key)?;
        match self.object_mut() {
            Some(object) => {
                let pairs = object.pairs_mut(alloc)?;
                Ok(pairs)
            }
            None => Err(type_unmatched_error()),
        }
    }
}

// The element of the index.
pub(crate) fn element_of<S: ContainerMut>(
    container: &mut S,
    alloc: Global,
    index: usize,
) -> Result<&mut Value>
    ensures* writes_back { sem 𝓛 (LendsSoOk S.row value_row container.entry result
        (λ n w. PutsAt (index_step index ∷ []) result w (S.held container.old) (S.held n))
        (λ n. PutsNothing (index_step index ∷ []) (S.held container.old) (S.held n))) }
    ensures value { IfOk result (λ v. child (index_step index) (tree_of (S.held container.old))
        ≡ Some (tree_of v.now)) }
    ensures refused { FailsAlong (index_step index ∷ []) (tree_of (S.held container.old)) result }
{
    let list = container.list(alloc)?;
    match list.get_mut(index) {
        Some(value) => Ok(value),
        None => Err(not_found_error()),
    }
}

// Returns the value of the first member named `key`, to be changed. Fails with `NotFound` or
// `TypeUnmatched`.
pub(crate) fn member_of<'s, S: ContainerMut>(
    container: &'s mut S,
    alloc: Global,
    key: &str,
) -> Result<&'s mut Value>
    ensures* writes_back { sem 𝓛 (LendsSoOk S.row value_row container.entry result
        (λ n w. PutsAt (key_step key.now ∷ []) result w (S.held container.old) (S.held n))
        (λ n. PutsNothing (key_step key.now ∷ []) (S.held container.old) (S.held n))) }
    ensures value { IfOk result (λ v. child (key_step key.now) (tree_of (S.held container.old))
        ≡ Some (tree_of v.now)) }
    ensures refused { FailsAlong (key_step key.now ∷ []) (tree_of (S.held container.old)) result }
{
    let pairs = container.pairs(alloc)?;
    match find_key(pairs.as_slice(), key) {
        Some(i) => {
            let pair = &mut pairs[i];
            Ok(pair.value_mut())
        }
        None => Err(not_found_error()),
    }
}

// Returns the value to which the step `index` leads, to be changed.
pub(crate) fn child_mut<'s, S: ContainerMut, I: Index>(
    container: &'s mut S,
    alloc: Global,
    index: &I,
) -> Result<&'s mut Value>
    ensures* writes_back { sem 𝓛 (LendsSoOk S.row value_row container.entry result
        (λ n w. PutsAt (I.step index.now ∷ []) result w (S.held container.old) (S.held n))
        (λ n. PutsNothing (I.step index.now ∷ []) (S.held container.old) (S.held n))) }
    ensures leads { LeadsTo (I.step index.now ∷ []) (tree_of (S.held container.old)) result }
{
    if let Some(key) = index.as_key() {
        return member_of(container, alloc, key);
    }
    match index.as_index() {
        Some(i) => element_of(container, alloc, i),
        None => Err(not_found_error()),
    }
}

// Returns what `child_mut` does, for a step that is passed by value.
pub(crate) fn step_of<S: ContainerMut, I: Index>(
    container: &mut S,
    alloc: Global,
    index: I,
) -> Result<&mut Value>
    ensures* writes_back { sem 𝓛 (LendsSoOk S.row value_row container.entry result
        (λ n w. PutsAt (I.step index ∷ []) result w (S.held container.old) (S.held n))
        (λ n. PutsNothing (I.step index ∷ []) (S.held container.old) (S.held n))) }
    ensures leads { LeadsTo (I.step index ∷ []) (tree_of (S.held container.old)) result }
{
    child_mut(container, alloc, &index)
}

// Returns the value of the first member named `key`, to be changed; if there is none, it is
// appended with null.
fn key_value_mut<'s, S: ContainerMut>(
    container: &'s mut S,
    alloc: Global,
    key: &str,
) -> Result<&'s mut Value>
    ensures* writes_back { sem 𝓛 (LendsSoOk S.row value_row container.entry result
        (λ n w. PutsMember key.now w (S.held container.old) (S.held n))
        (λ n. UpsertsNothing (S.held container.old) (S.held n))) }
    ensures refused { FailsOnPairs (tree_of (S.held container.old)) result }
{
    let pairs = container.pairs(alloc)?;
    let i = find_or_insert(pairs, alloc, key)?;
    let pair = &mut pairs[i];
    Ok(pair.value_mut())
}

// Sets the value of the first member named `key`, or appends such a member, and returns that value,
// to be changed.
pub(crate) fn insert_of<'s, S: ContainerMut>(
    container: &'s mut S,
    alloc: Global,
    key: &str,
    val: Value,
) -> Result<&'s mut Value>
    requires { type_of (tree_of (S.held container.old)) ≡ JsonType.Object }
    ensures* writes_back { sem 𝓛 (LendsSoOk S.row value_row container.entry result
        (λ n w. PutsMember key.now w (S.held container.old) (S.held n))
        (λ n. UpsertsNothing (S.held container.old) (S.held n))) }
    ensures value { IfOk result (λ v. v.now ≡ val) }
    ensures only { OnlyNoMemory result }
{
    let place = key_value_mut(container, alloc, key)?;
    *place = val;
    Ok(place)
}

// Appends the element and returns its index.
fn push_last(list: &mut Vec<Value>, element: Value) -> Result<usize>
    ensures index { IfOk result (λ i. i ≡ length list.old.items) }
    ensures items { IfOk result (λ i. list.new.items ≡ list.old.items ++ element ∷ []) }
    ensures kept { OnErr result (list.new.items ≡ list.old.items) }
    ensures only { OnlyNoMemory result }
{
    let last = list.len();
    list.push(element)?;
    Ok(last)
}

// Appends the element and returns it, to be changed.
pub(crate) fn append_of<S: ContainerMut>(
    container: &mut S,
    alloc: Global,
    val: Value,
) -> Result<&mut Value>
    requires { type_of (tree_of (S.held container.old)) ≡ JsonType.Array }
    ensures* writes_back { sem 𝓛 (LendsSoOk S.row value_row container.entry result
        (λ n w. AppendsElement w (S.held container.old) (S.held n))
        (λ n. AddsNothing (S.held container.old) (S.held n))) }
    ensures value { IfOk result (λ v. v.now ≡ val) }
    ensures only { OnlyNoMemory result }
{
    let list = container.list(alloc)?;
    let last = push_last(list, val)?;
    Ok(&mut list[last])
}

// Returns the value of the first member named `key`, to be changed; if there is none, it is
// appended with null. Null counts as an empty object.
fn member_or_null<'s, S: ContainerMut>(
    container: &'s mut S,
    alloc: Global,
    key: &str,
) -> Result<&'s mut Value>
    ensures* writes_back { sem 𝓛 (LendsSoOk S.row value_row container.entry result
        (λ n w. PutsOrInserts (key_step key.now) result w (S.held container.old) (S.held n))
        (λ n. PutsNothing (key_step key.now ∷ []) (S.held container.old) (S.held n))) }
    ensures value { IfOk result (λ v. tree_of v.now
        ≡ tree_or_null (child (key_step key.now) (tree_of (S.held container.old)))) }
    ensures refused { FailsToInsert (key_step key.now) (tree_of (S.held container.old)) result }
{
    let pairs = container.pairs_with(alloc, key)?;
    let i = find_or_insert(pairs, alloc, key)?;
    let pair = &mut pairs[i];
    Ok(pair.value_mut())
}

// Returns the value to which the step leads, to be changed; a key that is missing is appended with
// null.
pub(crate) fn place_or_insert<'s, S: ContainerMut, I: Index>(
    container: &'s mut S,
    alloc: Global,
    index: &I,
) -> Result<&'s mut Value>
    ensures* writes_back { sem 𝓛 (LendsSoOk S.row value_row container.entry result
        (λ n w. PutsOrInserts (I.step index.now) result w (S.held container.old) (S.held n))
        (λ n. PutsNothing (I.step index.now ∷ []) (S.held container.old) (S.held n))) }
    ensures value { IfOk result (λ v. tree_of v.now
        ≡ tree_or_null (child (I.step index.now) (tree_of (S.held container.old)))) }
    ensures refused { FailsToInsert (I.step index.now) (tree_of (S.held container.old)) result }
{
    if let Some(key) = index.as_key() {
        return member_or_null(container, alloc, key);
    }
    match index.as_index() {
        Some(i) => element_of(container, alloc, i),
        None => Err(not_found_error()),
    }
}
