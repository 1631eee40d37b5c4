// The calls of objects.
ghost use Rattle.std.specs.Prelude.{◌≡◌, ◌+◌, ◌<◌, ◌≤◌, ◌↔◌, List, [], length, map, set, false};
ghost use Rattle.std.specs.Prelude.{IfOk, IfSome, IfNone, OnOk, OnErr, IsOk, IsTrue, Some};
ghost use Rattle.std.specs.Prelude.{slice_get, option_map};
ghost use Rattle.std.specs.Borrow.{LendsSoOk, RestsIfErr, sem};
ghost use Rattle.std.specs.List.Retain.{RetainsInTurn};
ghost use Rattle.json_grammar.specs.Tree.{list_pairs};
ghost use Rattle.json_model.specs.Edit.{has_key, inserted, without_key};
ghost use Rattle.json_model.specs.Merged.{inserted_all};
ghost use Rattle.json_io.specs.Errors.{OnlyNoMemory};
ghost use Rattle.json_value.specs.Denotes.{tree_of, pair_of, pairs_in};
ghost use Rattle.json_value.specs.FirstMember.{IsFirstOf};
ghost use Rattle.json_value.specs.Left.{members_left, members_targets_left};
ghost use Rattle.json_value.specs.Lending.{missing_as_none, LendsPart};
ghost use Rattle.json_value.specs.Merged.{with_members};
ghost use Rattle.json_value.specs.Rows.{pair_row, object_row, value_row, OwnsList};
ghost use Rattle.json_value.specs.Room.{spare_in};
ghost use Rattle.json_value.specs.Seen.{seen, first_of};
ghost use Rattle.json_value.specs.TargetParts.{member_target, object_targets};
ghost use Rattle.json_value.specs.ViewTargets.{view_target};
ghost use Rattle.json_value.specs.Positions.{IsPlace};
ghost use Rattle.json_value.specs.Written.{FirstMembers};
ghost use Rattle.json_value.specs.declared.container.Container.{Container};
ghost use Rattle.json_value.specs.declared.pair.Keyed.{Keyed};
ghost use Rattle.json_value.specs.declared.value.Value.{Value};
ghost use Rattle.json_containers.specs.Changed.{ObjectChanged, ObjectBecame, ObjectStays, ObjectStaysOnErr};
ghost use Rattle.json_containers.specs.Changed.{KeepsRoom};
ghost use Rattle.json_containers.specs.Entry.{entry_ref, entry_object, entry_key};
ghost use Rattle.json_containers.specs.Entry.{entry_value, entry_with};
ghost use Rattle.json_containers.specs.Found.{Finds};
ghost use Rattle.json_value.specs.Touched.{AtMember};
ghost use Rattle.json_containers.specs.Members.{own_members, first_member_value, CalledAtMember};
ghost use Rattle.json_containers.specs.Put.{PutsValue, TakesOut, AreCopies};

use crate::entry::{Entry, OccupiedEntry, VacantEntry, take_all};
use crate::members::{copy_pair_slice, keep_members, put_pairs};
use json_io::{Error, ErrorCode, Place, Result};
use json_value::{Iter, Object, Pair, Text, Value, View, find_key};
use std::alloc::Global;
use std::mem::replace;

// Copies one level of a place of a document, and returns the index of the first member of the key.
fn seek(object: &mut Object, alloc: Global, key: &str) -> Result<Option<usize>>
    ensures same { pairs_in object.new ≡ pairs_in object.old }
    ensures owned { OnOk result (OwnsList object.new) }
    ensures kept { OnErr result (object.new ≡ object.old) }
    ensures children { OnOk result (FirstMembers object.old (own_members object.new)) }
    ensures first { IfOk result (λ o. IfSome o
        (λ i. IsFirstOf key.now (map pair_of (own_members object.new)) i)) }
    ensures none { IfOk result (λ o. IfNone o
        (has_key key.now (list_pairs (map pair_of (own_members object.new))) ≡ false)) }
    ensures only { OnlyNoMemory result }
    ensures free { (IsPlace object.old → ⊥) → IsOk result }
{
    let pairs = object.pairs_mut(alloc)?;
    Ok(find_key(pairs.as_slice(), key))
}

// Makes room for one more member.
fn make_room(object: &mut Object) -> Result<()>
    requires { OwnsList object.old }
    ensures members { own_members object.new ≡ own_members object.old }
    ensures owned { OwnsList object.new }
    ensures same { pairs_in object.new ≡ pairs_in object.old }
    ensures room { OnOk result (0 < spare_in object.new) }
    ensures only { OnlyNoMemory result }
{
    let pairs = object.owned_mut();
    pairs.reserve(1)?;
    Ok(())
}

// Returns the value of the first member of the key, to be changed. Fails if there is none.
fn added_value<'o>(object: &'o mut Object, alloc: Global, key: &str) -> Result<&'o mut Value>
    ensures* writes_back { sem 𝓛 (LendsSoOk object_row value_row object.entry result
        (λ n w. ObjectChanged (AtMember key.now (λ before after. after ≡ w)) object.old n)
        (λ n. ObjectStays object.old n)) }
    ensures leads { Finds ((IsPlace object.old → ⊥) → ⊥)
        (first_member_value key.now (pairs_in object.old)) result }
{
    let pairs = match object.pairs_mut(alloc) {
        Ok(pairs) => pairs,
        Err(error) => return Err(error),
    };
    match find_key(pairs.as_slice(), key) {
        Some(at) => Ok(pairs[at].value_mut()),
        None => Err(Error {
            code: ErrorCode::NotFound,
            place: Place::None,
        }),
    }
}

// Returns the value that is lent, or `None` if it was not found; only `NoMemory` stays an error.
// The walk of `get_mut` can name the contract of a function of its own crate alone, so this one is
// here too.
fn none_if_missing<'a>(r: Result<&'a mut Value>) -> Result<Option<&'a mut Value>>
    ensures missing_as_none { result ≡ missing_as_none r.entry }
{
    match r {
        Ok(value) => Ok(Some(value)),
        Err(error) => match error.code {
            ErrorCode::NoMemory => Err(error),
            _ => Ok(None),
        },
    }
}

/// The calls of an object that a map has. Members keep their order, and a key may repeat: the first
/// member of a key is read and written, and a removal takes out all of them.
///
/// If the object is a place of a document (a part of a shared JSON text), the first write copies
/// one level of it: each value becomes a value of its own, or a place of the same document. A call
/// that changes the object takes memory from `alloc`.
///
/// ```
/// use json_containers::ObjectCalls;
/// use json_value::{Object, Value};
/// let mut object = Object::new();
/// object.insert(alloc, "a", Value::new_u64(1))?;
/// object.insert(alloc, "b", Value::new_bool(true))?;
/// assert!(rt; object.insert(alloc, "a", Value::new_u64(2))?.is_some());
/// assert!(rt; object.remove(alloc, "b")?.is_some() && !object.contains_key("b"));
/// assert_eq!(rt; object.into_value().to_string(alloc)?.as_str(), "{\"a\":2}");
/// ```
pub trait ObjectCalls {
    /// The object.
    ghost held: { Self → Container (Keyed Value) };

    /// Returns the number of members. Each member of a repeated key counts.
    fn len(&self) -> usize
        ensures { result ≡ length (pairs_in (held self.now)) };

    /// Returns whether the object has no members.
    fn is_empty(&self) -> bool
        ensures { IsTrue result ↔ (pairs_in (held self.now) ≡ []) };

    /// Returns how many members the object can have before it needs more memory.
    fn capacity(&self) -> usize
        ensures { result ≡ length (pairs_in (held self.now)) + spare_in (held self.now) };

    /// Returns the value of the first member named `key`, for as long as the object is borrowed.
    /// Returns `None` if there is no such member.
    fn get(&self, key: &str) -> Option<View<'_>>
        ensures tree { option_map seen result ≡ first_member_value key.now (pairs_in (held self.now)) }
        ensures target { option_map view_target result
            ≡ option_map (λ p. p.1) (first_of key.now (object_targets (held self.now))) };

    /// Returns whether there is a member named `key`.
    fn contains_key(&self, key: &str) -> bool
        ensures { result ≡ has_key key.now (list_pairs (pairs_in (held self.now))) };

    /// Returns the key and the value of the first member named `key`, for as long as the object is
    /// borrowed. Returns `None` if there is no such member.
    fn get_key_value(&self, key: &str) -> Option<(&str, View<'_>)>
        ensures tree { option_map (λ p. (p.0.now, seen p.1)) result
            ≡ first_of key.now (pairs_in (held self.now)) }
        ensures target { option_map member_target result
            ≡ first_of key.now (object_targets (held self.now)) };

    /// Returns an iterator over the members in order, each as its key and its value.
    fn iter(&self) -> Iter<'_>
        ensures trees { members_left result ≡ pairs_in (held self.now) }
        ensures targets { members_targets_left result ≡ object_targets (held self.now) };

    /// Returns the value of the first member named `key`, to be changed, for as long as the object
    /// is borrowed. Returns `None` exactly if there is no such member. Fails with `NoMemory` if
    /// memory runs out; the members stay as they were.
    fn get_mut(&mut self, alloc: Global, key: &str) -> Result<Option<&mut Value>>
        ensures* writes_back { sem 𝓛 (LendsPart Self.row value_row self.entry result
            (λ n w. ObjectChanged (AtMember key.now (λ before after. after ≡ w))
            (held self.old) (held n))
            (λ n. ObjectStays (held self.old) (held n))) }
        ensures first_member_value { IfOk result (λ o. option_map (λ x. tree_of x.now) o
            ≡ first_member_value key.now (pairs_in (held self.old))) }
        ensures free { (IsPlace (held self.old) → ⊥) → IsOk result }
        ensures only { OnlyNoMemory result };

    /// Returns the member at index `i`, counted from 0, to be changed, for as long as the object is
    /// borrowed. Fails with `NoMemory` if memory runs out, and changes nothing then.
    fn pair_mut(&mut self, alloc: Global, i: usize) -> Result<&mut Pair>
        requires { i < length (pairs_in (held self.old)) }
        ensures* writes_back { sem 𝓛 (LendsSoOk Self.row pair_row self.entry result
            (λ n w. ObjectBecame (λ items. set items i w) (held self.old) (held n))
            (λ n. held n ≡ held self.old)) }
        ensures pair { IfOk result (λ p. slice_get (pairs_in (held self.old)) i
            ≡ Some (pair_of p.now)) }
        ensures free { (IsPlace (held self.old) → ⊥) → IsOk result }
        ensures only { OnlyNoMemory result };

    /// Sets the value of the first member named `key` and returns the old value. If there is no
    /// such member, appends one and returns `None`. Fails with `NoMemory` if memory runs out; the
    /// members stay as they were.
    fn insert(&mut self, alloc: Global, key: &str, value: Value) -> Result<Option<Value>>
        ensures ok { OnOk result (list_pairs (pairs_in (held self.new))
            ≡ inserted key.now (tree_of value) (list_pairs (pairs_in (held self.old)))) }
        ensures before { IfOk result (λ o. option_map tree_of o
            ≡ first_member_value key.now (pairs_in (held self.old))) }
        ensures children { IfOk result (λ o. ObjectChanged (PutsValue key.now value o)
            (held self.old) (held self.new)) }
        ensures kept { ObjectStaysOnErr (held self.old) (held self.new) result }
        ensures only { OnlyNoMemory result };

    /// Removes the members for which `f`, called with the key and the value, returns false. The
    /// others keep their order, with what `f` wrote to their values. Fails with `NoMemory` if
    /// memory runs out, and changes nothing then.
    fn retain<F: FnMut(&str, &mut Value) -> bool>(&mut self, alloc: Global, f: F) -> Result<()>
        requires { F.IsAlwaysCallable f }
        ensures children { OnOk result (ObjectChanged (RetainsInTurn (CalledAtMember F.FnMut) f)
            (held self.old) (held self.new)) }
        ensures kept { OnErr result (held self.new ≡ held self.old) }
        ensures free { (IsPlace (held self.old) → ⊥) → IsOk result }
        ensures only { OnlyNoMemory result };

    /// Creates an object without members, with room for at least `capacity` of them. Fails with
    /// `NoMemory` if memory runs out.
    fn with_capacity(alloc: Global, capacity: usize) -> Result<Object>
        ensures pairs { IfOk result (λ o. pairs_in o ≡ []) }
        ensures no_place { IfOk result (λ o. IsPlace o → ⊥) }
        ensures room { IfOk result (λ o. capacity ≤ spare_in o) }
        ensures only { OnlyNoMemory result };

    /// Makes room for at least `additional` more members. Fails with `NoMemory` if memory runs out;
    /// the members stay as they were.
    fn reserve(&mut self, alloc: Global, additional: usize) -> Result<()>
        ensures room { OnOk result (additional ≤ spare_in (held self.new)) }
        ensures same { ObjectStays (held self.old) (held self.new) }
        ensures free { additional ≤ spare_in (held self.old)
            → IsOk result × (held self.new ≡ held self.old) }
        ensures only { OnlyNoMemory result };

    /// Removes all members. An object that is no place of a document keeps its room. Takes no
    /// memory.
    fn clear(&mut self)
        ensures empty { pairs_in (held self.new) ≡ [] }
        ensures no_place { IsPlace (held self.new) → ⊥ }
        ensures room { KeepsRoom (length (pairs_in (held self.old)))
            (held self.old) (held self.new) };

    /// Removes all members named `key`, and returns `key` with the value of the first. Returns
    /// `None` if there is no such member. Fails with `NoMemory` if memory runs out, and changes
    /// nothing then.
    fn remove_entry<'k>(&mut self, alloc: Global, key: &'k str) -> Result<Option<(&'k str, Value)>>
        ensures ok { OnOk result (list_pairs (pairs_in (held self.new))
            ≡ without_key key.now (list_pairs (pairs_in (held self.old)))) }
        ensures value { IfOk result (λ o. option_map (λ p. tree_of p.1) o
            ≡ first_member_value key.now (pairs_in (held self.old))) }
        ensures children { IfOk result (λ o. ObjectChanged
            (TakesOut key.now (option_map (λ p. p.1) o)) (held self.old) (held self.new)) }
        ensures key { IfOk result (λ o. IfSome o (λ p. p.0.now ≡ key.now)) }
        ensures kept { OnErr result (held self.new ≡ held self.old) }
        ensures free { (IsPlace (held self.old) → ⊥) → IsOk result }
        ensures only { OnlyNoMemory result };

    /// Inserts copies of `pairs`, one after another, as [`ObjectCalls::insert`] does: a key that is
    /// there gets the new value. Fails with `NoMemory` if memory runs out; the members stay as they
    /// were.
    fn extend(&mut self, alloc: Global, pairs: &[Pair]) -> Result<()>
        ensures ok { OnOk result (list_pairs (pairs_in (held self.new))
            ≡ inserted_all (map pair_of pairs.now) (list_pairs (pairs_in (held self.old)))) }
        ensures children { OnOk result (ObjectChanged (λ items now. (more : List (Keyed Value))
            × AreCopies pairs.now more × (now ≡ with_members more items))
            (held self.old) (held self.new)) }
        ensures kept { ObjectStaysOnErr (held self.old) (held self.new) result }
        ensures only { OnlyNoMemory result };

    /// Moves all members of `other` to this object, one after another: a key that is there gets the
    /// new value, as by [`ObjectCalls::insert`]. `other` is empty afterwards. Fails with `NoMemory`
    /// if memory runs out; the members of both objects stay as they were.
    fn append(&mut self, alloc: Global, other: &mut Object) -> Result<()>
        ensures ok { OnOk result (list_pairs (pairs_in (held self.new))
            ≡ inserted_all (pairs_in other.old) (list_pairs (pairs_in (held self.old)))) }
        ensures children { OnOk result (ObjectChanged (λ items now. (more : List (Keyed Value))
            × FirstMembers other.old more × (now ≡ with_members more items))
            (held self.old) (held self.new)) }
        ensures emptied { OnOk result (pairs_in other.new ≡ []) }
        ensures no_place { OnOk result (IsPlace other.new → ⊥) }
        ensures kept { OnErr result (ObjectStays (held self.old) (held self.new)
            × ObjectStays other.old other.new) }
        ensures only { OnlyNoMemory result };

    /// Removes all members named `key`, and returns the value of the first. Returns `None` if there
    /// is no such member. Fails with `NoMemory` if memory runs out, and changes nothing then.
    fn remove(&mut self, alloc: Global, key: &str) -> Result<Option<Value>>
        ensures ok { OnOk result (list_pairs (pairs_in (held self.new))
            ≡ without_key key.now (list_pairs (pairs_in (held self.old)))) }
        ensures value { IfOk result (λ o. option_map tree_of o
            ≡ first_member_value key.now (pairs_in (held self.old))) }
        ensures children { IfOk result (λ o. ObjectChanged (TakesOut key.now o)
            (held self.old) (held self.new)) }
        ensures kept { OnErr result (held self.new ≡ held self.old) }
        ensures free { (IsPlace (held self.old) → ⊥) → IsOk result }
        ensures only { OnlyNoMemory result };

    /// Returns the entry of `key`: its first member, or the position where one can be inserted. It
    /// lasts for as long as the object is borrowed. Fails with `NoMemory` if memory runs out; the
    /// members stay as they were.
    fn entry(&mut self, alloc: Global, key: &str) -> Result<Entry<'_>>
        ensures* rests { sem 𝓛 (RestsIfErr Self.row self.entry
            (λ e. (entry_ref e).ghost_name) result
            (λ n. ObjectStays (held self.old) (held n))) }
        ensures same_object { IfOk result (λ e. (entry_ref e).ghost_name ≡ self.entry.ghost_name) }
        ensures unchanged { IfOk result (λ e. pairs_in (entry_object e)
            ≡ pairs_in (held self.old)) }
        ensures children { IfOk result (λ e. FirstMembers (held self.old)
            (own_members (entry_object e))) }
        ensures key { IfOk result (λ e. entry_key e ≡ key.now) }
        ensures value { IfOk result (λ e. option_map tree_of (entry_value e)
            ≡ first_member_value key.now (pairs_in (held self.old))) }
        ensures update { IfOk result (λ e. (w : Value) → list_pairs (pairs_in (entry_with e w))
            ≡ inserted key.now (tree_of w) (list_pairs (pairs_in (held self.old)))) }
        ensures only { OnlyNoMemory result };
}

impl ObjectCalls for Object {
    ghost held = { λ o. o };

    fn len(&self) -> usize {
        self.view().len()
    }

    fn is_empty(&self) -> bool {
        self.view().is_empty()
    }

    fn capacity(&self) -> usize {
        self.view().len() + self.spare()
    }

    fn get(&self, key: &str) -> Option<View<'_>> {
        self.view().get(key)
    }

    fn contains_key(&self, key: &str) -> bool {
        match self.view().get(key) {
            Some(_) => true,
            None => false,
        }
    }

    fn get_key_value(&self, key: &str) -> Option<(&str, View<'_>)> {
        self.view().get_key_value(key)
    }

    fn iter(&self) -> Iter<'_> {
        self.view().iter()
    }

    fn get_mut(&mut self, alloc: Global, key: &str) -> Result<Option<&mut Value>> {
        none_if_missing(added_value(self, alloc, key))
    }

    fn pair_mut(&mut self, alloc: Global, i: usize) -> Result<&mut Pair> {
        let pairs = self.pairs_mut(alloc)?;
        Ok(&mut pairs[i])
    }

    fn insert(&mut self, alloc: Global, key: &str, value: Value) -> Result<Option<Value>> {
        let pairs = self.pairs_mut(alloc)?;
        match find_key(pairs.as_slice(), key) {
            Some(at) => Ok(Some(replace(pairs[at].value_mut(), value))),
            None => {
                let key = Text::copy(alloc, key)?;
                pairs.push(Pair::new(key, value))?;
                Ok(None)
            }
        }
    }

    fn retain<F: FnMut(&str, &mut Value) -> bool>(
        &mut self,
        alloc: Global,
        mut f: F,
    ) -> Result<()> {
        let pairs = self.pairs_mut(alloc)?;
        keep_members(pairs, &mut f);
        Ok(())
    }

    fn with_capacity(alloc: Global, capacity: usize) -> Result<Object> {
        let pairs = Vec::with_capacity(alloc, capacity)?;
        Ok(Object::from_list(pairs))
    }

    fn reserve(&mut self, alloc: Global, additional: usize) -> Result<()> {
        if additional <= self.spare() {
            return Ok(());
        }
        let pairs = self.pairs_mut(alloc)?;
        pairs.reserve(additional)?;
        Ok(())
    }

    fn clear(&mut self) {
        match self.pairs() {
            Some(pairs) if pairs.is_empty() => {}
            Some(_) => self.owned_mut().clear(),
            None => *self = Object::new(),
        }
    }

    fn remove_entry<'k>(
        &mut self,
        alloc: Global,
        key: &'k str,
    ) -> Result<Option<(&'k str, Value)>> {
        match self.remove(alloc, key)? {
            Some(value) => Ok(Some((key, value))),
            None => Ok(None),
        }
    }

    fn extend(&mut self, alloc: Global, pairs: &[Pair]) -> Result<()> {
        let copies = copy_pair_slice(alloc, pairs)?;
        let list = self.pairs_mut(alloc)?;
        list.reserve(copies.len())?;
        put_pairs(list, copies);
        Ok(())
    }

    fn append(&mut self, alloc: Global, other: &mut Object) -> Result<()> {
        let more = other.pairs_mut(alloc)?;
        let pairs = self.pairs_mut(alloc)?;
        pairs.reserve(more.len())?;
        put_pairs(pairs, replace(more, Vec::new(alloc)));
        Ok(())
    }

    fn remove(&mut self, alloc: Global, key: &str) -> Result<Option<Value>> {
        let pairs = self.pairs_mut(alloc)?;
        match find_key(pairs.as_slice(), key) {
            Some(at) => Ok(Some(take_all(pairs, at))),
            None => Ok(None),
        }
    }

    fn entry(&mut self, alloc: Global, key: &str) -> Result<Entry<'_>> {
        match seek(self, alloc, key)? {
            Some(at) => Ok(Entry::Occupied(OccupiedEntry { object: self, at })),
            None => {
                let key = Text::copy(alloc, key)?;
                make_room(self)?;
                Ok(Entry::Vacant(VacantEntry { object: self, key }))
            }
        }
    }
}
