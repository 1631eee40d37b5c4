// The entry of a key in an object.
ghost use Rattle.std.specs.Prelude.{◌≡◌, ◌+◌, ◌<◌, ◌++◌, ◌∷◌, [], length, map, take, false, Some};
ghost use Rattle.std.specs.Prelude.{option_map, slice_get};
ghost use Rattle.std.specs.Borrow.{Lends, sem};
ghost use Rattle.std.specs.Vec.{vec_len, vec_capacity, SameBlock};
ghost use Rattle.json_grammar.specs.Tree.{list_pairs};
ghost use Rattle.json_model.specs.Edit.{has_key, without_key};
ghost use Rattle.json_value.specs.Denotes.{pair_of, pairs_in, text_bytes};
ghost use Rattle.json_value.specs.Room.{spare_in};
ghost use Rattle.json_value.specs.Rows.{object_row, value_row};
ghost use Rattle.json_value.specs.Written.{value_in};
ghost use Rattle.json_value.specs.Touched.{unkeyed};
ghost use Rattle.json_containers.specs.Members.{own_members, key_at, object_with};

use json_value::{Object, Pair, Text, Value};
use std::mem::replace;

/// The entry of a key in an object, from [`ObjectCalls::entry`](crate::ObjectCalls::entry): of a
/// key that is there, or one that is missing. Its calls take no memory.
///
/// ```
/// use json_containers::ObjectCalls;
/// use json_value::{Object, Value};
/// let mut object = Object::new();
/// *object.entry(alloc, "n")?.or_default() = Value::new_u64(3);
/// let kept = object.entry(alloc, "n")?.or_insert(Value::new_u64(4)).to_string(alloc)?;
/// assert_eq!(rt; kept.as_str(), "3");
/// ```
#[derive(Drop)]
pub enum Entry<'a> {
    /// The object has a member with this key.
    Occupied(OccupiedEntry<'a>),
    /// The object has no member with this key.
    Vacant(VacantEntry<'a>),
}

/// The entry of a key that an object has: the first member with this key.
///
/// ```
/// use json_containers::{Entry, ObjectCalls};
/// use json_value::{Object, Value};
/// let mut object = Object::new();
/// object.insert(alloc, "n", Value::new_u64(3))?;
/// let removed = match object.entry(alloc, "n")? {
///     Entry::Occupied(entry) => Some(entry.remove()),
///     Entry::Vacant(_entry) => None,
/// };
/// assert!(rt; removed.is_some() && object.is_empty());
/// ```
#[derive(Drop)]
pub struct OccupiedEntry<'a> {
    pub(crate) object: &'a mut Object,
    pub(crate) at: usize,
    ghost within: { at < length (own_members object.now) },
    ghost first: { has_key (key_at (own_members object.now) at)
        (list_pairs (map pair_of (take at (own_members object.now)))) ≡ false },
}

/// The entry of a key that an object does not have, with the key and with room for a member.
///
/// ```
/// use json_containers::{Entry, ObjectCalls};
/// use json_value::{Object, Value};
/// let mut object = Object::new();
/// match object.entry(alloc, "n")? {
///     Entry::Occupied(_entry) => {}
///     Entry::Vacant(entry) => *entry.insert(Value::new_null()) = Value::new_bool(true),
/// }
/// assert_eq!(rt; object.into_value().to_string(alloc)?.as_str(), "{\"n\":true}");
/// ```
#[derive(Drop)]
pub struct VacantEntry<'a> {
    pub(crate) object: &'a mut Object,
    pub(crate) key: Text,
    ghost absent: { has_key (text_bytes key) (list_pairs (pairs_in object.now)) ≡ false },
    ghost reserved: { 0 < spare_in object.now },
}

// Returns the value of the member at the index, to be changed.
fn value_mut_at(object: &mut Object, at: usize) -> &mut Value
    requires { at < length (own_members object.old) }
    ensures* writes_back { sem 𝓛 (Lends object_row value_row object.entry result
        (object_with object.old at)) }
    ensures value { option_map value_in (slice_get (own_members object.old) at) ≡ Some result.now }
{
    let pairs = object.owned_mut();
    pairs[at].value_mut()
}

// Appends the member, for which there is room.
pub(crate) fn add_member(pairs: &mut Vec<Pair>, pair: Pair)
    requires { vec_len pairs.old < vec_capacity pairs.old }
    ensures items { pairs.new.items ≡ pairs.old.items ++ pair ∷ [] }
    ensures len { vec_len pairs.new ≡ vec_len pairs.old + 1 }
    ensures block { SameBlock pairs.old pairs.new }
{
    let at = pairs.len();
    match pairs.insert(at, pair) {
        Ok(()) => {}
        Err(_) => unreachable!(),
    }
}

// Removes every member whose key is that of the one at the index, and returns the value of that
// one.
pub(crate) fn take_all(pairs: &mut Vec<Pair>, at: usize) -> Value
    requires { at < vec_len pairs.old }
    ensures value { option_map value_in (slice_get pairs.old.items at) ≡ Some result }
    ensures left { pairs.new.items ≡ unkeyed (key_at pairs.old.items at) (pairs.old.items) }
{
    let mut first = pairs.remove(at);
    pairs.retain(|pair| pair.key() != first.key());
    first.value_mut().take()
}

impl<'a> OccupiedEntry<'a> {
    ghost use Rattle.json_containers.specs.Entry.{Occupied, entry_key, entry_object, entry_value};
    ghost use Rattle.json_containers.specs.Entry.{entry_lends, occupied_lends, with_entry_value};
    ghost use Rattle.json_containers.specs.Entry.{IsWritten};
    ghost use Rattle.json_value.specs.declared.value.Value.{Value};
    ghost use Rattle.json_value.specs.Rows.{OwnsList};

    /// Returns the value of the entry, to be changed, for as long as the object is borrowed.
    pub fn into_mut(self) -> &'a mut Value
        ensures* writes_back { sem 𝓛 (entry_lends (Occupied self.entry) result) }
        ensures value { entry_value (Occupied self.entry) ≡ Some result.now }
    {
        let object = self.object;
        value_mut_at(object, self.at)
    }

    /// Returns the value of the entry, to be changed, for as long as the entry is borrowed.
    pub fn get_mut(&mut self) -> &mut Value
        ensures* writes_back { sem 𝓛 (occupied_lends self.entry result) }
        ensures value { entry_value (Occupied self.old) ≡ Some result.now }
        ensures written { (w : Value) → IsWritten (Occupied self.old) w
            (Occupied (with_entry_value self.old w)) }
    {
        let at = self.at;
        value_mut_at(self.object, at)
    }

    /// Sets the value of the entry, and returns the old one.
    pub fn insert(&mut self, val: Value) -> Value
        ensures old { entry_value (Occupied self.old) ≡ Some result }
        ensures written { IsWritten (Occupied self.old) val (Occupied self.new) }
    {
        replace(self.get_mut(), val)
    }

    /// Returns the key of the entry.
    pub fn key(&self) -> &str
        ensures { result.now ≡ entry_key (Occupied self.now) }
    {
        match self.object.pairs() {
            Some(pairs) => pairs[self.at].key(),
            None => unreachable!(),
        }
    }

    /// Returns the value of the entry, for as long as the entry is borrowed.
    pub fn get(&self) -> &Value
        ensures { entry_value (Occupied self.now) ≡ Some result.now }
    {
        match self.object.pairs() {
            Some(pairs) => pairs[self.at].value(),
            None => unreachable!(),
        }
    }

    /// Removes all members with the key of the entry, and returns the value of the first.
    pub fn remove(self) -> Value
        ensures value { entry_value (Occupied self.entry) ≡ Some result }
        ensures removed { own_members self.exit.0.now
            ≡ unkeyed (entry_key (Occupied self.entry))
            (own_members (entry_object (Occupied self.entry))) }
        ensures owned { OwnsList self.exit.0.now }
        ensures removal { list_pairs (pairs_in self.exit.0.now)
            ≡ without_key (entry_key (Occupied self.entry))
            (list_pairs (pairs_in (entry_object (Occupied self.entry)))) }
    {
        let at = self.at;
        let pairs = self.object.owned_mut();
        take_all(pairs, at)
    }
}

impl<'a> VacantEntry<'a> {
    ghost use Rattle.json_containers.specs.Entry.{Vacant, entry_key, entry_lends};

    /// Returns the key of the entry.
    pub fn key(&self) -> &str
        ensures { result.now ≡ entry_key (Vacant self.now) }
    {
        self.key.as_str()
    }

    /// Appends a member with the key of the entry and this value. Returns the value, to be changed,
    /// for as long as the object is borrowed.
    pub fn insert(self, val: Value) -> &'a mut Value
        ensures* writes_back { sem 𝓛 (entry_lends (Vacant self.entry) result) }
        ensures value { result.now ≡ val }
    {
        let VacantEntry { object, key } = self;
        let pairs = object.owned_mut();
        let at = pairs.len();
        add_member(pairs, Pair::new(key, val));
        pairs[at].value_mut()
    }
}

impl<'a> Entry<'a> {
    ghost use Rattle.std.specs.Prelude.{ℕ, List, None, unwrap_or};
    ghost use Rattle.std.specs.Borrow.{Bor, MutBor};
    ghost use Rattle.std.specs.Fn.{FnOnceReturnsAt};
    ghost use Rattle.std.specs.Map.Calls.{ModifiesValue};
    ghost use Rattle.std.specs.Option.{UnwrapsOrElse};
    ghost use Rattle.json_value.specs.declared.value.Value.{Value};
    ghost use Rattle.json_value.specs.declared.value.Value.{Null as NullValue};
    ghost use Rattle.json_containers.specs.Entry.{entry_ref, entry_key, entry_value, entry_with};
    ghost use Rattle.json_containers.specs.Entry.{entry_lends};

    /// Returns the value of the entry, to be changed, for as long as the object is borrowed. If the
    /// key is missing, first appends a member with the value `default`.
    pub fn or_insert(self, default: Value) -> &'a mut Value
        ensures* writes_back { sem 𝓛 (entry_lends self.entry result) }
        ensures value { result.now ≡ unwrap_or (entry_value self.entry) default }
    {
        match self {
            Entry::Occupied(entry) => {
                drop(default);
                entry.into_mut()
            }
            Entry::Vacant(entry) => entry.insert(default),
        }
    }

    /// Returns the key of the entry.
    pub fn key(&self) -> &str
        ensures { result.now ≡ entry_key self.now }
    {
        match self {
            Entry::Occupied(entry) => entry.key(),
            Entry::Vacant(entry) => entry.key(),
        }
    }

    /// Returns the value of the entry, to be changed, for as long as the object is borrowed. If the
    /// key is missing, first appends a member with the value that `default` returns; it is called
    /// only then.
    pub fn or_insert_with<F: FnOnce() -> Value>(self, default: F) -> &'a mut Value
        requires { entry_value self ≡ None → F.pre default }
        ensures* writes_back { sem 𝓛 (entry_lends self.entry result) }
        ensures value { UnwrapsOrElse (entry_value self.entry) (F.post default) result.now }
    {
        match self {
            Entry::Occupied(present) => present.into_mut(),
            Entry::Vacant(missing) => missing.insert(default()),
        }
    }

    /// Returns the value of the entry, to be changed, for as long as the object is borrowed. If the
    /// key is missing, first appends a member with the value that `default` returns for the key; it
    /// is called only then.
    pub fn or_insert_with_key<F: FnOnce(&str) -> Value>(self, default: F) -> &'a mut Value
        requires { entry_value self ≡ None
            → (p : Bor (List ℕ)) → p.now ≡ entry_key self → F.pre default p }
        ensures* writes_back { sem 𝓛 (entry_lends self.entry result) }
        ensures value { UnwrapsOrElse (entry_value self.entry)
            (FnOnceReturnsAt F.FnOnce default (entry_key self.entry)) result.now }
    {
        match self {
            Entry::Occupied(entry) => entry.into_mut(),
            Entry::Vacant(entry) => {
                let value = default(entry.key());
                entry.insert(value)
            }
        }
    }

    /// Calls `f` with the value of the entry if the key is there, and returns the entry.
    pub fn and_modify<F: FnOnce(&mut Value)>(self, f: F) -> Entry<'a>
        requires { (p : MutBor Value) → entry_value self ≡ Some p.now → F.pre f p }
        ensures same_object { (entry_ref result).ghost_name ≡ (entry_ref self.entry).ghost_name }
        ensures same_key { entry_key result ≡ entry_key self.entry }
        ensures same_writes { (w : Value) → entry_with result w ≡ entry_with self.entry w }
        ensures update { ModifiesValue F.FnOnce f (entry_value self.entry) (entry_value result) }
    {
        match self {
            Entry::Occupied(mut entry) => {
                f(entry.get_mut());
                Entry::Occupied(entry)
            }
            Entry::Vacant(entry) => Entry::Vacant(entry),
        }
    }

    /// Returns the value of the entry, to be changed, for as long as the object is borrowed. If the
    /// key is missing, first appends a member with the value null.
    pub fn or_default(self) -> &'a mut Value
        ensures* writes_back { sem 𝓛 (entry_lends self.entry result) }
        ensures value { result.now ≡ unwrap_or (entry_value self.entry) NullValue }
    {
        match self {
            Entry::Occupied(entry) => entry.into_mut(),
            Entry::Vacant(entry) => entry.insert(Value::Null),
        }
    }
}
