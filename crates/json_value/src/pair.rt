// A member of an object, and lists of members.
ghost use Rattle.std.specs.Prelude.{◌≡◌, map, OnOk, OnErr, IfSome, IfNone, IsTrue, IsFalse, true, false, IfOk};
ghost use Rattle.std.specs.Borrow.{Lends, sem};
ghost use Rattle.json_value.specs.Denotes.{tree_of, text_bytes, pair_of};
ghost use Rattle.json_value.specs.Rows.{pair_row, value_row, keyed_so};
ghost use Rattle.json_value.specs.Written.{with_value, value_in};
ghost use Rattle.json_grammar.specs.Tree.{list_pairs};
ghost use Rattle.json_model.specs.Edit.{inserted, without_key, has_key};
ghost use Rattle.json_value.specs.FirstMember.{IsFirstOf};
ghost use Rattle.json_value.specs.Places.{value_origin};
ghost use Rattle.json_value.specs.Touched.{Inserts, unkeyed, UpsertedAt};
ghost use Rattle.json_value.specs.Merged.{with_member};
ghost use Rattle.json_value.specs.Lending.{with_null_member};
ghost use Rattle.json_io.specs.Errors.{OnlyNoMemory};

use crate::text::Text;
use crate::value::Value;
use json_io::Result;
use std::alloc::Global;

/// A key and the item that it names, as in a member of an object (RFC 8259, section 4). In a
/// [`Pair`] the item is a value.
///
/// ```
/// use json_value::{Keyed, Text, Value};
/// let mut member = Keyed::new(Text::from_static("born"), Value::new_u64(1815));
/// assert_eq!(rt; member.key(), "born");
/// assert!(rt; member.value().eq_u64(1815));
/// *member.value_mut() = Value::new_null();
/// assert!(rt; *member.value() == Value::new_null());
/// ```
#[derive(Drop)]
pub struct Keyed<T> {
    pub(crate) key: Text,
    pub(crate) value: T,
}

/// A member of an object: a key, which is its name, and a value.
///
/// ```
/// use json_value::{Pair, Text, Value};
/// let mut pairs = Vec::new(alloc);
/// pairs.push(Pair::new(Text::from_static("a"), Value::new_u64(1)))?;
/// pairs.push(Pair::new(Text::from_static("a"), Value::new_u64(2)))?;
/// let object = Value::from_pairs(alloc, pairs)?;
/// assert_eq!(rt; object.to_string(alloc)?.as_str(), "{\"a\":2}");
/// ```
pub type Pair = Keyed<Value>;

impl Keyed<Value> {
    /// Creates a member with the name `key` and the value `value`. Takes no memory.
    pub fn new(key: Text, value: Value) -> Pair
        ensures pair { pair_of result ≡ (text_bytes key, tree_of value) }
        ensures member { result ≡ keyed_so key value }
    {
        Keyed { key, value }
    }

    /// Returns the characters of the key, unescaped.
    pub fn key(&self) -> &str
        ensures { result.now ≡ (pair_of self.now).0 }
    {
        self.key.as_str()
    }

    /// Returns the value of the member.
    pub fn value(&self) -> &Value
        ensures tree { tree_of result.now ≡ (pair_of self.now).1 }
        ensures value { result.now ≡ value_in self.now }
    {
        &self.value
    }

    /// Returns a mutable reference to the value of the member; what is written through it becomes
    /// that value.
    pub fn value_mut(&mut self) -> &mut Value
        ensures* writes_back { sem 𝓛 (Lends pair_row value_row self.entry result
            (with_value self.old)) }
        ensures value { result.now ≡ value_in self.old }
    {
        &mut self.value
    }
}

/// Returns the index of the first member in `pairs` named `key`, or `None` if there is none. Names
/// may repeat (RFC 8259, section 4). Takes no memory.
///
/// ```
/// use json_value::{Pair, Text, Value, find_key};
/// let members = [
///     Pair::new(Text::from_static("a"), Value::new_null()),
///     Pair::new(Text::from_static("b"), Value::new_null()),
///     Pair::new(Text::from_static("b"), Value::new_null()),
/// ];
/// assert_eq!(rt; find_key(&members, "b"), Some(1));
/// assert_eq!(rt; find_key(&members, "c"), None);
/// ```
pub fn find_key(pairs: &[Pair], key: &str) -> Option<usize>
    ensures first { IfSome result (λ i. IsFirstOf key.now (map pair_of pairs.now) i) }
    ensures none { IfNone result (has_key key.now (list_pairs (map pair_of pairs.now)) ≡ false) }
{
    for (i, pair) in pairs.iter().enumerate() {
        if pair.key() == key {
            return Some(i);
        }
    }
    None
}

// Puts the value at the first member of the key, or appends such a member.
pub(crate) fn insert_pair(
    pairs: &mut Vec<Pair>,
    alloc: Global,
    key: &Text,
    value: Value,
) -> Result<()>
    ensures ok { OnOk result (inserted (text_bytes key.now) (tree_of value)
        (list_pairs (map pair_of pairs.old.items)) ≡ list_pairs (map pair_of pairs.new.items)) }
    ensures kept { OnErr result (pairs.new.items ≡ pairs.old.items) }
    ensures only { OnlyNoMemory result }
    ensures children { OnOk result (Inserts key.now (value_origin value)
        pairs.old.items pairs.new.items) }
{
    match find_key(pairs.as_slice(), key.as_str()) {
        Some(i) => {
            pairs[i].value = value;
            Ok(())
        }
        None => {
            let key = key.clone(alloc)?;
            pairs.push(Keyed { key, value })?;
            Ok(())
        }
    }
}

// Sets the value of the first member with the key of `pair`, or appends `pair`.
pub(crate) fn put_pair(members: &mut Vec<Pair>, pair: Pair) -> Result<()>
    ensures ok { OnOk result (inserted (pair_of pair).0 (pair_of pair).1
        (list_pairs (map pair_of members.old.items)) ≡ list_pairs (map pair_of members.new.items)) }
    ensures members { OnOk result (members.new.items ≡ with_member pair members.old.items) }
    ensures only { OnlyNoMemory result }
{
    match find_key(members.as_slice(), pair.key()) {
        Some(i) => {
            members[i].value = pair.value;
            Ok(())
        }
        None => {
            members.push(pair)?;
            Ok(())
        }
    }
}

// Appends a member of the key with null where none has it. The number of the first one of the key.
pub(crate) fn find_or_insert(pairs: &mut Vec<Pair>, alloc: Global, key: &str) -> Result<usize>
    ensures first { IfOk result (λ i. IsFirstOf key.now (map pair_of pairs.new.items) i) }
    ensures pairs { IfOk result (λ i. list_pairs (map pair_of pairs.new.items)
        ≡ with_null_member key.now (list_pairs (map pair_of pairs.old.items))) }
    ensures seated { IfOk result (λ i. UpsertedAt key.now i pairs.old.items pairs.new.items) }
    ensures kept { OnErr result (pairs.new.items ≡ pairs.old.items) }
    ensures absent { OnErr result (has_key key.now
        (list_pairs (map pair_of pairs.old.items)) ≡ false) }
    ensures only { OnlyNoMemory result }
{
    match find_key(pairs.as_slice(), key) {
        Some(i) => Ok(i),
        None => {
            let i = pairs.len();
            let key = Text::copy(alloc, key)?;
            pairs.push(Keyed {
                key,
                value: Value::Null,
            })?;
            Ok(i)
        }
    }
}

// Removes all members named `key`. Returns whether there was one.
pub(crate) fn remove_pairs(pairs: &mut Vec<Pair>, key: &str) -> bool
    ensures removed { IsTrue result
        → (has_key key.now (list_pairs (map pair_of pairs.old.items)) ≡ true)
        × (without_key key.now (list_pairs (map pair_of pairs.old.items))
        ≡ list_pairs (map pair_of pairs.new.items)) }
    ensures kept { IsFalse result
        → (has_key key.now (list_pairs (map pair_of pairs.old.items)) ≡ false)
        × (pairs.new.items ≡ pairs.old.items) }
    ensures children { IsTrue result → pairs.new.items ≡ unkeyed key.now pairs.old.items }
{
    match find_key(pairs.as_slice(), key) {
        Some(_) => {
            pairs.retain(|pair| pair.key() != key);
            true
        }
        None => false,
    }
}
