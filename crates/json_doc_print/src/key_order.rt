// The members of an object of a document in the order of their keys, by the places of their values.
ghost use Rattle.std.specs.Prelude.{◌≡◌, ℕ, List, IfOk, IsTrue, map};
ghost use Rattle.std.specs.Cmp.Lexicographic.{slice_cmp};
ghost use Rattle.std.specs.Ordering.{nat_cmp, ordering_then};
ghost use Rattle.json_grammar.specs.Tree.{list_pairs};
ghost use Rattle.json_model.specs.Sort.{bytes_less, NeverFall};
ghost use Rattle.json_doc.specs.Left.{pairs_doc, pairs_left, places_of_pairs};
ghost use Rattle.json_print.specs.Orders.{Rise};
ghost use Rattle.json_doc_print.specs.KeyOrder.{key_and_number, AreEntries, IsEntry, IsKeyOrder, key_before, numbers_in};
ghost use Rattle.json_io.specs.Errors.{OnlyNoMemory};

use json_doc::internal::front_number;
use json_doc::{Doc, DocPairs};
use json_io::Result;
use std::alloc::Global;
use std::cmp::Ordering;

/// A member of an object as an entry of an index that is sorted by keys. It keeps the first eight
/// bytes of the key as a number. Most keys differ in these, and then the keys themselves, which lie
/// far apart in memory, are not compared.
#[derive(Clone, Copy)]
pub struct IndexedMember {
    front: u64,
    /// The number by which [`MemberKeys`] knows the member. In a document it is the position of the
    /// member's value.
    pub number: usize,
}

/// Something that has the keys of an object's members, each of which it knows by a number.
pub trait MemberKeys {
    /// The key of the member with each number.
    ghost key_of: { Self → ℕ → List ℕ };

    /// Returns the unescaped key of the member with this number, or an empty one if there is no
    /// such member.
    fn key(&self, number: usize) -> &str
        ensures { result.now ≡ key_of self.now number };
}

impl MemberKeys for Doc {
    ghost key_of = { key_before };

    #[inline]
    fn key(&self, number: usize) -> &str {
        let at = number.saturating_sub(1);
        if at >= self.cells().len() {
            return "";
        }
        match self.view_at(at as u32).text() {
            Some(key) => key,
            None => "",
        }
    }
}

/// Returns whether `a` precedes `b` in the order of bytes.
pub fn is_less(a: &[u8], b: &[u8]) -> bool
    ensures { result ≡ bytes_less a.now b.now }
{
    a < b
}

/// Returns the index entry of the member with this number, whose key is looked up in `keys`.
pub fn entry_of<K: MemberKeys>(keys: &K, number: usize) -> IndexedMember
    ensures number { result.number ≡ number }
    ensures entry { IsEntry (K.key_of keys.now) result }
{
    let key = keys.key(number);
    IndexedMember {
        front: front_number(key),
        number,
    }
}

// By the bytes of the keys, and then by the numbers.
#[inline]
fn compare_keys<K: MemberKeys>(keys: &K, a: usize, b: usize) -> Ordering
    ensures { result ≡ ordering_then
        (slice_cmp nat_cmp (K.key_of keys.now a) (K.key_of keys.now b)) (nat_cmp a b) }
{
    match keys.key(a).as_bytes().cmp(&keys.key(b).as_bytes()) {
        Ordering::Equal => a.cmp(&b),
        unequal => unequal,
    }
}

// By the first bytes of the keys, and where these are the same by all of them.
#[inline]
fn compare<K: MemberKeys>(keys: &K, a: IndexedMember, b: IndexedMember) -> Ordering
    ensures { result ≡ ordering_then (nat_cmp a.front b.front) (ordering_then
        (slice_cmp nat_cmp (K.key_of keys.now a.number) (K.key_of keys.now b.number))
        (nat_cmp a.number b.number)) }
{
    match a.front.cmp(&b.front) {
        Ordering::Equal => compare_keys(keys, a.number, b.number),
        unequal => unequal,
    }
}

/// Sorts index entries by the keys of their members in the order of bytes, and those of equal keys
/// by their numbers. The entries have to be made by [`entry_of`] with the same `keys`, and their
/// numbers have to rise.
pub fn sort_by_key<K: MemberKeys>(keys: &K, entries: &mut [IndexedMember])
    requires entries { AreEntries (K.key_of keys.now) entries.old }
    requires rise { Rise (map (key_and_number (K.key_of keys.now)) (numbers_in entries.old)) }
    ensures { IsKeyOrder (K.key_of keys.now) (numbers_in entries.old) (numbers_in entries.new) }
{
    entries.sort_unstable_by(|a, b| compare(keys, *a, *b));
}

// Whether no key is smaller than the key before it.
pub(crate) fn packed_never_fall(pairs: DocPairs<'_>) -> bool
    ensures { IsTrue result → NeverFall (list_pairs (pairs_left pairs.entry)) }
{
    let mut last: &[u8] = &[];
    for (key, _) in pairs {
        if is_less(key.as_bytes(), last) {
            return false;
        }
        last = key.as_bytes();
    }
    true
}

fn entries_of_doc(alloc: Global, doc: &Doc, pairs: DocPairs<'_>) -> Result<Vec<IndexedMember>>
    ensures places { IfOk result (λ v. numbers_in v.items ≡ places_of_pairs pairs.entry) }
    ensures entries { IfOk result (λ v. AreEntries (key_before doc.now) v.items) }
    ensures only { OnlyNoMemory result }
{
    let mut entries = Vec::with_capacity(alloc, pairs.len())?;
    for (_, value) in pairs {
        entries.push(entry_of(doc, value.place() as usize))?;
    }
    Ok(entries)
}

// The entries of the values of the pairs, which are of the document, in the order of their keys.
pub(crate) fn packed_in_order(
    alloc: Global,
    doc: &Doc,
    pairs: DocPairs<'_>,
) -> Result<Vec<IndexedMember>>
    requires { pairs_doc pairs ≡ doc.now }
    ensures order { IfOk result (λ order. IsKeyOrder (key_before doc.now)
        (places_of_pairs pairs.entry) (numbers_in order.items)) }
    ensures only { OnlyNoMemory result }
{
    let mut entries = entries_of_doc(alloc, doc, pairs)?;
    sort_by_key(doc, &mut entries);
    Ok(entries)
}
