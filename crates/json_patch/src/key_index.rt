// Where the search for a key among the members of an object may begin.
ghost use Rattle.std.specs.Prelude.{◌≡◌, ℕ, ◌+◌, ◌≤◌, List, length, map, false, IfSome, IfNone, slice_index};
ghost use Rattle.json_grammar.specs.Tree.{list_pairs};
ghost use Rattle.json_model.specs.Edit.{has_key};
ghost use Rattle.json_patch.specs.KeyIndex.{key_hash, first_slot, second_slot, StartsAtMost, AreStarts, HasStarts};
ghost use Rattle.json_value.specs.Denotes.{pair_of};
ghost use Rattle.json_value.specs.FirstMember.{IsFirstOf};
ghost use Rattle.json_value.specs.declared.pair.Keyed.{Keyed};
ghost use Rattle.json_value.specs.declared.value.Value.{Value as MemberValue};

use json_value::{Pair, find_key};
use std::alloc::Global;
use std::hash::{FoldHasher, Hasher};

// The fewest searches, and members, for which an index pays.
const MIN_SEARCHES: usize = 16;

const MIN_MEMBERS: usize = 256;

// How many slots there are for each member.
const SLOTS_PER_MEMBER: usize = 8;

// Returns a hash of the key. Whoever picks the keys can make hashes collide, and then searches are
// as long as without an index.
#[tactic(auto, unfolding(crate::specs::KeyIndex::key_hash))]
fn hash_key(key: &str) -> u64
    ensures { result ≡ key_hash key.now }
{
    let mut hasher = FoldHasher::default();
    hasher.write(key.as_bytes());
    hasher.finish()
}

// Lower bounds on the positions of the members of each key. A key has two slots; what they hold,
// less the number of members that were removed, is at most the position of each member of the key.
// Without slots every bound is 0.
#[derive(Drop)]
pub(crate) struct KeyIndex {
    starts: Vec<u32>,
    removed: usize,
}

impl KeyIndex {
    // Returns an index without slots.
    #[tactic(auto, using(crate::proofs::KeyStarts::no_starts))]
    fn empty(alloc: Global) -> KeyIndex
        ensures starts { (pairs : List (Keyed MemberValue)) → HasStarts result pairs }
        ensures removed { result.removed ≡ 0 }
    {
        KeyIndex {
            starts: Vec::new(alloc),
            removed: 0,
        }
    }

    // Returns an index for `members` members, none of which is added yet. It has no slots if memory
    // runs out.
    fn with_slots_for(alloc: Global, members: usize) -> KeyIndex
        ensures { result.removed ≡ 0 }
    {
        let slots = members.saturating_mul(SLOTS_PER_MEMBER);
        match slots.checked_next_power_of_two() {
            Some(slots) => match vec![in alloc; u32::MAX; slots] {
                Ok(starts) => KeyIndex { starts, removed: 0 },
                Err(_) => KeyIndex::empty(alloc),
            },
            None => KeyIndex::empty(alloc),
        }
    }

    // Returns an index of the members, in which `searches` keys are to be searched.
    pub(crate) fn new(alloc: Global, pairs: &[Pair], searches: usize) -> KeyIndex
        ensures { HasStarts result pairs.now }
    {
        let members = pairs.len().saturating_add(searches);
        if searches < MIN_SEARCHES || members < MIN_MEMBERS {
            return KeyIndex::empty(alloc);
        }
        let mut index = KeyIndex::with_slots_for(alloc, members);
        'members: for i in 0..pairs.len() {
            index.add(pairs[i].key(), i);
        }
        index
    }

    // Returns the two slots of the key.
    fn slots(&self, key: &str) -> (usize, usize)
        ensures first { result.0 ≡ first_slot key.now (length self.now.starts.items) }
        ensures second { result.1 ≡ second_slot key.now (length self.now.starts.items) }
    {
        let hash = hash_key(key);
        let mask = self.starts.len().saturating_sub(1);
        (hash as usize & mask, (hash >> 32) as usize & mask)
    }

    fn start_in(&self, slot: usize) -> usize
        ensures { result ≡ slice_index self.now.starts.items slot }
    {
        if slot < self.starts.len() {
            self.starts[slot] as usize
        } else {
            0
        }
    }

    fn lower(&mut self, slot: usize, start: u32)
        ensures len { length self.new.starts.items ≡ length self.old.starts.items }
        ensures lower { (i : ℕ) → slice_index self.new.starts.items i
            ≤ slice_index self.old.starts.items i }
        ensures start { slice_index self.new.starts.items slot ≤ start }
        ensures removed { self.new.removed ≡ self.old.removed }
    {
        if slot < self.starts.len() && start < self.starts[slot] {
            self.starts[slot] = start;
        }
    }

    // Adds a member of the key at the position, which is greater than all others.
    pub(crate) fn add(&mut self, key: &str, position: usize)
        ensures others { (k : List ℕ) (n : ℕ) → StartsAtMost self.old.starts.items k n
            → StartsAtMost self.new.starts.items k n }
        ensures added { StartsAtMost self.new.starts.items key.now (position + self.old.removed) }
        ensures removed { self.new.removed ≡ self.old.removed }
    {
        let start = position.saturating_add(self.removed).min(u32::MAX as usize) as u32;
        let (first, second) = self.slots(key);
        self.lower(first, start);
        self.lower(second, start);
    }

    // Notes the number of members that were removed.
    #[tactic(auto, using(crate::proofs::KeyStarts::no_starts))]
    pub(crate) fn subtract(&mut self, count: usize)
        ensures { (pairs : List (Keyed MemberValue))
            → AreStarts self.old.starts.items (self.old.removed + count) pairs
            → HasStarts self.new pairs }
    {
        match self.removed.checked_add(count) {
            Some(removed) => self.removed = removed,
            None => self.starts.clear(),
        }
    }

    // Returns a position of at most the length before which no member has the key.
    fn start_of(&self, key: &str, len: usize) -> usize
        ensures within { result ≤ len }
        ensures start { (i : ℕ) → StartsAtMost self.now.starts.items key.now
            (i + self.now.removed) → result ≤ i }
    {
        let (first, second) = self.slots(key);
        let start = self.start_in(first).max(self.start_in(second));
        start.saturating_sub(self.removed).min(len)
    }

    // Returns the index of the first member of the key.
    pub(crate) fn find_key(&self, pairs: &[Pair], key: &str) -> Option<usize>
        requires { HasStarts self.now pairs.now }
        ensures first { IfSome result (λ i. IsFirstOf key.now (map pair_of pairs.now) i) }
        ensures none { IfNone result (has_key key.now
            (list_pairs (map pair_of pairs.now)) ≡ false) }
    {
        let start = self.start_of(key, pairs.len());
        match find_key(&pairs[start..], key) {
            Some(i) => Some(start + i),
            None => None,
        }
    }
}
