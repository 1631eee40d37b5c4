// The members of an owned object in the order of their keys, by their numbers, from 0 on.
ghost use Rattle.std.specs.Prelude.{◌≡◌, IfOk, IsTrue, length, map};
ghost use Rattle.json_grammar.specs.Tree.{list_pairs};
ghost use Rattle.json_model.specs.Sort.{NeverFall};
ghost use Rattle.json_value.specs.Denotes.{pair_of};
ghost use Rattle.json_doc_print.specs.KeyOrder.{AreEntries, IsKeyOrder, numbers_in};
ghost use Rattle.json_value.specs.OwnedKeys.{numbers_from, owned_key};
ghost use Rattle.json_io.specs.Errors.{OnlyNoMemory};

use crate::pair::Pair;
use json_doc_print::internal::{IndexedMember, MemberKeys, entry_of, is_less, sort_by_key};
use json_io::Result;
use std::alloc::Global;

// The keys of the members of an owned object, which are numbered from 0 on.
#[derive(Clone, Copy)]
struct OwnedKeys<'a> {
    pairs: &'a Vec<Pair>,
}

impl MemberKeys for OwnedKeys<'_> {
    ghost key_of = { λ k. owned_key k.pairs.now.items };

    #[inline]
    fn key(&self, number: usize) -> &str {
        if number >= self.pairs.len() {
            return "";
        }
        self.pairs[number].key.as_str()
    }
}

// Whether no key is smaller than the key before it.
pub(crate) fn owned_never_fall(pairs: &Vec<Pair>) -> bool
    ensures { IsTrue result → NeverFall (list_pairs (map pair_of pairs.now.items)) }
{
    let mut last: &[u8] = &[];
    for pair in pairs {
        let key = pair.key.as_str().as_bytes();
        if is_less(key, last) {
            return false;
        }
        last = key;
    }
    true
}

fn entries_of_pairs(alloc: Global, pairs: &Vec<Pair>) -> Result<Vec<IndexedMember>>
    ensures numbers { IfOk result (λ v. numbers_in v.items
        ≡ numbers_from 0 (length pairs.now.items)) }
    ensures entries { IfOk result (λ v. AreEntries (owned_key pairs.now.items) v.items) }
    ensures only { OnlyNoMemory result }
{
    let count = pairs.len();
    let mut entries = Vec::with_capacity(alloc, count)?;
    for number in 0..count {
        entries.push(entry_of(&OwnedKeys { pairs }, number))?;
    }
    Ok(entries)
}

// The entries of the members in the order of their keys.
pub(crate) fn owned_in_order(alloc: Global, pairs: &Vec<Pair>) -> Result<Vec<IndexedMember>>
    ensures order { IfOk result (λ order. IsKeyOrder (owned_key pairs.now.items)
        (numbers_from 0 (length pairs.now.items)) (numbers_in order.items)) }
    ensures only { OnlyNoMemory result }
{
    let mut entries = entries_of_pairs(alloc, pairs)?;
    sort_by_key(&OwnedKeys { pairs }, &mut entries);
    Ok(entries)
}
