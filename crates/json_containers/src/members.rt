// Lists of members: copies, members put in turn, and those that a closure keeps.
ghost use Rattle.std.specs.Prelude.{◌≡◌, ◌+◌, ◌<◌, ◌≤◌, map};
ghost use Rattle.std.specs.Prelude.{IfOk, Some};
ghost use Rattle.std.specs.Vec.{vec_len, vec_capacity};
ghost use Rattle.json_grammar.specs.Tree.{list_pairs};
ghost use Rattle.json_model.specs.Edit.{inserted};
ghost use Rattle.json_model.specs.Merged.{inserted_all};
ghost use Rattle.json_io.specs.Errors.{OnlyNoMemory};
ghost use Rattle.json_value.specs.Denotes.{pair_of};
ghost use Rattle.json_value.specs.Merged.{with_member, with_members};
ghost use Rattle.json_value.specs.declared.value.Value.{Value};
ghost use Rattle.json_containers.specs.Members.{CalledAtMember, RetainsTo};
ghost use Rattle.json_containers.specs.Put.{copied_member, stood_member};

use crate::entry::add_member;
use json_io::Result;
use json_value::{Pair, Text, Value, find_key};
use std::alloc::Global;

// Copies of these.
pub(crate) fn copy_pair_slice(alloc: Global, pairs: &[Pair]) -> Result<Vec<Pair>>
    ensures pairs { IfOk result (λ v. map pair_of v.items ≡ map pair_of pairs.now) }
    ensures copies { IfOk result (λ v. map stood_member v.items ≡ map copied_member pairs.now) }
    ensures only { OnlyNoMemory result }
{
    let mut copies = Vec::with_capacity(alloc, pairs.len())?;
    for pair in pairs {
        let key = Text::copy(alloc, pair.key())?;
        let value = pair.value().clone(alloc)?;
        copies.push(Pair::new(key, value))?;
    }
    Ok(copies)
}

// Puts the member's value at the first member of its key, or the member after the others, for
// which there is room.
pub(crate) fn put_member(pairs: &mut Vec<Pair>, mut pair: Pair)
    requires { vec_len pairs.old < vec_capacity pairs.old }
    ensures pairs { list_pairs (map pair_of pairs.new.items)
        ≡ inserted (pair_of pair).0 (pair_of pair).1 (list_pairs (map pair_of pairs.old.items)) }
    ensures members { pairs.new.items ≡ with_member pair pairs.old.items }
    ensures len { vec_len pairs.new ≤ vec_len pairs.old + 1 }
    ensures capacity { vec_capacity pairs.new ≡ vec_capacity pairs.old }
{
    match find_key(pairs.as_slice(), pair.key()) {
        Some(at) => *pairs[at].value_mut() = pair.value_mut().take(),
        None => add_member(pairs, pair),
    }
}

// Puts these in turn, for which there is room.
pub(crate) fn put_pairs(pairs: &mut Vec<Pair>, more: Vec<Pair>)
    requires { vec_len pairs.old + vec_len more ≤ vec_capacity pairs.old }
    ensures pairs { list_pairs (map pair_of pairs.new.items)
        ≡ inserted_all (map pair_of more.items) (list_pairs (map pair_of pairs.old.items)) }
    ensures members { pairs.new.items ≡ with_members more.items pairs.old.items }
{
    for pair in more {
        put_member(pairs, pair);
    }
}

// Calls `f` with the key and the value of the member, and returns what it returns.
fn keeps_member<F: FnMut(&str, &mut Value) -> bool>(f: &mut F, pair: &mut Pair) -> bool
    requires { F.IsAlwaysCallable f.old }
    ensures called { CalledAtMember F.FnMut f.old pair.old result f.new pair.new }
    ensures callable { F.IsAlwaysCallable f.new }
{
    let mut value = pair.value_mut().take();
    let keeps = f(pair.key(), &mut value);
    *pair.value_mut() = value;
    keeps
}

// Keeps the members for which `f` is true, in order, with what it writes. It is called once for
// each, and no more.
pub(crate) fn keep_members<F: FnMut(&str, &mut Value) -> bool>(pairs: &mut Vec<Pair>, f: &mut F)
    requires { F.IsAlwaysCallable f.old }
    ensures { RetainsTo (CalledAtMember F.FnMut) f.old pairs.old.items pairs.new.items f.new }
{
    let len = pairs.len();
    let mut kept = 0;
    let mut at = 0;
    while at < len {
        if keeps_member(f, &mut pairs[at]) {
            pairs.swap(kept, at);
            kept += 1;
        }
        at += 1;
    }
    pairs.truncate(kept);
}
