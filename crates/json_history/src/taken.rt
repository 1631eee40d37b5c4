// Members that an edit removed from an object.
ghost use Rattle.std.specs.Prelude.{◌≡◌, ◌<◌, length, Some, slice_get, IfOk, map};
ghost use Rattle.json_value.specs.Denotes.{pair_of};
ghost use Rattle.json_history.specs.ChangeTrees.{removed_members, removed_member};
ghost use Rattle.json_history.specs.Restores.{member_origin, origins_of};
ghost use Rattle.json_io.specs.Errors.{OnlyNoMemory};

use json_io::Result;
use json_value::{Pair, Text};
use std::alloc::Global;

/// The members that an edit removed from an object, in their order. Each has the index that it had
/// in the object, counted from 0.
///
/// ```
/// use json_data::from_str;
/// use json_history::{Change, History};
/// use json_value::{Edit, Value};
/// let value = from_str::<Value>(alloc, "{\"a\":1,\"b\":2,\"a\":3}")?;
/// let mut history = History::new(alloc, value);
/// history.apply(alloc, from_str::<Edit>(alloc, "[\"remove\",[],\"a\"]")?)?;
/// if let [Change::PutPairs { pairs, .. }] = history.changes() {
///     assert_eq!(rt; pairs.len(), 2);
///     assert!(rt; matches!(pairs.at(1), (2, pair) if pair.key() == "a"));
/// }
/// ```
#[derive(Drop)]
pub struct Taken {
    pub(crate) list: Vec<(usize, Pair)>,
}

impl Taken {
    /// Returns the number of removed members.
    pub fn len(&self) -> usize
        ensures { result ≡ length (removed_members self.now) }
    {
        self.list.len()
    }

    /// Returns the index that the removed member number `i` had in the object, and the member
    /// itself. Removed members are numbered from 0; `i` must be less than [`Taken::len`].
    pub fn at(&self, i: usize) -> (usize, &Pair)
        requires { i < length (removed_members self.now) }
        ensures { slice_get (removed_members self.now) i
            ≡ Some (result.0, (pair_of result.1.now).0, (pair_of result.1.now).1) }
    {
        let (index, pair) = &self.list[i];
        (*index, pair)
    }
}

// A copy of a member with its index.
fn copy_member(alloc: Global, member: &(usize, Pair)) -> Result<(usize, Pair)>
    ensures member { IfOk result (λ e. removed_member e ≡ removed_member member.now) }
    ensures origin { IfOk result (λ e. member_origin e ≡ member_origin member.now) }
    ensures only { OnlyNoMemory result }
{
    let (index, pair) = member;
    let key = Text::copy(alloc, pair.key())?;
    let value = pair.value().clone(alloc)?;
    Ok((*index, Pair::new(key, value)))
}

// Copies of the members with their indexes.
pub(crate) fn copy_removed_members(alloc: Global, taken: &Taken) -> Result<Vec<(usize, Pair)>>
    ensures members { IfOk result (λ v. map removed_member v.items ≡ removed_members taken.now) }
    ensures origins { IfOk result (λ v. map member_origin v.items ≡ origins_of taken.now) }
    ensures only { OnlyNoMemory result }
{
    let mut copies = Vec::with_capacity(alloc, taken.list.len())?;
    for member in &taken.list {
        copies.push(copy_member(alloc, member)?)?;
    }
    Ok(copies)
}
