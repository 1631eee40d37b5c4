//! Callers that write into what is lent to them, to copy from. What they promise is proved from the
//! clauses of `json_value` alone: by itself, or by one line (`proofs/callers/replace`).
ghost use Rattle.std.specs.Prelude.{◌≡◌, slice_set, map, IfOk, OnOk, OnErr, Some};
ghost use Rattle.json_grammar.specs.Tree.{boolean};
ghost use Rattle.json_model.specs.Edit.{set_at, edited_once};
ghost use Rattle.json_value.specs.Denotes.{tree_of, list_in, KeepsTreeOnErr};
ghost use Rattle.json_value.specs.Edits.{steps_of, Makes};
ghost use Rattle.json_value.specs.Steps.{tree_at};

use json_text::Result;
use json_value::{Array, Places, PointerNode, Value, put};
use std::alloc::Global;
use std::mem;

/// Puts a value in the place of the first element, if there is one. Fails with `NoMemory` if memory
/// runs out.
///
/// ```
/// use json_containers::ArrayCalls;
/// use test_fixtures::callers::put_first;
/// use json_value::{Array, Value};
/// let mut array = Array::new();
/// put_first(&mut array, alloc, Value::new_bool(true))?;
/// assert_eq!(rt; array.len(), 0);
/// ```
pub fn put_first(array: &mut Array, alloc: Global, new: Value) -> Result<()>
    ensures { OnOk result (list_in array.new ≡ slice_set (list_in array.old) 0 (tree_of new)) }
{
    if let Some(first) = array.list_mut(alloc)?.first_mut() {
        *first = new;
    }
    Ok(())
}

/// Puts a value at the place to which the steps lead, and answers the one that was there. Fails as
/// `Places::place_mut` does.
pub fn replace<V: Places>(
    target: &mut V,
    alloc: Global,
    path: &[PointerNode],
    new: Value,
) -> Result<Value>
    ensures was { IfOk result (λ old.
        tree_at (steps_of path.now) (tree_of (V.held target.old)) ≡ Some (tree_of old)) }
    ensures put { OnOk result (Makes (edited_once (set_at (steps_of path.now) (tree_of new))
        (tree_of (V.held target.old))) (V.held target.new)) }
    ensures kept { KeepsTreeOnErr (V.held target.old) (V.held target.new) result }
{
    let place = target.place_mut(alloc, path)?;
    Ok(mem::replace(place, new))
}

/// Sets a flag at the place to which the steps lead. Fails as `put` does.
pub fn set_flag(value: &mut Value, alloc: Global, path: &[PointerNode], flag: bool) -> Result<()>
    ensures set { OnOk result (Makes (edited_once (set_at (steps_of path.now)
        (boolean flag)) (tree_of value.old)) value.new) }
    ensures kept { OnErr result (tree_of value.new ≡ tree_of value.old) }
{
    put(value, alloc, path, Value::new_bool(flag))
}
