// The elements of an array, lent all at once.
ghost use Rattle.std.specs.Prelude.{◌≡◌};
ghost use Rattle.std.specs.Borrow.{Lends, LendsSoOk, sem};
ghost use Rattle.std.specs.Vec.{with_items};
ghost use Rattle.json_value.specs.Rows.{array_row, value_row, vec_row, owned};
ghost use Rattle.json_containers.specs.IntoIter.{slice_row};
ghost use Rattle.json_containers.specs.Slices.{LendsElements};

use json_io::Result;
use json_value::{Array, Value};
use std::alloc::Global;

// Returns the list of the elements, to be changed. Copies one level of a place of a document first.
pub(crate) fn elements_of(array: &mut Array, alloc: Global) -> Result<&mut Vec<Value>>
    ensures* writes_back { sem 𝓛 (LendsSoOk array_row (vec_row value_row) array.entry result
        (λ n w. n ≡ owned w) (λ n. n ≡ array.old)) }
    ensures lends { LendsElements array.old result }
{
    let list = array.list_mut(alloc)?;
    Ok(list)
}

// Returns all elements of the list, to be changed.
pub(crate) fn slice_of(list: &mut Vec<Value>) -> &mut [Value]
    ensures* writes_back { sem 𝓛 (Lends (vec_row value_row) slice_row list.entry result
        (with_items list.old)) }
    ensures items { result.now ≡ list.old.items }
{
    list.as_mut_slice()
}
