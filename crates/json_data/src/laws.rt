// Laws over the definitions: what data say of trees, paths, edits and floats.
ghost use Rattle.std.specs.Prelude.{IfOk, IfSome};
ghost use Rattle.std.specs.Float.{binary32, binary64};
ghost use Rattle.json_io.specs.Errors.{OnlyNoMemory};
ghost use Rattle.json_number.specs.Literals.{raw_literal};
ghost use Rattle.json_data.specs.Floats.{SameFloat, ReadsNearestFloat, ReadsIntegerAsDouble, IsReadAs};
ghost use Rattle.json_data.specs.Laws.{SameDatum, SamePath, SameEdit};

use json_io::Result;
use json_number::RawNumber;
pub use json_tokens::laws::{
    one_text_row, one_value_row, text_row_begins, text_row_exists, value_row_begins,
};
use std::alloc::Global;

/// Shows that trees which mean the same datum are the same tree.
pub fn same_tree_of_datum()
    ensures { SameDatum }
{}

/// Shows that paths which mean the same datum are the same path.
pub fn same_path()
    ensures { SamePath }
{}

/// Shows that edits which mean the same datum are the same edit.
pub fn same_edit()
    ensures { SameEdit }
{}

/// Shows that floats which mean the same datum are the same float.
pub fn same_float()
    ensures { SameFloat }
{}

/// Shows that a number is read as the float nearest to it if that is finite, and is refused as out
/// of range otherwise.
pub fn reads_nearest_float()
    ensures { ReadsNearestFloat }
{}

/// Shows that an integer in `i64` or `u64` is read as the double nearest to it.
pub fn reads_integer_as_double()
    ensures { ReadsIntegerAsDouble }
{}

/// Returns the number of `x` if `x` is finite. Its contract shows that reading the number returns
/// `x` again, also for -0. Fails with `NoMemory` if memory runs out.
pub fn double_is_read_again(alloc: Global, x: f64) -> Result<Option<RawNumber>>
    ensures read { IfOk result (λ o. IfSome o (λ r. IsReadAs binary64 (raw_literal r) x)) }
    ensures err { OnlyNoMemory result }
{
    RawNumber::from_f64(alloc, x)
}

/// Returns the number of `x` if `x` is finite. Its contract shows that reading the number returns
/// `x` again, also for -0. Fails with `NoMemory` if memory runs out.
pub fn single_is_read_again(alloc: Global, x: f32) -> Result<Option<RawNumber>>
    ensures read { IfOk result (λ o. IfSome o (λ r. IsReadAs binary32 (raw_literal r) x)) }
    ensures err { OnlyNoMemory result }
{
    RawNumber::from_f32(alloc, x)
}
