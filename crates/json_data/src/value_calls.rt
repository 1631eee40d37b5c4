// Values read from a value.
ghost use Rattle.std.specs.Prelude.{◌≡◌, IfOk, IfErr};
ghost use Rattle.json_value.specs.Denotes.{tree_of};
ghost use Rattle.json_value.specs.ViewTargets.{whole_value};
ghost use Rattle.json_data.specs.Reading.{gives};
ghost use Rattle.json_data.specs.ValueCalls.{TreeReadingFails};
ghost use Rattle.json_tokens.specs.Values.{IsMadeOf};

use crate::deserialize::{Deserialize, DeserializeFrom};
use json_io::Result;
use json_tokens::ValueTokens;
use json_value::Value;
use std::alloc::Global;

/// Reads a value of type `T` from a `Value`, from which it may borrow. Fails if the `Value` is no
/// `T`: with `TypeUnmatched`, `NumberOutOfRange` or `ExpectedNumericKey`, without a place. Fails
/// with `NoMemory` if memory runs out.
pub fn from_value<'a, T: Deserialize<'a>>(alloc: Global, value: &'a Value) -> Result<T>
    ensures ok { IfOk result (λ v. T.from_tree (tree_of value.now) ≡ gives (T.datum v)) }
    ensures place { IfOk result (T.placed (IsMadeOf (whole_value value.now))) }
    ensures err { IfErr result (λ e.
        TreeReadingFails T.from_tree (tree_of value.now) e.code e.place) }
{
    let mut tokens = ValueTokens::new(alloc, value.view());
    T::deserialize(alloc, &mut tokens)
}
