// Laws of numbers.
ghost use Rattle.std.specs.Prelude.{◌≡◌, IfOk};
ghost use Rattle.json_io.specs.Errors.{OnlyNoMemory};
ghost use Rattle.json_number.specs.Floats.{if_finite};
ghost use Rattle.json_number.specs.Laws.{PrintsItsLiteral, ReadsBack, ValueInRange, SameValue, SameText, LiteralIsNumber, EqualByLiteral, FloatIsNearest, IntegerIsFinite, IntegerDouble};

use crate::json_number_trait::JsonNumberTrait;
use crate::raw_number::RawNumber;
use json_io::Result;
use std::alloc::Global;

/// An integer by value prints the literal that it was read from.
pub fn prints_its_literal()
    ensures { PrintsItsLiteral }
{}

/// The text of a number is the literal of a number, which denotes the same integer.
pub fn reads_back()
    ensures { ReadsBack }
{}

/// Each number lies in `i64` or in `u64`.
pub fn value_in_range()
    ensures { ValueInRange }
{}

/// Numbers of one value are the same number.
pub fn same_value()
    ensures { SameValue }
{}

/// Numbers of one value have one text, and conversely.
pub fn same_text()
    ensures { SameText }
{}

/// The literal of a raw number is a number.
pub fn literal_is_number()
    ensures { LiteralIsNumber }
{}

/// Raw numbers are equal exactly where they have one literal.
pub fn equal_by_literal()
    ensures { EqualByLiteral }
{}

/// The float of a literal is the one nearest to the number, where that is finite, in each format of
/// IEEE 754.
pub fn float_is_nearest()
    ensures { FloatIsNearest }
{}

/// The double nearest to an integer by value is finite.
pub fn integer_is_finite()
    ensures { IntegerIsFinite }
{}

/// The double of an integer by value is that of its literal.
pub fn integer_double()
    ensures { IntegerDouble }
{}

/// A double that is written and read again is itself, also -0: it is returned unless it is a NaN or
/// an infinity. Fails with `NoMemory` if memory runs out.
pub fn double_and_back(alloc: Global, x: f64) -> Result<Option<f64>>
    ensures same { IfOk result (λ o. o ≡ if_finite x) }
    ensures err { OnlyNoMemory result }
{
    match RawNumber::from_f64(alloc, x)? {
        Some(number) => Ok(number.as_f64()),
        None => Ok(None),
    }
}

/// An `f32` that is written and read again is itself, as `double_and_back`. Fails with `NoMemory`
/// if memory runs out.
pub fn single_and_back(alloc: Global, x: f32) -> Result<Option<f32>>
    ensures same { IfOk result (λ o. o ≡ if_finite x) }
    ensures err { OnlyNoMemory result }
{
    match RawNumber::from_f32(alloc, x)? {
        Some(number) => Ok(number.as_f32()),
        None => Ok(None),
    }
}
