// What a number tells of its integer and its double.
ghost use Rattle.std.specs.Prelude.{◌≡◌, ℤ, Float, Option, Some, option_and_then, is_some};
ghost use Rattle.std.specs.Float.{binary64};
ghost use Rattle.json_grammar.specs.Grammar.{number};
ghost use Rattle.json_number.specs.Floats.{double_of, float_in, if_finite, is_double, nearest_float};
ghost use Rattle.json_number.specs.Integers.{in_i64, in_u64, integer_in};
ghost use Rattle.json_number.specs.Numbers.{value_of};
ghost use Rattle.json_number.specs.Literals.{raw_literal};

use crate::float::f64_of;
use crate::number::{Integer, Number};
use crate::raw_number::RawNumber;
use std::num::{nearest_i64_to_f64, nearest_u64_to_f64};

/// What denotes a number, which may be an integer by value.
///
/// ```
/// use json_number::{JsonNumberTrait, RawNumber};
/// let big = RawNumber::new(alloc, "9223372036854775808")?;
/// assert!(rt; big.is_u64());
/// assert_eq!(rt; big.as_u64(), Some(9223372036854775808));
/// assert_eq!(rt; big.as_i64(), None);
/// assert_eq!(rt; RawNumber::new(alloc, "12.10")?.as_f64(), Some(12.1));
/// ```
pub trait JsonNumberTrait {
    // Its integer, if it has one.
    ghost integer: { Self → Option ℤ };

    // The double nearest to it, if that is finite.
    ghost double: { Self → Option Float };

    /// Returns whether it denotes an integer that lies in `i64`.
    fn is_i64(&self) -> bool
        ensures { result ≡ is_some (option_and_then in_i64 (integer self.now)) }
    {
        self.as_i64().is_some()
    }

    /// Returns whether it denotes an integer that lies in `u64`.
    fn is_u64(&self) -> bool
        ensures { result ≡ is_some (option_and_then in_u64 (integer self.now)) }
    {
        self.as_u64().is_some()
    }

    /// Returns whether it denotes no integer that lies in `i64` or in `u64`, and the double nearest
    /// to it is finite.
    fn is_f64(&self) -> bool
        ensures { result ≡ is_double (integer self.now) (double self.now) }
    {
        !self.is_i64() && !self.is_u64() && self.as_f64().is_some()
    }

    /// The integer, where it lies in `i64`.
    fn as_i64(&self) -> Option<i64>
        ensures { result ≡ option_and_then in_i64 (integer self.now) };

    /// The integer, where it lies in `u64`.
    fn as_u64(&self) -> Option<u64>
        ensures { result ≡ option_and_then in_u64 (integer self.now) };

    /// The double nearest to the number, of two that are equally near the even one, where that is
    /// finite.
    fn as_f64(&self) -> Option<f64>
        ensures { result ≡ double self.now };
}

impl JsonNumberTrait for Number {
    ghost integer = { λ n. Some (value_of n) };

    ghost double = { λ n. Some (double_of (value_of n)) };

    fn as_i64(&self) -> Option<i64> {
        match self.form {
            Integer::Unsigned(n) if n <= i64::MAX as u64 => Some(n as i64),
            Integer::Unsigned(_) => None,
            Integer::Negative(n) => Some(n),
        }
    }

    fn as_u64(&self) -> Option<u64> {
        match self.form {
            Integer::Unsigned(n) => Some(n),
            Integer::Negative(_) => None,
        }
    }

    fn as_f64(&self) -> Option<f64> {
        match self.form {
            Integer::Unsigned(n) => Some(nearest_u64_to_f64(n)),
            Integer::Negative(n) => Some(nearest_i64_to_f64(n)),
        }
    }
}

impl JsonNumberTrait for RawNumber {
    ghost integer = { λ r. integer_in (raw_literal r) };

    ghost double = { λ r. float_in binary64 (raw_literal r) };

    fn as_i64(&self) -> Option<i64> {
        match self.to_number() {
            Some(n) => n.as_i64(),
            None => None,
        }
    }

    fn as_u64(&self) -> Option<u64> {
        match self.to_number() {
            Some(n) => n.as_u64(),
            None => None,
        }
    }

    fn as_f64(&self) -> Option<f64>
        ensures double { result ≡ float_in binary64 (raw_literal self.now) }
        ensures nearest { (n : number (raw_literal self.now))
            → result ≡ if_finite (nearest_float binary64 (raw_literal self.now) n) }
    {
        f64_of(self.as_str())
    }
}
