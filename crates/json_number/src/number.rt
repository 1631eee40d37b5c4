// Integers by value.
ghost use Rattle.std.specs.Prelude.{◌≡◌, true, Some, pos};
ghost use Rattle.std.specs.Ordering.{on, int_eq};
ghost use Rattle.std.specs.Cmp.Rules.{comparing, hashing};
ghost use Rattle.std.specs.Hash as fed;
ghost use Rattle.std.proofs.Common.{rules};
ghost use Rattle.json_number.specs.BySign.{is_formed};

use itoa::Buffer;
use std::fmt;
use std::hash::{Hash, Hasher};

/// An integer of 64 bits by its sign.
///
/// ```
/// use json_number::{Integer, Number};
/// assert_eq!(rt; Number::from(7_i8).integer(), Integer::Unsigned(7));
/// assert_eq!(rt; Number::from(-7_i8).integer(), Integer::Negative(-7));
/// ```
#[derive(Clone, Copy, Debug, PartialEq, Eq)]
pub enum Integer {
    /// An integer from 0 to 2^64 - 1.
    Unsigned(u64),
    /// An integer from -2^63 to -1.
    Negative(i64),
}

/// An integer that lies in `i64` or in `u64`: from -2^63 to 2^64 - 1. Equal integers are equal
/// numbers.
///
/// ```
/// use json_number::Number;
/// assert_eq!(rt; Number::from(7_u8), Number::from(7_i64));
/// let shown = format!(in alloc; "{}", Number::from(i64::MIN))?;
/// assert_eq!(rt; shown.as_str(), "-9223372036854775808");
/// ```
#[derive(Clone, Copy, Debug)]
pub struct Number {
    pub(crate) form: Integer,
    ghost formed: { is_formed form ≡ true },
}

impl Number {
    ghost use Rattle.json_number.specs.Numbers.{value_of};
    ghost use Rattle.json_number.specs.BySign.{integer_value, NegativeIsBelowZero};

    /// Returns the integer by its sign.
    ///
    /// ```
    /// use json_number::{Integer, Number};
    /// assert_eq!(rt; Number::from(u64::MAX).integer(), Integer::Unsigned(u64::MAX));
    /// assert_eq!(rt; Number::from(i64::MIN).integer(), Integer::Negative(i64::MIN));
    /// ```
    #[inline(always)]
    pub fn integer(&self) -> Integer
        ensures value { integer_value result ≡ value_of self.now }
        ensures negative { NegativeIsBelowZero result }
    {
        self.form
    }

    pub(crate) fn unsigned(n: u64) -> Number
        ensures { value_of result ≡ pos n }
    {
        Number {
            form: Integer::Unsigned(n),
        }
    }

    pub(crate) fn signed(n: i64) -> Number
        ensures { value_of result ≡ n }
    {
        if n < 0 {
            Number {
                form: Integer::Negative(n),
            }
        } else {
            Number::unsigned(n as u64)
        }
    }

    /// The integer, in a type that has room for each.
    fn widened(&self) -> i128
        ensures { result ≡ value_of self.now }
    {
        match self.form {
            Integer::Unsigned(n) => n as i128,
            Integer::Negative(n) => n as i128,
        }
    }
}

impl PartialEq for Number {
    ghost use Rattle.json_number.specs.Numbers.{value_of};

    ghost eq = { on value_of int_eq };

    ghost laws = { Prim.search (comparing, rules) };

    fn eq(&self, other: &Number) -> bool {
        self.widened() == other.widened()
    }
}

impl Eq for Number {
    ghost laws = { Prim.search (comparing, rules) };
}

impl Hash for Number {
    ghost use Rattle.json_number.specs.Numbers.{value_of};

    ghost hash_input = { λ n. fed.i128 (value_of n) };

    ghost respects_eq = { Prim.search (hashing, rules) };

    fn hash<H: Hasher>(&self, state: &mut H) {
        self.widened().hash(state);
    }
}

impl fmt::Display for Number {
    ghost use Rattle.json_number.specs.Numbers.{text_of_number};

    ghost output = { λ n. Some (text_of_number n) };

    fn fmt<W: fmt::Write>(&self, f: &mut fmt::Formatter<W>) -> fmt::Result {
        match self.form {
            Integer::Unsigned(n) => f.write_str(Buffer::new().format(n)),
            Integer::Negative(n) => f.write_str(Buffer::new().format(n)),
        }
    }
}
