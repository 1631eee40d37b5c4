// Numbers by their literals.
ghost use Rattle.std.specs.Prelude.{◌≡◌, ◌⊎◌, ◌==◌, true, Some, is_some, string_bytes, option_map, IfOk, IfErr, IfSome, OnOk};
ghost use Rattle.std.specs.Float.{binary32, binary64, float_is_finite};
ghost use Rattle.std.specs.Float.Parse.{parse_float};
ghost use Rattle.std.specs.Cmp.Lexicographic.{pointwise};
ghost use Rattle.std.specs.Cmp.Rules.{comparing};
ghost use Rattle.std.specs.Ordering.{on};
ghost use Rattle.std.proofs.Common.{rules};
ghost use Rattle.json_grammar.specs.Grammar.{number};
ghost use Rattle.json_io.specs.Errors.{no_memory, OnlyNoMemory};
ghost use Rattle.json_number.specs.Errors.{invalid_number};
ghost use Rattle.json_number.specs.Floats.{float_in, if_finite, nearest_float};
ghost use Rattle.json_number.specs.Integers.{integer_in};
ghost use Rattle.json_number.specs.Tests.{is_number_text};

use crate::float::f32_of;
use crate::integer::integer_by_call;
use crate::number::Number;
use json_io::{Error, ErrorCode, Place, Result};
use json_text::is_number;
use ryu::Buffer;
use std::alloc::Global;

/// A number as the literal that spells it (RFC 8259, section 6), of any size and precision. Equal
/// numbers have equal literals: `1.0` and `1.00` are two.
///
/// ```
/// use json_number::RawNumber;
/// let price = RawNumber::new(alloc, "1.50")?;
/// assert_eq!(rt; price.as_str(), "1.50");
/// assert_eq!(rt; price.to_number(), None);
/// assert!(rt; RawNumber::new(alloc, "01").is_err());
/// assert!(rt; price != RawNumber::new(alloc, "1.5")?);
/// ```
#[derive(Debug, Drop)]
pub struct RawNumber {
    literal: String,
    ghost is_literal: { is_number_text (string_bytes literal) ≡ true },
}

impl RawNumber {
    ghost use Rattle.json_number.specs.Literals.{raw_literal};
    ghost use Rattle.json_number.specs.Numbers.{value_of};

    /// Creates the number of a literal. Fails with `InvalidNumber` exactly if the text is no number
    /// (RFC 8259, section 6), and with `NoMemory` if memory runs out.
    pub fn new(alloc: Global, literal: &str) -> Result<RawNumber>
        ensures ok { IfOk result (λ r. raw_literal r ≡ literal.now) }
        ensures number { OnOk result (number literal.now) }
        ensures err { IfErr result (λ e. ((e ≡ invalid_number) × ¬ (number literal.now))
            ⊎ ((e ≡ no_memory) × number literal.now)) }
    {
        if !is_number(literal) {
            return Err(Error {
                code: ErrorCode::InvalidNumber,
                place: Place::None,
            });
        }
        RawNumber::from_literal(alloc, literal)
    }

    /// Returns the number of a literal that is known to be one. Fails with `NoMemory` if memory
    /// runs out.
    ///
    /// ```
    /// use json_number::RawNumber;
    /// let price = RawNumber::from_literal(alloc, "1.50")?;
    /// assert_eq!(rt; price.as_str(), "1.50");
    /// ```
    pub fn from_literal(alloc: Global, literal: &str) -> Result<RawNumber>
        requires { number literal.now }
        ensures ok { IfOk result (λ r. raw_literal r ≡ literal.now) }
        ensures err { OnlyNoMemory result }
    {
        Ok(RawNumber {
            literal: String::from_str(alloc, literal)?,
        })
    }

    /// Returns the number that the double is, as a literal whose nearest double it is, also -0:
    /// `None` for a NaN and an infinity. Fails with `NoMemory` if memory runs out.
    ///
    /// ```
    /// use json_number::RawNumber;
    /// let tenth = RawNumber::from_f64(alloc, 0.1)?.ok_or("0.1 is finite")?;
    /// assert_eq!(rt; tenth.as_str(), "0.1");
    /// assert!(rt; RawNumber::from_f64(alloc, f64::NAN)?.is_none());
    /// ```
    pub fn from_f64(alloc: Global, double: f64) -> Result<Option<RawNumber>>
        ensures finite { IfOk result (λ o. is_some o ≡ float_is_finite double) }
        ensures number { IfOk result (λ o. IfSome o (λ r. number (raw_literal r))) }
        ensures parses { IfOk result (λ o. IfSome o (λ r.
            parse_float binary64 (raw_literal r) ≡ Some double)) }
        ensures nearest { IfOk result (λ o. IfSome o (λ r. (n : number (raw_literal r))
            → nearest_float binary64 (raw_literal r) n ≡ double)) }
        ensures reads_back { IfOk result (λ o. IfSome o (λ r.
            float_in binary64 (raw_literal r) ≡ Some double)) }
        ensures err { OnlyNoMemory result }
    {
        if !double.is_finite() {
            return Ok(None);
        }
        let mut buffer = Buffer::new();
        Ok(Some(RawNumber::from_literal(alloc, buffer.format_finite(double))?))
    }

    /// Returns the number that the `f32` is, as a literal whose nearest `f32` it is, also -0:
    /// `None` for a NaN and an infinity. Fails with `NoMemory` if memory runs out.
    ///
    /// ```
    /// use json_number::RawNumber;
    /// let tenth = RawNumber::from_f32(alloc, 0.1)?.ok_or("0.1 is finite")?;
    /// assert_eq!(rt; tenth.as_str(), "0.1");
    /// assert_eq!(rt; tenth.as_f32(), Some(0.1));
    /// ```
    pub fn from_f32(alloc: Global, single: f32) -> Result<Option<RawNumber>>
        ensures finite { IfOk result (λ o. is_some o ≡ float_is_finite single) }
        ensures number { IfOk result (λ o. IfSome o (λ r. number (raw_literal r))) }
        ensures parses { IfOk result (λ o. IfSome o (λ r.
            parse_float binary32 (raw_literal r) ≡ Some single)) }
        ensures nearest { IfOk result (λ o. IfSome o (λ r. (n : number (raw_literal r))
            → nearest_float binary32 (raw_literal r) n ≡ single)) }
        ensures reads_back { IfOk result (λ o. IfSome o (λ r.
            float_in binary32 (raw_literal r) ≡ Some single)) }
        ensures err { OnlyNoMemory result }
    {
        if !single.is_finite() {
            return Ok(None);
        }
        let mut buffer = Buffer::new();
        Ok(Some(RawNumber::from_literal(alloc, buffer.format_finite(single))?))
    }

    /// Returns the literal.
    pub fn as_str(&self) -> &str
        ensures text { result.now ≡ raw_literal self.now }
        ensures number { number (raw_literal self.now) }
    {
        self.literal.as_str()
    }

    /// Returns the literal as a string of its own. Takes no memory.
    pub fn into_string(self) -> String
        ensures text { string_bytes result ≡ raw_literal self }
        ensures number { number (string_bytes result) }
    {
        self.literal
    }

    /// Returns the integer that the literal denotes, if any.
    pub fn to_number(&self) -> Option<Number>
        ensures { option_map value_of result ≡ integer_in (raw_literal self.now) }
    {
        integer_by_call(self.as_str())
    }

    /// Returns the `f32` nearest to the number, of two that are equally near the even one, where
    /// that is finite. It is rounded once, and not by way of an `f64`.
    ///
    /// ```
    /// use json_number::RawNumber;
    /// assert_eq!(rt; RawNumber::new(alloc, "12.10")?.as_f32(), Some(12.1));
    /// ```
    pub fn as_f32(&self) -> Option<f32>
        ensures single { result ≡ float_in binary32 (raw_literal self.now) }
        ensures nearest { (n : number (raw_literal self.now))
            → result ≡ if_finite (nearest_float binary32 (raw_literal self.now) n) }
    {
        f32_of(self.as_str())
    }

    /// Returns another number of the same literal. Fails with `NoMemory` if memory runs out.
    pub fn clone(&self, alloc: Global) -> Result<RawNumber>
        ensures ok { IfOk result (λ r. raw_literal r ≡ raw_literal self.now) }
        ensures err { OnlyNoMemory result }
    {
        RawNumber::from_literal(alloc, self.as_str())
    }
}

impl Number {
    ghost use Rattle.json_number.specs.Literals.{raw_literal};
    ghost use Rattle.json_number.specs.Numbers.{text_of_number};

    /// Returns the integer as its decimal literal. Fails with `NoMemory` if memory runs out.
    ///
    /// ```
    /// use json_number::Number;
    /// let least = Number::from(i64::MIN).to_raw(alloc)?;
    /// assert_eq!(rt; least.as_str(), "-9223372036854775808");
    /// ```
    pub fn to_raw(&self, alloc: Global) -> Result<RawNumber>
        ensures ok { IfOk result (λ r. raw_literal r ≡ text_of_number self.now) }
        ensures err { OnlyNoMemory result }
    {
        let text = format!(in alloc; "{self}")?;
        RawNumber::from_literal(alloc, text.as_str())
    }
}

impl PartialEq for RawNumber {
    ghost use Rattle.json_number.specs.Literals.{raw_literal};

    ghost eq = { on raw_literal (pointwise ◌==◌) };

    ghost laws = { Prim.search (comparing, rules) };

    fn eq(&self, other: &RawNumber) -> bool {
        self.as_str() == other.as_str()
    }
}

impl Eq for RawNumber {
    ghost laws = { Prim.search (comparing, rules) };
}
