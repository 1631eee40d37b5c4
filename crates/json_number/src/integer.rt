// The integer of a literal, of 64 bits.
ghost use Rattle.std.specs.Prelude.{◌≡◌, ◌+◌, ◌≤◌, length, option_map};
ghost use Rattle.json_grammar.specs.Given.{piece};
ghost use Rattle.json_grammar.specs.Grammar.{number};
ghost use Rattle.json_number.specs.Integers.{below_zero, from_zero, integer_in};
ghost use Rattle.json_number.specs.IntegerLiterals.{in_64_bits};
ghost use Rattle.json_number.specs.Numbers.{value_of};

use crate::any_width::{IntegerLiteral, has_minus, integer_literal};
use crate::number::Number;
use json_text::internal::{DigitsRead, read_digits};

/// The bytes of the longest literals that denote an integer: those of 2^64 - 1 and of -2^63.
const LONGEST: usize = 20;

/// The magnitude of the least integer of `i64`.
const LEAST: u128 = 9_223_372_036_854_775_808;

/// The greatest integer of `u64`.
const GREATEST: u128 = 18_446_744_073_709_551_615;

/// Returns the integer below 0 of the magnitude: none for 0, and for what lies below `i64`.
#[inline(always)]
fn negative(magnitude: u128) -> Option<Number>
    ensures { option_map value_of result ≡ below_zero magnitude }
{
    if magnitude == 0 || magnitude > LEAST {
        None
    } else {
        Some(Number::signed(-((magnitude - 1) as i64) - 1))
    }
}

/// Returns the integer from 0 on: none for what lies above `u64`.
#[inline(always)]
fn non_negative(n: u128) -> Option<Number>
    ensures { option_map value_of result ≡ from_zero n }
{
    if n > GREATEST {
        None
    } else {
        Some(Number::unsigned(n as u64))
    }
}

/// Returns the integer of a literal, if it lies in `i64` or in `u64`.
#[inline(always)]
fn narrowed(integer: IntegerLiteral) -> Option<Number>
    ensures { option_map value_of result ≡ in_64_bits integer }
{
    match integer {
        IntegerLiteral::NonNegative(n) => non_negative(n),
        IntegerLiteral::Negative(n) => negative(n),
        IntegerLiteral::NotInteger | IntegerLiteral::TooBig => None,
    }
}

/// Returns the integer that a number's literal denotes: `None` for `-0`, for a fraction or an
/// exponent, and for what lies neither in `i64` nor in `u64`.
///
/// ```
/// use json_number::{JsonNumberTrait, integer_of};
/// let least = integer_of("-9223372036854775808").ok_or("it lies in i64")?;
/// assert_eq!(rt; least.as_i64(), Some(i64::MIN));
/// assert!(rt; integer_of("-0").is_none());
/// ```
#[inline(always)]
pub fn integer_of(literal: &str) -> Option<Number>
    requires { number literal.now }
    ensures { option_map value_of result ≡ integer_in literal.now }
{
    if literal.len() > LONGEST {
        return None;
    }
    narrowed(integer_literal(literal))
}

/// Returns what `integer_of` returns, by a call.
#[inline(never)]
pub(crate) fn integer_by_call(literal: &str) -> Option<Number>
    requires { number literal.now }
    ensures { option_map value_of result ≡ integer_in literal.now }
{
    integer_of(literal)
}

/// Returns what `integer_of` returns, for a literal whose bytes are those of the input from `from`
/// on. It reads a block of 16 bytes of the input, also beyond the literal's end.
///
/// ```
/// use json_number::{JsonNumberTrait, integer_of_in};
/// let found = integer_of_in("1815", b"[1815, 12.10]", 1).ok_or("1815 is an integer")?;
/// assert_eq!(rt; found.as_u64(), Some(1815));
/// assert!(rt; integer_of_in("12.10", b"[1815, 12.10]", 7).is_none());
/// ```
#[inline(always)]
pub fn integer_of_in(literal: &str, input: &[u8], from: usize) -> Option<Number>
    requires number { number literal.now }
    requires within { from + length literal.now ≤ length input.now }
    requires bytes { literal.now ≡ piece input.now from (from + length literal.now) }
    ensures { option_map value_of result ≡ integer_in literal.now }
{
    let end = from + literal.len();
    if has_minus(literal) {
        return match read_digits(input, from + 1, end) {
            DigitsRead::Value(value) => negative(value as u128),
            DigitsRead::NotDigits => None,
            DigitsRead::NotRead => integer_by_call(literal),
        };
    }
    match read_digits(input, from, end) {
        DigitsRead::Value(value) => Some(Number::unsigned(value)),
        DigitsRead::NotDigits => None,
        DigitsRead::NotRead => integer_by_call(literal),
    }
}
