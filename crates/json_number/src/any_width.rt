// The integer of a literal, of any width.
ghost use Rattle.std.specs.Prelude.{◌≡◌, ◌<◌, ◌≤◌, ◌==◌, true, false, List, ℕ, length, slice_index, MatchOption};
ghost use Rattle.std.specs.Char.{is_ascii_digit};
ghost use Rattle.std.specs.List.{list_all};
ghost use Rattle.std.specs.Str.{all_ascii_digits};
ghost use Rattle.std.specs.Str.Parse.{digits_value};
ghost use Rattle.json_number.specs.Integers.{whole_in};
ghost use Rattle.json_number.specs.IntegerLiterals.{IsIntegerLiteral, below_of, plain_of};

/// An integer of at most this many digits always fits 64 bits.
const MOST_DIGITS: usize = 19;

/// The integer of a literal, of any width.
///
/// ```
/// use json_number::{IntegerLiteral, integer_literal};
/// assert_eq!(rt; integer_literal("-7"), IntegerLiteral::Negative(7));
/// assert_eq!(rt; integer_literal("7"), IntegerLiteral::NonNegative(7));
/// assert_eq!(rt; integer_literal("7.0"), IntegerLiteral::NotInteger);
/// ```
#[derive(Clone, Copy, Debug, PartialEq, Eq)]
pub enum IntegerLiteral {
    /// It is no integer, or `-0`.
    NotInteger,
    /// An integer below 0, by its magnitude.
    Negative(u128),
    /// An integer from 0 on.
    NonNegative(u128),
    /// An integer whose magnitude has more than 128 bits.
    TooBig,
}

/// Returns whether the literal begins with a minus.
#[inline(always)]
pub(crate) fn has_minus(literal: &str) -> bool
    ensures { result ≡ (slice_index literal.now 0 == 45) }
{
    let bytes = literal.as_bytes();
    !bytes.is_empty() && bytes[0] == b'-'
}

fn is_digits(text: &str) -> bool
    ensures { result ≡ list_all is_ascii_digit text.now }
{
    text.as_bytes().iter().all(|byte| byte.is_ascii_digit())
}

/// Returns the number that a few digits write, or `None` if there is another byte among them.
#[inline(always)]
fn short_value(digits: &[u8]) -> Option<u64>
    requires { length digits.now ≤ 19 }
    ensures { MatchOption result (all_ascii_digits digits.now ≡ false)
        (λ n. (all_ascii_digits digits.now ≡ true) × (n ≡ digits_value 10 digits.now)) }
{
    let mut value: u64 = 0;
    let mut at = 0;
    'digits: while at < digits.len() {
        if !digits[at].is_ascii_digit() {
            return None;
        }
        value = value * 10 + u64::from(digits[at] - b'0');
        at += 1;
    }
    Some(value)
}

/// Returns the integer that many digits write, or `NotInteger` if there is another byte among them.
#[inline(never)]
fn long_integer(digits: &str) -> IntegerLiteral
    requires { 0 < length digits.now }
    ensures { IsIntegerLiteral (plain_of digits.now) result }
{
    if !is_digits(digits) {
        return IntegerLiteral::NotInteger;
    }
    match digits.parse::<u128>() {
        Ok(n) => IntegerLiteral::NonNegative(n),
        Err(_) => IntegerLiteral::TooBig,
    }
}

/// Returns the integer that digits write, or `NotInteger` if there is another byte among them.
#[inline(always)]
fn plain_integer(digits: &str) -> IntegerLiteral
    ensures { IsIntegerLiteral (plain_of digits.now) result }
{
    if digits.len() > MOST_DIGITS {
        return long_integer(digits);
    }
    match short_value(digits.as_bytes()) {
        Some(n) => IntegerLiteral::NonNegative(n as u128),
        None => IntegerLiteral::NotInteger,
    }
}

/// Returns the integer of the same digits after a minus.
#[inline(always)]
fn negated_literal(integer: IntegerLiteral) -> IntegerLiteral
    ensures { (d : List ℕ) → IsIntegerLiteral (plain_of d) integer
        → IsIntegerLiteral (below_of d) result }
{
    match integer {
        IntegerLiteral::NonNegative(0) => IntegerLiteral::NotInteger,
        IntegerLiteral::NonNegative(n) => IntegerLiteral::Negative(n),
        IntegerLiteral::TooBig => IntegerLiteral::TooBig,
        IntegerLiteral::NotInteger | IntegerLiteral::Negative(_) => IntegerLiteral::NotInteger,
    }
}

/// Returns the integer of a literal that begins with a minus.
#[inline(never)]
fn negative_integer(literal: &str) -> IntegerLiteral
    requires { slice_index literal.now 0 ≡ 45 }
    ensures { IsIntegerLiteral (whole_in literal.now) result }
{
    negated_literal(plain_integer(&literal[1..]))
}

/// Returns the integer that a number's literal denotes, of any width: `NotInteger` for `-0`, for a
/// fraction or an exponent, and for a text that is no number.
///
/// ```
/// use json_number::{IntegerLiteral, integer_literal};
/// let big = integer_literal("18446744073709551616");
/// assert_eq!(rt; big, IntegerLiteral::NonNegative(18446744073709551616));
/// assert_eq!(rt; integer_literal("-0"), IntegerLiteral::NotInteger);
/// let huge = integer_literal("1000000000000000000000000000000000000000");
/// assert_eq!(rt; huge, IntegerLiteral::TooBig);
/// ```
#[inline(always)]
pub fn integer_literal(literal: &str) -> IntegerLiteral
    ensures { IsIntegerLiteral (whole_in literal.now) result }
{
    if literal.is_empty() {
        return IntegerLiteral::NotInteger;
    }
    if has_minus(literal) {
        negative_integer(literal)
    } else {
        plain_integer(literal)
    }
}
