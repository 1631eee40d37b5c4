// Integers in the text of a query (RFC 9535, section 2.3.3.1).
ghost use Rattle.std.specs.Prelude.{◌≡◌, ℕ, ◌+◌, ◌^◌, ◌<◌, ◌≤◌, [], ◌∷◌, Bool, true, length, IfOk, MatchOption, MatchResult, MatchBool, pos};
ghost use Rattle.json_query.specs.Reading.{BeginsInteger, NoInteger, NoDigit, starts, starts_integer};
ghost use Rattle.json_query.specs.TextStates.{Brackets, IntegerRole, after_minus, after_integer, in_integer, signed, outcome, is_refused};

use crate::cursor::{Class, Read, next_char, split_class};
use crate::error::{Fault, QueryCode};

const MAX_INTEGER: u64 = 9_007_199_254_740_991;

// Returns whether an integer begins with a character of this class.
fn starts_integer(class: Class) -> bool
    ensures { result ≡ starts_integer class }
{
    match class {
        Class::Minus | Class::ZeroDigit | Class::Digit => true,
        _ => false,
    }
}

/// Returns whether the text begins as an integer does.
pub(crate) fn begins_integer(text: &str) -> bool
    ensures { MatchBool result (BeginsInteger text.now) (NoInteger text.now) }
{
    let (class, _) = split_class(text);
    starts_integer(class)
}

// Returns the digit with which the text begins, and the text after it.
fn next_digit(text: &str) -> Option<(u64, &str)>
    ensures { MatchOption result (NoDigit text.now)
        (λ p. (p.0 < 10) × (text.now ≡ (48 + p.0) ∷ p.1.now)) }
{
    match next_char(text) {
        Some((c, rest)) => match c.to_digit(10) {
            Some(digit) => Some((u64::from(digit), rest)),
            None => None,
        },
        None => None,
    }
}

// Reads the digits after the first one of a numeral.
fn read_digits(first: u64, text: &str) -> Read<'_, u64>
    requires { first < 10 }
    ensures read { (r : IntegerRole) (o : Brackets) (negative : Bool) → MatchResult result
        (λ p. outcome (in_integer r o negative first) text.now
        ≡ outcome (after_integer r o (signed negative p.0)) p.1.now)
        (λ f. outcome (in_integer r o negative first) text.now ≡ is_refused f.code f.left) }
    ensures exact { IfOk result (λ p. p.0 < 2 ^ 53) }
    ensures within { IfOk result (λ p. length p.1.now ≤ length text.now) }
{
    let mut value = first;
    let mut rest = text;
    'digits: while let Some((digit, after)) = next_digit(rest) {
        value = value * 10 + digit;
        if value > MAX_INTEGER {
            return Err(Fault::before(QueryCode::IntegerOutOfRange, rest));
        }
        rest = after;
    }
    Ok((value, rest))
}

// Reads the numeral after `-`.
fn read_negative(text: &str) -> Read<'_, u64>
    ensures read { (r : IntegerRole) (o : Brackets) → MatchResult result
        (λ p. outcome (after_minus r o) text.now
        ≡ outcome (after_integer r o (signed true p.0)) p.1.now)
        (λ f. outcome (after_minus r o) text.now ≡ is_refused f.code f.left) }
    ensures exact { IfOk result (λ p. p.0 < 2 ^ 53) }
    ensures within { IfOk result (λ p. length p.1.now < length text.now) }
{
    match next_digit(text) {
        Some((first, rest)) => {
            if first == 0 {
                return Err(Fault::before(QueryCode::ExpectedDigit, text));
            }
            read_digits(first, rest)
        }
        None => Err(Fault::before(QueryCode::ExpectedDigit, text)),
    }
}

/// Reads an integer: `0`, or a numeral before which `-` may be.
pub(crate) fn read_integer(text: &str) -> Read<'_, i64>
    requires { BeginsInteger text.now }
    ensures read { (r : IntegerRole) (o : Brackets) → MatchResult result
        (λ p. outcome (starts r o) text.now ≡ outcome (after_integer r o p.0) p.1.now)
        (λ f. outcome (starts r o) text.now ≡ is_refused f.code f.left) }
    ensures within { IfOk result (λ p. length p.1.now < length text.now) }
{
    match next_digit(text) {
        Some((first, rest)) => {
            if first == 0 {
                return Ok((0, rest));
            }
            let (magnitude, after) = read_digits(first, rest)?;
            Ok((magnitude as i64, after))
        }
        None => {
            let (_, rest) = split_class(text);
            let (below, after) = read_negative(rest)?;
            Ok((-(below as i64), after))
        }
    }
}
