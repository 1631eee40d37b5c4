// Integers of any width.
ghost use Rattle.std.specs.Prelude.{◌≡◌, ◌<◌, ℕ, ◌^◌, ◌≤◌, ℤ, pos, neg_ℤ, Option, Some, None, true, IfOk, IfErr, IfSome, MatchOption};
ghost use Rattle.json_grammar.specs.Tree.{Tree, num};
ghost use Rattle.json_grammar.specs.Grammar.{number};
ghost use Rattle.json_model.specs.Datum.{integer_datum};
ghost use Rattle.json_number.specs.IntegerLiterals.{IsIntegerLiteral};
ghost use Rattle.json_number.specs.Integers.{integer_in};
ghost use Rattle.json_number.specs.Numbers.{value_of, text_of_number};
ghost use Rattle.json_tokens.specs.declared.token.TokenKind.TheVariants as TokenKind;
ghost use Rattle.json_data.specs.Reading.{gives, tree_integer, is_between, in_range, refuses, read_integer, ReturnsBetween};
ghost use Rattle.json_tokens.specs.Refusals.{is_refusal as spec_is_refusal, error_without_place as spec_refusal};
ghost use Rattle.json_data.specs.Reader.{ReadsTree, ReadsNonNull, StopsReading};
ghost use Rattle.json_tokens.specs.TokensStates.{NotWhole, WantsValue, TakesTree, FailsWithTokens};

use json_io::{ErrorCode, Result};
use json_number::{Integer, IntegerLiteral, Number, integer_literal};
use json_tokens::{InputStr, Token, TokenKind, Tokens, error_without_place};

/// Returns a number of 64 bits as an `IntegerLiteral`.
#[inline(always)]
pub(crate) fn whole_of_number(n: Number) -> IntegerLiteral
    ensures { (o : Option ℤ) → o ≡ Some (value_of n) → IsIntegerLiteral o result }
{
    match n.integer() {
        Integer::Unsigned(n) => IntegerLiteral::NonNegative(n as u128),
        Integer::Negative(n) => IntegerLiteral::Negative(n.unsigned_abs() as u128),
    }
}

// Returns the next integer by value.
#[inline(always)]
pub(crate) fn next_int<S: InputStr, T: Tokens<S>>(tokens: &mut T) -> Result<Number>
    requires whole { NotWhole (T.state tokens.old) }
    requires peeked { (T.state tokens.old).peeked ≡ Some TokenKind.Int }
    ensures ok { IfOk result (λ n.
        TakesTree T.taken T.state tokens.old tokens.new (num (text_of_number n))) }
    ensures value { IfOk result (λ n. (integer_in (text_of_number n) ≡ Some (value_of n))
        × number (text_of_number n)) }
    ensures err { FailsWithTokens (T.state tokens.old) (T.state tokens.new) result }
{
    match tokens.next()? {
        Token::Int(n) => Ok(n),
        _ => unreachable!(),
    }
}

// Returns the literal of another number.
#[inline(never)]
pub(crate) fn next_raw<S: InputStr, T: Tokens<S>>(tokens: &mut T) -> Result<S>
    requires whole { NotWhole (T.state tokens.old) }
    requires peeked { (T.state tokens.old).peeked ≡ Some TokenKind.Raw }
    ensures ok { IfOk result (λ l.
        TakesTree T.taken T.state tokens.old tokens.new (num (S.bytes l))) }
    ensures value { IfOk result (λ l. (integer_in (S.bytes l) ≡ None) × number (S.bytes l)) }
    ensures err { FailsWithTokens (T.state tokens.old) (T.state tokens.new) result }
{
    match tokens.next()? {
        Token::Raw(literal) => Ok(literal),
        _ => unreachable!(),
    }
}

/// Takes the next value, and returns which integer it is, if it is one.
#[inline(always)]
pub(crate) fn read_whole<S: InputStr, T: Tokens<S>>(tokens: &mut T) -> Result<IntegerLiteral>
    requires { WantsValue (T.state tokens.old) }
    ensures ok { IfOk result (λ w. (t : Tree) × TakesTree T.taken T.state tokens.old tokens.new t
        × IsIntegerLiteral (tree_integer t) w) }
    ensures err { FailsWithTokens (T.state tokens.old) (T.state tokens.new) result }
{
    let kind = tokens.peek()?;
    if kind == TokenKind::Int {
        let n = next_int(tokens)?;
        return Ok(whole_of_number(n));
    }
    if kind == TokenKind::Raw {
        let literal = next_raw(tokens)?;
        return Ok(integer_literal(literal.as_text()));
    }
    tokens.skip()?;
    Ok(IntegerLiteral::NotInteger)
}

/// Returns the integer if it is at least `-low` and below `high`. Fails if it is not in that range.
#[inline(always)]
pub(crate) fn integer_in_range(whole: IntegerLiteral, low: u128, high: u128) -> Result<i128>
    requires low { low ≤ 2 ^ 127 }
    requires high { high ≤ 2 ^ 127 }
    ensures ok { (o : Option ℤ) → IsIntegerLiteral o whole → IfOk result (λ n. o ≡ Some n) }
    ensures within { ReturnsBetween low high result }
    ensures err { (o : Option ℤ) → IsIntegerLiteral o whole
        → IfErr result (λ e. (in_range (is_between low high) o ≡ refuses e.code)
        × (e ≡ spec_refusal e.code) × (spec_is_refusal e.code ≡ true)) }
    ensures refusal { IfErr result (λ e. (e ≡ spec_refusal e.code)
        × (spec_is_refusal e.code ≡ true)) }
{
    match whole {
        IntegerLiteral::NotInteger => Err(error_without_place(ErrorCode::TypeUnmatched)),
        IntegerLiteral::Negative(n) if n <= low && n > 0 => Ok(-((n - 1) as i128) - 1),
        IntegerLiteral::NonNegative(n) if n < high => Ok(n as i128),
        _ => Err(error_without_place(ErrorCode::NumberOutOfRange)),
    }
}

/// Takes the next integer from 0 to `most` by the fast path of the source. Returns `None`, and
/// takes nothing, if that does not read it.
#[inline(always)]
pub(crate) fn integer_at_once<S: InputStr, T: Tokens<S>>(tokens: &mut T, most: u64) -> Option<u64>
    requires { NotWhole (T.state tokens.old) }
    ensures most { IfSome result (λ n. n ≤ most) }
    ensures takes { MatchOption result (tokens.new ≡ tokens.old) (λ n. (low high : ℕ) → most < high
        → ReadsNonNull T.taken T.state (read_integer (is_between low high)) tokens.old tokens.new
        (gives (integer_datum (pos n)))) }
{
    match tokens.integer(most) {
        Some(n) => Some(n),
        None => None,
    }
}

/// Returns the integer below 0 of this magnitude.
#[inline(always)]
fn negated(magnitude: u64) -> i128
    ensures { result ≡ neg_ℤ (pos magnitude) }
{
    -(magnitude as i128)
}

/// Takes the next integer below 0 and at least `-least` by the fast path of the source. Returns
/// `None`, and takes nothing, if that does not read it.
#[inline(always)]
fn negative_at_once<S: InputStr, T: Tokens<S>>(tokens: &mut T, least: u64) -> Option<i128>
    requires whole { NotWhole (T.state tokens.old) }
    requires fits { least ≤ 2 ^ 63 }
    ensures within { IfSome result (λ n. (low high : ℕ) → least ≤ low
        → is_between low high n ≡ true) }
    ensures takes { MatchOption result (tokens.new ≡ tokens.old) (λ n. (low high : ℕ) → least ≤ low
        → ReadsNonNull T.taken T.state (read_integer (is_between low high)) tokens.old tokens.new
        (gives (integer_datum n))) }
{
    match tokens.negative(least) {
        Some(n) => Some(negated(n)),
        None => None,
    }
}

/// Takes the next integer that is at least `-half` and below `half` by a fast path of the source.
/// Returns `None`, and takes nothing, if none reads it.
#[inline(always)]
pub(crate) fn signed_at_once<S: InputStr, T: Tokens<S>>(tokens: &mut T, half: u64) -> Option<i128>
    requires whole { NotWhole (T.state tokens.old) }
    requires half { (0 < half) × (half ≤ 2 ^ 63) }
    ensures within { IfSome result (λ n. is_between half half n ≡ true) }
    ensures takes { MatchOption result (tokens.new ≡ tokens.old) (λ n.
        ReadsNonNull T.taken T.state (read_integer (is_between half half)) tokens.old tokens.new
        (gives (integer_datum n))) }
{
    if let Some(n) = integer_at_once(tokens, half - 1) {
        return Some(n as i128);
    }
    match negative_at_once(tokens, half) {
        Some(n) => Some(n),
        None => None,
    }
}

/// Returns a magnitude that is at most `low` and at most 2^63.
#[inline(always)]
fn least_of(low: u128) -> u64
    ensures { (result ≤ low) × (result ≤ 2 ^ 63) }
{
    if low > 9223372036854775808 {
        9223372036854775808
    } else {
        low as u64
    }
}

/// Returns a number of 64 bits below `high`: the greatest.
#[inline(always)]
fn most_below(high: u128) -> u64
    requires { 0 < high }
    ensures { result < high }
{
    if high > 18446744073709551615 {
        18446744073709551615
    } else {
        (high - 1) as u64
    }
}

/// Reads an integer for `read_between` if the fast paths return nothing.
#[inline(never)]
fn between_by_kind<S: InputStr, T: Tokens<S>>(tokens: &mut T, low: u128, high: u128) -> Result<i128>
    requires wants { WantsValue (T.state tokens.old) }
    requires low { low ≤ 2 ^ 127 }
    requires high { high ≤ 2 ^ 127 }
    ensures ok { IfOk result (λ n.
        ReadsTree T.taken T.state (read_integer (is_between low high)) tokens.old tokens.new
        (gives (integer_datum n))) }
    ensures within { ReturnsBetween low high result }
    ensures err { IfErr result (λ e.
        StopsReading T.taken T.state (read_integer (is_between low high)) tokens.old tokens.new e) }
{
    let whole = read_whole(tokens)?;
    match integer_in_range(whole, low, high) {
        Ok(n) => Ok(n),
        Err(e) => Err(e),
    }
}

/// Reads an integer for `read_between` if no integer from 0 on was read by the fast path.
#[inline(never)]
fn negative_or_by_kind<S: InputStr, T: Tokens<S>>(
    tokens: &mut T,
    low: u128,
    high: u128,
) -> Result<i128>
    requires wants { WantsValue (T.state tokens.old) }
    requires low { low ≤ 2 ^ 127 }
    requires high { high ≤ 2 ^ 127 }
    ensures ok { IfOk result (λ n.
        ReadsTree T.taken T.state (read_integer (is_between low high)) tokens.old tokens.new
        (gives (integer_datum n))) }
    ensures within { ReturnsBetween low high result }
    ensures err { IfErr result (λ e.
        StopsReading T.taken T.state (read_integer (is_between low high)) tokens.old tokens.new e) }
{
    if let Some(n) = negative_at_once(tokens, least_of(low)) {
        return Ok(n);
    }
    between_by_kind(tokens, low, high)
}

/// Reads the next integer, which has to be at least `-low` and below `high`.
#[inline(always)]
pub(crate) fn read_between<S: InputStr, T: Tokens<S>>(
    tokens: &mut T,
    low: u128,
    high: u128,
) -> Result<i128>
    requires wants { WantsValue (T.state tokens.old) }
    requires low { low ≤ 2 ^ 127 }
    requires high { (0 < high) × (high ≤ 2 ^ 127) }
    ensures ok { IfOk result (λ n.
        ReadsTree T.taken T.state (read_integer (is_between low high)) tokens.old tokens.new
        (gives (integer_datum n))) }
    ensures within { ReturnsBetween low high result }
    ensures err { IfErr result (λ e.
        StopsReading T.taken T.state (read_integer (is_between low high)) tokens.old tokens.new e) }
{
    if let Some(n) = integer_at_once(tokens, most_below(high)) {
        return Ok(n as i128);
    }
    negative_or_by_kind(tokens, low, high)
}

/// Returns the integer if it is at least 0 and has at most 128 bits.
pub(crate) fn fit_unsigned(whole: IntegerLiteral) -> Result<u128>
    ensures ok { (o : Option ℤ) → IsIntegerLiteral o whole → IfOk result (λ n. o ≡ Some (pos n)) }
    ensures within { IfOk result (λ n. n < 2 ^ 128) }
    ensures err { (o : Option ℤ) → IsIntegerLiteral o whole
        → IfErr result (λ e. (in_range (is_between 0 (2 ^ 128)) o ≡ refuses e.code)
        × (e ≡ spec_refusal e.code) × (spec_is_refusal e.code ≡ true)) }
    ensures refusal { IfErr result (λ e. (e ≡ spec_refusal e.code)
        × (spec_is_refusal e.code ≡ true)) }
{
    match whole {
        IntegerLiteral::NotInteger => Err(error_without_place(ErrorCode::TypeUnmatched)),
        IntegerLiteral::NonNegative(n) => Ok(n),
        IntegerLiteral::Negative(_) | IntegerLiteral::TooBig => Err(error_without_place(
            ErrorCode::NumberOutOfRange,
        )),
    }
}
