// String literals in the text of a query (RFC 9535, section 2.3.1.1).
ghost use Rattle.std.specs.Prelude.{◌≡◌, ℕ, ◌+◌, ◌*◌, ◌<◌, ◌≤◌, [], ◌∷◌, ◌++◌, List, true, false, length, IfOk, IfErr, MatchResult, encode_utf8, string_bytes};
ghost use Rattle.std.specs.Char.{IsScalar};
ghost use Rattle.json_grammar.specs.Grammar.{surrogate_pair, IsLowSurrogate};
ghost use Rattle.json_query.specs.Query.{name_selector};
ghost use Rattle.json_query.specs.Reading.{HexAt, NoHexAt, NoCharAt, IsMark, Stops, escaped, after_char};
ghost use Rattle.json_query.specs.TextStates.{Brackets, with_selector, after_selector, in_string, after_backslash, in_unit, before_low, in_low, is_between, unit_end, only_low, some_low, outcome, is_refused};

use crate::cursor::{Read, next_char};
use crate::error::{Fault, QueryCode};
use std::alloc::Global;

// Reads a hexadecimal digit of either case.
fn read_hex(text: &str) -> Read<'_, u32>
    ensures { MatchResult result (λ r. HexAt r.0 text.now r.1.now) (λ f. NoHexAt f text.now) }
{
    match next_char(text) {
        Some((c, rest)) => match c.to_digit(16) {
            Some(digit) => Ok((digit, rest)),
            None => Err(Fault::before(QueryCode::InvalidEscape, text)),
        },
        None => Err(Fault::before(QueryCode::UnclosedString, text)),
    }
}

// Reads the two last of four hexadecimal digits, of which the two first make `high`.
fn read_unit(high: u32, text: &str) -> Read<'_, u32>
    requires { high < 256 }
    ensures unit { (m : ℕ) (o : Brackets) (k : List ℕ) → only_low 2 high ≡ false →
        MatchResult result
        (λ r. outcome (in_unit m o k 1 high) text.now ≡ outcome (unit_end m o k r.0) r.1.now)
        (λ f. outcome (in_unit m o k 1 high) text.now ≡ is_refused f.code f.left) }
    ensures low { (m : ℕ) (o : Brackets) (k : List ℕ) (h : ℕ) → some_low 2 high ≡ true →
        MatchResult result
        (λ r. outcome (in_low m o k h 1 high) text.now
        ≡ outcome (in_string m o (k ++ encode_utf8 (surrogate_pair h r.0))) r.1.now)
        (λ f. outcome (in_low m o k h 1 high) text.now ≡ is_refused f.code f.left) }
    ensures value { IfOk result (λ r. (v : ℕ) × (v < 256) × (r.0 ≡ high * 256 + v)) }
    ensures within { IfOk result (λ r. length r.1.now ≤ length text.now) }
{
    let (third, rest) = read_hex(text)?;
    let (fourth, after) = read_hex(rest)?;
    Ok(((high * 16 + third) * 16 + fourth, after))
}

// Reads this character, after a high surrogate.
fn expect(c: char, text: &str) -> Read<'_, ()>
    requires { c < 128 }
    ensures read { IfOk result (λ r. text.now ≡ c ∷ r.1.now) }
    ensures refused { IfErr result (λ f. NoCharAt c f text.now) }
{
    match next_char(text) {
        Some((d, rest)) => {
            if d == c {
                return Ok(((), rest));
            }
            Err(Fault::before(QueryCode::InvalidSurrogate, text))
        }
        None => Err(Fault::before(QueryCode::UnclosedString, text)),
    }
}

// Reads the escape of a low surrogate, from its backslash on.
fn read_low(text: &str) -> Read<'_, u32>
    ensures read { (m : ℕ) (o : Brackets) (k : List ℕ) (h : ℕ) → MatchResult result
        (λ r. outcome (before_low m o k h) text.now
        ≡ outcome (in_string m o (k ++ encode_utf8 (surrogate_pair h r.0))) r.1.now)
        (λ f. outcome (before_low m o k h) text.now ≡ is_refused f.code f.left) }
    ensures low { IfOk result (λ r. IsLowSurrogate r.0) }
    ensures within { IfOk result (λ r. length r.1.now ≤ length text.now) }
{
    let (_, after_backslash) = expect('\\', text)?;
    let (_, digits) = expect('u', after_backslash)?;
    let (first, rest) = read_hex(digits)?;
    if first != 13 {
        return Err(Fault::before(QueryCode::InvalidSurrogate, digits));
    }
    let (second, after) = read_hex(rest)?;
    if second < 12 {
        return Err(Fault::before(QueryCode::InvalidSurrogate, rest));
    }
    read_unit(first * 16 + second, after)
}

// Returns the character of this number, or U+FFFD if it is no scalar value.
fn scalar(code: u32) -> char
    ensures { IsScalar code → result ≡ code }
{
    char::from_u32(code).unwrap_or('\u{fffd}')
}

// Returns whether two hexadecimal digits begin low surrogates alone.
#[tactic(auto, using(std::proofs::lemmas::Bool::Decides::nat_tests))]
fn begins_low(high: u32) -> bool
    ensures { result ≡ only_low 2 high }
{
    matches!(high, 0xdc..=0xdf)
}

// Returns whether two hexadecimal digits begin high surrogates alone.
#[tactic(auto, using(std::proofs::lemmas::Bool::Decides::nat_tests))]
fn begins_high(high: u32) -> bool
    ensures { result ≡ is_between 0xd8 0xdb high }
{
    matches!(high, 0xd8..=0xdb)
}

// Reads the character after `\u`: four hexadecimal digits, or a surrogate pair.
fn read_unicode(text: &str) -> Read<'_, char>
    ensures read { (m : ℕ) (o : Brackets) (k : List ℕ) → MatchResult result
        (λ r. outcome (in_unit m o k 3 0) text.now
        ≡ outcome (in_string m o (k ++ encode_utf8 r.0)) r.1.now)
        (λ f. outcome (in_unit m o k 3 0) text.now ≡ is_refused f.code f.left) }
    ensures within { IfOk result (λ r. length r.1.now ≤ length text.now) }
{
    let (first, rest) = read_hex(text)?;
    let (second, after) = read_hex(rest)?;
    let high = first * 16 + second;
    if begins_low(high) {
        return Err(Fault::before(QueryCode::InvalidSurrogate, rest));
    }
    let (unit, after) = read_unit(high, after)?;
    if !begins_high(high) {
        return Ok((scalar(unit), after));
    }
    let (low, after) = read_low(after)?;
    Ok((
        scalar(0x10000 + (unit % 0x400) * 0x400 + low % 0x400),
        after,
    ))
}

// Returns the character that a backslash and this one denote, between these quotation marks.
#[tactic(auto, using(std::proofs::lemmas::Bool::Decides::nat_tests), unfolding(crate::specs::TextStates::short_escape_of))]
fn short_escape(mark: char, c: char) -> Option<char>
    ensures { result ≡ escaped mark c }
{
    match c {
        'b' => Some('\u{8}'),
        'f' => Some('\u{c}'),
        'n' => Some('\n'),
        'r' => Some('\r'),
        't' => Some('\t'),
        '/' | '\\' => Some(c),
        _ if c == mark => Some(c),
        _ => None,
    }
}

// Reads the character of an escape, after its backslash.
fn read_escape(mark: char, text: &str) -> Read<'_, char>
    requires { IsMark mark }
    ensures read { (o : Brackets) (k : List ℕ) → MatchResult result
        (λ r. outcome (after_backslash mark o k) text.now
        ≡ outcome (in_string mark o (k ++ encode_utf8 r.0)) r.1.now)
        (λ f. outcome (after_backslash mark o k) text.now ≡ is_refused f.code f.left) }
    ensures within { IfOk result (λ r. length r.1.now ≤ length text.now) }
{
    match next_char(text) {
        Some((c, rest)) => {
            if c == 'u' {
                return read_unicode(rest);
            }
            match short_escape(mark, c) {
                Some(denoted) => Ok((denoted, rest)),
                None => Err(Fault::before(QueryCode::InvalidEscape, text)),
            }
        }
        None => Err(Fault::before(QueryCode::UnclosedString, text)),
    }
}

// Reads a character of a string, or `None` at the quotation mark that ends it.
fn read_string_char(mark: char, text: &str) -> Read<'_, Option<char>>
    requires { IsMark mark }
    ensures read { (o : Brackets) (k : List ℕ) → MatchResult result
        (λ r. outcome (in_string mark o k) text.now ≡ outcome (after_char mark o k r.0) r.1.now)
        (λ f. outcome (in_string mark o k) text.now ≡ is_refused f.code f.left) }
    ensures within { IfOk result (λ r. length r.1.now < length text.now) }
{
    match next_char(text) {
        Some((c, rest)) => {
            if c == '\\' {
                let (denoted, after) = read_escape(mark, rest)?;
                return Ok((Some(denoted), after));
            }
            if c == mark {
                return Ok((None, rest));
            }
            if c < ' ' {
                return Err(Fault::before(QueryCode::ControlCharacter, text));
            }
            Ok((Some(c), rest))
        }
        None => Err(Fault::before(QueryCode::UnclosedString, text)),
    }
}

/// Reads a string from the character after its first quotation mark on, `"` or `'`, to the mark
/// that ends it.
pub(crate) fn read_quoted(alloc: Global, mark: char, text: &str) -> Read<'_, String>
    requires { IsMark mark }
    ensures read { (o : Brackets) → MatchResult result
        (λ r. outcome (in_string mark o []) text.now
        ≡ outcome (after_selector (with_selector o (name_selector (string_bytes r.0)))) r.1.now)
        (λ f. Stops (in_string mark o []) text.now f) }
    ensures within { IfOk result (λ r. length r.1.now ≤ length text.now) }
{
    let mut characters = String::new(alloc);
    let mut rest = text;
    'characters: loop {
        let (next, after) = read_string_char(mark, rest)?;
        match next {
            Some(c) => characters.push(c)?,
            None => return Ok((characters, after)),
        }
        rest = after;
    }
}
