// Runs of bytes of one kind.
ghost use Rattle.std.specs.Prelude.{◌+◌, ◌<◌, ◌≤◌, ◌↔◌, length, get_or, IsTrue, IfSome};
ghost use Rattle.json_grammar.specs.Grammar.{IsWhitespace, ws, IsDigit, digits};
ghost use Rattle.json_scan.specs.Runs.{IsPlain, plain, ByteAt, EndsAt, RunEndsAt};

use crate::lanes::{
    BLOCK, HALF, QUARTER, digits_in_block, plain_in_block, plain_in_half, plain_in_quarter,
    space_in_block,
};

#[inline(always)]
fn is_whitespace(byte: u8) -> bool
    ensures { IsTrue result ↔ IsWhitespace byte }
{
    byte == b' ' || byte == b'\t' || byte == b'\n' || byte == b'\r'
}

#[inline(always)]
fn is_plain(byte: u8) -> bool
    ensures { IsTrue result ↔ IsPlain byte }
{
    byte >= 32 && byte != b'"' && byte != b'\\'
}

#[inline(always)]
fn is_digit(byte: u8) -> bool
    ensures { IsTrue result ↔ IsDigit byte }
{
    byte >= b'0' && byte <= b'9'
}

// The end of a run of whitespace, one byte after another.
fn ws_end_of_few(bytes: &[u8], from: usize) -> usize
    requires { from ≤ length bytes.now }
    ensures { EndsAt IsWhitespace bytes.now from result }
{
    let mut at = from;
    while at < bytes.len() && is_whitespace(bytes[at]) {
        at += 1;
    }
    at
}

// The end of a run of whitespace.
fn ws_end_by_blocks(bytes: &[u8], from: usize) -> usize
    requires { from ≤ length bytes.now }
    ensures { EndsAt IsWhitespace bytes.now from result }
{
    let mut at = from;
    'scan: while bytes.len() - at >= BLOCK {
        let count = space_in_block(bytes, at);
        if count < BLOCK {
            return at + count;
        }
        at += BLOCK;
    }
    ws_end_of_few(bytes, at)
}

/// Returns the first offset from `from` on whose byte is no whitespace (RFC 8259, section 2), or
/// the length.
#[inline(never)]
pub fn ws_run(bytes: &[u8], from: usize) -> usize
    requires { from ≤ length bytes.now }
    ensures ends { RunEndsAt IsWhitespace ws bytes.now from result }
{
    ws_end_by_blocks(bytes, from)
}

/// Returns what `ws_run` returns, by the test of one byte if there is no whitespace, and of two if
/// there is one space.
#[inline(always)]
pub fn ws_end(bytes: &[u8], from: usize) -> usize
    requires { from ≤ length bytes.now }
    ensures ends { RunEndsAt IsWhitespace ws bytes.now from result }
{
    if from == bytes.len() || bytes[from] > b' ' {
        return from;
    }
    if from + 1 < bytes.len() && bytes[from] == b' ' && bytes[from + 1] > b' ' {
        return from + 1;
    }
    ws_run(bytes, from)
}

// The end of a run of plain bytes, one byte after another.
fn plain_end_of_few(bytes: &[u8], from: usize) -> usize
    requires { from ≤ length bytes.now }
    ensures { EndsAt IsPlain bytes.now from result }
{
    let mut at = from;
    while at < bytes.len() && is_plain(bytes[at]) {
        at += 1;
    }
    at
}

// The end of a run of plain bytes, by four and then one byte after another.
#[inline(always)]
fn plain_end_by_quarter(bytes: &[u8], from: usize) -> usize
    requires { from ≤ length bytes.now }
    ensures { EndsAt IsPlain bytes.now from result }
{
    if bytes.len() - from < QUARTER {
        return plain_end_of_few(bytes, from);
    }
    let count = plain_in_quarter(bytes, from);
    if count < QUARTER {
        return from + count;
    }
    plain_end_of_few(bytes, from + QUARTER)
}

// The end of a run of plain bytes, by eight, four and one.
#[inline(always)]
fn plain_end_by_half(bytes: &[u8], from: usize) -> usize
    requires { from ≤ length bytes.now }
    ensures { EndsAt IsPlain bytes.now from result }
{
    if bytes.len() - from < HALF {
        return plain_end_by_quarter(bytes, from);
    }
    let count = plain_in_half(bytes, from);
    if count < HALF {
        return from + count;
    }
    plain_end_by_quarter(bytes, from + HALF)
}

// The end of a run of plain bytes, by blocks and then by less.
#[inline(never)]
fn plain_end_by_blocks(bytes: &[u8], from: usize) -> usize
    requires { from ≤ length bytes.now }
    ensures { EndsAt IsPlain bytes.now from result }
{
    let mut at = from;
    'scan: while bytes.len() - at >= BLOCK {
        let count = plain_in_block(bytes, at);
        if count < BLOCK {
            return at + count;
        }
        at += BLOCK;
    }
    plain_end_by_half(bytes, at)
}

// The end of a run of plain bytes, by the test of one block where it is short.
#[inline(always)]
fn plain_end(bytes: &[u8], from: usize) -> usize
    requires { from ≤ length bytes.now }
    ensures { EndsAt IsPlain bytes.now from result }
{
    if bytes.len() - from < BLOCK {
        return plain_end_by_blocks(bytes, from);
    }
    let count = plain_in_block(bytes, from);
    if count < BLOCK {
        return from + count;
    }
    plain_end_by_blocks(bytes, from + BLOCK)
}

/// Returns the first offset from `from` on whose byte does not denote itself in a string (section
/// 7), or the length: a byte below 20 (hexadecimal), a quote or a backslash.
#[inline(always)]
pub fn plain_run(bytes: &[u8], from: usize) -> usize
    requires { from ≤ length bytes.now }
    ensures ends { RunEndsAt IsPlain plain bytes.now from result }
{
    plain_end(bytes, from)
}

// The end of a run of digits, one byte after another.
#[inline(always)]
fn digits_end_of_few(bytes: &[u8], from: usize) -> usize
    requires { from ≤ length bytes.now }
    ensures { EndsAt IsDigit bytes.now from result }
{
    let mut at = from;
    while at < bytes.len() && is_digit(bytes[at]) {
        at += 1;
    }
    at
}

// The end of a run of digits, by blocks and then one byte after another.
#[inline(never)]
fn digits_end_by_blocks(bytes: &[u8], from: usize) -> usize
    requires { from ≤ length bytes.now }
    ensures { EndsAt IsDigit bytes.now from result }
{
    let mut at = from;
    'scan: while bytes.len() - at >= BLOCK {
        let count = digits_in_block(bytes, at);
        if count < BLOCK {
            return at + count;
        }
        at += BLOCK;
    }
    digits_end_of_few(bytes, at)
}

// The end of a run of digits, by the test of one block where it is short.
#[inline(always)]
fn digits_end(bytes: &[u8], from: usize) -> usize
    requires { from ≤ length bytes.now }
    ensures { EndsAt IsDigit bytes.now from result }
{
    if bytes.len() - from < BLOCK {
        return digits_end_by_blocks(bytes, from);
    }
    let count = digits_in_block(bytes, from);
    if count < BLOCK {
        return from + count;
    }
    digits_end_by_blocks(bytes, from + BLOCK)
}

/// Returns the first offset from `from` on whose byte is no digit 0 to 9, or the length.
#[inline(always)]
pub fn digit_run(bytes: &[u8], from: usize) -> usize
    requires { from ≤ length bytes.now }
    ensures ends { RunEndsAt IsDigit digits bytes.now from result }
{
    digits_end(bytes, from)
}

/// Returns what `digit_run` returns, by one block of 16 bytes, which may go beyond the digits:
/// `None` where all of them are digits.
#[inline(always)]
pub fn short_digit_run(bytes: &[u8], from: usize) -> Option<usize>
    requires { from + 16 ≤ length bytes.now }
    ensures ends { IfSome result (λ e. RunEndsAt IsDigit digits bytes.now from e) }
    ensures few { IfSome result (λ e. e < from + 16) }
{
    let count = digits_in_block(bytes, from);
    if count < BLOCK {
        Some(from + count)
    } else {
        None
    }
}

/// Returns what `digit_run` returns, one byte after another: for the few digits of an integer.
#[inline(always)]
pub fn few_digits_run(bytes: &[u8], from: usize) -> usize
    requires { from ≤ length bytes.now }
    ensures ends { RunEndsAt IsDigit digits bytes.now from result }
{
    digits_end_of_few(bytes, from)
}

/// Returns whether this byte is there.
#[inline(always)]
pub fn byte_is(bytes: &[u8], at: usize, x: u8) -> bool
    ensures { IsTrue result ↔ ByteAt bytes.now at x }
{
    at < bytes.len() && bytes[at] == x
}

/// Returns whether there is a digit.
#[inline(always)]
pub fn digit_is(bytes: &[u8], at: usize) -> bool
    ensures { IsTrue result ↔ ((at < length bytes.now) × IsDigit (get_or bytes.now at 0)) }
{
    at < bytes.len() && is_digit(bytes[at])
}
