// Whether a short string has no byte that has to be escaped.
ghost use Rattle.std.specs.Prelude.{◌≡◌, ℕ, ◌+◌, ◌^◌, ◌<◌, ◌≤◌, ◌==◌, cond, length, get_or, IsTrue};
ghost use Rattle.std.specs.Int.Count.{count_trailing_zeros};
ghost use Rattle.json_scan.specs.Runs.{CountedIn, IsPlain, plain};

use std::simd::prelude::*;

// The last byte of the control characters.
const LAST_CONTROL: u8 = 31;

#[inline(always)]
pub(crate) fn is_shown_plain(byte: u8) -> bool
    ensures { IsTrue result → IsPlain byte }
{
    byte > LAST_CONTROL && byte != b'"' && byte != b'\\'
}

#[inline(always)]
fn is_zero(mask: u64) -> bool
    ensures { IsTrue result → (mask ≡ 0) }
{
    mask == 0
}

// Which of N bytes have to be escaped: a bit for each, that of the first the lowest.
#[inline(always)]
pub(crate) fn escaped_lanes<const N: usize>(bytes: &[u8], at: usize) -> u64
    requires lanes { N ≤ 64 }
    requires room { at + N ≤ length bytes.now }
    ensures plain { CountedIn IsPlain bytes.now at N
        (cond (result == 0) N (count_trailing_zeros 64 result)) }
    ensures few { result < 2 ^ N }
{
    let block = Simd::<u8, N>::from_slice(&bytes[at..]);
    let quote = block.simd_eq(Simd::splat(b'"'));
    let backslash = block.simd_eq(Simd::splat(b'\\'));
    let escaped = block.simd_le(Simd::splat(LAST_CONTROL)) | quote | backslash;
    escaped.to_bitmask()
}

// Whether none of N bytes has to be escaped.
#[inline(always)]
fn is_plain_block<const N: usize>(bytes: &[u8], at: usize) -> bool
    requires lanes { N ≤ 64 }
    requires room { at + N ≤ length bytes.now }
    ensures { IsTrue result → (k : ℕ) → at ≤ k → k < at + N → IsPlain (get_or bytes.now k 0) }
{
    is_zero(escaped_lanes::<N>(bytes, at))
}

// Whether no byte has to be escaped, of N bytes up to twice as many, by two blocks that may
// overlap.
#[inline(always)]
pub(crate) fn is_plain_by<const N: usize>(text: &[u8]) -> bool
    requires lanes { N ≤ 64 }
    requires long { N ≤ length text.now }
    requires short { length text.now ≤ N + N }
    ensures { IsTrue result → plain text.now }
{
    let front = is_plain_block::<N>(text, 0);
    let back = is_plain_block::<N>(text, text.len() - N);
    // By one branch.
    front & back
}

// Returns whether no byte has to be escaped, of few bytes, one after another.
#[inline(always)]
fn is_plain_few(text: &[u8]) -> bool
    ensures { IsTrue result → plain text.now }
{
    'each: for byte in text {
        if !is_shown_plain(*byte) {
            return false;
        }
    }
    true
}

/// Whether the text is short and no byte of it has to be escaped.
#[inline(always)]
pub(crate) fn is_plain_short(text: &[u8]) -> bool
    ensures { IsTrue result → plain text.now }
{
    match text.len() {
        4..8 => is_plain_by::<4>(text),
        8..16 => is_plain_by::<8>(text),
        16..33 => is_plain_by::<16>(text),
        0..4 => is_plain_few(text),
        _ => false,
    }
}
