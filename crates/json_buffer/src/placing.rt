// Short pieces of a text stored into memory that has room for them.
ghost use Rattle.std.specs.Prelude.{◌≡◌, ℕ, ◌≤◌, ◌<◌, ◌+◌, ◌++◌, ◌∷◌, [], length, take, get_or, IsTrue, IfSome};
ghost use Rattle.std.specs.Fmt.{decimal};
ghost use Rattle.json_model.specs.Print.{quoted};
ghost use Rattle.json_scan.specs.Runs.{IsPlain, plain};
ghost use Rattle.json_buffer.specs.Leads.{lead_bytes};
ghost use Rattle.json_layout.specs.Buffered.{StoresPiece};

use crate::lead::Lead;
use itoa::write_digits;
use std::simd::prelude::*;

// The most bytes of a short string.
const SHORT: usize = 32;

// What a short string takes at most, with the byte before it and its quotes.
pub(crate) const ITEM: usize = SHORT + 3;

// The last byte of the control characters.
const LAST_CONTROL: u8 = 31;

#[inline(always)]
fn is_none(mask: u64) -> bool
    ensures { IsTrue result → (mask ≡ 0) }
{
    mask == 0
}

// Whether none of N bytes has to be escaped.
#[inline(always)]
fn is_plain_block<const N: usize>(bytes: &[u8], at: usize) -> bool
    requires lanes { N ≤ 64 }
    requires room { at + N ≤ length bytes.now }
    ensures { IsTrue result → (k : ℕ) → at ≤ k → k < at + N → IsPlain (get_or bytes.now k 0) }
{
    let block = Simd::<u8, N>::from_slice(&bytes[at..]);
    let quote = block.simd_eq(Simd::splat(b'"'));
    let backslash = block.simd_eq(Simd::splat(b'\\'));
    let stops = block.simd_le(Simd::splat(LAST_CONTROL)) | quote | backslash;
    is_none(stops.to_bitmask())
}

// Stores a byte after the first `at`.
#[inline(always)]
pub(crate) fn place_byte(buffer: &mut [u8], at: usize, byte: u8)
    requires { at < length buffer.old }
    ensures { take (at + 1) buffer.new ≡ take at buffer.old ++ byte ∷ [] }
{
    buffer[at] = byte;
}

// Stores N bytes up to twice as many by two blocks that may overlap, and returns whether none has
// to be escaped.
#[inline(always)]
fn place_by<const N: usize>(buffer: &mut [u8], at: usize, text: &[u8]) -> bool
    requires lanes { N ≤ 64 }
    requires room { at + length text.now ≤ length buffer.old }
    requires long { N ≤ length text.now }
    requires short { length text.now ≤ N + N }
    ensures plain { IsTrue result → plain text.now }
    ensures placed { StoresPiece at text.now buffer.old buffer.new }
{
    let back = text.len() - N;
    let first_plain = is_plain_block::<N>(text, 0);
    let last_plain = is_plain_block::<N>(text, back);
    Simd::<u8, N>::from_slice(text).copy_to_slice(&mut buffer[at..]);
    Simd::<u8, N>::from_slice(&text[back..]).copy_to_slice(&mut buffer[at + back..]);
    // By one branch.
    first_plain & last_plain
}

// Stores one byte, and returns whether it needs no escape.
#[inline(always)]
fn place_one(buffer: &mut [u8], at: usize, text: &[u8]) -> bool
    requires room { at < length buffer.old }
    requires one { length text.now ≡ 1 }
    ensures plain { IsTrue result → plain text.now }
    ensures placed { StoresPiece at text.now buffer.old buffer.new }
{
    place_byte(buffer, at, text[0]);
    text[0] > LAST_CONTROL && text[0] != b'"' && text[0] != b'\\'
}

// Stores a text, and returns whether it is short and no byte of it has to be escaped.
#[inline(always)]
fn place_text(buffer: &mut [u8], at: usize, text: &[u8]) -> bool
    requires { at + 32 ≤ length buffer.old }
    ensures plain { IsTrue result → plain text.now }
    ensures short { IsTrue result → length text.now ≤ 32 }
    ensures kept { take at buffer.new ≡ take at buffer.old }
    ensures placed { IsTrue result → StoresPiece at text.now buffer.old buffer.new }
{
    match text.len() {
        4..8 => place_by::<4>(buffer, at, text),
        8..16 => place_by::<8>(buffer, at, text),
        2..4 => place_by::<2>(buffer, at, text),
        16..33 => place_by::<16>(buffer, at, text),
        1 => place_one(buffer, at, text),
        0 => true,
        _ => false,
    }
}

// Stores what precedes a value or a key after the first `end` bytes, and returns the end of it.
#[inline(always)]
pub(crate) fn place_lead(buffer: &mut [u8], end: usize, lead: Lead) -> usize
    requires { end < length buffer.old }
    ensures within { (end ≤ result) × (result ≤ end + 1) }
    ensures placed { take result buffer.new ≡ take end buffer.old ++ lead_bytes lead }
{
    // By no branch.
    place_byte(buffer, end, lead.byte());
    end + lead.len()
}

// Stores a short string between quotes, and what precedes it, after the first `end` bytes. Returns
// the end of it, or `None` where it is not short or has to be escaped.
#[inline(always)]
pub(crate) fn place_item(buffer: &mut [u8], end: usize, lead: Lead, text: &[u8]) -> Option<usize>
    requires { end + 35 ≤ length buffer.old }
    ensures within { IfSome result (λ now. now ≤ end + 35) }
    ensures kept { take end buffer.new ≡ take end buffer.old }
    ensures placed { IfSome result (λ now. take now buffer.new
        ≡ take end buffer.old ++ (lead_bytes lead ++ quoted text.now)) }
{
    let quote = place_lead(buffer, end, lead);
    place_byte(buffer, quote, b'"');
    if !place_text(buffer, quote + 1, text) {
        return None;
    }
    let close = quote + 1 + text.len();
    place_byte(buffer, close, b'"');
    Some(close + 1)
}

// Stores a piece as it is after the first `at` bytes.
#[inline(always)]
pub(crate) fn place_piece(buffer: &mut [u8], at: usize, piece: &[u8])
    requires { at + length piece.now ≤ length buffer.old }
    ensures { StoresPiece at piece.now buffer.old buffer.new }
{
    buffer[at..at + piece.len()].copy_from_slice(piece);
}

// How many digits a number below 10,000 has.
#[inline(always)]
fn few_digit_count(number: u64) -> usize
    requires { number < 10000 }
    ensures { result ≡ length (decimal number) }
{
    if number < 10 {
        1
    } else if number < 100 {
        2
    } else if number < 1000 {
        3
    } else {
        4
    }
}

// How many digits a number has.
#[inline(always)]
fn digit_count(number: u64) -> usize
    ensures count { result ≡ length (decimal number) }
    ensures few { result ≤ 20 }
{
    let mut left = number;
    let mut count = 0;
    'fours: while left >= 10_000 {
        left /= 10_000;
        count += 4;
    }
    count + few_digit_count(left)
}

// Stores the digits of a number after the first `at` bytes, and returns the end of them.
#[inline(never)]
pub(crate) fn place_digits(buffer: &mut [u8], at: usize, number: u64) -> usize
    requires { at + 20 ≤ length buffer.old }
    ensures within { result ≤ at + 20 }
    ensures placed { take result buffer.new ≡ take at buffer.old ++ decimal number }
{
    let end = at + digit_count(number);
    write_digits(number, buffer, end);
    end
}
