// How many bytes of one block are of a class, before the first that is not.
ghost use Rattle.std.specs.Prelude.{◌≡◌, ◌+◌, ◌≤◌, length, cond, ◌==◌};
ghost use Rattle.std.specs.Int.Count.{count_trailing_zeros};
ghost use Rattle.json_grammar.specs.Grammar.{IsWhitespace, IsDigit};
ghost use Rattle.json_scan.specs.Runs.{IsPlain, CountedIn};

use std::simd::prelude::*;

/// The bytes of a block.
pub const BLOCK: usize = 16;

pub(crate) const HALF: usize = 8;

pub(crate) const QUARTER: usize = 4;

// The place of the lowest bit, or the number of lanes.
#[inline(always)]
fn lowest(mask: u64, lanes: usize) -> usize
    ensures { result ≡ cond (mask == 0) lanes (count_trailing_zeros 64 mask) }
{
    if mask == 0 {
        lanes
    } else {
        mask.trailing_zeros() as usize
    }
}

#[inline(always)]
pub(crate) fn plain_in_block(bytes: &[u8], at: usize) -> usize
    requires { at + 16 ≤ length bytes.now }
    ensures { CountedIn IsPlain bytes.now at 16 result }
{
    let block = u8x16::from_slice(&bytes[at..]);
    let quote = block.simd_eq(u8x16::splat(b'"'));
    let backslash = block.simd_eq(u8x16::splat(b'\\'));
    let stops = block.simd_lt(u8x16::splat(32)) | quote | backslash;
    lowest(stops.to_bitmask(), BLOCK)
}

#[inline(always)]
pub(crate) fn plain_in_half(bytes: &[u8], at: usize) -> usize
    requires { at + 8 ≤ length bytes.now }
    ensures { CountedIn IsPlain bytes.now at 8 result }
{
    let block = u8x8::from_slice(&bytes[at..]);
    let quote = block.simd_eq(u8x8::splat(b'"'));
    let backslash = block.simd_eq(u8x8::splat(b'\\'));
    let stops = block.simd_lt(u8x8::splat(32)) | quote | backslash;
    lowest(stops.to_bitmask(), HALF)
}

#[inline(always)]
pub(crate) fn plain_in_quarter(bytes: &[u8], at: usize) -> usize
    requires { at + 4 ≤ length bytes.now }
    ensures { CountedIn IsPlain bytes.now at 4 result }
{
    let block = u8x4::from_slice(&bytes[at..]);
    let quote = block.simd_eq(u8x4::splat(b'"'));
    let backslash = block.simd_eq(u8x4::splat(b'\\'));
    let stops = block.simd_lt(u8x4::splat(32)) | quote | backslash;
    lowest(stops.to_bitmask(), QUARTER)
}

#[inline(always)]
pub(crate) fn space_in_block(bytes: &[u8], at: usize) -> usize
    requires { at + 16 ≤ length bytes.now }
    ensures { CountedIn IsWhitespace bytes.now at 16 result }
{
    let block = u8x16::from_slice(&bytes[at..]);
    let no_space = block.simd_ne(u8x16::splat(b' '));
    let no_newline = block.simd_ne(u8x16::splat(b'\n'));
    let no_tab = block.simd_ne(u8x16::splat(b'\t'));
    let no_return = block.simd_ne(u8x16::splat(b'\r'));
    let stops = no_space & no_newline & no_tab & no_return;
    lowest(stops.to_bitmask(), BLOCK)
}

/// Returns how many of the 16 bytes from `at` on are digits, before the first that is none.
#[inline(always)]
pub fn digits_in_block(bytes: &[u8], at: usize) -> usize
    requires { at + 16 ≤ length bytes.now }
    ensures { CountedIn IsDigit bytes.now at 16 result }
{
    let block = u8x16::from_slice(&bytes[at..]);
    let stops = (block - u8x16::splat(b'0')).simd_ge(u8x16::splat(10));
    lowest(stops.to_bitmask(), BLOCK)
}
