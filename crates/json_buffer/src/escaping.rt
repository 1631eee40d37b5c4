// Strings escaped into memory that has room for them.
ghost use Rattle.std.specs.Prelude.{◌≡◌, ◌≤◌, ◌<◌, ◌+◌, ◌-◌, ◌*◌, ◌++◌, ◌∷◌, [], length, take, MatchOption};
ghost use Rattle.std.specs.Char.{digit_char};
ghost use Rattle.json_grammar.specs.Given.{piece};
ghost use Rattle.json_model.specs.Print.{shown_byte, shown_bytes, unit_escape};
ghost use Rattle.json_scan.specs.Runs.{IsPlain};

use crate::placing::{place_byte, place_piece};
use json_scan::plain_run;
use std::simd::prelude::*;

const BLOCK: usize = 16;

// How much room a string needs besides six bytes for each of its own: what precedes it, its quotes
// and a block.
pub(crate) const ESCAPED: usize = BLOCK + 3;

// The letter after the backslash of a byte's escape, where two characters do.
#[tactic(auto, using(json_layout::proofs::Escapes::control_shown), unfolding(json_model::specs::Print::shown_byte))]
fn escape_letter(byte: u8) -> Option<u8>
    requires { ¬ (IsPlain byte) }
    ensures { MatchOption result (shown_byte byte ≡ unit_escape byte)
        (λ letter. shown_byte byte ≡ 92 ∷ letter ∷ []) }
{
    match byte {
        b'"' => Some(b'"'),
        b'\\' => Some(b'\\'),
        0x08 => Some(b'b'),
        b'\t' => Some(b't'),
        b'\n' => Some(b'n'),
        0x0c => Some(b'f'),
        b'\r' => Some(b'r'),
        _ => None,
    }
}

fn hex_digit(value: u8) -> u8
    requires { value < 16 }
    ensures { result ≡ digit_char value }
{
    if value < 10 {
        b'0' + value
    } else {
        b'a' - 10 + value
    }
}

// Stores `\u` and four digits after the first `at` bytes, and returns the end of them.
#[inline(never)]
fn place_unit(buffer: &mut [u8], at: usize, byte: u8) -> usize
    requires { at + 6 ≤ length buffer.old }
    ensures within { result ≤ at + 6 }
    ensures placed { take result buffer.new ≡ take at buffer.old ++ unit_escape byte }
{
    place_piece(buffer, at, b"\\u00");
    place_byte(buffer, at + 4, hex_digit(byte / 16));
    place_byte(buffer, at + 5, hex_digit(byte % 16));
    at + 6
}

// Stores the escape of a byte after the first `at` bytes, and returns the end of it.
#[inline(always)]
fn place_escape(buffer: &mut [u8], at: usize, byte: u8) -> usize
    requires room { at + 6 ≤ length buffer.old }
    requires special { ¬ (IsPlain byte) }
    ensures within { result ≤ at + 6 }
    ensures placed { take result buffer.new ≡ take at buffer.old ++ shown_byte byte }
{
    match escape_letter(byte) {
        Some(letter) => {
            place_byte(buffer, at, b'\\');
            place_byte(buffer, at + 1, letter);
            at + 2
        }
        None => place_unit(buffer, at, byte),
    }
}

// Stores the first bytes of a block, whose others are stored over.
#[inline(always)]
fn place_of_block(buffer: &mut [u8], at: usize, text: &[u8], from: usize, to: usize)
    requires within { (from ≤ to) × (to ≤ from + 16) }
    requires block { from + 16 ≤ length text.now }
    requires room { at + 16 ≤ length buffer.old }
    ensures { take (at + (to - from)) buffer.new ≡ take at buffer.old ++ piece text.now from to }
{
    Simd::<u8, BLOCK>::from_slice(&text[from..]).copy_to_slice(&mut buffer[at..]);
}

// Stores the bytes from `from` up to `to` after the first `at`.
#[inline(always)]
fn place_run(buffer: &mut [u8], at: usize, text: &[u8], from: usize, to: usize)
    requires within { (from ≤ to) × (to ≤ length text.now) }
    requires room { at + (to - from) + 16 ≤ length buffer.old }
    ensures { take (at + (to - from)) buffer.new ≡ take at buffer.old ++ piece text.now from to }
{
    if to - from <= BLOCK && text.len() - from >= BLOCK {
        place_of_block(buffer, at, text, from, to);
    } else {
        place_piece(buffer, at, &text[from..to]);
    }
}

// Stores the bytes of a string, escaped where they have to be, after the first `at`, and returns
// the end of them.
#[inline(always)]
pub(crate) fn place_escaped(buffer: &mut [u8], at: usize, text: &[u8]) -> usize
    requires { at + 6 * length text.now + 16 ≤ length buffer.old }
    ensures within { result ≤ at + 6 * length text.now }
    ensures placed { take result buffer.new ≡ take at buffer.old ++ shown_bytes text.now }
{
    let mut end = at;
    let mut from = 0;
    'runs: loop {
        let stop = plain_run(text, from);
        place_run(buffer, end, text, from, stop);
        end += stop - from;
        if stop == text.len() {
            return end;
        }
        end = place_escape(buffer, end, text[stop]);
        from = stop + 1;
    }
}
