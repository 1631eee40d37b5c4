// Strings stored into memory that has room for them, 16 bytes at once:
// a block is tested as it is copied.
ghost use Rattle.std.specs.Prelude.{◌≡◌, ◌≤◌, ◌<◌, ◌+◌, ◌++◌, length, take, drop};
ghost use Rattle.json_grammar.specs.Given.{piece};
ghost use Rattle.json_model.specs.Print.{shown_bytes};

use crate::placing::place_text;
use crate::plain::escaped_lanes;
use crate::shown::{BATCH, store_batch, store_shown};
use std::simd::prelude::*;

// The room that a block is given: what it takes at most, and what else is stored with it.
pub(crate) const BLOCK_ROOM: usize = 112;

// How much of a string is stored.
#[derive(Clone, Copy)]
pub(crate) struct Stored {
    // The end of what is stored.
    pub(crate) end: usize,
    // The offset of the next byte of the string.
    pub(crate) next: usize,
}

// Copies a block to the position after the first `end` bytes.
#[inline(always)]
fn store_block(room: &mut [u8], end: usize, text: &[u8], at: usize)
    requires room { end + 16 ≤ length room.old }
    requires block { at + 16 ≤ length text.now }
    ensures { take (end + 16) room.new ≡ take end room.old ++ take 16 (drop at text.now) }
{
    u8x16::from_slice(&text[at..]).copy_to_slice(&mut room[end..]);
}

// Stores a block of a string up to its first byte that has to be escaped, and that byte; the whole
// block where none or several have to be.
#[inline(always)]
fn store_next(room: &mut [u8], end: usize, text: &[u8], at: usize) -> Stored
    requires room { end + 98 ≤ length room.old }
    requires block { at + 16 ≤ length text.now }
    ensures next { (at < result.next) × (result.next ≤ at + 16) }
    ensures within { result.end ≤ end + 96 }
    ensures stored { take result.end room.new
        ≡ take end room.old ++ shown_bytes (piece text.now at result.next) }
{
    let escaped = escaped_lanes::<BATCH>(text, at);
    store_block(room, end, text, at);
    if escaped == 0 {
        return Stored {
            end: end + BATCH,
            next: at + BATCH,
        };
    }
    if escaped & (escaped - 1) == 0 {
        let plain = escaped.trailing_zeros() as usize;
        let few = store_shown(room, end + plain, text[at + plain]);
        return Stored {
            end: end + plain + few,
            next: at + plain + 1,
        };
    }
    // No branch could predict which.
    Stored {
        end: store_batch(room, end, &text[at..at + BATCH]),
        next: at + BATCH,
    }
}

// Stores a string from `at` on after the first `end` bytes, block by block, as long as there is
// room.
#[inline(always)]
pub(crate) fn store_blocks(room: &mut [u8], end: usize, text: &[u8], at: usize) -> Stored
    requires start { at ≤ length text.now }
    requires room { end + 112 ≤ length room.old }
    ensures next { (at ≤ result.next) × (result.next ≤ length text.now) }
    ensures within { result.end ≤ length room.old }
    ensures more { at + 16 ≤ length text.now → at < result.next }
    ensures stored { take result.end room.new
        ≡ take end room.old ++ shown_bytes (piece text.now at result.next) }
{
    let mut to = end;
    let mut next = at;
    'fill: while text.len() - next >= BATCH && room.len() - to >= BLOCK_ROOM {
        let stored = store_next(room, to, text, next);
        to = stored.end;
        next = stored.next;
    }
    Stored { end: to, next }
}

// Stores the last few bytes of a string after the first `end`, and returns the end of that.
#[inline(always)]
pub(crate) fn store_last(room: &mut [u8], end: usize, text: &[u8]) -> usize
    requires few { length text.now ≤ 16 }
    requires room { end + 98 ≤ length room.old }
    ensures within { result ≤ end + 96 }
    ensures stored { take result room.new ≡ take end room.old ++ shown_bytes text.now }
{
    if place_text(room, end, text) {
        return end + text.len();
    }
    store_batch(room, end, text)
}
