// Bytes of a string as they are shown, by tables: where many have to be escaped, no branch could
// foretell which.
ghost use Rattle.std.specs.Prelude.{◌≡◌, ◌+◌, ◌++◌, ◌≤◌, length, take};
ghost use Rattle.json_model.specs.Print.{shown_byte, shown_bytes};
ghost use Rattle.json_layout.specs.Adding.{Adds};

use crate::adding::add;
use json_io::{Sink, SinkResult};
use std::simd::prelude::*;

// How many bytes are shown at once.
pub(crate) const BATCH: usize = 16;

// What a batch takes at most, six bytes each. Eight are stored of each, so the last takes two more.
const ROOM: usize = 6 * BATCH + 2;

// The six bytes of `\u` and four digits that show each control character without a letter, the
// first the lowest.
const U00: u64 = 0x3030_3030_755c;

const U01: u64 = 0x3130_3030_755c;

const U02: u64 = 0x3230_3030_755c;

const U03: u64 = 0x3330_3030_755c;

const U04: u64 = 0x3430_3030_755c;

const U05: u64 = 0x3530_3030_755c;

const U06: u64 = 0x3630_3030_755c;

const U07: u64 = 0x3730_3030_755c;

const U0B: u64 = 0x6230_3030_755c;

const U0E: u64 = 0x6530_3030_755c;

const U0F: u64 = 0x6630_3030_755c;

const U10: u64 = 0x3031_3030_755c;

const U11: u64 = 0x3131_3030_755c;

const U12: u64 = 0x3231_3030_755c;

const U13: u64 = 0x3331_3030_755c;

const U14: u64 = 0x3431_3030_755c;

const U15: u64 = 0x3531_3030_755c;

const U16: u64 = 0x3631_3030_755c;

const U17: u64 = 0x3731_3030_755c;

const U18: u64 = 0x3831_3030_755c;

const U19: u64 = 0x3931_3030_755c;

const U1A: u64 = 0x6131_3030_755c;

const U1B: u64 = 0x6231_3030_755c;

const U1C: u64 = 0x6331_3030_755c;

const U1D: u64 = 0x6431_3030_755c;

const U1E: u64 = 0x6531_3030_755c;

const U1F: u64 = 0x6631_3030_755c;

// The bytes that show each byte, the first the lowest.
static SHOWN: [u64; 256] = [
    U00, U01, U02, U03, U04, U05, U06, U07, 0x625c, 0x745c, 0x6e5c, U0B, 0x665c, 0x725c, U0E, U0F,
    U10, U11, U12, U13, U14, U15, U16, U17, U18, U19, U1A, U1B, U1C, U1D, U1E, U1F, 32, 33, 0x225c,
    35, 36, 37, 38, 39, 40, 41, 42, 43, 44, 45, 46, 47, 48, 49, 50, 51, 52, 53, 54, 55, 56, 57, 58,
    59, 60, 61, 62, 63, 64, 65, 66, 67, 68, 69, 70, 71, 72, 73, 74, 75, 76, 77, 78, 79, 80, 81, 82,
    83, 84, 85, 86, 87, 88, 89, 90, 91, 0x5c5c, 93, 94, 95, 96, 97, 98, 99, 100, 101, 102, 103,
    104, 105, 106, 107, 108, 109, 110, 111, 112, 113, 114, 115, 116, 117, 118, 119, 120, 121, 122,
    123, 124, 125, 126, 127, 128, 129, 130, 131, 132, 133, 134, 135, 136, 137, 138, 139, 140, 141,
    142, 143, 144, 145, 146, 147, 148, 149, 150, 151, 152, 153, 154, 155, 156, 157, 158, 159, 160,
    161, 162, 163, 164, 165, 166, 167, 168, 169, 170, 171, 172, 173, 174, 175, 176, 177, 178, 179,
    180, 181, 182, 183, 184, 185, 186, 187, 188, 189, 190, 191, 192, 193, 194, 195, 196, 197, 198,
    199, 200, 201, 202, 203, 204, 205, 206, 207, 208, 209, 210, 211, 212, 213, 214, 215, 216, 217,
    218, 219, 220, 221, 222, 223, 224, 225, 226, 227, 228, 229, 230, 231, 232, 233, 234, 235, 236,
    237, 238, 239, 240, 241, 242, 243, 244, 245, 246, 247, 248, 249, 250, 251, 252, 253, 254, 255,
];

// How many they are.
static LENGTHS: [u8; 256] = [
    6, 6, 6, 6, 6, 6, 6, 6, 2, 2, 2, 6, 2, 2, 6, 6, 6, 6, 6, 6, 6, 6, 6, 6, 6, 6, 6, 6, 6, 6, 6, 6,
    1, 1, 2, 1, 1, 1, 1, 1, 1, 1, 1, 1, 1, 1, 1, 1, 1, 1, 1, 1, 1, 1, 1, 1, 1, 1, 1, 1, 1, 1, 1, 1,
    1, 1, 1, 1, 1, 1, 1, 1, 1, 1, 1, 1, 1, 1, 1, 1, 1, 1, 1, 1, 1, 1, 1, 1, 1, 1, 1, 1, 2, 1, 1, 1,
    1, 1, 1, 1, 1, 1, 1, 1, 1, 1, 1, 1, 1, 1, 1, 1, 1, 1, 1, 1, 1, 1, 1, 1, 1, 1, 1, 1, 1, 1, 1, 1,
    1, 1, 1, 1, 1, 1, 1, 1, 1, 1, 1, 1, 1, 1, 1, 1, 1, 1, 1, 1, 1, 1, 1, 1, 1, 1, 1, 1, 1, 1, 1, 1,
    1, 1, 1, 1, 1, 1, 1, 1, 1, 1, 1, 1, 1, 1, 1, 1, 1, 1, 1, 1, 1, 1, 1, 1, 1, 1, 1, 1, 1, 1, 1, 1,
    1, 1, 1, 1, 1, 1, 1, 1, 1, 1, 1, 1, 1, 1, 1, 1, 1, 1, 1, 1, 1, 1, 1, 1, 1, 1, 1, 1, 1, 1, 1, 1,
    1, 1, 1, 1, 1, 1, 1, 1, 1, 1, 1, 1, 1, 1, 1, 1, 1, 1, 1, 1, 1, 1, 1, 1, 1, 1, 1, 1, 1, 1, 1, 1,
];

// Stores what shows a byte, and returns its length. What else is stored after it is overwritten.
#[inline(always)]
pub(crate) fn store_shown(room: &mut [u8], at: usize, byte: u8) -> usize
    requires { at + 8 ≤ length room.old }
    ensures few { result ≤ 6 }
    ensures stored { take (at + result) room.new ≡ take at room.old ++ shown_byte byte }
{
    let index = usize::from(byte);
    let shown = SHOWN[index].to_le_bytes();
    Simd::<u8, 8>::from_array(shown).copy_to_slice(&mut room[at..]);
    usize::from(LENGTHS[index])
}

// Stores some bytes as they are shown after the first `end`, and returns the end of that.
#[inline(always)]
pub(crate) fn store_batch(room: &mut [u8], end: usize, batch: &[u8]) -> usize
    requires few { length batch.now ≤ 16 }
    requires room { end + 98 ≤ length room.old }
    ensures within { result ≤ end + 96 }
    ensures stored { take result room.new ≡ take end room.old ++ shown_bytes batch.now }
{
    let mut at = 0;
    let mut to = end;
    'each: while at < batch.len() {
        to += store_shown(room, to, batch[at]);
        at += 1;
    }
    to
}

// A few bytes of a string, escaped where they have to be.
#[inline(never)]
pub(crate) fn add_batch<W: Sink>(writer: &mut W, batch: &[u8]) -> SinkResult
    requires { length batch.now ≤ 16 }
    ensures { Adds (W.state writer.old) (W.state writer.new) (shown_bytes batch.now) result }
{
    let mut room = [0; ROOM];
    let end = store_batch(&mut room, 0, batch);
    add(writer, &room[..end])
}
