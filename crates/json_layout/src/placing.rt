// Short strings stored into memory that has room for them, each by one test of its bytes as they
// are copied.
ghost use Rattle.std.specs.Prelude.{◌≡◌, ◌≤◌, ◌<◌, ◌+◌, ◌++◌, ◌∷◌, [], length, take, IsTrue, IfSome};
ghost use Rattle.json_model.specs.Print.{quoted};
ghost use Rattle.json_layout.specs.Pieces.{comma};
ghost use Rattle.json_scan.specs.Runs.{plain};
ghost use Rattle.json_layout.specs.Buffered.{StoresPiece};

use crate::buffered::fill_by;
use crate::plain::{is_plain_by, is_shown_plain};

// The most bytes of a short string.
const SHORT: usize = 32;

// The most bytes that a short string takes, with the comma and the quotes around it.
pub(crate) const ITEM: usize = SHORT + 4;

// Stores a byte after the first `at`.
#[inline(always)]
pub(crate) fn place_byte(buffer: &mut [u8], at: usize, byte: u8)
    requires { at < length buffer.old }
    ensures { take (at + 1) buffer.new ≡ take at buffer.old ++ byte ∷ [] }
{
    buffer[at] = byte;
}

// Stores N bytes up to twice as many, and says whether none has to be escaped.
#[inline(always)]
fn place_by<const N: usize>(buffer: &mut [u8], at: usize, text: &[u8]) -> bool
    requires lanes { N ≤ 64 }
    requires room { at + length text.now ≤ length buffer.old }
    requires long { N ≤ length text.now }
    requires short { length text.now ≤ N + N }
    ensures plain { IsTrue result → plain text.now }
    ensures placed { StoresPiece at text.now buffer.old buffer.new }
{
    let plain = is_plain_by::<N>(text);
    fill_by::<N>(buffer, at, text);
    plain
}

// Stores one byte, and returns whether it needs no escape.
#[inline(always)]
fn place_one(buffer: &mut [u8], at: usize, text: &[u8]) -> bool
    requires room { at < length buffer.old }
    requires one { length text.now ≡ 1 }
    ensures plain { IsTrue result → plain text.now }
    ensures placed { StoresPiece at text.now buffer.old buffer.new }
{
    place_byte(buffer, at, text[0]);
    is_shown_plain(text[0])
}

// Stores a short text, and says whether it is one of which no byte has to be escaped.
#[inline(always)]
pub(crate) fn place_text(buffer: &mut [u8], at: usize, text: &[u8]) -> bool
    requires { at + 32 ≤ length buffer.old }
    ensures plain { IsTrue result → plain text.now }
    ensures short { IsTrue result → length text.now ≤ 32 }
    ensures kept { take at buffer.new ≡ take at buffer.old }
    ensures placed { IsTrue result → StoresPiece at text.now buffer.old buffer.new }
{
    match text.len() {
        4..8 => place_by::<4>(buffer, at, text),
        8..16 => place_by::<8>(buffer, at, text),
        2..4 => place_by::<2>(buffer, at, text),
        16..33 => place_by::<16>(buffer, at, text),
        1 => place_one(buffer, at, text),
        0 => true,
        _ => false,
    }
}

// Stores a comma after the first `end` bytes, unless it is the first, and a quote. Returns the end
// of these.
#[inline(always)]
pub(crate) fn place_lead(buffer: &mut [u8], end: usize, first: bool) -> usize
    requires { end + 2 ≤ length buffer.old }
    ensures within { (end < result) × (result ≤ end + 2) }
    ensures placed { take result buffer.new ≡ take end buffer.old ++ (comma first ++ 34 ∷ []) }
{
    place_byte(buffer, end, b',');
    // By no branch.
    let at = end + usize::from(!first);
    place_byte(buffer, at, b'"');
    at + 1
}

// Stores a short string between quotes after the first `end` bytes, and a comma before it unless it
// is the first. Returns the end of it, or `None` if it is not short or has to be escaped.
#[inline(always)]
pub(crate) fn place_item(buffer: &mut [u8], end: usize, first: bool, text: &[u8]) -> Option<usize>
    requires { end + 36 ≤ length buffer.old }
    ensures within { IfSome result (λ now. now < end + 36) }
    ensures kept { take end buffer.new ≡ take end buffer.old }
    ensures placed { IfSome result (λ now. take now buffer.new
        ≡ take end buffer.old ++ (comma first ++ quoted text.now)) }
{
    let at = place_lead(buffer, end, first);
    if !place_text(buffer, at, text) {
        return None;
    }
    let close = at + text.len();
    place_byte(buffer, close, b'"');
    Some(close + 1)
}

// Does what `place_item` does for a key, with a colon after it.
#[inline(always)]
pub(crate) fn place_key(buffer: &mut [u8], end: usize, first: bool, key: &[u8]) -> Option<usize>
    requires { end + 36 ≤ length buffer.old }
    ensures within { IfSome result (λ now. now ≤ end + 36) }
    ensures kept { take end buffer.new ≡ take end buffer.old }
    ensures placed { IfSome result (λ now. take now buffer.new
        ≡ take end buffer.old ++ (comma first ++ (quoted key.now ++ 58 ∷ []))) }
{
    match place_item(buffer, end, first, key) {
        Some(at) => {
            place_byte(buffer, at, b':');
            Some(at + 1)
        }
        None => None,
    }
}
