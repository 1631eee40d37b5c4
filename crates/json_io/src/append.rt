// Bytes appended where there is room for them. std's append of a slice does not say that the
// capacity stays.
ghost use Rattle.std.specs.Prelude.{◌≡◌, ◌+◌, ◌-◌, ◌≤◌, ◌++◌, length, slice_range, vec_len, vec_capacity};

use std::mem;

/// The bytes of a block.
const BLOCK: usize = 16;

/// The bytes of two blocks.
const PAIR: usize = 32;

/// Appends four of the bytes, for which there is room.
#[inline(always)]
fn append_four(out: &mut Vec<u8>, bytes: &[u8], at: usize)
    requires within { at + 4 ≤ length bytes.now }
    requires room { vec_len out.old + 4 ≤ vec_capacity out.old }
    ensures items { out.new.items ≡ out.old.items ++ slice_range bytes.now at (at + 4) }
    ensures len { vec_len out.new ≡ vec_len out.old + 4 }
    ensures capacity { vec_capacity out.new ≡ vec_capacity out.old }
{
    let first = bytes[at];
    let second = bytes[at + 1];
    let third = bytes[at + 2];
    let fourth = bytes[at + 3];
    out.push_reserved(first);
    out.push_reserved(second);
    out.push_reserved(third);
    out.push_reserved(fourth);
}

/// Appends eight of the bytes, for which there is room.
#[inline(always)]
fn append_eight(out: &mut Vec<u8>, bytes: &[u8], at: usize)
    requires within { at + 8 ≤ length bytes.now }
    requires room { vec_len out.old + 8 ≤ vec_capacity out.old }
    ensures items { out.new.items ≡ out.old.items ++ slice_range bytes.now at (at + 8) }
    ensures len { vec_len out.new ≡ vec_len out.old + 8 }
    ensures capacity { vec_capacity out.new ≡ vec_capacity out.old }
{
    let first = bytes[at];
    let second = bytes[at + 1];
    let third = bytes[at + 2];
    let fourth = bytes[at + 3];
    let fifth = bytes[at + 4];
    let sixth = bytes[at + 5];
    let seventh = bytes[at + 6];
    let eighth = bytes[at + 7];
    out.push_reserved(first);
    out.push_reserved(second);
    out.push_reserved(third);
    out.push_reserved(fourth);
    out.push_reserved(fifth);
    out.push_reserved(sixth);
    out.push_reserved(seventh);
    out.push_reserved(eighth);
}

/// Appends sixteen of the bytes, for which there is room.
#[inline(always)]
fn append_sixteen(out: &mut Vec<u8>, bytes: &[u8], at: usize)
    requires within { at + 16 ≤ length bytes.now }
    requires room { vec_len out.old + 16 ≤ vec_capacity out.old }
    ensures items { out.new.items ≡ out.old.items ++ slice_range bytes.now at (at + 16) }
    ensures len { vec_len out.new ≡ vec_len out.old + 16 }
    ensures capacity { vec_capacity out.new ≡ vec_capacity out.old }
{
    append_eight(out, bytes, at);
    append_eight(out, bytes, at + 8);
}

/// Appends the first of sixteen bytes, where there is room for all.
#[inline(always)]
pub fn append_of_block(out: &mut Vec<u8>, bytes: &[u8], at: usize, count: usize)
    requires within { at + 16 ≤ length bytes.now }
    requires few { count ≤ 16 }
    requires room { vec_len out.old + 16 ≤ vec_capacity out.old }
    ensures items { out.new.items ≡ out.old.items ++ slice_range bytes.now at (at + count) }
    ensures len { vec_len out.new ≡ vec_len out.old + count }
    ensures capacity { vec_capacity out.new ≡ vec_capacity out.old }
{
    let len = out.len();
    append_sixteen(out, bytes, at);
    out.truncate(len + count);
}

/// Appends 32 of the bytes, for which there is room.
#[inline(always)]
fn append_pair(out: &mut Vec<u8>, bytes: &[u8], at: usize)
    requires within { at + 32 ≤ length bytes.now }
    requires room { vec_len out.old + 32 ≤ vec_capacity out.old }
    ensures items { out.new.items ≡ out.old.items ++ slice_range bytes.now at (at + 32) }
    ensures len { vec_len out.new ≡ vec_len out.old + 32 }
    ensures capacity { vec_capacity out.new ≡ vec_capacity out.old }
{
    append_sixteen(out, bytes, at);
    append_sixteen(out, bytes, at + 16);
}

/// Appends the first of 32 bytes, where there is room for all.
#[inline(always)]
fn append_of_pair(out: &mut Vec<u8>, bytes: &[u8], at: usize, count: usize)
    requires within { at + 32 ≤ length bytes.now }
    requires few { count ≤ 32 }
    requires room { vec_len out.old + 32 ≤ vec_capacity out.old }
    ensures items { out.new.items ≡ out.old.items ++ slice_range bytes.now at (at + count) }
    ensures len { vec_len out.new ≡ vec_len out.old + count }
    ensures capacity { vec_capacity out.new ≡ vec_capacity out.old }
{
    let before = out.len();
    append_pair(out, bytes, at);
    out.truncate(before + count);
}

/// Appends bytes one after another, for which there is room.
#[inline(always)]
pub fn append_few(out: &mut Vec<u8>, bytes: &[u8])
    requires { vec_len out.old + length bytes.now ≤ vec_capacity out.old }
    ensures items { out.new.items ≡ out.old.items ++ bytes.now }
    ensures len { vec_len out.new ≡ vec_len out.old + length bytes.now }
    ensures capacity { vec_capacity out.new ≡ vec_capacity out.old }
{
    for &byte in bytes {
        out.push_reserved(byte);
    }
}

/// Appends four to 8 bytes by two blocks that may overlap: what the last one brings again is taken
/// back first.
#[inline(always)]
fn append_by_four(out: &mut Vec<u8>, bytes: &[u8])
    requires long { 4 ≤ length bytes.now }
    requires short { length bytes.now ≤ 8 }
    requires room { vec_len out.old + length bytes.now ≤ vec_capacity out.old }
    ensures items { out.new.items ≡ out.old.items ++ bytes.now }
    ensures len { vec_len out.new ≡ vec_len out.old + length bytes.now }
    ensures capacity { vec_capacity out.new ≡ vec_capacity out.old }
{
    let back = bytes.len() - 4;
    let end = out.len() + back;
    append_four(out, bytes, 0);
    out.truncate(end);
    append_four(out, bytes, back);
}

/// Appends eight to 16 bytes by two blocks that may overlap: what the last one brings again is
/// taken back first.
#[inline(always)]
fn append_by_eight(out: &mut Vec<u8>, bytes: &[u8])
    requires long { 8 ≤ length bytes.now }
    requires short { length bytes.now ≤ 16 }
    requires room { vec_len out.old + length bytes.now ≤ vec_capacity out.old }
    ensures items { out.new.items ≡ out.old.items ++ bytes.now }
    ensures len { vec_len out.new ≡ vec_len out.old + length bytes.now }
    ensures capacity { vec_capacity out.new ≡ vec_capacity out.old }
{
    let back = bytes.len() - 8;
    let end = out.len() + back;
    append_eight(out, bytes, 0);
    out.truncate(end);
    append_eight(out, bytes, back);
}

/// Appends sixteen to 32 bytes by two blocks that may overlap: what the last one brings again is
/// taken back first.
#[inline(always)]
fn append_by_sixteen(out: &mut Vec<u8>, bytes: &[u8])
    requires long { 16 ≤ length bytes.now }
    requires short { length bytes.now ≤ 32 }
    requires room { vec_len out.old + length bytes.now ≤ vec_capacity out.old }
    ensures items { out.new.items ≡ out.old.items ++ bytes.now }
    ensures len { vec_len out.new ≡ vec_len out.old + length bytes.now }
    ensures capacity { vec_capacity out.new ≡ vec_capacity out.old }
{
    let back = bytes.len() - 16;
    let end = out.len() + back;
    append_sixteen(out, bytes, 0);
    out.truncate(end);
    append_sixteen(out, bytes, back);
}

/// The vector with 16 bytes or more appended by blocks, the last of them up to the end: what it
/// brings again is taken back first.
#[inline(never)]
fn extended_long(mut out: Vec<u8>, bytes: &[u8]) -> Vec<u8>
    requires long { 16 ≤ length bytes.now }
    requires room { vec_len out + length bytes.now ≤ vec_capacity out }
    ensures items { result.items ≡ out.items ++ bytes.now }
    ensures len { vec_len result ≡ vec_len out + length bytes.now }
    ensures capacity { vec_capacity result ≡ vec_capacity out }
{
    let back = bytes.len() - 16;
    let end = out.len() + back;
    let mut at = 0;
    'rest: while at < back {
        append_sixteen(&mut out, bytes, at);
        at += 16;
    }
    out.truncate(end);
    append_sixteen(&mut out, bytes, back);
    out
}

/// Moves the vector out and leaves an empty one without room, until the caller puts it back. Held
/// by value, its pointer is not read again at each byte.
#[inline(always)]
pub fn take_vec(out: &mut Vec<u8>) -> Vec<u8>
    ensures { result ≡ out.old }
{
    let alloc = *out.allocator();
    mem::replace(out, Vec::new(alloc))
}

/// Appends bytes to a vector that the caller holds by value.
#[inline(always)]
pub fn extend_local(out: &mut Vec<u8>, bytes: &[u8])
    requires { vec_len out.old + length bytes.now ≤ vec_capacity out.old }
    ensures items { out.new.items ≡ out.old.items ++ bytes.now }
    ensures len { vec_len out.new ≡ vec_len out.old + length bytes.now }
    ensures capacity { vec_capacity out.new ≡ vec_capacity out.old }
{
    match bytes.len() {
        0..4 => append_few(out, bytes),
        4..8 => append_by_four(out, bytes),
        8..16 => append_by_eight(out, bytes),
        16..33 => append_by_sixteen(out, bytes),
        _ => *out = extended_long(take_vec(out), bytes),
    }
}

/// Appends bytes for which the vector has room, and takes no memory: its capacity stays.
///
/// ```
/// use json_io::internal::extend_reserved;
/// let mut text = Vec::with_capacity(alloc, 6)?;
/// extend_reserved(&mut text, b"[1, 2]");
/// assert_eq!(rt; text.as_slice(), b"[1, 2]".as_slice());
/// ```
#[inline(always)]
pub fn extend_reserved(out: &mut Vec<u8>, bytes: &[u8])
    requires { vec_len out.old + length bytes.now ≤ vec_capacity out.old }
    ensures items { out.new.items ≡ out.old.items ++ bytes.now }
    ensures len { vec_len out.new ≡ vec_len out.old + length bytes.now }
    ensures capacity { vec_capacity out.new ≡ vec_capacity out.old }
{
    let mut text = take_vec(out);
    extend_local(&mut text, bytes);
    *out = text;
}

/// Appends the bytes from `start` up to `end` as `extend_reserved` does. At most 16 are one block
/// where as many follow `start` and as many have room, so that nothing depends on how many they
/// are.
///
/// ```
/// use json_io::internal::extend_reserved_from;
/// let mut text = Vec::with_capacity(alloc, 16)?;
/// extend_reserved_from(&mut text, b"{\"name\": 1, \"age\": 2}", 2, 6);
/// assert_eq!(rt; text.as_slice(), b"name".as_slice());
/// ```
#[inline(always)]
pub fn extend_reserved_from(out: &mut Vec<u8>, bytes: &[u8], start: usize, end: usize)
    requires within { (start ≤ end) × (end ≤ length bytes.now) }
    requires room { vec_len out.old + (end - start) ≤ vec_capacity out.old }
    ensures items { out.new.items ≡ out.old.items ++ slice_range bytes.now start end }
    ensures len { vec_len out.new ≡ vec_len out.old + (end - start) }
    ensures capacity { vec_capacity out.new ≡ vec_capacity out.old }
{
    let count = end - start;
    if count <= BLOCK && bytes.len() - start >= BLOCK && out.capacity() - out.len() >= BLOCK {
        append_of_block(out, bytes, start, count);
        return;
    }
    extend_reserved(out, &bytes[start..end]);
}

/// Appends the bytes from `start` up to `end` as `extend_reserved` does. At most 32 are two blocks
/// of 16 where as many follow `start` and as many have room, so that nothing depends on how many
/// they are.
///
/// ```
/// use json_io::internal::extend_reserved_blocks;
/// let mut text = Vec::with_capacity(alloc, 32)?;
/// extend_reserved_blocks(&mut text, b"[12.5, 12.25, 12.125, 12.0625, 1]", 7, 12);
/// assert_eq!(rt; text.as_slice(), b"12.25".as_slice());
/// ```
#[inline(always)]
pub fn extend_reserved_blocks(out: &mut Vec<u8>, bytes: &[u8], start: usize, end: usize)
    requires within { (start ≤ end) × (end ≤ length bytes.now) }
    requires room { vec_len out.old + (end - start) ≤ vec_capacity out.old }
    ensures items { out.new.items ≡ out.old.items ++ slice_range bytes.now start end }
    ensures len { vec_len out.new ≡ vec_len out.old + (end - start) }
    ensures capacity { vec_capacity out.new ≡ vec_capacity out.old }
{
    let count = end - start;
    if count <= PAIR && bytes.len() - start >= PAIR && out.capacity() - out.len() >= PAIR {
        append_of_pair(out, bytes, start, count);
        return;
    }
    extend_reserved(out, &bytes[start..end]);
}
