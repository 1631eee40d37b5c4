// The line of the input that an error is at, with a caret under its column.
ghost use Rattle.std.specs.Prelude.{◌≡◌, ◌≤◌, ◌==◌, ◌+◌, ◌++◌, List, ℕ, [], length, map, codes, OnOk};
ghost use Rattle.std.specs.List.{after_last, before_first, flat_map};
ghost use Rattle.mezdruk_files.specs.Excerpts.{IsExcerpt, IsFront, IsBack, excerpt_byte, is_continuation as continues, space_under};
ghost use Rattle.json_io.specs.Errors.{OnlyNoMemory};

use json_io::Result;

// The greatest number of bytes of a line that are shown.
const WIDTH: usize = 76;

// The number of bytes before the caret that are shown if the line has them.
const HALF: usize = 38;

// Returns whether a byte of a character is not its first one.
fn is_continuation(byte: u8) -> bool
    ensures { result ≡ continues byte }
{
    byte >= 128 && byte < 192
}

// Returns the bytes after the last newline.
fn last_line(bytes: &[u8]) -> &[u8]
    ensures { result.now ≡ after_last (λ x. x == 10) bytes.now }
{
    let mut start = bytes.len();
    'back: while start > 0 && bytes[start - 1] != b'\n' {
        start -= 1;
    }
    &bytes[start..]
}

// Returns the bytes before the first newline.
fn excerpt_line(bytes: &[u8]) -> &[u8]
    ensures { result.now ≡ before_first (λ x. x == 10) bytes.now }
{
    let mut end = 0;
    'forward: while end < bytes.len() && bytes[end] != b'\n' {
        end += 1;
    }
    &bytes[..end]
}

// Returns at most `max` of the last bytes, from the first byte of a character on.
fn last_bytes(bytes: &[u8], max: usize) -> &[u8]
    ensures { IsBack bytes.now max result.now }
{
    if bytes.len() <= max {
        return bytes;
    }
    let mut start = bytes.len() - max;
    'skip: while start < bytes.len() && is_continuation(bytes[start]) {
        start += 1;
    }
    &bytes[start..]
}

// Returns at most `max` of the first bytes, up to the end of a character.
fn first_bytes(bytes: &[u8], max: usize) -> &[u8]
    ensures { IsFront bytes.now max result.now }
{
    if bytes.len() <= max {
        return bytes;
    }
    let mut end = max;
    'skip: while end > 0 && is_continuation(bytes[end]) {
        end -= 1;
    }
    &bytes[..end]
}

// Appends bytes of the line, each of a control character as a space.
fn push_shown(text: &mut Vec<u8>, part: &[u8]) -> Result<()>
    ensures ok { OnOk result (text.new.items ≡ text.old.items ++ map excerpt_byte part.now) }
    ensures only { OnlyNoMemory result }
{
    for byte in part {
        let shown = if *byte < 32 || *byte == 127 {
            b' '
        } else {
            *byte
        };
        text.push(shown)?;
    }
    Ok(())
}

// Appends a space for each character.
fn push_spaces(text: &mut Vec<u8>, part: &[u8]) -> Result<()>
    ensures ok { OnOk result (text.new.items ≡ text.old.items ++ flat_map space_under part.now) }
    ensures only { OnlyNoMemory result }
{
    for byte in part {
        if !is_continuation(*byte) {
            text.push(b' ')?;
        }
    }
    Ok(())
}

// Appends the bytes of a line before the caret and from it on, and below them the caret.
fn push_lines(text: &mut Vec<u8>, before: &[u8], after: &[u8]) -> Result<()>
    ensures ok { OnOk result (text.new.items ≡ text.old.items ++ map excerpt_byte before.now
        ++ map excerpt_byte after.now ++ codes "\n" ++ flat_map space_under before.now
        ++ codes "^\n") }
    ensures only { OnlyNoMemory result }
{
    push_shown(text, before)?;
    push_shown(text, after)?;
    text.extend_from_slice(b"\n")?;
    push_spaces(text, before)?;
    text.extend_from_slice(b"^\n")?;
    Ok(())
}

/// Appends the line of `bytes` at an offset, cut to 76 bytes, and below it a caret under the byte
/// at the offset. Fails with `NoMemory` if memory runs out.
pub(crate) fn push_excerpt(text: &mut Vec<u8>, bytes: &[u8], offset: usize) -> Result<()>
    requires { offset ≤ length bytes.now }
    ensures ok { OnOk result ((excerpt : List ℕ) × IsExcerpt bytes.now offset excerpt
        × (text.new.items ≡ text.old.items ++ excerpt)) }
    ensures only { OnlyNoMemory result }
{
    let (head, tail) = bytes.split_at(offset);
    let line_before = last_line(head);
    let line_after = excerpt_line(tail);
    let after = first_bytes(line_after, WIDTH - line_before.len().min(HALF));
    let before = last_bytes(line_before, WIDTH - after.len());
    push_lines(text, before, after)
}
