// Writes the fields of CSV (RFC 4180, section 2).
ghost use Rattle.std.specs.Prelude.{◌≡◌, ◌++◌, ◌∷◌, ◌<◌, [], IfSome};
ghost use Rattle.std.specs.List.{list_any};
ghost use Rattle.json_layout.specs.TextWriting.{WritesText};
ghost use Rattle.json_lines.specs.Csv.{is_special, is_quoted, quotes_doubled, csv_field, IsFirstQuote};

use crate::cells::write_bytes;
use json_io::{Result, Sink};
use json_layout::BufferedWriter;
use memchr::memchr;

// Returns whether a field has a byte only between double quotes.
#[inline(always)]
fn is_special(byte: u8) -> bool
    ensures { result ≡ is_special byte }
{
    byte == b'"' || byte == b',' || byte == b'\n' || byte == b'\r'
}

// Returns whether a text has such a byte.
#[inline(always)]
fn has_special(text: &[u8]) -> bool
    ensures { result ≡ list_any is_special text.now }
{
    for byte in text {
        if is_special(*byte) {
            return true;
        }
    }
    false
}

// Returns whether the field of a text is between double quotes.
#[inline(always)]
fn is_quoted(text: &[u8]) -> bool
    ensures { result ≡ is_quoted text.now }
{
    match text {
        [] => true,
        [_, ..] => has_special(text),
    }
}

// Returns the offset of the first double quote.
fn find_quote(text: &[u8]) -> Option<usize>
    ensures first { IsFirstQuote text.now result }
    ensures fits { IfSome result (λ at. at < usize.MAX) }
{
    memchr(b'"', text)
}

// Writes a text with each double quote preceded by another one. What is between them is written at
// once.
fn write_doubled<W: Sink>(out: &mut BufferedWriter<W>, text: &[u8]) -> Result<()>
    ensures { WritesText
        (⟦<BufferedWriter<W> as Sink>⟧.state out.old) (⟦<BufferedWriter<W> as Sink>⟧.state out.new)
        (quotes_doubled text.now) result }
{
    let mut rest = text;
    'quote: while let Some(at) = find_quote(rest) {
        match write_run(out, &rest[..at + 1]) {
            Ok(()) => {}
            Err(error) => return Err(error),
        }
        rest = &rest[at + 1..];
    }
    write_bytes(out, rest)
}

// Writes a run of bytes and another double quote.
fn write_run<W: Sink>(out: &mut BufferedWriter<W>, run: &[u8]) -> Result<()>
    ensures { WritesText
        (⟦<BufferedWriter<W> as Sink>⟧.state out.old) (⟦<BufferedWriter<W> as Sink>⟧.state out.new)
        (run.now ++ 34 ∷ []) result }
{
    match write_bytes(out, run) {
        Ok(()) => write_bytes(out, b"\""),
        Err(error) => Err(error),
    }
}

// Writes a text between double quotes.
fn write_quoted<W: Sink>(out: &mut BufferedWriter<W>, text: &[u8]) -> Result<()>
    ensures { WritesText
        (⟦<BufferedWriter<W> as Sink>⟧.state out.old) (⟦<BufferedWriter<W> as Sink>⟧.state out.new)
        ((34 ∷ []) ++ (quotes_doubled text.now ++ 34 ∷ [])) result }
{
    match write_bytes(out, b"\"") {
        Ok(()) => write_doubled_end(out, text),
        Err(error) => Err(error),
    }
}

// Writes a text with its double quotes doubled, and a double quote.
fn write_doubled_end<W: Sink>(out: &mut BufferedWriter<W>, text: &[u8]) -> Result<()>
    ensures { WritesText
        (⟦<BufferedWriter<W> as Sink>⟧.state out.old) (⟦<BufferedWriter<W> as Sink>⟧.state out.new)
        (quotes_doubled text.now ++ 34 ∷ []) result }
{
    match write_doubled(out, text) {
        Ok(()) => write_bytes(out, b"\""),
        Err(error) => Err(error),
    }
}

/// Writes the field of a text: between double quotes where it needs them or is empty.
#[inline(always)]
pub(crate) fn write_field<W: Sink>(out: &mut BufferedWriter<W>, text: &[u8]) -> Result<()>
    ensures { WritesText
        (⟦<BufferedWriter<W> as Sink>⟧.state out.old) (⟦<BufferedWriter<W> as Sink>⟧.state out.new)
        (csv_field text.now) result }
{
    if is_quoted(text) {
        write_quoted(out, text)
    } else {
        write_bytes(out, text)
    }
}
