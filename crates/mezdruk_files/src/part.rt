// The parts of a document that are read by themselves.
ghost use Rattle.std.specs.Prelude.{◌≡◌, ◌<◌, ◌≤◌, ◌+◌, ◌∷◌, length};
ghost use Rattle.mezdruk_files.specs.Parts.{part_view, lines_of, whole_part as spec_whole_part};
ghost use Rattle.json_command.specs.Input.{BlankTest};

use json_scan::ws_run;
use memchr::memchr;

/// What the bytes of a part are.
#[derive(Clone, Copy, Debug, PartialEq, Eq)]
pub(crate) enum Scope {
    /// The whole document.
    Document,
    /// A line of the document.
    Line,
    /// The document, of which the value of this number is read, counted from 0.
    Value(usize),
}

/// A part of a document.
#[derive(Clone, Copy)]
pub(crate) struct DocumentPart<'a> {
    /// The name of the document.
    pub name: &'a str,
    /// The bytes in which the offset of an error counts.
    pub bytes: &'a [u8],
    /// The number of lines of the document before the bytes.
    pub before: usize,
    /// What the bytes are.
    pub scope: Scope,
}

/// Returns a whole document as its only part.
pub(crate) fn whole_part<'a>(name: &'a str, bytes: &'a [u8]) -> DocumentPart<'a>
    ensures { part_view result ≡ spec_whole_part name.now bytes.now }
{
    DocumentPart {
        name,
        bytes,
        before: 0,
        scope: Scope::Document,
    }
}

/// Returns the first line, without its newline, and the bytes after that newline.
pub(crate) fn split_line(bytes: &[u8]) -> (&[u8], &[u8])
    requires { 0 < length bytes.now }
    ensures line { lines_of bytes.now ≡ result.0.now ∷ lines_of result.1.now }
    ensures shorter { length result.1.now < length bytes.now }
    ensures within { length result.0.now + length result.1.now ≤ length bytes.now }
{
    match memchr(b'\n', bytes) {
        Some(end) => (&bytes[..end], &bytes[end + 1..]),
        None => (bytes, &bytes[bytes.len()..]),
    }
}

/// Returns whether a line is whitespace alone.
pub(crate) fn is_blank(line: &[u8]) -> bool
    ensures { BlankTest line.now result }
{
    ws_run(line, 0) == line.len()
}
