// The parts of a text whose places are known where they are written, so that nothing of them is
// kept.
ghost use Rattle.std.specs.Prelude.{◌≡◌, ◌+◌, ◌∷◌, ◌++◌, [], ℕ, List, Option, None, Some, length, IsErrOf};
ghost use Rattle.std.specs.Fmt.{decimal, signed_decimal};
ghost use Rattle.json_model.specs.Print.{quoted, colon_bytes};
ghost use Rattle.json_io.specs.Errors.{no_memory};
ghost use Rattle.json_io.specs.Outside.{SinkState};
ghost use Rattle.json_layout.specs.Adding.{Adds};
ghost use Rattle.json_layout.specs.Pieces.{comma};
ghost use Rattle.json_layout.specs.Showing.{RanOut, Shows, lead, closed_by, key_shown, text_shown};
ghost use Rattle.json_layout.specs.TextWriting.{WritesText};

use crate::BufferedWriter;
use crate::adding::{add, error_of_sink};
use crate::escape::{add_number, add_unsigned};
use crate::indent::{Indent, add_break};
use json_io::{Result, Sink, SinkResult};

/// A layout of a JSON text: which whitespace is written before elements, keys and closing brackets,
/// and after keys. [`OneLine`] writes none, and [`ManyLines`] indents.
///
/// Each method appends to `out`, and fails with the error of the sink, which has gained a prefix of
/// what was to be written then.
///
/// ```
/// use json_layout::{BufferedWriter, Layout, ManyLines, answered, show_unsigned};
/// use json_io::{VecSink, flush_all};
/// let mut out = BufferedWriter::new(alloc, VecSink::new(alloc))?;
/// let lines = ManyLines::new(b"  ");
/// answered(lines.key(&mut out, 1, true, "born"))?;
/// answered(show_unsigned(&mut out, 1815))?;
/// answered(lines.element(&mut out, 1, false, "Ada"))?;
/// flush_all(&mut out)?;
/// assert_eq!(rt; out.into_inner().as_slice(), b"\n  \"born\": 1815,\n  \"Ada\"".as_slice());
/// ```
pub trait Layout: Copy {
    /// The indent, or none for a layout without whitespace.
    ghost indent: { Self → Option (List ℕ) };

    /// Writes what precedes an element: a comma unless `first` is true, and the line feed and the
    /// `level` indents of the layout. `level` is the number of containers around the element.
    fn lead<W: Sink>(self, out: &mut BufferedWriter<W>, level: usize, first: bool) -> SinkResult
        ensures { Adds (⟦<BufferedWriter<W> as Sink>⟧.state out.old)
            (⟦<BufferedWriter<W> as Sink>⟧.state out.new) (lead (indent self) level first) result };

    /// Writes an element that is a string, and before it what [`Layout::lead`] writes for the same
    /// `level` and `first`.
    fn element<W: Sink>(
        self,
        out: &mut BufferedWriter<W>,
        level: usize,
        first: bool,
        text: &str,
    ) -> SinkResult
        ensures { Adds (⟦<BufferedWriter<W> as Sink>⟧.state out.old)
            (⟦<BufferedWriter<W> as Sink>⟧.state out.new)
            (text_shown (indent self) level first text.now) result };

    /// Writes the key of a member and the colon after it, and before it what [`Layout::lead`]
    /// writes for the same `level` and `first`.
    fn key<W: Sink>(
        self,
        out: &mut BufferedWriter<W>,
        level: usize,
        first: bool,
        key: &str,
    ) -> SinkResult
        ensures { Adds (⟦<BufferedWriter<W> as Sink>⟧.state out.old)
            (⟦<BufferedWriter<W> as Sink>⟧.state out.new)
            (key_shown (indent self) level first key.now) result };

    /// Writes what follows a key: a colon, and in a layout with an indent a space.
    fn colon<W: Sink>(self, out: &mut BufferedWriter<W>) -> SinkResult
        ensures { Adds (⟦<BufferedWriter<W> as Sink>⟧.state out.old)
            (⟦<BufferedWriter<W> as Sink>⟧.state out.new) (colon_bytes (indent self)) result };

    /// Writes the closing bracket `bracket` of a container, and before it, unless `empty` is true,
    /// the line feed and the `level` indents of the layout. `empty` says that the container has no
    /// element and no member, and `level` is the number of containers around it.
    fn close<W: Sink>(
        self,
        out: &mut BufferedWriter<W>,
        level: usize,
        empty: bool,
        bracket: u8,
    ) -> SinkResult
        ensures { Adds (⟦<BufferedWriter<W> as Sink>⟧.state out.old)
            (⟦<BufferedWriter<W> as Sink>⟧.state out.new)
            (closed_by (indent self) level empty bracket) result };
}

// Writes a key and a colon, and a comma before them unless it is the first.
#[inline(never)]
fn add_key<W: Sink>(out: &mut BufferedWriter<W>, first: bool, key: &[u8]) -> SinkResult
    ensures { Adds (⟦<BufferedWriter<W> as Sink>⟧.state out.old)
        (⟦<BufferedWriter<W> as Sink>⟧.state out.new)
        (comma first ++ (quoted key.now ++ 58 ∷ [])) result }
{
    out.put_quoted(first, key)?;
    add(out, b":")
}

// Writes a string, and a comma before it unless it is the first. A short one without escapes takes
// no call.
#[inline(always)]
fn add_item<W: Sink>(out: &mut BufferedWriter<W>, first: bool, text: &[u8]) -> SinkResult
    ensures { Adds (⟦<BufferedWriter<W> as Sink>⟧.state out.old)
        (⟦<BufferedWriter<W> as Sink>⟧.state out.new) (comma first ++ quoted text.now) result }
{
    if out.put_item(first, text) {
        return Ok(());
    }
    out.put_quoted(first, text)
}

/// The layout without whitespace between the tokens.
///
/// ```
/// use json_layout::{BufferedWriter, Layout, OneLine, answered};
/// use json_io::{VecSink, flush_all};
/// let mut out = BufferedWriter::new(alloc, VecSink::new(alloc))?;
/// answered(OneLine.element(&mut out, 0, true, "Ada"))?;
/// answered(OneLine.element(&mut out, 0, false, "Grace"))?;
/// flush_all(&mut out)?;
/// assert_eq!(rt; out.into_inner().as_slice(), b"\"Ada\",\"Grace\"".as_slice());
/// ```
#[derive(Clone, Copy, Debug)]
pub struct OneLine;

impl Layout for OneLine {
    ghost indent = { λ _. None };

    #[inline(always)]
    fn lead<W: Sink>(self, out: &mut BufferedWriter<W>, level: usize, first: bool) -> SinkResult {
        let _ = level;
        if first { Ok(()) } else { add(out, b",") }
    }

    #[inline(always)]
    fn element<W: Sink>(
        self,
        out: &mut BufferedWriter<W>,
        level: usize,
        first: bool,
        text: &str,
    ) -> SinkResult {
        let _ = level;
        add_item(out, first, text.as_bytes())
    }

    #[inline(always)]
    fn key<W: Sink>(
        self,
        out: &mut BufferedWriter<W>,
        level: usize,
        first: bool,
        key: &str,
    ) -> SinkResult {
        let _ = level;
        if out.put_key(first, key.as_bytes()) {
            return Ok(());
        }
        add_key(out, first, key.as_bytes())
    }

    #[inline(always)]
    fn colon<W: Sink>(self, out: &mut BufferedWriter<W>) -> SinkResult {
        add(out, b":")
    }

    #[inline(always)]
    fn close<W: Sink>(
        self,
        out: &mut BufferedWriter<W>,
        level: usize,
        empty: bool,
        bracket: u8,
    ) -> SinkResult {
        let _ = (level, empty);
        add(out, &[bracket])
    }
}

/// The layout that has each element and each member on a line of its own, after one indent for each
/// container around it.
///
/// ```
/// use json_layout::{BufferedWriter, Layout, ManyLines, answered};
/// use json_io::{VecSink, flush_all};
/// let mut out = BufferedWriter::new(alloc, VecSink::new(alloc))?;
/// answered(ManyLines::new(b"\t").element(&mut out, 1, true, "Ada"))?;
/// flush_all(&mut out)?;
/// assert_eq!(rt; out.into_inner().as_slice(), b"\n\t\"Ada\"".as_slice());
/// ```
#[derive(Clone, Copy, Debug)]
pub struct ManyLines<'a> {
    indent: Indent<'a>,
}

impl<'a> ManyLines<'a> {
    /// Creates a layout whose indent is these bytes, which it borrows.
    pub fn new(indent: &'a [u8]) -> ManyLines<'a>
        ensures { ⟦<ManyLines<'a> as Layout>⟧.indent result ≡ Some indent.now }
    {
        ManyLines {
            indent: Indent::new(indent),
        }
    }
}

impl Layout for ManyLines<'_> {
    ghost indent = { λ s. Some s.indent.bytes.now };

    #[inline(always)]
    fn lead<W: Sink>(self, out: &mut BufferedWriter<W>, level: usize, first: bool) -> SinkResult {
        add_break(out, self.indent, level, first)
    }

    #[inline(always)]
    fn element<W: Sink>(
        self,
        out: &mut BufferedWriter<W>,
        level: usize,
        first: bool,
        text: &str,
    ) -> SinkResult {
        add_break(out, self.indent, level, first)?;
        add_item(out, true, text.as_bytes())
    }

    #[inline(always)]
    fn key<W: Sink>(
        self,
        out: &mut BufferedWriter<W>,
        level: usize,
        first: bool,
        key: &str,
    ) -> SinkResult {
        add_break(out, self.indent, level, first)?;
        add_item(out, true, key.as_bytes())?;
        add(out, b": ")
    }

    #[inline(always)]
    fn colon<W: Sink>(self, out: &mut BufferedWriter<W>) -> SinkResult {
        add(out, b": ")
    }

    #[inline(always)]
    fn close<W: Sink>(
        self,
        out: &mut BufferedWriter<W>,
        level: usize,
        empty: bool,
        bracket: u8,
    ) -> SinkResult {
        if empty {
            return add(out, &[bracket]);
        }
        add_break(out, self.indent, level, true)?;
        add(out, &[bracket])
    }
}

/// Appends bytes to `out` as they are. Fails with the error of the sink, which has gained a prefix
/// of them then.
#[inline(always)]
pub fn show_piece<W: Sink>(out: &mut BufferedWriter<W>, piece: &[u8]) -> SinkResult
    ensures { Adds (⟦<BufferedWriter<W> as Sink>⟧.state out.old)
        (⟦<BufferedWriter<W> as Sink>⟧.state out.new) piece.now result }
{
    add(out, piece)
}

/// Appends a JSON string to `out`: `text` between quotes and escaped (RFC 8259, section 7). Fails
/// with the error of the sink, which has gained a prefix of that then.
#[inline(always)]
pub fn show_text<W: Sink>(out: &mut BufferedWriter<W>, text: &str) -> SinkResult
    ensures { Adds (⟦<BufferedWriter<W> as Sink>⟧.state out.old)
        (⟦<BufferedWriter<W> as Sink>⟧.state out.new) (quoted text.now) result }
{
    add_item(out, true, text.as_bytes())
}

/// Appends the decimal text of an integer from 0 on to `out`. Fails with the error of the sink,
/// which has gained a prefix of that text then.
#[inline(always)]
pub fn show_unsigned<W: Sink>(out: &mut BufferedWriter<W>, number: u64) -> SinkResult
    ensures { Adds (⟦<BufferedWriter<W> as Sink>⟧.state out.old)
        (⟦<BufferedWriter<W> as Sink>⟧.state out.new) (decimal number) result }
{
    add_unsigned(out, number)
}

/// Appends the decimal text of an integer to `out`. Fails with the error of the sink, which has
/// gained a prefix of that text then.
#[inline(always)]
pub fn show_signed<W: Sink>(out: &mut BufferedWriter<W>, number: i64) -> SinkResult
    ensures { Adds (⟦<BufferedWriter<W> as Sink>⟧.state out.old)
        (⟦<BufferedWriter<W> as Sink>⟧.state out.new) (signed_decimal number) result }
{
    add_number(out, number)
}

/// Converts what the functions and methods of this crate return to the library's [`Result`]. A call
/// of the sink that failed becomes the error `Io` at the place `Writing`, and memory that ran out
/// becomes `NoMemory`.
pub fn answered(shown: SinkResult) -> Result<()>
    ensures text { (level : ℕ) (old new : SinkState) (text : List ℕ)
        → Shows level old new text shown → WritesText old new text result }
    ensures ran_out { (level : ℕ) (old new : SinkState) (text : List ℕ)
        → Shows level old new text shown → IsErrOf result no_memory
        → RanOut old new (level + length text) }
{
    match shown {
        Ok(()) => Ok(()),
        Err(error) => Err(error_of_sink(error)),
    }
}
