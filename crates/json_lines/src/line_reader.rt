// Reads a source line by line.
ghost use Rattle.std.specs.Prelude.{◌≡◌, ◌+◌, ◌-◌, ◌<◌, ◌≤◌, Bool, false, true, None, Some, length, take, IfOk, IfErr, IfNone, slice_range, vec_len};
ghost use Rattle.json_io.specs.Errors.{OnlyNoMemory};
ghost use Rattle.json_lines.specs.Lines.{IsFirstNewline, has_newline};
ghost use Rattle.json_lines.specs.Ranges.{IsRangeFrom, IsLastRange};

use json_io::{Error, ErrorCode, Failed, Place, Result, Source};
use memchr::{memchr, memrchr};
use std::alloc::Global;

// The buffer has this many bytes more than the limit, and one read asks for no more: what is read
// stays in a cache until its lines are handled.
const READ_AHEAD: usize = 65536;

// The maximum number of bytes that one reader reads.
const MAX_BYTES: u64 = 4294967295;

/// A line of a source, without its newline, as [`LineReader::next_line`] returns it.
///
/// ```
/// use json_lines::{Line, LineReader};
/// use json_text::SliceSource;
///
/// let mut reader = LineReader::new(alloc, 4)?;
/// let mut source = SliceSource::new(b"ab\n123456\n");
/// assert!(rt; reader.next_line(&mut source)? == Some(Line::Whole(b"ab")));
/// assert!(rt; reader.next_line(&mut source)? == Some(Line::TooLong));
/// ```
#[derive(Clone, Copy, Debug, PartialEq, Eq)]
pub enum Line<'a> {
    /// The bytes of a line that has at most as many bytes as the reader's limit.
    Whole(&'a [u8]),
    /// A line that has more bytes than the reader's limit. Its bytes are skipped.
    TooLong,
}

// The range of a line in the buffer.
#[derive(Clone, Copy, Drop)]
enum LineRange {
    End,
    Bytes(usize, usize),
    TooLong,
}

/// A reader of the lines of a source, with a buffer of its own.
///
/// A line ends at a newline, the byte 0A (hexadecimal). The last line may lack it, and after a
/// newline at the end of the source no line follows. Lines are read in place: a byte is moved
/// within the buffer at most once.
///
/// ```
/// use json_lines::{Line, LineReader};
/// use json_text::SliceSource;
///
/// let mut reader = LineReader::new(alloc, 1024)?;
/// let mut source = SliceSource::new(b"[1]\n\n[2]");
/// assert!(rt; reader.next_line(&mut source)? == Some(Line::Whole(b"[1]")));
/// assert!(rt; reader.next_line(&mut source)? == Some(Line::Whole(b"")));
/// assert!(rt; reader.next_line(&mut source)? == Some(Line::Whole(b"[2]")));
/// assert!(rt; reader.next_line(&mut source)? == None);
/// ```
#[derive(Drop)]
pub struct LineReader {
    buffer: Vec<u8>,
    limit: usize,
    // The bytes from `start` to `end` were read and not yet returned.
    start: usize,
    end: usize,
    // The last read ended lines up to this offset. It is a hint: no line rests on it.
    lines_end: usize,
    received: u64,
    stopped: Option<Error>,
    ghost order: { start ≤ end },
    ghost within: { end ≤ vec_len buffer },
    ghost size: { vec_len buffer ≡ limit + 65536 },
    ghost few: { limit ≤ 16777216 },
    ghost count: { stopped ≡ None → received ≤ 4294967295 },
}

// Returns the offset of the first newline.
fn find_newline(bytes: &[u8]) -> Option<usize>
    ensures { IsFirstNewline bytes.now result }
{
    memchr(b'\n', bytes)
}

// Returns the offset after the last newline of what was read at an offset, or else the one before.
fn end_of_lines(read: &[u8], at: usize, before: usize) -> usize
    requires { at + length read.now ≤ usize.MAX }
{
    match memrchr(b'\n', read) {
        Some(last) => at + last + 1,
        None => before,
    }
}

impl LineReader {
    ghost use Rattle.json_lines.specs.Reading.{line_reader_state, fresh_reader, held_bytes, ReadsBytes, ReaderState, NextLineCall};
    ghost use Rattle.json_lines.specs.LineRanges.{ReadsMore, NextLineFails, DropsLine, IsLineRange, ReadsUnended, FindsLine, LocatesLine};
    ghost use Rattle.json_lines.specs.contracts.line_reader.LineReader.{the_row};
    ghost use Rattle.std.specs.Io.BufRead.{Rests};
    ghost use Rattle.std.specs.Borrow.{sem};

    /// Creates a reader of lines of at most `limit` bytes each, the newline not counted. `limit`
    /// must be at most 16,777,216. Longer lines are returned as [`Line::TooLong`].
    ///
    /// Allocates `limit` + 65,536 bytes at once, and nothing later. Fails with `NoMemory` if memory
    /// runs out.
    pub fn new(alloc: Global, limit: usize) -> Result<LineReader>
        requires { limit ≤ 16777216 }
        ensures ok { IfOk result (λ r. line_reader_state r ≡ fresh_reader limit) }
        ensures only { OnlyNoMemory result }
    {
        let buffer = vec![in alloc; 0; limit + READ_AHEAD]?;
        Ok(LineReader {
            buffer,
            limit,
            start: 0,
            end: 0,
            lines_end: 0,
            received: 0,
            stopped: None,
        })
    }

    /// Returns whether the next line may have to be read from the source. It is a hint for when to
    /// send what is written so far.
    #[inline(always)]
    pub(crate) fn needs_read(&self) -> bool {
        self.start >= self.lines_end
    }

    // Reads once, after the bytes that are held.
    fn read_more<S: Source>(&mut self, source: &mut S) -> Result<usize>
        requires room { self.old.end < vec_len self.old.buffer }
        requires going { self.old.stopped ≡ None }
        ensures ok { IfOk result (λ n.
            ReadsMore self.old self.new (S.state source.old) (S.state source.new) n) }
        ensures err { IfErr result (λ e. NextLineFails
            (line_reader_state self.old) (line_reader_state self.new)
            (S.state source.old) (S.state source.new) e) }
    {
        let end = self.end;
        let most = self.buffer.len().min(end + READ_AHEAD);
        match source.read(&mut self.buffer[end..most]) {
            Ok(count) => {
                self.end = end + count;
                self.received += count as u64;
                self.lines_end = end_of_lines(&self.buffer[end..self.end], end, self.lines_end);
                if self.received > MAX_BYTES {
                    let error = Error {
                        code: ErrorCode::TooLarge,
                        place: Place::None,
                    };
                    self.stopped = Some(error);
                    return Err(error);
                }
                Ok(count)
            }
            Err(Failed) => {
                let error = Error {
                    code: ErrorCode::Io,
                    place: Place::Reading,
                };
                self.stopped = Some(error);
                Err(error)
            }
        }
    }

    // Makes room after the bytes that are held: moves them to the beginning.
    fn make_room(&mut self)
        requires few { self.old.end ≤ self.old.start + self.old.limit }
        ensures room { self.new.end < vec_len self.new.buffer }
        ensures same { line_reader_state self.new ≡ line_reader_state self.old }
        ensures span { self.new.end - self.new.start ≡ self.old.end - self.old.start }
        ensures limit { self.new.limit ≡ self.old.limit }
    {
        if self.start > 0 {
            let held = self.end - self.start;
            self.buffer.copy_within(self.start..self.end, 0);
            self.start = 0;
            self.end = held;
            self.lines_end = 0;
        }
    }

    /// Returns the next line of `source`, or `None` at its end. The bytes of the line are lent from
    /// the reader's buffer, until the reader is used again. The reader may read beyond the line,
    /// and keeps what it has read for the next call.
    ///
    /// Fails with `Io` at `Reading` if a read fails, and with `TooLarge` once this reader has
    /// received more than 4,294,967,295 bytes. Errors are sticky: after an error every later call
    /// returns the same error and reads nothing.
    pub fn next_line<S: Source>(&mut self, source: &mut S) -> Result<Option<Line<'_>>>
        ensures answer { (new : ReaderState) × NextLineCall (line_reader_state self.old) new
            (S.state source.old) (S.state source.new) result }
        ensures* after { sem 𝓛 (Rests the_row self.entry (λ new.
            NextLineCall (line_reader_state self.old) (line_reader_state new)
            (S.state source.old) (S.state source.new) result)) }
    {
        match self.locate_line(source) {
            Ok(LineRange::End) => Ok(None),
            Ok(LineRange::Bytes(from, to)) => Ok(Some(Line::Whole(&self.buffer[from..to]))),
            Ok(LineRange::TooLong) => Ok(Some(Line::TooLong)),
            Err(error) => Err(error),
        }
    }

    // Returns the range of the next line.
    #[inline(always)]
    fn locate_line<S: Source>(&mut self, source: &mut S) -> Result<LineRange>
        ensures { LocatesLine self.old self.new (S.state source.old) (S.state source.new) result }
    {
        match self.stopped {
            Some(error) => Err(error),
            None => self.find_line(source),
        }
    }

    // Finds the first line of what is held and read.
    #[inline(always)]
    fn find_line<S: Source>(&mut self, source: &mut S) -> Result<LineRange>
        requires going { self.old.stopped ≡ None }
        ensures ok { IfOk result (λ found.
            FindsLine self.old self.new (S.state source.old) (S.state source.new) found) }
        ensures err { IfErr result (λ e. NextLineFails
            (line_reader_state self.old) (line_reader_state self.new)
            (S.state source.old) (S.state source.new) e) }
    {
        let from = self.start;
        match find_newline(&self.buffer[from..self.end]) {
            Some(len) => {
                self.start = from + len + 1;
                Ok(line_range(from, len, self.limit))
            }
            None => self.read_line(source),
        }
    }

    // Reads until a line ends, where none ends in what is held.
    #[cold]
    #[inline(never)]
    fn read_line<S: Source>(&mut self, source: &mut S) -> Result<LineRange>
        requires going { self.old.stopped ≡ None }
        requires unended { has_newline (held_bytes self.old) ≡ false }
        ensures ok { IfOk result (λ found.
            FindsLine self.old self.new (S.state source.old) (S.state source.new) found) }
        ensures err { IfErr result (λ e. NextLineFails
            (line_reader_state self.old) (line_reader_state self.new)
            (S.state source.old) (S.state source.new) e) }
    {
        'wait: while self.end - self.start <= self.limit {
            self.make_room();
            let before = self.end;
            let count = match self.read_more(source) {
                Ok(count) => count,
                Err(error) => return Err(error),
            };
            let from = self.start;
            if count == 0 {
                let to = self.end;
                self.start = to;
                return Ok(last_line_range(from, to));
            }
            if let Some(len) = find_newline(&self.buffer[before..self.end]) {
                self.start = before + len + 1;
                return Ok(line_range(from, before + len - from, self.limit));
            }
        }
        self.skip_line(source)
    }

    // Skips a line that is too long up to its end, and holds none of it.
    #[cold]
    #[inline(never)]
    fn skip_line<S: Source>(&mut self, source: &mut S) -> Result<LineRange>
        requires going { self.old.stopped ≡ None }
        requires unended { has_newline (held_bytes self.old) ≡ false }
        requires long { self.old.limit < length (held_bytes self.old) }
        ensures ok { IfOk result (λ found.
            FindsLine self.old self.new (S.state source.old) (S.state source.new) found) }
        ensures err { IfErr result (λ e. NextLineFails
            (line_reader_state self.old) (line_reader_state self.new)
            (S.state source.old) (S.state source.new) e) }
    {
        self.start = 0;
        self.end = 0;
        'pass: loop {
            let count = match self.read_more(source) {
                Ok(count) => count,
                Err(error) => return Err(error),
            };
            if count == 0 {
                return Ok(LineRange::TooLong);
            }
            if let Some(len) = find_newline(&self.buffer[..self.end]) {
                self.start = len + 1;
                return Ok(LineRange::TooLong);
            }
            self.end = 0;
        }
    }
}

// Returns the range of a line of `len` bytes.
fn line_range(from: usize, len: usize, limit: usize) -> LineRange
    requires { from + len ≤ usize.MAX }
    ensures { IsRangeFrom from len limit result }
{
    if len <= limit {
        LineRange::Bytes(from, from + len)
    } else {
        LineRange::TooLong
    }
}

// Returns the range of the last line, which has no newline.
fn last_line_range(from: usize, to: usize) -> LineRange
    ensures { IsLastRange from to result }
{
    if from == to {
        LineRange::End
    } else {
        LineRange::Bytes(from, to)
    }
}
