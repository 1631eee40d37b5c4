// Writes the row of each line, and reports the error of each bad one.
ghost use Rattle.std.specs.Prelude.{◌≡◌, ◌+◌, ◌++◌, ◌<◌, ◌≤◌, [], List, ℕ, length, IfOk, IfErr, OnOk, Ok, Err, true, Bool, ◌⊎◌, ◌&&◌};
ghost use Rattle.json_io.specs.Transfer.{Puts};
ghost use Rattle.json_lines.specs.Rows.{Outcome, HasWithin, error_line};
ghost use Rattle.json_lines.specs.Reading.{line_reader_state};
ghost use Rattle.json_lines.specs.Running.{IsFreshRun, FinishesLines, FailsEarly, run_state};
ghost use Rattle.json_lines.specs.TopCall.{IsNewTally, WritesAllRows, WritesFewerRows, streams};
ghost use Rattle.json_lines.specs.Steps.{StepResult, StepFails};
ghost use Rattle.json_layout.specs.TextWriting.{WritesText};
ghost use Rattle.json_command.specs.Reporting.{ReportsUnlessMuted};

use crate::{Line, LineError, LineReader};
use itoa::Buffer;
use json_doc::DocumentRoom;
use json_io::{FaultText, Result, Sink, Source, flush_all, put_all};
use std::alloc::Global;

// A line of more bytes is too long.
const MAX_LINE: usize = 1048576;

/// What writes the row of a line.
pub(crate) trait RowWriter<K: Sink> {
    ghost use Rattle.json_lines.specs.LineHandling.{WritesRow, RowFails};
    ghost use Rattle.json_layout.specs.TextWriting.{WritesText};

    /// The outcomes that a line has: its row or its error.
    ghost has_outcome: { Self → List ℕ → Outcome → Type 0 };

    /// What is written before all rows.
    ghost header: { Self → List ℕ };

    /// Whether the first bad line ends the run.
    ghost strict: { Self → Bool };

    /// Returns whether the run ends after a line; `bad` says whether some line so far is bad.
    fn ends_after(&self, bad: bool) -> bool
        ensures { result ≡ (strict self.now && bad) };

    /// Writes what is before all rows to `sink`. Fails if writing fails or memory runs out.
    fn write_header(&self, sink: &mut K) -> Result<()>
        ensures { WritesText (K.state sink.old) (K.state sink.new) (header self.now) result };

    /// Writes the row of a good line to `sink` and returns `None`, or returns the error text of a
    /// bad line. The document of the line is read in `room`, whose memory serves line after line.
    ///
    /// Fails if writing fails or memory runs out. A line is at most 1,048,576 bytes long.
    fn write_row(
        &self,
        room: &mut DocumentRoom,
        line: &[u8],
        sink: &mut K,
    ) -> Result<Option<FaultText>>
        requires short { length line.now ≤ 1048576 }
        ensures ok { IfOk result (λ fault.
            WritesRow (has_outcome self.now line.now) (K.state sink.old) (K.state sink.new) fault) }
        ensures err { IfErr result (λ e.
            RowFails (has_outcome self.now line.now) (K.state sink.old) (K.state sink.new) e) };
}

// The state of a run.
#[derive(Drop)]
pub(crate) struct LineTally {
    // the allocator
    pub(crate) alloc: Global,
    // the number of lines so far
    pub(crate) number: u64,
    // whether one of them was bad
    pub(crate) bad: bool,
    // whether a report failed, after which none is made
    pub(crate) muted: bool,
}

// What writes the rows of lines, and the room where their documents are read.
#[derive(Drop)]
struct RowRoom<'r, R> {
    rows: &'r R,
    documents: DocumentRoom,
}

// What the lines are read with, and their rows written with.
#[derive(Drop)]
struct LineRun<'r, R> {
    reader: LineReader,
    room: RowRoom<'r, R>,
}

// Reports one error, with the number of its line.
fn write_error_line<E: Sink>(errs: &mut E, number: u64, text: &[u8]) -> Result<()>
    ensures { Puts (E.state errs.old) (E.state errs.new) (error_line number text.now) result }
{
    let mut buffer = Buffer::new();
    write_three(errs, buffer.format(number).as_bytes(), b": ", text)
}

// Writes three texts, one after another.
fn write_three<E: Sink>(errs: &mut E, first: &[u8], second: &[u8], third: &[u8]) -> Result<()>
    ensures { Puts (E.state errs.old) (E.state errs.new)
        (first.now ++ (second.now ++ third.now)) result }
{
    match put_all(errs, first) {
        Ok(()) => write_both(errs, second, third),
        Err(error) => Err(error),
    }
}

// Writes two texts, one after another.
fn write_both<E: Sink>(errs: &mut E, first: &[u8], second: &[u8]) -> Result<()>
    ensures { Puts (E.state errs.old) (E.state errs.new) (first.now ++ second.now) result }
{
    match put_all(errs, first) {
        Ok(()) => put_all(errs, second),
        Err(error) => Err(error),
    }
}

impl LineTally {
    ghost use Rattle.json_lines.specs.LineHandling.{HandlesLine, LineFails, LineHas, IsWithinLimit};

    // Reports the error of the line of this number, unless a report failed.
    fn report_bad<E: Sink>(&mut self, errs: &mut E, text: &[u8])
        ensures reports { ReportsUnlessMuted self.old.muted self.new.muted
            (E.state errs.old) (E.state errs.new) (error_line self.old.number text.now) }
        ensures number { self.new.number ≡ self.old.number }
        ensures bad { self.new.bad ≡ true }
    {
        self.bad = true;
        if self.muted {
            return;
        }
        match write_error_line(errs, self.number, text) {
            Ok(()) => {}
            Err(_) => self.muted = true,
        }
    }

    // Counts a line, and writes its row or reports its error.
    fn handle_line<R: RowWriter<K>, K: Sink, E: Sink>(
        &mut self,
        room: &mut RowRoom<'_, R>,
        line: Line<'_>,
        sink: &mut K,
        errs: &mut E,
    ) -> Result<()>
        requires few { self.old.number < u64.MAX }
        requires short { IsWithinLimit 1048576 line }
        ensures ok { OnOk result (HandlesLine
            (LineHas (R.has_outcome room.old.rows.now) line.entry) self.old self.new
            (K.state sink.old) (K.state sink.new) (E.state errs.old) (E.state errs.new)) }
        ensures err { IfErr result (λ e. LineFails
            (LineHas (R.has_outcome room.old.rows.now) line.entry) self.old self.new
            (K.state sink.old) (K.state sink.new) (E.state errs.old) (E.state errs.new) e) }
        ensures rows { room.new.rows.now ≡ room.old.rows.now }
    {
        self.number += 1;
        let bytes = match line {
            Line::Whole(bytes) => bytes,
            Line::TooLong => {
                self.report_bad(errs, LineError::LineTooLong.text());
                return Ok(());
            }
        };
        match room.rows.write_row(&mut room.documents, bytes, sink) {
            Ok(None) => Ok(()),
            Ok(Some(text)) => {
                self.report_bad(errs, text.as_bytes());
                Ok(())
            }
            Err(error) => Err(error),
        }
    }
}

// Reads and handles one line. Returns false if there is none.
fn handle_next_line<R: RowWriter<K>, S: Source, K: Sink, E: Sink>(
    run: &mut LineRun<'_, R>,
    source: &mut S,
    sink: &mut K,
    errs: &mut E,
    tally: &mut LineTally,
) -> Result<bool>
    requires few { tally.old.number < u64.MAX }
    requires limit { (line_reader_state run.old.reader).limit ≤ 1048576 }
    ensures ok { IfOk result (λ more. StepResult (R.has_outcome run.old.room.rows.now)
        (run_state run.old.reader
        (S.state source.old) (K.state sink.old) (E.state errs.old) tally.old)
        (run_state run.new.reader
        (S.state source.new) (K.state sink.new) (E.state errs.new) tally.new) more) }
    ensures err { IfErr result (λ e. StepFails (R.has_outcome run.old.room.rows.now)
        (run_state run.old.reader
        (S.state source.old) (K.state sink.old) (E.state errs.old) tally.old)
        (run_state run.new.reader
        (S.state source.new) (K.state sink.new) (E.state errs.new) tally.new) e) }
    ensures rows { run.new.room.rows.now ≡ run.old.room.rows.now }
{
    let line = match run.reader.next_line(source) {
        Ok(Some(line)) => line,
        Ok(None) => return Ok(false),
        Err(error) => return Err(error),
    };
    match tally.handle_line(&mut run.room, line, sink, errs) {
        Ok(()) => Ok(true),
        Err(error) => Err(error),
    }
}

// Sends the rows so far before a read that may wait, so that rows flow as lines arrive.
#[inline(always)]
fn send_before_read<K: Sink>(reader: &LineReader, sink: &mut K) -> Result<()>
    ensures { WritesText (K.state sink.old) (K.state sink.new) [] result }
{
    if reader.needs_read() {
        flush_all(sink)
    } else {
        Ok(())
    }
}

// Reads and handles all lines, or where the run is strict those up to the first bad one.
fn write_rows<R: RowWriter<K>, S: Source, K: Sink, E: Sink>(
    run: &mut LineRun<'_, R>,
    source: &mut S,
    sink: &mut K,
    errs: &mut E,
    tally: &mut LineTally,
) -> Result<()>
    requires limit { (line_reader_state run.old.reader).limit ≤ 1048576 }
    requires fresh { IsFreshRun
        (run_state run.old.reader
        (S.state source.old) (K.state sink.old) (E.state errs.old) tally.old) }
    ensures ok { OnOk result (FinishesLines
        (HasWithin (line_reader_state run.old.reader).limit (R.has_outcome run.old.room.rows.now))
        (R.strict run.old.room.rows.now)
        (run_state run.old.reader
        (S.state source.old) (K.state sink.old) (E.state errs.old) tally.old)
        (run_state run.new.reader
        (S.state source.new) (K.state sink.new) (E.state errs.new) tally.new)) }
    ensures err { IfErr result (λ e. FailsEarly
        (HasWithin (line_reader_state run.old.reader).limit (R.has_outcome run.old.room.rows.now))
        (R.strict run.old.room.rows.now)
        (run_state run.old.reader
        (S.state source.old) (K.state sink.old) (E.state errs.old) tally.old)
        (run_state run.new.reader
        (S.state source.new) (K.state sink.new) (E.state errs.new) tally.new) e) }
{
    'line: loop {
        match send_before_read(&run.reader, sink) {
            Ok(()) => {}
            Err(error) => return Err(error),
        }
        match handle_next_line(run, source, sink, errs, tally) {
            Ok(true) => {
                if run.room.rows.ends_after(tally.bad) {
                    return Ok(());
                }
            }
            Ok(false) => return Ok(()),
            Err(error) => return Err(error),
        }
    }
}

// Writes the rows of all lines that are handled, and flushes the sink.
fn write_lines<R: RowWriter<K>, S: Source, K: Sink, E: Sink>(
    rows: &R,
    source: &mut S,
    sink: &mut K,
    errs: &mut E,
    tally: &mut LineTally,
) -> Result<()>
    requires { IsNewTally tally.old }
    ensures ok { OnOk result (WritesAllRows
        (HasWithin 1048576 (R.has_outcome rows.now)) (R.strict rows.now) []
        (streams (S.state source.old) (K.state sink.old) (E.state errs.old))
        (streams (S.state source.new) (K.state sink.new) (E.state errs.new))
        tally.new) }
    ensures err { IfErr result (λ e. WritesFewerRows
        (HasWithin 1048576 (R.has_outcome rows.now)) (R.strict rows.now) []
        (streams (S.state source.old) (K.state sink.old) (E.state errs.old))
        (streams (S.state source.new) (K.state sink.new) (E.state errs.new))
        tally.new e) }
    ensures loan { (K.state sink.new).loan ≡ (K.state sink.old).loan }
{
    let reader = LineReader::new(tally.alloc, MAX_LINE)?;
    let documents = DocumentRoom::new(tally.alloc);
    let room = RowRoom { rows, documents };
    let mut run = LineRun { reader, room };
    match write_rows(&mut run, source, sink, errs, tally) {
        Ok(()) => flush_all(sink),
        Err(error) => Err(error),
    }
}

/// Writes the header and the rows of all lines of `source` to `sink`, which is then flushed, and
/// reports the errors of bad lines to `errs`. Where `rows` is strict, no line after the first bad
/// one is handled. `tally` counts the lines and must be new.
///
/// Fails if reading or writing rows fails or memory runs out; rows written so far stay.
pub(crate) fn write_all_rows<R: RowWriter<K>, S: Source, K: Sink, E: Sink>(
    rows: &R,
    source: &mut S,
    sink: &mut K,
    errs: &mut E,
    tally: &mut LineTally,
) -> Result<()>
    requires { IsNewTally tally.old }
    ensures ok { OnOk result (WritesAllRows
        (HasWithin 1048576 (R.has_outcome rows.now)) (R.strict rows.now) (R.header rows.now)
        (streams (S.state source.old) (K.state sink.old) (E.state errs.old))
        (streams (S.state source.new) (K.state sink.new) (E.state errs.new))
        tally.new) }
    ensures err { IfErr result (λ e. WritesFewerRows
        (HasWithin 1048576 (R.has_outcome rows.now)) (R.strict rows.now) (R.header rows.now)
        (streams (S.state source.old) (K.state sink.old) (E.state errs.old))
        (streams (S.state source.new) (K.state sink.new) (E.state errs.new))
        tally.new e) }
    ensures loan { (K.state sink.new).loan ≡ (K.state sink.old).loan }
{
    match rows.write_header(sink) {
        Ok(()) => write_lines(rows, source, sink, errs, tally),
        Err(error) => Err(error),
    }
}
