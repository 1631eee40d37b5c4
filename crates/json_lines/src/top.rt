// The top call: words, a source, a sink and a sink of errors.
ghost use Rattle.std.specs.Prelude.{◌≡◌, ◌≢◌, length, ◌+◌, ◌<◌, ◌≤◌, ◌⊎◌, List, ℕ, true, false, OnOk, IfErr, if◌then◌else◌};
ghost use Rattle.json_lines.specs.Cells.{LinesCommand, table_header};
ghost use Rattle.json_lines.specs.Outcomes.{HasOutcome};
ghost use Rattle.json_lines.specs.Reading.{GivesBytes};
ghost use Rattle.json_lines.specs.Rows.{HasWithin};
ghost use Rattle.json_lines.specs.Tables.{table_command};
ghost use Rattle.json_lines.specs.RunResults.{ReadsAll, StopsAtBad, AppendsRows, TellsErrors, StatusTellsBad, RefusesWords, FailsRun, RunResult, NothingFails};
ghost use Rattle.json_lines.specs.TopCall.{IsNewTally, WritesAllRows, WritesPartOfTable, run_status as spec_run_status, streams};
ghost use Rattle.json_lines.specs.Words.{AsksForColumns, IsLinesRequest};
ghost use Rattle.json_command.specs.Input.{max_bytes};
ghost use Rattle.json_command.specs.Reporting.{Reports};
ghost use Rattle.json_io.specs.FaultText.{text_of};
ghost use Rattle.json_command.specs.Statuses.{ReturnsReadStatus, ReturnsWriteStatus, MeansReadFailed, MeansWriteFailed};

use crate::asked::requested_table;
use crate::run::{LineTally, write_all_rows};
use crate::table::Table;
use json_command::{Status, report};
use json_io::{Error, ErrorCode, LentSink, Place, Result, Sink, Source, Words};
use json_layout::{BufferedWriter, WriteBuffer};
use std::alloc::Global;

// Writes the header and the rows of all lines that are handled, through a buffer.
fn write_table<S: Source, K: Sink, E: Sink>(
    table: &Table,
    source: &mut S,
    sink: &mut K,
    errs: &mut E,
    tally: &mut LineTally,
) -> Result<()>
    requires { IsNewTally tally.old }
    ensures ok { OnOk result (WritesAllRows
        (HasWithin 1048576 (HasOutcome (table_command table.now))) (table_command table.now).strict
        (table_header (table_command table.now))
        (streams (S.state source.old) (K.state sink.old) (E.state errs.old))
        (streams (S.state source.new) (K.state sink.new) (E.state errs.new)) tally.new) }
    ensures err { IfErr result (λ e. WritesPartOfTable
        (HasWithin 1048576 (HasOutcome (table_command table.now))) (table_command table.now).strict
        (table_header (table_command table.now))
        (streams (S.state source.old) (K.state sink.old) (E.state errs.old))
        (streams (S.state source.new) (K.state sink.new) (E.state errs.new)) tally.new e) }
{
    let buffer = WriteBuffer::new(tally.alloc)?;
    let mut writer = BufferedWriter::with_buffer(buffer, LentSink::new(sink));
    let outcome = write_all_rows(table, source, &mut writer, errs, tally);
    let _sink = writer.into_inner().into_inner();
    outcome
}

// Returns the status of an error.
fn run_status(error: &Error) -> u8
    ensures { result ≡ spec_run_status error.now.code error.now.place }
{
    match (error.code, error.place) {
        (ErrorCode::TooLarge, Place::None) => Status::TooMuchInput.number(),
        (_, _) => Status::of_error(error).number(),
    }
}

// Returns the status of a run that is complete.
fn done_status(bad: bool) -> u8
    ensures { result ≡ (if bad then 1 else 0) }
{
    if bad {
        Status::InvalidInput.number()
    } else {
        Status::Success.number()
    }
}

// Reports an error, unless a report failed.
fn report_unless_muted<E: Sink>(errs: &mut E, muted: bool, error: &Error)
    ensures reported { muted ≡ false
        → Reports (text_of error.now) (E.state errs.old) (E.state errs.new) }
    ensures silent { muted ≡ true → E.state errs.new ≡ E.state errs.old }
{
    if !muted {
        report(errs, error);
    }
}

// Writes the rows of all lines, and reports the error of each bad one.
fn run_table<S: Source, K: Sink, E: Sink>(
    alloc: Global,
    table: &Table,
    source: &mut S,
    sink: &mut K,
    errs: &mut E,
) -> u8
    ensures { (arguments : List (List ℕ)) → AsksForColumns arguments (table_command table.now)
        → RunResult arguments
        (streams (S.state source.old) (K.state sink.old) (E.state errs.old))
        (streams (S.state source.new) (K.state sink.new) (E.state errs.new)) result }
{
    let mut tally = LineTally {
        alloc,
        number: 0,
        bad: false,
        muted: false,
    };
    match write_table(table, source, sink, errs, &mut tally) {
        Ok(()) => done_status(tally.bad),
        Err(error) => {
            report_unless_muted(errs, tally.muted, &error);
            run_status(&error)
        }
    }
}

// Does all that `run_lines` does, under one contract.
fn run_arguments<S: Source, K: Sink, E: Sink>(
    alloc: Global,
    arguments: &Words,
    source: &mut S,
    sink: &mut K,
    errs: &mut E,
) -> u8
    ensures { RunResult arguments.now
        (streams (S.state source.old) (K.state sink.old) (E.state errs.old))
        (streams (S.state source.new) (K.state sink.new) (E.state errs.new)) result }
{
    match requested_table(alloc, arguments) {
        Ok(table) => run_table(alloc, &table, source, sink, errs),
        Err(error) => {
            report(errs, &error);
            run_status(&error)
        }
    }
}

/// Runs the whole JSON Lines program: writes a row to `sink` for each good line of `source`, and
/// the error of each bad line to `errs`.
///
/// `arguments` has one argument for the columns and, before or after it, at most once each the
/// options `--has=PATH`, `--csv` and `--strict`. The columns are a JSON array of 1 to 64 elements
/// `[path, kind]`. A path, also that of `--has`, is a JSON array of keys and indexes; a kind is
/// `"text"`, `"int"`, `"bool"` or `"json"`. A line has no row if the path of `--has` leads to no
/// value in it.
///
/// A row is a cell for each column, with tabs between them and a newline at the end. The kind says
/// which values a cell shows: strings, integers, booleans, or all for `"json"`. A cell is the
/// compact text of the value at its path, or `-` if there is no value of that kind.
///
/// With `--csv` a row is a record of CSV (RFC 4180, section 2), which ends with CR and LF, and the
/// first record is a header: for each column the compact text of its path. A string is a field as
/// it is, and each other value by its compact text. A field is between double quotes if it has a
/// comma, a double quote, CR or LF, or is the empty string. A field without a value of its kind has
/// no byte.
///
/// Lines of whitespace alone are skipped. A line is bad if it has more than 1,048,576 bytes, or is
/// not a JSON text (RFC 8259) of at most 254 levels in UTF-8. `errs` then gets the number of the
/// line, counted from 1, and the error. With `--strict` the first bad line ends the run: no line
/// after it has a row or an error.
///
/// Returns the exit status:
///
/// - 0: all lines are good.
/// - 1: some line is bad; the rows of the others were written, with `--strict` of those before it.
/// - 2: the arguments have another form; nothing was read, and nothing written to `sink`.
/// - 4: a read failed.
/// - 5: a write failed.
/// - 6: memory ran out.
/// - 7: `source` has more than 4,294,967,295 bytes.
///
/// On 4 to 7 `sink` has got a prefix of the header and the rows. `errs` has got the errors of the
/// first lines, and then the error of the run, as far as `errs` does not fail.
///
/// ```
/// use json_lines::run_lines;
/// use json_text::{SliceSource, VecSink, Words};
///
/// let mut arguments = Words::new(alloc);
/// arguments.push("[[[\"id\"],\"int\"],[[\"name\"],\"text\"]]")?;
/// let mut source = SliceSource::new(b"{\"id\":1,\"name\":\"Ada\"}\n{\"id\":2}\n");
/// let mut sink = VecSink::new(alloc);
/// let mut errs = VecSink::new(alloc);
/// let status = run_lines(alloc, &arguments, &mut source, &mut sink, &mut errs);
/// assert_eq!(rt; status, 0);
/// assert_eq!(rt; sink.as_slice(), b"1\t\"Ada\"\n2\t-\n".as_slice());
/// ```
pub fn run_lines<S: Source, K: Sink, E: Sink>(
    alloc: Global,
    arguments: &Words,
    source: &mut S,
    sink: &mut K,
    errs: &mut E,
) -> u8
    ensures read { result < 2 → ReadsAll
        (streams (S.state source.old) (K.state sink.old) (E.state errs.old))
        (streams (S.state source.new) (K.state sink.new) (E.state errs.new))
        ⊎ StopsAtBad arguments.now
        (streams (S.state source.old) (K.state sink.old) (E.state errs.old))
        (streams (S.state source.new) (K.state sink.new) (E.state errs.new)) result }
    ensures rows { result < 2 → AppendsRows arguments.now
        (streams (S.state source.old) (K.state sink.old) (E.state errs.old))
        (streams (S.state source.new) (K.state sink.new) (E.state errs.new)) }
    ensures errors { result < 2 → TellsErrors arguments.now
        (streams (S.state source.old) (K.state sink.old) (E.state errs.old))
        (streams (S.state source.new) (K.state sink.new) (E.state errs.new)) }
    ensures bad { result < 2 → StatusTellsBad arguments.now
        (streams (S.state source.old) (K.state sink.old) (E.state errs.old)) result }
    ensures arguments { result ≡ 2 → RefusesWords arguments.now
        (streams (S.state source.old) (K.state sink.old) (E.state errs.old))
        (streams (S.state source.new) (K.state sink.new) (E.state errs.new)) }
    ensures failed { 2 < result → FailsRun arguments.now
        (streams (S.state source.old) (K.state sink.old) (E.state errs.old))
        (streams (S.state source.new) (K.state sink.new) (E.state errs.new)) result }
    ensures known { (result ≤ 7) × (result ≢ 3) }
    ensures reading { MeansReadFailed (S.state source.old) (S.state source.new) result }
    ensures writing { MeansWriteFailed (K.state sink.old) (K.state sink.new) result }
    ensures large { result ≡ 7 → (bytes : List ℕ)
        × GivesBytes (S.state source.old) (S.state source.new) bytes
        × (max_bytes < length bytes) }
    ensures read_error { ReturnsReadStatus (S.state source.old) (S.state source.new) result }
    ensures write_error { ReturnsWriteStatus (K.state sink.old) (K.state sink.new) result }
    ensures unasked { ¬ (IsLinesRequest arguments.now) → (result ≡ 2) ⊎ (result ≡ 6) }
    ensures complete { NothingFails arguments.now
        (streams (S.state source.old) (K.state sink.old) (E.state errs.old))
        (streams (S.state source.new) (K.state sink.new) (E.state errs.new))
        → (result < 2) ⊎ (result ≡ 6) }
{
    run_arguments(alloc, arguments, source, sink, errs)
}
