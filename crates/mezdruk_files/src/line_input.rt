// The lines of a source, each handled before more of the source is read.
ghost use Rattle.std.specs.Prelude.{◌≡◌, ◌⊎◌, ◌<◌, ◌≤◌, ◌+◌, ◌-◌, ◌++◌, false, length, drop, take, vec_len, IfOk, OnOk, IfErr};
ghost use Rattle.json_command.specs.Printing.{ReturnsWriteError};
ghost use Rattle.json_command.specs.Statuses.{ReturnsWriteStatus};
ghost use Rattle.json_io.specs.Errors.{OnlyNoMemory};
ghost use Rattle.mezdruk_files.specs.Inputs.{AreWholeLines, has_newline, ReadsMore, ReadingStops, PrintsInput, PrintsPartOfInput};
ghost use Rattle.mezdruk_files.specs.Outcomes.{task_of};
ghost use Rattle.mezdruk_files.specs.Parts.{part_view, line_part};

use crate::change::ValueChange;
use crate::document::MAX_BYTES;
use crate::job::{Job, OUT_OF_MEMORY};
use crate::part::{DocumentPart, Scope, whole_part};
use crate::run::{DocumentTally, report_unless_muted};
use json_command::{Printer, Status, write_text};
use json_io::{Error, ErrorCode, Failed, Place, Result, Sink, Source, VecSink};
use memchr::memrchr;
use std::alloc::Global;
use std::mem;

// A read asks for this many bytes at most.
const READ_BYTES: usize = 65_536;

// The error of an input that fails.
const READING_FAILED: Error = Error {
    code: ErrorCode::Io,
    place: Place::Reading,
};

// The error of an input that has more bytes than are read.
const TOO_LARGE: Error = Error {
    code: ErrorCode::TooLarge,
    place: Place::None,
};

/// A source of documents, and the name by which reports of errors call it.
///
/// ```
/// use json_text::SliceSource;
/// use mezdruk_files::NamedSource;
/// let input = NamedSource { name: "a.jsonl", source: SliceSource::new(b"1\n2\n") };
/// assert_eq!(rt; input.name, "a.jsonl");
/// ```
#[derive(Drop)]
pub struct NamedSource<'a, S> {
    /// The name by which reports of errors call the source, such as that of its file.
    pub name: &'a str,
    /// The source.
    pub source: S,
}

// Returns the room for one read.
fn read_room(alloc: Global) -> Result<Vec<u8>>
    ensures size { IfOk result (λ room. vec_len room ≡ 65536) }
    ensures only { OnlyNoMemory result }
{
    Ok(vec![in alloc; 0; READ_BYTES]?)
}

// Reads once and appends the bytes to those that are held. Returns their number.
fn read_more<S: Source>(source: &mut S, block: &mut [u8], held: &mut Vec<u8>) -> Result<usize>
    requires some { 0 < length block.old }
    requires size { length block.old ≤ 65536 }
    ensures ok { IfOk result (ReadsMore (S.state source.old) (S.state source.new)
        held.old.items held.new.items) }
    ensures few { IfOk result (λ n. n ≤ 65536) }
    ensures err { IfErr result (λ e. ReadingStops (S.state source.old) (S.state source.new)
        e.code e.place) }
{
    match source.read(block) {
        Ok(count) => match held.extend_from_slice(&block[..count]) {
            Ok(()) => Ok(count),
            Err(_) => Err(OUT_OF_MEMORY),
        },
        Err(Failed) => Err(READING_FAILED),
    }
}

// Returns the offset after the last newline of the bytes from an offset on, or 0 if they have none.
fn end_of_lines(held: &[u8], from: usize) -> usize
    requires { from ≤ length held.now }
    ensures within { result ≤ length held.now }
    ensures whole { AreWholeLines (take result held.now) }
    ensures unended { has_newline (take from held.now) ≡ false
        → has_newline (drop result held.now) ≡ false }
{
    match memrchr(b'\n', &held[from..]) {
        Some(last) => from + last + 1,
        None => 0,
    }
}

// Takes the lines that ended out of the bytes that are held, of which the last `count` are new.
fn take_lines(alloc: Global, held: &mut Vec<u8>, count: usize) -> Result<Vec<u8>>
    requires { count ≤ length held.old.items }
    ensures parted { IfOk result (λ lines. held.old.items ≡ lines.items ++ held.new.items) }
    ensures whole { IfOk result (λ lines. AreWholeLines lines.items) }
    ensures unended { IfOk result (λ _.
        has_newline (take (length held.old.items - count) held.old.items) ≡ false
        → has_newline held.new.items ≡ false) }
    ensures only { OnlyNoMemory result }
{
    let end = end_of_lines(held.as_slice(), held.len() - count);
    let rest = held[end..].to_vec(alloc)?;
    held.truncate(end);
    Ok(mem::replace(held, rest))
}

// Returns lines of an input, of which `before` lines precede them.
fn lines_after<'a>(name: &'a str, before: usize, bytes: &'a [u8]) -> DocumentPart<'a>
    ensures { part_view result ≡ line_part name.now before bytes.now }
{
    DocumentPart {
        name,
        bytes,
        before,
        scope: Scope::Line,
    }
}

impl DocumentTally {
    ghost use Rattle.mezdruk_files.specs.Inputs.{HandlesInput, StopsInput};
    ghost use Rattle.mezdruk_files.specs.Outcomes.{LineOutcome};
    ghost use Rattle.mezdruk_files.specs.Parts.{HasFewLines, lines_of, parts_of_lines};
    ghost use Rattle.mezdruk_files.specs.Running.{HandlesParts, StopsAmongParts};

    // Prints each line or reports its error, and sends what is printed. Returns the number of lines
    // up to the end of these.
    fn send_lines<C: ValueChange, K: Sink, E: Sink>(
        &mut self,
        lines: DocumentPart<'_>,
        job: &Job<'_, C>,
        sink: &mut K,
        errs: &mut E,
    ) -> Result<usize>
        requires few { HasFewLines (part_view lines) }
        ensures ok { OnOk result (HandlesParts (LineOutcome (task_of C.changed job.now))
            (parts_of_lines (part_view lines.entry)) self.old self.new
            (K.state sink.old) (K.state sink.new) (E.state errs.old) (E.state errs.new)) }
        ensures number { IfOk result (λ n. n ≡ (part_view lines.entry).before
            + length (lines_of (part_view lines.entry).bytes)) }
        ensures err { IfErr result (StopsAmongParts (LineOutcome (task_of C.changed job.now))
            (parts_of_lines (part_view lines.entry)) self.old self.new
            (K.state sink.old) (K.state sink.new) (E.state errs.old) (E.state errs.new)) }
        ensures reported { ReturnsWriteError (K.state sink.old) (K.state sink.new) result }
    {
        let mut block = VecSink::new(self.printer.alloc());
        let handled = self.handle_lines(lines, job, &mut block, errs);
        match write_text(sink, block.as_slice()) {
            Ok(()) => handled,
            Err(error) => Err(error),
        }
    }

    // Does what `send_lines` does with the last lines of an input.
    fn send_last<C: ValueChange, K: Sink, E: Sink>(
        &mut self,
        lines: DocumentPart<'_>,
        job: &Job<'_, C>,
        sink: &mut K,
        errs: &mut E,
    ) -> Result<()>
        requires few { HasFewLines (part_view lines) }
        ensures ok { OnOk result (HandlesParts (LineOutcome (task_of C.changed job.now))
            (parts_of_lines (part_view lines.entry)) self.old self.new
            (K.state sink.old) (K.state sink.new) (E.state errs.old) (E.state errs.new)) }
        ensures err { IfErr result (StopsAmongParts (LineOutcome (task_of C.changed job.now))
            (parts_of_lines (part_view lines.entry)) self.old self.new
            (K.state sink.old) (K.state sink.new) (E.state errs.old) (E.state errs.new)) }
        ensures reported { ReturnsWriteError (K.state sink.old) (K.state sink.new) result }
    {
        match self.send_lines(lines, job, sink, errs) {
            Ok(_) => Ok(()),
            Err(error) => Err(error),
        }
    }

    // Prints each line of a source or reports its error. What is printed is sent before each read.
    fn handle_input<C: ValueChange, S: Source, K: Sink, E: Sink>(
        &mut self,
        input: &mut NamedSource<'_, S>,
        job: &Job<'_, C>,
        sink: &mut K,
        errs: &mut E,
    ) -> Result<()>
        ensures ok { OnOk result (HandlesInput (task_of C.changed job.now) input.old.name.now
            (S.state input.old.source) (S.state input.new.source) self.old self.new
            (K.state sink.old) (K.state sink.new) (E.state errs.old) (E.state errs.new)) }
        ensures err { IfErr result (StopsInput (task_of C.changed job.now) input.old.name.now
            (S.state input.old.source) (S.state input.new.source) self.old self.new
            (K.state sink.old) (K.state sink.new) (E.state errs.old) (E.state errs.new)) }
        ensures reported { ReturnsWriteError (K.state sink.old) (K.state sink.new) result }
    {
        let name = input.name;
        let mut block = read_room(self.printer.alloc())?;
        let mut held = Vec::new(self.printer.alloc());
        let mut number = 0;
        let mut received = 0;
        'reads: while received <= MAX_BYTES {
            let count = match read_more(&mut input.source, block.as_mut_slice(), &mut held) {
                Ok(count) => count,
                Err(error) => return self.handle_fault(whole_part(name, b""), error, errs),
            };
            if count == 0 {
                return self.send_last(lines_after(name, number, &held), job, sink, errs);
            }
            received += count;
            let ended = match take_lines(self.printer.alloc(), &mut held, count) {
                Ok(ended) => ended,
                Err(error) => return Err(error),
            };
            let lines = lines_after(name, number, &ended);
            match self.send_lines(lines, job, sink, errs) {
                Ok(next) => number = next,
                Err(error) => return Err(error),
            }
        }
        self.handle_fault(whole_part(name, b""), TOO_LARGE, errs)
    }
}

/// Reads a source line by line, applies the change of the job to the value of each line, and prints
/// the changed value and a newline to `sink`, as [`print_documents`](crate::print_documents) does
/// with a document of [`InputForm::Lines`](crate::InputForm::Lines). The lines that ended are
/// printed, and `sink` is flushed, before each read of the source.
///
/// The error of a line that is not valid is reported to `errs`, and so is that of a source that
/// fails or has more than 4,294,967,295 bytes. The lines that ended before it are printed then.
///
/// Returns the greatest status that a line has: 0 if all is done, 1 if one is not valid or the
/// source has too many bytes, and 3 if the change does not apply to one. It is 4 if the source
/// fails. Returns 5 if writing fails, and 6 if memory runs out. The run ends then: `sink` has a
/// prefix of the output, and the error is reported.
///
/// ```
/// use json_print::Style;
/// use json_text::{Rules, SliceSource, VecSink};
/// use mezdruk_files::{Job, NamedSource, Unchanged, print_lines};
/// let job = Job::new(Unchanged, Style::new(None, false), Rules::usual());
/// let mut input = NamedSource { name: "a.jsonl", source: SliceSource::new(b"[1, 2]\n01\n{}") };
/// let (mut sink, mut errs) = (VecSink::new(alloc), VecSink::new(alloc));
/// assert_eq!(rt; print_lines(alloc, &mut input, &job, &mut sink, &mut errs), 1);
/// assert_eq!(rt; sink.as_slice(), b"[1,2]\n{}\n".as_slice());
/// assert!(rt; errs.as_slice().starts_with(b"a.jsonl:2:2: "));
/// ```
pub fn print_lines<C: ValueChange, S: Source, K: Sink, E: Sink>(
    alloc: Global,
    input: &mut NamedSource<'_, S>,
    job: &Job<'_, C>,
    sink: &mut K,
    errs: &mut E,
) -> u8
    ensures done { result < 5 → PrintsInput (task_of C.changed job.now) input.old.name.now
        (S.state input.old.source) (S.state input.new.source)
        (K.state sink.old) (K.state sink.new) (E.state errs.old) (E.state errs.new) result }
    ensures failed { 5 ≤ result → PrintsPartOfInput (task_of C.changed job.now) input.old.name.now
        (S.state input.old.source) (S.state input.new.source)
        (K.state sink.old) (K.state sink.new) (E.state errs.old) (E.state errs.new) result }
    ensures known { (result < 5) ⊎ (result ≡ 5) ⊎ (result ≡ 6) }
    ensures write_error { ReturnsWriteStatus (K.state sink.old) (K.state sink.new) result }
{
    let mut tally = DocumentTally {
        printer: Printer::new(alloc),
        status: 0,
        muted: false,
    };
    match tally.handle_input(input, job, sink, errs) {
        Ok(()) => tally.status,
        Err(error) => {
            report_unless_muted(errs, tally.muted, &error);
            Status::of_error(&error).number()
        }
    }
}
