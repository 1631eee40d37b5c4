// The documents, one after another.
ghost use Rattle.std.specs.Prelude.{◌≡◌, ◌<◌, ◌≤◌, ◌+◌, ◌^◌, ◌⊎◌, ◌∷◌, List, ℕ, [], true, false, Some, Err, length, max, IfOk, OnOk, IfErr, IfSome};
ghost use Rattle.json_command.specs.Printing.{Prints, ReturnsWriteError};
ghost use Rattle.json_command.specs.Reporting.{Reports, ReportsUnlessMuted};
ghost use Rattle.mezdruk_files.specs.Documents.{DocumentsHave};
ghost use Rattle.mezdruk_files.specs.Outcomes.{task_of};
ghost use Rattle.mezdruk_files.specs.Running.{Handles, StopsRunning, PrintsAll, PrintsSome};
ghost use Rattle.mezdruk_files.specs.Writing.{SendsBlock};
ghost use Rattle.json_io.specs.FaultText.{text_of};
ghost use Rattle.mezdruk_files.specs.Parts.{HasFewLines};
ghost use Rattle.json_command.specs.Statuses.{ReturnsWriteStatus};

use crate::change::ValueChange;
use crate::document::NamedDocument;
use crate::document_error::DocumentError;
use crate::job::{InputForm, Job, print_bytes, print_changed};
use crate::part::{DocumentPart, Scope, is_blank, split_line, whole_part};
use crate::report::document_report;
use crate::value_stream::{StreamPlace, document_text, read_value_at, value_part};
use json_command::{Printer, Status, report, write_text};
use json_io::{Error, ErrorCode, Place, Result, Sink, VecSink, put_all};
use json_scan::ws_run;
use std::alloc::Global;

// The values of a stream are written in blocks of at least this many bytes.
const BLOCK_BYTES: usize = 65_536;

// The error of a document that could not be read.
const READING_FAILED: DocumentError = DocumentError::Input(Error {
    code: ErrorCode::Io,
    place: Place::Reading,
});

// Writes what is printed if it has as many bytes as a block, and returns what is left.
fn write_if_long<K: Sink>(alloc: Global, printed: VecSink, sink: &mut K) -> Result<VecSink>
    ensures ok { IfOk result (λ left. SendsBlock (K.state sink.old) (K.state sink.new)
        (⟦<VecSink as Sink>⟧.state printed) (⟦<VecSink as Sink>⟧.state left)) }
    ensures err { IfErr result (λ e. (text : List ℕ)
        × ((⟦<VecSink as Sink>⟧.state printed).gained ≡ Some text)
        × Prints (K.state sink.old) (K.state sink.new) text (Err e)) }
{
    if printed.as_slice().len() < BLOCK_BYTES {
        return Ok(printed);
    }
    match write_text(sink, printed.as_slice()) {
        Ok(()) => Ok(VecSink::new(alloc)),
        Err(error) => Err(error),
    }
}

// The state of a run.
#[derive(Drop)]
pub(crate) struct DocumentTally {
    // what prints the changed values
    pub(crate) printer: Printer,
    // the greatest status so far
    pub(crate) status: u8,
    // whether a report failed, after which none is made
    pub(crate) muted: bool,
}

impl DocumentTally {
    ghost use Rattle.mezdruk_files.specs.Documents.{BytesHave, DocumentHas};
    ghost use Rattle.mezdruk_files.specs.Outcomes.{HasPartOutcome, LineOutcome, document_error_status};
    ghost use Rattle.mezdruk_files.specs.Streams.{IsNextPlace, ValueFails, StreamHas, ValueHas, ValuesHave, stream_value_place};
    ghost use Rattle.json_text.specs.Faults.{ValueFaultFrom};
    ghost use Rattle.std.specs.Str.{IsCharBoundary};
    ghost use Rattle.mezdruk_files.specs.Parts.{part_view, parts_of_lines, lines_of, whole_part as spec_whole_part};
    ghost use Rattle.mezdruk_files.specs.Running.{HandlesParts, StopsAmongParts, ReportsError, ReportingFails};
    ghost use Rattle.mezdruk_files.specs.Sentences.{is_lower_case};

    // Reports an error, unless a report failed.
    fn put_report<E: Sink>(&mut self, errs: &mut E, error: &DocumentError, text: &[u8])
        ensures reports { ReportsUnlessMuted self.old.muted self.new.muted
            (E.state errs.old) (E.state errs.new) text.now }
        ensures status { self.new.status ≡ max self.old.status (document_error_status error.now) }
    {
        self.status = self.status.max(error.status());
        if self.muted {
            return;
        }
        match put_all(errs, text) {
            Ok(()) => {}
            Err(_) => self.muted = true,
        }
    }

    // Reports the error of a part of a document.
    fn report_error<E: Sink>(
        &mut self,
        part: DocumentPart<'_>,
        error: &DocumentError,
        part_name: &str,
        errs: &mut E,
    ) -> Result<()>
        requires few { HasFewLines (part_view part) }
        requires word { is_lower_case part_name.now ≡ true }
        ensures ok { OnOk result (ReportsError (part_view part.entry) error.now self.old self.new
            (E.state errs.old) (E.state errs.new)) }
        ensures err { IfErr result (ReportingFails self.old self.new
            (E.state errs.old) (E.state errs.new)) }
    {
        match document_report(self.printer.alloc(), part, error, part_name) {
            Ok(text) => {
                self.put_report(errs, error, &text);
                Ok(())
            }
            Err(error) => Err(error),
        }
    }

    // Prints a part of a document or reports its error.
    fn handle_part<C: ValueChange, K: Sink, E: Sink>(
        &mut self,
        part: DocumentPart<'_>,
        job: &Job<'_, C>,
        sink: &mut K,
        errs: &mut E,
    ) -> Result<()>
        requires few { HasFewLines (part_view part) }
        ensures ok { OnOk result (HandlesParts (HasPartOutcome (task_of C.changed job.now))
            (part_view part.entry ∷ []) self.old self.new
            (K.state sink.old) (K.state sink.new) (E.state errs.old) (E.state errs.new)) }
        ensures err { IfErr result (StopsAmongParts (HasPartOutcome (task_of C.changed job.now))
            (part_view part.entry ∷ []) self.old self.new
            (K.state sink.old) (K.state sink.new) (E.state errs.old) (E.state errs.new)) }
        ensures reported { ReturnsWriteError (K.state sink.old) (K.state sink.new) result }
    {
        match print_bytes(&self.printer, part.bytes, job, sink) {
            Ok(None) => Ok(()),
            Ok(Some(error)) => self.report_error(part, &error, job.change.part_name(), errs),
            Err(error) => Err(error),
        }
    }

    // Prints each line of a part of a document or reports its error. Skips lines that have only
    // whitespace. Returns the number of lines of the document up to the end of the part.
    pub(crate) fn handle_lines<C: ValueChange, K: Sink, E: Sink>(
        &mut self,
        lines: DocumentPart<'_>,
        job: &Job<'_, C>,
        sink: &mut K,
        errs: &mut E,
    ) -> Result<usize>
        requires few { HasFewLines (part_view lines) }
        ensures ok { OnOk result (HandlesParts (LineOutcome (task_of C.changed job.now))
            (parts_of_lines (part_view lines.entry)) self.old self.new
            (K.state sink.old) (K.state sink.new) (E.state errs.old) (E.state errs.new)) }
        ensures number { IfOk result (λ n. n ≡ (part_view lines.entry).before
            + length (lines_of (part_view lines.entry).bytes)) }
        ensures err { IfErr result (StopsAmongParts (LineOutcome (task_of C.changed job.now))
            (parts_of_lines (part_view lines.entry)) self.old self.new
            (K.state sink.old) (K.state sink.new) (E.state errs.old) (E.state errs.new)) }
        ensures reported { ReturnsWriteError (K.state sink.old) (K.state sink.new) result }
    {
        let mut number = lines.before;
        let mut rest = lines.bytes;
        'lines: while !rest.is_empty() {
            let (line, later) = split_line(rest);
            let part = DocumentPart {
                name: lines.name,
                bytes: line,
                before: number,
                scope: Scope::Line,
            };
            number += 1;
            rest = later;
            if is_blank(line) {
                continue;
            }
            match self.handle_part(part, job, sink, errs) {
                Ok(()) => {}
                Err(error) => return Err(error),
            }
        }
        Ok(number)
    }

    // Reports an error of the input, unless memory ran out.
    pub(crate) fn handle_fault<E: Sink>(
        &mut self,
        whole: DocumentPart<'_>,
        error: Error,
        errs: &mut E,
    ) -> Result<()>
        requires few { (part_view whole).before + length (part_view whole).bytes + 1 < 2 ^ 64 }
        ensures fault { OnOk result ((b : List ℕ) (i : ℕ) → ValueFails b i error.code error.place
            → ValueFaultFrom false 254 i b error.code error.place) }
        ensures ok { OnOk result (ReportsError (part_view whole.entry) (DocumentError.Input error)
            self.old self.new (E.state errs.old) (E.state errs.new)) }
        ensures err { IfErr result (ReportingFails self.old self.new
            (E.state errs.old) (E.state errs.new)) }
    {
        match (error.code, error.place) {
            (ErrorCode::NoMemory, Place::None) => Err(error),
            (_, _) => self.report_error(whole, &DocumentError::Input(error), "", errs),
        }
    }

    // Prints the value at a place of a text or reports its error. Returns the offset after the
    // value; `None` if no value can be read.
    fn handle_value<C: ValueChange, K: Sink, E: Sink>(
        &mut self,
        place: StreamPlace<'_>,
        job: &Job<'_, C>,
        sink: &mut K,
        errs: &mut E,
    ) -> Result<Option<usize>>
        requires { IsCharBoundary place.text.now place.offset }
        ensures ok { IfOk result (λ next. Handles
            (ValueHas (task_of C.changed job.now)
            (stream_value_place place.entry) next) self.old self.new
            (K.state sink.old) (K.state sink.new) (E.state errs.old) (E.state errs.new)) }
        ensures next { IfOk result (λ next. IfSome next
            (IsNextPlace place.entry.text.now place.entry.offset)) }
        ensures err { IfErr result (StopsRunning
            (StreamHas (task_of C.changed job.now) (stream_value_place place.entry).name
            (stream_value_place place.entry).text false
            (stream_value_place place.entry).offset
            (stream_value_place place.entry).number) self.old self.new
            (K.state sink.old) (K.state sink.new) (E.state errs.old) (E.state errs.new)) }
        ensures reported { ReturnsWriteError (K.state sink.old) (K.state sink.new) result }
    {
        let whole = whole_part(place.name, place.text.as_bytes());
        let (doc, next) = match read_value_at(self.printer.alloc(), place.text, place.offset) {
            Ok(read) => read,
            Err(error) => match self.handle_fault(whole, error, errs) {
                Ok(()) => return Ok(None),
                Err(error) => return Err(error),
            },
        };
        let error = match print_changed(&self.printer, &doc, job, sink) {
            Ok(None) => return Ok(Some(next)),
            Ok(Some(error)) => DocumentError::Change(error),
            Err(error) => return Err(error),
        };
        let part = value_part(place);
        match self.report_error(part, &error, job.change.part_name(), errs) {
            Ok(()) => Ok(Some(next)),
            Err(error) => Err(error),
        }
    }

    // Prints each value of a text or reports its error, up to where no value can be read. What is
    // printed is written in blocks.
    fn handle_text<C: ValueChange, K: Sink, E: Sink>(
        &mut self,
        start: StreamPlace<'_>,
        job: &Job<'_, C>,
        sink: &mut K,
        errs: &mut E,
    ) -> Result<()>
        requires { IsCharBoundary start.text.now 0 }
        ensures ok { OnOk result (Handles
            (StreamHas (task_of C.changed job.now) (stream_value_place start.entry).name
            (stream_value_place start.entry).text true 0 0) self.old self.new
            (K.state sink.old) (K.state sink.new) (E.state errs.old) (E.state errs.new)) }
        ensures err { IfErr result (StopsRunning
            (StreamHas (task_of C.changed job.now) (stream_value_place start.entry).name
            (stream_value_place start.entry).text false 0 0) self.old self.new
            (K.state sink.old) (K.state sink.new) (E.state errs.old) (E.state errs.new)) }
        ensures reported { ReturnsWriteError (K.state sink.old) (K.state sink.new) result }
    {
        let text = start.text;
        let mut block = VecSink::new(self.printer.alloc());
        let mut offset = 0;
        let mut number = 0;
        'values: while ws_run(text.as_bytes(), offset) < text.len() {
            let place = StreamPlace {
                name: start.name,
                text,
                offset,
                number,
            };
            match self.handle_value(place, job, &mut block, errs) {
                Ok(Some(next)) => {
                    offset = next;
                    number += 1;
                }
                Ok(None) => return write_text(sink, block.as_slice()),
                Err(error) => return Err(error),
            }
            match write_if_long(self.printer.alloc(), block, sink) {
                Ok(left) => block = left,
                Err(error) => return Err(error),
            }
        }
        write_text(sink, block.as_slice())
    }

    // Prints each value of a document or reports its error.
    fn handle_values<C: ValueChange, K: Sink, E: Sink>(
        &mut self,
        whole: DocumentPart<'_>,
        job: &Job<'_, C>,
        sink: &mut K,
        errs: &mut E,
    ) -> Result<()>
        requires { part_view whole
            ≡ spec_whole_part (part_view whole).name (part_view whole).bytes }
        ensures ok { OnOk result (Handles (ValuesHave true (task_of C.changed job.now)
            (part_view whole.entry).name (part_view whole.entry).bytes) self.old self.new
            (K.state sink.old) (K.state sink.new) (E.state errs.old) (E.state errs.new)) }
        ensures err { IfErr result (StopsRunning (ValuesHave false (task_of C.changed job.now)
            (part_view whole.entry).name (part_view whole.entry).bytes) self.old self.new
            (K.state sink.old) (K.state sink.new) (E.state errs.old) (E.state errs.new)) }
        ensures reported { ReturnsWriteError (K.state sink.old) (K.state sink.new) result }
    {
        match document_text(whole.bytes) {
            Ok(text) => {
                let start = StreamPlace {
                    name: whole.name,
                    text,
                    offset: 0,
                    number: 0,
                };
                self.handle_text(start, job, sink, errs)
            }
            Err(error) => self.report_error(whole, &DocumentError::Input(error), "", errs),
        }
    }

    // Prints what the bytes of a document have or reports their errors.
    fn handle_bytes<C: ValueChange, K: Sink, E: Sink>(
        &mut self,
        whole: DocumentPart<'_>,
        job: &Job<'_, C>,
        sink: &mut K,
        errs: &mut E,
    ) -> Result<()>
        requires { part_view whole
            ≡ spec_whole_part (part_view whole).name (part_view whole).bytes }
        ensures ok { OnOk result (Handles (BytesHave true (task_of C.changed job.now)
            (part_view whole.entry).name (Some (part_view whole.entry).bytes) job.now.input)
            self.old self.new
            (K.state sink.old) (K.state sink.new) (E.state errs.old) (E.state errs.new)) }
        ensures err { IfErr result (StopsRunning (BytesHave false (task_of C.changed job.now)
            (part_view whole.entry).name (Some (part_view whole.entry).bytes) job.now.input)
            self.old self.new
            (K.state sink.old) (K.state sink.new) (E.state errs.old) (E.state errs.new)) }
        ensures reported { ReturnsWriteError (K.state sink.old) (K.state sink.new) result }
    {
        match job.input {
            InputForm::One => self.handle_part(whole, job, sink, errs),
            InputForm::Lines => match self.handle_lines(whole, job, sink, errs) {
                Ok(_) => Ok(()),
                Err(error) => Err(error),
            },
            InputForm::Stream => self.handle_values(whole, job, sink, errs),
        }
    }

    // Prints what a document has or reports its errors.
    fn handle_document<C: ValueChange, K: Sink, E: Sink>(
        &mut self,
        document: &NamedDocument,
        job: &Job<'_, C>,
        sink: &mut K,
        errs: &mut E,
    ) -> Result<()>
        ensures ok { OnOk result (Handles
            (DocumentHas true (task_of C.changed job.now) document.now) self.old self.new
            (K.state sink.old) (K.state sink.new) (E.state errs.old) (E.state errs.new)) }
        ensures err { IfErr result (StopsRunning
            (DocumentHas false (task_of C.changed job.now) document.now) self.old self.new
            (K.state sink.old) (K.state sink.new) (E.state errs.old) (E.state errs.new)) }
        ensures reported { ReturnsWriteError (K.state sink.old) (K.state sink.new) result }
    {
        let name = document.name.as_str();
        match &document.bytes {
            Some(bytes) => self.handle_bytes(whole_part(name, bytes), job, sink, errs),
            None => self.report_error(whole_part(name, b""), &READING_FAILED, "", errs),
        }
    }
}

// Prints each document or reports its error.
fn print_each<C: ValueChange, K: Sink, E: Sink>(
    documents: &[NamedDocument],
    job: &Job<'_, C>,
    sink: &mut K,
    errs: &mut E,
    tally: &mut DocumentTally,
) -> Result<()>
    ensures ok { OnOk result (Handles
        (DocumentsHave true (task_of C.changed job.now) documents.now) tally.old tally.new
        (K.state sink.old) (K.state sink.new) (E.state errs.old) (E.state errs.new)) }
    ensures err { IfErr result (StopsRunning
        (DocumentsHave false (task_of C.changed job.now) documents.now) tally.old tally.new
        (K.state sink.old) (K.state sink.new) (E.state errs.old) (E.state errs.new)) }
    ensures reported { ReturnsWriteError (K.state sink.old) (K.state sink.new) result }
{
    for document in documents {
        match tally.handle_document(document, job, sink, errs) {
            Ok(()) => {}
            Err(error) => return Err(error),
        }
    }
    Ok(())
}

// Reports the error of the run, unless a report failed.
pub(crate) fn report_unless_muted<E: Sink>(errs: &mut E, muted: bool, error: &Error)
    ensures reported { muted ≡ false
        → Reports (text_of error.now) (E.state errs.old) (E.state errs.new) }
    ensures silent { muted ≡ true → E.state errs.new ≡ E.state errs.old }
{
    if !muted {
        report(errs, error);
    }
}

/// Reads each document, applies the change of the job to its value, and prints the changed value
/// and a newline to `sink`, in the style of the job. Prints nothing if the job has no style. The
/// job may also read each line of a document, or each value of a stream, in place of the whole
/// document.
///
/// Where a document is not valid, could not be read or the change does not apply to it, its error
/// is reported to `errs`, and the next document follows. After a report could not be written, no
/// further ones are.
///
/// Returns the greatest status that a document has: 0 if all is done, 1 if one is not valid, 3 if
/// the change does not apply to one, and 4 if one could not be read. Returns 5 if writing fails,
/// and 6 if memory runs out. The run ends then: `sink` has a prefix of the output, and the error is
/// reported.
///
/// ```
/// use mezdruk_files::{NamedDocument, Job, Unchanged, print_documents};
/// use json_print::Style;
/// use json_text::{Rules, VecSink};
/// let documents = vec![in alloc;
///     NamedDocument::new(alloc, "a.json", b"[1 2]")?,
///     NamedDocument::new(alloc, "b.json", b" { } ")?,
/// ]?;
/// let job = Job::new(Unchanged, Style::new(None, false), Rules::usual());
/// let (mut sink, mut errs) = (VecSink::new(alloc), VecSink::new(alloc));
/// assert_eq!(rt; print_documents(alloc, &documents, &job, &mut sink, &mut errs), 1);
/// assert_eq!(rt; sink.as_slice(), b"{}\n".as_slice());
/// assert!(rt; errs.as_slice().starts_with(b"a.json:1:4: a comma or `]` is expected"));
/// ```
pub fn print_documents<C: ValueChange, K: Sink, E: Sink>(
    alloc: Global,
    documents: &[NamedDocument],
    job: &Job<'_, C>,
    sink: &mut K,
    errs: &mut E,
) -> u8
    ensures done { result < 5 → PrintsAll (task_of C.changed job.now) documents.now
        (K.state sink.old) (K.state sink.new) (E.state errs.old) (E.state errs.new) result }
    ensures failed { 5 ≤ result → PrintsSome (task_of C.changed job.now) documents.now
        (K.state sink.old) (K.state sink.new) (E.state errs.old) (E.state errs.new) result }
    ensures known { (result < 5) ⊎ (result ≡ 5) ⊎ (result ≡ 6) }
    ensures write_error { ReturnsWriteStatus (K.state sink.old) (K.state sink.new) result }
{
    let mut tally = DocumentTally {
        printer: Printer::new(alloc),
        status: 0,
        muted: false,
    };
    match print_each(documents, job, sink, errs, &mut tally) {
        Ok(()) => tally.status,
        Err(error) => {
            report_unless_muted(errs, tally.muted, &error);
            Status::of_error(&error).number()
        }
    }
}
