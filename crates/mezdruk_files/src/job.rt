// What is done with each document.
ghost use Rattle.std.specs.Prelude.{◌≡◌, false, IfOk, IfErr};
ghost use Rattle.json_command.specs.Printing.{Prints, ReturnsWriteError};
ghost use Rattle.json_doc.specs.Docs.{doc_root, doc_tree};
ghost use Rattle.mezdruk_files.specs.Outcomes.{task_of, line_in, printed_or_string};
ghost use Rattle.json_io.specs.Errors.{OnlyNoMemory};
ghost use Rattle.mezdruk_files.specs.Running.{IsMade, PrintsTree, PrintingStops, PrintsBytes, BytesStop};
ghost use Rattle.mezdruk_files.specs.Writing.{WritesOutput};
ghost use Rattle.mezdruk_files.specs.declared.job.InputForm.TheVariants.{One};
ghost use Rattle.json_value.specs.Denotes.{tree_of};

use crate::change::ValueChange;
use crate::change_error::{ChangeCode, ChangeError};
use crate::document::read_bytes;
use crate::document_error::DocumentError;
use crate::each_line::write_lines;
use crate::text::print_text;
use json_command::{Printer, write_text};
use json_doc::Doc;
use json_io::{Error, ErrorCode, Place, Result, Sink};
use json_layout::Style;
use json_text::Rules;
use json_value::Value;
use std::alloc::Global;
use std::rc::Rc;

/// The form that the bytes of each document have.
///
/// ```
/// use mezdruk_files::{InputForm, Job, Unchanged};
/// use json_text::Rules;
/// let job = Job::new(Unchanged, None, Rules::usual());
/// assert_eq!(rt; job.input, InputForm::One);
/// ```
#[derive(Clone, Copy, Debug, PartialEq, Eq)]
pub enum InputForm {
    /// One JSON text.
    One,
    /// A JSON text on each line. A line of whitespace alone is skipped.
    Lines,
    /// JSON values one after another, with or without whitespace between them. They are read by the
    /// usual rules (at most 254 levels, keys may repeat), up to the first error.
    Stream,
}

/// What [`print_documents`](crate::print_documents) does with each document: how it is read, how
/// its value is changed, and how the changed value is printed.
///
/// ```
/// use mezdruk_files::{Job, Unchanged};
/// use json_print::Style;
/// use json_text::Rules;
/// let job = Job::new(Unchanged, Style::new(Some("  "), true), Rules::usual());
/// assert!(rt; job.style.is_some_and(Style::sorted));
/// assert!(rt; !job.raw);
/// ```
#[derive(Drop)]
pub struct Job<'a, C> {
    /// The change that is applied to each value.
    pub change: C,
    /// The style in which each changed value is printed; `None` if it is not printed, and documents
    /// are only checked.
    pub style: Option<Style<'a>>,
    /// The rules by which each document is read, unless `input` is [`InputForm::Stream`].
    pub rules: Rules,
    /// The form that the bytes of each document have.
    pub input: InputForm,
    /// Whether a value that is a string is printed as its content, without quotes and escapes.
    pub raw: bool,
    /// Whether each element of the changed array is printed on a line of its own. Nothing is printed
    /// then of a value that is no array.
    pub each: bool,
}

impl<'a, C> Job<'a, C> {
    /// Creates a job over documents of one JSON text each. Strings are printed as JSON texts;
    /// `style` is `None` if documents are only checked.
    pub fn new(change: C, style: Option<Style<'a>>, rules: Rules) -> Job<'a, C>
        ensures change { result.change ≡ change }
        ensures style { result.style ≡ style.entry }
        ensures rules { result.rules ≡ rules }
        ensures input { result.input ≡ One }
        ensures raw { result.raw ≡ false }
        ensures each { result.each ≡ false }
    {
        Job {
            change,
            style,
            rules,
            input: InputForm::One,
            raw: false,
            each: false,
        }
    }
}

// The error of a run for which memory ran out.
pub(crate) const OUT_OF_MEMORY: Error = Error {
    code: ErrorCode::NoMemory,
    place: Place::None,
};

// Prints the text of the value, or the content of a string.
fn print_document<K: Sink>(
    printer: &Printer,
    value: &Value,
    style: Style<'_>,
    raw: bool,
    sink: &mut K,
) -> Result<()>
    ensures { Prints (K.state sink.old) (K.state sink.new)
        (printed_or_string raw style.entry (tree_of value.now)) result }
{
    if raw {
        if let Some(content) = value.view().text() {
            return write_text(sink, content.as_bytes());
        }
    }
    print_text(printer, value, style, sink)
}

/// Prints the line of the value, or nothing if there is no style.
pub(crate) fn write_line<K: Sink>(
    printer: &Printer,
    value: &Value,
    style: Option<Style<'_>>,
    raw: bool,
    sink: &mut K,
) -> Result<()>
    ensures { WritesOutput (K.state sink.old) (K.state sink.new)
        (line_in raw style.entry (tree_of value.now)) result }
{
    let Some(style) = style else {
        return Ok(());
    };
    match print_document(printer, value, style, raw, sink) {
        Ok(()) => write_text(sink, b"\n"),
        Err(error) => Err(error),
    }
}

// Changes the value of a document. Returns the changed value, or why the change does not apply.
fn changed_value<C: ValueChange>(
    alloc: Global,
    doc: &Rc<Doc>,
    change: &C,
) -> Result<std::result::Result<Value, ChangeError>>
    ensures ok { IfOk result (λ made. IsMade
        (C.changed change.now (doc_tree doc.now.value (doc_root doc.now.value))) made) }
    ensures only { OnlyNoMemory result }
{
    let mut value = Value::from_place(alloc, doc, doc.root())?;
    match change.apply(alloc, &mut value) {
        Ok(()) => Ok(Ok(value)),
        Err(error) => match error.code {
            ChangeCode::NoMemory => Err(OUT_OF_MEMORY),
            _ => Ok(Err(error)),
        },
    }
}

/// Changes the value of a document and prints it with a newline, or returns why the change does not
/// apply. Fails with `Io` at `Writing` if the sink fails, and with `NoMemory` if memory runs out.
pub(crate) fn print_changed<C: ValueChange, K: Sink>(
    printer: &Printer,
    doc: &Rc<Doc>,
    job: &Job<'_, C>,
    sink: &mut K,
) -> Result<Option<ChangeError>>
    ensures ok { IfOk result (PrintsTree (task_of C.changed job.now)
        (doc_tree doc.now.value (doc_root doc.now.value)) (K.state sink.old) (K.state sink.new)) }
    ensures err { IfErr result (PrintingStops (task_of C.changed job.now)
        (doc_tree doc.now.value (doc_root doc.now.value)) (K.state sink.old) (K.state sink.new)) }
    ensures reported { ReturnsWriteError (K.state sink.old) (K.state sink.new) result }
{
    let value = match changed_value(printer.alloc(), doc, &job.change) {
        Ok(Ok(value)) => value,
        Ok(Err(error)) => return Ok(Some(error)),
        Err(error) => return Err(error),
    };
    match write_lines(printer, &value, job, sink) {
        Ok(()) => Ok(None),
        Err(error) => Err(error),
    }
}

/// Reads the bytes as a document, changes its value and prints it with a newline, or returns why
/// the document is not valid or the change does not apply. Fails with `Io` at `Writing` if the sink
/// fails, and with `NoMemory` if memory runs out.
pub(crate) fn print_bytes<C: ValueChange, K: Sink>(
    printer: &Printer,
    bytes: &[u8],
    job: &Job<'_, C>,
    sink: &mut K,
) -> Result<Option<DocumentError>>
    ensures ok { IfOk result (PrintsBytes (task_of C.changed job.now) bytes.now
        (K.state sink.old) (K.state sink.new)) }
    ensures err { IfErr result (BytesStop (task_of C.changed job.now) bytes.now
        (K.state sink.old) (K.state sink.new)) }
    ensures reported { ReturnsWriteError (K.state sink.old) (K.state sink.new) result }
{
    let doc = match read_bytes(printer.alloc(), bytes, job.rules) {
        Ok(doc) => doc,
        Err(error) => match (error.code, error.place) {
            (ErrorCode::NoMemory, Place::None) => return Err(error),
            (_, _) => return Ok(Some(DocumentError::Input(error))),
        },
    };
    match print_changed(printer, &doc, job, sink) {
        Ok(None) => Ok(None),
        Ok(Some(error)) => Ok(Some(DocumentError::Change(error))),
        Err(error) => Err(error),
    }
}
