// A document that is edited in the layout that it has.
ghost use Rattle.std.specs.Prelude.{◌≡◌, ◌≤◌, ◌<◌, ◌⊎◌};
ghost use Rattle.mezdruk_files.specs.EditedTexts.{bytes_or_none, sorts_members as sorts, in_style as in_other_style, with_end_of, EditsDocument, FailsToEdit, KeepsLayout};
ghost use Rattle.mezdruk_files.specs.FoundLayouts.{IsFoundStyle};
ghost use Rattle.mezdruk_files.specs.Outcomes.{task_of};
ghost use Rattle.mezdruk_files.specs.declared.job.InputForm.TheVariants.{One};
ghost use Rattle.json_layout.specs.declared.style.Style.{Style as ModelStyle};
ghost use Rattle.json_text.specs.Ruled.{rules_of};

use crate::change::ValueChange;
use crate::document::NamedDocument;
use crate::found_layout::{ends_line, find_style};
use crate::job::Job;
use crate::run::print_documents;
use json_io::{Sink, VecSink};
use json_layout::Style;
use std::alloc::Global;
use std::slice;

/// What [`edit_document`] returns: the text of the edited document, and the status.
///
/// ```
/// use mezdruk_files::{NamedDocument, Job, Unchanged, edit_document};
/// use json_text::{Rules, VecSink};
/// let document = NamedDocument::new(alloc, "a.json", b"[\n  1, 2]")?;
/// let job = Job::new(Unchanged, None, Rules::usual());
/// let edited = edit_document(alloc, &document, &job, &mut VecSink::new(alloc));
/// assert_eq!(rt; edited.status, 0);
/// assert_eq!(rt; edited.text.as_slice(), b"[\n  1,\n  2\n]".as_slice());
/// ```
#[derive(Drop)]
pub struct EditedText {
    /// The status, as [`print_documents`] returns it: 0 if the document was edited, and else a
    /// number that says why not.
    pub status: u8,
    /// The edited text, if the status is 0. Else it has no meaning.
    pub text: Vec<u8>,
}

// Returns whether members are sorted.
fn sorts_members<C>(job: &Job<'_, C>) -> bool
    ensures { result ≡ sorts job.now }
{
    match job.style {
        Some(style) => style.sorted(),
        None => false,
    }
}

// Returns the job in another style.
fn in_style<'a, C: Copy>(job: &Job<'_, C>, style: Style<'a>) -> Job<'a, C>
    ensures { result ≡ in_other_style job.now style.entry }
{
    Job {
        change: job.change,
        style: Some(style),
        rules: job.rules,
        input: job.input,
        raw: false,
        each: false,
    }
}

// Returns the bytes of a document; none if they could not be read.
fn bytes_of(document: &NamedDocument) -> &[u8]
    ensures { result.now ≡ bytes_or_none document.now }
{
    match &document.bytes {
        Some(bytes) => bytes,
        None => b"",
    }
}

// Returns the output without the newline at its end, if the bytes end with none.
fn with_end_of(bytes: &[u8], output: Vec<u8>) -> Vec<u8>
    ensures { result.items ≡ with_end_of bytes.now output.items }
{
    let mut text = output;
    if !ends_line(bytes) {
        text.truncate(text.len().saturating_sub(1));
    }
    text
}

/// Applies the change of the job to a document, and returns the text of the changed value in the
/// layout that the document has. The indent is the one that [`find_style`] finds, and a newline
/// ends the text if one ends the document. Members are sorted if the style of the job sorts them;
/// the rest of that style, and `raw`, are ignored.
///
/// If the document is not valid, could not be read, or the change does not apply to it, the error
/// is reported to `errs`, and the status of the result says so. It is the one that
/// [`print_documents`] returns.
///
/// ```
/// use mezdruk_files::{NamedDocument, EditAll, Job, edit_document};
/// use json_text::{Rules, VecSink};
/// use json_value::{Edit, Path, Value};
/// let edits = [Edit::Push { path: Path::new(alloc), value: Value::new_bool(true) }];
/// let change = EditAll::new(&edits).ok_or("too many edits")?;
/// let document = NamedDocument::new(alloc, "a.json", b"[\n\t1\n]\n")?;
/// let job = Job::new(change, None, Rules::usual());
/// let edited = edit_document(alloc, &document, &job, &mut VecSink::new(alloc));
/// assert_eq!(rt; edited.text.as_slice(), b"[\n\t1,\n\ttrue\n]\n".as_slice());
/// ```
pub fn edit_document<C: ValueChange + Copy, E: Sink>(
    alloc: Global,
    document: &NamedDocument,
    job: &Job<'_, C>,
    errs: &mut E,
) -> EditedText
    ensures done { result.status < 5 → (style : ModelStyle)
        × IsFoundStyle (bytes_or_none document.now) (sorts job.now) style
        × EditsDocument (task_of C.changed (in_other_style job.now style)) document.now
        (E.state errs.old) (E.state errs.new) result.text.items result.status }
    ensures failed { 5 ≤ result.status → (style : ModelStyle)
        × IsFoundStyle (bytes_or_none document.now) (sorts job.now) style
        × FailsToEdit (task_of C.changed (in_other_style job.now style)) document.now
        (E.state errs.old) (E.state errs.new) result.status }
    ensures known { (result.status < 5) ⊎ (result.status ≡ 5) ⊎ (result.status ≡ 6) }
    ensures kept { result.status ≡ 0 → job.now.input ≡ One
        → KeepsLayout (rules_of job.now.rules) (C.changed job.now.change) (sorts job.now)
        (bytes_or_none document.now) result.text.items }
{
    let bytes = bytes_of(document);
    let job = in_style(job, find_style(bytes, sorts_members(job)));
    let mut sink = VecSink::new(alloc);
    let status = print_documents(alloc, slice::from_ref(document), &job, &mut sink, errs);
    let text = with_end_of(bytes, sink.into_vec());
    EditedText { status, text }
}
