// Runs over documents in memory.
use json_print::Style;
use json_text::{FakeSource, Result, Rules, Sink, Source, VecSink};
use mezdruk_files::{
    InputForm, Job, NamedDocument, NamedSource, Unchanged, ValueChange, print_documents,
    print_lines,
};
use std::alloc::Global;

/// What a run writes and reports, and its status.
#[derive(Drop)]
pub struct Outcome<'a> {
    pub output: &'a [u8],
    pub reports: &'a [u8],
    pub status: u8,
}

/// The input of a run over one document, and its outcome.
#[derive(Drop)]
pub struct Row {
    pub input: &'static [u8],
    pub outcome: Outcome<'static>,
}

/// A name, and the bytes of a document; none where they could not be read.
pub struct Named {
    pub name: &'static str,
    pub bytes: Option<&'static [u8]>,
}

/// Returns the job that prints values compact, by the usual rules.
pub fn compact<C>(change: C) -> Job<'static, C> {
    Job::new(change, Style::new(None, false), Rules::usual())
}

/// Returns the status of a run. The proof of a caller has none of its clauses to carry.
pub fn status_of<C: ValueChange, K: Sink, E: Sink>(
    alloc: Global,
    documents: &[NamedDocument],
    job: &Job<'_, C>,
    sink: &mut K,
    errs: &mut E,
) -> u8 {
    print_documents(alloc, documents, job, sink, errs)
}

/// Returns whether a run over documents has this outcome.
pub fn come_to<C: ValueChange>(
    alloc: Global,
    documents: &[NamedDocument],
    job: &Job<'_, C>,
    outcome: &Outcome<'_>,
) -> bool {
    let mut sink = VecSink::new(alloc);
    let mut errs = VecSink::new(alloc);
    let status = status_of(alloc, documents, job, &mut sink, &mut errs);
    status == outcome.status
        && sink.as_slice() == outcome.output
        && errs.as_slice() == outcome.reports
}

/// Returns whether a run over the document `f` of these bytes has this outcome.
pub fn comes_to<C: ValueChange>(
    alloc: Global,
    job: &Job<'_, C>,
    input: &[u8],
    outcome: &Outcome<'_>,
) -> bool {
    match NamedDocument::new(alloc, "f", input) {
        Ok(document) => come_to(alloc, &[document], job, outcome),
        Err(_) => false,
    }
}

/// Returns whether a run over the input of each row has its outcome.
pub fn all_hold<C: ValueChange>(alloc: Global, job: &Job<'_, C>, rows: &[Row]) -> bool {
    for row in rows {
        if !comes_to(alloc, job, row.input, &row.outcome) {
            return false;
        }
    }
    true
}

/// The same of inputs of this form that are printed as they are.
pub fn all_print(alloc: Global, form: InputForm, rows: &[Row]) -> bool {
    let mut job = compact(Unchanged);
    job.input = form;
    all_hold(alloc, &job, rows)
}

/// Returns the status of a run over the lines of a source. The proof of a caller has none of its
/// clauses to carry.
pub fn lines_status<C: ValueChange, S: Source, K: Sink, E: Sink>(
    alloc: Global,
    input: &mut NamedSource<'_, S>,
    job: &Job<'_, C>,
    sink: &mut K,
    errs: &mut E,
) -> u8 {
    print_lines(alloc, input, job, sink, errs)
}

// Returns whether a run over the lines of the source `f` of these bytes, of which it gives at most
// `at_once` a call, has this outcome.
fn lines_come_to(alloc: Global, input: &[u8], at_once: usize, outcome: &Outcome<'_>) -> bool {
    let source = FakeSource::new(input, at_once.max(1), &[]);
    let mut named = NamedSource { name: "f", source };
    let mut sink = VecSink::new(alloc);
    let mut errs = VecSink::new(alloc);
    let job = compact(Unchanged);
    let status = lines_status(alloc, &mut named, &job, &mut sink, &mut errs);
    status == outcome.status
        && sink.as_slice() == outcome.output
        && errs.as_slice() == outcome.reports
}

/// Returns whether the lines of each input are printed as they are, by a source that gives at most
/// `at_once` bytes a call.
pub fn all_lines_print(alloc: Global, at_once: usize, rows: &[Row]) -> bool {
    for row in rows {
        if !lines_come_to(alloc, row.input, at_once, &row.outcome) {
            return false;
        }
    }
    true
}

fn document_of(alloc: Global, named: &Named) -> Result<NamedDocument> {
    match named.bytes {
        Some(bytes) => NamedDocument::new(alloc, named.name, bytes),
        None => Ok(NamedDocument {
            name: String::from_str(alloc, named.name)?,
            bytes: None,
        }),
    }
}

/// Returns the documents of these names and bytes.
pub fn documents_of(alloc: Global, all: &[Named]) -> Result<Vec<NamedDocument>> {
    let mut documents = Vec::new(alloc);
    for named in all {
        documents.push(document_of(alloc, named)?)?;
    }
    Ok(documents)
}
