// What a command does with each file.

use crate::changes::{carry_out, report_arguments};
use crate::files::{
    read_document, reason_of, refuse_irregular, report_file, report_unread, shown_name,
};
use crate::in_place::replace_content;
use crate::inlet::{Inlet, Reading};
use crate::missing::{Target, hint_of_target};
use crate::outlet::{ErrorOutlet, Outlet};
use crate::rpc::serve_file;
use json_command::{Console, Status, report_text, write_text};
use json_text::{StdSink, StdSource, VecSink, Words};
use mezdruk_arguments::{command_first, help_asked, read_arguments};
use mezdruk_files::{
    EditedText, InputForm, Job, NamedDocument, NamedSource, ValueChange, edit_document,
    print_documents, print_lines,
};
use mezdruk_help::ABOUT_MEZDRUK;
use mezdruk_programs::run_named;
use std::cell::Cell;
use std::slice;

// Runs a command of the tool, and returns the status.
fn run_command(rt: &HostRuntime, console: &mut Console, words: &Words) -> u8 {
    if let Some(verb) = help_asked(words) {
        return match write_text(&mut console.sink, verb.help().as_bytes()) {
            Ok(()) => Status::Success.number(),
            Err(error) => Status::of_error(&error).number(),
        };
    }
    let status = match read_arguments(rt.alloc(), words) {
        Ok(arguments) => carry_out(rt, console, words, arguments),
        Err(error) => report_arguments(rt, console, words, &error),
    };
    ABOUT_MEZDRUK.add_hint(status, &mut console.errs);
    status
}

// Returns the command whose help `help` asks for, and an empty word where it asks for that of the
// program. Returns `None` for all else.
fn command_of_help(words: &Words) -> Option<&str> {
    if words.len() == 0 || words.word(0) != "help" {
        return None;
    }
    match words.len() {
        1 => Some(""),
        2 => Some(words.word(1)),
        _ => None,
    }
}

// Whether an option comes first that the command may follow. None may follow one that asks for the
// help or the version of the program.
fn begins_with_option(words: &Words) -> bool {
    if words.len() == 0 {
        return false;
    }
    let first = words.word(0);
    first.starts_with('-') && !matches!(first, "--help" | "-h" | "--version" | "-V")
}

// Returns the arguments with the command before the options that come first.
fn arguments_in_order(rt: &HostRuntime, words: Words) -> json_text::Result<Words> {
    if begins_with_option(&words) {
        command_first(rt.alloc(), &words)
    } else {
        Ok(words)
    }
}

// Returns the arguments with the command first, where `help` and a command are the command and
// `--help`.
fn arguments_meant(rt: &HostRuntime, words: Words) -> json_text::Result<Words> {
    let words = arguments_in_order(rt, words)?;
    let mut meant = Words::new(rt.alloc());
    match command_of_help(&words) {
        Some(command) => {
            if !command.is_empty() {
                meant.push(command)?;
            }
            meant.push("--help")?;
        }
        None => return Ok(words),
    }
    Ok(meant)
}

/// Does what the arguments ask for, and returns the status.
pub fn run(rt: &HostRuntime, console: &mut Console) -> u8 {
    let words = std::mem::replace(&mut console.arguments, Words::new(rt.alloc()));
    let Ok(words) = arguments_meant(rt, words) else {
        return Status::OutOfMemory.number();
    };
    if let Some(status) = ABOUT_MEZDRUK.say_asked(&words, &mut console.sink) {
        return status.number();
    }
    if let Some(status) = serve_file(rt, console, &words) {
        return status;
    }
    let (source, sink, errs) = (&mut console.source, &mut console.sink, &mut console.errs);
    match run_named(rt.alloc(), &words, source, sink, errs) {
        Some(status) => {
            console.explain_failure(rt.alloc(), "mezdruk", status);
            status
        }
        None => run_command(rt, console, &words),
    }
}

/// What is done with each file.
#[derive(Drop)]
pub struct Work<'a, C> {
    /// What is done with its documents.
    pub job: Job<'static, C>,
    /// Where the command leads in them.
    pub target: Target<'a>,
    /// How it is read.
    pub reading: Reading,
    /// Whether the file is written in place.
    pub in_place: bool,
    /// Whether it is written in the layout that it has.
    pub keeps_layout: bool,
    /// Whether what is printed on standard output has colors.
    pub has_colors: bool,
    /// How many files were changed in place.
    pub changed: Cell<usize>,
}

impl<'a, C> Work<'a, C> {
    // Adds the hint at why the command does not apply to the one document of an input.
    fn add_hint(
        &self,
        rt: &HostRuntime,
        console: &mut Console,
        document: &NamedDocument,
        status: u8,
    ) {
        if status != Status::EditFailed.number() || self.job.input != InputForm::One {
            return;
        }
        let Some(bytes) = &document.bytes else {
            return;
        };
        if let Ok(Some(hint)) = hint_of_target(rt.alloc(), bytes, self.job.rules, self.target) {
            report_text(&mut console.errs, hint.as_bytes());
        }
    }
}

// Prints the changed document, and returns the status.
fn print_document<C: ValueChange>(
    rt: &HostRuntime,
    console: &mut Console,
    document: NamedDocument,
    work: &Work<'_, C>,
) -> u8 {
    let failure = Cell::new(None);
    let mut sink = StdSink::new(Outlet::new(rt, work.has_colors, &failure));
    let mut errs = VecSink::new(rt.alloc());
    let documents = [document];
    let status = print_documents(rt.alloc(), &documents, &work.job, &mut sink, &mut errs);
    let [document] = documents;
    console.note_output(failure.get());
    report_text(&mut console.errs, errs.as_slice());
    work.add_hint(rt, console, &document, status);
    console.explain_failure(rt.alloc(), "mezdruk", status);
    status
}

// Returns the text of the changed document, and the status.
fn edited_text<C: ValueChange + Copy>(
    rt: &HostRuntime,
    console: &mut Console,
    document: &NamedDocument,
    work: &Work<'_, C>,
) -> EditedText {
    let errs = &mut console.errs;
    if work.keeps_layout {
        return edit_document(rt.alloc(), document, &work.job, errs);
    }
    let mut sink = VecSink::new(rt.alloc());
    let documents = slice::from_ref(document);
    let status = print_documents(rt.alloc(), documents, &work.job, &mut sink, errs);
    let text = sink.into_vec();
    EditedText { status, text }
}

// Writes the changed document to its file, if its text is another one, and returns the status.
fn write_in_place<C: ValueChange + Copy>(
    rt: &HostRuntime,
    console: &mut Console,
    document: NamedDocument,
    work: &Work<'_, C>,
) -> u8 {
    let EditedText { status, text } = edited_text(rt, console, &document, work);
    work.add_hint(rt, console, &document, status);
    let same = document
        .bytes
        .as_ref()
        .is_some_and(|bytes| bytes.as_slice() == text.as_slice());
    if status != Status::Success.number() || same {
        return status;
    }
    match replace_content(rt, document.name.as_str(), text.as_slice()) {
        Ok(()) => {
            work.changed.set(work.changed.get().saturating_add(1));
            status
        }
        Err(error) => {
            let (name, reason) = (document.name.as_str(), reason_of(&error));
            report_file(rt, console, name, reason, Status::WriteFailed)
        }
    }
}

// Prints the changed document of each line as the lines come, and returns the status.
fn print_each_line<C: ValueChange>(
    rt: &HostRuntime,
    console: &mut Console,
    file: &str,
    work: &Work<'_, C>,
) -> u8 {
    let inlet = match Inlet::open(rt, file, work.reading) {
        Ok(inlet) => inlet,
        Err(fault) => return report_unread(rt, console, file, fault),
    };
    let mut input = NamedSource {
        name: shown_name(file),
        source: StdSource::new(inlet),
    };
    let failure = Cell::new(None);
    let mut sink = StdSink::new(Outlet::new(rt, work.has_colors, &failure));
    let mut errs = StdSink::new(ErrorOutlet::new(rt, &failure));
    let status = print_lines(rt.alloc(), &mut input, &work.job, &mut sink, &mut errs);
    console.note_output(failure.get());
    console.explain_failure(rt.alloc(), "mezdruk", status);
    status
}

// Does what is asked for with one file, and returns the status.
fn run_file<C: ValueChange + Copy>(
    rt: &HostRuntime,
    console: &mut Console,
    file: &str,
    work: &Work<'_, C>,
) -> u8 {
    if work.in_place {
        if let Some(fault) = refuse_irregular(rt, file) {
            return report_unread(rt, console, file, fault);
        }
    } else if work.job.input == InputForm::Lines {
        return print_each_line(rt, console, file, work);
    }
    match read_document(rt, file, work.reading) {
        Ok(document) if work.in_place => write_in_place(rt, console, document, work),
        Ok(document) => print_document(rt, console, document, work),
        Err(fault) => report_unread(rt, console, file, fault),
    }
}

/// Does what is asked for with each file, or with standard input if there is none, and returns the
/// greatest status. It ends if standard output fails or memory runs out.
pub fn run_files<C: ValueChange + Copy>(
    rt: &HostRuntime,
    console: &mut Console,
    files: &[&str],
    work: &Work<'_, C>,
) -> u8 {
    if files.is_empty() {
        return run_file(rt, console, "-", work);
    }
    let mut greatest = 0;
    for file in files {
        let status = run_file(rt, console, file, work);
        greatest = status.max(greatest);
        let ends = status == Status::OutOfMemory.number()
            || !work.in_place && status == Status::WriteFailed.number();
        if ends {
            break;
        }
    }
    greatest
}
