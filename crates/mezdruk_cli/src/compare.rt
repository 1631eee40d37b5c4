// Documents that are compared, or laid over one another.

use crate::changes::Task;
use crate::color::prints_colors;
use crate::files::{bytes_of, read_document, report_invalid, report_unread};
use crate::missing::Target;
use crate::outlet::Outlet;
use json_command::{Console, Status, report, report_text};
use json_text::StdSink;
use json_value::Value;
use mezdruk_files::{Comparison, MergeInTurn, PatchForm, PatchStyle, print_difference, read_value};
use std::cell::Cell;

/// The status if two documents differ.
const DIFFER: u8 = 1;

// What the options ask for.
#[derive(Clone, Copy)]
struct Asked<'a> {
    task: Task<'a>,
    patch: PatchStyle<'static>,
}

impl<'a> Asked<'a> {
    // Returns what the options ask for, or `None` if the command prints nothing.
    fn of(task: Task<'a>) -> Option<Asked<'a>> {
        let form = if task.settings.merge_patch {
            PatchForm::MergePatch
        } else {
            PatchForm::JsonPatch
        };
        let style = task.settings.style_for(task.verb)?;
        Some(Asked {
            task,
            patch: PatchStyle { form, style },
        })
    }
}

// Returns the value of the document of a file. Fails with the status if an error was reported.
fn read_file(
    rt: &HostRuntime,
    console: &mut Console,
    file: &str,
    task: Task<'_>,
) -> Result<Value, u8> {
    let document = match read_document(rt, file, task.reading(rt)) {
        Ok(document) => document,
        Err(fault) => return Err(report_unread(rt, console, file, fault)),
    };
    match read_value(rt.alloc(), bytes_of(&document), task.settings.rules()) {
        Ok(value) => Ok(value),
        Err(error) => {
            // 1 says that two documents differ.
            let status = Status::InvalidArguments;
            Err(report_invalid(rt, console, &document, &error, status))
        }
    }
}

// Reports that no merge patch leads to the document of a file, and returns the status.
fn report_no_patch(rt: &HostRuntime, console: &mut Console, file: &str) -> u8 {
    let report = format!(in rt.alloc();
        "mezdruk diff: no merge patch leads to {file}: a key repeats, or a member is null\n"
    );
    match report {
        Ok(report) => {
            report_text(&mut console.errs, report.as_bytes());
            Status::EditFailed.number()
        }
        Err(_) => Status::OutOfMemory.number(),
    }
}

// Prints the patch that leads from a document to that of a file, and returns the status.
fn print_patch(
    rt: &HostRuntime,
    console: &mut Console,
    from: &Value,
    file: &str,
    asked: Asked<'_>,
) -> u8 {
    let to = match read_file(rt, console, file, asked.task) {
        Ok(to) => to,
        Err(status) => return status,
    };
    let failure = Cell::new(None);
    let has_colors = prints_colors(rt, asked.task.settings);
    let mut sink = StdSink::new(Outlet::new(rt, has_colors, &failure));
    match print_difference(rt.alloc(), from, &to, asked.patch, &mut sink) {
        Ok(Comparison::Same) => Status::Success.number(),
        Ok(Comparison::Differ) => DIFFER,
        Ok(Comparison::NoMergePatch) => report_no_patch(rt, console, file),
        Err(error) => {
            let status = Status::of_error(&error).number();
            console.note_output(failure.get());
            report(&mut console.errs, &error);
            console.explain_failure(rt.alloc(), "mezdruk", status);
            status
        }
    }
}

// Prints the patch that leads from a document to each other one, and returns the greatest status.
// It ends if standard output fails or memory runs out.
fn print_patches(
    rt: &HostRuntime,
    console: &mut Console,
    from: &Value,
    files: &[&str],
    asked: Asked<'_>,
) -> u8 {
    let mut greatest = 0;
    for file in files {
        greatest = print_patch(rt, console, from, file, asked).max(greatest);
        if greatest >= Status::WriteFailed.number() {
            break;
        }
    }
    greatest
}

/// Prints the patch that leads from the document of a file to each other one, or to that of
/// standard input if there is none, and returns the greatest status.
pub fn compare(rt: &HostRuntime, console: &mut Console, task: Task<'_>, old: &str) -> u8 {
    let Some(asked) = Asked::of(task) else {
        return Status::InvalidArguments.number();
    };
    let from = match read_file(rt, console, old, task) {
        Ok(from) => from,
        Err(status) => return status,
    };
    if task.files.is_empty() {
        return print_patch(rt, console, &from, "-", asked);
    }
    print_patches(rt, console, &from, task.files, asked)
}

// Returns the values of the documents of files. Fails with the status if an error was reported.
fn read_files(
    rt: &HostRuntime,
    console: &mut Console,
    files: &[&str],
    task: Task<'_>,
) -> Result<Vec<Value>, u8> {
    let mut values = Vec::new(rt.alloc());
    for file in files {
        let value = read_file(rt, console, file, task)?;
        if values.push(value).is_err() {
            return Err(Status::OutOfMemory.number());
        }
    }
    Ok(values)
}

/// Merges the documents of the files after the first into that of the first, and returns the
/// status.
pub fn overlay(rt: &HostRuntime, console: &mut Console, task: Task<'_>) -> u8 {
    let (first, later) = task.files.split_at(task.files.len().min(1));
    let patches = match read_files(rt, console, later, task) {
        Ok(patches) => patches,
        Err(status) => return status,
    };
    let merged = Task {
        files: first,
        ..task
    };
    let patches = patches.as_slice();
    merged.run(rt, console, MergeInTurn { patches }, Target::Document)
}
