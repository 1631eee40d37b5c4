// What each command does with the documents.

use crate::color::prints_colors;
use crate::compare::{compare, overlay};
use crate::files::{ReadFault, read_bytes, report_unread};
use crate::inlet::Reading;
use crate::missing::Target;
use crate::progress::can_be_shown;
use crate::query::query;
use crate::run::{Work, run_files};
use json_command::{Console, Status, report_text};
use json_data::from_value;
use json_patch::Pointer;
use json_text::{Words, check_utf8};
use json_value::{Path, Value};
use mezdruk_arguments::{
    Arguments, ArgumentsError, OperandError, OperandKind, Problem, RequestedInput as FormAsked,
    Settings, Verb, arguments_report, operand_file_report, read_operand, requested_edits,
    split_pointer,
};
use mezdruk_files::{
    ApplyMerge, ApplyPatch, EditAll, EditAt, GetAll, GetKeys, GetLength, GetPath, GetPointer,
    InputForm, Job, Unchanged, ValueChange, ValuePath,
};
use std::alloc::{AllocError, Global};
use std::cell::Cell;

/// A command with its options and files.
#[derive(Clone, Copy)]
pub struct Task<'a> {
    /// The command.
    pub verb: Verb,
    /// Its options.
    pub settings: Settings,
    /// Its files.
    pub files: &'a [&'a str],
    /// Whether each element of what is found is printed on a line.
    pub each: bool,
}

impl<'a> Task<'a> {
    /// Returns the task that prints each element of what is found on a line.
    pub fn of_each(self) -> Task<'a> {
        Task { each: true, ..self }
    }

    /// Returns how its inputs are read.
    pub fn reading(self, rt: &HostRuntime) -> Reading {
        let prints = self.settings.style_for(self.verb).is_some() && !self.settings.in_place;
        Reading {
            skips_mark: self.settings.bom,
            shows_progress: can_be_shown(rt, prints),
        }
    }

    /// Makes a change of each document, where it leads in them, and returns the status.
    pub fn run<C: ValueChange + Copy + Drop>(
        self,
        rt: &HostRuntime,
        console: &mut Console,
        change: C,
        target: Target<'_>,
    ) -> u8 {
        let style = self.settings.style_for(self.verb);
        let mut job = Job::new(change, style, self.settings.rules());
        job.raw = self.settings.raw;
        job.each = self.each;
        job.input = match self.settings.input {
            None => InputForm::One,
            Some(FormAsked::Lines) => InputForm::Lines,
            Some(FormAsked::Stream) => InputForm::Stream,
        };
        let work = Work {
            job,
            target,
            reading: self.reading(rt),
            in_place: self.settings.in_place,
            keeps_layout: self.settings.keeps_layout(self.verb),
            has_colors: prints_colors(rt, self.settings),
            changed: Cell::new(0),
        };
        let status = run_files(rt, console, self.files, &work);
        if self.settings.verbose {
            self.report_changed(rt, console, work.changed.get());
        }
        status
    }

    // Reports how many of the files were changed in place.
    fn report_changed(self, rt: &HostRuntime, console: &mut Console, changed: usize) {
        let (name, count) = (self.verb.name(), self.files.len());
        let files = if count == 1 { "file" } else { "files" };
        let report = format!(in rt.alloc();
            "mezdruk {name}: {changed} of {count} {files} changed\n"
        );
        if let Ok(report) = report {
            report_text(&mut console.errs, report.as_bytes());
        }
    }
}

// Writes a report, and returns the status of arguments that are not valid.
fn report_invalid(console: &mut Console, report: Result<String, AllocError>) -> u8 {
    match report {
        Ok(report) => {
            report_text(&mut console.errs, report.as_bytes());
            Status::InvalidArguments.number()
        }
        Err(_) => Status::OutOfMemory.number(),
    }
}

/// Reports arguments that are refused, and returns the status.
pub fn report_arguments(
    rt: &HostRuntime,
    console: &mut Console,
    words: &Words,
    error: &ArgumentsError,
) -> u8 {
    if let ArgumentsError::OutOfMemory = error {
        return Status::OutOfMemory.number();
    }
    let report = arguments_report(rt.alloc(), words, error);
    report_invalid(console, report)
}

// Reports a file of edits or of a patch that is not valid, and returns the status.
fn report_refusal(
    rt: &HostRuntime,
    console: &mut Console,
    words: &Words,
    file: &str,
    refusal: OperandError,
) -> u8 {
    match refusal {
        OperandError::OutOfMemory => Status::OutOfMemory.number(),
        OperandError::Invalid(problem) => {
            let report = operand_file_report(rt.alloc(), words, file, &problem);
            report_invalid(console, report)
        }
    }
}

// The hint if a JSON text is given for the name of a file.
const NAME_HINT: &str =
    "hint: the option takes the name of a file; EDITS or PATCH alone is the text\n";

// Reports a file of edits or of a patch that is not read, and returns the status.
fn report_unread_operand(
    rt: &HostRuntime,
    console: &mut Console,
    file: &str,
    fault: ReadFault,
) -> u8 {
    let status = report_unread(rt, console, file, fault);
    if file.starts_with('[') || file.starts_with('{') {
        report_text(&mut console.errs, NAME_HINT.as_bytes());
    }
    status
}

// Reads the edits or the patch that a file has. Fails with the status if that is reported.
fn read_file(
    rt: &HostRuntime,
    console: &mut Console,
    words: &Words,
    kind: OperandKind,
    file: &str,
) -> Result<Value, u8> {
    let bytes = match read_bytes(rt, file, Reading::plain()) {
        Ok(bytes) => bytes,
        Err(fault) => return Err(report_unread_operand(rt, console, file, fault)),
    };
    let read = match check_utf8(&bytes) {
        Ok(text) => read_operand(rt.alloc(), kind, text),
        Err(error) => Err(OperandError::Invalid(Problem::NoText { kind, error })),
    };
    match read {
        Ok(value) => Ok(value),
        Err(refusal) => Err(report_refusal(rt, console, words, file, refusal)),
    }
}

// Returns the path that an operand is, or `None` if memory runs out.
fn value_path(alloc: Global, operand: &Value) -> Option<ValuePath> {
    if let Some(text) = operand.view().text() {
        return match Pointer::parse(alloc, text) {
            Ok(pointer) => Some(ValuePath::Pointer(pointer)),
            Err(_) => None,
        };
    }
    match from_value::<Path>(alloc, operand) {
        Ok(path) => Some(ValuePath::Steps(path)),
        Err(_) => None,
    }
}

// Returns the paths that the operands are, or `None` if memory runs out.
fn value_paths(alloc: Global, operands: &[Value]) -> Option<Vec<ValuePath>> {
    let mut paths = Vec::new(alloc);
    for operand in operands {
        let path = value_path(alloc, operand)?;
        if paths.push(path).is_err() {
            return None;
        }
    }
    Some(paths)
}

// Prints what is at the paths of each document.
fn get(rt: &HostRuntime, console: &mut Console, task: Task<'_>, operands: &[Value]) -> u8 {
    let Some(paths) = value_paths(rt.alloc(), operands) else {
        return Status::OutOfMemory.number();
    };
    match (task.verb, paths.as_slice()) {
        (Verb::Keys, [path, ..]) => {
            let target = Target::Object(path);
            task.of_each().run(rt, console, GetKeys { path }, target)
        }
        (Verb::Length, [path, ..]) => {
            task.run(rt, console, GetLength { path }, Target::Container(path))
        }
        (_, [ValuePath::Pointer(pointer)]) => {
            task.run(
                rt,
                console,
                GetPointer { pointer },
                Target::Pointer(pointer),
            )
        }
        (_, [ValuePath::Steps(path)]) => {
            task.run(rt, console, GetPath { path }, Target::Path(path))
        }
        (_, paths) => {
            let target = Target::Paths(paths);
            task.of_each().run(rt, console, GetAll { paths }, target)
        }
    }
}

// Applies edits to each document.
fn edit(rt: &HostRuntime, console: &mut Console, task: Task<'_>, operands: Vec<Value>) -> u8 {
    let Ok((pointer, operands)) = split_pointer(rt.alloc(), operands) else {
        return Status::OutOfMemory.number();
    };
    let Ok(edits) = requested_edits(rt.alloc(), task.verb, operands) else {
        return Status::OutOfMemory.number();
    };
    match (pointer, edits.as_slice()) {
        (Some(pointer), [edit, ..]) => {
            let pointer = &pointer;
            let target = Target::EditAt(pointer, edit);
            task.run(rt, console, EditAt { pointer, edit }, target)
        }
        (_, edits) => match EditAll::new(edits) {
            Some(change) => task.run(rt, console, change, Target::Edits(edits)),
            None => Status::OutOfMemory.number(),
        },
    }
}

// Applies a patch or a merge patch to each document.
fn patch(rt: &HostRuntime, console: &mut Console, task: Task<'_>, patch: &Value) -> u8 {
    if task.verb == Verb::Merge {
        let change = ApplyMerge::new(patch.view());
        return task.run(rt, console, change, Target::Document);
    }
    match ApplyPatch::new(patch.view()) {
        Some(change) => task.run(rt, console, change, Target::Document),
        None => Status::OutOfMemory.number(),
    }
}

/// Does what the arguments ask for, and returns the status.
pub fn carry_out(
    rt: &HostRuntime,
    console: &mut Console,
    words: &Words,
    arguments: Arguments<'_>,
) -> u8 {
    let verb = arguments.verb;
    let mut operands = arguments.operands;
    if let (Some(file), [kind, ..]) = (arguments.source, verb.operands()) {
        let value = match read_file(rt, console, words, *kind, file) {
            Ok(value) => value,
            Err(status) => return status,
        };
        if operands.push(value).is_err() {
            return Status::OutOfMemory.number();
        }
    }
    let files = arguments.files;
    let settings = arguments.settings;
    let task = Task {
        verb,
        settings,
        files: files.as_slice(),
        each: false,
    };
    match (verb, operands.as_slice()) {
        (Verb::Fmt | Verb::Check, _) => { task.run(rt, console, Unchanged, Target::Document) }
        (Verb::Get | Verb::Keys | Verb::Length, paths) => get(rt, console, task, paths),
        (Verb::Query, [operand, ..]) => query(rt, console, task, operand),
        (Verb::Patch | Verb::Merge, [value, ..]) => patch(rt, console, task, value),
        (Verb::Overlay, _) => overlay(rt, console, task),
        (Verb::Diff, [old, ..]) => {
            let old = old.view().text().unwrap_or("-");
            compare(rt, console, task, old)
        }
        (_, _) => edit(rt, console, task, operands),
    }
}
