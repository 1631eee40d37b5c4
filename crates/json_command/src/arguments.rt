// The arguments of the command line, and the streams of a program.
ghost use Rattle.std.specs.Prelude.{◌≡◌, ◌≢◌, ◌⊎◌, IfOk, IfErr};
ghost use Rattle.json_doc.specs.Docs.{doc_root, doc_tree};
ghost use Rattle.json_io.specs.Errors.{no_memory, bad_words};
ghost use Rattle.json_text.specs.Ruled.{usual_rules};
ghost use Rattle.json_io.specs.declared.error.ErrorCode.TheVariants.{NoMemory};
ghost use Rattle.json_command.specs.Input.{IsInput, IsValid};

use crate::about::About;
use crate::document::MAX_BYTES;
use crate::reporting::report_text;
use crate::status::Status;
use crate::streams::{ErrorStream, Note, NotedStream, reason_of};
use json_doc::{Doc, read_document_with};
use json_io::{Error, ErrorCode, Place, StdSink, StdSource, Words};
use json_text::Rules;
use std::alloc::Global;
use std::cell::Cell;
use std::rc::Rc;
use std::rt::{Stdin, Stdout};
use std::{env, io};

/// The error of invalid arguments, `BadWords` without a place.
pub const BAD_WORDS: Error = Error {
    code: ErrorCode::BadWords,
    place: Place::None,
};

/// Returns the error of an argument that could not be read, where `code` says why: `NoMemory` stays
/// `NoMemory`, and every other code becomes [`BAD_WORDS`].
pub fn arguments_error(code: ErrorCode) -> Error
    ensures either { (result ≡ no_memory) ⊎ ((result ≡ bad_words) × (code ≢ NoMemory)) }
    ensures other { code ≢ NoMemory → result ≡ bad_words }
{
    match code {
        ErrorCode::NoMemory => Error {
            code: ErrorCode::NoMemory,
            place: Place::None,
        },
        _ => BAD_WORDS,
    }
}

/// Reads an argument that is a JSON text (RFC 8259) of at most 254 levels into a document; names
/// may repeat in an object. Fails with `BadWords` if it is no such text or has more than
/// 4,294,967,295 bytes, and with `NoMemory` if memory runs out.
///
/// ```
/// use json_command::{BAD_WORDS, read_argument};
/// use json_value::View;
/// let doc = read_argument(alloc, "[\"a\", 0]")?;
/// assert!(rt; View::packed(doc.view()).as_array().is_some());
/// assert_eq!(rt; read_argument(alloc, "[").err(), Some(BAD_WORDS));
/// ```
pub fn read_argument(alloc: Global, argument: &str) -> json_io::Result<Rc<Doc>>
    ensures ok { IfOk result (λ d. IsInput usual_rules argument.now
        (doc_tree d.value (doc_root d.value))) }
    ensures err { IfErr result (λ e. (e ≡ no_memory)
        ⊎ ((e ≡ bad_words) × ¬ (IsValid usual_rules argument.now))) }
{
    if argument.len() > MAX_BYTES {
        return Err(BAD_WORDS);
    }
    match read_document_with(alloc, argument, Rules::usual()) {
        Ok(doc) => Ok(doc),
        Err(error) => Err(arguments_error(error.code)),
    }
}

/// What a program has of its surroundings: the arguments of the command line and the three standard
/// streams.
///
/// ```
/// use json_command::{About, Console};
/// let about = About { help: "Usage: tool\n", version: "tool 1.0.0\n", hint: "" };
/// let console = Console::open(&rt, &about).map_err(|_| "no console")?;
/// assert!(rt; about.text_asked(&console.arguments).is_none());
/// ```
#[derive(Drop)]
pub struct Console {
    /// The arguments of the command line, without the program's name.
    pub arguments: Words,
    /// Standard input.
    pub source: StdSource<NotedStream<Stdin>>,
    /// Standard output.
    pub sink: StdSink<NotedStream<Stdout>>,
    /// Standard error, for reports. It writes nothing once nobody reads standard output any more,
    /// as in `| head`.
    pub errs: StdSink<ErrorStream>,
    read: Note,
    written: Note,
}

impl Console {
    /// Opens the standard streams and copies the arguments. If they ask for the help or the version
    /// of `about`, writes that to standard output and returns the status of that as the error.
    /// Fails with `OutOfMemory` if memory runs out, and with `NoArguments` if the arguments cannot
    /// be read, for example because one is not UTF-8. A program ends with the status that is
    /// returned as the error.
    pub fn open(rt: &HostRuntime, about: &About) -> Result<Console, Status> {
        let mut arguments = Words::new(rt.alloc());
        for argument in env::args(rt).map_err(unread)?.skip(1) {
            arguments
                .push(argument.as_str())
                .map_err(|_| Status::OutOfMemory)?;
        }
        let (read, written) = (new_note(rt)?, new_note(rt)?);
        let mut sink = StdSink::new(NotedStream::new(rt.stdout(), share(&written)?));
        match about.say_asked(&arguments, &mut sink) {
            Some(status) => Err(status),
            None => Ok(Console {
                arguments,
                source: StdSource::new(NotedStream::new(rt.stdin(), share(&read)?)),
                sink,
                errs: StdSink::new(ErrorStream::new(rt.stderr(), share(&written)?)),
                read,
                written,
            }),
        }
    }

    /// Notes why a write to standard output failed that went by another stream than `sink`, so that
    /// [`Console::explain_failure`] and `errs` know of it. `None` is no failure.
    pub fn note_output(&self, failure: Option<io::ErrorKind>) {
        if failure.is_some() {
            self.written.set(failure);
        }
    }

    // Returns what failed in a run with this status, and why, where a reason is known.
    fn failure(&self, status: u8) -> Option<(&'static str, &'static str)> {
        let (failure, note) = if status == Status::ReadFailed.number() {
            ("standard input could not be read", &self.read)
        } else if status == Status::WriteFailed.number() {
            ("standard output could not be written", &self.written)
        } else {
            return None;
        };
        let reason = reason_of(note.get()?)?;
        Some((failure, reason))
    }

    /// Writes to standard error why a run ended with `ReadFailed` or `WriteFailed`, if the system
    /// gave a reason that a user can tell from others. `program` is the name that begins the line.
    /// Writes nothing in any other case, nor if memory runs out for the line.
    pub fn explain_failure(&mut self, alloc: Global, program: &str, status: u8) {
        let Some((failure, reason)) = self.failure(status) else {
            return;
        };
        if let Ok(text) = format!(in alloc; "{program}: {failure}: {reason}\n") {
            report_text(&mut self.errs, text.as_bytes());
        }
    }
}

// Returns one more handle of a note.
fn share(note: &Note) -> Result<Note, Status> {
    note.clone().map_err(|_| Status::OutOfMemory)
}

// Returns a note of no failure.
fn new_note(rt: &HostRuntime) -> Result<Note, Status> {
    Rc::new(rt.alloc(), Cell::new(None)).map_err(|_| Status::OutOfMemory)
}

// The status where the arguments could not be read.
fn unread(error: io::Error) -> Status {
    match error.kind() {
        io::ErrorKind::OutOfMemory => Status::OutOfMemory,
        _ => Status::NoArguments,
    }
}
