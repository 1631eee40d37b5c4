// `mezdruk rpc` over the document of a file.

use crate::files::{
    bytes_of, read_document, reason_of, refuse_irregular, report_file, report_invalid,
    report_unread,
};
use crate::in_place::replace_content;
use crate::inlet::Reading;
use crate::rpc_options::{InvalidWord, names_file, read_options};
use json_command::{BAD_WORDS, Console, Status, print_value, report, report_text, write_text};
use json_lines::{Line, LineReader};
use json_rpc::{MAX_LINE_BYTES, Service, line_only_reads};
use json_text::{Error, ErrorCode, Place, Result as TextResult, Rules, VecSink, Words};
use json_value::Value;
use mezdruk_files::{NamedDocument, find_style, read_value};
use mezdruk_help::ABOUT_MEZDRUK;
use std::alloc::Global;
use std::io;

/// More lines than a reader returns, since it reads at most 4,294,967,295 bytes.
const MAX_LINES: u64 = 4_294_967_296;

// Reports the argument that is not valid, and returns the status.
fn report_word(rt: &HostRuntime, console: &mut Console, invalid: InvalidWord<'_>) -> u8 {
    let status = Status::InvalidArguments.number();
    report(&mut console.errs, &BAD_WORDS);
    let (word, reason) = (invalid.word, invalid.reason);
    if let Ok(text) = format!(in rt.alloc(); "mezdruk rpc: `{word}`: {reason}\n") {
        report_text(&mut console.errs, text.as_bytes());
    }
    ABOUT_MEZDRUK.add_hint(status, &mut console.errs);
    status
}

// A file that has the document of a service.
#[derive(Drop)]
struct DocumentFile {
    // What was read of it, whose layout is kept.
    found: NamedDocument,
    // The text of the document that it has, in that layout.
    text: Vec<u8>,
}

// Why a line was not served: a stream failed or memory ran out, or the file was not written.
#[derive(Drop)]
enum ServeFault {
    Stream(Error),
    File(io::Error),
}

impl From<Error> for ServeFault {
    fn from(error: Error) -> ServeFault {
        ServeFault::Stream(error)
    }
}

impl From<io::Error> for ServeFault {
    fn from(error: io::Error) -> ServeFault {
        ServeFault::File(error)
    }
}

// Returns the text of a document in the layout of another text.
fn text_in_layout(alloc: Global, document: &Value, found: &[u8]) -> TextResult<Vec<u8>> {
    let mut sink = VecSink::new(alloc);
    print_value(alloc, document, find_style(found, false), &mut sink)?;
    let mut text = sink.into_vec();
    if matches!(found, [.., b'\n']) {
        text.push(b'\n')?;
    }
    Ok(text)
}

impl DocumentFile {
    // Returns the file from which a document was read; `None` if it is not to be saved.
    fn new(
        alloc: Global,
        found: NamedDocument,
        document: &Value,
        save: bool,
    ) -> TextResult<Option<DocumentFile>> {
        if !save {
            return Ok(None);
        }
        let text = text_in_layout(alloc, document, bytes_of(&found))?;
        Ok(Some(DocumentFile { found, text }))
    }

    // Writes the document in place, if its text is another one.
    fn save(&mut self, rt: &HostRuntime, document: &Value) -> Result<(), ServeFault> {
        let text = text_in_layout(rt.alloc(), document, bytes_of(&self.found))?;
        if text.as_slice() != self.text.as_slice() {
            replace_content(rt, self.found.name.as_str(), text.as_slice())?;
            self.text = text;
        }
        Ok(())
    }
}

// Writes a reply as a line.
fn write_reply(alloc: Global, console: &mut Console, reply: &Value) -> TextResult<()> {
    let mut text = reply.to_string(alloc)?;
    text.push_str("\n")?;
    write_text(&mut console.sink, text.as_bytes())
}

// Serves a line, and saves the document if the line asks for a change. Returns the reply.
fn serve_and_save(
    rt: &HostRuntime,
    service: &mut Service,
    line: Line<'_>,
    file: &mut DocumentFile,
) -> Result<Option<Value>, ServeFault> {
    let only_reads = line_only_reads(rt.alloc(), line)?;
    let reply = service.serve(rt.alloc(), line)?;
    if !only_reads {
        file.save(rt, service.document())?;
    }
    Ok(reply)
}

// Serves a line. A document that changes is saved before the reply is written.
fn serve_line(
    rt: &HostRuntime,
    console: &mut Console,
    service: &mut Service,
    line: Line<'_>,
    file: &mut Option<DocumentFile>,
) -> Result<(), ServeFault> {
    let reply = match file {
        Some(file) => serve_and_save(rt, service, line, file)?,
        None => service.serve(rt.alloc(), line)?,
    };
    if let Some(reply) = reply {
        write_reply(rt.alloc(), console, &reply)?;
    }
    Ok(())
}

// Reads a line and serves it. Returns false if there is no line.
fn serve_next_line(
    rt: &HostRuntime,
    console: &mut Console,
    service: &mut Service,
    reader: &mut LineReader,
    file: &mut Option<DocumentFile>,
) -> Result<bool, ServeFault> {
    let line = match reader.next_line(&mut console.source) {
        Ok(Some(line)) => line,
        Ok(None) => return Ok(false),
        Err(error) => return Err(ServeFault::Stream(error)),
    };
    serve_line(rt, console, service, line, file)?;
    Ok(true)
}

// Serves all lines of standard input.
fn serve_lines(
    rt: &HostRuntime,
    console: &mut Console,
    service: &mut Service,
    file: &mut Option<DocumentFile>,
) -> Result<(), ServeFault> {
    let mut reader = LineReader::new(rt.alloc(), MAX_LINE_BYTES)?;
    for _ in 0..MAX_LINES {
        if !serve_next_line(rt, console, service, &mut reader, file)? {
            break;
        }
    }
    Ok(())
}

// Reports an error of a stream, and returns the status.
fn report_stream(rt: &HostRuntime, console: &mut Console, error: &Error) -> u8 {
    let status = match (error.code, error.place) {
        (ErrorCode::TooLarge, Place::None) => Status::TooMuchInput.number(),
        (_, _) => Status::of_error(error).number(),
    };
    report(&mut console.errs, error);
    console.explain_failure(rt.alloc(), "mezdruk", status);
    status
}

// Serves the document of a file, and returns the status.
fn serve_document(
    rt: &HostRuntime,
    console: &mut Console,
    name: &str,
    save: bool,
) -> Result<(), u8> {
    let found = match read_document(rt, name, Reading::plain()) {
        Ok(found) => found,
        Err(fault) => return Err(report_unread(rt, console, name, fault)),
    };
    let value = match read_value(rt.alloc(), bytes_of(&found), Rules::usual()) {
        Ok(value) => value,
        Err(error) => {
            let status = Status::InvalidInput;
            return Err(report_invalid(rt, console, &found, &error, status));
        }
    };
    let mut file = match DocumentFile::new(rt.alloc(), found, &value, save) {
        Ok(file) => file,
        Err(error) => return Err(report_stream(rt, console, &error)),
    };
    let mut service = Service::with_document(rt.alloc(), value);
    match serve_lines(rt, console, &mut service, &mut file) {
        Ok(()) => Ok(()),
        Err(ServeFault::Stream(error)) => Err(report_stream(rt, console, &error)),
        Err(ServeFault::File(error)) => {
            let reason = reason_of(&error);
            let status = Status::WriteFailed;
            Err(report_file(rt, console, name, reason, status))
        }
    }
}

/// Serves JSON-RPC 2.0 over the document of a file if the arguments are those of `mezdruk rpc` with
/// `--document`, and returns the status. Returns `None` for all other arguments.
pub fn serve_file(rt: &HostRuntime, console: &mut Console, words: &Words) -> Option<u8> {
    if !names_file(words) {
        return None;
    }
    let options = match read_options(words) {
        Ok(options) => options,
        Err(invalid) => return Some(report_word(rt, console, invalid)),
    };
    let Some(file) = options.file else {
        let (word, reason) = ("--save", "it goes with `--document`");
        return Some(report_word(rt, console, InvalidWord { word, reason }));
    };
    if options.save {
        if let Some(fault) = refuse_irregular(rt, file) {
            return Some(report_unread(rt, console, file, fault));
        }
    }
    match serve_document(rt, console, file, options.save) {
        Ok(()) => Some(Status::Success.number()),
        Err(status) => Some(status),
    }
}
