// Documents from files and from standard input.

use crate::inlet::{Inlet, Reading};
use json_command::{Console, Status, report, report_text};
use json_text::{Error, ErrorCode, Source, StdSource, read_all};
use mezdruk_files::{NamedDocument, file_report, input_report};
use std::alloc::Global;
use std::fs::File;
use std::{fs, io};

/// More bytes than a document may have, so that one that is too large is found to be so.
const MAX_READ: usize = 4_294_967_296;

/// The name by which errors of standard input are reported.
const STANDARD_INPUT: &str = "<stdin>";

/// The reason where the system gives none.
const NO_REASON: &str = "a read or a write failed";

/// Why a file is not read.
#[derive(Clone, Copy)]
pub enum ReadFault {
    /// Memory ran out.
    OutOfMemory,
    /// The system refused it, for this reason.
    Refused(&'static str),
}

/// Returns the reason of the system in words.
pub fn reason_of(error: &io::Error) -> &'static str {
    match error.kind() {
        io::ErrorKind::NotFound => "there is no such file",
        io::ErrorKind::PermissionDenied => "permission is denied",
        io::ErrorKind::IsADirectory => "it is a folder",
        io::ErrorKind::NotADirectory => "a part of its path is no folder",
        io::ErrorKind::FilesystemLoop => "its links go in a circle",
        io::ErrorKind::InvalidFilename => "its name is too long",
        io::ErrorKind::ReadOnlyFilesystem => "the file system is read-only",
        io::ErrorKind::StorageFull => "no space is left",
        io::ErrorKind::InvalidInput => "it is no regular file",
        _ => NO_REASON,
    }
}

// Reads all bytes of a source.
fn read_source<S: Source>(alloc: Global, source: &mut S) -> Result<Vec<u8>, ReadFault> {
    match read_all(alloc, source, MAX_READ) {
        Ok(bytes) => Ok(bytes),
        Err(error) => match error.code {
            ErrorCode::NoMemory => Err(ReadFault::OutOfMemory),
            _ => Err(ReadFault::Refused(NO_REASON)),
        },
    }
}

/// Opens a file that is no folder.
pub fn open_file(rt: &HostRuntime, file: &str) -> Result<File, ReadFault> {
    if file.is_empty() {
        return Err(ReadFault::Refused("the name of the file is empty"));
    }
    if fs::metadata(rt, file).is_ok_and(|metadata| metadata.is_dir()) {
        return Err(ReadFault::Refused("it is a folder"));
    }
    File::open(rt, file).map_err(|error| ReadFault::Refused(reason_of(&error)))
}

/// Returns why a file cannot be written in place: it is there, and no regular file. To read one of
/// another kind could take for ever.
pub fn refuse_irregular(rt: &HostRuntime, file: &str) -> Option<ReadFault> {
    match fs::metadata(rt, file) {
        Ok(metadata) if metadata.is_dir() => Some(ReadFault::Refused("it is a folder")),
        Ok(metadata) if !metadata.is_file() => Some(ReadFault::Refused("it is no regular file")),
        _ => None,
    }
}

/// Reads the bytes of a file, or those of standard input for `-`.
pub fn read_bytes(rt: &HostRuntime, file: &str, reading: Reading) -> Result<Vec<u8>, ReadFault> {
    let inlet = Inlet::open(rt, file, reading)?;
    read_source(rt.alloc(), &mut StdSource::new(inlet))
}

/// Returns the name by which errors of a file are reported.
pub fn shown_name(file: &str) -> &str {
    match file {
        "-" => STANDARD_INPUT,
        "" => "''",
        _ => file,
    }
}

/// Reads the document of a file, or that of standard input for `-`.
pub fn read_document(
    rt: &HostRuntime,
    file: &str,
    reading: Reading,
) -> Result<NamedDocument, ReadFault> {
    let bytes = read_bytes(rt, file, reading)?;
    match String::from_str(rt.alloc(), shown_name(file)) {
        Ok(name) => Ok(NamedDocument {
            name,
            bytes: Some(bytes),
        }),
        Err(_) => Err(ReadFault::OutOfMemory),
    }
}

/// Returns the bytes of a document; none if they could not be read.
pub fn bytes_of(document: &NamedDocument) -> &[u8] {
    match &document.bytes {
        Some(bytes) => bytes,
        None => b"",
    }
}

/// Reports why a document is not valid, and returns this status, or that of memory that ran out.
pub fn report_invalid(
    rt: &HostRuntime,
    console: &mut Console,
    document: &NamedDocument,
    error: &Error,
    status: Status,
) -> u8 {
    if Status::of_error(error) == Status::OutOfMemory {
        report(&mut console.errs, error);
        return Status::OutOfMemory.number();
    }
    let (name, bytes) = (document.name.as_str(), bytes_of(document));
    match input_report(rt.alloc(), name, bytes, error) {
        Ok(report) => {
            report_text(&mut console.errs, &report);
            status.number()
        }
        Err(_) => Status::OutOfMemory.number(),
    }
}

/// Reports why a file is not read or written, and returns this status, or that of memory that ran
/// out.
pub fn report_file(
    rt: &HostRuntime,
    console: &mut Console,
    file: &str,
    reason: &str,
    status: Status,
) -> u8 {
    match file_report(rt.alloc(), shown_name(file), reason) {
        Ok(report) => {
            report_text(&mut console.errs, &report);
            status.number()
        }
        Err(_) => Status::OutOfMemory.number(),
    }
}

/// Reports why a file is not read, and returns the status.
pub fn report_unread(rt: &HostRuntime, console: &mut Console, file: &str, fault: ReadFault) -> u8 {
    match fault {
        ReadFault::OutOfMemory => Status::OutOfMemory.number(),
        ReadFault::Refused(reason) => { report_file(rt, console, file, reason, Status::ReadFailed) }
    }
}
