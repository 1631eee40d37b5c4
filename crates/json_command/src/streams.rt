// The standard streams of a program, which note why a call failed.
use std::cell::Cell;
use std::io;
use std::io::{ErrorKind, Read, Write};
use std::rc::Rc;
use std::rt::Stderr;

/// The kind of error of the last call of a stream that failed; the stream and its readers share it.
pub(crate) type Note = Rc<Cell<Option<ErrorKind>>>;

/// A standard stream that keeps why its last failed call failed, since a source or a sink over it
/// says only that a call did.
#[derive(Drop)]
pub struct NotedStream<T> {
    stream: T,
    note: Note,
}

impl<T> NotedStream<T> {
    /// Creates a stream that writes its notes to `note`.
    pub(crate) fn new(stream: T, note: Note) -> NotedStream<T> {
        NotedStream { stream, note }
    }
}

impl<T: Read> Read for NotedStream<T> {
    fn read(&mut self, buf: &mut [u8]) -> io::Result<usize> {
        let read = self.stream.read(buf);
        if let Err(error) = &read {
            self.note.set(Some(error.kind()));
        }
        read
    }
}

impl<T: Write> Write for NotedStream<T> {
    fn write(&mut self, buf: &[u8]) -> io::Result<usize> {
        let written = self.stream.write(buf);
        if let Err(error) = &written {
            self.note.set(Some(error.kind()));
        }
        written
    }

    fn flush(&mut self) -> io::Result<()> {
        let flushed = self.stream.flush();
        if let Err(error) = &flushed {
            self.note.set(Some(error.kind()));
        }
        flushed
    }
}

/// Standard error, which writes nothing once nobody reads standard output any more, as in `| head`.
#[derive(Drop)]
pub struct ErrorStream {
    stream: Stderr,
    output: Note,
}

impl ErrorStream {
    /// Creates the stream; `output` is the note of standard output.
    pub(crate) fn new(stream: Stderr, output: Note) -> ErrorStream {
        ErrorStream { stream, output }
    }
}

impl Write for ErrorStream {
    fn write(&mut self, buf: &[u8]) -> io::Result<usize> {
        if self.output.get() == Some(ErrorKind::BrokenPipe) {
            return Ok(buf.len());
        }
        self.stream.write(buf)
    }

    fn flush(&mut self) -> io::Result<()> {
        self.stream.flush()
    }
}

/// Returns the reason why a call of a stream failed, in a few words, or `None` if it is none that a
/// user can tell from others.
pub(crate) fn reason_of(kind: ErrorKind) -> Option<&'static str> {
    match kind {
        ErrorKind::IsADirectory => Some("it is a folder"),
        ErrorKind::StorageFull => Some("no space is left"),
        ErrorKind::PermissionDenied => Some("permission is denied"),
        _ => None,
    }
}
