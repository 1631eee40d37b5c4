// What no clause says of the edge to the system: each call of a writer or a reader that fails is
// reported.
ghost use Rattle.json_print.specs.ExpectedEvents.{AwaitsTree};

use json_print::{BufferedWriter, Events, Serializer};
use json_text::{
    Error, ErrorCode, Failed, Place, Result, Sink, SinkError, Source, StdSink, StdSource,
    flush_all, put_all, read_all,
};
use std::alloc::Global;
use std::io::{self, ErrorKind, Read, Write};

const WRITING_FAILED: Error = Error {
    code: ErrorCode::Io,
    place: Place::Writing,
};

const READING_FAILED: Error = Error {
    code: ErrorCode::Io,
    place: Place::Reading,
};

/// A writer whose writes fail.
#[derive(Drop)]
struct Unwritable;

impl Write for Unwritable {
    fn write(&mut self, _buf: &[u8]) -> io::Result<usize> {
        Err(io::Error::from(ErrorKind::BrokenPipe))
    }

    fn flush(&mut self) -> io::Result<()> {
        Ok(())
    }
}

/// A writer that takes nothing, and does not say that it failed.
#[derive(Drop)]
struct Full;

impl Write for Full {
    fn write(&mut self, _buf: &[u8]) -> io::Result<usize> {
        Ok(0)
    }

    fn flush(&mut self) -> io::Result<()> {
        Ok(())
    }
}

/// A writer that takes all, and cannot send it on.
#[derive(Drop)]
struct Unsent;

impl Write for Unsent {
    fn write(&mut self, buf: &[u8]) -> io::Result<usize> {
        Ok(buf.len())
    }

    fn flush(&mut self) -> io::Result<()> {
        Err(io::Error::from(ErrorKind::BrokenPipe))
    }
}

/// A reader that gives these bytes one at a time, and then fails.
#[derive(Drop)]
struct Broken(&'static [u8]);

impl Read for Broken {
    fn read(&mut self, buf: &mut [u8]) -> io::Result<usize> {
        match (self.0, buf) {
            (_, []) => Ok(0),
            ([first, rest @ ..], [room, ..]) => {
                *room = *first;
                self.0 = rest;
                Ok(1)
            }
            (_, _) => Err(io::Error::from(ErrorKind::BrokenPipe)),
        }
    }
}

// What a sink over this writer returns for a write, a whole write and a flush.
type Answers = (
    std::result::Result<usize, SinkError>,
    Result<()>,
    std::result::Result<(), SinkError>,
);

fn answers_of<W: Write + Drop>(writer: W) -> Answers {
    let mut sink = StdSink::new(writer);
    (sink.write(b"1"), put_all(&mut sink, b"1"), sink.flush())
}

// Whether a write fails over this writer, and a flush does not.
fn refuses_to_write<W: Write + Drop>(writer: W) -> bool {
    answers_of(writer) == (Err(SinkError::Failed), Err(WRITING_FAILED), Ok(()))
}

#[test]
fn a_failed_write_is_told(rt: HostRuntime) {
    assert!(rt; refuses_to_write(Unwritable));
}

fn nothing_is_written() -> bool {
    let mut sink = StdSink::new(Full);
    sink.write(b"") == Ok(0)
}

#[test]
fn a_write_of_nothing_is_told(rt: HostRuntime) {
    assert!(rt; refuses_to_write(Full));
    assert!(rt; nothing_is_written());
}

fn flush_fails() -> bool {
    let mut sink = StdSink::new(Unsent);
    flush_all(&mut sink) == Err(WRITING_FAILED)
        && answers_of(Unsent) == (Ok(1), Ok(()), Err(SinkError::Failed))
}

#[test]
fn a_failed_flush_is_told(rt: HostRuntime) {
    assert!(rt; flush_fails());
}

// Whether a buffer takes four bytes, and its flush fails.
fn flush_is_refused<W: Sink>(buffer: &mut W) -> bool {
    put_all(buffer, b"null").is_ok() && flush_all(buffer) == Err(WRITING_FAILED)
}

fn fails_at_flush<W: Write + Drop>(alloc: Global, writer: W) -> bool {
    match BufferedWriter::new(alloc, StdSink::new(writer)) {
        Ok(mut buffer) => flush_is_refused(&mut buffer),
        Err(_) => false,
    }
}

#[test]
fn failures_are_told_behind_a_buffer(rt: HostRuntime) {
    assert!(rt; fails_at_flush(rt.alloc(), Unwritable));
    assert!(rt; fails_at_flush(rt.alloc(), Full));
    assert!(rt; fails_at_flush(rt.alloc(), Unsent));
}

fn write_true<E: Events>(out: &mut E) -> Result<()>
    requires { AwaitsTree (E.token_state (E.state out.old)) }
{
    out.boolean(true)
}

fn serializer_stops(alloc: Global) -> bool {
    let mut out = Serializer::new(alloc, StdSink::new(Unwritable));
    write_true(&mut out) == Err(WRITING_FAILED)
}

#[test]
fn a_failed_write_stops_a_serializer(rt: HostRuntime) {
    assert!(rt; serializer_stops(rt.alloc()));
}

// Whether a source over the reader fails where it is read as a whole, and again after that.
fn read_fails(alloc: Global) -> bool {
    let mut source = StdSource::new(Broken(b"[1"));
    let failed = match read_all(alloc, &mut source, 100) {
        Ok(_) => false,
        Err(error) => error == READING_FAILED,
    };
    failed && source.read(&mut [0; 4]) == Err(Failed)
}

#[test]
fn a_failed_read_is_told(rt: HostRuntime) {
    assert!(rt; read_fails(rt.alloc()));
}
