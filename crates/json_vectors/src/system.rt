// The results of failures of a reader and a writer of the system.
use crate::hostile::status_of;
use json_text::{SliceSource, StdSink, StdSource, VecSink};
use std::alloc::Global;
use std::io::{self, ErrorKind, Read, Write};

/// A reader that gives one byte, and then fails.
#[derive(Drop)]
struct Broken {
    gave: bool,
}

impl Read for Broken {
    fn read(&mut self, buf: &mut [u8]) -> io::Result<usize> {
        match buf {
            [] => Ok(0),
            [first, ..] if !self.gave => {
                *first = b'1';
                self.gave = true;
                Ok(1)
            }
            _ => Err(io::Error::from(ErrorKind::BrokenPipe)),
        }
    }
}

/// A writer that takes all, and cannot send it on.
#[derive(Drop)]
struct Unsent;

impl Write for Unsent {
    fn write(&mut self, buf: &[u8]) -> io::Result<usize> {
        Ok(buf.len())
    }

    fn flush(&mut self) -> io::Result<()> {
        Err(io::Error::from(ErrorKind::BrokenPipe))
    }
}

// Whether a run ends with 4 where the reader fails, with no output and with a report.
fn ends_at_a_failed_read(alloc: Global) -> bool {
    let mut source = StdSource::new(Broken { gave: false });
    let (mut sink, mut errs) = (VecSink::new(alloc), VecSink::new(alloc));
    let status = status_of(alloc, &mut source, &mut sink, &mut errs);
    status == 4 && sink.as_slice().is_empty() && !errs.as_slice().is_empty()
}

#[test]
fn a_failed_read_gives_4(rt: HostRuntime) {
    assert!(rt; ends_at_a_failed_read(rt.alloc()));
}

// Whether a run ends with 5 where the writer cannot send its bytes on, with a report.
fn ends_at_a_failed_flush(alloc: Global) -> bool {
    let mut source = SliceSource::new(b"[1]");
    let (mut sink, mut errs) = (StdSink::new(Unsent), VecSink::new(alloc));
    let status = status_of(alloc, &mut source, &mut sink, &mut errs);
    status == 5 && !errs.as_slice().is_empty()
}

#[test]
fn a_failed_flush_gives_5(rt: HostRuntime) {
    assert!(rt; ends_at_a_failed_flush(rt.alloc()));
}
