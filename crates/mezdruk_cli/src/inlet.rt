// Where documents are read from: files and standard input.

use crate::files::{ReadFault, open_file, reason_of};
use crate::progress::Progress;
use mezdruk_files::skip_mark;
use std::fs::File;
use std::io;
use std::io::{Chain, Cursor, Read};
use std::rt::Stdin;

/// How many bytes a byte order mark has.
const MARK_BYTES: u64 = 3;

/// How inputs are read.
#[derive(Clone, Copy)]
pub struct Reading {
    /// Whether a byte order mark at the beginning is skipped.
    pub skips_mark: bool,
    /// Whether it is shown how much of a long input was read.
    pub shows_progress: bool,
}

impl Reading {
    /// Returns how the file of an operand is read: as it is, in silence.
    pub fn plain() -> Reading {
        Reading {
            skips_mark: false,
            shows_progress: false,
        }
    }
}

// A file or standard input.
#[derive(Drop)]
enum Stream {
    File(File),
    Standard(Stdin),
}

impl Read for Stream {
    fn read(&mut self, buf: &mut [u8]) -> io::Result<usize> {
        match self {
            Stream::File(file) => file.read(buf),
            Stream::Standard(stdin) => stdin.read(buf),
        }
    }
}

/// A file or standard input, with what is shown while it is read.
#[derive(Drop)]
pub struct Inlet {
    // The first bytes, which were read already, and the rest.
    reader: Chain<Cursor<Vec<u8>>, Stream>,
    progress: Option<Progress>,
}

// Reads the first bytes of an input, with spaces in place of a byte order mark.
fn read_start(rt: &HostRuntime, stream: &mut Stream) -> io::Result<Vec<u8>> {
    let mut start = Vec::new(rt.alloc());
    Read::take(stream, MARK_BYTES).read_to_end(&mut start)?;
    skip_mark(start.as_mut_slice());
    Ok(start)
}

// Opens a file, or standard input for `-`.
fn open_stream(rt: &HostRuntime, file: &str) -> Result<Stream, ReadFault> {
    match file {
        "-" => Ok(Stream::Standard(rt.stdin())),
        _ => Ok(Stream::File(open_file(rt, file)?)),
    }
}

impl Inlet {
    /// Opens a file, or standard input for `-`.
    pub fn open(rt: &HostRuntime, file: &str, reading: Reading) -> Result<Inlet, ReadFault> {
        let mut stream = open_stream(rt, file)?;
        let start = if reading.skips_mark {
            read_start(rt, &mut stream).map_err(|error| ReadFault::Refused(reason_of(&error)))?
        } else {
            Vec::new(rt.alloc())
        };
        let progress = if reading.shows_progress {
            Some(Progress::new(rt))
        } else {
            None
        };
        Ok(Inlet {
            reader: Cursor::new(start).chain(stream),
            progress,
        })
    }
}

impl Read for Inlet {
    fn read(&mut self, buf: &mut [u8]) -> io::Result<usize> {
        let read = self.reader.read(buf);
        if let Ok(count) = &read {
            if let Some(progress) = &mut self.progress {
                progress.add(*count);
            }
        }
        read
    }
}
