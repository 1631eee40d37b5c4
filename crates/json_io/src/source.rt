// Sources of bytes.
ghost use Rattle.std.specs.Prelude.{◌≡◌, Some, None};
ghost use Rattle.std.specs.Io.{ReadsAtMost};
ghost use Rattle.std.specs.Io.KnownBytes.{ReadConsumes};
ghost use Rattle.json_io.specs.Outside.{SourceState, Reads};

use std::io::Read;

/// The error of a source whose call failed, and gave nothing.
///
/// ```
/// use json_io::{Failed, FakeSource, Source};
/// let mut source = FakeSource::new(b"1", 1, &[0]);
/// assert_eq!(rt; source.read(&mut [0; 4]), Err(Failed));
/// ```
#[derive(Clone, Copy, Debug, PartialEq, Eq)]
pub struct Failed;

/// A source of bytes. A read may give fewer than there is room for; `read_all` takes them all.
///
/// ```
/// use json_io::{SliceSource, Source};
/// let mut source = SliceSource::new(b"[true]");
/// let mut buf = [0; 4];
/// assert_eq!(rt; source.read(&mut buf), Ok(4));
/// assert_eq!(rt; buf.as_slice(), b"[tru".as_slice());
/// assert_eq!(rt; source.read(&mut buf), Ok(2));
/// assert_eq!(rt; source.read(&mut buf), Ok(0));
/// ```
pub trait Source {
    /// The bytes left, where they are known, how many were given, and how many calls failed.
    ghost state: { Self → SourceState };

    /// Fills a prefix of the buffer, and returns its number of bytes: 0, for a buffer with room, is
    /// the end of the input. A call that fails gives nothing.
    fn read(&mut self, buf: &mut [u8]) -> Result<usize, Failed>
        ensures bound { ReadsAtMost result buf.new }
        ensures reads { Reads (state self.old) (state self.new) buf.new result };
}

/// A source of bytes in memory. Its bytes are known, and it never fails.
///
/// ```
/// use json_io::{ErrorCode, SliceSource, read_all};
/// let mut source = SliceSource::new(b"null");
/// assert_eq!(rt; read_all(alloc, &mut source, 4)?.as_slice(), b"null".as_slice());
/// let mut longer = SliceSource::new(b"false");
/// let refusal = read_all(alloc, &mut longer, 4).map(|bytes| bytes.len());
/// assert_eq!(rt; refusal.map_err(|error| error.code), Err(ErrorCode::TooLarge));
/// ```
#[derive(Drop)]
pub struct SliceSource<'a> {
    rest: &'a [u8],
    given: u64,
}

impl<'a> SliceSource<'a> {
    /// Creates a source of these bytes.
    pub fn new(bytes: &'a [u8]) -> SliceSource<'a>
        ensures { ⟦<SliceSource<'a> as Source>⟧.state result
            ≡ record { left = Some bytes.now; given = 0; faults = 0 } }
    {
        SliceSource {
            rest: bytes,
            given: 0,
        }
    }
}

impl Source for SliceSource<'_> {
    ghost use Rattle.json_io.specs.Sources.{slice_source_state};

    ghost state = { slice_source_state };

    fn read(&mut self, buf: &mut [u8]) -> Result<usize, Failed> {
        let count = buf.len().min(self.rest.len());
        let (front, rest) = self.rest.split_at(count);
        buf[..count].copy_from_slice(front);
        self.rest = rest;
        self.given = self.given.saturating_add(count as u64);
        Ok(count)
    }
}

/// A source over any reader. Its bytes are not known. Each error of the reader is a failed call.
///
/// ```
/// use json_io::{StdSource, check_utf8, read_all};
/// let mut source = StdSource::new("\"é\"".as_bytes());
/// let bytes = read_all(alloc, &mut source, 100)?;
/// assert_eq!(rt; bytes.len(), 4);
/// assert_eq!(rt; check_utf8(&bytes)?, "\"é\"");
/// ```
//
// This is the edge to the system. What is known of the reader's bytes is passed on, and nothing
// else is answered; that a read fails only where the reader did is trusted, since no clause of
// `Read` says when it fails.
#[derive(Drop)]
pub struct StdSource<R: Read> {
    reader: R,
    given: u64,
    faults: u64,
}

impl<R: Read> StdSource<R> {
    ghost use Rattle.json_io.specs.Sources.{reader_of};

    /// Creates a source of what the reader gives.
    pub fn new(reader: R) -> StdSource<R>
        ensures state { ⟦<StdSource<R> as Source>⟧.state result
            ≡ record { left = None; given = 0; faults = 0 } }
        ensures holds { reader_of result ≡ reader }
    {
        StdSource {
            reader,
            given: 0,
            faults: 0,
        }
    }
}

impl<R: Read> Source for StdSource<R> {
    ghost use Rattle.json_io.specs.Sources.{reader_of, std_source_state};

    ghost state = { std_source_state };

    fn read(&mut self, buf: &mut [u8]) -> Result<usize, Failed>
        ensures bound { ReadsAtMost result buf.new }
        ensures reads { Reads (⟦<StdSource<R> as Source>⟧.state self.old)
            (⟦<StdSource<R> as Source>⟧.state self.new) buf.new result }
        // Nothing is answered but what the reader gave.
        ensures passes { ReadConsumes (R.remaining (reader_of self.old))
            (R.remaining (reader_of self.new)) result buf.new }
    {
        match self.reader.read(buf) {
            Ok(count) => {
                self.given = self.given.saturating_add(count as u64);
                Ok(count)
            }
            Err(_) => {
                self.faults = self.faults.saturating_add(1);
                Err(Failed)
            }
        }
    }
}
