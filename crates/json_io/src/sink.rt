// Where bytes go.
ghost use Rattle.std.specs.Prelude.{◌≡◌, [], false, Some, None, IfOk, IsOk, length};
ghost use Rattle.std.specs.Io.KnownBytes as known;
ghost use Rattle.std.specs.Io.{WritesAtMost};
ghost use Rattle.json_io.specs.Lending.{lent_as};
ghost use Rattle.json_io.specs.Outside.{SinkState, Writes, Flushes};

use crate::append::extend_reserved;
use std::alloc::Global;
use std::io::Write;

/// Why a call of a sink failed. A write that fails takes nothing.
///
/// ```
/// use json_io::{FakeSink, Sink, SinkError};
/// let mut sink = FakeSink::new(alloc, 9, &[0]);
/// assert_eq!(rt; sink.write(b"null"), Err(SinkError::Failed));
/// assert_eq!(rt; sink.write(b"null"), Ok(4));
/// ```
#[derive(Clone, Copy, Debug, PartialEq, Eq)]
pub enum SinkError {
    /// The call failed.
    Failed,
    /// Memory ran out.
    NoMemory,
}

/// What a call of a sink returns that takes or flushes all: nothing, or why it failed.
pub type SinkResult = std::result::Result<(), SinkError>;

/// Where bytes are written. A write may take a prefix of its piece; `put_all` writes the whole.
///
/// ```
/// use json_io::{FakeSink, Sink};
/// let mut sink = FakeSink::new(alloc, 3, &[]);
/// assert_eq!(rt; sink.write(b"false"), Ok(3));
/// assert_eq!(rt; sink.write(b"se"), Ok(2));
/// assert_eq!(rt; sink.flush(), Ok(()));
/// assert_eq!(rt; sink.as_slice(), b"false".as_slice());
/// ```
pub trait Sink {
    /// The bytes gained, where they are known, how many calls failed and how many found no memory,
    /// whether bytes may wait for a flush, and the loan of a borrowed sink. No call changes the
    /// loan.
    ghost state: { Self → SinkState };

    /// Takes a prefix of the piece, and returns its number of bytes: at least one if the piece has
    /// one. A call that fails takes nothing.
    fn write(&mut self, piece: &[u8]) -> Result<usize, SinkError>
        ensures bound { WritesAtMost result piece.now }
        ensures writes { Writes (state self.old) (state self.new) piece.now result };

    /// Sends on what waits. Fails if it cannot be sent.
    fn flush(&mut self) -> Result<(), SinkError>
        ensures flushes { Flushes (state self.old) (state self.new) result };
}

impl<K: Sink> Sink for &mut K {
    ghost state = { λ k. lent_as (K.state k.now) k.ghost_name None };

    #[inline(always)]
    fn write(&mut self, piece: &[u8]) -> Result<usize, SinkError> {
        Sink::write(&mut **self, piece)
    }

    #[inline(always)]
    fn flush(&mut self) -> Result<(), SinkError> {
        Sink::flush(&mut **self)
    }
}

/// A sink in memory. Its bytes are known, and it never fails: it takes the whole piece or finds no
/// memory.
///
/// ```
/// use json_io::{VecSink, put_all};
/// let mut sink = VecSink::new(alloc);
/// put_all(&mut sink, b"[1,")?;
/// put_all(&mut sink, b"2]")?;
/// assert_eq!(rt; sink.into_vec().as_slice(), b"[1,2]".as_slice());
/// ```
#[derive(Drop)]
pub struct VecSink {
    bytes: Vec<u8>,
    lacks: u64,
}

impl VecSink {
    /// Creates a sink that has gained nothing.
    pub fn new(alloc: Global) -> VecSink
        ensures { ⟦<VecSink as Sink>⟧.state result
            ≡ record { gained = Some []; faults = 0; lacks = 0; unflushed = false; loan = None } }
    {
        VecSink {
            bytes: Vec::new(alloc),
            lacks: 0,
        }
    }

    /// Returns the bytes gained.
    pub fn as_slice(&self) -> &[u8]
        ensures { (⟦<VecSink as Sink>⟧.state self.now).gained ≡ Some result.now }
    {
        &self.bytes
    }

    /// Returns the bytes gained, as a vector.
    pub fn into_vec(self) -> Vec<u8>
        ensures { (⟦<VecSink as Sink>⟧.state self).gained ≡ Some result.items }
    {
        self.bytes
    }

    // Takes a piece for which memory is asked.
    #[cold]
    #[inline(never)]
    fn write_past(&mut self, piece: &[u8]) -> Result<usize, SinkError>
        ensures bound { WritesAtMost result piece.now }
        ensures writes { Writes (⟦<VecSink as Sink>⟧.state self.old)
            (⟦<VecSink as Sink>⟧.state self.new) piece.now result }
        ensures whole { IfOk result (λ n. n ≡ length piece.now) }
    {
        match self.bytes.extend_from_slice(piece) {
            Ok(()) => Ok(piece.len()),
            Err(_) => {
                self.lacks = self.lacks.saturating_add(1);
                Err(SinkError::NoMemory)
            }
        }
    }
}

impl Sink for VecSink {
    ghost use Rattle.json_io.specs.Sinks.{vec_sink_state};

    ghost state = { vec_sink_state };

    #[inline(always)]
    fn write(&mut self, piece: &[u8]) -> Result<usize, SinkError>
        ensures bound { WritesAtMost result piece.now }
        ensures writes { Writes (⟦<VecSink as Sink>⟧.state self.old)
            (⟦<VecSink as Sink>⟧.state self.new) piece.now result }
        ensures whole { IfOk result (λ n. n ≡ length piece.now) }
    {
        if piece.len() > self.bytes.capacity() - self.bytes.len() {
            return self.write_past(piece);
        }
        extend_reserved(&mut self.bytes, piece);
        Ok(piece.len())
    }

    fn flush(&mut self) -> Result<(), SinkError>
        ensures flushes { Flushes (⟦<VecSink as Sink>⟧.state self.old)
            (⟦<VecSink as Sink>⟧.state self.new) result }
        ensures done { IsOk result }
    {
        Ok(())
    }
}

/// A sink over any writer. Its bytes are not known. Each error of the writer, and a write of
/// nothing of a piece that is not empty, is a failed call.
///
/// ```
/// use json_io::{StdSink, flush_all, put_all};
/// let mut bytes = Vec::new(alloc);
/// let mut sink = StdSink::new(&mut bytes);
/// put_all(&mut sink, b"true\n")?;
/// flush_all(&mut sink)?;
/// assert_eq!(rt; bytes.as_slice(), b"true\n".as_slice());
/// ```
//
// This is the edge to the system. What is known of the writer's bytes is passed on, so no byte is
// dropped or made up; that a call fails only where the writer did, and that `flush` flushes the
// writer, is trusted, since no clause of `Write` says when it fails or what a flush does.
#[derive(Drop)]
pub struct StdSink<W: Write> {
    writer: W,
    faults: u64,
    unflushed: bool,
}

impl<W: Write> StdSink<W> {
    ghost use Rattle.json_io.specs.Sinks.{writer_of};

    /// Creates a sink that writes to the writer.
    pub fn new(writer: W) -> StdSink<W>
        ensures state { ⟦<StdSink<W> as Sink>⟧.state result
            ≡ record { gained = None; faults = 0; lacks = 0; unflushed = false; loan = None } }
        ensures holds { writer_of result ≡ writer }
    {
        StdSink {
            writer,
            faults: 0,
            unflushed: false,
        }
    }
}

impl<W: Write> Sink for StdSink<W> {
    ghost use Rattle.json_io.specs.Sinks.{std_sink_state, writer_of};

    ghost state = { std_sink_state };

    fn write(&mut self, piece: &[u8]) -> Result<usize, SinkError>
        ensures bound { WritesAtMost result piece.now }
        ensures writes { Writes (⟦<StdSink<W> as Sink>⟧.state self.old)
            (⟦<StdSink<W> as Sink>⟧.state self.new) piece.now result }
        ensures passes { known.WriteAppends (W.contents (writer_of self.old))
            (W.contents (writer_of self.new)) result piece.now }
    {
        self.unflushed = true;
        match self.writer.write(piece) {
            Ok(0) if !piece.is_empty() => {
                self.faults = self.faults.saturating_add(1);
                Err(SinkError::Failed)
            }
            Ok(count) => Ok(count),
            Err(_) => {
                self.faults = self.faults.saturating_add(1);
                Err(SinkError::Failed)
            }
        }
    }

    fn flush(&mut self) -> Result<(), SinkError>
        ensures flushes { Flushes (⟦<StdSink<W> as Sink>⟧.state self.old)
            (⟦<StdSink<W> as Sink>⟧.state self.new) result }
        ensures passes { known.Keeps (W.contents (writer_of self.old))
            (W.contents (writer_of self.new)) }
    {
        match self.writer.flush() {
            Ok(()) => {
                self.unflushed = false;
                Ok(())
            }
            Err(_) => {
                self.faults = self.faults.saturating_add(1);
                Err(SinkError::Failed)
            }
        }
    }
}
