// A sink that holds bytes back and sends many at once.
ghost use Rattle.std.specs.Prelude.{◌≡◌, ◌≤◌, ◌<◌, ◌+◌, ◌++◌, length, IfErr, IfOk, OnOk, List, ℕ, drop, take};
ghost use Rattle.std.specs.Io.{WritesAtMost};
ghost use Rattle.json_io.specs.Errors.{OnlyNoMemory};
ghost use Rattle.json_io.specs.Outside.{Writes};
ghost use Rattle.std.specs.Prelude.{◌∷◌, [], IsTrue, Ok, Err, false};
ghost use Rattle.json_grammar.specs.Given.{piece};
ghost use Rattle.json_model.specs.Print.{quoted, shown_bytes};
ghost use Rattle.json_layout.specs.Adding.{Adds};
ghost use Rattle.json_layout.specs.Buffered.{held_after, StoresPiece};
ghost use Rattle.json_layout.specs.Pieces.{comma};

use crate::adding::send;
use crate::blocks::{BLOCK_ROOM, store_blocks, store_last};
use crate::placing::{ITEM, place_byte, place_item, place_key, place_lead};
use crate::shown::BATCH;
use json_io::{Result, Sink, SinkError, SinkResult};
use std::alloc::Global;
use std::simd::prelude::*;

const CAPACITY: usize = 8192;

/// The memory of a [`BufferedWriter`], 8,192 bytes, for a writer that is created later by
/// [`BufferedWriter::with_buffer`].
///
/// ```
/// use json_layout::{WriteBuffer, BufferedWriter};
/// use json_io::{VecSink, flush_all, put_all};
/// let buffer = WriteBuffer::new(alloc)?;
/// let mut writer = BufferedWriter::with_buffer(buffer, VecSink::new(alloc));
/// put_all(&mut writer, b"null")?;
/// flush_all(&mut writer)?;
/// assert_eq!(rt; writer.into_inner().as_slice(), b"null".as_slice());
/// ```
#[derive(Drop)]
pub struct WriteBuffer {
    bytes: Vec<u8>,
    ghost whole: { length bytes.items ≡ 8192 },
}

impl WriteBuffer {
    /// Allocates the 8,192 bytes at once. Fails with `NoMemory` if memory runs out.
    pub fn new(alloc: Global) -> Result<WriteBuffer>
        ensures only { OnlyNoMemory result }
    {
        let bytes = vec![in alloc; 0; CAPACITY]?;
        Ok(WriteBuffer { bytes })
    }
}

/// A sink that collects up to 8,192 bytes and sends them together to an inner sink. Flush it at the
/// end: bytes that it still holds are dropped with it.
///
/// To contracts it has gained the bytes of the inner sink followed by those that it holds. If a
/// call of the inner sink fails, the bytes that the inner sink took are not sent again, and the
/// others stay held.
///
/// ```
/// use json_layout::BufferedWriter;
/// use json_io::{VecSink, flush_all, put_all};
/// let mut writer = BufferedWriter::new(alloc, VecSink::new(alloc))?;
/// put_all(&mut writer, b"sent")?;
/// flush_all(&mut writer)?;
/// put_all(&mut writer, b"held")?;
/// assert_eq!(rt; writer.into_inner().as_slice(), b"sent".as_slice());
/// ```
#[derive(Drop)]
pub struct BufferedWriter<W> {
    inner: W,
    buffer: Vec<u8>,
    // Held are the bytes of the buffer from `sent` up to `end`. Those before `sent` are the inner
    // sink's already.
    sent: usize,
    end: usize,
    ghost order: { sent ≤ end },
    ghost within: { end ≤ 8192 },
    ghost size: { length buffer.items ≡ 8192 },
}

// Copies a piece of N bytes up to twice as many, by two blocks that may overlap.
#[inline(always)]
pub(crate) fn fill_by<const N: usize>(buffer: &mut [u8], at: usize, piece: &[u8])
    requires lanes { N ≤ 64 }
    requires room { at + length piece.now ≤ length buffer.old }
    requires long { N ≤ length piece.now }
    requires short { length piece.now ≤ N + N }
    ensures { StoresPiece at piece.now buffer.old buffer.new }
{
    let back = piece.len() - N;
    Simd::<u8, N>::from_slice(piece).copy_to_slice(&mut buffer[at..]);
    Simd::<u8, N>::from_slice(&piece[back..]).copy_to_slice(&mut buffer[at + back..]);
}

#[inline(never)]
fn fill_long(buffer: &mut [u8], at: usize, piece: &[u8])
    requires { at + length piece.now ≤ length buffer.old }
    ensures { StoresPiece at piece.now buffer.old buffer.new }
{
    buffer[at..at + piece.len()].copy_from_slice(piece);
}

// Copies a piece. One of a known length costs a store or two.
#[inline(always)]
fn fill(buffer: &mut [u8], at: usize, piece: &[u8])
    requires { at + length piece.now ≤ length buffer.old }
    ensures { StoresPiece at piece.now buffer.old buffer.new }
{
    match piece.len() {
        0 => {}
        1 => buffer[at] = piece[0],
        2..4 => fill_by::<2>(buffer, at, piece),
        4..8 => fill_by::<4>(buffer, at, piece),
        8..16 => fill_by::<8>(buffer, at, piece),
        16..33 => fill_by::<16>(buffer, at, piece),
        _ => fill_long(buffer, at, piece),
    }
}

impl<W: Sink> BufferedWriter<W> {
    /// Creates a sink that sends to `inner` and holds nothing yet. It allocates its 8,192 bytes at
    /// once. Fails with `NoMemory` if memory runs out; then `inner` is dropped.
    pub fn new(alloc: Global, inner: W) -> Result<BufferedWriter<W>>
    where
        W: Drop,
        ensures starts { IfOk result (λ b. ⟦<BufferedWriter<W> as Sink>⟧.state b ≡ W.state inner) }
        ensures only { OnlyNoMemory result }
    {
        let buffer = WriteBuffer::new(alloc)?;
        Ok(BufferedWriter::with_buffer(buffer, inner))
    }

    /// Creates a sink that sends to `inner` and holds nothing yet, in a buffer that was allocated
    /// before. Allocates nothing.
    pub fn with_buffer(buffer: WriteBuffer, inner: W) -> BufferedWriter<W>
        ensures starts { ⟦<BufferedWriter<W> as Sink>⟧.state result ≡ W.state inner }
    {
        BufferedWriter {
            inner,
            buffer: buffer.bytes,
            sent: 0,
            end: 0,
        }
    }

    /// Returns the inner sink. Bytes that are still held are dropped: flush first to send them.
    pub fn into_inner(self) -> W
        ensures { (held : List ℕ)
            × (⟦<BufferedWriter<W> as Sink>⟧.state self ≡ held_after (W.state result) held) }
    {
        self.inner
    }

    /// Returns the inner sink, and the memory of the buffer for another writer. Bytes that are still
    /// held are dropped: flush first to send them.
    ///
    /// ```
    /// use json_layout::BufferedWriter;
    /// use json_io::{VecSink, flush_all, put_all};
    /// let mut first = BufferedWriter::new(alloc, VecSink::new(alloc))?;
    /// put_all(&mut first, b"1")?;
    /// flush_all(&mut first)?;
    /// let (sink, buffer) = first.into_parts();
    /// let mut second = BufferedWriter::with_buffer(buffer, sink);
    /// put_all(&mut second, b"2")?;
    /// flush_all(&mut second)?;
    /// assert_eq!(rt; second.into_inner().as_slice(), b"12".as_slice());
    /// ```
    pub fn into_parts(self) -> (W, WriteBuffer)
        ensures { (held : List ℕ)
            × (⟦<BufferedWriter<W> as Sink>⟧.state self ≡ held_after (W.state result.0) held) }
    {
        let buffer = WriteBuffer { bytes: self.buffer };
        (self.inner, buffer)
    }

    // Puts a short string that needs no escape after a comma, unless it is the first, by one test
    // of room. Where that cannot be done nothing is put.
    #[inline(always)]
    pub(crate) fn put_item(&mut self, first: bool, text: &[u8]) -> bool
        ensures put { IsTrue result → Adds (⟦<BufferedWriter<W> as Sink>⟧.state self.old)
            (⟦<BufferedWriter<W> as Sink>⟧.state self.new) (comma first ++ quoted text.now)
            (Ok tt) }
        ensures kept { result ≡ false → ⟦<BufferedWriter<W> as Sink>⟧.state self.new
            ≡ ⟦<BufferedWriter<W> as Sink>⟧.state self.old }
    {
        if CAPACITY - self.end < ITEM {
            return false;
        }
        match place_item(&mut self.buffer, self.end, first, text) {
            Some(end) => {
                self.end = end;
                true
            }
            None => false,
        }
    }

    // Does what `put_item` does for a key, with a colon after it.
    #[inline(always)]
    pub(crate) fn put_key(&mut self, first: bool, key: &[u8]) -> bool
        ensures put { IsTrue result → Adds (⟦<BufferedWriter<W> as Sink>⟧.state self.old)
            (⟦<BufferedWriter<W> as Sink>⟧.state self.new)
            (comma first ++ (quoted key.now ++ 58 ∷ [])) (Ok tt) }
        ensures kept { result ≡ false → ⟦<BufferedWriter<W> as Sink>⟧.state self.new
            ≡ ⟦<BufferedWriter<W> as Sink>⟧.state self.old }
    {
        if CAPACITY - self.end < ITEM {
            return false;
        }
        match place_key(&mut self.buffer, self.end, first, key) {
            Some(end) => {
                self.end = end;
                true
            }
            None => false,
        }
    }

    // Sends what is held.
    #[cold]
    #[inline(never)]
    fn send_held(&mut self) -> SinkResult
        ensures adds { Adds (⟦<BufferedWriter<W> as Sink>⟧.state self.old)
            (⟦<BufferedWriter<W> as Sink>⟧.state self.new) [] result }
        ensures empty { OnOk result (self.new.end ≡ 0) }
    {
        match send(&mut self.inner, &self.buffer[..self.end], &mut self.sent) {
            Ok(()) => {}
            Err(error) => return Err(error),
        }
        self.sent = 0;
        self.end = 0;
        Ok(())
    }

    // Makes room for a block.
    #[inline(always)]
    fn make_room(&mut self) -> SinkResult
        ensures adds { Adds (⟦<BufferedWriter<W> as Sink>⟧.state self.old)
            (⟦<BufferedWriter<W> as Sink>⟧.state self.new) [] result }
        ensures room { OnOk result (self.new.end + 112 ≤ 8192) }
    {
        if CAPACITY - self.end < BLOCK_ROOM {
            return match self.send_held() {
                Ok(()) => Ok(()),
                Err(error) => Err(error),
            };
        }
        Ok(())
    }

    // Holds a quote, and a comma before it unless it is the first.
    #[inline(always)]
    fn hold_lead(&mut self, first: bool)
        requires { self.old.end + 112 ≤ 8192 }
        ensures { Adds (⟦<BufferedWriter<W> as Sink>⟧.state self.old)
            (⟦<BufferedWriter<W> as Sink>⟧.state self.new) (comma first ++ 34 ∷ []) (Ok tt) }
    {
        self.end = place_lead(&mut self.buffer, self.end, first);
    }

    // Holds blocks of a string from `at` on, and returns the offset of the next byte.
    #[inline(always)]
    fn hold_blocks(&mut self, text: &[u8], at: usize) -> usize
        requires room { self.old.end + 112 ≤ 8192 }
        requires block { at + 16 ≤ length text.now }
        ensures next { (at < result) × (result ≤ length text.now) }
        ensures holds { Adds (⟦<BufferedWriter<W> as Sink>⟧.state self.old)
            (⟦<BufferedWriter<W> as Sink>⟧.state self.new)
            (shown_bytes (piece text.now at result)) (Ok tt) }
    {
        let stored = store_blocks(&mut self.buffer, self.end, text, at);
        self.end = stored.end;
        stored.next
    }

    // Holds the last few bytes of a string, and a quote after them.
    #[inline(always)]
    fn hold_last(&mut self, text: &[u8])
        requires room { self.old.end + 112 ≤ 8192 }
        requires few { length text.now ≤ 16 }
        ensures { Adds (⟦<BufferedWriter<W> as Sink>⟧.state self.old)
            (⟦<BufferedWriter<W> as Sink>⟧.state self.new)
            (shown_bytes text.now ++ 34 ∷ []) (Ok tt) }
    {
        let end = store_last(&mut self.buffer, self.end, text);
        place_byte(&mut self.buffer, end, b'"');
        self.end = end + 1;
    }

    // Puts a quote, and a comma before it unless it is the first.
    #[inline(always)]
    fn put_lead(&mut self, first: bool) -> SinkResult
        ensures { Adds (⟦<BufferedWriter<W> as Sink>⟧.state self.old)
            (⟦<BufferedWriter<W> as Sink>⟧.state self.new) (comma first ++ 34 ∷ []) result }
    {
        match self.make_room() {
            Ok(()) => {}
            Err(error) => return Err(error),
        }
        self.hold_lead(first);
        Ok(())
    }

    // Puts some blocks of a string from `at` on, and returns the offset of the next byte.
    #[inline(always)]
    fn put_some(&mut self, text: &[u8], at: usize) -> std::result::Result<usize, SinkError>
        requires { at + 16 ≤ length text.now }
        ensures more { IfOk result (λ next. (at < next) × (next ≤ length text.now)) }
        ensures put { IfOk result (λ next. Adds (⟦<BufferedWriter<W> as Sink>⟧.state self.old)
            (⟦<BufferedWriter<W> as Sink>⟧.state self.new)
            (shown_bytes (piece text.now at next)) (Ok tt)) }
        ensures failed { IfErr result (λ e. Adds (⟦<BufferedWriter<W> as Sink>⟧.state self.old)
            (⟦<BufferedWriter<W> as Sink>⟧.state self.new) [] (Err e)) }
    {
        match self.make_room() {
            Ok(()) => {}
            Err(error) => return Err(error),
        }
        Ok(self.hold_blocks(text, at))
    }

    // Puts the blocks of a string, and returns the offset of the rest, which is shorter than a
    // block.
    #[inline(always)]
    fn put_blocks(&mut self, text: &[u8]) -> std::result::Result<usize, SinkError>
        ensures left { IfOk result (λ at. (at ≤ length text.now) × (length text.now < at + 16)) }
        ensures put { IfOk result (λ at. Adds (⟦<BufferedWriter<W> as Sink>⟧.state self.old)
            (⟦<BufferedWriter<W> as Sink>⟧.state self.new)
            (shown_bytes (take at text.now)) (Ok tt)) }
        ensures failed { IfErr result (λ e. Adds (⟦<BufferedWriter<W> as Sink>⟧.state self.old)
            (⟦<BufferedWriter<W> as Sink>⟧.state self.new) (shown_bytes text.now) (Err e)) }
    {
        let mut at = 0;
        'fill: while text.len() - at >= BATCH {
            match self.put_some(text, at) {
                Ok(next) => at = next,
                Err(error) => return Err(error),
            }
        }
        Ok(at)
    }

    // Puts the last few bytes of a string, and a quote after them.
    #[inline(always)]
    fn put_last(&mut self, text: &[u8]) -> SinkResult
        requires { length text.now ≤ 16 }
        ensures { Adds (⟦<BufferedWriter<W> as Sink>⟧.state self.old)
            (⟦<BufferedWriter<W> as Sink>⟧.state self.new)
            (shown_bytes text.now ++ 34 ∷ []) result }
    {
        match self.make_room() {
            Ok(()) => {}
            Err(error) => return Err(error),
        }
        self.hold_last(text);
        Ok(())
    }

    // Puts a string between quotes, with its escapes, and a comma before it unless it is the first.
    #[inline(never)]
    pub(crate) fn put_quoted(&mut self, first: bool, text: &[u8]) -> SinkResult
        ensures { Adds (⟦<BufferedWriter<W> as Sink>⟧.state self.old)
            (⟦<BufferedWriter<W> as Sink>⟧.state self.new) (comma first ++ quoted text.now) result }
    {
        match self.put_lead(first) {
            Ok(()) => {}
            Err(error) => return Err(error),
        }
        match self.put_blocks(text) {
            Ok(at) => self.put_last(&text[at..]),
            Err(error) => Err(error),
        }
    }

    // Sends what is held, and then takes the piece.
    #[cold]
    #[inline(never)]
    fn write_past(&mut self, piece: &[u8]) -> std::result::Result<usize, SinkError>
        ensures bound { WritesAtMost result piece.now }
        ensures writes { Writes (⟦<BufferedWriter<W> as Sink>⟧.state self.old)
            (⟦<BufferedWriter<W> as Sink>⟧.state self.new) piece.now result }
    {
        match send(&mut self.inner, &self.buffer[..self.end], &mut self.sent) {
            Ok(()) => {}
            Err(error) => return Err(error),
        }
        self.sent = 0;
        self.end = 0;
        if piece.len() >= CAPACITY {
            return self.inner.write(piece);
        }
        fill(&mut self.buffer, 0, piece);
        self.end = piece.len();
        Ok(piece.len())
    }
}

impl<W: Sink> Sink for BufferedWriter<W> {
    ghost state = { λ b. held_after (W.state b.inner) (drop b.sent (take b.end b.buffer.items)) };

    #[inline(always)]
    fn write(&mut self, piece: &[u8]) -> std::result::Result<usize, SinkError> {
        if piece.len() > CAPACITY - self.end {
            return self.write_past(piece);
        }
        fill(&mut self.buffer, self.end, piece);
        self.end += piece.len();
        Ok(piece.len())
    }

    fn flush(&mut self) -> std::result::Result<(), SinkError> {
        match send(&mut self.inner, &self.buffer[..self.end], &mut self.sent) {
            Ok(()) => {}
            Err(error) => return Err(error),
        }
        self.sent = 0;
        self.end = 0;
        self.inner.flush()
    }
}
