// Memory to which a text is appended.
ghost use Rattle.std.specs.Prelude.{◌≡◌, ◌≤◌, ◌<◌, ◌+◌, ◌++◌, ◌∷◌, [], length, take, false, IsTrue, Some, None};
ghost use Rattle.std.specs.Io.{WritesAtMost};
ghost use Rattle.std.specs.Fmt.{decimal};
ghost use Rattle.json_model.specs.Print.{quoted};
ghost use Rattle.json_io.specs.Outside.{Writes, Flushes};

use crate::escaping::{ESCAPED, place_escaped};
use crate::lead::Lead;
use crate::placing::{ITEM, place_byte, place_digits, place_item, place_lead, place_piece};
use json_io::{Sink, SinkError};
use json_print::{CompactFormatter, Formatter};
use std::alloc::Global;

// How many bytes are asked for at least.
const LEAST: usize = 256;

// How many bytes after the text are made ready for more at most: a page that is never touched
// costs nothing.
const AHEAD: usize = 16384;

// The most bytes of a string for which room is made as if each byte took six.
const LONG: usize = 1024;

/// The bytes of a text so far, and allocated room for more after them.
#[derive(Drop)]
pub(crate) struct TextBuffer {
    bytes: Vec<u8>,
    end: usize,
    lacks: u64,
    ghost within: { end ≤ length bytes.items },
}

impl TextBuffer {
    ghost use Rattle.json_buffer.specs.Leads.{lead_bytes};
    ghost use Rattle.json_buffer.specs.TextState.{PutsQuoted, buffered};

    /// Creates a buffer without bytes. It allocates nothing yet.
    pub(crate) fn new(alloc: Global) -> TextBuffer
        ensures { buffered result ≡ [] }
    {
        TextBuffer {
            bytes: Vec::new(alloc),
            end: 0,
            lacks: 0,
        }
    }

    /// Returns the bytes of the text.
    pub(crate) fn into_vec(self) -> Vec<u8>
        ensures { result.items ≡ buffered self }
    {
        let mut bytes = self.bytes;
        bytes.truncate(self.end);
        bytes
    }

    // Makes room for `more` more bytes. Returns `false` if memory runs out.
    #[cold]
    #[inline(never)]
    fn grow(&mut self, more: usize) -> bool
        ensures kept { buffered self.new ≡ buffered self.old }
        ensures end { self.new.end ≡ self.old.end }
        ensures lacks { self.new.lacks ≡ self.old.lacks }
        ensures room { IsTrue result → self.new.end + more ≤ length self.new.bytes.items }
    {
        let Some(wanted) = self.end.checked_add(more.max(LEAST)) else {
            return false;
        };
        let lacking = wanted.saturating_sub(self.bytes.len());
        if self.bytes.reserve(lacking).is_err() {
            return false;
        }
        let ready = self.bytes.capacity().min(wanted.saturating_add(AHEAD));
        self.bytes.resize(ready, 0).is_ok()
    }

    // Makes room for `more` more bytes as `grow` does, at no cost if there is room already. Returns
    // `false` if memory runs out.
    #[inline(always)]
    fn has_room(&mut self, more: usize) -> bool
        ensures kept { buffered self.new ≡ buffered self.old }
        ensures end { self.new.end ≡ self.old.end }
        ensures lacks { self.new.lacks ≡ self.old.lacks }
        ensures room { IsTrue result → self.new.end + more ≤ length self.new.bytes.items }
    {
        more <= self.bytes.len() - self.end || self.grow(more)
    }

    // Appends a short string that needs no escape, between quotes, and what precedes it. Where that
    // cannot be done nothing is appended.
    #[inline(always)]
    fn put_short(&mut self, lead: Lead, text: &[u8]) -> bool
        ensures put { PutsQuoted lead text.now self.old self.new result }
        ensures kept { result ≡ false → buffered self.new ≡ buffered self.old }
    {
        if self.bytes.len() - self.end < ITEM {
            return false;
        }
        match place_item(&mut self.bytes, self.end, lead, text) {
            Some(end) => {
                self.end = end;
                true
            }
            None => false,
        }
    }

    // Appends a string that is not too long, between quotes and escaped, and what precedes it.
    // Returns `false` where memory runs out.
    #[inline(always)]
    fn put_escaped(&mut self, lead: Lead, text: &[u8]) -> bool
        requires { length text.now ≤ 1024 }
        ensures { PutsQuoted lead text.now self.old self.new result }
    {
        if !self.has_room(6 * text.len() + ESCAPED) {
            return false;
        }
        let quote = place_lead(&mut self.bytes, self.end, lead);
        place_byte(&mut self.bytes, quote, b'"');
        let end = place_escaped(&mut self.bytes, quote + 1, text);
        place_byte(&mut self.bytes, end, b'"');
        self.end = end + 1;
        true
    }

    // Appends a string that is not short or has to be escaped.
    #[inline(never)]
    fn put_long(&mut self, lead: Lead, text: &str) -> bool
        ensures { PutsQuoted lead text.now self.old self.new result }
    {
        if text.len() <= LONG {
            return self.put_escaped(lead, text.as_bytes());
        }
        self.put_piece(lead, b"") && CompactFormatter.write_string_fast(self, text, true).is_ok()
    }

    /// Appends a string between quotes and escaped, and what precedes it. Returns `false` where
    /// memory runs out. `lead` is a reference: by value it would be loaded with its neighbours just
    /// after it was stored alone.
    #[inline(never)]
    pub(crate) fn put_string(&mut self, lead: &Lead, text: &str) -> bool
        ensures { IsTrue result → buffered self.new
            ≡ buffered self.old ++ (lead_bytes lead.now ++ quoted text.now) }
    {
        self.put_short(*lead, text.as_bytes()) || self.put_long(*lead, text)
    }

    /// Does what [`TextBuffer::put_string`] does, in line: where `text` is short and known when
    /// this is compiled, it is tested then.
    #[inline(always)]
    pub(crate) fn put_constant(&mut self, lead: Lead, text: &str) -> bool
        ensures { PutsQuoted lead text.now self.old self.new result }
    {
        self.put_short(lead, text.as_bytes()) || self.put_long(lead, text)
    }

    /// Appends a piece as it is, and what precedes it. Returns `false` where memory runs out.
    #[inline(always)]
    pub(crate) fn put_piece(&mut self, lead: Lead, piece: &[u8]) -> bool
        ensures { IsTrue result → buffered self.new
            ≡ buffered self.old ++ (lead_bytes lead ++ piece.now) }
    {
        if !self.has_room(piece.len() + 1) {
            return false;
        }
        let at = place_lead(&mut self.bytes, self.end, lead);
        place_piece(&mut self.bytes, at, piece);
        self.end = at + piece.len();
        true
    }

    /// Appends a number by its digits, and what precedes it. Returns `false` where memory runs out.
    #[inline(always)]
    pub(crate) fn put_unsigned(&mut self, lead: Lead, number: u64) -> bool
        ensures { IsTrue result → buffered self.new
            ≡ buffered self.old ++ (lead_bytes lead ++ decimal number) }
    {
        if !self.has_room(21) {
            return false;
        }
        let at = place_lead(&mut self.bytes, self.end, lead);
        self.end = place_digits(&mut self.bytes, at, number);
        true
    }

    /// Appends a minus and the digits of a number, and before them what precedes it. Returns
    /// `false` where memory runs out.
    #[inline(always)]
    pub(crate) fn put_negative(&mut self, lead: Lead, number: u64) -> bool
        ensures { IsTrue result → buffered self.new
            ≡ buffered self.old ++ (lead_bytes lead ++ 45 ∷ decimal number) }
    {
        if !self.has_room(22) {
            return false;
        }
        let at = place_lead(&mut self.bytes, self.end, lead);
        place_byte(&mut self.bytes, at, b'-');
        self.end = place_digits(&mut self.bytes, at + 1, number);
        true
    }
}

impl Sink for TextBuffer {
    ghost use Rattle.json_buffer.specs.TextState.{buffered};

    ghost state = { λ b. record {
      gained = Some (buffered b);
      faults = 0;
      lacks = b.lacks;
      unflushed = false;
      loan = None;
    } };

    #[inline(always)]
    fn write(&mut self, piece: &[u8]) -> Result<usize, SinkError> {
        if !self.has_room(piece.len()) {
            self.lacks = self.lacks.saturating_add(1);
            return Err(SinkError::NoMemory);
        }
        place_piece(&mut self.bytes, self.end, piece);
        self.end += piece.len();
        Ok(piece.len())
    }

    fn flush(&mut self) -> Result<(), SinkError> {
        Ok(())
    }
}
