// Events that append a text without whitespace to memory.
ghost use Rattle.std.specs.Prelude.{◌≡◌, ◌∷◌, [], None, Err, true};
ghost use Rattle.std.specs.Fmt.{decimal, signed_decimal};
ghost use Rattle.json_io.specs.Errors.{no_memory};
ghost use Rattle.json_grammar.specs.Place.{bracket, closing};
ghost use Rattle.json_grammar.specs.Tree.{begin, end};
ghost use Rattle.json_print.specs.Given.{given, token_of};
ghost use Rattle.json_buffer.specs.TextState as texts;
ghost use Rattle.json_buffer.specs.TextState.{text_state};
ghost use Rattle.json_buffer.specs.TextMoves.{text_moves};

use crate::lead::Lead;
use crate::text_buffer::TextBuffer;
use itoa::{Buffer, Integer};
use json_grammar::Kind;
use json_io::{Error, ErrorCode, Place, Result};
use json_print::Events;
use std::alloc::Global;

/// Writes one JSON value to a text in memory without whitespace, by the methods of
/// [`Events`](json_print::Events). Each value and each key is appended with the comma or the colon
/// before it. If memory runs out, a call fails with `NoMemory`, and so does every later one.
///
/// ```
/// use json_buffer::TextWriter;
/// use json_print::Events;
/// let mut writer = TextWriter::new(alloc);
/// writer.boolean(true)?;
/// assert_eq!(rt; writer.into_vec().as_slice(), b"true".as_slice());
/// ```
#[derive(Drop)]
pub struct TextWriter {
    buffer: TextBuffer,
    lead: Lead,
    // The open containers, the innermost last.
    opened: Vec<Kind>,
    // Whether memory ran out.
    failed: bool,
}

// The bracket that opens a container.
#[inline(always)]
fn opening(kind: Kind) -> &'static [u8]
    ensures { result.now ≡ bracket kind ∷ [] }
{
    match kind {
        Kind::Array => b"[",
        Kind::Object => b"{",
    }
}

// The bracket that closes it.
#[inline(always)]
fn closing_bracket(kind: Kind) -> &'static [u8]
    ensures { result.now ≡ closing kind ∷ [] }
{
    match kind {
        Kind::Array => b"]",
        Kind::Object => b"}",
    }
}

impl TextWriter {
    /// Creates a writer with an empty text. It allocates nothing until the first token is written.
    pub fn new(alloc: Global) -> TextWriter
        ensures starts { text_state result ≡ texts.empty_text }
        ensures fresh { texts.writer_error result ≡ None }
    {
        TextWriter {
            buffer: TextBuffer::new(alloc),
            lead: Lead::Nothing,
            opened: Vec::new(alloc),
            failed: false,
        }
    }

    /// Returns the bytes of the text so far: a whole JSON text if all parts of a value were written
    /// without an error.
    pub fn into_vec(self) -> Vec<u8>
        ensures { result.items ≡ (text_state self).bytes }
    {
        self.buffer.into_vec()
    }

    // Keeps that memory ran out, and returns that error. It is made in place: the result of a
    // call would be cleared at each token.
    #[inline(always)]
    fn refuse(&mut self) -> Result<()>
        ensures result { result ≡ Err no_memory }
        ensures kept { self.new ≡ record self.old { failed = true } }
    {
        self.failed = true;
        Err(Error {
            code: ErrorCode::NoMemory,
            place: Place::None,
        })
    }

    // A scalar that is no string, by its text.
    #[inline(always)]
    fn scalar(&mut self, text: &[u8]) -> Result<()>
        ensures { texts.PutsText texts.scalar_put self.old self.new text.now result }
    {
        if self.failed || !self.buffer.put_piece(self.lead, text) {
            return self.refuse();
        }
        self.lead = Lead::Comma;
        Ok(())
    }

    // An integer from zero on.
    #[inline(always)]
    fn unsigned(&mut self, number: u64) -> Result<()>
        ensures { texts.PutsText texts.scalar_put self.old self.new (decimal number) result }
    {
        if self.failed || !self.buffer.put_unsigned(self.lead, number) {
            return self.refuse();
        }
        self.lead = Lead::Comma;
        Ok(())
    }

    // An integer below zero, by its absolute value.
    #[inline(always)]
    fn negative(&mut self, number: u64) -> Result<()>
        ensures { texts.PutsText texts.scalar_put self.old self.new (45 ∷ decimal number) result }
    {
        if self.failed || !self.buffer.put_negative(self.lead, number) {
            return self.refuse();
        }
        self.lead = Lead::Comma;
        Ok(())
    }

    #[inline(always)]
    fn signed(&mut self, number: i64) -> Result<()>
        ensures { texts.PutsText texts.scalar_put self.old self.new (signed_decimal number) result }
    {
        let size = number.unsigned_abs();
        if number >= 0 {
            return self.unsigned(size);
        }
        self.negative(size)
    }

    // An integer that has more than 64 bits.
    #[inline(never)]
    fn wide<N: Integer>(&mut self, number: N) -> Result<()>
        ensures { texts.PutsText texts.scalar_put self.old self.new (N.text number) result }
    {
        let mut buffer = Buffer::new();
        self.scalar(buffer.format(number).as_bytes())
    }

    // Appends a string, after which `next` may follow, out of line.
    #[inline(always)]
    fn string(&mut self, text: &str, next: Lead) -> Result<()>
        ensures { texts.PutsText (texts.string_put next) self.old self.new text.now result }
    {
        if self.failed || !self.buffer.put_string(&self.lead, text) {
            return self.refuse();
        }
        self.lead = next;
        Ok(())
    }

    // Appends a string, after which `next` may follow, in line: a key is mostly a constant, which
    // is tested at compile time and stored as a few words.
    #[inline(always)]
    fn constant(&mut self, text: &str, next: Lead) -> Result<()>
        ensures { texts.PutsText (texts.string_put next) self.old self.new text.now result }
    {
        if self.failed || !self.buffer.put_constant(self.lead, text) {
            return self.refuse();
        }
        self.lead = next;
        Ok(())
    }

    #[inline(always)]
    fn begin(&mut self, kind: Kind) -> Result<()>
        ensures { texts.PutsText texts.given_put self.old self.new (given (begin kind)) result }
    {
        if self.failed || !self.buffer.put_piece(self.lead, opening(kind)) {
            return self.refuse();
        }
        match self.opened.push(kind) {
            Ok(()) => {
                self.lead = Lead::Nothing;
                Ok(())
            }
            Err(_) => self.refuse(),
        }
    }

    #[inline(always)]
    fn end(&mut self, kind: Kind) -> Result<()>
        ensures { texts.PutsText texts.given_put self.old self.new (given (end kind)) result }
    {
        if self.failed || !self.buffer.put_piece(Lead::Nothing, closing_bracket(kind)) {
            return self.refuse();
        }
        let _ = self.opened.pop();
        self.lead = Lead::Comma;
        Ok(())
    }
}

impl Events for TextWriter {
    ghost State = { texts.TextState };

    ghost state = { text_state };

    ghost after = { texts.given_put };

    ghost token_state = { texts.text_expected };

    ghost stopped = { texts.StopsAtMemory };

    ghost failed = { texts.writer_error };

    ghost moves = { λ s g. text_moves s (token_of g) };

    #[inline(always)]
    fn null(&mut self) -> Result<()> {
        self.scalar(b"null")
    }

    #[inline(always)]
    fn boolean(&mut self, b: bool) -> Result<()> {
        if b {
            self.scalar(b"true")
        } else {
            self.scalar(b"false")
        }
    }

    #[inline(always)]
    fn int(&mut self, n: i128) -> Result<()> {
        match i64::try_from(n) {
            Ok(signed) => self.signed(signed),
            Err(_) => self.wide(n),
        }
    }

    #[inline(always)]
    fn uint(&mut self, n: u128) -> Result<()> {
        match u64::try_from(n) {
            Ok(unsigned) => self.unsigned(unsigned),
            Err(_) => self.wide(n),
        }
    }

    #[inline(always)]
    fn raw_number(&mut self, literal: &str) -> Result<()> {
        self.scalar(literal.as_bytes())
    }

    #[inline(always)]
    fn text(&mut self, s: &str) -> Result<()> {
        self.string(s, Lead::Comma)
    }

    #[inline(always)]
    fn begin_array(&mut self, hint: Option<usize>) -> Result<()> {
        let _ = hint;
        self.begin(Kind::Array)
    }

    #[inline(always)]
    fn end_array(&mut self) -> Result<()> {
        self.end(Kind::Array)
    }

    #[inline(always)]
    fn begin_object(&mut self, hint: Option<usize>) -> Result<()> {
        let _ = hint;
        self.begin(Kind::Object)
    }

    #[inline(always)]
    fn key(&mut self, s: &str) -> Result<()> {
        self.constant(s, Lead::Colon)
    }

    #[inline(always)]
    fn end_object(&mut self) -> Result<()> {
        self.end(Kind::Object)
    }
}
