// The serializer.
ghost use Rattle.std.specs.Prelude.{◌≡◌, None, Some, codes, true, false};
ghost use Rattle.json_print.specs.Given.{token_of};
ghost use Rattle.json_print.specs.Layouts.{LaidOut, plain_form, pretty_form};
ghost use Rattle.json_print.specs.Printer.{IsFresh, SerializerState, StopsTaking, expected_tokens_of, start, took};
ghost use Rattle.json_print.specs.Serializing.{error_of, formatter_of, out_of};
ghost use Rattle.json_print.specs.ExpectedAfter.{expected_after};
ghost use Rattle.json_print.specs.Steps.{kept_result};
ghost use Rattle.json_print.specs.Written.{Written};

mod puts;
mod steps;
mod straight;

use crate::part::Part;
use crate::sorted::SortedObject;
use crate::{CompactFormatter, Events, ExpectedEvent, Formatter, PrettyFormatter};
use json_grammar::Kind;
use json_io::{Error, Result, Sink};
use std::alloc::Global;

// A step stopped, and the serializer keeps why.
#[derive(Clone, Copy)]
struct SerializerFailed;

type SerializerResult = std::result::Result<(), SerializerFailed>;

/// Writes the JSON text of a value (RFC 8259) to a sink, `W`, from the value's parts, in the layout
/// of a [`Formatter`], `F`. The parts are given by the methods of [`Events`](crate::Events), from
/// left to right.
///
/// These methods fail with `Io` at the place `Writing` if the writer fails, and with `NoMemory` if
/// memory runs out. Errors are sticky: after an error each call returns the same error and writes
/// nothing.
///
/// ```
/// use json_print::{Events, Serializer};
/// use json_io::VecSink;
/// let mut out = Serializer::pretty(alloc, VecSink::new(alloc));
/// out.begin_object(None)?;
/// out.key("n")?;
/// out.int(-1)?;
/// out.end_object()?;
/// assert_eq!(rt; out.into_inner().as_slice(), b"{\n  \"n\": -1\n}".as_slice());
/// ```
#[derive(Drop)]
pub struct Serializer<W, F> {
    writer: W,
    formatter: F,
    turn: ExpectedEvent,
    // The open containers, the innermost last.
    opened: Vec<Kind>,
    sorts: bool,
    // Where it sorts, the open objects, the innermost last.
    objects: Vec<SortedObject>,
    // Objects whose memory can be used again.
    spare: Vec<SortedObject>,
    alloc: Global,
    failed: Option<Error>,
}

impl<W: Sink> Serializer<W, CompactFormatter> {
    /// Creates a serializer that writes to `writer` without whitespace between the tokens. It has
    /// written nothing yet. `alloc` allocates what it keeps, such as the list of open containers.
    pub fn new(alloc: Global, writer: W) -> Serializer<W, CompactFormatter>
        ensures starts { out_of W.state result ≡
            start (formatter_of result) false (W.state writer) }
        ensures laid { LaidOut plain_form (formatter_of result) None 0 false }
        ensures fresh { error_of result ≡ None }
    {
        Serializer::with_formatter(alloc, writer, CompactFormatter)
    }
}

impl<W: Sink> Serializer<W, PrettyFormatter<'static>> {
    /// Creates a serializer that writes to `writer` with an indent of two spaces. It has written
    /// nothing yet. `alloc` allocates what it keeps, such as the list of open containers.
    pub fn pretty(alloc: Global, writer: W) -> Serializer<W, PrettyFormatter<'static>>
        ensures starts { out_of W.state result ≡
            start (formatter_of result) false (W.state writer) }
        ensures laid { LaidOut pretty_form (formatter_of result) (Some (codes "  ")) 0 false }
        ensures fresh { error_of result ≡ None }
    {
        Serializer::with_formatter(alloc, writer, PrettyFormatter::new())
    }
}

impl<W: Sink, F: Formatter> Serializer<W, F> {
    /// Creates a serializer that writes to `writer` by the calls of `formatter`, which must have
    /// written nothing. `alloc` allocates what it keeps, such as the list of open containers.
    pub fn with_formatter(alloc: Global, writer: W, formatter: F) -> Serializer<W, F>
        requires { F.fresh formatter }
        ensures starts { out_of W.state result ≡ start formatter false (W.state writer) }
        ensures fresh { error_of result ≡ None }
    {
        Serializer {
            writer,
            formatter,
            turn: ExpectedEvent::Value,
            opened: Vec::new(alloc),
            sorts: false,
            objects: Vec::new(alloc),
            spare: Vec::new(alloc),
            alloc,
            failed: None,
        }
    }

    /// Returns the serializer with sorting: it writes the members of each object in the order of
    /// the bytes of their unescaped keys. Members of equal keys keep their order. It must have
    /// written nothing yet. The members of an object wait in memory for its end.
    pub fn sort_map_keys(mut self) -> Serializer<W, F>
        requires { IsFresh (out_of W.state self) }
        ensures sorts { out_of W.state result ≡ record (out_of W.state self) { sorts = true } }
        ensures failed { error_of result ≡ error_of self }
    {
        self.sorts = true;
        self
    }

    /// Returns the writer. If the calls gave all parts of a value, the writer has gained the
    /// value's text in the layout of the formatter. If they gave some first parts of it, also up to
    /// an error, it has gained a prefix of that text. For any formatter, it has gained the pieces
    /// of the calls that reached it, in order. `Io` at the place `Writing` was returned exactly if
    /// a call of the writer failed.
    pub fn into_inner(self) -> W
    where
        F: Drop,
        ensures written { Written F.form (out_of W.state self) (W.state result) }
        ensures gained { (W.state result).gained ≡ (out_of W.state self).gained }
    {
        self.writer
    }

    // The error that is kept.
    #[cold]
    #[inline(never)]
    fn kept_error(&self) -> Result<()>
        ensures { result ≡ kept_result self.now.failed }
    {
        match self.failed {
            None => Ok(()),
            Some(error) => Err(error),
        }
    }
}

#[tactic(auto, using(crate::proofs::Answering::answered))]
impl<W: Sink, F: Formatter> Events for Serializer<W, F> {
    ghost State = { SerializerState F };

    ghost state = { out_of W.state };

    ghost after = { took F.form };

    ghost token_state = { expected_tokens_of };

    ghost stopped = { StopsTaking F.form };

    ghost failed = { λ s. s.failed };

    ghost moves = { λ s g. expected_after F.form s (token_of g) };

    #[inline(always)]
    fn null(&mut self) -> Result<()> {
        if self.failed.is_none() && self.null_value().is_ok() {
            return Ok(());
        }
        self.kept_error()
    }

    #[inline(always)]
    fn boolean(&mut self, b: bool) -> Result<()> {
        if self.failed.is_none() && self.boolean_value(b).is_ok() {
            return Ok(());
        }
        self.kept_error()
    }

    #[inline(always)]
    fn int(&mut self, n: i128) -> Result<()> {
        if self.failed.is_none() && self.scalar(Part::Int(n)).is_ok() {
            return Ok(());
        }
        self.kept_error()
    }

    #[inline(always)]
    fn uint(&mut self, n: u128) -> Result<()> {
        if self.failed.is_none() && self.unsigned(n).is_ok() {
            return Ok(());
        }
        self.kept_error()
    }

    #[inline(always)]
    fn raw_number(&mut self, literal: &str) -> Result<()> {
        if self.failed.is_none() && self.number(literal).is_ok() {
            return Ok(());
        }
        self.kept_error()
    }

    #[inline(always)]
    fn text(&mut self, s: &str) -> Result<()> {
        if self.failed.is_none() && self.string(s).is_ok() {
            return Ok(());
        }
        self.kept_error()
    }

    #[inline(always)]
    fn begin_array(&mut self, hint: Option<usize>) -> Result<()> {
        let _ = hint;
        if self.failed.is_none() && self.begin(Kind::Array).is_ok() {
            return Ok(());
        }
        self.kept_error()
    }

    #[inline(always)]
    fn end_array(&mut self) -> Result<()> {
        if self.failed.is_none() && self.end(Kind::Array).is_ok() {
            return Ok(());
        }
        self.kept_error()
    }

    #[inline(always)]
    fn begin_object(&mut self, hint: Option<usize>) -> Result<()> {
        let _ = hint;
        if self.failed.is_none() && self.begin(Kind::Object).is_ok() {
            return Ok(());
        }
        self.kept_error()
    }

    #[inline(always)]
    fn key(&mut self, s: &str) -> Result<()> {
        if self.failed.is_none() && self.key_text(s).is_ok() {
            return Ok(());
        }
        self.kept_error()
    }

    #[inline(always)]
    fn end_object(&mut self) -> Result<()> {
        if self.failed.is_none() && self.end(Kind::Object).is_ok() {
            return Ok(());
        }
        self.kept_error()
    }
}
