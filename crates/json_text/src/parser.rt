// The reader of a text.
ghost use Rattle.std.specs.Prelude.{◌≡◌, ◌⊎◌, ◌+◌, ◌<◌, ◌≤◌, ◌↔◌, ◌==◌, List, [], true, false, length, get_or, cond, IsTrue, IsSome, Some, None, IfSome, IfOk, IfErr, OnOk, OnErr};
ghost use Rattle.std.specs.Str.{IsCharBoundary};
ghost use Rattle.json_grammar.specs.declared.ExpectedPart.TheVariants as ExpectedPart;
ghost use Rattle.json_grammar.specs.Grammar.{IsWhitespace, ws};
ghost use Rattle.json_grammar.specs.Given.{piece};
ghost use Rattle.json_text.specs.Faults.{IsFault, IsInValue, ValueFaultFrom};
ghost use Rattle.json_text.specs.Due.{NextNeeds};
ghost use Rattle.json_text.specs.Parsing.{input, consumed, HasGiven, SameInput, IsWhole, AdvancesTo, ReadsWhenWhole, ReadsNextEvent, StopsTight, LendsBefore, EndsWhole, RefusesOnErr, FailsWhenDue, FailsInValue};
ghost use Rattle.json_text.specs.Parsing.{Refuses, IsDue, EventsBeginTexts};
ghost use Rattle.json_text.specs.Ends.{ComesNext, NothingLeft, IsNewAt, TrailsAt, ReadsEnd, LacksEnd, no_end as spec_no_end};
ghost use Rattle.json_io.specs.Positions.{place_at};

use crate::event::Event;
use crate::fault::Fault;
use crate::next_parts::closing_byte;
use crate::stack::ContainerStack;
use crate::steps::{is_whole_value, step};
use crate::token::Cursor;
use json_grammar::{ExpectedPart, Kind};
use json_io::{Error, ErrorCode, Result, place_of};
use json_scan::ws_run;
use std::marker::Model;

mod booleans;
mod brackets;
mod expected;
mod literals;
mod negatives;

pub use expected::UnsignedInteger;
pub use negatives::NegativeInteger;

/// The most levels of a tree, where the caller chooses none (RFC 8259, section 9).
const LEVELS: usize = 254;

/// Returns the events of a text one after another, up to an error, which each later call returns
/// again. Takes no memory.
///
/// ```
/// use json_text::{Event, Parser};
/// let mut parser = Parser::new("[1.50, null] ");
/// assert!(rt; matches!(parser.next()?, Event::BeginArray));
/// assert!(rt; matches!(parser.next()?, Event::Number("1.50")));
/// while !parser.done() {
///     parser.next()?;
/// }
/// assert_eq!(rt; parser.index(), 12);
/// ```
#[derive(Drop)]
pub struct Parser<'a> {
    text: &'a str,
    // what is read: the text from `start` on
    rest: &'a str,
    start: usize,
    lossy: bool,
    // how many bytes of the rest were taken
    at: usize,
    limit: usize,
    kinds: ContainerStack,
    expected: ExpectedPart,
    failure: Option<Error>,
}

impl<'a> Model for Parser<'a> {
    ghost use Rattle.json_text.specs.Parsing.{ParserState, state_of, IsSound};

    ghost Value = { ParserState };

    ghost view = { λ a. state_of a.text.now a.start a.lossy a.limit a.at a.kinds a.expected a.failure };

    ghost invariant = { λ a. IsSound a.rest.now
        (state_of a.text.now a.start a.lossy a.limit a.at a.kinds a.expected a.failure) };
}

// Why a container of the kind does not end at a byte.
fn no_end(kind: Kind, byte: u8) -> ErrorCode
    ensures { result ≡ spec_no_end kind (Some byte) }
{
    match kind {
        Kind::Array => ErrorCode::ExpectedArrayCommaOrEnd,
        Kind::Object => {
            if byte == b',' {
                ErrorCode::TrailingComma
            } else {
                ErrorCode::ExpectedObjectCommaOrEnd
            }
        }
    }
}

impl<'a> Parser<'a> {
    /// Returns a parser at the beginning of the text, where a value must follow. It reads values of
    /// at most 254 levels, unless `depth` sets another limit: `[]` has 1.
    pub fn new(text: &'a str) -> Parser<'a>
        ensures text { result.text ≡ text.now }
        ensures start { (result.start ≡ 0) × (result.index ≡ 0) }
        ensures limit { result.limit ≡ 254 }
        ensures strict { result.lossy ≡ false }
        ensures fresh { HasGiven result [] × (result.failure ≡ None) }
    {
        Parser {
            text,
            rest: text,
            start: 0,
            lossy: false,
            at: 0,
            limit: LEVELS,
            kinds: ContainerStack::new(),
            expected: ExpectedPart::Value,
            failure: None,
        }
    }

    /// Returns a parser that begins at this offset of the text, in bytes, where a value must
    /// follow, with the limit of `new`. What is before the offset is not looked at. Errors have
    /// their places in the whole text.
    ///
    /// ```
    /// use json_text::{Event, Parser};
    /// let mut parser = Parser::at("[1] 2.50]", 4);
    /// assert!(rt; matches!(parser.next()?, Event::Number("2.50")));
    /// assert!(rt; parser.done());
    /// assert_eq!(rt; parser.index(), 8);
    /// parser.end_seq()?;
    /// ```
    pub fn at(text: &'a str, index: usize) -> Parser<'a>
        requires { IsCharBoundary text.now index }
        ensures text { result.text ≡ text.now }
        ensures start { (result.start ≡ index) × (result.index ≡ index) }
        ensures limit { result.limit ≡ 254 }
        ensures strict { result.lossy ≡ false }
        ensures fresh { HasGiven result [] × (result.failure ≡ None) }
    {
        Parser::new_at(text, index, LEVELS, false)
    }

    /// The same with another limit, in either mode.
    fn new_at(text: &'a str, index: usize, limit: usize, lossy: bool) -> Parser<'a>
        requires boundary { IsCharBoundary text.now index }
        requires most { limit ≤ 1024 }
        ensures { IsNewAt text.now lossy limit index result }
    {
        Parser {
            text,
            rest: &text[index..],
            start: index,
            lossy,
            at: 0,
            limit,
            kinds: ContainerStack::new(),
            expected: ExpectedPart::Value,
            failure: None,
        }
    }

    /// Returns the same parser for values of at most `depth` levels, which are at most 1,024. It
    /// has returned no event and no error.
    pub fn depth(self, depth: u32) -> Parser<'a>
        requires most { depth ≤ 1024 }
        requires fresh { HasGiven self [] × (self.failure ≡ None) }
        ensures limit { result ≡ record self.entry { limit = depth } }
        ensures fresh { HasGiven result [] × (result.failure ≡ None) }
    {
        Parser {
            limit: depth as usize,
            ..self
        }
    }

    /// Returns the parser in the lossy mode, in which no surrogate is an error (RFC 8259, section
    /// 8.2): the escape of a low surrogate that is alone, or of a high one that no escape of a low
    /// one follows at once, is U+FFFD, and reading goes on after that escape. All else is as
    /// before. To be called before the first event.
    ///
    /// ```
    /// use json_text::{Event, Parser};
    /// let mut text = Vec::new(alloc);
    /// if let Event::Str(span) = Parser::new("\"\\ud800a\"").lossy().next()? {
    ///     text.reserve(span.raw_len())?;
    ///     span.unescape_into(&mut text);
    /// }
    /// assert_eq!(rt; text.as_slice(), "\u{fffd}a".as_bytes());
    /// ```
    pub fn lossy(self) -> Parser<'a>
        requires { HasGiven self [] × (self.failure ≡ None) }
        ensures lossy { result ≡ record self.entry { lossy = true } }
        ensures fresh { HasGiven result [] × (result.failure ≡ None) }
    {
        Parser {
            lossy: true,
            ..self
        }
    }

    /// Returns the offset after what was taken, in bytes from the beginning of the text. After an
    /// event it is right after the event's token: neither the colon after a name nor the comma or
    /// the whitespace after a value is taken.
    #[inline(always)]
    pub fn index(&self) -> usize
        ensures { result ≡ self.now.index }
    {
        self.start + self.at
    }

    /// Returns whether the value is whole.
    #[inline(always)]
    pub fn done(&self) -> bool
        ensures { IsTrue result ↔ ((self.now.expected ≡ ExpectedPart.Done) × (length self.now.open_kinds ≡ 0)) }
    {
        is_whole_value(self.expected, self.kinds.top())
    }

    /// The next event, if nothing was refused: a copy for each use.
    #[inline(always)]
    fn advance<const USE: u8>(&mut self) -> std::result::Result<Event<'a>, Fault>
        requires { self.old.failure ≡ None }
        ensures same { SameInput self.old self.new }
        ensures failure { self.new.failure ≡ self.old.failure }
        ensures ok { IfOk result (λ e. AdvancesTo self.old e self.new) }
        ensures tight { StopsTight self.old self.new result }
        ensures whole { EndsWhole self.old result }
        ensures err { IfErr result (λ f.
            IsFault self.old.lossy self.old.limit (input self.old) f.code f.offset) }
        ensures needs { IfErr result (λ f.
            NextNeeds self.old.lossy (input self.old) (consumed self.old) f.code f.offset) }
        ensures inside { IfErr result (λ f. ¬ (IsWhole self.old) → IsInValue f.code) }
        ensures kept { OnErr result (self.new ≡ self.old) }
    {
        let cursor = Cursor {
            at: self.at,
            expected: self.expected,
        };
        match step::<USE>(self.rest, cursor, self.limit, self.lossy, &mut self.kinds) {
            Ok(read) => {
                self.at = read.end;
                self.expected = read.expected;
                Ok(read.event)
            }
            Err(fault) => Err(fault),
        }
    }

    /// Keeps the refusal, with its place in the text.
    #[cold]
    #[inline(never)]
    fn refuse(&mut self, fault: Fault)
        requires new { self.old.failure ≡ None }
        requires fault { IsFault self.old.lossy self.old.limit (input self.old) fault.code
            fault.offset }
        requires needs { NextNeeds self.old.lossy (input self.old) (consumed self.old) fault.code
            fault.offset }
        requires inside { ¬ (IsWhole self.old) → IsInValue fault.code }
        ensures some { IsSome self.new.failure }
        ensures kept { IfSome self.new.failure (λ e. Refuses self.old e self.new) }
        ensures due { IfSome self.new.failure (λ e. IsDue self.old e) }
        ensures code { IfSome self.new.failure (λ e. e.code ≡ fault.code) }
    {
        self.failure = Some(Error {
            code: fault.code,
            place: place_of(self.text.as_bytes(), self.start + fault.offset),
        });
    }

    /// What was refused.
    #[inline(always)]
    fn kept_error(&self) -> Error
        requires { IsSome self.now.failure }
        ensures { self.now.failure ≡ Some result }
    {
        match self.failure {
            Some(error) => error,
            None => unreachable!(),
        }
    }

    /// Returns the next event: `End` once the value is whole and only whitespace is left, and from
    /// then on at each call.
    ///
    /// Fails with one of the codes from `EofWhileParsing` to `RecursionLimitExceeded`, at the
    /// offset after the longest prefix that some text begins with; with the last code, at the
    /// bracket that opens a level too many. The error is returned for the event that needs the byte
    /// at that offset, for none before, and again at each later call. While the value is not whole,
    /// it is the error of the value, whatever would follow it; once it is whole, the parser is
    /// right after it.
    #[inline(always)]
    pub fn next(&mut self) -> Result<Event<'a>>
        ensures same { SameInput self.old self.new }
        ensures ok { ReadsNextEvent self.old self.new result }
        ensures tight { StopsTight self.old self.new result }
        ensures between { LendsBefore self.new result }
        ensures err { RefusesOnErr self.old self.new result }
        ensures needs { FailsWhenDue self.old result }
        ensures inside { FailsInValue self.old result }
        ensures in_value { IfErr result (λ e. ¬ (IsWhole self.old)
            → ValueFaultFrom self.old.lossy self.old.limit self.old.start self.old.text
            e.code e.place) }
        ensures whole { EndsWhole self.old result }
        ensures reads { ReadsWhenWhole self.old self.new result }
        ensures begins { EventsBeginTexts self.new }
    {
        self.next_by::<0>()
    }

    /// Returns what `next` does, by a copy of its own for each `USE`: a loop whose number no other
    /// caller names has it in line, as `next` is only if one loop of the program calls it. Fails as
    /// `next` does.
    #[inline(always)]
    pub fn next_by<const USE: u8>(&mut self) -> Result<Event<'a>>
        ensures same { SameInput self.old self.new }
        ensures ok { ReadsNextEvent self.old self.new result }
        ensures tight { StopsTight self.old self.new result }
        ensures between { LendsBefore self.new result }
        ensures err { RefusesOnErr self.old self.new result }
        ensures needs { FailsWhenDue self.old result }
        ensures inside { FailsInValue self.old result }
        ensures in_value { IfErr result (λ e. ¬ (IsWhole self.old)
            → ValueFaultFrom self.old.lossy self.old.limit self.old.start self.old.text
            e.code e.place) }
        ensures whole { EndsWhole self.old result }
        ensures reads { ReadsWhenWhole self.old self.new result }
        ensures begins { EventsBeginTexts self.new }
    {
        if self.failure.is_some() {
            return Err(self.kept_error());
        }
        match self.advance::<USE>() {
            Ok(event) => Ok(event),
            Err(fault) => {
                self.refuse(fault);
                Err(self.kept_error())
            }
        }
    }

    /// Moves past whitespace.
    pub fn skip_ws(&mut self)
        ensures moves { self.new ≡ record self.old { index = self.new.index } }
        ensures order { (self.old.index ≤ self.new.index)
            × (self.new.index ≤ length self.old.text) }
        ensures space { ws (piece self.old.text self.old.index self.new.index) }
        ensures stop { self.new.index < length self.old.text
            → ¬ (IsWhitespace (get_or self.old.text self.new.index 0)) }
    {
        self.at = ws_run(self.rest.as_bytes(), self.at);
    }

    /// The place in the text of the next byte that is no whitespace, or its end.
    fn next_place(&self) -> usize
        ensures { ComesNext self.now result }
    {
        ws_run(self.text.as_bytes(), self.index())
    }

    /// A refusal that is not kept.
    #[cold]
    #[inline(never)]
    fn error_at(&self, code: ErrorCode, at: usize) -> Error
        requires { at ≤ length self.now.text }
        ensures { result ≡ record { code = code; place = place_at self.now.text at } }
    {
        Error {
            code,
            place: place_of(self.text.as_bytes(), at),
        }
    }

    /// Checks that only whitespace is left. Fails with `TrailingCharacters` exactly at the next
    /// other byte (RFC 8259, section 2). The parser does not move.
    pub fn end(&mut self) -> Result<()>
        ensures ok { OnOk result (NothingLeft self.old) }
        ensures err { IfErr result (TrailsAt self.old) }
        ensures kept { self.new ≡ self.old }
    {
        let at = self.next_place();
        if at == self.text.len() {
            Ok(())
        } else {
            Err(self.error_at(ErrorCode::TrailingCharacters, at))
        }
    }

    /// Takes whitespace and the bracket that closes a container of this kind, and begins anew after
    /// it.
    fn end_of(&mut self, kind: Kind) -> Result<()>
        ensures ok { OnOk result (ReadsEnd self.old kind self.new) }
        ensures err { IfErr result (LacksEnd self.old kind) }
        ensures kept { OnErr result (self.new ≡ self.old) }
    {
        let at = self.next_place();
        let bytes = self.text.as_bytes();
        if at == bytes.len() {
            return Err(self.error_at(ErrorCode::EofWhileParsing, at));
        }
        if bytes[at] != closing_byte(kind) {
            return Err(self.error_at(no_end(kind, bytes[at]), at));
        }
        *self = Parser::new_at(self.text, at + 1, self.limit, self.lossy);
        Ok(())
    }

    /// Takes whitespace and `]`, for a caller that reads the elements of an array by one parser
    /// each (RFC 8259, section 5). After `]` it is a new parser of the same limit and mode.
    ///
    /// Fails with `EofWhileParsing` if only whitespace is left, else with
    /// `ExpectedArrayCommaOrEnd`, both at the next byte that is no whitespace; then the parser does
    /// not move.
    pub fn end_seq(&mut self) -> Result<()>
        requires { HasGiven self.old [] ⊎ IsWhole self.old }
        ensures ok { OnOk result (ReadsEnd self.old Kind.Array self.new) }
        ensures err { IfErr result (LacksEnd self.old Kind.Array) }
        ensures kept { OnErr result (self.new ≡ self.old) }
    {
        self.end_of(Kind::Array)
    }

    /// Takes whitespace and `}`, for a caller that reads the members of an object (RFC 8259,
    /// section 4). After `}` it is a new parser of the same limit and mode.
    ///
    /// Fails with `EofWhileParsing` if only whitespace is left, with `TrailingComma` at a comma,
    /// else with `ExpectedObjectCommaOrEnd`, each at the next byte that is no whitespace; then the
    /// parser does not move.
    pub fn end_map(&mut self) -> Result<()>
        requires { HasGiven self.old [] ⊎ IsWhole self.old }
        ensures ok { OnOk result (ReadsEnd self.old Kind.Object self.new) }
        ensures err { IfErr result (LacksEnd self.old Kind.Object) }
        ensures kept { OnErr result (self.new ≡ self.old) }
    {
        self.end_of(Kind::Object)
    }
}
