// Events that are read ahead.
ghost use Rattle.std.specs.Prelude.{◌≡◌, ℕ, List, false, Some, None, OnOk, OnSome, IfOk, IfErr, IfSome, option_map, []};
ghost use Rattle.json_grammar.specs.Tree.{Token as Tok};
ghost use Rattle.json_text.specs.Events.{Means};
ghost use Rattle.json_text.specs.Parsing.{HasGiven, IsWhole, HasRead};
ghost use Rattle.json_text.specs.declared.event.Event.TheVariants as Event;
ghost use Rattle.json_grammar.specs.Grammar.{chars};
ghost use Rattle.json_number.specs.Numbers.{value_of};
ghost use Rattle.json_tokens.specs.Pieces.{Says};
ghost use Rattle.json_tokens.specs.Kinds.{DenotesToken};
ghost use Rattle.json_grammar.specs.TokenStates.{state_in};
ghost use Rattle.json_tokens.specs.Text.{event_kind as spec_event_kind, event_integer as spec_event_integer, parser_state, ReadsAhead, HasFault};
ghost use Rattle.json_doc.specs.Reading.{EventIsNumber};

use crate::piece::Piece;
use crate::token::{Token, TokenKind, TokenOf};
use json_io::Error;
use json_number::{Number, integer_of};
use json_text::{Event, Parser, Span};

/// An event that was read, and whose token is not taken yet.
#[derive(Clone, Copy)]
pub(crate) struct Ahead<'a> {
    pub(crate) event: Event<'a>,
    /// The kind of its token.
    pub(crate) kind: TokenKind,
    /// Of a number, its integer by value.
    pub(crate) number: Option<Number>,
    ghost peeked: { kind ≡ spec_event_kind event },
    ghost valued: { option_map value_of number ≡ spec_event_integer event },
}

/// Reads the next event of a value that has more tokens.
#[inline(always)]
pub(crate) fn read_ahead<'a>(parser: &mut Parser<'a>) -> std::result::Result<Event<'a>, Error>
    requires given { (ts : List Tok) × HasGiven parser.old ts }
    requires whole { ¬ (parser_state parser.old ≡ state_in []) }
    requires fresh { parser.old.failure ≡ None }
    ensures ok { IfOk result (λ e. ReadsAhead parser.old e parser.new) }
    ensures read { OnOk result (IsWhole parser.new → HasRead parser.new) }
    ensures kept { IfErr result (λ e. parser.new ≡ record parser.old { failure = Some e }) }
    ensures fault { IfErr result (λ e. HasFault parser.old e) }
{
    let event = match parser.next() {
        Ok(event) => event,
        Err(error) => return Err(error),
    };
    match event {
        Event::End => unreachable!(),
        _ => Ok(event),
    }
}

impl<'a> Ahead<'a> {
    /// Creates the event that is ahead, with the kind of its token.
    #[inline(always)]
    pub(crate) fn new(event: Event<'a>) -> Ahead<'a>
        requires { EventIsNumber event }
        ensures { result.event ≡ event.entry }
    {
        let number = event_integer(event);
        Ahead {
            event,
            kind: event_kind(event, number),
            number,
        }
    }

    /// Returns the token of the event.
    #[inline(always)]
    pub(crate) fn token(self) -> TokenOf<&'a str>
        requires number { EventIsNumber self.event }
        ensures { (x : Tok) → Means self.entry.event x → DenotesToken (λ s. s.now) result x }
    {
        match self.event {
            Event::Null | Event::End => Token::Null,
            Event::Bool(b) => Token::Bool(b),
            Event::Number(literal) => match self.number {
                Some(number) => Token::Int(number),
                None => Token::Raw(literal),
            },
            Event::Str(span) => Token::Text(plain_piece(span)),
            Event::Key(span) => Token::Key(plain_piece(span)),
            Event::BeginArray => Token::BeginArray,
            Event::EndArray => Token::EndArray,
            Event::BeginObject => Token::BeginObject,
            Event::EndObject => Token::EndObject,
        }
    }
}

/// Returns the integer of an event that is a number, if it is in `i64` or in `u64` and is not `-0`.
#[inline(always)]
fn event_integer(event: Event<'_>) -> Option<Number>
    requires { EventIsNumber event }
    ensures { option_map value_of result ≡ spec_event_integer event.entry }
{
    match event {
        Event::Number(literal) => integer_of(literal),
        _ => None,
    }
}

/// Returns the kind of the token of an event.
#[inline(always)]
fn event_kind(event: Event<'_>, number: Option<Number>) -> TokenKind
    requires { option_map value_of number ≡ spec_event_integer event }
    ensures { result ≡ spec_event_kind event.entry }
{
    match event {
        Event::Null | Event::End => TokenKind::Null,
        Event::Bool(_) => TokenKind::Bool,
        Event::Number(_) => match number {
            Some(_) => TokenKind::Int,
            None => TokenKind::Raw,
        },
        Event::Str(_) => TokenKind::Text,
        Event::Key(_) => TokenKind::Key,
        Event::BeginArray => TokenKind::BeginArray,
        Event::EndArray => TokenKind::EndArray,
        Event::BeginObject => TokenKind::BeginObject,
        Event::EndObject => TokenKind::EndObject,
    }
}

/// Returns the characters between the quotes as a piece.
#[inline(always)]
pub(crate) fn plain_piece<'a>(span: Span<'a>) -> Piece<&'a str>
    ensures { (s : List ℕ) → chars span.entry.lossy s span.entry.raw.now
        → Says s result.escaped result.text.now }
{
    if let Some(text) = span.plain() {
        return Piece::plain(text);
    }
    Piece {
        text: span.raw,
        escaped: Some(span.lossy),
    }
}
