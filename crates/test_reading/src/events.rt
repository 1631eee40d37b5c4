// What a parser hands out, and what it refuses.
use crate::looks::{Refused, Row, each_holds, next_of};
use json_grammar::ExpectedPart;
use json_text::internal::{ContainerStack, Cursor, step};
use json_text::{Error, ErrorCode, Event, Parser, Place, Result, Span};
use std::alloc::Global;

// A letter for each event.
fn letter(event: Event) -> u8 {
    match event {
        Event::Null => b'n',
        Event::Bool(true) => b't',
        Event::Bool(false) => b'f',
        Event::Number(_) => b'1',
        Event::Str(_) => b's',
        Event::Key(_) => b'k',
        Event::BeginArray => b'[',
        Event::EndArray => b']',
        Event::BeginObject => b'{',
        Event::EndObject => b'}',
        Event::End => b'.',
    }
}

// What is refused of a text.
fn refusal_of(text: &str) -> Option<Error> {
    let mut parser = Parser::new(text);
    for _ in 0..text.len() + 1 {
        match next_of(&mut parser) {
            Ok(Event::End) => return None,
            Ok(_) => {}
            Err(error) => return Some(error),
        }
    }
    None
}

// The code with which a text is refused, and its offset.
fn refused(text: &str) -> Refused {
    match refusal_of(text) {
        Some(error) => Some((error.code, error.offset())),
        None => None,
    }
}

// Whether an event has a letter, and is no name or one that escapes where it is of seven bytes.
fn is_event(event: Event<'_>, want: u8) -> bool {
    match event {
        Event::Key(span) => want == b'k' && span.plain().is_none() == (span.raw_len() == 7),
        _ => letter(event) == want,
    }
}

fn is_next(parser: &mut Parser<'_>, want: u8) -> bool {
    match next_of(parser) {
        Ok(event) => is_event(event, want),
        Err(_) => false,
    }
}

// Whether the events of a text have these letters, up to its end, and its first name alone escapes.
fn has_events(text: &str, letters: &[u8]) -> bool {
    let mut parser = Parser::new(text);
    for want in letters {
        if !is_next(&mut parser, *want) {
            return false;
        }
    }
    let before = parser.done() && text.len().checked_sub(parser.index()) == Some(1);
    parser.skip_ws();
    before && parser.index() == text.len()
}

#[test]
fn events_in_their_order(rt: HostRuntime) {
    let text = " {\"a\\u0062\": [-0.5e+1, \"x\", true , []], \"\": false,\"c\":null}\n";
    assert!(rt; has_events(text, b"{k[1st[]]kfkn}.."));
}

// Whether a string of at most 64 bytes means these bytes.
fn means(alloc: Global, span: Span<'_>, wanted: &[u8]) -> bool {
    let Ok(mut bytes) = Vec::with_capacity(alloc, 64) else {
        return false;
    };
    if span.raw_len() <= 64 {
        span.unescape_into(&mut bytes);
    }
    bytes.as_slice() == wanted
}

// Whether the next string denotes these bytes.
fn next_means(alloc: Global, parser: &mut Parser<'_>, wanted: &[u8]) -> bool {
    match next_of(parser) {
        Ok(Event::Str(span)) => means(alloc, span, wanted),
        _ => false,
    }
}

#[test]
fn escapes_spelled_out(rt: HostRuntime) {
    let mut parser = Parser::new("\"\\ud83d\\ude04\\u0041\\/\\u0000\\t\"");
    assert!(rt; next_means(rt.alloc(), &mut parser, b"\xf0\x9f\x98\x84A/\x00\t"));
}

// A text with a lone surrogate, what it means in the lossy mode, and where it is refused.
struct LoneSurrogate {
    text: &'static str,
    means: &'static str,
    offset: usize,
}

impl Row for LoneSurrogate {
    fn text(&self) -> &'static str {
        self.text
    }

    fn holds(&self, alloc: Global) -> bool {
        let mut lossy = Parser::new(self.text).lossy();
        next_means(alloc, &mut lossy, self.means.as_bytes())
            && refused(self.text) == Some((ErrorCode::InvalidSurrogate, Some(self.offset)))
    }
}

const SURROGATES: &[LoneSurrogate] = &[
    LoneSurrogate {
        text: "\"\\uDA51\\uD83D\\uDE04\"",
        means: "\u{fffd}\u{1f604}",
        offset: 10,
    },
    LoneSurrogate {
        text: "\"\\uD800abc\"",
        means: "\u{fffd}abc",
        offset: 7,
    },
    LoneSurrogate {
        text: "\"\\udc00\"",
        means: "\u{fffd}",
        offset: 4,
    },
    LoneSurrogate {
        text: "\"\\uD800\\u0041\"",
        means: "\u{fffd}A",
        offset: 9,
    },
];

#[test]
fn surrogates_that_stand_alone(rt: HostRuntime) {
    each_holds(&rt, rt.alloc(), SURROGATES);
}

// A text, and how it is refused.
struct NoText {
    text: &'static str,
    code: ErrorCode,
    offset: usize,
}

impl Row for NoText {
    fn text(&self) -> &'static str {
        self.text
    }

    fn holds(&self, _alloc: Global) -> bool {
        refused(self.text) == Some((self.code, Some(self.offset)))
    }
}

const NO_TEXTS: &[NoText] = &[
    NoText {
        text: "\"\\ud800abc\"",
        code: ErrorCode::InvalidSurrogate,
        offset: 7,
    },
    NoText {
        text: "\"\\udc00\"",
        code: ErrorCode::InvalidSurrogate,
        offset: 4,
    },
    NoText {
        text: "\"\\ud8\"",
        code: ErrorCode::InvalidEscape,
        offset: 5,
    },
    NoText {
        text: "\"\\x\"",
        code: ErrorCode::InvalidEscape,
        offset: 2,
    },
    NoText {
        text: "\"\\u12g4\"",
        code: ErrorCode::InvalidEscape,
        offset: 5,
    },
    NoText {
        text: "\"\\uDBDD\\u1DD000\"",
        code: ErrorCode::InvalidSurrogate,
        offset: 9,
    },
    NoText {
        text: "",
        code: ErrorCode::EofWhileParsing,
        offset: 0,
    },
    NoText {
        text: "[[[[",
        code: ErrorCode::EofWhileParsing,
        offset: 4,
    },
    NoText {
        text: "[1,]",
        code: ErrorCode::InvalidJsonValue,
        offset: 3,
    },
    NoText {
        text: "{\"a\":1,}",
        code: ErrorCode::TrailingComma,
        offset: 7,
    },
    NoText {
        text: "[01]",
        code: ErrorCode::InvalidNumber,
        offset: 2,
    },
    NoText {
        text: "[1x",
        code: ErrorCode::ExpectedArrayCommaOrEnd,
        offset: 2,
    },
    NoText {
        text: "{\"a\" 1}",
        code: ErrorCode::ExpectedColon,
        offset: 5,
    },
    NoText {
        text: "{1}",
        code: ErrorCode::ExpectObjectKeyOrEnd,
        offset: 1,
    },
    NoText {
        text: "{\"a\":1 \"b\"",
        code: ErrorCode::ExpectedObjectCommaOrEnd,
        offset: 7,
    },
    NoText {
        text: "{} x",
        code: ErrorCode::TrailingCharacters,
        offset: 3,
    },
    NoText {
        text: "-",
        code: ErrorCode::EofWhileParsing,
        offset: 1,
    },
    NoText {
        text: "nulx",
        code: ErrorCode::InvalidLiteral,
        offset: 3,
    },
    NoText {
        text: "[tru]",
        code: ErrorCode::InvalidLiteral,
        offset: 4,
    },
    NoText {
        text: "1.]",
        code: ErrorCode::InvalidNumber,
        offset: 2,
    },
    NoText {
        text: "01",
        code: ErrorCode::InvalidNumber,
        offset: 1,
    },
    NoText {
        text: "True",
        code: ErrorCode::InvalidJsonValue,
        offset: 0,
    },
    NoText {
        text: "\u{feff}1",
        code: ErrorCode::InvalidJsonValue,
        offset: 0,
    },
    NoText {
        text: "\"\n\"",
        code: ErrorCode::ControlCharacter,
        offset: 1,
    },
];

fn is_refused_in_its_line() -> bool {
    let place = Place::At {
        offset: 19,
        line: 4,
        column: 7,
    };
    match refusal_of("\n{\n\"k\": \"v\",\n\"a\": [, 1]\n}") {
        Some(error) => error.place == place,
        None => false,
    }
}

#[test]
fn refusals_with_their_offsets(rt: HostRuntime) {
    each_holds(&rt, rt.alloc(), NO_TEXTS);
    assert!(rt; is_refused_in_its_line());
}

// Returns `levels` opening brackets.
fn brackets(alloc: Global, levels: usize) -> Result<String> {
    let mut text = String::new(alloc);
    for _ in 0..levels {
        text.push('[')?;
    }
    Ok(text)
}

// Whether `levels` brackets are refused so.
fn levels_are_refused(alloc: Global, levels: usize, code: ErrorCode) -> bool {
    match brackets(alloc, levels) {
        Ok(text) => refused(text.as_str()) == Some((code, Some(254))),
        Err(_) => false,
    }
}

#[test]
fn levels_up_to_the_limit(rt: HostRuntime) {
    assert!(rt; levels_are_refused(rt.alloc(), 254, ErrorCode::EofWhileParsing));
    assert!(rt; levels_are_refused(rt.alloc(), 255, ErrorCode::RecursionLimitExceeded));
}

// The letter of the first event and the offset after it, or what is refused and its offset.
fn first_step(text: &str) -> std::result::Result<(u8, usize), (ErrorCode, usize)> {
    let start = Cursor {
        at: 0,
        expected: ExpectedPart::Value,
    };
    match step::<0>(text, start, 254, false, &mut ContainerStack::new()) {
        Ok(read) => Ok((letter(read.event), read.end)),
        Err(fault) => Err((fault.code, fault.offset)),
    }
}

// A text, and its first step.
struct FirstStep {
    text: &'static str,
    step: std::result::Result<(u8, usize), (ErrorCode, usize)>,
}

impl Row for FirstStep {
    fn text(&self) -> &'static str {
        self.text
    }

    fn holds(&self, _alloc: Global) -> bool {
        first_step(self.text) == self.step
    }
}

const STEPS: &[FirstStep] = &[
    FirstStep {
        text: " [1]",
        step: Ok((b'[', 2)),
    },
    FirstStep {
        text: "{\"a\": 1}",
        step: Ok((b'{', 1)),
    },
    FirstStep {
        text: "-1.5e3 ",
        step: Ok((b'1', 6)),
    },
    FirstStep {
        text: "\"a\\n\"",
        step: Ok((b's', 5)),
    },
    FirstStep {
        text: "null",
        step: Ok((b'n', 4)),
    },
    FirstStep {
        text: "",
        step: Err((ErrorCode::EofWhileParsing, 0)),
    },
    FirstStep {
        text: " ]",
        step: Err((ErrorCode::InvalidJsonValue, 1)),
    },
];

#[test]
fn a_step_from_the_beginning_of_a_text(rt: HostRuntime) {
    each_holds(&rt, rt.alloc(), STEPS);
}
