// Values of one input, one after another.
ghost use Rattle.std.specs.Prelude.{◌<◌, ◌^◌, length};

use crate::looks::{Refused, Row, each_holds, holds, is_refused};
use json_data::IgnoredAny;
use json_stream::Deserializer;
use json_text::{Error, ErrorCode, Place, Repaired, Result, repair};
use std::alloc::Global;

// How many values are returned, what is refused then, and whether nothing follows that.
fn drained(alloc: Global, text: &str) -> (usize, Refused, bool)
    requires { length text.now < 2 ^ 32 }
{
    let mut values = Deserializer::from_str(text).into_stream::<IgnoredAny>();
    for count in 0..text.len() {
        match values.next(alloc) {
            Some(Ok(_)) => {}
            Some(Err(error)) => {
                let refused = Some((error.code, error.offset()));
                return (count, refused, values.next(alloc).is_none());
            }
            None => return (count, None, false),
        }
    }
    (text.len(), None, false)
}

// A text, how many values it has, and what is refused then.
struct Stream {
    json: &'static str,
    count: usize,
    code: ErrorCode,
    offset: usize,
}

impl Row for Stream {
    fn text(&self) -> &'static str {
        self.json
    }

    fn holds(&self, alloc: Global) -> bool {
        let refused = Some((self.code, Some(self.offset)));
        self.json.len() < 100 && drained(alloc, self.json) == (self.count, refused, true)
    }
}

const STREAMS: &[Stream] = &[
    Stream {
        json: "{\"a\": 123, \"b\": \"foo\"} true [1, 2, 3] wrong chars",
        count: 3,
        code: ErrorCode::InvalidJsonValue,
        offset: 38,
    },
    Stream {
        json: " 1 ",
        count: 1,
        code: ErrorCode::EofWhileParsing,
        offset: 3,
    },
    Stream {
        json: "01",
        count: 0,
        code: ErrorCode::InvalidNumber,
        offset: 1,
    },
];

#[test]
fn values_up_to_the_first_that_is_damaged(rt: HostRuntime) {
    each_holds(&rt, rt.alloc(), STREAMS);
}

// Whether what follows the first value is refused, at its place.
fn object_ends(alloc: Global) -> bool {
    let mut input = Deserializer::from_str("{\"a\": 1, \"b\": 2}123").use_rawnumber();
    let read = input.deserialize::<IgnoredAny>(alloc).is_ok();
    let index = input.index();
    read && index == 16 && is_refused(input.end(), ErrorCode::TrailingCharacters, 16)
}

fn list_ends() -> bool {
    Deserializer::from_str("]").end_seq().is_ok()
}

fn comma_is_refused() -> bool {
    let mut comma = Deserializer::from_str(",");
    let of_list = is_refused(comma.end_seq(), ErrorCode::ExpectedArrayCommaOrEnd, 0);
    of_list && is_refused(comma.end_map(), ErrorCode::TrailingComma, 0)
}

fn broken_bytes_are_refused(alloc: Global) -> bool {
    let mut broken = Deserializer::from_slice(b"1 \xff");
    let read = broken.deserialize::<IgnoredAny>(alloc);
    let refused = is_refused(read, ErrorCode::InvalidUTF8, 2);
    let ended = is_refused(broken.end(), ErrorCode::InvalidUTF8, 2);
    refused && ended && broken.index() == 0
}

#[test]
fn ends_behind_a_value(rt: HostRuntime) {
    assert!(rt; object_ends(rt.alloc()));
    assert!(rt; list_ends());
    assert!(rt; comma_is_refused());
    assert!(rt; broken_bytes_are_refused(rt.alloc()));
}

fn is_read(outcome: Result<String>, text: &str) -> bool {
    match outcome {
        Ok(read) => read.as_str() == text,
        Err(_) => false,
    }
}

fn is_surrogate(outcome: Result<String>) -> bool {
    match outcome {
        Ok(_) => false,
        Err(error) => error.code == ErrorCode::InvalidSurrogate,
    }
}

// Whether a lone surrogate is refused, and then read in the other mode.
fn mode_decides(alloc: Global) -> bool {
    let mut strict = Deserializer::from_str("\"\\ud800a\"");
    let refused = is_surrogate(strict.deserialize::<String>(alloc));
    let mut lossy = strict.utf8_lossy();
    let read = is_read(lossy.deserialize::<String>(alloc), "\u{fffd}a");
    refused && read && lossy.index() == 9
}

#[test]
fn lone_surrogates_by_the_mode(rt: HostRuntime) {
    assert!(rt; mode_decides(rt.alloc()));
}

// Whether the string of a repaired text is read up to the end of its input.
fn repaired_is_read(alloc: Global, repaired: &Repaired) -> bool {
    if repaired.as_str().len() >= 100 {
        return false;
    }
    let mut input = Deserializer::from_repaired(repaired);
    let read = is_read(input.deserialize::<String>(alloc), "\u{fffd}");
    read && input.index() == 3
}

fn repaired_string_is_read(alloc: Global) -> Result<bool> {
    Ok(repaired_is_read(alloc, &repair(alloc, b"\"\xff\"")?))
}

// What is refused of a repaired text.
fn error_of(alloc: Global, repaired: &Repaired) -> Option<Error> {
    if repaired.as_str().len() >= 100 {
        return None;
    }
    let mut input = Deserializer::from_repaired(repaired);
    match input.deserialize::<IgnoredAny>(alloc) {
        Ok(_) => None,
        Err(error) => Some(error),
    }
}

fn error_in_list(alloc: Global) -> Result<Option<Error>> {
    Ok(error_of(alloc, &repair(alloc, b"[1,\n\"\xff\", x]")?))
}

#[test]
fn repaired_texts_told_by_their_input(rt: HostRuntime) {
    assert!(rt; holds(repaired_string_is_read(rt.alloc())));
    let place = Place::At {
        offset: 9,
        line: 2,
        column: 6,
    };
    let want = Error {
        code: ErrorCode::InvalidJsonValue,
        place,
    };
    assert!(rt; error_in_list(rt.alloc()) == Ok(Some(want)));
}
