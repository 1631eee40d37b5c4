// One value within a text, and what may follow it.
ghost use Rattle.std.specs.Str.{IsCharBoundary};

use crate::looks::{Refused, Row, each_holds, next_of, refused_at};
use json_text::ErrorCode::{
    EofWhileParsing, ExpectedArrayCommaOrEnd, ExpectedObjectCommaOrEnd, InvalidNumber,
    TrailingCharacters, TrailingComma,
};
use json_text::{Parser, Result};
use std::alloc::Global;

// The offset after the value at an offset of the text, which is the parser's next.
fn read_value(text: &str, at: usize) -> Result<usize>
    requires { IsCharBoundary text.now at }
{
    let mut parser = Parser::at(text, at);
    for _ in 0..text.len() {
        if parser.done() {
            return Ok(parser.index());
        }
        match next_of(&mut parser) {
            Ok(_) => {}
            Err(error) => return Err(error),
        }
    }
    Ok(parser.index())
}

// A text, and the end of the value at an offset or how it is refused.
struct ValueAt {
    text: &'static str,
    at: usize,
    end: usize,
    refused: Refused,
}

impl Row for ValueAt {
    fn text(&self) -> &'static str {
        self.text
    }

    fn holds(&self, _alloc: Global) -> bool {
        if !self.text.is_char_boundary(self.at) {
            return false;
        }
        match read_value(self.text, self.at) {
            Ok(end) => end == self.end && self.refused.is_none(),
            Err(error) => self.refused == Some((error.code, error.offset())),
        }
    }
}

const VALUES: &[ValueAt] = &[
    ValueAt {
        text: "{\"a\": 1, \"b\": 2}123",
        at: 0,
        end: 16,
        refused: None,
    },
    ValueAt {
        text: "[1] 2.50]",
        at: 4,
        end: 8,
        refused: None,
    },
    ValueAt {
        text: "[[1",
        at: 2,
        end: 3,
        refused: None,
    },
    ValueAt {
        text: "1,01",
        at: 2,
        end: 0,
        refused: Some((InvalidNumber, Some(3))),
    },
    ValueAt {
        text: "1\n[2",
        at: 1,
        end: 0,
        refused: Some((EofWhileParsing, Some(4))),
    },
];

#[test]
fn one_value_whatever_follows(rt: HostRuntime) {
    each_holds(&rt, rt.alloc(), VALUES);
}

// A text, and what is refused of the end of a text, of an array and of an object there.
struct Ends {
    text: &'static str,
    end: Refused,
    seq: Refused,
    map: Refused,
}

impl Row for Ends {
    fn text(&self) -> &'static str {
        self.text
    }

    fn holds(&self, _alloc: Global) -> bool {
        refused_at(Parser::new(self.text).end()) == self.end
            && refused_at(Parser::new(self.text).end_seq()) == self.seq
            && refused_at(Parser::new(self.text).end_map()) == self.map
    }
}

const ENDS: &[Ends] = &[
    Ends {
        text: " \n",
        end: None,
        seq: Some((EofWhileParsing, Some(2))),
        map: Some((EofWhileParsing, Some(2))),
    },
    Ends {
        text: "]",
        end: Some((TrailingCharacters, Some(0))),
        seq: None,
        map: Some((ExpectedObjectCommaOrEnd, Some(0))),
    },
    Ends {
        text: " }",
        end: Some((TrailingCharacters, Some(1))),
        seq: Some((ExpectedArrayCommaOrEnd, Some(1))),
        map: None,
    },
    Ends {
        text: ",",
        end: Some((TrailingCharacters, Some(0))),
        seq: Some((ExpectedArrayCommaOrEnd, Some(0))),
        map: Some((TrailingComma, Some(0))),
    },
];

#[test]
fn ends_by_the_next_byte(rt: HostRuntime) {
    each_holds(&rt, rt.alloc(), ENDS);
}
