// Parts that are taken if they are next.
use crate::looks::{Row, each_holds};
use json_grammar::Kind;
use json_text::{Event, Parser};
use std::alloc::Global;

// The number that a text begins with and the offset after it, if it is taken.
fn integer_of(text: &str, most: u64) -> Option<(u64, usize)> {
    let mut parser = Parser::new(text);
    if parser.done() {
        return None;
    }
    match parser.next_integer(most) {
        Some(integer) => Some((integer.value, parser.index())),
        None => None,
    }
}

// A text with the greatest integer that is taken, and what is taken.
struct Integer {
    text: &'static str,
    most: u64,
    taken: Option<(u64, usize)>,
}

impl Row for Integer {
    fn text(&self) -> &'static str {
        self.text
    }

    fn holds(&self, _alloc: Global) -> bool {
        integer_of(self.text, self.most) == self.taken
    }
}

const INTEGERS: &[Integer] = &[
    Integer {
        text: " 0,",
        most: 0,
        taken: Some((0, 2)),
    },
    Integer {
        text: "17]",
        most: 17,
        taken: Some((17, 2)),
    },
    Integer {
        text: "17]",
        most: 16,
        taken: None,
    },
    Integer {
        text: "9999999999999999999",
        most: u64::MAX,
        taken: Some((9999999999999999999, 19)),
    },
    Integer {
        text: "18446744073709551615",
        most: u64::MAX,
        taken: None,
    },
    Integer {
        text: "01",
        most: u64::MAX,
        taken: None,
    },
    Integer {
        text: "1.5",
        most: u64::MAX,
        taken: None,
    },
    Integer {
        text: "1e3",
        most: u64::MAX,
        taken: None,
    },
    Integer {
        text: "2E1",
        most: u64::MAX,
        taken: None,
    },
    Integer {
        text: "-1",
        most: u64::MAX,
        taken: None,
    },
    Integer {
        text: "",
        most: u64::MAX,
        taken: None,
    },
    Integer {
        text: "x",
        most: u64::MAX,
        taken: None,
    },
    Integer {
        text: "\"1\"",
        most: u64::MAX,
        taken: None,
    },
    Integer {
        text: "[1]",
        most: u64::MAX,
        taken: None,
    },
];

#[test]
fn integers_of_few_digits(rt: HostRuntime) {
    each_holds(&rt, rt.alloc(), INTEGERS);
}

// How many bytes the string lends that a text begins with, and the offset after it, if it is taken.
fn text_of(text: &str) -> Option<(usize, usize)> {
    let mut parser = Parser::new(text);
    if parser.done() {
        return None;
    }
    match parser.next_text() {
        Some(span) => Some((span.raw_len(), parser.index())),
        None => None,
    }
}

// The same of the first name of an object.
fn name_of(text: &str) -> Option<(usize, usize)> {
    let mut parser = Parser::new(text);
    if !matches!(parser.next(), Ok(Event::BeginObject)) || parser.done() {
        return None;
    }
    match parser.next_key() {
        Some(span) => Some((span.raw_len(), parser.index())),
        None => None,
    }
}

// Whether strings and names are taken, or left where they are none.
fn strings_are_taken() -> bool {
    text_of(" \"a\\n\" ") == Some((3, 6)) && text_of("\"a").is_none() && text_of("1").is_none()
}

fn names_are_taken() -> bool {
    name_of("{ \"ab\": 1}") == Some((2, 6)) && name_of("{}").is_none()
}

#[test]
fn texts_and_names(rt: HostRuntime) {
    assert!(rt; strings_are_taken());
    assert!(rt; names_are_taken());
}

// The offset after an empty container of the kind, if a text begins with one.
fn empty_of(text: &str, kind: Kind) -> Option<usize> {
    let mut parser = Parser::new(text);
    if parser.done() || !parser.next_begin(kind) || parser.done() || !parser.next_end(kind) {
        return None;
    }
    Some(parser.index())
}

fn arrays_are_taken() -> bool {
    empty_of("[]", Kind::Array) == Some(2)
        && empty_of("{}", Kind::Array).is_none()
        && empty_of("[1]", Kind::Array).is_none()
}

fn objects_are_taken() -> bool {
    empty_of(" { }", Kind::Object) == Some(4)
}

#[test]
fn brackets_of_the_kind(rt: HostRuntime) {
    assert!(rt; arrays_are_taken());
    assert!(rt; objects_are_taken());
}
