// Inputs that are not valid, each with its whole report.
use crate::files::runs::{Outcome, comes_to, compact};
use json_text::{Result, Rules};
use mezdruk_files::Unchanged;
use std::alloc::Global;

// An input, and what is reported of it.
type Row = (&'static [u8], &'static [u8]);

// Inputs that end early.
const ENDS: &[Row] = &[
    (
        b"",
        b"f:1:1: the input ends before its value does (EofWhileParsing)\n\n^\n\
          hint: the input is empty\n",
    ),
    (
        b" \n ",
        b"f:2:2: the input ends before its value does (EofWhileParsing)\n \n ^\n\
          hint: the input has only whitespace\n",
    ),
    (
        b"tru",
        b"f:1:4: the input ends before its value does (EofWhileParsing)\ntru\n   ^\n",
    ),
    (
        b"[1,\n2",
        b"f:2:2: the input ends before its value does (EofWhileParsing)\n2\n ^\n",
    ),
];

// Commas, colons and brackets.
const STRUCTURE: &[Row] = &[
    (
        b"[1,]",
        b"f:1:4: a value is expected (InvalidJsonValue)\n[1,]\n   ^\n\
          hint: JSON has no comma before a closing bracket\n",
    ),
    (
        b"[1\n, ]",
        b"f:2:3: a value is expected (InvalidJsonValue)\n, ]\n  ^\n\
          hint: JSON has no comma before a closing bracket\n",
    ),
    (
        b"{\"a\":1,}",
        b"f:1:8: a comma comes before `}` (TrailingComma)\n{\"a\":1,}\n       ^\n\
          hint: JSON has no comma before a closing bracket\n",
    ),
    (
        b"[,1]",
        b"f:1:2: a value is expected (InvalidJsonValue)\n[,1]\n ^\n",
    ),
    (
        b"{\"a\" 1}",
        b"f:1:6: a colon is expected after the key (ExpectedColon)\n{\"a\" 1}\n     ^\n",
    ),
    (
        b"[1 2]",
        b"f:1:4: a comma or `]` is expected after the element (ExpectedArrayCommaOrEnd)\n\
          [1 2]\n   ^\n",
    ),
    (
        b"{\"a\":1 2}",
        b"f:1:8: a comma or `}` is expected after the member (ExpectedObjectCommaOrEnd)\n\
          {\"a\":1 2}\n       ^\n",
    ),
    (
        b"[1,\r\n2 3]\r\n",
        b"f:2:3: a comma or `]` is expected after the element (ExpectedArrayCommaOrEnd)\n\
          2 3] \n  ^\n",
    ),
    (
        b"{a:1}",
        b"f:1:2: a key in double quotes or `}` is expected (ExpectObjectKeyOrEnd)\n{a:1}\n ^\n",
    ),
    (
        b"1\n2",
        b"f:2:1: only whitespace may follow the value (TrailingCharacters)\n2\n^\n\
          hint: `--lines` reads a document from each line, `--stream` one after another\n",
    ),
    (
        b"{} {}",
        b"f:1:4: only whitespace may follow the value (TrailingCharacters)\n{} {}\n   ^\n\
          hint: `--lines` reads a document from each line, `--stream` one after another\n",
    ),
    (
        b"[]]",
        b"f:1:3: only whitespace may follow the value (TrailingCharacters)\n[]]\n  ^\n",
    ),
];

// What other formats have.
const OTHER_FORMATS: &[Row] = &[
    (
        b"{'a':1}",
        b"f:1:2: a key in double quotes or `}` is expected (ExpectObjectKeyOrEnd)\n\
          {'a':1}\n ^\nhint: strings and keys have double quotes\n",
    ),
    (
        b"['a']",
        b"f:1:2: a value is expected (InvalidJsonValue)\n['a']\n ^\n\
          hint: strings and keys have double quotes\n",
    ),
    (
        b"[NaN]",
        b"f:1:2: a value is expected (InvalidJsonValue)\n[NaN]\n ^\n\
          hint: JSON has no NaN and no Infinity\n",
    ),
    (
        b"-Infinity",
        b"f:1:2: the number is not complete or has a leading zero (InvalidNumber)\n\
          -Infinity\n ^\nhint: JSON has no NaN and no Infinity\n",
    ),
    (
        b"True",
        b"f:1:1: a value is expected (InvalidJsonValue)\nTrue\n^\n\
          hint: the literals are `null`, `true` and `false`, in lower case\n",
    ),
    (
        b"[None]",
        b"f:1:2: a value is expected (InvalidJsonValue)\n[None]\n ^\n\
          hint: the literals are `null`, `true` and `false`, in lower case\n",
    ),
    (
        b"{\"a\": undefined}",
        b"f:1:7: a value is expected (InvalidJsonValue)\n{\"a\": undefined}\n      ^\n\
          hint: JSON has no `undefined`\n",
    ),
    (
        b"[.5]",
        b"f:1:2: a value is expected (InvalidJsonValue)\n[.5]\n ^\n\
          hint: a number has digits on both sides of its point\n",
    ),
    (
        b"+1",
        b"f:1:1: a value is expected (InvalidJsonValue)\n+1\n^\n\
          hint: a number has no plus sign\n",
    ),
    (
        b"0x10",
        b"f:1:2: only whitespace may follow the value (TrailingCharacters)\n0x10\n ^\n\
          hint: JSON has no hexadecimal numbers\n",
    ),
    (
        b"[0X1f]",
        b"f:1:3: a comma or `]` is expected after the element (ExpectedArrayCommaOrEnd)\n\
          [0X1f]\n  ^\nhint: JSON has no hexadecimal numbers\n",
    ),
    (
        b"[1, // one\n2]",
        b"f:1:5: a value is expected (InvalidJsonValue)\n[1, // one\n    ^\n\
          hint: JSON has no comments\n",
    ),
    (
        b"{\"a\": 1 # one\n}",
        b"f:1:9: a comma or `}` is expected after the member (ExpectedObjectCommaOrEnd)\n\
          {\"a\": 1 # one\n        ^\nhint: JSON has no comments\n",
    ),
    (
        b"\xef\xbb\xbf{}",
        b"f:1:1: a value is expected (InvalidJsonValue)\n\xef\xbb\xbf{}\n^\n\
          hint: the input begins with a byte order mark; `--bom` skips it\n",
    ),
    (
        b"\xff\xfe[\0",
        b"f:1:1: the input is not UTF-8 (InvalidUTF8)\n\xff\xfe[ \n^\n\
          hint: the input looks like UTF-16; JSON text is UTF-8\n",
    ),
    (
        b"\0[\0]",
        b"f:1:1: a value is expected (InvalidJsonValue)\n [ ]\n^\n\
          hint: the input looks like UTF-16; JSON text is UTF-8\n",
    ),
    (
        b"\"\\u00x0\"",
        b"f:1:6: the escape is not valid (InvalidEscape)\n\"\\u00x0\"\n     ^\n",
    ),
];

// Numbers, literals and strings.
const TOKENS: &[Row] = &[
    (
        b"[01]",
        b"f:1:3: the number is not complete or has a leading zero (InvalidNumber)\n[01]\n  ^\n\
          hint: a number has no leading zeros\n",
    ),
    (
        b"-01",
        b"f:1:3: the number is not complete or has a leading zero (InvalidNumber)\n-01\n  ^\n\
          hint: a number has no leading zeros\n",
    ),
    (
        b"[1.]",
        b"f:1:4: the number is not complete or has a leading zero (InvalidNumber)\n[1.]\n   ^\n",
    ),
    (
        b"[nulx]",
        b"f:1:5: only `null`, `true` and `false` are literals (InvalidLiteral)\n[nulx]\n    ^\n",
    ),
    (
        b"\"a\tb\"",
        b"f:1:3: a control character in a string has to be escaped (ControlCharacter)\n\
          \"a b\"\n  ^\n",
    ),
    (
        b"\"\\x\"",
        b"f:1:3: the escape is not valid (InvalidEscape)\n\"\\x\"\n  ^\n",
    ),
    (
        b"\"\\#\"",
        b"f:1:3: the escape is not valid (InvalidEscape)\n\"\\#\"\n  ^\n",
    ),
    (
        b"\"\\ud800\"",
        b"f:1:8: the escape of a surrogate is not part of a pair (InvalidSurrogate)\n\
          \"\\ud800\"\n       ^\n",
    ),
    (
        b"[\"a\xff\"]",
        b"f:1:4: the input is not UTF-8 (InvalidUTF8)\n[\"a\xff\"]\n   ^\n",
    ),
    (
        b"{\"\xc3\xa9\": x}",
        b"f:1:8: a value is expected (InvalidJsonValue)\n{\"\xc3\xa9\": x}\n      ^\n",
    ),
];

// Returns whether an input has this report and status 1, and nothing is printed.
fn has_report(alloc: Global, rules: Rules, input: &[u8], report: &[u8]) -> bool {
    let mut job = compact(Unchanged);
    job.rules = rules;
    let outcome = Outcome {
        output: b"",
        reports: report,
        status: 1,
    };
    comes_to(alloc, &job, input, &outcome)
}

// Returns whether each input has its report.
fn all_are_reported(alloc: Global, rows: &[Row]) -> bool {
    for (input, report) in rows {
        if !has_report(alloc, Rules::usual(), input, report) {
            return false;
        }
    }
    true
}

#[test]
fn inputs_that_end_early(rt: HostRuntime) {
    assert!(rt; all_are_reported(rt.alloc(), ENDS));
}

#[test]
fn commas_colons_and_brackets(rt: HostRuntime) {
    assert!(rt; all_are_reported(rt.alloc(), STRUCTURE));
}

#[test]
fn what_other_formats_have(rt: HostRuntime) {
    assert!(rt; all_are_reported(rt.alloc(), OTHER_FORMATS));
}

#[test]
fn numbers_literals_and_strings(rt: HostRuntime) {
    assert!(rt; all_are_reported(rt.alloc(), TOKENS));
}

// Whether a key that repeats is reported, where keys have to be unique.
fn repeated_key_is_reported(alloc: Global) -> bool {
    let report = b"f:1:8: the key occurs twice in its object (DuplicateKey)\n\
        {\"a\":1,\"a\":2}\n       ^\n";
    match Rules::new(254, true) {
        Some(rules) => has_report(alloc, rules, b"{\"a\":1,\"a\":2}", report),
        None => false,
    }
}

#[test]
fn a_key_that_repeats(rt: HostRuntime) {
    assert!(rt; repeated_key_is_reported(rt.alloc()));
}

// A piece of an input or of a report, and how many times it is repeated.
struct Piece {
    bytes: &'static [u8],
    times: usize,
}

fn bytes_of(alloc: Global, pieces: &[Piece]) -> Result<Vec<u8>> {
    let mut bytes = Vec::new(alloc);
    for piece in pieces {
        for _ in 0..piece.times {
            bytes.extend_from_slice(piece.bytes)?;
        }
    }
    Ok(bytes)
}

// Whether the input of these pieces has the report of those.
fn pieces_are_reported(alloc: Global, input: &[Piece], report: &[Piece]) -> Result<bool> {
    let input = bytes_of(alloc, input)?;
    let report = bytes_of(alloc, report)?;
    Ok(has_report(alloc, Rules::usual(), input.as_slice(), report.as_slice()))
}

const BRACKETS: &[Piece] = &[Piece {
    bytes: b"[",
    times: 255,
}];

const CUT_BEFORE: &[Piece] = &[
    Piece {
        bytes: b"f:1:255: the input has too many levels (RecursionLimitExceeded)\n",
        times: 1,
    },
    Piece {
        bytes: b"[",
        times: 76,
    },
    Piece {
        bytes: b"\n",
        times: 1,
    },
    Piece {
        bytes: b" ",
        times: 75,
    },
    Piece {
        bytes: b"^\n",
        times: 1,
    },
];

// 255 brackets, of which the last opens a level too many: 75 bytes before it are shown.
#[test]
fn a_line_that_is_cut_before(rt: HostRuntime) {
    assert!(rt;
        matches!(
            pieces_are_reported(rt.alloc(), BRACKETS, CUT_BEFORE),
            Ok(true)
        )
    );
}

const LONG_ARRAY: &[Piece] = &[
    Piece {
        bytes: b"[",
        times: 1,
    },
    Piece {
        bytes: b"1,",
        times: 60,
    },
    Piece {
        bytes: b"x",
        times: 1,
    },
    Piece {
        bytes: b",1",
        times: 60,
    },
    Piece {
        bytes: b"]",
        times: 1,
    },
];

const CUT_ON_BOTH_SIDES: &[Piece] = &[
    Piece {
        bytes: b"f:1:122: a value is expected (InvalidJsonValue)\n",
        times: 1,
    },
    Piece {
        bytes: b"1,",
        times: 19,
    },
    Piece {
        bytes: b"x",
        times: 1,
    },
    Piece {
        bytes: b",1",
        times: 18,
    },
    Piece {
        bytes: b",\n",
        times: 1,
    },
    Piece {
        bytes: b" ",
        times: 38,
    },
    Piece {
        bytes: b"^\n",
        times: 1,
    },
];

// 121 bytes before the error and 121 after it: 38 of the first and 37 of the last are shown.
#[test]
fn a_line_that_is_cut_on_both_sides(rt: HostRuntime) {
    assert!(rt;
        matches!(
            pieces_are_reported(rt.alloc(), LONG_ARRAY, CUT_ON_BOTH_SIDES),
            Ok(true)
        )
    );
}

const LONG_STRING: &[Piece] = &[
    Piece {
        bytes: b"\"",
        times: 1,
    },
    Piece {
        bytes: b"\xc3\xa9",
        times: 40,
    },
    Piece {
        bytes: b"\x01",
        times: 1,
    },
];

const CUT_AT_CHARACTER: &[Piece] = &[
    Piece {
        bytes: b"f:1:82: a control character in a string has to be escaped (ControlCharacter)\n",
        times: 1,
    },
    Piece {
        bytes: b"\xc3\xa9",
        times: 37,
    },
    Piece {
        bytes: b" \n",
        times: 1,
    },
    Piece {
        bytes: b" ",
        times: 37,
    },
    Piece {
        bytes: b"^\n",
        times: 1,
    },
];

// 81 bytes before the error, of which the last 75 begin within a character of two bytes.
#[test]
fn a_line_that_is_cut_at_a_character(rt: HostRuntime) {
    assert!(rt;
        matches!(
            pieces_are_reported(rt.alloc(), LONG_STRING, CUT_AT_CHARACTER),
            Ok(true)
        )
    );
}
