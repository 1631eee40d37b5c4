// UTF-8, places in the input, and texts that were made of any bytes.
use json_text::{Error, ErrorCode, Place, Repaired, check_utf8, place_of, repair};
use std::alloc::Global;

// Bytes, and where they are no UTF-8.
struct Invalid {
    bytes: &'static [u8],
    offset: usize,
    column: usize,
}

const INVALID: &[Invalid] = &[
    Invalid {
        bytes: b"\"\x80\x90\"",
        offset: 1,
        column: 2,
    },
    Invalid {
        bytes: b"x\xff",
        offset: 1,
        column: 2,
    },
    Invalid {
        bytes: b"\"\x00\x00\x00\x80\x90\"",
        offset: 4,
        column: 5,
    },
    Invalid {
        bytes: b"\xe2\x82",
        offset: 0,
        column: 1,
    },
];

fn is_refused(row: &Invalid) -> bool {
    let place = Place::At {
        offset: row.offset,
        line: 1,
        column: row.column,
    };
    let code = ErrorCode::InvalidUTF8;
    check_utf8(row.bytes) == Err(Error { code, place })
}

fn each_is_refused() -> bool {
    for row in INVALID {
        if !is_refused(row) {
            return false;
        }
    }
    check_utf8(b"\xe2\x82\xac") == Ok("€")
}

#[test]
fn the_longest_valid_prefix(rt: HostRuntime) {
    assert!(rt; each_is_refused());
}

// An offset in a text of five lines, with its line and its column.
struct Known {
    offset: usize,
    line: usize,
    column: usize,
}

const KNOWN: &[Known] = &[
    Known {
        offset: 0,
        line: 1,
        column: 1,
    },
    Known {
        offset: 1,
        line: 2,
        column: 1,
    },
    Known {
        offset: 19,
        line: 4,
        column: 7,
    },
    Known {
        offset: 25,
        line: 5,
        column: 2,
    },
];

fn is_at(text: &[u8], row: &Known) -> bool {
    let place = Place::At {
        offset: row.offset,
        line: row.line,
        column: row.column,
    };
    row.offset <= text.len() && place_of(text, row.offset) == place
}

fn each_is_at(text: &[u8]) -> bool {
    for row in KNOWN {
        if !is_at(text, row) {
            return false;
        }
    }
    true
}

#[test]
fn lines_and_columns(rt: HostRuntime) {
    assert!(rt; each_is_at(b"\n{\n\"k\": \"v\",\n\"a\": [, 1]\n}"));
}

fn has_origin(repaired: &Repaired, offset: usize, origin: usize) -> bool {
    offset <= repaired.as_str().len() && repaired.origin(offset) == origin
}

// Whether a repaired text is the right one, and its places have the right origins.
fn has_origins(repaired: &Repaired) -> bool {
    has_origin(repaired, 0, 0)
        && has_origin(repaired, 1, 1)
        && has_origin(repaired, 3, 1)
        && has_origin(repaired, 4, 2)
        && has_origin(repaired, 5, 3)
        && repaired.as_str().as_bytes() == b"\x22\xef\xbf\xbd\x22".as_slice()
}

fn comes_from_its_places(alloc: Global) -> bool {
    match repair(alloc, b"\"\xff\"") {
        Ok(repaired) => has_origins(&repaired),
        Err(_) => false,
    }
}

#[test]
fn places_of_a_repaired_text(rt: HostRuntime) {
    assert!(rt; comes_from_its_places(rt.alloc()));
}
