// Documents, kinds, and numbers by their literals.
use crate::looks::{assert_none, is_spelled};
use json_doc::JsonType;
use json_number::RawNumber;
use json_text::{ErrorCode, Result};
use std::alloc::Global;
use test_fixtures::{first_wrong, read};

// Whether the document of a text has one cell.
fn has_one_cell(alloc: Global, json: &str) -> bool {
    match read(alloc, json) {
        Ok(doc) => doc.cells().len() == 1,
        Err(_) => false,
    }
}

// Whether a literal was made, and it and its copy have these characters.
fn is_copied(alloc: Global, made: Result<RawNumber>, literal: &str) -> bool {
    match made {
        Ok(raw) => raw.as_str() == literal && is_spelled(raw.clone(alloc), literal),
        Err(_) => false,
    }
}

// Whether no literal was made, for this reason.
fn is_refused(made: Result<RawNumber>, code: ErrorCode) -> bool {
    match made {
        Ok(_) => false,
        Err(error) => error.code == code,
    }
}

fn wrong(alloc: Global) -> Option<&'static str> {
    let literal = RawNumber::new(alloc, "1e5");
    let refused = RawNumber::new(alloc, "01");
    first_wrong(&[
        ("one cell for an empty array", has_one_cell(alloc, "[]")),
        (
            "the kind of number five",
            JsonType::from_u8(5) == Some(JsonType::Array),
        ),
        ("no kind above five", JsonType::from_u8(6).is_none()),
        ("a literal is copied", is_copied(alloc, literal, "1e5")),
        (
            "no number begins with a zero and a digit",
            is_refused(refused, ErrorCode::InvalidNumber),
        ),
    ])
}

#[test]
fn documents_and_literals(rt: HostRuntime) {
    assert_none(&rt, wrong(rt.alloc()));
}
