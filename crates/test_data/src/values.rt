// The same values and refusals of values, with no place.
use crate::looks::{Row, each_holds, holds};
use json_data::{Deserialize, error_without_place, from_value};
use json_number::RawNumber;
use json_text::{Error, ErrorCode, Result};
use json_value::Value;
use std::alloc::Global;
use std::collections::BTreeMap;
use test_fixtures::value_of;

// What a value is read as.
fn read<'a, T: Deserialize<'a>>(alloc: Global, value: &'a Value) -> Result<T> {
    from_value(alloc, value)
}

fn unsigned(alloc: Global, text: &str) -> Result<u8> {
    read(alloc, &value_of(alloc, text)?)
}

fn signed(alloc: Global, text: &str) -> Result<i8> {
    read(alloc, &value_of(alloc, text)?)
}

fn pair(alloc: Global, text: &str) -> Result<(u8, u8)> {
    read(alloc, &value_of(alloc, text)?)
}

// Whether a number is read that is spelled so.
fn raw(alloc: Global, text: &str, literal: &str) -> Result<bool> {
    let value = value_of(alloc, text)?;
    Ok(read::<RawNumber>(alloc, &value)?.as_str() == literal)
}

// How many flags are read by their numbers.
fn flags(alloc: Global, text: &str) -> Result<usize> {
    let value = value_of(alloc, text)?;
    Ok(read::<BTreeMap<u8, bool>>(alloc, &value)?.len())
}

fn integers_are_refused(alloc: Global, range: Error, unmatched: Error) -> bool {
    unsigned(alloc, "256") == Err(range)
        && unsigned(alloc, "1.0") == Err(unmatched)
        && signed(alloc, " -0") == Err(unmatched)
}

fn pairs_are_read(alloc: Global, unmatched: Error) -> bool {
    pair(alloc, "[1]") == Err(unmatched)
        && pair(alloc, "[1,2,[{\"a\":3}]]") == Err(unmatched)
        && pair(alloc, "[7,255]") == Ok((7, 255))
}

#[test]
fn the_same_codes_by_from_value(rt: HostRuntime) {
    let alloc = rt.alloc();
    let unmatched = error_without_place(ErrorCode::TypeUnmatched);
    let range = error_without_place(ErrorCode::NumberOutOfRange);
    assert!(rt; integers_are_refused(alloc, range, unmatched));
    assert!(rt; pairs_are_read(alloc, unmatched));
    assert!(rt; holds(raw(alloc, "\"0.123\"", "0.123")));
}

// A text of flags by their numbers, and how many there are or the code of what is refused.
struct FlagKey {
    json: &'static str,
    answer: std::result::Result<usize, ErrorCode>,
}

impl Row for FlagKey {
    fn text(&self) -> &'static str {
        self.json
    }

    fn holds(&self, alloc: Global) -> bool {
        match self.answer {
            Ok(count) => flags(alloc, self.json) == Ok(count),
            Err(code) => flags(alloc, self.json) == Err(error_without_place(code)),
        }
    }
}

const KEYS: &[FlagKey] = &[
    FlagKey {
        json: "{\"1x\":true}",
        answer: Err(ErrorCode::ExpectedNumericKey),
    },
    FlagKey {
        json: "{\"300\":true}",
        answer: Err(ErrorCode::NumberOutOfRange),
    },
    FlagKey {
        json: "{\"1.5\":true}",
        answer: Err(ErrorCode::TypeUnmatched),
    },
    FlagKey {
        json: "{\"7\":true,\"7\":false}",
        answer: Ok(1),
    },
];

#[test]
fn keys_of_maps_by_from_value(rt: HostRuntime) {
    each_holds(&rt, rt.alloc(), KEYS);
}
