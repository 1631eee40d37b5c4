// Integers by value and raw literals, on examples.
use crate::looks::{Row, each_holds};
use json_number::{JsonNumberTrait, Number, RawNumber, integer_of};
use json_text::{Error, ErrorCode, Place};
use std::alloc::Global;
use std::hash::{DefaultHasher, Hash, Hasher};

const BIG: &str = "9223372036854775808";

// Whether something has these integers.
fn stands_for<T: JsonNumberTrait>(number: &T, signed: Option<i64>, unsigned: Option<u64>) -> bool {
    number.as_i64() == signed
        && number.as_u64() == unsigned
        && number.is_i64() == signed.is_some()
        && number.is_u64() == unsigned.is_some()
}

// A literal, and the integers that it has.
struct Integer {
    literal: &'static str,
    signed: Option<i64>,
    unsigned: Option<u64>,
}

fn has_integers(raw: &RawNumber, row: &Integer) -> bool {
    match integer_of(raw.as_str()) {
        Some(number) => {
            stands_for(raw, row.signed, row.unsigned)
                && stands_for(&number, row.signed, row.unsigned)
        }
        None => false,
    }
}

impl Row for Integer {
    fn text(&self) -> &'static str {
        self.literal
    }

    fn holds(&self, alloc: Global) -> bool {
        match RawNumber::new(alloc, self.literal) {
            Ok(raw) => has_integers(&raw, self),
            Err(_) => false,
        }
    }
}

const INTEGERS: &[Integer] = &[
    Integer {
        literal: "0",
        signed: Some(0),
        unsigned: Some(0),
    },
    Integer {
        literal: "7",
        signed: Some(7),
        unsigned: Some(7),
    },
    Integer {
        literal: "-1",
        signed: Some(-1),
        unsigned: None,
    },
    Integer {
        literal: "-9223372036854775808",
        signed: Some(i64::MIN),
        unsigned: None,
    },
    Integer {
        literal: "9223372036854775807",
        signed: Some(i64::MAX),
        unsigned: Some(9223372036854775807),
    },
    Integer {
        literal: BIG,
        signed: None,
        unsigned: Some(9223372036854775808),
    },
    Integer {
        literal: "18446744073709551615",
        signed: None,
        unsigned: Some(u64::MAX),
    },
];

#[test]
fn integers_by_value(rt: HostRuntime) {
    each_holds(&rt, rt.alloc(), INTEGERS);
}

// Whether a number has this text.
fn is_shown(alloc: Global, number: Number, text: &str) -> bool {
    match format!(in alloc; "{number}") {
        Ok(shown) => shown.as_str() == text,
        Err(_) => false,
    }
}

fn numbers_have_their_texts(alloc: Global) -> bool {
    is_shown(alloc, Number::from(0u8), "0")
        && is_shown(alloc, Number::from(u64::MAX), "18446744073709551615")
        && is_shown(alloc, Number::from(i64::MIN), "-9223372036854775808")
}

#[test]
fn numbers_shown(rt: HostRuntime) {
    assert!(rt; numbers_have_their_texts(rt.alloc()));
}

// A literal of no integer that is a number by its value.
struct NoInteger {
    literal: &'static str,
}

impl Row for NoInteger {
    fn text(&self) -> &'static str {
        self.literal
    }

    fn holds(&self, alloc: Global) -> bool {
        match RawNumber::new(alloc, self.literal) {
            Ok(raw) => raw.to_number().is_none() && !raw.is_i64(),
            Err(_) => false,
        }
    }
}

const NO_INTEGERS: &[NoInteger] = &[
    NoInteger {
        literal: "-9223372036854775809",
    },
    NoInteger {
        literal: "18446744073709551616",
    },
    NoInteger { literal: "-0" },
    NoInteger { literal: "1.0" },
    NoInteger { literal: "1e5" },
    NoInteger {
        literal: "100000000000000000000",
    },
    NoInteger {
        literal: "-100000000000000000000",
    },
];

#[test]
fn literals_of_no_integer(rt: HostRuntime) {
    each_holds(&rt, rt.alloc(), NO_INTEGERS);
}

fn copy_is_equal(alloc: Global, raw: &RawNumber) -> bool {
    match raw.clone(alloc) {
        Ok(copy) => copy.as_str() == "1e5" && *raw == copy,
        Err(_) => false,
    }
}

fn other_differs(alloc: Global, raw: &RawNumber) -> bool {
    match RawNumber::new(alloc, "1E5") {
        Ok(other) => *raw != other,
        Err(_) => false,
    }
}

// Whether a copy has the literal and is equal, and another literal is another number.
fn copies_are_equal(alloc: Global) -> bool {
    match RawNumber::new(alloc, "1e5") {
        Ok(raw) => {
            raw.as_str() == "1e5" && copy_is_equal(alloc, &raw) && other_differs(alloc, &raw)
        }
        Err(_) => false,
    }
}

// A text that is no number.
struct NoNumber {
    text: &'static str,
}

impl Row for NoNumber {
    fn text(&self) -> &'static str {
        self.text
    }

    fn holds(&self, alloc: Global) -> bool {
        let refusal = Error {
            code: ErrorCode::InvalidNumber,
            place: Place::None,
        };
        match RawNumber::new(alloc, self.text) {
            Ok(_) => false,
            Err(error) => error == refusal,
        }
    }
}

const NO_NUMBERS: &[NoNumber] = &[
    NoNumber { text: "01" },
    NoNumber { text: "" },
    NoNumber { text: "-" },
    NoNumber { text: "+1" },
    NoNumber { text: "1." },
    NoNumber { text: "1e" },
    NoNumber { text: "1 " },
    NoNumber { text: ".5" },
    NoNumber { text: "0x1" },
];

#[test]
fn raw_numbers(rt: HostRuntime) {
    assert!(rt; copies_are_equal(rt.alloc()));
    each_holds(&rt, rt.alloc(), NO_NUMBERS);
    assert!(rt; ErrorCode::InvalidNumber.number() == 7);
}

fn is_five(number: Number) -> bool {
    number.as_u64() == Some(5)
}

fn is_minus_five(number: Number) -> bool {
    number.as_i64() == Some(-5)
}

fn each_unsigned_type_is_taken() -> bool {
    is_five(Number::from(5u8))
        && is_five(Number::from(5u16))
        && is_five(Number::from(5u32))
        && is_five(Number::from(5u64))
        && is_five(Number::from(5usize))
        && is_five(Number::from(5i8))
}

fn each_signed_type_is_taken() -> bool {
    is_minus_five(Number::from(-5i8))
        && is_minus_five(Number::from(-5i16))
        && is_minus_five(Number::from(-5i32))
        && is_minus_five(Number::from(-5i64))
        && is_minus_five(Number::from(-5isize))
}

#[test]
fn from_each_type(rt: HostRuntime) {
    assert!(rt; each_unsigned_type_is_taken());
    assert!(rt; each_signed_type_is_taken());
}

fn hash_of(number: Number) -> u64 {
    let mut hasher = DefaultHasher::new();
    number.hash(&mut hasher);
    hasher.finish()
}

fn have_equal_hashes(number: Number, other: Number) -> bool {
    number == other && hash_of(number) == hash_of(other)
}

#[test]
fn equal_numbers_have_equal_hashes(rt: HostRuntime) {
    assert!(rt; have_equal_hashes(Number::from(0i64), Number::from(0u64)));
    assert!(rt; have_equal_hashes(Number::from(-1i8), Number::from(-1i64)));
    assert!(rt; Number::from(-1i64) != Number::from(u64::MAX));
}
