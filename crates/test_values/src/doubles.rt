// Doubles of values, and values of doubles, on examples. The bits are those of IEEE 754.
use crate::looks::{Call, Look, assert_none, wrong_look};
use json_access::JsonValueTrait;
use json_text::Result;
use json_value::Value;
use std::alloc::Global;
use std::num::f64_to_bits_with_nan;
use test_fixtures::{or_null, shows, value_of};

// Whether a value has this double, by its bits, and counts as one where that is said.
fn has_double(value: &Value, bits: Option<u64>, counts: bool) -> bool {
    let is_it = match value.as_f64() {
        Some(x) => bits == Some(f64_to_bits_with_nan(x)),
        None => bits.is_none(),
    };
    is_it && value.is_f64() == counts
}

// The bits of the double that a value is expected to have, and whether it counts as one.
#[derive(Clone, Copy)]
struct Double(Option<u64>, bool);

impl Call for Double {
    fn is_right(self, value: &mut Value, _alloc: Global) -> bool {
        has_double(value, self.0, self.1)
    }
}

const DOUBLES: &[Look<Double>] = &[
    ("zero", "0", Double(Some(0), false)),
    (
        "zero below zero",
        "-0",
        Double(Some(0x8000000000000000), true),
    ),
    ("an integer", "-7", Double(Some(0xc01c000000000000), false)),
    ("a decimal", "12.10", Double(Some(0x4028333333333333), true)),
    (
        "the greatest integer",
        "18446744073709551615",
        Double(Some(0x43f0000000000000), false),
    ),
    (
        "one more",
        "18446744073709551616",
        Double(Some(0x43f0000000000000), true),
    ),
    ("the least", "5e-324", Double(Some(1), true)),
    (
        "a large one",
        "1e308",
        Double(Some(0x7fe1ccf385ebc8a0), true),
    ),
    ("one too large", "1e309", Double(None, false)),
    ("a string", "\"1.5\"", Double(None, false)),
    ("an array", "[1.5]", Double(None, false)),
    ("true", "true", Double(None, false)),
    ("null", "null", Double(None, false)),
];

// Whether the value of a double has this text, and equals the double where it is finite.
fn is_shown(alloc: Global, double: f64, text: &str) -> Result<bool> {
    let value = Value::from_f64(alloc, double)?;
    let is_made = Value::new_f64(alloc, double)?.is_some();
    let is_right = is_made == double.is_finite() && value.eq_f64(double) == is_made;
    Ok(is_right && shows(alloc, &value, text)?)
}

const TEXTS: &[(f64, &str)] = &[
    (0.1, "0.1"),
    (-0.0, "-0.0"),
    (1.0, "1.0"),
    (1e300, "1e300"),
    (f64::NAN, "null"),
    (f64::INFINITY, "null"),
];

// The first text that is not that of its double.
fn wrong_text(alloc: Global) -> Option<&'static str> {
    for (double, text) in TEXTS {
        if !matches!(is_shown(alloc, *double, text), Ok(true)) {
            return Some(*text);
        }
    }
    None
}

// Whether zeros are equal, one is the integer, and no string equals a double.
fn equals_by_value(alloc: Global) -> bool {
    let zero = or_null(value_of(alloc, "-0.0"));
    let one = Value::new_u64(1);
    zero.eq_f64(0.0) && one.eq_f64(1.0) && !one.eq_f64(1.5) && !Value::new_null().eq_f64(0.0)
}

#[test]
fn values_have_the_nearest_doubles(rt: HostRuntime) {
    assert_none(&rt, wrong_look(rt.alloc(), DOUBLES));
    assert_none(&rt, wrong_text(rt.alloc()));
    assert!(rt; equals_by_value(rt.alloc()));
}
