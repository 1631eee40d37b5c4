// Floats of literals, and literals of floats, on examples: the nearest floats are by IEEE 754, those
// of halves, subnormals and the ends of the ranges among them.
use json_number::{JsonNumberTrait, Number, RawNumber};
use json_text::Result;
use std::alloc::Global;
use std::num::{
    f32_from_bits_with_nan, f32_to_bits_with_nan, f64_from_bits_with_nan, f64_to_bits_with_nan,
};

// Whether a number has these floats, by their bits, and counts as a double where that is said.
fn has_floats(number: &RawNumber, counts: bool, double: Option<u64>, single: Option<u32>) -> bool {
    let is_double = match number.as_f64() {
        Some(x) => double == Some(f64_to_bits_with_nan(x)),
        None => double.is_none(),
    };
    let is_single = match number.as_f32() {
        Some(x) => single == Some(f32_to_bits_with_nan(x)),
        None => single.is_none(),
    };
    is_double && is_single && number.is_f64() == counts
}

// The first literal that has other floats.
fn wrong_float(alloc: Global) -> Result<Option<&'static str>> {
    let cases = [
        ("0", false, Some(0), Some(0)),
        ("-0", true, Some(0x8000000000000000), Some(0x80000000)),
        ("-0.0", true, Some(0x8000000000000000), Some(0x80000000)),
        ("1", false, Some(0x3ff0000000000000), Some(0x3f800000)),
        ("-1", false, Some(0xbff0000000000000), Some(0xbf800000)),
        ("12.10", true, Some(0x4028333333333333), Some(0x4141999a)),
        ("1E+2", true, Some(0x4059000000000000), Some(0x42c80000)),
        ("1e-2", true, Some(0x3f847ae147ae147b), Some(0x3c23d70a)),
        (
            "9007199254740993",
            false,
            Some(0x4340000000000000),
            Some(0x5a000000),
        ),
        (
            "9007199254740995",
            false,
            Some(0x4340000000000002),
            Some(0x5a000000),
        ),
        (
            "9007199254740993.00000000000000000000000000000001",
            true,
            Some(0x4340000000000001),
            Some(0x5a000000),
        ),
        (
            "18446744073709551615",
            false,
            Some(0x43f0000000000000),
            Some(0x5f800000),
        ),
        (
            "18446744073709551616",
            true,
            Some(0x43f0000000000000),
            Some(0x5f800000),
        ),
        (
            "-9223372036854775808",
            false,
            Some(0xc3e0000000000000),
            Some(0xdf000000),
        ),
        (
            "-9223372036854775809",
            true,
            Some(0xc3e0000000000000),
            Some(0xdf000000),
        ),
        (
            "1.00000000000000011102230246251565404236316680908203125",
            true,
            Some(0x3ff0000000000000),
            Some(0x3f800000),
        ),
        (
            "1.000000059604644775390625",
            true,
            Some(0x3ff0000010000000),
            Some(0x3f800000),
        ),
        (
            "1.00000005960464477539062500001",
            true,
            Some(0x3ff0000010000000),
            Some(0x3f800001),
        ),
        (
            "16777217",
            false,
            Some(0x4170000010000000),
            Some(0x4b800000),
        ),
        ("1e308", true, Some(0x7fe1ccf385ebc8a0), None),
        (
            "1.7976931348623157e308",
            true,
            Some(0x7fefffffffffffff),
            None,
        ),
        (
            "1.7976931348623158e308",
            true,
            Some(0x7fefffffffffffff),
            None,
        ),
        ("1.7976931348623159e308", false, None, None),
        ("1e309", false, None, None),
        ("-1e309", false, None, None),
        ("1e999", false, None, None),
        ("5e-324", true, Some(1), Some(0)),
        ("2e-324", true, Some(0), Some(0)),
        ("3e-324", true, Some(1), Some(0)),
        (
            "2.2250738585072011e-308",
            true,
            Some(0xfffffffffffff),
            Some(0),
        ),
        (
            "2.2250738585072014e-308",
            true,
            Some(0x10000000000000),
            Some(0),
        ),
        (
            "3.4028235e38",
            true,
            Some(0x47efffffe54daff8),
            Some(0x7f7fffff),
        ),
        ("3.4028236e38", true, Some(0x47effffff514a7bc), None),
        ("1e-45", true, Some(0x3696d601ad376ab9), Some(1)),
        ("7e-46", true, Some(0x368ff868bf4d956a), Some(0)),
        (
            "1.17549435e-38",
            true,
            Some(0x380fffffff9fdba8),
            Some(0x800000),
        ),
        ("0e999999999999999999999", true, Some(0), Some(0)),
        ("1e-999999999999999999999", true, Some(0), Some(0)),
    ];
    for (literal, counts, double, single) in cases {
        if !has_floats(&RawNumber::new(alloc, literal)?, counts, double, single) {
            return Ok(Some(literal));
        }
    }
    Ok(None)
}

#[test]
fn floats_of_literals(rt: HostRuntime) {
    let wrong = wrong_float(rt.alloc());
    assert!(rt; matches!(wrong, Ok(None)), "{wrong:?}");
}

// The first literal that another double has, or from which a double is not read again.
fn wrong_literal(alloc: Global) -> Result<Option<&'static str>> {
    let cases = [
        (0, "0.0"),
        (0x8000000000000000, "-0.0"),
        (0x3fb999999999999a, "0.1"),
        (0x4059000000000000, "100.0"),
        (0x46293e5939a08cea, "1e30"),
        (1, "5e-324"),
        (0x7fefffffffffffff, "1.7976931348623157e308"),
    ];
    for (bits, literal) in cases {
        let Some(number) = RawNumber::from_f64(alloc, f64_from_bits_with_nan(bits))? else {
            return Ok(Some(literal));
        };
        if number.as_str() != literal
            || number.as_f64().map(|x| f64_to_bits_with_nan(x)) != Some(bits)
        {
            return Ok(Some(literal));
        }
    }
    Ok(None)
}

#[test]
fn literals_of_doubles(rt: HostRuntime) {
    let wrong = wrong_literal(rt.alloc());
    assert!(rt; matches!(wrong, Ok(None)), "{wrong:?}");
}

// The first literal that another `f32` has, or from which an `f32` is not read again.
fn wrong_single(alloc: Global) -> Result<Option<&'static str>> {
    let cases = [
        (0x80000000, "-0.0"),
        (0x3dcccccd, "0.1"),
        (1, "1e-45"),
        (0x7f7fffff, "3.4028235e38"),
    ];
    for (bits, literal) in cases {
        let Some(number) = RawNumber::from_f32(alloc, f32_from_bits_with_nan(bits))? else {
            return Ok(Some(literal));
        };
        if number.as_str() != literal
            || number.as_f32().map(|x| f32_to_bits_with_nan(x)) != Some(bits)
        {
            return Ok(Some(literal));
        }
    }
    Ok(None)
}

#[test]
fn literals_of_singles(rt: HostRuntime) {
    let wrong = wrong_single(rt.alloc());
    assert!(rt; matches!(wrong, Ok(None)), "{wrong:?}");
}

// Whether integers by value have their nearest doubles, and count as none.
fn integers_have_doubles() -> bool {
    let greatest = Number::from(u64::MAX);
    let least = Number::from(i64::MIN);
    let odd = Number::from(9007199254740993_u64);
    greatest.as_f64() == Some(18446744073709551616.0)
        && least.as_f64() == Some(-9223372036854775808.0)
        && odd.as_f64() == Some(9007199254740992.0)
        && !greatest.is_f64()
        && !least.is_f64()
}

#[test]
fn doubles_of_integers(rt: HostRuntime) {
    assert!(rt; integers_have_doubles());
}

// Whether what is not finite has no literal.
fn not_finite_is_none(alloc: Global) -> Result<bool> {
    let infinity = RawNumber::from_f64(alloc, f64::NEG_INFINITY)?;
    let nan = RawNumber::from_f64(alloc, f64::NAN)?;
    Ok(infinity.is_none() && nan.is_none() && RawNumber::from_f32(alloc, f32::NAN)?.is_none())
}

#[test]
fn not_finite(rt: HostRuntime) {
    assert!(rt; matches!(not_finite_is_none(rt.alloc()), Ok(true)));
}
