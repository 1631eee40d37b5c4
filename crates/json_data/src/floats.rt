// Floats.
ghost use Rattle.std.specs.Prelude.{◌≡◌};
ghost use Rattle.std.specs.Float.{binary32, binary64};
ghost use Rattle.json_number.specs.Floats.{float_in};
ghost use Rattle.json_number.specs.Numbers.{text_of_number};
ghost use Rattle.json_data.specs.Floats.{float_datum, read_float};

use crate::deserialize::DeserializeFrom;
use crate::integer_ranges::{next_int, next_raw};
use itoa::Buffer;
use json_io::{ErrorCode, Result};
use json_number::{Integer, JsonNumberTrait, Number, f32_of, f64_of};
use json_tokens::{InputStr, TokenKind, Tokens, error_without_place};
use std::alloc::Global;

/// Returns the double nearest to an integer of 64 bits.
fn integer_f64(n: Number) -> Option<f64>
    ensures { result ≡ float_in binary64 (text_of_number n) }
{
    n.as_f64()
}

/// Returns the `f32` nearest to an integer of 64 bits, which is rounded once.
fn integer_f32(n: Number) -> Option<f32>
    ensures { result ≡ float_in binary32 (text_of_number n) }
{
    let mut buffer = Buffer::new();
    match n.integer() {
        Integer::Unsigned(n) => f32_of(buffer.format(n)),
        Integer::Negative(n) => f32_of(buffer.format(n)),
    }
}

/// Reads the double that is nearest to a number; of two that are equally near, the one whose last
/// bit is 0. Fails with `NumberOutOfRange` for a number whose nearest double is infinite, and with
/// `TypeUnmatched` for a value that is no number.
impl<S: InputStr> DeserializeFrom<S> for f64 {
    ghost datum = { λ x. float_datum x };

    ghost from_tree = { read_float binary64 };

    fn deserialize<T: Tokens<S>>(alloc: Global, tokens: &mut T) -> Result<f64> {
        let _ = alloc;
        let kind = tokens.peek()?;
        if kind == TokenKind::Int {
            let n = next_int(tokens)?;
            return match integer_f64(n) {
                Some(double) => Ok(double),
                None => Err(error_without_place(ErrorCode::NumberOutOfRange)),
            };
        }
        if kind != TokenKind::Raw {
            tokens.skip()?;
            return Err(error_without_place(ErrorCode::TypeUnmatched));
        }
        let literal = next_raw(tokens)?;
        match f64_of(literal.as_text()) {
            Some(double) => Ok(double),
            None => Err(error_without_place(ErrorCode::NumberOutOfRange)),
        }
    }
}

/// Reads the `f32` that is nearest to a number; of two that are equally near, the one whose last
/// bit is 0. It is rounded once, not by way of an `f64`. Fails with `NumberOutOfRange` for a number
/// whose nearest `f32` is infinite, and with `TypeUnmatched` for a value that is no number.
impl<S: InputStr> DeserializeFrom<S> for f32 {
    ghost datum = { λ x. float_datum x };

    ghost from_tree = { read_float binary32 };

    fn deserialize<T: Tokens<S>>(alloc: Global, tokens: &mut T) -> Result<f32> {
        let _ = alloc;
        let kind = tokens.peek()?;
        if kind == TokenKind::Int {
            let n = next_int(tokens)?;
            return match integer_f32(n) {
                Some(single) => Ok(single),
                None => Err(error_without_place(ErrorCode::NumberOutOfRange)),
            };
        }
        if kind != TokenKind::Raw {
            tokens.skip()?;
            return Err(error_without_place(ErrorCode::TypeUnmatched));
        }
        let literal = next_raw(tokens)?;
        match f32_of(literal.as_text()) {
            Some(single) => Ok(single),
            None => Err(error_without_place(ErrorCode::NumberOutOfRange)),
        }
    }
}
