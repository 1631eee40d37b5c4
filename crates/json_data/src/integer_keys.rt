// Integers as keys of maps.
ghost use Rattle.std.specs.Prelude.{◌≡◌, ◌⊎◌, ◌^◌, ◌≤◌, ℕ, List, pos, true, false, refl, IfOk, IfErr};
ghost use Rattle.json_model.specs.Datum.{integer_datum};
ghost use Rattle.json_number.specs.Tests.{is_number_text as spec_is_number};
ghost use Rattle.json_io.specs.Errors.{no_memory};
ghost use Rattle.json_io.specs.declared.error.ErrorCode.TheVariants.{ExpectedNumericKey};
ghost use Rattle.json_data.specs.Keys.{integer_key, integer_named, unsigned_orders};
ghost use Rattle.json_tokens.specs.Pieces.{Says};
ghost use Rattle.json_data.specs.Reader.{KeyReadingFails};
ghost use Rattle.json_data.specs.Reading.{gives, is_between, ReturnsBetween};
ghost use Rattle.json_tokens.specs.Refusals.{error_without_place as spec_refusal};
ghost use Rattle.json_number.specs.IntegerLiterals.{IsIntegerLiteral};
ghost use Rattle.json_number.specs.Integers.{whole_in};

use crate::integer_ranges::{fit_unsigned, integer_in_range};
use crate::keys::FromKey;
use json_io::{ErrorCode, Result};
use json_number::{IntegerLiteral, integer_literal};
use json_text::is_number;
use json_tokens::{InputStr, Piece, error_without_place};
use std::alloc::Global;

// Returns the integer that a key has the text of. Fails if the key is no number.
fn key_whole<S: InputStr>(alloc: Global, key: Piece<S>) -> Result<IntegerLiteral>
    ensures ok { IfOk result (λ w. (s : List ℕ) → Says s key.escaped (S.bytes key.text)
        → (spec_is_number s ≡ true) × IsIntegerLiteral (whole_in s) w) }
    ensures err { IfErr result (λ e. (e ≡ no_memory) ⊎ ((e ≡ spec_refusal ExpectedNumericKey)
        × ((s : List ℕ) → Says s key.escaped (S.bytes key.text) → spec_is_number s ≡ false))) }
{
    let text = key.copy(alloc)?;
    let literal = text.as_str();
    if !is_number(literal) {
        return Err(error_without_place(ErrorCode::ExpectedNumericKey));
    }
    Ok(integer_literal(literal))
}

// Reads a key that is an integer, at least `-low` and below `high`.
fn key_between<S: InputStr>(alloc: Global, key: Piece<S>, low: u128, high: u128) -> Result<i128>
    requires low { low ≤ 2 ^ 127 }
    requires high { high ≤ 2 ^ 127 }
    ensures ok { IfOk result (λ n. (s : List ℕ) → Says s key.escaped (S.bytes key.text)
        → integer_key (is_between low high) s ≡ gives (integer_datum n)) }
    ensures within { ReturnsBetween low high result }
    ensures err { IfErr result (λ e.
        KeyReadingFails (λ s. Says s key.escaped (S.bytes key.text))
        (integer_key (is_between low high)) e) }
{
    let whole = match key_whole(alloc, key) {
        Ok(whole) => whole,
        Err(e) => return Err(e),
    };
    match integer_in_range(whole, low, high) {
        Ok(n) => Ok(n),
        Err(e) => Err(e),
    }
}

impl<S: InputStr> FromKey<S> for i8 {
    ghost key_datum = { λ n. integer_datum n };

    ghost from_text = { integer_key (is_between (2 ^ 7) (2 ^ 7)) };

    ghost named = { integer_named (is_between (2 ^ 7) (2 ^ 7)) };

    ghost orders = { λ a b s r h k. refl };

    fn from_key(alloc: Global, key: &Piece<S>) -> Result<i8> {
        let n = key_between(alloc, *key, 128, 128)?;
        Ok(n as i8)
    }
}

impl<S: InputStr> FromKey<S> for i16 {
    ghost key_datum = { λ n. integer_datum n };

    ghost from_text = { integer_key (is_between (2 ^ 15) (2 ^ 15)) };

    ghost named = { integer_named (is_between (2 ^ 15) (2 ^ 15)) };

    ghost orders = { λ a b s r h k. refl };

    fn from_key(alloc: Global, key: &Piece<S>) -> Result<i16> {
        let n = key_between(alloc, *key, 32_768, 32_768)?;
        Ok(n as i16)
    }
}

impl<S: InputStr> FromKey<S> for i32 {
    ghost key_datum = { λ n. integer_datum n };

    ghost from_text = { integer_key (is_between (2 ^ 31) (2 ^ 31)) };

    ghost named = { integer_named (is_between (2 ^ 31) (2 ^ 31)) };

    ghost orders = { λ a b s r h k. refl };

    fn from_key(alloc: Global, key: &Piece<S>) -> Result<i32> {
        let n = key_between(alloc, *key, 2_147_483_648, 2_147_483_648)?;
        Ok(n as i32)
    }
}

impl<S: InputStr> FromKey<S> for i64 {
    ghost key_datum = { λ n. integer_datum n };

    ghost from_text = { integer_key (is_between (2 ^ 63) (2 ^ 63)) };

    ghost named = { integer_named (is_between (2 ^ 63) (2 ^ 63)) };

    ghost orders = { λ a b s r h k. refl };

    fn from_key(alloc: Global, key: &Piece<S>) -> Result<i64> {
        let n = key_between(
            alloc,
            *key,
            9_223_372_036_854_775_808,
            9_223_372_036_854_775_808,
        )?;
        Ok(n as i64)
    }
}

impl<S: InputStr> FromKey<S> for i128 {
    ghost key_datum = { λ n. integer_datum n };

    ghost from_text = { integer_key (is_between (2 ^ 127) (2 ^ 127)) };

    ghost named = { integer_named (is_between (2 ^ 127) (2 ^ 127)) };

    ghost orders = { λ a b s r h k. refl };

    fn from_key(alloc: Global, key: &Piece<S>) -> Result<i128> {
        let n = key_between(
            alloc,
            *key,
            170_141_183_460_469_231_731_687_303_715_884_105_728,
            170_141_183_460_469_231_731_687_303_715_884_105_728,
        )?;
        Ok(n)
    }
}

impl<S: InputStr> FromKey<S> for isize {
    ghost key_datum = { λ n. integer_datum n };

    ghost from_text = { integer_key (is_between (2 ^ 63) (2 ^ 63)) };

    ghost named = { integer_named (is_between (2 ^ 63) (2 ^ 63)) };

    ghost orders = { λ a b s r h k. refl };

    fn from_key(alloc: Global, key: &Piece<S>) -> Result<isize> {
        let n = key_between(
            alloc,
            *key,
            9_223_372_036_854_775_808,
            9_223_372_036_854_775_808,
        )?;
        Ok(n as isize)
    }
}

impl<S: InputStr> FromKey<S> for u8 {
    ghost key_datum = { λ n. integer_datum (pos n) };

    ghost from_text = { integer_key (is_between 0 (2 ^ 8)) };

    ghost named = { integer_named (is_between 0 (2 ^ 8)) };

    ghost orders = { λ a b s r h k. unsigned_orders a b };

    fn from_key(alloc: Global, key: &Piece<S>) -> Result<u8> {
        let n = key_between(alloc, *key, 0, 256)?;
        Ok(n as u8)
    }
}

impl<S: InputStr> FromKey<S> for u16 {
    ghost key_datum = { λ n. integer_datum (pos n) };

    ghost from_text = { integer_key (is_between 0 (2 ^ 16)) };

    ghost named = { integer_named (is_between 0 (2 ^ 16)) };

    ghost orders = { λ a b s r h k. unsigned_orders a b };

    fn from_key(alloc: Global, key: &Piece<S>) -> Result<u16> {
        let n = key_between(alloc, *key, 0, 65_536)?;
        Ok(n as u16)
    }
}

impl<S: InputStr> FromKey<S> for u32 {
    ghost key_datum = { λ n. integer_datum (pos n) };

    ghost from_text = { integer_key (is_between 0 (2 ^ 32)) };

    ghost named = { integer_named (is_between 0 (2 ^ 32)) };

    ghost orders = { λ a b s r h k. unsigned_orders a b };

    fn from_key(alloc: Global, key: &Piece<S>) -> Result<u32> {
        let n = key_between(alloc, *key, 0, 4_294_967_296)?;
        Ok(n as u32)
    }
}

impl<S: InputStr> FromKey<S> for u64 {
    ghost key_datum = { λ n. integer_datum (pos n) };

    ghost from_text = { integer_key (is_between 0 (2 ^ 64)) };

    ghost named = { integer_named (is_between 0 (2 ^ 64)) };

    ghost orders = { λ a b s r h k. unsigned_orders a b };

    fn from_key(alloc: Global, key: &Piece<S>) -> Result<u64> {
        let n = key_between(alloc, *key, 0, 18_446_744_073_709_551_616)?;
        Ok(n as u64)
    }
}

impl<S: InputStr> FromKey<S> for usize {
    ghost key_datum = { λ n. integer_datum (pos n) };

    ghost from_text = { integer_key (is_between 0 (2 ^ 64)) };

    ghost named = { integer_named (is_between 0 (2 ^ 64)) };

    ghost orders = { λ a b s r h k. unsigned_orders a b };

    fn from_key(alloc: Global, key: &Piece<S>) -> Result<usize> {
        let n = key_between(alloc, *key, 0, 18_446_744_073_709_551_616)?;
        Ok(n as usize)
    }
}

impl<S: InputStr> FromKey<S> for u128 {
    ghost key_datum = { λ n. integer_datum (pos n) };

    ghost from_text = { integer_key (is_between 0 (2 ^ 128)) };

    ghost named = { integer_named (is_between 0 (2 ^ 128)) };

    ghost orders = { λ a b s r h k. unsigned_orders a b };

    fn from_key(alloc: Global, key: &Piece<S>) -> Result<u128> {
        let whole = match key_whole(alloc, *key) {
            Ok(whole) => whole,
            Err(e) => return Err(e),
        };
        match fit_unsigned(whole) {
            Ok(n) => Ok(n),
            Err(e) => Err(e),
        }
    }
}
