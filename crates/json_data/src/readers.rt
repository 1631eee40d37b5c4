// What can be read.
ghost use Rattle.std.specs.Prelude.{◌≡◌, ℕ, List, ◌⊎◌, Option, Some, None, true, false, IfOk, IfErr, IfSome, string_bytes, map};
ghost use Rattle.std.specs.Cow.{cow_str_bytes};
ghost use Rattle.json_grammar.specs.declared.Kind.TheVariants.{Array as array};
ghost use Rattle.json_grammar.specs.Tree.{text, begin as begin_token, end as end_token};
ghost use Rattle.json_tokens.specs.declared.token.TokenKind.TheVariants as TokenKind;
ghost use Rattle.json_tokens.specs.Pieces.{Says};
ghost use Rattle.json_model.specs.Datum.{null_datum, boolean_datum, text_datum, list_datum, list_data, option_datum};
ghost use Rattle.json_data.specs.Reading.{gives, read_boolean, read_unit, read_text, read_option, read_list, read_any};
ghost use Rattle.json_tokens.specs.Refusals.{is_refusal as spec_is_refusal};
ghost use Rattle.json_tokens.specs.ExpectedTokens.{IsOpen, InArray};
ghost use Rattle.json_tokens.specs.TokensStates.{NotWhole, WantsValue, TakesOne, TakesTree, TakesText, Leaves, TokensFail, FailsWithTokens};
ghost use Rattle.json_data.specs.Reader.{ReadsTree, ReadsNonNull, Misses, StopsReading};

use crate::brackets::{open_container, skip_token};
use crate::deserialize::DeserializeFrom;
use json_grammar::Kind;
use json_io::{Error, ErrorCode, Result};
use json_tokens::{
    InputStr, Piece, Token, TokenKind, Tokens, error_without_place, is_refusal, lend,
};
use std::alloc::Global;
use std::borrow::CowStr;

// Reads a boolean if the fast path for it returned nothing.
#[inline(never)]
fn boolean_by_kind<S: InputStr, T: Tokens<S>>(tokens: &mut T) -> Result<bool>
    requires { WantsValue (T.state tokens.old) }
    ensures ok { IfOk result (λ b. ReadsTree T.taken T.state read_boolean
        tokens.old tokens.new (gives (boolean_datum b))) }
    ensures err { IfErr result
        (λ e. StopsReading T.taken T.state read_boolean tokens.old tokens.new e) }
{
    if tokens.peek()? != TokenKind::Bool {
        tokens.skip()?;
        return Err(error_without_place(ErrorCode::TypeUnmatched));
    }
    match tokens.next()? {
        Token::Bool(b) => Ok(b),
        _ => unreachable!(),
    }
}

impl<S: InputStr> DeserializeFrom<S> for bool {
    ghost datum = { λ b. boolean_datum b };

    ghost from_tree = { read_boolean };

    #[inline]
    fn deserialize<T: Tokens<S>>(alloc: Global, tokens: &mut T) -> Result<bool> {
        let _ = alloc;
        if let Some(b) = tokens.boolean() {
            return Ok(b);
        }
        boolean_by_kind(tokens)
    }

    #[inline(always)]
    fn try_deserialize<T: Tokens<S>>(alloc: Global, tokens: &mut T) -> Result<Option<bool>> {
        let _ = alloc;
        match tokens.boolean() {
            Some(b) => Ok(Some(b)),
            None => Ok(None),
        }
    }
}

// Returns the next string.
#[inline(always)]
pub(crate) fn next_text<S: InputStr, T: Tokens<S>>(tokens: &mut T) -> Result<Piece<S>>
    requires whole { NotWhole (T.state tokens.old) }
    requires peeked { (T.state tokens.old).peeked ≡ Some TokenKind.Text }
    ensures ok { IfOk result (λ p. (s : List ℕ) × Says s p.escaped (S.bytes p.text)
        × TakesTree T.taken T.state tokens.old tokens.new (text s)) }
    ensures err { FailsWithTokens (T.state tokens.old) (T.state tokens.new) result }
{
    match tokens.next()? {
        Token::Text(piece) => Ok(piece),
        _ => unreachable!(),
    }
}

// Returns the next string for `expect_text` if the fast path for it returned nothing.
#[inline(never)]
fn text_by_kind<S: InputStr, T: Tokens<S>>(tokens: &mut T) -> Result<Piece<S>>
    requires { WantsValue (T.state tokens.old) }
    ensures ok { IfOk result (λ p.
        TakesText T.taken T.state (λ s. Says s p.escaped (S.bytes p.text)) tokens.old tokens.new) }
    ensures err { IfErr result
        (λ e. StopsReading T.taken T.state read_text tokens.old tokens.new e) }
{
    if tokens.peek()? != TokenKind::Text {
        tokens.skip()?;
        return Err(error_without_place(ErrorCode::TypeUnmatched));
    }
    next_text(tokens)
}

// Returns the next string. Fails with `TypeUnmatched` at another value.
#[inline(always)]
pub(crate) fn expect_text<S: InputStr, T: Tokens<S>>(tokens: &mut T) -> Result<Piece<S>>
    requires { WantsValue (T.state tokens.old) }
    ensures ok { IfOk result (λ p.
        TakesText T.taken T.state (λ s. Says s p.escaped (S.bytes p.text)) tokens.old tokens.new) }
    ensures err { IfErr result
        (λ e. StopsReading T.taken T.state read_text tokens.old tokens.new e) }
{
    if let Some(piece) = tokens.text() {
        return Ok(piece);
    }
    text_by_kind(tokens)
}

impl<S: InputStr> DeserializeFrom<S> for String {
    ghost datum = { λ s. text_datum (string_bytes s) };

    ghost from_tree = { read_text };

    #[inline(always)]
    fn deserialize<T: Tokens<S>>(alloc: Global, tokens: &mut T) -> Result<String> {
        expect_text(tokens)?.copy(alloc)
    }

    #[inline(always)]
    fn try_deserialize<T: Tokens<S>>(alloc: Global, tokens: &mut T) -> Result<Option<String>> {
        match tokens.text() {
            Some(piece) => Ok(Some(piece.copy(alloc)?)),
            None => Ok(None),
        }
    }
}

impl<'de> DeserializeFrom<&'de str> for CowStr<'de> {
    ghost datum = { λ s. text_datum (cow_str_bytes s) };

    ghost from_tree = { read_text };

    fn deserialize<T: Tokens<&'de str>>(alloc: Global, tokens: &mut T) -> Result<CowStr<'de>> {
        let piece = expect_text(tokens)?;
        lend(piece, alloc)
    }
}

// Reads an optional value if the fast paths for it returned nothing.
#[inline(always)]
fn option_by_kind<S: InputStr, V: DeserializeFrom<S>, T: Tokens<S>>(
    alloc: Global,
    tokens: &mut T,
) -> Result<Option<V>>
    requires { WantsValue (T.state tokens.old) }
    ensures ok { IfOk result (λ o. ReadsTree T.taken T.state (read_option V.from_tree)
        tokens.old tokens.new (gives (option_datum V.datum o))) }
    ensures err { IfErr result (λ e.
        StopsReading T.taken T.state (read_option V.from_tree) tokens.old tokens.new e) }
{
    if tokens.null() {
        return Ok(None);
    }
    if tokens.peek()? == TokenKind::Null {
        tokens.skip()?;
        return Ok(None);
    }
    Ok(Some(V::deserialize(alloc, tokens)?))
}

impl<S: InputStr, V: DeserializeFrom<S>> DeserializeFrom<S> for Option<V> {
    ghost datum = { λ o. option_datum V.datum o };

    ghost from_tree = { read_option V.from_tree };

    #[inline]
    fn deserialize<T: Tokens<S>>(alloc: Global, tokens: &mut T) -> Result<Option<V>> {
        if let Some(found) = V::try_deserialize(alloc, tokens)? {
            return Ok(Some(found));
        }
        option_by_kind(alloc, tokens)
    }

    #[inline(always)]
    fn try_deserialize<T: Tokens<S>>(alloc: Global, tokens: &mut T) -> Result<Option<Option<V>>> {
        match V::try_deserialize(alloc, tokens) {
            Ok(Some(found)) => Ok(Some(Some(found))),
            Ok(None) => Ok(None),
            Err(e) => Err(e),
        }
    }

    #[inline(always)]
    fn try_null<T: Tokens<S>>(tokens: &mut T) -> Option<Option<V>> {
        if tokens.null() {
            return Some(None);
        }
        None
    }
}

impl<S: InputStr> DeserializeFrom<S> for () {
    ghost datum = { λ _. null_datum };

    ghost from_tree = { read_unit };

    fn deserialize<T: Tokens<S>>(alloc: Global, tokens: &mut T) -> Result<()> {
        let _ = alloc;
        let peeked = tokens.peek()?;
        tokens.skip()?;
        if peeked != TokenKind::Null {
            return Err(error_without_place(ErrorCode::TypeUnmatched));
        }
        Ok(())
    }
}

/// Reads any value and keeps nothing of it: a type for values that are to be skipped.
///
/// ```
/// use json_data::{IgnoredAny, from_str};
/// assert_eq!(rt; from_str::<IgnoredAny>(alloc, "{\"a\": [1]}")?, IgnoredAny);
/// assert!(rt; from_str::<IgnoredAny>(alloc, "{\"a\": [1}").is_err());
/// ```
#[derive(Clone, Copy, PartialEq, Eq, Debug)]
pub struct IgnoredAny;

impl<S: InputStr> DeserializeFrom<S> for IgnoredAny {
    ghost datum = { λ _. null_datum };

    ghost from_tree = { read_any };

    fn deserialize<T: Tokens<S>>(alloc: Global, tokens: &mut T) -> Result<IgnoredAny> {
        let _ = alloc;
        tokens.skip()?;
        Ok(IgnoredAny)
    }
}

/// Returns the error with which a reader of an array or an object ends, given the error `e` of one
/// of its parts. If `e` is a refusal (a part is no value of its type), this first takes what is
/// left of the innermost open container, its end included; if that fails, its error is returned.
/// Otherwise takes nothing and returns `e`.
#[cold]
#[inline(never)]
pub fn leave_after<S: InputStr, T: Tokens<S>>(tokens: &mut T, e: Error) -> Error
    requires { spec_is_refusal e.code ≡ true → IsOpen (T.state tokens.old).expected }
    ensures left { spec_is_refusal e.code ≡ true
        → ((result ≡ e) × Leaves T.taken T.state tokens.old tokens.new)
        ⊎ TokensFail (T.state tokens.old) (T.state tokens.new) result }
    ensures as_was { spec_is_refusal e.code ≡ false → (result ≡ e) × (tokens.new ≡ tokens.old) }
{
    if is_refusal(e.code) {
        match tokens.leave() {
            Ok(()) => e,
            Err(fault) => fault,
        }
    } else {
        e
    }
}

/// Reads the next element for `next_element` if its fast paths return nothing.
#[inline(always)]
fn element_by_kind<S: InputStr, V: DeserializeFrom<S>, T: Tokens<S>>(
    alloc: Global,
    tokens: &mut T,
) -> Result<Option<V>>
    requires { InArray (T.state tokens.old).expected }
    ensures element { IfOk result (λ r. IfSome r (λ v.
        ReadsTree T.taken T.state V.from_tree tokens.old tokens.new (gives (V.datum v)))) }
    ensures end { IfOk result (λ r. r ≡ None
        → TakesOne T.taken T.state tokens.old tokens.new (end_token array)) }
    ensures err { IfErr result (λ e.
        StopsReading T.taken T.state V.from_tree tokens.old tokens.new e) }
{
    if let Some(element) = V::try_null(tokens) {
        return Ok(Some(element));
    }
    if tokens.ends(Kind::Array) {
        return Ok(None);
    }
    if tokens.peek()? == TokenKind::EndArray {
        skip_token(tokens)?;
        return Ok(None);
    }
    let element = V::deserialize(alloc, tokens)?;
    Ok(Some(element))
}

/// Reads the next element of an array. Returns `None` if the array ends, and takes its end.
#[inline(always)]
pub(crate) fn next_element<S: InputStr, V: DeserializeFrom<S>, T: Tokens<S>>(
    alloc: Global,
    tokens: &mut T,
) -> Result<Option<V>>
    requires { InArray (T.state tokens.old).expected }
    ensures element { IfOk result (λ r. IfSome r (λ v.
        ReadsTree T.taken T.state V.from_tree tokens.old tokens.new (gives (V.datum v)))) }
    ensures end { IfOk result (λ r. r ≡ None
        → TakesOne T.taken T.state tokens.old tokens.new (end_token array)) }
    ensures err { IfErr result (λ e.
        StopsReading T.taken T.state V.from_tree tokens.old tokens.new e) }
{
    if let Some(found) = V::try_deserialize(alloc, tokens)? {
        return Ok(Some(found));
    }
    element_by_kind(alloc, tokens)
}

/// Reads the elements of an array whose beginning was taken, and takes its end.
#[inline(never)]
fn read_elements<S: InputStr, V: DeserializeFrom<S> + Drop, T: Tokens<S>>(
    alloc: Global,
    tokens: &mut T,
) -> Result<Vec<V>>
    requires { InArray (T.state tokens.old).expected }
    ensures ok { (a : T) → TakesOne T.taken T.state a tokens.old (begin_token array)
        → IfOk result (λ v. ReadsNonNull T.taken T.state (read_list V.from_tree) a tokens.new
        (gives (list_datum (list_data (map V.datum v.items))))) }
    ensures err { (a : T) → TakesOne T.taken T.state a tokens.old (begin_token array)
        → IfErr result (λ e. Misses T.taken T.state (read_list V.from_tree) a tokens.new e) }
{
    let mut all = Vec::new(alloc);
    'each: loop {
        match V::try_deserialize(alloc, tokens) {
            Ok(found) => {
                if let Some(element) = found {
                    if all.push(element).is_err() {
                        return Err(error_without_place(ErrorCode::NoMemory));
                    }
                    continue;
                }
            }
            Err(e) => return Err(leave_after(tokens, e)),
        }
        match element_by_kind(alloc, tokens) {
            Ok(next) => match next {
                Some(element) => {
                    if all.push(element).is_err() {
                        return Err(error_without_place(ErrorCode::NoMemory));
                    }
                }
                None => return Ok(all),
            },
            Err(e) => return Err(leave_after(tokens, e)),
        }
    }
}

impl<S: InputStr, V: DeserializeFrom<S> + Drop> DeserializeFrom<S> for Vec<V> {
    ghost datum = { λ v. list_datum (list_data (map V.datum v.items)) };

    ghost from_tree = { read_list V.from_tree };

    fn deserialize<T: Tokens<S>>(alloc: Global, tokens: &mut T) -> Result<Vec<V>> {
        open_container(tokens, Kind::Array)?;
        read_elements(alloc, tokens)
    }

    #[inline(always)]
    fn try_deserialize<T: Tokens<S>>(alloc: Global, tokens: &mut T) -> Result<Option<Vec<V>>> {
        if !tokens.begins(Kind::Array) {
            return Ok(None);
        }
        match read_elements(alloc, tokens) {
            Ok(all) => Ok(Some(all)),
            Err(e) => Err(e),
        }
    }
}
