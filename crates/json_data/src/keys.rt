// Keys of maps.
ghost use Rattle.std.specs.Prelude.{◌≡◌, ℕ, List, Some, None, IfOk, IfErr, IfSome, string_bytes, refl};
ghost use Rattle.std.specs.Cow.{cow_str_bytes};
ghost use Rattle.json_grammar.specs.declared.Kind.TheVariants.{Object as object};
ghost use Rattle.json_grammar.specs.Tree.{key_token, end as end_token};
ghost use Rattle.json_model.specs.Datum.{Datum, boolean_datum, text_datum, option_datum};
ghost use Rattle.json_tokens.specs.declared.token.TokenKind.TheVariants as TokenKind;
ghost use Rattle.json_data.specs.Keys.{text_key, boolean_key, IsNamed, boolean_named, option_orders};
ghost use Rattle.json_tokens.specs.Pieces.{Says};
ghost use Rattle.json_data.specs.Reading.{Reading, gives, key_cmp};
ghost use Rattle.json_data.specs.Reader.{KeyReadingFails};
ghost use Rattle.json_tokens.specs.ExpectedTokens.{InObject};
ghost use Rattle.json_tokens.specs.TokensStates.{NotWhole, TakesOne, TakesKeyPiece, FailsWithTokens};

use crate::brackets::skip_token;
use json_grammar::Kind;
use json_io::{ErrorCode, Result};
use json_tokens::{InputStr, Piece, Token, TokenKind, Tokens, error_without_place, lend};
use std::alloc::Global;
use std::borrow::CowStr;

/// A type of map keys, each of which is read from the name of an object's member.
///
/// ```
/// use json_data::{FromKey, Piece};
/// assert_eq!(rt; <u16 as FromKey<&str>>::from_key(alloc, &Piece::plain("1815"))?, 1815);
/// assert!(rt; <u16 as FromKey<&str>>::from_key(alloc, &Piece::plain("born")).is_err());
/// ```
pub trait FromKey<S: InputStr>: Sized + Ord {
    /// What a key means as data: a text, an integer or a boolean.
    ghost key_datum: { Self → Datum };

    /// What reading a name returns: a datum, or the code of the error that refuses the name.
    ghost from_text: { List ℕ → Reading };

    /// Reads a key from a name, which may have escapes that are not read yet. Fails without a place
    /// if the name is no such key, and with `NoMemory` if memory runs out.
    fn from_key(alloc: Global, key: &Piece<S>) -> Result<Self>
        ensures ok { IfOk result (λ k. (s : List ℕ) → Says s key.now.escaped (S.bytes key.now.text)
            → from_text s ≡ gives (key_datum k)) }
        ensures err { IfErr result (λ e.
            KeyReadingFails (λ s. Says s key.now.escaped (S.bytes key.now.text)) from_text e) };

    /// That no key means null.
    ghost named: { (s : List ℕ) → IsNamed (from_text s) };

    /// That keys which are read from names are ordered by what they mean.
    ghost orders: { (a b : Self) (s r : List ℕ) → from_text s ≡ gives (key_datum a)
        → from_text r ≡ gives (key_datum b) → Self.cmp a b ≡ key_cmp (key_datum a) (key_datum b) };
}

impl<S: InputStr> FromKey<S> for String {
    ghost key_datum = { λ s. text_datum (string_bytes s) };

    ghost from_text = { text_key };

    ghost named = { λ s. tt };

    ghost orders = { λ a b s r h k. refl };

    fn from_key(alloc: Global, key: &Piece<S>) -> Result<String> {
        let piece = *key;
        piece.copy(alloc)
    }
}

impl<'de> FromKey<&'de str> for CowStr<'de> {
    ghost key_datum = { λ s. text_datum (cow_str_bytes s) };

    ghost from_text = { text_key };

    ghost named = { λ s. tt };

    ghost orders = { λ a b s r h k. refl };

    fn from_key(alloc: Global, key: &Piece<&'de str>) -> Result<CowStr<'de>> {
        let piece = *key;
        lend(piece, alloc)
    }
}

impl<S: InputStr> FromKey<S> for bool {
    ghost key_datum = { λ b. boolean_datum b };

    ghost from_text = { boolean_key };

    ghost named = { boolean_named };

    ghost orders = { λ a b s r h k. refl };

    fn from_key(alloc: Global, key: &Piece<S>) -> Result<bool> {
        let piece = *key;
        let text = piece.copy(alloc)?;
        if text.as_str() == "true" {
            return Ok(true);
        }
        if text.as_str() == "false" {
            return Ok(false);
        }
        Err(error_without_place(ErrorCode::TypeUnmatched))
    }
}

impl<S: InputStr, K: FromKey<S>> FromKey<S> for Option<K> {
    ghost key_datum = { λ o. option_datum K.key_datum o };

    ghost from_text = { K.from_text };

    ghost named = { K.named };

    ghost orders = { option_orders K.cmp K.key_datum K.from_text K.named K.orders };

    fn from_key(alloc: Global, key: &Piece<S>) -> Result<Option<K>> {
        Ok(Some(K::from_key(alloc, key)?))
    }
}

// Returns the next key.
#[inline(always)]
pub(crate) fn next_key<S: InputStr, T: Tokens<S>>(tokens: &mut T) -> Result<Piece<S>>
    requires whole { NotWhole (T.state tokens.old) }
    requires peeked { (T.state tokens.old).peeked ≡ Some TokenKind.Key }
    ensures ok { IfOk result (λ p. (s : List ℕ) × Says s p.escaped (S.bytes p.text)
        × TakesOne T.taken T.state tokens.old tokens.new (key_token s)) }
    ensures err { FailsWithTokens (T.state tokens.old) (T.state tokens.new) result }
{
    match tokens.next()? {
        Token::Key(piece) => Ok(piece),
        _ => unreachable!(),
    }
}

/// Returns the next name in an object, or `None` if the object ends, whose end is taken.
#[inline(always)]
pub(crate) fn next_name<S: InputStr, T: Tokens<S>>(tokens: &mut T) -> Result<Option<Piece<S>>>
    requires { InObject (T.state tokens.old).expected }
    ensures name { IfOk result (λ r. IfSome r (λ p.
        TakesKeyPiece T.taken T.state
        (λ s. Says s p.escaped (S.bytes p.text)) tokens.old tokens.new)) }
    ensures end { IfOk result (λ r. r ≡ None
        → TakesOne T.taken T.state tokens.old tokens.new (end_token object)) }
    ensures err { FailsWithTokens (T.state tokens.old) (T.state tokens.new) result }
{
    if let Some(key) = tokens.key() {
        return Ok(Some(key));
    }
    if tokens.ends(Kind::Object) {
        return Ok(None);
    }
    if tokens.peek()? == TokenKind::EndObject {
        skip_token(tokens)?;
        return Ok(None);
    }
    let key = next_key(tokens)?;
    Ok(Some(key))
}
