// Characters.
ghost use Rattle.std.specs.Prelude.{◌≡◌, ◌≢◌, ◌∷◌, [], length, MatchOption};
ghost use Rattle.std.specs.Char.{encode_utf8};
ghost use Rattle.std.specs.Str.{chars};
ghost use Rattle.json_model.specs.Datum.{text_datum};
ghost use Rattle.json_data.specs.CharKeys.{character_named, chars_ordered};
ghost use Rattle.json_data.specs.Reading.{one_character, read_character};

use crate::deserialize::DeserializeFrom;
use crate::keys::FromKey;
use crate::readers::next_text;
use json_io::{ErrorCode, Result};
use json_tokens::{InputStr, Piece, TokenKind, Tokens, error_without_place};
use std::alloc::Global;

// Returns the character of a text that has exactly one, and `None` for every other text.
pub(crate) fn only_char(text: &str) -> Option<char>
    ensures { MatchOption result (length (chars text.now) ≢ 1)
        (λ c. (text.now ≡ encode_utf8 c) × (length (chars text.now) ≡ 1)) }
{
    let mut all = text.chars();
    let first = all.next()?;
    match all.next() {
        Some(_) => None,
        None => Some(first),
    }
}

impl<S: InputStr> DeserializeFrom<S> for char {
    ghost datum = { λ c. text_datum (encode_utf8 c) };

    ghost from_tree = { read_character };

    fn deserialize<T: Tokens<S>>(alloc: Global, tokens: &mut T) -> Result<char> {
        if tokens.peek()? != TokenKind::Text {
            tokens.skip()?;
            return Err(error_without_place(ErrorCode::TypeUnmatched));
        }
        let piece = next_text(tokens)?;
        let text = piece.copy(alloc)?;
        match only_char(text.as_str()) {
            Some(c) => Ok(c),
            None => Err(error_without_place(ErrorCode::TypeUnmatched)),
        }
    }
}

impl<S: InputStr> FromKey<S> for char {
    ghost key_datum = { λ c. text_datum (encode_utf8 c) };

    ghost from_text = { one_character };

    ghost named = { character_named };

    ghost orders = { λ a b s r h k. chars_ordered a b };

    fn from_key(alloc: Global, key: &Piece<S>) -> Result<char> {
        let piece = *key;
        let text = piece.copy(alloc)?;
        match only_char(text.as_str()) {
            Some(c) => Ok(c),
            None => Err(error_without_place(ErrorCode::TypeUnmatched)),
        }
    }
}
