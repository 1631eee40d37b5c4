// The tokens of values that are seen.
ghost use Rattle.std.specs.Prelude.{◌≡◌, [], ◌∷◌};
ghost use Rattle.json_grammar.specs.Tree.{Token as Tok, tokens};
ghost use Rattle.json_value.specs.Seen.{seen};
ghost use Rattle.json_tokens.specs.Kinds.{first_kind, DenotesToken};

use crate::piece::Piece;
use crate::token::{Token, TokenKind, TokenOf};
use json_doc::JsonType;
use json_value::View;

/// Returns the kind of the first token of a value.
pub(crate) fn view_kind(view: View<'_>) -> TokenKind
    ensures { result ≡ first_kind (seen view.entry) }
{
    match view.get_type() {
        JsonType::Null => TokenKind::Null,
        JsonType::Boolean => TokenKind::Bool,
        JsonType::Number => match view.as_number() {
            Some(_) => TokenKind::Int,
            None => TokenKind::Raw,
        },
        JsonType::String => TokenKind::Text,
        JsonType::Array => TokenKind::BeginArray,
        JsonType::Object => TokenKind::BeginObject,
    }
}

/// Returns the token of a value that is no array or object.
pub(crate) fn scalar_token<'a>(view: View<'a>) -> TokenOf<&'a str>
    ensures { (x : Tok) → tokens (seen view.entry) ≡ x ∷ [] → DenotesToken (λ s. s.now) result x }
{
    if let Some(number) = view.as_number() {
        return Token::Int(number);
    }
    if let Some(literal) = view.literal() {
        return Token::Raw(literal);
    }
    if let Some(text) = view.text() {
        return Token::Text(Piece::plain(text));
    }
    match view.as_bool() {
        Some(boolean) => Token::Bool(boolean),
        None => Token::Null,
    }
}
