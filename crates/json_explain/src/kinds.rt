// The kinds of values, by their first tokens.
ghost use Rattle.std.specs.Prelude.{◌≡◌};
ghost use Rattle.json_grammar.specs.Tree.{Tree};
ghost use Rattle.json_doc.specs.Readings.{type_of as spec_type_of};
ghost use Rattle.json_tokens.specs.Kinds.{first_kind};

use json_doc::JsonType;
use json_tokens::TokenKind;

// Returns the JSON type of a value that begins with a token of this kind.
pub(crate) fn type_of_token(kind: TokenKind) -> JsonType
    ensures { (t : Tree) → first_kind t ≡ kind → spec_type_of t ≡ result }
{
    match kind {
        TokenKind::Null => JsonType::Null,
        TokenKind::Bool => JsonType::Boolean,
        TokenKind::Text | TokenKind::Key => JsonType::String,
        TokenKind::BeginArray | TokenKind::EndArray => JsonType::Array,
        TokenKind::BeginObject | TokenKind::EndObject => JsonType::Object,
        TokenKind::Int | TokenKind::Raw => JsonType::Number,
    }
}
