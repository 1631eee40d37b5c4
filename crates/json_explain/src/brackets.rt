// Brackets of arrays and objects, and names.
ghost use Rattle.std.specs.Prelude.{◌≡◌, ◌≢◌, ℕ, List, None, Some, OnOk, IfOk, IfSome};
ghost use Rattle.json_grammar.specs.declared.Kind.TheVariants.{Object as object};
ghost use Rattle.json_grammar.specs.Tree.{Tree, Token as Tok, begin as begin_token, end as end_token, key_token};
ghost use Rattle.json_doc.specs.Readings.{type_of};
ghost use Rattle.json_tokens.specs.declared.token.TokenKind.TheVariants as TokenKind;
ghost use Rattle.json_tokens.specs.Kinds.{kind_of, first_kind};
ghost use Rattle.json_tokens.specs.Pieces.{Says};
ghost use Rattle.json_tokens.specs.ExpectedTokens.{InObject};
ghost use Rattle.json_tokens.specs.TokensStates.{NotWhole, WantsValue, TakesOne, TakesTree, TakesKeyPiece, FailsWithTokens};

use crate::kinds::type_of_token as type_of_kind;
use json_doc::JsonType;
use json_grammar::Kind;
use json_io::Result;
use json_tokens::{InputStr, Piece, Token, TokenKind, Tokens};

// Returns the kind of the token that opens an array or an object.
fn opening_kind(kind: Kind) -> TokenKind
    ensures { result ≡ kind_of (begin_token kind) }
{
    match kind {
        Kind::Array => TokenKind::BeginArray,
        Kind::Object => TokenKind::BeginObject,
    }
}

// Takes the bracket that opens a container of the kind. Another value is taken whole, and its kind is
// returned.
pub(crate) fn open_or_skip<S: InputStr, T: Tokens<S>>(
    tokens: &mut T,
    kind: Kind,
) -> Result<Option<JsonType>>
    requires { WantsValue (T.state tokens.old) }
    ensures begun { IfOk result (λ o. o ≡ None
        → TakesOne T.taken T.state tokens.old tokens.new (begin_token kind)) }
    ensures other { IfOk result (λ o. IfSome o (λ found_type.
        (t : Tree) × TakesTree T.taken T.state tokens.old tokens.new t
        × (first_kind t ≢ kind_of (begin_token kind)) × (type_of t ≡ found_type))) }
    ensures err { FailsWithTokens (T.state tokens.old) (T.state tokens.new) result }
{
    let next = tokens.peek()?;
    if next != opening_kind(kind) {
        tokens.skip()?;
        return Ok(Some(type_of_kind(next)));
    }
    let _begin = tokens.next()?;
    Ok(None)
}

// Takes the next token.
pub(crate) fn skip_next<S: InputStr, T: Tokens<S>>(tokens: &mut T) -> Result<()>
    requires { NotWhole (T.state tokens.old) }
    ensures ok { OnOk result ((x : Tok) × TakesOne T.taken T.state tokens.old tokens.new x) }
    ensures err { FailsWithTokens (T.state tokens.old) (T.state tokens.new) result }
{
    let _token = tokens.next()?;
    Ok(())
}

// Returns the next key.
fn read_next_key<S: InputStr, T: Tokens<S>>(tokens: &mut T) -> Result<Piece<S>>
    requires whole { NotWhole (T.state tokens.old) }
    requires peeked { (T.state tokens.old).peeked ≡ Some TokenKind.Key }
    ensures ok { IfOk result (λ p. (s : List ℕ) × Says s p.escaped (S.bytes p.text)
        × TakesOne T.taken T.state tokens.old tokens.new (key_token s)) }
    ensures err { FailsWithTokens (T.state tokens.old) (T.state tokens.new) result }
{
    match tokens.next()? {
        Token::Key(piece) => Ok(piece),
        _ => unreachable!(),
    }
}

// Returns the next name in an object, or `None` if the object ends, whose end is taken.
pub(crate) fn read_next_name<S: InputStr, T: Tokens<S>>(tokens: &mut T) -> Result<Option<Piece<S>>>
    requires { InObject (T.state tokens.old).expected }
    ensures name { IfOk result (λ r. IfSome r (λ p.
        TakesKeyPiece T.taken T.state
        (λ s. Says s p.escaped (S.bytes p.text)) tokens.old tokens.new)) }
    ensures end { IfOk result (λ r. r ≡ None
        → TakesOne T.taken T.state tokens.old tokens.new (end_token object)) }
    ensures err { FailsWithTokens (T.state tokens.old) (T.state tokens.new) result }
{
    if tokens.peek()? == TokenKind::EndObject {
        skip_next(tokens)?;
        return Ok(None);
    }
    let key = read_next_key(tokens)?;
    Ok(Some(key))
}
