// Tokens.
ghost use Rattle.std.specs.Prelude.{◌≡◌};
ghost use Rattle.json_grammar.specs.Tree.{begin as begin_token};
ghost use Rattle.json_tokens.specs.Kinds.{kind_of};

use crate::piece::Piece;
use json_grammar::Kind;
use json_number::Number;

/// A token of a JSON value. `N` is the type of an integer's value, `L` the type of a number's
/// literal, and `P` the type of strings and keys. [`TokenOf`] is the token that a source returns.
///
/// ```
/// use json_tokens::{TextTokens, Token, Tokens};
/// let mut tokens = TextTokens::new("[1.50]");
/// assert!(rt; matches!(tokens.next()?, Token::BeginArray));
/// assert!(rt; matches!(tokens.next()?, Token::Raw("1.50")));
/// assert!(rt; matches!(tokens.next()?, Token::EndArray));
/// ```
#[derive(Clone, Copy)]
pub enum Token<N, L, P> {
    /// `null`.
    Null,
    /// `true` or `false`.
    Bool(bool),
    /// An integer that is in `i64` or in `u64`, other than `-0`, by its value.
    Int(N),
    /// Every other number, by its literal: its text in the input.
    Raw(L),
    /// A string.
    Text(P),
    /// The key of a member, which comes before the tokens of its value.
    Key(P),
    /// The beginning of an array: `[`.
    BeginArray,
    /// The end of an array: `]`.
    EndArray,
    /// The beginning of an object: `{`.
    BeginObject,
    /// The end of an object: `}`.
    EndObject,
}

/// The tokens of a source that lends texts as `S`.
pub type TokenOf<S> = Token<Number, S, Piece<S>>;

/// The kind of a [`Token`], without what it holds.
///
/// ```
/// use json_tokens::{TextTokens, TokenKind, Tokens};
/// let mut tokens = TextTokens::new("null");
/// assert_eq!(rt; tokens.peek()?, TokenKind::Null);
/// ```
#[derive(Clone, Copy, PartialEq, Eq, Debug)]
pub enum TokenKind {
    /// `null`.
    Null,
    /// `true` or `false`.
    Bool,
    /// An integer that is in `i64` or in `u64`, other than `-0`.
    Int,
    /// Every other number.
    Raw,
    /// A string.
    Text,
    /// The key of a member.
    Key,
    /// The beginning of an array.
    BeginArray,
    /// The end of an array.
    EndArray,
    /// The beginning of an object.
    BeginObject,
    /// The end of an object.
    EndObject,
}

/// Returns the kind of the token that opens an array or an object: `BeginArray` or `BeginObject`.
#[inline(always)]
pub fn begin_kind(kind: Kind) -> TokenKind
    ensures { result ≡ kind_of (begin_token kind) }
{
    match kind {
        Kind::Array => TokenKind::BeginArray,
        Kind::Object => TokenKind::BeginObject,
    }
}
