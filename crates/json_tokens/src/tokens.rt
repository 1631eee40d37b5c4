// Sources of tokens.
ghost use Rattle.std.specs.Prelude.{◌≡◌, ◌⊎◌, ℕ, ◌^◌, ◌<◌, List, [], Err, None, true, false, ◌≤◌, OnOk, IfOk, IfErr, IfSome, IsSome, MatchOption};
ghost use Rattle.json_grammar.specs.Tree.{Tree, null, boolean, Token as Tok, begin as begin_token, end as end_token};
ghost use Rattle.json_io.specs.declared.error.Error.{Error as ErrorOf};
ghost use Rattle.json_io.specs.Errors.{no_memory};
ghost use Rattle.json_value.specs.declared.value.Value.{Value as ValueOf};
ghost use Rattle.json_value.specs.Denotes.{tree_of};
ghost use Rattle.json_tokens.specs.Kinds.{DenotesToken};
ghost use Rattle.json_tokens.specs.ExpectedTokens.{IsOpen};
ghost use Rattle.json_tokens.specs.TokensStates.{TokensState, NotWhole, WantsValue, TakesTokens, Peeks, TakesOne, TakesTree, TakesInteger, TakesNegative, TakesText, TakesKeyPiece, Leaves, FailsWithTokens, FailsForCause};
ghost use Rattle.json_tokens.specs.Pieces.{Says};

use crate::input_str::InputStr;
use crate::piece::Piece;
use crate::token::{TokenKind, TokenOf};
use json_grammar::Kind;
use json_io::Result;
use json_value::Value;
use std::alloc::Global;

/// A source of tokens: returns the tokens of one JSON value from left to right, in one pass. `S` is
/// how it lends texts, `&'a str` for both sources of this crate.
///
/// A call takes tokens: the next call goes on after them. Errors are sticky: after a call has
/// failed, every later call returns the same error; those that return no `Result` take nothing.
/// [`Tokens::integer`] and all calls after it are fast paths, which a source need not have: each
/// may take nothing although such a token is next.
///
/// ```
/// use json_tokens::{TextTokens, Token, Tokens};
/// let mut tokens = TextTokens::new("{\"a\": [1, 2], \"b\": 3}");
/// assert!(rt; matches!(tokens.next()?, Token::BeginObject));
/// assert!(rt; tokens.key().is_some());
/// tokens.skip()?;
/// assert!(rt; matches!(tokens.next()?, Token::Key(key) if key.lent() == Some("b")));
/// assert_eq!(rt; tokens.integer(9), Some(3));
/// ```
pub trait Tokens<S: InputStr> {
    /// The tokens that were taken so far.
    ghost taken: { Self → List Tok → Type 0 };

    /// Which tokens may come next, whether the kind of the next one was asked for, and which error
    /// was returned.
    ghost state: { Self → TokensState };

    /// The errors with which calls without an allocator may fail.
    ghost causes: { Self → ErrorOf → Type 0 };

    /// Where the `Value` that [`Tokens::value`] returns is in a document.
    ghost placed: { Self → ValueOf → Type 0 };

    /// Returns the kind of the next token, and takes nothing. Fails if the input is no valid JSON
    /// up to there, or if memory runs out. After an error, fails with the same error again.
    fn peek(&mut self) -> Result<TokenKind>
        requires { NotWhole (state self.old) }
        ensures ok { IfOk result (λ k. Peeks (state self.old) (state self.new) k) }
        ensures none { OnOk result (TakesTokens taken self.old [] self.new) }
        ensures place { (v : ValueOf) → placed self.new v → placed self.old v }
        ensures unfailed { OnOk result ((state self.new).failed ≡ None) }
        ensures err { FailsWithTokens (state self.old) (state self.new) result }
        ensures cause { FailsForCause (state self.old) (causes self.new) result }
        ensures again { IfSome (state self.old).failed (λ e. result ≡ Err e) };

    /// Takes and returns the next token. Fails if the input is no valid JSON up to there, or if
    /// memory runs out. After an error, fails with the same error again.
    fn next(&mut self) -> Result<TokenOf<S>>
        requires { NotWhole (state self.old) }
        ensures ok { IfOk result (λ y. (x : Tok) × DenotesToken S.bytes y x
            × TakesOne taken state self.old self.new x) }
        ensures unfailed { OnOk result ((state self.new).failed ≡ None) }
        ensures err { FailsWithTokens (state self.old) (state self.new) result }
        ensures cause { FailsForCause (state self.old) (causes self.new) result }
        ensures again { IfSome (state self.old).failed (λ e. result ≡ Err e) };

    /// Takes the next value with all that is within it, and returns it as a `Value`, which keeps
    /// each member and the literal of each number. Fails as [`Tokens::next`] does, or with
    /// `NoMemory` if `alloc` has no memory.
    fn value(&mut self, alloc: Global) -> Result<Value>
        requires { WantsValue (state self.old) }
        ensures ok { IfOk result (λ v. TakesTree taken state self.old self.new (tree_of v)) }
        ensures place { IfOk result (placed self.old) }
        ensures unfailed { OnOk result ((state self.new).failed ≡ None) }
        ensures err { FailsWithTokens (state self.old) (state self.new) result }
        ensures cause { (state self.old).failed ≡ None
            → IfErr result (λ e. (e ≡ no_memory) ⊎ causes self.new e) }
        ensures again { IfSome (state self.old).failed (λ e. result ≡ Err e) };

    /// Takes the next value with all that is within it. Fails if the input is no valid JSON up to
    /// its end, or if memory runs out. After an error, fails with the same error again.
    fn skip(&mut self) -> Result<()>
        requires { WantsValue (state self.old) }
        ensures ok { OnOk result ((t : Tree) × TakesTree taken state self.old self.new t) }
        ensures unfailed { OnOk result ((state self.new).failed ≡ None) }
        ensures err { FailsWithTokens (state self.old) (state self.new) result }
        ensures cause { FailsForCause (state self.old) (causes self.new) result }
        ensures again { IfSome (state self.old).failed (λ e. result ≡ Err e) };

    /// Takes all that is left of the innermost open array or object, and its end. Fails if the
    /// input is no valid JSON up to there, or if memory runs out. After an error, fails with the
    /// same error again.
    fn leave(&mut self) -> Result<()>
        requires { IsOpen (state self.old).expected }
        ensures ok { OnOk result (Leaves taken state self.old self.new) }
        ensures unfailed { OnOk result ((state self.new).failed ≡ None) }
        ensures err { FailsWithTokens (state self.old) (state self.new) result }
        ensures cause { FailsForCause (state self.old) (causes self.new) result }
        ensures again { IfSome (state self.old).failed (λ e. result ≡ Err e) };

    /// Takes and returns the next token by a fast path if it is an integer from 0 to `most`.
    /// Otherwise returns `None` and takes nothing: `peek` and `next` still return that token.
    fn integer(&mut self, most: u64) -> Option<u64>
        requires { NotWhole (state self.old) }
        ensures most { IfSome result (λ n. n ≤ most) }
        ensures takes { MatchOption result (self.new ≡ self.old)
            (TakesInteger taken state self.old self.new) }
        ensures unfailed { IsSome result → (state self.new).failed ≡ None }
        ensures again { IsSome (state self.old).failed → result ≡ None }
    {
        let _ = most;
        None
    }

    /// Takes the next token by a fast path if it is an integer from `-least` to -1, and returns its
    /// magnitude, without the sign. `least` is at most 2^63. Otherwise returns `None` and takes
    /// nothing: `peek` and `next` still return that token.
    fn negative(&mut self, least: u64) -> Option<u64>
        requires whole { NotWhole (state self.old) }
        requires fits { least ≤ 2 ^ 63 }
        ensures least { IfSome result (λ n. (0 < n) × (n ≤ least)) }
        ensures takes { MatchOption result (self.new ≡ self.old)
            (TakesNegative taken state self.old self.new) }
        ensures unfailed { IsSome result → (state self.new).failed ≡ None }
        ensures again { IsSome (state self.old).failed → result ≡ None }
    {
        let _ = least;
        None
    }

    /// Takes the next token by a fast path if it is `null`, and returns true. Otherwise returns
    /// false and takes nothing.
    fn null(&mut self) -> bool
        requires { NotWhole (state self.old) }
        ensures takes { result ≡ true → TakesTree taken state self.old self.new null }
        ensures kept { result ≡ false → self.new ≡ self.old }
        ensures unfailed { result ≡ true → (state self.new).failed ≡ None }
        ensures again { IsSome (state self.old).failed → result ≡ false }
    {
        false
    }

    /// Takes and returns the next token by a fast path if it is `true` or `false`. Otherwise
    /// returns `None` and takes nothing.
    fn boolean(&mut self) -> Option<bool>
        requires { NotWhole (state self.old) }
        ensures takes { MatchOption result (self.new ≡ self.old) (λ b.
            TakesTree taken state self.old self.new (boolean b)) }
        ensures unfailed { IsSome result → (state self.new).failed ≡ None }
        ensures again { IsSome (state self.old).failed → result ≡ None }
    {
        None
    }

    /// Takes and returns the next token by a fast path if it is a string. Otherwise returns `None`
    /// and takes nothing.
    fn text(&mut self) -> Option<Piece<S>>
        requires { NotWhole (state self.old) }
        ensures takes { MatchOption result (self.new ≡ self.old) (λ p.
            TakesText taken state (λ s. Says s p.escaped (S.bytes p.text)) self.old self.new) }
        ensures unfailed { IsSome result → (state self.new).failed ≡ None }
        ensures again { IsSome (state self.old).failed → result ≡ None }
    {
        None
    }

    /// Takes and returns the next token by a fast path if it is the key of a member. Otherwise
    /// returns `None` and takes nothing.
    fn key(&mut self) -> Option<Piece<S>>
        requires { NotWhole (state self.old) }
        ensures takes { MatchOption result (self.new ≡ self.old) (λ p.
            TakesKeyPiece taken state (λ s. Says s p.escaped (S.bytes p.text)) self.old self.new) }
        ensures unfailed { IsSome result → (state self.new).failed ≡ None }
        ensures again { IsSome (state self.old).failed → result ≡ None }
    {
        None
    }

    /// Takes the next token by a fast path if it opens an array or object, as `kind` says, and
    /// returns true. Otherwise returns false and takes nothing.
    fn begins(&mut self, kind: Kind) -> bool
        requires { NotWhole (state self.old) }
        ensures begun { result ≡ true
            → TakesOne taken state self.old self.new (begin_token kind) }
        ensures kept { result ≡ false → self.new ≡ self.old }
        ensures unfailed { result ≡ true → (state self.new).failed ≡ None }
        ensures again { IsSome (state self.old).failed → result ≡ false }
    {
        let _ = kind;
        false
    }

    /// Takes the next token by a fast path if it closes an array or object, as `kind` says, and
    /// returns true. Otherwise returns false and takes nothing.
    fn ends(&mut self, kind: Kind) -> bool
        requires { NotWhole (state self.old) }
        ensures ended { result ≡ true → TakesOne taken state self.old self.new (end_token kind) }
        ensures kept { result ≡ false → self.new ≡ self.old }
        ensures unfailed { result ≡ true → (state self.new).failed ≡ None }
        ensures again { IsSome (state self.old).failed → result ≡ false }
    {
        let _ = kind;
        false
    }
}
