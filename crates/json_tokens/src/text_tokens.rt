// The tokens of a text.
ghost use Rattle.std.specs.Prelude.{◌≡◌, ◌≤◌, ◌^◌, length, List, [], true, false, None, OnOk, IfOk, IfErr, IfSome, IsSome, IsTrue, MatchOption};
ghost use Rattle.json_grammar.specs.Tree.{Tree, Token as Tok, tokens, depth};
ghost use Rattle.json_value.specs.Denotes.{tree_of};
ghost use Rattle.json_tokens.specs.Kinds.{DenotesToken};
ghost use Rattle.json_tokens.specs.TextValues.{IsPackedAtRoot};
ghost use Rattle.json_tokens.specs.ExpectedTokens.{IsOpen};
ghost use Rattle.json_grammar.specs.TokenStates.{state_in};
ghost use Rattle.json_tokens.specs.TokensStates.{NotWhole, WantsValue, TakesTokens, Peeks, TakesOne, TakesTree, Leaves, TokensFail, FailsWithTokens, ReturnsAgain};
ghost use Rattle.json_tokens.specs.Text.{IsFreshReader, text_taken, text_tokens_state, TextFails, HasFault, HasReadValue};
ghost use Rattle.json_tokens.specs.declared.token.TokenKind.{TokenKind as TokenKindOf};
ghost use Rattle.json_tokens.specs.declared.token.TokenKind.TheVariants as TokenKindAt;
ghost use Rattle.std.specs.Str.{IsCharBoundary};
ghost use Rattle.json_text.specs.Faults.{FaultFrom};
ghost use Rattle.json_text.specs.Parsing.{input};
ghost use Rattle.json_grammar.specs.Grammar.{is_text};

mod at_once;

use crate::ahead::{Ahead, read_ahead};
use crate::packed_value::packed_value;
use crate::piece::Piece;
use crate::token::{TokenKind, TokenOf};
use crate::tokens::Tokens;
use json_grammar::Kind;
use json_io::{Error, Result};
use json_text::{Event, Parser};
use json_value::Value;
use std::alloc::Global;
use std::marker::Model;

/// The tokens of the first value of a JSON text. What follows the value is not looked at, unless
/// [`TextTokens::finish`] is called.
///
/// ```
/// use json_tokens::{TextTokens, TokenKind, Tokens};
/// let mut tokens = TextTokens::new("[true] and the rest");
/// tokens.next()?;
/// assert_eq!(rt; tokens.peek()?, TokenKind::Bool);
/// tokens.skip()?;
/// assert_eq!(rt; tokens.peek()?, TokenKind::EndArray);
/// ```
#[derive(Drop)]
pub struct TextTokens<'a> {
    parser: Parser<'a>,
    // an event that was read and not taken yet
    ahead: Option<Ahead<'a>>,
    failed: Option<Error>,
}

impl<'a> Model for TextTokens<'a> {
    ghost use Rattle.std.specs.Prelude.{option_map};
    ghost use Rattle.json_tokens.specs.Text.{TextTokensState, IsReadingText};

    ghost Value = { TextTokensState };

    ghost view = { λ a. record {
      parser = a.parser;
      ahead = option_map (λ h. h.event) a.ahead;
      failed = a.failed;
    } };

    ghost invariant = { λ a. IsReadingText (record {
      parser = a.parser;
      ahead = option_map (λ h. h.event) a.ahead;
      failed = a.failed;
    }) };
}

impl<'a> TextTokens<'a> {
    /// Creates a source at the beginning of `text`. Arrays and objects may be nested in at most 254
    /// levels, unless [`TextTokens::depth`] sets another limit.
    pub fn new(text: &'a str) -> TextTokens<'a>
        ensures text { result.parser.text ≡ text.now }
        ensures start { (result.parser.start ≡ 0) × (result.parser.limit ≡ 254) }
        ensures strict { result.parser.lossy ≡ false }
        ensures fresh { IsFreshReader result }
    {
        TextTokens {
            parser: Parser::new(text),
            ahead: None,
            failed: None,
        }
    }

    /// Creates a source of the value at `index`, an offset in bytes at a character boundary of
    /// `text`. Arrays and objects may be nested in at most 254 levels. Errors have their places in
    /// the whole text.
    pub fn at(text: &'a str, index: usize) -> TextTokens<'a>
        requires { IsCharBoundary text.now index }
        ensures text { result.parser.text ≡ text.now }
        ensures start { (result.parser.start ≡ index) × (result.parser.limit ≡ 254) }
        ensures strict { result.parser.lossy ≡ false }
        ensures fresh { IsFreshReader result }
    {
        TextTokens {
            parser: Parser::at(text, index),
            ahead: None,
            failed: None,
        }
    }

    /// Returns the source with another limit: arrays and objects may be nested in at most `depth`
    /// levels, itself at most 1,024. Has to be called before any token is asked for.
    pub fn depth(self, depth: u32) -> TextTokens<'a>
        requires most { depth ≤ 1024 }
        requires fresh { IsFreshReader self }
        ensures text { result.parser.text ≡ self.entry.parser.text }
        ensures start { (result.parser.start ≡ self.entry.parser.start)
            × (result.parser.limit ≡ depth) }
        ensures mode { result.parser.lossy ≡ self.entry.parser.lossy }
        ensures fresh { IsFreshReader result }
    {
        TextTokens {
            parser: self.parser.depth(depth),
            ahead: None,
            failed: None,
        }
    }

    /// Returns the source in the lossy mode: an escape of a surrogate that is alone is no error,
    /// and is read as U+FFFD (RFC 8259, section 8.2). Has to be called before any token is asked
    /// for.
    pub fn lossy(self) -> TextTokens<'a>
        requires { IsFreshReader self }
        ensures text { result.parser.text ≡ self.entry.parser.text }
        ensures start { (result.parser.start ≡ self.entry.parser.start)
            × (result.parser.limit ≡ self.entry.parser.limit) }
        ensures mode { result.parser.lossy ≡ true }
        ensures fresh { IsFreshReader result }
    {
        TextTokens {
            parser: self.parser.lossy(),
            ahead: None,
            failed: None,
        }
    }

    /// Returns the error that a call returned, or `None` if none failed: `NoMemory`, or where and
    /// why the input is no valid JSON.
    pub fn failure(&self) -> Option<Error>
        ensures same { result ≡ self.now.failed }
        ensures cause { IfSome self.now.failed (TextFails self.now.parser) }
    {
        self.failed
    }

    /// Returns the offset right after the value, in bytes from the beginning of the text. All
    /// tokens of the value have to be taken.
    pub fn index(&self) -> usize
        requires over { (text_tokens_state self.now).expected ≡ state_in [] }
        requires peeked { (text_tokens_state self.now).peeked ≡ None }
        ensures same { result ≡ self.now.parser.index }
        ensures order { self.now.parser.start ≤ result }
        ensures read { HasReadValue self.now }
    {
        self.parser.index()
    }

    /// Checks that only whitespace follows the value; fails with the error of the text otherwise.
    /// All tokens of the value have to be taken.
    pub fn finish(self) -> Result<()>
        requires over { (text_tokens_state self).expected ≡ state_in [] }
        requires peeked { (text_tokens_state self).peeked ≡ None }
        ensures ok { OnOk result ((ts : List Tok) → text_taken self.entry ts
            → (t : Tree) × is_text self.entry.parser.lossy t (input self.entry.parser)
            × (ts ≡ tokens t) × (depth t ≤ self.entry.parser.limit)) }
        ensures err { IfErr result (λ e.
            FaultFrom self.entry.parser.lossy self.entry.parser.limit self.entry.parser.start
            self.entry.parser.text e.code e.place) }
    {
        let mut parser = self.parser;
        parser.end()
    }

    /// Returns the error that was returned in place of a token.
    #[inline(always)]
    fn kept_error(&self) -> Error
        requires { IsSome self.now.failed }
        ensures { self.now.failed ≡ Some result }
    {
        match self.failed {
            Some(error) => error,
            None => unreachable!(),
        }
    }

    /// Reads the next event if none is waiting. Returns whether one is waiting then; otherwise it
    /// failed.
    #[inline(never)]
    fn read(&mut self) -> bool
        requires whole { NotWhole (text_tokens_state self.old) }
        requires none { self.old.ahead ≡ None }
        requires unfailed { self.old.failed ≡ None }
        ensures ok { IsTrue result
            → (k : TokenKindOf) × Peeks (text_tokens_state self.old)
            (text_tokens_state self.new) k }
        ensures none { IsTrue result → TakesTokens text_taken self.old [] self.new }
        ensures unfailed { IsTrue result → self.new.failed ≡ None }
        ensures failed { result ≡ false → IsSome self.new.failed }
        ensures err { IfSome self.new.failed (λ e.
            TokensFail (text_tokens_state self.old) (text_tokens_state self.new) e) }
        ensures cause { IfSome self.new.failed (HasFault self.new.parser) }
    {
        match read_ahead(&mut self.parser) {
            Ok(event) => {
                self.ahead = Some(Ahead::new(event));
                true
            }
            Err(error) => {
                self.failed = Some(error);
                false
            }
        }
    }

    /// Returns the kind of the next token.
    #[inline(always)]
    fn look(&mut self) -> Result<TokenKind>
        requires { NotWhole (text_tokens_state self.old) }
        ensures ok { IfOk result
            (λ k. Peeks (text_tokens_state self.old) (text_tokens_state self.new) k) }
        ensures none { OnOk result (TakesTokens text_taken self.old [] self.new) }
        ensures unfailed { OnOk result (self.new.failed ≡ None) }
        ensures err { FailsWithTokens
            (text_tokens_state self.old) (text_tokens_state self.new) result }
        ensures cause { self.old.failed ≡ None → IfErr result (HasFault self.new.parser) }
        ensures again { ReturnsAgain self.old.failed result }
    {
        if self.failed.is_some() {
            return Err(self.kept_error());
        }
        if let Some(ahead) = self.ahead {
            return Ok(ahead.kind);
        }
        if !self.read() {
            return Err(self.kept_error());
        }
        match self.ahead {
            Some(ahead) => Ok(ahead.kind),
            None => unreachable!(),
        }
    }

    /// Takes the next token.
    #[inline(always)]
    fn take(&mut self) -> Result<TokenOf<&'a str>>
        requires { NotWhole (text_tokens_state self.old) }
        ensures ok { IfOk result (λ y. (x : Tok) × DenotesToken (λ s. s.now) y x
            × TakesOne text_taken text_tokens_state self.old self.new x) }
        ensures unfailed { OnOk result (self.new.failed ≡ None) }
        ensures err { FailsWithTokens
            (text_tokens_state self.old) (text_tokens_state self.new) result }
        ensures cause { self.old.failed ≡ None → IfErr result (HasFault self.new.parser) }
        ensures again { ReturnsAgain self.old.failed result }
    {
        self.look()?;
        match self.ahead {
            Some(ahead) => {
                self.ahead = None;
                Ok(ahead.token())
            }
            None => unreachable!(),
        }
    }

    /// Takes the tokens of one tree, and returns it as a value.
    fn keep(&mut self, alloc: Global) -> Result<Value>
        requires { WantsValue (text_tokens_state self.old) }
        ensures ok { IfOk result (λ v.
            TakesTree text_taken text_tokens_state self.old self.new (tree_of v)) }
        ensures place { IfOk result IsPackedAtRoot }
        ensures unfailed { OnOk result (self.new.failed ≡ None) }
        ensures err { FailsWithTokens
            (text_tokens_state self.old) (text_tokens_state self.new) result }
        ensures cause { self.old.failed ≡ None → IfErr result (TextFails self.new.parser) }
        ensures again { ReturnsAgain self.old.failed result }
    {
        self.look()?;
        let event = match self.ahead {
            Some(ahead) => ahead.event,
            None => unreachable!(),
        };
        self.ahead = None;
        match packed_value(alloc, &mut self.parser, event) {
            Ok(value) => Ok(value),
            Err(error) => {
                self.failed = Some(error);
                Err(error)
            }
        }
    }

    /// Takes what is left of the innermost open container.
    fn close(&mut self) -> Result<()>
        requires { IsOpen (text_tokens_state self.old).expected }
        ensures ok { OnOk result (Leaves text_taken text_tokens_state self.old self.new) }
        ensures unfailed { OnOk result (self.new.failed ≡ None) }
        ensures err { FailsWithTokens
            (text_tokens_state self.old) (text_tokens_state self.new) result }
        ensures cause { self.old.failed ≡ None → IfErr result (HasFault self.new.parser) }
        ensures again { ReturnsAgain self.old.failed result }
    {
        if let Some(error) = self.failed {
            return Err(error);
        }
        'rest: loop {
            let kind = self.look()?;
            self.take()?;
            match kind {
                TokenKind::EndArray | TokenKind::EndObject => return Ok(()),
                TokenKind::BeginArray | TokenKind::BeginObject => self.close()?,
                _ => {}
            }
        }
    }

    /// Takes the tokens of one tree.
    fn skip_tree(&mut self) -> Result<()>
        requires { WantsValue (text_tokens_state self.old) }
        ensures ok { OnOk result ((t : Tree)
            × TakesTree text_taken text_tokens_state self.old self.new t) }
        ensures unfailed { OnOk result (self.new.failed ≡ None) }
        ensures err { FailsWithTokens
            (text_tokens_state self.old) (text_tokens_state self.new) result }
        ensures cause { self.old.failed ≡ None → IfErr result (HasFault self.new.parser) }
        ensures again { ReturnsAgain self.old.failed result }
    {
        let kind = self.look()?;
        self.take()?;
        match kind {
            TokenKind::BeginArray | TokenKind::BeginObject => self.close(),
            _ => Ok(()),
        }
    }
}

/// Shows that a source over a text has always taken some list of tokens, maybe an empty one.
pub fn text_row_exists(tokens: &TextTokens<'_>)
    ensures { (ts : List Tok) × text_taken tokens.now ts }
{
    let _failed = tokens.failed;
}

impl<'a> Tokens<&'a str> for TextTokens<'a> {
    ghost taken = { text_taken };

    ghost state = { text_tokens_state };

    ghost causes = { λ s. HasFault s.parser };

    ghost placed = { λ _. IsPackedAtRoot };

    #[inline(always)]
    fn peek(&mut self) -> Result<TokenKind> {
        self.look()
    }

    #[inline(always)]
    fn next(&mut self) -> Result<TokenOf<&'a str>> {
        self.take()
    }

    // A container that has members is a place of a document of its own.
    fn value(&mut self, alloc: Global) -> Result<Value> {
        self.keep(alloc)
    }

    fn skip(&mut self) -> Result<()> {
        self.skip_tree()
    }

    fn leave(&mut self) -> Result<()> {
        self.close()
    }

    #[inline(always)]
    fn integer(&mut self, most: u64) -> Option<u64> {
        self.take_integer(most)
    }

    #[inline(always)]
    fn negative(&mut self, least: u64) -> Option<u64> {
        self.take_negative(least)
    }

    #[inline(always)]
    fn null(&mut self) -> bool {
        self.take_null()
    }

    #[inline(always)]
    fn boolean(&mut self) -> Option<bool> {
        self.take_boolean()
    }

    #[inline(always)]
    fn text(&mut self) -> Option<Piece<&'a str>> {
        self.take_text()
    }

    #[inline(always)]
    fn key(&mut self) -> Option<Piece<&'a str>> {
        self.take_key()
    }

    #[inline(always)]
    fn begins(&mut self, kind: Kind) -> bool {
        self.take_begin(kind)
    }

    #[inline(always)]
    fn ends(&mut self, kind: Kind) -> bool {
        self.take_end(kind)
    }
}
