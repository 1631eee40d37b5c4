// Tokens that are taken at once, and those whose events wait.
ghost use Rattle.std.specs.Prelude.{◌≡◌, ◌<◌, ◌≤◌, ◌^◌, true, false, None, IfSome, IsSome, MatchOption};
ghost use Rattle.json_grammar.specs.Tree.{null, boolean, begin as begin_token, end as end_token};
ghost use Rattle.json_tokens.specs.TokensStates.{NotWhole, TakesOne, TakesTree, TakesInteger, TakesNegative, TakesText, TakesKeyPiece};
ghost use Rattle.json_tokens.specs.Pieces.{Says};
ghost use Rattle.json_tokens.specs.Text.{text_taken, text_tokens_state};

use crate::ahead::plain_piece;
use crate::piece::Piece;
use crate::text_tokens::TextTokens;
use crate::token::begin_kind;
use json_grammar::Kind;
use json_text::Event;

impl<'a> TextTokens<'a> {
    /// Returns whether no event waits and no error was returned.
    #[inline(always)]
    fn is_clear(&self) -> bool
        ensures ahead { result ≡ true → self.now.ahead ≡ None }
        ensures failed { result ≡ true → self.now.failed ≡ None }
    {
        self.ahead.is_none() && self.failed.is_none()
    }

    /// Takes the token that waits where it is a text.
    #[inline(always)]
    fn waiting_text(&mut self) -> Option<Piece<&'a str>>
        requires { NotWhole (text_tokens_state self.old) }
        ensures takes { MatchOption result (self.new ≡ self.old) (λ p.
            TakesText text_taken text_tokens_state
            (λ s. Says s p.escaped p.text.now) self.old self.new) }
        ensures unfailed { IsSome result → self.new.failed ≡ None }
        ensures again { IsSome self.old.failed → result ≡ None }
    {
        if self.failed.is_some() {
            return None;
        }
        let ahead = match self.ahead {
            Some(ahead) => ahead,
            None => return None,
        };
        match ahead.event {
            Event::Str(span) => {
                self.ahead = None;
                Some(plain_piece(span))
            }
            _ => None,
        }
    }

    /// Takes the token that waits where it is the bracket that opens a container of the kind.
    #[inline(always)]
    fn waiting_begin(&mut self, kind: Kind) -> bool
        requires { NotWhole (text_tokens_state self.old) }
        ensures begun { result ≡ true
            → TakesOne text_taken text_tokens_state self.old self.new (begin_token kind) }
        ensures kept { result ≡ false → self.new ≡ self.old }
        ensures unfailed { result ≡ true → self.new.failed ≡ None }
        ensures again { IsSome self.old.failed → result ≡ false }
    {
        if self.failed.is_some() {
            return false;
        }
        let ahead = match self.ahead {
            Some(ahead) => ahead,
            None => return false,
        };
        if ahead.kind != begin_kind(kind) {
            return false;
        }
        self.ahead = None;
        true
    }

    /// Takes the next token where it is an integer from 0 to `most`.
    #[inline(always)]
    pub(super) fn take_integer(&mut self, most: u64) -> Option<u64>
        requires { NotWhole (text_tokens_state self.old) }
        ensures most { IfSome result (λ n. n ≤ most) }
        ensures takes { MatchOption result (self.new ≡ self.old)
            (TakesInteger text_taken text_tokens_state self.old self.new) }
        ensures unfailed { IsSome result → self.new.failed ≡ None }
        ensures again { IsSome self.old.failed → result ≡ None }
    {
        if !self.is_clear() {
            return None;
        }
        if let Some(integer) = self.parser.next_integer(most) {
            return Some(integer.value);
        }
        None
    }

    /// Takes the next token where it is an integer below 0 of at most this magnitude.
    #[inline(always)]
    pub(super) fn take_negative(&mut self, least: u64) -> Option<u64>
        requires whole { NotWhole (text_tokens_state self.old) }
        requires fits { least ≤ 2 ^ 63 }
        ensures least { IfSome result (λ n. (0 < n) × (n ≤ least)) }
        ensures takes { MatchOption result (self.new ≡ self.old)
            (TakesNegative text_taken text_tokens_state self.old self.new) }
        ensures unfailed { IsSome result → self.new.failed ≡ None }
        ensures again { IsSome self.old.failed → result ≡ None }
    {
        if !self.is_clear() {
            return None;
        }
        if let Some(integer) = self.parser.next_negative(least) {
            return Some(integer.magnitude);
        }
        None
    }

    /// Takes the next token where it is `null`.
    #[inline(always)]
    pub(super) fn take_null(&mut self) -> bool
        requires { NotWhole (text_tokens_state self.old) }
        ensures takes { result ≡ true
            → TakesTree text_taken text_tokens_state self.old self.new null }
        ensures kept { result ≡ false → self.new ≡ self.old }
        ensures unfailed { result ≡ true → self.new.failed ≡ None }
        ensures again { IsSome self.old.failed → result ≡ false }
    {
        if !self.is_clear() {
            return false;
        }
        if self.parser.next_null() {
            return true;
        }
        false
    }

    /// Takes the next token where it is `true` or `false`.
    #[inline(always)]
    pub(super) fn take_boolean(&mut self) -> Option<bool>
        requires { NotWhole (text_tokens_state self.old) }
        ensures takes { MatchOption result (self.new ≡ self.old) (λ b.
            TakesTree text_taken text_tokens_state self.old self.new (boolean b)) }
        ensures unfailed { IsSome result → self.new.failed ≡ None }
        ensures again { IsSome self.old.failed → result ≡ None }
    {
        if !self.is_clear() {
            return None;
        }
        if let Some(b) = self.parser.next_bool() {
            return Some(b);
        }
        None
    }

    /// Takes the next token where it is a text.
    #[inline(always)]
    pub(super) fn take_text(&mut self) -> Option<Piece<&'a str>>
        requires { NotWhole (text_tokens_state self.old) }
        ensures takes { MatchOption result (self.new ≡ self.old) (λ p.
            TakesText text_taken text_tokens_state
            (λ s. Says s p.escaped p.text.now) self.old self.new) }
        ensures unfailed { IsSome result → self.new.failed ≡ None }
        ensures again { IsSome self.old.failed → result ≡ None }
    {
        if !self.is_clear() {
            return self.waiting_text();
        }
        if let Some(span) = self.parser.next_text() {
            return Some(plain_piece(span));
        }
        None
    }

    /// Takes the next token where it is a name.
    #[inline(always)]
    pub(super) fn take_key(&mut self) -> Option<Piece<&'a str>>
        requires { NotWhole (text_tokens_state self.old) }
        ensures takes { MatchOption result (self.new ≡ self.old) (λ p.
            TakesKeyPiece text_taken text_tokens_state
            (λ s. Says s p.escaped p.text.now) self.old self.new) }
        ensures unfailed { IsSome result → self.new.failed ≡ None }
        ensures again { IsSome self.old.failed → result ≡ None }
    {
        if !self.is_clear() {
            return None;
        }
        if let Some(span) = self.parser.next_key() {
            return Some(plain_piece(span));
        }
        None
    }

    /// Takes the next token where it is the bracket that opens a container of the kind.
    #[inline(always)]
    pub(super) fn take_begin(&mut self, kind: Kind) -> bool
        requires { NotWhole (text_tokens_state self.old) }
        ensures begun { result ≡ true
            → TakesOne text_taken text_tokens_state self.old self.new (begin_token kind) }
        ensures kept { result ≡ false → self.new ≡ self.old }
        ensures unfailed { result ≡ true → self.new.failed ≡ None }
        ensures again { IsSome self.old.failed → result ≡ false }
    {
        if !self.is_clear() {
            return self.waiting_begin(kind);
        }
        if self.parser.next_begin(kind) {
            return true;
        }
        false
    }

    /// Takes the next token where it is the bracket that closes a container of the kind.
    #[inline(always)]
    pub(super) fn take_end(&mut self, kind: Kind) -> bool
        requires { NotWhole (text_tokens_state self.old) }
        ensures ended { result ≡ true
            → TakesOne text_taken text_tokens_state self.old self.new (end_token kind) }
        ensures kept { result ≡ false → self.new ≡ self.old }
        ensures unfailed { result ≡ true → self.new.failed ≡ None }
        ensures again { IsSome self.old.failed → result ≡ false }
    {
        if !self.is_clear() {
            return false;
        }
        if self.parser.next_end(kind) {
            return true;
        }
        false
    }
}
