// The tokens of a value.
ghost use Rattle.std.specs.Prelude.{◌≡◌, List, [], ◌∷◌, false, true, Some, None, OnOk, IfOk, IfErr, option_map};
ghost use Rattle.json_grammar.specs.Tree.{Token as Tok};
ghost use Rattle.json_io.specs.Errors.{no_memory};
ghost use Rattle.json_value.specs.Seen.{seen};
ghost use Rattle.json_value.specs.ViewTargets.{view_target};
ghost use Rattle.json_tokens.specs.Kinds.{DenotesToken};
ghost use Rattle.json_grammar.specs.TokenStates.{after_token};
ghost use Rattle.json_tokens.specs.TokensStates.{NotWhole};
ghost use Rattle.json_tokens.specs.Values.{Left, left_after_opening, value_state, value_taken, value_tokens_state, value_placed, next_target, at_begin, NoElement, SettlesNext, TakesTokensTo, Breaks};

use crate::level::Level;
use crate::piece::Piece;
use crate::refusals::error_without_place;
use crate::token::{Token, TokenKind, TokenOf};
use crate::tokens::Tokens;
use crate::view_tokens::{scalar_token, view_kind};
use json_doc::JsonType;
use json_io::{Error, ErrorCode, Result};
use json_value::{Value, View};
use std::alloc::Global;
use std::mem;

/// The tokens of a `Value`, given as a view of it. Its calls fail with `NoMemory` alone.
///
/// ```
/// use json_tokens::{Token, Tokens, ValueTokens};
/// use json_value::{Value, View};
/// let value = Value::Bool(true);
/// let mut tokens = ValueTokens::new(alloc, value.view());
/// assert!(rt; matches!(tokens.next()?, Token::Bool(true)));
/// ```
#[derive(Drop)]
pub struct ValueTokens<'a> {
    whole: View<'a>,
    // the next value, if it was reached
    next: Option<View<'a>>,
    // the innermost open container, and those around it, the outermost first
    inner: Level<'a>,
    outer: Vec<Level<'a>>,
    // whether the kind of the next token was returned
    peeked: bool,
    // whether memory ran out
    failed: bool,
}

impl<'a> ValueTokens<'a> {
    /// Creates a source at the beginning of the value that `view` shows. `alloc` is for the list of
    /// open arrays and objects.
    pub fn new(alloc: Global, view: View<'a>) -> ValueTokens<'a>
        ensures state { value_state result ≡ at_begin (seen view.entry) }
        ensures target { next_target result.next result.inner ≡ Some (view_target view.entry) }
        ensures taken { value_taken result [] }
    {
        ValueTokens {
            whole: view,
            next: Some(view),
            inner: Level::Root,
            outer: Vec::new(alloc),
            peeked: false,
            failed: false,
        }
    }

    // Reaches the next element, if one is left.
    fn reach_element(&mut self)
        ensures state { SettlesNext (value_state self.old) (value_state self.new) }
        ensures target { option_map view_target self.new.next
            ≡ next_target self.old.next self.old.inner }
    {
        if self.next.is_none() {
            self.next = self.inner.element();
        }
    }

    // Notes that memory ran out, and returns that error.
    fn exhaust(&mut self) -> Error
        ensures error { result ≡ no_memory }
        ensures failed { value_state self.new ≡ record (value_state self.old) { failed = true } }
    {
        self.failed = true;
        error_without_place(ErrorCode::NoMemory)
    }

    // Takes the first token of the next value, an array or object: what is left of it is `level`.
    fn enter(&mut self, level: Level<'a>) -> Result<()>
        ensures ok { let s = value_state self.old in OnOk result (value_state self.new
            ≡ record s {
              next = None;
              levels = left_after_opening level.entry s.levels;
              peeked = false;
            }) }
        ensures err { IfErr result (λ e. (e ≡ no_memory)
            × Breaks (value_state self.old) (value_state self.new)) }
    {
        let outer = mem::replace(&mut self.inner, level);
        match self.outer.push(outer) {
            Ok(()) => {
                self.next = None;
                self.peeked = false;
                Ok(())
            }
            Err(_) => Err(self.exhaust()),
        }
    }

    // Leaves the innermost open array or object.
    fn exit(&mut self)
        ensures state { let s = value_state self.old in (l : Left) (ls : List Left)
            → s.levels ≡ l ∷ ls
            → value_state self.new ≡ record s { next = None; levels = ls; peeked = false } }
        ensures failed { self.new.failed ≡ self.old.failed }
    {
        self.next = None;
        self.peeked = false;
        match self.outer.pop() {
            Some(level) => self.inner = level,
            None => self.inner = Level::Root,
        }
    }

    // Takes the first token of the next value.
    fn take_value(&mut self, view: View<'a>) -> Result<TokenOf<&'a str>>
        requires { (value_state self.old).next ≡ Some (seen view) }
        ensures ok { IfOk result (λ y. (x : Tok) × DenotesToken (λ s. s.now) y x
            × TakesTokensTo (value_state self.old) (value_state self.new) (x ∷ [])
            (after_token (value_tokens_state self.old).expected x)) }
        ensures err { IfErr result (λ e. (e ≡ no_memory)
            × Breaks (value_state self.old) (value_state self.new)) }
    {
        match view.get_type() {
            JsonType::Array => {
                self.enter(Level::elements(view))?;
                Ok(Token::BeginArray)
            }
            JsonType::Object => {
                self.enter(Level::members(view))?;
                Ok(Token::BeginObject)
            }
            _ => {
                self.next = None;
                self.peeked = false;
                Ok(scalar_token(view))
            }
        }
    }

    // Takes a key or the end of a container if no value is next.
    fn take_front(&mut self) -> TokenOf<&'a str>
        requires open { NotWhole (value_tokens_state self.old) }
        requires next { (value_state self.old).next ≡ None }
        requires reached { NoElement (value_state self.old).levels }
        ensures { (x : Tok) × DenotesToken (λ s. s.now) result x
            × TakesTokensTo (value_state self.old) (value_state self.new) (x ∷ [])
            (after_token (value_tokens_state self.old).expected x) }
    {
        let front = self.inner.front();
        if let Some((key, value)) = self.inner.member() {
            self.next = Some(value);
            self.peeked = false;
            return Token::Key(Piece::plain(key));
        }
        self.exit();
        if front == TokenKind::EndObject {
            Token::EndObject
        } else {
            Token::EndArray
        }
    }
}

impl<'a> Tokens<&'a str> for ValueTokens<'a> {
    ghost taken = { value_taken };

    ghost state = { value_tokens_state };

    ghost causes = { λ _ e. e ≡ no_memory };

    ghost placed = { value_placed };

    fn peek(&mut self) -> Result<TokenKind> {
        if self.failed {
            return Err(error_without_place(ErrorCode::NoMemory));
        }
        self.reach_element();
        self.peeked = true;
        match self.next {
            Some(view) => Ok(view_kind(view)),
            None => Ok(self.inner.front()),
        }
    }

    fn next(&mut self) -> Result<TokenOf<&'a str>> {
        if self.failed {
            return Err(error_without_place(ErrorCode::NoMemory));
        }
        self.reach_element();
        match self.next {
            Some(view) => self.take_value(view),
            None => Ok(self.take_front()),
        }
    }

    fn value(&mut self, alloc: Global) -> Result<Value> {
        if self.failed {
            return Err(error_without_place(ErrorCode::NoMemory));
        }
        self.reach_element();
        let view = match self.next {
            Some(view) => view,
            None => unreachable!(),
        };
        match view.to_value(alloc) {
            Ok(value) => {
                self.next = None;
                self.peeked = false;
                Ok(value)
            }
            Err(_) => Err(self.exhaust()),
        }
    }

    fn skip(&mut self) -> Result<()> {
        if self.failed {
            return Err(error_without_place(ErrorCode::NoMemory));
        }
        self.reach_element();
        self.next = None;
        self.peeked = false;
        Ok(())
    }

    fn leave(&mut self) -> Result<()> {
        if self.failed {
            return Err(error_without_place(ErrorCode::NoMemory));
        }
        self.exit();
        Ok(())
    }
}
