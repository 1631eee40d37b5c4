// Arrays and objects, part by part.
ghost use Rattle.std.specs.Prelude.{◌≡◌, ℕ, List, Bool, Some, None, true, option_map, OnOk, IfOk, IfErr};
ghost use Rattle.json_grammar.specs.declared.Kind.TheVariants.{Array as array, Object as object};
ghost use Rattle.json_grammar.specs.Tree.{begin as begin_token};
ghost use Rattle.json_io.specs.Errors.{OnlyNoMemory};
ghost use Rattle.json_io.specs.declared.error.ErrorCode.TheVariants.{TypeUnmatched};
ghost use Rattle.json_tokens.specs.Pieces.{Says};
ghost use Rattle.json_data.specs.Reader.{GivesUp, GivesUpOnErr};
ghost use Rattle.json_tokens.specs.ExpectedTokens.{IsOpen, InArray, InObject};
ghost use Rattle.json_tokens.specs.TokensStates.{WantsValue, TakesOne, Leaves};
ghost use Rattle.json_explain.specs.Refused.{ObjectReading, lacks_member, list_refused, object_refused, refused_here, refused_within as spec_within};
ghost use Rattle.json_explain.specs.Explaining.{ExplainsTree, refused_in, refused_of, explained_step};

use crate::brackets::{open_or_skip, read_next_name, skip_next};
use crate::explain::Explain;
use crate::refusal::{Refusal, Step, Wanted};
use json_doc::JsonType;
use json_grammar::Kind;
use json_io::{ErrorCode, Result};
use json_tokens::{InputStr, Piece, TokenKind, Tokens, error_without_place};
use std::alloc::Global;

/// A type that takes the members of an object one after another, for [`explain_members`], and says
/// which of them is refused or missing.
///
/// ```
/// use json_data::{InputStr, TextTokens, Tokens};
/// use json_explain::{ExplainMembers, Piece, Refusal, explain_key, explain_members};
/// use json_text::ErrorCode;
/// #[derive(Drop)]
/// struct NoMembers(bool);
/// impl<S: InputStr> ExplainMembers<S> for NoMembers {
///     ghost use Rattle.std.specs.Prelude.{[], true};
///     ghost use Rattle.json_explain.specs.Refused.{struct_reading};
///     ghost reading = { struct_reading true [] };
///     ghost seen = { λ _. [] };
///     fn member<T: Tokens<S>>(
///         &mut self,
///         alloc: Global,
///         _: &Piece<S>,
///         _: &str,
///         tokens: &mut T,
///     ) -> json_text::Result<Option<Refusal>> {
///         explain_key(alloc, tokens, ErrorCode::TypeUnmatched)
///     }
///     fn missing(&self) -> Option<&str> {
///         None
///     }
/// }
/// let mut members = NoMembers(true);
/// let mut tokens = TextTokens::new("{\"a\": 1}");
/// let refusal = explain_members(alloc, &mut members, &mut tokens)?.ok_or("no refusal")?;
/// assert_eq!(rt; format!(in alloc; "{refusal}")?.as_str(), "/a");
/// ```
pub trait ExplainMembers<S: InputStr>: Sized {
    /// How a member of each name is read, and which member is missing at the end.
    ghost reading: { ObjectReading };

    /// Which of the fields had a member so far.
    ghost seen: { Self → List Bool };

    /// Takes the value of a member from `tokens`. Returns where and why it is refused, or `None` if
    /// it is accepted. `key` is the member's key as the source lends it, and `name` is the same key
    /// without escapes. Fails as the source of tokens does, or with `NoMemory` if memory runs out.
    fn member<T: Tokens<S>>(
        &mut self,
        alloc: Global,
        key: &Piece<S>,
        name: &str,
        tokens: &mut T,
    ) -> Result<Option<Refusal>>
        requires wants { WantsValue (T.state tokens.old) }
        requires says { Says name.now key.now.escaped (S.bytes key.now.text) }
        ensures ok { IfOk result (λ o. ExplainsTree T.taken T.state (reading.member name.now)
            tokens.old tokens.new (refused_in o)) }
        ensures seen { OnOk result (seen self.new ≡ reading.seen (seen self.old) name.now) }
        ensures err { GivesUpOnErr (T.state tokens.old) (T.state tokens.new) result };

    /// Returns the name of a member that is missing, once all members of the object were taken.
    /// Returns `None` if none is missing.
    fn missing(&self) -> Option<&str>
        ensures { option_map (λ s. s.now) result ≡ reading.missing (seen self.now) };
}

// Returns the refusal of an object in which a member is missing, or `None` if none is. Fails if
// memory runs out.
fn lacking(alloc: Global, member: Option<&str>) -> Result<Option<Refusal>>
    ensures ok { IfOk result (λ o. refused_in o ≡ option_map (λ s. lacks_member s.now) member.entry) }
    ensures only { OnlyNoMemory result }
{
    match member {
        Some(name) => {
            let refused = Refusal::lacks(alloc, name)?;
            Ok(Some(refused))
        }
        None => Ok(None),
    }
}

// Returns the refusal of a whole value of the type `found_type`, where another type was wanted.
pub(crate) fn mismatch(alloc: Global, wanted: Wanted, found_type: JsonType) -> Refusal
    ensures { refused_of result ≡ refused_here TypeUnmatched None (Some wanted) found_type }
{
    Refusal::here(alloc, ErrorCode::TypeUnmatched, wanted, found_type)
}

// Takes what is left of the innermost open container, and returns the refusal of a part of it as
// seen from the container.
pub(crate) fn leave_within<S: InputStr, T: Tokens<S>>(
    tokens: &mut T,
    refused: Refusal,
    step: Step,
) -> Result<Option<Refusal>>
    requires { IsOpen (T.state tokens.old).expected }
    ensures leaves { OnOk result (Leaves T.taken T.state tokens.old tokens.new) }
    ensures refused { IfOk result (λ o.
        refused_in o ≡ Some (spec_within (explained_step step) (refused_of refused))) }
    ensures err { GivesUpOnErr (T.state tokens.old) (T.state tokens.new) result }
{
    match tokens.leave() {
        Ok(()) => {}
        Err(error) => return Err(error),
    }
    match refused.within(step) {
        Ok(refused) => Ok(Some(refused)),
        Err(error) => Err(error),
    }
}

// Explains the elements of an array whose beginning was taken, and takes its end.
fn explain_elements<S: InputStr, V: Explain<S>, T: Tokens<S>>(
    alloc: Global,
    tokens: &mut T,
) -> Result<Option<Refusal>>
    requires { InArray (T.state tokens.old).expected }
    ensures ok { (a : T) → TakesOne T.taken T.state a tokens.old (begin_token array)
        → IfOk result (λ o. ExplainsTree T.taken T.state (list_refused V.refused) a tokens.new
        (refused_in o)) }
    ensures err { (a : T) → TakesOne T.taken T.state a tokens.old (begin_token array)
        → IfErr result (λ e. GivesUp (T.state a) (T.state tokens.new) e) }
{
    let mut index: usize = 0;
    'each: loop {
        let kind = match tokens.peek() {
            Ok(kind) => kind,
            Err(error) => return Err(error),
        };
        if kind == TokenKind::EndArray {
            match skip_next(tokens) {
                Ok(()) => return Ok(None),
                Err(error) => return Err(error),
            }
        }
        let refused = match V::explain(alloc, tokens) {
            Ok(refused) => refused,
            Err(error) => return Err(error),
        };
        if let Some(refused) = refused {
            return leave_within(tokens, refused, Step::Index(index));
        }
        index = match index.checked_add(1) {
            Some(next) => next,
            None => return Err(error_without_place(ErrorCode::NoMemory)),
        };
    }
}

// Explains the members of an object whose beginning was taken, and takes its end.
fn explain_rest<S: InputStr, M: ExplainMembers<S>, T: Tokens<S>>(
    alloc: Global,
    members: &mut M,
    tokens: &mut T,
) -> Result<Option<Refusal>>
    requires { InObject (T.state tokens.old).expected }
    ensures ok { (a : T) → TakesOne T.taken T.state a tokens.old (begin_token object)
        → IfOk result (λ o. ExplainsTree T.taken T.state
        (object_refused M.reading (M.seen members.old)) a tokens.new (refused_in o)) }
    ensures err { (a : T) → TakesOne T.taken T.state a tokens.old (begin_token object)
        → IfErr result (λ e. GivesUp (T.state a) (T.state tokens.new) e) }
{
    let mut index: usize = 0;
    'each: loop {
        let next = match read_next_name(tokens) {
            Ok(next) => next,
            Err(error) => return Err(error),
        };
        let key = match next {
            Some(key) => key,
            None => return lacking(alloc, members.missing()),
        };
        let name = match key.copy(alloc) {
            Ok(name) => name,
            Err(error) => return Err(error),
        };
        let refused = match members.member(alloc, &key, name.as_str(), tokens) {
            Ok(refused) => refused,
            Err(error) => return Err(error),
        };
        if let Some(refused) = refused {
            return leave_within(tokens, refused, Step::Key(name, index));
        }
        index = match index.checked_add(1) {
            Some(next) => next,
            None => return Err(error_without_place(ErrorCode::NoMemory)),
        };
    }
}

/// Takes the next value from `tokens` and passes the members of it to `members`. Returns where and
/// why it is refused: because it is no object, because of the first member that is refused, or
/// because a member is missing. Returns `None` if it is accepted. Fails as the source of tokens
/// does, or with `NoMemory` if memory runs out.
pub fn explain_members<S: InputStr, M: ExplainMembers<S>, T: Tokens<S>>(
    alloc: Global,
    members: &mut M,
    tokens: &mut T,
) -> Result<Option<Refusal>>
    requires { WantsValue (T.state tokens.old) }
    ensures ok { IfOk result (λ o. ExplainsTree T.taken T.state
        (object_refused M.reading (M.seen members.old)) tokens.old tokens.new (refused_in o)) }
    ensures err { GivesUpOnErr (T.state tokens.old) (T.state tokens.new) result }
{
    match open_or_skip(tokens, Kind::Object) {
        Ok(None) => explain_rest(alloc, members, tokens),
        Ok(Some(found_type)) => Ok(Some(mismatch(alloc, Wanted::Object, found_type))),
        Err(error) => Err(error),
    }
}

impl<S: InputStr, V: Explain<S>> Explain<S> for Vec<V> {
    ghost refused = { list_refused V.refused };

    fn explain<T: Tokens<S>>(alloc: Global, tokens: &mut T) -> Result<Option<Refusal>> {
        match open_or_skip(tokens, Kind::Array) {
            Ok(None) => explain_elements::<S, V, T>(alloc, tokens),
            Ok(Some(found_type)) => Ok(Some(mismatch(alloc, Wanted::Array, found_type))),
            Err(error) => Err(error),
        }
    }
}
