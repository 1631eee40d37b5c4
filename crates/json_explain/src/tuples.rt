// Tuples: arrays of a fixed number of elements.
ghost use Rattle.std.specs.Prelude.{◌≡◌, ◌≢◌, ◌≤◌, ◌+◌, List, [], ◌∷◌, length, Option, true, false, IfOk};
ghost use Rattle.json_grammar.specs.declared.Kind.TheVariants.{Array as array};
ghost use Rattle.json_grammar.specs.Tree.{Tree, end as end_token};
ghost use Rattle.json_data.specs.Reader.{GivesUpOnErr};
ghost use Rattle.json_tokens.specs.declared.token.TokenKind.{TokenKind as TokenKindOf};
ghost use Rattle.json_tokens.specs.declared.token.TokenKind.TheVariants as TokenKind;
ghost use Rattle.json_tokens.specs.ExpectedTokens.{InArray};
ghost use Rattle.json_tokens.specs.TokensStates.{WantsValue, TakesOne, TakesTokens, Peeks, FailsWithTokens};
ghost use Rattle.json_explain.specs.Refused.{Refused, tuple_refused};
ghost use Rattle.json_explain.specs.declared.refusal.Wanted.TheVariants as Wanted;
ghost use Rattle.json_explain.specs.Explaining.{ExplainsTree, ExplainsElements, refused_in};

use crate::brackets::{open_or_skip, skip_next};
use crate::containers::{leave_within, mismatch};
use crate::explain::Explain;
use crate::refusal::{Refusal, Step, Wanted};
use json_doc::JsonType;
use json_grammar::Kind;
use json_io::Result;
use json_tokens::{InputStr, TokenKind, Tokens};
use std::alloc::Global;

// Returns whether the array ends here. If so, its end is taken; otherwise nothing is.
fn take_end<S: InputStr, T: Tokens<S>>(tokens: &mut T) -> Result<bool>
    requires { InArray (T.state tokens.old).expected }
    ensures ends { IfOk result (λ b. b ≡ true
        → TakesOne T.taken T.state tokens.old tokens.new (end_token array)) }
    ensures goes_on { IfOk result (λ b. b ≡ false
        → (k : TokenKindOf) × Peeks (T.state tokens.old) (T.state tokens.new) k
        × (k ≢ TokenKind.EndArray) × TakesTokens T.taken tokens.old [] tokens.new) }
    ensures err { FailsWithTokens (T.state tokens.old) (T.state tokens.new) result }
{
    if tokens.peek()? == TokenKind::EndArray {
        skip_next(tokens)?;
        return Ok(true);
    }
    Ok(false)
}

/// The types of the last elements of a tuple: a pair of one type and the types after it, or `()`
/// where there are none. No value of them is made.
trait ExplainElements<S: InputStr> {
    /// Where and why each of the elements is refused.
    ghost refusals: { List (Tree → Option Refused) };

    /// Takes the elements that are left of the innermost open array, and its end. Returns where
    /// and why the first of them is refused, as seen from the array, or a refusal of the array
    /// itself if it has fewer or more elements. Returns `None` if neither is refused. `index` is
    /// the index of the first element that is left, and `wanted` is what a refusal of the array
    /// says was wanted. Fails as the source of tokens does, or with `NoMemory` if memory runs out.
    fn explain<T: Tokens<S>>(
        alloc: Global,
        tokens: &mut T,
        index: usize,
        wanted: Wanted,
    ) -> Result<Option<Refusal>>
        requires turn { InArray (T.state tokens.old).expected }
        requires few { index + length refusals ≤ 8 }
        ensures ok { IfOk result (λ o. ExplainsElements T.taken T.state wanted refusals index
            tokens.old tokens.new (refused_in o)) }
        ensures err { GivesUpOnErr (T.state tokens.old) (T.state tokens.new) result };
}

impl<S: InputStr> ExplainElements<S> for () {
    ghost refusals = { [] };

    fn explain<T: Tokens<S>>(
        alloc: Global,
        tokens: &mut T,
        index: usize,
        wanted: Wanted,
    ) -> Result<Option<Refusal>> {
        let _ = index;
        match take_end(tokens) {
            Ok(false) => {}
            Ok(true) => return Ok(None),
            Err(error) => return Err(error),
        }
        match tokens.leave() {
            Ok(()) => Ok(Some(mismatch(alloc, wanted, JsonType::Array))),
            Err(error) => Err(error),
        }
    }
}

impl<S: InputStr, A: Explain<S>, R: ExplainElements<S>> ExplainElements<S> for (A, R) {
    ghost refusals = { A.refused ∷ R.refusals };

    fn explain<T: Tokens<S>>(
        alloc: Global,
        tokens: &mut T,
        index: usize,
        wanted: Wanted,
    ) -> Result<Option<Refusal>> {
        match take_end(tokens) {
            Ok(false) => {}
            Ok(true) => return Ok(Some(mismatch(alloc, wanted, JsonType::Array))),
            Err(error) => return Err(error),
        }
        match A::explain(alloc, tokens) {
            Ok(None) => {}
            Ok(Some(refused)) => return leave_within(tokens, refused, Step::Index(index)),
            Err(error) => return Err(error),
        }
        R::explain(alloc, tokens, index + 1, wanted)
    }
}

// Takes the next value, and returns where and why it is refused as an array of these elements, or
// `None` if it is not. `wanted` is what a refusal of the array says was wanted. Fails as the source
// of tokens does, or with `NoMemory` if memory runs out.
fn explain_tuple<S: InputStr, P: ExplainElements<S>, T: Tokens<S>>(
    alloc: Global,
    tokens: &mut T,
    wanted: Wanted,
) -> Result<Option<Refusal>>
    requires turn { WantsValue (T.state tokens.old) }
    requires few { length P.refusals ≤ 8 }
    ensures ok { IfOk result (λ o. ExplainsTree T.taken T.state (tuple_refused wanted P.refusals)
        tokens.old tokens.new (refused_in o)) }
    ensures err { GivesUpOnErr (T.state tokens.old) (T.state tokens.new) result }
{
    match open_or_skip(tokens, Kind::Array) {
        Ok(None) => P::explain(alloc, tokens, 0, wanted),
        Ok(Some(found_type)) => Ok(Some(mismatch(alloc, wanted, found_type))),
        Err(error) => Err(error),
    }
}

impl<S: InputStr, A: Explain<S>, B: Explain<S>> Explain<S> for (A, B) {
    ghost refused = { tuple_refused (Wanted.Tuple 2) (A.refused ∷ B.refused ∷ []) };

    fn explain<T: Tokens<S>>(alloc: Global, tokens: &mut T) -> Result<Option<Refusal>> {
        explain_tuple::<S, (A, (B, ())), T>(alloc, tokens, Wanted::Tuple(2))
    }
}

impl<S: InputStr, A: Explain<S>, B: Explain<S>, C: Explain<S>> Explain<S> for (A, B, C) {
    ghost refused = { tuple_refused (Wanted.Tuple 3) (A.refused ∷ B.refused ∷ C.refused ∷ []) };

    fn explain<T: Tokens<S>>(alloc: Global, tokens: &mut T) -> Result<Option<Refusal>> {
        explain_tuple::<S, (A, (B, (C, ()))), T>(alloc, tokens, Wanted::Tuple(3))
    }
}

impl<S: InputStr, A: Explain<S>, B: Explain<S>, C: Explain<S>, D: Explain<S>> Explain<S>
    for (A, B, C, D) {
    ghost refused = { tuple_refused (Wanted.Tuple 4) (A.refused ∷ B.refused ∷ C.refused ∷ D.refused
        ∷ []) };

    fn explain<T: Tokens<S>>(alloc: Global, tokens: &mut T) -> Result<Option<Refusal>> {
        explain_tuple::<S, (A, (B, (C, (D, ())))), T>(alloc, tokens, Wanted::Tuple(4))
    }
}

impl<
    S: InputStr,
    A: Explain<S>,
    B: Explain<S>,
    C: Explain<S>,
    D: Explain<S>,
    E: Explain<S>,
> Explain<S> for (A, B, C, D, E) {
    ghost refused = { tuple_refused (Wanted.Tuple 5) (A.refused ∷ B.refused ∷ C.refused ∷ D.refused
        ∷ E.refused ∷ []) };

    fn explain<T: Tokens<S>>(alloc: Global, tokens: &mut T) -> Result<Option<Refusal>> {
        explain_tuple::<S, (A, (B, (C, (D, (E, ()))))), T>(alloc, tokens, Wanted::Tuple(5))
    }
}

impl<
    S: InputStr,
    A: Explain<S>,
    B: Explain<S>,
    C: Explain<S>,
    D: Explain<S>,
    E: Explain<S>,
    F: Explain<S>,
> Explain<S> for (A, B, C, D, E, F) {
    ghost refused = { tuple_refused (Wanted.Tuple 6) (A.refused ∷ B.refused ∷ C.refused ∷ D.refused
        ∷ E.refused ∷ F.refused ∷ []) };

    fn explain<T: Tokens<S>>(alloc: Global, tokens: &mut T) -> Result<Option<Refusal>> {
        explain_tuple::<S, (A, (B, (C, (D, (E, (F, ())))))), T>(alloc, tokens, Wanted::Tuple(6))
    }
}

impl<
    S: InputStr,
    A: Explain<S>,
    B: Explain<S>,
    C: Explain<S>,
    D: Explain<S>,
    E: Explain<S>,
    F: Explain<S>,
    G: Explain<S>,
> Explain<S> for (A, B, C, D, E, F, G) {
    ghost refused = { tuple_refused (Wanted.Tuple 7) (A.refused ∷ B.refused ∷ C.refused ∷ D.refused
        ∷ E.refused ∷ F.refused ∷ G.refused ∷ []) };

    fn explain<T: Tokens<S>>(alloc: Global, tokens: &mut T) -> Result<Option<Refusal>> {
        explain_tuple::<S, (A, (B, (C, (D, (E, (F, (G, ()))))))), T>(
            alloc,
            tokens,
            Wanted::Tuple(7),
        )
    }
}

impl<
    S: InputStr,
    A: Explain<S>,
    B: Explain<S>,
    C: Explain<S>,
    D: Explain<S>,
    E: Explain<S>,
    F: Explain<S>,
    G: Explain<S>,
    H: Explain<S>,
> Explain<S> for (A, B, C, D, E, F, G, H) {
    ghost refused = { tuple_refused (Wanted.Tuple 8) (A.refused ∷ B.refused ∷ C.refused ∷ D.refused
        ∷ E.refused ∷ F.refused ∷ G.refused ∷ H.refused ∷ []) };

    fn explain<T: Tokens<S>>(alloc: Global, tokens: &mut T) -> Result<Option<Refusal>> {
        explain_tuple::<S, (A, (B, (C, (D, (E, (F, (G, (H, ())))))))), T>(
            alloc,
            tokens,
            Wanted::Tuple(8),
        )
    }
}
