// Values whose refusals can be explained.
ghost use Rattle.std.specs.Prelude.{◌≡◌, Option, Some, true, IfOk};
ghost use Rattle.json_grammar.specs.Tree.{Tree};
ghost use Rattle.json_data.specs.Reader.{GivesUpOnErr};
ghost use Rattle.json_tokens.specs.TokensStates.{WantsValue};
ghost use Rattle.json_explain.specs.Refused.{Refused, refused_by_key, whole_refused};
ghost use Rattle.json_explain.specs.Explaining.{ExplainsTree, refused_in};

use crate::kinds::type_of_token;
use crate::refusal::{Refusal, Wanted};
use json_data::DeserializeFrom;
use json_io::{ErrorCode, Result};
use json_tokens::{InputStr, Tokens, is_refusal};
use std::alloc::Global;

/// A type that can say where and why a JSON value is refused because it is no value of the type, by
/// a [`Refusal`](crate::Refusal).
///
/// ```
/// use json_data::TextTokens;
/// use json_explain::Explain;
/// let mut tokens = TextTokens::new("[1, 300]");
/// let refusal = <Vec<u8> as Explain<&str>>::explain(alloc, &mut tokens)?.ok_or("no refusal")?;
/// assert_eq!(rt; format!(in alloc; "{refusal}")?.as_str(), "/1");
/// ```
///
/// `tools/make/derive` writes the impl of a struct. A type that refuses whole values alone needs
/// one call:
///
/// ```text
/// impl<S: InputStr> Explain<S> for Colour {
///     ghost refused = { whole_refused ⟦<Colour as DeserializeFrom<S>>⟧.from_tree wanted.String };
///
///     fn explain<T: Tokens<S>>(alloc: Global, tokens: &mut T) -> Result<Option<Refusal>> {
///         explain_whole::<S, Colour, T>(alloc, tokens, Wanted::String)
///     }
/// }
/// ```
pub trait Explain<S: InputStr>: DeserializeFrom<S> + Drop {
    /// Where and why reading a tree refuses it, or `None` if the tree is a value of the type.
    ghost refused: { Tree → Option Refused };

    /// Takes the next value, with all that is within it, from `tokens`. Returns where and why it is
    /// refused, or `None` if it is a value of the type. Fails as the source of tokens does, or with
    /// `NoMemory` if memory runs out.
    fn explain<T: Tokens<S>>(alloc: Global, tokens: &mut T) -> Result<Option<Refusal>>
        requires { WantsValue (T.state tokens.old) }
        ensures ok { IfOk result (λ o.
            ExplainsTree T.taken T.state refused tokens.old tokens.new (refused_in o)) }
        ensures err { GivesUpOnErr (T.state tokens.old) (T.state tokens.new) result };
}

/// Takes the next value from `tokens` and tries to read it as a `V`. Returns a refusal of the whole
/// value, or `None` if it is a `V`. `wanted` is what the refusal says was wanted.
///
/// This is all that [`Explain::explain`] has to do for a type whose values have no parts. Fails as
/// the source of tokens does, or with `NoMemory` if memory runs out.
pub fn explain_whole<S: InputStr, V: DeserializeFrom<S> + Drop, T: Tokens<S>>(
    alloc: Global,
    tokens: &mut T,
    wanted: Wanted,
) -> Result<Option<Refusal>>
    requires { WantsValue (T.state tokens.old) }
    ensures ok { IfOk result (λ o. ExplainsTree T.taken T.state (whole_refused V.from_tree wanted)
        tokens.old tokens.new (refused_in o)) }
    ensures err { GivesUpOnErr (T.state tokens.old) (T.state tokens.new) result }
{
    let kind = match tokens.peek() {
        Ok(kind) => kind,
        Err(error) => return Err(error),
    };
    match V::deserialize(alloc, tokens) {
        Ok(_) => Ok(None),
        Err(error) => {
            if is_refusal(error.code) {
                return Ok(Some(Refusal::here(alloc, error.code, wanted, type_of_token(kind))));
            }
            Err(error)
        }
    }
}

/// Takes the next value from `tokens`, which is the value of a member whose key is not accepted.
/// Returns a refusal whose error code is `code`; it is always `Some`. Fails as the source of tokens
/// does.
pub fn explain_key<S: InputStr, T: Tokens<S>>(
    alloc: Global,
    tokens: &mut T,
    code: ErrorCode,
) -> Result<Option<Refusal>>
    requires { WantsValue (T.state tokens.old) }
    ensures ok { IfOk result (λ o. ExplainsTree T.taken T.state (λ t. Some (refused_by_key code t))
        tokens.old tokens.new (refused_in o)) }
    ensures err { GivesUpOnErr (T.state tokens.old) (T.state tokens.new) result }
{
    let kind = match tokens.peek() {
        Ok(kind) => kind,
        Err(error) => return Err(error),
    };
    match tokens.skip() {
        Ok(()) => Ok(Some(Refusal::key(alloc, code, type_of_token(kind)))),
        Err(error) => Err(error),
    }
}
