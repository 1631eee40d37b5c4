// What may be missing.
ghost use Rattle.json_explain.specs.Refused.{option_refused};

use crate::explain::Explain;
use crate::refusal::Refusal;
use json_io::Result;
use json_tokens::{InputStr, TokenKind, Tokens};
use std::alloc::Global;

impl<S: InputStr, V: Explain<S>> Explain<S> for Option<V> {
    ghost refused = { option_refused V.refused };

    fn explain<T: Tokens<S>>(alloc: Global, tokens: &mut T) -> Result<Option<Refusal>> {
        if tokens.peek()? == TokenKind::Null {
            tokens.skip()?;
            return Ok(None);
        }
        V::explain(alloc, tokens)
    }
}
