// Floats.
ghost use Rattle.json_explain.specs.Refused.{whole_refused};
ghost use Rattle.json_explain.specs.declared.refusal.Wanted.TheVariants as wanted;

use crate::explain::{Explain, explain_whole};
use crate::refusal::{Refusal, Wanted};
use json_data::DeserializeFrom;
use json_io::Result;
use json_tokens::{InputStr, Tokens};
use std::alloc::Global;

impl<S: InputStr> Explain<S> for f32 {
    ghost refused = { whole_refused ⟦<f32 as DeserializeFrom<S>>⟧.from_tree wanted.F32 };

    fn explain<T: Tokens<S>>(alloc: Global, tokens: &mut T) -> Result<Option<Refusal>> {
        explain_whole::<S, f32, T>(alloc, tokens, Wanted::F32)
    }
}

impl<S: InputStr> Explain<S> for f64 {
    ghost refused = { whole_refused ⟦<f64 as DeserializeFrom<S>>⟧.from_tree wanted.F64 };

    fn explain<T: Tokens<S>>(alloc: Global, tokens: &mut T) -> Result<Option<Refusal>> {
        explain_whole::<S, f64, T>(alloc, tokens, Wanted::F64)
    }
}
