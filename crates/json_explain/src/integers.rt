// Integers.
ghost use Rattle.json_explain.specs.Refused.{whole_refused};
ghost use Rattle.json_explain.specs.declared.refusal.Wanted.TheVariants as wanted;

use crate::explain::{Explain, explain_whole};
use crate::refusal::{Refusal, Wanted};
use json_data::DeserializeFrom;
use json_io::Result;
use json_tokens::{InputStr, Tokens};
use std::alloc::Global;

impl<S: InputStr> Explain<S> for u8 {
    ghost refused = { whole_refused ⟦<u8 as DeserializeFrom<S>>⟧.from_tree wanted.U8 };

    fn explain<T: Tokens<S>>(alloc: Global, tokens: &mut T) -> Result<Option<Refusal>> {
        explain_whole::<S, u8, T>(alloc, tokens, Wanted::U8)
    }
}

impl<S: InputStr> Explain<S> for u16 {
    ghost refused = { whole_refused ⟦<u16 as DeserializeFrom<S>>⟧.from_tree wanted.U16 };

    fn explain<T: Tokens<S>>(alloc: Global, tokens: &mut T) -> Result<Option<Refusal>> {
        explain_whole::<S, u16, T>(alloc, tokens, Wanted::U16)
    }
}

impl<S: InputStr> Explain<S> for u32 {
    ghost refused = { whole_refused ⟦<u32 as DeserializeFrom<S>>⟧.from_tree wanted.U32 };

    fn explain<T: Tokens<S>>(alloc: Global, tokens: &mut T) -> Result<Option<Refusal>> {
        explain_whole::<S, u32, T>(alloc, tokens, Wanted::U32)
    }
}

impl<S: InputStr> Explain<S> for u64 {
    ghost refused = { whole_refused ⟦<u64 as DeserializeFrom<S>>⟧.from_tree wanted.U64 };

    fn explain<T: Tokens<S>>(alloc: Global, tokens: &mut T) -> Result<Option<Refusal>> {
        explain_whole::<S, u64, T>(alloc, tokens, Wanted::U64)
    }
}

impl<S: InputStr> Explain<S> for usize {
    ghost refused = { whole_refused ⟦<usize as DeserializeFrom<S>>⟧.from_tree wanted.U64 };

    fn explain<T: Tokens<S>>(alloc: Global, tokens: &mut T) -> Result<Option<Refusal>> {
        explain_whole::<S, usize, T>(alloc, tokens, Wanted::U64)
    }
}

impl<S: InputStr> Explain<S> for u128 {
    ghost refused = { whole_refused ⟦<u128 as DeserializeFrom<S>>⟧.from_tree wanted.U128 };

    fn explain<T: Tokens<S>>(alloc: Global, tokens: &mut T) -> Result<Option<Refusal>> {
        explain_whole::<S, u128, T>(alloc, tokens, Wanted::U128)
    }
}

impl<S: InputStr> Explain<S> for i8 {
    ghost refused = { whole_refused ⟦<i8 as DeserializeFrom<S>>⟧.from_tree wanted.I8 };

    fn explain<T: Tokens<S>>(alloc: Global, tokens: &mut T) -> Result<Option<Refusal>> {
        explain_whole::<S, i8, T>(alloc, tokens, Wanted::I8)
    }
}

impl<S: InputStr> Explain<S> for i16 {
    ghost refused = { whole_refused ⟦<i16 as DeserializeFrom<S>>⟧.from_tree wanted.I16 };

    fn explain<T: Tokens<S>>(alloc: Global, tokens: &mut T) -> Result<Option<Refusal>> {
        explain_whole::<S, i16, T>(alloc, tokens, Wanted::I16)
    }
}

impl<S: InputStr> Explain<S> for i32 {
    ghost refused = { whole_refused ⟦<i32 as DeserializeFrom<S>>⟧.from_tree wanted.I32 };

    fn explain<T: Tokens<S>>(alloc: Global, tokens: &mut T) -> Result<Option<Refusal>> {
        explain_whole::<S, i32, T>(alloc, tokens, Wanted::I32)
    }
}

impl<S: InputStr> Explain<S> for i64 {
    ghost refused = { whole_refused ⟦<i64 as DeserializeFrom<S>>⟧.from_tree wanted.I64 };

    fn explain<T: Tokens<S>>(alloc: Global, tokens: &mut T) -> Result<Option<Refusal>> {
        explain_whole::<S, i64, T>(alloc, tokens, Wanted::I64)
    }
}

impl<S: InputStr> Explain<S> for isize {
    ghost refused = { whole_refused ⟦<isize as DeserializeFrom<S>>⟧.from_tree wanted.I64 };

    fn explain<T: Tokens<S>>(alloc: Global, tokens: &mut T) -> Result<Option<Refusal>> {
        explain_whole::<S, isize, T>(alloc, tokens, Wanted::I64)
    }
}

impl<S: InputStr> Explain<S> for i128 {
    ghost refused = { whole_refused ⟦<i128 as DeserializeFrom<S>>⟧.from_tree wanted.I128 };

    fn explain<T: Tokens<S>>(alloc: Global, tokens: &mut T) -> Result<Option<Refusal>> {
        explain_whole::<S, i128, T>(alloc, tokens, Wanted::I128)
    }
}
