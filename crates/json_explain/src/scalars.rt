// Values without parts.
ghost use Rattle.json_explain.specs.Refused.{whole_refused};
ghost use Rattle.json_explain.specs.declared.refusal.Wanted.TheVariants as wanted;

use crate::explain::{Explain, explain_whole};
use crate::refusal::{Refusal, Wanted};
use json_data::{DeserializeFrom, IgnoredAny};
use json_io::Result;
use json_number::{Number, RawNumber};
use json_tokens::{InputStr, Tokens};
use json_value::{Array, Edit, Object, Path, Value};
use std::alloc::Global;
use std::borrow::CowStr;

impl<S: InputStr> Explain<S> for bool {
    ghost refused = { whole_refused ⟦<bool as DeserializeFrom<S>>⟧.from_tree wanted.Boolean };

    fn explain<T: Tokens<S>>(alloc: Global, tokens: &mut T) -> Result<Option<Refusal>> {
        explain_whole::<S, bool, T>(alloc, tokens, Wanted::Boolean)
    }
}

impl<S: InputStr> Explain<S> for () {
    ghost refused = { whole_refused ⟦<() as DeserializeFrom<S>>⟧.from_tree wanted.Null };

    fn explain<T: Tokens<S>>(alloc: Global, tokens: &mut T) -> Result<Option<Refusal>> {
        explain_whole::<S, (), T>(alloc, tokens, Wanted::Null)
    }
}

impl<S: InputStr> Explain<S> for char {
    ghost refused = { whole_refused ⟦<char as DeserializeFrom<S>>⟧.from_tree wanted.Character };

    fn explain<T: Tokens<S>>(alloc: Global, tokens: &mut T) -> Result<Option<Refusal>> {
        explain_whole::<S, char, T>(alloc, tokens, Wanted::Character)
    }
}

impl<S: InputStr> Explain<S> for String {
    ghost refused = { whole_refused ⟦<String as DeserializeFrom<S>>⟧.from_tree wanted.String };

    fn explain<T: Tokens<S>>(alloc: Global, tokens: &mut T) -> Result<Option<Refusal>> {
        explain_whole::<S, String, T>(alloc, tokens, Wanted::String)
    }
}

impl<S: InputStr> Explain<S> for IgnoredAny {
    ghost refused = { whole_refused ⟦<IgnoredAny as DeserializeFrom<S>>⟧.from_tree wanted.Other };

    fn explain<T: Tokens<S>>(alloc: Global, tokens: &mut T) -> Result<Option<Refusal>> {
        explain_whole::<S, IgnoredAny, T>(alloc, tokens, Wanted::Other)
    }
}

impl<S: InputStr> Explain<S> for Number {
    ghost refused = { whole_refused ⟦<Number as DeserializeFrom<S>>⟧.from_tree wanted.Number };

    fn explain<T: Tokens<S>>(alloc: Global, tokens: &mut T) -> Result<Option<Refusal>> {
        explain_whole::<S, Number, T>(alloc, tokens, Wanted::Number)
    }
}

impl<S: InputStr> Explain<S> for RawNumber {
    ghost refused = { whole_refused ⟦<RawNumber as DeserializeFrom<S>>⟧.from_tree wanted.Literal };

    fn explain<T: Tokens<S>>(alloc: Global, tokens: &mut T) -> Result<Option<Refusal>> {
        explain_whole::<S, RawNumber, T>(alloc, tokens, Wanted::Literal)
    }
}

impl<S: InputStr> Explain<S> for Value {
    ghost refused = { whole_refused ⟦<Value as DeserializeFrom<S>>⟧.from_tree wanted.Other };

    fn explain<T: Tokens<S>>(alloc: Global, tokens: &mut T) -> Result<Option<Refusal>> {
        explain_whole::<S, Value, T>(alloc, tokens, Wanted::Other)
    }
}

impl<S: InputStr> Explain<S> for Array {
    ghost refused = { whole_refused ⟦<Array as DeserializeFrom<S>>⟧.from_tree wanted.Array };

    fn explain<T: Tokens<S>>(alloc: Global, tokens: &mut T) -> Result<Option<Refusal>> {
        explain_whole::<S, Array, T>(alloc, tokens, Wanted::Array)
    }
}

impl<S: InputStr> Explain<S> for Object {
    ghost refused = { whole_refused ⟦<Object as DeserializeFrom<S>>⟧.from_tree wanted.Object };

    fn explain<T: Tokens<S>>(alloc: Global, tokens: &mut T) -> Result<Option<Refusal>> {
        explain_whole::<S, Object, T>(alloc, tokens, Wanted::Object)
    }
}

impl<S: InputStr> Explain<S> for Path {
    ghost refused = { whole_refused ⟦<Path as DeserializeFrom<S>>⟧.from_tree wanted.Path };

    fn explain<T: Tokens<S>>(alloc: Global, tokens: &mut T) -> Result<Option<Refusal>> {
        explain_whole::<S, Path, T>(alloc, tokens, Wanted::Path)
    }
}

impl<S: InputStr> Explain<S> for Edit {
    ghost refused = { whole_refused ⟦<Edit as DeserializeFrom<S>>⟧.from_tree wanted.Edit };

    fn explain<T: Tokens<S>>(alloc: Global, tokens: &mut T) -> Result<Option<Refusal>> {
        explain_whole::<S, Edit, T>(alloc, tokens, Wanted::Edit)
    }
}

impl<'de> Explain<&'de str> for CowStr<'de> {
    ghost refused = { whole_refused ⟦<CowStr<'de> as DeserializeFrom<&'de str>>⟧.from_tree wanted.String };

    fn explain<T: Tokens<&'de str>>(alloc: Global, tokens: &mut T) -> Result<Option<Refusal>> {
        explain_whole::<&'de str, CowStr<'de>, T>(alloc, tokens, Wanted::String)
    }
}
