// Maps.
ghost use Rattle.std.specs.Prelude.{[]};
ghost use Rattle.json_explain.specs.Refused.{map_reading, object_refused};

use crate::containers::{ExplainMembers, explain_members};
use crate::explain::{Explain, explain_key};
use crate::refusal::Refusal;
use json_data::{DeserializeFrom, FromKey};
use json_io::Result;
use json_tokens::{InputStr, Piece, Tokens, is_refusal};
use std::alloc::Global;
use std::collections::BTreeMap;
use std::marker::PhantomData;

// The members of a map. None is missing.
#[derive(Drop)]
struct Entries<K, V> {
    entry: PhantomData<(K, V)>,
}

impl<S: InputStr, K: FromKey<S> + Drop, V: Explain<S>> ExplainMembers<S> for Entries<K, V> {
    ghost reading = { map_reading K.from_text V.refused };

    ghost seen = { λ _. [] };

    fn member<T: Tokens<S>>(
        &mut self,
        alloc: Global,
        key: &Piece<S>,
        name: &str,
        tokens: &mut T,
    ) -> Result<Option<Refusal>> {
        let _ = name;
        match K::from_key(alloc, key) {
            Ok(_) => V::explain(alloc, tokens),
            Err(error) => {
                if !is_refusal(error.code) {
                    return Err(error);
                }
                explain_key(alloc, tokens, error.code)
            }
        }
    }

    fn missing(&self) -> Option<&str> {
        None
    }
}

impl<S: InputStr, K: FromKey<S> + Drop, V: Explain<S>> Explain<S> for BTreeMap<K, V> {
    ghost refused = { object_refused (map_reading K.from_text V.refused) [] };

    fn explain<T: Tokens<S>>(alloc: Global, tokens: &mut T) -> Result<Option<Refusal>> {
        let mut entries = Entries::<K, V> { entry: PhantomData };
        explain_members(alloc, &mut entries, tokens)
    }
}
