// Values, arrays and objects.
ghost use Rattle.json_grammar.specs.Tree.{list, list_trees, pairs, list_pairs};
ghost use Rattle.json_value.specs.Denotes.{tree_of, list_in, pairs_in};
ghost use Rattle.json_value.specs.declared.value.Value.{Array as ArrayValue, Object as ObjectValue};
ghost use Rattle.json_data.specs.ReadingValues.{value_datum, read_value, read_array, read_object_value};

use crate::deserialize::DeserializeFrom;
use json_io::{ErrorCode, Result};
use json_tokens::{InputStr, TokenKind, Tokens, error_without_place};
use json_value::{Array, Object, Value};
use std::alloc::Global;

impl<S: InputStr> DeserializeFrom<S> for Value {
    ghost datum = { λ v. value_datum (tree_of v) };

    ghost from_tree = { read_value };

    ghost placed = { λ holds v. holds v };

    fn deserialize<T: Tokens<S>>(alloc: Global, tokens: &mut T) -> Result<Value> {
        tokens.value(alloc)
    }
}

impl<S: InputStr> DeserializeFrom<S> for Array {
    ghost datum = { λ a. value_datum (list (list_trees (list_in a))) };

    ghost from_tree = { read_array };

    ghost placed = { λ holds a. holds (ArrayValue a) };

    fn deserialize<T: Tokens<S>>(alloc: Global, tokens: &mut T) -> Result<Array> {
        if tokens.peek()? != TokenKind::BeginArray {
            tokens.skip()?;
            return Err(error_without_place(ErrorCode::TypeUnmatched));
        }
        match tokens.value(alloc)?.into_array() {
            Some(array) => Ok(array),
            None => unreachable!(),
        }
    }
}

impl<S: InputStr> DeserializeFrom<S> for Object {
    ghost datum = { λ o. value_datum (pairs (list_pairs (pairs_in o))) };

    ghost from_tree = { read_object_value };

    ghost placed = { λ holds o. holds (ObjectValue o) };

    fn deserialize<T: Tokens<S>>(alloc: Global, tokens: &mut T) -> Result<Object> {
        if tokens.peek()? != TokenKind::BeginObject {
            tokens.skip()?;
            return Err(error_without_place(ErrorCode::TypeUnmatched));
        }
        match tokens.value(alloc)?.into_object() {
            Some(object) => Ok(object),
            None => unreachable!(),
        }
    }
}
