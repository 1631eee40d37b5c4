// The containers that values are.
ghost use Rattle.std.specs.Prelude.{◌≡◌, Option, Some, IfSome, option_map, option_and_then};
ghost use Rattle.json_value.specs.Denotes.{list_in, pairs_in};
ghost use Rattle.json_value.specs.Seen.{list_of, object_pairs};
ghost use Rattle.json_value.specs.declared.value.Value.{Value, Array as ArrayValue, Object as ObjectValue};
ghost use Rattle.json_access.specs.Trees.{result_value};

use crate::value_trait::JsonValueTrait;
use json_value::{Array, Object, Value};

/// Methods to get the array or the object that a JSON value is: of a `Value`, of a reference to
/// one, or of an `Option` or a `Result` of these. They return `None` for `None` and `Err`.
///
/// ```
/// use json_access::JsonContainerTrait;
/// use json_value::Value;
/// let found = Some(Value::from_vec(vec![in alloc; Value::new_null()]?));
/// let array = found.as_array().ok_or("no array")?;
/// assert_eq!(rt; array.view().len(), 1);
/// assert!(rt; found.as_object().is_none());
/// ```
pub trait JsonContainerTrait: JsonValueTrait {
    /// The value itself; none for `None` and `Err`.
    ghost value_there: { Self → Option Value };

    /// Returns the array that the value is, or `None` if it is of another kind.
    fn as_array(&self) -> Option<&Array>
        ensures list { option_map (λ a. list_in a.now) result ≡ list_of (Self.tree self.now) }
        ensures array { IfSome result (λ a. value_there self.now ≡ Some (ArrayValue a.now)) };

    /// Returns the object that the value is, or `None` if it is of another kind.
    fn as_object(&self) -> Option<&Object>
        ensures pairs { option_map (λ o. pairs_in o.now) result
            ≡ object_pairs (Self.tree self.now) }
        ensures object { IfSome result (λ o. value_there self.now ≡ Some (ObjectValue o.now)) };
}

impl JsonContainerTrait for Value {
    ghost value_there = { λ v. Some v };

    fn as_array(&self) -> Option<&Array> {
        match self {
            Value::Array(array) => Some(array),
            _ => None,
        }
    }

    fn as_object(&self) -> Option<&Object> {
        match self {
            Value::Object(object) => Some(object),
            _ => None,
        }
    }
}

impl<V: JsonContainerTrait> JsonContainerTrait for &V {
    ghost value_there = { λ v. V.value_there v.now };

    fn as_array(&self) -> Option<&Array> {
        (**self).as_array()
    }

    fn as_object(&self) -> Option<&Object> {
        (**self).as_object()
    }
}

impl<V: JsonContainerTrait> JsonContainerTrait for Option<V> {
    ghost value_there = { option_and_then V.value_there };

    fn as_array(&self) -> Option<&Array> {
        match self {
            Some(value) => value.as_array(),
            None => None,
        }
    }

    fn as_object(&self) -> Option<&Object> {
        match self {
            Some(value) => value.as_object(),
            None => None,
        }
    }
}

impl<V: JsonContainerTrait, E> JsonContainerTrait for Result<V, E> {
    ghost value_there = { result_value V.value_there };

    fn as_array(&self) -> Option<&Array> {
        match self {
            Ok(value) => value.as_array(),
            Err(_) => None,
        }
    }

    fn as_object(&self) -> Option<&Object> {
        match self {
            Ok(value) => value.as_object(),
            Err(_) => None,
        }
    }
}
