// What can be read of a value at once.
ghost use Rattle.std.specs.Prelude.{◌≡◌, ◌↔◌, true, false, option_map, is_some, IsTrue, IfOk};
ghost use Rattle.json_grammar.specs.Tree.{Tree, boolean};
ghost use Rattle.json_number.specs.Floats.{is_double};
ghost use Rattle.json_number.specs.Literals.{raw_literal};
ghost use Rattle.json_number.specs.Numbers.{value_of};
ghost use Rattle.json_doc.specs.Readings.{type_of, bool_of, integer_in_tree, string_of};
ghost use Rattle.json_doc.specs.declared.json_type.JsonType.TheVariants as kind;
ghost use Rattle.json_value.specs.Denotes.{tree_of};
ghost use Rattle.json_value.specs.Doubles.{double_in};
ghost use Rattle.json_value.specs.Seen.{seen};
ghost use Rattle.json_access.specs.Trees.{option_tree, result_tree, spelling, i64_of, u64_of};
ghost use Rattle.json_io.specs.Errors.{OnlyNoMemory};

use crate::raw::raw_number;
use json_doc::JsonType;
use json_number::{JsonNumberTrait, Number, RawNumber};
use json_value::{Value, View};
use std::alloc::Global;

/// Methods to read a JSON value: of a `Value`, of a `View`, of a reference to one, or of an
/// `Option` or a `Result` of these. `None` and `Err` are read as null.
///
/// ```
/// use json_access::JsonValueTrait;
/// use json_value::Value;
/// let mut value = Value::new_object();
/// value.insert(alloc, "age", Value::new_i64(-7))?;
/// let age = value.get("age");
/// assert!(rt; age.is_number() && !age.is_u64());
/// assert_eq!(rt; age.as_i64(), Some(-7));
/// assert_eq!(rt; age.as_f64(), Some(-7.0));
/// assert!(rt; value.is_object() && value.get("name").is_null());
/// ```
pub trait JsonValueTrait {
    /// The tree that the value denotes.
    ghost tree: { Self → Tree };

    /// Returns the kind of the value: null, boolean, number, string, array or object.
    fn get_type(&self) -> JsonType
        ensures { result ≡ type_of (tree self.now) };

    /// Returns the boolean, or `None` if the value is of another kind.
    fn as_bool(&self) -> Option<bool>
        ensures { result ≡ bool_of (tree self.now) };

    /// Returns the characters of the string, unescaped, or `None` if the value is of another kind.
    fn as_str(&self) -> Option<&str>
        ensures { option_map (λ s. s.now) result ≡ string_of (tree self.now) };

    /// Returns the number if it is an integer of `u64` or `i64`, or `None` for any other number and
    /// for a value of another kind.
    fn as_number(&self) -> Option<Number>
        ensures { option_map value_of result ≡ integer_in_tree (tree self.now) };

    /// Returns a copy of the literal of the number, or `None` if the value is of another kind. That
    /// of an integer of `u64` or `i64` is its decimal text; any other literal is as it was written.
    /// Fails with `NoMemory` if memory runs out.
    fn as_raw_number(&self, alloc: Global) -> json_io::Result<Option<RawNumber>>
        ensures literal { IfOk result (λ o. option_map raw_literal o
            ≡ spelling (tree self.now)) }
        ensures only { OnlyNoMemory result };

    /// Returns the number if it is an integer of `i64`, or `None` for any other number and for a
    /// value of another kind.
    fn as_i64(&self) -> Option<i64>
        ensures { result ≡ i64_of (tree self.now) }
    {
        match self.as_number() {
            Some(number) => number.as_i64(),
            None => None,
        }
    }

    /// Returns the number if it is an integer of `u64`, or `None` for any other number and for a
    /// value of another kind.
    fn as_u64(&self) -> Option<u64>
        ensures { result ≡ u64_of (tree self.now) }
    {
        match self.as_number() {
            Some(number) => number.as_u64(),
            None => None,
        }
    }

    /// Returns whether the value is an integer of `i64`.
    fn is_i64(&self) -> bool
        ensures { result ≡ is_some (i64_of (tree self.now)) }
    {
        self.as_i64().is_some()
    }

    /// Returns whether the value is an integer of `u64`.
    fn is_u64(&self) -> bool
        ensures { result ≡ is_some (u64_of (tree self.now)) }
    {
        self.as_u64().is_some()
    }

    /// Returns the `f64` nearest to the number, with ties to even. Returns `None` if that is not
    /// finite, or if the value is of another kind.
    fn as_f64(&self) -> Option<f64>
        ensures { result ≡ double_in (tree self.now) };

    /// Returns whether the value is a number that is no integer of `u64` or `i64`, and whose
    /// nearest `f64` is finite.
    fn is_f64(&self) -> bool
        ensures { result ≡ is_double (integer_in_tree (tree self.now)) (double_in (tree self.now)) }
    {
        !self.is_i64() && !self.is_u64() && self.as_f64().is_some()
    }

    /// Returns whether the value is null, also for `None` and `Err`.
    fn is_null(&self) -> bool
        ensures { IsTrue result ↔ (type_of (tree self.now) ≡ kind.Null) }
    {
        self.get_type() == JsonType::Null
    }

    /// Returns whether the value is a boolean.
    fn is_boolean(&self) -> bool
        ensures { IsTrue result ↔ (type_of (tree self.now) ≡ kind.Boolean) }
    {
        self.get_type() == JsonType::Boolean
    }

    /// Returns whether the value is the boolean true.
    fn is_true(&self) -> bool
        ensures { IsTrue result ↔ (tree self.now ≡ boolean true) }
    {
        self.as_bool() == Some(true)
    }

    /// Returns whether the value is the boolean false.
    fn is_false(&self) -> bool
        ensures { IsTrue result ↔ (tree self.now ≡ boolean false) }
    {
        self.as_bool() == Some(false)
    }

    /// Returns whether the value is a number.
    fn is_number(&self) -> bool
        ensures { IsTrue result ↔ (type_of (tree self.now) ≡ kind.Number) }
    {
        self.get_type() == JsonType::Number
    }

    /// Returns whether the value is a string.
    fn is_str(&self) -> bool
        ensures { IsTrue result ↔ (type_of (tree self.now) ≡ kind.String) }
    {
        self.get_type() == JsonType::String
    }

    /// Returns whether the value is an array.
    fn is_array(&self) -> bool
        ensures { IsTrue result ↔ (type_of (tree self.now) ≡ kind.Array) }
    {
        self.get_type() == JsonType::Array
    }

    /// Returns whether the value is an object.
    fn is_object(&self) -> bool
        ensures { IsTrue result ↔ (type_of (tree self.now) ≡ kind.Object) }
    {
        self.get_type() == JsonType::Object
    }
}

impl<'a> JsonValueTrait for View<'a> {
    ghost tree = { seen };

    fn get_type(&self) -> JsonType {
        let view = *self;
        view.get_type()
    }

    fn as_bool(&self) -> Option<bool> {
        let view = *self;
        view.as_bool()
    }

    fn as_str(&self) -> Option<&str> {
        let view = *self;
        view.text()
    }

    fn as_number(&self) -> Option<Number> {
        let view = *self;
        view.as_number()
    }

    fn as_f64(&self) -> Option<f64> {
        let view = *self;
        view.as_f64()
    }

    fn as_raw_number(&self, alloc: Global) -> json_io::Result<Option<RawNumber>> {
        raw_number(*self, alloc)
    }
}

impl JsonValueTrait for Value {
    ghost tree = { tree_of };

    fn get_type(&self) -> JsonType {
        let view = self.view();
        view.get_type()
    }

    fn as_bool(&self) -> Option<bool> {
        let view = self.view();
        view.as_bool()
    }

    fn as_str(&self) -> Option<&str> {
        let view = self.view();
        view.text()
    }

    fn as_number(&self) -> Option<Number> {
        let view = self.view();
        view.as_number()
    }

    fn as_f64(&self) -> Option<f64> {
        let view = self.view();
        view.as_f64()
    }

    fn as_raw_number(&self, alloc: Global) -> json_io::Result<Option<RawNumber>> {
        raw_number(self.view(), alloc)
    }
}

impl<V: JsonValueTrait> JsonValueTrait for &V {
    ghost tree = { λ v. V.tree v.now };

    fn get_type(&self) -> JsonType {
        (**self).get_type()
    }

    fn as_bool(&self) -> Option<bool> {
        (**self).as_bool()
    }

    fn as_str(&self) -> Option<&str> {
        (**self).as_str()
    }

    fn as_number(&self) -> Option<Number> {
        (**self).as_number()
    }

    fn as_f64(&self) -> Option<f64> {
        (**self).as_f64()
    }

    fn as_raw_number(&self, alloc: Global) -> json_io::Result<Option<RawNumber>> {
        (**self).as_raw_number(alloc)
    }
}

impl<V: JsonValueTrait> JsonValueTrait for Option<V> {
    ghost tree = { option_tree V.tree };

    fn get_type(&self) -> JsonType {
        match self {
            Some(value) => value.get_type(),
            None => JsonType::Null,
        }
    }

    fn as_bool(&self) -> Option<bool> {
        match self {
            Some(value) => value.as_bool(),
            None => None,
        }
    }

    fn as_str(&self) -> Option<&str> {
        match self {
            Some(value) => value.as_str(),
            None => None,
        }
    }

    fn as_number(&self) -> Option<Number> {
        match self {
            Some(value) => value.as_number(),
            None => None,
        }
    }

    fn as_f64(&self) -> Option<f64> {
        match self {
            Some(value) => value.as_f64(),
            None => None,
        }
    }

    fn as_raw_number(&self, alloc: Global) -> json_io::Result<Option<RawNumber>> {
        match self {
            Some(value) => value.as_raw_number(alloc),
            None => Ok(None),
        }
    }
}

impl<V: JsonValueTrait, E> JsonValueTrait for Result<V, E> {
    ghost tree = { result_tree V.tree };

    fn get_type(&self) -> JsonType {
        match self {
            Ok(value) => value.get_type(),
            Err(_) => JsonType::Null,
        }
    }

    fn as_bool(&self) -> Option<bool> {
        match self {
            Ok(value) => value.as_bool(),
            Err(_) => None,
        }
    }

    fn as_str(&self) -> Option<&str> {
        match self {
            Ok(value) => value.as_str(),
            Err(_) => None,
        }
    }

    fn as_number(&self) -> Option<Number> {
        match self {
            Ok(value) => value.as_number(),
            Err(_) => None,
        }
    }

    fn as_f64(&self) -> Option<f64> {
        match self {
            Ok(value) => value.as_f64(),
            Err(_) => None,
        }
    }

    fn as_raw_number(&self, alloc: Global) -> json_io::Result<Option<RawNumber>> {
        match self {
            Ok(value) => value.as_raw_number(alloc),
            Err(_) => Ok(None),
        }
    }
}
