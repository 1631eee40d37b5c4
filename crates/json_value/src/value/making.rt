// Values of their own, and values from what is none yet.
ghost use Rattle.std.specs.Prelude.{◌≡◌, [], ◌∷◌, None, Some, map, IfOk, IfSome, ◌≤◌, false, is_some, option_map, unwrap_or};
ghost use Rattle.std.specs.Float.{float_is_finite};
ghost use Rattle.std.specs.Fmt.{decimal, signed_decimal};
ghost use Rattle.json_grammar.specs.Tree.{null, boolean, num, text, list, pairs as object, no_trees, no_pairs, list_trees};
ghost use Rattle.json_number.specs.Floats.{if_finite};
ghost use Rattle.json_number.specs.Literals.{raw_literal};
ghost use Rattle.json_number.specs.Numbers.{text_of_number};
ghost use Rattle.json_value.specs.Denotes.{tree_of, pair_of};
ghost use Rattle.json_value.specs.Doubles.{double_in};
ghost use Rattle.json_value.specs.Places.{places_in};
ghost use Rattle.json_value.specs.Rows.{owned};
ghost use Rattle.json_value.specs.Positions.{ContainerIsPlace};
ghost use Rattle.json_value.specs.declared.value.Value.{Array as ArrayValue, Null};
ghost use Rattle.std.specs.Char.{encode_utf8};
ghost use Rattle.json_value.specs.Made.{IsArrayOf, IsObjectOf};
ghost use Rattle.json_model.specs.Merged.{inserted_all};
ghost use Rattle.json_value.specs.Merged.{with_members};
ghost use Rattle.json_value.specs.Room.{room_in};
ghost use Rattle.json_value.specs.Steps.{tree_or_null};
ghost use Rattle.json_io.specs.Errors.{OnlyNoMemory};

use crate::container::{Container, Form};
use crate::literal::Literal;
use crate::pair::{Pair, put_pair};
use crate::text::{Text, TextForm};
use crate::value::Value;
use json_io::Result;
use json_number::{Number, RawNumber};
use std::alloc::Global;

impl Value {
    /// Creates the value null. Takes no memory.
    pub fn new() -> Value
        ensures { tree_of result ≡ null }
    {
        Value::Null
    }

    /// Creates the value null. Takes no memory.
    pub fn new_null() -> Value
        ensures { tree_of result ≡ null }
    {
        Value::Null
    }

    /// Creates the boolean `val`. Takes no memory.
    pub fn new_bool(val: bool) -> Value
        ensures { tree_of result ≡ boolean val }
    {
        Value::Bool(val)
    }

    /// Creates the number `val`. Takes no memory.
    pub fn new_u64(val: u64) -> Value
        ensures { tree_of result ≡ num (decimal val) }
    {
        Value::Number(Number::from(val))
    }

    /// Creates the number `val`. Takes no memory.
    pub fn new_i64(val: i64) -> Value
        ensures { tree_of result ≡ num (signed_decimal val) }
    {
        Value::Number(Number::from(val))
    }

    /// Creates a number whose nearest `f64` is `val`; the sign of zero is kept. Returns `None` for
    /// a NaN or an infinity, which no JSON number denotes (RFC 8259, section 6). Fails with
    /// `NoMemory` if memory runs out.
    ///
    /// ```
    /// use json_value::Value;
    /// let tenth = Value::new_f64(alloc, 0.1)?.ok_or("0.1 is finite")?;
    /// assert_eq!(rt; tenth.to_string(alloc)?.as_str(), "0.1");
    /// assert!(rt; Value::new_f64(alloc, f64::NAN)?.is_none());
    /// ```
    pub fn new_f64(alloc: Global, val: f64) -> Result<Option<Value>>
        ensures finite { IfOk result (λ o. is_some o ≡ float_is_finite val) }
        ensures double { IfOk result (λ o. IfSome o (λ v. double_in (tree_of v) ≡ Some val)) }
        ensures places { IfOk result (λ o. IfSome o (λ v. places_in v ≡ None ∷ [])) }
        ensures only { OnlyNoMemory result }
    {
        match RawNumber::from_f64(alloc, val)? {
            Some(number) => Ok(Some(Value::from_raw_number(number))),
            None => Ok(None),
        }
    }

    /// Creates a number whose nearest `f64` is `val`; the sign of zero is kept. Returns null for a
    /// NaN or an infinity, which no JSON number denotes (RFC 8259, section 6). Fails with
    /// `NoMemory` if memory runs out.
    ///
    /// ```
    /// use json_value::Value;
    /// assert_eq!(rt; Value::from_f64(alloc, -0.0)?.to_string(alloc)?.as_str(), "-0.0");
    /// assert_eq!(rt; Value::from_f64(alloc, f64::INFINITY)?, Value::new_null());
    /// ```
    pub fn from_f64(alloc: Global, val: f64) -> Result<Value>
        ensures double { IfOk result (λ v. double_in (tree_of v) ≡ if_finite val) }
        ensures null { float_is_finite val ≡ false → IfOk result (λ v. tree_of v ≡ null) }
        ensures places { IfOk result (λ v. places_in v ≡ None ∷ []) }
        ensures only { OnlyNoMemory result }
    {
        match Value::new_f64(alloc, val)? {
            Some(number) => Ok(number),
            None => Ok(Value::Null),
        }
    }

    /// Creates a number from the integer `n`. Takes no memory.
    pub fn from_number(n: Number) -> Value
        ensures { tree_of result ≡ num (text_of_number n) }
    {
        Value::Number(n)
    }

    /// Creates a number from the literal `n`. One that is an integer of `u64` or `i64` is kept by
    /// value, any other as its literal. Takes no memory.
    pub fn from_raw_number(n: RawNumber) -> Value
        ensures tree { tree_of result ≡ num (raw_literal n) }
        ensures places { places_in result ≡ None ∷ [] }
    {
        match n.to_number() {
            Some(integer) => Value::Number(integer),
            None => Value::Raw(Literal::new(n.into_string())),
        }
    }

    /// Creates an array without elements. Takes no memory.
    pub fn new_array() -> Value
        ensures tree { tree_of result ≡ list no_trees }
        ensures no_place { ContainerIsPlace result → ⊥ }
    {
        Value::Array(Container { form: Form::Empty })
    }

    /// Creates an object without members. Takes no memory.
    pub fn new_object() -> Value
        ensures tree { tree_of result ≡ object no_pairs }
        ensures no_place { ContainerIsPlace result → ⊥ }
    {
        Value::Object(Container { form: Form::Empty })
    }

    /// Creates the string `val`, which is not copied. Takes no memory.
    pub fn from_static_str(val: &'static str) -> Value
        ensures tree { tree_of result ≡ text val.now }
        ensures places { places_in result ≡ None ∷ [] }
    {
        Value::Text(Text::from_static(val))
    }

    /// Creates an array with the elements `items`. Takes no memory.
    pub fn from_vec(items: Vec<Value>) -> Value
        ensures tree { tree_of result ≡ list (list_trees (map tree_of items.items)) }
        ensures value { result ≡ ArrayValue (owned items) }
    {
        Value::Array(Container {
            form: Form::Owned(items),
        })
    }

    /// Creates a string with a copy of `val`. Fails with `NoMemory` if memory runs out.
    pub fn copy_str(alloc: Global, val: &str) -> Result<Value>
        ensures tree { IfOk result (λ v. tree_of v ≡ text val.now) }
        ensures places { IfOk result (λ v. places_in v ≡ None ∷ []) }
        ensures only { OnlyNoMemory result }
    {
        let copied = Text::copy(alloc, val)?;
        Ok(Value::Text(copied))
    }

    /// Returns the value in `v`, or null for `None`. Takes no memory.
    pub fn from_option(v: Option<Value>) -> Value
        ensures tree { tree_of result ≡ tree_or_null (option_map tree_of v) }
        ensures value { result ≡ unwrap_or v Null }
    {
        match v {
            Some(value) => value,
            None => Value::Null,
        }
    }

    /// Creates the value null, for the unit `()`. Takes no memory.
    pub fn from_unit() -> Value
        ensures { tree_of result ≡ null }
    {
        Value::Null
    }

    /// Creates a string with a copy of `val`, as [`Value::copy_str`] does. `val` is not parsed as a
    /// JSON text. Fails with `NoMemory` if memory runs out.
    pub fn from_str(alloc: Global, val: &str) -> Result<Value>
        ensures tree { IfOk result (λ v. tree_of v ≡ text val.now) }
        ensures places { IfOk result (λ v. places_in v ≡ None ∷ []) }
        ensures only { OnlyNoMemory result }
    {
        Value::copy_str(alloc, val)
    }

    /// Creates a string of the single character `c`. Fails with `NoMemory` if memory runs out.
    pub fn from_char(alloc: Global, c: char) -> Result<Value>
        ensures tree { IfOk result (λ v. tree_of v ≡ text (encode_utf8 c)) }
        ensures places { IfOk result (λ v. places_in v ≡ None ∷ []) }
        ensures only { OnlyNoMemory result }
    {
        let mut copied = String::new(alloc);
        copied.push(c)?;
        Ok(Value::Text(Text {
            form: TextForm::Copied(copied),
        }))
    }

    /// Creates an array without elements, with room for at least `capacity` elements before it
    /// allocates again. Fails with `NoMemory` if memory runs out.
    pub fn new_array_with(alloc: Global, capacity: usize) -> Result<Value>
        ensures tree { IfOk result (λ v. tree_of v ≡ list no_trees) }
        ensures no_place { IfOk result (λ v. ContainerIsPlace v → ⊥) }
        ensures room { IfOk result (λ v. capacity ≤ room_in v) }
        ensures only { OnlyNoMemory result }
    {
        let items = Vec::with_capacity(alloc, capacity)?;
        Ok(Value::Array(Container {
            form: Form::Owned(items),
        }))
    }

    /// Creates an object without members, with room for at least `capacity` members before it
    /// allocates again. Fails with `NoMemory` if memory runs out.
    pub fn new_object_with(alloc: Global, capacity: usize) -> Result<Value>
        ensures tree { IfOk result (λ v. tree_of v ≡ object no_pairs) }
        ensures no_place { IfOk result (λ v. ContainerIsPlace v → ⊥) }
        ensures room { IfOk result (λ v. capacity ≤ room_in v) }
        ensures only { OnlyNoMemory result }
    {
        let members = Vec::with_capacity(alloc, capacity)?;
        Ok(Value::Object(Container {
            form: Form::Owned(members),
        }))
    }

    /// Creates an array of clones of `items`; packed ones stay packed in the same document. Fails
    /// with `NoMemory` if memory runs out.
    pub fn from_slice_of(alloc: Global, items: &[Value]) -> Result<Value>
        ensures tree { IfOk result (λ v. tree_of v ≡ list (list_trees (map tree_of items.now))) }
        ensures places { IfOk result (IsArrayOf (λ vs. map places_in vs
            ≡ map places_in items.now)) }
        ensures only { OnlyNoMemory result }
    {
        let mut copies = Vec::with_capacity(alloc, items.len())?;
        for item in items {
            copies.push(item.clone(alloc)?)?;
        }
        Ok(Value::from_vec(copies))
    }

    /// Creates an object by inserting `pairs` one after another, from the first on. A pair with a
    /// new key is appended; one whose key is already there sets the value of that member. Fails
    /// with `NoMemory` if memory runs out.
    pub fn from_pairs(alloc: Global, pairs: Vec<Pair>) -> Result<Value>
        ensures tree { IfOk result (λ v. tree_of v
            ≡ object (inserted_all (map pair_of pairs.items) no_pairs)) }
        ensures members { IfOk result (IsObjectOf (λ ms. ms ≡ with_members pairs.items [])) }
        ensures only { OnlyNoMemory result }
    {
        let mut members = Vec::with_capacity(alloc, pairs.len())?;
        for pair in pairs {
            put_pair(&mut members, pair)?;
        }
        Ok(Value::Object(Container {
            form: Form::Owned(members),
        }))
    }
}
