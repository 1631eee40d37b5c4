// Whether two values are the same.
ghost use Rattle.std.specs.Prelude.{◌≡◌, None, take, option_map, is_some, bytes_eq, map, length, IfSome};
ghost use Rattle.std.specs.List.{list_all, list_any};
ghost use Rattle.std.specs.Option.{option_eq};
ghost use Rattle.json_grammar.specs.Tree.{list, list_trees, pairs, list_pairs, boolean, num, text};
ghost use Rattle.json_doc.specs.Readings.{type_of};
ghost use Rattle.json_doc.specs.declared.json_type.JsonType.TheVariants as JsonType;
ghost use Rattle.json_model.specs.Same.{same};
ghost use Rattle.json_value.specs.SameMembers.{agree_at, keys_in, tree_of_array, tree_of_object};
ghost use Rattle.json_value.specs.Seen.{seen, elements_seen, members_seen, list_of, object_pairs, first_of};
ghost use Rattle.std.specs.Cmp.{partial_equiv_from_equiv, on_equiv};
ghost use Rattle.std.specs.Ordering.{on};
ghost use Rattle.std.specs.Fmt.{decimal, signed_decimal};
ghost use Rattle.json_model.proofs.Equality.{same_equivalent};
ghost use Rattle.json_number.specs.Numbers.{text_of_number};
ghost use Rattle.json_value.specs.Denotes.{tree_of};
ghost use Rattle.json_value.specs.Doubles.{double_in, equals_double};

use crate::array::Array;
use crate::array_view::{ArrayForm, ArrayView};
use crate::container::Container;
use crate::object::Object;
use crate::object_view::ObjectView;
use crate::pair::Keyed;
use crate::value::Value;
use crate::view::View;
use json_doc::JsonType;
use json_number::Number;

/// Two values are equal if they are of one kind and equal in content. Numbers are compared by their
/// literals, so 1 and 1.0 differ. Arrays are compared element by element. Objects are equal if they
/// have as many members and the first values of each key are equal; the order of the keys is
/// ignored.
///
/// Allocates nothing. If the keys of two objects are in different orders, the time grows with the
/// square of the number of members.
impl PartialEq for Value {
    ghost eq = { on tree_of same };

    ghost laws = { partial_equiv_from_equiv (on_equiv tree_of same_equivalent) };

    fn eq(&self, other: &Value) -> bool {
        are_same(self.view(), other.view())
    }
}

impl Eq for Value {
    ghost laws = { on_equiv tree_of same_equivalent };
}

/// Two arrays are equal if they are equal as values: element by element, in order.
impl PartialEq for Container<Value> {
    ghost eq = { on tree_of_array same };

    ghost laws = { partial_equiv_from_equiv (on_equiv tree_of_array same_equivalent) };

    fn eq(&self, other: &Array) -> bool {
        are_arrays_same(self.view(), other.view())
    }
}

impl Eq for Container<Value> {
    ghost laws = { on_equiv tree_of_array same_equivalent };
}

/// Two objects are equal if they are equal as values: with as many members and equal first values
/// of each key, in any order of the keys.
impl PartialEq for Container<Keyed<Value>> {
    ghost eq = { on tree_of_object same };

    ghost laws = { partial_equiv_from_equiv (on_equiv tree_of_object same_equivalent) };

    fn eq(&self, other: &Object) -> bool {
        are_objects_same(self.view(), other.view())
    }
}

impl Eq for Container<Keyed<Value>> {
    ghost laws = { on_equiv tree_of_object same_equivalent };
}

impl Value {
    /// Returns whether the value is the boolean `b`.
    pub fn eq_bool(&self, b: bool) -> bool
        ensures { result ≡ same (tree_of self.now) (boolean b) }
    {
        self.view().as_bool() == Some(b)
    }

    /// Returns whether the value is the number `n`, written as an integer: 1.0 is not the number 1.
    pub fn eq_i64(&self, n: i64) -> bool
        ensures { result ≡ same (tree_of self.now) (num (signed_decimal n)) }
    {
        self.eq_number(Number::from(n))
    }

    /// Returns whether the value is the number `n`, written as an integer: 1.0 is not the number 1.
    pub fn eq_u64(&self, n: u64) -> bool
        ensures { result ≡ same (tree_of self.now) (num (decimal n)) }
    {
        self.eq_number(Number::from(n))
    }

    /// Returns whether the value is a number whose nearest `f64` equals `x`, as `==` compares: 0.0
    /// equals -0.0, and nothing equals a NaN.
    pub fn eq_f64(&self, x: f64) -> bool
        ensures { result ≡ equals_double (double_in (tree_of self.now)) x }
    {
        match self.view().as_f64() {
            Some(double) => double == x,
            None => false,
        }
    }

    fn eq_number(&self, number: Number) -> bool
        ensures { result ≡ same (tree_of self.now) (num (text_of_number number)) }
    {
        self.view().as_number() == Some(number)
    }

    /// Returns whether the value is the string `s`.
    pub fn eq_str(&self, s: &str) -> bool
        ensures { result ≡ same (tree_of self.now) (text s.now) }
    {
        self.view().text() == Some(s)
    }

    /// Returns whether the value is an array whose elements equal `items`, in order.
    pub fn eq_slice(&self, items: &[Value]) -> bool
        ensures { result ≡ same (tree_of self.now) (list (list_trees (map tree_of items.now))) }
    {
        let elements = ArrayView {
            form: ArrayForm::Whole(items),
        };
        match self.view().as_array() {
            Some(array) => are_arrays_same(array, elements),
            None => false,
        }
    }
}

// Returns whether the viewed trees are the same.
#[cycle(same)]
pub(crate) fn are_same(first: View<'_>, second: View<'_>) -> bool
    ensures { result ≡ same (seen first.entry) (seen second.entry) }
{
    if let Some(array) = first.as_array() {
        return match second.as_array() {
            Some(other) => are_arrays_same(array, other),
            None => false,
        };
    }
    if let Some(object) = first.as_object() {
        return match second.as_object() {
            Some(other) => are_objects_same(object, other),
            None => false,
        };
    }
    are_scalars_same(first, second)
}

fn are_scalars_same(first: View<'_>, second: View<'_>) -> bool
    requires array { list_of (seen first) ≡ None }
    requires object { object_pairs (seen first) ≡ None }
    ensures { result ≡ same (seen first.entry) (seen second.entry) }
{
    match first.get_type() {
        JsonType::Null => second.get_type() == JsonType::Null,
        JsonType::Boolean => first.as_bool() == second.as_bool(),
        JsonType::Number => are_numbers_same(first, second),
        _ => first.text() == second.text(),
    }
}

// Of two integers of `u64` or `i64` the integers are compared, of other numbers the literals.
fn are_numbers_same(first: View<'_>, second: View<'_>) -> bool
    requires { type_of (seen first) ≡ JsonType.Number }
    ensures { result ≡ same (seen first.entry) (seen second.entry) }
{
    first.as_number() == second.as_number() && first.literal() == second.literal()
}

// Whether both are there and the same, or neither is there.
#[cycle(same)]
fn are_both_same(first: Option<View<'_>>, second: Option<View<'_>>) -> bool
    ensures { result ≡ option_eq same (option_map seen first.entry)
        (option_map seen second.entry) }
{
    match first {
        Some(first) => match second {
            Some(second) => are_same(first, second),
            None => false,
        },
        None => second.is_none(),
    }
}

#[cycle(same)]
pub(crate) fn are_arrays_same(first: ArrayView<'_>, second: ArrayView<'_>) -> bool
    ensures { result ≡ same (list (list_trees (elements_seen first.entry)))
        (list (list_trees (elements_seen second.entry))) }
{
    let len = first.len();
    if len != second.len() {
        return false;
    }
    let mut elements = first.iter();
    let mut others = second.iter();
    'elements: for step in 0..len {
        if !are_both_same(elements.next(), others.next()) {
            return false;
        }
    }
    true
}

#[cycle(same)]
pub(crate) fn are_objects_same(first: ObjectView<'_>, second: ObjectView<'_>) -> bool
    ensures { result ≡ same (pairs (list_pairs (members_seen first.entry)))
        (pairs (list_pairs (members_seen second.entry))) }
{
    if first.len() != second.len() {
        return false;
    }
    match are_members_same(first, second) {
        Some(answer) => answer,
        None => are_firsts_same(first, second) && has_keys(first, second),
    }
}

// Compares two objects of as many members, member by member. Returns `None` if that does not
// decide: if keys differ at some index, or if values differ after a key that came before.
#[cycle(same)]
fn are_members_same(first: ObjectView<'_>, second: ObjectView<'_>) -> Option<bool>
    requires { length (members_seen first) ≡ length (members_seen second) }
    ensures { let ps = members_seen first.entry in let qs = members_seen second.entry in
        IfSome result (λ b. b ≡ same (pairs (list_pairs ps)) (pairs (list_pairs qs))) }
{
    let mut members = first.iter();
    let mut others = second.iter();
    'members: for i in 0..first.len() {
        let Some((key, value)) = members.next() else {
            return None;
        };
        let Some((other_key, other_value)) = others.next() else {
            return None;
        };
        if key != other_key {
            return None;
        }
        if !are_same(value, other_value) {
            if has_before(first, i, key) {
                return None;
            }
            return Some(false);
        }
    }
    Some(true)
}

// Whether the first value of each key of the first is that of the second.
#[cycle(same)]
fn are_firsts_same(first: ObjectView<'_>, second: ObjectView<'_>) -> bool
    ensures { result ≡ list_all (agree_at (members_seen first.entry) (members_seen second.entry))
        (keys_in (members_seen first.entry)) }
{
    let mut members = first.iter();
    'members: for i in 0..first.len() {
        if let Some((key, value)) = members.next() {
            if !has_before(first, i, key) && !are_both_same(Some(value), second.get(key)) {
                return false;
            }
        }
    }
    true
}

// Whether a member before the member `end` has the key.
fn has_before(object: ObjectView<'_>, end: usize, key: &str) -> bool
    ensures { result ≡ list_any (λ k. bytes_eq k key.now)
        (take end (keys_in (members_seen object.entry))) }
{
    let mut members = object.iter();
    for step in 0..end {
        if let Some((found, _)) = members.next() {
            if found == key {
                return true;
            }
        }
    }
    false
}

// Whether the first has each key of the second.
fn has_keys(first: ObjectView<'_>, second: ObjectView<'_>) -> bool
    ensures { result ≡ list_all (λ k. is_some (first_of k (members_seen first.entry)))
        (keys_in (members_seen second.entry)) }
{
    let mut members = second.iter();
    for step in 0..second.len() {
        if let Some((key, _)) = members.next() {
            if first.get(key).is_none() {
                return false;
            }
        }
    }
    true
}
