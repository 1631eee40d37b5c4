// What operations change in a value (RFC 6902, section 4).
ghost use Rattle.std.specs.Prelude.{◌≡◌, ◌≢◌, [], ◌∷◌, ◌++◌, map, string_bytes, OnOk, IfOk, IfSome, IfNone, Ok};
ghost use Rattle.json_doc.specs.Readings.{type_of};
ghost use Rattle.json_doc.specs.declared.json_type.JsonType.{JsonType};
ghost use Rattle.json_value.specs.Rows.{value_row, object_row};
ghost use Rattle.json_value.specs.Touched.{ArrayTouched, ObjectTouched, Along};
ghost use Rattle.json_value.specs.declared.value.Value.{Array as ArrayValue, Object as ObjectValue};
ghost use Rattle.std.specs.Borrow.{LendsIf, sem};
ghost use Rattle.json_grammar.specs.Tree.{list_trees, list_pairs};
ghost use Rattle.json_model.specs.Edit.{inserted, pushed, at_path};
ghost use Rattle.json_patch.specs.Pointer.{index_of_token, value_at_pointer};
ghost use Rattle.json_patch.specs.Patch.{insert_at_index, with_element, with_child, added_at, removed_at, replaced_at};
ghost use Rattle.json_patch.specs.Touched.{InsertsMember, InsertsElement, AddTouches, RemovesChild, TouchesAt, AddsValue, RemovesValue, ReplacesValue};
ghost use Rattle.json_value.specs.Denotes.{tree_of, list_in, pairs_in, pair_of};
ghost use Rattle.json_value.specs.Edits.{steps_of, Makes, FailsAs};
ghost use Rattle.json_io.specs.Errors.{OnlyNoMemory};

use crate::lookup::{LookupError, find_value, index_at_most};
use crate::path::{path_to, pointer_node};
use json_doc::JsonType;
use json_io::{Error, Result};
use json_value::{Array, Edit, Object, Pair, Places, PointerNode, Text, Value, find_key, put};
use std::alloc::Global;

// Sets the first value of the key, or appends a member.
fn upsert_member(pairs: &mut Vec<Pair>, alloc: Global, key: &str, value: Value) -> Result<()>
    ensures ok { OnOk result (inserted key.now (tree_of value)
        (list_pairs (map pair_of pairs.old.items)) ≡ list_pairs (map pair_of pairs.new.items)) }
    ensures children { OnOk result (InsertsMember key.now value pairs.old.items pairs.new.items) }
    ensures only { OnlyNoMemory result }
{
    match find_key(pairs.as_slice(), key) {
        Some(i) => {
            let member = &mut pairs[i];
            *member.value_mut() = value;
            Ok(())
        }
        None => {
            let key = Text::copy(alloc, key)?;
            pairs.push(Pair::new(key, value))?;
            Ok(())
        }
    }
}

// Sets the first value of the key in an object, or appends a member.
fn insert_member(object: &mut Object, alloc: Global, key: &str, value: Value) -> Result<()>
    ensures ok { OnOk result (inserted key.now (tree_of value) (list_pairs (pairs_in object.old))
        ≡ list_pairs (pairs_in object.new)) }
    ensures children { OnOk result (ObjectTouched (InsertsMember key.now value)
        (ObjectValue object.old) (ObjectValue object.new)) }
    ensures only { OnlyNoMemory result }
{
    let pairs = object.pairs_mut(alloc)?;
    upsert_member(pairs, alloc, key, value)
}

// Inserts the value before the element at the index, or after the last.
fn insert_before(array: &mut Array, alloc: Global, token: &str, value: Value) -> Result<()>
    ensures ok { OnOk result (insert_at_index (index_of_token token.now) (tree_of value)
        (list_trees (list_in array.old)) ≡ Ok (list_trees (list_in array.new))) }
    ensures refused { FailsAs (insert_at_index (index_of_token token.now) (tree_of value)
        (list_trees (list_in array.old))) result }
    ensures children { OnOk result (ArrayTouched (InsertsElement value)
        (ArrayValue array.old) (ArrayValue array.new)) }
{
    let list = array.list_mut(alloc)?;
    match index_at_most(list.len(), token) {
        Some(i) => {
            list.insert(i, value)?;
            Ok(())
        }
        None => Err(Error::from(LookupError::NotFound)),
    }
}

// Appends the value.
fn append(array: &mut Array, alloc: Global, value: Value) -> Result<()>
    ensures ok { OnOk result (pushed (tree_of value) (list_trees (list_in array.old))
        ≡ list_trees (list_in array.new)) }
    ensures children { OnOk result (ArrayTouched (InsertsElement value)
        (ArrayValue array.old) (ArrayValue array.new)) }
    ensures only { OnlyNoMemory result }
{
    let list = array.list_mut(alloc)?;
    list.push(value)?;
    Ok(())
}

// Inserts the value at the index that the token is; `-` appends it.
fn insert_element(array: &mut Array, alloc: Global, token: &str, value: Value) -> Result<()>
    ensures ok { OnOk result (with_element token.now (tree_of value)
        (list_trees (list_in array.old)) ≡ Ok (list_trees (list_in array.new))) }
    ensures refused { FailsAs (with_element token.now (tree_of value)
        (list_trees (list_in array.old))) result }
    ensures children { OnOk result (ArrayTouched (InsertsElement value)
        (ArrayValue array.old) (ArrayValue array.new)) }
{
    if token == "-" {
        append(array, alloc, value)
    } else {
        insert_before(array, alloc, token, value)
    }
}

/// Returns the object that `value` is, to be changed in place, or `None` if it is not an object.
pub fn object_mut_in(value: &mut Value) -> Option<&mut Object>
    ensures* writes_back { sem 𝓛 (LendsIf value_row object_row value.entry result
        ObjectValue value.old) }
    ensures value { IfSome result (λ o. value.old ≡ ObjectValue o.now) }
    ensures none { IfNone result (type_of (tree_of value.old) ≢ JsonType.Object) }
{
    match value {
        Value::Object(object) => Some(object),
        _ => None,
    }
}

// Sets the first value of the key in an object, or appends a member.
fn insert_in_object(container: &mut Value, alloc: Global, key: &str, value: Value) -> Result<()>
    requires { type_of (tree_of container.old) ≡ JsonType.Object }
    ensures ok { OnOk result (Makes (with_child key.now (tree_of value) (tree_of container.old))
        container.new) }
    ensures refused { FailsAs (with_child key.now (tree_of value) (tree_of container.old))
        result }
    ensures children { OnOk result (AddTouches key.now value container.old container.new) }
{
    match object_mut_in(container) {
        Some(object) => insert_member(object, alloc, key, value),
        None => unreachable!(),
    }
}

// Inserts the value into an array, at the index that the token is.
fn insert_in_array(container: &mut Value, alloc: Global, token: &str, value: Value) -> Result<()>
    requires { type_of (tree_of container.old) ≡ JsonType.Array }
    ensures ok { OnOk result (Makes (with_child token.now (tree_of value) (tree_of container.old))
        container.new) }
    ensures refused { FailsAs (with_child token.now (tree_of value) (tree_of container.old))
        result }
    ensures children { OnOk result (AddTouches token.now value container.old container.new) }
{
    match container {
        Value::Array(array) => insert_element(array, alloc, token, value),
        _ => unreachable!(),
    }
}

// Adds the value to an object or an array, under the token.
fn insert_in(container: &mut Value, alloc: Global, token: &str, value: Value) -> Result<()>
    ensures ok { OnOk result (Makes (with_child token.now (tree_of value) (tree_of container.old))
        container.new) }
    ensures refused { FailsAs (with_child token.now (tree_of value) (tree_of container.old))
        result }
    ensures children { OnOk result (AddTouches token.now value container.old container.new) }
{
    match container.view().get_type() {
        JsonType::Object => insert_in_object(container, alloc, token, value),
        JsonType::Array => insert_in_array(container, alloc, token, value),
        _ => Err(Error::from(LookupError::TypeUnmatched)),
    }
}

// Adds the value to the object or array at the path, under the token.
fn insert_along<V: Places>(
    target: &mut V,
    alloc: Global,
    path: &[PointerNode],
    token: &str,
    value: Value,
) -> Result<()>
    ensures ok { OnOk result (Makes (at_path (steps_of path.now)
        (with_child token.now (tree_of value)) (tree_of (V.held target.old))) (V.held target.new)) }
    ensures refused { FailsAs (at_path (steps_of path.now) (with_child token.now (tree_of value))
        (tree_of (V.held target.old))) result }
    ensures children { OnOk result (Along (steps_of path.now) (AddTouches token.now value)
        (V.held target.old) (V.held target.new)) }
{
    let place = target.place_mut(alloc, path)?;
    insert_in(place, alloc, token, value)
}

// Adds the value to the object or array that the prefix references, under the last token.
fn add_below(
    root: &mut Value,
    alloc: Global,
    prefix: &[String],
    last: &str,
    value: Value,
) -> Result<()>
    ensures ok { OnOk result (Makes (added_at (map string_bytes prefix.now ++ last.now ∷ [])
        (tree_of value) (tree_of root.old)) root.new) }
    ensures refused { FailsAs (added_at (map string_bytes prefix.now ++ last.now ∷ [])
        (tree_of value) (tree_of root.old)) result }
    ensures children { OnOk result (TouchesAt (map string_bytes prefix.now)
        (AddTouches last.now value) root.old root.new) }
{
    let (path, _) = path_to(alloc, prefix, root.view())?;
    insert_along(root, alloc, path.steps(), last, value)
}

/// Adds `value` at the pointer of these tokens, as the operation `add` does
/// (RFC 6902, section 4.1).
///
/// Fails with `NotFound` or `TypeUnmatched` if there is no place for it, and with `NoMemory` if
/// memory runs out. An error leaves `root` unspecified.
pub fn add_at(root: &mut Value, alloc: Global, tokens: &[String], value: Value) -> Result<()>
    ensures ok { OnOk result (Makes (added_at (map string_bytes tokens.now) (tree_of value)
        (tree_of root.old)) root.new) }
    ensures refused { FailsAs (added_at (map string_bytes tokens.now) (tree_of value)
        (tree_of root.old)) result }
    ensures children { OnOk result (AddsValue (map string_bytes tokens.now) value
        root.old root.new) }
{
    match tokens.split_last() {
        Some((last, prefix)) => add_below(root, alloc, prefix, last.as_str(), value),
        None => {
            *root = value;
            Ok(())
        }
    }
}

// Removes what the last token names from the object or array that the prefix references.
fn remove_below(root: &mut Value, alloc: Global, prefix: &[String], last: &str) -> Result<()>
    ensures ok { OnOk result (Makes (removed_at (map string_bytes prefix.now ++ last.now ∷ [])
        (tree_of root.old)) root.new) }
    ensures refused { FailsAs (removed_at (map string_bytes prefix.now ++ last.now ∷ [])
        (tree_of root.old)) result }
    ensures children { OnOk result (TouchesAt (map string_bytes prefix.now) RemovesChild
        root.old root.new) }
{
    let (path, parent) = path_to(alloc, prefix, root.view())?;
    let step = pointer_node(alloc, last, parent)?;
    root.apply(alloc, &Edit::Remove { path, step })
}

/// Removes the value that the tokens reference, as the operation `remove` does
/// (RFC 6902, section 4.2). Of a key that repeats, all members are removed.
///
/// Fails with `NotFound` or `TypeUnmatched` if the tokens reference nothing. Fails with
/// `TypeUnmatched` if there are no tokens: the root cannot be removed. Fails with `NoMemory` if
/// memory runs out. An error leaves `root` unspecified.
pub fn remove(root: &mut Value, alloc: Global, tokens: &[String]) -> Result<()>
    ensures ok { OnOk result (Makes (removed_at (map string_bytes tokens.now) (tree_of root.old))
        root.new) }
    ensures refused { FailsAs (removed_at (map string_bytes tokens.now) (tree_of root.old)) result }
    ensures children { OnOk result (RemovesValue (map string_bytes tokens.now)
        root.old root.new) }
{
    match tokens.split_last() {
        Some((last, prefix)) => remove_below(root, alloc, prefix, last.as_str()),
        None => Err(Error::from(LookupError::TypeUnmatched)),
    }
}

/// Replaces the value that the tokens reference by `value` (RFC 6902, section 4.3).
///
/// Fails with `NotFound` or `TypeUnmatched` if they reference nothing, and with `NoMemory` if
/// memory runs out. An error leaves `root` unspecified.
pub fn replace(root: &mut Value, alloc: Global, tokens: &[String], value: Value) -> Result<()>
    ensures ok { OnOk result (Makes (replaced_at (map string_bytes tokens.now) (tree_of value)
        (tree_of root.old)) root.new) }
    ensures refused { FailsAs (replaced_at (map string_bytes tokens.now) (tree_of value)
        (tree_of root.old)) result }
    ensures children { OnOk result (ReplacesValue (map string_bytes tokens.now) value
        root.old root.new) }
{
    let (path, _) = path_to(alloc, tokens, root.view())?;
    put(root, alloc, path.steps(), value)
}

/// Returns a copy of the value that the tokens reference in `root`. Fails with `NotFound` or
/// `TypeUnmatched` if they reference nothing, and with `NoMemory` if memory runs out.
pub fn copied(root: &Value, alloc: Global, tokens: &[String]) -> Result<Value>
    ensures ok { IfOk result (λ v. value_at_pointer (map string_bytes tokens.now) (tree_of root.now)
        ≡ Ok (tree_of v)) }
    ensures refused { FailsAs (value_at_pointer (map string_bytes tokens.now) (tree_of root.now))
        result }
{
    find_value(tokens, root.view())?.to_value(alloc)
}
