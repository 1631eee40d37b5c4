// JSON Merge Patch (RFC 7396).
ghost use Rattle.std.specs.Prelude.{◌≡◌, map, false, OnOk, OnErr, IfOk, IfErr};
ghost use Rattle.json_grammar.specs.Tree.{pairs, list_pairs};
ghost use Rattle.json_model.specs.Edit.{inserted, without_key, has_key};
ghost use Rattle.json_model.specs.Same.{first_value};
ghost use Rattle.json_patch.specs.KeyIndex.{HasStarts};
ghost use Rattle.json_patch.specs.Merge.{merge_patched, pairs_merged, members_or_none};
ghost use Rattle.json_value.specs.Denotes.{tree_of, pair_of, pairs_in};
ghost use Rattle.json_value.specs.Seen.{seen, members_seen};
ghost use Rattle.json_value.specs.Steps.{tree_or_null};
ghost use Rattle.json_patch.specs.Errors.{no_memory_in_patch};
ghost use Rattle.json_patch.specs.Merge.{member_merged};
ghost use Rattle.json_io.specs.Errors.{OnlyNoMemory};

use crate::change::object_mut_in;
use crate::error::{PatchCode, PatchError};
use crate::key_index::KeyIndex;
use json_doc::JsonType;
use json_io::Result as TextResult;
use json_value::{Object, ObjectView, Pair, Text, Value, View};
use std::alloc::Global;

// Removes all members of the key.
fn remove_key(pairs: &mut Vec<Pair>, index: &mut KeyIndex, key: &str)
    requires { HasStarts index.old pairs.old.items }
    ensures removed { list_pairs (map pair_of pairs.new.items)
        ≡ without_key key.now (list_pairs (map pair_of pairs.old.items)) }
    ensures starts { HasStarts index.new pairs.new.items }
{
    let Some(_) = index.find_key(pairs.as_slice(), key) else {
        return;
    };
    let len = pairs.len();
    pairs.retain(|pair| pair.key() != key);
    index.subtract(len - pairs.len());
}

// Appends a member of a key that no member has.
fn append_member(
    pairs: &mut Vec<Pair>,
    index: &mut KeyIndex,
    alloc: Global,
    key: &str,
    value: Value,
) -> TextResult<()>
    requires starts { HasStarts index.old pairs.old.items }
    requires absent { has_key key.now (list_pairs (map pair_of pairs.old.items)) ≡ false }
    ensures ok { OnOk result (list_pairs (map pair_of pairs.new.items) ≡ inserted key.now
        (tree_of value) (list_pairs (map pair_of pairs.old.items))) }
    ensures starts { OnOk result (HasStarts index.new pairs.new.items) }
    ensures only { OnlyNoMemory result }
{
    let text = Text::copy(alloc, key)?;
    index.add(key, pairs.len());
    pairs.push(Pair::new(text, value))?;
    Ok(())
}

// Replaces a value that is no object by an empty object.
fn become_object(value: &mut Value)
    ensures { tree_of value.new ≡ pairs (members_or_none (tree_of value.old)) }
{
    match value {
        Value::Object(_) => (),
        _ => *value = Value::new_object(),
    }
}

// Merges a value into the first value of the key, or into null, and inserts it.
#[cycle(merge)]
fn merge_value(
    pairs: &mut Vec<Pair>,
    index: &mut KeyIndex,
    alloc: Global,
    key: &str,
    value: View<'_>,
) -> TextResult<()>
    requires { HasStarts index.old pairs.old.items }
    ensures ok { let ps = list_pairs (map pair_of pairs.old.items) in
        OnOk result (list_pairs (map pair_of pairs.new.items) ≡ inserted key.now
        (merge_patched (tree_or_null (first_value key.now ps)) (seen value.entry)) ps) }
    ensures starts { OnOk result (HasStarts index.new pairs.new.items) }
    ensures only { OnlyNoMemory result }
{
    match index.find_key(pairs.as_slice(), key) {
        Some(i) => {
            let member = &mut pairs[i];
            merge_in(member.value_mut(), alloc, value)
        }
        None => {
            let mut member = Value::new_null();
            merge_in(&mut member, alloc, value)?;
            append_member(pairs, index, alloc, key, member)
        }
    }
}

// Merges a member: null removes all members of the key.
#[cycle(merge)]
fn merge_member(
    pairs: &mut Vec<Pair>,
    index: &mut KeyIndex,
    alloc: Global,
    key: &str,
    value: View<'_>,
) -> TextResult<()>
    requires { HasStarts index.old pairs.old.items }
    ensures ok { OnOk result (list_pairs (map pair_of pairs.new.items) ≡ member_merged key.now
        (seen value.entry) (list_pairs (map pair_of pairs.old.items))) }
    ensures starts { OnOk result (HasStarts index.new pairs.new.items) }
    ensures only { OnlyNoMemory result }
{
    if value.get_type() == JsonType::Null {
        remove_key(pairs, index, key);
        return Ok(());
    }
    merge_value(pairs, index, alloc, key, value)
}

// Merges members in turn.
#[cycle(merge)]
fn merge_members(pairs: &mut Vec<Pair>, alloc: Global, members: ObjectView<'_>) -> TextResult<()>
    ensures ok { OnOk result (list_pairs (map pair_of pairs.new.items) ≡ pairs_merged
        (list_pairs (map pair_of pairs.old.items)) (list_pairs (members_seen members.entry))) }
    ensures only { OnlyNoMemory result }
{
    let mut index = KeyIndex::new(alloc, pairs.as_slice(), members.len());
    'members: for (key, value) in members.iter() {
        merge_member(pairs, &mut index, alloc, key, value)?;
    }
    Ok(())
}

#[cycle(merge)]
fn merge_object(object: &mut Object, alloc: Global, members: ObjectView<'_>) -> TextResult<()>
    ensures ok { OnOk result (list_pairs (pairs_in object.new) ≡ pairs_merged
        (list_pairs (pairs_in object.old)) (list_pairs (members_seen members.entry))) }
    ensures only { OnlyNoMemory result }
{
    let pairs = object.pairs_mut(alloc)?;
    merge_members(pairs, alloc, members)
}

// Merges members into a value, which becomes an object if it is none.
#[cycle(merge)]
fn merge_object_in(value: &mut Value, alloc: Global, members: ObjectView<'_>) -> TextResult<()>
    ensures ok { OnOk result (tree_of value.new ≡ pairs (pairs_merged
        (members_or_none (tree_of value.old)) (list_pairs (members_seen members.entry)))) }
    ensures only { OnlyNoMemory result }
{
    become_object(value);
    match object_mut_in(value) {
        Some(object) => merge_object(object, alloc, members),
        None => unreachable!(),
    }
}

// Merges a patch into a value. An error leaves the value unspecified.
#[cycle(merge)]
fn merge_in(value: &mut Value, alloc: Global, patch: View<'_>) -> TextResult<()>
    ensures ok { OnOk result
        (tree_of value.new ≡ merge_patched (tree_of value.old) (seen patch.entry)) }
    ensures only { OnlyNoMemory result }
{
    match patch.as_object() {
        Some(members) => merge_object_in(value, alloc, members),
        None => {
            *value = patch.to_value(alloc)?;
            Ok(())
        }
    }
}

/// Applies a JSON Merge Patch (RFC 7396) to `value`. A patch that is not an object replaces
/// `value`. If the patch is an object, `value` becomes an empty object unless it is an object
/// already, and each member of the patch is merged into it:
///
/// - null removes all members with that key.
/// - Any other value is applied as a merge patch to the value of the first member with that key. If
///   there is none, it is applied to null, and the result is appended as a member.
///
/// Fails with `NoMemory` if memory runs out; `value` is then unchanged.
///
/// ```
/// use json_doc::read_document;
/// use json_patch::apply_merge;
/// use json_value::{Value, View};
/// let doc = read_document(alloc, "{\"a\": \"b\", \"c\": {\"d\": \"e\", \"f\": \"g\"}}")?;
/// let mut value = Value::from_place(alloc, &doc, doc.root())?;
/// let patch = read_document(alloc, "{\"a\": \"z\", \"c\": {\"f\": null}}")?;
/// apply_merge(alloc, &mut value, View::packed(patch.view()))?;
/// assert_eq!(rt; value.to_string(alloc)?.as_str(), "{\"a\":\"z\",\"c\":{\"d\":\"e\"}}");
/// ```
pub fn apply_merge(alloc: Global, value: &mut Value, patch: View<'_>) -> Result<(), PatchError>
    ensures ok { OnOk result
        (tree_of value.new ≡ merge_patched (tree_of value.old) (seen patch.entry)) }
    ensures kept { OnErr result (value.new ≡ value.old) }
    ensures only { IfErr result (λ e. e ≡ no_memory_in_patch) }
{
    match merge_copy(value, alloc, patch) {
        Ok(merged) => {
            *value = merged;
            Ok(())
        }
        Err(_) => Err(PatchError {
            code: PatchCode::NoMemory,
            op: None,
        }),
    }
}

fn merge_copy(value: &Value, alloc: Global, patch: View<'_>) -> TextResult<Value>
    ensures ok { IfOk result
        (λ v. tree_of v ≡ merge_patched (tree_of value.now) (seen patch.entry)) }
    ensures only { OnlyNoMemory result }
{
    let mut work = value.clone(alloc)?;
    merge_in(&mut work, alloc, patch)?;
    Ok(work)
}
