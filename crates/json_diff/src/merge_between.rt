// The merge patch (RFC 7396) that leads from one value to another.
ghost use Rattle.std.specs.Prelude.{◌≡◌, ◌&&◌, Some, None, true, cond, map, option_map, IfOk, IfSome, IfNone};
ghost use Rattle.json_grammar.specs.Tree.{pairs, no_pairs, list_pairs};
ghost use Rattle.json_model.specs.Same.{first_value, same};
ghost use Rattle.json_patch.specs.Laws.{HasNoRepeatedKeys};
ghost use Rattle.json_patch.specs.Merge.{members_or_none, is_null, merge_patched};
ghost use Rattle.json_diff.specs.MergeDiff.{has_unique_keys, is_object, is_same_as, removals, appended, merge_change, object_patch, differing_patch, changes, merge_patch_between, HasNoNullMember};
ghost use Rattle.json_diff.specs.MergeDiffViews.{members_in};
ghost use Rattle.json_value.specs.Denotes.{tree_of, pair_of};
ghost use Rattle.json_value.specs.Seen.{seen, members_seen};
ghost use Rattle.json_value.specs.Steps.{tree_or_null};
ghost use Rattle.json_io.specs.Errors.{OnlyNoMemory};

use json_doc::JsonType;
use json_io::Result;
use json_patch::internal::single_member;
use json_value::{Object, ObjectView, Pair, Text, Value, View};
use std::alloc::Global;

/// Returns whether no two members of the object have the same key. Objects within it are not looked
/// at.
#[tactic(auto, using(crate::proofs::UniqueKeys::unique_if_single))]
pub fn has_unique_keys(object: ObjectView<'_>) -> bool
    ensures { result ≡ has_unique_keys (list_pairs (members_seen object.entry)) }
{
    'members: for (key, _) in object.iter() {
        if single_member(object, key).is_none() {
            return false;
        }
    }
    true
}

// Returns whether no two members have the same key in either object.
fn are_keys_unique(from: Option<ObjectView<'_>>, to: ObjectView<'_>) -> bool
    ensures { result ≡ has_unique_keys (members_in from.entry)
        && has_unique_keys (list_pairs (members_seen to.entry)) }
{
    let unique = match from {
        Some(object) => has_unique_keys(object),
        None => true,
    };
    unique && has_unique_keys(to)
}

// Returns the object if the value is there and is one.
#[tactic(auto, using(crate::proofs::MergeDiffViews::object_members))]
fn object_in(value: Option<View<'_>>) -> Option<ObjectView<'_>>
    ensures { members_in result ≡ members_or_none (tree_or_null (option_map seen value.entry)) }
{
    match value {
        Some(view) => view.as_object(),
        None => None,
    }
}

// Returns the first value of the key.
#[tactic(auto, using(crate::proofs::MergeDiffViews::first_seen))]
fn find_member<'a>(from: Option<ObjectView<'a>>, key: &str) -> Option<View<'a>>
    ensures { option_map seen result ≡ first_value key.now (members_in from.entry) }
{
    match from {
        Some(object) => object.get(key),
        None => None,
    }
}

// Returns whether the value is there and is the same as the other.
fn is_kept(alloc: Global, old: Option<View<'_>>, new: View<'_>) -> Result<bool>
    ensures ok { IfOk result (λ b. b ≡ is_same_as (option_map seen old.entry) (seen new.entry)) }
    ensures only { OnlyNoMemory result }
{
    match old {
        Some(view) => {
            let first = view.to_value(alloc)?;
            let second = new.to_value(alloc)?;
            Ok(first == second)
        }
        None => Ok(false),
    }
}

// Returns a null member for each key that the second object lacks.
fn append_removals(alloc: Global, from: ObjectView<'_>, to: ObjectView<'_>) -> Result<Vec<Pair>>
    ensures ok { IfOk result (λ v. removals (list_pairs (members_seen to.entry))
        (list_pairs (members_seen from.entry)) ≡ map pair_of v.items) }
    ensures only { OnlyNoMemory result }
{
    let mut members = Vec::new(alloc);
    'members: for (name, _) in from.iter() {
        if to.get(name).is_none() {
            let key = Text::copy(alloc, name)?;
            members.push(Pair::new(key, Value::new_null()))?;
        }
    }
    Ok(members)
}

// Returns whether the value is null.
fn is_null_view(value: View<'_>) -> bool
    ensures { result ≡ is_null (seen value.entry) }
{
    value.get_type() == JsonType::Null
}

// Appends a member that changes the value of the key, unless the two values are the same. Returns
// whether the change can be made.
#[cycle(merge_diff)]
#[tactic(auto, using(crate::proofs::MergeDiffViews::one_change))]
fn push_change(
    members: &mut Vec<Pair>,
    alloc: Global,
    key: &str,
    old: Option<View<'_>>,
    new: View<'_>,
) -> Result<bool>
    ensures ok { let o = option_map seen old.entry in let v = seen new.entry in
        IfOk result (λ made. appended (Some (map pair_of members.old.items))
        (merge_change key.now o v (differing_patch (tree_or_null o) v))
        ≡ cond made (Some (map pair_of members.new.items)) None) }
    ensures only { OnlyNoMemory result }
{
    if is_kept(alloc, old, new)? {
        return Ok(true);
    }
    if is_null_view(new) {
        return Ok(false);
    }
    match changed_member(alloc, old, new)? {
        Some(patch) => {
            let key = Text::copy(alloc, key)?;
            members.push(Pair::new(key, patch))?;
            Ok(true)
        }
        None => Ok(false),
    }
}

// Appends the members that make the changes. Returns whether all can be made.
#[cycle(merge_diff)]
fn push_changes(
    members: &mut Vec<Pair>,
    alloc: Global,
    from: Option<ObjectView<'_>>,
    to: ObjectView<'_>,
) -> Result<bool>
    ensures ok { IfOk result (λ made. appended (Some (map pair_of members.old.items))
        (changes (members_in from.entry) (list_pairs (members_seen to.entry)))
        ≡ cond made (Some (map pair_of members.new.items)) None) }
    ensures only { OnlyNoMemory result }
{
    'members: for (key, value) in to.iter() {
        if !push_change(members, alloc, key, find_member(from, key), value)? {
            return Ok(false);
        }
    }
    Ok(true)
}

// Returns the members of the patch that leads from one object to another, if there is one.
#[cycle(merge_diff)]
fn members_between(
    alloc: Global,
    from: Option<ObjectView<'_>>,
    to: ObjectView<'_>,
) -> Result<Option<Vec<Pair>>>
    ensures ok { let ps = members_in from.entry in let qs = list_pairs (members_seen to.entry) in
        IfOk result (λ o. appended (Some (removals qs ps)) (changes ps qs)
        ≡ option_map (λ v. map pair_of v.items) o) }
    ensures only { OnlyNoMemory result }
{
    let mut members = match from {
        Some(object) => append_removals(alloc, object, to)?,
        None => Vec::new(alloc),
    };
    if push_changes(&mut members, alloc, from, to)? {
        Ok(Some(members))
    } else {
        Ok(None)
    }
}

// Returns the patch that leads from one object to another, if there is one.
#[cycle(merge_diff)]
#[tactic(auto, using(crate::proofs::MergeDiffViews::of_object))]
fn object_patch(
    alloc: Global,
    from: Option<ObjectView<'_>>,
    to: ObjectView<'_>,
) -> Result<Option<Value>>
    ensures ok { let ps = members_in from.entry in let qs = list_pairs (members_seen to.entry) in
        IfOk result (λ o. object_patch ps qs (changes ps qs) ≡ option_map tree_of o) }
    ensures only { OnlyNoMemory result }
{
    if !are_keys_unique(from, to) {
        return Ok(None);
    }
    match members_between(alloc, from, to)? {
        Some(members) => Ok(Some(Object::from_list(members).into_value())),
        None => Ok(None),
    }
}

// Returns the patch that leads from a value, or from null if there is none, to another that
// differs.
#[cycle(merge_diff)]
fn changed_member(alloc: Global, old: Option<View<'_>>, new: View<'_>) -> Result<Option<Value>>
    ensures ok { IfOk result (λ o. differing_patch (tree_or_null (option_map seen old.entry))
        (seen new.entry) ≡ option_map tree_of o) }
    ensures only { OnlyNoMemory result }
{
    match new.as_object() {
        Some(members) => object_patch(alloc, object_in(old), members),
        None => {
            let value = new.to_value(alloc)?;
            Ok(Some(value))
        }
    }
}

// Returns the patch that leads from a value to another, if there is one.
fn between(alloc: Global, from: &Value, to: &Value) -> Result<Option<Value>>
    ensures ok { IfOk result (λ o. merge_patch_between (tree_of from.now) (tree_of to.now)
        ≡ option_map tree_of o) }
    ensures only { OnlyNoMemory result }
{
    if from.view().get_type() == JsonType::Object && *from == *to {
        return Ok(Some(Value::new_object()));
    }
    changed_member(alloc, Some(from.view()), to.view())
}

/// Returns a JSON Merge Patch (RFC 7396) that changes `from` into `to`: `apply_merge` with it makes
/// of `from` a value that is the same as `to`, where the order of members does not count. Between
/// two objects that are the same it is the empty object.
///
/// Keys that `to` lacks are removed, members that differ are changed level by level, and an array
/// that differs is replaced as a whole.
///
/// Returns `None` if an object that has to change has a key that repeats, in `from` or in `to`.
/// Returns `None` too if a member has to become null, which no merge patch can do. Objects within
/// arrays do not count. Fails with `NoMemory` if memory runs out.
///
/// ```
/// use json_diff::merge_diff;
/// use json_doc::read_document;
/// use json_value::Value;
/// let first = read_document(alloc, "{\"a\": \"b\", \"c\": {\"d\": \"e\", \"f\": \"g\"}}")?;
/// let second = read_document(alloc, "{\"a\": \"z\", \"c\": {\"d\": \"e\"}}")?;
/// let from = Value::from_place(alloc, &first, first.root())?;
/// let to = Value::from_place(alloc, &second, second.root())?;
/// let patch = merge_diff(alloc, &from, &to)?.ok_or("no patch")?;
/// assert_eq!(rt; patch.to_string(alloc)?.as_str(), "{\"a\":\"z\",\"c\":{\"f\":null}}");
/// ```
pub fn merge_diff(alloc: Global, from: &Value, to: &Value) -> Result<Option<Value>>
    ensures patch { IfOk result (λ o. merge_patch_between (tree_of from.now) (tree_of to.now)
        ≡ option_map tree_of o) }
    ensures leads { IfOk result (λ o. IfSome o (λ p.
        same (merge_patched (tree_of from.now) (tree_of p)) (tree_of to.now) ≡ true)) }
    ensures same { IfOk result (λ o. is_object (tree_of from.now) ≡ true
        → same (tree_of from.now) (tree_of to.now) ≡ true
        → option_map tree_of o ≡ Some (pairs no_pairs)) }
    ensures none { IfOk result (λ o. IfNone o (HasNoRepeatedKeys (tree_of from.now)
        → HasNoRepeatedKeys (tree_of to.now) → HasNoNullMember (tree_of to.now) → ⊥)) }
    ensures only { OnlyNoMemory result }
{
    between(alloc, from, to)
}
