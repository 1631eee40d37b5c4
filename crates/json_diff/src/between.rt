// The JSON Patch (RFC 6902) that leads from one value to another.
ghost use Rattle.std.specs.Prelude.{◌≡◌, ◌↔◌, ◌++◌, ◌∷◌, ◌&&◌, ◌≤◌, ◌+◌, [], Ok, true, map, option_map, slice_get, is_some, length, string_bytes, codes, OnOk, IfOk, IfSome};
ghost use Rattle.json_grammar.specs.Sizes.{nodes};
ghost use Rattle.json_grammar.specs.Tree.{Tree, text, list as array, pairs as object, no_trees, no_pairs, pair_and, list_pairs, list_trees};
ghost use Rattle.json_model.specs.Same.{same};
ghost use Rattle.json_diff.specs.Diff.{whole, key_removals, common_back, element_removals, operations_between, members_operations, element_operations};
ghost use Rattle.json_diff.specs.DiffDocument.{operation_members, operation_count, patch_between};
ghost use Rattle.json_diff.specs.DiffParts.{are_keyed, are_arrays, child_operations, operations_at};
ghost use Rattle.json_diff.specs.DiffWriting.{AppendsTrees, AppendsOperations};
ghost use Rattle.json_patch.specs.Patch.{remove, patched};
ghost use Rattle.json_patch.specs.Pointer.{slash, escaped_token};
ghost use Rattle.json_value.specs.Denotes.{tree_of, pair_of};
ghost use Rattle.json_value.specs.Seen.{seen, elements_seen, members_seen};
ghost use Rattle.json_io.specs.Errors.{OnlyNoMemory};

use crate::merge_between::has_unique_keys;
use itoa::Buffer;
use json_io::Result;
use json_patch::internal::push_escaped;
use json_value::{ArrayView, Object, ObjectView, Pair, Text, Value, View};
use std::alloc::Global;

// Returns the members `op` and `path` of an operation.
fn operation_members(alloc: Global, name: &'static str, path: &str) -> Result<Vec<Pair>>
    ensures ok { IfOk result (λ v. map pair_of v.items
        ≡ (codes "op", text name.now) ∷ (codes "path", text path.now) ∷ []) }
    ensures only { OnlyNoMemory result }
{
    let mut members = Vec::new(alloc);
    members.push(Pair::new(Text::from_static("op"), Value::from_static_str(name)))?;
    let path = Value::copy_str(alloc, path)?;
    members.push(Pair::new(Text::from_static("path"), path))?;
    Ok(members)
}

// Returns whether the two are the same.
fn are_equal(alloc: Global, first: View<'_>, second: View<'_>) -> Result<bool>
    ensures ok { IfOk result (λ b. b ≡ same (seen first.entry) (seen second.entry)) }
    ensures only { OnlyNoMemory result }
{
    let first = first.to_value(alloc)?;
    let second = second.to_value(alloc)?;
    Ok(first == second)
}

// Returns the elements.
fn collect_elements<'a>(alloc: Global, array: ArrayView<'a>) -> Result<Vec<View<'a>>>
    ensures ok { IfOk result (λ v. map seen v.items ≡ elements_seen array.entry) }
    ensures only { OnlyNoMemory result }
{
    let mut elements = Vec::with_capacity(alloc, array.len())?;
    'elements: for element in array.iter() {
        elements.push(element)?;
    }
    Ok(elements)
}

// Returns the element of the index.
fn element_at<'a>(elements: &[View<'a>], i: usize) -> Option<View<'a>>
    ensures { option_map seen result ≡ slice_get (map seen elements.now) i }
{
    if i < elements.len() {
        Some(elements[i])
    } else {
        None
    }
}

// Returns how many elements at the end of both are the same.
fn common_back(alloc: Global, from: &[View<'_>], to: &[View<'_>]) -> Result<usize>
    ensures ok { IfOk result (λ n. n ≡ common_back (map seen from.now) (map seen to.now)) }
    ensures within { IfOk result (λ n. (n ≤ length from.now) × (n ≤ length to.now)) }
    ensures only { OnlyNoMemory result }
{
    let max = from.len().min(to.len());
    for n in 0..max {
        let (first, second) = (from[from.len() - 1 - n], to[to.len() - 1 - n]);
        if !are_equal(alloc, first, second)? {
            return Ok(n);
        }
    }
    Ok(max)
}

// Returns the two objects if both values are objects and no key repeats in either.
fn objects_between<'a>(from: View<'a>, to: View<'a>) -> Option<(ObjectView<'a>, ObjectView<'a>)>
    ensures found { is_some result ≡ are_keyed (seen from.entry) (seen to.entry) }
    ensures from { IfSome result (λ p. seen from.entry ≡ object (list_pairs (members_seen p.0))) }
    ensures to { IfSome result (λ p. seen to.entry ≡ object (list_pairs (members_seen p.1))) }
{
    let new = to.as_object()?;
    let old = from.as_object()?;
    if has_unique_keys(old) && has_unique_keys(new) {
        Some((old, new))
    } else {
        None
    }
}

// Returns the two arrays if both values are arrays.
fn arrays_between<'a>(from: View<'a>, to: View<'a>) -> Option<(ArrayView<'a>, ArrayView<'a>)>
    ensures found { is_some result ≡ are_arrays (seen from.entry) (seen to.entry) }
    ensures from { IfSome result (λ p. seen from.entry ≡ array (list_trees (elements_seen p.0))) }
    ensures to { IfSome result (λ p. seen to.entry ≡ array (list_trees (elements_seen p.1))) }
{
    let new = to.as_array()?;
    let old = from.as_array()?;
    Some((old, new))
}

// The operations so far, and the pointer to the value that the next operations change.
#[derive(Drop)]
struct PatchWriter {
    alloc: Global,
    operations: Vec<Value>,
    path: String,
}

impl PatchWriter {
    // Appends an operation of this name at the pointer, with the member `value`.
    fn push_value(&mut self, name: &'static str, value: View<'_>) -> Result<()>
        ensures ok { OnOk result (AppendsTrees self.old self.new (operation_members name.now
            (text (string_bytes self.old.path))
            (pair_and (codes "value") (seen value.entry) no_pairs) ∷ [])) }
        ensures only { OnlyNoMemory result }
    {
        let mut members = operation_members(self.alloc, name, self.path.as_str())?;
        let value = value.to_value(self.alloc)?;
        members.push(Pair::new(Text::from_static("value"), value))?;
        self.operations
            .push(Object::from_list(members).into_value())?;
        Ok(())
    }

    // Appends the operation `remove` at the pointer.
    fn push_removal(&mut self) -> Result<()>
        ensures ok { OnOk result (AppendsOperations self.old self.new (remove [] ∷ [])) }
        ensures only { OnlyNoMemory result }
    {
        let members = operation_members(self.alloc, "remove", self.path.as_str())?;
        self.operations
            .push(Object::from_list(members).into_value())?;
        Ok(())
    }

    // Appends the operation `replace` at the pointer, unless the two values are the same.
    fn push_whole(&mut self, from: View<'_>, to: View<'_>) -> Result<()>
        ensures ok { OnOk result (AppendsOperations self.old self.new
            (whole (seen from.entry) (seen to.entry))) }
        ensures only { OnlyNoMemory result }
    {
        if are_equal(self.alloc, from, to)? {
            return Ok(());
        }
        self.push_value("replace", to)
    }

    // Appends a token to the pointer, and returns the length of the pointer before.
    fn push_token(&mut self, token: &str) -> Result<usize>
        ensures ok { IfOk result (λ n. n ≡ length (string_bytes self.old.path)) }
        ensures path { OnOk result (string_bytes self.new.path
            ≡ string_bytes self.old.path ++ (slash ∷ escaped_token token.now)) }
        ensures operations { OnOk result (self.new.operations ≡ self.old.operations) }
        ensures only { OnlyNoMemory result }
    {
        let len = self.path.len();
        self.path.push('/')?;
        push_escaped(&mut self.path, token)?;
        Ok(len)
    }

    // Appends `remove` of the value that the token references.
    fn push_removal_at(&mut self, token: &str) -> Result<()>
        ensures ok { OnOk result
            (AppendsOperations self.old self.new (remove (token.now ∷ []) ∷ [])) }
        ensures only { OnlyNoMemory result }
    {
        let len = self.push_token(token)?;
        self.push_removal()?;
        self.path.truncate(len);
        Ok(())
    }

    // Appends `remove` for each key that the second object lacks.
    fn push_key_removals(&mut self, from: ObjectView<'_>, to: ObjectView<'_>) -> Result<()>
        ensures ok { OnOk result (AppendsOperations self.old self.new (key_removals
            (list_pairs (members_seen to.entry)) (list_pairs (members_seen from.entry)))) }
        ensures only { OnlyNoMemory result }
    {
        'members: for (key, _) in from.iter() {
            if to.get(key).is_none() {
                self.push_removal_at(key)?;
            }
        }
        Ok(())
    }

    // Appends `remove` at `index` for each of the elements: those after it move up.
    fn push_element_removals(&mut self, index: usize, elements: &[View<'_>]) -> Result<()>
        ensures ok { OnOk result (AppendsOperations self.old self.new
            (element_removals index (map seen elements.now))) }
        ensures only { OnlyNoMemory result }
    {
        let mut digits = Buffer::new();
        let token = digits.format(index);
        'elements: for _element in elements {
            self.push_removal_at(token)?;
        }
        Ok(())
    }

    // Appends `add` of the new value, or what leads the old value to it.
    #[cycle(diff)]
    fn push_child(&mut self, from: Option<View<'_>>, to: View<'_>) -> Result<()>
        ensures ok { OnOk result (AppendsOperations self.old self.new
            (child_operations (option_map seen from.entry) (seen to.entry))) }
        ensures only { OnlyNoMemory result }
    {
        match from {
            Some(from) => self.push_operations(from, to),
            None => self.push_value("add", to),
        }
    }

    // Appends what leads to the new value that the token references: `add`, or operations on the
    // old value.
    #[cycle(diff)]
    fn push_child_at(&mut self, token: &str, from: Option<View<'_>>, to: View<'_>) -> Result<()>
        ensures ok { OnOk result (AppendsOperations self.old self.new
            (operations_at token.now (option_map seen from.entry) (seen to.entry))) }
        ensures only { OnlyNoMemory result }
    {
        let len = self.push_token(token)?;
        self.push_child(from, to)?;
        self.path.truncate(len);
        Ok(())
    }

    // Appends what leads the values of the first object to those of the second.
    #[cycle(diff)]
    fn push_members(&mut self, from: ObjectView<'_>, to: ObjectView<'_>) -> Result<()>
        ensures ok { OnOk result (AppendsOperations self.old self.new (members_operations
            (list_pairs (members_seen from.entry)) (list_pairs (members_seen to.entry)))) }
        ensures only { OnlyNoMemory result }
    {
        'members: for (key, value) in to.iter() {
            self.push_child_at(key, from.get(key), value)?;
        }
        Ok(())
    }

    // Appends what leads the first elements to the second, index by index.
    #[cycle(diff)]
    fn push_elements(&mut self, from: &[View<'_>], to: &[View<'_>]) -> Result<()>
        ensures ok { OnOk result (AppendsOperations self.old self.new (element_operations 0
            (map seen from.now) (length to.now) (list_trees (map seen to.now)))) }
        ensures only { OnlyNoMemory result }
    {
        for (i, value) in to.iter().enumerate() {
            let mut digits = Buffer::new();
            self.push_child_at(digits.format(i), element_at(from, i), *value)?;
        }
        if from.len() <= to.len() {
            return Ok(());
        }
        self.push_element_removals(to.len(), &from[to.len()..])
    }

    // Appends what leads the first array to the second. The last elements that are the same stay.
    #[cycle(diff)]
    fn push_arrays(&mut self, from: ArrayView<'_>, to: ArrayView<'_>) -> Result<()>
        ensures ok { OnOk result (AppendsOperations self.old self.new
            (operations_between (array (list_trees (elements_seen from.entry)))
            (array (list_trees (elements_seen to.entry))))) }
        ensures only { OnlyNoMemory result }
    {
        let old = collect_elements(self.alloc, from)?;
        let new = collect_elements(self.alloc, to)?;
        let back = common_back(self.alloc, old.as_slice(), new.as_slice())?;
        let (old, new) = (&old[..old.len() - back], &new[..new.len() - back]);
        self.push_elements(old, new)
    }

    // Appends what leads the first value to the second.
    #[cycle(diff)]
    fn push_operations(&mut self, from: View<'_>, to: View<'_>) -> Result<()>
        ensures ok { OnOk result (AppendsOperations self.old self.new
            (operations_between (seen from.entry) (seen to.entry))) }
        ensures only { OnlyNoMemory result }
    {
        if let Some((old, new)) = objects_between(from, to) {
            self.push_key_removals(old, new)?;
            return self.push_members(old, new);
        }
        if let Some((old, new)) = arrays_between(from, to) {
            return self.push_arrays(old, new);
        }
        self.push_whole(from, to)
    }
}

// Returns the patch that leads from the one value to the other.
fn between(alloc: Global, from: &Value, to: &Value) -> Result<Value>
    ensures ok { IfOk result (λ p. tree_of p
        ≡ patch_between (tree_of from.now) (tree_of to.now)) }
    ensures only { OnlyNoMemory result }
{
    let mut writer = PatchWriter {
        alloc,
        operations: Vec::new(alloc),
        path: String::new(alloc),
    };
    writer.push_operations(from.view(), to.view())?;
    Ok(Value::from_vec(writer.operations))
}

/// Returns a JSON Patch (RFC 6902) that changes `from` into `to`: `apply_patch` with it makes of
/// `from` a value that is the same as `to`, where the order of members does not count. The patch is
/// the empty array exactly if `from` and `to` are the same.
///
/// Members that both objects have, and elements at the same index, are compared level by level;
/// other members and elements are removed or added. Elements at the end of both arrays that are the
/// same stay. If a key repeats in one of two objects that differ, the whole object is replaced.
///
/// The patch has at most as many operations as the two values have values and names together,
/// counted at all levels. Fails with `NoMemory` if memory runs out.
///
/// ```
/// use json_diff::diff;
/// use json_doc::read_document;
/// use json_value::Value;
/// let first = read_document(alloc, "{\"a\": [1, 2, 3], \"b\": true}")?;
/// let second = read_document(alloc, "{\"a\": [1, 3], \"c\": null}")?;
/// let from = Value::from_place(alloc, &first, first.root())?;
/// let to = Value::from_place(alloc, &second, second.root())?;
/// let patch = diff(alloc, &from, &to)?;
/// let want = "[{\"op\":\"remove\",\"path\":\"/b\"},{\"op\":\"remove\",\"path\":\"/a/1\"},\
///     {\"op\":\"add\",\"path\":\"/c\",\"value\":null}]";
/// assert_eq!(rt; patch.to_string(alloc)?.as_str(), want);
/// ```
pub fn diff(alloc: Global, from: &Value, to: &Value) -> Result<Value>
    ensures patch { IfOk result (λ p. tree_of p
        ≡ patch_between (tree_of from.now) (tree_of to.now)) }
    ensures leads { IfOk result (λ p. (w : Tree) × (patched (tree_of from.now) (tree_of p) ≡ Ok w)
        × (same w (tree_of to.now) ≡ true)) }
    ensures same { IfOk result (λ p. (tree_of p ≡ array no_trees)
        ↔ (same (tree_of from.now) (tree_of to.now) ≡ true)) }
    ensures few { IfOk result (λ p. operation_count (tree_of p)
        ≤ nodes (tree_of from.now) + nodes (tree_of to.now)) }
    ensures only { OnlyNoMemory result }
{
    between(alloc, from, to)
}
