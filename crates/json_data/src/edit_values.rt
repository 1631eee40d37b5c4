// Edits, as values spell them.
ghost use Rattle.std.specs.Prelude.{◌≡◌, ◌≢◌, [], ◌∷◌, length, drop, IfOk, IfErr, Some, MatchOption, option_map, option_and_then, slice_get, codes};
ghost use Rattle.json_doc.specs.Readings.{string_of};
ghost use Rattle.json_value.specs.Edits.{edit_of, path_steps};
ghost use Rattle.json_value.specs.EditTrees.{edit_named, edit_in};
ghost use Rattle.json_value.specs.Seen.{seen, elements_seen};
ghost use Rattle.json_data.specs.ReadingValues.{path_datum, edit_datum, read_path as spec_read_path, read_edit as spec_read_edit};
ghost use Rattle.json_data.specs.Spelled.{Unspelled};

use crate::deserialize::DeserializeFrom;
use crate::path_values::{read_path, read_step, unspelled};
use json_io::Result;
use json_tokens::{InputStr, Tokens};
use json_value::{ArrayView, Edit, Path, Text, View};
use std::alloc::Global;

// Returns the first element if it is a string, and `None` otherwise.
fn edit_name<'a>(array: ArrayView<'a>) -> Option<&'a str>
    ensures { option_map (λ s. s.now) result
        ≡ option_and_then string_of (slice_get (elements_seen array.entry) 0) }
{
    match array.get(0) {
        Some(first) => first.text(),
        None => None,
    }
}

// Returns the two elements after the first, or `None` if there are fewer or more.
fn two_after_name<'a>(array: ArrayView<'a>) -> Option<(View<'a>, View<'a>)>
    ensures { MatchOption result (length (drop 1 (elements_seen array.entry)) ≢ 2)
        (λ p. drop 1 (elements_seen array.entry) ≡ seen p.0 ∷ seen p.1 ∷ []) }
{
    if array.len() != 3 {
        return None;
    }
    let first = array.get(1)?;
    let second = array.get(2)?;
    Some((first, second))
}

// Returns the three elements after the first, or `None` if there are fewer or more.
fn three_after_name<'a>(array: ArrayView<'a>) -> Option<(View<'a>, View<'a>, View<'a>)>
    ensures { MatchOption result (length (drop 1 (elements_seen array.entry)) ≢ 3)
        (λ p. drop 1 (elements_seen array.entry) ≡ seen p.0 ∷ seen p.1 ∷ seen p.2 ∷ []) }
{
    if array.len() != 4 {
        return None;
    }
    let first = array.get(1)?;
    let second = array.get(2)?;
    let third = array.get(3)?;
    Some((first, second, third))
}

// Reads the edit `["set", path, value]`.
fn read_set(alloc: Global, array: ArrayView<'_>) -> Result<Edit>
    ensures ok { IfOk result (λ e.
        edit_named (codes "set") (drop 1 (elements_seen array.entry)) ≡ Some (edit_of e)) }
    ensures err { IfErr result
        (Unspelled (edit_named (codes "set") (drop 1 (elements_seen array.entry)))) }
{
    let Some((path, value)) = two_after_name(array) else {
        return Err(unspelled());
    };
    let path = read_path(alloc, path)?;
    let value = value.to_value(alloc)?;
    Ok(Edit::Set { path, value })
}

// Reads the edit `["push", path, value]`.
fn read_push(alloc: Global, array: ArrayView<'_>) -> Result<Edit>
    ensures ok { IfOk result (λ e.
        edit_named (codes "push") (drop 1 (elements_seen array.entry)) ≡ Some (edit_of e)) }
    ensures err { IfErr result
        (Unspelled (edit_named (codes "push") (drop 1 (elements_seen array.entry)))) }
{
    let Some((path, value)) = two_after_name(array) else {
        return Err(unspelled());
    };
    let path = read_path(alloc, path)?;
    let value = value.to_value(alloc)?;
    Ok(Edit::Push { path, value })
}

// Reads the edit `["remove", path, step]`.
fn read_remove(alloc: Global, array: ArrayView<'_>) -> Result<Edit>
    ensures ok { IfOk result (λ e.
        edit_named (codes "remove") (drop 1 (elements_seen array.entry)) ≡ Some (edit_of e)) }
    ensures err { IfErr result
        (Unspelled (edit_named (codes "remove") (drop 1 (elements_seen array.entry)))) }
{
    let Some((path, step)) = two_after_name(array) else {
        return Err(unspelled());
    };
    let path = read_path(alloc, path)?;
    let step = read_step(alloc, step)?;
    Ok(Edit::Remove { path, step })
}

// Reads the edit `["insert", path, key, value]`.
fn read_insert(alloc: Global, array: ArrayView<'_>) -> Result<Edit>
    ensures ok { IfOk result (λ e.
        edit_named (codes "insert") (drop 1 (elements_seen array.entry)) ≡ Some (edit_of e)) }
    ensures err { IfErr result
        (Unspelled (edit_named (codes "insert") (drop 1 (elements_seen array.entry)))) }
{
    let Some((path, key, value)) = three_after_name(array) else {
        return Err(unspelled());
    };
    let Some(key) = key.text() else {
        return Err(unspelled());
    };
    let path = read_path(alloc, path)?;
    let key = Text::copy(alloc, key)?;
    let value = value.to_value(alloc)?;
    Ok(Edit::Insert { path, key, value })
}

// Reads an edit from the value that is seen.
fn read_edit(alloc: Global, view: View<'_>) -> Result<Edit>
    ensures ok { IfOk result (λ e. edit_in (seen view.entry) ≡ Some (edit_of e)) }
    ensures err { IfErr result (Unspelled (edit_in (seen view.entry))) }
{
    let Some(array) = view.as_array() else {
        return Err(unspelled());
    };
    let Some(name) = edit_name(array) else {
        return Err(unspelled());
    };
    match name {
        "set" => read_set(alloc, array),
        "insert" => read_insert(alloc, array),
        "push" => read_push(alloc, array),
        "remove" => read_remove(alloc, array),
        _ => Err(unspelled()),
    }
}

impl<S: InputStr> DeserializeFrom<S> for Path {
    ghost datum = { λ p. path_datum (path_steps p) };

    ghost from_tree = { spec_read_path };

    fn deserialize<T: Tokens<S>>(alloc: Global, tokens: &mut T) -> Result<Path> {
        let value = tokens.value(alloc)?;
        read_path(alloc, value.view())
    }
}

impl<S: InputStr> DeserializeFrom<S> for Edit {
    ghost datum = { λ e. edit_datum (edit_of e) };

    ghost from_tree = { spec_read_edit };

    fn deserialize<T: Tokens<S>>(alloc: Global, tokens: &mut T) -> Result<Edit> {
        let value = tokens.value(alloc)?;
        read_edit(alloc, value.view())
    }
}
