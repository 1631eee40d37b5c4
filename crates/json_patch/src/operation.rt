// Reading the operations of a patch (RFC 6902, sections 3 and 4).
ghost use Rattle.std.specs.Prelude.{◌≡◌, Some, map, string_bytes, option_map, IfOk, IfSome, codes};
ghost use Rattle.json_grammar.specs.Tree.{list_pairs};
ghost use Rattle.json_patch.specs.Described.{path_of_operation as path_text};
ghost use Rattle.json_patch.specs.Pointer.{pointer_of};
ghost use Rattle.json_patch.specs.Patch.{single_value, string_in, pointer_in, is_proper_prefix, tokens_eq, move_allowed, operation_named, operation_of};
ghost use Rattle.json_value.specs.Denotes.{tree_of};
ghost use Rattle.json_value.specs.Seen.{seen, members_seen};
ghost use Rattle.json_value.specs.TargetParts.{members_targets};
ghost use Rattle.json_value.specs.ViewTargets.{view_target};
ghost use Rattle.json_patch.specs.Operations.{model_operation, moved_from, both_of, path_and_value_of, from_and_path_of};
ghost use Rattle.json_patch.specs.Lookups.{pointer_tokens};
ghost use Rattle.json_patch.specs.PointerTargets.{first_target};
ghost use Rattle.json_io.specs.Errors.{OnlyNoMemory};

use crate::error::PatchCode;
use crate::pointer::Pointer;
use json_io::{Error, ErrorCode, Place, Result};
use json_value::{ObjectView, Value, View};
use std::alloc::Global;

/// An operation of a JSON Patch (RFC 6902, section 4). `path` is the pointer to what is changed or
/// tested, and `from` the pointer to what is moved or copied.
#[derive(Drop)]
pub enum Operation {
    Add { path: Pointer, value: Value },
    Remove { path: Pointer },
    Replace { path: Pointer, value: Value },
    Move { from: Pointer, path: Pointer },
    Copy { from: Pointer, path: Pointer },
    Test { path: Pointer, value: Value },
}

/// Returns the value of the member named `key`. Returns `None` if there is no such member, or more
/// than one.
pub fn single_member<'a>(object: ObjectView<'a>, key: &str) -> Option<View<'a>>
    ensures tree { option_map seen result
        ≡ single_value key.now (list_pairs (members_seen object.entry)) }
    ensures target { IfSome result (λ v.
        first_target key.now (members_targets object.entry) ≡ Some (view_target v)) }
{
    let mut found: Option<View<'a>> = None;
    'members: for (name, value) in object.iter() {
        if name == key {
            if found.is_some() {
                return None;
            }
            found = Some(value);
        }
    }
    found
}

// Returns the string of the key if exactly one member has it.
fn single_text<'a>(object: ObjectView<'a>, key: &str) -> Option<&'a str>
    ensures { option_map (λ s. s.now) result
        ≡ string_in (single_value key.now (list_pairs (members_seen object.entry))) }
{
    match single_member(object, key) {
        Some(view) => view.text(),
        None => None,
    }
}

/// Returns the string member `path` of an operation. Returns `None` if `operation` is not an
/// object, if none or several of its members are named `path`, or if that member is not a string.
pub fn path_of_operation<'a>(operation: View<'a>) -> Option<&'a str>
    ensures { option_map (λ s. s.now) result ≡ path_text (seen operation.entry) }
{
    match operation.as_object() {
        Some(object) => single_text(object, "path"),
        None => None,
    }
}

// Returns the pointer that the text is, or `None` if it is not one.
fn read_pointer(alloc: Global, text: &str) -> Result<Option<Pointer>>
    ensures ok { IfOk result (λ o. option_map pointer_tokens o ≡ pointer_of text.now) }
    ensures only { OnlyNoMemory result }
{
    match Pointer::parse(alloc, text) {
        Ok(pointer) => Ok(Some(pointer)),
        Err(error) => match error.code {
            PatchCode::BadPointer => Ok(None),
            _ => Err(Error {
                code: ErrorCode::NoMemory,
                place: Place::None,
            }),
        },
    }
}

// Returns the pointer of the key if exactly one member has it.
fn single_pointer(alloc: Global, object: ObjectView<'_>, key: &str) -> Result<Option<Pointer>>
    ensures ok { IfOk result (λ o. option_map pointer_tokens o
        ≡ pointer_in (single_value key.now (list_pairs (members_seen object.entry)))) }
    ensures only { OnlyNoMemory result }
{
    match single_text(object, key) {
        Some(text) => read_pointer(alloc, text),
        None => Ok(None),
    }
}

// Returns a copy of the value of the member `value`.
fn value_member(alloc: Global, object: ObjectView<'_>) -> Result<Option<Value>>
    ensures ok { IfOk result (λ o. option_map tree_of o
        ≡ single_value (codes "value") (list_pairs (members_seen object.entry))) }
    ensures only { OnlyNoMemory result }
{
    match single_member(object, "value") {
        Some(view) => {
            let value = view.to_value(alloc)?;
            Ok(Some(value))
        }
        None => Ok(None),
    }
}

// Returns the members `path` and `value`, if both are there.
fn path_and_value(alloc: Global, object: ObjectView<'_>) -> Result<Option<(Pointer, Value)>>
    ensures ok { IfOk result (λ o. option_map path_and_value_of o
        ≡ both_of
        (pointer_in (single_value (codes "path") (list_pairs (members_seen object.entry))))
        (single_value (codes "value") (list_pairs (members_seen object.entry)))) }
    ensures only { OnlyNoMemory result }
{
    match single_pointer(alloc, object, "path")? {
        Some(path) => match value_member(alloc, object)? {
            Some(value) => Ok(Some((path, value))),
            None => Ok(None),
        },
        None => Ok(None),
    }
}

// Returns the members `from` and `path`, if both are there.
fn from_and_path(alloc: Global, object: ObjectView<'_>) -> Result<Option<(Pointer, Pointer)>>
    ensures ok { IfOk result (λ o. option_map from_and_path_of o
        ≡ both_of
        (pointer_in (single_value (codes "from") (list_pairs (members_seen object.entry))))
        (pointer_in (single_value (codes "path") (list_pairs (members_seen object.entry))))) }
    ensures only { OnlyNoMemory result }
{
    match single_pointer(alloc, object, "from")? {
        Some(from) => match single_pointer(alloc, object, "path")? {
            Some(path) => Ok(Some((from, path))),
            None => Ok(None),
        },
        None => Ok(None),
    }
}

// Returns whether `tokens` begins with `prefix` and is longer.
fn is_prefix(prefix: &[String], tokens: &[String]) -> bool
    ensures { result
        ≡ is_proper_prefix (map string_bytes prefix.now) (map string_bytes tokens.now) }
{
    'prefix: for i in 0..prefix.len() {
        if i >= tokens.len() || prefix[i].as_str() != tokens[i].as_str() {
            return false;
        }
    }
    prefix.len() < tokens.len()
}

/// Returns whether both lists have the same tokens in the same order.
pub fn are_tokens_same(first: &[String], second: &[String]) -> bool
    ensures { result ≡ tokens_eq (map string_bytes first.now) (map string_bytes second.now) }
{
    'first: for i in 0..first.len() {
        if i >= second.len() || first[i].as_str() != second[i].as_str() {
            return false;
        }
    }
    first.len() == second.len()
}

// Reads the operation `move`. Returns `None` if `path` leads into the value at `from`.
fn read_move(alloc: Global, object: ObjectView<'_>) -> Result<Option<Operation>>
    ensures ok { let ps = list_pairs (members_seen object.entry) in
        IfOk result (λ o. option_map model_operation o ≡ move_allowed (moved_from
        (pointer_in (single_value (codes "from") ps))
        (pointer_in (single_value (codes "path") ps)))) }
    ensures only { OnlyNoMemory result }
{
    match from_and_path(alloc, object)? {
        Some((from, path)) => {
            if is_prefix(from.tokens.as_slice(), path.tokens.as_slice()) {
                return Ok(None);
            }
            Ok(Some(Operation::Move { from, path }))
        }
        None => Ok(None),
    }
}

// Reads the operation whose member `op` is `name`.
fn read_named(alloc: Global, name: &str, object: ObjectView<'_>) -> Result<Option<Operation>>
    ensures ok { let ps = list_pairs (members_seen object.entry) in
        IfOk result (λ o. option_map model_operation o ≡ operation_named name.now
        (pointer_in (single_value (codes "path") ps)) (pointer_in (single_value (codes "from") ps))
        (single_value (codes "value") ps)) }
    ensures only { OnlyNoMemory result }
{
    match name {
        "add" => match path_and_value(alloc, object)? {
            Some((path, value)) => Ok(Some(Operation::Add { path, value })),
            None => Ok(None),
        },
        "remove" => match single_pointer(alloc, object, "path")? {
            Some(path) => Ok(Some(Operation::Remove { path })),
            None => Ok(None),
        },
        "replace" => match path_and_value(alloc, object)? {
            Some((path, value)) => Ok(Some(Operation::Replace { path, value })),
            None => Ok(None),
        },
        "move" => read_move(alloc, object),
        "copy" => match from_and_path(alloc, object)? {
            Some((from, path)) => Ok(Some(Operation::Copy { from, path })),
            None => Ok(None),
        },
        "test" => match path_and_value(alloc, object)? {
            Some((path, value)) => Ok(Some(Operation::Test { path, value })),
            None => Ok(None),
        },
        _ => Ok(None),
    }
}

/// Reads an operation of a JSON Patch (RFC 6902, section 4). Returns `None` if the value is not
/// one, and fails with `NoMemory` if memory runs out.
pub fn read_operation(alloc: Global, view: View<'_>) -> Result<Option<Operation>>
    ensures ok { IfOk result (λ o. option_map model_operation o ≡ operation_of (seen view.entry)) }
    ensures only { OnlyNoMemory result }
{
    match view.as_object() {
        Some(object) => match single_text(object, "op") {
            Some(name) => read_named(alloc, name, object),
            None => Ok(None),
        },
        None => Ok(None),
    }
}
