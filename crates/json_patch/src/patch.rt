// Applying a JSON Patch (RFC 6902).
ghost use Rattle.std.specs.Prelude.{◌≡◌, ◌<◌, ◌^◌, Ok, None, Some, Result, map, string_bytes, length, OnOk, OnErr, IfOk, IfErr};
ghost use Rattle.json_doc.specs.Readings.{elements};
ghost use Rattle.json_grammar.specs.Tree.{Tree, list as list_of_trees, list_trees};
ghost use Rattle.json_model.specs.Edit.{Changed};
ghost use Rattle.json_patch.specs.Patch.{PatchFailure, lookup_outcome, test, added_at, replaced_at, applied, operations_from, applied_from, patched};
ghost use Rattle.json_value.specs.Denotes.{tree_of};
ghost use Rattle.json_value.specs.Edits.{Makes, FailsAs, RefusesChange};
ghost use Rattle.json_value.specs.Seen.{seen, elements_seen};
ghost use Rattle.json_patch.specs.Errors.{ReadingOperationsFails, OperationFails, PatchFails, with_number};
ghost use Rattle.json_patch.specs.Touched.{CopiesValue, MovesValue, AddsTree, ReplacesByTree, OperationTouches, OperationsTouch, TouchesInTurn, PatchTouches};
ghost use Rattle.json_patch.specs.Operations.{model_operation, moved, copied_to};

use crate::change::{add_at, copied, remove, replace};
use crate::error::{PatchCode, PatchError};
use crate::lookup::find_value;
use crate::operation::{Operation, are_tokens_same, read_operation};
use json_io::{Error, ErrorCode, Result as TextResult};
use json_value::{ArrayView, Value, View};
use std::alloc::Global;

fn memory_ran_out() -> PatchError
    ensures { result ≡ record { code = PatchCode.NoMemory; op = None } }
{
    PatchError {
        code: PatchCode::NoMemory,
        op: None,
    }
}

// Returns the code of an error of a change.
fn code_of(error: Error) -> PatchCode
    ensures { (changed : Changed Tree) → RefusesChange changed error.code error.place
        → OperationFails (lookup_outcome changed) result }
{
    match error.code {
        ErrorCode::NotFound => PatchCode::NotFound,
        ErrorCode::TypeUnmatched => PatchCode::TypeUnmatched,
        _ => PatchCode::NoMemory,
    }
}

// Returns the result of a change, with the code of its error.
fn with_code(outcome: TextResult<()>) -> Result<(), PatchCode>
    ensures ok { OnOk result (outcome ≡ Ok tt) }
    ensures refused { IfErr result (λ code. (changed : Changed Tree) → FailsAs changed outcome
        → OperationFails (lookup_outcome changed) code) }
{
    match outcome {
        Ok(()) => Ok(()),
        Err(error) => Err(code_of(error)),
    }
}

// Adds a copy of the value at `from` at `path`.
fn copy_to(root: &mut Value, alloc: Global, from: &[String], path: &[String]) -> TextResult<()>
    ensures ok { OnOk result (Makes (copied_to (map string_bytes from.now)
        (map string_bytes path.now) (tree_of root.old)) root.new) }
    ensures refused { FailsAs (copied_to (map string_bytes from.now)
        (map string_bytes path.now) (tree_of root.old)) result }
    ensures children { OnOk result (CopiesValue (map string_bytes path.now) root.old root.new) }
{
    let value = copied(root, alloc, from)?;
    add_at(root, alloc, path, value)
}

// Removes the value at `from` and adds it at `path`.
fn move_to(root: &mut Value, alloc: Global, from: &[String], path: &[String]) -> TextResult<()>
    ensures ok { OnOk result (Makes (moved (map string_bytes from.now)
        (map string_bytes path.now) (tree_of root.old)) root.new) }
    ensures refused { FailsAs (moved (map string_bytes from.now)
        (map string_bytes path.now) (tree_of root.old)) result }
    ensures children { OnOk result (MovesValue (map string_bytes from.now)
        (map string_bytes path.now) root.old root.new) }
{
    if are_tokens_same(from, path) {
        let _place = find_value(from, root.view())?;
        return Ok(());
    }
    let value = copied(root, alloc, from)?;
    match remove(root, alloc, from) {
        Ok(()) => add_at(root, alloc, path, value),
        Err(error) => Err(error),
    }
}

// Fails with `TestFailed` unless the tokens reference the same value.
fn test_value(
    root: &Value,
    alloc: Global,
    tokens: &[String],
    value: &Value,
) -> Result<(), PatchCode>
    ensures ok { OnOk result (applied (test (map string_bytes tokens.now) (tree_of value.now))
        (tree_of root.now) ≡ Ok (tree_of root.now)) }
    ensures refused { IfErr result (λ code. OperationFails (applied
        (test (map string_bytes tokens.now) (tree_of value.now)) (tree_of root.now)) code) }
{
    match copied(root, alloc, tokens) {
        Ok(found) => {
            if found == *value {
                Ok(())
            } else {
                Err(PatchCode::TestFailed)
            }
        }
        Err(error) => Err(code_of(error)),
    }
}

// Adds a copy of the value.
fn add_copy(root: &mut Value, alloc: Global, tokens: &[String], value: &Value) -> TextResult<()>
    ensures ok { OnOk result (Makes (added_at (map string_bytes tokens.now) (tree_of value.now)
        (tree_of root.old)) root.new) }
    ensures refused { FailsAs (added_at (map string_bytes tokens.now) (tree_of value.now)
        (tree_of root.old)) result }
    ensures children { OnOk result (AddsTree (map string_bytes tokens.now) (tree_of value.now)
        root.old root.new) }
{
    let copy = value.clone(alloc)?;
    add_at(root, alloc, tokens, copy)
}

// Replaces the value that the tokens reference by a copy of the value.
fn replace_with_copy(
    root: &mut Value,
    alloc: Global,
    tokens: &[String],
    value: &Value,
) -> TextResult<()>
    ensures ok { OnOk result (Makes (replaced_at (map string_bytes tokens.now) (tree_of value.now)
        (tree_of root.old)) root.new) }
    ensures refused { FailsAs (replaced_at (map string_bytes tokens.now) (tree_of value.now)
        (tree_of root.old)) result }
    ensures children { OnOk result (ReplacesByTree (map string_bytes tokens.now)
        (tree_of value.now) root.old root.new) }
{
    let copy = value.clone(alloc)?;
    replace(root, alloc, tokens, copy)
}

// Applies an operation. An error leaves `root` unspecified.
fn apply_operation(root: &mut Value, alloc: Global, operation: &Operation) -> Result<(), PatchCode>
    ensures ok { OnOk result (applied (model_operation operation.now) (tree_of root.old)
        ≡ Ok (tree_of root.new)) }
    ensures refused { IfErr result (λ code. OperationFails
        (applied (model_operation operation.now) (tree_of root.old)) code) }
    ensures children { OnOk result (OperationTouches (model_operation operation.now)
        root.old root.new) }
{
    match operation {
        Operation::Add { path, value } => {
            with_code(add_copy(root, alloc, path.tokens.as_slice(), value))
        }
        Operation::Remove { path } => with_code(remove(root, alloc, path.tokens.as_slice())),
        Operation::Replace { path, value } => {
            with_code(replace_with_copy(root, alloc, path.tokens.as_slice(), value))
        }
        Operation::Move { from, path } => {
            let outcome = move_to(root, alloc, from.tokens.as_slice(), path.tokens.as_slice());
            with_code(outcome)
        }
        Operation::Copy { from, path } => {
            let outcome = copy_to(root, alloc, from.tokens.as_slice(), path.tokens.as_slice());
            with_code(outcome)
        }
        Operation::Test { path, value } => test_value(root, alloc, path.tokens.as_slice(), value),
    }
}

// Returns the error of the operation at index `i`; no operation is named if memory ran out.
fn error_at_operation(code: PatchCode, i: usize) -> PatchError
    requires { i < 2 ^ 32 }
    ensures { (made : Result Tree PatchFailure) → OperationFails made code
        → PatchFails (with_number made i) result.code result.op }
{
    match code {
        PatchCode::NoMemory => memory_ran_out(),
        _ => PatchError {
            code,
            op: Some(i as u32),
        },
    }
}

// Applies operations in turn. An error leaves `root` unspecified.
fn apply_operations(
    root: &mut Value,
    alloc: Global,
    operations: &[Operation],
) -> Result<(), PatchError>
    requires few { length operations.now < 2 ^ 32 }
    ensures ok { OnOk result (applied_from 0 (map model_operation operations.now) (tree_of root.old)
        ≡ Ok (tree_of root.new)) }
    ensures refused { IfErr result (λ e. PatchFails
        (applied_from 0 (map model_operation operations.now) (tree_of root.old)) e.code e.op) }
    ensures children { OnOk result (OperationsTouch (map model_operation operations.now)
        root.old root.new) }
{
    for (i, operation) in operations.iter().enumerate() {
        match apply_operation(root, alloc, operation) {
            Ok(()) => (),
            Err(code) => return Err(error_at_operation(code, i)),
        }
    }
    Ok(())
}

// Reads all operations of a patch.
fn read_operations(alloc: Global, list: ArrayView<'_>) -> Result<Vec<Operation>, PatchError>
    requires few { length (elements_seen list) < 2 ^ 32 }
    ensures ok { IfOk result (λ v. operations_from 0 (elements_seen list.entry)
        ≡ Ok (map model_operation v.items)) }
    ensures refused { IfErr result (λ e. ReadingOperationsFails
        (operations_from 0 (elements_seen list.entry)) e.code e.op) }
{
    let mut operations = Vec::new(alloc);
    for i in 0..list.len() {
        if let Some(view) = list.get(i) {
            match read_operation(alloc, view) {
                Ok(Some(operation)) => operations.push(operation)?,
                Ok(None) => {
                    return Err(PatchError {
                        code: PatchCode::BadPatch,
                        op: Some(i as u32),
                    });
                }
                Err(_) => return Err(memory_ran_out()),
            }
        }
    }
    Ok(operations)
}

// Reads and applies the operations of a patch. An error leaves `root` unspecified.
fn apply_list(root: &mut Value, alloc: Global, list: ArrayView<'_>) -> Result<(), PatchError>
    requires few { length (elements_seen list) < 2 ^ 32 }
    ensures ok { OnOk result (patched (tree_of root.old)
        (list_of_trees (list_trees (elements_seen list.entry))) ≡ Ok (tree_of root.new)) }
    ensures refused { IfErr result (λ e. PatchFails (patched (tree_of root.old)
        (list_of_trees (list_trees (elements_seen list.entry)))) e.code e.op) }
    ensures children { OnOk result (TouchesInTurn (elements_seen list.entry) root.old root.new) }
{
    let operations = read_operations(alloc, list)?;
    apply_operations(root, alloc, operations.as_slice())
}

/// Applies a JSON Patch (RFC 6902) to `value`. First all operations of `patch` are read; then each
/// is applied to what those before it made. `patch` must have fewer than 2^32 elements. After an
/// error `value` is unchanged.
///
/// Fails with:
///
/// - `BadPatch` if `patch` is not an array, or an element of it is not an operation.
/// - `NotFound` or `TypeUnmatched` if a pointer of an operation references nothing, or `remove` has
///   the pointer to the root.
/// - `TestFailed` if a `test` operation finds another value than its own.
/// - `NoMemory` if memory runs out.
///
/// The error names the operation by its index, unless memory ran out or `patch` is not an array.
///
/// ```
/// use json_doc::read_document;
/// use json_patch::apply_patch;
/// use json_value::{Value, View};
/// let doc = read_document(alloc, "{\"a\": [true]}")?;
/// let mut value = Value::from_place(alloc, &doc, doc.root())?;
/// let patch = read_document(alloc, "[{\"op\": \"add\", \"path\": \"/a/0\", \"value\": null}]")?;
/// apply_patch(alloc, &mut value, View::packed(patch.view()))?;
/// assert_eq!(rt; value.to_string(alloc)?.as_str(), "{\"a\":[null,true]}");
/// ```
pub fn apply_patch(alloc: Global, value: &mut Value, patch: View<'_>) -> Result<(), PatchError>
    requires few { length (elements (seen patch)) < 2 ^ 32 }
    ensures ok { OnOk result (patched (tree_of value.old) (seen patch.entry)
        ≡ Ok (tree_of value.new)) }
    ensures kept { OnErr result (value.new ≡ value.old) }
    ensures refused { IfErr result (λ e. PatchFails
        (patched (tree_of value.old) (seen patch.entry)) e.code e.op) }
    ensures children { OnOk result (PatchTouches (seen patch.entry) value.old value.new) }
{
    match patch.as_array() {
        Some(list) => {
            let mut work = match value.clone(alloc) {
                Ok(copy) => copy,
                Err(_) => return Err(memory_ran_out()),
            };
            apply_list(&mut work, alloc, list)?;
            *value = work;
            Ok(())
        }
        None => Err(PatchError {
            code: PatchCode::BadPatch,
            op: None,
        }),
    }
}
