// The methods and their params.
ghost use Rattle.std.specs.Prelude.{◌≡◌, IfOk, codes, option_map, ok_or};
ghost use Rattle.std.specs.Result.{result_map_both};
ghost use Rattle.json_number.specs.Numbers.{value_of};
ghost use Rattle.json_value.specs.Edits.{step_of, path_steps};
ghost use Rattle.json_value.specs.EditTrees.{each_in, index_of, step_in, path_in};
ghost use Rattle.json_value.specs.Seen.{seen, elements_seen};
ghost use Rattle.json_rpc.specs.Methods.{is_change, method_operation, requested_operation};
ghost use Rattle.json_rpc.specs.Denoted.{request_seen, operation_denoted};
ghost use Rattle.json_rpc.specs.declared.error.RpcError.TheVariants.{InvalidParams};
ghost use Rattle.json_io.specs.Errors.{OnlyNoMemory};

use crate::document_change::DocumentChange;
use crate::error::RpcError;
use crate::params::{has_no_params, one_param, three_params, two_params};
use crate::request::Request;
use json_io::Result;
use json_number::{JsonNumberTrait, Number};
use json_value::{ArrayView, Edit, Path, PointerNode, Text, View};
use std::alloc::Global;

/// What a request asks of the document: a value, a change, or that the last change is undone or
/// redone.
#[derive(Drop)]
pub(crate) enum RequestedOperation {
    Get(Path),
    Change(DocumentChange),
    Undo,
    Redo,
}

// Returns the index that a number is; `None` if it is no integer from 0 to 2^32 - 1.
fn index_of_number(number: Number) -> Option<u32>
    ensures { result ≡ index_of (value_of number) }
{
    u32::try_from(number.as_u64()?).ok()
}

// Reads a step: a key or an index.
fn try_read_step(alloc: Global, view: View<'_>) -> Result<Option<PointerNode>>
    ensures ok { IfOk result (λ o. option_map step_of o ≡ step_in (seen view.entry)) }
    ensures only { OnlyNoMemory result }
{
    if let Some(key) = view.text() {
        let key = Text::copy(alloc, key)?;
        return Ok(Some(PointerNode::Key(key)));
    }
    if let Some(number) = view.as_number() {
        if let Some(index) = index_of_number(number) {
            return Ok(Some(PointerNode::Index(index as usize)));
        }
    }
    Ok(None)
}

// Reads the path of which the elements are the steps.
fn try_read_steps(alloc: Global, array: ArrayView<'_>) -> Result<Option<Path>>
    ensures ok { IfOk result (λ o. option_map path_steps o
        ≡ each_in step_in (elements_seen array.entry)) }
    ensures only { OnlyNoMemory result }
{
    let mut path = Path::new(alloc);
    'steps: for element in array.iter() {
        match try_read_step(alloc, element)? {
            Some(step) => path.push(step)?,
            None => return Ok(None),
        }
    }
    Ok(Some(path))
}

// Reads a path: an array of steps.
fn try_read_path(alloc: Global, view: View<'_>) -> Result<Option<Path>>
    ensures ok { IfOk result (λ o. option_map path_steps o ≡ path_in (seen view.entry)) }
    ensures only { OnlyNoMemory result }
{
    match view.as_array() {
        Some(array) => try_read_steps(alloc, array),
        None => Ok(None),
    }
}

// Reads the params of `get`: `path`.
fn read_get(alloc: Global, params: Option<View<'_>>) -> Result<Option<RequestedOperation>>
    ensures ok { IfOk result (λ o. option_map operation_denoted o
        ≡ method_operation (codes "get") (option_map seen params.entry)) }
    ensures only { OnlyNoMemory result }
{
    let Some(path) = one_param(params, "path") else {
        return Ok(None);
    };
    match try_read_path(alloc, path)? {
        Some(path) => Ok(Some(RequestedOperation::Get(path))),
        None => Ok(None),
    }
}

// Reads the params of `set`: `path` and `value`.
fn read_set_params(alloc: Global, params: Option<View<'_>>) -> Result<Option<RequestedOperation>>
    ensures ok { IfOk result (λ o. option_map operation_denoted o
        ≡ method_operation (codes "set") (option_map seen params.entry)) }
    ensures only { OnlyNoMemory result }
{
    let Some((path, value)) = two_params(params, "path", "value") else {
        return Ok(None);
    };
    let Some(path) = try_read_path(alloc, path)? else {
        return Ok(None);
    };
    let value = value.to_value(alloc)?;
    let edit = Edit::Set { path, value };
    Ok(Some(RequestedOperation::Change(DocumentChange::Edit(edit))))
}

// Reads the params of `push`: `path` and `value`.
fn read_push_params(alloc: Global, params: Option<View<'_>>) -> Result<Option<RequestedOperation>>
    ensures ok { IfOk result (λ o. option_map operation_denoted o
        ≡ method_operation (codes "push") (option_map seen params.entry)) }
    ensures only { OnlyNoMemory result }
{
    let Some((path, value)) = two_params(params, "path", "value") else {
        return Ok(None);
    };
    let Some(path) = try_read_path(alloc, path)? else {
        return Ok(None);
    };
    let value = value.to_value(alloc)?;
    let edit = Edit::Push { path, value };
    Ok(Some(RequestedOperation::Change(DocumentChange::Edit(edit))))
}

// Reads the params of `remove`: `path` and `step`.
fn read_remove_params(alloc: Global, params: Option<View<'_>>) -> Result<Option<RequestedOperation>>
    ensures ok { IfOk result (λ o. option_map operation_denoted o
        ≡ method_operation (codes "remove") (option_map seen params.entry)) }
    ensures only { OnlyNoMemory result }
{
    let Some((path, step)) = two_params(params, "path", "step") else {
        return Ok(None);
    };
    let Some(path) = try_read_path(alloc, path)? else {
        return Ok(None);
    };
    match try_read_step(alloc, step)? {
        Some(step) => {
            let edit = Edit::Remove { path, step };
            Ok(Some(RequestedOperation::Change(DocumentChange::Edit(edit))))
        }
        None => Ok(None),
    }
}

// Reads the params of `insert`: `path`, `key` and `value`.
fn read_insert_params(alloc: Global, params: Option<View<'_>>) -> Result<Option<RequestedOperation>>
    ensures ok { IfOk result (λ o. option_map operation_denoted o
        ≡ method_operation (codes "insert") (option_map seen params.entry)) }
    ensures only { OnlyNoMemory result }
{
    let Some((path, key, value)) = three_params(params, "path", "key", "value") else {
        return Ok(None);
    };
    let Some(key) = key.text() else {
        return Ok(None);
    };
    let Some(path) = try_read_path(alloc, path)? else {
        return Ok(None);
    };
    let key = Text::copy(alloc, key)?;
    let value = value.to_value(alloc)?;
    let edit = Edit::Insert { path, key, value };
    Ok(Some(RequestedOperation::Change(DocumentChange::Edit(edit))))
}

// Reads the param of `patch`: `patch`.
fn read_patch_param(alloc: Global, params: Option<View<'_>>) -> Result<Option<RequestedOperation>>
    ensures ok { IfOk result (λ o. option_map operation_denoted o
        ≡ method_operation (codes "patch") (option_map seen params.entry)) }
    ensures only { OnlyNoMemory result }
{
    let Some(patch) = one_param(params, "patch") else {
        return Ok(None);
    };
    let patch = patch.to_value(alloc)?;
    Ok(Some(RequestedOperation::Change(DocumentChange::Patch(patch))))
}

// Reads the param of `merge`: `patch`.
fn read_merge_param(alloc: Global, params: Option<View<'_>>) -> Result<Option<RequestedOperation>>
    ensures ok { IfOk result (λ o. option_map operation_denoted o
        ≡ method_operation (codes "merge") (option_map seen params.entry)) }
    ensures only { OnlyNoMemory result }
{
    let Some(patch) = one_param(params, "patch") else {
        return Ok(None);
    };
    let patch = patch.to_value(alloc)?;
    Ok(Some(RequestedOperation::Change(DocumentChange::Merge(patch))))
}

// Reads the params of `undo`: there are none.
fn read_undo(params: Option<View<'_>>) -> Option<RequestedOperation>
    ensures { option_map operation_denoted result
        ≡ method_operation (codes "undo") (option_map seen params.entry) }
{
    if has_no_params(params) {
        Some(RequestedOperation::Undo)
    } else {
        None
    }
}

// Reads the params of `redo`: there are none.
fn read_redo(params: Option<View<'_>>) -> Option<RequestedOperation>
    ensures { option_map operation_denoted result
        ≡ method_operation (codes "redo") (option_map seen params.entry) }
{
    if has_no_params(params) {
        Some(RequestedOperation::Redo)
    } else {
        None
    }
}

// Returns the operation, or the error of invalid params.
fn or_invalid(
    operation: Option<RequestedOperation>,
) -> std::result::Result<RequestedOperation, RpcError>
    ensures { result ≡ ok_or operation InvalidParams }
{
    match operation {
        Some(operation) => Ok(operation),
        None => Err(RpcError::InvalidParams),
    }
}

/// Returns whether the method of this name changes the document.
pub(crate) fn is_change(method: &str) -> bool
    ensures { result ≡ is_change method.now }
{
    matches!(
        method,
        "set" | "insert" | "push" | "remove" | "patch" | "merge" | "undo" | "redo"
    )
}

/// Reads the operation that a request asks for. The inner error is the one of the response:
/// `MethodNotFound` or `InvalidParams`. Fails with `NoMemory` if memory runs out.
pub(crate) fn read_requested_operation(
    alloc: Global,
    request: &Request<'_>,
) -> Result<std::result::Result<RequestedOperation, RpcError>>
    ensures ok { IfOk result (λ r. result_map_both operation_denoted (λ f. f) r
        ≡ requested_operation (request_seen request.now)) }
    ensures only { OnlyNoMemory result }
{
    let params = request.params;
    let operation = match request.method {
        "get" => read_get(alloc, params)?,
        "set" => read_set_params(alloc, params)?,
        "insert" => read_insert_params(alloc, params)?,
        "push" => read_push_params(alloc, params)?,
        "remove" => read_remove_params(alloc, params)?,
        "patch" => read_patch_param(alloc, params)?,
        "merge" => read_merge_param(alloc, params)?,
        "undo" => read_undo(params),
        "redo" => read_redo(params),
        _ => return Ok(Err(RpcError::MethodNotFound)),
    };
    Ok(or_invalid(operation))
}
