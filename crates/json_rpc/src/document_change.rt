// Changes of the document.
ghost use Rattle.std.specs.Prelude.{◌≡◌, ◌<◌, ◌↔◌, ◌^◌, length, IfOk, IsTrue, Ok, OnErr, OnOk};
ghost use Rattle.json_doc.specs.Readings.{elements};
ghost use Rattle.json_io.specs.Errors.{OnlyNoMemory, no_memory};
ghost use Rattle.json_value.specs.Denotes.{tree_of};
ghost use Rattle.json_value.specs.Edits.{edit_of};
ghost use Rattle.json_value.specs.Seen.{seen};
ghost use Rattle.json_history.specs.History.{after_edit};
ghost use Rattle.json_history.specs.LogOfHistory.{log_of};
ghost use Rattle.json_rpc.specs.Methods.{edit as edit_by, patch as patch_by, merge as merge_by};
ghost use Rattle.json_rpc.specs.Perform.{ChangesDocument, ChangesHistory};
ghost use Rattle.json_rpc.specs.Denoted.{change_denoted, tree_history};

use crate::error::RpcError;
use json_history::History;
use json_io::{Error, ErrorCode, Place, Result};
use json_patch::{PatchCode, apply_merge, apply_patch};
use json_value::{Edit, Path, Value, View};
use std::alloc::Global;

/// A change of the document: an edit, a JSON Patch (RFC 6902) or a JSON Merge Patch (RFC 7396).
#[derive(Drop)]
pub(crate) enum DocumentChange {
    Edit(Edit),
    Patch(Value),
    Merge(Value),
}

// Applies an edit, or returns the error that it does not apply.
#[tactic(auto, using(crate::proofs::ChangedDocuments::edit_fails, crate::proofs::ChangedDocuments::same_history))]
fn apply_edit(
    alloc: Global,
    history: &mut History,
    edit: Edit,
) -> Result<std::result::Result<(), RpcError>>
    ensures ok { IfOk result (λ r. ChangesHistory (tree_history history.old)
        (edit_by (edit_of edit)) (tree_history history.new) r) }
    ensures refused { IfOk result (λ r. OnErr r (log_of history.new ≡ log_of history.old)) }
    ensures kept { OnErr result (log_of history.new ≡ log_of history.old) }
    ensures only { OnlyNoMemory result }
{
    match history.apply(alloc, edit) {
        Ok(()) => Ok(Ok(())),
        Err(error) => match error.code {
            ErrorCode::NotFound => Ok(Err(RpcError::NotFound)),
            ErrorCode::TypeUnmatched => Ok(Err(RpcError::TypeUnmatched)),
            _ => Err(error),
        },
    }
}

// Returns the error that memory ran out.
fn memory_ran_out() -> Error
    ensures { result ≡ no_memory }
{
    Error {
        code: ErrorCode::NoMemory,
        place: Place::None,
    }
}

// Returns whether a patch has fewer than 4,294,967,296 operations.
fn has_few_operations(patch: View<'_>) -> bool
    ensures { IsTrue result ↔ (length (elements (seen patch.entry)) < 2 ^ 32) }
{
    match patch.as_array() {
        Some(list) => list.len() <= u32::MAX as usize,
        None => true,
    }
}

// Applies a JSON Patch (RFC 6902), or returns the error that it does not apply. No line has room
// for 4,294,967,296 operations; so many are refused as if memory ran out.
#[tactic(auto, using(crate::proofs::ChangedDocuments::patch_fails, crate::proofs::ChangedDocuments::patch_applies))]
fn apply_json_patch(
    alloc: Global,
    document: &mut Value,
    patch: View<'_>,
) -> Result<std::result::Result<(), RpcError>>
    ensures ok { IfOk result (λ r. ChangesDocument (tree_of document.old)
        (patch_by (seen patch.entry)) (tree_of document.new) r) }
    ensures kept { OnErr result (tree_of document.new ≡ tree_of document.old) }
    ensures only { OnlyNoMemory result }
{
    if !has_few_operations(patch) {
        return Err(memory_ran_out());
    }
    match apply_patch(alloc, document, patch) {
        Ok(()) => Ok(Ok(())),
        Err(error) => match error.code {
            PatchCode::NotFound => Ok(Err(RpcError::NotFound)),
            PatchCode::TypeUnmatched => Ok(Err(RpcError::TypeUnmatched)),
            PatchCode::TestFailed => Ok(Err(RpcError::TestFailed)),
            PatchCode::BadPatch => Ok(Err(RpcError::InvalidParams)),
            PatchCode::NoMemory | PatchCode::BadPointer => Err(memory_ran_out()),
        },
    }
}

// Applies a JSON Merge Patch (RFC 7396).
fn apply_merge_patch(
    alloc: Global,
    document: &mut Value,
    patch: View<'_>,
) -> Result<std::result::Result<(), RpcError>>
    ensures ok { IfOk result (λ r. ChangesDocument (tree_of document.old)
        (merge_by (seen patch.entry)) (tree_of document.new) r) }
    ensures kept { OnErr result (tree_of document.new ≡ tree_of document.old) }
    ensures only { OnlyNoMemory result }
{
    match apply_merge(alloc, document, patch) {
        Ok(()) => Ok(Ok(())),
        Err(_) => Err(memory_ran_out()),
    }
}

// Replaces the document.
fn replace_document(alloc: Global, history: &mut History, next: Value) -> Result<()>
    ensures ok { OnOk result (tree_history history.new
        ≡ after_edit (tree_history history.old) (Ok (tree_of next))) }
    ensures kept { OnErr result (log_of history.new ≡ log_of history.old) }
    ensures only { OnlyNoMemory result }
{
    let path = Path::new(alloc);
    history.apply(alloc, Edit::Set { path, value: next })
}

// Replaces the document by a copy to which a JSON Patch was applied, or returns the error that the
// patch does not apply.
#[tactic(auto, using(crate::proofs::ChangedDocuments::history_changed, crate::proofs::ChangedDocuments::history_kept))]
fn change_by_patch(
    alloc: Global,
    history: &mut History,
    patch: View<'_>,
) -> Result<std::result::Result<(), RpcError>>
    ensures ok { IfOk result (λ r. ChangesHistory (tree_history history.old)
        (patch_by (seen patch.entry)) (tree_history history.new) r) }
    ensures refused { IfOk result (λ r. OnErr r (log_of history.new ≡ log_of history.old)) }
    ensures kept { OnErr result (log_of history.new ≡ log_of history.old) }
    ensures only { OnlyNoMemory result }
{
    let mut next = history.value().clone(alloc)?;
    match apply_json_patch(alloc, &mut next, patch)? {
        Ok(()) => {
            replace_document(alloc, history, next)?;
            Ok(Ok(()))
        }
        Err(error) => Ok(Err(error)),
    }
}

// Replaces the document by a copy to which a JSON Merge Patch was applied.
#[tactic(auto, using(crate::proofs::ChangedDocuments::history_changed, crate::proofs::ChangedDocuments::history_kept))]
fn change_by_merge(
    alloc: Global,
    history: &mut History,
    patch: View<'_>,
) -> Result<std::result::Result<(), RpcError>>
    ensures ok { IfOk result (λ r. ChangesHistory (tree_history history.old)
        (merge_by (seen patch.entry)) (tree_history history.new) r) }
    ensures refused { IfOk result (λ r. OnErr r (log_of history.new ≡ log_of history.old)) }
    ensures kept { OnErr result (log_of history.new ≡ log_of history.old) }
    ensures only { OnlyNoMemory result }
{
    let mut next = history.value().clone(alloc)?;
    match apply_merge_patch(alloc, &mut next, patch)? {
        Ok(()) => {
            replace_document(alloc, history, next)?;
            Ok(Ok(()))
        }
        Err(error) => Ok(Err(error)),
    }
}

/// Makes a change of the document, which can be undone. The inner error is the one of the response,
/// if the change does not apply; nothing is changed then. Fails with `NoMemory` if memory runs out;
/// nothing is changed then either.
pub(crate) fn apply_change(
    alloc: Global,
    history: &mut History,
    change: DocumentChange,
) -> Result<std::result::Result<(), RpcError>>
    ensures ok { IfOk result (λ r. ChangesHistory (tree_history history.old)
        (change_denoted change) (tree_history history.new) r) }
    ensures refused { IfOk result (λ r. OnErr r (log_of history.new ≡ log_of history.old)) }
    ensures kept { OnErr result (log_of history.new ≡ log_of history.old) }
    ensures only { OnlyNoMemory result }
{
    match change {
        DocumentChange::Edit(edit) => apply_edit(alloc, history, edit),
        DocumentChange::Patch(patch) => change_by_patch(alloc, history, patch.view()),
        DocumentChange::Merge(patch) => change_by_merge(alloc, history, patch.view()),
    }
}
