// Performs an operation on the document and its history.
ghost use Rattle.std.specs.Prelude.{◌≡◌, IfOk, OnErr, option_map};
ghost use Rattle.std.specs.Result.{result_map_both};
ghost use Rattle.json_value.specs.Edits.{step_of, steps_of, path_steps};
ghost use Rattle.json_value.specs.Seen.{seen};
ghost use Rattle.json_history.specs.History.{is_nonempty};
ghost use Rattle.json_history.specs.LogOfHistory.{log_of};
ghost use Rattle.json_rpc.specs.Methods.{rpc_error_of, step_into, tree_at_path, get as get_at, change as change_by, undo as undo_last, redo as redo_next, performed};
ghost use Rattle.json_rpc.specs.Perform.{container_type};
ghost use Rattle.json_rpc.specs.Denoted.{change_denoted, tree_history};
ghost use Rattle.json_rpc.specs.Serving.{responded};
ghost use Rattle.json_io.specs.Errors.{OnlyNoMemory};

use crate::document_change::{DocumentChange, apply_change};
use crate::error::RpcError;
use crate::response::{Respond, error_response, result_response};
use json_doc::JsonType;
use json_history::History;
use json_io::Result;
use json_value::{Path, PointerNode, Value, View};
use std::alloc::Global;

// At most this many changes can be undone.
const MAX_UNDOS: usize = 1000;

// Returns the type of the values that a step leads into.
fn container_type(step: &PointerNode) -> JsonType
    ensures { result ≡ container_type (step_of step.now) }
{
    match step {
        PointerNode::Key(_) => JsonType::Object,
        PointerNode::Index(_) => JsonType::Array,
    }
}

// Returns the value that a step leads to, or the error that there is none.
fn step_into<'a>(here: View<'a>, step: &PointerNode) -> std::result::Result<View<'a>, RpcError>
    ensures { result_map_both seen (λ f. f) result
        ≡ result_map_both (λ u. u) rpc_error_of (step_into (step_of step.now) (seen here.entry)) }
{
    if here.get_type() != container_type(step) {
        return Err(RpcError::TypeUnmatched);
    }
    match here.get(step) {
        Some(next) => Ok(next),
        None => Err(RpcError::NotFound),
    }
}

// Returns the value that a path leads to, or the error that there is none.
fn find_at_path<'a>(root: View<'a>, path: &[PointerNode]) -> std::result::Result<View<'a>, RpcError>
    ensures { result_map_both seen (λ f. f) result
        ≡ result_map_both (λ u. u) rpc_error_of
        (tree_at_path (steps_of path.now) (seen root.entry)) }
{
    let mut here = root;
    'steps: for step in path {
        match step_into(here, step) {
            Ok(next) => here = next,
            Err(error) => return Err(error),
        }
    }
    Ok(here)
}

/// Returns the response to a `get` of this path by a request with this id; `None` without an id.
/// Fails with `NoMemory` if memory runs out.
pub(crate) fn respond_to_get<R: Respond>(
    alloc: Global,
    history: &History,
    path: &Path,
    id: Option<View<'_>>,
) -> Result<Option<R>>
    ensures ok { IfOk result (λ o.
        responded (tree_history history.now) (option_map seen id.entry)
        (performed (get_at (path_steps path.now)) (tree_history history.now))
        ≡ (tree_history history.now, option_map R.response o)) }
    ensures only { OnlyNoMemory result }
{
    match find_at_path(history.value().view(), path.steps()) {
        Ok(place) => {
            let value = place.to_value(alloc)?;
            result_response(alloc, value, id)
        }
        Err(error) => error_response(alloc, error, id),
    }
}

/// Makes a change of the document, which can be undone, and returns the response to a request with
/// this id; `None` without an id. Fails with `NoMemory` if memory runs out; nothing is changed then.
#[tactic(auto, using(crate::proofs::ChangedDocuments::change_performed, crate::proofs::ChangedDocuments::change_refused))]
pub(crate) fn change_document<R: Respond>(
    alloc: Global,
    history: &mut History,
    change: DocumentChange,
    id: Option<View<'_>>,
) -> Result<Option<R>>
    ensures ok { IfOk result (λ o.
        responded (tree_history history.old) (option_map seen id.entry)
        (performed (change_by (change_denoted change)) (tree_history history.old))
        ≡ (tree_history history.new, option_map R.response o)) }
    ensures kept { OnErr result (log_of history.new ≡ log_of history.old) }
    ensures only { OnlyNoMemory result }
{
    // The response is made first, so that nothing is changed if memory runs out.
    let done = result_response(alloc, Value::new_null(), id)?;
    match apply_change(alloc, history, change)? {
        Ok(()) => {
            history.limit(MAX_UNDOS);
            Ok(done)
        }
        Err(error) => error_response(alloc, error, id),
    }
}

// Returns whether there is a change to undo.
#[tactic(auto, using(crate::proofs::ChangedDocuments::some_counted))]
fn can_undo(history: &History) -> bool
    ensures { result ≡ is_nonempty (tree_history history.now).past }
{
    history.undo_count() != 0
}

// Returns whether there is a change to redo.
#[tactic(auto, using(crate::proofs::ChangedDocuments::some_counted))]
fn can_redo(history: &History) -> bool
    ensures { result ≡ is_nonempty (tree_history history.now).future }
{
    history.redo_count() != 0
}

/// Undoes the last change, if there is one, and returns the response to a request with this id;
/// `None` without an id. Fails with `NoMemory` if memory runs out; nothing is changed then.
pub(crate) fn undo_change<R: Respond>(
    alloc: Global,
    history: &mut History,
    id: Option<View<'_>>,
) -> Result<Option<R>>
    ensures ok { IfOk result (λ o.
        responded (tree_history history.old) (option_map seen id.entry)
        (performed undo_last (tree_history history.old))
        ≡ (tree_history history.new, option_map R.response o)) }
    ensures kept { OnErr result (log_of history.new ≡ log_of history.old) }
    ensures only { OnlyNoMemory result }
{
    // The response is made first, so that nothing is changed if memory runs out.
    let response = result_response(alloc, Value::new_bool(can_undo(history)), id)?;
    history.undo(alloc)?;
    Ok(response)
}

/// Redoes the change that was undone last, if there is one, and returns the response to a request
/// with this id; `None` without an id. Fails with `NoMemory` if memory runs out; nothing is changed
/// then.
pub(crate) fn redo_change<R: Respond>(
    alloc: Global,
    history: &mut History,
    id: Option<View<'_>>,
) -> Result<Option<R>>
    ensures ok { IfOk result (λ o.
        responded (tree_history history.old) (option_map seen id.entry)
        (performed redo_next (tree_history history.old))
        ≡ (tree_history history.new, option_map R.response o)) }
    ensures kept { OnErr result (log_of history.new ≡ log_of history.old) }
    ensures only { OnlyNoMemory result }
{
    // The response is made first, so that nothing is changed if memory runs out.
    let response = result_response(alloc, Value::new_bool(can_redo(history)), id)?;
    history.redo(alloc)?;
    Ok(response)
}
