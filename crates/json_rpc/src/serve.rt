// Serves a value: one request, or a batch of them.
ghost use Rattle.std.specs.Prelude.{◌≡◌, IfOk, OnErr, Some, false, true, map, option_map};
ghost use Rattle.std.specs.List.{list_all};
ghost use Rattle.json_grammar.specs.Tree.{null};
ghost use Rattle.json_value.specs.Denotes.{tree_of};
ghost use Rattle.json_value.specs.Seen.{seen, elements_seen};
ghost use Rattle.json_history.specs.LogOfHistory.{log_of};
ghost use Rattle.json_rpc.specs.Responses.{error_response};
ghost use Rattle.json_rpc.specs.Methods.{is_change};
ghost use Rattle.json_rpc.specs.Serving.{responded, executed, member_served, batch_served, batch_reply, whole_batch_served, served_tree, member_only_reads, tree_only_reads};
ghost use Rattle.json_rpc.specs.Denoted.{request_seen, tree_history};
ghost use Rattle.json_rpc.specs.declared.error.RpcError.TheVariants.{InvalidRequest};
ghost use Rattle.json_io.specs.Errors.{OnlyNoMemory};

use crate::error::RpcError;
use crate::operation::{RequestedOperation, is_change, read_requested_operation};
use crate::perform::{change_document, redo_change, respond_to_get, undo_change};
use crate::request::{Request, read_request};
use crate::response::{Respond, error_response};
use json_history::History;
use json_io::Result;
use json_value::{ArrayView, Value, View};
use std::alloc::Global;

// Executes a request and returns its response; `None` for a notification.
fn perform_request<R: Respond>(
    alloc: Global,
    history: &mut History,
    request: &Request<'_>,
) -> Result<Option<R>>
    ensures ok { IfOk result (λ o. let r = request_seen request.now in
        responded (tree_history history.old) r.id (executed r (tree_history history.old))
        ≡ (tree_history history.new, option_map R.response o)) }
    ensures kept { OnErr result (log_of history.new ≡ log_of history.old) }
    ensures reads { is_change (request_seen request.now).method ≡ false
        → history.new ≡ history.old }
    ensures only { OnlyNoMemory result }
{
    match read_requested_operation(alloc, request)? {
        Ok(RequestedOperation::Get(path)) => respond_to_get(alloc, history, &path, request.id),
        Ok(RequestedOperation::Change(change)) => {
            change_document(alloc, history, change, request.id)
        }
        Ok(RequestedOperation::Undo) => undo_change(alloc, history, request.id),
        Ok(RequestedOperation::Redo) => redo_change(alloc, history, request.id),
        Err(error) => error_response(alloc, error, request.id),
    }
}

// Returns the response to a value that is no valid request.
fn invalid_request<R: Respond>(alloc: Global) -> Result<R>
    ensures ok { IfOk result (λ r. R.response r ≡ error_response InvalidRequest null) }
    ensures only { OnlyNoMemory result }
{
    R::with_error(alloc, RpcError::InvalidRequest, Value::new_null())
}

// Serves one request.
fn serve_member<R: Respond>(
    alloc: Global,
    history: &mut History,
    view: View<'_>,
) -> Result<Option<R>>
    ensures ok { IfOk result (λ o. member_served (tree_history history.old) (seen view.entry)
        ≡ (tree_history history.new, option_map R.response o)) }
    ensures kept { OnErr result (log_of history.new ≡ log_of history.old) }
    ensures reads { member_only_reads (seen view.entry) ≡ true → history.new ≡ history.old }
    ensures only { OnlyNoMemory result }
{
    match read_request(view) {
        Some(request) => perform_request(alloc, history, &request),
        None => {
            let reply = invalid_request(alloc)?;
            Ok(Some(reply))
        }
    }
}

// Serves the members of a batch in turn, and returns their responses.
fn serve_members(alloc: Global, history: &mut History, members: ArrayView<'_>) -> Result<Vec<Value>>
    ensures ok { IfOk result (λ rs.
        batch_served (tree_history history.old) (elements_seen members.entry)
        ≡ (tree_history history.new, map tree_of rs.items)) }
    ensures reads { list_all member_only_reads (elements_seen members.entry) ≡ true
        → history.new ≡ history.old }
    ensures only { OnlyNoMemory result }
{
    let mut replies = Vec::new(alloc);
    'members: for member in members.iter() {
        if let Some(reply) = serve_member(alloc, history, member)? {
            replies.push(reply)?;
        }
    }
    Ok(replies)
}

// Returns the reply to a batch; `None` if there is no response.
fn reply_of<R: Respond>(responses: Vec<Value>) -> Option<R>
    ensures { option_map R.response result ≡ batch_reply (map tree_of responses.items) }
{
    if responses.is_empty() {
        None
    } else {
        Some(R::of_batch(Value::from_vec(responses)))
    }
}

// Returns whether a member of a batch asks for no change.
fn only_reads(view: View<'_>) -> bool
    ensures { result ≡ member_only_reads (seen view.entry) }
{
    match read_request(view) {
        Some(request) => !is_change(request.method),
        None => true,
    }
}

// Returns whether each member of a batch asks for no change.
fn all_only_read(members: ArrayView<'_>) -> bool
    ensures { result ≡ list_all member_only_reads (elements_seen members.entry) }
{
    'members: for member in members.iter() {
        if !only_reads(member) {
            return false;
        }
    }
    true
}

/// Returns whether a value asks for no change: as a request, or each member of a batch.
pub(crate) fn tree_only_reads(view: View<'_>) -> bool
    ensures { result ≡ tree_only_reads (seen view.entry) }
{
    match view.as_array() {
        Some(members) => all_only_read(members),
        None => only_reads(view),
    }
}

// Serves a batch that has a member. One with a change is served on a clone of the history, so that
// nothing is changed if memory runs out half way.
fn serve_batch<R: Respond>(
    alloc: Global,
    history: &mut History,
    members: ArrayView<'_>,
) -> Result<Option<R>>
    ensures ok { IfOk result (λ o.
        whole_batch_served (tree_history history.old) (elements_seen members.entry)
        ≡ (tree_history history.new, option_map R.response o)) }
    ensures kept { OnErr result (log_of history.new ≡ log_of history.old) }
    ensures reads { list_all member_only_reads (elements_seen members.entry) ≡ true
        → history.new ≡ history.old }
    ensures only { OnlyNoMemory result }
{
    if all_only_read(members) {
        let replies = serve_members(alloc, history, members)?;
        return Ok(reply_of(replies));
    }
    let mut next = history.clone(alloc)?;
    let replies = serve_members(alloc, &mut next, members)?;
    *history = next;
    Ok(reply_of(replies))
}

/// Serves a value: as a batch if it is an array, and else as one request. Returns the reply; `None`
/// if there is none. Fails with `NoMemory` if memory runs out; the history is unchanged then.
pub(crate) fn serve_tree<R: Respond>(
    alloc: Global,
    history: &mut History,
    view: View<'_>,
) -> Result<Option<R>>
    ensures ok { IfOk result (λ o. served_tree (tree_history history.old) (seen view.entry)
        ≡ (tree_history history.new, option_map R.response o)) }
    ensures kept { OnErr result (log_of history.new ≡ log_of history.old) }
    ensures reads { tree_only_reads (seen view.entry) ≡ true → history.new ≡ history.old }
    ensures only { OnlyNoMemory result }
{
    let Some(members) = view.as_array() else {
        return serve_member(alloc, history, view);
    };
    if members.is_empty() {
        let reply = invalid_request(alloc)?;
        return Ok(Some(reply));
    }
    serve_batch(alloc, history, members)
}
