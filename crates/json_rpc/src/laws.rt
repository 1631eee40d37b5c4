//! Laws of JSON-RPC over one document. Each function does nothing; its contract states the law.
ghost use Rattle.json_rpc.specs.Laws.{NotificationHasNoReply, NotificationHasItsEffect, ReplyHasTheId, InvalidHasNullId, ErrorLeavesTheDocument, InvalidLeavesTheDocument, OneResponseEach, BatchInTurn, NotificationsHaveNoReply, LookupFollowsThePath, LookupFailsAsAnEdit, UndoTakesBackTheChange, RedoTakesBackTheUndo, UndoTakesBackTheRedo, ChangeEndsRedo, HistoryIsBounded, OneMessage, SomeMessage};

/// States that a notification has no reply.
pub fn notification_has_no_reply()
    ensures { NotificationHasNoReply }
{}

/// States that a notification changes the document and its history as the same request with an id
/// does.
pub fn notification_has_its_effect()
    ensures { NotificationHasItsEffect }
{}

/// States that the reply to a valid request has the version, and the id as the request has it.
pub fn reply_has_the_id()
    ensures { ReplyHasTheId }
{}

/// States that the reply to a value that is not a valid request has the id null.
pub fn invalid_has_null_id()
    ensures { InvalidHasNullId }
{}

/// States that a request whose response is an error leaves the document unchanged, and what can be
/// undone and redone.
pub fn error_leaves_the_document()
    ensures { ErrorLeavesTheDocument }
{}

/// States that a value that is not a valid request leaves the document unchanged.
pub fn invalid_leaves_the_document()
    ensures { InvalidLeavesTheDocument }
{}

/// States that the reply to a batch has one response for each member that is not a notification.
pub fn one_response_each()
    ensures { OneResponseEach }
{}

/// States that the members of a batch are served in order, and that their responses have that
/// order.
pub fn batch_in_turn()
    ensures { BatchInTurn }
{}

/// States that a batch of notifications has no reply.
pub fn notifications_have_no_reply()
    ensures { NotificationsHaveNoReply }
{}

/// States that `get` returns the value that its path leads to.
pub fn lookup_follows_the_path()
    ensures { LookupFollowsThePath }
{}

/// States that `get` fails where an edit at the same path fails, and for the same reason.
pub fn lookup_fails_as_an_edit()
    ensures { LookupFailsAsAnEdit }
{}

/// States that `undo` after a change that applied gives back the document before it.
pub fn undo_takes_back_the_change()
    ensures { UndoTakesBackTheChange }
{}

/// States that `redo` after an `undo` that undid a change gives back the document, and what could be
/// undone and redone.
pub fn redo_takes_back_the_undo()
    ensures { RedoTakesBackTheUndo }
{}

/// States that `undo` after a `redo` that redid a change gives back the document, and what could be
/// undone and redone.
pub fn undo_takes_back_the_redo()
    ensures { UndoTakesBackTheRedo }
{}

/// States that nothing can be redone after a change that applied.
pub fn change_ends_redo()
    ensures { ChangeEndsRedo }
{}

/// States that at most 1,000 changes can be undone or redone after a request, if it was so before it.
pub fn history_is_bounded()
    ensures { HistoryIsBounded }
{}

/// States that a line is read in at most one way: as blank, as unreadable, or as one JSON value.
pub fn one_message()
    ensures { OneMessage }
{}

/// States that each line is read in some way: as blank, as unreadable, or as a JSON value.
pub fn some_message()
    ensures { SomeMessage }
{}
