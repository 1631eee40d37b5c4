//! Laws of changes and histories: each is the contract of a function that does nothing. A history
//! is the current value, the past, which are the values to undo to, and the future, those to redo
//! to. A change log is its form in memory: changes to undo and edits to redo, in place of values.
ghost use Rattle.json_history.specs.Laws.{ChangeFailsAsEdit, LogApplies, LogFollowsCall, LogRepresentsHistory, EmptyPastOrFuture, RedoAfterUndo, RedoRepeatsEdit, RedosAfterUndos, RunCallsIsAfterCalls, UndoAfterEdit, UndoAfterRedo, UndoInvertsEdit, UndosAfterEdits};

/// States that the change of an edit undoes the edit.
pub fn undo_inverts_edit()
    ensures { UndoInvertsEdit }
{}

/// States that the edit which redoes an undone edit makes the same value as that edit, and has the
/// same change.
pub fn redo_repeats_edit()
    ensures { RedoRepeatsEdit }
{}

/// States that an edit which does not apply has no change, for the same reason.
pub fn change_fails_as_edit()
    ensures { ChangeFailsAsEdit }
{}

/// States that an edit and an undo give the same value and past. The future is then what the edit
/// made.
pub fn undo_after_edit()
    ensures { UndoAfterEdit }
{}

/// States that an undo and a redo give the same history, if there is a past.
pub fn redo_after_undo()
    ensures { RedoAfterUndo }
{}

/// States that a redo and an undo give the same history, if there is a future.
pub fn undo_after_redo()
    ensures { UndoAfterRedo }
{}

/// States that several undos and as many redos give the same history, if the past has that many
/// values.
pub fn redos_after_undos()
    ensures { RedosAfterUndos }
{}

/// States that edits which apply in turn, and as many undos, give the same value and past.
pub fn undos_after_edits()
    ensures { UndosAfterEdits }
{}

/// States that an undo without a past and a redo without a future change nothing.
pub fn empty_past_or_future()
    ensures { EmptyPastOrFuture }
{}

/// States that after any calls the change log is valid and represents the history after these
/// calls.
pub fn log_represents_history()
    ensures { LogRepresentsHistory }
{}

/// States that a valid change log represents a history. After any call it is valid and represents
/// the history after the call.
pub fn log_follows_call()
    ensures { LogFollowsCall }
{}

/// States that in a valid change log the latest change can be undone, and the next edit to redo
/// applies.
pub fn log_applies()
    ensures { LogApplies }
{}

/// States that running calls whose edits all apply gives the history after these calls.
pub fn run_calls_is_after_calls()
    ensures { RunCallsIsAfterCalls }
{}
