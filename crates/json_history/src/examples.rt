//! Worked examples of changes and histories: each is the contract of a function that does nothing.
ghost use Rattle.json_history.specs.HistoryExamples.{MembersPutBack, InsertChanges, RemoveThenUndo, EditAfterUndo, NothingToUndo, SecondCallFails};

/// Shows that undoing a removal puts all members of the key back, each at the index that it had.
pub fn members_put_back()
    ensures { MembersPutBack }
{}

/// Shows that an insertion changes the first member with its key, or appends a member if there is
/// none.
pub fn insert_changes()
    ensures { InsertChanges }
{}

/// Shows that removing `a` from `{"a":1,"b":2,"a":3}` and undoing it gives that value, with the
/// removal to redo.
pub fn remove_then_undo()
    ensures { RemoveThenUndo }
{}

/// Shows on `[0]` that after an undo and another edit nothing can be redone.
pub fn edit_after_undo()
    ensures { EditAfterUndo }
{}

/// Shows that an undo and a redo change nothing if there is nothing to undo or redo.
pub fn nothing_to_undo()
    ensures { NothingToUndo }
{}

/// Shows that the error names the call 1, counted from 0, if the second of two calls is an edit
/// that does not apply.
pub fn second_call_fails()
    ensures { SecondCallFails }
{}
