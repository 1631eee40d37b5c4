// A value with the changes that undo its edits, and the edits that redo what was undone.
ghost use Rattle.std.specs.Prelude.{◌≡◌, IfOk, Ok, OnOk, OnErr, [], length};
ghost use Rattle.json_model.specs.Edit.{edited_once};
ghost use Rattle.json_value.specs.Denotes.{tree_of};
ghost use Rattle.json_value.specs.Edits.{edit_of, edit_path, FailsAs};
ghost use Rattle.json_value.specs.Places.{places_in};
ghost use Rattle.json_value.specs.Positions.{doc_position};
ghost use Rattle.json_value.specs.Touched.{Touches, KeepsOnRefusal};
ghost use Rattle.json_history.specs.History.{IsValidLog, new_log, log_edit, log_call, undo, redo, is_nonempty};
ghost use Rattle.json_history.specs.History.{new_history, after_call, edit as edits, history_of};
ghost use Rattle.json_history.specs.Limits.{limit_changes, limit_past, last_entries, without_redos, without_future};
ghost use Rattle.json_history.specs.Logs.{log_in, changes_of};
ghost use Rattle.json_history.specs.Restores.{UndoTouches, UndoKeeps, RedoTouches, RedoKeeps};
ghost use Rattle.json_history.specs.SharedParts.{AppendsChange, MovesToRedos, MovesToChanges};
ghost use Rattle.json_io.specs.Errors.{OnlyNoMemory};

use crate::change::Change;
use crate::copies::{copy_changes, copy_redos};
use crate::redo::Redo;
use crate::steps::{apply_and_log, keep_last, redo_next, undo_last};
use json_io::Result;
use json_value::{Edit, Value};
use std::alloc::Global;

/// A value whose edits can be undone and redone.
///
/// It holds the current value; for each edit that can be undone, the [`Change`] that undoes it; and
/// for each undone edit, an edit that redoes it. A change holds what its edit replaced or removed.
/// What is still part of the document that the value was read from is shared with it; all else is
/// copied.
///
/// ```
/// use json_data::from_str;
/// use json_history::History;
/// use json_value::{Edit, Value};
/// let mut history = History::new(alloc, from_str::<Value>(alloc, "{\"a\":1,\"a\":2}")?);
/// history.apply(alloc, from_str::<Edit>(alloc, "[\"remove\",[],\"a\"]")?)?;
/// assert_eq!(rt; history.value().to_string(alloc)?.as_str(), "{}");
/// assert!(rt; history.undo(alloc)?);
/// assert_eq!(rt; history.value().to_string(alloc)?.as_str(), "{\"a\":1,\"a\":2}");
/// assert!(rt; history.redo(alloc)?);
/// assert_eq!(rt; (history.undo_count(), history.redo_count()), (1, 0));
/// ```
#[derive(Drop)]
pub struct History {
    pub(crate) value: Value,
    pub(crate) changes: Vec<Change>,
    pub(crate) redos: Vec<Redo>,
    ghost valid: { ∥ IsValidLog (log_in value changes.items redos.items) ∥₁ },
}

impl History {
    ghost use Rattle.json_history.specs.LogOfHistory.{log_of, history_value, changes_in, redos_in};

    /// Creates a history whose current value is `value`, with nothing to undo or redo. Allocates no
    /// memory.
    pub fn new(alloc: Global, value: Value) -> History
        ensures log { log_of result ≡ new_log (tree_of value) }
        ensures history { history_of (log_of result) ≡ new_history (tree_of value) }
        ensures value { history_value result ≡ value }
    {
        History {
            value,
            changes: Vec::new(alloc),
            redos: Vec::new(alloc),
        }
    }

    /// Returns the current value.
    pub fn value(&self) -> &Value
        ensures tree { tree_of result.now ≡ (log_of self.now).value }
        ensures value { result.now ≡ history_value self.now }
    {
        &self.value
    }

    /// Returns the changes that undo the edits, one for each edit that can be undone, from the
    /// oldest to the latest.
    pub fn changes(&self) -> &[Change]
        ensures log { changes_of result.now ≡ (log_of self.now).changes }
        ensures list { result.now ≡ changes_in self.now }
    {
        self.changes.as_slice()
    }

    /// Returns the number of edits that can be undone.
    pub fn undo_count(&self) -> usize
        ensures log { result ≡ length (log_of self.now).changes }
        ensures history { result ≡ length (history_of (log_of self.now)).past }
    {
        self.changes.len()
    }

    /// Returns the number of edits that can be redone.
    pub fn redo_count(&self) -> usize
        ensures log { result ≡ length (log_of self.now).redos }
        ensures history { result ≡ length (history_of (log_of self.now)).future }
    {
        self.redos.len()
    }

    /// Returns a copy of this history: of its value, of the edits to undo and of those to redo.
    /// Packed parts of the value stay packed. Fails with `NoMemory` if memory runs out.
    ///
    /// ```
    /// use json_data::from_str;
    /// use json_history::History;
    /// use json_value::{Edit, Value};
    /// let mut history = History::new(alloc, from_str::<Value>(alloc, "[]")?);
    /// history.apply(alloc, from_str::<Edit>(alloc, "[\"push\",[],1]")?)?;
    /// let mut copy = history.clone(alloc)?;
    /// assert!(rt; copy.undo(alloc)?);
    /// assert_eq!(rt; copy.value().to_string(alloc)?.as_str(), "[]");
    /// assert_eq!(rt; history.into_value().to_string(alloc)?.as_str(), "[1]");
    /// ```
    pub fn clone(&self, alloc: Global) -> Result<History>
        ensures log { IfOk result (λ h. log_of h ≡ log_of self.now) }
        ensures position { IfOk result (λ h. doc_position (history_value h)
            ≡ doc_position (history_value self.now)) }
        ensures places { IfOk result (λ h. places_in (history_value h)
            ≡ places_in (history_value self.now)) }
        ensures only { OnlyNoMemory result }
    {
        let current = self.value.clone(alloc)?;
        let changes = copy_changes(alloc, self.changes())?;
        let redos = copy_redos(alloc, self.redos.as_slice())?;
        Ok(History {
            value: current,
            changes,
            redos,
        })
    }

    /// Consumes the history and returns its current value.
    pub fn into_value(self) -> Value
        ensures tree { tree_of result ≡ (log_of self).value }
        ensures value { result ≡ history_value self }
    {
        self.value
    }

    /// Applies `edit` to the current value. Nothing can be redone afterwards: edits that were
    /// undone are dropped.
    ///
    /// Fails with `NotFound` if a key or an index that the edit needs is missing. Fails with
    /// `TypeUnmatched` if the edit needs an object or an array and meets another value. Fails with
    /// `NoMemory` if memory runs out. After an error the value, the edits to undo and those to redo
    /// are the same as before the call.
    pub fn apply(&mut self, alloc: Global, edit: Edit) -> Result<()>
        ensures ok { OnOk result
            (log_edit (log_of self.old) (edit_of edit) ≡ Ok (log_of self.new)) }
        ensures history { OnOk result (history_of (log_of self.new)
            ≡ after_call (history_of (log_of self.old)) (edits (edit_of edit))) }
        ensures kept { OnErr result (log_of self.new ≡ log_of self.old) }
        ensures refused { FailsAs (edited_once (edit_of edit) (log_of self.old).value) result }
        ensures children { OnOk result
            (Touches (edit_path edit) edit (history_value self.old) (history_value self.new)) }
        ensures kept_along { OnErr result
            (KeepsOnRefusal (edit_path edit) edit (history_value self.old)
            (history_value self.new)) }
        ensures lists { OnErr result ((changes_in self.new ≡ changes_in self.old)
            × (redos_in self.new ≡ redos_in self.old)) }
        ensures shares { OnOk result
            (AppendsChange (history_value self.old) (changes_in self.old) (changes_in self.new)) }
    {
        apply_and_log(
            alloc,
            &mut self.value,
            &mut self.changes,
            &mut self.redos,
            edit,
        )
    }

    /// Undoes the latest edit that is not undone, and returns `true`. Returns `false` if there is
    /// none.
    ///
    /// Fails with `NoMemory` if memory runs out. After an error the value, the edits to undo and
    /// those to redo are the same as before the call.
    pub fn undo(&mut self, alloc: Global) -> Result<bool>
        ensures ok { OnOk result (log_of self.new ≡ log_call (log_of self.old) undo) }
        ensures answer { IfOk result (λ b. b ≡ is_nonempty (log_of self.old).changes) }
        ensures history { OnOk result (history_of (log_of self.new)
            ≡ after_call (history_of (log_of self.old)) undo) }
        ensures kept { OnErr result (log_of self.new ≡ log_of self.old) }
        ensures children { OnOk result
            (UndoTouches (changes_in self.old) (history_value self.old) (history_value self.new)) }
        ensures moves { OnOk result (MovesToRedos (history_value self.old)
            (changes_in self.old) (changes_in self.new) (redos_in self.old) (redos_in self.new)) }
        ensures kept_along { OnErr result
            (UndoKeeps (changes_in self.old) (history_value self.old) (history_value self.new)) }
        ensures lists { OnErr result ((changes_in self.new ≡ changes_in self.old)
            × (redos_in self.new ≡ redos_in self.old)) }
        ensures only { OnlyNoMemory result }
    {
        undo_last(alloc, &mut self.value, &mut self.changes, &mut self.redos)
    }

    /// Redoes the edit that was undone last, and returns `true`. Returns `false` if there is none.
    ///
    /// Fails with `NoMemory` if memory runs out. After an error the value, the edits to undo and
    /// those to redo are the same as before the call.
    pub fn redo(&mut self, alloc: Global) -> Result<bool>
        ensures ok { OnOk result (log_of self.new ≡ log_call (log_of self.old) redo) }
        ensures answer { IfOk result (λ b. b ≡ is_nonempty (log_of self.old).redos) }
        ensures history { OnOk result (history_of (log_of self.new)
            ≡ after_call (history_of (log_of self.old)) redo) }
        ensures kept { OnErr result (log_of self.new ≡ log_of self.old) }
        ensures children { OnOk result
            (RedoTouches (redos_in self.old) (history_value self.old) (history_value self.new)) }
        ensures moves { OnOk result (MovesToChanges
            (changes_in self.old) (changes_in self.new) (redos_in self.old) (redos_in self.new)) }
        ensures kept_along { OnErr result
            (RedoKeeps (redos_in self.old) (history_value self.old) (history_value self.new)) }
        ensures lists { OnErr result ((changes_in self.new ≡ changes_in self.old)
            × (redos_in self.new ≡ redos_in self.old)) }
        ensures only { OnlyNoMemory result }
    {
        redo_next(alloc, &mut self.value, &mut self.changes, &mut self.redos)
    }

    /// Drops the changes of the oldest edits until at most `max` edits can be undone. The value and
    /// the edits to redo are unchanged. Allocates no memory.
    ///
    /// The limit holds for this call alone: a later [`History::apply`] or [`History::redo`] adds a
    /// change again.
    pub fn limit(&mut self, max: usize)
        ensures log { log_of self.new ≡ limit_changes max (log_of self.old) }
        ensures history { history_of (log_of self.new)
            ≡ limit_past max (history_of (log_of self.old)) }
        ensures value { history_value self.new ≡ history_value self.old }
        ensures changes { changes_in self.new ≡ last_entries max (changes_in self.old) }
        ensures redos { redos_in self.new ≡ redos_in self.old }
    {
        keep_last(&mut self.changes, max);
    }

    /// Drops all edits to redo. The value and the edits to undo are unchanged. Allocates no memory.
    pub fn clear_redo(&mut self)
        ensures log { log_of self.new ≡ without_redos (log_of self.old) }
        ensures history { history_of (log_of self.new)
            ≡ without_future (history_of (log_of self.old)) }
        ensures value { history_value self.new ≡ history_value self.old }
        ensures changes { changes_in self.new ≡ changes_in self.old }
        ensures redos { redos_in self.new ≡ [] }
    {
        self.redos.clear();
    }
}
