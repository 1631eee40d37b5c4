// A call of a history.
use json_value::Edit;

/// A call of a [`History`], as [`make_calls`] makes it.
///
/// ```
/// use json_data::from_str;
/// use json_history::{Call, History, make_calls};
/// use json_value::{Edit, Value};
/// let mut history = History::new(alloc, from_str::<Value>(alloc, "[0]")?);
/// let push = from_str::<Edit>(alloc, "[\"push\",[],1]")?;
/// let calls = vec![in alloc; Call::Edit(push), Call::Undo, Call::Redo]?;
/// make_calls(alloc, &mut history, calls)?;
/// assert_eq!(rt; history.value().to_string(alloc)?.as_str(), "[0,1]");
/// ```
#[derive(Drop)]
pub enum Call {
    /// Applies the edit, after which nothing can be redone.
    Edit(Edit),
    /// Undoes the latest edit that is not undone. Changes nothing if there is none.
    Undo,
    /// Redoes the edit that was undone last. Changes nothing if there is none.
    Redo,
}
