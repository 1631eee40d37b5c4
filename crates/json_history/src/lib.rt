//! Undo and redo of edits of a JSON value.
//!
//! [`History`] keeps a value with what undoes and redoes its edits. [`run_history`] is a whole
//! command-line program: it reads a JSON text, makes the calls that its argument lists, and writes
//! the result.
//!
//! ```
//! use json_data::from_str;
//! use json_history::History;
//! use json_value::{Edit, Value};
//! let mut history = History::new(alloc, from_str::<Value>(alloc, "[0]")?);
//! history.apply(alloc, from_str::<Edit>(alloc, "[\"push\",[],1]")?)?;
//! history.undo(alloc)?;
//! assert_eq!(rt; history.value().to_string(alloc)?.as_str(), "[0]");
//! ```
#![tactic(auto)]

mod arguments;
mod call;
mod calls;
mod change;
mod copies;
mod edit_change;
mod engine;
pub mod examples;
mod history;
pub mod laws;
mod path_copy;
mod redo;
mod redo_edits;
mod restore;
mod steps;
mod taken;
mod top;

pub use arguments::requested_calls;
pub use call::Call;
pub use calls::make_calls;
pub use change::Change;
pub use engine::replay;
pub use history::History;
pub use taken::Taken;
pub use top::run_history;
