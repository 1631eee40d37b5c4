//! Typed reading whose errors say where a value is refused: a value is refused if it is no value of
//! the type that is asked for. Such an error has the path to the innermost value that is refused,
//! its line and column, what was wanted there and what was found, or which member is missing.
//!
//! ```
//! use json_explain::from_str;
//! let error = from_str::<Vec<bool>>(alloc, "[true, 1]").err().ok_or("no error")?;
//! let shown = format!(in alloc; "{error}")?;
//! assert_eq!(rt; shown.as_str(), "line 1 column 8, path \"/1\": a number, where true or false is wanted");
//! ```
#![tactic(auto)]

mod brackets;
mod calls;
mod containers;
mod explain;
mod explanation;
mod floats;
mod integers;
mod kinds;
pub mod laws;
mod maps;
mod options;
mod place;
mod refusal;
mod scalars;
mod tuples;

pub use calls::{from_reader, from_slice, from_slice_with, from_str, from_value};
pub use containers::{ExplainMembers, explain_members};
pub use explain::{Explain, explain_key, explain_whole};
pub use explanation::Explanation;
pub use json_data::Piece;
pub use refusal::{Refusal, Step, Wanted};
