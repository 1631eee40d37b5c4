//! Differences of JSON values, as patches that change one value into another: a JSON Patch
//! (RFC 6902) by [`diff`], or a JSON Merge Patch (RFC 7396) by [`merge_diff`].
//!
//! ```
//! use json_diff::{diff, merge_diff};
//! use json_doc::read_document;
//! use json_patch::apply_merge;
//! use json_value::Value;
//! let first = read_document(alloc, "{\"a\": [1, 2], \"b\": true}")?;
//! let second = read_document(alloc, "{\"a\": [1, 2]}")?;
//! let mut value = Value::from_place(alloc, &first, first.root())?;
//! let to = Value::from_place(alloc, &second, second.root())?;
//! let patch = diff(alloc, &value, &to)?;
//! assert_eq!(rt; patch.to_string(alloc)?.as_str(), "[{\"op\":\"remove\",\"path\":\"/b\"}]");
//! let merge = merge_diff(alloc, &value, &to)?.ok_or("no patch")?;
//! apply_merge(alloc, &mut value, merge.view())?;
//! assert_eq!(rt; value.to_string(alloc)?.as_str(), "{\"a\":[1,2]}");
//! ```
#![tactic(auto)]

mod between;
pub mod diff_examples;
pub mod diff_laws;
mod merge_between;

pub use between::diff;
pub use merge_between::merge_diff;
