//! JSON Pointer (RFC 6901), JSON Patch (RFC 6902) and JSON Merge Patch (RFC 7396).
//!
//! [`Pointer`] finds a value within another. [`apply_patch`] and [`apply_merge`] change a value by
//! a patch, which is itself a JSON value. [`run_patch`] is a whole command-line program: it reads a
//! JSON text, patches it and writes the result.
//!
//! ```
//! use json_doc::read_document;
//! use json_patch::apply_patch;
//! use json_value::{Value, View};
//! let doc = read_document(alloc, "{\"a\": [1, 2]}")?;
//! let mut value = Value::from_place(alloc, &doc, doc.root())?;
//! let patch = read_document(alloc, "[{\"op\": \"remove\", \"path\": \"/a/0\"}]")?;
//! apply_patch(alloc, &mut value, View::packed(patch.view()))?;
//! assert_eq!(rt; value.to_string(alloc)?.as_str(), "{\"a\":[2]}");
//! ```
#![tactic(auto)]

mod change;
mod command;
mod error;
pub mod examples;
pub mod internal;
mod key_index;
pub mod laws;
mod lookup;
mod merge;
mod operation;
mod patch;
mod path;
mod pointer;
mod run;

pub use error::{PatchCode, PatchError};
pub use merge::apply_merge;
pub use patch::apply_patch;
pub use pointer::Pointer;
pub use run::run_patch;
