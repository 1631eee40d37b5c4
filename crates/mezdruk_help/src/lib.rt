//! What each program says of itself (its help and its version), what it accepts on its command
//! line, and the report of the argument that makes a list of arguments invalid. The texts of a
//! program that `mezdruk` runs are here too, since both print them.
//!
//! ```
//! use mezdruk_help::ABOUT_LINES;
//! use json_text::Words;
//! let mut arguments = Words::new(alloc);
//! arguments.push("--version")?;
//! let version = ABOUT_LINES.text_asked(&arguments).ok_or("no version")?;
//! assert!(rt; version.starts_with("mezdruk lines 0.1.0\n"));
//! ```
#![tactic(auto)]

mod edits;
mod first_invalid;
mod forms;
mod history;
mod json_patch;
mod lines;
mod mezdruk;
mod reasons;
mod report;
mod reshape;
mod rpc;
mod unread;
mod usage;

pub use edits::{edit_fault, is_step};
pub use history::{ABOUT_HISTORY, USAGE_HISTORY};
pub use json_patch::{ABOUT_JSON_PATCH, USAGE_JSON_PATCH};
pub use lines::{ABOUT_LINES, USAGE_LINES};
pub use mezdruk::ABOUT_MEZDRUK;
pub use reshape::{ABOUT_RESHAPE, USAGE_RESHAPE};
pub use rpc::{ABOUT_RPC, USAGE_RPC};
pub use unread::report_unread;
pub use usage::{
    ALONE, ArgumentForm, MissingGroup, OPERAND_GROUP, OptionForm, OptionValue, TextArgument, Usage,
};
