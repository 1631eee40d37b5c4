//! Reads the arguments of the program `mezdruk`: a command, its options, its operands and files, or
//! the first argument that is not valid.
//!
//! ```
//! use mezdruk_arguments::{ArgumentsError, Verb, read_arguments};
//! use json_text::Words;
//! let mut words = Words::new(alloc);
//! words.push("set")?;
//! words.push("/version")?;
//! words.push("\"1.3.0\"")?;
//! words.push("package.json")?;
//! let arguments = read_arguments(alloc, &words).map_err(|_| "not valid")?;
//! assert_eq!(rt; arguments.verb, Verb::Set);
//! assert_eq!(rt; arguments.files.as_slice(), ["package.json"].as_slice());
//! drop(arguments);
//! words.push("--indet=4")?;
//! let error = read_arguments(alloc, &words).err().ok_or("valid")?;
//! assert!(rt; matches!(error, ArgumentsError::Invalid { index: 4, .. }));
//! ```
#![tactic(auto)]

mod argument_order;
mod arguments;
mod edits;
mod help;
mod kept_layout;
mod line;
mod operand;
mod problem;
mod query_report;
mod report;
mod setting;
mod setting_style;
mod spelling;
mod verb;

pub use argument_order::command_first;
pub use arguments::{Arguments, read_arguments};
pub use edits::{requested_edits, split_pointer};
pub use help::help_asked;
pub use operand::{OperandKind, read_operand};
pub use problem::{ArgumentsError, MissingArgument, OperandError, Problem};
pub use report::{arguments_report, operand_file_report};
pub use setting::{ColorChoice, RequestedInput, RequestedLayout, Setting, Settings};
pub use verb::Verb;
