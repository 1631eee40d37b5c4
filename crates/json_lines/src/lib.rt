//! JSON Lines: a program that writes a row of cells for each line, and a reader of lines.
//!
//! [`run_lines`] is the whole program over any source and any sinks. [`LineReader`] reads a source
//! line by line within a buffer of fixed size.
//!
//! ```
//! use json_lines::run_lines;
//! use json_text::{SliceSource, VecSink, Words};
//! let mut arguments = Words::new(alloc);
//! arguments.push("[[[\"a\"],\"int\"]]")?;
//! let mut source = SliceSource::new(b"{\"a\":1}\n{\"a\":2}\n");
//! let mut sink = VecSink::new(alloc);
//! let mut errs = VecSink::new(alloc);
//! let status = run_lines(alloc, &arguments, &mut source, &mut sink, &mut errs);
//! assert_eq!(rt; status, 0);
//! assert_eq!(rt; sink.as_slice(), b"1\n2\n".as_slice());
//! ```
#![tactic(auto)]

mod asked;
mod cells;
mod csv;
mod gathered;
pub mod laws;
mod line_error;
mod line_reader;
mod paths;
mod run;
mod table;
mod top;

pub use line_error::LineError;
pub use line_reader::{Line, LineReader};
pub use top::run_lines;
