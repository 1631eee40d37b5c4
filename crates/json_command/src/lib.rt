//! What the programs of this repository share: reading a document from a source, printing a value
//! to a sink, reporting errors, exit statuses, numeric options, help and version, and opening the
//! command line and the standard streams.
//!
//! ```
//! use json_command::{print_value, read_document_from};
//! use json_print::Style;
//! use json_text::{Rules, SliceSource, VecSink};
//! use json_value::Value;
//! let mut source = SliceSource::new(b" [1, 2.50] ");
//! let doc = read_document_from(alloc, &mut source, Rules::usual())?;
//! let value = Value::from_place(alloc, &doc, doc.root())?;
//! let mut sink = VecSink::new(alloc);
//! let style = Style::new(None, false).ok_or("no style")?;
//! print_value(alloc, &value, style, &mut sink)?;
//! assert_eq!(rt; sink.as_slice(), b"[1,2.50]".as_slice());
//! ```
#![tactic(auto)]

mod about;
mod arguments;
mod document;
pub mod laws;
mod options;
mod output;
mod reporting;
pub mod rows;
mod status;
mod streams;

pub use about::About;
pub use arguments::{BAD_WORDS, Console, arguments_error, read_argument};
pub use document::read_document_from;
pub use options::option_number;
pub use output::{Printer, print_value, write_text};
pub use reporting::{report, report_text};
pub use status::Status;
pub use streams::{ErrorStream, NotedStream};
