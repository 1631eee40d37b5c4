//! Reads a JSON text from a source, edits its value, and writes the text of the edited value to a
//! sink: all that the program `reshape` does, as functions.
//!
//! ```
//! use json_text::{SliceSource, VecSink, Words};
//! use reshape::run;
//! let mut words = Words::new(alloc);
//! words.push("[[\"set\",[\"a\"],2]]")?;
//! let mut source = SliceSource::new(b"{\"a\": 1, \"b\": 1.50}");
//! let (mut sink, mut errs) = (VecSink::new(alloc), VecSink::new(alloc));
//! assert_eq!(rt; run(alloc, &words, &mut source, &mut sink, &mut errs), 0);
//! assert_eq!(rt; sink.as_slice(), b"{\"a\":2,\"b\":1.50}".as_slice());
//! ```
#![tactic(auto)]

mod asked_style;
mod command;
mod editing;
mod edits;
mod engine;
pub mod laws;
mod made;
mod options;
mod top;
mod words;

pub use asked_style::AskedStyle;
pub use command::Asked;
pub use editing::apply_all;
pub use edits::Edits;
pub use engine::{reshape, reshape_with};
pub use top::run;
pub use words::asked;
