//! Writes a JSON text without whitespace to memory: a [`TextWriter`] appends each token with the
//! comma or the colon before it.
//!
//! ```
//! use json_buffer::TextWriter;
//! use json_print::Events;
//! let mut writer = TextWriter::new(alloc);
//! writer.text("a\nb")?;
//! assert_eq!(rt; writer.into_vec().as_slice(), b"\"a\\nb\"".as_slice());
//! ```
#![tactic(auto)]

mod escaping;
mod lead;
mod placing;
mod text_buffer;
mod text_writer;

pub use text_writer::TextWriter;
