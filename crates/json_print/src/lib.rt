//! Writes JSON (RFC 8259, section 10) from its parts to any sink, compact, indented or sorted: a
//! [`Serializer`] takes the parts by the methods of [`Events`]. It also exports layouts, styles and
//! the buffered writer of `json_layout`.
//!
//! ```
//! use json_print::{Events, Serializer};
//! use json_io::VecSink;
//! let mut out = Serializer::pretty(alloc, VecSink::new(alloc)).sort_map_keys();
//! out.begin_object(None)?;
//! out.key("name")?;
//! out.text("Ada")?;
//! out.key("born")?;
//! out.uint(1815)?;
//! out.end_object()?;
//! assert_eq!(rt; out.into_inner().as_slice(), b"{\n  \"born\": 1815,\n  \"name\": \"Ada\"\n}".as_slice());
//! ```
#![tactic(auto)]

mod compact;
pub mod data_laws;
mod events;
mod formatter;
mod order;
mod part;
mod pretty;
mod serializer;
mod sorted;

pub use compact::CompactFormatter;
pub use events::{Events, ExpectedEvent};
pub use formatter::Formatter;
pub use json_layout::{
    BufferedWriter, Layout, ManyLines, OneLine, Quoted, Style, WriteBuffer, answered, show_piece,
    show_signed, show_text, show_unsigned,
};
pub use pretty::PrettyFormatter;
pub use serializer::Serializer;
