//! Writes the parts of a JSON text to a sink and lays them out (RFC 8259, sections 2 and 7). The
//! parts are strings with their escapes, integers, indents, and the commas, colons and line feeds
//! around elements and members.
//!
//! ```
//! use json_io::{VecSink, flush_all};
//! use json_layout::{BufferedWriter, Layout, ManyLines, answered, show_piece};
//! let mut out = BufferedWriter::new(alloc, VecSink::new(alloc))?;
//! let lines = ManyLines::new(b"  ");
//! answered(show_piece(&mut out, b"["))?;
//! answered(lines.element(&mut out, 1, true, "Ada"))?;
//! answered(lines.close(&mut out, 0, false, b']'))?;
//! flush_all(&mut out)?;
//! assert_eq!(rt; out.into_inner().as_slice(), b"[\n  \"Ada\"\n]".as_slice());
//! ```
#![tactic(auto)]

mod adding;
mod blocks;
mod buffered;
mod escape;
mod indent;
mod layout;
mod placing;
mod plain;
mod quoted;
mod showing;
mod shown;
mod style;

pub use adding::{add, into_result};
pub use buffered::{BufferedWriter, WriteBuffer};
pub use escape::{add_number, add_string, add_unsigned};
pub use indent::Indent;
pub use layout::{add_byte_array, add_end, add_start};
pub use quoted::Quoted;
pub use showing::{
    Layout, ManyLines, OneLine, answered, show_piece, show_signed, show_text, show_unsigned,
};
pub use style::Style;
