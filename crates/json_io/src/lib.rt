//! Sources and sinks of bytes, with contracts that name each byte. Also the errors of the library,
//! places in an input, the test for UTF-8, and the words of a command line.
//!
//! ```
//! use json_io::{SliceSource, VecSink, check_utf8, put_all, read_all};
//! let bytes = read_all(alloc, &mut SliceSource::new(b"[true]"), 100)?;
//! let mut sink = VecSink::new(alloc);
//! put_all(&mut sink, check_utf8(&bytes)?.as_bytes())?;
//! assert_eq!(rt; sink.as_slice(), b"[true]".as_slice());
//! ```
#![tactic(auto)]

mod append;
mod error;
mod fake;
pub mod internal;
mod lent;
mod message;
mod place;
mod sink;
mod source;
mod transfer;
mod utf8;
mod words;

pub use error::{Category, Error, ErrorCode, Place, Result};
pub use fake::{FakeSink, FakeSource};
pub use lent::LentSink;
pub use message::{FaultText, fault_text};
pub use place::place_of;
pub use sink::{Sink, SinkError, SinkResult, StdSink, VecSink};
pub use source::{Failed, SliceSource, Source, StdSource};
pub use transfer::{flush_all, put_all, read_all};
pub use utf8::check_utf8;
pub use words::Words;
