//! Prints packed documents, as they are or with the members of each object sorted by their keys
//! (RFC 8259, section 4). Also writes them by their tokens to anything that implements `Events`.
//! `json_value` prints by it the documents that its values have.
//!
//! ```
//! use json_doc::read_document;
//! use json_doc_print::internal::{SortedLayout, show_sorted_document};
//! use json_io::{VecSink, flush_all};
//! use json_print::{BufferedWriter, OneLine};
//! let doc = read_document(alloc, "{\"b\": [1], \"a\": null}")?;
//! let mut out = BufferedWriter::new(alloc, VecSink::new(alloc))?;
//! let layout = SortedLayout { alloc, inner: OneLine };
//! assert!(rt; show_sorted_document(doc.view(), layout, 0, &mut out).is_ok());
//! flush_all(&mut out)?;
//! assert_eq!(rt; out.into_inner().as_slice(), b"{\"a\":null,\"b\":[1]}".as_slice());
//! ```
#![tactic(auto)]

mod emit_packed;
pub mod internal;
mod key_order;
mod show_packed;
mod show_sorted_packed;
mod walk;
