//! Packed documents of JSON (RFC 8259). [`read_document`] reads a JSON text once into an array of
//! cells, a [`Doc`], and a [`DocView`] reads a value there without a copy.
//!
//! ```
//! use json_doc::{JsonType, read_document};
//! let doc = read_document(alloc, "{\"name\": \"Ada\", \"born\": [1815, 12.10]}")?;
//! let root = doc.view();
//! assert!(rt; root.get_type() == JsonType::Object);
//! assert_eq!(rt; root.key(0), Some("name"));
//! let born = root.pair_value(1).ok_or("there are two members")?;
//! assert_eq!(rt; (born.len(), born.element(1).and_then(|view| view.literal())), (2, Some("12.10")));
//! ```
#![tactic(auto)]

mod advance;
mod cell;
mod children;
mod doc;
mod document_room;
mod document_visitor;
pub mod internal;
mod json_type;
pub mod laws;
mod node;
mod open_keys;
mod pairs;
mod reader;
mod value_reader;
mod view;
mod visitor;

pub use cell::Cell;
pub use children::DocChildren;
pub use doc::Doc;
pub use document_room::DocumentRoom;
pub use document_visitor::DocumentVisitor;
pub use json_type::JsonType;
pub use node::DocNode;
pub use pairs::DocPairs;
pub use reader::{read_document, read_document_with, read_front};
pub use value_reader::read_following_value;
pub use view::DocView;
pub use visitor::JsonVisitor;
