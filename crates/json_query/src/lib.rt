//! JSONPath (RFC 9535): queries of JSON values, without filters.
//!
//! A [`Query`] selects values within another. It has segments, which are applied one after another,
//! and each of them has selectors: names, indexes, slices and the wildcard `*`. [`Query::parse`]
//! reads it from its text.
//!
//! ```
//! use json_doc::read_document;
//! use json_query::Query;
//! use json_value::View;
//! let doc = read_document(alloc, "{\"a\": [1, {\"b\": true}]}")?;
//! let query = Query::parse(alloc, "$.a..*").ok().ok_or("no query")?;
//! let found = query.select(alloc, View::packed(doc.view()))?;
//! assert_eq!(rt; found.len(), 3);
//! assert_eq!(rt; found[2].as_bool(), Some(true));
//! ```
#![tactic(auto)]

mod cursor;
mod error;
pub mod examples;
mod integers;
pub mod laws;
mod parse;
mod query;
mod select;
mod slices;
mod strings;

pub use error::{QueryCode, QueryError};
pub use query::{Query, Segment, Selector, Slice};
