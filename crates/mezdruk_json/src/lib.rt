//! JSON (RFC 8259) whose contracts are proved, in one crate: name `mezdruk_json` in `crates.txt`,
//! and take from it what a program uses of the library.
//!
//! # Reading
//!
//! A [`Value`] is read from a text, and keeps each number as it was written. A reading call
//! borrows: nothing is copied until it is changed.
//!
//! ```
//! use mezdruk_json::{Value, from_str};
//! let value = from_str::<Value>(alloc, "{\"name\": \"Ada\", \"born\": [1815, 12.10]}")?;
//! assert_eq!(rt; value.at("name").text(), Some("Ada"));
//! assert_eq!(rt; value.at("born").at(1usize).literal(), Some("12.10"));
//! assert!(rt; value.get("died").is_none());
//! ```
//!
//! # Editing
//!
//! An [`Edit`] has a path. It copies one level of each container on the path, and nothing else.
//!
//! ```
//! use mezdruk_json::{Edit, Value, from_str};
//! let mut value = from_str::<Value>(alloc, "{\"a\": [1], \"b\": [2]}")?;
//! value.apply(alloc, &from_str::<Edit>(alloc, "[\"push\", [\"a\"], true]")?)?;
//! assert_eq!(rt; value.to_string(alloc)?.as_str(), "{\"a\":[1,true],\"b\":[2]}");
//! ```
//!
//! # Data of a program's own types
//!
//! ```
//! use mezdruk_json::{from_str, to_string};
//! use std::collections::BTreeMap;
//! let ages = from_str::<BTreeMap<String, u8>>(alloc, "{\"Ada\": 36}")?;
//! assert_eq!(rt; to_string(alloc, &ages)?.as_str(), "{\"Ada\":36}");
//! ```
//!
//! # Errors
//!
//! An [`Error`] has a code and a place. [`Rules`] choose how many levels a text may have, and
//! whether the names of an object have to differ.
//!
//! ```
//! use mezdruk_json::{ErrorCode, Rules, read_document_with};
//! let rules = Rules::new(16, true).ok_or("too many levels")?;
//! let error = read_document_with(alloc, "{\"a\":1,\"a\":2}", rules).err().ok_or("no error")?;
//! assert_eq!(rt; error.code, ErrorCode::DuplicateKey);
//! assert_eq!(rt; (error.line(), error.column()), (Some(1), Some(8)));
//! ```
//!
//! # Structs, and errors that name the value
//!
//! A struct is read and written by a comment above it, `// json: derive`: `tools/make/derive`
//! writes its impls. [`explain::from_str`] reads as [`from_str`] does. If the type refuses a value
//! within the text, its error names the value by its path, its line and its column, or the member
//! that is missing.
//!
//! ```
//! use mezdruk_json::explain::from_str;
//! use std::collections::BTreeMap;
//! let text = "{\"a\": [1,\n 300]}";
//! let read = from_str::<BTreeMap<String, Vec<u8>>>(alloc, text);
//! let error = read.err().ok_or("no error")?;
//! assert_eq!(rt; (error.line(), error.column()), (Some(2), Some(2)));
//! let path = error.refusal().ok_or("no refusal")?;
//! assert_eq!(rt; format!(in alloc; "{path}")?.as_str(), "/a/1");
//! ```
//!
//! # Patches, queries, lines, histories, services
//!
//! They are the modules [`patch`], [`query`], [`lines`], [`history`] and [`rpc`].
//!
//! ```
//! use mezdruk_json::{Value, from_str};
//! use mezdruk_json::patch::apply_merge;
//! let mut value = from_str::<Value>(alloc, "{\"a\":{\"b\":1,\"c\":2}}")?;
//! let merge = from_str::<Value>(alloc, "{\"a\":{\"b\":null,\"d\":3}}")?;
//! apply_merge(alloc, &mut value, merge.view())?;
//! assert_eq!(rt; value.to_string(alloc)?.as_str(), "{\"a\":{\"c\":2,\"d\":3}}");
//! ```
#![tactic(auto)]

pub mod patch;
pub mod tokens;

pub use json_access::JsonContainerTrait;
pub use json_access::JsonValueMutTrait;
pub use json_access::JsonValueTrait;
pub use json_containers::ArrayCalls;
pub use json_containers::Entry;
pub use json_containers::IntoIter;
pub use json_containers::ObjectCalls;
pub use json_containers::OccupiedEntry;
pub use json_containers::VacantEntry;
pub use json_data::Deserialize;
pub use json_data::DeserializeFrom;
pub use json_data::FromKey;
pub use json_data::IgnoredAny;
pub use json_data::InputStr;
pub use json_data::Members;
pub use json_data::TextTokens;
pub use json_data::Tokens;
pub use json_data::ValueTokens;
pub use json_data::error_without_place;
pub use json_data::from_reader;
pub use json_data::from_slice;
pub use json_data::from_slice_unchecked;
pub use json_data::from_slice_with;
pub use json_data::from_str;
pub use json_data::from_value;
pub use json_data::read_members;
pub use json_data::try_read_members;
pub use json_derive as derive;
pub use json_doc::Doc;
pub use json_doc::DocView;
pub use json_doc::DocumentRoom;
pub use json_doc::JsonType;
pub use json_doc::read_document;
pub use json_doc::read_document_with;
pub use json_explain as explain;
pub use json_history as history;
pub use json_lines as lines;
pub use json_number::Integer;
pub use json_number::JsonNumberTrait;
pub use json_number::Number;
pub use json_number::RawNumber;
pub use json_print::BufferedWriter;
pub use json_print::CompactFormatter;
pub use json_print::Events;
pub use json_print::Formatter;
pub use json_print::Layout;
pub use json_print::ManyLines;
pub use json_print::OneLine;
pub use json_print::PrettyFormatter;
pub use json_print::Serializer;
pub use json_print::Style;
pub use json_query as query;
pub use json_rpc as rpc;
pub use json_stream::Deserializer;
pub use json_stream::StreamDeserializer;
pub use json_text::Category;
pub use json_text::Error;
pub use json_text::ErrorCode;
pub use json_text::Failed;
pub use json_text::Place;
pub use json_text::Result;
pub use json_text::Rules;
pub use json_text::Sink;
pub use json_text::SinkError;
pub use json_text::SliceSource;
pub use json_text::Source;
pub use json_text::StdSink;
pub use json_text::StdSource;
pub use json_text::VecSink;
pub use json_text::Words;
pub use json_text::check_utf8;
pub use json_text::read_all;
pub use json_text::repair;
pub use json_value::Array;
pub use json_value::ArrayIter;
pub use json_value::ArrayView;
pub use json_value::Edit;
pub use json_value::Index;
pub use json_value::Iter;
pub use json_value::Literal;
pub use json_value::Object;
pub use json_value::ObjectView;
pub use json_value::Pair;
pub use json_value::Path;
pub use json_value::PointerNode;
pub use json_value::Text;
pub use json_value::Value;
pub use json_value::ValueRef;
pub use json_value::View;
pub use json_write::Field;
pub use json_write::Fields;
pub use json_write::KeyRoom;
pub use json_write::Serialize;
pub use json_write::serialize_fields;
pub use json_write::to_string;
pub use json_write::to_string_pretty;
pub use json_write::to_value;
pub use json_write::to_vec;
pub use json_write::to_vec_pretty;
pub use json_write::to_writer;
pub use json_write::to_writer_pretty;
