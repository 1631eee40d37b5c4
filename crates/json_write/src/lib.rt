//! Writes values of a program's own types as JSON (RFC 8259): as a text in memory, to any sink, or
//! as a `Value`.
//!
//! A value of a type with [`Serialize`] stands for a datum: null, a boolean, an integer, a string,
//! the literal of a number, a list, or rows of keys and values. Rows are written as an object with
//! a member for each row. The member's name is the text of the row's key: a string is its own text,
//! an integer has its decimal text, and a boolean has `true` or `false`. Other keys have no text,
//! and cannot be written.
//!
//! ```
//! use json_write::to_string;
//! let mut ages = std::collections::BTreeMap::new(alloc);
//! ages.insert("Ada", 36_u8)?;
//! ages.insert("Bo", 7)?;
//! assert_eq!(rt; to_string(alloc, &ages)?.as_str(), "{\"Ada\":36,\"Bo\":7}");
//! ```
#![tactic(auto)]

mod builder;
mod event_calls;
mod fields;
mod holders;
mod integers;
mod key_errors;
mod key_room;
mod key_test;
mod level;
mod lists;
mod maps;
mod nesting;
mod numbers;
mod scalars;
mod serialize;
mod texts;
mod tuples;
mod values;
mod writing;

pub use builder::to_value;
pub use event_calls::{
    begin_list, begin_object, end_list, end_rows, give_boolean, give_int, give_key, give_literal,
    give_text, give_uint, write_null,
};
pub use fields::{Field, Fields, serialize_fields};
pub use key_errors::key_error;
pub use key_room::KeyRoom;
pub use serialize::Serialize;
pub use texts::{to_string, to_string_pretty, to_vec, to_vec_pretty};
pub use writing::{to_writer, to_writer_pretty};
