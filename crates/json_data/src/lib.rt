//! Typed reading of JSON: reads values of many Rust types from the tokens of a JSON text or of a
//! `Value`. A JSON value that is no value of the type that is asked for is refused. It also exports
//! what `json_tokens` does.
//!
//! ```
//! use json_data::from_str;
//! let ages: Vec<u8> = from_str(alloc, "[36, 85]")?;
//! assert_eq!(rt; ages.as_slice(), [36u8, 85].as_slice());
//! ```
#![tactic(auto)]

mod brackets;
mod calls;
mod characters;
mod deserialize;
mod edit_values;
mod floats;
mod integer_keys;
mod integer_ranges;
mod integers;
mod keys;
pub mod laws;
mod maps;
mod members;
mod path_values;
mod raws;
mod readers;
mod tuples;
mod value_calls;
mod value_readers;

pub use calls::{from_reader, from_slice, from_slice_unchecked, from_slice_with, from_str};
pub use deserialize::{Deserialize, DeserializeFrom};
pub use json_tokens::{
    InputStr, Piece, TextTokens, Token, TokenKind, TokenOf, Tokens, ValueTokens,
    error_without_place, is_refusal, lend,
};
pub use keys::FromKey;
pub use members::{Members, read_members, try_read_members};
pub use readers::{IgnoredAny, leave_after};
pub use value_calls::from_value;
