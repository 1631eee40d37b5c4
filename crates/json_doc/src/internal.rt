//! What only the other crates of the library call: a number by which they compare keys.

pub use crate::open_keys::front_number;
