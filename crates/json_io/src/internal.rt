//! Appending of bytes, for the other crates of the library. No program calls it.

pub use crate::append::{
    append_few, append_of_block, extend_local, extend_reserved, extend_reserved_blocks,
    extend_reserved_from, take_vec,
};
