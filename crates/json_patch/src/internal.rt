//! What only the other crates of this library call. It is no part of the public interface.

pub use crate::operation::single_member;
pub use crate::pointer::push_escaped;
