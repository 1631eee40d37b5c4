//! The reader without a parser, for the other crates of the library: one event after another from
//! an offset, and the digits of a number. No program calls it.

pub use crate::integer::{DigitsRead, read_digits};
pub use crate::stack::ContainerStack;
pub use crate::steps::step;
pub use crate::token::{Cursor, TokenRead};
