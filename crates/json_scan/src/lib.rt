//! Scanners: how far bytes of one class go on in an input, by blocks of 16, 8 and 4 bytes. The
//! classes are whitespace, digits, and what denotes itself in a string (RFC 8259, sections 2, 6 and
//! 7).
//!
//! ```
//! use json_scan::{digit_run, plain_run, ws_run};
//! let text = b"  120, \"a b\"";
//! assert_eq!(rt; ws_run(text, 0), 2);
//! assert_eq!(rt; digit_run(text, 2), 5);
//! assert_eq!(rt; plain_run(text, 8), 11);
//! ```
#![tactic(auto)]

mod lanes;
mod runs;

pub use lanes::{BLOCK, digits_in_block};
pub use runs::{
    byte_is, digit_is, digit_run, few_digits_run, plain_run, short_digit_run, ws_end, ws_run,
};
