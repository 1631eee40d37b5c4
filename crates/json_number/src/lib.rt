//! Numbers of JSON (RFC 8259, section 6): integers of 64 bits by value, and every other number by
//! its literal. Neither is rounded where it is read, kept or printed: `as_f64` and `as_f32` return
//! the nearest float, and are the only calls that round.
//!
//! ```
//! use json_number::{JsonNumberTrait, RawNumber, integer_of};
//! let born = integer_of("1815").ok_or("1815 is an integer")?;
//! assert_eq!(rt; born.as_u64(), Some(1815));
//! assert!(rt; integer_of("12.10").is_none());
//! let price = RawNumber::new(alloc, "12.10")?;
//! assert_eq!(rt; price.as_str(), "12.10");
//! assert_eq!(rt; price.as_f64(), Some(12.1));
//! ```
#![tactic(auto)]

mod any_width;
mod float;
mod integer;
mod json_number_trait;
pub mod laws;
mod number;
mod number_from;
mod raw_number;

pub use any_width::{IntegerLiteral, integer_literal};
pub use float::{f32_of, f64_of};
pub use integer::{integer_of, integer_of_in};
pub use json_number_trait::JsonNumberTrait;
pub use number::{Integer, Number};
pub use raw_number::RawNumber;
