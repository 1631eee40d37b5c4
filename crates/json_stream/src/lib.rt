//! Reads JSON values that follow one another in one input, each as the type that the caller asks
//! for. Reading a value does not look at what follows it.
//!
//! ```
//! use json_stream::Deserializer;
//! let mut numbers = Deserializer::from_slice(b"1 22 [").into_stream::<u8>();
//! assert!(rt; matches!(numbers.next(alloc), Some(Ok(1))));
//! assert!(rt; matches!(numbers.next(alloc), Some(Ok(22))));
//! let damage = numbers.next(alloc).and_then(|last| last.err());
//! assert_eq!(rt; damage.and_then(|error| error.offset()), Some(6));
//! assert!(rt; numbers.next(alloc).is_none());
//! ```
#![tactic(auto)]

mod deserializer;
mod input_place;
pub mod laws;
mod read_value;
mod stream_deserializer;

pub use deserializer::Deserializer;
pub use stream_deserializer::StreamDeserializer;
