// What a pointer that C keeps leads to.

use crate::parsed::Parsed;

/// A value that one call creates and hands to C, for later calls to read and to free.
#[derive(Drop)]
pub enum Payload {
    /// No value.
    Nothing,
    /// The bytes of a result.
    Bytes(Vec<u8>),
    /// A parsed document.
    Document(Parsed),
}
