// Bytes that stay for ever.

/// Bytes that are never freed, as C reads them: an address and a length.
#[repr(C)]
#[derive(Clone, Copy)]
pub struct Slice {
    /// The bytes.
    pub bytes: &'static [u8],
}
