// Where bytes are in memory.
ghost use Rattle.std.specs.Prelude.{◌≡◌};
ghost use Rattle.std.specs.Ptr.{as_ptr};
ghost use denote.RawPtr.{InBlock};

/// Returns the address of the first of the bytes, which is never null.
pub fn address(bytes: &[u8]) -> *const u8
    ensures { (result ≡ as_ptr bytes.entry) × InBlock result }
{
    bytes.as_ptr()
}
