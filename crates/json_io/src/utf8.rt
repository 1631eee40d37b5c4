// The test for UTF-8.
ghost use Rattle.std.specs.Prelude.{◌≡◌, IfErr, IfOk, IsUtf8};
ghost use Rattle.json_io.specs.Utf8.{Utf8Cause};

use crate::{Error, ErrorCode, Result, place_of};

/// Returns the same bytes as a string.
///
/// Fails with `InvalidUTF8` exactly if they are no UTF-8, at the end of their longest prefix that
/// is.
pub fn check_utf8(bytes: &[u8]) -> Result<&str>
    ensures same { IfOk result (λ text. text.now ≡ bytes.now) }
    ensures valid { IfOk result (λ _. IsUtf8 bytes.now) }
    ensures cause { IfErr result (λ e. Utf8Cause bytes.now e.code e.place) }
{
    match simdutf8::compat::from_utf8(bytes) {
        Ok(text) => Ok(text),
        Err(error) => Err(Error {
            code: ErrorCode::InvalidUTF8,
            place: place_of(bytes, error.valid_up_to()),
        }),
    }
}
