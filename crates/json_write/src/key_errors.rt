// The refusal of a key.
ghost use Rattle.std.specs.Prelude.{◌≡◌};
ghost use Rattle.json_io.specs.Errors.{key_has_no_text};

use json_io::{Error, ErrorCode, Place};

/// Returns the error of a key that has no text: `SerExpectKeyIsStrOrNum`, without a place.
pub fn key_error() -> Error
    ensures { result ≡ key_has_no_text }
{
    Error {
        code: ErrorCode::SerExpectKeyIsStrOrNum,
        place: Place::None,
    }
}
