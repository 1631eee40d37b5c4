// Refusals of a tree.
ghost use Rattle.std.specs.Prelude.{◌≡◌};
ghost use Rattle.json_tokens.specs.Refusals.{is_refusal as spec_is_refusal, error_without_place as spec_refusal};

use json_io::{Error, ErrorCode, Place};

/// Returns an error with this code, without a place in an input.
pub fn error_without_place(code: ErrorCode) -> Error
    ensures { result ≡ spec_refusal code }
{
    Error {
        code,
        place: Place::None,
    }
}

/// Returns whether the code is one with which a reader refuses valid JSON that is no value of its
/// type: `TypeUnmatched`, `NumberOutOfRange` or `ExpectedNumericKey`.
pub fn is_refusal(code: ErrorCode) -> bool
    ensures { result ≡ spec_is_refusal code }
{
    matches!(
        code,
        ErrorCode::TypeUnmatched | ErrorCode::NumberOutOfRange | ErrorCode::ExpectedNumericKey
    )
}
