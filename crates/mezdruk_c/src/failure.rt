// Why a call failed.
ghost use Rattle.std.specs.Prelude.{◌≡◌};
ghost use Rattle.mezdruk_c.specs.Failures.{argument_status_of, text_status_of, patch_status_of, status_of_failure};

use json_io::{Error, ErrorCode};
use json_patch::{PatchCode, PatchError};

/// Why a call failed.
#[derive(Clone, Copy)]
pub enum Failure {
    /// The options are not valid.
    Options,
    /// The argument beside the text (the edits, the patch, the pointer or the other text) could not
    /// be read, or memory ran out for it.
    Argument(Error),
    /// The text could not be read, an edit does not apply to its value, the document has no such
    /// node, or memory ran out.
    Text(Error),
    /// The patch or the pointer does not apply to the value, the pointer is not valid, or memory
    /// ran out.
    Patch(PatchError),
    /// No merge patch leads from the one text to the other.
    NoMergePatch,
}

// Returns the status of an argument that could not be read.
fn argument_status(code: ErrorCode) -> u8
    ensures { result ≡ argument_status_of code }
{
    match code {
        ErrorCode::NoMemory => 6,
        _ => 2,
    }
}

// Returns the status of a text that could not be read or changed.
fn text_status(code: ErrorCode) -> u8
    ensures { result ≡ text_status_of code }
{
    match code {
        ErrorCode::NoMemory => 6,
        ErrorCode::NotFound | ErrorCode::TypeUnmatched => 3,
        _ => 1,
    }
}

// Returns the status of a patch that does not apply.
fn patch_status_code(code: PatchCode) -> u8
    ensures { result ≡ patch_status_of code }
{
    match code {
        PatchCode::NoMemory => 6,
        _ => 3,
    }
}

impl Failure {
    /// Returns the status that the call returns: 1 if the text is not valid, 2 if the options or
    /// another argument are not valid, 3 if a patch, an edit or a pointer does not apply or there
    /// is no merge patch, and 6 if memory ran out.
    pub fn status(&self) -> u8
        ensures { result ≡ status_of_failure self.now }
    {
        match self {
            Failure::Options => 2,
            Failure::Argument(error) => argument_status(error.code),
            Failure::Text(error) => text_status(error.code),
            Failure::Patch(error) => patch_status_code(error.code),
            Failure::NoMergePatch => 3,
        }
    }
}
