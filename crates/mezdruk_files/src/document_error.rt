// Why a document is not printed.
ghost use Rattle.std.specs.Prelude.{◌≡◌};
ghost use Rattle.mezdruk_files.specs.Outcomes.{document_error_status};

use crate::change_error::ChangeError;
use json_command::Status;
use json_io::Error;

/// Why a document, a line of it or a value of it is not printed.
///
/// ```
/// use mezdruk_files::{ChangeCode, ChangeError, DocumentError};
/// use json_text::{Error, ErrorCode, Place};
/// let error = Error { code: ErrorCode::Io, place: Place::Reading };
/// let unread = DocumentError::Input(error);
/// let change = ChangeError { code: ChangeCode::NotFound, number: Some(1) };
/// assert!(rt; unread != DocumentError::Change(change));
/// ```
#[derive(Clone, Copy, Debug, PartialEq, Eq)]
pub enum DocumentError {
    /// It could not be read, or it is not a valid JSON text.
    Input(Error),
    /// It is valid, and the change does not apply to its value.
    Change(ChangeError),
}

impl DocumentError {
    /// Returns the number of the status that the error leads to.
    pub(crate) fn status(&self) -> u8
        ensures { result ≡ document_error_status self.now }
    {
        match self {
            DocumentError::Input(error) => Status::of_error(error).number(),
            DocumentError::Change(_) => Status::EditFailed.number(),
        }
    }
}
