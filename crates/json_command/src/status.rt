// The status that a program ends with.
ghost use Rattle.std.specs.Prelude.{◌≡◌};
ghost use Rattle.json_command.specs.Statuses.{status_number, error_status};

use json_io::{Error, ErrorCode, Place};

/// The exit status of a program of this repository.
///
/// ```
/// use json_command::Status;
/// use json_text::{Error, ErrorCode, Place};
/// let error = Error { code: ErrorCode::Io, place: Place::Writing };
/// assert_eq!(rt; Status::of_error(&error), Status::WriteFailed);
/// assert_eq!(rt; Status::WriteFailed.number(), 5);
/// ```
#[derive(Clone, Copy, Debug, PartialEq, Eq)]
pub enum Status {
    /// All that was asked for was done.
    Success = 0,
    /// The input, or a line of it, is not valid.
    InvalidInput = 1,
    /// The arguments are not valid.
    InvalidArguments = 2,
    /// A change that is asked for does not apply to the input, for example because its path leads
    /// nowhere.
    EditFailed = 3,
    /// A read of the input failed.
    ReadFailed = 4,
    /// A write of the output failed.
    WriteFailed = 5,
    /// Memory ran out.
    OutOfMemory = 6,
    /// The input has more bytes than the program reads.
    TooMuchInput = 7,
    /// The arguments could not be read, for example because one is not UTF-8.
    NoArguments = 8,
}

impl Status {
    /// Returns the number of the status, from 0 to 8, with which a program exits.
    pub fn number(self) -> u8
        ensures { result ≡ status_number self }
    {
        self as u8
    }

    /// Returns the status of a program that ends with this error. It is `OutOfMemory` for
    /// `NoMemory`, and for `Io` `WriteFailed` at the place `Writing` and else `ReadFailed`. It is
    /// `InvalidArguments` for `BadWords`, `EditFailed` for `NotFound` and `TypeUnmatched`, and
    /// `InvalidInput` for every other code.
    pub fn of_error(error: &Error) -> Status
        ensures { result ≡ error_status error.now.code error.now.place }
    {
        match (error.code, error.place) {
            (ErrorCode::NoMemory, _) => Status::OutOfMemory,
            (ErrorCode::Io, Place::Writing) => Status::WriteFailed,
            (ErrorCode::Io, _) => Status::ReadFailed,
            (ErrorCode::BadWords, _) => Status::InvalidArguments,
            (ErrorCode::NotFound | ErrorCode::TypeUnmatched, _) => Status::EditFailed,
            (_, _) => Status::InvalidInput,
        }
    }
}
