// The error of a line that no JSON text has.
ghost use Rattle.std.specs.Prelude.{◌≡◌};
ghost use Rattle.json_lines.specs.LineErrors.{line_error_number, line_error_text};

/// An error that a line may have and a JSON text may not. All other errors of lines are those of
/// JSON texts, as `json_text` has them.
///
/// ```
/// use json_lines::LineError;
/// assert_eq!(rt; LineError::LineTooLong.number(), 28);
/// assert_eq!(rt; LineError::LineTooLong.text(), b"LineTooLong\n".as_slice());
/// ```
#[derive(Clone, Copy, Debug, PartialEq, Eq)]
pub enum LineError {
    /// The line has more bytes than the limit of its reader.
    LineTooLong,
}

impl LineError {
    /// Returns the number of the error: 28 for `LineTooLong`.
    pub fn number(self) -> u8
        ensures { result ≡ line_error_number self }
    {
        match self {
            LineError::LineTooLong => 28,
        }
    }

    /// Returns the text of the error: its name and a newline.
    pub fn text(self) -> &'static [u8]
        ensures { result.now ≡ line_error_text self }
    {
        match self {
            LineError::LineTooLong => b"LineTooLong\n",
        }
    }
}
