// What a call answers where it is not `Ok`.
ghost use Rattle.std.specs.Prelude.{◌≡◌, ◌↔◌, IsTrue};
ghost use Rattle.json_io.specs.Errors.{no_memory, number_of, name_of, category_of, offset_of, line_of, column_of};

use std::alloc::{AllocError, AllocFailed};

/// What is wrong. The discriminant is the code's number.
///
/// ```
/// use json_io::{ErrorCode, check_utf8};
/// let code = check_utf8(b"[\xff]").map_err(|error| error.code).err();
/// assert_eq!(rt; code, Some(ErrorCode::InvalidUTF8));
/// assert_eq!(rt; ErrorCode::InvalidUTF8.number(), 4);
/// ```
#[derive(Clone, Copy, Debug, PartialEq, Eq)]
pub enum ErrorCode {
    /// Memory ran out.
    NoMemory = 1,
    /// A read or a write failed.
    Io = 2,
    /// The input has more bytes than are read.
    TooLarge = 3,
    /// The input is not UTF-8 (RFC 8259, section 8.1).
    InvalidUTF8 = 4,
    /// The input ends before its value does.
    EofWhileParsing = 5,
    /// A `null`, `true` or `false` breaks off (section 3).
    InvalidLiteral = 6,
    /// A number breaks off, or has a digit after a leading zero (section 6).
    InvalidNumber = 7,
    /// A name is not followed by a colon (section 4).
    ExpectedColon = 8,
    /// An element is not followed by a comma or the array's end (section 5).
    ExpectedArrayCommaOrEnd = 9,
    /// A member is not followed by a comma or the object's end (section 4).
    ExpectedObjectCommaOrEnd = 10,
    /// A name or the object's end must follow (section 4).
    ExpectObjectKeyOrEnd = 11,
    /// The object ends after a comma (section 4).
    TrailingComma = 12,
    /// A value must follow (section 3).
    InvalidJsonValue = 13,
    /// A string has a byte below 20 (hexadecimal) (section 7).
    ControlCharacter = 14,
    /// An escape breaks off (section 7).
    InvalidEscape = 15,
    /// The escape of a surrogate is not part of a pair (section 8.2).
    InvalidSurrogate = 16,
    /// The value is followed by more than whitespace (section 2).
    TrailingCharacters = 17,
    /// A bracket opens more levels than are read (section 9).
    RecursionLimitExceeded = 18,
    /// A step of an edit names a key or an index that is not there.
    NotFound = 19,
    /// A key meets no object, or an index no array.
    TypeUnmatched = 20,
    /// An integer lies outside the type that is asked for.
    NumberOutOfRange = 21,
    /// What is written has a key that is neither a text nor an integer nor a boolean.
    SerExpectKeyIsStrOrNum = 22,
    /// The text of a key is not one number.
    ExpectedNumericKey = 23,
    /// The words of the command line have another form.
    BadWords = 24,
    /// A name repeats in its object, where the names of each object have to differ (section 4).
    DuplicateKey = 25,
}

/// What kind of refusal a code is.
///
/// ```
/// use json_io::{Category, Error, ErrorCode, Place};
/// let unfinished = Error { code: ErrorCode::EofWhileParsing, place: Place::None };
/// assert_eq!(rt; unfinished.classify(), Category::Eof);
/// let too_deep = Error { code: ErrorCode::RecursionLimitExceeded, place: Place::None };
/// assert_eq!(rt; too_deep.classify(), Category::Limit);
/// assert!(rt; !too_deep.is_syntax());
/// ```
#[derive(Clone, Copy, Debug, PartialEq, Eq)]
pub enum Category {
    /// A read or a write failed.
    Io,
    /// The input breaks the grammar, is not UTF-8 or repeats a name, or the words of the command
    /// line have another form.
    Syntax,
    /// The input ends before its value does.
    Eof,
    /// A value, a number or a key is not of the kind that is asked for.
    TypeUnmatched,
    /// A step of an edit names a key or an index that is not there.
    NotFound,
    /// The input has more bytes or more levels than are read.
    Limit,
    /// Memory ran out.
    Memory,
}

/// Where an error is.
///
/// ```
/// use json_io::{Place, place_of};
/// let place = place_of(b"[1,\n x]", 5);
/// assert_eq!(rt; place, Place::At { offset: 5, line: 2, column: 2 });
/// ```
#[derive(Clone, Copy, Debug, PartialEq, Eq)]
pub enum Place {
    /// No place is known.
    None,
    /// A place in the input: the offset in bytes from 0, the line from 1, and the column in bytes
    /// from 1.
    At {
        offset: usize,
        line: usize,
        column: usize,
    },
    /// The source.
    Reading,
    /// The sink.
    Writing,
    /// The edit of this number, counted from 0.
    Edit(u32),
}

/// A refusal: what is wrong, and where.
///
/// ```
/// use json_io::{Error, ErrorCode, place_of};
/// let error = Error { code: ErrorCode::InvalidNumber, place: place_of(b"[\n01]", 3) };
/// assert_eq!(rt; (error.line(), error.column()), (Some(2), Some(2)));
/// let shown = format!(in alloc; "{error}")?;
/// assert_eq!(rt; shown.as_str(), "InvalidNumber at offset 3, line 2 column 2");
/// ```
#[derive(Clone, Copy, Debug, PartialEq, Eq)]
pub struct Error {
    /// What is wrong.
    pub code: ErrorCode,
    /// Where.
    pub place: Place,
}

/// The result of a call that can fail with an [`Error`].
///
/// ```
/// use json_io::check_utf8;
/// let text: json_io::Result<&str> = check_utf8(b"[1]");
/// assert_eq!(rt; text, Ok("[1]"));
/// let refusal: json_io::Result<&str> = check_utf8(b"[\xff]");
/// assert_eq!(rt; refusal.map_err(|error| error.offset()), Err(Some(1)));
/// ```
pub type Result<T> = std::result::Result<T, Error>;

impl ErrorCode {
    /// Returns the number of the code, 1 to 25.
    pub fn number(self) -> u8
        ensures { result ≡ number_of self }
    {
        self as u8
    }

    // Its name and its category.
    fn row(self) -> (&'static str, Category)
        ensures name { result.0.now ≡ name_of self }
        ensures category { result.1 ≡ category_of self }
    {
        match self {
            ErrorCode::NoMemory => ("NoMemory", Category::Memory),
            ErrorCode::Io => ("Io", Category::Io),
            ErrorCode::TooLarge => ("TooLarge", Category::Limit),
            ErrorCode::InvalidUTF8 => ("InvalidUTF8", Category::Syntax),
            ErrorCode::EofWhileParsing => ("EofWhileParsing", Category::Eof),
            ErrorCode::InvalidLiteral => ("InvalidLiteral", Category::Syntax),
            ErrorCode::InvalidNumber => ("InvalidNumber", Category::Syntax),
            ErrorCode::ExpectedColon => ("ExpectedColon", Category::Syntax),
            ErrorCode::ExpectedArrayCommaOrEnd => ("ExpectedArrayCommaOrEnd", Category::Syntax),
            ErrorCode::ExpectedObjectCommaOrEnd => ("ExpectedObjectCommaOrEnd", Category::Syntax),
            ErrorCode::ExpectObjectKeyOrEnd => ("ExpectObjectKeyOrEnd", Category::Syntax),
            ErrorCode::TrailingComma => ("TrailingComma", Category::Syntax),
            ErrorCode::InvalidJsonValue => ("InvalidJsonValue", Category::Syntax),
            ErrorCode::ControlCharacter => ("ControlCharacter", Category::Syntax),
            ErrorCode::InvalidEscape => ("InvalidEscape", Category::Syntax),
            ErrorCode::InvalidSurrogate => ("InvalidSurrogate", Category::Syntax),
            ErrorCode::TrailingCharacters => ("TrailingCharacters", Category::Syntax),
            ErrorCode::RecursionLimitExceeded => ("RecursionLimitExceeded", Category::Limit),
            ErrorCode::NotFound => ("NotFound", Category::NotFound),
            ErrorCode::TypeUnmatched => ("TypeUnmatched", Category::TypeUnmatched),
            ErrorCode::NumberOutOfRange => ("NumberOutOfRange", Category::TypeUnmatched),
            ErrorCode::SerExpectKeyIsStrOrNum => (
                "SerExpectKeyIsStrOrNum",
                Category::TypeUnmatched,
            ),
            ErrorCode::ExpectedNumericKey => ("ExpectedNumericKey", Category::TypeUnmatched),
            ErrorCode::BadWords => ("BadWords", Category::Syntax),
            ErrorCode::DuplicateKey => ("DuplicateKey", Category::Syntax),
        }
    }

    /// Returns its name, as it is written in the enum.
    pub(crate) fn name(self) -> &'static str
        ensures { result.now ≡ name_of self }
    {
        self.row().0
    }
}

impl Error {
    /// Returns the code.
    pub fn error_code(&self) -> ErrorCode
        ensures { result ≡ self.now.code }
    {
        self.code
    }

    /// Returns the category of the code.
    pub fn classify(&self) -> Category
        ensures { result ≡ category_of self.now.code }
    {
        self.code.row().1
    }

    /// Returns whether the code's category is syntax.
    pub fn is_syntax(&self) -> bool
        ensures { IsTrue result ↔ (category_of self.now.code ≡ Category.Syntax) }
    {
        matches!(self.classify(), Category::Syntax)
    }

    /// Returns the offset in bytes if the place is one in the input.
    pub fn offset(&self) -> Option<usize>
        ensures { result ≡ offset_of self.now.place }
    {
        match self.place {
            Place::At { offset, .. } => Some(offset),
            _ => None,
        }
    }

    /// Returns the line, counted from 1, if the place is one in the input.
    pub fn line(&self) -> Option<usize>
        ensures { result ≡ line_of self.now.place }
    {
        match self.place {
            Place::At { line, .. } => Some(line),
            _ => None,
        }
    }

    /// Returns the column in bytes, counted from 1, if the place is one in the input.
    pub fn column(&self) -> Option<usize>
        ensures { result ≡ column_of self.now.place }
    {
        match self.place {
            Place::At { column, .. } => Some(column),
            _ => None,
        }
    }
}

impl From<AllocError> for Error {
    ghost from_gives = { λ _ e. e ≡ no_memory };

    fn from(_: AllocError) -> Self {
        Error {
            code: ErrorCode::NoMemory,
            place: Place::None,
        }
    }
}

impl<T: Drop> From<AllocFailed<T>> for Error {
    ghost from_gives = { λ _ e. e ≡ no_memory };

    fn from(_: AllocFailed<T>) -> Self {
        Error {
            code: ErrorCode::NoMemory,
            place: Place::None,
        }
    }
}
