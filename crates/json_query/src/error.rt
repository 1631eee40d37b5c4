// Errors of reading a query.
ghost use Rattle.std.specs.Prelude.{◌≡◌, length};
ghost use Rattle.json_query.specs.Errors.{query_code_name, no_memory_in_fault, offset_of};

use std::alloc::{AllocError, AllocFailed};
use thiserror::Error;

/// The cause of a [`QueryError`].
///
/// ```
/// use json_query::QueryCode;
/// assert_eq!(rt; QueryCode::ExpectedRoot.name(), "ExpectedRoot");
/// ```
#[derive(Clone, Copy, PartialEq, Eq, Debug)]
pub enum QueryCode {
    /// Memory ran out.
    NoMemory,
    /// A query begins with `$`.
    ExpectedRoot,
    /// A segment begins with `[` or `.`, and no blank space follows the last one.
    ExpectedSegment,
    /// After `.` and `..` comes `*` or a name that begins with a letter, `_` or a character beyond
    /// ASCII; after `..` also `[`.
    ExpectedName,
    /// A selector is a string in quotation marks, `*`, an index, a slice or a filter.
    ExpectedSelector,
    /// After a selector comes `,` or `]`.
    ExpectedCommaOrBracket,
    /// After `-` comes a digit from 1 to 9.
    ExpectedDigit,
    /// The integer is not within -(2^53) + 1 and 2^53 - 1.
    IntegerOutOfRange,
    /// The text ends within a string.
    UnclosedString,
    /// A control character in a string is not escaped.
    ControlCharacter,
    /// A backslash in a string begins no escape.
    InvalidEscape,
    /// An escape in a string is half of a surrogate pair.
    InvalidSurrogate,
    /// The query has a filter; filters are not read.
    Filter,
}

impl QueryCode {
    /// Returns the name of this code as it is written here, such as `ExpectedRoot`.
    pub fn name(self) -> &'static str
        ensures { result.now ≡ query_code_name self }
    {
        match self {
            QueryCode::NoMemory => "NoMemory",
            QueryCode::ExpectedRoot => "ExpectedRoot",
            QueryCode::ExpectedSegment => "ExpectedSegment",
            QueryCode::ExpectedName => "ExpectedName",
            QueryCode::ExpectedSelector => "ExpectedSelector",
            QueryCode::ExpectedCommaOrBracket => "ExpectedCommaOrBracket",
            QueryCode::ExpectedDigit => "ExpectedDigit",
            QueryCode::IntegerOutOfRange => "IntegerOutOfRange",
            QueryCode::UnclosedString => "UnclosedString",
            QueryCode::ControlCharacter => "ControlCharacter",
            QueryCode::InvalidEscape => "InvalidEscape",
            QueryCode::InvalidSurrogate => "InvalidSurrogate",
            QueryCode::Filter => "Filter",
        }
    }
}

/// The error of [`Query::parse`]: what is wrong with the text, and where.
///
/// [`Query::parse`]: crate::Query::parse
///
/// ```
/// use json_query::{Query, QueryCode};
/// let error = Query::parse(alloc, "$.store.").err().ok_or("a query")?;
/// assert_eq!(rt; error.code, QueryCode::ExpectedName);
/// assert_eq!(rt; error.offset, 8);
/// ```
#[derive(Clone, Copy, PartialEq, Eq, Debug, Error)]
#[error("query refused")]
pub struct QueryError {
    /// The cause.
    pub code: QueryCode,
    /// The number of bytes before the fault: the longest prefix of the text with which some query
    /// begins. If `code` is `NoMemory` it is 0.
    pub offset: usize,
}

/// Why reading stopped, and how many bytes of the text were left there.
#[derive(Clone, Copy, Debug)]
pub(crate) struct Fault {
    pub(crate) code: QueryCode,
    pub(crate) left: usize,
}

impl Fault {
    /// Creates the fault of a text that goes on with `rest`.
    pub(crate) fn before(code: QueryCode, rest: &str) -> Fault
        ensures code { result.code ≡ code }
        ensures left { result.left ≡ length rest.now }
    {
        Fault {
            code,
            left: rest.len(),
        }
    }

    /// Returns the error of the whole text.
    pub(crate) fn in_text(self, text: &str) -> QueryError
        ensures code { result.code ≡ self.code }
        ensures offset { result.offset ≡ offset_of self (length text.now) }
    {
        match self.code {
            QueryCode::NoMemory => QueryError {
                code: QueryCode::NoMemory,
                offset: 0,
            },
            code => QueryError {
                code,
                offset: text.len().saturating_sub(self.left),
            },
        }
    }
}

impl From<AllocError> for Fault {
    ghost from_gives = { λ _ e. e ≡ no_memory_in_fault };

    fn from(_error: AllocError) -> Fault {
        Fault {
            code: QueryCode::NoMemory,
            left: 0,
        }
    }
}

impl<T: Drop> From<AllocFailed<T>> for Fault {
    ghost from_gives = { λ _ e. e ≡ no_memory_in_fault };

    fn from(_error: AllocFailed<T>) -> Fault {
        Fault {
            code: QueryCode::NoMemory,
            left: 0,
        }
    }
}
