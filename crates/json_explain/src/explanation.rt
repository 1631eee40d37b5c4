// Errors that say where.
ghost use Rattle.std.specs.Prelude.{◌≡◌, None, option_map};
ghost use Rattle.json_io.specs.Errors.{line_of, column_of};

use crate::refusal::{Refusal, write_plain_text};
use json_doc::JsonType;
use json_io::{Error, Place};
use std::fmt;

/// The error of a call that reads a value: why no value was read, and where.
///
/// ```
/// use json_explain::from_str;
/// use std::collections::BTreeMap;
/// let text = "{\"ports\":\n [80, 70000]}";
/// let error = from_str::<BTreeMap<String, Vec<u16>>>(alloc, text).err().ok_or("no error")?;
/// assert_eq!(rt; (error.line(), error.column()), (Some(2), Some(7)));
/// let shown = format!(in alloc; "{error}")?;
/// assert_eq!(rt; shown.as_str(), "line 2 column 7, path \"/ports/1\": a number, where an integer from 0 to 65535 is wanted");
/// ```
#[derive(Drop)]
pub struct Explanation {
    pub(crate) error: Error,
    pub(crate) refusal: Option<Refusal>,
    pub(crate) place: Place,
}

impl Explanation {
    // Creates the explanation of an error that refuses no value.
    pub(crate) fn plain(error: Error) -> Explanation
        ensures error { result.error ≡ error }
        ensures refusal { result.refusal ≡ None }
        ensures place { result.place ≡ error.place }
    {
        Explanation {
            error,
            refusal: None,
            place: error.place,
        }
    }

    /// Returns the error alone: the one that the function of the same name in `json_data` returns
    /// for this input, or `NoMemory`.
    pub fn error(&self) -> Error
        ensures { result ≡ self.now.error }
    {
        self.error
    }

    /// Returns which value is refused, and what was wanted there. Returns `None` if no value was
    /// refused, because the input has no valid JSON text or memory ran out.
    pub fn refused(&self) -> Option<&Refusal>
        ensures { option_map (λ r. r.now) result ≡ self.now.refusal }
    {
        self.refusal.as_ref()
    }

    /// Returns the JSON type of the value that is refused: what was found. Returns `None` if no
    /// value was refused.
    pub fn found_type(&self) -> Option<JsonType>
        ensures { result ≡ option_map (λ r. r.found_type) self.now.refusal }
    {
        match &self.refusal {
            Some(refusal) => Some(refusal.found_type()),
            None => None,
        }
    }

    /// Returns the place of the innermost value that is refused, or else the place of the error. It
    /// is `Place::None` if a `Value` is refused, which has no text.
    pub fn place(&self) -> Place
        ensures { result ≡ self.now.place }
    {
        self.place
    }

    /// Returns the line of [`Explanation::place`], counted from 1. Returns `None` if that place has
    /// no line.
    pub fn line(&self) -> Option<usize>
        ensures { result ≡ line_of self.now.place }
    {
        match self.place {
            Place::At { line, .. } => Some(line),
            _ => None,
        }
    }

    /// Returns the column of [`Explanation::place`], in bytes and counted from 1. Returns `None` if
    /// that place has no column.
    pub fn column(&self) -> Option<usize>
        ensures { result ≡ column_of self.now.place }
    {
        match self.place {
            Place::At { column, .. } => Some(column),
            _ => None,
        }
    }
}

// Returns the words for the type that was found.
fn found_text(found_type: JsonType) -> &'static str {
    match found_type {
        JsonType::Null => "null",
        JsonType::Boolean => "a boolean",
        JsonType::Number => "a number",
        JsonType::String => "a string",
        JsonType::Object => "an object",
        JsonType::Array => "an array",
    }
}

// Writes why a value is refused.
fn write_cause<W: fmt::Write>(f: &mut fmt::Formatter<W>, refusal: &Refusal) -> fmt::Result {
    if let Some(member) = refusal.member() {
        f.write_str("the member \"")?;
        write_plain_text(f, member)?;
        return f.write_str("\" is missing");
    }
    let found_type = found_text(refusal.found_type());
    match refusal.wanted() {
        Some(wanted) => write!(f, "{found_type}, where {wanted} is wanted"),
        None => write!(f, "no member with this key is wanted"),
    }
}

impl fmt::Display for Explanation {
    fn fmt<W: fmt::Write>(&self, f: &mut fmt::Formatter<W>) -> fmt::Result {
        let Some(refusal) = &self.refusal else {
            return write!(f, "{}", self.error);
        };
        if let Place::At { line, column, .. } = self.place {
            write!(f, "line {line} column {column}, ")?;
        }
        write!(f, "path \"{refusal}\": ")?;
        write_cause(f, refusal)
    }
}

impl fmt::Debug for Explanation {
    fn fmt<W: fmt::Write>(&self, f: &mut fmt::Formatter<W>) -> fmt::Result {
        fmt::Display::fmt(self, f)
    }
}

impl std::error::Error for Explanation {}
