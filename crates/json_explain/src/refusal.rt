// Where a value is refused.
ghost use Rattle.std.specs.Prelude.{◌≡◌, Some, None, IfOk, option_map};
ghost use Rattle.json_io.specs.Errors.{OnlyNoMemory};
ghost use Rattle.json_explain.specs.Refused.{refused_here, lacks_member, refused_within as spec_within};
ghost use Rattle.json_explain.specs.Explaining.{explained_step, refused_of};

use json_doc::JsonType;
use json_io::{ErrorCode, Result};
use std::alloc::Global;
use std::fmt;

/// A step of a path: from an array or object to one of the values in it.
///
/// ```
/// use json_explain::{Step, from_str};
/// use std::collections::BTreeMap;
/// let text = "{\"a\": [true], \"a\": [true, 1]}";
/// let error = from_str::<BTreeMap<String, Vec<bool>>>(alloc, text).err().ok_or("no error")?;
/// let refusal = error.refusal().ok_or("no refusal")?;
/// assert!(rt; matches!(refusal.steps(), [Step::Key(key, 1), Step::Index(1)] if key.as_str() == "a"));
/// ```
#[derive(Drop)]
pub enum Step {
    /// To the value of a member: its key, and its index among all members of the object, counted
    /// from 0. The index decides, since a key may repeat (RFC 8259, section 4).
    Key(String, usize),
    /// To an element of an array: its index, counted from 0.
    Index(usize),
}

/// What a type reads, for error messages. It is displayed as a phrase, such as "an integer from 0
/// to 255".
///
/// ```
/// use json_explain::Wanted;
/// assert_eq!(rt; format!(in alloc; "{}", Wanted::U8)?.as_str(), "an integer from 0 to 255");
/// ```
#[derive(Clone, Copy, Debug, PartialEq, Eq)]
pub enum Wanted {
    /// `null`.
    Null,
    /// `true` or `false`.
    Boolean,
    /// An integer of the type `u8`.
    U8,
    /// An integer of the type `u16`.
    U16,
    /// An integer of the type `u32`.
    U32,
    /// An integer of the type `u64`.
    U64,
    /// An integer of the type `u128`.
    U128,
    /// An integer of the type `i8`.
    I8,
    /// An integer of the type `i16`.
    I16,
    /// An integer of the type `i32`.
    I32,
    /// An integer of the type `i64`.
    I64,
    /// An integer of the type `i128`.
    I128,
    /// A number whose nearest `f32` is finite.
    F32,
    /// A number whose nearest `f64` is finite.
    F64,
    /// An integer that is in `i64` or in `u64`.
    Number,
    /// A number, or a string that has the text of one.
    Literal,
    /// A string of one character.
    Character,
    /// A string.
    String,
    /// An array.
    Array,
    /// An array of exactly this many elements, from 2 to 8: a tuple.
    Tuple(u8),
    /// An object.
    Object,
    /// A path within a document: an array of keys and indexes.
    Path,
    /// An edit of a document, spelled as an array.
    Edit,
    /// A value of a type of the program's own.
    Other,
}

impl Wanted {
    // Returns the phrase that is displayed.
    fn text(self) -> &'static str {
        match self {
            Wanted::Null => "null",
            Wanted::Boolean => "true or false",
            Wanted::U8 => "an integer from 0 to 255",
            Wanted::U16 => "an integer from 0 to 65535",
            Wanted::U32 => "an integer from 0 to 4294967295",
            Wanted::U64 => "an integer from 0 to 18446744073709551615",
            Wanted::U128 => "an integer from 0 to 2^128 - 1",
            Wanted::I8 => "an integer from -128 to 127",
            Wanted::I16 => "an integer from -32768 to 32767",
            Wanted::I32 => "an integer from -2147483648 to 2147483647",
            Wanted::I64 => "an integer from -9223372036854775808 to 9223372036854775807",
            Wanted::I128 => "an integer from -2^127 to 2^127 - 1",
            Wanted::F32 => "a number in the range of a single-precision float",
            Wanted::F64 => "a number in the range of a double",
            Wanted::Number => "an integer from -9223372036854775808 to 18446744073709551615",
            Wanted::Literal => "a number",
            Wanted::Character => "a string of one character",
            Wanted::String => "a string",
            Wanted::Array => "an array",
            Wanted::Tuple(2) => "an array of two elements",
            Wanted::Tuple(3) => "an array of three elements",
            Wanted::Tuple(4) => "an array of four elements",
            Wanted::Tuple(5) => "an array of five elements",
            Wanted::Tuple(6) => "an array of six elements",
            Wanted::Tuple(7) => "an array of seven elements",
            Wanted::Tuple(8) => "an array of eight elements",
            Wanted::Tuple(_) => "an array of another length",
            Wanted::Object => "an object",
            Wanted::Path => "an array of keys and indexes",
            Wanted::Edit => "an edit",
            Wanted::Other => "another value",
        }
    }
}

impl fmt::Display for Wanted {
    fn fmt<W: fmt::Write>(&self, f: &mut fmt::Formatter<W>) -> fmt::Result {
        f.write_str(self.text())
    }
}

/// Why a value within a whole value is refused, and where it is: the path to the innermost value
/// that is refused, the error code, what was wanted there and what was found. It is displayed as
/// its path: a JSON Pointer (RFC 6901), escaped as within a JSON string (RFC 6901, section 5).
///
/// ```
/// use json_doc::JsonType;
/// use json_explain::{Wanted, from_str};
/// let error = from_str::<Vec<u8>>(alloc, "[1,\n 300]").err().ok_or("no error")?;
/// let refusal = error.refusal().ok_or("no refusal")?;
/// assert_eq!(rt; format!(in alloc; "{refusal}")?.as_str(), "/1");
/// assert_eq!(rt; refusal.wanted(), Some(Wanted::U8));
/// assert_eq!(rt; refusal.found_type(), JsonType::Number);
/// ```
#[derive(Drop)]
pub struct Refusal {
    // from the whole value on
    steps: Vec<Step>,
    code: ErrorCode,
    member: Option<String>,
    wanted: Option<Wanted>,
    found_type: JsonType,
}

impl Refusal {
    /// Creates the refusal of a whole value, with an empty path. `code` says why it is refused,
    /// `wanted` what should be in its place, and `found_type` is the JSON type of the value.
    pub fn here(alloc: Global, code: ErrorCode, wanted: Wanted, found_type: JsonType) -> Refusal
        ensures { refused_of result ≡ refused_here code None (Some wanted) found_type }
    {
        Refusal {
            steps: Vec::new(alloc),
            code,
            member: None,
            wanted: Some(wanted),
            found_type,
        }
    }

    /// Creates the refusal of a member whose key is not accepted, with an empty path and nothing
    /// wanted. `code` says what is wrong with the key, and `found_type` is the JSON type of the
    /// member's value.
    pub fn key(alloc: Global, code: ErrorCode, found_type: JsonType) -> Refusal
        ensures { refused_of result ≡ refused_here code None None found_type }
    {
        Refusal {
            steps: Vec::new(alloc),
            code,
            member: None,
            wanted: None,
            found_type,
        }
    }

    /// Creates the refusal of an object that has no member named `member`, with an empty path.
    /// Fails with `NoMemory` if memory runs out.
    pub fn lacks(alloc: Global, member: &str) -> Result<Refusal>
        ensures ok { IfOk result (λ r. refused_of r ≡ lacks_member member.now) }
        ensures only { OnlyNoMemory result }
    {
        let member = String::from_str(alloc, member)?;
        Ok(Refusal {
            steps: Vec::new(alloc),
            code: ErrorCode::TypeUnmatched,
            member: Some(member),
            wanted: None,
            found_type: JsonType::Object,
        })
    }

    /// Returns the same refusal with `step` before its path: as seen from the array or object
    /// around the value. Fails with `NoMemory` if memory runs out.
    pub fn within(self, step: Step) -> Result<Refusal>
        ensures ok { IfOk result (λ r. refused_of r
            ≡ spec_within (explained_step step) (refused_of self)) }
        ensures only { OnlyNoMemory result }
    {
        let Refusal {
            mut steps,
            code,
            member,
            wanted,
            found_type,
        } = self;
        steps.insert(0, step)?;
        Ok(Refusal {
            steps,
            code,
            member,
            wanted,
            found_type,
        })
    }

    /// Returns the steps of the path, from the whole value to the innermost value that is refused.
    pub fn steps(&self) -> &[Step]
        ensures { result.now ≡ self.now.steps.items }
    {
        self.steps.as_slice()
    }

    /// Returns the error code that says why the value is refused.
    pub fn code(&self) -> ErrorCode
        ensures { result ≡ (refused_of self.now).code }
    {
        self.code
    }

    /// Returns the name of the missing member if an object is refused because a member is missing.
    /// Otherwise returns `None`.
    pub fn member(&self) -> Option<&str>
        ensures { option_map (λ s. s.now) result ≡ (refused_of self.now).member }
    {
        match &self.member {
            Some(member) => Some(member.as_str()),
            None => None,
        }
    }

    /// Returns what is wanted in place of the value. Returns `None` if the key of the value is what
    /// is refused, or if a member is missing.
    pub fn wanted(&self) -> Option<Wanted>
        ensures { result ≡ (refused_of self.now).wanted }
    {
        self.wanted
    }

    /// Returns the JSON type of the value that is refused: what was found.
    pub fn found_type(&self) -> JsonType
        ensures { result ≡ (refused_of self.now).found_type }
    {
        self.found_type
    }
}

// Writes a character as it is within a JSON string (RFC 8259, section 7).
fn write_character<W: fmt::Write>(f: &mut fmt::Formatter<W>, character: char) -> fmt::Result {
    match character {
        '"' => f.write_str("\\\""),
        '\\' => f.write_str("\\\\"),
        '\n' => f.write_str("\\n"),
        '\r' => f.write_str("\\r"),
        '\t' => f.write_str("\\t"),
        '\0'..='\u{1f}' => {
            let code = character as u32;
            write!(f, "\\u{code:04x}")
        }
        _ => f.write_char(character),
    }
}

// Writes a text as it is within a JSON string.
pub(crate) fn write_plain_text<W: fmt::Write>(
    f: &mut fmt::Formatter<W>,
    text: &str,
) -> fmt::Result {
    for character in text.chars() {
        write_character(f, character)?;
    }
    Ok(())
}

// Writes the text of a step of a JSON Pointer (RFC 6901, section 3).
fn write_key<W: fmt::Write>(f: &mut fmt::Formatter<W>, key: &str) -> fmt::Result {
    f.write_str("/")?;
    for character in key.chars() {
        match character {
            '~' => f.write_str("~0")?,
            '/' => f.write_str("~1")?,
            _ => write_character(f, character)?,
        }
    }
    Ok(())
}

impl fmt::Display for Refusal {
    fn fmt<W: fmt::Write>(&self, f: &mut fmt::Formatter<W>) -> fmt::Result {
        for step in self.steps.iter() {
            match step {
                Step::Key(key, _) => write_key(f, key.as_str())?,
                Step::Index(index) => write!(f, "/{index}")?,
            }
        }
        Ok(())
    }
}
