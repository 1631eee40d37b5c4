// The kinds of values.
ghost use Rattle.std.specs.Prelude.{◌≡◌, ◌≤◌, ◌⊎◌, IfSome, IfNone, ◌<◌};

/// The kind of a JSON value (RFC 8259, section 3). Each kind has a number from 0 to 5, its
/// discriminant.
///
/// ```
/// use json_doc::{JsonType, read_document};
/// let doc = read_document(alloc, "[true]")?;
/// assert_eq!(rt; doc.view().get_type(), JsonType::Array);
/// assert_eq!(rt; JsonType::Array as u8, 5);
/// assert_eq!(rt; JsonType::from_u8(1), Some(JsonType::Boolean));
/// ```
#[derive(Clone, Copy, Debug, PartialEq, Eq)]
pub enum JsonType {
    /// `null`.
    Null = 0,
    /// `true` or `false`.
    Boolean = 1,
    /// A number, whether an integer or not.
    Number = 2,
    /// A string.
    String = 3,
    /// An object.
    Object = 4,
    /// An array.
    Array = 5,
}

impl JsonType {
    ghost use Rattle.json_doc.specs.Kinds.{type_number};

    /// Returns the kind whose discriminant is `value`, or `None` if `value` is above 5.
    pub fn from_u8(value: u8) -> Option<JsonType>
        ensures some { IfSome result (λ t. type_number t ≡ value) }
        ensures none { IfNone result (5 < value) }
    {
        match value {
            0 => Some(JsonType::Null),
            1 => Some(JsonType::Boolean),
            2 => Some(JsonType::Number),
            3 => Some(JsonType::String),
            4 => Some(JsonType::Object),
            5 => Some(JsonType::Array),
            _ => None,
        }
    }
}
