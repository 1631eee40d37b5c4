// One cell of a packed document.

use crate::json_type::JsonType;

/// One cell of a [`Doc`](crate::Doc): a value, or the key of a member.
///
/// A number that is an integer of `u64` or `i64` is kept by value (RFC 8259, section 6), every
/// other number by its literal. A literal, a string and a key are `len` bytes of the document's
/// text from the offset `start` on. The `len` of a container counts its elements or members. Its
/// descendants follow its cell, in the order of the JSON text. Its `link` is the position after the
/// last of them, or after its own cell if it is empty. The layout of cells is private to this
/// crate: programs read values by [`DocView`](crate::DocView).
///
/// ```
/// use json_doc::{Cell, read_document};
/// let doc = read_document(alloc, "[-1, 1.5]")?;
/// let cells = [Cell::Array { link: 3, len: 2 }, Cell::Negative(-1), Cell::Raw { start: 0, len: 3 }];
/// assert_eq!(rt; doc.cells(), cells.as_slice());
/// ```
#[derive(Clone, Copy, Debug, PartialEq, Eq)]
pub enum Cell {
    /// `null`.
    Null,
    /// `true` or `false`.
    Bool(bool),
    /// An integer from 0 on, by value.
    Unsigned(u64),
    /// An integer below 0, by value.
    Negative(i64),
    /// Any other number, such as `1.0` or `-0`, by its literal in the document's text.
    Raw { start: u32, len: u32 },
    /// A string or a key, by its unescaped bytes in the document's text.
    Str { start: u32, len: u32 },
    /// An array of `len` elements. `link` is the position after its last descendant.
    Array { link: u32, len: u32 },
    /// An object of `len` members. `link` is the position after its last descendant.
    Object { link: u32, len: u32 },
}

impl Cell {
    ghost use Rattle.std.specs.Prelude.{◌≡◌, ◌<◌, ◌≤◌, ◌^◌};
    ghost use Rattle.json_doc.specs.CellReadings.{cell_type, cell_bool, cell_len};
    ghost use Rattle.json_doc.specs.Places.{after_subtree};

    #[inline(always)]
    pub(crate) fn get_type(self) -> JsonType
        ensures { result ≡ cell_type self }
    {
        match self {
            Cell::Null => JsonType::Null,
            Cell::Bool(_) => JsonType::Boolean,
            Cell::Unsigned(_) | Cell::Negative(_) | Cell::Raw { .. } => JsonType::Number,
            Cell::Str { .. } => JsonType::String,
            Cell::Array { .. } => JsonType::Array,
            Cell::Object { .. } => JsonType::Object,
        }
    }

    #[inline(always)]
    pub(crate) fn as_bool(self) -> Option<bool>
        ensures { result ≡ cell_bool self }
    {
        match self {
            Cell::Bool(b) => Some(b),
            _ => None,
        }
    }

    // How many elements or pairs there are; 0 for a scalar.
    #[inline(always)]
    pub(crate) fn len(self) -> usize
        ensures { result ≡ cell_len self }
    {
        match self {
            Cell::Array { len, .. } => len as usize,
            Cell::Object { len, .. } => len as usize,
            _ => 0,
        }
    }

    // The position after this cell and all its descendants, where the cell is at `at`.
    #[inline(always)]
    pub(crate) fn next_at(self, at: usize) -> usize
        requires { at < 2 ^ 32 }
        ensures is { result ≡ after_subtree at self }
        ensures small { result ≤ 2 ^ 32 }
    {
        match self {
            Cell::Array { link, .. } => link as usize,
            Cell::Object { link, .. } => link as usize,
            _ => at + 1,
        }
    }
}
