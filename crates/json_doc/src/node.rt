// The value at a position of a document, by its kind.

use crate::children::DocChildren;
use crate::pairs::DocPairs;
use json_number::Number;

/// A value of a document by its kind (RFC 8259, section 3), to match on.
/// [`DocView::node`](crate::DocView::node) returns it. It borrows from the document and allocates
/// nothing.
///
/// ```
/// use json_doc::{DocNode, read_document};
/// let doc = read_document(alloc, "2.50")?;
/// let literal = match doc.view().node() {
///     DocNode::Raw(literal) => Some(literal),
///     _ => None,
/// };
/// assert_eq!(rt; literal, Some("2.50"));
/// ```
#[derive(Drop)]
pub enum DocNode<'a> {
    /// `null`.
    Null,
    /// `true` or `false`.
    Boolean(bool),
    /// A number that is an integer of `u64` or `i64`.
    Number(Number),
    /// Any other number, such as `2.50` or `-0`, by its literal.
    Raw(&'a str),
    /// A string, by its unescaped text.
    String(&'a str),
    /// An array, by an iterator over its elements.
    Array(DocChildren<'a>),
    /// An object, by an iterator over its members.
    Object(DocPairs<'a>),
}
