// A place of a document, seen as a tree.
ghost use Rattle.std.specs.Prelude.{◌≡◌, ◌+◌, ◌-◌, ◌<◌, length, map, true, option_map, slice_get, slice_index_or, slice_range, string_bytes, IfSome};
ghost use Rattle.std.specs.Str.{IsCharBoundary};
ghost use Rattle.json_doc.specs.Docs.{doc_cells, doc_text, doc_tree};
ghost use Rattle.json_doc.specs.Shape.{is_str};
ghost use Rattle.json_doc.specs.Trees.{text_of_tree};
ghost use Rattle.json_doc.specs.Readings.{type_of, bool_of, integer_in_tree, literal_of, string_of, elements, object_keys, values, children};
ghost use Rattle.json_doc.specs.declared.cell.Cell.TheVariants.{Null as null_cell};

use crate::cell::Cell;
use crate::children::DocChildren;
use crate::doc::Doc;
use crate::json_type::JsonType;
use crate::node::DocNode;
use crate::pairs::DocPairs;
use json_number::Number;

/// A view of one value of a [`Doc`]: the document, which it borrows, and the position of the
/// value's cell there. No method allocates.
///
/// ```
/// use json_doc::read_document;
/// let doc = read_document(alloc, "{\"name\": \"Ada\", \"born\": 1815}")?;
/// let person = doc.view();
/// assert_eq!(rt; person.key(1), Some("born"));
/// let name = person.pair_value(0).ok_or("no pair")?;
/// assert_eq!(rt; name.text(), Some("Ada"));
/// assert!(rt; person.element(0).is_none());
/// ```
#[derive(Clone, Copy)]
pub struct DocView<'a> {
    pub(crate) doc: &'a Doc,
    pub(crate) at: u32,
    ghost inside: { at < length doc.now.cells.items },
}

impl<'a> DocView<'a> {
    ghost use Rattle.json_grammar.specs.Tree.{num, text};
    ghost use Rattle.json_grammar.specs.Grammar.{number};
    ghost use Rattle.json_number.specs.Integers.{integer_in};
    ghost use Rattle.json_number.specs.Numbers.{value_of, text_of_number};
    ghost use Rattle.json_doc.specs.Seen.{view_doc, view_place, view_tree, child_place, key_place};
    ghost use Rattle.std.specs.Prelude.{ℕ, Some, None};
    ghost use Rattle.json_doc.specs.Left.{children_doc, children_places, children_left};
    ghost use Rattle.json_doc.specs.Nodes.{NodeOf, NodeIsNumber, NodeIn, NodeAt};

    /// Returns the position of the value's cell: its index in [`Doc::cells`].
    #[inline]
    pub fn place(self) -> u32
        ensures at { result ≡ view_place self.entry }
        ensures within { result < length (doc_cells (view_doc self.entry)) }
    {
        self.at
    }

    /// Returns the whole document that the value is in.
    #[inline]
    pub fn doc(self) -> &'a Doc
        ensures { result.now ≡ view_doc self.entry }
    {
        self.doc
    }

    #[inline(always)]
    fn cell(self) -> Cell
        ensures { result
            ≡ slice_index_or (doc_cells (view_doc self.entry)) (view_place self.entry) null_cell }
    {
        cell_at(self.doc, self.at as usize)
    }

    /// Returns the kind of the value (RFC 8259, section 3).
    #[inline]
    pub fn get_type(self) -> JsonType
        ensures { result ≡ type_of (view_tree self.entry) }
    {
        self.cell().get_type()
    }

    /// Returns the boolean, or `None` if the value is of another kind.
    #[inline]
    pub fn as_bool(self) -> Option<bool>
        ensures { result ≡ bool_of (view_tree self.entry) }
    {
        self.cell().as_bool()
    }

    /// Returns the number if it is an integer of `u64` or `i64` (RFC 8259, section 6). Returns
    /// `None` for any other number, of which [`DocView::literal`] returns the literal, and for a
    /// value of another kind.
    #[inline]
    pub fn as_number(self) -> Option<Number>
        ensures value { option_map value_of result ≡ integer_in_tree (view_tree self.entry) }
        ensures text { IfSome result (λ n. view_tree self.entry ≡ num (text_of_number n)) }
    {
        match self.cell() {
            Cell::Unsigned(n) => Some(Number::from(n)),
            Cell::Negative(n) => Some(Number::from(n)),
            _ => None,
        }
    }

    /// Returns the literal of a number that is no integer of `u64` or `i64`, such as `1.5` or `-0`
    /// (RFC 8259, section 6). Returns `None` for any other number, which [`DocView::as_number`]
    /// returns, and for a value of another kind.
    #[inline]
    pub fn literal(self) -> Option<&'a str>
        ensures literal { option_map (λ s. s.now) result ≡ literal_of (view_tree self.entry) }
        ensures number { IfSome result (λ s. number s.now) }
        ensures raw { IfSome result (λ s. integer_in s.now ≡ None) }
    {
        match self.cell() {
            Cell::Raw { start, len } => Some(text_range(self.doc, start, len)),
            _ => None,
        }
    }

    /// Returns the text of a string, unescaped, or `None` if the value is of another kind.
    #[inline]
    pub fn text(self) -> Option<&'a str>
        ensures { option_map (λ s. s.now) result ≡ string_of (view_tree self.entry) }
    {
        text_at(self.doc, self.at as usize)
    }

    /// Returns the number of elements of an array, or of members of an object; 0 for other kinds.
    #[inline]
    pub fn len(self) -> usize
        ensures { result ≡ length (children (view_tree self.entry)) }
    {
        self.cell().len()
    }

    /// Returns a view of the element `i` of an array, counted from 0. Returns `None` if there is no
    /// such element or the value is of another kind. Skips the elements before it one by one.
    #[inline]
    pub fn element(self, i: usize) -> Option<DocView<'a>>
        ensures tree { option_map view_tree result ≡ slice_get (elements (view_tree self.entry)) i }
        ensures doc { IfSome result (λ v. view_doc v ≡ view_doc self.entry) }
        ensures place { IfSome result (λ v. view_place v
            ≡ child_place (view_doc self.entry) (view_place self.entry) i) }
    {
        match self.cell() {
            Cell::Array { len, .. } => {
                if i < len as usize {
                    let at = self.doc.place_from(0, self.at as usize + 1, i);
                    Some(self.doc.view_at(at as u32))
                } else {
                    None
                }
            }
            _ => None,
        }
    }

    // The position of the value of the pair `i`, with its key before it.
    #[inline]
    fn value_place(self, i: usize) -> Option<usize>
        ensures within { IfSome result (λ k. k < length (doc_cells (view_doc self.entry))) }
        ensures after { IfSome result (λ k. 0 < k) }
        ensures keyed { IfSome result
            (λ k. is_str (slice_index_or (doc_cells (view_doc self.entry)) (k - 1) null_cell)
            ≡ true) }
        ensures place { IfSome result
            (λ k. k ≡ child_place (view_doc self.entry) (view_place self.entry) i) }
        ensures value { option_map (doc_tree (view_doc self.entry)) result
            ≡ slice_get (values (view_tree self.entry)) i }
        ensures key { option_map (λ k. text_of_tree (doc_tree (view_doc self.entry) (k - 1))) result
            ≡ slice_get (object_keys (view_tree self.entry)) i }
    {
        match self.cell() {
            Cell::Object { len, .. } => {
                if i < len as usize {
                    Some(self.doc.place_from(1, self.at as usize + 2, i))
                } else {
                    None
                }
            }
            _ => None,
        }
    }

    /// Returns the unescaped key of the member `i` of an object, counted from 0. Returns `None` if
    /// there is no such member or the value is of another kind.
    #[inline]
    pub fn key(self, i: usize) -> Option<&'a str>
        ensures { option_map (λ s. s.now) result
            ≡ slice_get (object_keys (view_tree self.entry)) i }
    {
        match self.value_place(i) {
            Some(at) => Some(key_text(self.doc, at - 1)),
            None => None,
        }
    }

    /// Returns a view of the key of the member `i` of an object, counted from 0, as of a string.
    /// Returns `None` if there is no such member or the value is of another kind.
    #[inline]
    pub fn key_view(self, i: usize) -> Option<DocView<'a>>
        ensures tree { option_map view_tree result
            ≡ option_map text (slice_get (object_keys (view_tree self.entry)) i) }
        ensures doc { IfSome result (λ v. view_doc v ≡ view_doc self.entry) }
        ensures place { IfSome result (λ v. view_place v
            ≡ key_place (view_doc self.entry) (view_place self.entry) i) }
    {
        match self.value_place(i) {
            Some(at) => Some(self.doc.view_at(at as u32 - 1)),
            None => None,
        }
    }

    /// Returns a view of the value of the member `i` of an object, counted from 0. Returns `None`
    /// if there is no such member or the value is of another kind.
    #[inline]
    pub fn pair_value(self, i: usize) -> Option<DocView<'a>>
        ensures tree { option_map view_tree result ≡ slice_get (values (view_tree self.entry)) i }
        ensures doc { IfSome result (λ v. view_doc v ≡ view_doc self.entry) }
        ensures place { IfSome result (λ v. view_place v
            ≡ child_place (view_doc self.entry) (view_place self.entry) i) }
    {
        match self.value_place(i) {
            Some(at) => Some(self.doc.view_at(at as u32)),
            None => None,
        }
    }

    /// Returns an iterator over the elements of an array or the values of an object's members, in
    /// order. It is empty for other kinds.
    #[inline]
    pub fn children(self) -> DocChildren<'a>
        ensures doc { children_doc result ≡ view_doc self.entry }
        ensures trees { children_left result ≡ children (view_tree self.entry) }
        ensures places { (i : ℕ) → i < length (children (view_tree self.entry))
            → slice_get (children_places result) i
            ≡ Some (child_place (view_doc self.entry) (view_place self.entry) i) }
    {
        match self.cell() {
            Cell::Array { len, .. } => {
                DocChildren::new(self.doc, 0, self.at as usize + 1, len as usize)
            }
            Cell::Object { len, .. } => {
                DocChildren::new(self.doc, 1, self.at as usize + 2, len as usize)
            }
            _ => DocChildren::new(self.doc, 0, 0, 0),
        }
    }

    /// Returns the value as a [`DocNode`], to match on its kind: a scalar by its value, an array or
    /// an object by an iterator.
    #[inline]
    pub fn node(self) -> DocNode<'a>
        ensures tree { NodeOf result (view_tree self.entry) }
        ensures number { NodeIsNumber result }
        ensures doc { NodeIn result (view_doc self.entry) }
        ensures places { NodeAt result (view_doc self.entry) (view_place self.entry) }
    {
        match self.cell() {
            Cell::Null => DocNode::Null,
            Cell::Bool(b) => DocNode::Boolean(b),
            Cell::Unsigned(n) => DocNode::Number(Number::from(n)),
            Cell::Negative(n) => DocNode::Number(Number::from(n)),
            Cell::Raw { start, len } => DocNode::Raw(text_range(self.doc, start, len)),
            Cell::Str { start, len } => DocNode::String(text_range(self.doc, start, len)),
            Cell::Array { len, .. } => {
                let first = self.at as usize + 1;
                DocNode::Array(DocChildren::new(self.doc, 0, first, len as usize))
            }
            Cell::Object { len, .. } => {
                let first = self.at as usize + 1;
                DocNode::Object(DocPairs::new(self.doc, first, len as usize))
            }
        }
    }
}

// The cell at a place.
#[inline(always)]
fn cell_at(doc: &Doc, at: usize) -> Cell
    requires { at < length (doc_cells doc.now) }
    ensures { result ≡ slice_index_or (doc_cells doc.now) at null_cell }
{
    doc.cells[at]
}

// The bytes that a cell names.
#[inline(always)]
fn text_range(doc: &Doc, start: u32, len: u32) -> &str
    requires begins { IsCharBoundary (doc_text doc.now) start }
    requires ends { IsCharBoundary (doc_text doc.now) (start + len) }
    ensures { result.now ≡ slice_range (doc_text doc.now) start (start + len) }
{
    let end = start as usize + len as usize;
    &doc.text.as_str()[start as usize..end]
}

// The text of the string or the key at a place.
#[inline(always)]
fn text_at(doc: &Doc, at: usize) -> Option<&str>
    requires { at < length (doc_cells doc.now) }
    ensures { option_map (λ s. s.now) result ≡ string_of (doc_tree doc.now at) }
{
    match cell_at(doc, at) {
        Cell::Str { start, len } => Some(text_range(doc, start, len)),
        _ => None,
    }
}

// The text of a key, at its place.
#[inline(always)]
pub(crate) fn key_text(doc: &Doc, at: usize) -> &str
    requires within { at < length (doc_cells doc.now) }
    requires keyed { is_str (slice_index_or (doc_cells doc.now) at null_cell) ≡ true }
    ensures { result.now ≡ text_of_tree (doc_tree doc.now at) }
{
    match cell_at(doc, at) {
        Cell::Str { start, len } => text_range(doc, start, len),
        _ => unreachable!(),
    }
}
