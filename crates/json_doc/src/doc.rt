// A packed document.
ghost use Rattle.std.specs.Prelude.{◌<◌, ◌^◌, length, string_bytes};
ghost use Rattle.json_doc.specs.Shape.{CellsInPlace};

use crate::cell::Cell;
use crate::view::DocView;

/// A packed document: a JSON value as an array of [`Cell`]s, one for each value and each key. One
/// text has all strings, keys and literals of it, one after another.
///
/// The cells are in the order of the JSON text: that of a container precedes those of its elements,
/// or of its keys and values. Each literal is a number (RFC 8259, section 6). A position in the
/// document is the index of a cell.
///
/// ```
/// use json_doc::read_document;
/// let doc = read_document(alloc, "[[1], \"x\"]")?;
/// assert_eq!(rt; doc.cells().len(), 4);
/// assert_eq!(rt; doc.text(), "x");
/// ```
#[derive(Drop)]
pub struct Doc {
    pub(crate) cells: Vec<Cell>,
    pub(crate) text: String,
    pub(crate) root: u32,
    ghost small: { length cells.items < 2 ^ 32 },
    ghost rooted: { root < length cells.items },
    ghost in_place: { CellsInPlace cells.items (string_bytes text) },
}

impl Doc {
    ghost use Rattle.std.specs.Prelude.{◌≡◌, ◌≤◌, ◌+◌};
    ghost use Rattle.json_doc.specs.Docs.{doc_cells, doc_text, doc_root, doc_tree};
    ghost use Rattle.json_doc.specs.Seen.{view_doc, view_place, view_tree};
    ghost use Rattle.json_doc.specs.Places.{AllBelow, place_after, place_from};

    /// Returns the cells, one for each value and each key, in the order of the JSON text.
    #[inline]
    pub fn cells(&self) -> &[Cell]
        ensures { result.now ≡ doc_cells self.now }
    {
        &self.cells
    }

    /// Returns the strings, keys and literals one after another, unescaped and with nothing between
    /// them, in the order of the JSON text. Cells refer to it by offset and length.
    #[inline]
    pub fn text(&self) -> &str
        ensures { result.now ≡ doc_text self.now }
    {
        self.text.as_str()
    }

    /// Returns the position of the root's cell: its index in [`Doc::cells`].
    #[inline]
    pub fn root(&self) -> u32
        ensures place { result ≡ doc_root self.now }
        ensures within { result < length (doc_cells self.now) }
    {
        self.root
    }

    /// Returns a view of the root, the value of the whole JSON text.
    #[inline]
    pub fn view(&self) -> DocView<'_>
        ensures doc { view_doc result ≡ self.now }
        ensures place { view_place result ≡ doc_root self.now }
        ensures tree { view_tree result ≡ doc_tree self.now (doc_root self.now) }
    {
        self.view_at(self.root)
    }

    /// Returns a view of what is at the position `at`, an index in [`Doc::cells`], which has to be
    /// below the number of cells. A key is seen as a string.
    #[inline]
    pub fn view_at(&self, at: u32) -> DocView<'_>
        requires { at < length (doc_cells self.now) }
        ensures doc { view_doc result ≡ self.now }
        ensures place { view_place result ≡ at }
        ensures tree { view_tree result ≡ doc_tree self.now at }
    {
        DocView { doc: self, at }
    }

    // The position after the value at a position.
    #[inline(always)]
    pub(crate) fn place_behind(&self, at: usize) -> usize
        requires { at < length (doc_cells self.now) }
        ensures is { result ≡ place_after (doc_cells self.now) at }
        ensures small { result ≤ 2 ^ 32 }
    {
        self.cells[at].next_at(at)
    }

    // The position after that many children, each after that many keys: a step for each of them.
    #[inline]
    pub(crate) fn place_from(&self, keys: usize, first: usize, count: usize) -> usize
        requires short { keys ≤ 1 }
        requires inside { AllBelow (doc_cells self.now) keys first (count + 1) }
        ensures is { result ≡ place_from (doc_cells self.now) keys first count }
        ensures within { result < length (doc_cells self.now) }
    {
        let mut at = first;
        for step in 0..count {
            at = self.place_behind(at) + keys;
        }
        at
    }
}
