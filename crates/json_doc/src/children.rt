// The children of a place of a document.
ghost use Rattle.std.specs.Prelude.{◌≡◌, ◌≤◌, length};
ghost use Rattle.json_doc.specs.Places.{AllBelow};

use crate::doc::Doc;
use crate::view::DocView;

/// An iterator over the elements of an array, or over the values of an object's members, each as a
/// view, in the order of the JSON text. [`DocView::children`] creates it.
///
/// ```
/// use json_doc::read_document;
/// let doc = read_document(alloc, "{\"a\": [], \"b\": [1, 2]}")?;
/// let mut lengths = Vec::new(alloc);
/// for value in doc.view().children() {
///     lengths.push(value.len())?;
/// }
/// assert_eq!(rt; lengths.as_slice(), [0, 2].as_slice());
/// ```
#[derive(Drop)]
pub struct DocChildren<'a> {
    doc: &'a Doc,
    next: usize,
    left: usize,
    // The number of keys before each child.
    keys: usize,
    ghost short: { keys ≤ 1 },
    ghost inside: { AllBelow doc.now.cells.items keys next left },
}

impl<'a> DocChildren<'a> {
    ghost use Rattle.std.specs.Prelude.{map};
    ghost use Rattle.json_doc.specs.Docs.{doc_cells, doc_tree};
    ghost use Rattle.json_doc.specs.Places.{places_from};
    ghost use Rattle.json_doc.specs.Left.{children_doc, children_places, children_left};

    // The children at `left` positions from `next` on, each after the one before and `keys` keys.
    #[inline]
    pub(crate) fn new(doc: &'a Doc, keys: usize, next: usize, left: usize) -> DocChildren<'a>
        requires short { keys ≤ 1 }
        requires inside { AllBelow (doc_cells doc.now) keys next left }
        ensures doc { children_doc result ≡ doc.now }
        ensures places { children_places result ≡ places_from (doc_cells doc.now) keys next left }
        ensures trees { children_left result
            ≡ map (doc_tree doc.now) (places_from (doc_cells doc.now) keys next left) }
    {
        DocChildren {
            doc,
            next,
            left,
            keys,
        }
    }

    /// Returns the number of elements or values that the iterator has not returned yet.
    #[inline]
    pub fn len(&self) -> usize
        ensures { result ≡ length (children_left self.now) }
    {
        self.left
    }
}

impl<'a> Iterator for DocChildren<'a> {
    ghost use Rattle.std.specs.Iterator.{item_count};
    ghost use Rattle.json_doc.specs.Left.{children_left, GivesChild};

    type Item = DocView<'a>;

    ghost next_gives = { GivesChild };

    ghost remaining = { item_count children_left };

    #[inline]
    fn next(&mut self) -> Option<DocView<'a>> {
        if self.left == 0 {
            return None;
        }
        let view = self.doc.view_at(self.next as u32);
        self.left -= 1;
        self.next = self.doc.place_behind(self.next) + self.keys;
        Some(view)
    }
}
