// The pairs of an object of a document.
ghost use Rattle.std.specs.Prelude.{◌≡◌, ◌+◌, length};
ghost use Rattle.json_doc.specs.Places.{AllBelow};
ghost use Rattle.json_doc.specs.Shape.{AllKeys};

use crate::doc::Doc;
use crate::view::{DocView, key_text};

/// An iterator over the members of an object in the order of the JSON text: each item is the
/// unescaped key and a view of the value. [`DocView::node`] creates it.
///
/// ```
/// use json_doc::{DocNode, read_document};
/// let doc = read_document(alloc, "{\"done\": true}")?;
/// let DocNode::Object(mut pairs) = doc.view().node() else {
///     return Err("no object".into());
/// };
/// let (key, value) = pairs.next().ok_or("no pair")?;
/// assert_eq!(rt; (key, value.as_bool()), ("done", Some(true)));
/// ```
#[derive(Drop)]
pub struct DocPairs<'a> {
    doc: &'a Doc,
    // The place of the next key, before that of its value.
    next: usize,
    left: usize,
    ghost inside: { AllBelow doc.now.cells.items 1 (next + 1) left },
    ghost keyed: { AllKeys doc.now.cells.items (next + 1) left },
}

impl<'a> DocPairs<'a> {
    ghost use Rattle.std.specs.Prelude.{map, option_map, slice_get, Some, IfSome};
    ghost use Rattle.json_grammar.specs.Tree.{text};
    ghost use Rattle.json_doc.specs.Seen.{view_doc, view_place, view_tree};
    ghost use Rattle.json_doc.specs.Docs.{doc_cells};
    ghost use Rattle.json_doc.specs.Places.{places_from};
    ghost use Rattle.json_doc.specs.Left.{pairs_doc, places_of_pairs, pairs_left, doc_pair};

    // The `left` pairs from the key at `next` on.
    #[inline]
    pub(crate) fn new(doc: &'a Doc, next: usize, left: usize) -> DocPairs<'a>
        requires inside { AllBelow (doc_cells doc.now) 1 (next + 1) left }
        requires keyed { AllKeys (doc_cells doc.now) (next + 1) left }
        ensures doc { pairs_doc result ≡ doc.now }
        ensures places { places_of_pairs result
            ≡ places_from (doc_cells doc.now) 1 (next + 1) left }
        ensures pairs { pairs_left result
            ≡ map (doc_pair doc.now) (places_from (doc_cells doc.now) 1 (next + 1) left) }
    {
        DocPairs { doc, next, left }
    }

    /// Returns the number of members that the iterator has not returned yet.
    #[inline]
    pub fn len(&self) -> usize
        ensures { result ≡ length (pairs_left self.now) }
    {
        self.left
    }

    /// Returns a view of the next member's key, as of a string, or `None` after the last member.
    /// The iterator does not advance.
    #[inline]
    pub fn key(&self) -> Option<DocView<'a>>
        ensures tree { option_map view_tree result
            ≡ option_map (λ p. text p.0) (slice_get (pairs_left self.now) 0) }
        ensures doc { IfSome result (λ k. view_doc k ≡ pairs_doc self.now) }
        ensures place { IfSome result
            (λ k. slice_get (places_of_pairs self.now) 0 ≡ Some (view_place k + 1)) }
    {
        if self.left == 0 {
            return None;
        }
        Some(self.doc.view_at(self.next as u32))
    }
}

impl<'a> Iterator for DocPairs<'a> {
    ghost use Rattle.std.specs.Iterator.{item_count};
    ghost use Rattle.json_doc.specs.Left.{pairs_left, GivesPair};

    type Item = (&'a str, DocView<'a>);

    ghost next_gives = { GivesPair };

    ghost remaining = { item_count pairs_left };

    #[inline]
    fn next(&mut self) -> Option<(&'a str, DocView<'a>)> {
        if self.left == 0 {
            return None;
        }
        let key = key_text(self.doc, self.next);
        let value = self.doc.view_at(self.next as u32 + 1);
        self.left -= 1;
        self.next = self.doc.place_behind(self.next + 1);
        Some((key, value))
    }
}
