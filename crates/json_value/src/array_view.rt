// Views of arrays, and their elements in order.
ghost use Rattle.std.specs.Prelude.{◌≡◌, ◌↔◌, [], length, map, option_map, slice_get, IsTrue, ◌≤◌};
ghost use Rattle.std.proofs.Props.{props};
ghost use Rattle.json_doc.specs.Left.{children_doc, children_left};
ghost use Rattle.json_doc.specs.Readings.{elements};
ghost use Rattle.json_doc.specs.Seen.{view_doc, view_place, view_tree};
ghost use Rattle.json_value.specs.Denotes.{tree_of};
ghost use Rattle.json_value.specs.Seen.{seen, elements_seen, list_of};
ghost use Rattle.json_value.specs.TargetParts.{elements_at, target_elements, elements_targets};
ghost use Rattle.json_value.specs.ViewTargets.{whole_value, place_of, doc_held, view_target};

use crate::packed_view::PackedView;
use crate::value::Value;
use crate::view::{View, ViewForm};
use json_doc::{DocChildren, DocNode, DocView, JsonType};

#[derive(Clone, Copy)]
pub(crate) enum ArrayForm<'a> {
    Packed(PackedView<'a>),
    Whole(&'a [Value]),
}

/// A read-only view of an array that is in a [`Value`] or in a packed document. It is a small
/// reference that can be copied, and it takes no memory.
///
/// ```
/// use json_value::Value;
/// let mut value = Value::new_array();
/// value.append_value(alloc, Value::new_bool(true))?;
/// let array = value.view().as_array().ok_or("no array")?;
/// assert_eq!(rt; array.len(), 1);
/// assert_eq!(rt; array.get(0).ok_or("no element")?.as_bool(), Some(true));
/// assert!(rt; array.get(1).is_none());
/// ```
#[derive(Clone, Copy)]
pub struct ArrayView<'a> {
    pub(crate) form: ArrayForm<'a>,
}

impl<'a> ArrayView<'a> {
    ghost use Rattle.json_value.specs.Left.{elements_left, elements_targets_left};

    pub(crate) fn of_packed(packed: PackedView<'a>) -> Option<ArrayView<'a>>
        ensures trees { option_map elements_seen result ≡ list_of (view_tree packed.entry.view) }
        ensures targets { let p = packed.entry in option_map elements_targets result
            ≡ target_elements (place_of (view_doc p.view) (doc_held p.holder) (view_place p.view)) }
    {
        match packed.view.get_type() {
            JsonType::Array => Some(ArrayView {
                form: ArrayForm::Packed(packed),
            }),
            _ => None,
        }
    }

    pub(crate) fn of_value(value: &'a Value) -> Option<ArrayView<'a>>
        ensures trees { option_map elements_seen result ≡ list_of (tree_of value.now) }
        ensures targets { option_map elements_targets result
            ≡ target_elements (whole_value value.now) }
    {
        match value {
            Value::Array(array) => Some(array.view()),
            _ => None,
        }
    }

    /// Returns the number of elements.
    #[inline]
    pub fn len(self) -> usize
        ensures { result ≡ length (elements_seen self.entry) }
    {
        match self.form {
            ArrayForm::Packed(packed) => packed_len(packed.view),
            ArrayForm::Whole(values) => values.len(),
        }
    }

    /// Returns whether the array has no elements.
    #[inline]
    pub fn is_empty(self) -> bool
        ensures { IsTrue result ↔ (elements_seen self.entry ≡ []) }
    {
        self.len() == 0
    }

    /// Returns a view of the element `i`, counted from 0, or `None` if the array has no such
    /// element.
    #[inline]
    pub fn get(self, i: usize) -> Option<View<'a>>
        ensures tree { option_map seen result ≡ slice_get (elements_seen self.entry) i }
        ensures target { option_map view_target result ≡ slice_get (elements_targets self.entry) i }
    {
        match self.form {
            ArrayForm::Packed(packed) => packed_element(packed, i),
            ArrayForm::Whole(values) => whole_element(values, i),
        }
    }

    /// Returns an iterator over views of the elements, from the first to the last.
    #[inline]
    pub fn iter(self) -> ArrayIter<'a>
        ensures trees { elements_left result ≡ elements_seen self.entry }
        ensures targets { elements_targets_left result ≡ elements_targets self.entry }
    {
        let left = match self.form {
            ArrayForm::Packed(packed) => ElementsLeft::of_packed(packed),
            ArrayForm::Whole(values) => ElementsLeft::Whole(values),
        };
        ArrayIter { left }
    }
}

fn packed_len(view: DocView<'_>) -> usize
    ensures { result ≡ length (elements (view_tree view.entry)) }
{
    match view.get_type() {
        JsonType::Array => view.len(),
        _ => 0,
    }
}

fn packed_element(packed: PackedView<'_>, i: usize) -> Option<View<'_>>
    ensures tree { option_map seen result ≡ slice_get (elements (view_tree packed.entry.view)) i }
    ensures target { let p = packed.entry in let ts = elements (view_tree p.view) in
        option_map view_target result
        ≡ slice_get (elements_at (view_doc p.view) (doc_held p.holder) (view_place p.view) ts) i }
{
    match packed.view.element(i) {
        Some(element) => Some(View {
            form: ViewForm::Packed(packed.beside(element)),
        }),
        None => None,
    }
}

fn whole_element(values: &[Value], i: usize) -> Option<View<'_>>
    ensures tree { option_map seen result ≡ slice_get (map tree_of values.now) i }
    ensures target { option_map view_target result ≡ slice_get (map whole_value values.now) i }
{
    if i < values.len() {
        Some(values[i].view())
    } else {
        None
    }
}

/// An iterator over views of the elements of an array, in order. Created by [`ArrayView::iter`].
///
/// ```
/// use json_doc::read_document;
/// use json_value::View;
/// let doc = read_document(alloc, "[\"a\", 1, \"b\"]")?;
/// let mut joined = String::new(alloc);
/// for element in View::packed(doc.view()).as_array().ok_or("no array")?.iter() {
///     joined.push_str(element.text().unwrap_or("-"))?;
/// }
/// assert_eq!(rt; joined.as_str(), "a-b");
/// ```
#[derive(Drop)]
pub struct ArrayIter<'a> {
    left: ElementsLeft<'a>,
}

#[derive(Drop)]
pub(crate) enum ElementsLeft<'a> {
    Packed(PackedElements<'a>),
    Whole(&'a [Value]),
}

// The elements of a packed array that are left.
#[derive(Drop)]
pub(crate) struct PackedElements<'a> {
    packed: PackedView<'a>,
    elements: DocChildren<'a>,
    ghost same: { children_doc elements ≡ view_doc packed.view } by { Prim.hlevel props },
}

impl<'a> PackedElements<'a> {
    ghost use Rattle.std.specs.Iterator.{YieldsFirstBy};
    ghost use Rattle.json_value.specs.Left.{packed_targets};

    #[inline]
    fn next(&mut self) -> Option<View<'a>>
        ensures tree { YieldsFirstBy seen (λ p. children_left p.elements) self.old result self.new }
        ensures target { YieldsFirstBy view_target packed_targets self.old result self.new }
    {
        match self.elements.next() {
            Some(element) => Some(View {
                form: ViewForm::Packed(self.packed.beside(element)),
            }),
            None => None,
        }
    }
}

impl<'a> ElementsLeft<'a> {
    ghost use Rattle.json_value.specs.Left.{trees_to_come, remaining_targets};

    // Returns the elements of a packed array; none of another kind.
    #[inline]
    fn of_packed(packed: PackedView<'a>) -> ElementsLeft<'a>
        ensures trees { trees_to_come result ≡ elements (view_tree packed.entry.view) }
        ensures targets { let p = packed.entry in let ts = elements (view_tree p.view) in
            remaining_targets result
            ≡ elements_at (view_doc p.view) (doc_held p.holder) (view_place p.view) ts }
    {
        match packed.view.node() {
            DocNode::Array(elements) => ElementsLeft::Packed(PackedElements { packed, elements }),
            _ => ElementsLeft::Whole(&[]),
        }
    }
}

impl<'a> ArrayIter<'a> {
    ghost use Rattle.json_value.specs.Left.{elements_left};

    /// Returns the number of elements that are left.
    #[inline]
    pub fn len(&self) -> usize
        ensures { result ≡ length (elements_left self.now) }
    {
        match &self.left {
            ElementsLeft::Packed(packed) => packed.elements.len(),
            ElementsLeft::Whole(values) => values.len(),
        }
    }
}

impl<'a> Iterator for ArrayIter<'a> {
    ghost use Rattle.std.specs.Iterator.{item_count};
    ghost use Rattle.json_value.specs.Left.{elements_left, GivesElement};

    type Item = View<'a>;

    ghost next_gives = { GivesElement };

    ghost remaining = { item_count elements_left };

    #[inline]
    fn next(&mut self) -> Option<View<'a>> {
        match &mut self.left {
            ElementsLeft::Packed(packed) => packed.next(),
            ElementsLeft::Whole(values) => match values.split_first() {
                Some((value, rest)) => {
                    *values = rest;
                    Some(value.view())
                }
                None => None,
            },
        }
    }
}
