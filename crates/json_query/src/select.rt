// What a query selects of a value (RFC 9535, sections 2.1.2, 2.3 and 2.5).
ghost use Rattle.std.specs.Prelude.{◌≡◌, Some, map, flat_map, reverse, option_to_list, OnOk, IfOk};
ghost use Rattle.json_io.specs.Errors.{OnlyNoMemory};
ghost use Rattle.json_value.specs.Seen.{seen};
ghost use Rattle.json_value.specs.ViewTargets.{view_target};
ghost use Rattle.json_query.specs.Indexes.{is_index};
ghost use Rattle.json_query.specs.Locations.{node_targets};
ghost use Rattle.json_query.specs.Models.{selector_of, segment_of, query_of, children_by, descendants_by};
ghost use Rattle.json_query.specs.Nodes.{node_values};
ghost use Rattle.json_query.specs.Query.{name_selector, wildcard_selector, index_selector, slice_selector};
ghost use Rattle.json_query.specs.Selecting.{selected};
ghost use Rattle.json_query.specs.Slices.{item_at, slice_items, items_from};
ghost use Rattle.json_query.specs.ViewedNodes.{Appends, viewed, selector_viewed, segment_viewed, elements_viewed, members_viewed, member_values, with_name};

use crate::query::{Query, Segment, Selector, Slice};
use crate::slices::{Indexes, element_index};
use json_io::Result;
use json_value::{ArrayView, ObjectView, View};
use std::alloc::Global;

fn push_each_element<'a>(found: &mut Vec<View<'a>>, array: ArrayView<'a>) -> Result<()>
    ensures ok { OnOk result (Appends found.old.items found.new.items
        (elements_viewed array.entry)) }
    ensures only { OnlyNoMemory result }
{
    'elements: for element in array.iter() {
        found.push(element)?;
    }
    Ok(())
}

fn push_each_member<'a>(found: &mut Vec<View<'a>>, object: ObjectView<'a>) -> Result<()>
    ensures ok { OnOk result (Appends found.old.items found.new.items
        (member_values (members_viewed object.entry))) }
    ensures only { OnlyNoMemory result }
{
    'members: for (_, value) in object.iter() {
        found.push(value)?;
    }
    Ok(())
}

// Appends the elements of an array or the values of an object's members; a value of another kind
// has no children.
fn push_children<'a>(found: &mut Vec<View<'a>>, view: View<'a>) -> Result<()>
    ensures ok { OnOk result (Appends found.old.items found.new.items
        (selector_viewed wildcard_selector (viewed view.entry))) }
    ensures only { OnlyNoMemory result }
{
    if let Some(array) = view.as_array() {
        return push_each_element(found, array);
    }
    match view.as_object() {
        Some(object) => push_each_member(found, object),
        None => Ok(()),
    }
}

// Appends the value of each member with this name.
fn push_named<'a>(found: &mut Vec<View<'a>>, name: &str, view: View<'a>) -> Result<()>
    ensures ok { OnOk result (Appends found.old.items found.new.items
        (selector_viewed (name_selector name.now) (viewed view.entry))) }
    ensures only { OnlyNoMemory result }
{
    match view.as_object() {
        Some(object) => push_each_named(found, name, object),
        None => Ok(()),
    }
}

fn push_each_named<'a>(found: &mut Vec<View<'a>>, name: &str, object: ObjectView<'a>) -> Result<()>
    ensures ok { OnOk result (Appends found.old.items found.new.items
        (member_values (with_name name.now (members_viewed object.entry)))) }
    ensures only { OnlyNoMemory result }
{
    'members: for (key, value) in object.iter() {
        if key == name {
            found.push(value)?;
        }
    }
    Ok(())
}

// Returns the element of the array at the index.
fn element_at<'a>(index: i64, array: ArrayView<'a>) -> Option<View<'a>>
    ensures { map viewed (option_to_list result)
        ≡ option_to_list (item_at index (elements_viewed array.entry)) }
{
    match element_index(index, array.len()) {
        Some(i) => array.get(i),
        None => None,
    }
}

// Returns the element at the index, if the value is an array.
fn element_of<'a>(index: i64, view: View<'a>) -> Option<View<'a>>
    ensures { map viewed (option_to_list result)
        ≡ selector_viewed (index_selector index) (viewed view.entry) }
{
    match view.as_array() {
        Some(array) => element_at(index, array),
        None => None,
    }
}

// Appends the element at the index.
fn push_element<'a>(found: &mut Vec<View<'a>>, index: i64, view: View<'a>) -> Result<()>
    ensures ok { OnOk result (Appends found.old.items found.new.items
        (selector_viewed (index_selector index) (viewed view.entry))) }
    ensures only { OnlyNoMemory result }
{
    match element_of(index, view) {
        Some(element) => Ok(found.push(element)?),
        None => Ok(()),
    }
}

// Appends the elements of the array that have these indexes, the first element first.
fn push_indexes<'a>(found: &mut Vec<View<'a>>, indexes: Indexes, array: ArrayView<'a>) -> Result<()>
    ensures ok { OnOk result (Appends found.old.items found.new.items
        (items_from (is_index indexes) 0 (elements_viewed array.entry))) }
    ensures only { OnlyNoMemory result }
{
    let len = array.len();
    let mut left = len;
    'elements: for element in array.iter() {
        left -= 1;
        if indexes.contains(len - 1 - left) {
            found.push(element)?;
        }
    }
    Ok(())
}

// Appends the views, the last one first.
fn push_reversed<'a>(found: &mut Vec<View<'a>>, mut views: Vec<View<'a>>) -> Result<()>
    ensures ok { OnOk result (Appends found.old.items found.new.items
        (reverse (map viewed views.entry.items))) }
    ensures only { OnlyNoMemory result }
{
    'views: while let Some(view) = views.pop() {
        found.push(view)?;
    }
    Ok(())
}

// Appends the elements of the array that the slice selects.
fn push_slice_of<'a>(
    alloc: Global,
    found: &mut Vec<View<'a>>,
    slice: Slice,
    array: ArrayView<'a>,
) -> Result<()>
    ensures ok { OnOk result (Appends found.old.items found.new.items
        (slice_items slice.start slice.end slice.step (elements_viewed array.entry))) }
    ensures only { OnlyNoMemory result }
{
    let indexes = Indexes::new(slice, array.len());
    if slice.step >= 0 {
        return push_indexes(found, indexes, array);
    }
    let mut views = Vec::new(alloc);
    push_indexes(&mut views, indexes, array)?;
    push_reversed(found, views)
}

// Appends the elements that the slice selects; a value that is no array has none.
fn push_slice<'a>(
    alloc: Global,
    found: &mut Vec<View<'a>>,
    slice: Slice,
    view: View<'a>,
) -> Result<()>
    ensures ok { OnOk result (Appends found.old.items found.new.items
        (selector_viewed (slice_selector slice.start slice.end slice.step) (viewed view.entry))) }
    ensures only { OnlyNoMemory result }
{
    match view.as_array() {
        Some(array) => push_slice_of(alloc, found, slice, array),
        None => Ok(()),
    }
}

// Appends what the selector selects of the children of the value.
fn push_selector<'a>(
    alloc: Global,
    found: &mut Vec<View<'a>>,
    selector: &Selector,
    view: View<'a>,
) -> Result<()>
    ensures ok { OnOk result (Appends found.old.items found.new.items
        (selector_viewed (selector_of selector.now) (viewed view.entry))) }
    ensures only { OnlyNoMemory result }
{
    match selector {
        Selector::Name(name) => push_named(found, name.as_str(), view),
        Selector::Wildcard => push_children(found, view),
        Selector::Index(index) => push_element(found, *index, view),
        Selector::Slice(slice) => push_slice(alloc, found, *slice, view),
    }
}

// Appends what each selector selects of the children of the value.
fn push_selected<'a>(
    alloc: Global,
    found: &mut Vec<View<'a>>,
    selectors: &[Selector],
    view: View<'a>,
) -> Result<()>
    ensures ok { OnOk result (Appends found.old.items found.new.items
        (segment_viewed (children_by selectors.now) (viewed view.entry))) }
    ensures only { OnlyNoMemory result }
{
    for selector in selectors {
        push_selector(alloc, found, selector, view)?;
    }
    Ok(())
}

// Appends what the selectors select of the children of each element and of all that is below it.
#[cycle(below)]
fn push_below_elements<'a>(
    alloc: Global,
    found: &mut Vec<View<'a>>,
    selectors: &[Selector],
    array: ArrayView<'a>,
) -> Result<()>
    ensures ok { OnOk result (Appends found.old.items found.new.items
        (flat_map (segment_viewed (descendants_by selectors.now))
        (elements_viewed array.entry))) }
    ensures only { OnlyNoMemory result }
{
    'elements: for element in array.iter() {
        push_below(alloc, found, selectors, element)?;
    }
    Ok(())
}

// Appends what the selectors select of the children of each member's value and of all that is below
// it.
#[cycle(below)]
fn push_below_members<'a>(
    alloc: Global,
    found: &mut Vec<View<'a>>,
    selectors: &[Selector],
    object: ObjectView<'a>,
) -> Result<()>
    ensures ok { OnOk result (Appends found.old.items found.new.items
        (flat_map (segment_viewed (descendants_by selectors.now))
        (member_values (members_viewed object.entry)))) }
    ensures only { OnlyNoMemory result }
{
    'members: for (_, value) in object.iter() {
        push_below(alloc, found, selectors, value)?;
    }
    Ok(())
}

// Appends what the selectors select of the children of the value and of all that is below it. The
// depth of the calls is that of the value.
#[cycle(below)]
fn push_below<'a>(
    alloc: Global,
    found: &mut Vec<View<'a>>,
    selectors: &[Selector],
    view: View<'a>,
) -> Result<()>
    ensures ok { OnOk result (Appends found.old.items found.new.items
        (segment_viewed (descendants_by selectors.now) (viewed view.entry))) }
    ensures only { OnlyNoMemory result }
{
    push_selected(alloc, found, selectors, view)?;
    if let Some(array) = view.as_array() {
        return push_below_elements(alloc, found, selectors, array);
    }
    match view.as_object() {
        Some(object) => push_below_members(alloc, found, selectors, object),
        None => Ok(()),
    }
}

// Appends what the segment selects of the value.
fn push_segment<'a>(
    alloc: Global,
    found: &mut Vec<View<'a>>,
    segment: &Segment,
    view: View<'a>,
) -> Result<()>
    ensures ok { OnOk result (Appends found.old.items found.new.items
        (segment_viewed (segment_of segment.now) (viewed view.entry))) }
    ensures only { OnlyNoMemory result }
{
    match segment {
        Segment::Child(selectors) => push_selected(alloc, found, selectors.as_slice(), view),
        Segment::Descendant(selectors) => push_below(alloc, found, selectors.as_slice(), view),
    }
}

// Returns what the segment selects of the values.
fn select_next<'a>(alloc: Global, segment: &Segment, views: &[View<'a>]) -> Result<Vec<View<'a>>>
    ensures ok { IfOk result (λ v. map viewed v.items
        ≡ flat_map (segment_viewed (segment_of segment.now)) (map viewed views.now)) }
    ensures only { OnlyNoMemory result }
{
    let mut found = Vec::new(alloc);
    for view in views {
        push_segment(alloc, &mut found, segment, *view)?;
    }
    Ok(found)
}

impl Query {
    /// Returns views of the values that the query selects of `root` (RFC 9535, section 2.1.2), in
    /// the order of the nodelist: what the first selector selects comes before what the next one
    /// does, and members are visited in the order of their object, each of a repeated name.
    ///
    /// Nothing is copied: each view is of a value within `root`, and is valid as long as `root` is.
    /// A value that is selected twice is there twice. Fails with `NoMemory` if memory runs out.
    ///
    /// ```
    /// use json_doc::read_document;
    /// use json_query::{Query, Segment, Selector};
    /// use json_value::View;
    /// let doc = read_document(alloc, "{\"a\": [{\"b\": true}, {\"b\": null}]}")?;
    /// let name = Selector::Name(String::from_str(alloc, "b")?);
    /// let segment = Segment::Descendant(vec![in alloc; name]?);
    /// let query = Query::new(vec![in alloc; segment]?);
    /// let found = query.select(alloc, View::packed(doc.view()))?;
    /// assert_eq!(rt; found.len(), 2);
    /// assert_eq!(rt; found[0].as_bool(), Some(true));
    /// ```
    pub fn select<'a>(&self, alloc: Global, root: View<'a>) -> Result<Vec<View<'a>>>
        ensures values { IfOk result (λ v. map seen v.items
            ≡ node_values (selected (query_of self.now) (seen root.entry))) }
        ensures targets { IfOk result (λ v. map (λ w. Some (view_target w)) v.items
            ≡ node_targets (view_target root.entry)
            (selected (query_of self.now) (seen root.entry))) }
        ensures only { OnlyNoMemory result }
    {
        let mut views = Vec::new(alloc);
        views.push(root)?;
        for segment in &self.segments {
            views = select_next(alloc, segment, views.as_slice())?;
        }
        Ok(views)
    }
}
