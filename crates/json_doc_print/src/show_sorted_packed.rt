// The text of a document's tree with the members of each object in the order of their keys, written
// from left to right.
ghost use Rattle.std.specs.Prelude.{◌≡◌, ◌++◌, IsTrue};
ghost use Rattle.json_grammar.specs.Tree.{list, list_trees, pairs, list_pairs};
ghost use Rattle.json_model.specs.Print.{shown};
ghost use Rattle.json_model.specs.Sort.{sorted, NeverFall};
ghost use Rattle.json_doc.specs.Left.{children_left, pairs_doc, pairs_left};
ghost use Rattle.json_doc.specs.Readings.{elements};
ghost use Rattle.json_doc.specs.Seen.{view_tree};
ghost use Rattle.json_layout.specs.Showing.{lead};
ghost use Rattle.json_doc_print.specs.Readings.{members};
ghost use Rattle.json_doc_print.specs.ShowingSorted.{ShowsOrRunsOut};

use crate::key_order::{MemberKeys, packed_in_order, packed_never_fall};
use crate::show_packed::{show_element, show_member};
use json_doc::{Doc, DocChildren, DocNode, DocPairs, DocView};
use json_io::{Sink, SinkError, SinkResult};
use json_layout::{BufferedWriter, Layout, show_piece};
use std::alloc::Global;

/// A layout in which the members of each object are sorted by their keys. Sorting allocates 16
/// bytes a member for an object whose keys are not in order, until the end of the object was
/// written.
///
/// ```
/// use json_doc::read_document;
/// use json_doc_print::internal::{SortedLayout, show_sorted_document};
/// use json_io::{VecSink, flush_all};
/// use json_print::{BufferedWriter, ManyLines};
/// let doc = read_document(alloc, "{\"b\": 1, \"a\": 2}")?;
/// let mut out = BufferedWriter::new(alloc, VecSink::new(alloc))?;
/// let layout = SortedLayout { alloc, inner: ManyLines::new(b" ") };
/// assert!(rt; show_sorted_document(doc.view(), layout, 0, &mut out).is_ok());
/// flush_all(&mut out)?;
/// assert_eq!(rt; out.into_inner().as_slice(), b"{\n \"a\": 2,\n \"b\": 1\n}".as_slice());
/// ```
#[derive(Clone, Copy)]
pub struct SortedLayout<L> {
    /// What allocates the index of the members of an object while it is sorted.
    pub alloc: Global,
    /// The layout of the text, but for the order of members.
    pub inner: L,
}

/// Writes the JSON text of the viewed value to `out`, the members of each object in it sorted by
/// keys. `level` is the number of containers around the value. Fails with the error of the sink,
/// and with `NoMemory` if memory runs out or the levels reach 2^64 - 1.
/// Then `out` has gained a prefix of the text.
pub fn show_sorted_document<W: Sink, L: Layout>(
    view: DocView<'_>,
    layout: SortedLayout<L>,
    level: usize,
    out: &mut BufferedWriter<W>,
) -> SinkResult
    ensures { ShowsOrRunsOut (⟦<BufferedWriter<W> as Sink>⟧.state out.old)
        (⟦<BufferedWriter<W> as Sink>⟧.state out.new)
        (shown (L.indent layout.inner) level (sorted (view_tree view.entry))) result }
{
    show_sorted_member(view, layout, level, out)
}

// The value of a member.
#[cycle(shown_sorted)]
#[inline(always)]
fn show_sorted_member<W: Sink, L: Layout>(
    view: DocView<'_>,
    layout: SortedLayout<L>,
    level: usize,
    out: &mut BufferedWriter<W>,
) -> SinkResult
    ensures { ShowsOrRunsOut (⟦<BufferedWriter<W> as Sink>⟧.state out.old)
        (⟦<BufferedWriter<W> as Sink>⟧.state out.new)
        (shown (L.indent layout.inner) level (sorted (view_tree view.entry))) result }
{
    match view.node() {
        DocNode::Array(children) => show_sorted_children(children, layout, level, out),
        DocNode::Object(_) => show_sorted_members(view, layout, level, out),
        scalar => show_member(scalar, layout.inner, level, out),
    }
}

// An element, and what is written before it.
#[cycle(shown_sorted)]
#[inline(always)]
fn show_sorted_element<W: Sink, L: Layout>(
    view: DocView<'_>,
    layout: SortedLayout<L>,
    level: usize,
    first: bool,
    out: &mut BufferedWriter<W>,
) -> SinkResult
    ensures { ShowsOrRunsOut (⟦<BufferedWriter<W> as Sink>⟧.state out.old)
        (⟦<BufferedWriter<W> as Sink>⟧.state out.new)
        (lead (L.indent layout.inner) level first ++ shown (L.indent layout.inner) level
        (sorted (view_tree view.entry))) result }
{
    match view.node() {
        DocNode::Array(children) => {
            layout.inner.lead(out, level, first)?;
            show_sorted_children(children, layout, level, out)
        }
        DocNode::Object(_) => {
            layout.inner.lead(out, level, first)?;
            show_sorted_members(view, layout, level, out)
        }
        scalar => show_element(scalar, layout.inner, level, first, out),
    }
}

// An array of these elements.
#[cycle(shown_sorted)]
fn show_sorted_children<W: Sink, L: Layout>(
    children: DocChildren<'_>,
    layout: SortedLayout<L>,
    level: usize,
    out: &mut BufferedWriter<W>,
) -> SinkResult
    ensures { ShowsOrRunsOut (⟦<BufferedWriter<W> as Sink>⟧.state out.old)
        (⟦<BufferedWriter<W> as Sink>⟧.state out.new)
        (shown (L.indent layout.inner) level
        (sorted (list (list_trees (children_left children.entry))))) result }
{
    if level == usize::MAX {
        return Err(SinkError::NoMemory);
    }
    show_piece(out, b"[")?;
    let mut first = true;
    for child in children {
        show_sorted_element(child, layout, level + 1, first, out)?;
        first = false;
    }
    layout.inner.close(out, level, first, b']')
}

// Whether no key of the object that is seen is smaller than the key before it.
fn keys_in_order(view: DocView<'_>) -> bool
    ensures { IsTrue result → NeverFall (list_pairs (members (view_tree view.entry))) }
{
    match view.node() {
        DocNode::Object(members) => packed_never_fall(members),
        _ => true,
    }
}

/// Writes the members of the viewed value to `out` as the text of an object, sorted by their keys,
/// as are those of each object in it. A value that is no object has none. `level` is the number of
/// containers around the object. Fails with the error of the sink, and with `NoMemory` if memory
/// runs out or the levels reach 2^64 - 1. Then `out` has gained a prefix of
/// the text.
#[cycle(shown_sorted)]
pub fn show_sorted_members<W: Sink, L: Layout>(
    view: DocView<'_>,
    layout: SortedLayout<L>,
    level: usize,
    out: &mut BufferedWriter<W>,
) -> SinkResult
    ensures { ShowsOrRunsOut (⟦<BufferedWriter<W> as Sink>⟧.state out.old)
        (⟦<BufferedWriter<W> as Sink>⟧.state out.new)
        (shown (L.indent layout.inner) level
        (sorted (pairs (list_pairs (members (view_tree view.entry)))))) result }
{
    match view.node() {
        DocNode::Object(members) => {
            if keys_in_order(view) {
                show_packed_in_place(members, layout, level, out)
            } else {
                show_by_places(view.doc(), members, layout, level, out)
            }
        }
        _ => show_piece(out, b"{}"),
    }
}

// An object whose keys are in order.
#[cycle(shown_sorted)]
fn show_packed_in_place<W: Sink, L: Layout>(
    members: DocPairs<'_>,
    layout: SortedLayout<L>,
    level: usize,
    out: &mut BufferedWriter<W>,
) -> SinkResult
    requires { NeverFall (list_pairs (pairs_left members)) }
    ensures { ShowsOrRunsOut (⟦<BufferedWriter<W> as Sink>⟧.state out.old)
        (⟦<BufferedWriter<W> as Sink>⟧.state out.new)
        (shown (L.indent layout.inner) level
        (sorted (pairs (list_pairs (pairs_left members.entry))))) result }
{
    if level == usize::MAX {
        return Err(SinkError::NoMemory);
    }
    show_piece(out, b"{")?;
    let mut first = true;
    for (key, value) in members {
        layout.inner.key(out, level + 1, first, key)?;
        show_sorted_member(value, layout, level + 1, out)?;
        first = false;
    }
    layout.inner.close(out, level, first, b'}')
}

// An object of the document, by an index of its members.
#[cycle(shown_sorted)]
fn show_by_places<W: Sink, L: Layout>(
    doc: &Doc,
    members: DocPairs<'_>,
    layout: SortedLayout<L>,
    level: usize,
    out: &mut BufferedWriter<W>,
) -> SinkResult
    requires { pairs_doc members ≡ doc.now }
    ensures { ShowsOrRunsOut (⟦<BufferedWriter<W> as Sink>⟧.state out.old)
        (⟦<BufferedWriter<W> as Sink>⟧.state out.new)
        (shown (L.indent layout.inner) level
        (sorted (pairs (list_pairs (pairs_left members.entry))))) result }
{
    if level == usize::MAX {
        return Err(SinkError::NoMemory);
    }
    let Ok(order) = packed_in_order(layout.alloc, doc, members) else {
        return Err(SinkError::NoMemory);
    };
    show_piece(out, b"{")?;
    let mut first = true;
    for entry in &order {
        let key = doc.key(entry.number);
        layout.inner.key(out, level + 1, first, key)?;
        show_sorted_member(doc.view_at(entry.number as u32), layout, level + 1, out)?;
        first = false;
    }
    layout.inner.close(out, level, first, b'}')
}

/// Writes the elements of the viewed value to `out` as the text of an array, the members of each
/// object in it sorted by their keys. A value that is no array has none. `level` is the number of
/// containers around the array. Fails with the error of the sink, and with `NoMemory` if memory
/// runs out or the levels reach 2^64 - 1. Then `out` has gained a prefix of
/// the text.
pub fn show_sorted_elements<W: Sink, L: Layout>(
    view: DocView<'_>,
    layout: SortedLayout<L>,
    level: usize,
    out: &mut BufferedWriter<W>,
) -> SinkResult
    ensures { ShowsOrRunsOut (⟦<BufferedWriter<W> as Sink>⟧.state out.old)
        (⟦<BufferedWriter<W> as Sink>⟧.state out.new)
        (shown (L.indent layout.inner) level
        (sorted (list (list_trees (elements (view_tree view.entry)))))) result }
{
    match view.node() {
        DocNode::Array(children) => show_sorted_children(children, layout, level, out),
        _ => show_piece(out, b"[]"),
    }
}
