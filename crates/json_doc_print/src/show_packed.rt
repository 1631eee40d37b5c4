// The text of a document's tree, written from left to right: what surrounds each part is known from
// its position.
ghost use Rattle.json_grammar.specs.Tree.{list, list_trees, pairs, list_pairs};
ghost use Rattle.json_grammar.specs.Grammar.{boolean_bytes};
ghost use Rattle.json_model.specs.Print.{shown};
ghost use Rattle.json_number.specs.Numbers.{text_of_number};
ghost use Rattle.json_doc.specs.Left.{children_left, pairs_left};
ghost use Rattle.json_doc.specs.Readings.{elements};
ghost use Rattle.json_doc.specs.Seen.{view_tree};
ghost use Rattle.json_doc_print.specs.Readings.{members};
ghost use Rattle.std.specs.Prelude.{◌++◌};
ghost use Rattle.json_layout.specs.Adding.{Adds};
ghost use Rattle.json_layout.specs.Showing.{Shows, lead};
ghost use Rattle.json_doc_print.specs.ShownNodes.{node_tree};

use json_doc::{DocChildren, DocNode, DocPairs, DocView};
use json_io::{Sink, SinkError, SinkResult};
use json_layout::{BufferedWriter, Layout, show_piece, show_signed, show_text, show_unsigned};
use json_number::{Integer, Number};

/// Writes the JSON text of the viewed value to `out` in a layout. `level` is the number of
/// containers around it. Fails with the error of the sink, and with `NoMemory` if the nesting
/// reaches 2^64 - 1 levels. Then `out` has gained a prefix of the text.
pub fn show_document<W: Sink, L: Layout>(
    view: DocView<'_>,
    layout: L,
    level: usize,
    out: &mut BufferedWriter<W>,
) -> SinkResult
    ensures { Shows level (⟦<BufferedWriter<W> as Sink>⟧.state out.old)
        (⟦<BufferedWriter<W> as Sink>⟧.state out.new)
        (shown (L.indent layout) level (view_tree view.entry)) result }
{
    show_root(view.node(), layout, level, out)
}

/// Writes the decimal text of an integer to `out`. Fails with the error of the sink; `out` has
/// gained a prefix of the text then.
pub fn show_number<W: Sink>(number: Number, out: &mut BufferedWriter<W>) -> SinkResult
    ensures { Adds (⟦<BufferedWriter<W> as Sink>⟧.state out.old)
        (⟦<BufferedWriter<W> as Sink>⟧.state out.new) (text_of_number number) result }
{
    match number.integer() {
        Integer::Unsigned(n) => show_unsigned(out, n),
        Integer::Negative(n) => show_signed(out, n),
    }
}

/// Writes `true` or `false` to `out`. Fails with the error of the sink; `out` has gained a prefix
/// of the word then.
pub fn show_bool<W: Sink>(boolean: bool, out: &mut BufferedWriter<W>) -> SinkResult
    ensures { Adds (⟦<BufferedWriter<W> as Sink>⟧.state out.old)
        (⟦<BufferedWriter<W> as Sink>⟧.state out.new) (boolean_bytes boolean) result }
{
    if boolean {
        show_piece(out, b"true")
    } else {
        show_piece(out, b"false")
    }
}

// The value at a position. Its callers are functions of their own, so that each stays in line.
macro_rules! shown_node {
    ($node:ident, $layout:ident, $level:ident, $out:ident) => {
        match $node {
            DocNode::Null => show_piece($out, b"null"),
            DocNode::Boolean(boolean) => show_bool(boolean, $out),
            DocNode::Number(number) => show_number(number, $out),
            DocNode::Raw(literal) => show_piece($out, literal.as_bytes()),
            DocNode::String(text) => show_text($out, text),
            DocNode::Array(children) => show_children(children, $layout, $level, $out),
            DocNode::Object(members) => show_pairs(members, $layout, $level, $out),
        }
    };
}

// The whole.
fn show_root<W: Sink, L: Layout>(
    node: DocNode<'_>,
    layout: L,
    level: usize,
    out: &mut BufferedWriter<W>,
) -> SinkResult
    ensures { Shows level (⟦<BufferedWriter<W> as Sink>⟧.state out.old)
        (⟦<BufferedWriter<W> as Sink>⟧.state out.new)
        (shown (L.indent layout) level (node_tree node.entry)) result }
{
    shown_node!(node, layout, level, out)
}

// An element that is no string.
#[cycle(shown)]
#[inline(always)]
fn show_node<W: Sink, L: Layout>(
    node: DocNode<'_>,
    layout: L,
    level: usize,
    out: &mut BufferedWriter<W>,
) -> SinkResult
    ensures { Shows level (⟦<BufferedWriter<W> as Sink>⟧.state out.old)
        (⟦<BufferedWriter<W> as Sink>⟧.state out.new)
        (shown (L.indent layout) level (node_tree node.entry)) result }
{
    shown_node!(node, layout, level, out)
}

// The value of a member.
#[cycle(shown)]
#[inline(always)]
pub(crate) fn show_member<W: Sink, L: Layout>(
    node: DocNode<'_>,
    layout: L,
    level: usize,
    out: &mut BufferedWriter<W>,
) -> SinkResult
    ensures { Shows level (⟦<BufferedWriter<W> as Sink>⟧.state out.old)
        (⟦<BufferedWriter<W> as Sink>⟧.state out.new)
        (shown (L.indent layout) level (node_tree node.entry)) result }
{
    shown_node!(node, layout, level, out)
}

// An element, and what is written before it.
#[cycle(shown)]
#[inline(always)]
pub(crate) fn show_element<W: Sink, L: Layout>(
    node: DocNode<'_>,
    layout: L,
    level: usize,
    first: bool,
    out: &mut BufferedWriter<W>,
) -> SinkResult
    ensures { Shows level (⟦<BufferedWriter<W> as Sink>⟧.state out.old)
        (⟦<BufferedWriter<W> as Sink>⟧.state out.new)
        (lead (L.indent layout) level first ++ shown (L.indent layout) level
        (node_tree node.entry)) result }
{
    match node {
        DocNode::String(text) => layout.element(out, level, first, text),
        node => {
            layout.lead(out, level, first)?;
            show_node(node, layout, level, out)
        }
    }
}

// An array of these elements.
#[cycle(shown)]
fn show_children<W: Sink, L: Layout>(
    children: DocChildren<'_>,
    layout: L,
    level: usize,
    out: &mut BufferedWriter<W>,
) -> SinkResult
    ensures { Shows level (⟦<BufferedWriter<W> as Sink>⟧.state out.old)
        (⟦<BufferedWriter<W> as Sink>⟧.state out.new)
        (shown (L.indent layout) level (list (list_trees (children_left children.entry)))) result }
{
    if level == usize::MAX {
        return Err(SinkError::NoMemory);
    }
    show_piece(out, b"[")?;
    let mut first = true;
    for child in children {
        show_element(child.node(), layout, level + 1, first, out)?;
        first = false;
    }
    layout.close(out, level, first, b']')
}

// An object of these members.
#[cycle(shown)]
fn show_pairs<W: Sink, L: Layout>(
    members: DocPairs<'_>,
    layout: L,
    level: usize,
    out: &mut BufferedWriter<W>,
) -> SinkResult
    ensures { Shows level (⟦<BufferedWriter<W> as Sink>⟧.state out.old)
        (⟦<BufferedWriter<W> as Sink>⟧.state out.new)
        (shown (L.indent layout) level (pairs (list_pairs (pairs_left members.entry)))) result }
{
    if level == usize::MAX {
        return Err(SinkError::NoMemory);
    }
    show_piece(out, b"{")?;
    let mut first = true;
    for (key, value) in members {
        layout.key(out, level + 1, first, key)?;
        show_member(value.node(), layout, level + 1, out)?;
        first = false;
    }
    layout.close(out, level, first, b'}')
}

/// Writes the elements of the viewed value to `out` as the text of an array; a value that is no
/// array has none. `level` is the number of containers around the array. Fails with the error of
/// the sink, and with `NoMemory` if the nesting reaches 2^64 - 1 levels. Then `out` has gained a
/// prefix of the text.
pub fn show_elements<W: Sink, L: Layout>(
    view: DocView<'_>,
    layout: L,
    level: usize,
    out: &mut BufferedWriter<W>,
) -> SinkResult
    ensures { Shows level (⟦<BufferedWriter<W> as Sink>⟧.state out.old)
        (⟦<BufferedWriter<W> as Sink>⟧.state out.new)
        (shown (L.indent layout) level
        (list (list_trees (elements (view_tree view.entry))))) result }
{
    match view.node() {
        DocNode::Array(children) => show_children(children, layout, level, out),
        _ => show_piece(out, b"[]"),
    }
}

/// Writes the members of the viewed value to `out` as the text of an object; a value that is no
/// object has none. `level` is the number of containers around the object. Fails with the error of
/// the sink, and with `NoMemory` if the nesting reaches 2^64 - 1 levels. Then `out` has gained a
/// prefix of the text.
pub fn show_members<W: Sink, L: Layout>(
    view: DocView<'_>,
    layout: L,
    level: usize,
    out: &mut BufferedWriter<W>,
) -> SinkResult
    ensures { Shows level (⟦<BufferedWriter<W> as Sink>⟧.state out.old)
        (⟦<BufferedWriter<W> as Sink>⟧.state out.new)
        (shown (L.indent layout) level
        (pairs (list_pairs (members (view_tree view.entry))))) result }
{
    match view.node() {
        DocNode::Object(members) => show_pairs(members, layout, level, out),
        _ => show_piece(out, b"{}"),
    }
}
