// The tokens of a document's tree, from left to right.
ghost use Rattle.json_grammar.specs.Tree.{num, list, no_trees, list_trees, pairs, no_pairs, list_pairs};
ghost use Rattle.json_number.specs.Numbers.{text_of_number};
ghost use Rattle.json_doc.specs.Left.{children_left, pairs_left};
ghost use Rattle.json_doc.specs.Readings.{elements};
ghost use Rattle.json_doc.specs.Seen.{view_tree};
ghost use Rattle.json_print.specs.ExpectedEvents.{AcceptsValue};
ghost use Rattle.json_doc_print.specs.Emitting.{Walks, tree_given};
ghost use Rattle.json_doc_print.specs.Readings.{members};

use crate::walk::{EventsResult, events_result};
use json_doc::{DocChildren, DocNode, DocPairs, DocView};
use json_number::{Integer, Number};
use json_print::Events;

/// Writes the viewed value to `out` by its tokens, a call of `out` for each. Stops at the first
/// call that fails, and returns `EventsFailed`; `out` keeps the error.
#[cycle(document)]
pub fn emit_document<E: Events>(view: DocView<'_>, out: &mut E) -> EventsResult
    requires { AcceptsValue (E.failed out.old) (E.token_state (E.state out.old)) }
    ensures { Walks E.after E.stopped (E.state out.old) (E.state out.new)
        (E.failed out.old) (E.failed out.new) (tree_given (view_tree view.entry)) result }
{
    match view.node() {
        DocNode::Null => events_result(out.null()),
        DocNode::Boolean(boolean) => events_result(out.boolean(boolean)),
        DocNode::Number(number) => emit_number(number, out),
        DocNode::Raw(literal) => events_result(out.raw_number(literal)),
        DocNode::String(text) => events_result(out.text(text)),
        DocNode::Array(children) => emit_children(children, out),
        DocNode::Object(members) => emit_packed_pairs(members, out),
    }
}

/// Writes an integer to `out` by one call. If the call fails, returns `EventsFailed`; `out` keeps
/// the error.
pub fn emit_number<E: Events>(number: Number, out: &mut E) -> EventsResult
    requires { AcceptsValue (E.failed out.old) (E.token_state (E.state out.old)) }
    ensures { Walks E.after E.stopped (E.state out.old) (E.state out.new)
        (E.failed out.old) (E.failed out.new) (tree_given (num (text_of_number number))) result }
{
    match number.integer() {
        Integer::Unsigned(n) => events_result(out.uint(n as u128)),
        Integer::Negative(n) => events_result(out.int(n as i128)),
    }
}

// Gives the tokens of an array of these elements.
#[cycle(document)]
fn emit_children<E: Events>(children: DocChildren<'_>, out: &mut E) -> EventsResult
    requires { AcceptsValue (E.failed out.old) (E.token_state (E.state out.old)) }
    ensures { Walks E.after E.stopped (E.state out.old) (E.state out.new)
        (E.failed out.old) (E.failed out.new)
        (tree_given (list (list_trees (children_left children.entry)))) result }
{
    events_result(out.begin_array(Some(children.len())))?;
    for child in children {
        emit_document(child, out)?;
    }
    events_result(out.end_array())
}

// Gives the tokens of an object of these members.
#[cycle(document)]
fn emit_packed_pairs<E: Events>(members: DocPairs<'_>, out: &mut E) -> EventsResult
    requires { AcceptsValue (E.failed out.old) (E.token_state (E.state out.old)) }
    ensures { Walks E.after E.stopped (E.state out.old) (E.state out.new)
        (E.failed out.old) (E.failed out.new)
        (tree_given (pairs (list_pairs (pairs_left members.entry)))) result }
{
    events_result(out.begin_object(Some(members.len())))?;
    for (key, value) in members {
        events_result(out.key(key))?;
        emit_document(value, out)?;
    }
    events_result(out.end_object())
}

/// Writes an empty array to `out` by its two tokens. Stops at the first call that fails, and
/// returns `EventsFailed`; `out` keeps the error.
pub fn emit_no_values<E: Events>(out: &mut E) -> EventsResult
    requires { AcceptsValue (E.failed out.old) (E.token_state (E.state out.old)) }
    ensures { Walks E.after E.stopped (E.state out.old) (E.state out.new)
        (E.failed out.old) (E.failed out.new) (tree_given (list no_trees)) result }
{
    events_result(out.begin_array(Some(0)))?;
    events_result(out.end_array())
}

/// Writes an empty object to `out` by its two tokens. Stops at the first call that fails, and
/// returns `EventsFailed`; `out` keeps the error.
pub fn emit_no_pairs<E: Events>(out: &mut E) -> EventsResult
    requires { AcceptsValue (E.failed out.old) (E.token_state (E.state out.old)) }
    ensures { Walks E.after E.stopped (E.state out.old) (E.state out.new)
        (E.failed out.old) (E.failed out.new) (tree_given (pairs no_pairs)) result }
{
    events_result(out.begin_object(Some(0)))?;
    events_result(out.end_object())
}

/// Writes the elements of the viewed value to `out` as an array; a value that is no array has none.
/// Stops at the first call that fails, and returns `EventsFailed`; `out` keeps the error.
pub fn emit_elements<E: Events>(view: DocView<'_>, out: &mut E) -> EventsResult
    requires { AcceptsValue (E.failed out.old) (E.token_state (E.state out.old)) }
    ensures { Walks E.after E.stopped (E.state out.old) (E.state out.new)
        (E.failed out.old) (E.failed out.new)
        (tree_given (list (list_trees (elements (view_tree view.entry))))) result }
{
    match view.node() {
        DocNode::Array(children) => emit_children(children, out),
        _ => emit_no_values(out),
    }
}

/// Writes the members of the viewed value to `out` as an object; a value that is no object has
/// none. Stops at the first call that fails, and returns `EventsFailed`; `out` keeps the error.
pub fn emit_members<E: Events>(view: DocView<'_>, out: &mut E) -> EventsResult
    requires { AcceptsValue (E.failed out.old) (E.token_state (E.state out.old)) }
    ensures { Walks E.after E.stopped (E.state out.old) (E.state out.new)
        (E.failed out.old) (E.failed out.new)
        (tree_given (pairs (list_pairs (members (view_tree view.entry))))) result }
{
    match view.node() {
        DocNode::Object(members) => emit_packed_pairs(members, out),
        _ => emit_no_pairs(out),
    }
}
