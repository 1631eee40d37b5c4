// The text of a value's tree with the members of each object in the order of their keys, written
// from left to right.
ghost use Rattle.std.specs.Prelude.{map, ◌++◌};
ghost use Rattle.json_grammar.specs.Tree.{list, list_trees, pairs, list_pairs};
ghost use Rattle.json_model.specs.Print.{shown};
ghost use Rattle.json_model.specs.Sort.{sorted, NeverFall};
ghost use Rattle.json_layout.specs.Showing.{lead};
ghost use Rattle.json_value.specs.Denotes.{tree_of, pair_of};
ghost use Rattle.json_doc_print.specs.ShowingSorted.{ShowsOrRunsOut};

use crate::container::Form;
use crate::key_order::{owned_in_order, owned_never_fall};
use crate::pair::Pair;
use crate::show_owned::show_key;
use crate::value::Value;
use json_doc_print::internal::{
    SortedLayout, show_bool, show_number, show_sorted_elements, show_sorted_members,
};
use json_io::{Sink, SinkError, SinkResult};
use json_layout::{BufferedWriter, Layout, show_piece, show_text};

/// Writes the value's text inside `level` containers, with the members of each object sorted by
/// their keys.
#[cycle(shown_sorted_value)]
pub(crate) fn show_sorted_value<W: Sink, L: Layout>(
    value: &Value,
    layout: SortedLayout<L>,
    level: usize,
    out: &mut BufferedWriter<W>,
) -> SinkResult
    ensures { ShowsOrRunsOut (⟦<BufferedWriter<W> as Sink>⟧.state out.old)
        (⟦<BufferedWriter<W> as Sink>⟧.state out.new)
        (shown (L.indent layout.inner) level (sorted (tree_of value.now))) result }
{
    match value {
        Value::Null => show_piece(out, b"null"),
        Value::Bool(boolean) => show_bool(*boolean, out),
        Value::Number(number) => show_number(*number, out),
        Value::Raw(literal) => show_piece(out, literal.as_str().as_bytes()),
        Value::Text(text) => show_text(out, text.as_str()),
        Value::Array(array) => match &array.form {
            Form::Empty => show_piece(out, b"[]"),
            Form::Owned(values) => show_sorted_values(values, layout, level, out),
            Form::Packed(place) => show_sorted_elements(place.view(), layout, level, out),
        },
        Value::Object(object) => match &object.form {
            Form::Empty => show_piece(out, b"{}"),
            Form::Owned(values) => show_sorted_pairs(values, layout, level, out),
            Form::Packed(place) => show_sorted_members(place.view(), layout, level, out),
        },
    }
}

// Writes an element, sorted, and the separator and the whitespace before it.
#[cycle(shown_sorted_value)]
fn show_sorted_item<W: Sink, L: Layout>(
    value: &Value,
    layout: SortedLayout<L>,
    level: usize,
    first: bool,
    out: &mut BufferedWriter<W>,
) -> SinkResult
    ensures { ShowsOrRunsOut (⟦<BufferedWriter<W> as Sink>⟧.state out.old)
        (⟦<BufferedWriter<W> as Sink>⟧.state out.new)
        (lead (L.indent layout.inner) level first ++ shown (L.indent layout.inner) level
        (sorted (tree_of value.now))) result }
{
    layout.inner.lead(out, level, first)?;
    show_sorted_value(value, layout, level, out)
}

// Writes an array of these elements, each sorted.
#[cycle(shown_sorted_value)]
fn show_sorted_values<W: Sink, L: Layout>(
    values: &Vec<Value>,
    layout: SortedLayout<L>,
    level: usize,
    out: &mut BufferedWriter<W>,
) -> SinkResult
    ensures { ShowsOrRunsOut (⟦<BufferedWriter<W> as Sink>⟧.state out.old)
        (⟦<BufferedWriter<W> as Sink>⟧.state out.new)
        (shown (L.indent layout.inner) level
        (sorted (list (list_trees (map tree_of values.now.items))))) result }
{
    if level == usize::MAX {
        return Err(SinkError::NoMemory);
    }
    show_piece(out, b"[")?;
    let mut first = true;
    for value in values {
        show_sorted_item(value, layout, level + 1, first, out)?;
        first = false;
    }
    layout.inner.close(out, level, first, b']')
}

// Writes an object of these members, sorted by their keys.
#[cycle(shown_sorted_value)]
fn show_sorted_pairs<W: Sink, L: Layout>(
    values: &Vec<Pair>,
    layout: SortedLayout<L>,
    level: usize,
    out: &mut BufferedWriter<W>,
) -> SinkResult
    ensures { ShowsOrRunsOut (⟦<BufferedWriter<W> as Sink>⟧.state out.old)
        (⟦<BufferedWriter<W> as Sink>⟧.state out.new)
        (shown (L.indent layout.inner) level
        (sorted (pairs (list_pairs (map pair_of values.now.items))))) result }
{
    if owned_never_fall(values) {
        show_in_place(values, layout, level, out)
    } else {
        show_by_numbers(values, layout, level, out)
    }
}

// Writes an object whose keys are in order.
#[cycle(shown_sorted_value)]
fn show_in_place<W: Sink, L: Layout>(
    values: &Vec<Pair>,
    layout: SortedLayout<L>,
    level: usize,
    out: &mut BufferedWriter<W>,
) -> SinkResult
    requires { NeverFall (list_pairs (map pair_of values.now.items)) }
    ensures { ShowsOrRunsOut (⟦<BufferedWriter<W> as Sink>⟧.state out.old)
        (⟦<BufferedWriter<W> as Sink>⟧.state out.new)
        (shown (L.indent layout.inner) level
        (sorted (pairs (list_pairs (map pair_of values.now.items))))) result }
{
    if level == usize::MAX {
        return Err(SinkError::NoMemory);
    }
    show_piece(out, b"{")?;
    let mut first = true;
    for pair in values {
        show_key(&pair.key, layout.inner, level + 1, first, out)?;
        show_sorted_value(&pair.value, layout, level + 1, out)?;
        first = false;
    }
    layout.inner.close(out, level, first, b'}')
}

// Writes an object whose keys are not in order, by a sorted index of its members.
#[cycle(shown_sorted_value)]
fn show_by_numbers<W: Sink, L: Layout>(
    values: &Vec<Pair>,
    layout: SortedLayout<L>,
    level: usize,
    out: &mut BufferedWriter<W>,
) -> SinkResult
    ensures { ShowsOrRunsOut (⟦<BufferedWriter<W> as Sink>⟧.state out.old)
        (⟦<BufferedWriter<W> as Sink>⟧.state out.new)
        (shown (L.indent layout.inner) level
        (sorted (pairs (list_pairs (map pair_of values.now.items))))) result }
{
    if level == usize::MAX {
        return Err(SinkError::NoMemory);
    }
    let Ok(order) = owned_in_order(layout.alloc, values) else {
        return Err(SinkError::NoMemory);
    };
    show_piece(out, b"{")?;
    let mut first = true;
    for entry in &order {
        let pair = &values[entry.number];
        show_key(&pair.key, layout.inner, level + 1, first, out)?;
        show_sorted_value(&pair.value, layout, level + 1, out)?;
        first = false;
    }
    layout.inner.close(out, level, first, b'}')
}
