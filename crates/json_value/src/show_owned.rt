// The text of a value's tree, written from left to right.
ghost use Rattle.std.specs.Prelude.{map, ◌++◌};
ghost use Rattle.json_grammar.specs.Tree.{list, list_trees, pairs, list_pairs};
ghost use Rattle.json_model.specs.Print.{shown};
ghost use Rattle.json_layout.specs.Adding.{Adds};
ghost use Rattle.json_layout.specs.Showing.{Shows, lead, key_shown};
ghost use Rattle.json_value.specs.Denotes.{tree_of, pair_of, text_bytes};

use crate::container::Form;
use crate::pair::Pair;
use crate::text::Text;
use crate::value::Value;
use json_doc_print::internal::{show_bool, show_elements, show_members, show_number};
use json_io::{Sink, SinkError, SinkResult};
use json_layout::{BufferedWriter, Layout, show_piece, show_text};

/// Writes the value's text inside `level` containers.
#[cycle(shown_value)]
pub(crate) fn show_value<W: Sink, L: Layout>(
    value: &Value,
    layout: L,
    level: usize,
    out: &mut BufferedWriter<W>,
) -> SinkResult
    ensures { Shows level (⟦<BufferedWriter<W> as Sink>⟧.state out.old)
        (⟦<BufferedWriter<W> as Sink>⟧.state out.new)
        (shown (L.indent layout) level (tree_of value.now)) result }
{
    match value {
        Value::Null => show_piece(out, b"null"),
        Value::Bool(boolean) => show_bool(*boolean, out),
        Value::Number(number) => show_number(*number, out),
        Value::Raw(literal) => show_piece(out, literal.as_str().as_bytes()),
        Value::Text(text) => show_text(out, text.as_str()),
        Value::Array(array) => match &array.form {
            Form::Empty => show_piece(out, b"[]"),
            Form::Owned(values) => show_values(values, layout, level, out),
            Form::Packed(place) => show_elements(place.view(), layout, level, out),
        },
        Value::Object(object) => match &object.form {
            Form::Empty => show_piece(out, b"{}"),
            Form::Owned(values) => show_owned_pairs(values, layout, level, out),
            Form::Packed(place) => show_members(place.view(), layout, level, out),
        },
    }
}

// Writes a key, what separates it from the member before it, and the colon after it.
pub(crate) fn show_key<W: Sink, L: Layout>(
    key: &Text,
    layout: L,
    level: usize,
    first: bool,
    out: &mut BufferedWriter<W>,
) -> SinkResult
    ensures { Adds (⟦<BufferedWriter<W> as Sink>⟧.state out.old)
        (⟦<BufferedWriter<W> as Sink>⟧.state out.new)
        (key_shown (L.indent layout) level first (text_bytes key.now)) result }
{
    layout.lead(out, level, first)?;
    show_text(out, key.as_str())?;
    layout.colon(out)
}

// Writes an element and the separator and the whitespace before it.
#[cycle(shown_value)]
fn show_owned_element<W: Sink, L: Layout>(
    value: &Value,
    layout: L,
    level: usize,
    first: bool,
    out: &mut BufferedWriter<W>,
) -> SinkResult
    ensures { Shows level (⟦<BufferedWriter<W> as Sink>⟧.state out.old)
        (⟦<BufferedWriter<W> as Sink>⟧.state out.new)
        (lead (L.indent layout) level first ++ shown (L.indent layout) level
        (tree_of value.now)) result }
{
    layout.lead(out, level, first)?;
    show_value(value, layout, level, out)
}

// Writes an array of these elements.
#[cycle(shown_value)]
pub(crate) fn show_values<W: Sink, L: Layout>(
    values: &Vec<Value>,
    layout: L,
    level: usize,
    out: &mut BufferedWriter<W>,
) -> SinkResult
    ensures { Shows level (⟦<BufferedWriter<W> as Sink>⟧.state out.old)
        (⟦<BufferedWriter<W> as Sink>⟧.state out.new)
        (shown (L.indent layout) level (list (list_trees (map tree_of values.now.items)))) result }
{
    if level == usize::MAX {
        return Err(SinkError::NoMemory);
    }
    show_piece(out, b"[")?;
    let mut first = true;
    for value in values {
        show_owned_element(value, layout, level + 1, first, out)?;
        first = false;
    }
    layout.close(out, level, first, b']')
}

// Writes an object of these members.
#[cycle(shown_value)]
pub(crate) fn show_owned_pairs<W: Sink, L: Layout>(
    values: &Vec<Pair>,
    layout: L,
    level: usize,
    out: &mut BufferedWriter<W>,
) -> SinkResult
    ensures { Shows level (⟦<BufferedWriter<W> as Sink>⟧.state out.old)
        (⟦<BufferedWriter<W> as Sink>⟧.state out.new)
        (shown (L.indent layout) level (pairs (list_pairs (map pair_of values.now.items)))) result }
{
    if level == usize::MAX {
        return Err(SinkError::NoMemory);
    }
    show_piece(out, b"{")?;
    let mut first = true;
    for pair in values {
        show_key(&pair.key, layout, level + 1, first, out)?;
        show_value(&pair.value, layout, level + 1, out)?;
        first = false;
    }
    layout.close(out, level, first, b'}')
}
