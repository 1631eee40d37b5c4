// The tokens of a value, from left to right.
ghost use Rattle.std.specs.Prelude.{map};
ghost use Rattle.json_grammar.specs.Tree.{list, list_trees, pairs, list_pairs};
ghost use Rattle.json_print.specs.ExpectedEvents.{AcceptsValue};
ghost use Rattle.json_value.specs.Denotes.{tree_of, pair_of};
ghost use Rattle.json_doc_print.specs.Emitting.{Walks, tree_given};

use crate::container::Form;
use crate::pair::Pair;
use crate::value::Value;
use json_doc_print::internal::{
    EventsResult, emit_elements, emit_members, emit_no_pairs, emit_no_values, emit_number,
    events_result,
};
use json_print::Events;

#[cycle(value)]
pub(crate) fn emit_value<E: Events>(value: &Value, out: &mut E) -> EventsResult
    requires { AcceptsValue (E.failed out.old) (E.token_state (E.state out.old)) }
    ensures { Walks E.after E.stopped (E.state out.old) (E.state out.new)
        (E.failed out.old) (E.failed out.new) (tree_given (tree_of value.now)) result }
{
    match value {
        Value::Null => events_result(out.null()),
        Value::Bool(boolean) => events_result(out.boolean(*boolean)),
        Value::Number(number) => emit_number(*number, out),
        Value::Raw(literal) => events_result(out.raw_number(literal.as_str())),
        Value::Text(text) => events_result(out.text(text.as_str())),
        Value::Array(array) => match &array.form {
            Form::Empty => emit_no_values(out),
            Form::Owned(values) => emit_values(values, out),
            Form::Packed(place) => emit_elements(place.view(), out),
        },
        Value::Object(object) => match &object.form {
            Form::Empty => emit_no_pairs(out),
            Form::Owned(values) => emit_pairs(values, out),
            Form::Packed(place) => emit_members(place.view(), out),
        },
    }
}

#[cycle(value)]
fn emit_values<E: Events>(values: &Vec<Value>, out: &mut E) -> EventsResult
    requires { AcceptsValue (E.failed out.old) (E.token_state (E.state out.old)) }
    ensures { Walks E.after E.stopped (E.state out.old) (E.state out.new)
        (E.failed out.old) (E.failed out.new)
        (tree_given (list (list_trees (map tree_of values.now.items)))) result }
{
    events_result(out.begin_array(Some(values.len())))?;
    for value in values {
        emit_value(value, out)?;
    }
    events_result(out.end_array())
}

#[cycle(value)]
fn emit_pairs<E: Events>(values: &Vec<Pair>, out: &mut E) -> EventsResult
    requires { AcceptsValue (E.failed out.old) (E.token_state (E.state out.old)) }
    ensures { Walks E.after E.stopped (E.state out.old) (E.state out.new)
        (E.failed out.old) (E.failed out.new)
        (tree_given (pairs (list_pairs (map pair_of values.now.items)))) result }
{
    events_result(out.begin_object(Some(values.len())))?;
    for pair in values {
        events_result(out.key(pair.key.as_str()))?;
        emit_value(&pair.value, out)?;
    }
    events_result(out.end_object())
}
