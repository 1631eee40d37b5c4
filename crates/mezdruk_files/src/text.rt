// The text of a value, written to a sink. A scalar needs no buffer.
ghost use Rattle.std.specs.Prelude.{◌≡◌, ℕ, List};
ghost use Rattle.json_command.specs.Printing.{Prints};
ghost use Rattle.json_grammar.specs.Grammar.{boolean_bytes};
ghost use Rattle.json_io.specs.Outside.{SinkState};
ghost use Rattle.json_layout.specs.Adding.{Adds};
ghost use Rattle.json_layout.specs.Styles.{printed};
ghost use Rattle.json_number.specs.Numbers.{text_of_number};
ghost use Rattle.json_value.specs.Denotes.{tree_of};

use json_command::{Printer, write_text};
use json_io::{Result, Sink, SinkResult, flush_all};
use json_layout::{Style, add_number, add_string, add_unsigned, into_result};
use json_number::{Integer, Number};
use json_value::Value;

// Returns the text of a boolean.
fn boolean_text(boolean: bool) -> &'static str
    ensures { result.now ≡ boolean_bytes boolean }
{
    if boolean { "true" } else { "false" }
}

// Flushes the sink after a text was added to it. If it was not, returns the error.
fn flush_added<K: Sink>(added: SinkResult, sink: &mut K) -> Result<()>
    ensures { (old : SinkState) (text : List ℕ) → Adds old (K.state sink.old) text added
        → Prints old (K.state sink.new) text result }
{
    match into_result(added) {
        Ok(()) => flush_all(sink),
        Err(error) => Err(error),
    }
}

// Adds the decimal text of an integer to the sink.
fn add_integer<K: Sink>(number: Number, sink: &mut K) -> SinkResult
    ensures { Adds (K.state sink.old) (K.state sink.new) (text_of_number number) result }
{
    match number.integer() {
        Integer::Unsigned(n) => add_unsigned(sink, n),
        Integer::Negative(n) => add_number(sink, n),
    }
}

/// Prints the text of the value in the style. A scalar is written at once; an array or an object is
/// written through the buffer of the printer.
pub(crate) fn print_text<K: Sink>(
    printer: &Printer,
    value: &Value,
    style: Style<'_>,
    sink: &mut K,
) -> Result<()>
    ensures { Prints (K.state sink.old) (K.state sink.new)
        (printed style.entry (tree_of value.now)) result }
{
    match value {
        Value::Null => write_text(sink, b"null"),
        Value::Bool(boolean) => write_text(sink, boolean_text(*boolean).as_bytes()),
        Value::Number(number) => flush_added(add_integer(*number, sink), sink),
        Value::Raw(literal) => write_text(sink, literal.as_str().as_bytes()),
        Value::Text(text) => flush_added(add_string(sink, text.as_str(), true), sink),
        Value::Array(_) | Value::Object(_) => printer.print(value, style, sink),
    }
}
