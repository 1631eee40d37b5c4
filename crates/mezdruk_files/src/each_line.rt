// The lines of a value that was changed.
ghost use Rattle.std.specs.List.{flat_map};
ghost use Rattle.mezdruk_files.specs.Outcomes.{line_in, lines_in};
ghost use Rattle.mezdruk_files.specs.Writing.{WritesOutput};
ghost use Rattle.json_value.specs.Denotes.{tree_of};
ghost use Rattle.json_value.specs.Seen.{elements_seen, seen};

use crate::job::{Job, write_line};
use json_command::Printer;
use json_io::{Result, Sink};
use json_layout::Style;
use json_value::{ArrayView, Value, View};

// Prints the line of the element.
fn write_element<K: Sink>(
    printer: &Printer,
    element: View<'_>,
    style: Option<Style<'_>>,
    raw: bool,
    sink: &mut K,
) -> Result<()>
    ensures { WritesOutput (K.state sink.old) (K.state sink.new)
        (line_in raw style.entry (seen element.entry)) result }
{
    match element.to_value(printer.alloc()) {
        Ok(value) => write_line(printer, &value, style, raw, sink),
        Err(error) => Err(error),
    }
}

// Prints the line of each element.
fn write_each<K: Sink>(
    printer: &Printer,
    array: ArrayView<'_>,
    style: Option<Style<'_>>,
    raw: bool,
    sink: &mut K,
) -> Result<()>
    ensures { WritesOutput (K.state sink.old) (K.state sink.new)
        (flat_map (line_in raw style.entry) (elements_seen array.entry)) result }
{
    'elements: for element in array.iter() {
        match write_element(printer, element, style, raw, sink) {
            Ok(()) => {}
            Err(error) => return Err(error),
        }
    }
    Ok(())
}

/// Prints the lines of the changed value that the job asks for.
pub(crate) fn write_lines<C, K: Sink>(
    printer: &Printer,
    value: &Value,
    job: &Job<'_, C>,
    sink: &mut K,
) -> Result<()>
    ensures { WritesOutput (K.state sink.old) (K.state sink.new)
        (lines_in job.now.each job.now.raw job.now.style (tree_of value.now)) result }
{
    if !job.each {
        return write_line(printer, value, job.style, job.raw, sink);
    }
    match value.view().as_array() {
        Some(array) => write_each(printer, array, job.style, job.raw, sink),
        None => Ok(()),
    }
}
