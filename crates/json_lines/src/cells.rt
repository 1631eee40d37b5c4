// Writes the cells of a row into a buffer.
ghost use Rattle.std.specs.Prelude.{◌≡◌, ◌++◌, IfOk, None, option_map, string_bytes};
ghost use Rattle.json_grammar.specs.Grammar.{boolean_bytes};
ghost use Rattle.json_doc.specs.Seen.{view_tree};
ghost use Rattle.json_number.specs.Numbers.{text_of_number};
ghost use Rattle.json_io.specs.Errors.{OnlyNoMemory};
ghost use Rattle.json_layout.specs.Adding.{Adds};
ghost use Rattle.json_layout.specs.TextWriting.{WritesText};
ghost use Rattle.json_model.specs.Print.{shown};
ghost use Rattle.json_value.specs.Seen.{seen};
ghost use Rattle.json_lines.specs.Cells.{tabbed_rows, csv_rows, cell_of, cell_where, separator, field_text};
ghost use Rattle.json_lines.specs.Csv.{csv_field, optional_field};
ghost use Rattle.json_lines.specs.Tables.{cell_kind, cell_separator, row_format, string_cell, integer_column, boolean_cell};

use crate::csv::write_field;
use crate::table::{ColumnKind, RowFormat};
use itoa::Buffer;
use json_doc::DocView;
use json_io::{Result, Sink, SinkResult};
use json_layout::{
    BufferedWriter, OneLine, answered, show_piece, show_signed, show_text, show_unsigned,
};
use json_number::{Integer, Number};
use json_value::View;
use std::alloc::Global;

// Writes some bytes.
pub(crate) fn write_bytes<W: Sink>(out: &mut BufferedWriter<W>, piece: &[u8]) -> Result<()>
    ensures { WritesText
        (⟦<BufferedWriter<W> as Sink>⟧.state out.old) (⟦<BufferedWriter<W> as Sink>⟧.state out.new)
        piece.now result }
{
    answered(show_piece(out, piece))
}

// Shows an integer.
fn show_integer<W: Sink>(out: &mut BufferedWriter<W>, number: Number) -> SinkResult
    ensures { Adds
        (⟦<BufferedWriter<W> as Sink>⟧.state out.old) (⟦<BufferedWriter<W> as Sink>⟧.state out.new)
        (text_of_number number) result }
{
    match number.integer() {
        Integer::Unsigned(n) => show_unsigned(out, n),
        Integer::Negative(n) => show_signed(out, n),
    }
}

// Shows the cell of a string: a dash where there is none.
fn show_string_cell<W: Sink>(out: &mut BufferedWriter<W>, string: Option<&str>) -> SinkResult
    ensures { Adds
        (⟦<BufferedWriter<W> as Sink>⟧.state out.old) (⟦<BufferedWriter<W> as Sink>⟧.state out.new)
        (string_cell (option_map (λ s. s.now) string.entry)) result }
{
    match string {
        Some(string) => show_text(out, string),
        None => show_piece(out, b"-"),
    }
}

// Shows the cell of an integer: a dash where there is none.
fn show_integer_cell<W: Sink>(out: &mut BufferedWriter<W>, number: Option<Number>) -> SinkResult
    ensures { Adds
        (⟦<BufferedWriter<W> as Sink>⟧.state out.old) (⟦<BufferedWriter<W> as Sink>⟧.state out.new)
        (integer_column (option_map text_of_number number)) result }
{
    match number {
        Some(number) => show_integer(out, number),
        None => show_piece(out, b"-"),
    }
}

// Shows the cell of a boolean: a dash where there is none.
fn show_boolean_cell<W: Sink>(out: &mut BufferedWriter<W>, boolean: Option<bool>) -> SinkResult
    ensures { Adds
        (⟦<BufferedWriter<W> as Sink>⟧.state out.old) (⟦<BufferedWriter<W> as Sink>⟧.state out.new)
        (boolean_cell boolean) result }
{
    match boolean {
        Some(true) => show_piece(out, b"true"),
        Some(false) => show_piece(out, b"false"),
        None => show_piece(out, b"-"),
    }
}

// Writes the cell of a value.
fn write_value<W: Sink>(
    out: &mut BufferedWriter<W>,
    kind: ColumnKind,
    view: DocView<'_>,
) -> Result<()>
    ensures { WritesText
        (⟦<BufferedWriter<W> as Sink>⟧.state out.old) (⟦<BufferedWriter<W> as Sink>⟧.state out.new)
        (cell_of (cell_kind kind) (view_tree view.entry)) result }
{
    match kind {
        ColumnKind::Text => answered(show_string_cell(out, view.text())),
        ColumnKind::Int => answered(show_integer_cell(out, view.as_number())),
        ColumnKind::Bool => answered(show_boolean_cell(out, view.as_bool())),
        ColumnKind::Json => View::packed(view).print(OneLine, out),
    }
}

// Returns the compact text of a value.
pub(crate) fn compact_text(alloc: Global, view: View<'_>) -> Result<String>
    ensures ok { IfOk result (λ text. string_bytes text ≡ shown None 0 (seen view.entry)) }
    ensures only { OnlyNoMemory result }
{
    match view.to_value(alloc) {
        Ok(value) => value.to_string(alloc),
        Err(error) => Err(error),
    }
}

// Writes the field of a string, if there is one.
fn write_string_field<W: Sink>(out: &mut BufferedWriter<W>, string: Option<&str>) -> Result<()>
    ensures { WritesText
        (⟦<BufferedWriter<W> as Sink>⟧.state out.old) (⟦<BufferedWriter<W> as Sink>⟧.state out.new)
        (optional_field (option_map (λ s. s.now) string.entry)) result }
{
    match string {
        Some(string) => write_field(out, string.as_bytes()),
        None => Ok(()),
    }
}

// Writes the field of an integer.
fn write_integer_field<W: Sink>(out: &mut BufferedWriter<W>, number: Number) -> Result<()>
    ensures { WritesText
        (⟦<BufferedWriter<W> as Sink>⟧.state out.old) (⟦<BufferedWriter<W> as Sink>⟧.state out.new)
        (csv_field (text_of_number number)) result }
{
    let mut buffer = Buffer::new();
    match number.integer() {
        Integer::Unsigned(n) => write_field(out, buffer.format(n).as_bytes()),
        Integer::Negative(n) => write_field(out, buffer.format(n).as_bytes()),
    }
}

// Writes the field of an integer, if there is one.
fn write_number_field<W: Sink>(out: &mut BufferedWriter<W>, number: Option<Number>) -> Result<()>
    ensures { WritesText
        (⟦<BufferedWriter<W> as Sink>⟧.state out.old) (⟦<BufferedWriter<W> as Sink>⟧.state out.new)
        (optional_field (option_map text_of_number number)) result }
{
    match number {
        Some(number) => write_integer_field(out, number),
        None => Ok(()),
    }
}

// Writes the field of a boolean, if there is one.
fn write_boolean_field<W: Sink>(out: &mut BufferedWriter<W>, boolean: Option<bool>) -> Result<()>
    ensures { WritesText
        (⟦<BufferedWriter<W> as Sink>⟧.state out.old) (⟦<BufferedWriter<W> as Sink>⟧.state out.new)
        (optional_field (option_map boolean_bytes boolean)) result }
{
    match boolean {
        Some(true) => write_field(out, b"true"),
        Some(false) => write_field(out, b"false"),
        None => Ok(()),
    }
}

// Writes the field of the compact text of a value.
fn write_json_field<W: Sink>(
    out: &mut BufferedWriter<W>,
    alloc: Global,
    view: DocView<'_>,
) -> Result<()>
    ensures { WritesText
        (⟦<BufferedWriter<W> as Sink>⟧.state out.old) (⟦<BufferedWriter<W> as Sink>⟧.state out.new)
        (csv_field (shown None 0 (view_tree view.entry))) result }
{
    match compact_text(alloc, View::packed(view)) {
        Ok(text) => write_field(out, text.as_bytes()),
        Err(error) => Err(error),
    }
}

// Writes the field of a value: nothing where it is of another kind.
fn write_value_field<W: Sink>(
    out: &mut BufferedWriter<W>,
    alloc: Global,
    kind: ColumnKind,
    view: DocView<'_>,
) -> Result<()>
    ensures { WritesText
        (⟦<BufferedWriter<W> as Sink>⟧.state out.old) (⟦<BufferedWriter<W> as Sink>⟧.state out.new)
        (optional_field (field_text (cell_kind kind) (view_tree view.entry))) result }
{
    match kind {
        ColumnKind::Text => write_string_field(out, view.text()),
        ColumnKind::Int => write_number_field(out, view.as_number()),
        ColumnKind::Bool => write_boolean_field(out, view.as_bool()),
        ColumnKind::Json => write_json_field(out, alloc, view),
    }
}

// Writes a cell of CSV: nothing where there is no value.
fn write_csv_cell<W: Sink>(
    out: &mut BufferedWriter<W>,
    alloc: Global,
    kind: ColumnKind,
    found: Option<DocView<'_>>,
) -> Result<()>
    ensures { WritesText
        (⟦<BufferedWriter<W> as Sink>⟧.state out.old) (⟦<BufferedWriter<W> as Sink>⟧.state out.new)
        (cell_where csv_rows (cell_kind kind) (option_map view_tree found.entry)) result }
{
    match found {
        Some(view) => write_value_field(out, alloc, kind, view),
        None => Ok(()),
    }
}

// Writes a cell between tabs: a dash where there is no value.
fn write_tabbed_cell<W: Sink>(
    out: &mut BufferedWriter<W>,
    kind: ColumnKind,
    found: Option<DocView<'_>>,
) -> Result<()>
    ensures { WritesText
        (⟦<BufferedWriter<W> as Sink>⟧.state out.old) (⟦<BufferedWriter<W> as Sink>⟧.state out.new)
        (cell_where tabbed_rows (cell_kind kind) (option_map view_tree found.entry)) result }
{
    match found {
        Some(view) => write_value(out, kind, view),
        None => write_bytes(out, b"-"),
    }
}

// Writes a cell.
fn write_cell<W: Sink>(
    out: &mut BufferedWriter<W>,
    format: RowFormat,
    kind: ColumnKind,
    found: Option<DocView<'_>>,
) -> Result<()>
    ensures { WritesText
        (⟦<BufferedWriter<W> as Sink>⟧.state out.old) (⟦<BufferedWriter<W> as Sink>⟧.state out.new)
        (cell_where (row_format format) (cell_kind kind)
        (option_map view_tree found.entry)) result }
{
    match format {
        RowFormat::Tabbed => write_tabbed_cell(out, kind, found),
        RowFormat::Csv(alloc) => write_csv_cell(out, alloc, kind, found),
    }
}

// Writes a separator before each cell but the first.
pub(crate) fn write_separator<W: Sink>(
    out: &mut BufferedWriter<W>,
    format: RowFormat,
    first: bool,
) -> Result<()>
    ensures { WritesText
        (⟦<BufferedWriter<W> as Sink>⟧.state out.old) (⟦<BufferedWriter<W> as Sink>⟧.state out.new)
        (cell_separator (separator (row_format format)) first) result }
{
    if first {
        return Ok(());
    }
    match format {
        RowFormat::Tabbed => write_bytes(out, b"\t"),
        RowFormat::Csv(_) => write_bytes(out, b","),
    }
}

// Writes a cell after its separator.
pub(crate) fn write_next_cell<W: Sink>(
    out: &mut BufferedWriter<W>,
    first: bool,
    format: RowFormat,
    kind: ColumnKind,
    found: Option<DocView<'_>>,
) -> Result<()>
    ensures { WritesText
        (⟦<BufferedWriter<W> as Sink>⟧.state out.old) (⟦<BufferedWriter<W> as Sink>⟧.state out.new)
        (cell_separator (separator (row_format format)) first
        ++ cell_where (row_format format) (cell_kind kind)
        (option_map view_tree found.entry)) result }
{
    match write_separator(out, format, first) {
        Ok(()) => write_cell(out, format, kind, found),
        Err(error) => Err(error),
    }
}
