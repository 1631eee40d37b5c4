// A table of columns, which writes the rows of lines.
ghost use Rattle.std.specs.Prelude.{◌≡◌, ◌≢◌, ◌≤◌, None, Some, Err, ◌<◌, ◌∷◌, ◌++◌, [], List, ℕ, length, map, IfOk, IfErr, OnOk, Ok, option_map};
ghost use Rattle.json_layout.specs.TextWriting.{WritesText};
ghost use Rattle.json_doc.specs.Seen.{view_tree};
ghost use Rattle.json_lines.specs.Cells.{csv_rows, cells, row_end, separator, header_of, name_field, table_row, table_header};
ghost use Rattle.json_lines.specs.Csv.{csv_field, joined};
ghost use Rattle.json_grammar.specs.Grammar.{ws};
ghost use Rattle.json_io.specs.Errors.{OnlyNoMemory};
ghost use Rattle.json_io.specs.FaultText.{text_of};
ghost use Rattle.json_io.specs.declared.error.ErrorCode.TheVariants.{NoMemory};
ghost use Rattle.json_doc.specs.Docs.{doc_tree, doc_root};
ghost use Rattle.json_lines.specs.LineHandling.{WritesRow, RowFails};
ghost use Rattle.json_lines.specs.Outcomes.{HasOutcome};
ghost use Rattle.json_lines.specs.Tables.{table_column, table_command, row_format, cell_separator};
ghost use Rattle.json_command.specs.Input.{BlankTest};

use crate::cells::{write_bytes, write_next_cell, write_separator};
use crate::csv::write_field;
use crate::paths::follow;
use crate::run::RowWriter;
use json_doc::{Doc, DocView, DocumentRoom};
use json_io::{Error, ErrorCode, FaultText, Place, Result, Sink, check_utf8, fault_text};
use json_layout::BufferedWriter;
use json_scan::ws_run;
use json_text::Rules;
use json_value::Path;
use std::alloc::Global;

// Which values a cell shows.
#[derive(Clone, Copy)]
pub(crate) enum ColumnKind {
    Text,
    Int,
    Bool,
    Json,
}

// Where the value of a cell is, which values it shows, and the name of the column: the compact text
// of the path as it was given.
#[derive(Drop)]
pub(crate) struct Column {
    pub(crate) path: Path,
    pub(crate) kind: ColumnKind,
    pub(crate) name: String,
}

// How rows are written: cells with tabs between them, or records of CSV, whose JSON texts are
// written to memory first.
#[derive(Clone, Copy)]
pub(crate) enum RowFormat {
    Tabbed,
    Csv(Global),
}

// What the command line asks for. A line has a row only where the path `has` leads to a value.
#[derive(Drop)]
pub(crate) struct Table {
    pub(crate) columns: Vec<Column>,
    pub(crate) has: Path,
    pub(crate) format: RowFormat,
    // whether the first bad line ends the run
    pub(crate) strict: bool,
}

// Returns the error text of a line. Memory that ran out is no error of the line.
fn line_error(error: Error) -> Result<Option<FaultText>>
    ensures ok { IfOk result (λ fault. (error.code ≢ NoMemory) × (fault ≡ Some (text_of error))) }
    ensures err { OnlyNoMemory result }
{
    match error.code {
        ErrorCode::NoMemory => Err(Error {
            code: ErrorCode::NoMemory,
            place: Place::None,
        }),
        _ => Ok(Some(fault_text(&error))),
    }
}

// Returns whether a line is whitespace alone.
fn is_blank(line: &[u8]) -> bool
    ensures { BlankTest line.now result }
{
    ws_run(line, 0) == line.len()
}

impl Table {
    // Writes the row of a text, or returns its error text.
    fn write_text_row<W: Sink>(
        &self,
        room: &mut DocumentRoom,
        text: &str,
        out: &mut BufferedWriter<W>,
    ) -> Result<Option<FaultText>>
        requires short { length text.now ≤ 1048576 }
        requires full { ¬ (ws text.now) }
        ensures ok { IfOk result (λ fault. WritesRow (HasOutcome (table_command self.now) text.now)
            (⟦<BufferedWriter<W> as Sink>⟧.state out.old)
            (⟦<BufferedWriter<W> as Sink>⟧.state out.new)
            fault) }
        ensures err { IfErr result (λ e. RowFails (HasOutcome (table_command self.now) text.now)
            (⟦<BufferedWriter<W> as Sink>⟧.state out.old)
            (⟦<BufferedWriter<W> as Sink>⟧.state out.new)
            e) }
    {
        match room.read(text, Rules::usual()) {
            Ok(doc) => self.write_document_row(doc, out),
            Err(error) => line_error(error),
        }
    }

    // Writes the row of a document.
    fn write_document_row<W: Sink>(
        &self,
        doc: &Doc,
        out: &mut BufferedWriter<W>,
    ) -> Result<Option<FaultText>>
        ensures ok { IfOk result (λ fault. (fault ≡ None) × WritesText
            (⟦<BufferedWriter<W> as Sink>⟧.state out.old)
            (⟦<BufferedWriter<W> as Sink>⟧.state out.new)
            (table_row (table_command self.now) (doc_tree doc.now (doc_root doc.now))) (Ok tt)) }
        ensures err { IfErr result (λ e. WritesText
            (⟦<BufferedWriter<W> as Sink>⟧.state out.old)
            (⟦<BufferedWriter<W> as Sink>⟧.state out.new)
            (table_row (table_command self.now) (doc_tree doc.now (doc_root doc.now))) (Err e)) }
    {
        match self.write_view_row(out, doc.view()) {
            Ok(()) => Ok(None),
            Err(error) => Err(error),
        }
    }

    // Writes the cells, with separators between them.
    fn write_cells<W: Sink>(&self, out: &mut BufferedWriter<W>, view: DocView<'_>) -> Result<()>
        ensures { WritesText
            (⟦<BufferedWriter<W> as Sink>⟧.state out.old)
            (⟦<BufferedWriter<W> as Sink>⟧.state out.new)
            (cells (row_format self.now.format) (table_command self.now).columns
            (view_tree view.entry)) result }
    {
        let mut first = true;
        'cells: for column in &self.columns {
            let found = follow(view, column.path.steps());
            match write_next_cell(out, first, self.format, column.kind, found) {
                Ok(()) => {}
                Err(error) => return Err(error),
            }
            first = false;
        }
        Ok(())
    }

    // Writes the row of a value, if it has one.
    fn write_view_row<W: Sink>(&self, out: &mut BufferedWriter<W>, view: DocView<'_>) -> Result<()>
        ensures { WritesText
            (⟦<BufferedWriter<W> as Sink>⟧.state out.old)
            (⟦<BufferedWriter<W> as Sink>⟧.state out.new)
            (table_row (table_command self.now) (view_tree view.entry)) result }
    {
        match follow(view, self.has.steps()) {
            Some(_) => self.write_cells_line(out, view),
            None => Ok(()),
        }
    }

    // Writes the cells and the end of the row.
    fn write_cells_line<W: Sink>(
        &self,
        out: &mut BufferedWriter<W>,
        view: DocView<'_>,
    ) -> Result<()>
        ensures { WritesText
            (⟦<BufferedWriter<W> as Sink>⟧.state out.old)
            (⟦<BufferedWriter<W> as Sink>⟧.state out.new)
            (cells (row_format self.now.format) (table_command self.now).columns (view_tree view.entry)
            ++ row_end (row_format self.now.format)) result }
    {
        match self.write_cells(out, view) {
            Ok(()) => write_row_end(out, self.format),
            Err(error) => Err(error),
        }
    }

    // Writes the names of the columns as fields of CSV.
    fn write_names<W: Sink>(&self, out: &mut BufferedWriter<W>, alloc: Global) -> Result<()>
        ensures { WritesText
            (⟦<BufferedWriter<W> as Sink>⟧.state out.old)
            (⟦<BufferedWriter<W> as Sink>⟧.state out.new)
            (joined 44 name_field (table_command self.now).columns) result }
    {
        let mut first = true;
        'names: for column in &self.columns {
            match write_name(out, alloc, first, column.name.as_bytes()) {
                Ok(()) => {}
                Err(error) => return Err(error),
            }
            first = false;
        }
        Ok(())
    }

    // Writes the names of the columns as a record of CSV.
    fn write_names_line<W: Sink>(&self, out: &mut BufferedWriter<W>, alloc: Global) -> Result<()>
        ensures { WritesText
            (⟦<BufferedWriter<W> as Sink>⟧.state out.old)
            (⟦<BufferedWriter<W> as Sink>⟧.state out.new)
            (joined 44 name_field (table_command self.now).columns ++ row_end csv_rows) result }
    {
        match self.write_names(out, alloc) {
            Ok(()) => write_row_end(out, RowFormat::Csv(alloc)),
            Err(error) => Err(error),
        }
    }
}

// Writes the name of a column after its separator, as a field of CSV.
fn write_name<W: Sink>(
    out: &mut BufferedWriter<W>,
    alloc: Global,
    first: bool,
    name: &[u8],
) -> Result<()>
    ensures { WritesText
        (⟦<BufferedWriter<W> as Sink>⟧.state out.old)
        (⟦<BufferedWriter<W> as Sink>⟧.state out.new)
        (cell_separator 44 first ++ csv_field name.now) result }
{
    match write_separator(out, RowFormat::Csv(alloc), first) {
        Ok(()) => write_field(out, name),
        Err(error) => Err(error),
    }
}

// Writes the end of a row.
fn write_row_end<W: Sink>(out: &mut BufferedWriter<W>, format: RowFormat) -> Result<()>
    ensures { WritesText
        (⟦<BufferedWriter<W> as Sink>⟧.state out.old)
        (⟦<BufferedWriter<W> as Sink>⟧.state out.new)
        (row_end (row_format format)) result }
{
    match format {
        RowFormat::Tabbed => write_bytes(out, b"\n"),
        RowFormat::Csv(_) => write_bytes(out, b"\r\n"),
    }
}

impl<W: Sink> RowWriter<BufferedWriter<W>> for Table {
    ghost has_outcome = { λ t line. HasOutcome (table_command t) line };

    ghost header = { λ t. table_header (table_command t) };

    ghost strict = { λ t. t.strict };

    fn ends_after(&self, bad: bool) -> bool {
        self.strict && bad
    }

    fn write_header(&self, sink: &mut BufferedWriter<W>) -> Result<()> {
        match self.format {
            RowFormat::Tabbed => Ok(()),
            RowFormat::Csv(alloc) => self.write_names_line(sink, alloc),
        }
    }

    fn write_row(
        &self,
        room: &mut DocumentRoom,
        line: &[u8],
        sink: &mut BufferedWriter<W>,
    ) -> Result<Option<FaultText>> {
        if is_blank(line) {
            return Ok(None);
        }
        match check_utf8(line) {
            Ok(text) => self.write_text_row(room, text, sink),
            Err(error) => Ok(Some(fault_text(&error))),
        }
    }
}
