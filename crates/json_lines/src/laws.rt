//! Laws of lines, of their outcomes and of the arguments: each is the contract of a function that
//! does nothing. The outcome of a line is its row, which is empty for a line that is skipped, or
//! its error.
ghost use Rattle.std.specs.Prelude.{List, ℕ};
ghost use Rattle.json_lines.specs.Csv.{ReadsBack};
ghost use Rattle.json_lines.specs.Laws.{SomeOutcome, OneOutcome, OneLinesCommand, LinesInPieces, PieceByPiece};
ghost use Rattle.json_lines.specs.Lines.{LineByLine};

/// States that the lines of some bytes are the first line and then the lines of the bytes after it.
pub fn line_by_line()
    ensures { (bytes : List ℕ) → LineByLine bytes }
{}

/// States that each line has an outcome.
pub fn some_outcome()
    ensures { SomeOutcome }
{}

/// States that a line has at most one outcome: its bytes are a JSON text of one value, or have one
/// error.
pub fn one_outcome()
    ensures { OneOutcome }
{}

/// States that arguments ask for at most one table of columns.
pub fn one_table()
    ensures { OneLinesCommand }
{}

/// States that bytes which end with a newline, followed by others, have the lines of the first and
/// then the lines of the others.
pub fn lines_in_pieces()
    ensures { LinesInPieces }
{}

/// States that a reader of CSV (RFC 4180, section 2) has the text of each field, and then the comma
/// or the line break after the field.
pub fn fields_read_back()
    ensures { ReadsBack }
{}

/// States that bytes cut after a newline can be run in two pieces. The rows and errors of the whole
/// are those of the first piece and then those of the second, whose lines are numbered on from the
/// first.
pub fn piece_by_piece()
    ensures { PieceByPiece }
{}
