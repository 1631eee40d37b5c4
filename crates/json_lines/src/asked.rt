// Reads what the words of the command line ask for.
ghost use Rattle.std.specs.Prelude.{◌≡◌, ◌≢◌, ◌⊎◌, ◌≤◌, List, ℕ, [], ◌∷◌, length, map, string_bytes, Some, None, IfOk, IfErr, MatchOption, option_map};
ghost use Rattle.json_io.specs.Errors.{no_memory, bad_words};
ghost use Rattle.json_io.specs.declared.error.ErrorCode.TheVariants.{NoMemory, TypeUnmatched};
ghost use Rattle.json_tokens.specs.Refusals.{error_without_place as spec_refusal};
ghost use Rattle.json_data.specs.Spelled.{Unspelled};
ghost use Rattle.json_model.specs.Edit.{Step};
ghost use Rattle.json_model.specs.Print.{shown};
ghost use Rattle.json_value.specs.Denotes.{tree_of};
ghost use Rattle.json_value.specs.Edits.{path_steps};
ghost use Rattle.json_value.specs.EditTrees.{path_in, each_in};
ghost use Rattle.json_value.specs.Seen.{seen, elements_seen};
ghost use Rattle.json_lines.specs.Cells.{LinesCommand};
ghost use Rattle.json_lines.specs.Tables.{cell_kind, table_column, table_command, row_format as spec_row_format, Gathered};
ghost use Rattle.json_lines.specs.Words.{kind_named as spec_kind_named, kind_in, column_of_pair, column_in, columns_in, WordSpells, WordSpellsNothing, NoColumns, format_by, SpellsCommand, SpellsHas, AsksForColumns, IsLinesRequest};

use crate::cells::compact_text;
use crate::gathered::{GatheredWords, gather};
use crate::table::{Column, ColumnKind, RowFormat, Table};
use json_command::{BAD_WORDS, arguments_error, read_argument};
use json_data::from_value;
use json_io::{Error, ErrorCode, Result, Words};
use json_tokens::error_without_place;
use json_value::{ArrayView, Path, Value, View};
use std::alloc::Global;

// Returns the error of a value that spells something else.
fn wrong_type() -> Error
    ensures { result ≡ spec_refusal TypeUnmatched }
{
    error_without_place(ErrorCode::TypeUnmatched)
}

// Reads the path that a value spells.
fn read_column_path(alloc: Global, value: &Value) -> Result<Path>
    ensures ok { IfOk result (λ p. path_in (tree_of value.now) ≡ Some (path_steps p)) }
    ensures err { IfErr result (Unspelled (path_in (tree_of value.now))) }
{
    match from_value::<Path>(alloc, value) {
        Ok(path) => Ok(path),
        Err(error) => Err(error),
    }
}

// Reads the path that a view spells.
fn read_path_seen(alloc: Global, view: View<'_>) -> Result<Path>
    ensures ok { IfOk result (λ p. path_in (seen view.entry) ≡ Some (path_steps p)) }
    ensures err { IfErr result (Unspelled (path_in (seen view.entry))) }
{
    match view.to_value(alloc) {
        Ok(value) => read_column_path(alloc, &value),
        Err(error) => Err(error),
    }
}

// Returns the kind with this name.
fn kind_of_name(name: &str) -> Option<ColumnKind>
    ensures { option_map cell_kind result ≡ spec_kind_named name.now }
{
    match name {
        "text" => Some(ColumnKind::Text),
        "int" => Some(ColumnKind::Int),
        "bool" => Some(ColumnKind::Bool),
        "json" => Some(ColumnKind::Json),
        _ => None,
    }
}

// Reads the kind that a view names.
fn read_kind(view: View<'_>) -> Option<ColumnKind>
    ensures { option_map cell_kind result ≡ kind_in (seen view.entry) }
{
    match view.text() {
        Some(name) => kind_of_name(name),
        None => None,
    }
}

// Returns the two elements of an array; `None` if it has fewer or more.
fn pair_of_elements<'a>(array: ArrayView<'a>) -> Option<(View<'a>, View<'a>)>
    ensures { MatchOption result (length (elements_seen array.entry) ≢ 2)
        (λ p. elements_seen array.entry ≡ seen p.0 ∷ seen p.1 ∷ []) }
{
    if array.len() != 2 {
        return None;
    }
    let first = array.get(0)?;
    let second = array.get(1)?;
    Some((first, second))
}

// Reads the column of a path and of a kind that was read.
fn named_column(alloc: Global, path: View<'_>, kind: ColumnKind) -> Result<Column>
    ensures ok { IfOk result (λ c. (path_in (seen path.entry) ≡ Some (path_steps c.path))
        × (c.kind ≡ kind) × (string_bytes c.name ≡ shown None 0 (seen path.entry))) }
    ensures err { IfErr result (Unspelled (path_in (seen path.entry))) }
{
    let name = match compact_text(alloc, path) {
        Ok(name) => name,
        Err(error) => return Err(error),
    };
    match read_path_seen(alloc, path) {
        Ok(path) => Ok(Column { path, kind, name }),
        Err(error) => Err(error),
    }
}

// Reads the column of a path and a kind.
fn read_column_pair(alloc: Global, path: View<'_>, kind: View<'_>) -> Result<Column>
    ensures ok { IfOk result (λ c.
        column_of_pair (seen path.entry ∷ seen kind.entry ∷ []) ≡ Some (table_column c)) }
    ensures err { IfErr result (Unspelled
        (column_of_pair (seen path.entry ∷ seen kind.entry ∷ []))) }
{
    let Some(kind) = read_kind(kind) else {
        return Err(wrong_type());
    };
    named_column(alloc, path, kind)
}

// Reads a column, `[path, kind]`.
fn read_column(alloc: Global, view: View<'_>) -> Result<Column>
    ensures ok { IfOk result (λ c. column_in (seen view.entry) ≡ Some (table_column c)) }
    ensures err { IfErr result (Unspelled (column_in (seen view.entry))) }
{
    let Some(array) = view.as_array() else {
        return Err(wrong_type());
    };
    match pair_of_elements(array) {
        Some((path, kind)) => read_column_pair(alloc, path, kind),
        None => Err(wrong_type()),
    }
}

// Reads a column of each element.
fn read_each(alloc: Global, array: ArrayView<'_>) -> Result<Vec<Column>>
    ensures ok { IfOk result (λ v.
        each_in column_in (elements_seen array.entry) ≡ Some (map table_column v.items)) }
    ensures err { IfErr result (Unspelled (each_in column_in (elements_seen array.entry))) }
{
    let mut columns = Vec::new(alloc);
    'columns: for element in array.iter() {
        let column = read_column(alloc, element)?;
        columns.push(column)?;
    }
    Ok(columns)
}

// Reads the columns that a view spells.
fn read_columns(alloc: Global, view: View<'_>) -> Result<Vec<Column>>
    ensures ok { IfOk result (λ v. columns_in (seen view.entry) ≡ Some (map table_column v.items)) }
    ensures err { IfErr result (Unspelled (columns_in (seen view.entry))) }
{
    match view.as_array() {
        Some(array) => read_each(alloc, array),
        None => Err(wrong_type()),
    }
}

// Reads the columns that a word spells, by the usual rules.
fn columns_of_word(alloc: Global, word: &str) -> Result<Vec<Column>>
    ensures ok { IfOk result (λ v. WordSpells columns_in word.now (map table_column v.items)) }
    ensures err { IfErr result (λ e. (e ≡ no_memory)
        ⊎ ((e ≡ bad_words) × WordSpellsNothing columns_in word.now)) }
{
    let doc = read_argument(alloc, word)?;
    match read_columns(alloc, View::packed(doc.view())) {
        Ok(columns) => Ok(columns),
        Err(error) => Err(arguments_error(error.code)),
    }
}

// Reads the path that a word spells, by the usual rules.
fn path_of_word(alloc: Global, word: &str) -> Result<Path>
    ensures ok { IfOk result (λ p. WordSpells path_in word.now (path_steps p)) }
    ensures err { IfErr result (λ e. (e ≡ no_memory)
        ⊎ ((e ≡ bad_words) × WordSpellsNothing path_in word.now)) }
{
    let doc = read_argument(alloc, word)?;
    match read_path_seen(alloc, View::packed(doc.view())) {
        Ok(path) => Ok(path),
        Err(error) => Err(arguments_error(error.code)),
    }
}

// Reads the path of the option `--has=`; the empty path if there is no option.
fn read_has(alloc: Global, word: Option<&str>) -> Result<Path>
    ensures ok { IfOk result (λ p. SpellsHas (option_map (λ s. s.now) word.entry) (path_steps p)) }
    ensures err { IfErr result (λ e. (e ≡ no_memory)
        ⊎ ((e ≡ bad_words)
        × ((p : List Step) → ¬ (SpellsHas (option_map (λ s. s.now) word.entry) p)))) }
{
    match word {
        Some(word) => path_of_word(alloc, word),
        None => Ok(Path::new(alloc)),
    }
}

// Reads the 1 to 64 columns that a word spells.
fn limited_columns(alloc: Global, word: &str) -> Result<Vec<Column>>
    ensures ok { IfOk result (λ v. WordSpells columns_in word.now (map table_column v.items)) }
    ensures count { IfOk result (λ v. (1 ≤ length v.items) × (length v.items ≤ 64)) }
    ensures err { IfErr result (λ e. (e ≡ no_memory)
        ⊎ ((e ≡ bad_words) × NoColumns word.now)) }
{
    let columns = columns_of_word(alloc, word)?;
    let count = columns.len();
    if count < 1 {
        return Err(BAD_WORDS);
    }
    if count > 64 {
        return Err(BAD_WORDS);
    }
    Ok(columns)
}

// Returns the format of rows.
fn row_format(alloc: Global, csv: bool) -> RowFormat
    ensures { spec_row_format result ≡ format_by csv }
{
    if csv {
        RowFormat::Csv(alloc)
    } else {
        RowFormat::Tabbed
    }
}

// Reads the table of a columns word and the texts of the options.
fn read_table(
    alloc: Global,
    columns: &str,
    has: Option<&str>,
    strict: bool,
    csv: bool,
) -> Result<Table>
    ensures ok { IfOk result (λ t. SpellsCommand columns.now (option_map (λ s. s.now) has.entry)
        strict (format_by csv) (table_command t)) }
    ensures err { IfErr result (λ e. (e ≡ no_memory)
        ⊎ ((e ≡ bad_words)
        × ((k : LinesCommand) → ¬ (SpellsCommand columns.now (option_map (λ s. s.now) has.entry)
        strict (format_by csv) k)))) }
{
    let columns = limited_columns(alloc, columns)?;
    match read_has(alloc, has) {
        Ok(has) => Ok(Table {
            columns,
            has,
            format: row_format(alloc, csv),
            strict,
        }),
        Err(error) => Err(error),
    }
}

// Reads the table that gathered words ask for.
fn read_gathered(alloc: Global, words: GatheredWords<'_>) -> Result<Table>
    ensures ok { IfOk result (λ t. (arguments : List (List ℕ))
        → Gathered arguments words.entry → AsksForColumns arguments (table_command t)) }
    ensures err { IfErr result (λ e. (e ≡ no_memory)
        ⊎ ((e ≡ bad_words) × ((arguments : List (List ℕ))
        → Gathered arguments words.entry → ¬ (IsLinesRequest arguments)))) }
{
    match words.columns {
        Some(columns) => read_table(alloc, columns, words.has, words.strict, words.csv),
        None => Err(BAD_WORDS),
    }
}

// Reads the table that the words ask for.
pub(crate) fn requested_table(alloc: Global, arguments: &Words) -> Result<Table>
    ensures ok { IfOk result (λ t. AsksForColumns arguments.now (table_command t)) }
    ensures err { IfErr result
        (λ e. (e ≡ no_memory) ⊎ ((e ≡ bad_words) × ¬ (IsLinesRequest arguments.now))) }
{
    match gather(arguments) {
        Some(words) => read_gathered(alloc, words),
        None => Err(BAD_WORDS),
    }
}
