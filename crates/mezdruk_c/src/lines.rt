// Filtering JSON Lines.
ghost use Rattle.std.specs.Prelude.{◌≡◌, ◌≢◌, IfOk, IfErr};
ghost use Rattle.json_io.specs.Errors.{OnlyNoMemory};
ghost use Rattle.json_lines.specs.Words.{AsksForColumns};
ghost use Rattle.mezdruk_c.specs.Buffers.{buffer_bytes};
ghost use Rattle.mezdruk_c.specs.Faults.{CallFailsFor};
ghost use Rattle.mezdruk_c.specs.Lines.{FiltersBy, FiltersLines, FilteringFails, LinesFail, lines_words};
ghost use Rattle.mezdruk_c.specs.Filtered.{ReturnsFiltered};

use crate::buffer::ResultBuffer;
use crate::error_sink::ErrorSink;
use crate::failure::Failure;
use crate::fault::FaultReport;
use json_io::{
    Error, ErrorCode, Place, Result as TextResult, SliceSource, VecSink, Words, check_utf8,
};
use json_lines::run_lines;
use std::alloc::Global;

/// The failure of a text of more than 4,294,967,295 bytes.
const TOO_LARGE: Failure = Failure::Text(Error {
    code: ErrorCode::TooLarge,
    place: Place::None,
});

/// The failure of memory that ran out.
const NO_MEMORY: Failure = Failure::Text(Error {
    code: ErrorCode::NoMemory,
    place: Place::None,
});

/// The rows of lines, and their errors.
#[derive(Drop)]
pub struct Filtered {
    rows: ResultBuffer,
    errors: ResultBuffer,
}

// Returns the words that ask for the columns of the lines that have a path.
fn words_of(alloc: Global, columns: &str, has: &str) -> TextResult<Words>
    ensures ok { IfOk result (λ w. w ≡ lines_words columns.now has.now) }
    ensures only { OnlyNoMemory result }
{
    let mut option = String::from_str(alloc, "--has=")?;
    option.push_str(has)?;
    let mut words = Words::new(alloc);
    words.push(option.as_str())?;
    words.push(columns)?;
    Ok(words)
}

// Returns the buffers of the rows and the errors.
fn keep_buffers(alloc: Global, rows: Vec<u8>, errors: Vec<u8>) -> TextResult<Filtered>
    ensures rows { IfOk result (λ f. buffer_bytes f.rows ≡ rows.items) }
    ensures errors { IfOk result (λ f. buffer_bytes f.errors ≡ errors.items) }
    ensures only { OnlyNoMemory result }
{
    let rows = ResultBuffer::of(alloc, rows)?;
    let errors = ResultBuffer::of(alloc, errors)?;
    Ok(Filtered { rows, errors })
}

// Filters the lines of a text by words.
fn filter_by(alloc: Global, words: &Words, text: &[u8]) -> Result<Filtered, Failure>
    ensures done { IfOk result (λ f. FiltersBy (AsksForColumns words.now) text.now
        (buffer_bytes f.rows) (buffer_bytes f.errors)) }
    ensures failed { IfErr result (FilteringFails words.now text.now) }
{
    let mut source = SliceSource::new(text);
    let mut rows = VecSink::new(alloc);
    let mut errors = ErrorSink::new(alloc);
    let status = run_lines(alloc, words, &mut source, &mut rows, &mut errors);
    if status == 2 {
        return Err(Failure::Options);
    }
    if status == 7 {
        return Err(TOO_LARGE);
    }
    if status > 1 {
        return Err(NO_MEMORY);
    }
    let Some(errors) = errors.into_whole() else {
        return Err(NO_MEMORY);
    };
    match keep_buffers(alloc, rows.into_vec(), errors) {
        Ok(filtered) => Ok(filtered),
        Err(error) => Err(Failure::Text(error)),
    }
}

// Filters the lines of a text by columns and a path.
#[tactic(auto, using(crate::proofs::FilteredLines::filters_columns, crate::proofs::FilteredLines::lines_fail))]
fn filter(alloc: Global, text: &[u8], columns: &[u8], has: &[u8]) -> Result<Filtered, Failure>
    ensures done { IfOk result (λ f. FiltersLines columns.now has.now text.now
        (buffer_bytes f.rows) (buffer_bytes f.errors)) }
    ensures failed { IfErr result (LinesFail columns.now has.now text.now) }
{
    let columns = match check_utf8(columns) {
        Ok(columns) => columns,
        Err(error) => return Err(Failure::Argument(error)),
    };
    let has = match check_utf8(has) {
        Ok(has) => has,
        Err(error) => return Err(Failure::Argument(error)),
    };
    match words_of(alloc, columns, has) {
        Ok(words) => filter_by(alloc, &words, text),
        Err(error) => Err(Failure::Text(error)),
    }
}

// Returns the status of an outcome, 0 for a success, and writes the buffers of a success or the
// fault of a failure.
fn give_filtered(
    outcome: Result<Filtered, Failure>,
    output: &mut ResultBuffer,
    errors: &mut ResultBuffer,
    fault: &mut FaultReport,
) -> u8
    ensures { ReturnsFiltered outcome output.old output.new errors.old errors.new result fault.new }
{
    match outcome {
        Ok(filtered) => {
            *output = filtered.rows;
            *errors = filtered.errors;
            0
        }
        Err(failure) => {
            *fault = FaultReport::of(&failure);
            failure.status()
        }
    }
}

/// Filters JSON Lines: returns a row of cells for each line in `output`, and in `errors` the error
/// of each line that is no JSON text, after its number. The columns are a JSON array of 1 to 64
/// columns `[path, kind]`, where a kind is one of `"text"`, `"int"`, `"bool"` and `"json"`; a line
/// without a value at the path `has` gets no row. Returns 0, or else the status, and writes the
/// fault: 1 for a text of more than 4,294,967,295 bytes, 2 for columns or a path that are not
/// valid, and 6 if memory ran out. The output and the errors stay then.
#[unsafe(no_mangle)]
pub extern "C" fn mezdruk_lines(
    alloc: Global,
    text: &[u8],
    columns: &[u8],
    has: &[u8],
    output: &mut ResultBuffer,
    errors: &mut ResultBuffer,
    fault: &mut FaultReport,
) -> u8
    ensures done { result ≡ 0 → FiltersLines columns.now has.now text.now
        (buffer_bytes output.new) (buffer_bytes errors.new) }
    ensures failed { result ≢ 0
        → CallFailsFor (LinesFail columns.now has.now text.now) result fault.new }
    ensures kept { result ≢ 0 → (output.new ≡ output.old) × (errors.new ≡ errors.old) }
{
    give_filtered(filter(alloc, text, columns, has), output, errors, fault)
}
