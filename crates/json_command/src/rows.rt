//! Runs a program on worked rows: a table of inputs and arguments, each with the status and the
//! texts that the program has to return and to write.
//!
//! A row is a line of fields, each closed by `|`: the input, the status, the output, the errors
//! without their last line break, and then the arguments. `«N PIECE»` stands for N times the piece,
//! and in the first, third and fourth field `%XX` for a byte. A line that begins with `#` is a
//! comment. If the status is that of invalid arguments, the source fails at its first call: so a
//! program that reads it returns another status.
//!
//! ```
//! use json_command::rows::differing_rows;
//! use json_text::put_all;
//! let rows = "# the first argument is the output\n|0|one||one|\n|0|two||one|\n";
//! let differing = differing_rows(alloc, rows, 4_096, |_, arguments, _, sink, _| {
//!     put_all(sink, arguments.word(0).as_bytes()).map_or(5, |_| 0)
//! })?;
//! assert_eq!(rt; differing, 1);
//! ```
ghost use Rattle.std.specs.Prelude.{◌≡◌, ◌≤◌};
ghost use Rattle.json_io.specs.Errors.{OnlyNoMemory};

use crate::status::Status;
use json_io::{FakeSource, Result, VecSink, Words};
use percent_encoding::percent_decode;
use std::alloc::Global;

// What a program is given, and what it returns.
#[derive(Drop)]
struct Row {
    input: Vec<u8>,
    status: u8,
    output: Vec<u8>,
    errors: Vec<u8>,
    arguments: Words,
}

// The field with each `«N PIECE»` as N times the piece.
fn repeat_field(alloc: Global, field: &str) -> Result<String>
    ensures { OnlyNoMemory result }
{
    let mut text = String::new(alloc);
    'parts: for part in field.split('»') {
        let (plain, counted) = part.split_once('«').unwrap_or((part, ""));
        let (count, piece) = counted.split_once(' ').unwrap_or(("0", ""));
        text.push_str(plain)?;
        let times = piece.repeat(alloc, count.parse().unwrap_or(0))?;
        text.push_str(times.as_str())?;
    }
    Ok(text)
}

// The bytes that a field spells.
fn decoded(alloc: Global, field: &str) -> Result<Vec<u8>>
    ensures { OnlyNoMemory result }
{
    let mut bytes = Vec::new(alloc);
    let text = repeat_field(alloc, field)?;
    percent_decode(text.as_bytes()).append_to(&mut bytes)?;
    Ok(bytes)
}

// The lines that the field of the errors spells.
fn decoded_lines(alloc: Global, field: &str) -> Result<Vec<u8>>
    ensures { OnlyNoMemory result }
{
    let mut bytes = decoded(alloc, field)?;
    if !bytes.is_empty() {
        bytes.push(b'\n')?;
    }
    Ok(bytes)
}

// The row of a line; none where a field is missing or the status is no number.
fn read_row(alloc: Global, line: &str) -> Result<Option<Row>>
    ensures { OnlyNoMemory result }
{
    let mut fields = line.split_terminator('|');
    let (Some(input), Some(status), Some(output), Some(errors)) = (
        fields.next(),
        fields.next(),
        fields.next(),
        fields.next(),
    ) else {
        return Ok(None);
    };
    let Ok(status) = status.parse() else {
        return Ok(None);
    };
    let (input, output) = (decoded(alloc, input)?, decoded(alloc, output)?);
    let errors = decoded_lines(alloc, errors)?;
    let mut arguments = Words::new(alloc);
    'arguments: for argument in fields {
        let argument = repeat_field(alloc, argument)?;
        arguments.push(argument.as_str())?;
    }
    Ok(Some(Row {
        input,
        status,
        output,
        errors,
        arguments,
    }))
}

// Returns whether the program does what the row says, by a source that gives at most `at_once`
// bytes a call.
fn holds<F>(alloc: Global, row: &Row, at_once: usize, run: &F) -> bool
where
    F: Fn(Global, &Words, &mut FakeSource<'_>, &mut VecSink, &mut VecSink) -> u8,
    requires callable { F.IsAlwaysCallable run.now }
    requires some { 1 ≤ at_once }
{
    let invalid = row.status == Status::InvalidArguments.number();
    let failing: &[u64] = if invalid { &[0] } else { &[] };
    let mut source = FakeSource::new(&row.input, at_once, failing);
    let (mut sink, mut errs) = (VecSink::new(alloc), VecSink::new(alloc));
    let status = run(alloc, &row.arguments, &mut source, &mut sink, &mut errs);
    status == row.status
        && sink.as_slice() == row.output.as_slice()
        && errs.as_slice() == row.errors.as_slice()
}

/// Runs a program on each worked row, and returns the number of rows with another status or other
/// texts than the program's. A row that cannot be read counts too. `run` is the program, which
/// returns its status. Its arguments are the allocator, the words of the row, the source, the sink
/// and the sink for errors. The source returns at most `at_once` bytes a call, at least one. Fails
/// with `NoMemory` if memory runs out for a row.
pub fn differing_rows<F>(alloc: Global, rows: &str, at_once: usize, run: F) -> Result<u32>
where
    F: Fn(Global, &Words, &mut FakeSource<'_>, &mut VecSink, &mut VecSink) -> u8,
    requires callable { F.IsAlwaysCallable run }
    requires some { 1 ≤ at_once }
    ensures { OnlyNoMemory result }
{
    let mut differing = 0u32;
    'rows: for line in rows.lines() {
        if line.starts_with('#') {
            continue;
        }
        let row = read_row(alloc, line)?;
        if !row.is_some_and(|row| holds(alloc, &row, at_once, &run)) {
            differing = differing.saturating_add(1);
        }
    }
    Ok(differing)
}
