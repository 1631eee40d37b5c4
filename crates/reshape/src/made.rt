// A large input that is made from a number, and the summary of it and of its text.
ghost use Rattle.std.specs.Prelude.{◌≡◌, ◌++◌, ◌≤◌, sum, decimal, OnOk, IfOk, IfErr};
ghost use Rattle.json_grammar.specs.Tree.{Tree};
ghost use Rattle.json_io.specs.Errors.{no_memory, OnlyNoMemory};
ghost use Rattle.json_text.specs.Ruled.{usual_rules};
ghost use Rattle.json_command.specs.Input.{IsInput};
ghost use Rattle.reshape.specs.Reshape.{layout_of};
ghost use Rattle.json_command.specs.Printing.{ReturnsWriteError};
ghost use Rattle.reshape.specs.Made as spec;
ghost use Rattle.reshape.specs.Made.{made_record, totals, sorted_compact, IsSummary, IsPrinted, GainsSummary, SummaryFails};

use crate::reshape;
use itoa::Buffer;
use json_command::write_text;
use json_io::{Result, Sink, SliceSource, VecSink};
use json_layout::Style;
use std::alloc::Global;

/// Returns the style in which generated input is printed: compact, with the members of each object
/// sorted by their keys.
pub fn sorted_style() -> Style<'static>
    ensures { layout_of result ≡ sorted_compact }
{
    match Style::new(None, true) {
        Some(style) => style,
        None => unreachable!(),
    }
}

fn separator(number: u32) -> &'static [u8]
    ensures { result.now ≡ spec.separator number }
{
    if number == 0 { b"" } else { b", " }
}

fn push_record(text: &mut Vec<u8>, number: u32) -> Result<()>
    ensures ok { OnOk result (text.new.items ≡ text.old.items ++ made_record number) }
    ensures err { OnlyNoMemory result }
{
    let mut buffer = Buffer::new();
    text.extend_from_slice(b"{\"n\": ")?;
    text.extend_from_slice(buffer.format(number).as_bytes())?;
    text.extend_from_slice(b", \"k\": [-0, 1.50], \"a\": \"\\u0041\"}")?;
    Ok(())
}

// Returns the text of an array of `records` records, which are numbered from 0.
fn make(alloc: Global, records: u32) -> Result<Vec<u8>>
    ensures ok { IfOk result (λ v. v.items ≡ spec.made records) }
    ensures err { OnlyNoMemory result }
{
    let mut text = Vec::from_slice(alloc, b"[")?;
    'records: for number in 0..records {
        text.extend_from_slice(separator(number))?;
        push_record(&mut text, number)?;
    }
    text.push(b']')?;
    Ok(text)
}

// Returns the text of the value of generated input, compact and sorted.
fn print_made(alloc: Global, input: &[u8]) -> Result<Vec<u8>>
    ensures ok { IfOk result (λ v. IsPrinted input.now v.items) }
    ensures err { (tree : Tree) → IsInput usual_rules input.now tree
        → IfErr result (λ e. e ≡ no_memory) }
{
    let mut source = SliceSource::new(input);
    let mut sink = VecSink::new(alloc);
    reshape(alloc, &mut source, &mut sink, &[], sorted_style())?;
    Ok(sink.into_vec())
}

fn sum_of(bytes: &[u8]) -> u128
    ensures { result ≡ sum bytes.now }
{
    let mut sum = 0;
    'bytes: for byte in bytes {
        sum += u128::from(*byte);
    }
    sum
}

fn push_number(text: &mut Vec<u8>, number: u128) -> Result<()>
    ensures ok { OnOk result (text.new.items ≡ text.old.items ++ decimal number) }
    ensures err { OnlyNoMemory result }
{
    let mut buffer = Buffer::new();
    text.extend_from_slice(buffer.format(number).as_bytes())?;
    Ok(())
}

// Appends a line: a name, the number of the bytes, and their sum.
fn push_totals(text: &mut Vec<u8>, name: &[u8], bytes: &[u8]) -> Result<()>
    ensures ok { OnOk result (text.new.items ≡ text.old.items ++ totals name.now bytes.now) }
    ensures err { OnlyNoMemory result }
{
    text.extend_from_slice(name)?;
    push_number(text, bytes.len() as u128)?;
    text.push(b' ')?;
    push_number(text, sum_of(bytes))?;
    text.push(b'\n')?;
    Ok(())
}

// Returns the summary of made input of `records` records.
fn summary(alloc: Global, records: u32) -> Result<Vec<u8>>
    requires { records ≤ 100000 }
    ensures ok { IfOk result (λ v. IsSummary records v.items) }
    ensures err { OnlyNoMemory result }
{
    let input = make(alloc, records)?;
    let output = print_made(alloc, &input)?;
    let mut text = Vec::new(alloc);
    push_totals(&mut text, b"in ", &input)?;
    push_totals(&mut text, b"out ", &output)?;
    Ok(text)
}

/// Generates an array of `records` records, at most 100,000, prints its value compact and sorted,
/// and writes a summary of both texts to `sink`: one line for each, with its number of bytes and
/// their sum. Flushes the sink.
///
/// Fails with `Io` if the sink fails, and with `NoMemory` if memory runs out. The sink then has at
/// most a prefix of the summary.
pub fn write_summary<K: Sink>(alloc: Global, records: u32, sink: &mut K) -> Result<()>
    requires { records ≤ 100000 }
    ensures ok { OnOk result (GainsSummary records (K.state sink.old) (K.state sink.new)) }
    ensures refused { IfErr result (λ e. SummaryFails records
        (K.state sink.old) (K.state sink.new) e.code e.place) }
    ensures reported { ReturnsWriteError (K.state sink.old) (K.state sink.new) result }
{
    let text = summary(alloc, records)?;
    write_text(sink, &text)
}
