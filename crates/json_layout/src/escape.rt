// Strings and numbers.
ghost use Rattle.std.specs.Prelude.{◌≡◌, ◌+◌, ◌<◌, ◌≤◌, length};
ghost use Rattle.std.specs.Fmt.{decimal};
ghost use Rattle.json_model.specs.Print.{quoted, shown_bytes};
ghost use Rattle.json_grammar.specs.Given.{piece};
ghost use Rattle.json_layout.specs.Adding.{Adds};
ghost use Rattle.json_layout.specs.Pieces.{string_text};
ghost use Rattle.json_scan.specs.Runs.{plain};

use crate::adding::add;
use crate::plain::is_plain_short;
use crate::shown::{BATCH, add_batch};
use itoa::{Buffer, Integer};
use json_io::{Sink, SinkResult};
use json_scan::plain_run;

// How many bytes go by tables after a long run.
const FEW: usize = 4;

// The end of the run of plain bytes from an offset on, where it is long: a short one goes by
// tables, with what is after it.
fn long_run(value: &[u8], from: usize) -> usize
    requires { from ≤ length value.now }
    ensures within { (from ≤ result) × (result ≤ length value.now) }
    ensures run { plain (piece value.now from result) }
{
    let end = plain_run(value, from);
    if end - from < BATCH { from } else { end }
}

// How far the bytes after a run go by tables: a few after a long run, whose next bytes are likely
// plain as well.
#[inline(always)]
fn batch_end(value: &[u8], from: usize, run: usize) -> usize
    requires order { from ≤ run }
    requires within { run ≤ length value.now }
    requires left { from < length value.now }
    ensures within { (run ≤ result) × (result ≤ length value.now) }
    ensures few { result ≤ run + 16 }
    ensures more { from < result }
{
    let most = if run > from { FEW } else { BATCH };
    value.len().min(run + most)
}

// The bytes of a string, escaped where they have to be.
fn add_escaped<W: Sink>(writer: &mut W, value: &[u8]) -> SinkResult
    ensures { Adds (W.state writer.old) (W.state writer.new) (shown_bytes value.now) result }
{
    let mut at = 0;
    'runs: while at < value.len() {
        let end = long_run(value, at);
        match add(writer, &value[at..end]) {
            Ok(()) => {}
            Err(error) => return Err(error),
        }
        at = batch_end(value, at, end);
        match add_batch(writer, &value[end..at]) {
            Ok(()) => {}
            Err(error) => return Err(error),
        }
    }
    Ok(())
}

#[inline(never)]
fn add_quoted_escaped<W: Sink>(writer: &mut W, value: &[u8]) -> SinkResult
    ensures { Adds (W.state writer.old) (W.state writer.new) (quoted value.now) result }
{
    add(writer, b"\"")?;
    add_escaped(writer, value)?;
    add(writer, b"\"")
}

// A string of which no byte has to be escaped.
#[inline(always)]
fn add_quoted_plain<W: Sink>(writer: &mut W, value: &[u8]) -> SinkResult
    requires { plain value.now }
    ensures { Adds (W.state writer.old) (W.state writer.new) (quoted value.now) result }
{
    add(writer, b"\"")?;
    add(writer, value)?;
    add(writer, b"\"")
}

#[inline(never)]
fn add_quoted_long<W: Sink>(writer: &mut W, value: &[u8]) -> SinkResult
    ensures { Adds (W.state writer.old) (W.state writer.new) (quoted value.now) result }
{
    if plain_run(value, 0) == value.len() {
        add_quoted_plain(writer, value)
    } else {
        add_quoted_escaped(writer, value)
    }
}

// A short string of which no byte has to be escaped is tested and put in line.
#[inline(always)]
fn add_quoted<W: Sink>(writer: &mut W, value: &[u8]) -> SinkResult
    ensures { Adds (W.state writer.old) (W.state writer.new) (quoted value.now) result }
{
    if is_plain_short(value) {
        add_quoted_plain(writer, value)
    } else {
        add_quoted_long(writer, value)
    }
}

/// Writes the characters of `value` as in a JSON string: `"`, `\` and the characters below U+0020
/// are escaped (RFC 8259, section 7). If `need_quote` is true, a quotation mark precedes and
/// follows them. Fails with the error of the sink, which has gained a prefix then.
#[inline(always)]
pub fn add_string<W: Sink>(writer: &mut W, value: &str, need_quote: bool) -> SinkResult
    ensures { Adds (W.state writer.old) (W.state writer.new)
        (string_text need_quote value.now) result }
{
    if need_quote {
        add_quoted(writer, value.as_bytes())
    } else {
        add_escaped(writer, value.as_bytes())
    }
}

// Not in line: what a serializer does at each token has to stay small enough to be in line itself.
/// Writes an integer of any type, as its decimal text. Fails with the error of the sink, which has
/// gained a prefix of the text then.
#[inline(never)]
pub fn add_number<N: Integer, W: Sink>(writer: &mut W, number: N) -> SinkResult
    ensures { Adds (W.state writer.old) (W.state writer.new) (N.text number) result }
{
    let mut buffer = Buffer::new();
    add(writer, buffer.format(number).as_bytes())
}

#[inline(always)]
fn digit(value: u64) -> u8
    requires { value < 10 }
    ensures { result ≡ 48 + value }
{
    b'0' + value as u8
}

// An integer of one or two digits.
#[inline(always)]
fn add_pair<W: Sink>(writer: &mut W, number: u64) -> SinkResult
    requires { number < 100 }
    ensures { Adds (W.state writer.old) (W.state writer.new) (decimal number) result }
{
    if number < 10 {
        return add(writer, &[digit(number)]);
    }
    add(writer, &[digit(number / 10), digit(number % 10)])
}

// An integer of three or four digits.
#[inline(always)]
fn add_quad<W: Sink>(writer: &mut W, number: u64) -> SinkResult
    requires { (100 ≤ number) × (number < 10000) }
    ensures { Adds (W.state writer.old) (W.state writer.new) (decimal number) result }
{
    let last = digit(number % 10);
    let tens = number / 10;
    let hundreds = tens / 10;
    if hundreds < 10 {
        return add(writer, &[digit(hundreds), digit(tens % 10), last]);
    }
    add(
        writer,
        &[
            digit(hundreds / 10),
            digit(hundreds % 10),
            digit(tens % 10),
            last,
        ],
    )
}

/// Writes an integer from 0 on, as its decimal text. Fails with the error of the sink, which has
/// gained a prefix of the text then.
// One of a few digits is put in line.
#[inline(always)]
pub fn add_unsigned<W: Sink>(writer: &mut W, number: u64) -> SinkResult
    ensures { Adds (W.state writer.old) (W.state writer.new) (decimal number) result }
{
    if number < 100 {
        add_pair(writer, number)
    } else if number < 10_000 {
        add_quad(writer, number)
    } else {
        add_number(writer, number)
    }
}
