// The calls of a formatter that a serializer makes.
ghost use Rattle.std.specs.Prelude.{◌≡◌, OnOk};
ghost use Rattle.json_io.specs.Transfer.{Puts};
ghost use Rattle.json_print.specs.Calls.{signed_call, unsigned_call};
ghost use Rattle.json_print.specs.Parts.{meaning};

use crate::Formatter;
use json_grammar::Kind;
use json_io::{Result, Sink};

// A call of a formatter.
#[derive(Clone, Copy)]
pub(crate) enum Part<'a> {
    Null,
    Bool(bool),
    Int(i128),
    Uint(u128),
    Number(&'a str),
    Text(&'a str),
    Begin(Kind),
    End(Kind),
    BeginElement(bool),
    EndElement,
    BeginKey(bool),
    EndKey,
    BeginMember,
    EndMember,
}

// Writes an integer, by 64 bits where it has no more.
#[inline(always)]
fn write_int<F: Formatter, W: Sink>(formatter: &mut F, writer: &mut W, value: i128) -> Result<()>
    ensures puts { Puts (W.state writer.old) (W.state writer.new)
        (F.form.piece formatter.old (signed_call value)) result }
    ensures next { OnOk result (formatter.new ≡ F.form.next formatter.old (signed_call value)) }
{
    match i64::try_from(value) {
        Ok(short) => formatter.write_i64(writer, short),
        Err(_) => formatter.write_i128(writer, value),
    }
}

// Writes an integer from 0 on, by 64 bits where it has no more.
#[inline(always)]
pub(crate) fn write_uint<F: Formatter, W: Sink>(
    formatter: &mut F,
    writer: &mut W,
    value: u128,
) -> Result<()>
    ensures puts { Puts (W.state writer.old) (W.state writer.new)
        (F.form.piece formatter.old (unsigned_call value)) result }
    ensures next { OnOk result (formatter.new ≡ F.form.next formatter.old (unsigned_call value)) }
{
    match u64::try_from(value) {
        Ok(short) => formatter.write_u64(writer, short),
        Err(_) => formatter.write_u128(writer, value),
    }
}

#[inline(never)]
pub(crate) fn write_part<F: Formatter, W: Sink>(
    formatter: &mut F,
    writer: &mut W,
    part: Part<'_>,
) -> Result<()>
    ensures puts { Puts (W.state writer.old) (W.state writer.new)
        (F.form.piece formatter.old (meaning part.entry)) result }
    ensures next { OnOk result (formatter.new ≡ F.form.next formatter.old (meaning part.entry)) }
{
    match part {
        Part::Null => formatter.write_null(writer),
        Part::Bool(value) => formatter.write_bool(writer, value),
        Part::Int(value) => write_int(formatter, writer, value),
        Part::Uint(value) => write_uint(formatter, writer, value),
        Part::Number(literal) => formatter.write_number_str(writer, literal),
        Part::Text(text) => formatter.write_string_fast(writer, text, true),
        Part::Begin(Kind::Array) => formatter.begin_array(writer),
        Part::Begin(Kind::Object) => formatter.begin_object(writer),
        Part::End(Kind::Array) => formatter.end_array(writer),
        Part::End(Kind::Object) => formatter.end_object(writer),
        Part::BeginElement(first) => formatter.begin_array_value(writer, first),
        Part::EndElement => formatter.end_array_value(writer),
        Part::BeginKey(first) => formatter.begin_object_key(writer, first),
        Part::EndKey => formatter.end_object_key(writer),
        Part::BeginMember => formatter.begin_object_value(writer),
        Part::EndMember => formatter.end_object_value(writer),
    }
}
