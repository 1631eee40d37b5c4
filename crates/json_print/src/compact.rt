// The formatter without whitespace.
ghost use Rattle.json_print.specs.Layouts.{plain_form};

use crate::Formatter;
use json_io::{Result, Sink};
use json_layout::{add, add_byte_array, add_number, add_string, add_unsigned, into_result};

/// A [`Formatter`] that writes no whitespace between the tokens.
///
/// ```
/// use json_print::{CompactFormatter, Formatter};
/// use json_io::VecSink;
/// let mut sink = VecSink::new(alloc);
/// CompactFormatter.write_byte_array(&mut sink, b"\x01\xff")?;
/// assert_eq!(rt; sink.as_slice(), b"[1,255]".as_slice());
/// ```
#[derive(Clone, Copy, Debug)]
pub struct CompactFormatter;

impl Formatter for CompactFormatter {
    ghost form = { plain_form };

    ghost fresh = { λ _. Unit {0} };

    #[inline(always)]
    fn write_null<W: Sink>(&mut self, writer: &mut W) -> Result<()> {
        into_result(add(writer, b"null"))
    }

    #[inline(always)]
    fn write_bool<W: Sink>(&mut self, writer: &mut W, value: bool) -> Result<()> {
        if value {
            into_result(add(writer, b"true"))
        } else {
            into_result(add(writer, b"false"))
        }
    }

    #[inline(always)]
    fn write_i8<W: Sink>(&mut self, writer: &mut W, value: i8) -> Result<()> {
        into_result(add_number(writer, value))
    }

    #[inline(always)]
    fn write_i16<W: Sink>(&mut self, writer: &mut W, value: i16) -> Result<()> {
        into_result(add_number(writer, value))
    }

    #[inline(always)]
    fn write_i32<W: Sink>(&mut self, writer: &mut W, value: i32) -> Result<()> {
        into_result(add_number(writer, value))
    }

    #[inline(always)]
    fn write_i64<W: Sink>(&mut self, writer: &mut W, value: i64) -> Result<()> {
        into_result(add_number(writer, value))
    }

    #[inline(always)]
    fn write_i128<W: Sink>(&mut self, writer: &mut W, value: i128) -> Result<()> {
        into_result(add_number(writer, value))
    }

    #[inline(always)]
    fn write_u8<W: Sink>(&mut self, writer: &mut W, value: u8) -> Result<()> {
        into_result(add_number(writer, value))
    }

    #[inline(always)]
    fn write_u16<W: Sink>(&mut self, writer: &mut W, value: u16) -> Result<()> {
        into_result(add_number(writer, value))
    }

    #[inline(always)]
    fn write_u32<W: Sink>(&mut self, writer: &mut W, value: u32) -> Result<()> {
        into_result(add_number(writer, value))
    }

    #[inline(always)]
    fn write_u64<W: Sink>(&mut self, writer: &mut W, value: u64) -> Result<()> {
        into_result(add_unsigned(writer, value))
    }

    #[inline(always)]
    fn write_u128<W: Sink>(&mut self, writer: &mut W, value: u128) -> Result<()> {
        into_result(add_number(writer, value))
    }

    #[inline(always)]
    fn write_number_str<W: Sink>(&mut self, writer: &mut W, value: &str) -> Result<()> {
        into_result(add(writer, value.as_bytes()))
    }

    #[inline(always)]
    fn write_string_fast<W: Sink>(
        &mut self,
        writer: &mut W,
        value: &str,
        need_quote: bool,
    ) -> Result<()> {
        into_result(add_string(writer, value, need_quote))
    }

    #[inline(always)]
    fn write_byte_array<W: Sink>(&mut self, writer: &mut W, value: &[u8]) -> Result<()> {
        into_result(add_byte_array(writer, None, 1, 0, value))
    }

    #[inline(always)]
    fn begin_string<W: Sink>(&mut self, writer: &mut W) -> Result<()> {
        into_result(add(writer, b"\""))
    }

    #[inline(always)]
    fn end_string<W: Sink>(&mut self, writer: &mut W) -> Result<()> {
        into_result(add(writer, b"\""))
    }

    #[inline(always)]
    fn begin_array<W: Sink>(&mut self, writer: &mut W) -> Result<()> {
        into_result(add(writer, b"["))
    }

    #[inline(always)]
    fn end_array<W: Sink>(&mut self, writer: &mut W) -> Result<()> {
        into_result(add(writer, b"]"))
    }

    #[inline(always)]
    fn begin_array_value<W: Sink>(&mut self, writer: &mut W, first: bool) -> Result<()> {
        if first {
            Ok(())
        } else {
            into_result(add(writer, b","))
        }
    }

    #[inline(always)]
    fn end_array_value<W: Sink>(&mut self, writer: &mut W) -> Result<()> {
        let _ = writer;
        Ok(())
    }

    #[inline(always)]
    fn begin_object<W: Sink>(&mut self, writer: &mut W) -> Result<()> {
        into_result(add(writer, b"{"))
    }

    #[inline(always)]
    fn end_object<W: Sink>(&mut self, writer: &mut W) -> Result<()> {
        into_result(add(writer, b"}"))
    }

    #[inline(always)]
    fn begin_object_key<W: Sink>(&mut self, writer: &mut W, first: bool) -> Result<()> {
        if first {
            Ok(())
        } else {
            into_result(add(writer, b","))
        }
    }

    #[inline(always)]
    fn end_object_key<W: Sink>(&mut self, writer: &mut W) -> Result<()> {
        let _ = writer;
        Ok(())
    }

    #[inline(always)]
    fn begin_object_value<W: Sink>(&mut self, writer: &mut W) -> Result<()> {
        into_result(add(writer, b":"))
    }

    #[inline(always)]
    fn end_object_value<W: Sink>(&mut self, writer: &mut W) -> Result<()> {
        let _ = writer;
        Ok(())
    }

    #[inline(always)]
    fn write_raw_value<W: Sink>(&mut self, writer: &mut W, raw: &str) -> Result<()> {
        into_result(add(writer, raw.as_bytes()))
    }
}
