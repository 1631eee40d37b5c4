// The formatter that indents.
ghost use Rattle.std.specs.Prelude.{◌≡◌, false, Some, codes};
ghost use Rattle.json_print.specs.Layouts.{LaidOut, pretty_form};

use crate::Formatter;
use json_io::{Result, Sink};
use json_layout::{
    Indent, add, add_byte_array, add_end, add_number, add_start, add_string, add_unsigned,
    into_result,
};

/// A [`Formatter`] that writes each element and each key on a line of its own, after one indent for
/// each container around it. An empty container is `[]` or `{}`, and `: ` follows a key.
///
/// ```
/// use json_print::{Events, PrettyFormatter, Serializer};
/// use json_io::VecSink;
/// let tabs = PrettyFormatter::with_indent(b"\t");
/// let mut out = Serializer::with_formatter(alloc, VecSink::new(alloc), tabs);
/// out.begin_array(None)?;
/// out.boolean(true)?;
/// out.end_array()?;
/// assert_eq!(rt; out.into_inner().as_slice(), b"[\n\ttrue\n]".as_slice());
/// ```
#[derive(Clone, Copy, Debug)]
pub struct PrettyFormatter<'a> {
    indent: Indent<'a>,
    // How many containers are open, up to the last value of a usize.
    level: usize,
    // Whether the innermost of them holds something.
    flag: bool,
}

impl PrettyFormatter<'static> {
    /// Creates a formatter that indents by two spaces and has written nothing.
    pub fn new() -> PrettyFormatter<'static>
        ensures fresh { ⟦<PrettyFormatter<'static> as Formatter>⟧.fresh result }
        ensures laid { LaidOut pretty_form result (Some (codes "  ")) 0 false }
    {
        PrettyFormatter::with_indent(b"  ")
    }
}

impl<'a> PrettyFormatter<'a> {
    /// Creates a formatter that indents by these bytes, which it borrows and writes as they are. It
    /// has written nothing.
    pub fn with_indent(indent: &'a [u8]) -> PrettyFormatter<'a>
        ensures fresh { ⟦<PrettyFormatter<'a> as Formatter>⟧.fresh result }
        ensures laid { LaidOut pretty_form result (Some indent.now) 0 false }
    {
        PrettyFormatter {
            indent: Indent::new(indent),
            level: 0,
            flag: false,
        }
    }
}

impl Default for PrettyFormatter<'static> {
    ghost is_default = { λ f. ⟦<PrettyFormatter<'static> as Formatter>⟧.fresh f
        × LaidOut pretty_form f (Some (codes "  ")) 0 false };

    fn default() -> PrettyFormatter<'static> {
        PrettyFormatter::new()
    }
}

impl Formatter for PrettyFormatter<'_> {
    ghost form = { pretty_form };

    ghost fresh = { λ s. (s.level ≡ 0) × (s.flag ≡ false) };

    #[inline(always)]
    fn write_null<W: Sink>(&mut self, writer: &mut W) -> Result<()> {
        into_result(add(writer, b"null"))
    }

    #[inline(always)]
    fn write_bool<W: Sink>(&mut self, writer: &mut W, value: bool) -> Result<()> {
        if value {
            into_result(add(writer, b"true"))
        } else {
            into_result(add(writer, b"false"))
        }
    }

    #[inline(always)]
    fn write_i8<W: Sink>(&mut self, writer: &mut W, value: i8) -> Result<()> {
        into_result(add_number(writer, value))
    }

    #[inline(always)]
    fn write_i16<W: Sink>(&mut self, writer: &mut W, value: i16) -> Result<()> {
        into_result(add_number(writer, value))
    }

    #[inline(always)]
    fn write_i32<W: Sink>(&mut self, writer: &mut W, value: i32) -> Result<()> {
        into_result(add_number(writer, value))
    }

    #[inline(always)]
    fn write_i64<W: Sink>(&mut self, writer: &mut W, value: i64) -> Result<()> {
        into_result(add_number(writer, value))
    }

    #[inline(always)]
    fn write_i128<W: Sink>(&mut self, writer: &mut W, value: i128) -> Result<()> {
        into_result(add_number(writer, value))
    }

    #[inline(always)]
    fn write_u8<W: Sink>(&mut self, writer: &mut W, value: u8) -> Result<()> {
        into_result(add_number(writer, value))
    }

    #[inline(always)]
    fn write_u16<W: Sink>(&mut self, writer: &mut W, value: u16) -> Result<()> {
        into_result(add_number(writer, value))
    }

    #[inline(always)]
    fn write_u32<W: Sink>(&mut self, writer: &mut W, value: u32) -> Result<()> {
        into_result(add_number(writer, value))
    }

    #[inline(always)]
    fn write_u64<W: Sink>(&mut self, writer: &mut W, value: u64) -> Result<()> {
        into_result(add_unsigned(writer, value))
    }

    #[inline(always)]
    fn write_u128<W: Sink>(&mut self, writer: &mut W, value: u128) -> Result<()> {
        into_result(add_number(writer, value))
    }

    #[inline(always)]
    fn write_number_str<W: Sink>(&mut self, writer: &mut W, value: &str) -> Result<()> {
        into_result(add(writer, value.as_bytes()))
    }

    #[inline(always)]
    fn write_string_fast<W: Sink>(
        &mut self,
        writer: &mut W,
        value: &str,
        need_quote: bool,
    ) -> Result<()> {
        into_result(add_string(writer, value, need_quote))
    }

    #[inline(always)]
    fn write_byte_array<W: Sink>(&mut self, writer: &mut W, value: &[u8]) -> Result<()> {
        let level = self.level.saturating_add(1);
        self.level = level.saturating_sub(1);
        self.flag = !value.is_empty();
        into_result(add_byte_array(writer, Some(self.indent), level, self.level, value))
    }

    #[inline(always)]
    fn begin_string<W: Sink>(&mut self, writer: &mut W) -> Result<()> {
        into_result(add(writer, b"\""))
    }

    #[inline(always)]
    fn end_string<W: Sink>(&mut self, writer: &mut W) -> Result<()> {
        into_result(add(writer, b"\""))
    }

    #[inline(always)]
    fn begin_array<W: Sink>(&mut self, writer: &mut W) -> Result<()> {
        self.level = self.level.saturating_add(1);
        self.flag = false;
        into_result(add(writer, b"["))
    }

    #[inline(always)]
    fn end_array<W: Sink>(&mut self, writer: &mut W) -> Result<()> {
        self.level = self.level.saturating_sub(1);
        into_result(add_end(writer, Some(self.indent), self.level, self.flag, b']'))
    }

    #[inline(always)]
    fn begin_array_value<W: Sink>(&mut self, writer: &mut W, first: bool) -> Result<()> {
        into_result(add_start(writer, Some(self.indent), self.level, first))
    }

    #[inline(always)]
    fn end_array_value<W: Sink>(&mut self, writer: &mut W) -> Result<()> {
        let _ = writer;
        self.flag = true;
        Ok(())
    }

    #[inline(always)]
    fn begin_object<W: Sink>(&mut self, writer: &mut W) -> Result<()> {
        self.level = self.level.saturating_add(1);
        self.flag = false;
        into_result(add(writer, b"{"))
    }

    #[inline(always)]
    fn end_object<W: Sink>(&mut self, writer: &mut W) -> Result<()> {
        self.level = self.level.saturating_sub(1);
        into_result(add_end(writer, Some(self.indent), self.level, self.flag, b'}'))
    }

    #[inline(always)]
    fn begin_object_key<W: Sink>(&mut self, writer: &mut W, first: bool) -> Result<()> {
        into_result(add_start(writer, Some(self.indent), self.level, first))
    }

    #[inline(always)]
    fn end_object_key<W: Sink>(&mut self, writer: &mut W) -> Result<()> {
        let _ = writer;
        Ok(())
    }

    #[inline(always)]
    fn begin_object_value<W: Sink>(&mut self, writer: &mut W) -> Result<()> {
        into_result(add(writer, b": "))
    }

    #[inline(always)]
    fn end_object_value<W: Sink>(&mut self, writer: &mut W) -> Result<()> {
        let _ = writer;
        self.flag = true;
        Ok(())
    }

    #[inline(always)]
    fn write_raw_value<W: Sink>(&mut self, writer: &mut W, raw: &str) -> Result<()> {
        into_result(add(writer, raw.as_bytes()))
    }
}
