// How the parts of a JSON text are written.
ghost use Rattle.std.specs.Prelude.{◌≡◌, OnOk};
ghost use Rattle.json_grammar.specs.declared.Kind.TheVariants.{Array as array, Object as object};
ghost use Rattle.json_io.specs.Transfer.{Puts};
ghost use Rattle.json_print.specs.Calls.{null_call, boolean_call, number_call, signed_call, unsigned_call, string_call, bytes_call, begin_string, end_string, begin_call, end_call, begin_element, end_element, begin_key, end_key, begin_member, end_member, raw_call};
ghost use Rattle.json_print.specs.Layouts.{FormatterModel};

use json_io::{Result, Sink};

/// Decides how a [`Serializer`](crate::Serializer) writes the parts of a JSON text (RFC 8259), and
/// writes them: each method appends one piece to `writer`.
/// [`CompactFormatter`](crate::CompactFormatter) writes no whitespace, and
/// [`PrettyFormatter`](crate::PrettyFormatter) indents.
///
/// Each method fails with `Io` at the place `Writing` if a call of the writer failed, and with
/// `NoMemory` if the writer ran out of memory. The writer has gained a prefix of the piece then.
///
/// ```
/// use json_print::{Formatter, PrettyFormatter};
/// use json_io::VecSink;
/// let mut sink = VecSink::new(alloc);
/// let mut formatter = PrettyFormatter::new();
/// formatter.write_string_fast(&mut sink, "a\tb", true)?;
/// formatter.begin_object_value(&mut sink)?;
/// assert_eq!(rt; sink.as_slice(), b"\"a\\tb\": ".as_slice());
/// ```
pub trait Formatter {
    /// The piece that each call writes, and the formatter after the call.
    ghost form: { FormatterModel Self };

    /// The first state of a formatter, in which it has written nothing.
    ghost fresh: { Self → Type 0 };

    /// Writes `null`. Fails if the writer does.
    fn write_null<W: Sink>(&mut self, writer: &mut W) -> Result<()>
        ensures puts { Puts (W.state writer.old) (W.state writer.new)
            (form.piece self.old null_call) result }
        ensures next { OnOk result (self.new ≡ form.next self.old null_call) };

    /// Writes `true` or `false`. Fails if the writer does.
    fn write_bool<W: Sink>(&mut self, writer: &mut W, value: bool) -> Result<()>
        ensures puts { Puts (W.state writer.old) (W.state writer.new)
            (form.piece self.old (boolean_call value)) result }
        ensures next { OnOk result (self.new ≡ form.next self.old (boolean_call value)) };

    /// Writes the decimal text of an integer. Fails if the writer does.
    fn write_i8<W: Sink>(&mut self, writer: &mut W, value: i8) -> Result<()>
        ensures puts { Puts (W.state writer.old) (W.state writer.new)
            (form.piece self.old (signed_call value)) result }
        ensures next { OnOk result (self.new ≡ form.next self.old (signed_call value)) };

    /// Writes the decimal text of an integer. Fails if the writer does.
    fn write_i16<W: Sink>(&mut self, writer: &mut W, value: i16) -> Result<()>
        ensures puts { Puts (W.state writer.old) (W.state writer.new)
            (form.piece self.old (signed_call value)) result }
        ensures next { OnOk result (self.new ≡ form.next self.old (signed_call value)) };

    /// Writes the decimal text of an integer. Fails if the writer does.
    fn write_i32<W: Sink>(&mut self, writer: &mut W, value: i32) -> Result<()>
        ensures puts { Puts (W.state writer.old) (W.state writer.new)
            (form.piece self.old (signed_call value)) result }
        ensures next { OnOk result (self.new ≡ form.next self.old (signed_call value)) };

    /// Writes the decimal text of an integer. Fails if the writer does.
    fn write_i64<W: Sink>(&mut self, writer: &mut W, value: i64) -> Result<()>
        ensures puts { Puts (W.state writer.old) (W.state writer.new)
            (form.piece self.old (signed_call value)) result }
        ensures next { OnOk result (self.new ≡ form.next self.old (signed_call value)) };

    /// Writes the decimal text of an integer. Fails if the writer does.
    fn write_i128<W: Sink>(&mut self, writer: &mut W, value: i128) -> Result<()>
        ensures puts { Puts (W.state writer.old) (W.state writer.new)
            (form.piece self.old (signed_call value)) result }
        ensures next { OnOk result (self.new ≡ form.next self.old (signed_call value)) };

    /// Writes the decimal text of an integer. Fails if the writer does.
    fn write_u8<W: Sink>(&mut self, writer: &mut W, value: u8) -> Result<()>
        ensures puts { Puts (W.state writer.old) (W.state writer.new)
            (form.piece self.old (unsigned_call value)) result }
        ensures next { OnOk result (self.new ≡ form.next self.old (unsigned_call value)) };

    /// Writes the decimal text of an integer. Fails if the writer does.
    fn write_u16<W: Sink>(&mut self, writer: &mut W, value: u16) -> Result<()>
        ensures puts { Puts (W.state writer.old) (W.state writer.new)
            (form.piece self.old (unsigned_call value)) result }
        ensures next { OnOk result (self.new ≡ form.next self.old (unsigned_call value)) };

    /// Writes the decimal text of an integer. Fails if the writer does.
    fn write_u32<W: Sink>(&mut self, writer: &mut W, value: u32) -> Result<()>
        ensures puts { Puts (W.state writer.old) (W.state writer.new)
            (form.piece self.old (unsigned_call value)) result }
        ensures next { OnOk result (self.new ≡ form.next self.old (unsigned_call value)) };

    /// Writes the decimal text of an integer. Fails if the writer does.
    fn write_u64<W: Sink>(&mut self, writer: &mut W, value: u64) -> Result<()>
        ensures puts { Puts (W.state writer.old) (W.state writer.new)
            (form.piece self.old (unsigned_call value)) result }
        ensures next { OnOk result (self.new ≡ form.next self.old (unsigned_call value)) };

    /// Writes the decimal text of an integer. Fails if the writer does.
    fn write_u128<W: Sink>(&mut self, writer: &mut W, value: u128) -> Result<()>
        ensures puts { Puts (W.state writer.old) (W.state writer.new)
            (form.piece self.old (unsigned_call value)) result }
        ensures next { OnOk result (self.new ≡ form.next self.old (unsigned_call value)) };

    /// Writes the literal of a number as it is. Fails if the writer does.
    fn write_number_str<W: Sink>(&mut self, writer: &mut W, value: &str) -> Result<()>
        ensures puts { Puts (W.state writer.old) (W.state writer.new)
            (form.piece self.old (number_call value.now)) result }
        ensures next { OnOk result (self.new ≡ form.next self.old (number_call value.now)) };

    /// Writes the characters of a string, between quotes if `need_quote` is true. `"`, `\` and the
    /// characters below U+0020 are escaped, and nothing else (RFC 8259, section 7). Fails if the
    /// writer does.
    fn write_string_fast<W: Sink>(
        &mut self,
        writer: &mut W,
        value: &str,
        need_quote: bool,
    ) -> Result<()>
        ensures puts { Puts (W.state writer.old) (W.state writer.new)
            (form.piece self.old (string_call need_quote value.now)) result }
        ensures next { OnOk result (self.new ≡
            form.next self.old (string_call need_quote value.now)) };

    /// Writes bytes as an array of numbers, one for each byte. Fails if the writer does.
    fn write_byte_array<W: Sink>(&mut self, writer: &mut W, value: &[u8]) -> Result<()>
        ensures puts { Puts (W.state writer.old) (W.state writer.new)
            (form.piece self.old (bytes_call value.now)) result }
        ensures next { OnOk result (self.new ≡ form.next self.old (bytes_call value.now)) };

    /// Writes the quotation mark that begins a string. Fails if the writer does.
    fn begin_string<W: Sink>(&mut self, writer: &mut W) -> Result<()>
        ensures puts { Puts (W.state writer.old) (W.state writer.new)
            (form.piece self.old begin_string) result }
        ensures next { OnOk result (self.new ≡ form.next self.old begin_string) };

    /// Writes the quotation mark that ends a string. Fails if the writer does.
    fn end_string<W: Sink>(&mut self, writer: &mut W) -> Result<()>
        ensures puts { Puts (W.state writer.old) (W.state writer.new)
            (form.piece self.old end_string) result }
        ensures next { OnOk result (self.new ≡ form.next self.old end_string) };

    /// Writes `[`, the beginning of an array. Fails if the writer does.
    fn begin_array<W: Sink>(&mut self, writer: &mut W) -> Result<()>
        ensures puts { Puts (W.state writer.old) (W.state writer.new)
            (form.piece self.old (begin_call array)) result }
        ensures next { OnOk result (self.new ≡ form.next self.old (begin_call array)) };

    /// Writes the end of an array: the whitespace of the layout, if any, and `]`. Fails if the
    /// writer does.
    fn end_array<W: Sink>(&mut self, writer: &mut W) -> Result<()>
        ensures puts { Puts (W.state writer.old) (W.state writer.new)
            (form.piece self.old (end_call array)) result }
        ensures next { OnOk result (self.new ≡ form.next self.old (end_call array)) };

    /// Writes what precedes an element: a comma unless `first` is true, and the whitespace of the
    /// layout, if any. Fails if the writer does.
    fn begin_array_value<W: Sink>(&mut self, writer: &mut W, first: bool) -> Result<()>
        ensures puts { Puts (W.state writer.old) (W.state writer.new)
            (form.piece self.old (begin_element first)) result }
        ensures next { OnOk result (self.new ≡ form.next self.old (begin_element first)) };

    /// Writes what follows an element, which may be nothing. Fails if the writer does.
    fn end_array_value<W: Sink>(&mut self, writer: &mut W) -> Result<()>
        ensures puts { Puts (W.state writer.old) (W.state writer.new)
            (form.piece self.old end_element) result }
        ensures next { OnOk result (self.new ≡ form.next self.old end_element) };

    /// Writes `{`, the beginning of an object. Fails if the writer does.
    fn begin_object<W: Sink>(&mut self, writer: &mut W) -> Result<()>
        ensures puts { Puts (W.state writer.old) (W.state writer.new)
            (form.piece self.old (begin_call object)) result }
        ensures next { OnOk result (self.new ≡ form.next self.old (begin_call object)) };

    /// Writes the end of an object: the whitespace of the layout, if any, and `}`. Fails if the
    /// writer does.
    fn end_object<W: Sink>(&mut self, writer: &mut W) -> Result<()>
        ensures puts { Puts (W.state writer.old) (W.state writer.new)
            (form.piece self.old (end_call object)) result }
        ensures next { OnOk result (self.new ≡ form.next self.old (end_call object)) };

    /// Writes what precedes a key: a comma unless `first` is true, and the whitespace of the
    /// layout, if any. Fails if the writer does.
    fn begin_object_key<W: Sink>(&mut self, writer: &mut W, first: bool) -> Result<()>
        ensures puts { Puts (W.state writer.old) (W.state writer.new)
            (form.piece self.old (begin_key first)) result }
        ensures next { OnOk result (self.new ≡ form.next self.old (begin_key first)) };

    /// Writes what follows a key and precedes the colon, which may be nothing. Fails if the writer
    /// does.
    fn end_object_key<W: Sink>(&mut self, writer: &mut W) -> Result<()>
        ensures puts { Puts (W.state writer.old) (W.state writer.new)
            (form.piece self.old end_key) result }
        ensures next { OnOk result (self.new ≡ form.next self.old end_key) };

    /// Writes the colon between a key and its value, and the whitespace of the layout, if any.
    /// Fails if the writer does.
    fn begin_object_value<W: Sink>(&mut self, writer: &mut W) -> Result<()>
        ensures puts { Puts (W.state writer.old) (W.state writer.new)
            (form.piece self.old begin_member) result }
        ensures next { OnOk result (self.new ≡ form.next self.old begin_member) };

    /// Writes what follows the value of a member, which may be nothing. Fails if the writer does.
    fn end_object_value<W: Sink>(&mut self, writer: &mut W) -> Result<()>
        ensures puts { Puts (W.state writer.old) (W.state writer.new)
            (form.piece self.old end_member) result }
        ensures next { OnOk result (self.new ≡ form.next self.old end_member) };

    /// Writes a JSON text as it is, in place of a value. Fails if the writer does.
    fn write_raw_value<W: Sink>(&mut self, writer: &mut W, raw: &str) -> Result<()>
        ensures puts { Puts (W.state writer.old) (W.state writer.new)
            (form.piece self.old (raw_call raw.now)) result }
        ensures next { OnOk result (self.new ≡ form.next self.old (raw_call raw.now)) };
}
