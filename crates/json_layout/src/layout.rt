// What is written around elements and keys, and bytes as an array of numbers.
ghost use Rattle.std.specs.Prelude.{◌∷◌, ◌++◌, [], true, option_map};
ghost use Rattle.json_model.specs.Print.{line};
ghost use Rattle.json_layout.specs.Adding.{Adds};
ghost use Rattle.json_layout.specs.IndentBytes.{indent_bytes};
ghost use Rattle.json_layout.specs.Pieces.{byte_array, byte_elements, closing_line, comma};

use crate::adding::add;
use crate::escape::add_number;
use crate::indent::{Indent, add_break};
use json_io::{Sink, SinkResult};

/// Writes what precedes an element or a key: a comma unless `first` is true, and, if there is an
/// indent, a line feed and `level` indents. `level` is the number of containers around the element
/// or the key. Fails with the error of the sink, which has gained a prefix of that then.
#[inline(always)]
pub fn add_start<W: Sink>(
    writer: &mut W,
    indent: Option<Indent<'_>>,
    level: usize,
    first: bool,
) -> SinkResult
    ensures { let i = option_map indent_bytes indent.entry in
        Adds (W.state writer.old) (W.state writer.new) (comma first ++ line i level) result }
{
    match indent {
        Some(indent) => add_break(writer, indent, level, first),
        None if first => Ok(()),
        None => add(writer, b","),
    }
}

fn add_end_line<W: Sink>(
    writer: &mut W,
    indent: Option<Indent<'_>>,
    level: usize,
    bracket: u8,
) -> SinkResult
    ensures { let i = option_map indent_bytes indent.entry in
        Adds (W.state writer.old) (W.state writer.new) (line i level ++ bracket ∷ []) result }
{
    add_start(writer, indent, level, true)?;
    add(writer, &[bracket])
}

/// Writes the closing bracket of a container. If there is an indent and `flag` is true, which says
/// that the container is not empty, a line feed and `level` indents precede it. `level` is the
/// number of containers around the closed one. Fails with the error of the sink, which has gained a
/// prefix of that then.
#[inline]
pub fn add_end<W: Sink>(
    writer: &mut W,
    indent: Option<Indent<'_>>,
    level: usize,
    flag: bool,
    bracket: u8,
) -> SinkResult
    ensures { let i = option_map indent_bytes indent.entry in
        Adds (W.state writer.old) (W.state writer.new)
        (closing_line flag i level ++ bracket ∷ []) result }
{
    if flag {
        add_end_line(writer, indent, level, bracket)
    } else {
        add(writer, &[bracket])
    }
}

fn add_byte_element<W: Sink>(
    writer: &mut W,
    indent: Option<Indent<'_>>,
    level: usize,
    first: bool,
    byte: u8,
) -> SinkResult
    ensures { let i = option_map indent_bytes indent.entry in
        Adds (W.state writer.old) (W.state writer.new)
        (byte_elements i level first (byte ∷ [])) result }
{
    add_start(writer, indent, level, first)?;
    add_number(writer, byte)
}

fn add_byte_elements<W: Sink>(
    writer: &mut W,
    indent: Option<Indent<'_>>,
    level: usize,
    bytes: &[u8],
) -> SinkResult
    ensures { let i = option_map indent_bytes indent.entry in
        Adds (W.state writer.old) (W.state writer.new)
        (byte_elements i level true bytes.now) result }
{
    let mut at = 0;
    'each: while at < bytes.len() {
        match add_byte_element(writer, indent, level, at == 0, bytes[at]) {
            Ok(()) => {}
            Err(error) => return Err(error),
        }
        at += 1;
    }
    Ok(())
}

/// Writes `bytes` as an array of numbers, one for each byte. If there is an indent, each element is
/// on a line of its own after `level` indents. The closing bracket is then on a line after `outer`
/// indents, unless the array is empty. Fails with the error of the sink, which has gained a prefix
/// of that then.
pub fn add_byte_array<W: Sink>(
    writer: &mut W,
    indent: Option<Indent<'_>>,
    level: usize,
    outer: usize,
    bytes: &[u8],
) -> SinkResult
    ensures { let i = option_map indent_bytes indent.entry in
        Adds (W.state writer.old) (W.state writer.new)
        (byte_array i level outer bytes.now) result }
{
    add(writer, b"[")?;
    add_byte_elements(writer, indent, level, bytes)?;
    add_end(writer, indent, outer, !bytes.is_empty(), b']')
}
