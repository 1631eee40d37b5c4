// An indent, and a new line with some of them after it.
ghost use Rattle.std.specs.Prelude.{◌≡◌, ◌∷◌, ◌++◌, ◌*◌, ◌≤◌, ◌<◌, ◌↔◌, [], All, IsTrue, Some, length};
ghost use Rattle.json_model.specs.Print.{indents, line};
ghost use Rattle.json_layout.specs.Adding.{Adds};
ghost use Rattle.json_layout.specs.Pieces.{comma};

use crate::adding::add;
use json_io::{Sink, SinkResult};

// How many spaces a line has that is ready.
const SPACES: usize = 64;

// A comma, a new line and the spaces.
const LINE: &[u8] = b",\n                                                                ";

/// An indent, such as two spaces: the bytes that a line begins with, once for each container around
/// what is on the line.
///
/// ```
/// use json_layout::{Indent, add_start, into_result};
/// use json_io::VecSink;
/// let mut sink = VecSink::new(alloc);
/// into_result(add_start(&mut sink, Some(Indent::new(b"  ")), 2, false))?;
/// assert_eq!(rt; sink.as_slice(), b",\n    ".as_slice());
/// ```
#[derive(Clone, Copy, Debug)]
pub struct Indent<'a> {
    bytes: &'a [u8],
    // How many indents the spaces of a line are. 0 where the indent is not spaces alone.
    ready: usize,
    ghost fits: { ready * length bytes.now ≤ 64 },
    ghost spaces: { indents ready bytes.now ≡ indents (ready * length bytes.now) (32 ∷ []) },
}

fn is_spaces(bytes: &[u8]) -> bool
    ensures { IsTrue result ↔ All (λ x. x ≡ 32) bytes.now }
{
    bytes.iter().all(|byte| *byte == b' ')
}

fn spaces_ready(bytes: &[u8]) -> usize
    ensures fits { result * length bytes.now ≤ 64 }
    ensures spaces { indents result bytes.now ≡ indents (result * length bytes.now) (32 ∷ []) }
{
    if is_spaces(bytes) {
        SPACES / bytes.len().max(1)
    } else {
        0
    }
}

impl<'a> Indent<'a> {
    ghost use Rattle.json_layout.specs.IndentBytes.{indent_bytes};

    /// Creates an indent of these bytes, which the indent borrows. They are written as they are.
    pub fn new(bytes: &'a [u8]) -> Indent<'a>
        ensures { indent_bytes result ≡ bytes.now }
    {
        Indent {
            bytes,
            ready: spaces_ready(bytes),
        }
    }
}

// Returns as many indents as one piece holds, at most `most`, and their number.
fn piece_of_indents<'a>(indent: Indent<'a>, most: usize) -> (&'a [u8], usize)
    requires { 0 < most }
    ensures some { 0 < result.1 }
    ensures most { result.1 ≤ most }
    ensures piece { result.0.now ≡ indents result.1 indent.entry.bytes.now }
{
    if indent.ready == 0 {
        return (indent.bytes, 1);
    }
    let count = most.min(indent.ready);
    (&LINE[2..2 + count * indent.bytes.len()], count)
}

fn add_indents<W: Sink>(writer: &mut W, indent: Indent<'_>, level: usize) -> SinkResult
    ensures { Adds (W.state writer.old) (W.state writer.new)
        (indents level indent.entry.bytes.now) result }
{
    let mut left = level;
    'fill: while left > 0 {
        let (piece, count) = piece_of_indents(indent, left);
        match add(writer, piece) {
            Ok(()) => {}
            Err(error) => return Err(error),
        }
        left -= count;
    }
    Ok(())
}

#[inline(never)]
fn add_long_break<W: Sink>(
    writer: &mut W,
    indent: Indent<'_>,
    level: usize,
    first: bool,
) -> SinkResult
    ensures { Adds (W.state writer.old) (W.state writer.new)
        (comma first ++ line (Some indent.entry.bytes.now) level) result }
{
    add(writer, &LINE[usize::from(first)..2])?;
    add_indents(writer, indent, level)
}

/// Writes a comma unless `first` is true, and then a line feed and `level` indents.
#[inline(always)]
pub(crate) fn add_break<W: Sink>(
    writer: &mut W,
    indent: Indent<'_>,
    level: usize,
    first: bool,
) -> SinkResult
    ensures { Adds (W.state writer.old) (W.state writer.new)
        (comma first ++ line (Some indent.entry.bytes.now) level) result }
{
    if level > indent.ready {
        return add_long_break(writer, indent, level, first);
    }
    let end = 2 + level * indent.bytes.len();
    add(writer, &LINE[usize::from(first)..end])
}
