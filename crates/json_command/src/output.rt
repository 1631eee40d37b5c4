// The text of a value's tree, written to a sink.
ghost use Rattle.std.specs.Prelude.{◌≡◌, ℕ, List, length, false, IsErrOf};
ghost use Rattle.json_layout.specs.Shown.{shown_as};
ghost use Rattle.json_layout.specs.Styles.{is_sorted, printed};
ghost use Rattle.json_layout.specs.TextWriting.{WritesText};
ghost use Rattle.json_io.specs.Errors.{OnlyNoMemory, no_memory};
ghost use Rattle.json_io.specs.Outside.{SinkState, Rose};
ghost use Rattle.json_value.specs.Denotes.{tree_of};
ghost use Rattle.json_command.specs.Printing.{HasRunOut, Prints, RunsOutOnlyWith, WritesFlushed};

use json_io::{LentSink, Result, Sink, flush_all, put_all};
use json_layout::{BufferedWriter, Layout, ManyLines, OneLine, Style, WriteBuffer};
use json_value::Value;
use std::alloc::Global;
use std::cell::Cell;

// The text in a layout, sorted or not.
fn print_laid_out<W: Sink, L: Layout>(
    alloc: Global,
    value: &Value,
    sorts: bool,
    layout: L,
    out: &mut BufferedWriter<W>,
) -> Result<()>
    ensures text { WritesText (⟦<BufferedWriter<W> as Sink>⟧.state out.old)
        (⟦<BufferedWriter<W> as Sink>⟧.state out.new)
        (shown_as (L.indent layout) sorts (tree_of value.now)) result }
    ensures ran_out { sorts ≡ false → IsErrOf result no_memory
        → HasRunOut (⟦<BufferedWriter<W> as Sink>⟧.state out.new)
        (length (shown_as (L.indent layout) sorts (tree_of value.now))) }
{
    let view = value.view();
    if sorts {
        view.print_sorted(alloc, layout, out)
    } else {
        view.print(layout, out)
    }
}

// The text in the style.
fn styled<W: Sink>(
    alloc: Global,
    value: &Value,
    style: Style<'_>,
    out: &mut BufferedWriter<W>,
) -> Result<()>
    ensures text { WritesText (⟦<BufferedWriter<W> as Sink>⟧.state out.old)
        (⟦<BufferedWriter<W> as Sink>⟧.state out.new)
        (printed style.entry (tree_of value.now)) result }
    ensures ran_out { is_sorted style.entry ≡ false → IsErrOf result no_memory
        → HasRunOut (⟦<BufferedWriter<W> as Sink>⟧.state out.new)
        (length (printed style.entry (tree_of value.now))) }
{
    let sorts = style.sorted();
    match style.indent() {
        None => print_laid_out(alloc, value, sorts, OneLine, out),
        Some(indent) => print_laid_out(alloc, value, sorts, ManyLines::new(indent.as_bytes()), out),
    }
}

// Flushes the writer where the text was written.
fn flushed<W: Sink>(writer: W, written: Result<()>) -> (W, Result<()>)
    ensures text { (old : SinkState) (text : List ℕ) → WritesText old (W.state writer) text written
        → WritesFlushed old (W.state result.0) text result.1 }
    ensures ran_out { (size : ℕ) → (IsErrOf written no_memory → HasRunOut (W.state writer) size)
        → IsErrOf result.1 no_memory → HasRunOut (W.state result.0) size }
{
    match written {
        Ok(()) => {
            let mut out = writer;
            let answer = flush_all(&mut out);
            (out, answer)
        }
        Err(error) => (writer, Err(error)),
    }
}

// The text in the style, flushed.
fn sent<W: Sink>(
    alloc: Global,
    value: &Value,
    style: Style<'_>,
    writer: BufferedWriter<W>,
) -> (BufferedWriter<W>, Result<()>)
    ensures text { WritesFlushed (⟦<BufferedWriter<W> as Sink>⟧.state writer)
        (⟦<BufferedWriter<W> as Sink>⟧.state result.0)
        (printed style.entry (tree_of value.now)) result.1 }
    ensures ran_out { is_sorted style.entry ≡ false → IsErrOf result.1 no_memory
        → HasRunOut (⟦<BufferedWriter<W> as Sink>⟧.state result.0)
        (length (printed style.entry (tree_of value.now))) }
{
    let mut out = writer;
    let written = styled(alloc, value, style, &mut out);
    flushed(out, written)
}

/// Prints values one after another. Memory for a buffer of 8,192 bytes is allocated when the first
/// value is printed, and kept for those that follow.
///
/// ```
/// use json_command::Printer;
/// use json_print::Style;
/// use json_text::VecSink;
/// use json_value::Value;
/// let printer = Printer::new(alloc);
/// let mut sink = VecSink::new(alloc);
/// let style = Style::new(None, false).ok_or("no style")?;
/// printer.print(&Value::from(true), style, &mut sink)?;
/// printer.print(&Value::from(false), style, &mut sink)?;
/// assert_eq!(rt; sink.as_slice(), b"truefalse".as_slice());
/// ```
#[derive(Drop)]
pub struct Printer {
    alloc: Global,
    buffer: Cell<Option<WriteBuffer>>,
}

impl Printer {
    /// Creates a printer. Allocates nothing.
    pub fn new(alloc: Global) -> Printer {
        Printer {
            alloc,
            buffer: Cell::new(None),
        }
    }

    /// Returns the allocator that the printer was created with.
    pub fn alloc(&self) -> Global {
        self.alloc
    }

    // Returns the buffer that was kept, or a new one.
    fn take_buffer(&self) -> Result<WriteBuffer>
        ensures only { OnlyNoMemory result }
    {
        match self.buffer.take() {
            Some(buffer) => Ok(buffer),
            None => WriteBuffer::new(self.alloc),
        }
    }

    /// Writes the JSON text of a value to the sink in a style, by pieces of at most 8,192 bytes,
    /// and flushes the sink. Fails with `Io` at the place `Writing` if the sink fails, and with
    /// `NoMemory` if memory runs out; the sink has gained a prefix of the text then. If members are
    /// not sorted, memory runs out only before anything is written, in the sink, or for a text of
    /// 2^64 - 1 bytes or more.
    pub fn print<K: Sink>(&self, value: &Value, style: Style<'_>, sink: &mut K) -> Result<()>
        ensures prints { Prints (K.state sink.old) (K.state sink.new)
            (printed style.entry (tree_of value.now)) result }
        ensures ran_out { is_sorted style.entry ≡ false → RunsOutOnlyWith (K.state sink.old)
            (K.state sink.new) (length (printed style.entry (tree_of value.now))) result }
    {
        let buffer = self.take_buffer()?;
        let writer = BufferedWriter::with_buffer(buffer, LentSink::new(sink));
        let (writer, outcome) = sent(self.alloc, value, style, writer);
        let (lent, buffer) = writer.into_parts();
        let _sink = lent.into_inner();
        self.buffer.set(Some(buffer));
        outcome
    }
}

/// Writes the JSON text of a value to the sink in a style, as [`Printer::print`] does, and fails
/// where that does: with `Io` at the place `Writing` if the sink fails, and with `NoMemory` if
/// memory runs out.
pub fn print_value<K: Sink>(
    alloc: Global,
    value: &Value,
    style: Style<'_>,
    sink: &mut K,
) -> Result<()>
    ensures prints { Prints (K.state sink.old) (K.state sink.new)
        (printed style.entry (tree_of value.now)) result }
    ensures ran_out { is_sorted style.entry ≡ false → RunsOutOnlyWith (K.state sink.old)
        (K.state sink.new) (length (printed style.entry (tree_of value.now))) result }
{
    Printer::new(alloc).print(value, style, sink)
}

/// Writes a text to the sink and flushes it. Fails with `Io` at the place `Writing` if the sink
/// fails, and with `NoMemory` if the sink runs out of memory; it has gained a prefix of the text
/// then.
pub fn write_text<K: Sink>(sink: &mut K, text: &[u8]) -> Result<()>
    ensures prints { Prints (K.state sink.old) (K.state sink.new) text.now result }
    ensures ran_out { IsErrOf result no_memory
        → Rose (K.state sink.old).lacks (K.state sink.new).lacks }
{
    put_all(sink, text)?;
    flush_all(sink)
}
