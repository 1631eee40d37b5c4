// From the bytes of a source to the bytes of a sink.
ghost use Rattle.std.specs.Prelude.{◌≡◌, ◌<◌, ◌^◌, length, map, OnOk, IfErr, None, false};
ghost use Rattle.json_layout.specs.Styles.{indent_of, is_sorted};
ghost use Rattle.json_io.specs.Transfer.{TakesOneBeyond};
ghost use Rattle.json_command.specs.Input.{max_bytes};
ghost use Rattle.json_command.specs.Printing.{ReturnsWriteError};
ghost use Rattle.json_command.specs.Reading.{ReturnsReadError};
ghost use Rattle.json_history.specs.Calls.{call_of};
ghost use Rattle.json_history.specs.Replay.{Replays, ReplayFails};

use crate::call::Call;
use crate::calls::make_calls;
use crate::history::History;
use json_command::{print_value, read_document_from};
use json_io::{Result, Sink, Source};
use json_layout::Style;
use json_text::Rules;
use json_value::Value;
use std::alloc::Global;

// No whitespace between tokens, and the members in their order.
fn compact_style() -> Style<'static>
    ensures indent { indent_of result ≡ None }
    ensures sorted { is_sorted result ≡ false }
{
    match Style::new(None, false) {
        Some(style) => style,
        None => unreachable!(),
    }
}

/// Reads the JSON text that `source` has left, and makes `calls` in turn on a new history of its
/// value. Then writes the compact text of the current value to `sink`, and flushes it. There must
/// be fewer than 2^32 calls.
///
/// Fails with:
///
/// - The error of the input, at its place there, if the input is not a JSON text of at most 254
///   levels.
/// - `TooLarge` if the input has more than 4,294,967,295 bytes.
/// - `NotFound` or `TypeUnmatched` at the first edit that does not apply. The place is
///   `Place::Edit` with its index in `calls`, counted from 0.
/// - `Io` at `Reading` if `source` fails, and at `Writing` if `sink` fails.
/// - `NoMemory` if memory runs out.
///
/// Nothing is written until all calls are made. If writing fails or memory runs out, `sink` may
/// have got a prefix of the text.
pub fn replay<S: Source, K: Sink>(
    alloc: Global,
    source: &mut S,
    sink: &mut K,
    calls: Vec<Call>,
) -> Result<()>
    requires few { length calls.items < 2 ^ 32 }
    ensures done { OnOk result (Replays (map call_of calls.items)
        (S.state source.old) (S.state source.new) (K.state sink.old) (K.state sink.new)) }
    ensures failed { IfErr result (λ e. ReplayFails (map call_of calls.items)
        (S.state source.old) (S.state source.new) (K.state sink.old) (K.state sink.new)
        e.code e.place) }
    ensures taken { TakesOneBeyond max_bytes (S.state source.old) (S.state source.new) }
    ensures read_error { ReturnsReadError (S.state source.old) (S.state source.new) result }
    ensures write_error { ReturnsWriteError (K.state sink.old) (K.state sink.new) result }
{
    let doc = read_document_from(alloc, source, Rules::usual())?;
    let value = Value::from_place(alloc, &doc, doc.root())?;
    let mut history = History::new(alloc, value);
    make_calls(alloc, &mut history, calls)?;
    print_value(alloc, history.value(), compact_style(), sink)
}
