// The whole program, over any source and any sinks.
ghost use Rattle.std.specs.Prelude.{◌≡◌, ◌≢◌, ◌⊎◌, ◌<◌, List, ℕ, [], length, OnOk, IfErr};
ghost use Rattle.json_command.specs.Input.{max_bytes};
ghost use Rattle.json_lines.specs.Reading.{line_reader_state, fresh_reader, GivesBytes};
ghost use Rattle.json_lines.specs.TopCall.{run_status as spec_run_status};
ghost use Rattle.json_rpc.specs.RunResults.{service_streams, ReadsWholeSource, AppendsReplies, WritesAll, ServesAll, StopsRun, StopsBuffered, ServingRunFails, RefusesAnyWords, ReportsFailure, ServingResult, IsRunStatus, NothingFailsServing};
ghost use Rattle.json_io.specs.Errors.{bad_words};
ghost use Rattle.json_command.specs.Statuses.{ReturnsReadStatus, ReturnsWriteStatus, MeansReadFailed, MeansWriteFailed};

use crate::lines::serve_lines;
use crate::message::MAX_LINE_BYTES;
use crate::service::Service;
use json_command::{BAD_WORDS, Status, report};
use json_io::{Error, ErrorCode, LentSink, Place, Result, Sink, Source, Words, flush_all};
use json_layout::{BufferedWriter, WriteBuffer};
use json_lines::LineReader;
use std::alloc::Global;

// Serves all lines of the source, with replies to the writer, and returns the writer.
fn serve_buffered<S: Source, W: Sink>(
    alloc: Global,
    reader: LineReader,
    source: &mut S,
    writer: BufferedWriter<W>,
) -> (BufferedWriter<W>, Result<()>)
    requires { line_reader_state reader ≡ fresh_reader 1048576 }
    ensures ok { OnOk result.1 (ServesAll
        (service_streams (S.state source.old) (⟦<BufferedWriter<W> as Sink>⟧.state writer))
        (service_streams (S.state source.new) (⟦<BufferedWriter<W> as Sink>⟧.state result.0))) }
    ensures err { IfErr result.1 (λ e. StopsBuffered
        (service_streams (S.state source.old) (⟦<BufferedWriter<W> as Sink>⟧.state writer))
        (service_streams (S.state source.new) (⟦<BufferedWriter<W> as Sink>⟧.state result.0)) e) }
    ensures loan { (⟦<BufferedWriter<W> as Sink>⟧.state result.0).loan
        ≡ (⟦<BufferedWriter<W> as Sink>⟧.state writer).loan }
{
    let mut service = Service::new(alloc);
    let mut reader = reader;
    let mut out = writer;
    match serve_lines(alloc, &mut service, &mut reader, source, &mut out) {
        Ok(()) => {
            let flushed = flush_all(&mut out);
            (out, flushed)
        }
        Err(error) => (out, Err(error)),
    }
}

// Serves all lines of the source, with replies to the sink.
fn serve_all<S: Source, K: Sink>(alloc: Global, source: &mut S, sink: &mut K) -> Result<()>
    ensures ok { OnOk result (ServesAll (service_streams (S.state source.old) (K.state sink.old))
        (service_streams (S.state source.new) (K.state sink.new))) }
    ensures err { IfErr result
        (λ e. StopsRun (service_streams (S.state source.old) (K.state sink.old))
        (service_streams (S.state source.new) (K.state sink.new)) e) }
{
    let reader = LineReader::new(alloc, MAX_LINE_BYTES)?;
    let buffer = WriteBuffer::new(alloc)?;
    let writer = BufferedWriter::with_buffer(buffer, LentSink::new(sink));
    let (writer, outcome) = serve_buffered(alloc, reader, source, writer);
    let _sink = writer.into_inner().into_inner();
    outcome
}

// Serves all lines if there are no words.
fn serve_without_words<S: Source, K: Sink>(
    alloc: Global,
    arguments: &Words,
    source: &mut S,
    sink: &mut K,
) -> Result<()>
    ensures none { OnOk result (arguments.now ≡ []) }
    ensures ok { OnOk result (ServesAll (service_streams (S.state source.old) (K.state sink.old))
        (service_streams (S.state source.new) (K.state sink.new))) }
    ensures err { IfErr result (λ e. ServingRunFails arguments.now
        (service_streams (S.state source.old) (K.state sink.old))
        (service_streams (S.state source.new) (K.state sink.new)) e) }
{
    if arguments.len() != 0 {
        return Err(BAD_WORDS);
    }
    serve_all(alloc, source, sink)
}

// Returns the status of an error.
fn run_status(error: &Error) -> u8
    ensures { result ≡ spec_run_status error.now.code error.now.place }
{
    match (error.code, error.place) {
        (ErrorCode::TooLarge, Place::None) => Status::TooMuchInput.number(),
        (_, _) => Status::of_error(error).number(),
    }
}

// Does all that `run_rpc` does.
fn serve_source<S: Source, K: Sink, E: Sink>(
    alloc: Global,
    arguments: &Words,
    source: &mut S,
    sink: &mut K,
    errs: &mut E,
) -> u8
    ensures { ServingResult arguments.now (service_streams (S.state source.old) (K.state sink.old))
        (service_streams (S.state source.new) (K.state sink.new))
        (E.state errs.old) (E.state errs.new) result }
{
    match serve_without_words(alloc, arguments, source, sink) {
        Ok(()) => Status::Success.number(),
        Err(error) => {
            report(errs, &error);
            run_status(&error)
        }
    }
}

/// Serves JSON-RPC 2.0 over one document, which is null at first: reads `source` line by line, and
/// writes the reply to each line, if there is one, to `sink`.
///
/// A line is a request or a batch of requests. The methods are `get [path]`, `set [path, value]`,
/// `insert [path, key, value]`, `push [path, value]`, `remove [path, step]`, `patch [patch]` for a
/// JSON Patch (RFC 6902), `merge [patch]` for a JSON Merge Patch (RFC 7396), `undo []` and
/// `redo []`. Their parameters are given by position, as here, or by these names (JSON-RPC 2.0,
/// section 4.2). A path is an array of keys and indexes, and a step is one of them.
///
/// `undo` takes back the last change that applied, and `redo` makes again the one that was undone
/// last. Their result is true, or false if there was none. A new change drops what can be redone. At
/// most 1,000 changes can be undone; the oldest are dropped.
///
/// Each reply is compact and ends with a newline. It is flushed before the next line is read; tests
/// show this, and no clause says it.
///
/// A line of whitespace alone has no reply. The reply to a line of more than 1,048,576 bytes, or
/// one that is not a JSON text (RFC 8259) in UTF-8 of at most 254 levels, is the error -32700. The
/// run continues after it.
///
/// Returns the status of the program:
///
/// - 0 if all lines were served,
/// - 2 if there are any `arguments`: the program has none,
/// - 4 if reading failed,
/// - 5 if writing failed,
/// - 6 if memory ran out,
/// - 7 if the source has more than 4,294,967,295 bytes.
///
/// If the status is not 0, the error is written to `errs`. After 4, 5, 6 and 7, `sink` has a prefix
/// of the replies.
///
/// ```
/// use json_rpc::run_rpc;
/// use json_text::{SliceSource, VecSink, Words};
/// let lines = b"\
/// {\"jsonrpc\":\"2.0\",\"method\":\"set\",\"params\":[[],[1]]}
/// {\"jsonrpc\":\"2.0\",\"method\":\"get\",\"params\":[[0]],\"id\":7}
/// ";
/// let (mut sink, mut errs) = (VecSink::new(alloc), VecSink::new(alloc));
/// let mut source = SliceSource::new(lines);
/// let status = run_rpc(alloc, &Words::new(alloc), &mut source, &mut sink, &mut errs);
/// assert_eq!(rt; status, 0);
/// assert_eq!(rt; sink.as_slice(), b"{\"jsonrpc\":\"2.0\",\"result\":1,\"id\":7}\n".as_slice());
/// ```
pub fn run_rpc<S: Source, K: Sink, E: Sink>(
    alloc: Global,
    arguments: &Words,
    source: &mut S,
    sink: &mut K,
    errs: &mut E,
) -> u8
    ensures read { result ≡ 0
        → ReadsWholeSource (service_streams (S.state source.old) (K.state sink.old))
        (service_streams (S.state source.new) (K.state sink.new)) }
    ensures replies { result ≡ 0
        → AppendsReplies (service_streams (S.state source.old) (K.state sink.old))
        (service_streams (S.state source.new) (K.state sink.new)) }
    ensures written { result ≡ 0
        → WritesAll (service_streams (S.state source.old) (K.state sink.old))
        (service_streams (S.state source.new) (K.state sink.new)) }
    ensures silent { result ≡ 0 → E.state errs.new ≡ E.state errs.old }
    ensures failed { result ≢ 0 → ReportsFailure arguments.now
        (service_streams (S.state source.old) (K.state sink.old))
        (service_streams (S.state source.new) (K.state sink.new))
        (E.state errs.old) (E.state errs.new) result }
    ensures refused { result ≡ 2 → RefusesAnyWords arguments.now
        (service_streams (S.state source.old) (K.state sink.old))
        (service_streams (S.state source.new) (K.state sink.new)) bad_words }
    ensures arguments { arguments.now ≢ [] → result ≡ 2 }
    ensures known { IsRunStatus result }
    ensures reading { MeansReadFailed (S.state source.old) (S.state source.new) result }
    ensures writing { MeansWriteFailed (K.state sink.old) (K.state sink.new) result }
    ensures large { result ≡ 7 → (bytes : List ℕ)
        × GivesBytes (S.state source.old) (S.state source.new) bytes
        × (max_bytes < length bytes) }
    ensures read_error { ReturnsReadStatus (S.state source.old) (S.state source.new) result }
    ensures write_error { ReturnsWriteStatus (K.state sink.old) (K.state sink.new) result }
    ensures complete { NothingFailsServing arguments.now
        (service_streams (S.state source.old) (K.state sink.old))
        (service_streams (S.state source.new) (K.state sink.new)) → (result ≡ 0) ⊎ (result ≡ 6) }
{
    serve_source(alloc, arguments, source, sink, errs)
}
