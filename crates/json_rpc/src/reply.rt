// Serves a line and writes its reply.
ghost use Rattle.std.specs.Prelude.{◌≡◌, ◌∷◌, [], ◌++◌, None, OnOk, IfErr};
ghost use Rattle.json_model.specs.Print.{shown};
ghost use Rattle.json_layout.specs.TextWriting.{WritesText};
ghost use Rattle.json_value.specs.Denotes.{tree_of};
ghost use Rattle.json_rpc.specs.Sessions.{ServesLine, ServingFails};
ghost use Rattle.json_rpc.specs.Denoted.{service_history, reply_tree};
ghost use Rattle.json_rpc.specs.ReplyTexts.{result_start, error_start, reply_end};

use crate::error::RpcError;
use crate::response::Respond;
use crate::service::Service;
use json_io::{Result, Sink, flush_all, put_all};
use json_layout::{BufferedWriter, OneLine, answered, show_piece};
use json_lines::Line;
use json_value::Value;
use std::alloc::Global;

// A reply that is written as it is, without a value of it.
#[derive(Drop)]
pub(crate) enum Reply {
    Done { outcome: Value, id: Value },
    Failed { error: RpcError, id: Value },
    Batch(Value),
}

impl Respond for Reply {
    ghost response = { reply_tree };

    fn with_result(_alloc: Global, outcome: Value, id: Value) -> Result<Reply> {
        Ok(Reply::Done { outcome, id })
    }

    fn with_error(_alloc: Global, error: RpcError, id: Value) -> Result<Reply> {
        Ok(Reply::Failed { error, id })
    }

    fn of_batch(responses: Value) -> Reply {
        Reply::Batch(responses)
    }
}

// Returns the text of a response with an error, up to its id.
fn error_start(error: RpcError) -> &'static str
    ensures { result.now ≡ error_start error }
{
    match error {
        RpcError::ParseError => {
            "{\"jsonrpc\":\"2.0\",\"error\":{\"code\":-32700,\"message\":\"Parse error\"}"
        }
        RpcError::InvalidRequest => {
            "{\"jsonrpc\":\"2.0\",\"error\":{\"code\":-32600,\"message\":\"Invalid Request\"}"
        }
        RpcError::MethodNotFound => {
            "{\"jsonrpc\":\"2.0\",\"error\":{\"code\":-32601,\"message\":\"Method not found\"}"
        }
        RpcError::InvalidParams => {
            "{\"jsonrpc\":\"2.0\",\"error\":{\"code\":-32602,\"message\":\"Invalid params\"}"
        }
        RpcError::NotFound => {
            "{\"jsonrpc\":\"2.0\",\"error\":{\"code\":-32000,\"message\":\"Not found\"}"
        }
        RpcError::TypeUnmatched => {
            "{\"jsonrpc\":\"2.0\",\"error\":{\"code\":-32001,\"message\":\"Type unmatched\"}"
        }
        RpcError::TestFailed => {
            "{\"jsonrpc\":\"2.0\",\"error\":{\"code\":-32002,\"message\":\"Test failed\"}"
        }
    }
}

// Writes some bytes.
fn write_reply_bytes<W: Sink>(bytes: &[u8], out: &mut BufferedWriter<W>) -> Result<()>
    ensures { WritesText (⟦<BufferedWriter<W> as Sink>⟧.state out.old)
        (⟦<BufferedWriter<W> as Sink>⟧.state out.new) bytes.now result }
{
    answered(show_piece(out, bytes))
}

// Writes a text and then the text of a value.
fn write_before<W: Sink>(text: &str, value: &Value, out: &mut BufferedWriter<W>) -> Result<()>
    ensures { WritesText (⟦<BufferedWriter<W> as Sink>⟧.state out.old)
        (⟦<BufferedWriter<W> as Sink>⟧.state out.new)
        (text.now ++ shown None 0 (tree_of value.now)) result }
{
    match write_reply_bytes(text.as_bytes(), out) {
        Ok(()) => value.view().print(OneLine, out),
        Err(error) => Err(error),
    }
}

// Writes the end of a response from its id on, and of the reply, and flushes.
fn write_end<W: Sink>(id: &Value, out: &mut BufferedWriter<W>) -> Result<()>
    ensures { WritesText (⟦<BufferedWriter<W> as Sink>⟧.state out.old)
        (⟦<BufferedWriter<W> as Sink>⟧.state out.new) (reply_end (tree_of id.now)) result }
{
    match write_before(",\"id\":", id, out) {
        Ok(()) => write_last(b"}\n", out),
        Err(error) => Err(error),
    }
}

// Writes the last bytes of a reply, and flushes.
fn write_last<W: Sink>(bytes: &[u8], out: &mut BufferedWriter<W>) -> Result<()>
    ensures { WritesText (⟦<BufferedWriter<W> as Sink>⟧.state out.old)
        (⟦<BufferedWriter<W> as Sink>⟧.state out.new) bytes.now result }
{
    match put_all(out, bytes) {
        Ok(()) => flush_all(out),
        Err(error) => Err(error),
    }
}

// Writes the response that carries a result, and its end, and flushes.
fn write_done<W: Sink>(outcome: &Value, id: &Value, out: &mut BufferedWriter<W>) -> Result<()>
    ensures { WritesText (⟦<BufferedWriter<W> as Sink>⟧.state out.old)
        (⟦<BufferedWriter<W> as Sink>⟧.state out.new)
        (result_start (tree_of outcome.now) ++ reply_end (tree_of id.now)) result }
{
    match write_before("{\"jsonrpc\":\"2.0\",\"result\":", outcome, out) {
        Ok(()) => write_end(id, out),
        Err(error) => Err(error),
    }
}

// Writes the response that carries an error, and its end, and flushes.
fn write_failed<W: Sink>(error: RpcError, id: &Value, out: &mut BufferedWriter<W>) -> Result<()>
    ensures { WritesText (⟦<BufferedWriter<W> as Sink>⟧.state out.old)
        (⟦<BufferedWriter<W> as Sink>⟧.state out.new)
        (error_start error ++ reply_end (tree_of id.now)) result }
{
    match write_reply_bytes(error_start(error).as_bytes(), out) {
        Ok(()) => write_end(id, out),
        Err(error) => Err(error),
    }
}

// Writes the responses to a batch, and the end of the reply, and flushes.
fn write_batch<W: Sink>(responses: &Value, out: &mut BufferedWriter<W>) -> Result<()>
    ensures { WritesText (⟦<BufferedWriter<W> as Sink>⟧.state out.old)
        (⟦<BufferedWriter<W> as Sink>⟧.state out.new)
        (shown None 0 (tree_of responses.now) ++ 10 ∷ []) result }
{
    match responses.view().print(OneLine, out) {
        Ok(()) => write_last(b"\n", out),
        Err(error) => Err(error),
    }
}

// Writes the compact text of a reply and its end, and flushes.
fn write_reply<W: Sink>(reply: &Reply, out: &mut BufferedWriter<W>) -> Result<()>
    ensures { WritesText (⟦<BufferedWriter<W> as Sink>⟧.state out.old)
        (⟦<BufferedWriter<W> as Sink>⟧.state out.new)
        (shown None 0 (reply_tree reply.now) ++ 10 ∷ []) result }
{
    match reply {
        Reply::Done { outcome, id } => write_done(outcome, id, out),
        Reply::Failed { error, id } => write_failed(*error, id, out),
        Reply::Batch(responses) => write_batch(responses, out),
    }
}

/// Serves a line and writes its reply, if there is one.
pub(crate) fn serve_line<W: Sink>(
    alloc: Global,
    service: &mut Service,
    line: Line<'_>,
    out: &mut BufferedWriter<W>,
) -> Result<()>
    ensures ok { OnOk result (ServesLine (service_history service.old) line.entry
        (service_history service.new) (⟦<BufferedWriter<W> as Sink>⟧.state out.old)
        (⟦<BufferedWriter<W> as Sink>⟧.state out.new)) }
    ensures err { IfErr result (λ e. ServingFails (service_history service.old) line.entry
        (service_history service.new) (⟦<BufferedWriter<W> as Sink>⟧.state out.old)
        (⟦<BufferedWriter<W> as Sink>⟧.state out.new) e) }
{
    match service.reply_to::<Reply>(alloc, line) {
        Ok(Some(reply)) => write_reply(&reply, out),
        Ok(None) => Ok(()),
        Err(error) => Err(error),
    }
}
