// Reads a line.
ghost use Rattle.std.specs.Prelude.{◌≤◌, ◌↔◌, IfOk, IsTrue, length};
ghost use Rattle.json_grammar.specs.Grammar.{ws};
ghost use Rattle.json_rpc.specs.Serving.{IsMessage, max_line_bytes};
ghost use Rattle.json_rpc.specs.Denoted.{message_denoted};
ghost use Rattle.json_io.specs.Errors.{OnlyNoMemory};

use json_doc::read_document;
use json_io::{ErrorCode, Result, check_utf8};
use json_scan::ws_run;
use json_value::Value;
use std::alloc::Global;

/// The greatest number of bytes of a line that is read. A longer one is unreadable.
///
/// ```
/// use json_rpc::MAX_LINE_BYTES;
/// assert_eq!(rt; MAX_LINE_BYTES, 1_048_576);
/// ```
pub const MAX_LINE_BYTES: usize = 1_048_576;

/// How a line was read.
#[derive(Drop)]
pub(crate) enum Message {
    /// Whitespace alone.
    Blank,
    /// Too long, or no JSON text of at most 254 levels.
    Unreadable,
    /// A JSON text of this value.
    Readable(Value),
}

// Returns whether the bytes are whitespace alone.
fn is_blank(bytes: &[u8]) -> bool
    ensures { IsTrue result ↔ ws bytes.now }
{
    ws_run(bytes, 0) == bytes.len()
}

// Reads a line that is not whitespace alone.
fn read_message_text(alloc: Global, text: &str) -> Result<Message>
    requires size { length text.now ≤ max_line_bytes }
    requires full { ¬ (ws text.now) }
    ensures ok { IfOk result (λ m. IsMessage text.now (message_denoted m)) }
    ensures only { OnlyNoMemory result }
{
    match read_document(alloc, text) {
        Ok(doc) => {
            let value = Value::from_place(alloc, &doc, doc.root())?;
            Ok(Message::Readable(value))
        }
        Err(error) => match error.code {
            ErrorCode::NoMemory => Err(error),
            _ => Ok(Message::Unreadable),
        },
    }
}

/// Reads the bytes of a line. Fails only with `NoMemory`, if memory runs out.
pub(crate) fn read_message(alloc: Global, bytes: &[u8]) -> Result<Message>
    ensures ok { IfOk result (λ m. IsMessage bytes.now (message_denoted m)) }
    ensures only { OnlyNoMemory result }
{
    if bytes.len() > MAX_LINE_BYTES {
        return Ok(Message::Unreadable);
    }
    if is_blank(bytes) {
        return Ok(Message::Blank);
    }
    match check_utf8(bytes) {
        Ok(text) => read_message_text(alloc, text),
        Err(_) => Ok(Message::Unreadable),
    }
}
