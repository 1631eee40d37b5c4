// The service: a document with its history, and what serves a line.
ghost use Rattle.std.specs.Prelude.{◌≡◌, ◌↔◌, IfOk, IsTrue, OnErr, option_map, true};
ghost use Rattle.json_grammar.specs.Tree.{null};
ghost use Rattle.json_value.specs.Denotes.{tree_of};
ghost use Rattle.json_history.specs.History.{new_history};
ghost use Rattle.json_history.specs.LogOfHistory.{log_of};
ghost use Rattle.json_rpc.specs.Responses.{error_response};
ghost use Rattle.json_rpc.specs.Serving.{LineIsMessage, OnlyReads, Serves, message_only_reads, served};
ghost use Rattle.json_rpc.specs.Denoted.{message_denoted, tree_history};
ghost use Rattle.json_rpc.specs.declared.error.RpcError.TheVariants.{ParseError};
ghost use Rattle.json_io.specs.Errors.{OnlyNoMemory};

use crate::error::RpcError;
use crate::message::{Message, read_message};
use crate::response::Respond;
use crate::serve::{serve_tree, tree_only_reads};
use json_history::History;
use json_io::Result;
use json_lines::Line;
use json_value::Value;
use std::alloc::Global;

/// A document that JSON-RPC 2.0 requests read and change, with what undoes and redoes the changes.
/// That of a new service is null. At most 1,000 changes can be undone.
///
/// A value that a request puts into the document shares the text of the line that it came in. That
/// text stays in memory as long as a part of it is in the document, or in what undoes or redoes a
/// change.
///
/// ```
/// use json_lines::Line;
/// use json_rpc::Service;
/// let mut service = Service::new(alloc);
/// let line = Line::Whole(b"{\"jsonrpc\":\"2.0\",\"method\":\"set\",\"params\":[[],[1]]}");
/// assert!(rt; service.serve(alloc, line)?.is_none());
/// let line = b"{\"jsonrpc\":\"2.0\",\"method\":\"get\",\"params\":[[0]],\"id\":\"x\"}";
/// let reply = service.serve(alloc, Line::Whole(line))?.ok_or("no reply")?;
/// let expected = "{\"jsonrpc\":\"2.0\",\"result\":1,\"id\":\"x\"}";
/// assert_eq!(rt; reply.to_string(alloc)?.as_str(), expected);
/// ```
#[derive(Drop)]
pub struct Service {
    history: History,
}

// Returns the response to a line that cannot be read.
fn parse_error<R: Respond>(alloc: Global) -> Result<R>
    ensures ok { IfOk result (λ r. R.response r ≡ error_response ParseError null) }
    ensures only { OnlyNoMemory result }
{
    R::with_error(alloc, RpcError::ParseError, Value::new_null())
}

// Serves a line that was read.
fn serve_message<R: Respond>(
    alloc: Global,
    history: &mut History,
    message: Message,
) -> Result<Option<R>>
    ensures ok { IfOk result (λ o. served (tree_history history.old) (message_denoted message)
        ≡ (tree_history history.new, option_map R.response o)) }
    ensures kept { OnErr result (log_of history.new ≡ log_of history.old) }
    ensures reads { message_only_reads (message_denoted message) ≡ true
        → history.new ≡ history.old }
    ensures only { OnlyNoMemory result }
{
    match message {
        Message::Blank => Ok(None),
        Message::Unreadable => {
            let reply = parse_error(alloc)?;
            Ok(Some(reply))
        }
        Message::Readable(value) => serve_tree(alloc, history, value.view()),
    }
}

// Reads a line.
fn read_line(alloc: Global, line: Line<'_>) -> Result<Message>
    ensures ok { IfOk result (λ m. LineIsMessage line.entry (message_denoted m)) }
    ensures only { OnlyNoMemory result }
{
    match line {
        Line::Whole(bytes) => read_message(alloc, bytes),
        Line::TooLong => Ok(Message::Unreadable),
    }
}

// Returns whether a line that was read asks for no change of the document.
fn message_only_reads(message: Message) -> bool
    ensures { result ≡ message_only_reads (message_denoted message) }
{
    match message {
        Message::Blank | Message::Unreadable => true,
        Message::Readable(value) => tree_only_reads(value.view()),
    }
}

/// Returns whether a line asks for no change of the document: its request, or each one of its
/// batch, has a method that only reads, or the line is no valid request. [`Service::serve`] leaves
/// the service unchanged then. Fails with `NoMemory` if memory runs out.
///
/// ```
/// use json_lines::Line;
/// use json_rpc::line_only_reads;
/// let get = b"{\"jsonrpc\":\"2.0\",\"method\":\"get\",\"params\":[[]],\"id\":1}";
/// assert!(rt; line_only_reads(alloc, Line::Whole(get))?);
/// let set = b"{\"jsonrpc\":\"2.0\",\"method\":\"set\",\"params\":[[],1]}";
/// assert!(rt; !line_only_reads(alloc, Line::Whole(set))?);
/// ```
pub fn line_only_reads(alloc: Global, line: Line<'_>) -> Result<bool>
    ensures ok { IfOk result (λ b. IsTrue b ↔ OnlyReads line.entry) }
    ensures only { OnlyNoMemory result }
{
    let message = read_line(alloc, line)?;
    Ok(message_only_reads(message))
}

impl Service {
    ghost use Rattle.json_rpc.specs.Denoted.{document_of, service_history};

    /// Creates a service whose document is null, with nothing to undo or redo. Takes no memory yet.
    pub fn new(alloc: Global) -> Service
        ensures { service_history result ≡ new_history null }
    {
        Service::with_document(alloc, Value::new_null())
    }

    /// Creates a service that reads and changes `document`, with nothing to undo or redo. Takes no
    /// memory yet.
    ///
    /// ```
    /// use json_data::from_str;
    /// use json_rpc::Service;
    /// use json_value::Value;
    /// let document = from_str::<Value>(alloc, "{\"port\":8080}")?;
    /// let service = Service::with_document(alloc, document);
    /// assert_eq!(rt; service.document().to_string(alloc)?.as_str(), "{\"port\":8080}");
    /// ```
    pub fn with_document(alloc: Global, document: Value) -> Service
        ensures { service_history result ≡ new_history (tree_of document) }
    {
        let history = History::new(alloc, document);
        Service { history }
    }

    /// Returns the document as it is now.
    pub fn document(&self) -> &Value
        ensures { tree_of result.now ≡ document_of self.now }
    {
        self.history.value()
    }

    /// Consumes the service and returns its document.
    pub fn into_document(self) -> Value
        ensures { tree_of result ≡ document_of self }
    {
        self.history.into_value()
    }

    /// Executes the request, or each request of the batch, on the line, and returns the reply.
    /// Returns `None` for a line of whitespace alone, a notification, or a batch of notifications
    /// (JSON-RPC 2.0, sections 4.1 and 6).
    ///
    /// The reply is the error `ParseError` if the line has more than 1,048,576 bytes, or is not a
    /// JSON text (RFC 8259) in UTF-8 of at most 254 levels.
    ///
    /// Fails only with `NoMemory`, if memory runs out; the document is unchanged then, and what can
    /// be undone and redone. A line that asks for no change leaves the service unchanged.
    pub fn serve(&mut self, alloc: Global, line: Line<'_>) -> Result<Option<Value>>
        ensures ok { IfOk result (λ o. Serves (service_history self.old) line.entry
            (service_history self.new) (option_map tree_of o)) }
        ensures kept { OnErr result (service_history self.new ≡ service_history self.old) }
        ensures reads { OnlyReads line.entry → self.new ≡ self.old }
        ensures only { OnlyNoMemory result }
    {
        self.reply_to(alloc, line)
    }

    /// Executes the line as [`Service::serve`] does, and returns the reply as the type that the
    /// caller chooses.
    pub(crate) fn reply_to<R: Respond>(
        &mut self,
        alloc: Global,
        line: Line<'_>,
    ) -> Result<Option<R>>
        ensures ok { IfOk result (λ o. Serves (service_history self.old) line.entry
            (service_history self.new) (option_map R.response o)) }
        ensures kept { OnErr result (service_history self.new ≡ service_history self.old) }
        ensures reads { OnlyReads line.entry → self.new ≡ self.old }
        ensures only { OnlyNoMemory result }
    {
        let message = read_line(alloc, line)?;
        serve_message(alloc, &mut self.history, message)
    }
}
