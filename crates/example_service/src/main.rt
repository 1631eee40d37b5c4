//! Serves JSON-RPC 2.0 over a document that it keeps: reads requests from standard input, one a
//! line, and writes each reply before it reads the next request.
//!
//!     echo '{"jsonrpc": "2.0", "method": "get", "params": [["port"]], "id": 1}' | example_service
#![tactic(auto)]

use anyhow::Result;
use mezdruk_json::lines::{Line, LineReader};
use mezdruk_json::rpc::Service;
use mezdruk_json::{Source, StdSource, Value, from_str};
use std::alloc::Global;
use std::io::Write;

// The document before the first request.
const DOCUMENT: &str = r#"{"port": 80, "hosts": ["a.example"]}"#;

// The most bytes of a line. A longer line gets an error as its reply.
const MAX_LINE_BYTES: usize = 1_048_576;

// Serves a line, and sends the reply if there is one: a notification has none.
fn serve_line<W: Write>(
    alloc: Global,
    service: &mut Service,
    line: Line<'_>,
    out: &mut W,
) -> Result<()> {
    if let Some(reply) = service.serve(alloc, line)? {
        let mut text = reply.to_string(alloc)?;
        text.push('\n')?;
        out.write_all(text.as_bytes())?;
        out.flush()?;
    }
    Ok(())
}

// Serves all lines of the source. The loop has a bound, since it is proved to end.
fn serve_lines<S: Source, W: Write>(alloc: Global, source: &mut S, out: &mut W) -> Result<()> {
    let document = from_str::<Value>(alloc, DOCUMENT)?;
    let mut service = Service::with_document(alloc, document);
    let mut reader = LineReader::new(alloc, MAX_LINE_BYTES)?;
    for _ in 0..u64::MAX {
        match reader.next_line(source) {
            Ok(Some(line)) => serve_line(alloc, &mut service, line, out)?,
            Ok(None) => break,
            Err(error) => return Err(error.into()),
        }
    }
    Ok(())
}

fn main(rt: HostRuntime) -> Result<()> {
    let (mut source, mut out) = (StdSource::new(rt.stdin()), rt.stdout());
    serve_lines(rt.alloc(), &mut source, &mut out)
}
