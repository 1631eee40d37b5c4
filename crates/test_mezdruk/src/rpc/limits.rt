// How many changes can be undone.
use crate::rpc::run::serve_bytes;
use json_text::Result;
use std::alloc::Global;

const SET: &str = "{\"jsonrpc\":\"2.0\",\"method\":\"set\",\"params\":[[],[]]}\n";

const PUSH: &str = "{\"jsonrpc\":\"2.0\",\"method\":\"push\",\"params\":[[],1]}\n";

const UNDO: &str = "{\"jsonrpc\":\"2.0\",\"method\":\"undo\",\"id\":1}\n";

const GET: &str = "{\"jsonrpc\":\"2.0\",\"method\":\"get\",\"params\":[[]],\"id\":2}\n";

const UNDONE: &str = "{\"jsonrpc\":\"2.0\",\"result\":true,\"id\":1}\n";

const LAST_REPLIES: &str =
    "{\"jsonrpc\":\"2.0\",\"result\":false,\"id\":1}\n{\"jsonrpc\":\"2.0\",\"result\":[],\"id\":2}\n";

// Whether of 1,001 changes all but the first can be undone.
fn keeps_1000_changes(alloc: Global) -> Result<bool> {
    let (pushes, undos) = (PUSH.repeat(alloc, 1000)?, UNDO.repeat(alloc, 1001)?);
    let mut lines = SET.repeat(alloc, 1)?;
    lines.push_str(pushes.as_str())?;
    lines.push_str(undos.as_str())?;
    lines.push_str(GET)?;
    let mut replies = UNDONE.repeat(alloc, 1000)?;
    replies.push_str(LAST_REPLIES)?;
    Ok(serve_bytes(alloc, lines.as_bytes()).is(0, replies.as_bytes(), b""))
}

#[test]
fn the_last_1000_changes_can_be_undone(rt: HostRuntime) {
    assert!(rt; matches!(keeps_1000_changes(rt.alloc()), Ok(true)));
}
