// Lines that mean harm.
use crate::rpc::run::{has_replies, serve_bytes};
use json_text::Result;
use std::alloc::Global;

const PARSE_ERROR: &str =
    "{\"jsonrpc\":\"2.0\",\"error\":{\"code\":-32700,\"message\":\"Parse error\"},\"id\":null}\n";

// What a line shows, the line, and its reply from a document that is null.
const LINES: [(&str, &str, &str); 35] = [
    (
        "a repeated id",
        "{\"id\":1,\"id\":2,\"jsonrpc\":\"2.0\",\"method\":\"get\",\"params\":[[]]}",
        "{\"jsonrpc\":\"2.0\",\"result\":null,\"id\":1}\n",
    ),
    (
        "a repeated id, of which the first is none",
        "{\"id\":{},\"id\":2,\"jsonrpc\":\"2.0\",\"method\":\"get\",\"params\":[[]]}",
        "{\"jsonrpc\":\"2.0\",\"error\":{\"code\":-32600,\"message\":\"Invalid Request\"},\"id\":null}\n",
    ),
    (
        "a repeated method",
        "{\"method\":\"get\",\"method\":\"clear\",\"jsonrpc\":\"2.0\",\"params\":[[]],\"id\":1}",
        "{\"jsonrpc\":\"2.0\",\"result\":null,\"id\":1}\n",
    ),
    (
        "a repeated version",
        "{\"jsonrpc\":\"2.0\",\"jsonrpc\":\"1.0\",\"method\":\"get\",\"params\":[[]],\"id\":1}",
        "{\"jsonrpc\":\"2.0\",\"result\":null,\"id\":1}\n",
    ),
    (
        "repeated params",
        "{\"params\":[],\"params\":[[]],\"jsonrpc\":\"2.0\",\"method\":\"get\",\"id\":1}",
        "{\"jsonrpc\":\"2.0\",\"error\":{\"code\":-32602,\"message\":\"Invalid params\"},\"id\":1}\n",
    ),
    (
        "a key that is written with escapes",
        "{\"jsonrpc\":\"2.0\",\"\\u006dethod\":\"get\",\"params\":[[]],\"id\":1}",
        "{\"jsonrpc\":\"2.0\",\"result\":null,\"id\":1}\n",
    ),
    (
        "a fractional id",
        "{\"jsonrpc\":\"2.0\",\"method\":\"get\",\"params\":[[]],\"id\":1.5}",
        "{\"jsonrpc\":\"2.0\",\"result\":null,\"id\":1.5}\n",
    ),
    (
        "an id with an exponent",
        "{\"jsonrpc\":\"2.0\",\"method\":\"get\",\"params\":[[]],\"id\":1e400}",
        "{\"jsonrpc\":\"2.0\",\"result\":null,\"id\":1e400}\n",
    ),
    (
        "a huge id",
        "{\"jsonrpc\":\"2.0\",\"method\":\"get\",\"params\":[[]],\"id\":123456789012345678901234567890123456789}",
        "{\"jsonrpc\":\"2.0\",\"result\":null,\"id\":123456789012345678901234567890123456789}\n",
    ),
    (
        "an id that is minus zero",
        "{\"jsonrpc\":\"2.0\",\"method\":\"get\",\"params\":[[]],\"id\":-0}",
        "{\"jsonrpc\":\"2.0\",\"result\":null,\"id\":-0}\n",
    ),
    (
        "an empty id",
        "{\"jsonrpc\":\"2.0\",\"method\":\"get\",\"params\":[[]],\"id\":\"\"}",
        "{\"jsonrpc\":\"2.0\",\"result\":null,\"id\":\"\"}\n",
    ),
    (
        "an id that is true",
        "{\"jsonrpc\":\"2.0\",\"method\":\"get\",\"params\":[[]],\"id\":true}",
        "{\"jsonrpc\":\"2.0\",\"error\":{\"code\":-32600,\"message\":\"Invalid Request\"},\"id\":null}\n",
    ),
    (
        "a param of another name",
        "{\"jsonrpc\":\"2.0\",\"method\":\"get\",\"params\":{\"Path\":[]},\"id\":1}",
        "{\"jsonrpc\":\"2.0\",\"error\":{\"code\":-32602,\"message\":\"Invalid params\"},\"id\":1}\n",
    ),
    (
        "a param that the method does not have",
        "{\"jsonrpc\":\"2.0\",\"method\":\"get\",\"params\":{\"path\":[],\"value\":1},\"id\":1}",
        "{\"jsonrpc\":\"2.0\",\"error\":{\"code\":-32602,\"message\":\"Invalid params\"},\"id\":1}\n",
    ),
    (
        "a param that is missing by name",
        "{\"jsonrpc\":\"2.0\",\"method\":\"set\",\"params\":{\"path\":[]},\"id\":1}",
        "{\"jsonrpc\":\"2.0\",\"error\":{\"code\":-32602,\"message\":\"Invalid params\"},\"id\":1}\n",
    ),
    (
        "a param that occurs twice",
        "{\"jsonrpc\":\"2.0\",\"method\":\"set\",\"params\":{\"path\":[],\"path\":[]},\"id\":1}",
        "{\"jsonrpc\":\"2.0\",\"error\":{\"code\":-32602,\"message\":\"Invalid params\"},\"id\":1}\n",
    ),
    (
        "a param that occurs twice beside all others",
        "{\"jsonrpc\":\"2.0\",\"method\":\"set\",\"params\":{\"path\":[],\"value\":1,\"value\":2},\"id\":1}",
        "{\"jsonrpc\":\"2.0\",\"error\":{\"code\":-32602,\"message\":\"Invalid params\"},\"id\":1}\n",
    ),
    (
        "no params by name",
        "{\"jsonrpc\":\"2.0\",\"method\":\"get\",\"params\":{},\"id\":1}",
        "{\"jsonrpc\":\"2.0\",\"error\":{\"code\":-32602,\"message\":\"Invalid params\"},\"id\":1}\n",
    ),
    (
        "params that are a string",
        "{\"jsonrpc\":\"2.0\",\"method\":\"get\",\"params\":\"[]\",\"id\":1}",
        "{\"jsonrpc\":\"2.0\",\"error\":{\"code\":-32600,\"message\":\"Invalid Request\"},\"id\":null}\n",
    ),
    (
        "no params",
        "{\"jsonrpc\":\"2.0\",\"method\":\"get\",\"id\":1}",
        "{\"jsonrpc\":\"2.0\",\"error\":{\"code\":-32602,\"message\":\"Invalid params\"},\"id\":1}\n",
    ),
    (
        "a param too many",
        "{\"jsonrpc\":\"2.0\",\"method\":\"get\",\"params\":[[],[]],\"id\":1}",
        "{\"jsonrpc\":\"2.0\",\"error\":{\"code\":-32602,\"message\":\"Invalid params\"},\"id\":1}\n",
    ),
    (
        "a patch that is an object",
        "{\"jsonrpc\":\"2.0\",\"method\":\"patch\",\"params\":[{}],\"id\":1}",
        "{\"jsonrpc\":\"2.0\",\"error\":{\"code\":-32602,\"message\":\"Invalid params\"},\"id\":1}\n",
    ),
    (
        "a patch whose second operation is none, after one that has no place",
        "{\"jsonrpc\":\"2.0\",\"method\":\"patch\",\"params\":[[{\"op\":\"remove\",\"path\":\"/a\"},{\"op\":\"frob\"}]],\"id\":1}",
        "{\"jsonrpc\":\"2.0\",\"error\":{\"code\":-32602,\"message\":\"Invalid params\"},\"id\":1}\n",
    ),
    (
        "a patch by another name",
        "{\"jsonrpc\":\"2.0\",\"method\":\"patch\",\"params\":{\"value\":[]},\"id\":1}",
        "{\"jsonrpc\":\"2.0\",\"error\":{\"code\":-32602,\"message\":\"Invalid params\"},\"id\":1}\n",
    ),
    (
        "a merge patch and one more",
        "{\"jsonrpc\":\"2.0\",\"method\":\"merge\",\"params\":[{},{}],\"id\":1}",
        "{\"jsonrpc\":\"2.0\",\"error\":{\"code\":-32602,\"message\":\"Invalid params\"},\"id\":1}\n",
    ),
    (
        "a key that is a number",
        "{\"jsonrpc\":\"2.0\",\"method\":\"insert\",\"params\":[[],1,2],\"id\":1}",
        "{\"jsonrpc\":\"2.0\",\"error\":{\"code\":-32602,\"message\":\"Invalid params\"},\"id\":1}\n",
    ),
    (
        "a step that is a fraction",
        "{\"jsonrpc\":\"2.0\",\"method\":\"get\",\"params\":[[1.5]],\"id\":1}",
        "{\"jsonrpc\":\"2.0\",\"error\":{\"code\":-32602,\"message\":\"Invalid params\"},\"id\":1}\n",
    ),
    (
        "a step below zero",
        "{\"jsonrpc\":\"2.0\",\"method\":\"remove\",\"params\":[[],-1],\"id\":1}",
        "{\"jsonrpc\":\"2.0\",\"error\":{\"code\":-32602,\"message\":\"Invalid params\"},\"id\":1}\n",
    ),
    (
        "a method that a method begins",
        "{\"jsonrpc\":\"2.0\",\"method\":\"ge\",\"params\":[[]],\"id\":1}",
        "{\"jsonrpc\":\"2.0\",\"error\":{\"code\":-32601,\"message\":\"Method not found\"},\"id\":1}\n",
    ),
    (
        "a method in other letters",
        "{\"jsonrpc\":\"2.0\",\"method\":\"GET\",\"params\":[[]],\"id\":1}",
        "{\"jsonrpc\":\"2.0\",\"error\":{\"code\":-32601,\"message\":\"Method not found\"},\"id\":1}\n",
    ),
    (
        "an empty object",
        "{}",
        "{\"jsonrpc\":\"2.0\",\"error\":{\"code\":-32600,\"message\":\"Invalid Request\"},\"id\":null}\n",
    ),
    (
        "a number",
        "1",
        "{\"jsonrpc\":\"2.0\",\"error\":{\"code\":-32600,\"message\":\"Invalid Request\"},\"id\":null}\n",
    ),
    (
        "two values on a line",
        "1 2",
        "{\"jsonrpc\":\"2.0\",\"error\":{\"code\":-32700,\"message\":\"Parse error\"},\"id\":null}\n",
    ),
    (
        "a comma too many",
        "[1,]",
        "{\"jsonrpc\":\"2.0\",\"error\":{\"code\":-32700,\"message\":\"Parse error\"},\"id\":null}\n",
    ),
    (
        "a lone surrogate",
        "{\"jsonrpc\":\"2.0\",\"method\":\"set\",\"params\":[[],\"\\ud800\"],\"id\":1}",
        "{\"jsonrpc\":\"2.0\",\"error\":{\"code\":-32700,\"message\":\"Parse error\"},\"id\":null}\n",
    ),
];

#[test]
fn lines_have_their_replies(rt: HostRuntime) {
    for (shows, line, expected) in LINES {
        assert!(rt;
            has_replies(rt.alloc(), line.as_bytes(), expected.as_bytes()),
            "{shows}"
        );
    }
}

// A piece of an input, and how many times it is repeated.
type Piece<'a> = (&'a [u8], usize);

fn bytes_of(alloc: Global, pieces: &[Piece<'_>]) -> Result<Vec<u8>> {
    let mut bytes = Vec::new(alloc);
    for (piece, times) in pieces {
        for _ in 0..*times {
            bytes.extend_from_slice(piece)?;
        }
    }
    Ok(bytes)
}

// Whether the input of these pieces is served, and its replies are these.
fn has_all_replies(alloc: Global, pieces: &[Piece<'_>], expected: &str) -> Result<bool> {
    let input = bytes_of(alloc, pieces)?;
    Ok(serve_bytes(alloc, input.as_slice()).is(0, expected.as_bytes(), b""))
}

const INVALID_LINE: &[u8] =
    b"\"\xff\"\n{\"jsonrpc\":\"2.0\",\"method\":\"get\",\"params\":[[]],\"id\":1}\n";

const INVALID_REPLIES: &str =
    "{\"jsonrpc\":\"2.0\",\"error\":{\"code\":-32700,\"message\":\"Parse error\"},\"id\":null}\n{\"jsonrpc\":\"2.0\",\"result\":null,\"id\":1}\n";

// Bytes that are not UTF-8 are a parse error, and the next line is served.
#[test]
fn a_line_that_is_not_utf8_is_a_parse_error(rt: HostRuntime) {
    assert!(rt; has_replies(rt.alloc(), INVALID_LINE, INVALID_REPLIES.as_bytes()));
}

// A byte, how many there are of it, and the replies.
const LENGTHS: [(&str, usize, &str); 3] = [
    (" ", 1_048_576, ""),
    (" ", 1_048_577, PARSE_ERROR),
    ("[", 1_048_576, PARSE_ERROR),
];

#[test]
fn a_line_has_at_most_1048576_bytes(rt: HostRuntime) {
    for (byte, count, replies) in LENGTHS {
        let pieces = [(byte.as_bytes(), count)];
        assert!(rt;
            matches!(has_all_replies(rt.alloc(), &pieces, replies), Ok(true)),
            "{count}"
        );
    }
}

// Whether a value of this many levels is set, with these replies.
fn sets_levels(alloc: Global, levels: usize, replies: &str) -> Result<bool> {
    let pieces = [
        (
            b"{\"jsonrpc\":\"2.0\",\"method\":\"set\",\"params\":[[],".as_slice(),
            1,
        ),
        (b"[".as_slice(), levels),
        (b"]".as_slice(), levels),
        (b"],\"id\":1}".as_slice(), 1),
    ];
    has_all_replies(alloc, &pieces, replies)
}

const NULL_REPLY: &str = "{\"jsonrpc\":\"2.0\",\"result\":null,\"id\":1}\n";

// The request and its params are two levels more.
#[test]
fn a_line_has_at_most_254_levels(rt: HostRuntime) {
    assert!(rt; matches!(sets_levels(rt.alloc(), 252, NULL_REPLY), Ok(true)));
    assert!(rt; matches!(sets_levels(rt.alloc(), 253, PARSE_ERROR), Ok(true)));
}

// A value is set, and a batch pushes 10,000 elements to it; then the last of them is there, and the
// next is not.
const PUSHES: [Piece<'static>; 4] = [
    (
        b"{\"jsonrpc\":\"2.0\",\"method\":\"set\",\"params\":[[],[]]}\n[{\"jsonrpc\":\"2.0\",\"method\":\"push\",\"params\":[[],0]}",
        1,
    ),
    (
        b",{\"jsonrpc\":\"2.0\",\"method\":\"push\",\"params\":[[],0]}",
        9_999,
    ),
    (
        b"]\n{\"jsonrpc\":\"2.0\",\"method\":\"get\",\"params\":[[9999]],\"id\":1}\n",
        1,
    ),
    (
        b"{\"jsonrpc\":\"2.0\",\"method\":\"get\",\"params\":[[10000]],\"id\":2}",
        1,
    ),
];

const PUSHES_REPLIES: &str =
    "{\"jsonrpc\":\"2.0\",\"result\":0,\"id\":1}\n{\"jsonrpc\":\"2.0\",\"error\":{\"code\":-32000,\"message\":\"Not found\"},\"id\":2}\n";

#[test]
fn a_batch_of_10000_notifications_has_no_reply(rt: HostRuntime) {
    assert!(rt;
        matches!(
            has_all_replies(rt.alloc(), &PUSHES, PUSHES_REPLIES),
            Ok(true)
        )
    );
}
