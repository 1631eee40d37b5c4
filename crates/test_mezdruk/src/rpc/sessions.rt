// Sessions and their replies.
use crate::rpc::run::has_replies;

// What a session shows, the lines that are sent to a document that is null, and the replies.
const SESSIONS: [(&str, &str, &str); 29] = [
    (
        "a set, a notification that does not apply, a batch and a line that is no text",
        "{\"jsonrpc\":\"2.0\",\"method\":\"set\",\"params\":[[],{\"a\":1}],\"id\":1}\n{\"jsonrpc\":\"2.0\",\"method\":\"push\",\"params\":[[\"a\"],2]}\n[{\"jsonrpc\":\"2.0\",\"method\":\"get\",\"params\":[[\"a\"]],\"id\":\"x\"},1]\n{\n",
        "{\"jsonrpc\":\"2.0\",\"result\":null,\"id\":1}\n[{\"jsonrpc\":\"2.0\",\"result\":1,\"id\":\"x\"},{\"jsonrpc\":\"2.0\",\"error\":{\"code\":-32600,\"message\":\"Invalid Request\"},\"id\":null}]\n{\"jsonrpc\":\"2.0\",\"error\":{\"code\":-32700,\"message\":\"Parse error\"},\"id\":null}\n",
    ),
    ("nothing", "", ""),
    ("lines of whitespace", "\n \t\r\n\n", ""),
    (
        "an id that is null, and no newline at the end",
        "{\"jsonrpc\":\"2.0\",\"method\":\"get\",\"params\":[[]],\"id\":null}",
        "{\"jsonrpc\":\"2.0\",\"result\":null,\"id\":null}\n",
    ),
    (
        "a notification with its effect",
        "{\"jsonrpc\":\"2.0\",\"method\":\"set\",\"params\":[[],[1]]}\n{\"jsonrpc\":\"2.0\",\"method\":\"push\",\"params\":[[],2.0]}\n{\"jsonrpc\":\"2.0\",\"method\":\"get\",\"params\":[[]],\"id\":3}\n",
        "{\"jsonrpc\":\"2.0\",\"result\":[1,2.0],\"id\":3}\n",
    ),
    (
        "a batch that goes on where a member fails",
        "[{\"jsonrpc\":\"2.0\",\"method\":\"set\",\"params\":[[],{}]},{\"jsonrpc\":\"2.0\",\"method\":\"insert\",\"params\":[[],\"k\",true],\"id\":1},{\"jsonrpc\":\"2.0\",\"method\":\"remove\",\"params\":[[],\"k\"],\"id\":2},{\"jsonrpc\":\"2.0\",\"method\":\"remove\",\"params\":[[],\"k\"],\"id\":\"three\"}]",
        "[{\"jsonrpc\":\"2.0\",\"result\":null,\"id\":1},{\"jsonrpc\":\"2.0\",\"result\":null,\"id\":2},{\"jsonrpc\":\"2.0\",\"error\":{\"code\":-32000,\"message\":\"Not found\"},\"id\":\"three\"}]\n",
    ),
    (
        "an insertion into null",
        "{\"jsonrpc\":\"2.0\",\"method\":\"insert\",\"params\":[[],\"k\",true],\"id\":1}",
        "{\"jsonrpc\":\"2.0\",\"error\":{\"code\":-32001,\"message\":\"Type unmatched\"},\"id\":1}\n",
    ),
    (
        "a path into null",
        "{\"jsonrpc\":\"2.0\",\"method\":\"get\",\"params\":[[\"a\"]],\"id\":1}\n",
        "{\"jsonrpc\":\"2.0\",\"error\":{\"code\":-32001,\"message\":\"Type unmatched\"},\"id\":1}\n",
    ),
    (
        "an index that is too great for a path",
        "{\"jsonrpc\":\"2.0\",\"method\":\"get\",\"params\":[4294967296],\"id\":1}",
        "{\"jsonrpc\":\"2.0\",\"error\":{\"code\":-32602,\"message\":\"Invalid params\"},\"id\":1}\n",
    ),
    (
        "a method that there is not, without and with an id",
        "{\"jsonrpc\":\"2.0\",\"method\":\"clear\"}\n{\"jsonrpc\":\"2.0\",\"method\":\"clear\",\"id\":-1.50e3}",
        "{\"jsonrpc\":\"2.0\",\"error\":{\"code\":-32601,\"message\":\"Method not found\"},\"id\":-1.50e3}\n",
    ),
    (
        "another version",
        "{\"jsonrpc\":\"1.0\",\"method\":\"get\",\"params\":[[]],\"id\":1}\n",
        "{\"jsonrpc\":\"2.0\",\"error\":{\"code\":-32600,\"message\":\"Invalid Request\"},\"id\":null}\n",
    ),
    (
        "an id that is an array",
        "{\"jsonrpc\":\"2.0\",\"method\":\"get\",\"params\":[[]],\"id\":[]}\n",
        "{\"jsonrpc\":\"2.0\",\"error\":{\"code\":-32600,\"message\":\"Invalid Request\"},\"id\":null}\n",
    ),
    (
        "a batch in a batch",
        "[[]]\n",
        "[{\"jsonrpc\":\"2.0\",\"error\":{\"code\":-32600,\"message\":\"Invalid Request\"},\"id\":null}]\n",
    ),
    (
        "an empty batch",
        "[]",
        "{\"jsonrpc\":\"2.0\",\"error\":{\"code\":-32600,\"message\":\"Invalid Request\"},\"id\":null}\n",
    ),
    (
        "a batch of notifications",
        "[{\"jsonrpc\":\"2.0\",\"method\":\"set\",\"params\":[[],[]]},{\"jsonrpc\":\"2.0\",\"method\":\"push\",\"params\":[[],1]}]\n{\"jsonrpc\":\"2.0\",\"method\":\"get\",\"params\":[[]],\"id\":0}",
        "{\"jsonrpc\":\"2.0\",\"result\":[1],\"id\":0}\n",
    ),
    (
        "the members of an object in their order, with one of a repeated key removed",
        "{\"jsonrpc\":\"2.0\",\"method\":\"set\",\"params\":[[],{\"b\":1,\"a\":2,\"b\":3}]}\n{\"jsonrpc\":\"2.0\",\"method\":\"get\",\"params\":[[\"b\"]],\"id\":1}\n{\"jsonrpc\":\"2.0\",\"method\":\"remove\",\"params\":[[],\"b\"],\"id\":2}\n{\"jsonrpc\":\"2.0\",\"method\":\"get\",\"params\":[[]],\"id\":3}",
        "{\"jsonrpc\":\"2.0\",\"result\":1,\"id\":1}\n{\"jsonrpc\":\"2.0\",\"result\":null,\"id\":2}\n{\"jsonrpc\":\"2.0\",\"result\":{\"a\":2},\"id\":3}\n",
    ),
    (
        "a batch that only reads",
        "{\"jsonrpc\":\"2.0\",\"method\":\"set\",\"params\":[[],{\"a\":[1,2]}]}\n[{\"jsonrpc\":\"2.0\",\"method\":\"get\",\"params\":[[\"a\",1]],\"id\":1},{\"jsonrpc\":\"2.0\",\"method\":\"clear\",\"id\":2},5,{\"jsonrpc\":\"2.0\",\"method\":\"get\",\"params\":[[\"b\"]],\"id\":\"x\"},{\"jsonrpc\":\"2.0\",\"method\":\"get\",\"params\":[[]]}]\n{\"jsonrpc\":\"2.0\",\"method\":\"get\",\"params\":[[]],\"id\":3}",
        "[{\"jsonrpc\":\"2.0\",\"result\":2,\"id\":1},{\"jsonrpc\":\"2.0\",\"error\":{\"code\":-32601,\"message\":\"Method not found\"},\"id\":2},{\"jsonrpc\":\"2.0\",\"error\":{\"code\":-32600,\"message\":\"Invalid Request\"},\"id\":null},{\"jsonrpc\":\"2.0\",\"error\":{\"code\":-32000,\"message\":\"Not found\"},\"id\":\"x\"}]\n{\"jsonrpc\":\"2.0\",\"result\":{\"a\":[1,2]},\"id\":3}\n",
    ),
    (
        "params by name in any order, of each method",
        "{\"jsonrpc\":\"2.0\",\"method\":\"set\",\"params\":{\"value\":{\"a\":[1]},\"path\":[]},\"id\":1}\n{\"jsonrpc\":\"2.0\",\"method\":\"push\",\"params\":{\"path\":[\"a\"],\"value\":2}}\n{\"jsonrpc\":\"2.0\",\"method\":\"insert\",\"params\":{\"key\":\"k\",\"value\":true,\"path\":[]},\"id\":2}\n{\"jsonrpc\":\"2.0\",\"method\":\"remove\",\"params\":{\"step\":0,\"path\":[\"a\"]},\"id\":3}\n{\"jsonrpc\":\"2.0\",\"method\":\"get\",\"params\":{\"path\":[]},\"id\":4}",
        "{\"jsonrpc\":\"2.0\",\"result\":null,\"id\":1}\n{\"jsonrpc\":\"2.0\",\"result\":null,\"id\":2}\n{\"jsonrpc\":\"2.0\",\"result\":null,\"id\":3}\n{\"jsonrpc\":\"2.0\",\"result\":{\"a\":[2],\"k\":true},\"id\":4}\n",
    ),
    (
        "a patch, by position and by name",
        "{\"jsonrpc\":\"2.0\",\"method\":\"patch\",\"params\":[[{\"op\":\"add\",\"path\":\"\",\"value\":{\"a\":[1]}}]],\"id\":1}\n{\"jsonrpc\":\"2.0\",\"method\":\"patch\",\"params\":{\"patch\":[{\"op\":\"add\",\"path\":\"/a/-\",\"value\":2},{\"op\":\"copy\",\"from\":\"/a\",\"path\":\"/b\"}]},\"id\":2}\n{\"jsonrpc\":\"2.0\",\"method\":\"get\",\"params\":[[]],\"id\":3}",
        "{\"jsonrpc\":\"2.0\",\"result\":null,\"id\":1}\n{\"jsonrpc\":\"2.0\",\"result\":null,\"id\":2}\n{\"jsonrpc\":\"2.0\",\"result\":{\"a\":[1,2],\"b\":[1,2]},\"id\":3}\n",
    ),
    (
        "patches that do not apply and leave the document",
        "{\"jsonrpc\":\"2.0\",\"method\":\"set\",\"params\":[[],{\"a\":1}]}\n{\"jsonrpc\":\"2.0\",\"method\":\"patch\",\"params\":[[{\"op\":\"remove\",\"path\":\"/a\"},{\"op\":\"test\",\"path\":\"\",\"value\":{\"a\":1}}]],\"id\":1}\n{\"jsonrpc\":\"2.0\",\"method\":\"patch\",\"params\":[[{\"op\":\"replace\",\"path\":\"/b\",\"value\":1}]],\"id\":2}\n{\"jsonrpc\":\"2.0\",\"method\":\"patch\",\"params\":[[{\"op\":\"add\",\"path\":\"/a/b\",\"value\":1}]],\"id\":3}\n{\"jsonrpc\":\"2.0\",\"method\":\"get\",\"params\":[[]],\"id\":4}",
        "{\"jsonrpc\":\"2.0\",\"error\":{\"code\":-32002,\"message\":\"Test failed\"},\"id\":1}\n{\"jsonrpc\":\"2.0\",\"error\":{\"code\":-32000,\"message\":\"Not found\"},\"id\":2}\n{\"jsonrpc\":\"2.0\",\"error\":{\"code\":-32001,\"message\":\"Type unmatched\"},\"id\":3}\n{\"jsonrpc\":\"2.0\",\"result\":{\"a\":1},\"id\":4}\n",
    ),
    (
        "merge patches, of which one is no object",
        "{\"jsonrpc\":\"2.0\",\"method\":\"merge\",\"params\":[{\"a\":{\"b\":1,\"c\":null}}],\"id\":1}\n{\"jsonrpc\":\"2.0\",\"method\":\"merge\",\"params\":{\"patch\":{\"a\":{\"b\":null,\"d\":2}}}}\n{\"jsonrpc\":\"2.0\",\"method\":\"get\",\"params\":[[]],\"id\":2}\n{\"jsonrpc\":\"2.0\",\"method\":\"merge\",\"params\":[[1]],\"id\":3}\n{\"jsonrpc\":\"2.0\",\"method\":\"get\",\"params\":[[0]],\"id\":4}",
        "{\"jsonrpc\":\"2.0\",\"result\":null,\"id\":1}\n{\"jsonrpc\":\"2.0\",\"result\":{\"a\":{\"d\":2}},\"id\":2}\n{\"jsonrpc\":\"2.0\",\"result\":null,\"id\":3}\n{\"jsonrpc\":\"2.0\",\"result\":1,\"id\":4}\n",
    ),
    (
        "a batch of a patch and a notification of one that does not apply",
        "[{\"jsonrpc\":\"2.0\",\"method\":\"patch\",\"params\":[[{\"op\":\"replace\",\"path\":\"\",\"value\":[]}]],\"id\":1},{\"jsonrpc\":\"2.0\",\"method\":\"patch\",\"params\":[[{\"op\":\"remove\",\"path\":\"/0\"}]]},{\"jsonrpc\":\"2.0\",\"method\":\"get\",\"params\":[[]],\"id\":2}]",
        "[{\"jsonrpc\":\"2.0\",\"result\":null,\"id\":1},{\"jsonrpc\":\"2.0\",\"result\":[],\"id\":2}]\n",
    ),
    (
        "an error that leaves the document",
        "{\"jsonrpc\":\"2.0\",\"method\":\"set\",\"params\":[[],[0]]}\n{\"jsonrpc\":\"2.0\",\"method\":\"set\",\"params\":[[5],1],\"id\":1}\n{\"jsonrpc\":\"2.0\",\"method\":\"get\",\"params\":[[]],\"id\":2}",
        "{\"jsonrpc\":\"2.0\",\"error\":{\"code\":-32000,\"message\":\"Not found\"},\"id\":1}\n{\"jsonrpc\":\"2.0\",\"result\":[0],\"id\":2}\n",
    ),
    (
        "each kind of change undone, one after another in batches, and redone",
        "{\"jsonrpc\":\"2.0\",\"method\":\"set\",\"params\":[[],{\"a\":[1]}]}\n{\"jsonrpc\":\"2.0\",\"method\":\"push\",\"params\":[[\"a\"],2]}\n{\"jsonrpc\":\"2.0\",\"method\":\"insert\",\"params\":[[],\"k\",true]}\n{\"jsonrpc\":\"2.0\",\"method\":\"remove\",\"params\":[[\"a\"],0]}\n{\"jsonrpc\":\"2.0\",\"method\":\"patch\",\"params\":[[{\"op\":\"add\",\"path\":\"/b\",\"value\":1}]]}\n{\"jsonrpc\":\"2.0\",\"method\":\"merge\",\"params\":[{\"k\":null}]}\n[{\"jsonrpc\":\"2.0\",\"method\":\"undo\",\"params\":[],\"id\":1},{\"jsonrpc\":\"2.0\",\"method\":\"get\",\"params\":[[]],\"id\":2}]\n[{\"jsonrpc\":\"2.0\",\"method\":\"undo\",\"params\":[],\"id\":1},{\"jsonrpc\":\"2.0\",\"method\":\"get\",\"params\":[[]],\"id\":2}]\n[{\"jsonrpc\":\"2.0\",\"method\":\"undo\",\"params\":[],\"id\":1},{\"jsonrpc\":\"2.0\",\"method\":\"get\",\"params\":[[]],\"id\":2}]\n[{\"jsonrpc\":\"2.0\",\"method\":\"undo\",\"params\":[],\"id\":1},{\"jsonrpc\":\"2.0\",\"method\":\"get\",\"params\":[[]],\"id\":2}]\n[{\"jsonrpc\":\"2.0\",\"method\":\"undo\",\"params\":[],\"id\":1},{\"jsonrpc\":\"2.0\",\"method\":\"get\",\"params\":[[]],\"id\":2}]\n[{\"jsonrpc\":\"2.0\",\"method\":\"undo\",\"params\":[],\"id\":1},{\"jsonrpc\":\"2.0\",\"method\":\"get\",\"params\":[[]],\"id\":2}]\n{\"jsonrpc\":\"2.0\",\"method\":\"undo\",\"params\":[],\"id\":3}\n[{\"jsonrpc\":\"2.0\",\"method\":\"redo\",\"params\":[],\"id\":4},{\"jsonrpc\":\"2.0\",\"method\":\"get\",\"params\":[[]],\"id\":5}]\n[{\"jsonrpc\":\"2.0\",\"method\":\"redo\",\"params\":[],\"id\":4},{\"jsonrpc\":\"2.0\",\"method\":\"get\",\"params\":[[]],\"id\":5}]\n[{\"jsonrpc\":\"2.0\",\"method\":\"redo\",\"params\":[],\"id\":4},{\"jsonrpc\":\"2.0\",\"method\":\"get\",\"params\":[[]],\"id\":5}]\n[{\"jsonrpc\":\"2.0\",\"method\":\"redo\",\"params\":[],\"id\":4},{\"jsonrpc\":\"2.0\",\"method\":\"get\",\"params\":[[]],\"id\":5}]\n[{\"jsonrpc\":\"2.0\",\"method\":\"redo\",\"params\":[],\"id\":4},{\"jsonrpc\":\"2.0\",\"method\":\"get\",\"params\":[[]],\"id\":5}]\n[{\"jsonrpc\":\"2.0\",\"method\":\"redo\",\"params\":[],\"id\":4},{\"jsonrpc\":\"2.0\",\"method\":\"get\",\"params\":[[]],\"id\":5}]\n{\"jsonrpc\":\"2.0\",\"method\":\"redo\",\"params\":[],\"id\":6}",
        "[{\"jsonrpc\":\"2.0\",\"result\":true,\"id\":1},{\"jsonrpc\":\"2.0\",\"result\":{\"a\":[2],\"k\":true,\"b\":1},\"id\":2}]\n[{\"jsonrpc\":\"2.0\",\"result\":true,\"id\":1},{\"jsonrpc\":\"2.0\",\"result\":{\"a\":[2],\"k\":true},\"id\":2}]\n[{\"jsonrpc\":\"2.0\",\"result\":true,\"id\":1},{\"jsonrpc\":\"2.0\",\"result\":{\"a\":[1,2],\"k\":true},\"id\":2}]\n[{\"jsonrpc\":\"2.0\",\"result\":true,\"id\":1},{\"jsonrpc\":\"2.0\",\"result\":{\"a\":[1,2]},\"id\":2}]\n[{\"jsonrpc\":\"2.0\",\"result\":true,\"id\":1},{\"jsonrpc\":\"2.0\",\"result\":{\"a\":[1]},\"id\":2}]\n[{\"jsonrpc\":\"2.0\",\"result\":true,\"id\":1},{\"jsonrpc\":\"2.0\",\"result\":null,\"id\":2}]\n{\"jsonrpc\":\"2.0\",\"result\":false,\"id\":3}\n[{\"jsonrpc\":\"2.0\",\"result\":true,\"id\":4},{\"jsonrpc\":\"2.0\",\"result\":{\"a\":[1]},\"id\":5}]\n[{\"jsonrpc\":\"2.0\",\"result\":true,\"id\":4},{\"jsonrpc\":\"2.0\",\"result\":{\"a\":[1,2]},\"id\":5}]\n[{\"jsonrpc\":\"2.0\",\"result\":true,\"id\":4},{\"jsonrpc\":\"2.0\",\"result\":{\"a\":[1,2],\"k\":true},\"id\":5}]\n[{\"jsonrpc\":\"2.0\",\"result\":true,\"id\":4},{\"jsonrpc\":\"2.0\",\"result\":{\"a\":[2],\"k\":true},\"id\":5}]\n[{\"jsonrpc\":\"2.0\",\"result\":true,\"id\":4},{\"jsonrpc\":\"2.0\",\"result\":{\"a\":[2],\"k\":true,\"b\":1},\"id\":5}]\n[{\"jsonrpc\":\"2.0\",\"result\":true,\"id\":4},{\"jsonrpc\":\"2.0\",\"result\":{\"a\":[2],\"b\":1},\"id\":5}]\n{\"jsonrpc\":\"2.0\",\"result\":false,\"id\":6}\n",
    ),
    (
        "a change that drops what could be redone",
        "{\"jsonrpc\":\"2.0\",\"method\":\"set\",\"params\":[[],[0]]}\n{\"jsonrpc\":\"2.0\",\"method\":\"push\",\"params\":[[],1]}\n{\"jsonrpc\":\"2.0\",\"method\":\"undo\"}\n{\"jsonrpc\":\"2.0\",\"method\":\"push\",\"params\":[[],2]}\n{\"jsonrpc\":\"2.0\",\"method\":\"redo\",\"id\":1}\n{\"jsonrpc\":\"2.0\",\"method\":\"get\",\"params\":[[]],\"id\":2}\n{\"jsonrpc\":\"2.0\",\"method\":\"undo\",\"id\":3}\n{\"jsonrpc\":\"2.0\",\"method\":\"undo\",\"id\":4}\n{\"jsonrpc\":\"2.0\",\"method\":\"undo\",\"id\":5}\n{\"jsonrpc\":\"2.0\",\"method\":\"get\",\"params\":[[]],\"id\":6}",
        "{\"jsonrpc\":\"2.0\",\"result\":false,\"id\":1}\n{\"jsonrpc\":\"2.0\",\"result\":[0,2],\"id\":2}\n{\"jsonrpc\":\"2.0\",\"result\":true,\"id\":3}\n{\"jsonrpc\":\"2.0\",\"result\":true,\"id\":4}\n{\"jsonrpc\":\"2.0\",\"result\":false,\"id\":5}\n{\"jsonrpc\":\"2.0\",\"result\":null,\"id\":6}\n",
    ),
    (
        "changes that do not apply, which leave what can be redone",
        "{\"jsonrpc\":\"2.0\",\"method\":\"set\",\"params\":[[],[0]]}\n{\"jsonrpc\":\"2.0\",\"method\":\"push\",\"params\":[[],1]}\n{\"jsonrpc\":\"2.0\",\"method\":\"undo\"}\n{\"jsonrpc\":\"2.0\",\"method\":\"push\",\"params\":[[\"a\"],2],\"id\":1}\n{\"jsonrpc\":\"2.0\",\"method\":\"patch\",\"params\":[[{\"op\":\"add\",\"path\":\"/0\",\"value\":5},{\"op\":\"test\",\"path\":\"/0\",\"value\":6}]],\"id\":2}\n{\"jsonrpc\":\"2.0\",\"method\":\"get\",\"params\":[[]],\"id\":3}\n{\"jsonrpc\":\"2.0\",\"method\":\"redo\",\"id\":4}\n{\"jsonrpc\":\"2.0\",\"method\":\"get\",\"params\":[[]],\"id\":5}",
        "{\"jsonrpc\":\"2.0\",\"error\":{\"code\":-32001,\"message\":\"Type unmatched\"},\"id\":1}\n{\"jsonrpc\":\"2.0\",\"error\":{\"code\":-32002,\"message\":\"Test failed\"},\"id\":2}\n{\"jsonrpc\":\"2.0\",\"result\":[0],\"id\":3}\n{\"jsonrpc\":\"2.0\",\"result\":true,\"id\":4}\n{\"jsonrpc\":\"2.0\",\"result\":[0,1],\"id\":5}\n",
    ),
    (
        "an undo and a redo without params, with empty ones and with others",
        "{\"jsonrpc\":\"2.0\",\"method\":\"set\",\"params\":[[],1]}\n{\"jsonrpc\":\"2.0\",\"method\":\"undo\",\"params\":{},\"id\":1}\n{\"jsonrpc\":\"2.0\",\"method\":\"redo\",\"params\":[],\"id\":2}\n{\"jsonrpc\":\"2.0\",\"method\":\"undo\",\"id\":3}\n{\"jsonrpc\":\"2.0\",\"method\":\"redo\",\"params\":{},\"id\":4}\n{\"jsonrpc\":\"2.0\",\"method\":\"undo\",\"params\":[1],\"id\":5}\n{\"jsonrpc\":\"2.0\",\"method\":\"redo\",\"params\":{\"path\":[]},\"id\":6}\n{\"jsonrpc\":\"2.0\",\"method\":\"get\",\"params\":[[]],\"id\":7}",
        "{\"jsonrpc\":\"2.0\",\"result\":true,\"id\":1}\n{\"jsonrpc\":\"2.0\",\"result\":true,\"id\":2}\n{\"jsonrpc\":\"2.0\",\"result\":true,\"id\":3}\n{\"jsonrpc\":\"2.0\",\"result\":true,\"id\":4}\n{\"jsonrpc\":\"2.0\",\"error\":{\"code\":-32602,\"message\":\"Invalid params\"},\"id\":5}\n{\"jsonrpc\":\"2.0\",\"error\":{\"code\":-32602,\"message\":\"Invalid params\"},\"id\":6}\n{\"jsonrpc\":\"2.0\",\"result\":1,\"id\":7}\n",
    ),
    (
        "a batch that undoes a change of its own and one before it",
        "{\"jsonrpc\":\"2.0\",\"method\":\"set\",\"params\":[[],[0]]}\n[{\"jsonrpc\":\"2.0\",\"method\":\"push\",\"params\":[[],1]},{\"jsonrpc\":\"2.0\",\"method\":\"undo\"},{\"jsonrpc\":\"2.0\",\"method\":\"undo\",\"id\":1},{\"jsonrpc\":\"2.0\",\"method\":\"undo\",\"id\":2},{\"jsonrpc\":\"2.0\",\"method\":\"redo\",\"id\":3},{\"jsonrpc\":\"2.0\",\"method\":\"get\",\"params\":[[]],\"id\":4}]\n{\"jsonrpc\":\"2.0\",\"method\":\"redo\",\"id\":5}\n{\"jsonrpc\":\"2.0\",\"method\":\"get\",\"params\":[[]],\"id\":6}",
        "[{\"jsonrpc\":\"2.0\",\"result\":true,\"id\":1},{\"jsonrpc\":\"2.0\",\"result\":false,\"id\":2},{\"jsonrpc\":\"2.0\",\"result\":true,\"id\":3},{\"jsonrpc\":\"2.0\",\"result\":[0],\"id\":4}]\n{\"jsonrpc\":\"2.0\",\"result\":true,\"id\":5}\n{\"jsonrpc\":\"2.0\",\"result\":[0,1],\"id\":6}\n",
    ),
    (
        "changes within the document that are undone by notifications",
        "{\"jsonrpc\":\"2.0\",\"method\":\"merge\",\"params\":[{\"a\":{\"b\":[1]}}]}\n{\"jsonrpc\":\"2.0\",\"method\":\"insert\",\"params\":[[\"a\"],\"b\",2]}\n{\"jsonrpc\":\"2.0\",\"method\":\"remove\",\"params\":[[\"a\"],\"b\"]}\n{\"jsonrpc\":\"2.0\",\"method\":\"undo\"}\n{\"jsonrpc\":\"2.0\",\"method\":\"get\",\"params\":[[\"a\",\"b\"]],\"id\":1}\n{\"jsonrpc\":\"2.0\",\"method\":\"undo\"}\n{\"jsonrpc\":\"2.0\",\"method\":\"get\",\"params\":[[\"a\",\"b\",0]],\"id\":2}",
        "{\"jsonrpc\":\"2.0\",\"result\":2,\"id\":1}\n{\"jsonrpc\":\"2.0\",\"result\":1,\"id\":2}\n",
    ),
];

#[test]
fn sessions_have_their_replies(rt: HostRuntime) {
    for (shows, input, expected) in SESSIONS {
        assert!(rt;
            has_replies(rt.alloc(), input.as_bytes(), expected.as_bytes()),
            "{shows}"
        );
    }
}
