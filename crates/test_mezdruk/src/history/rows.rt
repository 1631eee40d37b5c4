// Inputs and words with the results of `run_history`.
use json_command::rows::differing_rows;
use json_history::run_history;
use json_text::{Result, Sink, Source, Words};
use std::alloc::Global;

// As `json_command::rows` reads them: the input, the status, the output, the error, and the words,
// each closed by `|`.
const ROWS: &str = r#"# undo and redo
{"a":1,"b":2,"a":3}|0|{"a":1,"b":2,"a":3}||[["remove",[],"a"],["undo"]]|
[0]|0|[0,2]||[["push",[],1],["undo"],["push",[],2],["redo"]]|
[0]|0|[0,1]||[["push",[],1],["undo"],["redo"]]|
[0]|0|[0]||[["undo"],["redo"],["undo"]]|
 [ 0 ] |0|[0]||[]|
{"a":1}|0|{"a":1}||[["insert",[],"a",2],["insert",[],"b",3],["undo"],["undo"]]|
{"a":[1,2]}|0|{"a":[1,2]}||[["remove",["a"],0],["set",["a",0],{}],["undo"],["undo"],["undo"]]|
# an edit that does not apply
[0]|3||TypeUnmatched in edit 1|[["undo"],["push",["k"],1]]|
[0]|3||NotFound in edit 3|[["push",[],1],["undo"],["redo"],["remove",[],2],["undo"]]|
# words of another form
[0]|2||BadWords|[["undo",1]]|
[0]|2||BadWords|[["Undo"]]|
[0]|2||BadWords|["undo"]|
[0]|2||BadWords|{}|
[0]|2||BadWords|[|
[0]|2||BadWords|
[0]|2||BadWords|[]|[]|
# an input that is not valid
[0,]|1||InvalidJsonValue at offset 3, line 1 column 4|[]|
|1||EofWhileParsing at offset 0, line 1 column 1|[["undo"]]|
%FF|1||InvalidUTF8 at offset 0, line 1 column 1|[["push",["k"],1]]|
"#;

/// The status of `run_history`. A caller's proof has none of the clauses to carry.
pub(crate) fn status_of<S: Source, K: Sink, E: Sink>(
    alloc: Global,
    words: &Words,
    source: &mut S,
    sink: &mut K,
    errs: &mut E,
) -> u8 {
    run_history(alloc, words, source, sink, errs)
}

// How many of these rows a run does not satisfy.
fn differing(alloc: Global, rows: &str) -> Result<u32> {
    differing_rows(alloc, rows, 4_096, |alloc, words, source, sink, errs| {
        status_of(alloc, words, source, sink, errs)
    })
}

#[test]
fn the_rows_hold(rt: HostRuntime) {
    assert!(rt; matches!(differing(rt.alloc(), ROWS), Ok(0)));
}
