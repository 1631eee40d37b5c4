// The top call on worked rows.
use json_command::rows::differing_rows;
use json_patch::run_patch;
use json_text::{Result, Sink, Source, Words};
use std::alloc::Global;

// The input, the status, the output, the error, and the arguments, each closed by `|`.
const ROWS: &str = r#"# patches that apply
{"foo":["all","grass","cows","eat"]}|0|{"foo":["all","cows","eat","grass"]}||--patch=[{"op":"move","from":"/foo/1","path":"/foo/3"}]|
[1,2]|0|[1,0,2,9]||--patch=[{"op":"add","path":"/1","value":0},{"op":"add","path":"/-","value":9}]|
{"a/b":[0]}|0|{"a/b":[1],"m~n":[1]}||--patch=[{"op":"replace","path":"/a~1b/0","value":1},{"op":"copy","from":"/a~1b","path":"/m~0n"}]|
[-0,1.0,1e400]|0|[-0,1.0,1e400]||--patch=[]|
«254 [»«254 ]»|0|«253 [»«253 ]»||--patch=[{"op":"move","from":"/0","path":""}]|
# merge patches
{"a":"b","c":{"d":"e","f":"g"}}|0|{"a":"z","c":{"d":"e"}}||--merge={"a":"z","c":{"f":null}}|
{"a": 1}|0|2||--merge=2|
{"a": 1}|0|{"a":1}||--merge={}|
# patches that fail
{"baz":"qux"}|3||TestFailed in operation 1|--patch=[{"op":"add","path":"/a","value":1},{"op":"test","path":"/baz","value":"bar"}]|
1|3||BadPatch|--patch={}|
1|3||BadPatch in operation 1|--patch=[{"op":"remove","path":""},{"op":"add","path":"~2","value":1}]|
1|3||TypeUnmatched in operation 0|--patch=[{"op":"remove","path":""}]|
[1,2]|3||NotFound in operation 0|--patch=[{"op":"add","path":"/3","value":0}]|
[1,2]|3||NotFound in operation 0|--patch=[{"op":"remove","path":"/-"}]|
[1]|3||TestFailed in operation 1|--patch=[{"op":"move","from":"/0","path":"/0"},{"op":"test","path":"/0","value":1.0}]|
# inputs that are not valid
[1|1||EofWhileParsing at offset 2, line 1 column 3|--patch=[]|
|1||EofWhileParsing at offset 0, line 1 column 1|--merge=1|
%FF|1||InvalidUTF8 at offset 0, line 1 column 1|--patch={}|
«255 [»«255 ]»|1||RecursionLimitExceeded at offset 254, line 1 column 255|--merge={}|
# arguments that are not valid
1|2||BadWords|
1|2||BadWords|[]|
1|2||BadWords|--patch=[|
1|2||BadWords|--merge=|
1|2||BadWords|--patch|
1|2||BadWords|--merge={}|--merge={}|
1|2||BadWords|--merge=«255 [»«255 ]»|
1|2||BadWords|--Merge={}|
"#;

/// The status of `run_patch`. A caller's proof has none of the clauses to carry.
pub(crate) fn status_of<S: Source, K: Sink, E: Sink>(
    alloc: Global,
    arguments: &Words,
    source: &mut S,
    sink: &mut K,
    errs: &mut E,
) -> u8 {
    run_patch(alloc, arguments, source, sink, errs)
}

// How many rows a run does not satisfy, by a source that gives at most `at_once` bytes a call.
fn differing(alloc: Global, at_once: usize) -> Result<u32> {
    differing_rows(
        alloc,
        ROWS,
        at_once.max(1),
        |alloc, arguments, source, sink, errs| { status_of(alloc, arguments, source, sink, errs) },
    )
}

#[test]
fn no_row_differs(rt: HostRuntime) {
    for at_once in [1, 4_096] {
        assert!(rt;
            matches!(differing(rt.alloc(), at_once), Ok(0)),
            "{at_once}"
        );
    }
}
