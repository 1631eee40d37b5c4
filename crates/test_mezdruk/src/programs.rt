// What the tool hands on to other programs, and what programs say of arguments that are not valid.
mod invalid;

use invalid::{INVALID_ROWS, JSON_PATCH_ROWS};
use json_command::rows::differing_rows;
use json_patch::run_patch;
use json_text::{FakeSource, Result, VecSink, Words};
use mezdruk_help::USAGE_JSON_PATCH;
use mezdruk_programs::run_named;
use std::alloc::Global;

/// The status of arguments that name no program.
const NOT_NAMED: u8 = 99;

/// Worked examples, as `json_command::rows` reads them.
const ROWS: &str = r#"# no program
|99|||
|99||||
|99|||fmt|
|99|||patch|[]|
|99|||liness|[]|
|99|||--lines|lines|
# reshape
{"a": 1}|0|{"a":2}||reshape|[["set", ["a"], 2]]|
[1]|0|[%0A 1%0A]||reshape|--indent=1|
[1,]|1||InvalidJsonValue at offset 3, line 1 column 4|reshape|
{}|3||NotFound in edit 0|reshape|[["remove", [], "a"]]|
|0|reshape 0.1.0%0ARattle logic dac8208d650f15bf%0A||reshape|--version|
|0|reshape 0.1.0%0ARattle logic dac8208d650f15bf%0A||reshape|-V|
# lines
{"a":1}%0A|0|1%0A||lines|[[["a"],"int"]]|
[1%0A2%0A|1|-%0A|1: EofWhileParsing at offset 2, line 1 column 3|lines|[[[0],"int"]]|
|0|mezdruk lines 0.1.0%0ARattle logic dac8208d650f15bf%0A||lines|--version|
|0|mezdruk lines 0.1.0%0ARattle logic dac8208d650f15bf%0A||lines|-V|
# rpc
{"jsonrpc":"2.0","method":"get","params":[[]],"id":1}%0A|0|{"jsonrpc":"2.0","result":null,"id":1}%0A||rpc|
|0|mezdruk rpc 0.1.0%0ARattle logic dac8208d650f15bf%0A||rpc|--version|
|0|mezdruk rpc 0.1.0%0ARattle logic dac8208d650f15bf%0A||rpc|-V|
# history
[0]|0|[0,1]||history|[["push", [], 1], ["undo"], ["redo"]]|
[0]|3||NotFound in edit 0|history|[["remove", [], 5]]|
|0|mezdruk history 0.1.0%0ARattle logic dac8208d650f15bf%0A||history|--version|
|0|mezdruk history 0.1.0%0ARattle logic dac8208d650f15bf%0A||history|-V|
"#;

// Runs the named program, and returns its status.
fn run(
    alloc: Global,
    words: &Words,
    source: &mut FakeSource<'_>,
    sink: &mut VecSink,
    errs: &mut VecSink,
) -> u8 {
    run_named(alloc, words, source, sink, errs).unwrap_or(NOT_NAMED)
}

#[test]
fn each_row_is_that_of_the_program(rt: HostRuntime) {
    assert!(rt; matches!(differing_rows(rt.alloc(), ROWS, 3, run), Ok(0)));
}

#[test]
fn each_invalid_argument_is_named_with_what_is_wrong(rt: HostRuntime) {
    assert!(rt; matches!(differing_rows(rt.alloc(), INVALID_ROWS, 3, run), Ok(0)));
}

// Runs `json_patch`, and returns its status.
fn run_json_patch(
    alloc: Global,
    words: &Words,
    source: &mut FakeSource<'_>,
    sink: &mut VecSink,
    errs: &mut VecSink,
) -> u8 {
    if let Some(status) = USAGE_JSON_PATCH.about.say_asked(words, sink) {
        return status.number();
    }
    let status = run_patch(alloc, words, source, sink, errs);
    USAGE_JSON_PATCH.explain(alloc, words, status, errs);
    status
}

#[test]
fn json_patch_names_each_invalid_argument(rt: HostRuntime) {
    assert!(rt;
        matches!(
            differing_rows(rt.alloc(), JSON_PATCH_ROWS, 3, run_json_patch),
            Ok(0)
        )
    );
}

fn help_words(alloc: Global, name: &str, option: &str) -> Result<Words> {
    let mut words = Words::new(alloc);
    words.push(name)?;
    words.push(option)?;
    Ok(words)
}

// Whether the program of this name reads nothing and writes this help.
fn says_help(alloc: Global, name: &str, option: &str, help: &str) -> Result<bool> {
    let words = help_words(alloc, name, option)?;
    let mut source = FakeSource::new(b"", 1, &[0]);
    let (mut sink, mut errs) = (VecSink::new(alloc), VecSink::new(alloc));
    let status = run(alloc, &words, &mut source, &mut sink, &mut errs);
    let said = sink.as_slice() == help.as_bytes();
    Ok(status == 0 && said && errs.as_slice().is_empty())
}

#[test]
fn a_help_is_that_of_the_program(rt: HostRuntime) {
    for (name, option, help) in [
        ("reshape", "--help", mezdruk_help::ABOUT_RESHAPE.help),
        ("reshape", "-h", mezdruk_help::ABOUT_RESHAPE.help),
        ("lines", "--help", mezdruk_help::ABOUT_LINES.help),
        ("rpc", "--help", mezdruk_help::ABOUT_RPC.help),
        ("rpc", "-h", mezdruk_help::ABOUT_RPC.help),
        ("history", "--help", mezdruk_help::ABOUT_HISTORY.help),
    ] {
        assert!(rt;
            matches!(says_help(rt.alloc(), name, option, help), Ok(true)),
            "{name} {option}"
        );
    }
}
