// The order of arguments in which options come before the command.
use json_command::rows::differing_rows;
use json_text::{FakeSource, Result, VecSink, Words, put_all};
use mezdruk_arguments::command_first;
use std::alloc::Global;

/// Worked examples, as `json_command::rows` reads them: an empty input, the status, the arguments
/// with the command first, a comma after each, no report, and the arguments, each closed by `|`.
const ROWS: &str = r#"# the command comes first
|0|||
|0|fmt,||fmt|
|0|fmt,-S,a.json,||fmt|-S|a.json|
|0|fmt,--indent,4,||fmt|--indent|4|
|0|a.json,-S,fmt,||a.json|-S|fmt|
|0|,-S,|||-S|
# options come first
|0|fmt,-S,||-S|fmt|
|0|fmt,-S,a.json,||-S|fmt|a.json|
|0|fmt,-S,-c,a.json,-i,||-S|-c|fmt|a.json|-i|
|0|get,-r,/a,x.json,||-r|get|/a|x.json|
|0|lines,--csv,[],||--csv|lines|[]|
|0|set,--string,/a,-S,||--string|set|/a|-S|
|0|fmt,--none=1,--none,||--none=1|fmt|--none|
|0|fmt,-S,--help,||-S|--help|fmt|
|0|,-S,fmt,||-S||fmt|
# a value belongs to its option
|0|fmt,--indent,4,a.json,||--indent|4|fmt|a.json|
|0|fmt,--indent=4,a.json,||--indent=4|fmt|a.json|
|0|fmt,-S,--indent,4,-c,||-S|--indent|4|-c|fmt|
|0|fmt,--indent,-S,||--indent|-S|fmt|
|0|fmt,--indent,--,||--indent|--|fmt|
|0|fmt,--indent,--indent,||--indent|--indent|fmt|
|0|fmt,--indent,--indent,--indent,-1,||--indent|--indent|--indent|-1|fmt|
|0|rpc,--document,a.json,--save,||--document|a.json|rpc|--save|
|0|4,--indent,--document,fmt,||--indent|--document|4|fmt|
# no command follows
|0|-S,||-S|
|0|-S,--help,||-S|--help|
|0|-S,-c,--indent=4,||-S|-c|--indent=4|
|0|--indent,||--indent|
|0|--indent,fmt,||--indent|fmt|
|0|-S,--indent,4,||-S|--indent|4|
# no option
|0|--,fmt,||--|fmt|
|0|--,-S,fmt,||-S|--|fmt|
|0|-,fmt,||-|fmt|
|0|-,-S,fmt,||-S|-|fmt|
|0|-1,fmt,||-1|fmt|
|0|-1,-S,fmt,||-S|-1|fmt|
"#;

// Writes the arguments with a comma after each.
fn write_words(words: &Words, sink: &mut VecSink) -> Result<()> {
    for i in 0..words.len() {
        put_all(sink, words.word(i).as_bytes())?;
        put_all(sink, b",")?;
    }
    Ok(())
}

// Writes the arguments with the command first, and returns the status.
fn run(
    alloc: Global,
    words: &Words,
    _source: &mut FakeSource<'_>,
    sink: &mut VecSink,
    _errs: &mut VecSink,
) -> u8 {
    match command_first(alloc, words) {
        Ok(ordered) => match write_words(&ordered, sink) {
            Ok(()) => 0,
            Err(_) => 5,
        },
        Err(_) => 6,
    }
}

#[test]
fn the_command_comes_before_the_options_that_came_first(rt: HostRuntime) {
    assert!(rt; matches!(differing_rows(rt.alloc(), ROWS, 1, run), Ok(0)));
}
