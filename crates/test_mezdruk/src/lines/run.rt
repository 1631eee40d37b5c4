// The worked examples, run.
use crate::lines::rows::{LONG_ROWS, ROWS};
use json_command::rows::differing_rows;
use json_lines::run_lines;
use json_text::{Result, Sink, Source, Words};
use std::alloc::Global;

/// The status of `run_lines`. A caller's proof has none of the clauses to carry.
pub(crate) fn status_of<S: Source, K: Sink, E: Sink>(
    alloc: Global,
    words: &Words,
    source: &mut S,
    sink: &mut K,
    errs: &mut E,
) -> u8 {
    run_lines(alloc, words, source, sink, errs)
}

// How many of these rows a run does not satisfy, by a source that gives at most `at_once` bytes a
// call.
fn differing(alloc: Global, rows: &str, at_once: usize) -> Result<u32> {
    differing_rows(
        alloc,
        rows,
        at_once.max(1),
        |alloc, words, source, sink, errs| { status_of(alloc, words, source, sink, errs) },
    )
}

#[test]
fn no_row_differs(rt: HostRuntime) {
    for at_once in [4_096, 2, 1] {
        assert!(rt;
            matches!(differing(rt.alloc(), ROWS, at_once), Ok(0)),
            "{at_once}"
        );
    }
}

#[test]
fn no_long_row_differs(rt: HostRuntime) {
    for at_once in [4_194_304, 65_536, 4_095] {
        assert!(rt;
            matches!(differing(rt.alloc(), LONG_ROWS, at_once), Ok(0)),
            "{at_once}"
        );
    }
}
