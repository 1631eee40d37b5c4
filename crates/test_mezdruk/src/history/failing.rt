// Sources and sinks that fail.
use crate::history::rows::status_of;
use json_text::{FakeSink, FakeSource, Sink, SliceSource, Source, VecSink, Words};
use std::alloc::Global;

const INPUT: &[u8] = b"[1, 2]";

const WORD: &str = r#"[["push",[],3],["undo"],["redo"]]"#;

const OUTPUT: &[u8] = b"[1,2,3]";

// The status of a run that appends a value, takes that back and does it again; 6 where memory runs
// out.
fn append<S: Source, K: Sink, E: Sink>(
    alloc: Global,
    source: &mut S,
    sink: &mut K,
    errs: &mut E,
) -> u8 {
    let mut words = Words::new(alloc);
    match words.push(WORD) {
        Ok(()) => status_of(alloc, &words, source, sink, errs),
        Err(_) => 6,
    }
}

// Whether a run has the right result where this call of the source fails.
fn fails_at_read(alloc: Global, call: u64) -> bool {
    let failing = [call];
    let mut source = FakeSource::new(INPUT, 1, &failing);
    let (mut sink, mut errs) = (VecSink::new(alloc), VecSink::new(alloc));
    let status = append(alloc, &mut source, &mut sink, &mut errs);
    let (expected, output, told) = if call <= 6 {
        (4, "".as_bytes(), "Io while reading\n")
    } else {
        (0, OUTPUT, "")
    };
    status == expected && sink.as_slice() == output && errs.as_slice() == told.as_bytes()
}

// 6 calls give the 6 bytes, and the next says that the input ends.
#[test]
fn a_source_that_fails_at_each_call(rt: HostRuntime) {
    for call in 0..8 {
        assert!(rt; fails_at_read(rt.alloc(), call), "at call {call}");
    }
}

// Whether a run has the right result where this call of the sink fails.
fn fails_at_write(alloc: Global, call: u64) -> bool {
    let failing = [call];
    let mut source = SliceSource::new(INPUT);
    let (mut sink, mut errs) = (FakeSink::new(alloc, 1, &failing), VecSink::new(alloc));
    let status = append(alloc, &mut source, &mut sink, &mut errs);
    let (expected, told) = if call <= 7 {
        (5, "Io while writing\n")
    } else {
        (0, "")
    };
    let written = OUTPUT.starts_with(sink.as_slice());
    status == expected && written && errs.as_slice() == told.as_bytes()
}

// The 7 bytes are taken by 7 calls, and the next is the flush.
#[test]
fn a_sink_that_fails_at_each_call(rt: HostRuntime) {
    for call in 0..9 {
        assert!(rt; fails_at_write(rt.alloc(), call), "at call {call}");
    }
}
