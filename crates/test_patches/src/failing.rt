// Sources and sinks that fail.
use crate::rows::status_of;
use json_text::{FakeSink, FakeSource, Sink, SliceSource, Source, VecSink, Words};
use std::alloc::Global;

const INPUT: &[u8] = b"{\"a\": 1, \"b\": [2]}";

const OUTPUT: &[u8] = b"{\"b\":[2,3]}";

const ARGUMENT: &str =
    r#"--patch=[{"op":"remove","path":"/a"},{"op":"add","path":"/b/-","value":3}]"#;

// The status of a run that removes one member and appends an element; 6 where memory runs out.
fn patch<S: Source, K: Sink, E: Sink>(
    alloc: Global,
    source: &mut S,
    sink: &mut K,
    errs: &mut E,
) -> u8 {
    let mut arguments = Words::new(alloc);
    match arguments.push(ARGUMENT) {
        Ok(()) => status_of(alloc, &arguments, source, sink, errs),
        Err(_) => 6,
    }
}

// Whether a run has the right result where this call of the source fails. What is reported is taken
// three bytes a call.
fn fails_at_read(alloc: Global, call: u64) -> bool {
    let failing = [call];
    let mut source = FakeSource::new(INPUT, 1, &failing);
    let (mut sink, mut errs) = (VecSink::new(alloc), FakeSink::new(alloc, 3, &[]));
    let status = patch(alloc, &mut source, &mut sink, &mut errs);
    let (expected, output, error) = if call <= 18 {
        (4, "".as_bytes(), "Io while reading\n")
    } else {
        (0, OUTPUT, "")
    };
    status == expected && sink.as_slice() == output && errs.as_slice() == error.as_bytes()
}

// 18 calls give the 18 bytes, and the next says that the input ends.
#[test]
fn a_source_that_fails_at_each_call(rt: HostRuntime) {
    for call in 0..20 {
        assert!(rt; fails_at_read(rt.alloc(), call), "{call}");
    }
}

// Whether a run has the right result where this call of the sink fails.
fn fails_at_write(alloc: Global, call: u64) -> bool {
    let failing = [call];
    let mut source = SliceSource::new(INPUT);
    let (mut sink, mut errs) = (FakeSink::new(alloc, 1, &failing), VecSink::new(alloc));
    let status = patch(alloc, &mut source, &mut sink, &mut errs);
    let (expected, error) = if call <= 11 {
        (5, "Io while writing\n")
    } else {
        (0, "")
    };
    let written = Some(sink.as_slice()) == OUTPUT.get(..call.min(11) as usize);
    status == expected && written && errs.as_slice() == error.as_bytes()
}

// The 11 bytes are taken by 11 calls, and the next is the flush.
#[test]
fn a_sink_that_fails_at_each_call(rt: HostRuntime) {
    for call in 0..13 {
        assert!(rt; fails_at_write(rt.alloc(), call), "{call}");
    }
}

// Whether a patch that does not apply ends with 3, and reports nothing to a sink that fails.
fn ends_unreported(alloc: Global) -> bool {
    let mut source = SliceSource::new(b"1");
    let (mut sink, mut errs) = (VecSink::new(alloc), FakeSink::new(alloc, 64, &[0]));
    let status = patch(alloc, &mut source, &mut sink, &mut errs);
    status == 3 && sink.as_slice().is_empty() && errs.as_slice().is_empty()
}

#[test]
fn an_error_that_cannot_be_reported(rt: HostRuntime) {
    assert!(rt; ends_unreported(rt.alloc()));
}
