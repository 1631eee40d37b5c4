// Sources, sinks and callers that fail.
use json_print::{Events, Serializer};
use json_text::{FakeSink, FakeSource, Result, Sink, SliceSource, Source, VecSink, Words};
use reshape::run;
use std::alloc::Global;

const INPUT: &[u8] = b"{\"a\": 1, \"b\": true, \"c\": null}";

const OUTPUT: &[u8] = b"{\"a\":1,\"b\":true,\"c\":null}";

/// The status of a run without words.
pub(crate) fn status_of<S: Source, K: Sink, E: Sink>(
    alloc: Global,
    source: &mut S,
    sink: &mut K,
    errs: &mut E,
) -> u8 {
    run(alloc, &Words::new(alloc), source, sink, errs)
}

// Whether a run has the right result where this call of the source fails. What is reported is taken
// three bytes a call.
fn fails_at_read(alloc: Global, call: u64) -> bool {
    let failing = [call];
    let mut source = FakeSource::new(INPUT, 1, &failing);
    let (mut sink, mut errs) = (VecSink::new(alloc), FakeSink::new(alloc, 3, &[]));
    let status = status_of(alloc, &mut source, &mut sink, &mut errs);
    let (expected, text, told) = if call <= 30 {
        (4, "".as_bytes(), "Io while reading\n")
    } else {
        (0, OUTPUT, "")
    };
    status == expected && sink.as_slice() == text && errs.as_slice() == told.as_bytes()
}

// 30 calls give the 30 bytes, and the next says that the input ends.
#[test]
fn a_source_that_fails_at_each_call(rt: HostRuntime) {
    for call in 0..32 {
        assert!(rt; fails_at_read(rt.alloc(), call), "{call}");
    }
}

// Whether a run has the right result where this call of the sink fails.
fn fails_at_write(alloc: Global, call: u64) -> bool {
    let failing = [call];
    let mut source = SliceSource::new(INPUT);
    let (mut sink, mut errs) = (FakeSink::new(alloc, 1, &failing), VecSink::new(alloc));
    let status = status_of(alloc, &mut source, &mut sink, &mut errs);
    let (expected, told) = if call <= 25 {
        (5, "Io while writing\n")
    } else {
        (0, "")
    };
    let written = Some(sink.as_slice()) == OUTPUT.get(..call.min(25) as usize);
    status == expected && written && errs.as_slice() == told.as_bytes()
}

// The 25 bytes are taken by 25 calls, and the next is the flush.
#[test]
fn a_sink_that_fails_at_each_call(rt: HostRuntime) {
    for call in 0..27 {
        assert!(rt; fails_at_write(rt.alloc(), call), "{call}");
    }
}

// Whether a run over an empty input ends with 1, and reports nothing to a sink that fails.
fn ends_untold(alloc: Global) -> bool {
    let mut source = SliceSource::new(b"");
    let (mut sink, mut errs) = (VecSink::new(alloc), FakeSink::new(alloc, 64, &[0]));
    let status = status_of(alloc, &mut source, &mut sink, &mut errs);
    status == 1 && sink.as_slice().is_empty() && errs.as_slice().is_empty()
}

#[test]
fn a_refusal_that_cannot_be_told(rt: HostRuntime) {
    assert!(rt; ends_untold(rt.alloc()));
}

// A string of 20,000 bytes, with its quotes.
fn long_string(alloc: Global) -> Result<Vec<u8>> {
    let mut text = Vec::new(alloc);
    text.push(b'"')?;
    text.resize(19_999, b'a')?;
    text.push(b'"')?;
    Ok(text)
}

// Whether a run over a compact input ends with 5 if the second call of the sink fails, and what the
// first call took is written.
fn fails_at_the_second_call(alloc: Global, input: &[u8]) -> bool {
    let mut source = SliceSource::new(input);
    let (mut sink, mut errs) = (FakeSink::new(alloc, 4_096, &[1]), VecSink::new(alloc));
    let status = status_of(alloc, &mut source, &mut sink, &mut errs);
    let written = sink.as_slice().len() == 4_096 && input.starts_with(sink.as_slice());
    status == 5 && written && errs.as_slice() == b"Io while writing\n".as_slice()
}

// The first 4,096 bytes are sent, and the next call fails.
#[test]
fn a_sink_that_fails_at_a_long_string(rt: HostRuntime) {
    let text = long_string(rt.alloc());
    assert!(rt; text.is_ok_and(|text| fails_at_the_second_call(rt.alloc(), text.as_slice())));
}

// Whether the error of a serializer whose sink failed is returned again at each later call, and no
// more is written.
fn error_comes_again(alloc: Global) -> Result<bool> {
    let mut out = Serializer::new(alloc, FakeSink::new(alloc, 2, &[1]));
    out.begin_array(None)?;
    let first = out.boolean(true);
    let (second, third) = (out.null(), out.null());
    let same = first.is_err() && second == first && third == first;
    Ok(same && out.into_inner().as_slice() == b"[".as_slice())
}

#[test]
fn a_serializer_whose_sink_failed_once(rt: HostRuntime) {
    assert!(rt; matches!(error_comes_again(rt.alloc()), Ok(true)));
}
