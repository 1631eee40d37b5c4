// Sources and sinks that fail, and words.
use crate::rpc::run::{serve, status_of};
use json_text::{FakeSink, FakeSource, Result, SliceSource, VecSink, Words};
use std::alloc::Global;

const LINE: &str = "{\"jsonrpc\":\"2.0\",\"method\":\"get\",\"params\":[[]],\"id\":1}\n";

const REPLY: &str = "{\"jsonrpc\":\"2.0\",\"result\":null,\"id\":1}\n";

// Whether these lines have their replies where the read after them fails.
fn are_served(alloc: Global, count: usize) -> Result<bool> {
    let (lines, replies) = (LINE.repeat(alloc, count)?, REPLY.repeat(alloc, count)?);
    let fails = [count as u64];
    let mut source = FakeSource::new(lines.as_bytes(), LINE.len(), &fails);
    Ok(serve(alloc, &mut source).is(4, replies.as_bytes(), b"Io while reading\n"))
}

// Each read gives one line. The read after some lines fails: those lines have their replies, which
// is what a client sees that sends a line only after the reply to the line before.
#[test]
fn each_reply_is_sent_before_the_next_line_is_read(rt: HostRuntime) {
    for served in 0..4 {
        assert!(rt;
            matches!(are_served(rt.alloc(), served), Ok(true)),
            "{served} lines"
        );
    }
}

// Whether a session ends with 4 and no reply where the second read fails, inside a line.
fn ends_at_a_failed_read(alloc: Global) -> bool {
    let mut source = FakeSource::new(LINE.as_bytes(), 20, &[1]);
    let outcome = serve(alloc, &mut source);
    outcome.status == 4 && outcome.replies.as_slice().is_empty()
}

#[test]
fn a_read_that_fails_inside_a_line_ends_with_4(rt: HostRuntime) {
    assert!(rt; ends_at_a_failed_read(rt.alloc()));
}

// Whether a session ends with 5 and a report where the sink takes a number of bytes a call and this
// call fails, after these bytes.
fn ends_after(alloc: Global, most: u16, failing: u64, written: &[u8]) -> bool {
    let fails = [failing];
    let mut source = SliceSource::new(LINE.as_bytes());
    let mut sink = FakeSink::new(alloc, most.max(1) as usize, &fails);
    let mut errs = VecSink::new(alloc);
    let status = status_of(alloc, &Words::new(alloc), &mut source, &mut sink, &mut errs);
    let told = errs.as_slice() == b"Io while writing\n".as_slice();
    status == 5 && sink.as_slice() == written && told
}

// The first write takes the whole reply, and the flush after it fails.
#[test]
fn a_flush_that_fails_ends_with_5(rt: HostRuntime) {
    assert!(rt; ends_after(rt.alloc(), 1000, 1, REPLY.as_bytes()));
}

// The sink takes 7 bytes a write, and its third write fails.
#[test]
fn a_write_that_fails_leaves_a_prefix(rt: HostRuntime) {
    assert!(rt; ends_after(rt.alloc(), 7, 2, &REPLY.as_bytes()[..14]));
}

// Whether a session with a word ends with 2, and no line has a reply.
fn ends_at_a_word(alloc: Global) -> Result<bool> {
    let mut words = Words::new(alloc);
    words.push("--pretty")?;
    let mut source = SliceSource::new(LINE.as_bytes());
    let (mut sink, mut errs) = (VecSink::new(alloc), VecSink::new(alloc));
    let status = status_of(alloc, &words, &mut source, &mut sink, &mut errs);
    let told = errs.as_slice() == b"BadWords\n".as_slice();
    Ok(status == 2 && sink.as_slice().is_empty() && told)
}

#[test]
fn words_end_with_2(rt: HostRuntime) {
    assert!(rt; matches!(ends_at_a_word(rt.alloc()), Ok(true)));
}
