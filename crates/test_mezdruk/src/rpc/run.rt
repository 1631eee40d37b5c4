// Runs a session, with its input at once and by one byte a read.
use json_rpc::run_rpc;
use json_text::{FakeSource, Sink, SliceSource, Source, VecSink, Words};
use std::alloc::Global;

/// What a session came to.
#[derive(Drop)]
pub struct Outcome {
    pub status: u8,
    pub replies: VecSink,
    pub errors: VecSink,
}

impl Outcome {
    /// Whether it is this one.
    pub fn is(&self, status: u8, replies: &[u8], errors: &[u8]) -> bool {
        self.status == status
            && self.replies.as_slice() == replies
            && self.errors.as_slice() == errors
    }
}

/// The status of `run_rpc`. A caller's proof has none of the clauses to carry.
pub fn status_of<S: Source, K: Sink, E: Sink>(
    alloc: Global,
    words: &Words,
    source: &mut S,
    sink: &mut K,
    errs: &mut E,
) -> u8 {
    run_rpc(alloc, words, source, sink, errs)
}

/// Serves all lines of a source.
pub fn serve<S: Source>(alloc: Global, source: &mut S) -> Outcome {
    let (mut replies, mut errors) = (VecSink::new(alloc), VecSink::new(alloc));
    let words = Words::new(alloc);
    let status = status_of(alloc, &words, source, &mut replies, &mut errors);
    Outcome {
        status,
        replies,
        errors,
    }
}

/// Serves an input at once.
pub fn serve_bytes(alloc: Global, input: &[u8]) -> Outcome {
    serve(alloc, &mut SliceSource::new(input))
}

/// Whether the status is 0 and the replies are these, at once and by one byte a read.
pub fn has_replies(alloc: Global, input: &[u8], expected: &[u8]) -> bool {
    let one_by_one = serve(alloc, &mut FakeSource::new(input, 1, &[]));
    serve_bytes(alloc, input).is(0, expected, b"") && one_by_one.is(0, expected, b"")
}
