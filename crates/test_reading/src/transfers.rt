// What is read of sources and put into sinks, and a sink that is lent.
use json_text::{
    ErrorCode, FakeSink, FakeSource, LentSink, Place, Sink, SliceSource, Source, StdSink,
    StdSource, VecSink, flush_all, put_all, read_all,
};
use std::alloc::Global;

const TEXT: &[u8] = b"0123456789";

// How a source is refused within ten bytes.
fn refusal_of<S: Source>(alloc: Global, source: &mut S) -> Option<(ErrorCode, Place)> {
    match read_all(alloc, source, 10) {
        Ok(_) => None,
        Err(error) => Some((error.code, error.place)),
    }
}

fn gives_all<S: Source>(alloc: Global, source: &mut S) -> bool {
    match read_all(alloc, source, 10) {
        Ok(bytes) => bytes.as_slice() == TEXT,
        Err(_) => false,
    }
}

fn all_is_read(alloc: Global) -> bool {
    gives_all(alloc, &mut FakeSource::new(TEXT, 3, &[]))
        && gives_all(alloc, &mut StdSource::new(TEXT))
}

fn too_much_is_refused(alloc: Global) -> bool {
    let large = refusal_of(alloc, &mut SliceSource::new(b"0123456789A"));
    matches!(large, Some((ErrorCode::TooLarge, _)))
}

fn a_fault_is_refused(alloc: Global) -> bool {
    let faulty = refusal_of(alloc, &mut FakeSource::new(TEXT, 3, &[2]));
    matches!(faulty, Some((_, Place::Reading)))
}

#[test]
fn reads_within_the_limit(rt: HostRuntime) {
    assert!(rt; all_is_read(rt.alloc()));
    assert!(rt; too_much_is_refused(rt.alloc()));
    assert!(rt; a_fault_is_refused(rt.alloc()));
}

fn puts<S: Sink>(sink: &mut S, bytes: &[u8]) -> bool {
    put_all(sink, bytes).is_ok() && flush_all(sink).is_ok()
}

fn fails<S: Sink>(sink: &mut S, bytes: &[u8]) -> bool {
    match put_all(sink, bytes) {
        Ok(()) => false,
        Err(error) => error.place == Place::Writing,
    }
}

// What a sink has that fails at its second write, and takes the rest then.
fn put_by_turns(alloc: Global) -> bool {
    let mut few = FakeSink::new(alloc, 3, &[2]);
    let failed = fails(&mut few, TEXT) && few.as_slice() == b"012345".as_slice();
    failed && puts(&mut few, b"6789") && few.as_slice() == TEXT
}

fn put_by_reference(alloc: Global) -> bool {
    let mut sink = VecSink::new(alloc);
    puts(&mut &mut sink, b"text") && sink.into_vec().as_slice() == b"text".as_slice()
}

fn put_into_a_writer(alloc: Global) -> bool {
    let mut bytes = Vec::new(alloc);
    let done = puts(&mut StdSink::new(&mut bytes), b"text");
    done && bytes.as_slice() == b"text".as_slice()
}

#[test]
fn puts_a_prefix(rt: HostRuntime) {
    assert!(rt; put_by_turns(rt.alloc()));
    assert!(rt; put_by_reference(rt.alloc()));
    assert!(rt; put_into_a_writer(rt.alloc()));
}

fn puts_by_turns(sink: &mut VecSink) -> bool {
    let mut lent = LentSink::new(sink);
    puts(&mut lent, b"te") && puts(lent.into_inner(), b"xt")
}

fn put_into_a_loan(alloc: Global) -> bool {
    let mut sink = VecSink::new(alloc);
    puts_by_turns(&mut sink) && sink.as_slice() == b"text".as_slice()
}

#[test]
fn gives_the_sink_back(rt: HostRuntime) {
    assert!(rt; put_into_a_loan(rt.alloc()));
}
