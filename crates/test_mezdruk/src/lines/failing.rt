// Sources and sinks that fail at each call in turn.
use crate::lines::run::status_of;
use json_text::{FakeSink, FakeSource, Sink, SliceSource, Source, VecSink, Words};
use std::alloc::Global;

const INPUT: &[u8] = b"1\nx\n3";

const OUTPUT: &[u8] = b"1\n3\n";

const READ_AFTER_ERROR: &str =
    "2: InvalidJsonValue at offset 0, line 1 column 1\nIo while reading\n";

const WRITE_AFTER_ERROR: &str =
    "2: InvalidJsonValue at offset 0, line 1 column 1\nIo while writing\n";

// The option by which each line has a row, as it has without an option.
const EACH_LINE: &str = "--has=[]";

// The status of a run with an option that prints the value of each line; 6 where memory runs out.
fn print_values<S: Source, K: Sink, E: Sink>(
    alloc: Global,
    option: &str,
    source: &mut S,
    sink: &mut K,
    errs: &mut E,
) -> u8 {
    let mut words = Words::new(alloc);
    match words.push(option) {
        Ok(()) => {}
        Err(_) => return 6,
    }
    match words.push("[[[],\"json\"]]") {
        Ok(()) => status_of(alloc, &words, source, sink, errs),
        Err(_) => 6,
    }
}

// Whether a run has the right result where this call of the source fails.
fn fails_at_read(alloc: Global, call: u64, expected: u8, errors: &str) -> bool {
    let failing = [call];
    let mut source = FakeSource::new(INPUT, 1, &failing);
    let (mut sink, mut errs) = (VecSink::new(alloc), VecSink::new(alloc));
    let status = print_values(alloc, EACH_LINE, &mut source, &mut sink, &mut errs);
    let written = if expected == 4 {
        OUTPUT.starts_with(sink.as_slice())
    } else {
        sink.as_slice() == OUTPUT
    };
    status == expected && written && errs.as_slice() == errors.as_bytes()
}

const ERROR_ALONE: &str = "2: InvalidJsonValue at offset 0, line 1 column 1\n";

// The call of the source that fails, the status, and the errors.
const READS: [(u64, u8, &str); 8] = [
    (0, 4, "Io while reading\n"),
    (1, 4, "Io while reading\n"),
    (2, 4, "Io while reading\n"),
    (3, 4, "Io while reading\n"),
    (4, 4, READ_AFTER_ERROR),
    (5, 4, READ_AFTER_ERROR),
    (6, 4, READ_AFTER_ERROR),
    (7, 1, ERROR_ALONE),
];

// 5 calls give the 5 bytes. The second line ends at call 3. The end is met twice: by the last line,
// which has no newline, and by the call after it.
#[test]
fn a_source_that_fails_at_each_call(rt: HostRuntime) {
    for (call, status, errors) in READS {
        assert!(rt; fails_at_read(rt.alloc(), call, status, errors), "{call}");
    }
}

// Whether a strict run ends at the bad line, where this call of the source would fail.
fn ends_before_read(alloc: Global, call: u64) -> bool {
    let failing = [call];
    let mut source = FakeSource::new(INPUT, 1, &failing);
    let (mut sink, mut errs) = (VecSink::new(alloc), VecSink::new(alloc));
    let status = print_values(alloc, "--strict", &mut source, &mut sink, &mut errs);
    let written = sink.as_slice() == b"1\n".as_slice();
    status == 1 && written && errs.as_slice() == ERROR_ALONE.as_bytes()
}

// The bad line ends at call 3.
#[test]
fn a_strict_run_reads_no_more_after_a_bad_line(rt: HostRuntime) {
    assert!(rt; ends_before_read(rt.alloc(), 4));
}

// The call of the sink that fails, the status, the output, and the errors.
type Write = (u64, u8, &'static str, &'static str);

const WRITES: [Write; 9] = [
    (0, 5, "", "Io while writing\n"),
    (1, 5, "", WRITE_AFTER_ERROR),
    (2, 5, "1", WRITE_AFTER_ERROR),
    (3, 5, "1\n", WRITE_AFTER_ERROR),
    (4, 5, "1\n", WRITE_AFTER_ERROR),
    (5, 5, "1\n3", WRITE_AFTER_ERROR),
    (6, 5, "1\n3\n", WRITE_AFTER_ERROR),
    (7, 5, "1\n3\n", WRITE_AFTER_ERROR),
    (8, 1, "1\n3\n", ERROR_ALONE),
];

// Whether a run has the right result where this call of the sink fails.
fn fails_at_write(alloc: Global, call: u64, expected: u8, output: &str, errors: &str) -> bool {
    let failing = [call];
    let mut source = SliceSource::new(INPUT);
    let (mut sink, mut errs) = (FakeSink::new(alloc, 1, &failing), VecSink::new(alloc));
    let status = print_values(alloc, EACH_LINE, &mut source, &mut sink, &mut errs);
    let written = sink.as_slice() == output.as_bytes();
    status == expected && written && errs.as_slice() == errors.as_bytes()
}

// The first call is the flush before the first read. Calls 1 to 3 send the first row, a byte a call
// and a flush, before the read that finds the end. Calls 4 to 6 send the second row before the end
// is read again, and the last call is the flush at the end.
#[test]
fn a_sink_that_fails_at_each_call(rt: HostRuntime) {
    for (call, status, output, errors) in WRITES {
        assert!(rt;
            fails_at_write(rt.alloc(), call, status, output, errors),
            "{call}"
        );
    }
}

// Whether a run has the right result where this call of the sink of errors fails.
fn fails_at_report(alloc: Global, call: u64) -> bool {
    let failing = [call];
    let mut source = SliceSource::new(b"1\nx\n3\ny\n");
    let (mut sink, mut errs) = (VecSink::new(alloc), FakeSink::new(alloc, 1, &failing));
    let status = print_values(alloc, EACH_LINE, &mut source, &mut sink, &mut errs);
    let told = Some(errs.as_slice()) == ERROR_ALONE.as_bytes().get(..call as usize);
    status == 1 && sink.as_slice() == OUTPUT && told
}

// The rows are written all the same; after a failed report no other is made.
#[test]
fn a_sink_of_errors_that_fails_at_each_call(rt: HostRuntime) {
    for call in 0..49 {
        assert!(rt; fails_at_report(rt.alloc(), call), "{call}");
    }
}
