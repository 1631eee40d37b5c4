// The lines of sources that fail at each call in turn.
use crate::files::runs::{compact, lines_status};
use json_text::{FakeSource, VecSink};
use mezdruk_files::{NamedSource, Unchanged};
use std::alloc::Global;

const INPUT: &[u8] = b"1\nx\n3";

const NO_VALUE: &str = "f:2:1: a value is expected (InvalidJsonValue)\nx\n^\n";

const READ_FAILS: &str = "f: a read or a write failed (Io)\n";

const READ_FAILS_LATER: &str =
    "f:2:1: a value is expected (InvalidJsonValue)\nx\n^\nf: a read or a write failed (Io)\n";

// The call that fails, the status, the output and the reports.
struct Call {
    number: u64,
    status: u8,
    output: &'static str,
    reports: &'static str,
}

const READS: &[Call] = &[
    Call {
        number: 0,
        status: 4,
        output: "",
        reports: READ_FAILS,
    },
    Call {
        number: 1,
        status: 4,
        output: "",
        reports: READ_FAILS,
    },
    Call {
        number: 2,
        status: 4,
        output: "1\n",
        reports: READ_FAILS,
    },
    Call {
        number: 3,
        status: 4,
        output: "1\n",
        reports: READ_FAILS,
    },
    Call {
        number: 4,
        status: 4,
        output: "1\n",
        reports: READ_FAILS_LATER,
    },
    Call {
        number: 5,
        status: 4,
        output: "1\n",
        reports: READ_FAILS_LATER,
    },
    Call {
        number: 6,
        status: 1,
        output: "1\n3\n",
        reports: NO_VALUE,
    },
];

// Whether a run has the right result if this call of the source fails.
fn fails_at_read(alloc: Global, call: &Call) -> bool {
    let failing = [call.number];
    let source = FakeSource::new(INPUT, 1, &failing);
    let mut input = NamedSource { name: "f", source };
    let (mut sink, mut errs) = (VecSink::new(alloc), VecSink::new(alloc));
    let job = compact(Unchanged);
    let status = lines_status(alloc, &mut input, &job, &mut sink, &mut errs);
    status == call.status
        && sink.as_slice() == call.output.as_bytes()
        && errs.as_slice() == call.reports.as_bytes()
}

// The lines that ended are there when the next read comes. A line that did not end is not printed.
#[test]
fn a_source_that_fails_at_each_call(rt: HostRuntime) {
    for call in READS {
        let number = call.number;
        assert!(rt; fails_at_read(rt.alloc(), call), "{number}");
    }
}
