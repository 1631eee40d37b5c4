// Sinks that fail at each call in turn.
use crate::files::runs::{Named, compact, documents_of, status_of};
use json_text::{FakeSink, Result, Sink, VecSink};
use mezdruk_files::{NamedDocument, Unchanged};
use std::alloc::Global;

const REPORT: &str = "b:1:1: a value is expected (InvalidJsonValue)\nx\n^\n";

const WRITE_FAILS: &str = "Io while writing\n";

const REPORTED: &str = "b:1:1: a value is expected (InvalidJsonValue)\nx\n^\nIo while writing\n";

const THREE: &[Named] = &[
    Named {
        name: "a",
        bytes: Some(b"1"),
    },
    Named {
        name: "b",
        bytes: Some(b"x"),
    },
    Named {
        name: "c",
        bytes: Some(b"2"),
    },
];

const FOUR: &[Named] = &[
    Named {
        name: "a",
        bytes: Some(b"1"),
    },
    Named {
        name: "b",
        bytes: Some(b"x"),
    },
    Named {
        name: "b",
        bytes: Some(b"x"),
    },
    Named {
        name: "c",
        bytes: Some(b"2"),
    },
];

// The status of a run that prints documents compact.
fn print<K: Sink, E: Sink>(
    alloc: Global,
    documents: &[NamedDocument],
    sink: &mut K,
    errs: &mut E,
) -> u8 {
    status_of(alloc, documents, &compact(Unchanged), sink, errs)
}

// The call of the sink that fails, the status, the output and the reports.
struct Write {
    call: u64,
    status: u8,
    output: &'static str,
    reports: &'static str,
}

const WRITES: &[Write] = &[
    Write {
        call: 0,
        status: 5,
        output: "",
        reports: WRITE_FAILS,
    },
    Write {
        call: 1,
        status: 5,
        output: "1",
        reports: WRITE_FAILS,
    },
    Write {
        call: 2,
        status: 5,
        output: "1",
        reports: WRITE_FAILS,
    },
    Write {
        call: 3,
        status: 5,
        output: "1\n",
        reports: WRITE_FAILS,
    },
    Write {
        call: 4,
        status: 5,
        output: "1\n",
        reports: REPORTED,
    },
    Write {
        call: 5,
        status: 5,
        output: "1\n2",
        reports: REPORTED,
    },
    Write {
        call: 6,
        status: 5,
        output: "1\n2",
        reports: REPORTED,
    },
    Write {
        call: 7,
        status: 5,
        output: "1\n2\n",
        reports: REPORTED,
    },
    Write {
        call: 8,
        status: 1,
        output: "1\n2\n",
        reports: REPORT,
    },
];

// Whether the sink gained this text.
fn is_written(sink: &FakeSink<'_>, text: &str) -> bool {
    sink.as_slice() == text.as_bytes()
}

// Whether a run has the right result where this call of the sink fails.
fn fails_at_write(alloc: Global, documents: &[NamedDocument], row: &Write) -> bool {
    let failing = [row.call];
    let mut sink = FakeSink::new(alloc, 1, &failing);
    let mut errs = VecSink::new(alloc);
    let status = print(alloc, documents, &mut sink, &mut errs);
    let is_reported = errs.as_slice() == row.reports.as_bytes();
    status == row.status && is_written(&sink, row.output) && is_reported
}

fn each_write_fails(alloc: Global) -> Result<bool> {
    let documents = documents_of(alloc, THREE)?;
    for row in WRITES {
        if !fails_at_write(alloc, documents.as_slice(), row) {
            return Ok(false);
        }
    }
    Ok(true)
}

// A document of one byte is a write and a flush, and so is its newline.
#[test]
fn a_sink_that_fails_at_each_call(rt: HostRuntime) {
    assert!(rt; matches!(each_write_fails(rt.alloc()), Ok(true)));
}

// Whether a run has the right result where this call of the sink of errors fails.
fn fails_at_report(alloc: Global, documents: &[NamedDocument], call: u64) -> bool {
    let failing = [call];
    let mut sink = VecSink::new(alloc);
    let mut errs = FakeSink::new(alloc, 1, &failing);
    let status = print(alloc, documents, &mut sink, &mut errs);
    let is_front = Some(errs.as_slice()) == REPORT.as_bytes().get(..call as usize);
    status == 1 && sink.as_slice() == b"1\n2\n".as_slice() && is_front
}

fn each_report_fails(alloc: Global) -> Result<bool> {
    let documents = documents_of(alloc, FOUR)?;
    for call in 0..50 {
        if !fails_at_report(alloc, documents.as_slice(), call) {
            return Ok(false);
        }
    }
    Ok(true)
}

// All documents are printed all the same; after a failed report no other is made.
#[test]
fn a_sink_of_errors_that_fails_at_each_call(rt: HostRuntime) {
    assert!(rt; matches!(each_report_fails(rt.alloc()), Ok(true)));
}
