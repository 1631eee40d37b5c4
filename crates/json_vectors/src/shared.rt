// The results of calls that programs share.
use json_command::{
    BAD_WORDS, Status, option_number, print_value, read_argument, read_document_from, report,
    report_text, write_text,
};
use json_doc::Doc;
use json_print::Style;
use json_text::{Error, ErrorCode, FakeSink, FakeSource, Place, Result, Rules, Sink, VecSink};
use json_value::Value;
use std::alloc::Global;
use std::rc::Rc;

const FAILED_READ: Error = Error {
    code: ErrorCode::Io,
    place: Place::Reading,
};

const FAILED_WRITE: Error = Error {
    code: ErrorCode::Io,
    place: Place::Writing,
};

// Prints the value of a whole document, compact.
fn print<K: Sink>(alloc: Global, doc: &Rc<Doc>, sink: &mut K) -> Result<()> {
    let value = Value::from_place(alloc, doc, doc.root())?;
    match Style::new(None, false) {
        Some(style) => print_value(alloc, &value, style, sink),
        None => Err(BAD_WORDS),
    }
}

// Reads an input by the usual rules, two bytes a call, and prints its value compact. The read of
// this number fails.
fn copy<K: Sink>(alloc: Global, input: &[u8], failing: u64, sink: &mut K) -> Result<()> {
    let fail = [failing];
    let mut source = FakeSource::new(input, 2, &fail);
    let doc = read_document_from(alloc, &mut source, Rules::usual())?;
    print(alloc, &doc, sink)
}

// Whether a copy has this result and this output where this read fails.
fn copies(alloc: Global, input: &[u8], failing: u64, outcome: (Result<()>, &str)) -> bool {
    let mut sink = VecSink::new(alloc);
    let copied = copy(alloc, input, failing, &mut sink);
    copied == outcome.0 && sink.as_slice() == outcome.1.as_bytes()
}

// Whether a copy fails at the second call of a sink that takes three bytes a call, which then takes
// a text all the same.
fn fails_at_write(alloc: Global) -> bool {
    let mut sink = FakeSink::new(alloc, 3, &[1]);
    let copied = copy(alloc, b"[1, 2]", 9, &mut sink);
    let written = sink.as_slice() == b"[1,".as_slice();
    let later = write_text(&mut sink, b"ab");
    let both = sink.as_slice() == b"[1,ab".as_slice();
    copied == Err(FAILED_WRITE) && written && later == Ok(()) && both
}

#[test]
fn a_document_is_read_and_printed(rt: HostRuntime) {
    assert!(rt; copies(rt.alloc(), b" [1, 2.50]", 9, (Ok(()), "[1,2.50]")));
    assert!(rt; copies(rt.alloc(), b"[1]", 1, (Err(FAILED_READ), "")));
    assert!(rt; fails_at_write(rt.alloc()));
}

// Whether an argument is a text, or refused as no words.
fn is_read(alloc: Global, argument: &str) -> Option<bool> {
    match read_argument(alloc, argument) {
        Ok(_) => Some(true),
        Err(error) if error == BAD_WORDS => Some(false),
        Err(_) => None,
    }
}

const ARGUMENTS: [(&str, bool); 4] = [
    ("[\"a\",0]", true),
    (" null ", true),
    ("[", false),
    ("", false),
];

#[test]
fn an_argument_is_a_text_or_refused(rt: HostRuntime) {
    for (argument, is_text) in ARGUMENTS {
        assert!(rt;
            is_read(rt.alloc(), argument) == Some(is_text),
            "{argument}"
        );
    }
}

const NUMBERS: [(&str, Option<u32>); 9] = [
    ("--depth=0", Some(0)),
    ("--depth=1024", Some(1_024)),
    ("--depth=1025", None),
    ("--depth=18446744073709551616", None),
    ("--depth=01", None),
    ("--depth=+1", None),
    ("--depth=", None),
    ("--depth", None),
    ("--depths=1", None),
];

#[test]
fn a_number_is_plain_and_at_most_the_greatest(rt: HostRuntime) {
    for (option, number) in NUMBERS {
        assert!(rt;
            option_number(option, "--depth", 1_024) == number,
            "{option}"
        );
    }
}

fn at(code: ErrorCode, place: Place) -> Error {
    Error { code, place }
}

// Whether the error has this status, and the status this number.
fn has_status(error: &Error, status: Status, number: u8) -> bool {
    Status::of_error(error) == status && status.number() == number
}

// Whether an error and a text are reported as lines.
fn reports_lines(alloc: Global) -> bool {
    let mut errs = VecSink::new(alloc);
    report(&mut errs, &at(ErrorCode::NotFound, Place::Edit(3)));
    report_text(&mut errs, b"more\n");
    errs.as_slice() == b"NotFound in edit 3\nmore\n".as_slice()
}

#[test]
fn an_error_has_its_status_and_its_line(rt: HostRuntime) {
    for (error, status, number) in [
        (at(ErrorCode::NoMemory, Place::None), Status::OutOfMemory, 6),
        (FAILED_READ, Status::ReadFailed, 4),
        (FAILED_WRITE, Status::WriteFailed, 5),
        (BAD_WORDS, Status::InvalidArguments, 2),
        (
            at(ErrorCode::NotFound, Place::Edit(3)),
            Status::EditFailed,
            3,
        ),
        (
            at(ErrorCode::TypeUnmatched, Place::Edit(0)),
            Status::EditFailed,
            3,
        ),
        (
            at(ErrorCode::TooLarge, Place::None),
            Status::InvalidInput,
            1,
        ),
    ] {
        assert!(rt; has_status(&error, status, number), "{number}");
    }
    assert!(rt; reports_lines(rt.alloc()));
}
