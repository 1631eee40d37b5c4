// What is said of `--help`, of `--version` and of invalid arguments.
use json_command::{About, Status};
use json_text::{FakeSink, Result, Sink, VecSink, Words};
use mezdruk_help::ABOUT_RESHAPE;
use std::alloc::Global;

// Returns the text that these arguments ask for.
fn text_asked(alloc: Global, about: &About, arguments: &[&str]) -> Result<Option<&'static str>> {
    let mut words = Words::new(alloc);
    for argument in arguments {
        words.push(argument)?;
    }
    Ok(about.text_asked(&words))
}

// Whether these arguments ask for a text that begins so, or for none.
fn asks_for(alloc: Global, arguments: &[&str], begins: Option<&str>) -> Result<bool> {
    let text = text_asked(alloc, &ABOUT_RESHAPE, arguments)?;
    Ok(match (text, begins) {
        (Some(text), Some(begins)) => text.starts_with(begins),
        (None, None) => true,
        _ => false,
    })
}

// An argument, and how the text begins that it alone asks for.
const ASKED: [(&str, Option<&str>); 4] = [
    ("--help", Some("reshape reads a JSON text")),
    (
        "--version",
        Some("reshape 0.1.0\nRattle logic dac8208d650f15bf\n"),
    ),
    ("--pretty", None),
    ("-help", None),
];

#[test]
fn help_and_version_stand_alone(rt: HostRuntime) {
    assert!(rt; matches!(asks_for(rt.alloc(), &[], None), Ok(true)));
    for (given, begins) in ASKED {
        assert!(rt;
            matches!(asks_for(rt.alloc(), &[given], begins), Ok(true)),
            "{given}"
        );
        assert!(rt;
            matches!(asks_for(rt.alloc(), &[given, "--tabs"], None), Ok(true)),
            "{given} beside another"
        );
    }
}

// Says the version, and returns whether it has this status.
fn says_version<K: Sink>(alloc: Global, sink: &mut K, status: Status) -> bool {
    let mut arguments = Words::new(alloc);
    let pushed = arguments.push("--version").is_ok();
    pushed && ABOUT_RESHAPE.say_asked(&arguments, sink) == Some(status)
}

fn writes_version(alloc: Global) -> bool {
    let mut sink = VecSink::new(alloc);
    let said = says_version(alloc, &mut sink, Status::Success);
    said && sink.as_slice() == b"reshape 0.1.0\nRattle logic dac8208d650f15bf\n".as_slice()
}

// Whether the status is that of writing where the second call of the sink fails.
fn fails_to_write_version(alloc: Global) -> bool {
    let mut sink = FakeSink::new(alloc, 2, &[1]);
    let said = says_version(alloc, &mut sink, Status::WriteFailed);
    said && sink.as_slice() == b"re".as_slice()
}

#[test]
fn the_version_is_written_or_its_status_is_that_of_writing(rt: HostRuntime) {
    assert!(rt; writes_version(rt.alloc()));
    assert!(rt; fails_to_write_version(rt.alloc()));
}

// Whether this is added to the errors after a run with this status.
fn adds(alloc: Global, status: u8, hint: &[u8]) -> bool {
    let mut errs = VecSink::new(alloc);
    ABOUT_RESHAPE.add_hint(status, &mut errs);
    errs.as_slice() == hint
}

#[test]
fn invalid_arguments_are_told_where_to_look(rt: HostRuntime) {
    for status in [0, 1, 3, 4, 5, 6] {
        assert!(rt; adds(rt.alloc(), status, b""), "{status}");
    }
    assert!(rt; adds(rt.alloc(), 2, b"Run `reshape --help` for usage.\n"));
}
