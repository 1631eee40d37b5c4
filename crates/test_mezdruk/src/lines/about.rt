// What is said of `--help`, of `--version` and of invalid arguments.
use json_command::About;
use json_text::{Result, VecSink, Words};
use mezdruk_help::ABOUT_LINES;
use std::alloc::Global;

// Returns the text that an argument asks for.
fn text_asked(alloc: Global, about: &About, argument: &str) -> Result<Option<&'static str>> {
    let mut arguments = Words::new(alloc);
    arguments.push(argument)?;
    Ok(about.text_asked(&arguments))
}

// Whether an argument asks for a text that begins so, or for none.
fn asks_for(alloc: Global, argument: &str, begins: Option<&str>) -> Result<bool> {
    let text = text_asked(alloc, &ABOUT_LINES, argument)?;
    Ok(match (text, begins) {
        (Some(text), Some(begins)) => text.starts_with(begins),
        (None, None) => true,
        _ => false,
    })
}

// An argument, and how the text begins that it alone asks for.
const ASKED: [(&str, Option<&str>); 4] = [
    ("--help", Some("mezdruk lines reads JSON Lines")),
    (
        "--version",
        Some("mezdruk lines 0.1.0\nRattle logic dac8208d650f15bf\n"),
    ),
    ("--has=[]", None),
    ("-help", None),
];

#[test]
fn help_and_version_stand_alone(rt: HostRuntime) {
    for (given, begins) in ASKED {
        assert!(rt;
            matches!(asks_for(rt.alloc(), given, begins), Ok(true)),
            "{given}"
        );
    }
}

// Whether this is added to the errors after a run with this status.
fn adds(alloc: Global, status: u8, hint: &[u8]) -> bool {
    let mut errs = VecSink::new(alloc);
    ABOUT_LINES.add_hint(status, &mut errs);
    errs.as_slice() == hint
}

#[test]
fn invalid_arguments_are_told_where_to_look(rt: HostRuntime) {
    assert!(rt; adds(rt.alloc(), 1, b""));
    assert!(rt; adds(rt.alloc(), 2, b"Run `mezdruk lines --help` for usage.\n"));
}
