// Documents, one after another.
use crate::files::runs::{Named, Outcome, come_to, documents_of};
use json_print::Style;
use json_text::{Result, Rules};
use mezdruk_files::{Job, Unchanged};
use std::alloc::Global;

// Whether a run that prints documents in this style has this outcome.
fn hold(alloc: Global, all: &[Named], style: Option<Style<'_>>, to: &Outcome<'_>) -> Result<bool> {
    let documents = documents_of(alloc, all)?;
    let job = Job::new(Unchanged, style, Rules::usual());
    Ok(come_to(alloc, documents.as_slice(), &job, to))
}

// A style, and what is printed in it.
struct Styled {
    indent: Option<&'static str>,
    sorted: bool,
    output: &'static [u8],
}

const THREE: &[Named] = &[
    Named {
        name: "a",
        bytes: Some(b" [1, 2.50] "),
    },
    Named {
        name: "b",
        bytes: Some(b"{\"b\":1,\"a\":[]}"),
    },
    Named {
        name: "c",
        bytes: Some(b"null\n"),
    },
];

const STYLES: &[Styled] = &[
    Styled {
        indent: None,
        sorted: false,
        output: b"[1,2.50]\n{\"b\":1,\"a\":[]}\nnull\n",
    },
    Styled {
        indent: None,
        sorted: true,
        output: b"[1,2.50]\n{\"a\":[],\"b\":1}\nnull\n",
    },
    Styled {
        indent: Some(" "),
        sorted: false,
        output: b"[\n 1,\n 2.50\n]\n{\n \"b\": 1,\n \"a\": []\n}\nnull\n",
    },
];

// Whether the three documents are printed so in this style.
fn prints(alloc: Global, row: &Styled) -> bool {
    let outcome = Outcome {
        output: row.output,
        reports: b"",
        status: 0,
    };
    let style = Style::new(row.indent, row.sorted);
    matches!(hold(alloc, THREE, style, &outcome), Ok(true))
}

fn each_style_prints(alloc: Global) -> bool {
    for row in STYLES {
        if !prints(alloc, row) {
            return false;
        }
    }
    true
}

#[test]
fn each_text_with_a_newline_in_order(rt: HostRuntime) {
    assert!(rt; each_style_prints(rt.alloc()));
}

// Whether a run that prints documents compact has this outcome.
fn hold_compact(alloc: Global, all: &[Named], outcome: &Outcome<'_>) -> bool {
    let style = Style::new(None, false);
    matches!(hold(alloc, all, style, outcome), Ok(true))
}

const TWO_WRONG: &[Named] = &[
    Named {
        name: "a",
        bytes: Some(b"1"),
    },
    Named {
        name: "b",
        bytes: Some(b"[\n01]"),
    },
    Named {
        name: "c",
        bytes: Some(b"2"),
    },
    Named {
        name: "d",
        bytes: Some(b""),
    },
];

const TWO_REPORTED: Outcome<'static> = Outcome {
    output: b"1\n2\n",
    reports: b"b:2:2: the number is not complete or has a leading zero (InvalidNumber)\n\
        01]\n ^\nhint: a number has no leading zeros\n\
        d:1:1: the input ends before its value does (EofWhileParsing)\n\n^\n\
        hint: the input is empty\n",
    status: 1,
};

#[test]
fn a_document_with_an_error_keeps_the_others(rt: HostRuntime) {
    assert!(rt; hold_compact(rt.alloc(), TWO_WRONG, &TWO_REPORTED));
}

const NOTHING: Outcome<'static> = Outcome {
    output: b"",
    reports: b"",
    status: 0,
};

#[test]
fn no_documents(rt: HostRuntime) {
    assert!(rt; hold_compact(rt.alloc(), &[], &NOTHING));
}

const ONE_UNREAD: &[Named] = &[
    Named {
        name: "a",
        bytes: None,
    },
    Named {
        name: "b",
        bytes: Some(b"1"),
    },
];

const UNREAD_REPORTED: Outcome<'static> = Outcome {
    output: b"1\n",
    reports: b"a: a read or a write failed (Io)\n",
    status: 4,
};

#[test]
fn a_document_that_could_not_be_read(rt: HostRuntime) {
    assert!(rt; hold_compact(rt.alloc(), ONE_UNREAD, &UNREAD_REPORTED));
}

const TWO_OBJECTS: &[Named] = &[
    Named {
        name: "a",
        bytes: Some(b"{\"a\":1}"),
    },
    Named {
        name: "b",
        bytes: Some(b"{\"a\":1}"),
    },
];

#[test]
fn documents_that_are_only_checked(rt: HostRuntime) {
    assert!(rt; matches!(hold(rt.alloc(), TWO_OBJECTS, None, &NOTHING), Ok(true)));
}
