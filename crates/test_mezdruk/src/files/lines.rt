// Documents that have a JSON text on each line.
use crate::files::runs::{Outcome, Row, all_lines_print, all_print};
use mezdruk_files::InputForm;

const ROWS: &[Row] = &[
    Row {
        input: b"",
        outcome: Outcome {
            output: b"",
            reports: b"",
            status: 0,
        },
    },
    Row {
        input: b"\n \t\r\n",
        outcome: Outcome {
            output: b"",
            reports: b"",
            status: 0,
        },
    },
    Row {
        input: b" 1 \n[2,\t3]",
        outcome: Outcome {
            output: b"1\n[2,3]\n",
            reports: b"",
            status: 0,
        },
    },
    // Scalars: numbers stay as they were written, and strings get the escapes that they need.
    Row {
        input: b"null\ntrue\nfalse\n-7\n18446744073709551615\n1e400\n2.50\n\
            \"\\u0061\\/\\n\\\"\"\n\"\"\n",
        outcome: Outcome {
            output: b"null\ntrue\nfalse\n-7\n18446744073709551615\n1e400\n2.50\n\
            \"a/\\n\\\"\"\n\"\"\n",
            reports: b"",
            status: 0,
        },
    },
    Row {
        input: b"1\r\n2\r\n",
        outcome: Outcome {
            output: b"1\n2\n",
            reports: b"",
            status: 0,
        },
    },
    Row {
        input: b"{\"a\":1}\n[1 2]\n\n3\n",
        outcome: Outcome {
            output: b"{\"a\":1}\n3\n",
            reports: b"f:2:4: a comma or `]` is expected after the element \
                (ExpectedArrayCommaOrEnd)\n[1 2]\n   ^\n",
            status: 1,
        },
    },
    Row {
        input: b"1 2\n",
        outcome: Outcome {
            output: b"",
            reports: b"f:1:3: only whitespace may follow the value (TrailingCharacters)\n\
                1 2\n  ^\nhint: `--stream` reads documents one after another\n",
            status: 1,
        },
    },
    Row {
        input: b"[1,\n2]\n",
        outcome: Outcome {
            output: b"",
            reports: b"f:1:4: the input ends before its value does (EofWhileParsing)\n[1,\n   ^\n\
                f:2:2: only whitespace may follow the value (TrailingCharacters)\n2]\n ^\n",
            status: 1,
        },
    },
    Row {
        input: b"\"\xff\"\n\"\xc3\xa9\"",
        outcome: Outcome {
            output: b"\"\xc3\xa9\"\n",
            reports: b"f:1:2: the input is not UTF-8 (InvalidUTF8)\n\"\xff\"\n ^\n",
            status: 1,
        },
    },
];

#[test]
fn no_row_differs(rt: HostRuntime) {
    assert!(rt; all_print(rt.alloc(), InputForm::Lines, ROWS));
}

#[test]
fn no_row_of_a_source_differs(rt: HostRuntime) {
    for at_once in [65_536, 3, 1] {
        assert!(rt; all_lines_print(rt.alloc(), at_once, ROWS), "{at_once}");
    }
}
