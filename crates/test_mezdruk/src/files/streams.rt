// Documents that have values one after another.
use crate::files::runs::{Outcome, Row, all_print};
use mezdruk_files::InputForm;

const ROWS: &[Row] = &[
    Row {
        input: b"",
        outcome: Outcome {
            output: b"",
            reports: b"",
            status: 0,
        },
    },
    Row {
        input: b" \n",
        outcome: Outcome {
            output: b"",
            reports: b"",
            status: 0,
        },
    },
    Row {
        input: b"{}[1, 2]\n\"a\" 1 2\nnull",
        outcome: Outcome {
            output: b"{}\n[1,2]\n\"a\"\n1\n2\nnull\n",
            reports: b"",
            status: 0,
        },
    },
    Row {
        input: b"[1,\n2]\n[3,\n x]\n4",
        outcome: Outcome {
            output: b"[1,2]\n",
            reports: b"f:4:2: a value is expected (InvalidJsonValue)\n x]\n ^\n",
            status: 1,
        },
    },
    Row {
        input: b"1 [",
        outcome: Outcome {
            output: b"1\n",
            reports: b"f:1:4: the input ends before its value does (EofWhileParsing)\n1 [\n   ^\n",
            status: 1,
        },
    },
    Row {
        input: b"1 \"\xff\"",
        outcome: Outcome {
            output: b"",
            reports: b"f:1:4: the input is not UTF-8 (InvalidUTF8)\n1 \"\xff\"\n   ^\n",
            status: 1,
        },
    },
];

#[test]
fn no_row_differs(rt: HostRuntime) {
    assert!(rt; all_print(rt.alloc(), InputForm::Stream, ROWS));
}
