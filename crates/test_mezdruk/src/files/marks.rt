// Byte order marks that are skipped.
use crate::files::runs::{Outcome, Row, comes_to, compact};
use json_text::Result;
use mezdruk_files::{Unchanged, skip_mark};
use std::alloc::Global;

const ROWS: &[Row] = &[
    Row {
        input: b"\xef\xbb\xbf{}",
        outcome: Outcome {
            output: b"{}\n",
            reports: b"",
            status: 0,
        },
    },
    Row {
        input: b"\xef\xbb\xbf[1,]",
        outcome: Outcome {
            output: b"",
            reports: b"f:1:7: a value is expected (InvalidJsonValue)\n   [1,]\n      ^\n\
                hint: JSON has no comma before a closing bracket\n",
            status: 1,
        },
    },
    Row {
        input: b"\xef\xbb\xbf\xef\xbb\xbf{}",
        outcome: Outcome {
            output: b"",
            reports: b"f:1:4: a value is expected (InvalidJsonValue)\n   \xef\xbb\xbf{}\n   ^\n",
            status: 1,
        },
    },
    Row {
        input: b"\xef\xbb\xbf",
        outcome: Outcome {
            output: b"",
            reports: b"f:1:4: the input ends before its value does (EofWhileParsing)\n   \n   ^\n\
                hint: the input has only whitespace\n",
            status: 1,
        },
    },
    Row {
        input: b"\xef\xbb{}",
        outcome: Outcome {
            output: b"",
            reports: b"f:1:1: the input is not UTF-8 (InvalidUTF8)\n\xef\xbb{}\n^\n",
            status: 1,
        },
    },
    Row {
        input: b"[\"\xef\xbb\xbf\"]",
        outcome: Outcome {
            output: b"[\"\xef\xbb\xbf\"]\n",
            reports: b"",
            status: 0,
        },
    },
];

// Whether a run over the bytes without their mark has the outcome of the row.
fn has_outcome(alloc: Global, row: &Row) -> Result<bool> {
    let mut bytes = row.input.to_vec(alloc)?;
    skip_mark(bytes.as_mut_slice());
    let input = bytes.as_slice();
    Ok(comes_to(alloc, &compact(Unchanged), input, &row.outcome))
}

fn all_have_outcomes(alloc: Global) -> Result<bool> {
    for row in ROWS {
        if !has_outcome(alloc, row)? {
            return Ok(false);
        }
    }
    Ok(true)
}

#[test]
fn no_row_differs(rt: HostRuntime) {
    assert!(rt; matches!(all_have_outcomes(rt.alloc()), Ok(true)));
}
