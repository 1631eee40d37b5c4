//! The program `mezdruk lines`: filters JSON Lines from standard input to rows of cells on standard
//! output. `run_lines` of the library `json_lines` does all of it; what is here hands it the
//! arguments and the streams.
//!
//!     printf '{"a":1}\n{"a":2}\n' | mezdruk lines '[[["a"],"int"]]'
#![tactic(auto)]

use json_command::Console;
use json_lines::run_lines;
use mezdruk_help::{USAGE_LINES, report_unread};
use std::process::ExitCode;

fn main(rt: HostRuntime) -> ExitCode {
    let mut console = match Console::open(&rt, &USAGE_LINES.about) {
        Ok(console) => console,
        Err(status) => {
            report_unread(&rt, USAGE_LINES.program, status);
            return ExitCode::from(status.number());
        }
    };
    let (source, sink, errs) = (&mut console.source, &mut console.sink, &mut console.errs);
    let status = run_lines(rt.alloc(), &console.arguments, source, sink, errs);
    USAGE_LINES.explain(rt.alloc(), &console.arguments, status, &mut console.errs);
    console.explain_failure(rt.alloc(), USAGE_LINES.program, status);
    ExitCode::from(status)
}
