//! The program `reshape`: reads a JSON text from standard input, edits its value as the arguments
//! ask, and writes the text of the edited tree to standard output. `run` of the library `reshape`
//! does all of it; what is here hands it the arguments and the streams.
//!
//!     printf '{"a": 1}' | reshape --pretty '[["set", ["a"], 2]]'
#![tactic(auto)]

use json_command::Console;
use mezdruk_help::{USAGE_RESHAPE, report_unread};
use reshape::run;
use std::process::ExitCode;

fn main(rt: HostRuntime) -> ExitCode {
    let mut console = match Console::open(&rt, &USAGE_RESHAPE.about) {
        Ok(console) => console,
        Err(status) => {
            report_unread(&rt, USAGE_RESHAPE.program, status);
            return ExitCode::from(status.number());
        }
    };
    let (source, sink, errs) = (&mut console.source, &mut console.sink, &mut console.errs);
    let status = run(rt.alloc(), &console.arguments, source, sink, errs);
    USAGE_RESHAPE.explain(rt.alloc(), &console.arguments, status, &mut console.errs);
    console.explain_failure(rt.alloc(), USAGE_RESHAPE.program, status);
    ExitCode::from(status)
}
