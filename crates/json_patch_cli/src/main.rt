//! The program `json_patch`: reads a JSON text from standard input, changes it by a patch, and
//! writes it to standard output. `run_patch` of the library `json_patch` does all of it; what is
//! here hands it the arguments and the streams, and says what is wrong with a patch that is no array
//! of operations.
//!
//!     printf '{"a": 1}' | json_patch --merge='{"b": 2}'
#![tactic(auto)]

mod bad_patch;

use crate::bad_patch::explain_bad_patch;
use json_command::Console;
use json_patch::run_patch;
use mezdruk_help::{USAGE_JSON_PATCH, report_unread};
use std::process::ExitCode;

fn main(rt: HostRuntime) -> ExitCode {
    let mut console = match Console::open(&rt, &USAGE_JSON_PATCH.about) {
        Ok(console) => console,
        Err(status) => {
            report_unread(&rt, USAGE_JSON_PATCH.program, status);
            return ExitCode::from(status.number());
        }
    };
    let (source, sink, errs) = (&mut console.source, &mut console.sink, &mut console.errs);
    let status = run_patch(rt.alloc(), &console.arguments, source, sink, errs);
    USAGE_JSON_PATCH.explain(rt.alloc(), &console.arguments, status, &mut console.errs);
    explain_bad_patch(rt.alloc(), &console.arguments, status, &mut console.errs);
    console.explain_failure(rt.alloc(), USAGE_JSON_PATCH.program, status);
    ExitCode::from(status)
}
