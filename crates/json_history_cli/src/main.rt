//! The program `mezdruk history`: reads a JSON text from standard input, makes the edits, undos and
//! redos that its argument asks for, and writes the text of the value after them to standard
//! output. `run_history` of the library `json_history` does all of it; what is here hands it the
//! arguments and the streams.
//!
//!     printf '[0]' | mezdruk history '[["push", [], 1], ["undo"], ["redo"]]'
#![tactic(auto)]

use json_command::Console;
use json_history::run_history;
use mezdruk_help::{USAGE_HISTORY, report_unread};
use std::process::ExitCode;

fn main(rt: HostRuntime) -> ExitCode {
    let mut console = match Console::open(&rt, &USAGE_HISTORY.about) {
        Ok(console) => console,
        Err(status) => {
            report_unread(&rt, USAGE_HISTORY.program, status);
            return ExitCode::from(status.number());
        }
    };
    let (source, sink, errs) = (&mut console.source, &mut console.sink, &mut console.errs);
    let status = run_history(rt.alloc(), &console.arguments, source, sink, errs);
    USAGE_HISTORY.explain(rt.alloc(), &console.arguments, status, &mut console.errs);
    console.explain_failure(rt.alloc(), USAGE_HISTORY.program, status);
    ExitCode::from(status)
}
