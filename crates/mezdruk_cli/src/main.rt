//! The program `mezdruk`: lays out, checks, reads and edits JSON documents in files. The arguments
//! are read by `mezdruk_arguments`, and documents in memory are changed and printed by `mezdruk_files`;
//! what is here opens files, reads them, and writes them in place. Where the first argument names
//! another program, `mezdruk_programs` runs that one on the arguments after it; `rpc` over the
//! document of a file is here.
//!
//!     mezdruk set -i /version --string 1.3.0 package.json
#![tactic(auto)]

mod changes;
mod color;
mod compare;
mod files;
mod in_place;
mod inlet;
mod missing;
mod outlet;
mod progress;
mod query;
mod rpc;
mod rpc_options;
mod run;

use crate::run::run;
use json_command::Console;
use mezdruk_help::{ABOUT_MEZDRUK, report_unread};
use std::process::ExitCode;

fn main(rt: HostRuntime) -> ExitCode {
    let mut console = match Console::open(&rt, &ABOUT_MEZDRUK) {
        Ok(console) => console,
        Err(status) => {
            report_unread(&rt, "mezdruk", status);
            return ExitCode::from(status.number());
        }
    };
    ExitCode::from(run(&rt, &mut console))
}
