//! The program `mezdruk rpc`: serves JSON-RPC 2.0 over one JSON document, from standard input to
//! standard output, a line each. `run_rpc` of the library `json_rpc` does all of it; what is here
//! hands it the arguments and the streams.
//!
//!     printf '{"jsonrpc":"2.0","method":"get","params":[[]],"id":1}' | mezdruk rpc
#![tactic(auto)]

use json_command::Console;
use json_rpc::run_rpc;
use mezdruk_help::{USAGE_RPC, report_unread};
use std::process::ExitCode;

fn main(rt: HostRuntime) -> ExitCode {
    let mut console = match Console::open(&rt, &USAGE_RPC.about) {
        Ok(console) => console,
        Err(status) => {
            report_unread(&rt, USAGE_RPC.program, status);
            return ExitCode::from(status.number());
        }
    };
    let (source, sink, errs) = (&mut console.source, &mut console.sink, &mut console.errs);
    let status = run_rpc(rt.alloc(), &console.arguments, source, sink, errs);
    USAGE_RPC.explain(rt.alloc(), &console.arguments, status, &mut console.errs);
    console.explain_failure(rt.alloc(), USAGE_RPC.program, status);
    ExitCode::from(status)
}
