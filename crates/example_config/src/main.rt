//! Reads a configuration from standard input, changes two settings, and prints it indented. Numbers
//! and the order of the members stay as they were.
//!
//!     printf '{"port": 80, "ratio": 1.50}' | example_config
#![tactic(auto)]

use mezdruk_json::{
    Edit, Result, Sink, Source, StdSink, StdSource, Value, from_reader, from_str, to_writer_pretty,
};
use std::alloc::Global;
use std::process::ExitCode;

// The edits of this program, in the form that `reshape` takes too.
const EDITS: &str = r#"[["set", ["port"], 8080], ["insert", [], "tags", ["example"]]]"#;

fn change(alloc: Global, config: &mut Value) -> Result<()> {
    let edits = from_str::<Vec<Edit>>(alloc, EDITS)?;
    for edit in &edits {
        config.apply(alloc, edit)?;
    }
    Ok(())
}

fn update<S: Source, K: Sink>(alloc: Global, source: &mut S, sink: &mut K) -> Result<()> {
    let mut room = Vec::new(alloc);
    let mut config = from_reader::<S, Value>(alloc, source, &mut room)?;
    change(alloc, &mut config)?;
    to_writer_pretty(alloc, sink, &config)
}

fn main(rt: HostRuntime) -> ExitCode {
    let (mut source, mut sink) = (StdSource::new(rt.stdin()), StdSink::new(rt.stdout()));
    match update(rt.alloc(), &mut source, &mut sink) {
        Ok(()) => ExitCode::SUCCESS,
        Err(error) => {
            let _ = eprintln!(rt; "{error}");
            ExitCode::FAILURE
        }
    }
}
