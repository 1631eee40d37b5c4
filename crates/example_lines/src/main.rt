//! Reads JSON Lines from standard input, and prints the sum of the numbers at `bytes`. A line
//! without such a number counts as 0, and a line that is no JSON text is an error.
//!
//!     printf '{"bytes": 1}\n{"bytes": 41}\n' | example_lines
#![tactic(auto)]

use mezdruk_json::{
    JsonValueTrait, Result, Source, StdSource, Value, check_utf8, from_str, read_all,
};
use std::alloc::Global;
use std::process::ExitCode;

// The most bytes that are read.
const MAX_BYTES: usize = 100_000_000;

fn bytes_of(alloc: Global, line: &str) -> Result<u64> {
    let value = from_str::<Value>(alloc, line)?;
    Ok(value.at("bytes").as_u64().unwrap_or(0))
}

fn sum<S: Source>(alloc: Global, source: &mut S) -> Result<u64> {
    let bytes = read_all(alloc, source, MAX_BYTES)?;
    let text = check_utf8(&bytes)?;
    let mut total = 0u64;
    for line in text.lines() {
        total = total.saturating_add(bytes_of(alloc, line)?);
    }
    Ok(total)
}

fn main(rt: HostRuntime) -> ExitCode {
    let mut source = StdSource::new(rt.stdin());
    match sum(rt.alloc(), &mut source) {
        Ok(total) => match println!(rt; "{total}") {
            Ok(()) => ExitCode::SUCCESS,
            Err(_) => ExitCode::FAILURE,
        },
        Err(error) => {
            let _ = eprintln!(rt; "{error}");
            ExitCode::FAILURE
        }
    }
}
