//! Applies a JSON Patch (RFC 6902) to the document of standard input, all of it or nothing, and
//! prints the document.
//!
//!     printf '{"a": 1}' | example_patch
#![tactic(auto)]

use mezdruk_json::patch::apply_patch;
use mezdruk_json::{
    Result, Sink, Source, StdSink, StdSource, Value, View, from_reader, from_str, to_writer,
};
use std::alloc::Global;
use std::process::ExitCode;

const PATCH: &str =
    r#"[{"op": "test", "path": "/a", "value": 1}, {"op": "add", "path": "/b", "value": [true]}]"#;

// The most operations of a patch.
const MAX_OPERATIONS: usize = 1_000;

// Returns whether the patch was applied; else the value is unchanged.
fn patch_value(alloc: Global, value: &mut Value, patch: View<'_>) -> bool {
    match patch.as_array() {
        Some(list) if list.len() <= MAX_OPERATIONS => apply_patch(alloc, value, patch).is_ok(),
        _ => false,
    }
}

// Returns whether the patch applies; then the new document was printed.
fn update<S: Source, K: Sink>(alloc: Global, source: &mut S, sink: &mut K) -> Result<bool> {
    let mut room = Vec::new(alloc);
    let mut value = from_reader::<S, Value>(alloc, source, &mut room)?;
    let patch = from_str::<Value>(alloc, PATCH)?;
    if !patch_value(alloc, &mut value, patch.view()) {
        return Ok(false);
    }
    to_writer(alloc, sink, &value)?;
    Ok(true)
}

fn main(rt: HostRuntime) -> ExitCode {
    let (mut source, mut sink) = (StdSource::new(rt.stdin()), StdSink::new(rt.stdout()));
    match update(rt.alloc(), &mut source, &mut sink) {
        Ok(true) => ExitCode::SUCCESS,
        Ok(false) => {
            let _ = eprintln!(rt; "the patch does not apply");
            ExitCode::FAILURE
        }
        Err(error) => {
            let _ = eprintln!(rt; "{error}");
            ExitCode::FAILURE
        }
    }
}
