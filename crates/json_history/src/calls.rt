// Calls of a history in turn.
ghost use Rattle.std.specs.Prelude.{◌≡◌, ◌<◌, ◌^◌, length, map, Ok, OnOk, OnErr, IfErr};
ghost use Rattle.json_value.specs.Edits.{FailsAs};
ghost use Rattle.json_history.specs.Calls.{call_of, CallsFail, MakesFirstCalls, numbered_place};
ghost use Rattle.json_history.specs.LogOfHistory.{log_of};
ghost use Rattle.json_history.specs.History.{history_of, run_call, run_calls_from};

use crate::call::Call;
use crate::history::History;
use json_io::{Error, ErrorCode, Place, Result};
use std::alloc::Global;

// One call.
fn make_call(alloc: Global, history: &mut History, call: Call) -> Result<()>
    ensures ok { OnOk result (run_call (history_of (log_of history.old)) (call_of call)
        ≡ Ok (history_of (log_of history.new))) }
    ensures kept { OnErr result (log_of history.new ≡ log_of history.old) }
    ensures refused { FailsAs (run_call (history_of (log_of history.old)) (call_of call))
        result }
{
    match call {
        Call::Edit(edit) => history.apply(alloc, edit),
        Call::Undo => match history.undo(alloc) {
            Ok(_) => Ok(()),
            Err(error) => Err(error),
        },
        Call::Redo => match history.redo(alloc) {
            Ok(_) => Ok(()),
            Err(error) => Err(error),
        },
    }
}

// The error of one call, with its number. `NoMemory` has no place.
fn error_at_call(error: Error, number: u32) -> Error
    ensures code { result.code ≡ error.code }
    ensures place { result.place ≡ numbered_place error.code error.place number }
{
    match error.code {
        ErrorCode::NoMemory => error,
        code => Error {
            code,
            place: Place::Edit(number),
        },
    }
}

/// Makes the calls on `history` in turn, up to the first one that fails. There must be fewer than
/// 2^32 calls. An undo or a redo that finds nothing to undo or redo does not fail.
///
/// Fails with `NotFound` or `TypeUnmatched` at the first edit that does not apply. The error's
/// place is `Place::Edit` with the index of that edit in `calls`, counted from 0. Fails with
/// `NoMemory`, without a place, if memory runs out. After an error the calls before the failed one
/// stay made, and the others are not made.
pub fn make_calls(alloc: Global, history: &mut History, calls: Vec<Call>) -> Result<()>
    requires few { length calls.items < 2 ^ 32 }
    ensures ok { OnOk result
        (run_calls_from 0 (history_of (log_of history.old)) (map call_of calls.items)
        ≡ Ok (history_of (log_of history.new))) }
    ensures refused { IfErr result (λ e. CallsFail (history_of (log_of history.old))
        (map call_of calls.items) e.code e.place) }
    ensures made { IfErr result (λ e. MakesFirstCalls (history_of (log_of history.old))
        (history_of (log_of history.new)) (map call_of calls.items) e.place) }
{
    let mut number = 0;
    for call in calls {
        match make_call(alloc, history, call) {
            Ok(()) => number += 1,
            Err(error) => return Err(error_at_call(error, number)),
        }
    }
    Ok(())
}
