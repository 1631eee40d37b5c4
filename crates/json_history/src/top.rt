// The top call.
ghost use Rattle.std.specs.Prelude.{ℕ, List, ◌≡◌, ◌≢◌, ◌⊎◌, OnOk, IfErr};
ghost use Rattle.json_io.specs.Transfer.{TakesOneBeyond};
ghost use Rattle.json_io.specs.declared.error.ErrorCode.{ErrorCode};
ghost use Rattle.json_io.specs.declared.error.Place.{Place};
ghost use Rattle.json_model.specs.Edit.{EditRefusal};
ghost use Rattle.json_command.specs.Input.{max_bytes};
ghost use Rattle.json_command.specs.Printing.{ReturnsWriteError};
ghost use Rattle.json_command.specs.Reading.{ReturnsReadError};
ghost use Rattle.json_command.specs.Reporting.{StatusReports};
ghost use Rattle.json_history.specs.Calls.{edit_error};
ghost use Rattle.json_history.specs.History.{TreeCall};
ghost use Rattle.json_history.specs.Spelling.{AsksForCalls};
ghost use Rattle.json_history.specs.Replay.{Replays};
ghost use Rattle.json_history.specs.Run.{WithCalls, RunFails, RunSucceeds, RunReports, IsApplicable, IsInapplicable, IsInvalid};
ghost use Rattle.json_command.specs.Statuses.{ReturnsReadStatus, ReturnsWriteStatus};

use crate::arguments::requested_calls;
use crate::engine::replay;
use json_command::{Status, report};
use json_io::{Result, Sink, Source, Words};
use std::alloc::Global;

// Reads the input, makes the calls that the arguments ask for, and writes the value after them.
fn apply_calls<S: Source, K: Sink>(
    alloc: Global,
    arguments: &Words,
    source: &mut S,
    sink: &mut K,
) -> Result<()>
    ensures done { OnOk result (WithCalls arguments.now (λ cs. Replays cs
        (S.state source.old) (S.state source.new) (K.state sink.old) (K.state sink.new))) }
    ensures failed { IfErr result (λ e. RunFails arguments.now
        (S.state source.old) (S.state source.new)
        (K.state sink.old) (K.state sink.new) e.code e.place) }
    ensures taken { TakesOneBeyond max_bytes (S.state source.old) (S.state source.new) }
    ensures read_error { ReturnsReadError (S.state source.old) (S.state source.new) result }
    ensures write_error { ReturnsWriteError (K.state sink.old) (K.state sink.new) result }
{
    let calls = requested_calls(alloc, arguments)?;
    replay(alloc, source, sink, calls)
}

/// Runs the whole history program: reads a JSON text from `source`, makes the calls that
/// `arguments` ask for in turn, and writes the compact text of the value after them to `sink`.
///
/// There is one argument: the JSON text of an array whose elements are edits such as
/// `["push",[],1]`, `["undo"]` or `["redo"]`. An undo or a redo that finds nothing to undo or redo
/// changes nothing.
///
/// Returns the exit status:
///
/// - 0: all was done.
/// - 1: the input is not a JSON text of at most 254 levels, or has more than 4,294,967,295 bytes.
/// - 2: the arguments have another form.
/// - 3: an edit does not apply. Its number in the error is the index in the argument, counted from
///   0.
/// - 4: a read failed.
/// - 5: a write failed.
/// - 6: memory ran out.
///
/// On 1 to 6 the text of the error goes to `errs`. On 1 to 4 nothing was written to `sink`; on 5
/// and 6 it may have got a prefix of the text.
pub fn run_history<S: Source, K: Sink, E: Sink>(
    alloc: Global,
    arguments: &Words,
    source: &mut S,
    sink: &mut K,
    errs: &mut E,
) -> u8
    ensures done { result ≡ 0 → RunSucceeds arguments.now (S.state source.old) (S.state source.new)
        (K.state sink.old) (K.state sink.new) (E.state errs.old) (E.state errs.new) }
    ensures failed { result ≢ 0 → RunReports result arguments.now
        (S.state source.old) (S.state source.new)
        (K.state sink.old) (K.state sink.new) (E.state errs.old) (E.state errs.new) }
    ensures taken { TakesOneBeyond max_bytes (S.state source.old) (S.state source.new) }
    ensures read_error { ReturnsReadStatus (S.state source.old) (S.state source.new) result }
    ensures write_error { ReturnsWriteStatus (K.state sink.old) (K.state sink.new) result }
    ensures complete { IsApplicable arguments.now (S.state source.old) (S.state source.new)
        (K.state sink.old) (K.state sink.new) → (result ≡ 0) ⊎ (result ≡ 6) }
    ensures inapplicable { (number : ℕ) (why : EditRefusal)
        → IsInapplicable arguments.now (S.state source.old) (S.state source.new) number why
        → StatusReports 3 (edit_error number why) (E.state errs.old) (E.state errs.new) result }
    ensures exact { (code : ErrorCode) (place : Place)
        → IsInvalid arguments.now (S.state source.old) (S.state source.new) code place
        → StatusReports 1 (record { code = code; place = place })
        (E.state errs.old) (E.state errs.new) result }
    ensures arguments { ((cs : List TreeCall) → ¬ (AsksForCalls arguments.now cs)) → (result ≡ 2)
        ⊎ (result ≡ 6) }
{
    match apply_calls(alloc, arguments, source, sink) {
        Ok(()) => Status::Success.number(),
        Err(error) => {
            report(errs, &error);
            Status::of_error(&error).number()
        }
    }
}
