// The top call.
ghost use Rattle.std.specs.Prelude.{◌≡◌, ◌≢◌, ◌⊎◌, ◌<◌, ℕ, Option, IsErrOf, string_bytes, OnOk, IfOk, IfErr};
ghost use Rattle.json_io.specs.Errors.{reading_failed, writing_failed, OnlyNoMemory};
ghost use Rattle.json_io.specs.Transfer.{TakesOneBeyond};
ghost use Rattle.json_io.specs.declared.error.ErrorCode.{ErrorCode};
ghost use Rattle.json_io.specs.declared.error.Place.{Place};
ghost use Rattle.json_command.specs.Input.{max_bytes};
ghost use Rattle.json_command.specs.Reporting.{StatusReports};
ghost use Rattle.json_command.specs.Statuses.{status_of, ReturnsReadStatus, ReturnsWriteStatus};
ghost use Rattle.json_patch.specs.Patch.{PatchFailure};
ghost use Rattle.json_patch.specs.Commands.{WithRequest, IsRequest, WritesOutcome, PatchRunFails, PatchSucceeds, ReportsPatchError, ReportsOr, IsFit, IsUnpatchable, IsFaulty, StatusReportsText, patch_status, patch_text, code_of_failure};

use crate::command::{CommandError, read_command, transfer};
use crate::error::{PatchCode, PatchError};
use json_command::{Status, report, report_text};
use json_io::{Error, Result as TextResult, Sink, Source, Words};
use std::alloc::Global;

// Returns the line of an error of a patch.
fn text_of_patch(alloc: Global, error: &PatchError) -> TextResult<String>
    ensures ok { IfOk result (λ s. string_bytes s ≡ patch_text error.now.code error.now.op) }
    ensures only { OnlyNoMemory result }
{
    let mut text = error.describe(alloc)?;
    text.push_str("\n")?;
    Ok(text)
}

// Returns the number of the status of an error of a patch.
fn status_of_patch(code: PatchCode) -> u8
    ensures { result ≡ patch_status code }
{
    match code {
        PatchCode::NoMemory => Status::OutOfMemory.number(),
        _ => Status::EditFailed.number(),
    }
}

// Returns the number of the status of an error.
fn status(error: &Error) -> u8
    ensures { result ≡ status_of error.now.code error.now.place }
{
    Status::of_error(error).number()
}

// Does what the arguments ask for.
fn perform_command<S: Source, K: Sink>(
    alloc: Global,
    arguments: &Words,
    source: &mut S,
    sink: &mut K,
) -> Result<(), CommandError>
    ensures done { OnOk result (WithRequest arguments.now (λ r. WritesOutcome r
        (S.state source.old) (S.state source.new) (K.state sink.old) (K.state sink.new))) }
    ensures refused { IfErr result
        (PatchRunFails arguments.now (S.state source.old) (S.state source.new)
        (K.state sink.old) (K.state sink.new)) }
    ensures taken { TakesOneBeyond max_bytes (S.state source.old) (S.state source.new) }
    ensures read_error { (S.state source.old).faults < (S.state source.new).faults
        → IsErrOf result (CommandError.Transfer reading_failed) }
    ensures write_error { (K.state sink.old).faults < (K.state sink.new).faults
        → IsErrOf result (CommandError.Transfer writing_failed) }
{
    let command = read_command(alloc, arguments)?;
    transfer(alloc, source, sink, &command)
}

// Reports an error of a patch and returns its status; or that memory ran out for its text.
fn report_patch<E: Sink>(alloc: Global, errs: &mut E, error: PatchError) -> u8
    ensures { ReportsOr (patch_status error.code) (patch_text error.code error.op)
        (E.state errs.old) (E.state errs.new) result }
{
    match text_of_patch(alloc, &error) {
        Ok(text) => {
            report_text(errs, text.as_str().as_bytes());
            status_of_patch(error.code)
        }
        Err(error) => {
            report(errs, &error);
            status(&error)
        }
    }
}

/// Runs the whole patch program: reads a JSON text from `source`, patches its value, and writes the
/// compact text of the result to `sink`.
///
/// `arguments` has one argument: `--patch=TEXT`, where TEXT is a JSON Patch (RFC 6902), or
/// `--merge=TEXT`, where it is a JSON Merge Patch (RFC 7396). Neither the patch nor the input may
/// have more than 254 levels of arrays and objects.
///
/// Returns the exit status:
///
/// - 0: all was done.
/// - 1: the input is not valid, or has more than 4,294,967,295 bytes.
/// - 2: the arguments have another form.
/// - 3: the patch does not apply.
/// - 4: a read failed.
/// - 5: a write failed.
/// - 6: memory ran out.
///
/// On 1 to 6 one line about the error goes to `errs`. On 1 to 4 nothing was written to `sink`; on 5
/// and 6 it may have got a prefix of the text.
///
/// ```
/// use json_patch::run_patch;
/// use json_text::{SliceSource, VecSink, Words};
/// let mut arguments = Words::new(alloc);
/// arguments.push("--merge={\"a\": null}")?;
/// let mut source = SliceSource::new(b"{\"a\": 1, \"b\": 2}");
/// let (mut sink, mut errs) = (VecSink::new(alloc), VecSink::new(alloc));
/// assert_eq!(rt; run_patch(alloc, &arguments, &mut source, &mut sink, &mut errs), 0);
/// assert_eq!(rt; sink.as_slice(), b"{\"b\":2}".as_slice());
/// ```
pub fn run_patch<S: Source, K: Sink, E: Sink>(
    alloc: Global,
    arguments: &Words,
    source: &mut S,
    sink: &mut K,
    errs: &mut E,
) -> u8
    ensures done { result ≡ 0
        → PatchSucceeds arguments.now (S.state source.old) (S.state source.new)
        (K.state sink.old) (K.state sink.new) (E.state errs.old) (E.state errs.new) }
    ensures refused { result ≢ 0 → ReportsPatchError result arguments.now
        (S.state source.old) (S.state source.new)
        (K.state sink.old) (K.state sink.new) (E.state errs.old) (E.state errs.new) }
    ensures taken { TakesOneBeyond max_bytes (S.state source.old) (S.state source.new) }
    ensures read_error { ReturnsReadStatus (S.state source.old) (S.state source.new) result }
    ensures write_error { ReturnsWriteStatus (K.state sink.old) (K.state sink.new) result }
    ensures complete { IsFit arguments.now (S.state source.old) (S.state source.new)
        (K.state sink.old) (K.state sink.new) → (result ≡ 0) ⊎ (result ≡ 6) }
    ensures exact { (code : ErrorCode) (place : Place)
        → IsFaulty arguments.now (S.state source.old) (S.state source.new) code place
        → StatusReports 1 (record { code = code; place = place })
        (E.state errs.old) (E.state errs.new) result }
    ensures unfit { (failure : PatchFailure) (op : Option ℕ)
        → IsUnpatchable arguments.now (S.state source.old) (S.state source.new) failure op
        → StatusReportsText 3 (patch_text (code_of_failure failure) op)
        (E.state errs.old) (E.state errs.new) result }
    ensures words { ¬ (IsRequest arguments.now) → (result ≡ 2) ⊎ (result ≡ 6) }
{
    match perform_command(alloc, arguments, source, sink) {
        Ok(()) => 0,
        Err(CommandError::Transfer(error)) => {
            report(errs, &error);
            status(&error)
        }
        Err(CommandError::Patch(error)) => report_patch(alloc, errs, error),
    }
}
