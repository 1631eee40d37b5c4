// The top call.
ghost use Rattle.std.specs.Prelude.{ℕ, ◌≡◌, ◌≢◌, ◌⊎◌, OnOk, IfErr};
ghost use Rattle.json_io.specs.declared.error.ErrorCode.{ErrorCode};
ghost use Rattle.json_io.specs.declared.error.Place.{Place};
ghost use Rattle.json_io.specs.Transfer.{TakesOneBeyond};
ghost use Rattle.json_command.specs.Input.{max_bytes};
ghost use Rattle.json_model.specs.Edit.{EditRefusal};
ghost use Rattle.reshape.specs.Options.{IsAsked, IsMaking};
ghost use Rattle.json_command.specs.Printing.{ReturnsWriteError};
ghost use Rattle.json_command.specs.Reading.{ReturnsReadError};
ghost use Rattle.json_command.specs.Reporting.{StatusReports};
ghost use Rattle.reshape.specs.Run.{WritesRequested, Fails, Done, ReportsRunError, IsGood, IsBad, IsUnfit};
ghost use Rattle.reshape.specs.Known.{edit_refused};
ghost use Rattle.json_command.specs.Statuses.{ReturnsReadStatus, ReturnsWriteStatus};

use crate::command::Asked;
use crate::made::write_summary;
use crate::reshape_with;
use crate::words::asked;
use json_command::{Status, report};
use json_io::{Result, Sink, Source, Words};
use std::alloc::Global;

fn carry_out<S: Source, K: Sink>(
    alloc: Global,
    words: &Words,
    source: &mut S,
    sink: &mut K,
) -> Result<()>
    ensures done { OnOk result (WritesRequested words.now (S.state source.old) (S.state source.new)
        (K.state sink.old) (K.state sink.new)) }
    ensures unread { IsMaking words.now → S.state source.new ≡ S.state source.old }
    ensures refused { IfErr result (λ e. Fails words.now (S.state source.old) (S.state source.new)
        (K.state sink.old) (K.state sink.new) e.code e.place) }
    ensures taken { TakesOneBeyond max_bytes (S.state source.old) (S.state source.new) }
    ensures read_error { ReturnsReadError (S.state source.old) (S.state source.new) result }
    ensures write_error { ReturnsWriteError (K.state sink.old) (K.state sink.new) result }
{
    let asked = asked(alloc, words)?;
    match asked {
        Asked::Made(records) => write_summary(alloc, records, sink),
        Asked::Reshape(_, _) => {
            let rules = asked.rules();
            reshape_with(alloc, source, sink, asked.edits(), asked.style(), rules)
        }
    }
}

/// Does all that the program `reshape` does with these arguments, and returns its status: reads a
/// JSON text from `source`, edits its value, and writes the text of the edited value to `sink`.
/// [`asked`] explains the arguments, `words`.
///
/// The status is:
///
/// - 0 if all is done,
/// - 1 if the input is not valid,
/// - 2 if the arguments are not valid,
/// - 3 if an edit does not apply,
/// - 4 if reading failed,
/// - 5 if writing failed,
/// - 6 if memory ran out.
///
/// If it is not 0, the error is written to `errs`. With `--make=N`, which asks for a summary of
/// generated input, nothing is read from `source`.
pub fn run<S: Source, K: Sink, E: Sink>(
    alloc: Global,
    words: &Words,
    source: &mut S,
    sink: &mut K,
    errs: &mut E,
) -> u8
    ensures done { result ≡ 0 → Done words.now (S.state source.old) (S.state source.new)
        (K.state sink.old) (K.state sink.new) (E.state errs.old) (E.state errs.new) }
    ensures refused { result ≢ 0 → ReportsRunError result words.now
        (S.state source.old) (S.state source.new)
        (K.state sink.old) (K.state sink.new) (E.state errs.old) (E.state errs.new) }
    ensures taken { TakesOneBeyond max_bytes (S.state source.old) (S.state source.new) }
    ensures read_error { ReturnsReadStatus (S.state source.old) (S.state source.new) result }
    ensures write_error { ReturnsWriteStatus (K.state sink.old) (K.state sink.new) result }
    ensures complete { IsGood words.now (S.state source.old) (S.state source.new)
        (K.state sink.old) (K.state sink.new) → (result ≡ 0) ⊎ (result ≡ 6) }
    ensures unfit { (number : ℕ) (why : EditRefusal)
        → IsUnfit words.now (S.state source.old) (S.state source.new) number why
        → StatusReports 3 (edit_refused number why) (E.state errs.old) (E.state errs.new) result }
    ensures unread { IsMaking words.now → S.state source.new ≡ S.state source.old }
    ensures made { IsMaking words.now → (result ≡ 0) ⊎ (result ≡ 5) ⊎ (result ≡ 6) }
    ensures words { ¬ (IsAsked words.now) → (result ≡ 2) ⊎ (result ≡ 6) }
    ensures exact { (code : ErrorCode) (place : Place)
        → IsBad words.now (S.state source.old) (S.state source.new) code place
        → StatusReports 1 (record { code = code; place = place })
        (E.state errs.old) (E.state errs.new) result }
{
    match carry_out(alloc, words, source, sink) {
        Ok(()) => Status::Success.number(),
        Err(error) => {
            report(errs, &error);
            Status::of_error(&error).number()
        }
    }
}
