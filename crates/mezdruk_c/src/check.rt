// Whether a text is JSON.
ghost use Rattle.std.specs.Prelude.{◌≡◌, ◌≢◌, ◌⊎◌, OnOk, IfErr};
ghost use Rattle.json_command.specs.Input.{IsValid, InputFault};
ghost use Rattle.json_io.specs.declared.error.ErrorCode.{ErrorCode};
ghost use Rattle.json_io.specs.declared.error.Place.{Place};
ghost use Rattle.json_io.specs.Errors.{number_of};
ghost use Rattle.mezdruk_c.specs.Asked.{HasRules, rules_of_options};
ghost use Rattle.mezdruk_c.specs.Checking.{CheckFails};
ghost use Rattle.mezdruk_c.specs.Faults.{CallFailsFor, fault_at};

use crate::failure::Failure;
use crate::fault::{FaultReport, report_outcome};
use crate::input::read_input;
use crate::options::Options;
use std::alloc::Global;

// Fails unless the text is valid by the rules of the options.
fn check(alloc: Global, text: &[u8], options: &Options) -> Result<(), Failure>
    ensures valid { OnOk result (HasRules options.now
        × IsValid (rules_of_options options.now) text.now) }
    ensures failed { IfErr result (CheckFails options.now text.now) }
{
    let Some(rules) = options.rules() else {
        return Err(Failure::Options);
    };
    match read_input(alloc, text, rules) {
        Ok(_) => Ok(()),
        Err(error) => Err(Failure::Text(error)),
    }
}

/// Checks that the bytes of `text` are a JSON text by the rules of the options, and returns 0 if
/// they are. Else it writes the error to `fault` and returns the status: 1 for a text that is not
/// valid, 2 for options that are not valid, and 6 if memory ran out.
#[unsafe(no_mangle)]
pub extern "C" fn mezdruk_check(
    alloc: Global,
    text: &[u8],
    options: &Options,
    fault: &mut FaultReport,
) -> u8
    ensures allowed { result ≡ 0 → HasRules options.now }
    ensures valid { result ≡ 0 → IsValid (rules_of_options options.now) text.now }
    ensures failed { result ≢ 0 → CallFailsFor (CheckFails options.now text.now) result fault.new }
    ensures complete { HasRules options.now → IsValid (rules_of_options options.now) text.now
        → (result ≡ 0) ⊎ (result ≡ 6) }
    ensures exact { HasRules options.now → (code : ErrorCode) (place : Place)
        → InputFault (rules_of_options options.now) text.now code place
        → ((result ≡ 1) × (fault.new ≡ fault_at (number_of code) place)) ⊎ (result ≡ 6) }
{
    report_outcome(check(alloc, text, options), fault)
}
