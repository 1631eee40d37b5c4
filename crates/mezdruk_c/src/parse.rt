// Parsing a text into a document.
ghost use Rattle.std.specs.Prelude.{◌≡◌, ◌≢◌, IfOk, IfErr, OnOk};
ghost use Rattle.mezdruk_c.specs.Asked.{HasRules};
ghost use Rattle.mezdruk_c.specs.Checking.{CheckFails};
ghost use Rattle.mezdruk_c.specs.Faults.{CallFailsFor};
ghost use Rattle.mezdruk_c.specs.Parsing.{IsDocumentOf, KeepsDocument};

use crate::document::Document;
use crate::failure::Failure;
use crate::fault::{FaultReport, report_outcome};
use crate::input::read_input;
use crate::options::Options;
use std::alloc::Global;

// Parses a text, and fails unless it is valid by the rules of the options.
fn parse(alloc: Global, text: &[u8], options: &Options) -> Result<Document, Failure>
    ensures allowed { OnOk result (HasRules options.now) }
    ensures done { IfOk result (IsDocumentOf options.now text.now) }
    ensures failed { IfErr result (CheckFails options.now text.now) }
{
    let Some(rules) = options.rules() else {
        return Err(Failure::Options);
    };
    match read_input(alloc, text, rules) {
        Ok(doc) => match Document::of(alloc, doc) {
            Ok(document) => Ok(document),
            Err(error) => Err(Failure::Text(error)),
        },
        Err(error) => Err(Failure::Text(error)),
    }
}

// Keeps the document of a success.
fn keep(outcome: Result<Document, Failure>, document: &mut Document) -> Result<(), Failure>
    ensures { KeepsDocument outcome document.old document.new result }
{
    match outcome {
        Ok(parsed) => {
            *document = parsed;
            Ok(())
        }
        Err(failure) => Err(failure),
    }
}

/// Parses a JSON text by the rules of the options, writes the parsed document to `document`, and
/// returns 0.
///
/// On an error it writes the error to `fault`, leaves `document` unchanged, and returns the status:
/// 1 for a text that is not valid, 2 for options that are not valid, and 6 if memory ran out.
#[unsafe(no_mangle)]
pub extern "C" fn mezdruk_parse(
    alloc: Global,
    text: &[u8],
    options: &Options,
    document: &mut Document,
    fault: &mut FaultReport,
) -> u8
    ensures allowed { result ≡ 0 → HasRules options.now }
    ensures done { result ≡ 0 → IsDocumentOf options.now text.now document.new }
    ensures failed { result ≢ 0 → CallFailsFor (CheckFails options.now text.now) result fault.new }
    ensures kept { result ≢ 0 → document.new ≡ document.old }
{
    report_outcome(keep(parse(alloc, text, options), document), fault)
}
