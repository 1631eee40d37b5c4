// Editing a text.
ghost use Rattle.std.specs.Prelude.{◌≡◌, ◌≢◌, ◌<◌, ◌^◌, length, map, IfOk, IfErr, OnOk};
ghost use Rattle.json_text.specs.Ruled.{rules_of};
ghost use Rattle.json_value.specs.Edits.{edit_of};
ghost use Rattle.json_layout.specs.Styles.{printed};
ghost use Rattle.reshape.specs.Words.{SpellsEdits};
ghost use Rattle.mezdruk_c.specs.Asked.{AreOptions};
ghost use Rattle.mezdruk_c.specs.Buffers.{buffer_bytes};
ghost use Rattle.mezdruk_c.specs.Editing.{EditedText, EditingFails, EditsNotRead, EditsText, EditFails};
ghost use Rattle.mezdruk_c.specs.Faults.{CallFailsFor};

use crate::buffer::ResultBuffer;
use crate::failure::Failure;
use crate::fault::{FaultReport, give};
use crate::options::Options;
use json_data::from_slice;
use json_io::{Result as TextResult, SliceSource, VecSink};
use json_layout::Style;
use json_text::Rules;
use json_value::Edit;
use reshape::reshape_with;
use std::alloc::Global;

// Returns the edits that a text spells.
fn read_edits(alloc: Global, edits: &[u8]) -> TextResult<Vec<Edit>>
    ensures ok { IfOk result (λ v. SpellsEdits edits.now (map edit_of v.items)) }
    ensures failed { IfErr result (λ e. EditsNotRead edits.now e.code e.place) }
{
    match from_slice::<Vec<Edit>>(alloc, edits) {
        Ok(list) => Ok(list),
        Err(error) => Err(error),
    }
}

// Returns the text of the edited tree.
fn edit_text(
    alloc: Global,
    text: &[u8],
    edits: &[Edit],
    style: Style<'_>,
    rules: Rules,
) -> TextResult<ResultBuffer>
    requires { length edits.now < 2 ^ 32 }
    ensures ok { IfOk result (λ b. EditedText (rules_of rules) (map edit_of edits.now)
        (printed style.entry) text.now (buffer_bytes b)) }
    ensures failed { IfErr result (λ e. EditingFails (rules_of rules) (map edit_of edits.now)
        text.now e.code e.place) }
{
    let mut source = SliceSource::new(text);
    let mut sink = VecSink::new(alloc);
    match reshape_with(alloc, &mut source, &mut sink, edits, style, rules) {
        Ok(()) => ResultBuffer::of(alloc, sink.into_vec()),
        Err(error) => Err(error),
    }
}

// Returns the text of the edited tree, by the options.
fn edit(
    alloc: Global,
    text: &[u8],
    edits: &[u8],
    options: &Options,
) -> Result<ResultBuffer, Failure>
    ensures allowed { OnOk result (AreOptions options.now) }
    ensures done { IfOk result (λ b. EditsText options.now text.now edits.now (buffer_bytes b)) }
    ensures failed { IfErr result (EditFails options.now text.now edits.now) }
{
    let Some(asked) = options.asked() else {
        return Err(Failure::Options);
    };
    match read_edits(alloc, edits) {
        Ok(list) => match edit_text(alloc, text, &list, asked.style, asked.rules) {
            Ok(buffer) => Ok(buffer),
            Err(error) => Err(Failure::Text(error)),
        },
        Err(error) => Err(Failure::Argument(error)),
    }
}

/// Reads a JSON text, applies the edits in order, writes the text of the edited value to `output`,
/// and returns 0. `edits` is a JSON text too: an array of edits.
///
/// On an error it writes the error to `fault`, leaves `output` unchanged, and returns the status: 1
/// for a text that is not valid, 2 for options or edits that are not valid, 3 for an edit that does
/// not apply, and 6 if memory ran out.
#[unsafe(no_mangle)]
pub extern "C" fn mezdruk_edit(
    alloc: Global,
    text: &[u8],
    edits: &[u8],
    options: &Options,
    output: &mut ResultBuffer,
    fault: &mut FaultReport,
) -> u8
    ensures allowed { result ≡ 0 → AreOptions options.now }
    ensures done { result ≡ 0
        → EditsText options.now text.now edits.now (buffer_bytes output.new) }
    ensures failed { result ≢ 0
        → CallFailsFor (EditFails options.now text.now edits.now) result fault.new }
    ensures kept { result ≢ 0 → output.new ≡ output.old }
{
    give(edit(alloc, text, edits, options), output, fault)
}
