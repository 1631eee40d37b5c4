// The patch between two texts.
ghost use Rattle.std.specs.Prelude.{◌≡◌, ◌≢◌, IfOk, IfErr, OnOk};
ghost use Rattle.json_text.specs.Ruled.{rules_of};
ghost use Rattle.json_value.specs.Denotes.{tree_of};
ghost use Rattle.mezdruk_c.specs.Asked.{AreOptions};
ghost use Rattle.mezdruk_c.specs.Buffers.{buffer_bytes};
ghost use Rattle.mezdruk_c.specs.Diffing.{ReadsTwo, ReadingTwoFails, DiffsTexts, DiffFails, MergeDiffsTexts, MergeDiffFails};
ghost use Rattle.mezdruk_c.specs.Faults.{CallFailsFor};

use crate::buffer::ResultBuffer;
use crate::failure::Failure;
use crate::fault::{FaultReport, give};
use crate::options::Options;
use crate::values::{read_target, value_from_text, value_to_text};
use json_diff::{diff, merge_diff};
use json_text::Rules;
use json_value::Value;
use std::alloc::Global;

// The values of the two texts.
#[derive(Drop)]
struct Two {
    from: Value,
    to: Value,
}

// Reads two texts by the same rules.
#[tactic(auto, using(crate::proofs::DiffedTexts::text_not_read_of_two, crate::proofs::DiffedTexts::target_not_read))]
fn read_two(alloc: Global, text: &[u8], target: &[u8], rules: Rules) -> Result<Two, Failure>
    ensures ok { IfOk result (λ two. ReadsTwo (rules_of rules) text.now target.now
        (tree_of two.from) (tree_of two.to)) }
    ensures failed { IfErr result (ReadingTwoFails (rules_of rules) text.now target.now) }
{
    let from = match value_from_text(alloc, text, rules) {
        Ok(from) => from,
        Err(failure) => return Err(failure),
    };
    match read_target(alloc, target, rules) {
        Ok(to) => Ok(Two { from, to }),
        Err(failure) => Err(failure),
    }
}

// Returns the text of the patch from a text to another.
#[tactic(auto, using(crate::proofs::DiffedTexts::not_diffed, crate::proofs::DiffedTexts::diff_no_memory))]
fn diffed(
    alloc: Global,
    text: &[u8],
    target: &[u8],
    options: &Options,
) -> Result<ResultBuffer, Failure>
    ensures allowed { OnOk result (AreOptions options.now) }
    ensures done { IfOk result (λ b. DiffsTexts options.now text.now target.now (buffer_bytes b)) }
    ensures failed { IfErr result (DiffFails options.now text.now target.now) }
{
    let Some(asked) = options.asked() else {
        return Err(Failure::Options);
    };
    let two = match read_two(alloc, text, target, asked.rules) {
        Ok(two) => two,
        Err(failure) => return Err(failure),
    };
    match diff(alloc, &two.from, &two.to) {
        Ok(patch) => value_to_text(alloc, &patch, asked.style),
        Err(error) => Err(Failure::Text(error)),
    }
}

// Returns the text of the merge patch from a text to another.
#[tactic(auto, using(crate::proofs::DiffedTexts::not_merge_diffed, crate::proofs::DiffedTexts::merge_diff_no_memory))]
fn merge_diffed(
    alloc: Global,
    text: &[u8],
    target: &[u8],
    options: &Options,
) -> Result<ResultBuffer, Failure>
    ensures allowed { OnOk result (AreOptions options.now) }
    ensures done { IfOk result
        (λ b. MergeDiffsTexts options.now text.now target.now (buffer_bytes b)) }
    ensures failed { IfErr result (MergeDiffFails options.now text.now target.now) }
{
    let Some(asked) = options.asked() else {
        return Err(Failure::Options);
    };
    let two = match read_two(alloc, text, target, asked.rules) {
        Ok(two) => two,
        Err(failure) => return Err(failure),
    };
    match merge_diff(alloc, &two.from, &two.to) {
        Ok(Some(patch)) => value_to_text(alloc, &patch, asked.style),
        Ok(None) => Err(Failure::NoMergePatch),
        Err(error) => Err(Failure::Text(error)),
    }
}

/// Returns the patch (RFC 6902) that leads from a JSON text to another, in `output`: applied to the
/// first it makes what is the same as the second. Both are read by the options. Returns 0, or else
/// the status, and writes the fault: 1 for a text that is not valid, 2 for options or a target that
/// are not, and 6 if memory ran out. The output stays then.
#[unsafe(no_mangle)]
pub extern "C" fn mezdruk_diff(
    alloc: Global,
    text: &[u8],
    target: &[u8],
    options: &Options,
    output: &mut ResultBuffer,
    fault: &mut FaultReport,
) -> u8
    ensures allowed { result ≡ 0 → AreOptions options.now }
    ensures done { result ≡ 0
        → DiffsTexts options.now text.now target.now (buffer_bytes output.new) }
    ensures failed { result ≢ 0
        → CallFailsFor (DiffFails options.now text.now target.now) result fault.new }
    ensures kept { result ≢ 0 → output.new ≡ output.old }
{
    give(diffed(alloc, text, target, options), output, fault)
}

/// Returns the merge patch (RFC 7396) that leads from a JSON text to another, in `output`. Returns
/// 0, or else the status, and writes the fault, as `mezdruk_diff` does; and 3 if there is no such
/// merge patch: a member of the second that the first has not is null, or a key repeats in one of
/// two objects that differ. The output stays then.
#[unsafe(no_mangle)]
pub extern "C" fn mezdruk_merge_diff(
    alloc: Global,
    text: &[u8],
    target: &[u8],
    options: &Options,
    output: &mut ResultBuffer,
    fault: &mut FaultReport,
) -> u8
    ensures allowed { result ≡ 0 → AreOptions options.now }
    ensures done { result ≡ 0
        → MergeDiffsTexts options.now text.now target.now (buffer_bytes output.new) }
    ensures failed { result ≢ 0
        → CallFailsFor (MergeDiffFails options.now text.now target.now) result fault.new }
    ensures kept { result ≢ 0 → output.new ≡ output.old }
{
    give(merge_diffed(alloc, text, target, options), output, fault)
}
