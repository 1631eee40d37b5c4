// Patching a text.
ghost use Rattle.std.specs.Prelude.{◌≡◌, ◌≢◌, IfOk, IfErr, OnOk};
ghost use Rattle.mezdruk_c.specs.Asked.{AreOptions};
ghost use Rattle.mezdruk_c.specs.Buffers.{buffer_bytes};
ghost use Rattle.mezdruk_c.specs.Patching.{PatchesText, PatchCallFails, MergesText, MergeFails};
ghost use Rattle.mezdruk_c.specs.Faults.{CallFailsFor};

use crate::buffer::ResultBuffer;
use crate::failure::Failure;
use crate::fault::{FaultReport, give};
use crate::options::Options;
use crate::values::{read_patch, value_from_text, value_to_text};
use json_patch::{apply_merge, apply_patch};
use json_value::View;
use std::alloc::Global;

// Returns the text of what a patch makes of a text.
#[tactic(auto, using(crate::proofs::PatchedTexts::argument_not_patched, crate::proofs::PatchedTexts::text_not_patched, crate::proofs::PatchedTexts::patch_no_memory))]
fn patch_texts(
    alloc: Global,
    text: &[u8],
    patch: &[u8],
    options: &Options,
) -> Result<ResultBuffer, Failure>
    ensures allowed { OnOk result (AreOptions options.now) }
    ensures done { IfOk result (λ b. PatchesText options.now text.now patch.now (buffer_bytes b)) }
    ensures failed { IfErr result (PatchCallFails options.now text.now patch.now) }
{
    let Some(asked) = options.asked() else {
        return Err(Failure::Options);
    };
    let doc = match read_patch(alloc, patch) {
        Ok(doc) => doc,
        Err(failure) => return Err(failure),
    };
    let mut value = match value_from_text(alloc, text, asked.rules) {
        Ok(value) => value,
        Err(failure) => return Err(failure),
    };
    match apply_patch(alloc, &mut value, View::packed(doc.view())) {
        Ok(()) => value_to_text(alloc, &value, asked.style),
        Err(error) => Err(Failure::Patch(error)),
    }
}

// Returns the text of what a merge patch makes of a text.
#[tactic(auto, using(crate::proofs::PatchedTexts::argument_not_merged, crate::proofs::PatchedTexts::text_not_merged, crate::proofs::PatchedTexts::merge_no_memory))]
fn merge_texts(
    alloc: Global,
    text: &[u8],
    patch: &[u8],
    options: &Options,
) -> Result<ResultBuffer, Failure>
    ensures allowed { OnOk result (AreOptions options.now) }
    ensures done { IfOk result (λ b. MergesText options.now text.now patch.now (buffer_bytes b)) }
    ensures failed { IfErr result (MergeFails options.now text.now patch.now) }
{
    let Some(asked) = options.asked() else {
        return Err(Failure::Options);
    };
    let doc = match read_patch(alloc, patch) {
        Ok(doc) => doc,
        Err(failure) => return Err(failure),
    };
    let mut value = match value_from_text(alloc, text, asked.rules) {
        Ok(value) => value,
        Err(failure) => return Err(failure),
    };
    match apply_merge(alloc, &mut value, View::packed(doc.view())) {
        Ok(()) => value_to_text(alloc, &value, asked.style),
        Err(error) => Err(Failure::Patch(error)),
    }
}

/// Reads a JSON text, applies a JSON Patch (RFC 6902) to its value, writes the text of the patched
/// value to `output`, and returns 0. `operations` is the patch, a JSON text.
///
/// On an error it writes the error to `fault`, leaves `output` unchanged, and returns the status: 1
/// for a text that is not valid, 2 for options that are not valid or a patch that is not a JSON
/// text, 3 for a patch that does not apply, and 6 if memory ran out.
#[unsafe(no_mangle)]
pub extern "C" fn mezdruk_patch(
    alloc: Global,
    text: &[u8],
    operations: &[u8],
    options: &Options,
    output: &mut ResultBuffer,
    fault: &mut FaultReport,
) -> u8
    ensures allowed { result ≡ 0 → AreOptions options.now }
    ensures done { result ≡ 0
        → PatchesText options.now text.now operations.now (buffer_bytes output.new) }
    ensures failed { result ≢ 0
        → CallFailsFor (PatchCallFails options.now text.now operations.now) result fault.new }
    ensures kept { result ≢ 0 → output.new ≡ output.old }
{
    give(patch_texts(alloc, text, operations, options), output, fault)
}

/// Reads a JSON text, applies a JSON Merge Patch (RFC 7396) to its value, writes the text of the
/// patched value to `output`, and returns 0. `patch` is the merge patch, a JSON text.
///
/// On an error it writes the error to `fault`, leaves `output` unchanged, and returns the status: 1
/// for a text that is not valid, 2 for options that are not valid or a patch that is not a JSON
/// text, and 6 if memory ran out.
#[unsafe(no_mangle)]
pub extern "C" fn mezdruk_merge(
    alloc: Global,
    text: &[u8],
    patch: &[u8],
    options: &Options,
    output: &mut ResultBuffer,
    fault: &mut FaultReport,
) -> u8
    ensures allowed { result ≡ 0 → AreOptions options.now }
    ensures done { result ≡ 0
        → MergesText options.now text.now patch.now (buffer_bytes output.new) }
    ensures failed { result ≢ 0
        → CallFailsFor (MergeFails options.now text.now patch.now) result fault.new }
    ensures kept { result ≢ 0 → output.new ≡ output.old }
{
    give(merge_texts(alloc, text, patch, options), output, fault)
}
