// The value that a pointer references in a text.
ghost use Rattle.std.specs.Prelude.{◌≡◌, ◌≢◌, IfOk, IfErr, OnOk};
ghost use Rattle.mezdruk_c.specs.Asked.{AreOptions};
ghost use Rattle.mezdruk_c.specs.Buffers.{buffer_bytes};
ghost use Rattle.mezdruk_c.specs.Pointing.{GetsText, GetFails, IsPointed, PointingFails};
ghost use Rattle.mezdruk_c.specs.Faults.{CallFailsFor};
ghost use Rattle.json_value.specs.Denotes.{tree_of};

use crate::buffer::ResultBuffer;
use crate::failure::Failure;
use crate::fault::{FaultReport, give};
use crate::options::Options;
use crate::values::{value_from_text, value_to_text};
use json_io::check_utf8;
use json_patch::{PatchCode, PatchError, Pointer};
use json_value::Value;
use std::alloc::Global;

// Returns the value that the pointer references.
fn find_by_pointer(alloc: Global, value: &Value, pointer: &str) -> Result<Value, Failure>
    ensures found { IfOk result (λ v. IsPointed (tree_of value.now) pointer.now (tree_of v)) }
    ensures failed { IfErr result (PointingFails (tree_of value.now) pointer.now) }
{
    let pointer = match Pointer::parse(alloc, pointer) {
        Ok(pointer) => pointer,
        Err(error) => return Err(Failure::Patch(error)),
    };
    match pointer.find(value.view()) {
        Some(view) => match view.to_value(alloc) {
            Ok(part) => Ok(part),
            Err(error) => Err(Failure::Text(error)),
        },
        None => Err(Failure::Patch(PatchError {
            code: PatchCode::NotFound,
            op: None,
        })),
    }
}

// Returns the text of the value that the pointer references in a text.
fn get(
    alloc: Global,
    text: &[u8],
    pointer: &[u8],
    options: &Options,
) -> Result<ResultBuffer, Failure>
    ensures allowed { OnOk result (AreOptions options.now) }
    ensures done { IfOk result (λ b. GetsText options.now text.now pointer.now (buffer_bytes b)) }
    ensures failed { IfErr result (GetFails options.now text.now pointer.now) }
{
    let Some(asked) = options.asked() else {
        return Err(Failure::Options);
    };
    let pointer = match check_utf8(pointer) {
        Ok(pointer) => pointer,
        Err(error) => return Err(Failure::Argument(error)),
    };
    let value = match value_from_text(alloc, text, asked.rules) {
        Ok(value) => value,
        Err(failure) => return Err(failure),
    };
    match find_by_pointer(alloc, &value, pointer) {
        Ok(part) => value_to_text(alloc, &part, asked.style),
        Err(failure) => Err(failure),
    }
}

/// Reads a JSON text, writes the text of the value that a JSON Pointer (RFC 6901) references in it
/// to `output`, and returns 0.
///
/// On an error it writes the error to `fault`, leaves `output` unchanged, and returns the status: 1
/// for a text that is not valid, 2 for options that are not valid or a pointer that is not UTF-8, 3
/// for a pointer that is not valid or references no value, and 6 if memory ran out.
#[unsafe(no_mangle)]
pub extern "C" fn mezdruk_get(
    alloc: Global,
    text: &[u8],
    pointer: &[u8],
    options: &Options,
    output: &mut ResultBuffer,
    fault: &mut FaultReport,
) -> u8
    ensures allowed { result ≡ 0 → AreOptions options.now }
    ensures done { result ≡ 0
        → GetsText options.now text.now pointer.now (buffer_bytes output.new) }
    ensures failed { result ≢ 0
        → CallFailsFor (GetFails options.now text.now pointer.now) result fault.new }
    ensures kept { result ≢ 0 → output.new ≡ output.old }
{
    give(get(alloc, text, pointer, options), output, fault)
}
