// Edits in turn.
ghost use Rattle.std.specs.Prelude.{◌≡◌, ◌<◌, ◌^◌, length, map, Ok, OnOk, IfErr};
ghost use Rattle.json_model.specs.Edit.{edited};
ghost use Rattle.json_value.specs.Denotes.{tree_of};
ghost use Rattle.json_value.specs.Edits.{edit_of};
ghost use Rattle.reshape.specs.Reshape.{EditingRefuses, place_numbered};

use json_io::{Error, ErrorCode, Place, Result};
use json_value::{Edit, Value};
use std::alloc::Global;

// Returns the error of the edit of this number, counted from 0. The error that memory ran out has
// no place.
fn error_at_edit(error: Error, number: u32) -> Error
    ensures code { result.code ≡ error.code }
    ensures place { result.place ≡ place_numbered error.code error.place number }
{
    match error.code {
        ErrorCode::NoMemory => error,
        code => Error {
            code,
            place: Place::Edit(number),
        },
    }
}

/// Applies the edits to `value` in order, each to the result of those before it. There must be
/// fewer than 4,294,967,296 edits.
///
/// Fails with `NotFound` or `TypeUnmatched` at the first edit that does not apply; the error's
/// place is `Place::Edit` with the edit's index, counted from 0. Fails with `NoMemory` if memory
/// runs out. After an error `value` is unspecified: some of the edits may have been applied.
pub fn apply_all(alloc: Global, value: &mut Value, edits: &[Edit]) -> Result<()>
    requires { length edits.now < 2 ^ 32 }
    ensures ok { OnOk result
        (edited (map edit_of edits.now) (tree_of value.old) ≡ Ok (tree_of value.new)) }
    ensures refused { IfErr result
        (λ e. EditingRefuses (map edit_of edits.now) (tree_of value.old) e.code e.place) }
{
    let mut number = 0;
    for edit in edits {
        match value.apply(alloc, edit) {
            Ok(()) => number += 1,
            Err(error) => return Err(error_at_edit(error, number)),
        }
    }
    Ok(())
}
