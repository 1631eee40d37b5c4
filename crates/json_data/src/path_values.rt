// Steps and paths, as values spell them.
ghost use Rattle.std.specs.Prelude.{◌≡◌, IfOk, IfErr, Some};
ghost use Rattle.json_number.specs.Numbers.{value_of};
ghost use Rattle.json_io.specs.declared.error.ErrorCode.TheVariants as ErrorCode;
ghost use Rattle.json_value.specs.Edits.{step_of, path_steps};
ghost use Rattle.json_value.specs.EditTrees.{each_in, index_of, step_in, path_in};
ghost use Rattle.json_value.specs.Seen.{seen, elements_seen};
ghost use Rattle.json_tokens.specs.Refusals.{error_without_place as spec_refusal};
ghost use Rattle.json_data.specs.Spelled.{Unspelled};

use json_io::{Error, ErrorCode, Result};
use json_number::{JsonNumberTrait, Number};
use json_tokens::error_without_place;
use json_value::{ArrayView, Path, PointerNode, Text, View};
use std::alloc::Global;

/// Returns the error of a value that is no step, path or edit.
pub(crate) fn unspelled() -> Error
    ensures { result ≡ spec_refusal ErrorCode.TypeUnmatched }
{
    error_without_place(ErrorCode::TypeUnmatched)
}

// Returns the integer as an index, or `None` if it is below 0 or at least 2^32.
fn read_index(number: Number) -> Option<u32>
    ensures { result ≡ index_of (value_of number) }
{
    u32::try_from(number.as_u64()?).ok()
}

/// Reads a step of a path: a string is a key, and an integer is an index.
pub(crate) fn read_step(alloc: Global, view: View<'_>) -> Result<PointerNode>
    ensures ok { IfOk result (λ s. step_in (seen view.entry) ≡ Some (step_of s)) }
    ensures err { IfErr result (Unspelled (step_in (seen view.entry))) }
{
    if let Some(key) = view.text() {
        let key = Text::copy(alloc, key)?;
        return Ok(PointerNode::Key(key));
    }
    if let Some(number) = view.as_number() {
        if let Some(index) = read_index(number) {
            return Ok(PointerNode::Index(index as usize));
        }
    }
    Err(unspelled())
}

// Reads a path whose steps are the elements of the array.
fn read_steps(alloc: Global, array: ArrayView<'_>) -> Result<Path>
    ensures ok { IfOk result (λ p.
        each_in step_in (elements_seen array.entry) ≡ Some (path_steps p)) }
    ensures err { IfErr result (Unspelled (each_in step_in (elements_seen array.entry))) }
{
    let mut path = Path::new(alloc);
    'steps: for element in array.iter() {
        let step = read_step(alloc, element)?;
        path.push(step)?;
    }
    Ok(path)
}

/// Reads a path: an array of steps.
pub(crate) fn read_path(alloc: Global, view: View<'_>) -> Result<Path>
    ensures ok { IfOk result (λ p. path_in (seen view.entry) ≡ Some (path_steps p)) }
    ensures err { IfErr result (Unspelled (path_in (seen view.entry))) }
{
    match view.as_array() {
        Some(array) => read_steps(alloc, array),
        None => Err(unspelled()),
    }
}
