// What the value of an operand spells.
ghost use Rattle.std.specs.Prelude.{◌≡◌, ◌⊎◌, is_some, option_map, OnOk, IfOk, IfErr};
ghost use Rattle.mezdruk_arguments.specs.Operands.{path_formed, edits_formed, IsQueryText};
ghost use Rattle.mezdruk_arguments.specs.declared.problem.OperandError.TheVariants as OperandError;
ghost use Rattle.json_patch.specs.Lookups.{pointer_tokens};
ghost use Rattle.json_patch.specs.Pointer.{pointer_of};
ghost use Rattle.json_value.specs.Denotes.{tree_of};

use crate::problem::{OperandError, Problem};
use json_data::from_value;
use json_patch::{PatchCode, Pointer};
use json_query::{Query, QueryCode};
use json_tokens::is_refusal;
use json_value::{Edit, Path, Value, View};
use mezdruk_help::{edit_fault, is_step};
use std::alloc::Global;

/// Returns the JSON Pointer that a text spells, or `None` if it spells none. Fails if memory runs
/// out.
#[tactic(auto, using(crate::proofs::Spelled::no_pointer))]
pub(crate) fn parse_pointer(alloc: Global, text: &str) -> Result<Option<Pointer>, OperandError>
    ensures ok { IfOk result (λ o. option_map pointer_tokens o ≡ pointer_of text.now) }
    ensures only { IfErr result (λ r. r ≡ OperandError.OutOfMemory) }
{
    match Pointer::parse(alloc, text) {
        Ok(pointer) => Ok(Some(pointer)),
        Err(error) => match error.code {
            PatchCode::NoMemory => Err(OperandError::OutOfMemory),
            _ => Ok(None),
        },
    }
}

/// Checks that a text is a query of JSONPath (RFC 9535) without filters. Fails with
/// [`Problem::NoQuery`] if it is none, and if memory runs out.
#[tactic(auto, using(crate::proofs::Spelled::no_query))]
pub(crate) fn parse_query(alloc: Global, text: &str) -> Result<(), OperandError>
    ensures ok { OnOk result (IsQueryText text.now) }
    ensures err { IfErr result (λ r. (r ≡ OperandError.OutOfMemory)
        ⊎ (¬ (IsQueryText text.now))) }
{
    match Query::parse(alloc, text) {
        Ok(_) => Ok(()),
        Err(error) => match error.code {
            QueryCode::NoMemory => Err(OperandError::OutOfMemory),
            _ => Err(OperandError::Invalid(Problem::NoQuery { error })),
        },
    }
}

/// Returns whether a value is an array of steps. Fails if memory runs out.
pub(crate) fn is_path(alloc: Global, value: &Value) -> Result<bool, OperandError>
    ensures ok { IfOk result (λ b. b ≡ path_formed (tree_of value.now)) }
    ensures only { IfErr result (λ r. r ≡ OperandError.OutOfMemory) }
{
    match from_value::<Path>(alloc, value) {
        Ok(_) => Ok(true),
        Err(error) if is_refusal(error.code) => Ok(false),
        Err(_) => Err(OperandError::OutOfMemory),
    }
}

/// Returns whether a value is an array of edits. Fails if memory runs out.
pub(crate) fn are_edits(alloc: Global, value: &Value) -> Result<bool, OperandError>
    ensures ok { IfOk result (λ b. b ≡ edits_formed (tree_of value.now)) }
    ensures only { IfErr result (λ r. r ≡ OperandError.OutOfMemory) }
{
    match from_value::<Vec<Edit>>(alloc, value) {
        Ok(_) => Ok(true),
        Err(error) if is_refusal(error.code) => Ok(false),
        Err(_) => Err(OperandError::OutOfMemory),
    }
}

/// Returns the index of the first element that is no step, counted from 0. Returns `None` if there is
/// none, or if the value is no array.
pub(crate) fn first_wrong_step(value: View<'_>) -> Option<usize> {
    let array = value.as_array()?;
    let mut index = 0usize;
    for element in array.iter() {
        if !is_step(element) {
            return Some(index);
        }
        index = index.saturating_add(1);
    }
    None
}

/// Returns the index of the first element that is no edit, counted from 0, and what is wrong with
/// it. Returns `None` if there is none, or if the value is no array.
pub(crate) fn first_wrong_edit(value: View<'_>) -> Option<(usize, &'static str)> {
    let array = value.as_array()?;
    let mut index = 0usize;
    for element in array.iter() {
        if let Some(reason) = edit_fault(element) {
            return Some((index, reason));
        }
        index = index.saturating_add(1);
    }
    None
}
