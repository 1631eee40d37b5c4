// The edits that a command asks for.
ghost use Rattle.std.specs.Prelude.{◌≡◌, ◌⊎◌, Some, None, length, drop, [], ◌∷◌, ◌<◌, map, option_map, IfSome, IfOk, IfErr};
ghost use Rattle.mezdruk_arguments.specs.Edits.{edits_tree, edit_tree, pointer_operand, SplitsPointer, LacksPointer};
ghost use Rattle.mezdruk_arguments.specs.declared.problem.OperandError.TheVariants as OperandError;
ghost use Rattle.json_grammar.specs.Tree.{list, no_trees};
ghost use Rattle.json_io.specs.Errors.{no_memory, OnlyNoMemory};
ghost use Rattle.json_value.specs.Denotes.{tree_of};
ghost use Rattle.json_value.specs.Edits.{edit_of};
ghost use Rattle.json_value.specs.EditTrees.{edits_in};

use crate::operand::OperandKind;
use crate::problem::{OperandError, Problem};
use crate::spelling::parse_pointer;
use crate::verb::Verb;
use json_data::from_value;
use json_io::Result;
use json_patch::Pointer;
use json_value::{Edit, Value};
use std::alloc::Global;

// Returns the string that the first operand is.
fn first_text(operands: &[Value]) -> Option<&str>
    ensures text { option_map (λ s. s.now) result ≡ pointer_operand (map tree_of operands.now) }
    ensures some { IfSome result (λ _. 0 < length operands.now) }
{
    match operands {
        [first, ..] => first.view().text(),
        [] => None,
    }
}

// Returns the error of a path that is no JSON Pointer.
fn no_pointer() -> OperandError {
    OperandError::Invalid(Problem::WrongForm {
        kind: OperandKind::Path,
        step: None,
    })
}

// Returns the operands with an empty path in place of the first one.
#[tactic(auto, using(crate::proofs::Spelled::later_trees))]
fn replace_first(operands: Vec<Value>) -> Result<Vec<Value>>
    requires { 0 < length operands.items }
    ensures ok { IfOk result (λ left. map tree_of left.items
        ≡ list no_trees ∷ drop 1 (map tree_of operands.items)) }
    ensures only { OnlyNoMemory result }
{
    let mut left = operands;
    let _pointer = left.remove(0);
    left.insert(0, Value::new_array())?;
    Ok(left)
}

// Returns the value of one edit: an array of its name and its operands.
fn edit_value(alloc: Global, verb: Verb, operands: Vec<Value>) -> Result<Value>
    ensures tree { IfOk result (λ v. tree_of v ≡ edit_tree verb (map tree_of operands.items)) }
    ensures only { OnlyNoMemory result }
{
    let mut parts = operands;
    parts.insert(0, Value::from_static_str(verb.name()))?;
    Ok(Value::from_vec(parts))
}

// Returns the value of all edits.
fn edits_value(alloc: Global, verb: Verb, operands: Vec<Value>) -> Result<Value>
    ensures tree { IfOk result (λ v. tree_of v ≡ edits_tree verb (map tree_of operands.items)) }
    ensures only { OnlyNoMemory result }
{
    let mut edits = operands;
    if verb == Verb::Edit && edits.len() == 1 {
        if let Some(value) = edits.pop() {
            return Ok(value);
        }
    }
    let edit = edit_value(alloc, verb, edits)?;
    Ok(Value::from_vec(vec![in alloc; edit]?))
}

/// Splits the JSON Pointer (RFC 6901) off the operands of a command. If the first operand is a
/// string, returns the pointer that it spells, and the operands with an empty path in its place.
/// Else returns `None` and the operands unchanged.
///
/// Fails with [`Problem::WrongForm`] if the first operand is a string that is no pointer, and with
/// [`OperandError::OutOfMemory`] if memory runs out.
///
/// ```
/// use mezdruk_arguments::{Verb, requested_edits, split_pointer};
/// use json_value::{Edit, Value};
/// let operands = vec![in alloc; Value::from_static_str("/tags"), Value::new_bool(true)]?;
/// let (pointer, operands) = split_pointer(alloc, operands).map_err(|_| "no pointer")?;
/// assert_eq!(rt; pointer.ok_or("no pointer")?.to_text(alloc)?.as_str(), "/tags");
/// let edits = requested_edits(alloc, Verb::Push, operands)?;
/// assert!(rt; matches!(edits.as_slice(), [Edit::Push { .. }]));
/// ```
pub fn split_pointer(
    alloc: Global,
    operands: Vec<Value>,
) -> std::result::Result<(Option<Pointer>, Vec<Value>), OperandError>
    ensures ok { IfOk result (λ r. SplitsPointer (map tree_of operands.items) r.0
        (map tree_of r.1.items)) }
    ensures err { IfErr result (λ r. (r ≡ OperandError.OutOfMemory)
        ⊎ LacksPointer (map tree_of operands.items)) }
{
    let pointer = match first_text(&operands) {
        Some(text) => match parse_pointer(alloc, text) {
            Ok(Some(pointer)) => pointer,
            Ok(None) => return Err(no_pointer()),
            Err(refusal) => return Err(refusal),
        },
        None => return Ok((None, operands)),
    };
    match replace_first(operands) {
        Ok(left) => Ok((Some(pointer), left)),
        Err(_) => Err(OperandError::OutOfMemory),
    }
}

/// Returns the edits that a command with these operands asks for. The operand of `edit` is an array
/// of edits; `set`, `insert`, `push` and `remove` ask for the one edit of that name, whose parts
/// are the operands. Fails with `TypeUnmatched` if the operands do not have that form, and with
/// `NoMemory` if memory runs out.
///
/// ```
/// use mezdruk_arguments::{Verb, requested_edits};
/// use json_value::{Edit, Value};
/// let operands = vec![in alloc; Value::new_array(), Value::new_bool(true)]?;
/// let edits = requested_edits(alloc, Verb::Push, operands)?;
/// assert!(rt; matches!(edits.as_slice(), [Edit::Push { .. }]));
/// ```
pub fn requested_edits(alloc: Global, verb: Verb, operands: Vec<Value>) -> Result<Vec<Edit>>
    ensures ok { IfOk result (λ edits. edits_in (edits_tree verb (map tree_of operands.items))
        ≡ Some (map edit_of edits.items)) }
    ensures err { IfErr result (λ e. (e ≡ no_memory)
        ⊎ (edits_in (edits_tree verb (map tree_of operands.items)) ≡ None)) }
{
    let value = edits_value(alloc, verb, operands)?;
    from_value::<Vec<Edit>>(alloc, &value)
}
