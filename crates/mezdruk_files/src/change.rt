// What is done to the value of each document.
ghost use Rattle.std.specs.Prelude.{Ok};

use crate::change_error::ChangeError;
use json_value::Value;
use std::alloc::Global;

/// A change of a value, such as a list of edits or a patch. It either applies to a value or fails.
///
/// ```
/// use mezdruk_files::{ValueChange, Unchanged};
/// use json_value::Value;
/// let mut value = Value::Bool(true);
/// assert!(rt; Unchanged.apply(alloc, &mut value).is_ok());
/// assert!(rt; matches!(value, Value::Bool(true)));
/// ```
pub trait ValueChange {
    ghost use Rattle.std.specs.Prelude.{◌≡◌, true, Result, Ok, OnOk, IfErr};
    ghost use Rattle.json_grammar.specs.Tree.{Tree};
    ghost use Rattle.json_value.specs.Denotes.{tree_of};
    ghost use Rattle.mezdruk_files.specs.Changes.{ChangeFails};
    ghost use Rattle.mezdruk_files.specs.Sentences.{is_lower_case};
    ghost use Rattle.mezdruk_files.specs.declared.change_error.ChangeError.{ChangeError};

    /// The tree that the change makes of a tree, or why it does not apply to it.
    ghost changed: { Self → Tree → Result Tree ChangeError };

    /// Changes `value`. Fails if the change does not apply to it, and with `NoMemory` if memory
    /// runs out. After an error, `value` may be changed in part.
    fn apply(&self, alloc: Global, value: &mut Value) -> Result<(), ChangeError>
        ensures ok { OnOk result (changed self.now (tree_of value.old) ≡ Ok (tree_of value.new)) }
        ensures err { IfErr result (ChangeFails (changed self.now (tree_of value.old))) };

    /// Returns the word by which reports of errors call a part of the change, such as `edit` or
    /// `operation`. It consists of lower case letters.
    fn part_name(&self) -> &'static str
        ensures word { is_lower_case result.now ≡ true };
}

/// The change that leaves each value as it is. It never fails.
///
/// ```
/// use mezdruk_files::{ValueChange, Unchanged};
/// use json_value::Value;
/// let mut value = Value::Null;
/// assert!(rt; Unchanged.apply(alloc, &mut value).is_ok());
/// ```
#[derive(Clone, Copy, Debug, Drop)]
pub struct Unchanged;

impl ValueChange for Unchanged {
    ghost changed = { λ _ t. Ok t };

    fn apply(&self, alloc: Global, _value: &mut Value) -> Result<(), ChangeError> {
        let _ = alloc;
        Ok(())
    }

    fn part_name(&self) -> &'static str {
        "change"
    }
}
