// Documents that are laid over one another as a change.
ghost use Rattle.std.specs.Prelude.{◌≡◌, Ok, map, OnOk, IfErr};
ghost use Rattle.mezdruk_files.specs.Overlays.{merged_in_turn};
ghost use Rattle.json_patch.specs.Errors.{no_memory_in_patch};
ghost use Rattle.json_value.specs.Denotes.{tree_of};

use crate::change::ValueChange;
use crate::change_error::ChangeError;
use crate::value_path::OUT_OF_MEMORY;
use json_patch::{PatchError, apply_merge};
use json_value::Value;
use std::alloc::Global;

/// The change by several JSON Merge Patches (RFC 7396), one after another.
///
/// ```
/// use mezdruk_files::{ValueChange, MergeInTurn, read_value};
/// use json_text::Rules;
/// use json_value::Value;
/// let patches = vec![in alloc;
///     read_value(alloc, b"{\"a\": 1, \"b\": 2}", Rules::usual())?,
///     read_value(alloc, b"{\"a\": null}", Rules::usual())?,
/// ]?;
/// let mut value = Value::Null;
/// assert!(rt; MergeInTurn { patches: &patches }.apply(alloc, &mut value).is_ok());
/// assert_eq!(rt; value.to_string(alloc)?.as_str(), "{\"b\":2}");
/// ```
#[derive(Clone, Copy, Drop)]
pub struct MergeInTurn<'a> {
    /// The patches.
    pub patches: &'a [Value],
}

// Applies the patches.
fn merge_all(alloc: Global, value: &mut Value, patches: &[Value]) -> Result<(), PatchError>
    ensures ok { OnOk result
        (tree_of value.new ≡ merged_in_turn (tree_of value.old) (map tree_of patches.now)) }
    ensures only { IfErr result (λ e. e ≡ no_memory_in_patch) }
{
    'patches: for i in 0..patches.len() {
        match apply_merge(alloc, value, patches[i].view()) {
            Ok(()) => {}
            Err(error) => return Err(error),
        }
    }
    Ok(())
}

impl<'a> ValueChange for MergeInTurn<'a> {
    ghost use Rattle.mezdruk_files.specs.Overlays.{merged_in_turn};

    ghost changed = { λ change tree. Ok (merged_in_turn tree (map tree_of change.patches.now)) };

    fn apply(&self, alloc: Global, value: &mut Value) -> Result<(), ChangeError> {
        match merge_all(alloc, value, self.patches) {
            Ok(()) => Ok(()),
            Err(_) => Err(OUT_OF_MEMORY),
        }
    }

    fn part_name(&self) -> &'static str {
        "patch"
    }
}
