// Copies of paths.
ghost use Rattle.std.specs.Prelude.{◌≡◌, ◌++◌, ◌∷◌, [], IfOk};
ghost use Rattle.json_model.specs.Edit.{key_step};
ghost use Rattle.json_value.specs.Denotes.{text_bytes};
ghost use Rattle.json_value.specs.Edits.{path_steps, step_of, steps_of};
ghost use Rattle.json_io.specs.Errors.{OnlyNoMemory};

use json_io::Result;
use json_value::{Path, PointerNode, Text};
use std::alloc::Global;

// Copies the step.
pub(crate) fn copy_step(alloc: Global, step: &PointerNode) -> Result<PointerNode>
    ensures step { IfOk result (λ s. step_of s ≡ step_of step.now) }
    ensures only { OnlyNoMemory result }
{
    match step {
        PointerNode::Key(key) => {
            let key = key.clone(alloc)?;
            Ok(PointerNode::Key(key))
        }
        PointerNode::Index(i) => Ok(PointerNode::Index(*i)),
    }
}

// Copies the path.
pub(crate) fn copy_path(alloc: Global, path: &Path) -> Result<Path>
    ensures path { IfOk result (λ p. path_steps p ≡ path_steps path.now) }
    ensures only { OnlyNoMemory result }
{
    let mut copy = Path::new(alloc);
    for step in path.steps() {
        let step = copy_step(alloc, step)?;
        copy.push(step)?;
    }
    Ok(copy)
}

// Copies the path, and appends a step to the key.
pub(crate) fn path_with_key(alloc: Global, path: &Path, key: &Text) -> Result<Path>
    ensures path { IfOk result (λ p. path_steps p
        ≡ path_steps path.now ++ key_step (text_bytes key.now) ∷ []) }
    ensures only { OnlyNoMemory result }
{
    let mut copy = copy_path(alloc, path)?;
    let key = key.clone(alloc)?;
    copy.push(PointerNode::Key(key))?;
    Ok(copy)
}
