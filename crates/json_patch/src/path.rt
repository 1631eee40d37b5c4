// The path that the tokens of a pointer are.
ghost use Rattle.std.specs.Prelude.{◌≡◌, Ok, map, string_bytes, IfOk};
ghost use Rattle.json_patch.specs.ValuesAt.{value_at_path};
ghost use Rattle.json_patch.specs.Pointer.{step_of_token, path_of_tokens};
ghost use Rattle.json_value.specs.Edits.{step_of as node_step, path_steps, FailsAs};
ghost use Rattle.json_value.specs.Seen.{seen};
ghost use Rattle.json_patch.specs.Lookups.{value_at_token};

use crate::lookup::{LookupError, find_child, index_at_most};
use json_io::{Error, Result};
use json_value::{Path, PointerNode, Text, View};
use std::alloc::Global;

/// Returns the step that `token` is from `here`: an index if `here` is an array, and a key if it is
/// an object.
///
/// Fails with `NotFound` if `token` is no index of the array, with `TypeUnmatched` if `here` is any
/// other value, and with `NoMemory` if memory runs out.
pub fn pointer_node(alloc: Global, token: &str, here: View<'_>) -> Result<PointerNode>
    ensures ok { IfOk result (λ n. step_of_token token.now (seen here.entry) ≡ Ok (node_step n)) }
    ensures refused { FailsAs (value_at_token token.now (seen here.entry)) result }
{
    if let Some(array) = here.as_array() {
        return match index_at_most(array.len(), token) {
            Some(i) => Ok(PointerNode::Index(i)),
            None => Err(Error::from(LookupError::NotFound)),
        };
    }
    match here.as_object() {
        Some(_) => {
            let key = Text::copy(alloc, token)?;
            Ok(PointerNode::Key(key))
        }
        None => Err(Error::from(LookupError::TypeUnmatched)),
    }
}

/// Returns the path from `root` that the tokens are, and the value at its end.
///
/// Fails with `NotFound` if there is no such value. Fails with `TypeUnmatched` if a token meets a
/// value that is neither an array nor an object, and with `NoMemory` if memory runs out.
pub fn path_to<'a>(alloc: Global, tokens: &[String], root: View<'a>) -> Result<(Path, View<'a>)>
    ensures path { IfOk result (λ r. path_of_tokens (map string_bytes tokens.now) (seen root.entry)
        ≡ Ok (path_steps r.0)) }
    ensures place { IfOk result (λ r. value_at_path (path_steps r.0) (seen root.entry)
        ≡ Ok (seen r.1)) }
    ensures refused { FailsAs (path_of_tokens (map string_bytes tokens.now) (seen root.entry))
        result }
{
    let mut path = Path::new(alloc);
    let mut here = root;
    for token in tokens {
        let next = find_child(token, here)?;
        let node = pointer_node(alloc, token, here)?;
        path.push(node)?;
        here = next;
    }
    Ok((path, here))
}
