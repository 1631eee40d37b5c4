// Places by paths, for callers that change the values there.
ghost use Rattle.std.specs.Prelude.{◌≡◌, ◌<◌, [], ◌∷◌, length, drop, IfOk, OnOk, OnErr, Some};
ghost use Rattle.std.specs.Bool.{OnTrue, OnFalse};
ghost use Rattle.std.specs.Borrow.{LendsSoOk, sem};
ghost use Rattle.std.specs.Fn.{FnOnceReturnsAtMut};
ghost use Rattle.json_model.specs.Edit.{set_at, edited_once};
ghost use Rattle.json_value.specs.Denotes.{tree_of, KeepsTreeOnErr};
ghost use Rattle.json_value.specs.Edits.{step_of, steps_of, Makes, FailsAs, FailsAlong};
ghost use Rattle.json_value.specs.Lending.{missing_as_none, PutsAtPath, PutsNothing, LeadsTo, LendsAlong, first_node, PutsAt};
ghost use Rattle.json_value.specs.Rows.{value_row};
ghost use Rattle.json_value.specs.Steps.{tree_at};
ghost use Rattle.json_value.specs.Touched.{Along, Same, KeptAlong};
ghost use Rattle.json_value.specs.declared.value.Value.{Value};

use crate::container_mut::{ContainerMut, child_mut};
use crate::path::PointerNode;
use crate::value::Value;
use json_io::{ErrorCode, Result};
use std::alloc::Global;

/// Lends mutable references to a value and to the values within it. [`Value`] implements it.
///
/// ```
/// use json_doc::read_document;
/// use json_value::{Places, PointerNode, Value, put};
/// let doc = read_document(alloc, "[[1], [2]]")?;
/// let mut value = Value::from_place(alloc, &doc, doc.root())?;
/// let first = value.place_mut(alloc, &[PointerNode::Index(0)])?.take();
/// put(&mut value, alloc, &[PointerNode::Index(1), PointerNode::Index(0)], first)?;
/// assert_eq!(rt; value.to_string(alloc)?.as_str(), "[null,[[1]]]");
/// ```
pub trait Places {
    /// The value to which, and within which, references are lent.
    ghost held: { Self → Value };

    /// Returns a mutable reference to the value to which the steps of `path` lead; without steps it
    /// is the whole value. A write through it changes that value and nothing else. Packed
    /// containers on the way are copied by one level each.
    ///
    /// Fails with `NotFound` if a step names a key or an index that is missing. Fails with
    /// `TypeUnmatched` if a key meets no object or an index no array. Fails with `NoMemory` if
    /// memory runs out. After an error nothing is changed, except that such copies may have been
    /// made.
    fn place_mut<'v>(&'v mut self, alloc: Global, path: &[PointerNode]) -> Result<&'v mut Value>
        ensures* writes_back { sem 𝓛 (LendsSoOk Self.row value_row self.entry result
            (λ n w. IfOk result (λ v. PutsAtPath (steps_of path.now) v.now w (held self.old)
            (held n)))
            (λ n. PutsNothing (steps_of path.now) (held self.old) (held n))) }
        ensures leads { LeadsTo (steps_of path.now) (tree_of (held self.old)) result };
}

impl Places for Value {
    ghost held = { λ v. v };

    fn place_mut<'v>(&'v mut self, alloc: Global, path: &[PointerNode]) -> Result<&'v mut Value> {
        reach_in(self, alloc, path)
    }
}

/// Replaces the value in `target` to which the steps of `path` lead by `new`. Fails as
/// [`Places::place_mut`] does. After an error nothing is changed, except that packed containers on
/// the way may have been copied by one level each.
pub fn put<V: Places>(target: &mut V, alloc: Global, path: &[PointerNode], new: Value) -> Result<()>
    ensures ok { OnOk result (Makes (edited_once (set_at (steps_of path.now) (tree_of new))
        (tree_of (V.held target.old))) (V.held target.new)) }
    ensures children { OnOk result (Along (steps_of path.now) (λ before after. after ≡ new)
        (V.held target.old) (V.held target.new)) }
    ensures kept { KeepsTreeOnErr (V.held target.old) (V.held target.new) result }
    ensures kept_along { OnErr result (KeptAlong (steps_of path.now) Same
        (V.held target.old) (V.held target.new)) }
    ensures refused { FailsAs (edited_once (set_at (steps_of path.now) (tree_of new))
        (tree_of (V.held target.old))) result }
{
    let place = target.place_mut(alloc, path)?;
    *place = new;
    Ok(())
}

/// Calls `change` with a mutable reference to the value in `target` to which the steps of `path`
/// lead. Fails as [`Places::place_mut`] does; `change` is not called then. After an error nothing
/// is changed, except that packed containers on the way may have been copied by one level each.
pub fn update<V: Places, F: FnOnce(&mut Value)>(
    target: &mut V,
    alloc: Global,
    path: &[PointerNode],
    change: F,
) -> Result<()>
    requires { F.IsAlwaysCallable change }
    ensures ok { OnOk result ((x : Value) × (y : Value)
        × (tree_at (steps_of path.now) (tree_of (V.held target.old)) ≡ Some (tree_of x))
        × (FnOnceReturnsAtMut F.FnOnce change x tt y)
        × PutsAtPath (steps_of path.now) x y (V.held target.old) (V.held target.new)) }
    ensures kept { KeepsTreeOnErr (V.held target.old) (V.held target.new) result }
    ensures kept_along { OnErr result (KeptAlong (steps_of path.now) Same
        (V.held target.old) (V.held target.new)) }
    ensures refused { FailsAlong (steps_of path.now) (tree_of (V.held target.old)) result }
{
    let place = target.place_mut(alloc, path)?;
    change(place);
    Ok(())
}

fn at_end(path: &[PointerNode]) -> bool
    ensures end { OnTrue result (path.now ≡ []) }
    ensures more { OnFalse result (0 < length path.now) }
{
    path.is_empty()
}

fn untaken(path: &[PointerNode]) -> &[PointerNode]
    requires { 0 < length path.now }
    ensures { result.now ≡ drop 1 path.now }
{
    &path[1..]
}

// Returns the value to which the first step of `path` leads, to be changed.
fn first_place<'v, S: ContainerMut>(
    container: &'v mut S,
    alloc: Global,
    path: &[PointerNode],
) -> Result<&'v mut Value>
    requires { 0 < length path.now }
    ensures* writes_back { sem 𝓛 (LendsSoOk S.row value_row container.entry result
        (λ n w. PutsAt (step_of (first_node path.now) ∷ []) result w
        (S.held container.old) (S.held n))
        (λ n. PutsNothing (step_of (first_node path.now) ∷ []) (S.held container.old) (S.held n))) }
    ensures leads { LeadsTo (step_of (first_node path.now) ∷ [])
        (tree_of (S.held container.old)) result }
{
    child_mut(container, alloc, &path[0])
}

// Returns the value to which the steps of `path` lead, to be changed.
pub(crate) fn reach_in<'v>(
    value: &'v mut Value,
    alloc: Global,
    path: &[PointerNode],
) -> Result<&'v mut Value>
    ensures* writes_back { sem 𝓛 (LendsAlong value.entry (steps_of path.now) result) }
    ensures leads { LeadsTo (steps_of path.now) (tree_of value.old) result }
{
    if at_end(path) {
        return Ok(value);
    }
    match first_place(value, alloc, path) {
        Ok(child) => reach_in(child, alloc, untaken(path)),
        Err(error) => Err(error),
    }
}

// Turns every error but `NoMemory` into `None`, so that a search that fails with `NotFound` or
// `TypeUnmatched` returns `None`.
pub(crate) fn none_if_missing<'a>(r: Result<&'a mut Value>) -> Result<Option<&'a mut Value>>
    ensures missing_as_none { result ≡ missing_as_none r.entry }
{
    match r {
        Ok(value) => Ok(Some(value)),
        Err(error) => match error.code {
            ErrorCode::NoMemory => Err(error),
            _ => Ok(None),
        },
    }
}
