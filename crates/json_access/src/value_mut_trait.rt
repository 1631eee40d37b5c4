// Places of values, lent to be changed.
ghost use Rattle.std.specs.Prelude.{◌≡◌, [], ◌∷◌, option_map, IfSome, IfOk, Ok};
ghost use Rattle.std.specs.Borrow.{sem};
ghost use Rattle.json_grammar.specs.Tree.{list, pairs, list_trees, list_pairs};
ghost use Rattle.json_model.specs.Edit.{edited_once, set_at};
ghost use Rattle.json_value.specs.Denotes.{tree_of, list_in, pairs_in};
ghost use Rattle.json_value.specs.Edits.{steps_of};
ghost use Rattle.json_value.specs.Lending.{lent, LendsPart};
ghost use Rattle.json_value.specs.Rows.{value_row, array_row, object_row};
ghost use Rattle.json_value.specs.Seen.{list_of, object_pairs};
ghost use Rattle.json_value.specs.Steps.{child, tree_at};
ghost use Rattle.json_value.specs.Touched.{Exchanges, Same, KeptAlong};
ghost use Rattle.json_value.specs.Written.{ArrayOpened, ObjectOpened};
ghost use Rattle.json_value.specs.declared.value.Value.{Value, Array as ArrayValue, Object as ObjectValue};
ghost use Rattle.json_io.specs.Errors.{OnlyNoMemory};

use crate::value_trait::JsonValueTrait;
use json_io::Result;
use json_value::{Array, Index, Object, PointerNode, Value};
use std::alloc::Global;

/// Methods to change a JSON value in place, by mutable references to it and to values within it.
/// What is written through a reference changes that value and nothing else.
///
/// A value may be packed: then it is read from a shared document. Packed containers on the way to
/// what is lent are copied by one level each. After `None` or an error nothing else is changed.
///
/// ```
/// use json_access::JsonValueMutTrait;
/// use json_doc::read_document;
/// use json_value::Value;
/// let doc = read_document(alloc, "[[true], [false]]")?;
/// let mut value = Value::from_place(alloc, &doc, doc.root())?;
/// *value.get_mut(alloc, 1usize)?.ok_or("no element")? = Value::new_null();
/// assert_eq!(rt; value.to_string(alloc)?.as_str(), "[[true],null]");
/// assert!(rt; value.get_mut(alloc, 2usize)?.is_none());
/// ```
pub trait JsonValueMutTrait: JsonValueTrait {
    /// The value to which, and within which, references are lent.
    ghost held: { Self → Value };

    /// Returns a mutable reference to the array that the value is, or `None` if it is of another
    /// kind. What is written through it becomes the value's array. A packed array is first copied
    /// by one level. Fails with `NoMemory` if memory runs out. `None` and an error leave the value
    /// as it was.
    fn as_array_mut(&mut self, alloc: Global) -> Result<Option<&mut Array>>
        ensures* writes_back { sem 𝓛 (LendsPart Self.row array_row self.entry result
            (λ n w. (Self.tree n ≡ list (list_trees (list_in w))) × (held n ≡ ArrayValue w))
            (λ n. (Self.tree n ≡ Self.tree self.old) × (held n ≡ held self.old))) }
        ensures array { IfOk result (λ o. option_map (λ a. list_in a.now) o
            ≡ list_of (Self.tree self.old)) }
        ensures children { IfSome (lent result) (ArrayOpened (held self.old)) }
        ensures only { OnlyNoMemory result };

    /// Returns a mutable reference to the object that the value is, or `None` if it is of another
    /// kind. What is written through it becomes the value's object. A packed object is first copied
    /// by one level. Fails with `NoMemory` if memory runs out. `None` and an error leave the value
    /// as it was.
    fn as_object_mut(&mut self, alloc: Global) -> Result<Option<&mut Object>>
        ensures* writes_back { sem 𝓛 (LendsPart Self.row object_row self.entry result
            (λ n w. (Self.tree n ≡ pairs (list_pairs (pairs_in w))) × (held n ≡ ObjectValue w))
            (λ n. (Self.tree n ≡ Self.tree self.old) × (held n ≡ held self.old))) }
        ensures object { IfOk result (λ o. option_map (λ a. pairs_in a.now) o
            ≡ object_pairs (Self.tree self.old)) }
        ensures children { IfSome (lent result) (ObjectOpened (held self.old)) }
        ensures only { OnlyNoMemory result };

    /// Returns a mutable reference to the value of the first member named `index`, or to the
    /// element at `index`, counted from 0, or `None` if there is none. `index` is a `&str`, a
    /// `usize` or a [`PointerNode`]. A packed container is first copied by one level. Fails with
    /// `NoMemory` if memory runs out. After `None` or an error nothing is changed, except that this
    /// copy may have been made.
    fn get_mut<I: Index>(&mut self, alloc: Global, index: I) -> Result<Option<&mut Value>>
        ensures* writes_back { sem 𝓛 (LendsPart Self.row value_row self.entry result
            (λ n w. IfSome (lent result) (λ x.
            (edited_once (set_at (I.step index ∷ []) (tree_of w)) (Self.tree self.old)
            ≡ Ok (Self.tree n))
            × Exchanges (I.step index ∷ []) x w (held self.old) (held n)))
            (λ n. (Self.tree n ≡ Self.tree self.old)
            × KeptAlong (I.step index ∷ []) Same (held self.old) (held n))) }
        ensures leads { IfOk result (λ o. option_map (λ x. tree_of x.now) o
            ≡ child (I.step index) (Self.tree self.old)) }
        ensures only { OnlyNoMemory result };

    /// Returns a mutable reference to the value to which the steps of `path` lead, or `None` if a
    /// step names a member or an element that is not there. Without steps it is the whole value.
    /// Packed containers on the way are copied by one level each. Fails with `NoMemory` if memory
    /// runs out. After `None` or an error nothing is changed, except that such copies may have been
    /// made.
    fn pointer_mut(&mut self, alloc: Global, path: &[PointerNode]) -> Result<Option<&mut Value>>
        ensures* writes_back { sem 𝓛 (LendsPart Self.row value_row self.entry result
            (λ n w. IfSome (lent result) (λ x.
            (edited_once (set_at (steps_of path.now) (tree_of w)) (Self.tree self.old)
            ≡ Ok (Self.tree n))
            × Exchanges (steps_of path.now) x w (held self.old) (held n)))
            (λ n. (Self.tree n ≡ Self.tree self.old)
            × KeptAlong (steps_of path.now) Same (held self.old) (held n))) }
        ensures leads { IfOk result (λ o. option_map (λ x. tree_of x.now) o
            ≡ tree_at (steps_of path.now) (Self.tree self.old)) }
        ensures only { OnlyNoMemory result };

    // the tree is the held value's
    ghost denotes: { (v : Self) → Self.tree v ≡ tree_of (held v) };
}

impl JsonValueMutTrait for Value {
    ghost use Rattle.std.proofs.Common.{refl};

    ghost held = { λ v. v };

    ghost denotes = { λ v. refl };

    fn as_array_mut(&mut self, alloc: Global) -> Result<Option<&mut Array>> {
        Value::as_array_mut(self, alloc)
    }

    fn as_object_mut(&mut self, alloc: Global) -> Result<Option<&mut Object>> {
        Value::as_object_mut(self, alloc)
    }

    fn get_mut<I: Index>(&mut self, alloc: Global, index: I) -> Result<Option<&mut Value>> {
        self.step_mut(alloc, index)
    }

    fn pointer_mut(&mut self, alloc: Global, path: &[PointerNode]) -> Result<Option<&mut Value>> {
        self.reach(alloc, path)
    }
}
