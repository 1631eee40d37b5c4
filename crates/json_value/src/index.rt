// Steps into values, as calls take them.
ghost use Rattle.std.specs.Prelude.{◌≡◌, [], ◌∷◌, Ok, IfOk, option_map};
ghost use Rattle.std.specs.Borrow.{LendsSoOk, sem};
ghost use Rattle.json_model.specs.Edit.{Step, key_step, index_step};
ghost use Rattle.json_value.specs.Denotes.{tree_of};
ghost use Rattle.json_value.specs.Edits.{step_of};
ghost use Rattle.json_value.specs.Lending.{put_or_insert, PutsNothing, FailsToInsert};
ghost use Rattle.json_value.specs.Rows.{value_row};
ghost use Rattle.json_value.specs.Steps.{key_in, index_in, child, tree_or_null};
ghost use Rattle.json_value.specs.Touched.{ExchangesOrUpserts};

use crate::container_mut::place_or_insert;
use crate::path::PointerNode;
use crate::value::Value;
use json_io::Result;
use std::alloc::Global;

/// A step into a value, as its methods take it: a key (`&str`) leads to the value of the first
/// member of an object with that name, an index (`usize`) to an element of an array, counted from
/// 0. A [`PointerNode`] is either.
///
/// ```
/// use json_value::{Index, Value};
/// let mut value = Value::new_null();
/// *"a".index_or_insert(alloc, &mut value)? = Value::new_array();
/// assert_eq!(rt; value.to_string(alloc)?.as_str(), "{\"a\":[]}");
/// assert!(rt; 0usize.index_or_insert(alloc, &mut value).is_err());
/// assert_eq!(rt; ("a".as_key(), "a".as_index(), 0usize.as_index()), (Some("a"), None, Some(0)));
/// ```
pub trait Index: Drop {
    /// The step from a value to one of its members or elements.
    ghost step: { Self → Step };

    /// Returns the key, or `None` if the step is an index.
    fn as_key(&self) -> Option<&str>
        ensures key { option_map (λ s. s.now) result ≡ key_in (step self.now) };

    /// Returns the index, or `None` if the step is a key.
    fn as_index(&self) -> Option<usize>
        ensures index { result ≡ index_in (step self.now) };

    /// Returns a mutable reference to the value in `v` to which the step leads. A key that is
    /// missing is first appended with null, and if `v` is null it counts as an empty object. A
    /// write through the reference changes that value and nothing else. A packed container is first
    /// copied by one level.
    ///
    /// Fails with `NotFound` if the array has no such index. Fails with `TypeUnmatched` for an
    /// index if `v` is no array, and for a key if it is neither an object nor null. Fails with
    /// `NoMemory` if memory runs out. After an error nothing is changed, except that this copy may
    /// have been made.
    final fn index_or_insert<'v>(&self, alloc: Global, v: &'v mut Value) -> Result<&'v mut Value>
        ensures* writes_back { sem 𝓛 (LendsSoOk value_row value_row v.entry result
            (λ n w. (put_or_insert (step self.now) (tree_of w) (tree_of v.old) ≡ Ok (tree_of n))
            × IfOk result (λ x. ExchangesOrUpserts (step self.now) x.now w v.old n))
            (PutsNothing (step self.now ∷ []) v.old)) }
        ensures value { IfOk result (λ x. tree_of x.now
            ≡ tree_or_null (child (step self.now) (tree_of v.old))) }
        ensures refused { FailsToInsert (step self.now) (tree_of v.old) result }
    {
        place_or_insert(v, alloc, self)
    }
}

impl Index for usize {
    ghost step = { index_step };

    fn as_key(&self) -> Option<&str> {
        None
    }

    fn as_index(&self) -> Option<usize> {
        Some(*self)
    }
}

impl Index for &str {
    ghost step = { λ s. key_step s.now };

    fn as_key(&self) -> Option<&str> {
        Some(self)
    }

    fn as_index(&self) -> Option<usize> {
        None
    }
}

impl Index for PointerNode {
    ghost step = { step_of };

    fn as_key(&self) -> Option<&str> {
        match self {
            PointerNode::Key(key) => Some(key.as_str()),
            PointerNode::Index(_) => None,
        }
    }

    fn as_index(&self) -> Option<usize> {
        match self {
            PointerNode::Key(_) => None,
            PointerNode::Index(i) => Some(*i),
        }
    }
}

impl Index for &PointerNode {
    ghost step = { λ s. step_of s.now };

    fn as_key(&self) -> Option<&str> {
        (**self).as_key()
    }

    fn as_index(&self) -> Option<usize> {
        (**self).as_index()
    }
}
