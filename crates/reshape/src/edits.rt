// Edits in turn.
ghost use Rattle.std.specs.Prelude.{◌≡◌, [], map};
ghost use Rattle.json_value.specs.Edits.{edit_of};
ghost use Rattle.reshape.specs.Asked.{edits_of};

use json_value::Edit;
use std::alloc::Global;

/// The edits that the arguments of `reshape` ask for, in the order in which they apply.
///
/// ```
/// use json_text::Words;
/// use json_value::Edit;
/// use reshape::{Asked, asked};
/// let mut words = Words::new(alloc);
/// words.push("[[\"set\",[\"a\",0],1],[\"remove\",[],\"b\"]]")?;
/// let Asked::Reshape(edits, _) = asked(alloc, &words)? else {
///     return Err("made input".into());
/// };
/// assert!(rt; matches!(edits.as_slice(), [Edit::Set { .. }, Edit::Remove { .. }]));
/// ```
#[derive(Drop)]
pub struct Edits {
    pub(crate) list: Vec<Edit>,
}

impl Edits {
    /// Creates an empty list of edits. Allocates nothing.
    pub(crate) fn none(alloc: Global) -> Edits
        ensures { edits_of result ≡ [] }
    {
        Edits {
            list: Vec::new(alloc),
        }
    }

    /// Returns the edits, in the order in which they apply.
    pub fn as_slice(&self) -> &[Edit]
        ensures { map edit_of result.now ≡ edits_of self.now }
    {
        self.list.as_slice()
    }
}
