// What an edit changed, by which it is undone.
ghost use Rattle.std.specs.Prelude.{◌≡◌};
ghost use Rattle.json_value.specs.Edits.{path_steps};
ghost use Rattle.json_history.specs.ChangeTrees.{change_path};

use crate::taken::Taken;
use json_value::{Path, Value};

/// What an edit changed in a value: all that is needed to undo the edit. Each `path` begins at the
/// root of the value.
///
/// ```
/// use json_data::from_str;
/// use json_history::{Change, History};
/// use json_value::{Edit, Value};
/// let mut history = History::new(alloc, from_str::<Value>(alloc, "[1,2]")?);
/// history.apply(alloc, from_str::<Edit>(alloc, "[\"remove\",[],0]")?)?;
/// let change = history.changes().first().ok_or("no change")?;
/// assert!(rt; matches!(change, Change::PutBack { index: 0, .. }));
/// assert!(rt; change.path().steps().is_empty());
/// ```
#[derive(Drop)]
pub enum Change {
    /// The edit replaced the value `old` at `path`. It is undone by putting `old` there.
    Put {
        path: Path,
        old: Value,
    },
    /// The edit appended a member to the object, or an element to the array, at `path`. It is
    /// undone by removing the last one.
    DropLast {
        path: Path,
    },
    /// The edit removed the element `old` at `index`, counted from 0, from the array at `path`. It
    /// is undone by inserting it there.
    PutBack {
        path: Path,
        index: usize,
        old: Value,
    },
    /// The edit removed the members `pairs` from the object at `path`. It is undone by inserting
    /// each at the index that it had.
    PutPairs {
        path: Path,
        pairs: Taken,
    },
}

impl Change {
    /// Returns the `path` of this change, whatever its variant.
    pub fn path(&self) -> &Path
        ensures { path_steps result.now ≡ change_path self.now }
    {
        match self {
            Change::Put { path, .. }
            | Change::DropLast { path }
            | Change::PutBack { path, .. }
            | Change::PutPairs { path, .. } => path,
        }
    }
}
