// Paths and edits.
ghost use Rattle.std.specs.Prelude.{◌≡◌, [], ◌∷◌, ◌++◌, OnOk, OnErr};
ghost use Rattle.json_value.specs.Edits.{step_of, steps_of, path_steps, edit_path, edit_of, edit_at};
ghost use Rattle.json_io.specs.Errors.{OnlyNoMemory};

use crate::text::Text;
use crate::value::Value;
use json_io::Result;
use std::alloc::Global;

/// A step of a [`Path`]: from an array or an object to one of its elements or members.
///
/// ```
/// use json_doc::read_document;
/// use json_value::{PointerNode, Text, View};
/// let doc = read_document(alloc, "{\"a\": [true, false]}")?;
/// let steps = [PointerNode::Key(Text::from_static("a")), PointerNode::Index(1)];
/// assert!(rt; matches!(&steps[0], PointerNode::Key(key) if key.as_str() == "a"));
/// let place = View::packed(doc.view()).pointer(&steps).ok_or("no place")?;
/// assert_eq!(rt; place.as_bool(), Some(false));
/// ```
#[derive(Drop)]
pub enum PointerNode {
    /// From an object to the value of its first member with this key.
    Key(Text),
    /// From an array to its element with this index, counted from 0.
    Index(usize),
}

/// The steps from a value to one within it, one level each. A path without steps leads to the value
/// itself.
///
/// ```
/// use json_value::{Path, PointerNode, Value};
/// let value = Value::from_vec(vec![in alloc; Value::new_bool(true)]?);
/// let mut path = Path::new(alloc);
/// assert!(rt; value.pointer(path.steps()).ok_or("no value")?.as_array().is_some());
/// path.push(PointerNode::Index(0))?;
/// assert_eq!(rt; value.pointer(path.steps()).ok_or("no element")?.as_bool(), Some(true));
/// ```
#[derive(Drop)]
pub struct Path {
    pub(crate) steps: Vec<PointerNode>,
}

/// A change of a value, to be made by [`Value::apply`]. `path` leads from that value to the one
/// within it that is changed. If the change cannot be made there, `apply` fails and the content of
/// the value is unchanged.
///
/// ```
/// use json_text::ErrorCode;
/// use json_value::{Edit, Path, Value};
/// let edit = Edit::Push { path: Path::new(alloc), value: Value::new_bool(true) };
/// let mut value = Value::new_array();
/// value.apply(alloc, &edit)?;
/// assert_eq!(rt; value.to_string(alloc)?.as_str(), "[true]");
/// let refused = Value::new_null().apply(alloc, &edit).err();
/// assert!(rt; matches!(refused, Some(error) if error.code == ErrorCode::TypeUnmatched));
/// ```
#[derive(Drop)]
pub enum Edit {
    /// Replaces the value at the end of `path` by `value`.
    Set { path: Path, value: Value },
    /// In the object at the end of `path`, sets the value of the first member named `key`, or
    /// appends such a member.
    Insert { path: Path, key: Text, value: Value },
    /// Appends `value` to the array at the end of `path`.
    Push { path: Path, value: Value },
    /// Removes what `step` names in the value at the end of `path`: all members with a key, or the
    /// element with an index.
    Remove { path: Path, step: PointerNode },
}

impl Path {
    /// Creates a path without steps, whose list of steps allocates with `alloc`. Takes no memory
    /// yet.
    pub fn new(alloc: Global) -> Path
        ensures { path_steps result ≡ [] }
    {
        Path {
            steps: Vec::new(alloc),
        }
    }

    /// Appends `step` to the path. Fails with `NoMemory` if memory runs out; the path is then
    /// unchanged.
    pub fn push(&mut self, step: PointerNode) -> Result<()>
        ensures ok { OnOk result (path_steps self.new
            ≡ path_steps self.old ++ step_of step ∷ []) }
        ensures kept { OnErr result (path_steps self.new ≡ path_steps self.old) }
        ensures only { OnlyNoMemory result }
    {
        self.steps.push(step)?;
        Ok(())
    }

    /// Returns the steps of the path, in order.
    pub fn steps(&self) -> &[PointerNode]
        ensures { steps_of result.now ≡ path_steps self.now }
    {
        self.steps.as_slice()
    }
}

impl Edit {
    /// Returns the path of the edit, which leads to the value that is changed.
    pub fn path(&self) -> &Path
        ensures edit { edit_of self.now ≡ edit_at (path_steps result.now) self.now }
        ensures steps { path_steps result.now ≡ edit_path self.now }
    {
        match self {
            Edit::Set { path, .. }
            | Edit::Insert { path, .. }
            | Edit::Push { path, .. }
            | Edit::Remove { path, .. } => path,
        }
    }
}
