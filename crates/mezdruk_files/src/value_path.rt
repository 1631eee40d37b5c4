// Where a value is in a document.
ghost use Rattle.std.specs.Prelude.{◌≡◌, option_map};
ghost use Rattle.json_value.specs.Seen.{seen};

use crate::change_error::{ChangeCode, ChangeError};
use json_patch::Pointer;
use json_value::{Path, View};

/// The error if memory runs out.
pub(crate) const OUT_OF_MEMORY: ChangeError = ChangeError {
    code: ChangeCode::NoMemory,
    number: None,
};

/// Where a value is in a document: a JSON Pointer (RFC 6901), or a path.
///
/// ```
/// use mezdruk_files::ValuePath;
/// use json_patch::Pointer;
/// use json_value::Value;
/// let path = ValuePath::Pointer(Pointer::parse(alloc, "/0")?);
/// let value = Value::from_vec(vec![in alloc; Value::new_bool(true)]?);
/// assert!(rt; path.find(value.view()).is_some_and(|found| found.as_bool() == Some(true)));
/// ```
#[derive(Drop)]
pub enum ValuePath {
    /// What the pointer references.
    Pointer(Pointer),
    /// What is at the end of the path.
    Steps(Path),
}

impl ValuePath {
    ghost use Rattle.mezdruk_files.specs.ValuePaths.{tree_at_value_path};

    /// Returns the value there, or `None` if there is none.
    pub fn find<'a>(&self, root: View<'a>) -> Option<View<'a>>
        ensures { option_map seen result ≡ tree_at_value_path self.now (seen root.entry) }
    {
        match self {
            ValuePath::Pointer(pointer) => pointer.find(root),
            ValuePath::Steps(path) => root.pointer(path.steps()),
        }
    }
}
