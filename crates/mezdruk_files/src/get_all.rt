// The values at several paths as a change.
ghost use Rattle.std.specs.Prelude.{◌≡◌, ◌⊎◌, Ok, Err, map, IfOk, IfErr};
ghost use Rattle.mezdruk_files.specs.Changes.{ChangeFails, out_of_memory};
ghost use Rattle.mezdruk_files.specs.ValuePaths.{tree_at_value_path, not_there_at as not_found_at, tree_or_not_there, trees_at, array_of};
ghost use Rattle.json_value.specs.Denotes.{tree_of};
ghost use Rattle.json_value.specs.Seen.{seen};

use crate::change::ValueChange;
use crate::change_error::{ChangeCode, ChangeError};
use crate::value_path::{OUT_OF_MEMORY, ValuePath};
use json_value::{Value, View};
use std::alloc::Global;

/// The change to an array of the values at several paths, in the order of the paths. It fails with
/// `NotFound` and the number of the first path that leads to no value.
///
/// ```
/// use mezdruk_files::{ValueChange, GetAll, ValuePath};
/// use json_patch::Pointer;
/// use json_value::Value;
/// let paths = vec![in alloc;
///     ValuePath::Pointer(Pointer::parse(alloc, "/1")?),
///     ValuePath::Pointer(Pointer::parse(alloc, "/0")?),
/// ]?;
/// let values = vec![in alloc; Value::new_bool(true), Value::new_null()]?;
/// let mut value = Value::from_vec(values);
/// assert!(rt; GetAll { paths: &paths }.apply(alloc, &mut value).is_ok());
/// assert_eq!(rt; value.to_string(alloc)?.as_str(), "[null,true]");
/// ```
#[derive(Clone, Copy, Drop)]
pub struct GetAll<'a> {
    /// The paths.
    pub paths: &'a [ValuePath],
}

// Returns the error of the path of this number.
fn not_there_at(number: usize) -> ChangeError
    ensures { result ≡ not_found_at number }
{
    let number = if number < 4_294_967_296 {
        Some(number as u32)
    } else {
        None
    };
    ChangeError {
        code: ChangeCode::NotFound,
        number,
    }
}

// Returns the value at the path of this number.
fn value_at(
    alloc: Global,
    path: &ValuePath,
    number: usize,
    root: View<'_>,
) -> Result<Value, ChangeError>
    ensures ok { IfOk result (λ value.
        tree_or_not_there number (tree_at_value_path path.now (seen root.entry)) ≡ Ok (tree_of value)) }
    ensures err { IfErr result (ChangeFails
        (tree_or_not_there number (tree_at_value_path path.now (seen root.entry)))) }
{
    let Some(view) = path.find(root) else {
        return Err(not_there_at(number));
    };
    match view.to_value(alloc) {
        Ok(value) => Ok(value),
        Err(_) => Err(OUT_OF_MEMORY),
    }
}

// Returns the values at the paths.
fn values_at(alloc: Global, paths: &[ValuePath], root: View<'_>) -> Result<Vec<Value>, ChangeError>
    ensures ok { IfOk result (λ values.
        trees_at 0 paths.now (seen root.entry) ≡ Ok (map tree_of values.items)) }
    ensures err { IfErr result (λ error. (error ≡ out_of_memory)
        ⊎ (trees_at 0 paths.now (seen root.entry) ≡ Err error)) }
{
    let mut values = Vec::new(alloc);
    'paths: for i in 0..paths.len() {
        let value = match value_at(alloc, &paths[i], i, root) {
            Ok(value) => value,
            Err(error) => return Err(error),
        };
        match values.push(value) {
            Ok(()) => {}
            Err(_) => return Err(OUT_OF_MEMORY),
        }
    }
    Ok(values)
}

impl<'a> ValueChange for GetAll<'a> {
    ghost use Rattle.mezdruk_files.specs.ValuePaths.{trees_at, array_of};

    ghost changed = { λ change tree. array_of (trees_at 0 change.paths.now tree) };

    fn apply(&self, alloc: Global, value: &mut Value) -> Result<(), ChangeError> {
        let found = values_at(alloc, self.paths, value.view());
        match found {
            Ok(values) => {
                *value = Value::from_vec(values);
                Ok(())
            }
            Err(error) => Err(error),
        }
    }

    fn part_name(&self) -> &'static str {
        "path"
    }
}
