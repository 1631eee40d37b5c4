// Errors of pointers and patches.
ghost use Rattle.std.specs.Prelude.{◌≡◌, ◌++◌, IfOk, string_bytes, option_map, option_and_then, slice_get};
ghost use Rattle.json_io.specs.Errors.{OnlyNoMemory};
ghost use Rattle.json_value.specs.Seen.{seen, list_of};
ghost use Rattle.json_patch.specs.Described.{patch_code_name, described, path_named, pointer_suffix};
ghost use Rattle.json_patch.specs.Errors.{patch_code_number, no_memory_in_patch};

use crate::operation::path_of_operation;
use itoa::Buffer;
use json_io::Result as TextResult;
use json_value::View;
use std::alloc::{AllocError, AllocFailed, Global};
use thiserror::Error;

/// The cause of a [`PatchError`].
///
/// ```
/// use json_patch::PatchCode;
/// assert_eq!(rt; PatchCode::TestFailed.number(), 31);
/// ```
#[derive(Clone, Copy, PartialEq, Eq, Debug)]
pub enum PatchCode {
    /// Memory ran out.
    NoMemory,
    /// A pointer in an operation leads to no value: an object lacks the key, or an array has no
    /// such index.
    NotFound,
    /// A pointer in an operation leads into a value that is neither an object nor an array. A
    /// `remove` of the root, the whole value, fails so too.
    TypeUnmatched,
    /// The text given to `Pointer::parse` is not a JSON Pointer (RFC 6901, section 3). In a patch,
    /// an operation with such a text is `BadPatch`.
    BadPointer,
    /// The patch is not an array, or an element of it is not an operation
    /// (RFC 6902, sections 3 and 4).
    BadPatch,
    /// A `test` operation found a value that differs from its member `value`.
    TestFailed,
}

impl PatchCode {
    /// Returns the number of this code. `NoMemory`, `NotFound` and `TypeUnmatched` have the numbers
    /// of the `json_io` error codes with these names.
    pub fn number(self) -> u8
        ensures { result ≡ patch_code_number self }
    {
        match self {
            PatchCode::NoMemory => 1,
            PatchCode::NotFound => 19,
            PatchCode::TypeUnmatched => 20,
            PatchCode::BadPointer => 29,
            PatchCode::BadPatch => 30,
            PatchCode::TestFailed => 31,
        }
    }

    /// Returns the name of this code as it is written here, such as `NotFound`.
    pub fn name(self) -> &'static str
        ensures { result.now ≡ patch_code_name self }
    {
        match self {
            PatchCode::NoMemory => "NoMemory",
            PatchCode::NotFound => "NotFound",
            PatchCode::TypeUnmatched => "TypeUnmatched",
            PatchCode::BadPointer => "BadPointer",
            PatchCode::BadPatch => "BadPatch",
            PatchCode::TestFailed => "TestFailed",
        }
    }
}

/// The error of [`Pointer::parse`], [`apply_patch`] and [`apply_merge`]: what failed, and in which
/// operation of the patch.
///
/// [`Pointer::parse`]: crate::Pointer::parse
/// [`apply_patch`]: crate::apply_patch
/// [`apply_merge`]: crate::apply_merge
///
/// ```
/// use json_patch::{PatchCode, Pointer};
/// let error = Pointer::parse(alloc, "a").err().ok_or("a pointer")?;
/// assert_eq!(rt; error.code, PatchCode::BadPointer);
/// assert_eq!(rt; error.op, None);
/// ```
#[derive(Clone, Copy, PartialEq, Eq, Debug, Error)]
#[error("patch refused")]
pub struct PatchError {
    /// The cause.
    pub code: PatchCode,
    /// The index in the patch, counted from 0, of the operation that failed. It is `None` if memory
    /// ran out or the patch is not an array, and in errors of `Pointer::parse` and `apply_merge`.
    pub op: Option<u32>,
}

impl PatchError {
    /// Returns a text for people: the name of the code and, if `op` names an operation, its index,
    /// as in `NotFound in operation 0`. (`Display` writes only `patch refused`.)
    ///
    /// Fails with `NoMemory` if memory runs out.
    pub fn describe(&self, alloc: Global) -> TextResult<String>
        ensures text { IfOk result (λ s. string_bytes s ≡ described self.now.code self.now.op) }
        ensures only { OnlyNoMemory result }
    {
        let mut text = String::new(alloc);
        text.push_str(self.code.name())?;
        if let Some(i) = self.op {
            let mut buffer = Buffer::new();
            text.push_str(" in operation ")?;
            text.push_str(buffer.format(i))?;
        }
        Ok(text)
    }

    /// Returns the text of [`PatchError::describe`], followed by the member `path` of the operation
    /// that `op` names, as in `NotFound in operation 0 at /a/0`. `patch` is the patch whose
    /// application failed with this error.
    ///
    /// Leaves `path` out if `op` is `None` or `patch` has no such operation. Leaves it out too
    /// unless exactly one member has that name and is a string. Fails with `NoMemory` if memory
    /// runs out.
    ///
    /// ```
    /// use json_doc::read_document;
    /// use json_patch::{PatchCode, PatchError};
    /// use json_value::View;
    /// let patch = read_document(alloc, "[{\"op\": \"remove\", \"path\": \"/a/0\"}]")?;
    /// let error = PatchError {
    ///     code: PatchCode::NotFound,
    ///     op: Some(0),
    /// };
    /// let text = error.describe_in(alloc, View::packed(patch.view()))?;
    /// assert_eq!(rt; text.as_str(), "NotFound in operation 0 at /a/0");
    /// assert_eq!(rt; error.describe(alloc)?.as_str(), "NotFound in operation 0");
    /// ```
    pub fn describe_in(&self, alloc: Global, patch: View<'_>) -> TextResult<String>
        ensures text { IfOk result (λ s. string_bytes s ≡ described self.now.code self.now.op
            ++ pointer_suffix (path_named self.now.op (seen patch.entry))) }
        ensures only { OnlyNoMemory result }
    {
        let mut text = self.describe(alloc)?;
        if let Some(pointer) = path_member(self.op, patch) {
            text.push_str(" at ")?;
            text.push_str(pointer)?;
        }
        Ok(text)
    }
}

// Returns the string member `path` of the operation at index `op` of the patch, if there is one.
fn path_member<'a>(op: Option<u32>, patch: View<'a>) -> Option<&'a str>
    ensures { option_map (λ s. s.now) result ≡ path_named op (seen patch.entry) }
{
    match op {
        Some(i) => match operation_at(patch, i as usize) {
            Some(operation) => path_of_operation(operation),
            None => None,
        },
        None => None,
    }
}

// Returns the element at index `i` if the patch is an array that has one.
fn operation_at<'a>(patch: View<'a>, i: usize) -> Option<View<'a>>
    ensures { option_map seen result
        ≡ option_and_then (λ ts. slice_get ts i) (list_of (seen patch.entry)) }
{
    match patch.as_array() {
        Some(list) => list.get(i),
        None => None,
    }
}

impl From<AllocError> for PatchError {
    ghost from_gives = { λ _ e. e ≡ no_memory_in_patch };

    fn from(_error: AllocError) -> PatchError {
        PatchError {
            code: PatchCode::NoMemory,
            op: None,
        }
    }
}

impl<T: Drop> From<AllocFailed<T>> for PatchError {
    ghost from_gives = { λ _ e. e ≡ no_memory_in_patch };

    fn from(_error: AllocFailed<T>) -> PatchError {
        PatchError {
            code: PatchCode::NoMemory,
            op: None,
        }
    }
}
