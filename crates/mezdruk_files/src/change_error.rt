// Why a change does not apply.
ghost use Rattle.std.specs.Prelude.{◌≡◌};
ghost use Rattle.mezdruk_files.specs.Reports.{change_name};
ghost use Rattle.mezdruk_files.specs.Sentences.{change_sentence};

use crate::patch_problem::PatchProblem;

/// The kinds of a [`ChangeError`].
///
/// ```
/// use mezdruk_files::ChangeCode;
/// assert_eq!(rt; ChangeCode::TestFailed.name(), "TestFailed");
/// ```
#[derive(Clone, Copy, Debug, PartialEq, Eq)]
pub enum ChangeCode {
    /// Memory ran out.
    NoMemory,
    /// A key or an index of a path or a pointer is not in the value.
    NotFound,
    /// A path leads by a key into a value that is no object, or by an index into one that is no
    /// array.
    TypeUnmatched,
    /// The patch is not an array of valid operations (RFC 6902, section 4), for this reason.
    BadPatch(PatchProblem),
    /// An operation `test` found another value than the expected one (RFC 6902, section 4.6).
    TestFailed,
}

impl ChangeCode {
    /// Returns the name of the code, such as `NotFound`.
    pub fn name(self) -> &'static str
        ensures { result.now ≡ change_name self }
    {
        match self {
            ChangeCode::NoMemory => "NoMemory",
            ChangeCode::NotFound => "NotFound",
            ChangeCode::TypeUnmatched => "TypeUnmatched",
            ChangeCode::BadPatch(_) => "BadPatch",
            ChangeCode::TestFailed => "TestFailed",
        }
    }

    /// Returns what the report of an error of this kind says.
    pub(crate) fn sentence(self) -> &'static str
        ensures { result.now ≡ change_sentence self }
    {
        match self {
            ChangeCode::NoMemory => "memory ran out",
            ChangeCode::NotFound => "a key or an index is not there",
            ChangeCode::TypeUnmatched => "a key meets no object, or an index no array",
            ChangeCode::BadPatch(problem) => problem.sentence(),
            ChangeCode::TestFailed => "`test` found another value",
        }
    }
}

/// Why a change does not apply to a value.
///
/// ```
/// use mezdruk_files::{ChangeCode, ChangeError};
/// let error = ChangeError { code: ChangeCode::NotFound, number: Some(2) };
/// assert_eq!(rt; error.code.name(), "NotFound");
/// ```
#[derive(Clone, Copy, Debug, PartialEq, Eq)]
pub struct ChangeError {
    /// The kind of the error.
    pub code: ChangeCode,
    /// The index of the edit or the operation that does not apply, counted from 0. `None` if memory
    /// ran out, or if the change has no parts.
    pub number: Option<u32>,
}
