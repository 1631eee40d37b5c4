// Patches and merge patches as changes.
ghost use Rattle.std.specs.Prelude.{◌≡◌, ◌<◌, ◌↔◌, ◌^◌, ℕ, length, Ok, None, Option, Result, IsTrue, IsSome, IfSome, Err};
ghost use Rattle.json_doc.specs.Readings.{elements};
ghost use Rattle.mezdruk_files.specs.Changes.{ChangeFails};
ghost use Rattle.mezdruk_files.specs.PatchOutcomes.{outcome_of_patch};
ghost use Rattle.json_grammar.specs.Tree.{Tree};
ghost use Rattle.json_patch.specs.Errors.{PatchFails};
ghost use Rattle.json_patch.specs.Merge.{merge_patched};
ghost use Rattle.json_patch.specs.Patch.{PatchFailure, bad_patch, patched};
ghost use Rattle.json_value.specs.Seen.{seen};

use crate::change::ValueChange;
use crate::change_error::{ChangeCode, ChangeError};
use crate::patch_problem::find_problem;
use crate::value_path::OUT_OF_MEMORY;
use json_patch::{PatchCode, PatchError, apply_merge, apply_patch};
use json_value::{Value, View};
use std::alloc::Global;

/// The change by a JSON Patch (RFC 6902), whose operations apply in order.
///
/// ```
/// use json_doc::read_document;
/// use mezdruk_files::{ApplyPatch, ValueChange};
/// use json_value::{Value, View};
/// let patch = read_document(alloc, "[{\"op\": \"replace\", \"path\": \"\", \"value\": 1}]")?;
/// let change = ApplyPatch::new(View::packed(patch.view())).ok_or("too many operations")?;
/// let mut value = Value::Null;
/// assert!(rt; change.apply(alloc, &mut value).is_ok());
/// assert_eq!(rt; value.to_string(alloc)?.as_str(), "1");
/// ```
#[derive(Clone, Copy, Drop)]
pub struct ApplyPatch<'a> {
    patch: View<'a>,
    ghost few: { length (elements (seen patch)) < 2 ^ 32 },
}

/// The change by a JSON Merge Patch (RFC 7396).
///
/// ```
/// use json_doc::read_document;
/// use mezdruk_files::{ApplyMerge, ValueChange};
/// use json_value::{Value, View};
/// let patch = read_document(alloc, "{\"a\": 1}")?;
/// let change = ApplyMerge::new(View::packed(patch.view()));
/// let mut value = Value::Null;
/// assert!(rt; change.apply(alloc, &mut value).is_ok());
/// assert_eq!(rt; value.to_string(alloc)?.as_str(), "{\"a\":1}");
/// ```
#[derive(Clone, Copy, Drop)]
pub struct ApplyMerge<'a> {
    patch: View<'a>,
}

// Returns whether a patch has fewer than 4,294,967,296 operations.
fn has_few_operations(patch: View<'_>) -> bool
    ensures { IsTrue result ↔ (length (elements (seen patch.entry)) < 2 ^ 32) }
{
    match patch.as_array() {
        Some(list) => list.len() <= u32::MAX as usize,
        None => true,
    }
}

impl<'a> ApplyPatch<'a> {
    ghost use Rattle.mezdruk_files.specs.Patches.{patch_tree};

    /// Creates the change by this JSON Patch. Returns `None` if it has more than 4,294,967,295
    /// operations. A value that is not an array of operations is accepted here, but the change then
    /// applies to no value.
    pub fn new(patch: View<'a>) -> Option<ApplyPatch<'a>>
        ensures some { IsSome result ↔ (length (elements (seen patch.entry)) < 2 ^ 32) }
        ensures patch { IfSome result (λ change. patch_tree change ≡ seen patch.entry) }
    {
        if has_few_operations(patch) {
            Some(ApplyPatch { patch })
        } else {
            None
        }
    }
}

impl<'a> ApplyMerge<'a> {
    ghost use Rattle.mezdruk_files.specs.Patches.{merge_tree};

    /// Creates the change by this merge patch.
    pub fn new(patch: View<'a>) -> ApplyMerge<'a>
        ensures { merge_tree result ≡ seen patch.entry }
    {
        ApplyMerge { patch }
    }
}

// Returns the error of a patch that is none; without a number it is no array.
fn bad_patch_error(alloc: Global, patch: View<'_>, number: Option<u32>) -> ChangeError
    ensures { (made : Result Tree (PatchFailure × Option ℕ)) → made ≡ Err (bad_patch, number)
        → ChangeFails (outcome_of_patch (seen patch.entry) made) result }
{
    match find_problem(alloc, patch, number) {
        Ok(problem) => ChangeError {
            code: ChangeCode::BadPatch(problem),
            number,
        },
        Err(_) => OUT_OF_MEMORY,
    }
}

// Returns the error of a patch.
fn change_error(alloc: Global, patch: View<'_>, error: PatchError) -> ChangeError
    ensures { (made : Result Tree (PatchFailure × Option ℕ)) → PatchFails made error.code error.op
        → ChangeFails (outcome_of_patch (seen patch.entry) made) result }
{
    let number = error.op;
    match error.code {
        PatchCode::NotFound => ChangeError {
            code: ChangeCode::NotFound,
            number,
        },
        PatchCode::TypeUnmatched => ChangeError {
            code: ChangeCode::TypeUnmatched,
            number,
        },
        PatchCode::BadPatch => bad_patch_error(alloc, patch, number),
        PatchCode::TestFailed => ChangeError {
            code: ChangeCode::TestFailed,
            number,
        },
        PatchCode::NoMemory | PatchCode::BadPointer => OUT_OF_MEMORY,
    }
}

impl<'a> ValueChange for ApplyPatch<'a> {
    ghost use Rattle.mezdruk_files.specs.Patches.{patch_tree};

    ghost changed = { λ change tree. outcome_of_patch (patch_tree change)
        (patched tree (patch_tree change)) };

    fn apply(&self, alloc: Global, value: &mut Value) -> Result<(), ChangeError> {
        match apply_patch(alloc, value, self.patch) {
            Ok(()) => Ok(()),
            Err(error) => Err(change_error(alloc, self.patch, error)),
        }
    }

    fn part_name(&self) -> &'static str {
        "operation"
    }
}

impl<'a> ValueChange for ApplyMerge<'a> {
    ghost use Rattle.mezdruk_files.specs.Patches.{merge_tree};

    ghost changed = { λ change tree. Ok (merge_patched tree (merge_tree change)) };

    fn apply(&self, alloc: Global, value: &mut Value) -> Result<(), ChangeError> {
        match apply_merge(alloc, value, self.patch) {
            Ok(()) => Ok(()),
            Err(_) => Err(OUT_OF_MEMORY),
        }
    }

    fn part_name(&self) -> &'static str {
        "member"
    }
}
