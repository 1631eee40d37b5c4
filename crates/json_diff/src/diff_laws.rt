//! Laws of the patches from one value to another: each is the contract of a function that does
//! nothing.
ghost use Rattle.json_diff.specs.Diff.{FewOperations};
ghost use Rattle.json_diff.specs.DiffDocument.{PatchLeads, EmptyPatchBetweenSame};
ghost use Rattle.json_diff.specs.MergeDiff.{MergePatchLeads, MergePatchOfSame, MergePatchExists};

/// States that the merge patch from one value to another makes of the first a value that is the
/// same as the second.
pub fn merge_patch_leads()
    ensures { MergePatchLeads }
{}

/// States that the merge patch between two objects that are the same is the empty object.
pub fn merge_patch_of_same()
    ensures { MergePatchOfSame }
{}

/// States that there is a merge patch between two values if no key repeats in either and no member
/// of the second is null.
pub fn merge_patch_exists()
    ensures { MergePatchExists }
{}

/// States that the patch from one value to another makes of the first a value that is the same as
/// the second.
pub fn patch_leads()
    ensures { PatchLeads }
{}

/// States that the patch between two values is the empty array exactly if they are the same.
pub fn empty_patch_between_same()
    ensures { EmptyPatchBetweenSame }
{}

/// States that the patch between two values has at most as many operations as they have values and
/// names together.
pub fn few_operations()
    ensures { FewOperations }
{}
