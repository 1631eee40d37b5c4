//! Worked examples of the patches from one value to another: each is the contract of a function
//! that does nothing.
ghost use Rattle.json_diff.specs.DiffExamples.{OperationsOnMembers, OperationsOnElements, NoOperationsOnOrder};
ghost use Rattle.json_diff.specs.MergeDiffExamples.{MergePatchOfTheRfc, NullsOfMergePatches, RepeatedKeysOfMergePatches};

/// Shows the merge patch from the first to the second value of RFC 7396, section 1.
pub fn merge_patch_of_the_rfc()
    ensures { MergePatchOfTheRfc }
{}

/// Shows that no merge patch adds a member that is null. A null member that both objects have
/// stays, and an array that contains null can be put.
pub fn nulls_of_merge_patches()
    ensures { NullsOfMergePatches }
{}

/// Shows that an object with a key that repeats is kept if it does not change. If it changes, there
/// is no merge patch.
pub fn repeated_keys_of_merge_patches()
    ensures { RepeatedKeysOfMergePatches }
{}

/// Shows that a patch first removes the keys that are gone; then it replaces values that differ and
/// adds new members.
pub fn operations_on_members()
    ensures { OperationsOnMembers }
{}

/// Shows that elements which are gone are removed at one index, and that elements at the end which
/// are the same are kept.
pub fn operations_on_elements()
    ensures { OperationsOnElements }
{}

/// Shows that the patch between two objects which differ only in the order of members has no
/// operations.
pub fn no_operations_on_order()
    ensures { NoOperationsOnOrder }
{}
