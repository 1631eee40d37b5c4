//! Laws of pointers, patches and merge patches: each is the contract of a function that does
//! nothing.
ghost use Rattle.json_patch.specs.Laws.{PointerTextParses, ParsedTextIsPointerText, AddIsInsert, AddIsPush, RemoveIsRemove, ReplaceIsSet, CopyIsAdd, MoveIsRemoveAndAdd, MoveToItself, AddThenRemoveMember, AddThenRemoveElement, RemovesWhatExists, EmptyPatchKeeps, MergedTwice, MergedTwiceSame, OtherMembersStay, DecimalIsIndex, IndexIsNumeral, NumeralIsIndex, PatchAppliesOperations, FirstBadOperationIsNamed, AppliedInTurn, FirstTokenThenRest, TokensArePath, AddAtRoot};

/// States that the text of tokens parses to the same tokens.
pub fn pointer_text_parses()
    ensures { PointerTextParses }
{}

/// States that a text which parses to some tokens is the text of these tokens.
pub fn parsed_text_is_pointer_text()
    ensures { ParsedTextIsPointerText }
{}

/// States that the decimal digits of a number below 2^64 are an index, which is that number.
pub fn decimal_is_index()
    ensures { DecimalIsIndex }
{}

/// States that a token which is an index is the decimal numeral of that index.
pub fn index_is_numeral()
    ensures { IndexIsNumeral }
{}

/// States that a decimal numeral is an index unless it begins with 0 and is not `0` itself.
pub fn numeral_is_index()
    ensures { NumeralIsIndex }
{}

/// States that a pointer is followed token by token, from the first to the last.
pub fn first_token_then_rest()
    ensures { FirstTokenThenRest }
{}

/// States that tokens which reference a value are a path to it, and that others are no path, for
/// the same reason.
pub fn tokens_are_path()
    ensures { TokensArePath }
{}

/// States that `add` at the root replaces the whole value.
pub fn add_at_root()
    ensures { AddAtRoot }
{}

/// States that `add` to an object is the edit that inserts a member.
pub fn add_is_insert()
    ensures { AddIsInsert }
{}

/// States that `add` to an array with the last token `-` is the edit that appends an element.
pub fn add_is_push()
    ensures { AddIsPush }
{}

/// States that `remove` is the edit that removes the member or element which the last token names.
pub fn remove_is_remove()
    ensures { RemoveIsRemove }
{}

/// States that `replace` of a value that exists is the edit that sets it.
pub fn replace_is_set()
    ensures { ReplaceIsSet }
{}

/// States that `copy` is `add` of the value at `from`.
pub fn copy_is_add()
    ensures { CopyIsAdd }
{}

/// States that `move` is `remove` of the value at `from` and then `add` of it at `path`, if the two
/// differ.
pub fn move_is_remove_and_add()
    ensures { MoveIsRemoveAndAdd }
{}

/// States that `move` of a value to its own pointer changes nothing.
pub fn move_to_itself()
    ensures { MoveToItself }
{}

/// States that `remove` undoes `add` of a member whose key is new.
pub fn add_then_remove_member()
    ensures { AddThenRemoveMember }
{}

/// States that `remove` undoes `add` of an element at the same index.
pub fn add_then_remove_element()
    ensures { AddThenRemoveElement }
{}

/// States that `remove` removes any value below the root that exists. For others it fails as
/// following the pointer does.
pub fn removes_what_exists()
    ensures { RemovesWhatExists }
{}

/// States that a patch whose elements are operations applies these in turn.
pub fn patch_applies_operations()
    ensures { PatchAppliesOperations }
{}

/// States that a patch with an element that is not an operation fails with the index of the first
/// such element.
pub fn first_bad_operation_is_named()
    ensures { FirstBadOperationIsNamed }
{}

/// States that each operation is applied to what those before it made.
pub fn applied_in_turn()
    ensures { AppliedInTurn }
{}

/// States that the merge patch `{}` changes no object.
pub fn empty_patch_keeps()
    ensures { EmptyPatchKeeps }
{}

/// States that merging a patch twice is merging it once, if no key repeats in an object of the
/// patch.
pub fn merged_twice()
    ensures { MergedTwice }
{}

/// States that merging any patch twice gives the same value as merging it once; only the order of
/// members may differ.
pub fn merged_twice_same()
    ensures { MergedTwiceSame }
{}

/// States that a key which is not in the merge patch keeps its values, in their order.
pub fn other_members_stay()
    ensures { OtherMembersStay }
{}
