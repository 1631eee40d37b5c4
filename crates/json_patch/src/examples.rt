//! Worked examples of pointers, patches and merge patches: each is the contract of a function that
//! does nothing.
ghost use Rattle.json_patch.specs.PointerExamples.{PointersOfTheRfc, NotPointers, PointersToNothing, FirstOfRepeatedKeys};
ghost use Rattle.json_patch.specs.PatchExamples.{AddingAnObjectMember, AddingAnArrayElement, RemovingAnObjectMember, RemovingAnArrayElement, ReplacingAValue, MovingAValue, MovingAnArrayElement, TestingAValueSuccess, TestingAValueError, AddingANestedMemberObject, IgnoringUnrecognizedElements, AddingToANonexistentTarget, InvalidJsonPatchDocument, EscapeOrdering, ComparingStringsAndNumbers, AddingAnArrayValue, SecondFails, FormsAreReadFirst, MovesIntoThemselves, RootsOfOperations, RepeatedKeys, IndexesOfAdd};
ghost use Rattle.json_patch.specs.MergeExamples.{MergesOfTheRfc, MergesOfTheText, MergedTwiceReorders, MergedRepeatedKeys};

/// Shows where the pointers of RFC 6901, section 5, lead.
pub fn pointers_of_the_rfc()
    ensures { PointersOfTheRfc }
{}

/// Shows texts that are not pointers: one that does not begin with `/`, and a `~` before neither
/// `0` nor `1`.
pub fn not_pointers()
    ensures { NotPointers }
{}

/// Shows pointers that reference nothing: a missing key, an index past the end, one with a leading
/// 0, `-`, and a token for a string.
pub fn pointers_to_nothing()
    ensures { PointersToNothing }
{}

/// Shows that a pointer with a key that repeats references the first value of the key.
pub fn first_of_repeated_keys()
    ensures { FirstOfRepeatedKeys }
{}

/// Shows RFC 6902, A.1, where `add` adds a member to an object. The new member is last here, and
/// first in the appendix: the object is the same.
pub fn adding_an_object_member()
    ensures { AddingAnObjectMember }
{}

/// Shows RFC 6902, A.2, where `add` inserts an element into an array.
pub fn adding_an_array_element()
    ensures { AddingAnArrayElement }
{}

/// Shows RFC 6902, A.3, where `remove` removes a member.
pub fn removing_an_object_member()
    ensures { RemovingAnObjectMember }
{}

/// Shows RFC 6902, A.4, where `remove` removes an element.
pub fn removing_an_array_element()
    ensures { RemovingAnArrayElement }
{}

/// Shows RFC 6902, A.5, where `replace` replaces a member's value.
pub fn replacing_a_value()
    ensures { ReplacingAValue }
{}

/// Shows RFC 6902, A.6, where `move` moves a member to another object.
pub fn moving_a_value()
    ensures { MovingAValue }
{}

/// Shows RFC 6902, A.7, where `move` moves an element within its array.
pub fn moving_an_array_element()
    ensures { MovingAnArrayElement }
{}

/// Shows RFC 6902, A.8, where two `test` operations find their values.
pub fn testing_a_value_success()
    ensures { TestingAValueSuccess }
{}

/// Shows RFC 6902, A.9, where `test` finds another value and the patch fails.
pub fn testing_a_value_error()
    ensures { TestingAValueError }
{}

/// Shows RFC 6902, A.10, where `add` adds a member whose value is an object.
pub fn adding_a_nested_member_object()
    ensures { AddingANestedMemberObject }
{}

/// Shows RFC 6902, A.11, where an operation has a member that is ignored.
pub fn ignoring_unrecognized_elements()
    ensures { IgnoringUnrecognizedElements }
{}

/// Shows RFC 6902, A.12, where the object that `add` is to add to is missing.
pub fn adding_to_a_nonexistent_target()
    ensures { AddingToANonexistentTarget }
{}

/// Shows RFC 6902, A.13, where the member `op` of an operation occurs twice.
pub fn invalid_json_patch_document()
    ensures { InvalidJsonPatchDocument }
{}

/// Shows RFC 6902, A.14, where `~01` in a pointer stands for `~1`.
pub fn escape_ordering()
    ensures { EscapeOrdering }
{}

/// Shows RFC 6902, A.15, where `test` finds that the number 10 is not the string `"10"`.
pub fn comparing_strings_and_numbers()
    ensures { ComparingStringsAndNumbers }
{}

/// Shows RFC 6902, A.16, where `add` appends an array as one element.
pub fn adding_an_array_value()
    ensures { AddingAnArrayValue }
{}

/// Shows that the error of a patch whose second operation fails names the index 1.
pub fn second_fails()
    ensures { SecondFails }
{}

/// Shows that a patch with an element that is not an operation fails at that element, even if an
/// operation before it fails.
pub fn forms_are_read_first()
    ensures { FormsAreReadFirst }
{}

/// Shows that `move` of a value to a pointer below it is no operation, even if there is no such
/// value. `move` of a value to its own pointer changes nothing.
pub fn moves_into_themselves()
    ensures { MovesIntoThemselves }
{}

/// Shows that the root can be replaced and copied, and cannot be removed.
pub fn roots_of_operations()
    ensures { RootsOfOperations }
{}

/// Shows that, of a key that repeats, `replace` and `add` set the first value, `move` moves the
/// first value, and `remove` removes all members.
pub fn repeated_keys()
    ensures { RepeatedKeys }
{}

/// Shows indexes at which `add` adds to an array, and indexes at which it fails.
pub fn indexes_of_add()
    ensures { IndexesOfAdd }
{}

/// Shows the merge patches of the table in RFC 7396, appendix A.
pub fn merges_of_the_rfc()
    ensures { MergesOfTheRfc }
{}

/// Shows the examples of RFC 7396, sections 1 and 3.
pub fn merges_of_the_text()
    ensures { MergesOfTheText }
{}

/// Shows that merging a patch twice can give another order of members than merging it once. The
/// patch is `{"a":null,"a":1,"b":2}`; once it makes `{"a":1,"b":2}` of `{}`, and twice
/// `{"b":2,"a":1}`.
pub fn merged_twice_reorders()
    ensures { MergedTwiceReorders }
{}

/// Shows that, of a key that repeats in the value, null removes all members, and any other value is
/// merged into the first.
pub fn merged_repeated_keys()
    ensures { MergedRepeatedKeys }
{}
