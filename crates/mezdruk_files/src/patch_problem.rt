// Why a value is no JSON Patch.
ghost use Rattle.std.specs.Prelude.{◌≡◌, option_map, option_and_then, slice_get, IfOk};
ghost use Rattle.json_io.specs.Errors.{OnlyNoMemory};
ghost use Rattle.json_patch.specs.Lookups.{pointer_tokens};
ghost use Rattle.json_patch.specs.Pointer.{pointer_of};
ghost use Rattle.json_value.specs.Seen.{seen, elements_seen, members_seen};
ghost use Rattle.mezdruk_files.specs.PatchProblems.{member_name, pointer_spelled, unless_pointer as problem_unless_pointer, value_problem as problem_of_value, first_value, count_problem as problem_of_count, member_problem as problem_of_member, members_needed as needed_of_name, first_problem as problem_of_first, operation_name as name_of_operation, members_problem as problem_of_members, operation_problem as problem_of_operation, element_problem as problem_of_element, patch_problem, missing_sentence as missing_text, repeated_sentence as repeated_text, problem_sentence};

use json_io::{Error, ErrorCode, Place, Result};
use json_patch::internal::single_member;
use json_patch::{PatchCode, Pointer};
use json_value::{ArrayView, ObjectView, View};
use std::alloc::Global;

/// A member that an operation of a JSON Patch may need (RFC 6902, section 4).
///
/// ```
/// use mezdruk_files::{OperationMember, PatchProblem};
/// let problem = PatchProblem::Missing(OperationMember::Op);
/// assert_eq!(rt; problem.sentence(), "it has no `op`");
/// ```
#[derive(Clone, Copy, Debug, PartialEq, Eq)]
pub enum OperationMember {
    /// `op`, the name of the operation.
    Op,
    /// `path`, the pointer to what is changed or tested.
    Path,
    /// `from`, the pointer to what is moved or copied.
    From,
    /// `value`, what is added or expected.
    Value,
}

/// Why a value is no JSON Patch, or an element of it no operation (RFC 6902, sections 3 and 4).
///
/// ```
/// use mezdruk_files::PatchProblem;
/// let sentence = PatchProblem::NotArray.sentence();
/// assert_eq!(rt; sentence, "the patch is not an array of operations");
/// ```
#[derive(Clone, Copy, Debug, PartialEq, Eq)]
pub enum PatchProblem {
    /// The patch is no array.
    NotArray,
    /// The element is no object.
    NotObject,
    /// The operation lacks this member.
    Missing(OperationMember),
    /// Several members have the name of this one.
    Repeated(OperationMember),
    /// The member `op` is none of the names of operations.
    UnknownName,
    /// The member `path` is no JSON Pointer (RFC 6901).
    BadPath,
    /// The member `from` is no JSON Pointer (RFC 6901).
    BadFrom,
    /// The operation moves a value into a part of that value.
    IntoItself,
}

impl OperationMember {
    // Returns the name of the member.
    fn name(self) -> &'static str
        ensures { result.now ≡ member_name self }
    {
        match self {
            OperationMember::Op => "op",
            OperationMember::Path => "path",
            OperationMember::From => "from",
            OperationMember::Value => "value",
        }
    }

    // Returns what is said if the member is not there.
    fn missing_sentence(self) -> &'static str
        ensures { result.now ≡ missing_text self }
    {
        match self {
            OperationMember::Op => "it has no `op`",
            OperationMember::Path => "it has no `path`",
            OperationMember::From => "it has no `from`",
            OperationMember::Value => "it has no `value`",
        }
    }

    // Returns what is said if several members have its name.
    fn repeated_sentence(self) -> &'static str
        ensures { result.now ≡ repeated_text self }
    {
        match self {
            OperationMember::Op => "its `op` occurs twice",
            OperationMember::Path => "its `path` occurs twice",
            OperationMember::From => "its `from` occurs twice",
            OperationMember::Value => "its `value` occurs twice",
        }
    }
}

impl PatchProblem {
    /// Returns what a report says of the problem.
    pub fn sentence(self) -> &'static str
        ensures { result.now ≡ problem_sentence self }
    {
        match self {
            PatchProblem::NotArray => "the patch is not an array of operations",
            PatchProblem::NotObject => "it is no object",
            PatchProblem::Missing(member) => member.missing_sentence(),
            PatchProblem::Repeated(member) => member.repeated_sentence(),
            PatchProblem::UnknownName => {
                "its `op` is none of add, remove, replace, move, copy and test"
            }
            PatchProblem::BadPath => "its `path` is no JSON Pointer",
            PatchProblem::BadFrom => "its `from` is no JSON Pointer",
            PatchProblem::IntoItself => "its `path` leads into the value at its `from`",
        }
    }
}

// Returns the JSON Pointer that a text spells, or `None` if it spells none.
fn read_pointer(alloc: Global, text: &str) -> Result<Option<Pointer>>
    ensures ok { IfOk result (λ o. option_map pointer_tokens o ≡ pointer_of text.now) }
    ensures only { OnlyNoMemory result }
{
    match Pointer::parse(alloc, text) {
        Ok(pointer) => Ok(Some(pointer)),
        Err(error) => match error.code {
            PatchCode::BadPointer => Ok(None),
            _ => Err(Error {
                code: ErrorCode::NoMemory,
                place: Place::None,
            }),
        },
    }
}

// Returns the problem, unless the value is a string that is a JSON Pointer.
fn unless_pointer(
    alloc: Global,
    problem: PatchProblem,
    value: View<'_>,
) -> Result<Option<PatchProblem>>
    ensures ok { IfOk result (λ found. found
        ≡ problem_unless_pointer problem (pointer_spelled (seen value.entry))) }
    ensures only { OnlyNoMemory result }
{
    let Some(text) = value.text() else {
        return Ok(Some(problem));
    };
    match read_pointer(alloc, text)? {
        Some(_) => Ok(None),
        None => Ok(Some(problem)),
    }
}

// Returns what is wrong with the value of a member, if something is.
fn value_problem(
    alloc: Global,
    member: OperationMember,
    value: View<'_>,
) -> Result<Option<PatchProblem>>
    ensures ok { IfOk result (λ problem. problem ≡ problem_of_value member (seen value.entry)) }
    ensures only { OnlyNoMemory result }
{
    match member {
        OperationMember::Path => unless_pointer(alloc, PatchProblem::BadPath, value),
        OperationMember::From => unless_pointer(alloc, PatchProblem::BadFrom, value),
        OperationMember::Op | OperationMember::Value => Ok(None),
    }
}

// Returns what is wrong with a member that does not occur once.
fn count_problem(object: ObjectView<'_>, member: OperationMember) -> PatchProblem
    ensures { result
        ≡ problem_of_count member (first_value member (members_seen object.entry)) }
{
    match object.get(member.name()) {
        Some(_) => PatchProblem::Repeated(member),
        None => PatchProblem::Missing(member),
    }
}

// Returns what is wrong with a member, if something is.
fn member_problem(
    alloc: Global,
    object: ObjectView<'_>,
    member: OperationMember,
) -> Result<Option<PatchProblem>>
    ensures ok { IfOk result (λ problem. problem
        ≡ problem_of_member member (members_seen object.entry)) }
    ensures only { OnlyNoMemory result }
{
    match single_member(object, member.name()) {
        Some(value) => value_problem(alloc, member, value),
        None => Ok(Some(count_problem(object, member))),
    }
}

// Returns the members that an operation of this name needs beside `op`.
fn members_needed(name: &str) -> Option<&'static [OperationMember]>
    ensures { option_map (λ s. s.now) result ≡ needed_of_name name.now }
{
    match name {
        "add" => Some(&[OperationMember::Path, OperationMember::Value]),
        "remove" => Some(&[OperationMember::Path]),
        "replace" => Some(&[OperationMember::Path, OperationMember::Value]),
        "move" => Some(&[OperationMember::From, OperationMember::Path]),
        "copy" => Some(&[OperationMember::From, OperationMember::Path]),
        "test" => Some(&[OperationMember::Path, OperationMember::Value]),
        _ => None,
    }
}

// Returns what is wrong with the first of these members with which something is.
fn first_problem(
    alloc: Global,
    object: ObjectView<'_>,
    needed: &[OperationMember],
) -> Result<PatchProblem>
    ensures ok { IfOk result (λ problem. problem
        ≡ problem_of_first needed.now (members_seen object.entry)) }
    ensures only { OnlyNoMemory result }
{
    match needed {
        [] => Ok(PatchProblem::IntoItself),
        [first, later @ ..] => match member_problem(alloc, object, *first)? {
            Some(problem) => Ok(problem),
            None => first_problem(alloc, object, later),
        },
    }
}

// Returns the string that the one member `op` is.
fn operation_name<'a>(object: ObjectView<'a>) -> Option<&'a str>
    ensures { option_map (λ s. s.now) result
        ≡ name_of_operation (members_seen object.entry) }
{
    match single_member(object, "op") {
        Some(name) => name.text(),
        None => None,
    }
}

// Returns the members that an object needs beside `op`, as that says.
fn needed_members(object: ObjectView<'_>) -> Option<&'static [OperationMember]>
    ensures { option_map (λ s. s.now) result
        ≡ option_and_then needed_of_name (name_of_operation (members_seen object.entry)) }
{
    match operation_name(object) {
        Some(name) => members_needed(name),
        None => None,
    }
}

// Returns what is wrong with an object that is no operation.
fn members_problem(alloc: Global, object: ObjectView<'_>) -> Result<PatchProblem>
    ensures ok { IfOk result (λ problem. problem
        ≡ problem_of_members (members_seen object.entry)) }
    ensures only { OnlyNoMemory result }
{
    if let Some(problem) = member_problem(alloc, object, OperationMember::Op)? {
        return Ok(problem);
    }
    match needed_members(object) {
        Some(needed) => first_problem(alloc, object, needed),
        None => Ok(PatchProblem::UnknownName),
    }
}

// Returns what is wrong with a value that is no operation.
fn operation_problem(alloc: Global, value: View<'_>) -> Result<PatchProblem>
    ensures ok { IfOk result (λ problem. problem
        ≡ problem_of_operation (seen value.entry)) }
    ensures only { OnlyNoMemory result }
{
    match value.as_object() {
        Some(object) => members_problem(alloc, object),
        None => Ok(PatchProblem::NotObject),
    }
}

// Returns what is wrong with the element of this number; with the patch if there is none.
fn element_problem(alloc: Global, elements: ArrayView<'_>, number: u32) -> Result<PatchProblem>
    ensures ok { IfOk result (λ problem. problem
        ≡ problem_of_element (slice_get (elements_seen elements.entry) number)) }
    ensures only { OnlyNoMemory result }
{
    match elements.get(number as usize) {
        Some(element) => operation_problem(alloc, element),
        None => Ok(PatchProblem::NotArray),
    }
}

/// Returns what is wrong with a patch whose element of this number is no operation; without a
/// number the patch is no array. Fails with `NoMemory` if memory runs out.
pub(crate) fn find_problem(
    alloc: Global,
    patch: View<'_>,
    number: Option<u32>,
) -> Result<PatchProblem>
    ensures ok { IfOk result (λ problem. problem
        ≡ patch_problem (seen patch.entry) number) }
    ensures only { OnlyNoMemory result }
{
    let Some(elements) = patch.as_array() else {
        return Ok(PatchProblem::NotArray);
    };
    match number {
        Some(number) => element_problem(alloc, elements, number),
        None => Ok(PatchProblem::NotArray),
    }
}
