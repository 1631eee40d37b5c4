//! Examples of requests and their replies. Each function does nothing; its contract states the
//! example.
ghost use Rattle.json_rpc.specs.Examples.{SetsTheRoot, NotifiesInVain, NotifiesWithEffect, ParamsByName, NamesInAnyOrder, AppliesAPatch, AppliesAMergePatch, UndoesAndRedoes, NothingToUndo, ServesABatch, CannotRead, SaysNothing, EmptyBatch, InvalidBatch, NotifiesAll, MethodIsNoText, UnknownMethod, MissingParam, MissingName, UnknownName, RepeatedName, ParamForUndo, GetsNothing, AnotherKind, PatchTestFails, PatchFindsNothing, NoOperations, FirstCounts};

/// Shows that `set` at the root has the result null.
pub fn sets_the_root()
    ensures { SetsTheRoot }
{}

/// Shows that a notification whose edit does not apply has no reply.
pub fn notifies_in_vain()
    ensures { NotifiesInVain }
{}

/// Shows that a notification whose edit applies has no reply either.
pub fn notifies_with_effect()
    ensures { NotifiesWithEffect }
{}

/// Shows the response to a parameter by name.
pub fn params_by_name()
    ensures { ParamsByName }
{}

/// Shows that parameters by name come in any order.
pub fn names_in_any_order()
    ensures { NamesInAnyOrder }
{}

/// Shows the response to a patch that applies.
pub fn applies_a_patch()
    ensures { AppliesAPatch }
{}

/// Shows the response to a merge patch.
pub fn applies_a_merge_patch()
    ensures { AppliesAMergePatch }
{}

/// Shows the responses to `undo` and `redo` after a change.
pub fn undoes_and_redoes()
    ensures { UndoesAndRedoes }
{}

/// Shows the response to `undo` where nothing was changed.
pub fn nothing_to_undo()
    ensures { NothingToUndo }
{}

/// Shows the responses to a batch of a request and a number.
pub fn serves_a_batch()
    ensures { ServesABatch }
{}

/// Shows the response to a line that is no JSON text.
pub fn cannot_read()
    ensures { CannotRead }
{}

/// Shows that a line of whitespace has no response.
pub fn says_nothing()
    ensures { SaysNothing }
{}

/// Shows the response to an empty array.
pub fn empty_batch()
    ensures { EmptyBatch }
{}

/// Shows the responses to a batch of values that are no requests.
pub fn invalid_batch()
    ensures { InvalidBatch }
{}

/// Shows that a batch of notifications has no response.
pub fn notifies_all()
    ensures { NotifiesAll }
{}

/// Shows the response to a method that is a number.
pub fn method_is_no_text()
    ensures { MethodIsNoText }
{}

/// Shows the response to an unknown method whose name begins with the name of a known one.
pub fn unknown_method()
    ensures { UnknownMethod }
{}

/// Shows the response to a request that has too few parameters.
pub fn missing_param()
    ensures { MissingParam }
{}

/// Shows the response to a request by name in which a parameter is missing.
pub fn missing_name()
    ensures { MissingName }
{}

/// Shows the response to a parameter whose name is none of the method's.
pub fn unknown_name()
    ensures { UnknownName }
{}

/// Shows the response to a parameter that occurs twice.
pub fn repeated_name()
    ensures { RepeatedName }
{}

/// Shows the response to `undo` with a parameter.
pub fn param_for_undo()
    ensures { ParamForUndo }
{}

/// Shows the response to a `get` whose path leads to a key that is not there.
pub fn missing_key()
    ensures { GetsNothing }
{}

/// Shows the response to an `insert` into a number.
pub fn another_kind()
    ensures { AnotherKind }
{}

/// Shows that a patch in which an operation `test` fails has no effect.
pub fn patch_test_fails()
    ensures { PatchTestFails }
{}

/// Shows the response to a patch with a pointer that leads to nothing.
pub fn patch_finds_nothing()
    ensures { PatchFindsNothing }
{}

/// Shows the response to a patch that is not an array of operations.
pub fn no_operations()
    ensures { NoOperations }
{}

/// Shows that the first of several members with the same name counts.
pub fn first_counts()
    ensures { FirstCounts }
{}
