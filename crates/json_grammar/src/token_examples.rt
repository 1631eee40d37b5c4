// Examples of the tokens that may follow.
ghost use Rattle.json_grammar.specs.TokenExamples.{WithinArray, WithinObject, AfterName, AfterWhole, Misplaced};

/// Shows that after the tokens of `{"a":[1` the array may go on or end.
pub fn within_array()
    ensures { WithinArray }
{}

/// Shows that after the tokens of `{"a":[1]` the object may go on or end.
pub fn within_object()
    ensures { WithinObject }
{}

/// Shows that after the tokens of `{"a"` a value may follow, and no end.
pub fn after_name()
    ensures { AfterName }
{}

/// Shows that after the tokens of `[]` nothing may follow.
pub fn after_whole()
    ensures { AfterWhole }
{}

/// Shows that no name may follow in an array, no element in an object, and no bracket closes
/// another.
pub fn misplaced_tokens()
    ensures { Misplaced }
{}
