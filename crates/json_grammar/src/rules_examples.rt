// Examples of inputs that are refused by rules, in the strict mode, and of one that is not.
ghost use Rattle.json_grammar.specs.RulesExamples.{RepeatedNameRefused, BrokenNameRefused, FirstRefused, InnerNameFits};

/// Shows that `{"a":1,"b":2,"\u0061":3}` repeats its first name at offset 13, and `{"a":1,"a":}` at
/// 7, whatever follows it.
pub fn repeated_name_refused()
    ensures { RepeatedNameRefused }
{}

/// Shows that `{"a":1,"a` ends before a name repeats.
pub fn broken_name_refused()
    ensures { BrokenNameRefused }
{}

/// Shows that where one level is allowed, `[{"a":1,"a":2}]` has its second one before a name
/// repeats, and `{"a":1,"a":[]}` after it.
pub fn first_refused()
    ensures { FirstRefused }
{}

/// Shows that `{"a":{"a":1}}` repeats no name within one object.
pub fn inner_name_fits()
    ensures { InnerNameFits }
{}
