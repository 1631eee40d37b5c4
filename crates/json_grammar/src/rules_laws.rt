// Laws of names that repeat, and of faults by rules.
ghost use Rattle.json_grammar.specs.RulesLaws.{TextRepeats, RepeatedStays, OneFirstRepeated, RepeatedIsViable, OneFaultWith, SomeFaultWith, TextHasNoFaultWith, FaultWithLimit, FaultTable, OneValueFaultWith, SomeValueFaultWith, ReadsHasNoFaultWith, ValueFaultWithLimit};

/// A text of a tree repeats a name exactly where an object of the tree has two members of one name.
pub fn text_repeats()
    ensures { TextRepeats }
{}

/// A name that repeats in a prefix repeats in all that begins with it.
pub fn repeated_stays()
    ensures { RepeatedStays }
{}

/// The first name that repeats in an input is at one offset.
pub fn one_first_repeated()
    ensures { OneFirstRepeated }
{}

/// A name that repeats in an input repeats in its longest viable prefix.
pub fn repeated_is_viable()
    ensures { RepeatedIsViable }
{}

/// By any rules an input has one fault at most, at one offset.
pub fn one_fault_with()
    ensures { OneFaultWith }
{}

/// An input that is UTF-8 is a text of a tree that fits the rules, or has a fault.
pub fn some_fault_with()
    ensures { SomeFaultWith }
{}

/// A text of a tree that fits the rules has no fault by them.
pub fn text_has_no_fault_with()
    ensures { TextHasNoFaultWith }
{}

/// Where names may repeat, the fault by the rules is that by their limit of levels.
pub fn fault_with_limit()
    ensures { FaultWithLimit }
{}

/// Where neither a level too many nor a repeated name is reported, the other faults are those
/// without rules.
pub fn fault_table()
    ensures { FaultTable }
{}

/// By any rules an input has one fault at most as a value, at one offset.
pub fn one_value_fault_with()
    ensures { OneValueFaultWith }
{}

/// An input that is UTF-8 reads as a value that fits the rules, or has a fault as a value.
pub fn some_value_fault_with()
    ensures { SomeValueFaultWith }
{}

/// An input that reads as a value that fits the rules has no fault as a value by them.
pub fn reads_has_no_fault_with()
    ensures { ReadsHasNoFaultWith }
{}

/// Where names may repeat, the fault as a value by the rules is that by their limit of levels.
pub fn value_fault_with_limit()
    ensures { ValueFaultWithLimit }
{}
