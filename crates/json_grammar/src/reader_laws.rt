// Laws for the proofs of a reader, over the definitions alone.
ghost use Rattle.json_grammar.specs.ReaderLaws.{StuckAtPlace, StuckInWord, StuckInNumber, StuckInString, FaultyIsFault, GivenReads, FaultyIsValueFault, ValueBreaksOff};

/// Where no allowed byte follows, no text begins so.
pub fn stuck_at_place()
    ensures { StuckAtPlace }
{}

/// Within a literal name no text goes on with another byte.
pub fn stuck_in_word()
    ensures { StuckInWord }
{}

/// Within a number no text goes on with a byte with which no number does.
pub fn stuck_in_number()
    ensures { StuckInNumber }
{}

/// Within a string no text goes on with a byte with which no atom of a string does.
pub fn stuck_in_string()
    ensures { StuckInString }
{}

/// Where no text goes on so, the prefix is the longest that is viable.
pub fn faulty_is_fault()
    ensures { FaultyIsFault }
{}

/// Where nothing is open after a last byte that is no whitespace, a value was read.
pub fn given_reads()
    ensures { GivenReads }
{}

/// A fault of an input is its fault as a value, but for the end of the input and for what follows a
/// whole value.
pub fn faulty_is_value_fault()
    ensures { FaultyIsValueFault }
{}

/// An input that ends before its value does has the fault that says so.
pub fn value_breaks_off()
    ensures { ValueBreaksOff }
{}
