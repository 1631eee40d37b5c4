//! Laws of which inputs have a fault. No program needs to call them.
ghost use Rattle.json_command.specs.Laws.{OneInputFault, ValidHasNoFault, SomeInputFault};

/// Proves that an input has at most one fault, at one place.
pub fn one_input_fault()
    ensures { OneInputFault }
{}

/// Proves that an input that is a JSON text within the limits has no fault.
pub fn valid_has_no_fault()
    ensures { ValidHasNoFault }
{}

/// Proves that an input is a JSON text within the limits or has a fault.
pub fn some_input_fault()
    ensures { SomeInputFault }
{}
