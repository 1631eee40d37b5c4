//! A law of the parts of a datum. No program needs to call it.
ghost use Rattle.json_print.specs.Data.{DatumTokens};

/// Proves that each key of a datum has a text exactly if the datum has a tree, and that its parts
/// are then the tokens of that tree, from left to right. A datum is what a typed value means.
pub fn datum_tokens()
    ensures { DatumTokens }
{}
