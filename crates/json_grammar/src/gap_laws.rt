// Laws of the gap between two tokens, over the definitions alone.
ghost use Rattle.json_grammar.specs.Needs.{GapHasNoToken, NameAfterGap};

/// In what begins some text, the tokens up to the end of a gap are those before it.
pub fn gap_has_no_token()
    ensures { GapHasNoToken }
{}

/// Where a name is the next token after a gap, the tokens before it are all that precede its
/// opening quotation mark.
pub fn name_after_gap()
    ensures { NameAfterGap }
{}
