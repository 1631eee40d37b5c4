// Laws for the proofs of a reader that refuses names that repeat.
ghost use Rattle.json_grammar.specs.RulesReaderLaws.{TokensOfTree, OneTokenMore, OpenKeysInside, PlaceRepeats, KeyRepeats, KeyRefused, LimitFaultByRules, NamesAreReturned, NoNameWithin, KeyInside};

/// The tokens of a tree repeat a name exactly where the tree does.
pub fn tokens_of_tree()
    ensures { TokensOfTree }
{}

/// One token more repeats a name where one before it did, or where it is a name that its object
/// has.
pub fn one_token_more()
    ensures { OneTokenMore }
{}

/// After the beginning of an object and whole members the open names are theirs.
pub fn open_keys_inside()
    ensures { OpenKeysInside }
{}

/// A prefix repeats a name exactly where its tokens do.
pub fn place_repeats()
    ensures { PlaceRepeats }
{}

/// A name repeats at its opening quotation mark exactly where its object has it already.
pub fn key_repeats()
    ensures { KeyRepeats }
{}

/// A name that repeats may be refused as soon as it is whole.
pub fn key_refused()
    ensures { KeyRefused }
{}

/// A fault by the limit of levels is one by the rules, where each name that is whole before it was
/// returned and none repeats.
pub fn limit_fault_by_rules()
    ensures { LimitFaultByRules }
{}

/// Each name that is whole was returned, where only whitespace, a comma or a colon was passed
/// since, and a part of one token.
pub fn names_are_returned()
    ensures { NamesAreReturned }
{}

/// No name ends within a literal name, a number, or a string that is not whole.
pub fn no_name_within()
    ensures { NoNameWithin }
{}

/// After whole members of an object and one more name, that name is the last token, and theirs are
/// the names before it.
pub fn key_inside()
    ensures { KeyInside }
{}
