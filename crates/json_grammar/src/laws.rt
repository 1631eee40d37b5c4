// Laws over the definitions alone.
ghost use Rattle.json_grammar.specs.Laws.{OneTree, SameTokens, TextIsProper, TextIsUtf8, StrictTextIsLossy, OpensIsDepth, PlaceIsViable, TokenIsViable, OnePlace, EventsBegin, OneFault, SomeFault, TextHasNoFault, TextFits, PrefixFits, EventsFit, TokensBring, OneValue, TextReads, ReadsText, ViableValues, ValueEventsBegin, OneValueFault, SomeValueFault, ReadsHasNoFault};

/// Bytes are a text of one tree at most.
pub fn one_tree()
    ensures { OneTree }
{}

/// Two trees with the same tokens are the same tree.
pub fn same_tokens()
    ensures { SameTokens }
{}

/// The tree of each text has literals that are numbers, and strings and names that are UTF-8.
pub fn text_is_proper()
    ensures { TextIsProper }
{}

/// Each text of a tree is UTF-8 (RFC 8259, section 8.1).
pub fn text_is_utf8()
    ensures { TextIsUtf8 }
{}

/// A text of a tree in the strict mode is a text of it in the lossy mode too.
pub fn strict_text_is_lossy()
    ensures { StrictTextIsLossy }
{}

/// A text opens as many brackets at once as its tree has levels.
pub fn opens_is_depth()
    ensures { OpensIsDepth }
{}

/// Some text begins with each prefix that is at a place.
pub fn place_is_viable()
    ensures { PlaceIsViable }
{}

/// Some text begins with what ends within a token.
pub fn token_is_viable()
    ensures { TokenIsViable }
{}

/// A prefix is at one place at most.
pub fn one_place()
    ensures { OnePlace }
{}

/// The tokens read so far begin those of each text that begins so.
pub fn events_begin()
    ensures { EventsBegin }
{}

/// An input has one fault at most, at one offset.
pub fn one_fault()
    ensures { OneFault }
{}

/// An input that is UTF-8 is a text of a tree within the limit of levels, or has a fault.
pub fn some_fault()
    ensures { SomeFault }
{}

/// A text of a tree within the limit of levels has no fault.
pub fn text_has_no_fault()
    ensures { TextHasNoFault }
{}

/// A text of n bytes has at most (n + 1) / 2 nodes, and its strings, names and number literals are
/// at most n bytes.
pub fn text_fits()
    ensures { TextFits }
{}

/// The tokens of a prefix bring no more nodes than it has bytes, and no more bytes of strings,
/// names and literals.
pub fn prefix_fits()
    ensures { PrefixFits }
{}

/// The tokens of a prefix of a text bring no more nodes than the text may have.
pub fn events_fit()
    ensures { EventsFit }
{}

/// The tokens of a tree bring its nodes, and the bytes of its strings, names and literals.
pub fn tokens_bring()
    ensures { TokensBring }
{}

/// An input reads as at most one value, up to one place.
pub fn one_value()
    ensures { OneValue }
{}

/// A text reads as its tree, with whitespace left.
pub fn text_reads()
    ensures { TextReads }
{}

/// An input that reads as a value with whitespace left is a text of it.
pub fn reads_text()
    ensures { ReadsText }
{}

/// What begins a value begins a text.
pub fn viable_values()
    ensures { ViableValues }
{}

/// The tokens so far begin those of the value that an input reads as.
pub fn value_events_begin()
    ensures { ValueEventsBegin }
{}

/// An input has one fault at most as a value, at one offset.
pub fn one_value_fault()
    ensures { OneValueFault }
{}

/// An input that is UTF-8 reads as a value within the limit of levels, or has a fault as a value.
pub fn some_value_fault()
    ensures { SomeValueFault }
{}

/// An input that reads as a value within the limit of levels has no fault as a value.
pub fn reads_has_no_fault()
    ensures { ReadsHasNoFault }
{}
