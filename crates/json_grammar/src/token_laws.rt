// Laws of the tokens that may follow, over the definitions alone.
ghost use Rattle.json_grammar.specs.TokenLaws.{AcceptedBegins, MayComeGoesOn, WholeIsTree, TreeIsValue, PlaceIsState};

/// The tokens that are accepted are those with which some tree's tokens begin.
pub fn accepted_begins()
    ensures { AcceptedBegins }
{}

/// After tokens with which some tree's begin, a token may follow exactly where some tree's begin
/// with it too.
pub fn may_come_goes_on()
    ensures { MayComeGoesOn }
{}

/// Nothing may follow exactly where the tokens are those of a whole tree.
pub fn whole_is_tree()
    ensures { WholeIsTree }
{}

/// The tokens of a tree are accepted where a value may follow, and lead to where a value leads.
pub fn tree_is_value()
    ensures { TreeIsValue }
{}

/// The tokens of a prefix of a text are accepted, and lead to the state at its place.
pub fn place_is_state()
    ensures { PlaceIsState }
{}
