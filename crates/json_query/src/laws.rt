//! Laws of queries: each is the contract of a function that does nothing.
ghost use Rattle.json_query.specs.Laws.{NodesAreLocated, PathsSelectTheirNodes};
ghost use Rattle.json_query.specs.TextLaws.{TextIsRead, ReadIsText, RefusedBreaks};

/// States that each node which a query selects has the value at its location in the query argument.
pub fn nodes_are_located()
    ensures { NodesAreLocated }
{}

/// States that the normalized path of each node which a query selects, as a query, selects that
/// node alone (RFC 9535, section 2.7), if no object in the query argument repeats a name.
pub fn paths_select_their_nodes()
    ensures { PathsSelectTheirNodes }
{}

/// States that the text of each query of the grammar is read, as that query.
pub fn text_is_read()
    ensures { TextIsRead }
{}

/// States that what is read is a query of the grammar.
pub fn read_is_text()
    ensures { ReadIsText }
{}

/// States that what is refused is no query, that some query begins with what stands before the
/// offset at which reading stops, and that none begins with one byte more.
pub fn refused_breaks()
    ensures { RefusedBreaks }
{}
