//! Worked examples of queries, those of RFC 9535 among them: each is the contract of a function
//! that does nothing.
ghost use Rattle.json_query.specs.SelectorExamples.{RootIdentifier, NameSelectors, WildcardSelectors, IndexSelectors, SliceSelectors, ChildSegments, DescendantSegments, RepeatedNames, PathsOfTheRfc};
ghost use Rattle.json_query.specs.Bookstore.{AuthorsAndPrices, BooksByIndex, EverythingInTheStore};

/// Shows RFC 9535, section 2.2.3, where `$` selects the root.
pub fn root_identifier()
    ensures { RootIdentifier }
{}

/// Shows RFC 9535, section 2.3.1.3, where names in quotation marks select members.
pub fn name_selectors()
    ensures { NameSelectors }
{}

/// Shows RFC 9535, section 2.3.2.3, where `*` selects all elements and all members.
pub fn wildcard_selectors()
    ensures { WildcardSelectors }
{}

/// Shows RFC 9535, section 2.3.3.3, where indexes count from the start or the end, and indexes of
/// no element.
pub fn index_selectors()
    ensures { IndexSelectors }
{}

/// Shows RFC 9535, section 2.3.4.3, where slices go forwards and backwards, and slices without
/// elements.
pub fn slice_selectors()
    ensures { SliceSelectors }
{}

/// Shows RFC 9535, section 2.5.1.3, where a segment has several selectors, and an element is
/// selected twice.
pub fn child_segments()
    ensures { ChildSegments }
{}

/// Shows RFC 9535, section 2.5.2.3, where segments descend. Where it leaves the order open, a node
/// comes before its children and members are in the order of the text.
pub fn descendant_segments()
    ensures { DescendantSegments }
{}

/// Shows that a name selects each member that has it.
pub fn repeated_names()
    ensures { RepeatedNames }
{}

/// Shows normalized paths, as those of RFC 9535, section 2.7.1.
pub fn paths_of_the_rfc()
    ensures { PathsOfTheRfc }
{}

/// Shows queries over the bookstore of RFC 9535, section 1.5: the authors of all books, and prices.
pub fn authors_and_prices()
    ensures { AuthorsAndPrices }
{}

/// Shows queries over the bookstore of RFC 9535, section 1.5, that select books by their index.
pub fn books_by_index()
    ensures { BooksByIndex }
{}

/// Shows `$..*` over the bookstore of RFC 9535, section 1.5.
pub fn everything_in_the_store()
    ensures { EverythingInTheStore }
{}
