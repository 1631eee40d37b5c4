//! Laws of where and why values are refused.
ghost use Rattle.json_explain.specs.Laws.{WholeExplained, OptionExplained, ListExplained, TupleExplained, MapExplained};

/// Shows that a value without parts is refused as a whole exactly if reading it refuses it.
pub fn whole_explained()
    ensures { WholeExplained }
{}

/// Shows that an optional value is refused exactly if reading it refuses it, where this holds of
/// the type within.
pub fn option_explained()
    ensures { OptionExplained }
{}

/// Shows that an array is refused exactly if an element of it is, at the first such element.
pub fn list_explained()
    ensures { ListExplained }
{}

/// Shows that a tuple is refused exactly if one of its elements is, at the first such element, or
/// if the array has another length.
pub fn tuple_explained()
    ensures { TupleExplained }
{}

/// Shows that a map is refused exactly if a key or a value of it is, at the first such member.
pub fn map_explained()
    ensures { MapExplained }
{}
