// Examples of data and their trees, and of merging.
ghost use Rattle.json_model.specs.DataExamples.{RowsSpelled, RowsRepeated, KeyWithoutText, MergedAtEachObject};

/// Shows that the rows -1 and `true` have the keys `-1` and `true`, and a literal stays as it is.
pub fn rows_spelled()
    ensures { RowsSpelled }
{}

/// Shows that the rows `7` and 7 have one key, and both stay, in their order.
pub fn rows_repeated()
    ensures { RowsRepeated }
{}

/// Shows that a list is no key, and nothing that holds a row of such a key has a tree.
pub fn key_without_text()
    ensures { KeyWithoutText }
{}

/// Shows that `{"a":1,"b":2,"a":[{"c":3,"c":4}]}` is merged to `{"a":[{"c":4}],"b":2}`.
pub fn merged_at_each_object()
    ensures { MergedAtEachObject }
{}
