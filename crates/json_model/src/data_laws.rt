// Laws of data and their trees, and of merging.
ghost use Rattle.json_model.specs.DataLaws.{NoTreeByKeys, ElementsInOrder, RowsInOrder, InsertedOnce, MergedRepeatsNoKey, MergedKeeps, MergedIsProper};

/// A datum has no tree exactly where some key in it has no text.
pub fn no_tree_by_keys()
    ensures { NoTreeByKeys }
{}

/// The tree of a list has the trees of its elements, in their order.
pub fn elements_in_order()
    ensures { ElementsInOrder }
{}

/// The tree of rows has a member for each row, in their order: the text of its key, and the tree of
/// its value.
pub fn rows_in_order()
    ensures { RowsInOrder }
{}

/// Members inserted in turn are each key once, at its first place, with its last value.
pub fn inserted_once()
    ensures { InsertedOnce }
{}

/// No object of what is merged has two members of one name.
pub fn merged_repeats_no_key()
    ensures { MergedRepeatsNoKey }
{}

/// A tree in which no name repeats is merged to itself.
pub fn merged_keeps()
    ensures { MergedKeeps }
{}

/// What is merged keeps literals that are numbers, and strings and names that are UTF-8.
pub fn merged_is_proper()
    ensures { MergedIsProper }
{}
