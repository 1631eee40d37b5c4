// Laws of the calls of objects, and of an array that is given element by element.
ghost use Rattle.json_containers.specs.Laws.{InsertIsFound, RemoveLeavesNone};
ghost use Rattle.json_containers.specs.Laws.{EachIsGivenOnce, NothingIsGivenAfterAll};

/// Shows that after an insertion the first value of the key is the inserted one, and that the first
/// value of every other key is what it was.
pub fn insert_is_found()
    ensures { InsertIsFound }
{}

/// Shows that after a removal no member has the key, and that the others keep their order.
pub fn remove_leaves_none()
    ensures { RemoveLeavesNone }
{}

/// Shows that an iterator over an array returns each element once, in whatever order its two ends
/// are asked: those from the front, those that are left, and those from the back are all elements
/// in order.
pub fn each_is_given_once()
    ensures { EachIsGivenOnce }
{}

/// Shows that an iterator returns nothing from either end once it has returned all elements.
pub fn nothing_is_given_after_all()
    ensures { NothingIsGivenAfterAll }
{}
