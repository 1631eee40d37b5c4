// The order of an object's members.
ghost use Rattle.std.specs.Prelude.{◌≡◌, map};
ghost use Rattle.json_print.specs.Orders.{Rise, inserted_pairs, numbered_pair};

// The unescaped key of a member, and which member of its object it is.
#[derive(Clone, Copy, PartialEq, Eq, PartialOrd, Ord)]
pub(crate) struct Numbered<'a> {
    pub(crate) key: &'a [u8],
    pub(crate) number: usize,
}

// Keys never fall, and equal keys keep their order.
pub(crate) fn sort_pairs(pairs: &mut [Numbered<'_>])
    requires { Rise (map numbered_pair pairs.old) }
    ensures { map numbered_pair pairs.new ≡ inserted_pairs (map numbered_pair pairs.old) }
{
    pairs.sort_unstable();
}
