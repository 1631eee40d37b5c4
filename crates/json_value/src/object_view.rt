// Views of objects, and their members in order.
ghost use Rattle.std.specs.Prelude.{◌≡◌, ◌↔◌, [], length, map, option_map, slice_get, IsTrue, ◌≤◌};
ghost use Rattle.std.proofs.Props.{props};
ghost use Rattle.json_doc.specs.Left.{pairs_doc, pairs_left};
ghost use Rattle.json_doc.specs.Seen.{view_doc, view_place, view_tree};
ghost use Rattle.json_value.specs.Denotes.{tree_of, pair_of};
ghost use Rattle.json_doc_print.specs.Readings.{members};
ghost use Rattle.json_value.specs.Seen.{seen, members_seen, object_pairs, first_of, member_seen};
ghost use Rattle.json_value.specs.TargetParts.{members_at, member_target, pair_target, target_members, members_targets};
ghost use Rattle.json_value.specs.ViewTargets.{whole_value, place_of, doc_held, view_target};

use crate::packed_view::PackedView;
use crate::pair::Pair;
use crate::value::Value;
use crate::view::{View, ViewForm};
use json_doc::{DocNode, DocPairs, DocView, JsonType};

#[derive(Clone, Copy)]
pub(crate) enum ObjectForm<'a> {
    Packed(PackedView<'a>),
    Whole(&'a [Pair]),
}

/// A read-only view of an object that is in a [`Value`] or in a packed document. Members keep their
/// order, and keys may repeat. It is a small reference that can be copied, and it takes no memory.
///
/// ```
/// use json_doc::read_document;
/// use json_value::View;
/// let doc = read_document(alloc, "{\"a\": 1.5, \"b\": true, \"a\": 2.5}")?;
/// let object = View::packed(doc.view()).as_object().ok_or("no object")?;
/// assert_eq!(rt; object.len(), 3);
/// assert_eq!(rt; object.get("a").ok_or("no member")?.literal(), Some("1.5"));
/// ```
#[derive(Clone, Copy)]
pub struct ObjectView<'a> {
    pub(crate) form: ObjectForm<'a>,
}

impl<'a> ObjectView<'a> {
    ghost use Rattle.json_value.specs.Left.{members_left, members_targets_left};

    pub(crate) fn of_packed(packed: PackedView<'a>) -> Option<ObjectView<'a>>
        ensures trees { option_map members_seen result
            ≡ object_pairs (view_tree packed.entry.view) }
        ensures targets { let p = packed.entry in option_map members_targets result
            ≡ target_members (place_of (view_doc p.view) (doc_held p.holder) (view_place p.view)) }
    {
        match packed.view.get_type() {
            JsonType::Object => Some(ObjectView {
                form: ObjectForm::Packed(packed),
            }),
            _ => None,
        }
    }

    pub(crate) fn of_value(value: &'a Value) -> Option<ObjectView<'a>>
        ensures trees { option_map members_seen result ≡ object_pairs (tree_of value.now) }
        ensures targets { option_map members_targets result ≡ target_members (whole_value value.now) }
    {
        match value {
            Value::Object(object) => Some(object.view()),
            _ => None,
        }
    }

    /// Returns the number of members. Members with equal keys are counted each.
    #[inline]
    pub fn len(self) -> usize
        ensures { result ≡ length (members_seen self.entry) }
    {
        match self.form {
            ObjectForm::Packed(packed) => packed_len(packed.view),
            ObjectForm::Whole(pairs) => pairs.len(),
        }
    }

    /// Returns whether the object has no members.
    #[inline]
    pub fn is_empty(self) -> bool
        ensures { IsTrue result ↔ (members_seen self.entry ≡ []) }
    {
        self.len() == 0
    }

    /// Returns the key and a view of the value of the member `i`, counted from 0, or `None` if the
    /// object has no such member.
    #[inline]
    pub fn pair(self, i: usize) -> Option<(&'a str, View<'a>)>
        ensures tree { option_map member_seen result ≡ slice_get (members_seen self.entry) i }
        ensures target { option_map member_target result ≡ slice_get (members_targets self.entry) i }
    {
        match self.form {
            ObjectForm::Packed(packed) => packed_pair(packed, i),
            ObjectForm::Whole(pairs) => whole_pair(pairs, i),
        }
    }

    /// Returns the key and a view of the value of the first member named `key`, or `None` if there
    /// is none.
    pub fn get_key_value(self, key: &str) -> Option<(&'a str, View<'a>)>
        ensures tree { option_map member_seen result
            ≡ first_of key.now (members_seen self.entry) }
        ensures target { option_map member_target result
            ≡ first_of key.now (members_targets self.entry) }
    {
        for (found, value) in self.iter() {
            if found == key {
                return Some((found, value));
            }
        }
        None
    }

    /// Returns a view of the value of the first member named `key`, or `None` if there is none.
    pub fn get(self, key: &str) -> Option<View<'a>>
        ensures tree { option_map seen result ≡ option_map (λ p. p.1)
            (first_of key.now (members_seen self.entry)) }
        ensures target { option_map view_target result
            ≡ option_map (λ p. p.1) (first_of key.now (members_targets self.entry)) }
    {
        match self.get_key_value(key) {
            Some((_, value)) => Some(value),
            None => None,
        }
    }

    /// Returns an iterator over the members, from the first to the last, each as its key and a view
    /// of its value.
    #[inline]
    pub fn iter(self) -> Iter<'a>
        ensures trees { members_left result ≡ members_seen self.entry }
        ensures targets { members_targets_left result ≡ members_targets self.entry }
    {
        let left = match self.form {
            ObjectForm::Packed(packed) => MembersLeft::of_packed(packed),
            ObjectForm::Whole(pairs) => MembersLeft::Whole(pairs),
        };
        Iter { left }
    }
}

fn packed_len(view: DocView<'_>) -> usize
    ensures { result ≡ length (members (view_tree view.entry)) }
{
    match view.get_type() {
        JsonType::Object => view.len(),
        _ => 0,
    }
}

fn packed_pair(packed: PackedView<'_>, i: usize) -> Option<(&str, View<'_>)>
    ensures tree { option_map member_seen result
        ≡ slice_get (members (view_tree packed.entry.view)) i }
    ensures target { let p = packed.entry in let ps = members (view_tree p.view) in
        option_map member_target result
        ≡ slice_get (members_at (view_doc p.view) (doc_held p.holder) (view_place p.view) ps) i }
{
    match packed.view.key(i) {
        Some(key) => match packed.view.pair_value(i) {
            Some(value) => {
                let form = ViewForm::Packed(packed.beside(value));
                Some((key, View { form }))
            }
            None => None,
        },
        None => None,
    }
}

fn whole_pair(pairs: &[Pair], i: usize) -> Option<(&str, View<'_>)>
    ensures tree { option_map member_seen result ≡ slice_get (map pair_of pairs.now) i }
    ensures target { option_map member_target result ≡ slice_get (map pair_target pairs.now) i }
{
    if i < pairs.len() {
        Some((pairs[i].key.as_str(), pairs[i].value.view()))
    } else {
        None
    }
}

/// An iterator over the members of an object, in order, each as its key and a view of its value.
/// Created by [`ObjectView::iter`].
///
/// ```
/// use json_doc::read_document;
/// use json_value::View;
/// let doc = read_document(alloc, "{\"b\": true, \"a\": null}")?;
/// let mut members = View::packed(doc.view()).as_object().ok_or("no object")?.iter();
/// let (key, value) = members.next().ok_or("no member")?;
/// assert_eq!(rt; (key, value.as_bool()), ("b", Some(true)));
/// assert_eq!(rt; members.len(), 1);
/// ```
#[derive(Drop)]
pub struct Iter<'a> {
    left: MembersLeft<'a>,
}

#[derive(Drop)]
pub(crate) enum MembersLeft<'a> {
    Packed(PackedMembers<'a>),
    Whole(&'a [Pair]),
}

// The members of a packed object that are left.
#[derive(Drop)]
pub(crate) struct PackedMembers<'a> {
    packed: PackedView<'a>,
    members: DocPairs<'a>,
    ghost same: { pairs_doc members ≡ view_doc packed.view } by { Prim.hlevel props },
}

impl<'a> PackedMembers<'a> {
    ghost use Rattle.std.specs.Iterator.{YieldsFirstBy};
    ghost use Rattle.json_value.specs.Left.{packed_member_targets};

    #[inline]
    fn next(&mut self) -> Option<(&'a str, View<'a>)>
        ensures tree { YieldsFirstBy member_seen (λ p. pairs_left p.members)
            self.old result self.new }
        ensures target { YieldsFirstBy member_target packed_member_targets self.old result self.new }
    {
        match self.members.next() {
            Some((key, value)) => {
                let form = ViewForm::Packed(self.packed.beside(value));
                Some((key, View { form }))
            }
            None => None,
        }
    }
}

impl<'a> MembersLeft<'a> {
    ghost use Rattle.json_value.specs.Left.{pairs_to_come, remaining_member_targets};

    // Returns the members of a packed object; none of another kind.
    #[inline]
    fn of_packed(packed: PackedView<'a>) -> MembersLeft<'a>
        ensures trees { pairs_to_come result ≡ members (view_tree packed.entry.view) }
        ensures targets { let p = packed.entry in let ps = members (view_tree p.view) in
            remaining_member_targets result
            ≡ members_at (view_doc p.view) (doc_held p.holder) (view_place p.view) ps }
    {
        match packed.view.node() {
            DocNode::Object(members) => MembersLeft::Packed(PackedMembers { packed, members }),
            _ => MembersLeft::Whole(&[]),
        }
    }
}

impl<'a> Iter<'a> {
    ghost use Rattle.json_value.specs.Left.{members_left};

    /// Returns the number of members that are left.
    #[inline]
    pub fn len(&self) -> usize
        ensures { result ≡ length (members_left self.now) }
    {
        match &self.left {
            MembersLeft::Packed(packed) => packed.members.len(),
            MembersLeft::Whole(pairs) => pairs.len(),
        }
    }
}

impl<'a> Iterator for Iter<'a> {
    ghost use Rattle.std.specs.Iterator.{item_count};
    ghost use Rattle.json_value.specs.Left.{members_left, GivesMember};

    type Item = (&'a str, View<'a>);

    ghost next_gives = { GivesMember };

    ghost remaining = { item_count members_left };

    #[inline]
    fn next(&mut self) -> Option<(&'a str, View<'a>)> {
        match &mut self.left {
            MembersLeft::Packed(packed) => packed.next(),
            MembersLeft::Whole(pairs) => match pairs.split_first() {
                Some((pair, rest)) => {
                    *pairs = rest;
                    Some((pair.key.as_str(), pair.value.view()))
                }
                None => None,
            },
        }
    }
}
