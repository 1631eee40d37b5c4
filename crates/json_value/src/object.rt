// Objects.
ghost use Rattle.std.specs.Prelude.{◌≡◌, ◌≤◌, ◌↔◌, [], map, IfOk, OnOk, OnErr, IfSome, IsNone, IsOk, None, string_bytes};
ghost use Rattle.std.specs.Borrow.{Lends, LendsIfOk, sem};
ghost use Rattle.json_grammar.specs.Tree.{pairs, list_pairs};
ghost use Rattle.json_model.specs.Print.{shown};
ghost use Rattle.json_doc.specs.Left.{pairs_doc, places_of_pairs, pairs_left};
ghost use Rattle.json_value.specs.Denotes.{tree_of, pair_of, pairs_in};
ghost use Rattle.json_value.specs.Said.{place_tree};
ghost use Rattle.json_doc_print.specs.Readings.{members};
ghost use Rattle.json_value.specs.Rows.{object_row, pair_row, vec_row, owned, owned_items, owned_items_of, IsOwned, OwnsList};
ghost use Rattle.json_value.specs.Room.{spare_in};
ghost use Rattle.json_value.specs.Positions.{IsPlace, FirstPairs, PlaceMembers, member_positions, read_member_positions};
ghost use Rattle.json_value.specs.Written.{FirstMembers};
ghost use Rattle.json_value.specs.declared.value.Value.{Object as ObjectValue};
ghost use Rattle.json_value.specs.Places.{member_places, object_places};
ghost use Rattle.json_value.specs.Seen.{members_seen};
ghost use Rattle.json_value.specs.TargetParts.{object_targets, members_targets};
ghost use Rattle.json_io.specs.Errors.{OnlyNoMemory};

use crate::container::{Container, Form};
use crate::object_view::{ObjectForm, ObjectView};
use crate::packed_view::PackedView;
use crate::pair::{Keyed, Pair};
use crate::place::DocumentPosition;
use crate::text::Text;
use crate::texts::{show_object, text_writer, text_written};
use crate::value::Value;
use json_doc::{Doc, DocNode, DocPairs};
use json_io::Result;
use json_layout::answered;
use std::alloc::Global;
use std::rc::Rc;

/// An object (RFC 8259, section 4): a [`Container`] of members. Keys keep their order and may
/// repeat.
///
/// ```
/// use json_value::{Object, Pair, Text, Value};
/// let mut object = Object::new();
/// let members = object.pairs_mut(alloc)?;
/// members.push(Pair::new(Text::from_static("b"), Value::new_bool(true)))?;
/// members.push(Pair::new(Text::from_static("a"), Value::new_array()))?;
/// members.push(Pair::new(Text::from_static("b"), Value::new_null()))?;
/// assert_eq!(rt; object.to_string(alloc)?.as_str(), "{\"b\":true,\"a\":[],\"b\":null}");
/// ```
pub type Object = Container<Pair>;

// Returns the members of a packed object, each key and value read from its position.
fn unpack_pairs(alloc: Global, place: &DocumentPosition) -> Result<Vec<Pair>>
    ensures pairs { IfOk result (λ v. map pair_of v.items ≡ members (place_tree place.now)) }
    ensures children { IfOk result (λ v. PlaceMembers place.now v.items) }
    ensures only { OnlyNoMemory result }
{
    match place.view().node() {
        DocNode::Object(members) => unpack_members(alloc, &place.doc, members),
        _ => Ok(Vec::new(alloc)),
    }
}

// Returns the members, each key and value read from its position in `doc`.
fn unpack_members(alloc: Global, doc: &Rc<Doc>, mut members: DocPairs<'_>) -> Result<Vec<Pair>>
    requires { pairs_doc members ≡ doc.now.value }
    ensures pairs { IfOk result (λ v. map pair_of v.items ≡ pairs_left members.entry) }
    ensures spots { IfOk result (λ v. map member_positions v.items
        ≡ map (read_member_positions doc.now.value) (places_of_pairs members.entry)) }
    ensures only { OnlyNoMemory result }
{
    let mut list = Vec::with_capacity(alloc, members.len())?;
    while let Some(key) = members.key() {
        let Some((_, value)) = members.next() else {
            break;
        };
        let key = Text::at(doc, key.place())?;
        let value = Value::from_place(alloc, doc, value.place())?;
        list.push(Keyed { key, value })?;
    }
    Ok(list)
}

#[cycle(copy)]
pub(crate) fn copy_pairs(alloc: Global, list: &Vec<Pair>) -> Result<Vec<Pair>>
    ensures pairs { IfOk result (λ v. map pair_of v.items ≡ map pair_of list.now.items) }
    ensures places { IfOk result (λ v. map member_places v.items
        ≡ map member_places list.now.items) }
    ensures only { OnlyNoMemory result }
{
    let mut copies = Vec::with_capacity(alloc, list.len())?;
    for pair in list {
        let key = pair.key.clone(alloc)?;
        let value = pair.value.clone(alloc)?;
        copies.push(Keyed { key, value })?;
    }
    Ok(copies)
}

impl Container<Keyed<Value>> {
    /// Creates an object without members. Takes no memory.
    pub fn new() -> Object
        ensures empty { pairs_in result ≡ [] }
        ensures no_place { IsPlace result → ⊥ }
    {
        Container { form: Form::Empty }
    }

    /// Creates an object with the members of `pairs`, in their order; keys that repeat stay. Takes
    /// no memory.
    pub fn from_list(pairs: Vec<Pair>) -> Object
        ensures { result ≡ owned pairs }
    {
        Container {
            form: Form::Owned(pairs),
        }
    }

    /// Returns the object as a [`Value`].
    pub fn into_value(self) -> Value
        ensures tree { tree_of result ≡ pairs (list_pairs (pairs_in self)) }
        ensures value { result ≡ ObjectValue self }
    {
        Value::Object(self)
    }

    /// Returns how many members can be appended before the object allocates. That is 0 if it has no
    /// owned list: if it is new, or packed in a document. Takes no memory.
    pub fn spare(&self) -> usize
        ensures { result ≡ spare_in self.now }
    {
        match &self.form {
            Form::Owned(list) => list.capacity() - list.len(),
            Form::Empty | Form::Packed(_) => 0,
        }
    }

    /// Returns the members as a slice, or `None` if the object is packed in a document.
    /// [`Object::view`] reads the members in either case.
    pub fn pairs(&self) -> Option<&[Pair]>
        ensures pairs { IfSome result (λ v. map pair_of v.now ≡ pairs_in self.now) }
        ensures items { IfSome result (λ v. v.now ≡ owned_items_of self.now) }
        ensures none { IsNone result ↔ IsPlace self.now }
    {
        match &self.form {
            Form::Empty => Some(&[]),
            Form::Owned(list) => Some(list.as_slice()),
            Form::Packed(_) => None,
        }
    }

    // Makes the list an owned one.
    pub(crate) fn make_owned(&mut self, alloc: Global) -> Result<()>
        ensures ok { OnOk result (IsOwned self.new.form) }
        ensures same { OnOk result (pairs_in self.new ≡ pairs_in self.old) }
        ensures children { OnOk result (FirstPairs self.old.form (owned_items self.new.form)) }
        ensures err { OnErr result (self.new ≡ self.old) }
        ensures as_it_was { OwnsList self.old → self.new ≡ self.old }
        ensures room { OnOk result (spare_in self.old ≤ spare_in self.new) }
        ensures only { OnlyNoMemory result }
        ensures free { (IsPlace self.old → ⊥) → IsOk result }
    {
        match &self.form {
            Form::Empty => self.form = Form::Owned(Vec::new(alloc)),
            Form::Owned(_) => {}
            Form::Packed(place) => {
                let list = unpack_pairs(alloc, place)?;
                self.form = Form::Owned(list);
            }
        }
        Ok(())
    }

    /// Returns a mutable reference to the list of the members; what is written through it becomes
    /// the object. A packed object is first copied by one level into a list of its own. In that
    /// list, keys, strings, numbers kept as literals, and containers that are not empty stay packed
    /// in the same document. Fails with `NoMemory` if memory runs out, only for a packed object;
    /// the object is then unchanged.
    pub fn pairs_mut(&mut self, alloc: Global) -> Result<&mut Vec<Pair>>
        ensures* writes_back { sem 𝓛 (LendsIfOk object_row (vec_row pair_row) self.entry result
            owned self.old) }
        ensures pairs { IfOk result (λ v. map pair_of v.now.items ≡ pairs_in self.old) }
        ensures children { IfOk result (λ v. FirstMembers self.old v.now.items) }
        ensures as_it_was { IfOk result (λ v. OwnsList self.old → owned v.now ≡ self.old) }
        ensures room { IfOk result (λ v. spare_in self.old ≤ spare_in (owned v.now)) }
        ensures only { OnlyNoMemory result }
        ensures free { (IsPlace self.old → ⊥) → IsOk result }
    {
        self.make_owned(alloc)?;
        Ok(self.form.owned())
    }

    /// Returns a mutable reference to the list of the members, without a copy. The object must have
    /// an owned list, as after [`Object::from_list`] or [`Object::pairs_mut`]. Takes no memory.
    pub fn owned_mut(&mut self) -> &mut Vec<Pair>
        requires { OwnsList self.old }
        ensures* writes_back { sem 𝓛 (Lends object_row (vec_row pair_row) self.entry result
            owned) }
        ensures value { self.old ≡ owned result.now }
    {
        self.form.owned()
    }

    /// Returns a read-only view of the whole object.
    #[inline]
    pub fn view(&self) -> ObjectView<'_>
        ensures trees { members_seen result ≡ pairs_in self.now }
        ensures targets { members_targets result ≡ object_targets self.now }
    {
        let form = match &self.form {
            Form::Empty => ObjectForm::Whole(&[]),
            Form::Owned(pairs) => ObjectForm::Whole(pairs.as_slice()),
            Form::Packed(place) => ObjectForm::Packed(PackedView::of_place(place)),
        };
        ObjectView { form }
    }

    /// Returns the object as a compact JSON text, without whitespace between tokens. Fails with
    /// `NoMemory` if memory runs out.
    pub fn to_string(&self, alloc: Global) -> Result<String>
        ensures ok { IfOk result (λ text.
            string_bytes text ≡ shown None 0 (pairs (list_pairs (pairs_in self.now)))) }
        ensures only { OnlyNoMemory result }
    {
        let mut out = text_writer(alloc)?;
        answered(show_object(self, &mut out))?;
        text_written(out)
    }

    /// Returns a copy of the object, which later writes to this one do not change. Packed parts
    /// stay packed at the same positions of the same document. Fails with `NoMemory` if memory runs
    /// out.
    pub fn clone(&self, alloc: Global) -> Result<Object>
        ensures pairs { IfOk result (λ o. pairs_in o ≡ pairs_in self.now) }
        ensures places { IfOk result (λ o. object_places o ≡ object_places self.now) }
        ensures only { OnlyNoMemory result }
    {
        match &self.form {
            Form::Empty => Ok(Container { form: Form::Empty }),
            Form::Owned(list) => {
                let list = copy_pairs(alloc, list)?;
                Ok(Container {
                    form: Form::Owned(list),
                })
            }
            Form::Packed(place) => {
                let place = place.copy()?;
                Ok(Container {
                    form: Form::Packed(place),
                })
            }
        }
    }
}

impl Default for Container<Keyed<Value>> {
    ghost is_default = { λ o. (pairs_in o ≡ []) × (IsPlace o → ⊥) };

    /// Returns an object without members. Takes no memory.
    fn default() -> Object {
        Object::new()
    }
}
