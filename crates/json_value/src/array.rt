// Arrays.
ghost use Rattle.std.specs.Prelude.{◌≡◌, ◌≤◌, ◌↔◌, [], map, IfOk, OnOk, OnErr, IfSome, IsNone, IsOk, None, string_bytes};
ghost use Rattle.std.specs.Borrow.{Lends, LendsIfOk, sem};
ghost use Rattle.json_grammar.specs.Tree.{list, list_trees};
ghost use Rattle.json_model.specs.Print.{shown};
ghost use Rattle.json_doc.specs.Left.{children_doc, children_places, children_left};
ghost use Rattle.json_doc.specs.Readings.{elements};
ghost use Rattle.json_value.specs.Denotes.{tree_of, list_in};
ghost use Rattle.json_value.specs.Said.{place_tree};
ghost use Rattle.json_value.specs.Rows.{array_row, value_row, vec_row, owned, owned_items, owned_items_of, IsOwned, OwnsList};
ghost use Rattle.json_value.specs.Room.{spare_in};
ghost use Rattle.json_value.specs.Positions.{IsPlace, FirstList, PlaceElements, doc_position, read_position};
ghost use Rattle.json_value.specs.Written.{FirstElements};
ghost use Rattle.json_value.specs.declared.value.Value.{Array as ArrayValue};
ghost use Rattle.json_value.specs.Places.{places_in, array_places};
ghost use Rattle.json_value.specs.Seen.{elements_seen};
ghost use Rattle.json_value.specs.TargetParts.{array_targets, elements_targets};
ghost use Rattle.json_io.specs.Errors.{OnlyNoMemory};

use crate::array_view::{ArrayForm, ArrayView};
use crate::container::{Container, Form};
use crate::packed_view::PackedView;
use crate::place::DocumentPosition;
use crate::texts::{show_array, text_writer, text_written};
use crate::value::Value;
use json_doc::{Doc, DocChildren, DocNode};
use json_io::Result;
use json_layout::answered;
use std::alloc::Global;
use std::rc::Rc;

/// An array (RFC 8259, section 5): a [`Container`] of values.
///
/// ```
/// use json_value::{Array, Value};
/// let mut array = Array::new();
/// let list = array.list_mut(alloc)?;
/// list.push(Value::new_u64(1))?;
/// list.push(Value::from_static_str("x"))?;
/// assert_eq!(rt; array.to_string(alloc)?.as_str(), "[1,\"x\"]");
/// ```
pub type Array = Container<Value>;

// The elements of a packed array, each as a value of its own.
fn unpack_list(alloc: Global, place: &DocumentPosition) -> Result<Vec<Value>>
    ensures list { IfOk result (λ v. map tree_of v.items ≡ elements (place_tree place.now)) }
    ensures children { IfOk result (λ v. PlaceElements place.now v.items) }
    ensures only { OnlyNoMemory result }
{
    match place.view().node() {
        DocNode::Array(elements) => unpack_elements(alloc, &place.doc, elements),
        _ => Ok(Vec::new(alloc)),
    }
}

// Returns the elements, each as a value that is read from its position in `doc`.
fn unpack_elements(alloc: Global, doc: &Rc<Doc>, elements: DocChildren<'_>) -> Result<Vec<Value>>
    requires { children_doc elements ≡ doc.now.value }
    ensures list { IfOk result (λ v. map tree_of v.items ≡ children_left elements.entry) }
    ensures spots { IfOk result (λ v. map doc_position v.items
        ≡ map (read_position doc.now.value) (children_places elements.entry)) }
    ensures only { OnlyNoMemory result }
{
    let mut list = Vec::with_capacity(alloc, elements.len())?;
    for element in elements {
        let value = Value::from_place(alloc, doc, element.place())?;
        list.push(value)?;
    }
    Ok(list)
}

#[cycle(copy)]
pub(crate) fn copy_list(alloc: Global, list: &Vec<Value>) -> Result<Vec<Value>>
    ensures list { IfOk result (λ v. map tree_of v.items ≡ map tree_of list.now.items) }
    ensures places { IfOk result (λ v. map places_in v.items ≡ map places_in list.now.items) }
    ensures only { OnlyNoMemory result }
{
    let mut copies = Vec::with_capacity(alloc, list.len())?;
    for value in list {
        copies.push(value.clone(alloc)?)?;
    }
    Ok(copies)
}

impl Container<Value> {
    /// Creates an array without elements. Takes no memory.
    pub fn new() -> Array
        ensures empty { list_in result ≡ [] }
        ensures no_place { IsPlace result → ⊥ }
    {
        Container { form: Form::Empty }
    }

    /// Creates an array with the elements of `list`. Takes no memory.
    pub fn from_list(list: Vec<Value>) -> Array
        ensures { result ≡ owned list }
    {
        Container {
            form: Form::Owned(list),
        }
    }

    /// Returns the array as a [`Value`].
    pub fn into_value(self) -> Value
        ensures tree { tree_of result ≡ list (list_trees (list_in self)) }
        ensures value { result ≡ ArrayValue self }
    {
        Value::Array(self)
    }

    /// Returns how many elements can be appended before the array allocates. That is 0 if it has no
    /// owned list: if it is new, or packed in a document. Takes no memory.
    pub fn spare(&self) -> usize
        ensures { result ≡ spare_in self.now }
    {
        match &self.form {
            Form::Owned(list) => list.capacity() - list.len(),
            Form::Empty | Form::Packed(_) => 0,
        }
    }

    /// Returns the elements as a slice, or `None` if the array is packed in a document.
    /// [`Array::view`] reads the elements in either case.
    pub fn list(&self) -> Option<&[Value]>
        ensures list { IfSome result (λ v. map tree_of v.now ≡ list_in self.now) }
        ensures items { IfSome result (λ v. v.now ≡ owned_items_of self.now) }
        ensures none { IsNone result ↔ IsPlace self.now }
    {
        match &self.form {
            Form::Empty => Some(&[]),
            Form::Owned(list) => Some(list.as_slice()),
            Form::Packed(_) => None,
        }
    }

    // Makes the list an owned one.
    pub(crate) fn make_owned(&mut self, alloc: Global) -> Result<()>
        ensures ok { OnOk result (IsOwned self.new.form) }
        ensures same { OnOk result (list_in self.new ≡ list_in self.old) }
        ensures children { OnOk result (FirstList self.old.form (owned_items self.new.form)) }
        ensures err { OnErr result (self.new ≡ self.old) }
        ensures as_it_was { OwnsList self.old → self.new ≡ self.old }
        ensures room { OnOk result (spare_in self.old ≤ spare_in self.new) }
        ensures only { OnlyNoMemory result }
        ensures free { (IsPlace self.old → ⊥) → IsOk result }
    {
        match &self.form {
            Form::Empty => self.form = Form::Owned(Vec::new(alloc)),
            Form::Owned(_) => {}
            Form::Packed(place) => {
                let list = unpack_list(alloc, place)?;
                self.form = Form::Owned(list);
            }
        }
        Ok(())
    }

    /// Returns a mutable reference to the list of the elements; what is written through it becomes
    /// the array. A packed array is first copied by one level into a list of its own. In that list,
    /// strings, numbers kept as literals, and containers that are not empty stay packed in the same
    /// document. Fails with `NoMemory` if memory runs out, only for a packed array; the array is
    /// then unchanged.
    pub fn list_mut(&mut self, alloc: Global) -> Result<&mut Vec<Value>>
        ensures* writes_back { sem 𝓛 (LendsIfOk array_row (vec_row value_row) self.entry result
            owned self.old) }
        ensures list { IfOk result (λ v. map tree_of v.now.items ≡ list_in self.old) }
        ensures children { IfOk result (λ v. FirstElements self.old v.now.items) }
        ensures as_it_was { IfOk result (λ v. OwnsList self.old → owned v.now ≡ self.old) }
        ensures room { IfOk result (λ v. spare_in self.old ≤ spare_in (owned v.now)) }
        ensures only { OnlyNoMemory result }
        ensures free { (IsPlace self.old → ⊥) → IsOk result }
    {
        self.make_owned(alloc)?;
        Ok(self.form.owned())
    }

    /// Returns a mutable reference to the list of the elements, without a copy. The array must have
    /// an owned list, as after [`Array::from_list`] or [`Array::list_mut`]. Takes no memory.
    pub fn owned_mut(&mut self) -> &mut Vec<Value>
        requires { OwnsList self.old }
        ensures* writes_back { sem 𝓛 (Lends array_row (vec_row value_row) self.entry result
            owned) }
        ensures value { self.old ≡ owned result.now }
    {
        self.form.owned()
    }

    /// Returns a read-only view of the whole array.
    #[inline]
    pub fn view(&self) -> ArrayView<'_>
        ensures trees { elements_seen result ≡ list_in self.now }
        ensures targets { elements_targets result ≡ array_targets self.now }
    {
        let form = match &self.form {
            Form::Empty => ArrayForm::Whole(&[]),
            Form::Owned(values) => ArrayForm::Whole(values.as_slice()),
            Form::Packed(place) => ArrayForm::Packed(PackedView::of_place(place)),
        };
        ArrayView { form }
    }

    /// Returns the array as a compact JSON text, without whitespace between tokens. Fails with
    /// `NoMemory` if memory runs out.
    pub fn to_string(&self, alloc: Global) -> Result<String>
        ensures ok { IfOk result (λ text.
            string_bytes text ≡ shown None 0 (list (list_trees (list_in self.now)))) }
        ensures only { OnlyNoMemory result }
    {
        let mut out = text_writer(alloc)?;
        answered(show_array(self, &mut out))?;
        text_written(out)
    }

    /// Returns a copy of the array, which later writes to this one do not change. Packed parts stay
    /// packed at the same positions of the same document. Fails with `NoMemory` if memory runs out.
    pub fn clone(&self, alloc: Global) -> Result<Array>
        ensures list { IfOk result (λ a. list_in a ≡ list_in self.now) }
        ensures places { IfOk result (λ a. array_places a ≡ array_places self.now) }
        ensures only { OnlyNoMemory result }
    {
        match &self.form {
            Form::Empty => Ok(Container { form: Form::Empty }),
            Form::Owned(list) => {
                let list = copy_list(alloc, list)?;
                Ok(Container {
                    form: Form::Owned(list),
                })
            }
            Form::Packed(place) => {
                let place = place.copy()?;
                Ok(Container {
                    form: Form::Packed(place),
                })
            }
        }
    }
}

impl Default for Container<Value> {
    ghost is_default = { λ a. (list_in a ≡ []) × (IsPlace a → ⊥) };

    /// Returns an array without elements. Takes no memory.
    fn default() -> Array {
        Array::new()
    }
}
