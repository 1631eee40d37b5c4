// Views of values.
ghost use Rattle.std.specs.Prelude.{◌≡◌, None, Some, option_map, IfSome, ◌<◌, length, IfOk, IsErrOf};
ghost use Rattle.json_grammar.specs.Tree.{num, null, tokens};
ghost use Rattle.json_io.specs.Errors.{no_memory, OnlyNoMemory};
ghost use Rattle.json_number.specs.Numbers.{value_of, text_of_number};
ghost use Rattle.json_doc.specs.Readings.{type_of, bool_of, integer_in_tree, literal_of, string_of};
ghost use Rattle.json_doc.specs.Seen.{view_doc, view_place, view_tree};
ghost use Rattle.json_value.specs.Denotes.{tree_of};
ghost use Rattle.json_value.specs.Doubles.{double_in};
ghost use Rattle.json_value.specs.Places.{places_in};
ghost use Rattle.json_value.specs.Seen.{seen, elements_seen, members_seen, list_of, object_pairs};
ghost use Rattle.json_value.specs.TargetParts.{target_elements, elements_targets, target_members, members_targets, target_after, target_along, or_nowhere};
ghost use Rattle.json_value.specs.ViewTargets.{view_target, place_of, nowhere};
ghost use Rattle.json_value.specs.Positions.{position_in, doc_position};
ghost use Rattle.json_value.specs.ViewPositions.{view_position, view_value_position, places_kept};
ghost use Rattle.json_model.specs.Edit.{key_step, index_step};
ghost use Rattle.json_model.specs.Sort.{sorted};
ghost use Rattle.json_value.specs.Edits.{steps_of};
ghost use Rattle.json_value.specs.Steps.{child, tree_at, tree_or_null};
ghost use Rattle.json_doc.specs.Docs.{doc_cells, doc_tree};
ghost use Rattle.json_model.specs.Print.{shown};
ghost use Rattle.json_layout.specs.Showing.{RanOut, Shows};
ghost use Rattle.json_print.specs.ExpectedEvents.{AcceptsValue};
ghost use Rattle.json_layout.specs.TextWriting.{WritesText};
ghost use Rattle.json_print.specs.Given.{given_tokens};
ghost use Rattle.json_doc_print.specs.Emitting.{Emits, Walks, tree_given};
ghost use Rattle.json_doc_print.specs.ShowingSorted.{ShowsOrRunsOut};

use crate::array_view::ArrayView;
use crate::emit::emit_value;
use crate::index::Index;
use crate::object_view::ObjectView;
use crate::packed_view::PackedView;
use crate::path::PointerNode;
use crate::show_owned::show_value;
use crate::show_sorted::show_sorted_value;
use crate::value::Value;
use json_doc::{Doc, DocView, JsonType};
use json_doc_print::internal::{
    EventsFailed, EventsResult, SortedLayout, emit_document, events_result, show_document,
    show_sorted_document,
};
use json_io::{Result, Sink, SinkResult};
use json_layout::{BufferedWriter, Layout, answered, show_piece};
use json_number::{JsonNumberTrait, Number, f64_of};
use json_print::Events;
use std::alloc::Global;

#[derive(Clone, Copy)]
pub(crate) enum ViewForm<'a> {
    Packed(PackedView<'a>),
    Whole(&'a Value),
    // Null that is in no value and no document.
    Absent,
}

/// A read-only view of a [`Value`], of a value within one, or of a value in a packed document. It
/// is a small reference that can be copied, and it takes no memory.
///
/// ```
/// use json_doc::read_document;
/// use json_value::View;
/// let doc = read_document(alloc, "{\"name\": \"Ada\", \"rates\": [7, 12.10]}")?;
/// let view = View::packed(doc.view());
/// assert_eq!(rt; view.at("name").text(), Some("Ada"));
/// assert_eq!(rt; view.at("rates").at(1usize).literal(), Some("12.10"));
/// assert!(rt; view.get("died").is_none());
/// ```
#[derive(Clone, Copy)]
pub struct View<'a> {
    pub(crate) form: ViewForm<'a>,
}

impl<'a> View<'a> {
    /// Creates a view of the value that `view` shows in a packed document.
    #[inline]
    pub fn packed(view: DocView<'a>) -> View<'a>
        ensures tree { seen result ≡ view_tree view.entry }
        ensures target { view_target result
            ≡ place_of (view_doc view.entry) None (view_place view.entry) }
        ensures position { view_position result
            ≡ Some (position_in (view_doc view.entry) (view_place view.entry)) }
        ensures kept { view_value_position result ≡ None }
    {
        View {
            form: ViewForm::Packed(PackedView::of_document(view)),
        }
    }

    /// Returns the kind of the value: null, boolean, number, string, array or object.
    #[inline]
    pub fn get_type(self) -> JsonType
        ensures { result ≡ type_of (seen self.entry) }
    {
        match self.form {
            ViewForm::Packed(packed) => packed.view.get_type(),
            ViewForm::Whole(value) => value_type(value),
            ViewForm::Absent => JsonType::Null,
        }
    }

    /// Returns the boolean, or `None` if the value is of another kind.
    #[inline]
    pub fn as_bool(self) -> Option<bool>
        ensures { result ≡ bool_of (seen self.entry) }
    {
        match self.form {
            ViewForm::Packed(packed) => packed.view.as_bool(),
            ViewForm::Whole(value) => value_bool(value),
            ViewForm::Absent => None,
        }
    }

    /// Returns the number if it is an integer of `u64` or `i64`, or `None` for any other number and
    /// for a value of another kind.
    #[inline]
    pub fn as_number(self) -> Option<Number>
        ensures value { option_map value_of result ≡ integer_in_tree (seen self.entry) }
        ensures text { IfSome result (λ n. seen self.entry ≡ num (text_of_number n)) }
    {
        match self.form {
            ViewForm::Packed(packed) => packed.view.as_number(),
            ViewForm::Whole(value) => value_number(value),
            ViewForm::Absent => None,
        }
    }

    /// Returns the literal, as it was written, of a number that is no integer of `u64` or `i64`.
    /// Returns `None` for such an integer and for a value of another kind.
    #[inline]
    pub fn literal(self) -> Option<&'a str>
        ensures { option_map (λ s. s.now) result ≡ literal_of (seen self.entry) }
    {
        match self.form {
            ViewForm::Packed(packed) => packed.view.literal(),
            ViewForm::Whole(value) => value_literal(value),
            ViewForm::Absent => None,
        }
    }

    /// Returns the `f64` nearest to the number, with ties to even. Returns `None` if that is not
    /// finite, or if the value is of another kind.
    ///
    /// ```
    /// use json_doc::read_document;
    /// use json_value::Value;
    /// let doc = read_document(alloc, "12.10")?;
    /// let value = Value::from_place(alloc, &doc, doc.root())?;
    /// assert_eq!(rt; value.view().as_f64(), Some(12.1));
    /// assert_eq!(rt; Value::new_i64(-7).view().as_f64(), Some(-7.0));
    /// ```
    pub fn as_f64(self) -> Option<f64>
        ensures { result ≡ double_in (seen self.entry) }
    {
        match self.as_number() {
            Some(number) => number.as_f64(),
            None => f64_of(self.literal()?),
        }
    }

    /// Returns the characters of the string, unescaped, or `None` if the value is of another kind.
    #[inline]
    pub fn text(self) -> Option<&'a str>
        ensures { option_map (λ s. s.now) result ≡ string_of (seen self.entry) }
    {
        match self.form {
            ViewForm::Packed(packed) => packed.view.text(),
            ViewForm::Whole(value) => value_text(value),
            ViewForm::Absent => None,
        }
    }

    /// Returns a view of the array, or `None` if the value is of another kind.
    #[inline]
    pub fn as_array(self) -> Option<ArrayView<'a>>
        ensures trees { option_map elements_seen result ≡ list_of (seen self.entry) }
        ensures targets { option_map elements_targets result ≡ target_elements (view_target self.entry) }
    {
        match self.form {
            ViewForm::Packed(packed) => ArrayView::of_packed(packed),
            ViewForm::Whole(value) => ArrayView::of_value(value),
            ViewForm::Absent => None,
        }
    }

    /// Returns a view of the object, or `None` if the value is of another kind.
    #[inline]
    pub fn as_object(self) -> Option<ObjectView<'a>>
        ensures trees { option_map members_seen result ≡ object_pairs (seen self.entry) }
        ensures targets { option_map members_targets result ≡ target_members (view_target self.entry) }
    {
        match self.form {
            ViewForm::Packed(packed) => ObjectView::of_packed(packed),
            ViewForm::Whole(value) => ObjectView::of_value(value),
            ViewForm::Absent => None,
        }
    }

    // Returns a view of null, which is at no position.
    fn null() -> View<'a>
        ensures tree { seen result ≡ null }
        ensures target { view_target result ≡ nowhere }
    {
        View {
            form: ViewForm::Absent,
        }
    }

    fn member(self, key: &str) -> Option<View<'a>>
        ensures tree { option_map seen result ≡ child (key_step key.now) (seen self.entry) }
        ensures target { option_map view_target result
            ≡ target_after (key_step key.now) (view_target self.entry) }
    {
        match self.as_object() {
            Some(object) => object.get(key),
            None => None,
        }
    }

    fn element(self, i: usize) -> Option<View<'a>>
        ensures tree { option_map seen result ≡ child (index_step i) (seen self.entry) }
        ensures target { option_map view_target result
            ≡ target_after (index_step i) (view_target self.entry) }
    {
        match self.as_array() {
            Some(array) => array.get(i),
            None => None,
        }
    }

    /// Returns a view of the value of the first member named `index`, or of the element at `index`,
    /// counted from 0, or `None` if there is none. `index` is a `&str`, a `usize` or a
    /// [`PointerNode`].
    pub fn get<I: Index>(self, index: I) -> Option<View<'a>>
        ensures tree { option_map seen result ≡ child (I.step index) (seen self.entry) }
        ensures target { option_map view_target result
            ≡ target_after (I.step index) (view_target self.entry) }
    {
        if let Some(key) = index.as_key() {
            return self.member(key);
        }
        match index.as_index() {
            Some(i) => self.element(i),
            None => None,
        }
    }

    /// Returns a view of the value to which the steps of `path` lead, one after another; without
    /// steps that is the value itself. Returns `None` if a step names a member or an element that
    /// is not there.
    pub fn pointer(self, path: &[PointerNode]) -> Option<View<'a>>
        ensures tree { option_map seen result ≡ tree_at (steps_of path.now) (seen self.entry) }
        ensures target { option_map view_target result
            ≡ target_along (steps_of path.now) (view_target self.entry) }
    {
        let mut here = self;
        for node in path {
            here = here.get(node)?;
        }
        Some(here)
    }

    /// Returns a view of the value of the first member named `index`, or of the element at `index`,
    /// counted from 0, or a view of null if there is none. `index` is a `&str`, a `usize` or a
    /// [`PointerNode`].
    pub fn at<I: Index>(self, index: I) -> View<'a>
        ensures tree { seen result ≡ tree_or_null (child (I.step index) (seen self.entry)) }
        ensures target { view_target result
            ≡ or_nowhere (target_after (I.step index) (view_target self.entry)) }
    {
        match self.get(index) {
            Some(found) => found,
            None => View::null(),
        }
    }

    /// Returns the document in which the value is packed and the position there, the index of a
    /// cell. Returns `None` if the value is not packed.
    pub fn place(self) -> Option<(&'a Doc, u32)>
        ensures position { option_map (λ p. position_in p.0.now p.1) result ≡ view_position self.entry }
        ensures within { IfSome result (λ p. p.1 < length (doc_cells p.0.now)) }
        ensures tree { IfSome result (λ p. doc_tree p.0.now p.1 ≡ seen self.entry) }
    {
        match self.form {
            ViewForm::Packed(packed) => Some((packed.view.doc(), packed.view.place())),
            ViewForm::Whole(value) => value.place(),
            ViewForm::Absent => None,
        }
    }

    /// Returns a copy of what is viewed as a [`Value`], which later writes to the original do not
    /// change. A view of a whole value is cloned. A packed part of a value stays packed in the same
    /// document. A view made by [`View::packed`] is copied whole, as a value of its own. Fails with
    /// `NoMemory` if memory runs out.
    pub fn to_value(self, alloc: Global) -> Result<Value>
        ensures tree { IfOk result (λ v. tree_of v ≡ seen self.entry) }
        ensures position { IfOk result (λ v. doc_position v ≡ view_value_position self.entry) }
        ensures places { IfOk result (λ v. IfSome (places_kept self.entry)
            (λ places. places_in v ≡ places)) }
        ensures only { OnlyNoMemory result }
    {
        match self.form {
            ViewForm::Packed(packed) => packed.to_value(alloc),
            ViewForm::Whole(value) => value.clone(alloc),
            ViewForm::Absent => Ok(Value::Null),
        }
    }

    /// Writes the tokens of the value to `out`, integers of `u64` or `i64` by value and other
    /// numbers as literals. Stops at the first error of `out` and returns it. If `out` had failed
    /// before the call, returns that error again and writes nothing; otherwise a value must be
    /// allowed as the next token of `out`.
    pub fn emit<E: Events>(self, out: &mut E) -> Result<()>
        requires { AcceptsValue (E.failed out.old) (E.token_state (E.state out.old)) }
        ensures given { Emits E.after E.stopped (E.state out.old) (E.state out.new)
            (E.failed out.old) (E.failed out.new) (tree_given (seen self.entry)) result }
        ensures tokens { given_tokens (tree_given (seen self.entry)) ≡ tokens (seen self.entry) }
    {
        match walk(self, out) {
            Ok(()) => Ok(()),
            // which gives nothing, and answers the error that was met
            Err(EventsFailed) => out.null(),
        }
    }

    /// Writes the value as a JSON text to `out`, with the whitespace of `layout` between tokens. If
    /// the sink inside `out` fails, returns its error. Fails with `NoMemory` only if memory runs
    /// out in that sink, or for a text of 2^64 - 1 bytes or more. After an error a prefix of the
    /// text was written.
    pub fn print<W: Sink, L: Layout>(self, layout: L, out: &mut BufferedWriter<W>) -> Result<()>
        ensures text { WritesText (⟦<BufferedWriter<W> as Sink>⟧.state out.old)
            (⟦<BufferedWriter<W> as Sink>⟧.state out.new)
            (shown (L.indent layout) 0 (seen self.entry)) result }
        ensures ran_out { IsErrOf result no_memory
            → RanOut (⟦<BufferedWriter<W> as Sink>⟧.state out.old)
            (⟦<BufferedWriter<W> as Sink>⟧.state out.new)
            (length (shown (L.indent layout) 0 (seen self.entry))) }
    {
        answered(show(self, layout, out))
    }

    /// Writes the value as [`View::print`] does, but sorts the members of each object by the bytes
    /// of their keys; members with equal keys keep their order. For an object whose keys are not in
    /// order it allocates 16 bytes a member, until the end of that object is written. Fails as
    /// [`View::print`] does, and with `NoMemory` if memory runs out. After an error a prefix of the
    /// text was written.
    pub fn print_sorted<W: Sink, L: Layout>(
        self,
        alloc: Global,
        layout: L,
        out: &mut BufferedWriter<W>,
    ) -> Result<()>
        ensures text { WritesText (⟦<BufferedWriter<W> as Sink>⟧.state out.old)
            (⟦<BufferedWriter<W> as Sink>⟧.state out.new)
            (shown (L.indent layout) 0 (sorted (seen self.entry))) result }
    {
        let layout = SortedLayout {
            alloc,
            inner: layout,
        };
        answered(show_sorted(self, layout, out))
    }
}

fn show<W: Sink, L: Layout>(view: View<'_>, layout: L, out: &mut BufferedWriter<W>) -> SinkResult
    ensures { Shows 0 (⟦<BufferedWriter<W> as Sink>⟧.state out.old)
        (⟦<BufferedWriter<W> as Sink>⟧.state out.new)
        (shown (L.indent layout) 0 (seen view.entry)) result }
{
    match view.form {
        ViewForm::Packed(packed) => show_document(packed.view, layout, 0, out),
        ViewForm::Whole(value) => show_value(value, layout, 0, out),
        ViewForm::Absent => show_piece(out, b"null"),
    }
}

fn show_sorted<W: Sink, L: Layout>(
    view: View<'_>,
    layout: SortedLayout<L>,
    out: &mut BufferedWriter<W>,
) -> SinkResult
    ensures { ShowsOrRunsOut (⟦<BufferedWriter<W> as Sink>⟧.state out.old)
        (⟦<BufferedWriter<W> as Sink>⟧.state out.new)
        (shown (L.indent layout.inner) 0 (sorted (seen view.entry))) result }
{
    match view.form {
        ViewForm::Packed(packed) => show_sorted_document(packed.view, layout, 0, out),
        ViewForm::Whole(value) => show_sorted_value(value, layout, 0, out),
        ViewForm::Absent => show_piece(out, b"null"),
    }
}

fn walk<E: Events>(view: View<'_>, out: &mut E) -> EventsResult
    requires { AcceptsValue (E.failed out.old) (E.token_state (E.state out.old)) }
    ensures { Walks E.after E.stopped (E.state out.old) (E.state out.new)
        (E.failed out.old) (E.failed out.new) (tree_given (seen view.entry)) result }
{
    match view.form {
        ViewForm::Packed(packed) => emit_document(packed.view, out),
        ViewForm::Whole(value) => emit_value(value, out),
        ViewForm::Absent => events_result(out.null()),
    }
}

fn value_type(value: &Value) -> JsonType
    ensures { result ≡ type_of (tree_of value.now) }
{
    match value {
        Value::Null => JsonType::Null,
        Value::Bool(_) => JsonType::Boolean,
        Value::Number(_) | Value::Raw(_) => JsonType::Number,
        Value::Text(_) => JsonType::String,
        Value::Array(_) => JsonType::Array,
        Value::Object(_) => JsonType::Object,
    }
}

fn value_bool(value: &Value) -> Option<bool>
    ensures { result ≡ bool_of (tree_of value.now) }
{
    match value {
        Value::Bool(boolean) => Some(*boolean),
        _ => None,
    }
}

fn value_number(value: &Value) -> Option<Number>
    ensures value { option_map value_of result ≡ integer_in_tree (tree_of value.now) }
    ensures text { IfSome result (λ n. tree_of value.now ≡ num (text_of_number n)) }
{
    match value {
        Value::Number(number) => Some(*number),
        _ => None,
    }
}

fn value_literal(value: &Value) -> Option<&str>
    ensures { option_map (λ s. s.now) result ≡ literal_of (tree_of value.now) }
{
    match value {
        Value::Raw(literal) => Some(literal.as_str()),
        _ => None,
    }
}

fn value_text(value: &Value) -> Option<&str>
    ensures { option_map (λ s. s.now) result ≡ string_of (tree_of value.now) }
{
    match value {
        Value::Text(text) => Some(text.as_str()),
        _ => None,
    }
}
