// What takes the events of a tree.
ghost use Rattle.std.specs.Prelude.{◌≡◌, ◌<ℤ◌, ℕ, pos, None, List, [], length, false, IsTrue, ◌↔◌};
ghost use Rattle.std.specs.Bool.{OnTrue};
ghost use Rattle.std.specs.Fmt.{signed_decimal};
ghost use Rattle.json_grammar.specs.Tree.{Token, null_token, boolean_token, num_token, text_token, key_token, begin, end};
ghost use Rattle.json_grammar.specs.Grammar.{chars, number};
ghost use Rattle.json_grammar.specs.declared.Kind.TheVariants.{Array as array, Object as object};
ghost use Rattle.json_number.specs.Integers.{integer_in};
ghost use Rattle.json_text.specs.Spelled.{NoEscape};
ghost use Rattle.json_doc.specs.State.{VisitorState, Fits, after_event, MayComeAfter, HoldsMore, RecordedIfFits, AddsNode, AddsNoNode};

use json_text::Span;

/// Records the events of one tree, the parts of a JSON value from left to right, with a method for
/// each kind of event.
///
/// Its room is a number of values and keys, and a number of bytes of strings, keys and literals; an
/// end needs none. Each method returns whether the event was recorded. It returns `false` if there
/// is no room for the event, and after that for each later event, of which nothing is recorded.
/// While all events were recorded, the next one has to be one that may follow in a JSON value. For
/// example, a key may follow only in an object. No method allocates.
///
/// ```
/// use json_doc::{DocumentVisitor, JsonVisitor};
/// // A text of 4 bytes has no more than 2 nodes and keys.
/// let mut visitor = DocumentVisitor::new(alloc, 4)?;
/// assert!(rt; visitor.visit_array_start());
/// assert!(rt; visitor.visit_bool(true));
/// assert!(rt; !visitor.visit_null());
/// ```
pub trait JsonVisitor {
    // while no event was refused, the events so far were these tokens
    ghost holds: { Self → List Token → Type 0 };

    // the room, and what was recorded
    ghost state: { Self → VisitorState };

    // an event took no memory: what was taken before it is what is taken after it
    ghost keeps_memory: { Self → Self → Type 0 };

    /// Records `null`. Returns whether it was recorded.
    fn visit_null(&mut self) -> bool
        requires { (state self.old).full ≡ false → MayComeAfter (holds self.old) null_token }
        ensures answer { RecordedIfFits 1 0 (state self.old) result }
        ensures state { AddsNode result (state self.old) (state self.new) }
        ensures held { OnTrue result (HoldsMore (holds self.old) (holds self.new) null_token) }
        ensures memory { keeps_memory self.old self.new };

    /// Records a boolean. Returns whether it was recorded.
    fn visit_bool(&mut self, b: bool) -> bool
        requires { (state self.old).full ≡ false → MayComeAfter (holds self.old) (boolean_token b) }
        ensures answer { RecordedIfFits 1 0 (state self.old) result }
        ensures state { AddsNode result (state self.old) (state self.new) }
        ensures held { OnTrue result
            (HoldsMore (holds self.old) (holds self.new) (boolean_token b)) }
        ensures memory { keeps_memory self.old self.new };

    /// Records a number by its integer from 0 on, which needs no room for text. Returns whether it
    /// was recorded.
    fn visit_u64(&mut self, n: u64) -> bool
        requires { (state self.old).full ≡ false
            → MayComeAfter (holds self.old) (num_token (signed_decimal (pos n))) }
        ensures answer { RecordedIfFits 1 0 (state self.old) result }
        ensures state { AddsNode result (state self.old) (state self.new) }
        ensures held { OnTrue result
            (HoldsMore (holds self.old) (holds self.new) (num_token (signed_decimal (pos n)))) }
        ensures memory { keeps_memory self.old self.new };

    /// Records a number by its integer, which has to be below 0 and needs no room for text. Returns
    /// whether it was recorded.
    fn visit_i64(&mut self, n: i64) -> bool
        requires negative { n <ℤ pos 0 }
        requires come { (state self.old).full ≡ false
            → MayComeAfter (holds self.old) (num_token (signed_decimal n)) }
        ensures answer { RecordedIfFits 1 0 (state self.old) result }
        ensures state { AddsNode result (state self.old) (state self.new) }
        ensures held { OnTrue result
            (HoldsMore (holds self.old) (holds self.new) (num_token (signed_decimal n))) }
        ensures memory { keeps_memory self.old self.new };

    /// Records a number by its literal, which has to be a number (RFC 8259, section 6) that is no
    /// integer of `u64` or `i64`. Returns whether it was recorded.
    fn visit_raw_number(&mut self, literal: &str) -> bool
        requires number { number literal.now }
        requires raw { integer_in literal.now ≡ None }
        requires come { (state self.old).full ≡ false
            → MayComeAfter (holds self.old) (num_token literal.now) }
        ensures answer { IsTrue result ↔ Fits (state self.old) 1 (length literal.now) }
        ensures state { state self.new
            ≡ after_event result 1 (length literal.now) (state self.old) }
        ensures held { OnTrue result
            (HoldsMore (holds self.old) (holds self.new) (num_token literal.now)) }
        ensures memory { keeps_memory self.old self.new };

    /// Records a string, given by what is between its quotes. It is recorded only if there is room
    /// for these bytes with their escapes; unescaped it may take fewer. Returns whether it was
    /// recorded.
    fn visit_str(&mut self, s: Span<'_>) -> bool
        requires { (state self.old).full ≡ false
            → (t : List ℕ) × chars s.lossy t s.raw.now
            × MayComeAfter (holds self.old) (text_token t) }
        ensures answer { IsTrue result ↔ Fits (state self.old) 1 (length s.entry.raw.now) }
        ensures state { (t : List ℕ) → chars s.entry.lossy t s.entry.raw.now
            → state self.new ≡ after_event result 1 (length t) (state self.old) }
        ensures held { OnTrue result ((t : List ℕ) → chars s.entry.lossy t s.entry.raw.now
            → HoldsMore (holds self.old) (holds self.new) (text_token t)) }
        ensures memory { keeps_memory self.old self.new };

    /// Records the key of the next member, given by what is between its quotes. It is recorded only
    /// if there is room for these bytes with their escapes; unescaped it may take fewer. Returns
    /// whether it was recorded.
    fn visit_key(&mut self, s: Span<'_>) -> bool
        requires { (state self.old).full ≡ false
            → (t : List ℕ) × chars s.lossy t s.raw.now
            × MayComeAfter (holds self.old) (key_token t) }
        ensures answer { IsTrue result ↔ Fits (state self.old) 1 (length s.entry.raw.now) }
        ensures state { (t : List ℕ) → chars s.entry.lossy t s.entry.raw.now
            → state self.new ≡ after_event result 1 (length t) (state self.old) }
        ensures held { OnTrue result ((t : List ℕ) → chars s.entry.lossy t s.entry.raw.now
            → HoldsMore (holds self.old) (holds self.new) (key_token t)) }
        ensures memory { keeps_memory self.old self.new };

    /// Records the beginning of an array. Returns whether it was recorded.
    fn visit_array_start(&mut self) -> bool
        requires { (state self.old).full ≡ false → MayComeAfter (holds self.old) (begin array) }
        ensures answer { RecordedIfFits 1 0 (state self.old) result }
        ensures state { AddsNode result (state self.old) (state self.new) }
        ensures held { OnTrue result (HoldsMore (holds self.old) (holds self.new) (begin array)) }
        ensures memory { keeps_memory self.old self.new };

    /// Records the end of the innermost open container, which has to be an array. Returns whether
    /// it was recorded.
    fn visit_array_end(&mut self) -> bool
        requires { (state self.old).full ≡ false → MayComeAfter (holds self.old) (end array) }
        ensures answer { RecordedIfFits 0 0 (state self.old) result }
        ensures state { AddsNoNode result (state self.old) (state self.new) }
        ensures held { OnTrue result (HoldsMore (holds self.old) (holds self.new) (end array)) }
        ensures memory { keeps_memory self.old self.new };

    /// Records the beginning of an object. Returns whether it was recorded.
    fn visit_object_start(&mut self) -> bool
        requires { (state self.old).full ≡ false → MayComeAfter (holds self.old) (begin object) }
        ensures answer { RecordedIfFits 1 0 (state self.old) result }
        ensures state { AddsNode result (state self.old) (state self.new) }
        ensures held { OnTrue result (HoldsMore (holds self.old) (holds self.new) (begin object)) }
        ensures memory { keeps_memory self.old self.new };

    /// Records the end of the innermost open container, which has to be an object. Returns whether
    /// it was recorded.
    fn visit_object_end(&mut self) -> bool
        requires { (state self.old).full ≡ false → MayComeAfter (holds self.old) (end object) }
        ensures answer { RecordedIfFits 0 0 (state self.old) result }
        ensures state { AddsNoNode result (state self.old) (state self.new) }
        ensures held { OnTrue result (HoldsMore (holds self.old) (holds self.new) (end object)) }
        ensures memory { keeps_memory self.old self.new };
}
