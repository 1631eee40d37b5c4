// Strings, keys and literals that are in an input.
ghost use Rattle.std.specs.Prelude.{◌≡◌, List, ℕ, length, false, None, IsTrue, ◌↔◌};
ghost use Rattle.std.specs.Bool.{OnTrue};
ghost use Rattle.json_grammar.specs.Tree.{num_token, text_token, key_token};
ghost use Rattle.json_grammar.specs.Grammar.{chars, number};
ghost use Rattle.json_number.specs.Integers.{integer_in};
ghost use Rattle.json_doc.specs.Lent.{IsLentBy, IsPieceAt};
ghost use Rattle.json_doc.specs.Recorded.{visitor_state, Holds, TakesNoMemory};
ghost use Rattle.json_doc.specs.State.{Fits, after_event, MayComeAfter, HoldsMore};

use super::DocumentVisitor;
use json_text::Span;

impl DocumentVisitor {
    /// Does what `visit_raw_number` does, of a literal that is in the input from the offset `from`
    /// on.
    #[inline(always)]
    pub(crate) fn take_raw_number(&mut self, literal: &str, input: &[u8], from: usize) -> bool
        requires number { number literal.now }
        requires raw { integer_in literal.now ≡ None }
        requires come { (visitor_state self.old).full ≡ false
            → MayComeAfter (Holds self.old) (num_token literal.now) }
        requires lent { IsPieceAt literal.now input.now from }
        ensures answer { IsTrue result ↔ Fits (visitor_state self.old) 1 (length literal.now) }
        ensures state { visitor_state self.new
            ≡ after_event result 1 (length literal.now) (visitor_state self.old) }
        ensures held { OnTrue result
            (HoldsMore (Holds self.old) (Holds self.new) (num_token literal.now)) }
        ensures memory { TakesNoMemory self.old self.new }
    {
        if !self.admit(1, literal.len()) {
            return false;
        }
        let cell = self.push_literal(literal, input, from);
        self.push(cell);
        true
    }

    /// Does what `visit_str` does, of a string whose bytes between the quotes are in the input from
    /// the offset `from` on.
    #[inline(always)]
    pub(crate) fn take_str(&mut self, s: Span<'_>, input: &[u8], from: usize) -> bool
        requires come { (visitor_state self.old).full ≡ false
            → (t : List ℕ) × chars s.lossy t s.raw.now
            × MayComeAfter (Holds self.old) (text_token t) }
        requires lent { IsLentBy s input.now from }
        ensures answer { IsTrue result
            ↔ Fits (visitor_state self.old) 1 (length s.entry.raw.now) }
        ensures state { (t : List ℕ) → chars s.entry.lossy t s.entry.raw.now
            → visitor_state self.new ≡ after_event result 1 (length t) (visitor_state self.old) }
        ensures held { OnTrue result ((t : List ℕ) → chars s.entry.lossy t s.entry.raw.now
            → HoldsMore (Holds self.old) (Holds self.new) (text_token t)) }
        ensures memory { TakesNoMemory self.old self.new }
    {
        if !self.admit(1, s.raw_len()) {
            return false;
        }
        let cell = self.push_text(s, input, from);
        self.push(cell);
        true
    }

    /// Does what `visit_key` does, of a key whose bytes between the quotes are in the input from
    /// the offset `from` on.
    #[inline(always)]
    pub(crate) fn take_key(&mut self, s: Span<'_>, input: &[u8], from: usize) -> bool
        requires come { (visitor_state self.old).full ≡ false
            → (t : List ℕ) × chars s.lossy t s.raw.now
            × MayComeAfter (Holds self.old) (key_token t) }
        requires lent { IsLentBy s input.now from }
        ensures answer { IsTrue result
            ↔ Fits (visitor_state self.old) 1 (length s.entry.raw.now) }
        ensures state { (t : List ℕ) → chars s.entry.lossy t s.entry.raw.now
            → visitor_state self.new ≡ after_event result 1 (length t) (visitor_state self.old) }
        ensures held { OnTrue result ((t : List ℕ) → chars s.entry.lossy t s.entry.raw.now
            → HoldsMore (Holds self.old) (Holds self.new) (key_token t)) }
        ensures memory { TakesNoMemory self.old self.new }
    {
        if !self.admit(1, s.raw_len()) {
            return false;
        }
        let cell = self.push_text(s, input, from);
        self.push(cell);
        true
    }
}
