// Takes `null` at once if it is next.
ghost use Rattle.std.specs.Prelude.{◌≡◌, ◌+◌, ◌≤◌, ◌↔◌, None, true, false, length, IsTrue};
ghost use Rattle.json_grammar.specs.Grammar.{null_bytes};
ghost use Rattle.json_text.specs.declared.event.Event.TheVariants as Event;
ghost use Rattle.json_text.specs.Literals.{WordTo};
ghost use Rattle.json_text.specs.NextLiterals.{LiteralNext};
ghost use Rattle.json_text.specs.Parsing.{SameInput, IsWhole, AdvancesTo, IsTight, HasRead};
ghost use Rattle.json_text.specs.Tokens.{WordOf};

use crate::event::Event;
use crate::next_parts::next_part;
use crate::parser::Parser;
use crate::parser::expected::takes_value;
use json_grammar::ExpectedPart;

/// Returns whether the literal is at `from`.
#[inline(always)]
pub(super) fn word_is(bytes: &[u8], from: usize, word: &[u8]) -> bool
    requires { from ≤ length bytes.now }
    ensures { IsTrue result ↔ WordTo bytes.now from word.now (from + length word.now) }
{
    if bytes.len() - from < word.len() {
        return false;
    }
    let part = &bytes[from..from + word.len()];
    part == word
}

impl<'a> Parser<'a> {
    /// Takes the event of the literal exactly if it is next as a value, and returns whether it is.
    #[inline(always)]
    fn next_literal(&mut self, word: &[u8], event: Event<'a>) -> bool
        requires fresh { self.old.failure ≡ None }
        requires inside { ¬ (IsWhole self.old) }
        requires word { WordOf event word.now }
        ensures same { SameInput self.old self.new }
        ensures failure { self.new.failure ≡ None }
        ensures ok { result ≡ true → AdvancesTo self.old event.entry self.new }
        ensures tight { result ≡ true → IsTight self.old event.entry self.new }
        ensures reads { result ≡ true → IsWhole self.new → HasRead self.new }
        ensures kept { result ≡ false → self.new ≡ self.old }
        ensures exactly { IsTrue result ↔ LiteralNext self.old word.now }
    {
        let bytes = self.rest.as_bytes();
        let part_start = match next_part(bytes, self.at, self.expected, &self.kinds) {
            Ok(part_start) => part_start,
            Err(_) => return false,
        };
        if !takes_value(part_start.expected) {
            return false;
        }
        if !word_is(bytes, part_start.at, word) {
            return false;
        }
        self.at = part_start.at + word.len();
        self.expected = ExpectedPart::Done;
        true
    }

    /// Takes the next event exactly if it is `null`, and returns whether it is. Else nothing is
    /// taken, and `next` returns the next event.
    ///
    /// ```
    /// use json_grammar::Kind;
    /// use json_text::Parser;
    /// let mut parser = Parser::new("[null, true]");
    /// assert!(rt; !parser.next_null() && parser.next_begin(Kind::Array));
    /// assert!(rt; parser.next_null() && !parser.next_null());
    /// assert_eq!(rt; parser.next_bool(), Some(true));
    /// assert!(rt; parser.next_end(Kind::Array) && parser.done());
    /// ```
    #[inline(always)]
    pub fn next_null(&mut self) -> bool
        requires fresh { self.old.failure ≡ None }
        requires inside { ¬ (IsWhole self.old) }
        ensures same { SameInput self.old self.new }
        ensures failure { self.new.failure ≡ None }
        ensures ok { result ≡ true → AdvancesTo self.old Event.Null self.new }
        ensures tight { result ≡ true → IsTight self.old Event.Null self.new }
        ensures reads { result ≡ true → IsWhole self.new → HasRead self.new }
        ensures kept { result ≡ false → self.new ≡ self.old }
        ensures exactly { IsTrue result ↔ LiteralNext self.old null_bytes }
    {
        self.next_literal(b"null", Event::Null)
    }
}
