// Takes `true` or `false` at once if it is next.
ghost use Rattle.std.specs.Prelude.{◌≡◌, ◌+◌, ◌≤◌, ◌↔◌, Bool, None, true, false, length, IsTrue, IfSome};
ghost use Rattle.json_grammar.specs.Grammar.{boolean_bytes};
ghost use Rattle.json_text.specs.declared.event.Event.TheVariants as Event;
ghost use Rattle.json_text.specs.Literals.{WordTo};
ghost use Rattle.json_text.specs.NextLiterals.{LiteralNext};
ghost use Rattle.json_text.specs.Parsing.{SameInput, IsWhole, AdvancesTo, IsTight, ReadsWholeOnSome};

use crate::next_parts::next_part;
use crate::parser::Parser;
use crate::parser::expected::takes_value;
use crate::parser::literals::word_is;
use json_grammar::ExpectedPart;

/// Returns whether `true` is at `from`, by four comparisons without a branch.
#[inline(always)]
fn true_is(bytes: &[u8], from: usize) -> bool
    requires { from + 4 ≤ length bytes.now }
    ensures { IsTrue result ↔ WordTo bytes.now from (boolean_bytes true) (from + 4) }
{
    (bytes[from] == b't')
        & (bytes[from + 1] == b'r')
        & (bytes[from + 2] == b'u')
        & (bytes[from + 3] == b'e')
}

/// Returns whether `false` is at `from`, by five comparisons without a branch.
#[inline(always)]
fn false_is(bytes: &[u8], from: usize) -> bool
    requires { from + 5 ≤ length bytes.now }
    ensures { IsTrue result ↔ WordTo bytes.now from (boolean_bytes false) (from + 5) }
{
    (bytes[from] == b'f')
        & (bytes[from + 1] == b'a')
        & (bytes[from + 2] == b'l')
        & (bytes[from + 3] == b's')
        & (bytes[from + 4] == b'e')
}

/// The length in bytes of `true` or `false`.
#[inline(always)]
fn boolean_len(value: bool) -> usize
    ensures { result ≡ length (boolean_bytes value) }
{
    5 - usize::from(value)
}

/// Returns which of `true` and `false` is at `from`.
#[inline(always)]
fn boolean_at(bytes: &[u8], from: usize) -> Option<bool>
    requires { from ≤ length bytes.now }
    ensures some { IfSome result (λ b. WordTo bytes.now from (boolean_bytes b)
        (from + length (boolean_bytes b))) }
    ensures none { result ≡ None → (b : Bool) → ¬ (WordTo bytes.now from (boolean_bytes b)
        (from + length (boolean_bytes b))) }
{
    if bytes.len() - from < 5 {
        if word_is(bytes, from, b"true") {
            return Some(true);
        }
        return None;
    }
    let value = true_is(bytes, from);
    if value | false_is(bytes, from) {
        return Some(value);
    }
    None
}

impl<'a> Parser<'a> {
    /// Takes the next event exactly if it is `true` or `false`, and returns which. If it returns
    /// none, neither is next and nothing is taken: `next` returns the next event.
    #[inline(always)]
    pub fn next_bool(&mut self) -> Option<bool>
        requires fresh { self.old.failure ≡ None }
        requires inside { ¬ (IsWhole self.old) }
        ensures same { SameInput self.old self.new }
        ensures failure { self.new.failure ≡ None }
        ensures ok { IfSome result (λ b. AdvancesTo self.old (Event.Bool b) self.new) }
        ensures tight { IfSome result (λ b. IsTight self.old (Event.Bool b) self.new) }
        ensures reads { ReadsWholeOnSome self.new result }
        ensures kept { result ≡ None → self.new ≡ self.old }
        ensures some { IfSome result (λ b. LiteralNext self.old (boolean_bytes b)) }
        ensures none { result ≡ None → (b : Bool) → ¬ (LiteralNext self.old (boolean_bytes b)) }
    {
        let bytes = self.rest.as_bytes();
        let part_start = match next_part(bytes, self.at, self.expected, &self.kinds) {
            Ok(part_start) => part_start,
            Err(_) => return None,
        };
        if !takes_value(part_start.expected) {
            return None;
        }
        let value = match boolean_at(bytes, part_start.at) {
            Some(value) => value,
            None => return None,
        };
        self.at = part_start.at + boolean_len(value);
        self.expected = ExpectedPart::Done;
        Some(value)
    }
}
