// Takes brackets at once if they are next.
ghost use Rattle.std.specs.Prelude.{◌≡◌, ◌↔◌, Some, None, IsTrue, true, false};
ghost use Rattle.json_grammar.specs.Place.{TakesEnd, bracket as spec_bracket};
ghost use Rattle.json_text.specs.Parsing.{SameInput, IsWhole, AdvancesTo, IsTight, HasRead};
ghost use Rattle.json_text.specs.Nexts.{BeginNext, EndNext};
ghost use Rattle.json_text.specs.Stack.{top};
ghost use Rattle.json_text.specs.Tokens.{begin_event, end_event};

use crate::next_parts::{closing_byte, next_part};
use crate::parser::Parser;
use crate::parser::expected::takes_value;
use crate::stack::ContainerStack;
use crate::token::part_after_opening;
use json_grammar::{ExpectedPart, Kind};
use json_scan::byte_is;

#[inline(always)]
fn opening_byte(kind: Kind) -> u8
    ensures { result ≡ spec_bracket kind }
{
    match kind {
        Kind::Array => b'[',
        Kind::Object => b'{',
    }
}

/// Whether a container of the kind, which is the innermost, may end.
#[inline(always)]
fn may_end(kind: Kind, expected: ExpectedPart) -> bool
    ensures { IsTrue result ↔ TakesEnd kind expected }
{
    match kind {
        Kind::Array => match expected {
            ExpectedPart::First | ExpectedPart::Done => true,
            _ => false,
        },
        Kind::Object => match expected {
            ExpectedPart::KeyOrEnd | ExpectedPart::Done => true,
            _ => false,
        },
    }
}

/// Whether the innermost container is of the kind.
#[inline(always)]
fn is_innermost(kinds: &ContainerStack, kind: Kind) -> bool
    ensures { IsTrue result ↔ (top kinds.now ≡ Some kind) }
{
    match kinds.top() {
        Some(innermost) => innermost == kind,
        None => false,
    }
}

impl<'a> Parser<'a> {
    /// Takes the next event if it is the bracket that opens a container of this kind, as a value
    /// and within the limit, and returns whether it is. Otherwise nothing is taken, and `next`
    /// returns the next event.
    ///
    /// ```
    /// use json_grammar::Kind;
    /// use json_text::Parser;
    /// let mut parser = Parser::new("[{}]");
    /// assert!(rt; !parser.next_begin(Kind::Object) && parser.next_begin(Kind::Array));
    /// assert!(rt; parser.next_begin(Kind::Object) && parser.next_end(Kind::Object));
    /// assert!(rt; parser.next_end(Kind::Array) && parser.done());
    /// ```
    #[inline(always)]
    pub fn next_begin(&mut self, kind: Kind) -> bool
        requires fresh { self.old.failure ≡ None }
        requires inside { ¬ (IsWhole self.old) }
        ensures same { SameInput self.old self.new }
        ensures failure { self.new.failure ≡ None }
        ensures ok { result ≡ true → AdvancesTo self.old (begin_event kind) self.new }
        ensures tight { result ≡ true → IsTight self.old (begin_event kind) self.new }
        ensures reads { result ≡ true → IsWhole self.new → HasRead self.new }
        ensures kept { result ≡ false → self.new ≡ self.old }
        ensures exactly { IsTrue result ↔ BeginNext self.old kind }
    {
        let bytes = self.rest.as_bytes();
        let part_start = match next_part(bytes, self.at, self.expected, &self.kinds) {
            Ok(part_start) => part_start,
            Err(_) => return false,
        };
        if !takes_value(part_start.expected) || !byte_is(bytes, part_start.at, opening_byte(kind)) {
            return false;
        }
        if self.kinds.len() >= self.limit {
            return false;
        }
        self.kinds.push(kind);
        self.at = part_start.at + 1;
        self.expected = part_after_opening(kind);
        true
    }

    /// Takes the next event if it is the bracket that closes the innermost container, which has
    /// this kind, and returns whether it is. Otherwise nothing is taken, and `next` returns the
    /// next event.
    #[inline(always)]
    pub fn next_end(&mut self, kind: Kind) -> bool
        requires fresh { self.old.failure ≡ None }
        requires inside { ¬ (IsWhole self.old) }
        ensures same { SameInput self.old self.new }
        ensures failure { self.new.failure ≡ None }
        ensures ok { result ≡ true → AdvancesTo self.old (end_event kind) self.new }
        ensures tight { result ≡ true → IsTight self.old (end_event kind) self.new }
        ensures reads { result ≡ true → IsWhole self.new → HasRead self.new }
        ensures kept { result ≡ false → self.new ≡ self.old }
        ensures exactly { IsTrue result ↔ EndNext self.old kind }
    {
        let bytes = self.rest.as_bytes();
        let part_start = match next_part(bytes, self.at, self.expected, &self.kinds) {
            Ok(part_start) => part_start,
            Err(_) => return false,
        };
        if !may_end(kind, part_start.expected)
            || !byte_is(bytes, part_start.at, closing_byte(kind))
        {
            return false;
        }
        if !is_innermost(&self.kinds, kind) {
            return false;
        }
        self.kinds.pop();
        self.at = part_start.at + 1;
        self.expected = ExpectedPart::Done;
        true
    }
}
