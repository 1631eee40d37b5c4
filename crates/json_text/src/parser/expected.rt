// Takes parts at once if they are next.
ghost use Rattle.std.specs.Prelude.{◌≡◌, ◌≤◌, ◌↔◌, None, true, length, IsTrue, IfSome, OnSome};
ghost use Rattle.std.specs.Str.{all_ascii_digits};
ghost use Rattle.std.specs.Str.Parse.{digits_value};
ghost use Rattle.json_text.specs.declared.event.Event.TheVariants as Event;
ghost use Rattle.json_text.specs.Parsing.{SameInput, IsWhole, AdvancesTo, IsTight, ReadsWholeOnSome};
ghost use Rattle.json_text.specs.Nexts.{IntegerNext, TextNext, NameNext};
ghost use Rattle.json_grammar.specs.Place.{TakesValue, TakesKey};

use crate::integer::integer_at;
use crate::next_parts::next_part;
use crate::parser::Parser;
use crate::span::Span;
use crate::token::string_at;
use json_grammar::ExpectedPart;
use json_scan::byte_is;

/// A number that is an integer by value, with its literal.
///
/// ```
/// use json_text::{UnsignedInteger, Parser};
/// let mut parser = Parser::new("17");
/// if let Some(UnsignedInteger { value, .. }) = parser.next_integer(100) {
///     assert_eq!(rt; value, 17);
/// }
/// assert!(rt; Parser::new("170").next_integer(100).is_none());
/// ```
#[derive(Clone, Copy)]
pub struct UnsignedInteger<'a> {
    pub literal: &'a str,
    pub value: u64,
}

/// Whether a value may begin.
#[inline(always)]
pub(crate) fn takes_value(expected: ExpectedPart) -> bool
    ensures { IsTrue result ↔ TakesValue expected }
{
    match expected {
        ExpectedPart::Value | ExpectedPart::First => true,
        _ => false,
    }
}

/// Whether a name may begin.
#[inline(always)]
fn takes_key(expected: ExpectedPart) -> bool
    ensures { IsTrue result ↔ TakesKey expected }
{
    match expected {
        ExpectedPart::Key | ExpectedPart::KeyOrEnd => true,
        _ => false,
    }
}

impl<'a> Parser<'a> {
    /// Takes the next event if it is a number of at most 19 digits, without a sign, a fraction or
    /// an exponent, that is at most `most`, and returns it with its value. Returns `None` exactly
    /// if no such number is next; then nothing is taken, and `next` returns the next event.
    ///
    /// ```
    /// use json_text::{Event, Parser};
    /// let mut parser = Parser::new("[17, 1.5]");
    /// assert!(rt; matches!(parser.next()?, Event::BeginArray));
    /// assert!(rt; matches!(parser.next_integer(100), Some(n) if n.value == 17));
    /// assert!(rt; parser.next_integer(100).is_none());
    /// assert!(rt; matches!(parser.next()?, Event::Number("1.5")));
    /// ```
    #[inline(always)]
    pub fn next_integer(&mut self, most: u64) -> Option<UnsignedInteger<'a>>
        requires fresh { self.old.failure ≡ None }
        requires inside { ¬ (IsWhole self.old) }
        ensures same { SameInput self.old self.new }
        ensures failure { self.new.failure ≡ None }
        ensures ok { IfSome result (λ n. AdvancesTo self.old (Event.Number n.literal) self.new) }
        ensures tight { IfSome result (λ n. IsTight self.old (Event.Number n.literal) self.new) }
        ensures digits { IfSome result (λ n. (all_ascii_digits n.literal.now ≡ true)
            × (length n.literal.now ≤ 19)) }
        ensures value { IfSome result (λ n. n.value ≡ digits_value 10 n.literal.now) }
        ensures most { IfSome result (λ n. n.value ≤ most) }
        ensures reads { ReadsWholeOnSome self.new result }
        ensures kept { result ≡ None → self.new ≡ self.old }
        ensures some { OnSome result (IntegerNext self.old most) }
        ensures none { result ≡ None → ¬ (IntegerNext self.old most) }
    {
        let bytes = self.rest.as_bytes();
        let part_start = match next_part(bytes, self.at, self.expected, &self.kinds) {
            Ok(part_start) => part_start,
            Err(_) => return None,
        };
        if !takes_value(part_start.expected) {
            return None;
        }
        let digits = match integer_at(bytes, part_start.at) {
            Some(digits) => digits,
            None => return None,
        };
        if digits.value > most {
            return None;
        }
        self.at = digits.end;
        self.expected = ExpectedPart::Done;
        Some(UnsignedInteger {
            literal: &self.rest[part_start.at..digits.end],
            value: digits.value,
        })
    }

    /// Takes the next event if it is a string that is a value. Returns `None` if no string is next
    /// as a value, or one that is not valid; then nothing is taken, and `next` returns the next
    /// event.
    #[inline(always)]
    pub fn next_text(&mut self) -> Option<Span<'a>>
        requires fresh { self.old.failure ≡ None }
        requires inside { ¬ (IsWhole self.old) }
        ensures same { SameInput self.old self.new }
        ensures failure { self.new.failure ≡ None }
        ensures ok { IfSome result (λ s. AdvancesTo self.old (Event.Str s) self.new) }
        ensures tight { IfSome result (λ s. IsTight self.old (Event.Str s) self.new) }
        ensures reads { ReadsWholeOnSome self.new result }
        ensures kept { result ≡ None → self.new ≡ self.old }
        ensures some { OnSome result (TextNext self.old) }
        ensures none { result ≡ None → ¬ (TextNext self.old) }
    {
        let bytes = self.rest.as_bytes();
        let part_start = match next_part(bytes, self.at, self.expected, &self.kinds) {
            Ok(part_start) => part_start,
            Err(_) => return None,
        };
        if !takes_value(part_start.expected) || !byte_is(bytes, part_start.at, b'"') {
            return None;
        }
        let quote = match string_at(self.rest, part_start.at, self.lossy) {
            Ok(quote) => quote,
            Err(_) => return None,
        };
        self.at = quote.end;
        self.expected = ExpectedPart::Done;
        Some(quote.span)
    }

    /// Takes the next event if it is the name of a member. Returns `None` if no name is next, or
    /// one that is not valid; then nothing is taken, and `next` returns the next event.
    #[inline(always)]
    pub fn next_key(&mut self) -> Option<Span<'a>>
        requires fresh { self.old.failure ≡ None }
        requires inside { ¬ (IsWhole self.old) }
        ensures same { SameInput self.old self.new }
        ensures failure { self.new.failure ≡ None }
        ensures ok { IfSome result (λ s. AdvancesTo self.old (Event.Key s) self.new) }
        ensures tight { IfSome result (λ s. IsTight self.old (Event.Key s) self.new) }
        ensures reads { ReadsWholeOnSome self.new result }
        ensures kept { result ≡ None → self.new ≡ self.old }
        ensures some { OnSome result (NameNext self.old) }
        ensures none { result ≡ None → ¬ (NameNext self.old) }
    {
        let bytes = self.rest.as_bytes();
        let part_start = match next_part(bytes, self.at, self.expected, &self.kinds) {
            Ok(part_start) => part_start,
            Err(_) => return None,
        };
        if !takes_key(part_start.expected) || !byte_is(bytes, part_start.at, b'"') {
            return None;
        }
        let quote = match string_at(self.rest, part_start.at, self.lossy) {
            Ok(quote) => quote,
            Err(_) => return None,
        };
        self.at = quote.end;
        self.expected = ExpectedPart::Colon;
        Some(quote.span)
    }
}
