// Takes integers below 0 at once if they are next.
ghost use Rattle.std.specs.Prelude.{◌≡◌, ◌<◌, ◌≤◌, None, true, length, get_or, drop, IfSome, OnSome};
ghost use Rattle.std.specs.Str.{all_ascii_digits};
ghost use Rattle.std.specs.Str.Parse.{digits_value};
ghost use Rattle.json_text.specs.declared.event.Event.TheVariants as Event;
ghost use Rattle.json_text.specs.NextLiterals.{NegativeNext};
ghost use Rattle.json_text.specs.Parsing.{SameInput, IsWhole, AdvancesTo, IsTight, ReadsWholeOnSome};

use crate::integer::negative_at;
use crate::next_parts::next_part;
use crate::parser::Parser;
use crate::parser::expected::takes_value;
use json_grammar::ExpectedPart;

/// An integer below 0 by its magnitude, with its literal.
///
/// ```
/// use json_text::Parser;
/// let mut parser = Parser::new("-17 ");
/// let found = parser.next_negative(128).ok_or("no integer of i8 comes")?;
/// assert_eq!(rt; (found.literal, found.magnitude), ("-17", 17));
/// ```
#[derive(Clone, Copy)]
pub struct NegativeInteger<'a> {
    pub literal: &'a str,
    pub magnitude: u64,
}

impl<'a> Parser<'a> {
    /// Takes the next event exactly if it is a number below 0 of a minus and at most 19 digits,
    /// without a fraction or an exponent, whose magnitude is at most `least`, and returns the
    /// magnitude too. If it returns none, no such number is next and nothing is taken: `next`
    /// returns the next event. `-0` is no number below 0.
    ///
    /// ```
    /// use json_text::{Event, Parser};
    /// let mut parser = Parser::new("[-128, -0]");
    /// assert!(rt; matches!(parser.next()?, Event::BeginArray));
    /// assert!(rt; parser.next_negative(127).is_none());
    /// assert!(rt; matches!(parser.next_negative(128), Some(n) if n.magnitude == 128));
    /// assert!(rt; parser.next_negative(128).is_none());
    /// assert!(rt; matches!(parser.next()?, Event::Number("-0")));
    /// ```
    #[inline(always)]
    pub fn next_negative(&mut self, least: u64) -> Option<NegativeInteger<'a>>
        requires fresh { self.old.failure ≡ None }
        requires inside { ¬ (IsWhole self.old) }
        ensures same { SameInput self.old self.new }
        ensures failure { self.new.failure ≡ None }
        ensures ok { IfSome result (λ n. AdvancesTo self.old (Event.Number n.literal) self.new) }
        ensures tight { IfSome result (λ n. IsTight self.old (Event.Number n.literal) self.new) }
        ensures minus { IfSome result (λ n. get_or n.literal.now 0 0 ≡ 45) }
        ensures digits { IfSome result (λ n. (all_ascii_digits (drop 1 n.literal.now) ≡ true)
            × (length n.literal.now ≤ 20)) }
        ensures magnitude { IfSome result (λ n. n.magnitude
            ≡ digits_value 10 (drop 1 n.literal.now)) }
        ensures least { IfSome result (λ n. (0 < n.magnitude) × (n.magnitude ≤ least)) }
        ensures reads { ReadsWholeOnSome self.new result }
        ensures kept { result ≡ None → self.new ≡ self.old }
        ensures some { OnSome result (NegativeNext self.old least) }
        ensures none { result ≡ None → ¬ (NegativeNext self.old least) }
    {
        let bytes = self.rest.as_bytes();
        let part_start = match next_part(bytes, self.at, self.expected, &self.kinds) {
            Ok(part_start) => part_start,
            Err(_) => return None,
        };
        if !takes_value(part_start.expected) {
            return None;
        }
        let digits = match negative_at(bytes, part_start.at) {
            Some(digits) => digits,
            None => return None,
        };
        if digits.value == 0 {
            return None;
        }
        if digits.value > least {
            return None;
        }
        self.at = digits.end;
        self.expected = ExpectedPart::Done;
        Some(NegativeInteger {
            literal: &self.rest[part_start.at..digits.end],
            magnitude: digits.value,
        })
    }
}
