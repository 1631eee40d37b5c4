// The text of a query, read from left to right.
ghost use Rattle.std.specs.Prelude.{◌≡◌, ◌≤◌, [], ◌++◌, length, MatchOption, encode_utf8};
ghost use Rattle.json_query.specs.Reading.{ClassAt, Skips, NoBlank};
ghost use Rattle.json_query.specs.TextStates.{State, class_of, outcome};

use crate::error::Fault;

/// What was read, and the text after it.
pub(crate) type Read<'a, T> = Result<(T, &'a str), Fault>;

/// What a character is for in a query.
#[derive(Clone, Copy, PartialEq, Eq, Debug)]
pub(crate) enum Class {
    /// A space, a tab, a line feed or a carriage return.
    Blank,
    /// `"` or `'`.
    QuotationMark,
    /// `$`.
    Root,
    /// `*`.
    Star,
    /// `,`.
    Comma,
    /// `-`.
    Minus,
    /// `.`.
    Dot,
    /// `0`.
    ZeroDigit,
    /// A digit from 1 to 9.
    Digit,
    /// `:`.
    Colon,
    /// `?`.
    Question,
    /// `[`.
    Opening,
    /// `]`.
    Closing,
    /// A letter of ASCII or `_`.
    Letter,
    /// A character beyond ASCII.
    BeyondAscii,
    /// Another character.
    Other,
}

/// Returns the first character and the text after it, or `None` if there is none.
pub(crate) fn next_char(text: &str) -> Option<(char, &str)>
    ensures { MatchOption result (text.now ≡ []) (λ p. text.now ≡ encode_utf8 p.0 ++ p.1.now) }
{
    let mut chars = text.chars();
    match chars.next() {
        Some(c) => Some((c, chars.as_str())),
        None => None,
    }
}

/// Returns what a character is for in a query.
#[tactic(auto, using(std::proofs::lemmas::Bool::Decides::nat_tests), unfolding(crate::specs::TextStates::class_of))]
pub(crate) fn class_of(c: char) -> Class
    ensures { result ≡ class_of c }
{
    match c {
        ' ' | '\t' | '\n' | '\r' => Class::Blank,
        '"' | '\'' => Class::QuotationMark,
        '$' => Class::Root,
        '*' => Class::Star,
        ',' => Class::Comma,
        '-' => Class::Minus,
        '.' => Class::Dot,
        '0' => Class::ZeroDigit,
        '1'..='9' => Class::Digit,
        ':' => Class::Colon,
        '?' => Class::Question,
        '[' => Class::Opening,
        ']' => Class::Closing,
        'A'..='Z' | 'a'..='z' | '_' => Class::Letter,
        _ if c.is_ascii() => Class::Other,
        _ => Class::BeyondAscii,
    }
}

/// Returns what the first character is for, and the text after it. Of the empty text that is
/// `Other` and the empty text.
pub(crate) fn split_class(text: &str) -> (Class, &str)
    ensures { ClassAt result.0 text.now result.1.now }
{
    match next_char(text) {
        Some((c, rest)) => (class_of(c), rest),
        None => (Class::Other, text),
    }
}

/// Returns the text after the blank space with which it begins.
pub(crate) fn skip_blank(text: &str) -> &str
    ensures skipped { (s : State) → Skips s → outcome s text.now ≡ outcome s result.now }
    ensures all { NoBlank result.now }
    ensures within { length result.now ≤ length text.now }
{
    let mut rest = text;
    'blank: while let (Class::Blank, after) = split_class(rest) {
        rest = after;
    }
    rest
}
