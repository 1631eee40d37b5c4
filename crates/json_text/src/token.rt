// The parts of a text, each where it begins.
ghost use Rattle.std.specs.Prelude.{◌≡◌, ◌≢◌, ℕ, Bool, ◌+◌, ◌<◌, ◌≤◌, List, length, get_or, drop, Some, None, IfOk, IfErr, OnErr};
ghost use Rattle.json_grammar.specs.Grammar.{IsWhitespace};
ghost use Rattle.json_grammar.specs.declared.Kind.{Kind};
ghost use Rattle.json_grammar.specs.declared.Kind.TheVariants as Kind;
ghost use Rattle.json_grammar.specs.declared.ExpectedPart.{ExpectedPart};
ghost use Rattle.json_grammar.specs.declared.ExpectedPart.TheVariants as ExpectedPart;
ghost use Rattle.json_grammar.specs.Tree.{Token};
ghost use Rattle.json_grammar.specs.Place.{TakesValue, TakesKey, bracket as spec_bracket, opened as spec_opened};
ghost use Rattle.json_scan.specs.Runs.{ByteAt};
ghost use Rattle.json_text.specs.Numbers.{BeginsNumber};
ghost use Rattle.json_text.specs.Faults.{IsFault, IsInValue};
ghost use Rattle.json_text.specs.Readers.{ReaderAt};
ghost use Rattle.json_text.specs.Events.{ReadsToken};
ghost use Rattle.json_text.specs.Begins.{begin_of as spec_begin_of};
ghost use Rattle.json_text.specs.Spelled.{IsStringAt, StringStops};
ghost use Rattle.json_text.specs.Stack.{top};
ghost use Rattle.json_text.specs.Tokens.{WordOf, NoEnd, no_key as spec_no_key, begin_event as spec_begin_event, end_event as spec_end_event, ReadsTight, FailsWhereNeeded, ReadsTightInBoth, FailsWhereNeededInBoth};

use crate::event::Event;
use crate::fault::Fault;
use crate::literal::{refuse, word_end};
use crate::next_parts::{closing_byte, unexpected_after_value};
use crate::number::number_end;
use crate::span::Span;
use crate::stack::ContainerStack;
use crate::string::string_end;
use json_grammar::{ExpectedPart, Kind};
use json_io::ErrorCode;

/// What value a byte begins, if any (RFC 8259, section 3). By it the parser knows what to read.
#[derive(Clone, Copy, PartialEq, Eq)]
pub(crate) enum ValueStart {
    String,
    Array,
    Object,
    Null,
    True,
    False,
    Number,
    Nothing,
}

#[inline(always)]
fn begin_of(byte: u8) -> ValueStart
    ensures { result ≡ spec_begin_of byte }
{
    match byte {
        b'"' => ValueStart::String,
        b'[' => ValueStart::Array,
        b'{' => ValueStart::Object,
        b'n' => ValueStart::Null,
        b't' => ValueStart::True,
        b'f' => ValueStart::False,
        b'-' => ValueStart::Number,
        b'0'..=b'9' => ValueStart::Number,
        _ => ValueStart::Nothing,
    }
}

/// A string or a name, and the offset in bytes after its closing quote, where the parser goes on.
#[derive(Clone, Copy)]
pub(crate) struct QuotedString<'a> {
    pub span: Span<'a>,
    pub end: usize,
}

/// The string that begins at `at`.
#[inline(always)]
pub(crate) fn string_at<'a>(
    text: &'a str,
    at: usize,
    lossy: bool,
) -> Result<QuotedString<'a>, Fault>
    requires { ByteAt text.now at 34 }
    ensures ok { IfOk result (λ q. IsStringAt lossy text.now at q.span.raw.now q.end) }
    ensures mode { IfOk result (λ q. q.span.lossy ≡ lossy) }
    ensures err { IfErr result (λ f. StringStops lossy text.now (at + 1) f.code f.offset) }
{
    match string_end(text.as_bytes(), at + 1, lossy) {
        Ok(close) => Ok(QuotedString {
            span: Span {
                raw: &text[at + 1..close.quote],
                escaped: close.escaped,
                lossy,
            },
            end: close.quote + 1,
        }),
        Err(fault) => Err(fault),
    }
}

/// A part of a text that was read, the offset in bytes after it, and what may follow. The parser
/// returns the event.
///
/// ```
/// use json_grammar::ExpectedPart;
/// use json_text::Event;
/// use json_text::internal::{Cursor, ContainerStack, step};
/// let mut kinds = ContainerStack::new();
/// let cursor = Cursor { at: 0, expected: ExpectedPart::Value };
/// let read = step::<0>(" null ", cursor, 254, false, &mut kinds).ok().ok_or("no value")?;
/// assert!(rt; matches!(read.event, Event::Null) && matches!(read.expected, ExpectedPart::Done) && read.end == 5);
/// ```
#[derive(Clone, Copy)]
pub struct TokenRead<'a> {
    pub event: Event<'a>,
    pub end: usize,
    pub expected: ExpectedPart,
}

/// Where a reader is in a text: the offset in bytes of what it reads next, and what may follow.
///
/// ```
/// use json_grammar::ExpectedPart;
/// use json_text::Event;
/// use json_text::internal::{Cursor, ContainerStack, step};
/// let cursor = Cursor { at: 1, expected: ExpectedPart::First };
/// let mut kinds = ContainerStack::new();
/// let array = step::<0>("[2]", Cursor { at: 0, expected: ExpectedPart::Value }, 254, false, &mut kinds);
/// assert!(rt; array.is_ok());
/// let read = step::<0>("[2]", cursor, 254, false, &mut kinds).ok().ok_or("no element")?;
/// assert!(rt; matches!(read.event, Event::Number("2")) && read.end == 2);
/// ```
#[derive(Clone, Copy)]
pub struct Cursor {
    pub at: usize,
    pub expected: ExpectedPart,
}

/// The number that begins at `at`.
#[inline(always)]
fn scan_number<'a>(text: &'a str, at: usize) -> Result<TokenRead<'a>, Fault>
    requires { (at < length text.now) × BeginsNumber (get_or text.now at 0) }
    ensures ok { (lossy : Bool) (limit : ℕ) (c : List Kind) (w : ExpectedPart) → TakesValue w
        → IfOk result (λ r. ReadsToken lossy limit text.now at c w r.event r.end c r.expected) }
    ensures tight { ReadsTightInBoth text.now at result }
    ensures err { (lossy : Bool) (limit : ℕ) (c : List Kind) (w : ExpectedPart) (ts : List Token)
        → TakesValue w
        → ReaderAt lossy limit text.now at c w ts
        → IfErr result (λ f. IsFault lossy limit text.now f.code f.offset) }
    ensures needs { FailsWhereNeededInBoth text.now at result }
    ensures inside { IfErr result (λ f. IsInValue f.code) }
{
    let bytes = text.as_bytes();
    match number_end(bytes, at) {
        Ok(end) => Ok(TokenRead {
            event: Event::Number(&text[at..end]),
            end,
            expected: ExpectedPart::Done,
        }),
        Err(stop) => Err(refuse(bytes, stop, ErrorCode::InvalidNumber)),
    }
}

/// The literal that begins at `at`.
#[inline(always)]
fn literal<'a>(
    text: &'a str,
    at: usize,
    word: &[u8],
    event: Event<'a>,
) -> Result<TokenRead<'a>, Fault>
    requires first { ByteAt text.now at (get_or word.now 0 0) }
    requires word { WordOf event word.now }
    ensures ok { (lossy : Bool) (limit : ℕ) (c : List Kind) (w : ExpectedPart) → TakesValue w
        → IfOk result (λ r. ReadsToken lossy limit text.now at c w r.event r.end c r.expected) }
    ensures tight { ReadsTightInBoth text.now at result }
    ensures err { (lossy : Bool) (limit : ℕ) (c : List Kind) (w : ExpectedPart) (ts : List Token)
        → TakesValue w
        → ReaderAt lossy limit text.now at c w ts
        → IfErr result (λ f. IsFault lossy limit text.now f.code f.offset) }
    ensures needs { FailsWhereNeededInBoth text.now at result }
    ensures inside { IfErr result (λ f. IsInValue f.code) }
{
    match word_end(text.as_bytes(), at, word) {
        Ok(end) => Ok(TokenRead {
            event,
            end,
            expected: ExpectedPart::Done,
        }),
        Err(fault) => Err(fault),
    }
}

/// The string that begins at `at`, as a value.
#[inline(always)]
fn string<'a>(text: &'a str, at: usize, lossy: bool) -> Result<TokenRead<'a>, Fault>
    requires { ByteAt text.now at 34 }
    ensures ok { (limit : ℕ) (c : List Kind) (w : ExpectedPart) → TakesValue w
        → IfOk result (λ r. ReadsToken lossy limit text.now at c w r.event r.end c r.expected) }
    ensures tight { ReadsTight lossy text.now at result }
    ensures err { (limit : ℕ) (c : List Kind) (w : ExpectedPart) (ts : List Token) → TakesValue w
        → ReaderAt lossy limit text.now at c w ts
        → IfErr result (λ f. IsFault lossy limit text.now f.code f.offset) }
    ensures needs { FailsWhereNeeded lossy text.now at result }
    ensures inside { IfErr result (λ f. IsInValue f.code) }
{
    match string_at(text, at, lossy) {
        Ok(quote) => Ok(TokenRead {
            event: Event::Str(quote.span),
            end: quote.end,
            expected: ExpectedPart::Done,
        }),
        Err(fault) => Err(fault),
    }
}

#[inline(always)]
pub(crate) fn part_after_opening(kind: Kind) -> ExpectedPart
    ensures { result ≡ spec_opened kind }
{
    match kind {
        Kind::Array => ExpectedPart::First,
        Kind::Object => ExpectedPart::KeyOrEnd,
    }
}

#[inline(always)]
fn begin_event<'a>(kind: Kind) -> Event<'a>
    ensures { result ≡ spec_begin_event kind }
{
    match kind {
        Kind::Array => Event::BeginArray,
        Kind::Object => Event::BeginObject,
    }
}

#[inline(always)]
fn end_event<'a>(kind: Kind) -> Event<'a>
    ensures { result ≡ spec_end_event kind }
{
    match kind {
        Kind::Array => Event::EndArray,
        Kind::Object => Event::EndObject,
    }
}

/// The bracket of the kind, which opens at `at`, where fewer containers are open than the limit.
#[inline(always)]
fn open<'a>(
    kind: Kind,
    text: &'a str,
    at: usize,
    limit: usize,
    kinds: &mut ContainerStack,
) -> Result<TokenRead<'a>, Fault>
    requires bracket { ByteAt text.now at (spec_bracket kind) }
    requires most { limit ≤ 1024 }
    ensures ok { (lossy : Bool) (w : ExpectedPart) → TakesValue w
        → IfOk result (λ r. ReadsToken lossy limit text.now at kinds.old w r.event r.end
        kinds.new r.expected) }
    ensures tight { ReadsTightInBoth text.now at result }
    ensures err { (lossy : Bool) (w : ExpectedPart) (ts : List Token) → TakesValue w
        → ReaderAt lossy limit text.now at kinds.old w ts
        → IfErr result (λ f. IsFault lossy limit text.now f.code f.offset) }
    ensures needs { FailsWhereNeededInBoth text.now at result }
    ensures inside { IfErr result (λ f. IsInValue f.code) }
    ensures kept { OnErr result (kinds.new ≡ kinds.old) }
{
    if kinds.len() >= limit {
        return Err(Fault {
            code: ErrorCode::RecursionLimitExceeded,
            offset: at,
        });
    }
    kinds.push(kind);
    Ok(TokenRead {
        event: begin_event(kind),
        end: at + 1,
        expected: part_after_opening(kind),
    })
}

#[inline(always)]
fn byte_at(text: &str, at: usize) -> u8
    requires { at < length text.now }
    ensures { result ≡ get_or text.now at 0 }
{
    text.as_bytes()[at]
}

/// The value that begins at `at`, or the bracket with which it begins.
#[inline(always)]
fn value<'a>(
    text: &'a str,
    at: usize,
    limit: usize,
    lossy: bool,
    kinds: &mut ContainerStack,
) -> Result<TokenRead<'a>, Fault>
    requires within { at < length text.now }
    requires byte { ¬ (IsWhitespace (get_or text.now at 0)) }
    requires most { limit ≤ 1024 }
    ensures ok { (w : ExpectedPart) → TakesValue w
        → IfOk result (λ r. ReadsToken lossy limit text.now at kinds.old w r.event r.end
        kinds.new r.expected) }
    ensures tight { ReadsTight lossy text.now at result }
    ensures err { (w : ExpectedPart) (ts : List Token) → TakesValue w → NoEnd text.now at kinds.old w
        → ReaderAt lossy limit text.now at kinds.old w ts
        → IfErr result (λ f. IsFault lossy limit text.now f.code f.offset) }
    ensures needs { FailsWhereNeeded lossy text.now at result }
    ensures inside { IfErr result (λ f. IsInValue f.code) }
    ensures kept { OnErr result (kinds.new ≡ kinds.old) }
{
    match begin_of(byte_at(text, at)) {
        ValueStart::String => string(text, at, lossy),
        ValueStart::Array => open(Kind::Array, text, at, limit, kinds),
        ValueStart::Object => open(Kind::Object, text, at, limit, kinds),
        ValueStart::Null => literal(text, at, b"null", Event::Null),
        ValueStart::True => literal(text, at, b"true", Event::Bool(true)),
        ValueStart::False => literal(text, at, b"false", Event::Bool(false)),
        ValueStart::Number => scan_number(text, at),
        ValueStart::Nothing => Err(Fault {
            code: ErrorCode::InvalidJsonValue,
            offset: at,
        }),
    }
}

#[cold]
fn no_key(expected: ExpectedPart, byte: u8) -> ErrorCode
    ensures { result ≡ spec_no_key expected byte }
{
    match expected {
        ExpectedPart::Key => {
            if byte == b'}' {
                ErrorCode::TrailingComma
            } else {
                ErrorCode::ExpectObjectKeyOrEnd
            }
        }
        _ => ErrorCode::ExpectObjectKeyOrEnd,
    }
}

/// The name that begins at `at`.
#[inline(always)]
fn key<'a>(
    text: &'a str,
    at: usize,
    expected: ExpectedPart,
    lossy: bool,
) -> Result<TokenRead<'a>, Fault>
    requires within { at < length text.now }
    requires byte { ¬ (IsWhitespace (get_or text.now at 0)) }
    requires expected { TakesKey expected }
    ensures ok { (limit : ℕ) (c : List Kind)
        → IfOk result (λ r. ReadsToken lossy limit text.now at c expected r.event r.end c r.expected) }
    ensures tight { ReadsTight lossy text.now at result }
    ensures err { (limit : ℕ) (c : List Kind) (ts : List Token) → NoEnd text.now at c expected
        → ReaderAt lossy limit text.now at c expected ts
        → IfErr result (λ f. IsFault lossy limit text.now f.code f.offset) }
    ensures needs { FailsWhereNeeded lossy text.now at result }
    ensures inside { IfErr result (λ f. IsInValue f.code) }
{
    let byte = byte_at(text, at);
    if byte != b'"' {
        return Err(Fault {
            code: no_key(expected, byte),
            offset: at,
        });
    }
    match string_at(text, at, lossy) {
        Ok(quote) => Ok(TokenRead {
            event: Event::Key(quote.span),
            end: quote.end,
            expected: ExpectedPart::Colon,
        }),
        Err(fault) => Err(fault),
    }
}

/// The end of the innermost container, whose bracket closes at `at`.
#[inline(always)]
fn close<'a>(kind: Kind, at: usize, kinds: &mut ContainerStack) -> TokenRead<'a>
    requires fits { at < usize.MAX }
    requires open { top kinds.old ≡ Some kind }
    ensures event { result.event ≡ spec_end_event kind }
    ensures place { (result.end ≡ at + 1) × (result.expected ≡ ExpectedPart.Done) }
    ensures kinds { kinds.new ≡ drop 1 kinds.old }
{
    kinds.pop();
    TokenRead {
        event: end_event(kind),
        end: at + 1,
        expected: ExpectedPart::Done,
    }
}

/// Reads what begins at `at` after the bracket of an array: an element, or the array's end.
#[inline(always)]
fn first<'a>(
    text: &'a str,
    at: usize,
    limit: usize,
    lossy: bool,
    kinds: &mut ContainerStack,
) -> Result<TokenRead<'a>, Fault>
    requires within { at < length text.now }
    requires byte { ¬ (IsWhitespace (get_or text.now at 0)) }
    requires open { top kinds.old ≡ Some Kind.Array }
    requires most { limit ≤ 1024 }
    ensures ok { IfOk result
        (λ r. ReadsToken lossy limit text.now at kinds.old ExpectedPart.First r.event r.end kinds.new r.expected) }
    ensures tight { ReadsTight lossy text.now at result }
    ensures err { (ts : List Token) → ReaderAt lossy limit text.now at kinds.old ExpectedPart.First ts
        → IfErr result (λ f. IsFault lossy limit text.now f.code f.offset) }
    ensures needs { FailsWhereNeeded lossy text.now at result }
    ensures inside { IfErr result (λ f. IsInValue f.code) }
    ensures kept { OnErr result (kinds.new ≡ kinds.old) }
{
    if byte_at(text, at) == b']' {
        Ok(close(Kind::Array, at, kinds))
    } else {
        value(text, at, limit, lossy, kinds)
    }
}

/// Reads what begins at `at` after the bracket of an object: a name, or the object's end.
#[inline(always)]
fn key_or_end<'a>(
    text: &'a str,
    at: usize,
    lossy: bool,
    kinds: &mut ContainerStack,
) -> Result<TokenRead<'a>, Fault>
    requires within { at < length text.now }
    requires byte { ¬ (IsWhitespace (get_or text.now at 0)) }
    requires open { top kinds.old ≡ Some Kind.Object }
    ensures ok { (limit : ℕ)
        → IfOk result (λ r. ReadsToken lossy limit text.now at kinds.old ExpectedPart.KeyOrEnd r.event r.end
        kinds.new r.expected) }
    ensures tight { ReadsTight lossy text.now at result }
    ensures err { (limit : ℕ) (ts : List Token)
        → ReaderAt lossy limit text.now at kinds.old ExpectedPart.KeyOrEnd ts
        → IfErr result (λ f. IsFault lossy limit text.now f.code f.offset) }
    ensures needs { FailsWhereNeeded lossy text.now at result }
    ensures inside { IfErr result (λ f. IsInValue f.code) }
    ensures kept { OnErr result (kinds.new ≡ kinds.old) }
{
    if byte_at(text, at) == b'}' {
        Ok(close(Kind::Object, at, kinds))
    } else {
        key(text, at, ExpectedPart::KeyOrEnd, lossy)
    }
}

/// Reads the end of the innermost container: only it may follow a value at `at` without a comma.
#[inline(always)]
fn end_after_value<'a>(
    text: &'a str,
    at: usize,
    kinds: &mut ContainerStack,
) -> Result<TokenRead<'a>, Fault>
    requires within { at < length text.now }
    requires byte { ¬ (IsWhitespace (get_or text.now at 0)) }
    requires apart { top kinds.old ≢ None → ¬ (ByteAt text.now at 44) }
    ensures ok { (lossy : Bool) (limit : ℕ)
        → IfOk result (λ r. ReadsToken lossy limit text.now at kinds.old ExpectedPart.Done r.event r.end
        kinds.new r.expected) }
    ensures tight { ReadsTightInBoth text.now at result }
    ensures err { (lossy : Bool) (limit : ℕ) (ts : List Token)
        → ReaderAt lossy limit text.now at kinds.old ExpectedPart.Done ts
        → IfErr result (λ f. IsFault lossy limit text.now f.code f.offset) }
    ensures needs { FailsWhereNeededInBoth text.now at result }
    ensures inside { IfErr result (λ f. top kinds.old ≢ None → IsInValue f.code) }
    ensures kept { OnErr result (kinds.new ≡ kinds.old) }
{
    match kinds.top() {
        Some(kind) => {
            if byte_at(text, at) == closing_byte(kind) {
                Ok(close(kind, at, kinds))
            } else {
                Err(Fault {
                    code: unexpected_after_value(Some(kind)),
                    offset: at,
                })
            }
        }
        None => Err(Fault {
            code: unexpected_after_value(None),
            offset: at,
        }),
    }
}

/// Reads the part at the cursor, where no whitespace, comma or colon is; fails at its first fault.
#[inline(always)]
pub fn take_event<'a>(
    text: &'a str,
    cursor: Cursor,
    limit: usize,
    lossy: bool,
    kinds: &mut ContainerStack,
) -> Result<TokenRead<'a>, Fault>
    requires within { cursor.at < length text.now }
    requires byte { ¬ (IsWhitespace (get_or text.now cursor.at 0)) }
    requires expected { cursor.expected ≢ ExpectedPart.Colon }
    requires first { cursor.expected ≡ ExpectedPart.First → top kinds.old ≡ Some Kind.Array }
    requires key_or_end { cursor.expected ≡ ExpectedPart.KeyOrEnd → top kinds.old ≡ Some Kind.Object }
    requires apart { cursor.expected ≡ ExpectedPart.Done → top kinds.old ≢ None
        → ¬ (ByteAt text.now cursor.at 44) }
    requires most { limit ≤ 1024 }
    ensures ok { IfOk result (λ r.
        ReadsToken lossy limit text.now cursor.at kinds.old cursor.expected r.event r.end kinds.new r.expected) }
    ensures tight { ReadsTight lossy text.now cursor.at result }
    ensures err { (ts : List Token) → ReaderAt lossy limit text.now cursor.at kinds.old cursor.expected ts
        → IfErr result (λ f. IsFault lossy limit text.now f.code f.offset) }
    ensures needs { FailsWhereNeeded lossy text.now cursor.at result }
    ensures inside { IfErr result (λ f. (cursor.expected ≡ ExpectedPart.Done → top kinds.old ≢ None)
        → IsInValue f.code) }
    ensures kept { OnErr result (kinds.new ≡ kinds.old) }
{
    let at = cursor.at;
    match cursor.expected {
        ExpectedPart::Value => value(text, at, limit, lossy, kinds),
        ExpectedPart::First => first(text, at, limit, lossy, kinds),
        ExpectedPart::Key => key(text, at, ExpectedPart::Key, lossy),
        ExpectedPart::KeyOrEnd => key_or_end(text, at, lossy, kinds),
        _ => end_after_value(text, at, kinds),
    }
}
