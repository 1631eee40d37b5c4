// What may follow at a place.
ghost use Rattle.std.specs.Prelude.{◌≡◌, ◌≢◌, ℕ, Bool, ◌+◌, ◌<◌, ◌≤◌, List, length, get_or, IfOk, IfErr, IsOkAnd, None};
ghost use Rattle.json_grammar.specs.declared.Kind.{Kind};
ghost use Rattle.json_grammar.specs.declared.ExpectedPart.{ExpectedPart};
ghost use Rattle.json_grammar.specs.declared.ExpectedPart.TheVariants as ExpectedPart;
ghost use Rattle.json_grammar.specs.Tree.{Token};
ghost use Rattle.json_grammar.specs.Grammar.{IsWhitespace, ws};
ghost use Rattle.json_grammar.specs.Given.{piece};
ghost use Rattle.json_grammar.specs.Needs.{IsGap};
ghost use Rattle.json_grammar.specs.Place.{TakesEnd, after_comma as spec_after_comma, closing as spec_closing};
ghost use Rattle.json_text.specs.Stack.{top};
ghost use Rattle.json_scan.specs.Runs.{ByteAt};
ghost use Rattle.json_text.specs.Faults.{IsFault, IsInValue};
ghost use Rattle.json_text.specs.Due.{NextNeeds};
ghost use Rattle.json_text.specs.Readers.{ReaderAt};
ghost use Rattle.json_text.specs.Nexts.{NextAt, SpaceTo};
ghost use Rattle.json_text.specs.Misplaced.{unexpected_after_value as spec_misplaced};

use crate::fault::Fault;
use crate::literal::refuse;
use crate::stack::ContainerStack;
use json_grammar::{ExpectedPart, Kind};
use json_io::ErrorCode;
use json_scan::{byte_is, ws_end};

/// The offset in bytes at which the next part begins, and what it may be. What may not be is
/// refused there.
#[derive(Clone, Copy)]
pub(crate) struct PartStart {
    pub at: usize,
    pub expected: ExpectedPart,
}

/// Skips whitespace.
#[inline(always)]
fn skip_whitespace(bytes: &[u8], from: usize, expected: ExpectedPart) -> PartStart
    requires { from ≤ length bytes.now }
    ensures expected { result.expected ≡ expected }
    ensures within { (from ≤ result.at) × (result.at ≤ length bytes.now) }
    ensures space { ws (piece bytes.now from result.at) }
    ensures stop { result.at < length bytes.now → ¬ (IsWhitespace (get_or bytes.now result.at 0)) }
    ensures reader { (lossy : Bool) (limit : ℕ) (c : List Kind) (ts : List Token)
        → ReaderAt lossy limit bytes.now from c expected ts
        → ReaderAt lossy limit bytes.now result.at c expected ts }
{
    PartStart {
        at: ws_end(bytes, from),
        expected,
    }
}

#[inline(always)]
fn part_after_comma(kind: Kind) -> ExpectedPart
    ensures { result ≡ spec_after_comma kind }
{
    match kind {
        Kind::Array => ExpectedPart::Value,
        Kind::Object => ExpectedPart::Key,
    }
}

/// Skips whitespace and, if one must follow, a comma or a colon. Fails at another byte if one of
/// them must follow.
#[inline(always)]
pub fn next_part(
    bytes: &[u8],
    index: usize,
    expected: ExpectedPart,
    kinds: &ContainerStack,
) -> Result<PartStart, Fault>
    requires { index ≤ length bytes.now }
    ensures within { IfOk result (λ r. (index ≤ r.at) × (r.at ≤ length bytes.now)) }
    ensures stop { IfOk result (λ r. r.at < length bytes.now
        → ¬ (IsWhitespace (get_or bytes.now r.at 0))) }
    ensures apart { IfOk result
        (λ r. (r.expected ≢ ExpectedPart.Colon)
        × (r.expected ≡ ExpectedPart.Done → top kinds.now ≢ None → ¬ (ByteAt bytes.now r.at 44))) }
    ensures ok { (lossy : Bool) (limit : ℕ) (ts : List Token)
        → ReaderAt lossy limit bytes.now index kinds.now expected ts
        → IfOk result (λ r. ReaderAt lossy limit bytes.now r.at kinds.now r.expected ts) }
    ensures gap { IfOk result (λ r. IsGap (piece bytes.now index r.at)) }
    ensures whole { IfOk result (λ r. r.expected ≡ ExpectedPart.Done → expected ≡ ExpectedPart.Done) }
    ensures err { (lossy : Bool) (limit : ℕ) (ts : List Token)
        → ReaderAt lossy limit bytes.now index kinds.now expected ts
        → IfErr result (λ f. IsFault lossy limit bytes.now f.code f.offset) }
    ensures needs { (lossy : Bool)
        → IfErr result (λ f. NextNeeds lossy bytes.now index f.code f.offset) }
    ensures inside { IfErr result (λ f. IsInValue f.code) }
    ensures next { IfOk result (λ r. r.expected ≢ ExpectedPart.Done
        → NextAt bytes.now index kinds.now expected r.at r.expected) }
    ensures only { (k : ℕ) (v : ExpectedPart) → NextAt bytes.now index kinds.now expected k v
        → IsOkAnd result (λ r. (r.at ≡ k) × (r.expected ≡ v)) }
    ensures ends { (k : Kind) → IfOk result (λ r. TakesEnd k r.expected
        → SpaceTo bytes.now index r.at × (r.expected ≡ expected)) }
    ensures stays { (k : ℕ) → expected ≢ ExpectedPart.Colon → SpaceTo bytes.now index k
        → ¬ (ByteAt bytes.now k 44)
        → IsOkAnd result (λ r. (r.at ≡ k) × (r.expected ≡ expected)) }
{
    let here = skip_whitespace(bytes, index, expected);
    match expected {
        ExpectedPart::Colon => {
            if byte_is(bytes, here.at, b':') {
                Ok(skip_whitespace(bytes, here.at + 1, ExpectedPart::Value))
            } else {
                Err(refuse(bytes, here.at, ErrorCode::ExpectedColon))
            }
        }
        ExpectedPart::Done => match kinds.top() {
            Some(kind) => {
                if byte_is(bytes, here.at, b',') {
                    Ok(skip_whitespace(bytes, here.at + 1, part_after_comma(kind)))
                } else {
                    Ok(here)
                }
            }
            None => Ok(here),
        },
        _ => Ok(here),
    }
}

/// Returns the bracket that closes a container of the kind.
#[inline(always)]
pub fn closing_byte(kind: Kind) -> u8
    ensures { result ≡ spec_closing kind }
{
    match kind {
        Kind::Array => b']',
        Kind::Object => b'}',
    }
}

/// Returns why no other byte may follow a value.
#[cold]
pub fn unexpected_after_value(kind: Option<Kind>) -> ErrorCode
    ensures { result ≡ spec_misplaced kind }
{
    match kind {
        None => ErrorCode::TrailingCharacters,
        Some(Kind::Array) => ErrorCode::ExpectedArrayCommaOrEnd,
        Some(Kind::Object) => ErrorCode::ExpectedObjectCommaOrEnd,
    }
}
