// One step of a reader, where the caller keeps its place.
ghost use Rattle.std.specs.Prelude.{◌≡◌, ◌≤◌, ◌↔◌, List, IsTrue, None, length, IfOk, IfErr, OnErr};
ghost use Rattle.json_grammar.specs.Tree.{Token};
ghost use Rattle.json_text.specs.Faults.{IsFault, IsInValue};
ghost use Rattle.json_text.specs.Due.{NextNeeds};
ghost use Rattle.json_text.specs.Readers.{ReaderAt};
ghost use Rattle.json_text.specs.Steps.{Advances, TokenAfterGap, IsDone};

use crate::event::Event;
use crate::fault::Fault;
use crate::next_parts::next_part;
use crate::stack::ContainerStack;
use crate::token::{Cursor, TokenRead, take_event};
use json_grammar::{ExpectedPart, Kind};
use json_io::ErrorCode;

/// Whether a value is whole: it was read, and the kind of no container is open.
#[inline(always)]
pub(crate) fn is_whole_value(expected: ExpectedPart, kind: Option<Kind>) -> bool
    ensures { IsTrue result ↔ ((expected ≡ ExpectedPart.Done) × (kind ≡ None)) }
{
    match expected {
        ExpectedPart::Done => kind.is_none(),
        _ => false,
    }
}

/// Reads one event at the cursor, for a loop that keeps the cursor and the open containers itself.
/// `USE` numbers the call, so each has a copy of its own, and the compiler drops the branches that
/// a known cursor excludes.
///
/// Returns `End` if the value is whole and only whitespace is left. Fails with a code from
/// `EofWhileParsing` to `RecursionLimitExceeded` at its offset, as `Parser::next` does.
///
/// ```
/// use json_grammar::ExpectedPart;
/// use json_text::Event;
/// use json_text::internal::{Cursor, ContainerStack, step};
/// let mut kinds = ContainerStack::new();
/// let start = Cursor { at: 0, expected: ExpectedPart::Value };
/// let first = step::<0>("[1.50]", start, 254, false, &mut kinds).ok().ok_or("no value")?;
/// assert!(rt; matches!(first.event, Event::BeginArray) && kinds.len() == 1);
/// let next = Cursor { at: first.end, expected: first.expected };
/// let second = step::<0>("[1.50]", next, 254, false, &mut kinds).ok().ok_or("no element")?;
/// assert!(rt; matches!(second.event, Event::Number("1.50")) && second.end == 5);
/// ```
#[inline(always)]
pub fn step<'a, const USE: u8>(
    text: &'a str,
    cursor: Cursor,
    limit: usize,
    lossy: bool,
    kinds: &mut ContainerStack,
) -> Result<TokenRead<'a>, Fault>
    requires given { (ts : List Token)
        × ReaderAt lossy limit text.now cursor.at kinds.old cursor.expected ts }
    requires most { limit ≤ 1024 }
    ensures ok { IfOk result (λ r.
        Advances lossy limit text.now cursor.at kinds.old cursor.expected
        r.event r.end kinds.new r.expected) }
    ensures tight { IfOk result (λ r. TokenAfterGap lossy text.now cursor.at r.event r.end) }
    ensures whole { IfOk result (λ r. r.event ≡ Event.End → IsDone cursor.expected kinds.old) }
    ensures err { IfErr result (λ f. IsFault lossy limit text.now f.code f.offset) }
    ensures needs { IfErr result (λ f. NextNeeds lossy text.now cursor.at f.code f.offset) }
    ensures inside { IfErr result (λ f. ¬ (IsDone cursor.expected kinds.old) → IsInValue f.code) }
    ensures within { IfErr result (λ f. f.offset ≤ length text.now) }
    ensures kept { OnErr result (kinds.new ≡ kinds.old) }
{
    let bytes = text.as_bytes();
    let part_start = match next_part(bytes, cursor.at, cursor.expected, kinds) {
        Ok(part_start) => part_start,
        Err(fault) => return Err(fault),
    };
    if part_start.at == bytes.len() {
        if is_whole_value(part_start.expected, kinds.top()) {
            return Ok(TokenRead {
                event: Event::End,
                end: cursor.at,
                expected: cursor.expected,
            });
        }
        return Err(Fault {
            code: ErrorCode::EofWhileParsing,
            offset: part_start.at,
        });
    }
    let at_token = Cursor {
        at: part_start.at,
        expected: part_start.expected,
    };
    take_event(text, at_token, limit, lossy, kinds)
}
