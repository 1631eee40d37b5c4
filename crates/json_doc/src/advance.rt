// The events of a whole text, each recorded where it was read.
ghost use Rattle.std.specs.Prelude.{◌≡◌, ◌≤◌, List, ℕ, [], ◌∷◌, ◌++◌, false, IfOk, IfErr};
ghost use Rattle.json_grammar.specs.Tree.{Token};
ghost use Rattle.json_text.specs.Due.{NextNeeds};
ghost use Rattle.json_text.specs.Events.{Means, raw_size};
ghost use Rattle.json_text.specs.Faults.{IsFault};
ghost use Rattle.json_text.specs.Steps.{Advances, TokenAfterGap};
ghost use Rattle.json_text.specs.declared.event.Event.TheVariants as Event;
ghost use Rattle.json_grammar.specs.TokenStates.{BeginsTree};
ghost use Rattle.json_doc.specs.Progress.{IsReading};
ghost use Rattle.json_doc.specs.Reading.{HasRoomFor, Follows};
ghost use Rattle.json_doc.specs.Recorded.{SameRoom};

use crate::document_visitor::DocumentVisitor;
use crate::reader::{record_event, start_offset};
use json_grammar::{ExpectedPart, Kind};
use json_text::internal::{ContainerStack, Cursor, TokenRead, step};
use json_text::{Event, Fault};

// Reads the next event of a text as `step` does, and records it. Each `USE` is a copy of its own.
#[inline(always)]
fn advance<'a, const USE: u8>(
    visitor: &mut DocumentVisitor,
    text: &'a str,
    cursor: Cursor,
    limit: usize,
    kinds: &mut ContainerStack,
) -> Result<TokenRead<'a>, Fault>
    requires kept { IsReading limit text.now cursor.at kinds.old cursor.expected visitor.old }
    requires most { limit ≤ 1024 }
    ensures ok { IfOk result (λ r.
        Advances false limit text.now cursor.at kinds.old cursor.expected
        r.event r.end kinds.new r.expected) }
    ensures tight { IfOk result (λ r. TokenAfterGap false text.now cursor.at r.event r.end) }
    ensures err { IfErr result (λ f. IsFault false limit text.now f.code f.offset) }
    ensures needs { IfErr result (λ f. NextNeeds false text.now cursor.at f.code f.offset) }
    ensures recorded { IfOk result (λ r. (x : Token) (ts : List Token) → Means r.event x
        → Follows visitor.old ts → BeginsTree (ts ++ x ∷ [])
        → HasRoomFor visitor.old (raw_size r.event) → Follows visitor.new (ts ++ x ∷ [])) }
    ensures room { IfOk result (λ r. (x : Token) → Means r.event x
        → SameRoom visitor.old visitor.new) }
    ensures at_end { IfOk result (λ r. r.event ≡ Event.End → visitor.new ≡ visitor.old) }
{
    match step::<USE>(text, cursor, limit, false, kinds) {
        Ok(read) => match read.event {
            Event::End => Ok(read),
            event => {
                let from = start_offset(event, read.end);
                let _recorded = record_event::<USE>(visitor, event, text.as_bytes(), from);
                Ok(read)
            }
        },
        Err(fault) => Err(fault),
    }
}

// Does what `advance` does, by a copy of it for each part that may come next, and after a value for
// each kind of container, so that each copy leaves out what cannot come next there.
#[inline(always)]
pub(crate) fn advance_by_expected<'a>(
    visitor: &mut DocumentVisitor,
    text: &'a str,
    cursor: Cursor,
    limit: usize,
    kinds: &mut ContainerStack,
) -> Result<TokenRead<'a>, Fault>
    requires kept { IsReading limit text.now cursor.at kinds.old cursor.expected visitor.old }
    requires most { limit ≤ 1024 }
    ensures ok { IfOk result (λ r.
        Advances false limit text.now cursor.at kinds.old cursor.expected
        r.event r.end kinds.new r.expected) }
    ensures tight { IfOk result (λ r. TokenAfterGap false text.now cursor.at r.event r.end) }
    ensures err { IfErr result (λ f. IsFault false limit text.now f.code f.offset) }
    ensures needs { IfErr result (λ f. NextNeeds false text.now cursor.at f.code f.offset) }
    ensures recorded { IfOk result (λ r. (x : Token) (ts : List Token) → Means r.event x
        → Follows visitor.old ts → BeginsTree (ts ++ x ∷ [])
        → HasRoomFor visitor.old (raw_size r.event) → Follows visitor.new (ts ++ x ∷ [])) }
    ensures room { IfOk result (λ r. (x : Token) → Means r.event x
        → SameRoom visitor.old visitor.new) }
    ensures at_end { IfOk result (λ r. r.event ≡ Event.End → visitor.new ≡ visitor.old) }
{
    match cursor.expected {
        ExpectedPart::First => advance::<2>(visitor, text, cursor, limit, kinds),
        ExpectedPart::KeyOrEnd => advance::<3>(visitor, text, cursor, limit, kinds),
        ExpectedPart::Colon => advance::<4>(visitor, text, cursor, limit, kinds),
        ExpectedPart::Done => match kinds.top() {
            Some(Kind::Array) => advance::<5>(visitor, text, cursor, limit, kinds),
            Some(Kind::Object) => advance::<7>(visitor, text, cursor, limit, kinds),
            None => advance::<8>(visitor, text, cursor, limit, kinds),
        },
        ExpectedPart::Value | ExpectedPart::Key => advance::<6>(
            visitor, text, cursor, limit, kinds,
        ),
    }
}
