// Reads one value among others into a document.
ghost use Rattle.std.specs.Prelude.{◌≡◌, ◌⊎◌, ◌<◌, ◌≤◌, ◌^◌, List, [], ◌∷◌, OnOk, IfOk, IfErr, false};
ghost use Rattle.json_grammar.specs.Tree.{Tree, Token, tokens};
ghost use Rattle.json_io.specs.Errors.{no_memory};
ghost use Rattle.json_text.specs.Events.{Means, raw_size};
ghost use Rattle.json_text.specs.Parsing.{HasGiven, SameInput, KeepsHasRead};
ghost use Rattle.json_doc.specs.Docs.{IsDocOf};
ghost use Rattle.json_doc.specs.Lent.{EventIsLentBy};
ghost use Rattle.json_doc.specs.OneValue.{HandedOut, ReadsValue, RefusesValue, open_levels_after as spec_levels_behind};
ghost use Rattle.json_doc.specs.Recorded.{visitor_state, Holds};

use crate::doc::Doc;
use crate::document_visitor::DocumentVisitor;
use crate::reader::record_event;
use json_io::Result;
use json_text::{Event, Parser};
use std::alloc::Global;
use std::rc::Rc;

// The use of the parser's step in this loop, which has a copy of its own.
const HERE: u8 = 9;

// How many bytes of the text the event lends.
fn lent_len(event: Event<'_>) -> usize
    ensures { result ≡ raw_size event.entry }
{
    match event {
        Event::Number(literal) => literal.len(),
        Event::Str(s) | Event::Key(s) => s.raw_len(),
        _ => 0,
    }
}

// What the event lends of the text: a literal, or what is between quotes.
fn lent_bytes(event: Event<'_>) -> &[u8]
    ensures { EventIsLentBy event.entry result.now 0 }
{
    match event {
        Event::Number(literal) => literal.as_bytes(),
        Event::Str(s) | Event::Key(s) => s.raw.as_bytes(),
        _ => b"",
    }
}

// How many containers are open after the event, where `levels` were before it.
fn open_levels_after(event: Event<'_>, levels: usize) -> usize
    requires most { levels < 2 ^ 32 }
    ensures { (x : Token) → Means event.entry x → result ≡ spec_levels_behind x levels }
{
    match event {
        Event::BeginArray | Event::BeginObject => levels + 1,
        Event::EndArray | Event::EndObject => levels.saturating_sub(1),
        _ => levels,
    }
}

// Records a value from its first event on, which the parser handed out last, and goes on to its
// end.
pub(crate) fn record_value<'a>(
    visitor: &mut DocumentVisitor,
    parser: &mut Parser<'a>,
    first: Event<'a>,
) -> Result<()>
    requires first { HandedOut parser.old first }
    requires empty { Holds visitor.old [] }
    requires admits { (visitor_state visitor.old).full ≡ false }
    ensures same { SameInput parser.old parser.new }
    ensures order { parser.old.index ≤ parser.new.index }
    ensures ok { OnOk result ((t : Tree) × ReadsValue parser.old first.entry t parser.new
        × Holds visitor.new (tokens t)) }
    ensures whole { KeepsHasRead parser.old parser.new }
    ensures err { IfErr result (λ e. (e ≡ no_memory) ⊎ RefusesValue parser.new e) }
    ensures given { (ts : List Token) × HasGiven parser.new ts }
{
    let mut event = first;
    let mut levels = 0;
    'events: loop {
        visitor.make_room(lent_len(event))?;
        let _recorded = record_event::<HERE>(visitor, event, lent_bytes(event), 0);
        levels = open_levels_after(event, levels);
        if levels == 0 {
            return Ok(());
        }
        event = parser.next_by::<HERE>()?;
    }
}

/// Reads one value into a packed document, whatever follows it. `first` is the value's first event,
/// and the one that the parser returned last. The parser reads on to the end of the value and is
/// right after it then. Fails with the parser's error, which the parser keeps, and with `NoMemory`
/// if memory runs out.
///
/// ```
/// use json_doc::read_following_value;
/// use json_text::{Event, Parser};
/// let mut parser = Parser::new("[1, [2, 3], 4]");
/// parser.next()?;
/// parser.next()?;
/// let first = parser.next()?;
/// assert_eq!(rt; read_following_value(alloc, &mut parser, first)?.cells().len(), 3);
/// assert!(rt; matches!(parser.next()?, Event::Number("4")));
/// ```
pub fn read_following_value<'a>(
    alloc: Global,
    parser: &mut Parser<'a>,
    first: Event<'a>,
) -> Result<Rc<Doc>>
    requires { HandedOut parser.old first }
    ensures same { SameInput parser.old parser.new }
    ensures order { parser.old.index ≤ parser.new.index }
    ensures ok { IfOk result (λ d. (t : Tree) × ReadsValue parser.old first.entry t parser.new
        × IsDocOf d.value t) }
    ensures whole { KeepsHasRead parser.old parser.new }
    ensures err { IfErr result (λ e. (e ≡ no_memory) ⊎ RefusesValue parser.new e) }
    ensures given { (ts : List Token) × HasGiven parser.new ts }
{
    let mut visitor = DocumentVisitor::with_room(alloc, 0, 0)?;
    record_value(&mut visitor, parser, first)?;
    visitor.finish(alloc)
}
