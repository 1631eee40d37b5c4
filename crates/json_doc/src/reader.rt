// Reads a text into a document.
ghost use Rattle.std.specs.Prelude.{◌≡◌, ◌≢◌, ◌⊎◌, ◌+◌, ◌-◌, ◌/◌, ◌≤◌, ◌<◌, ◌^◌, List, ℕ, [], ◌∷◌, ◌++◌, length, true, false, None, Some, IfOk, IfErr, OnOk};
ghost use Rattle.json_grammar.specs.Tree.{Tree, Token, num_token, depth};
ghost use Rattle.json_grammar.specs.Grammar.{is_text, number};
ghost use Rattle.json_grammar.specs.Fault.{reads};
ghost use Rattle.json_grammar.specs.Rules.{fits};
ghost use Rattle.json_io.specs.Errors.{no_memory};
ghost use Rattle.json_text.specs.Events.{Means, raw_size, event_bytes};
ghost use Rattle.json_text.specs.Parsing.{input, consumed, HasGiven, IsWhole, SameInput};
ghost use Rattle.json_io.specs.Positions.{place_at};
ghost use Rattle.json_text.specs.Ruled.{rules_of};
ghost use Rattle.json_grammar.specs.TokenStates.{BeginsTree};
ghost use Rattle.json_doc.specs.Lent.{IsPieceAt, EventIsLentBy, from_of};
ghost use Rattle.json_doc.specs.State.{MayComeAfter};
ghost use Rattle.json_doc.specs.Recorded.{visitor_state, Holds, SameRoom};
ghost use Rattle.json_doc.specs.Reading.{ReadingFails, FrontFails, RefusesName, EventIsNumber, HasRoomFor, Follows, FailsByRules};
ghost use Rattle.json_doc.specs.OpenNames.{HasSomeNames, TakesIn, Differ};
ghost use Rattle.json_doc.specs.Docs.{IsDocOf};

use crate::advance::advance_by_expected;
use crate::doc::Doc;
use crate::document_visitor::DocumentVisitor;
use crate::open_keys::OpenKeys;
use crate::value_reader::record_value;
use crate::visitor::JsonVisitor;
use json_grammar::ExpectedPart;
use json_io::{Error, ErrorCode, Result, place_of};
use json_number::{Integer, integer_of_in};
use json_text::internal::{ContainerStack, Cursor};
use json_text::{Event, Parser, Rules, Span};
use std::alloc::Global;
use std::rc::Rc;

// Records the number whose literal is in the input from `from` on: an integer by value, every other
// by its literal. Returns whether there was room for it.
#[inline(always)]
fn record_number(visitor: &mut DocumentVisitor, literal: &str, input: &[u8], from: usize) -> bool
    requires number { number literal.now }
    requires come { (visitor_state visitor.old).full ≡ false
        → MayComeAfter (Holds visitor.old) (num_token literal.now) }
    requires lent { IsPieceAt literal.now input.now from }
    ensures follows { (ts : List Token) → Follows visitor.old ts
        → BeginsTree (ts ++ num_token literal.now ∷ [])
        → HasRoomFor visitor.old (length literal.now)
        → Follows visitor.new (ts ++ num_token literal.now ∷ []) }
    ensures room { SameRoom visitor.old visitor.new }
{
    match integer_of_in(literal, input, from) {
        Some(number) => match number.integer() {
            Integer::Unsigned(n) => visitor.visit_u64(n),
            Integer::Negative(n) => visitor.visit_i64(n),
        },
        None => visitor.take_raw_number(literal, input, from),
    }
}

// Records an event whose text begins in the input at the offset `from`, and returns whether it was
// recorded. Of the end there is nothing to record.
#[inline(always)]
pub(crate) fn record_event<const USE: u8>(
    visitor: &mut DocumentVisitor,
    event: Event<'_>,
    input: &[u8],
    from: usize,
) -> bool
    requires number { EventIsNumber event }
    requires lent { EventIsLentBy event input.now from }
    requires come { (visitor_state visitor.old).full ≡ false
        → (x : Token) × Means event x × MayComeAfter (Holds visitor.old) x }
    ensures follows { (x : Token) (ts : List Token) → Means event.entry x
        → Follows visitor.old ts → BeginsTree (ts ++ x ∷ [])
        → HasRoomFor visitor.old (raw_size event.entry) → Follows visitor.new (ts ++ x ∷ []) }
    ensures room { (x : Token) → Means event.entry x → SameRoom visitor.old visitor.new }
{
    match event {
        Event::Null => visitor.visit_null(),
        Event::Bool(b) => visitor.visit_bool(b),
        Event::Number(literal) => record_number(visitor, literal, input, from),
        Event::Str(s) => visitor.take_str(s, input, from),
        Event::Key(s) => visitor.take_key(s, input, from),
        Event::BeginArray => visitor.visit_array_start(),
        Event::EndArray => visitor.visit_array_end(),
        Event::BeginObject => visitor.visit_object_start(),
        Event::EndObject => visitor.visit_object_end(),
        Event::End => true,
    }
}

// Returns the offset at which the text between the quotes of a string or a name begins, or the
// literal of a number, if `end` is the offset after the token.
#[inline(always)]
pub(crate) fn start_offset(event: Event<'_>, end: usize) -> usize
    requires { length (event_bytes event) ≤ end }
    ensures { result ≡ from_of event.entry end }
{
    match event {
        Event::Number(literal) => end - literal.len(),
        Event::Str(s) | Event::Key(s) => end - 1 - s.raw_len(),
        _ => 0,
    }
}

// The error of a name that repeats. `end` is the offset after it.
#[cold]
#[inline(never)]
fn repeated_name_error(name: Span<'_>, text: &str, end: usize) -> Error
    requires begins { length name.raw.now + 2 ≤ end }
    requires within { end ≤ length text.now }
    ensures { result ≡ record {
      code = ErrorCode.DuplicateKey;
      place = place_at text.now (end - (length name.entry.raw.now + 2));
    } }
{
    Error {
        code: ErrorCode::DuplicateKey,
        place: place_of(text.as_bytes(), end - (name.raw_len() + 2)),
    }
}

// Adds an event to the names of the open containers. Fails with `DuplicateKey` for a name that its
// object has already, and with `NoMemory` if memory runs out. `end` is the offset after the event.
fn refuse_repeated<'a>(
    keys: &mut OpenKeys<'a>,
    event: Event<'a>,
    text: &str,
    end: usize,
) -> Result<()>
    requires some { HasSomeNames keys.old }
    requires means { (x : Token) × Means event x }
    requires begins { length (event_bytes event) ≤ end }
    requires within { end ≤ length text.now }
    ensures ok { OnOk result ((x : Token) → Means event.entry x
        → TakesIn false keys.old keys.new x) }
    ensures err { IfErr result (RefusesName keys.old event.entry text.now end) }
{
    match event {
        Event::Key(name) => {
            if keys.take_key(name)? {
                return Err(repeated_name_error(name, text, end));
            }
        }
        Event::BeginArray | Event::BeginObject => keys.begin()?,
        Event::EndArray | Event::EndObject => keys.end(),
        _ => {}
    }
    Ok(())
}

// Does what `refuse_repeated` does if the rules say that names must differ, and nothing if not.
// `end` is the offset after the event.
#[inline(always)]
fn check_names<'a>(
    rules: Rules,
    keys: &mut OpenKeys<'a>,
    event: Event<'a>,
    text: &str,
    end: usize,
) -> Result<()>
    requires some { (rules_of rules).unique ≡ true → HasSomeNames keys.old }
    requires means { (x : Token) × Means event x }
    requires begins { length (event_bytes event) ≤ end }
    requires within { end ≤ length text.now }
    ensures ok { OnOk result ((x : Token) (ts : List Token) → Means event.entry x
        → Differ (rules_of rules) keys.old ts → Differ (rules_of rules) keys.new (ts ++ x ∷ [])) }
    ensures err { IfErr result (λ e. ((rules_of rules).unique ≡ true)
        × RefusesName keys.old event.entry text.now end e) }
{
    if !rules.unique() {
        return Ok(());
    }
    refuse_repeated(keys, event, text, end)
}

/// Reads a JSON text by rules into the document that `builder` returns, which has room for the text
/// and no events yet. Does not run out of memory unless names have to differ.
pub(crate) fn read_by(
    builder: DocumentVisitor,
    alloc: Global,
    text: &str,
    rules: Rules,
) -> Result<Doc>
    requires room { visitor_state builder ≡ record {
      cell_room = (length text.now + 1) / 2;
      text_room = length text.now;
      nodes = 0;
      bytes = 0;
      full = false;
    } }
    requires held { Holds builder [] }
    ensures ok { IfOk result (λ d. (t : Tree) × is_text false t text.now × fits t (rules_of rules)
        × IsDocOf d t) }
    ensures err { FailsByRules (rules_of rules) text.now result }
    ensures calm { (rules_of rules).unique ≡ false
        → IfErr result (λ e. e.code ≢ ErrorCode.NoMemory) }
{
    let mut visitor = builder;
    let mut keys = OpenKeys::new(alloc);
    let limit = rules.depth() as usize;
    let mut kinds = ContainerStack::new();
    let mut at = 0;
    let mut expected = ExpectedPart::Value;
    'events: loop {
        let cursor = Cursor { at, expected };
        let read = match advance_by_expected(&mut visitor, text, cursor, limit, &mut kinds) {
            Ok(read) => read,
            Err(fault) => return Err(fault.error_in(text)),
        };
        match read.event {
            Event::End => break,
            event => {
                check_names(rules, &mut keys, event, text, read.end)?;
            }
        }
        at = read.end;
        expected = read.expected;
    }
    Ok(visitor.into_doc())
}

/// Reads a JSON text of at most 4,294,967,295 bytes into a packed document by rules. `rules` say
/// how many levels the text may have (RFC 8259, section 9), and whether a name may repeat in an
/// object (section 4). Fails with the error of the text by the rules, at its place. A bracket that
/// opens a level too many and a name that repeats precede all other errors, and of these two the
/// first one is returned. Fails with `NoMemory` if memory runs out.
///
/// ```
/// use json_doc::read_document_with;
/// use json_text::{ErrorCode, Rules};
/// let rules = Rules::new(254, true).ok_or("too many levels")?;
/// let refused = read_document_with(alloc, "{\"a\": 1, \"\\u0061\": 2}", rules).err().ok_or("it was read")?;
/// assert_eq!(rt; (refused.code, refused.offset()), (ErrorCode::DuplicateKey, Some(9)));
/// ```
pub fn read_document_with(alloc: Global, text: &str, rules: Rules) -> Result<Rc<Doc>>
    requires { length text.now < 2 ^ 32 }
    ensures ok { IfOk result (λ d. (t : Tree) × is_text false t text.now × fits t (rules_of rules)
        × IsDocOf d.value t) }
    ensures err { FailsByRules (rules_of rules) text.now result }
{
    let visitor = DocumentVisitor::new(alloc, text.len())?;
    let doc = read_by(visitor, alloc, text, rules)?;
    Ok(Rc::new(alloc, doc)?)
}

/// Reads a JSON text of at most 4,294,967,295 bytes and 254 levels into a packed document (RFC
/// 8259, section 9, lets a reader set such limits). Names may repeat in an object. Fails with the
/// error of the text at its place, and with `NoMemory` if memory runs out.
pub fn read_document(alloc: Global, text: &str) -> Result<Rc<Doc>>
    requires { length text.now < 2 ^ 32 }
    ensures ok { IfOk result (λ d. (t : Tree) × is_text false t text.now × (depth t ≤ 254)
        × IsDocOf d.value t) }
    ensures err { IfErr result (λ e. ReadingFails text.now e.code e.place) }
{
    read_document_with(alloc, text, Rules::usual())
}

/// Reads the first value of the parser's input into a packed document, whatever follows the value.
/// The parser must have returned no event yet. It reads in its own mode, strict or lossy, and is
/// right after the value then, and done. Fails with the error of the value at its place in the
/// input; each later call of [`Parser::next`] returns that error again. Fails with `NoMemory` if
/// memory runs out, and then the parser may be within the value.
///
/// ```
/// use json_doc::read_front;
/// use json_text::Parser;
/// let mut parser = Parser::new("[1] [2]");
/// assert_eq!(rt; read_front(alloc, &mut parser)?.cells().len(), 2);
/// assert_eq!(rt; parser.index(), 3);
/// ```
pub fn read_front(alloc: Global, parser: &mut Parser<'_>) -> Result<Rc<Doc>>
    requires { HasGiven parser.old [] }
    ensures same { SameInput parser.old parser.new }
    ensures ok { IfOk result (λ d. (t : Tree)
        × reads parser.old.lossy (input parser.old) t (consumed parser.new)
        × (depth t ≤ parser.old.limit) × IsDocOf d.value t) }
    ensures done { OnOk result (IsWhole parser.new × (parser.new.failure ≡ None)) }
    ensures err { IfErr result (λ e. FrontFails parser.old e.code e.place) }
    ensures kept { IfErr result (λ e. (e ≡ no_memory) ⊎ (parser.new.failure ≡ Some e)) }
{
    let mut visitor = DocumentVisitor::with_room(alloc, 0, 0)?;
    let first = parser.next()?;
    record_value(&mut visitor, parser, first)?;
    visitor.finish(alloc)
}
