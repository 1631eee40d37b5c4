// The builder of a document.
ghost use Rattle.std.specs.Prelude.{◌≡◌, ◌+◌, ◌/◌, ◌<◌, ◌≤◌, ◌^◌, ◌↔◌, List, ℕ, [], ◌∷◌, ◌++◌, length, true, false, IsTrue, IfOk, vec_len, vec_capacity, slice_index_or, slice_set};
ghost use Rattle.json_grammar.specs.Grammar.{chars};
ghost use Rattle.json_text.specs.Spelled.{NoEscape};
ghost use Rattle.json_doc.specs.Lent.{IsLentBy, IsPieceAt};

mod lent;
mod room;

use crate::cell::Cell;
use crate::doc::Doc;
use crate::visitor::JsonVisitor;
use json_io::Result;
use json_io::internal::{extend_reserved_blocks, extend_reserved_from};
use json_text::Span;
use std::alloc::Global;
use std::rc::Rc;

// The place of the container around the outermost one.
const NOWHERE: u32 = u32::MAX;

/// Builds a [`Doc`] from the events of its tree, the parts of a JSON value from left to right, in
/// room that is allocated beforehand. [`JsonVisitor`] has a method for each event; none allocates.
///
/// Each value and each key is written once, in the order of the events. The cell of an open
/// container keeps the position and the count of the container around it until it ends.
///
/// ```
/// use json_doc::{DocumentVisitor, JsonVisitor};
/// let mut visitor = DocumentVisitor::new(alloc, "[7]".len())?;
/// assert!(rt; visitor.visit_array_start() && visitor.visit_u64(7) && visitor.visit_array_end());
/// let doc = visitor.finish(alloc)?;
/// assert_eq!(rt; doc.view().len(), 1);
/// ```
#[derive(Drop)]
pub struct DocumentVisitor {
    cells: Vec<Cell>,
    text: Vec<u8>,
    // The place of the innermost open container, and how many elements, or keys and values, it has.
    parent: u32,
    count: u32,
    room: usize,
    text_room: usize,
    full: bool,
    ghost cells_room: { room ≤ vec_capacity cells },
    ghost bytes_room: { text_room ≤ vec_capacity text },
    ghost cells_fit: { vec_len cells ≤ room },
    ghost text_fits: { vec_len text ≤ text_room },
    ghost counted: { count ≤ vec_len cells },
    ghost small: { room < 2 ^ 32 },
    ghost small_text: { text_room < 2 ^ 32 },
}

impl DocumentVisitor {
    ghost use Rattle.std.specs.List.{Contains};
    ghost use Rattle.json_grammar.specs.Tree.{Tree, Pairs, Token, key_token, tokens};
    ghost use Rattle.json_grammar.specs.Repeated.{names, open_keys};
    ghost use Rattle.json_io.specs.Errors.{OnlyNoMemory};
    ghost use Rattle.json_doc.specs.Docs.{IsDocOf};
    ghost use Rattle.json_doc.specs.OpenObject.{NamesText, MembersThenKey};
    ghost use Rattle.json_doc.specs.State.{VisitorState, Fits};
    ghost use Rattle.json_doc.specs.Recorded.{visitor_state, Holds, SameRoom, TakesNoMemory};
    ghost use Rattle.json_doc.specs.OpenCells.{outer_place, outer_count};
    ghost use Rattle.json_doc.specs.declared.cell.Cell.TheVariants.{Null as null_cell};

    /// Creates a builder with room for all that a JSON text of `text_len` bytes may need. That is
    /// `(text_len + 1) / 2` values and keys, and `text_len` bytes of strings, keys and literals.
    /// `text_len` has to be at most 4,294,967,295. Fails with `NoMemory` if memory runs out.
    pub fn new(alloc: Global, text_len: usize) -> Result<DocumentVisitor>
        requires { text_len < 2 ^ 32 }
        ensures room { IfOk result (λ v. ⟦<DocumentVisitor as JsonVisitor>⟧.state v
            ≡ record {
              cell_room = (text_len + 1) / 2;
              text_room = text_len;
              nodes = 0;
              bytes = 0;
              full = false;
            }) }
        ensures held { IfOk result (λ v. ⟦<DocumentVisitor as JsonVisitor>⟧.holds v []) }
        ensures err { OnlyNoMemory result }
    {
        DocumentVisitor::with_room(alloc, (text_len + 1) / 2, text_len)
    }

    /// Creates a builder with room for `cells` values and keys and `text_len` bytes of strings,
    /// keys and literals, each at most 4,294,967,295. Fails with `NoMemory` if memory runs out.
    ///
    /// ```
    /// use json_doc::{DocumentVisitor, JsonVisitor};
    /// let mut visitor = DocumentVisitor::with_room(alloc, 1, 0)?;
    /// assert!(rt; visitor.visit_array_start());
    /// assert!(rt; !visitor.visit_null());
    /// ```
    pub fn with_room(alloc: Global, cells: usize, text_len: usize) -> Result<DocumentVisitor>
        requires cells { cells < 2 ^ 32 }
        requires text { text_len < 2 ^ 32 }
        ensures room { IfOk result (λ v. ⟦<DocumentVisitor as JsonVisitor>⟧.state v
            ≡ record {
              cell_room = cells;
              text_room = text_len;
              nodes = 0;
              bytes = 0;
              full = false;
            }) }
        ensures held { IfOk result (λ v. ⟦<DocumentVisitor as JsonVisitor>⟧.holds v []) }
        ensures err { OnlyNoMemory result }
    {
        let room = cells;
        let cells = Vec::with_capacity(alloc, room)?;
        let text = Vec::with_capacity(alloc, text_len)?;
        Ok(DocumentVisitor {
            cells,
            text,
            parent: NOWHERE,
            count: 0,
            room,
            text_room: text_len,
            full: false,
        })
    }

    // Returns what `new` returns, in vectors that served another document.
    pub(crate) fn in_room(
        old_cells: Vec<Cell>,
        old_text: Vec<u8>,
        text_len: usize,
    ) -> Result<DocumentVisitor>
        requires { text_len < 2 ^ 32 }
        ensures room { IfOk result (λ v. visitor_state v ≡ record {
          cell_room = (text_len + 1) / 2;
          text_room = text_len;
          nodes = 0;
          bytes = 0;
          full = false;
        }) }
        ensures held { IfOk result (λ v. Holds v []) }
        ensures err { OnlyNoMemory result }
    {
        let room = (text_len + 1) / 2;
        let mut cells = old_cells;
        cells.clear();
        cells.reserve(room)?;
        let mut text = old_text;
        text.clear();
        text.reserve(text_len)?;
        Ok(DocumentVisitor {
            cells,
            text,
            parent: NOWHERE,
            count: 0,
            room,
            text_room: text_len,
            full: false,
        })
    }

    // Whether there is room for so much more. If not, nothing more is recorded.
    #[inline(always)]
    fn admit(&mut self, nodes: usize, bytes: usize) -> bool
        ensures answer { IsTrue result ↔ Fits (visitor_state self.old) nodes bytes }
        ensures full { IsTrue result ↔ (self.new.full ≡ false) }
        ensures cells { self.new.cells ≡ self.old.cells }
        ensures text { self.new.text ≡ self.old.text }
        ensures parent { self.new.parent ≡ self.old.parent }
        ensures count { self.new.count ≡ self.old.count }
        ensures room { SameRoom self.old self.new }
    {
        let nodes_left = self.room - self.cells.len();
        let bytes_left = self.text_room - self.text.len();
        if self.full || nodes > nodes_left || bytes > bytes_left {
            self.full = true;
            return false;
        }
        true
    }

    // The cell of a scalar or a key, one more in the innermost open container.
    #[inline(always)]
    fn push(&mut self, cell: Cell)
        requires { vec_len self.old.cells < self.old.room }
        ensures cells { self.new.cells.items ≡ self.old.cells.items ++ cell ∷ [] }
        ensures capacity { vec_capacity self.new.cells ≡ vec_capacity self.old.cells }
        ensures text { self.new.text ≡ self.old.text }
        ensures parent { self.new.parent ≡ self.old.parent }
        ensures count { self.new.count ≡ self.old.count + 1 }
        ensures full { self.new.full ≡ self.old.full }
        ensures room { SameRoom self.old self.new }
    {
        self.cells.push_reserved(cell);
        self.count += 1;
    }

    // Appends the literal, which is in the input from `from` on, and returns its cell.
    #[inline(always)]
    fn push_literal(&mut self, literal: &str, input: &[u8], from: usize) -> Cell
        requires room { vec_len self.old.text + length literal.now ≤ self.old.text_room }
        requires lent { IsPieceAt literal.now input.now from }
        ensures cell { result ≡ Cell.Raw (vec_len self.old.text) (length literal.now) }
        ensures text { self.new.text.items ≡ self.old.text.items ++ literal.now }
        ensures capacity { vec_capacity self.new.text ≡ vec_capacity self.old.text }
        ensures cells { self.new.cells ≡ self.old.cells }
        ensures parent { self.new.parent ≡ self.old.parent }
        ensures count { self.new.count ≡ self.old.count }
        ensures full { self.new.full ≡ self.old.full }
        ensures room { SameRoom self.old self.new }
    {
        let start = self.text.len() as u32;
        extend_reserved_blocks(&mut self.text, input, from, from + literal.len());
        Cell::Raw {
            start,
            len: literal.len() as u32,
        }
    }

    // Appends the text of a string or a key, which begins in the input at `from`, and its cell.
    #[inline(always)]
    fn push_text(&mut self, s: Span<'_>, input: &[u8], from: usize) -> Cell
        requires room { vec_len self.old.text + length s.raw.now ≤ self.old.text_room }
        requires lent { IsLentBy s input.now from }
        ensures cell { (t : List ℕ) → chars s.entry.lossy t s.entry.raw.now
            → result ≡ Cell.Str (vec_len self.old.text) (length t) }
        ensures text { (t : List ℕ) → chars s.entry.lossy t s.entry.raw.now
            → self.new.text.items ≡ self.old.text.items ++ t }
        ensures capacity { vec_capacity self.new.text ≡ vec_capacity self.old.text }
        ensures cells { self.new.cells ≡ self.old.cells }
        ensures parent { self.new.parent ≡ self.old.parent }
        ensures count { self.new.count ≡ self.old.count }
        ensures full { self.new.full ≡ self.old.full }
        ensures room { SameRoom self.old self.new }
    {
        let start = self.text.len();
        append_text(&mut self.text, s, input, from);
        Cell::Str {
            start: start as u32,
            len: (self.text.len() - start) as u32,
        }
    }

    // The cell of a container that begins, and is now the innermost one.
    #[inline(always)]
    fn open(&mut self, cell: Cell)
        requires { vec_len self.old.cells < self.old.room }
        ensures cells { self.new.cells.items ≡ self.old.cells.items ++ cell ∷ [] }
        ensures parent { self.new.parent ≡ vec_len self.old.cells }
        ensures count { self.new.count ≡ 0 }
        ensures text { self.new.text ≡ self.old.text }
        ensures full { self.new.full ≡ self.old.full }
        ensures room { SameRoom self.old self.new }
        ensures memory { TakesNoMemory self.old self.new }
    {
        self.parent = self.cells.len() as u32;
        self.cells.push_reserved(cell);
        self.count = 0;
    }

    // The cell of the innermost open container is finished. The one around it is the innermost now,
    // and has one value more.
    #[inline(always)]
    fn close(&mut self, cell: Cell)
        requires is_open { self.old.parent < length self.old.cells.items }
        requires fits { outer_count self.old.cells.items self.old.parent
            < length self.old.cells.items }
        ensures cells { self.new.cells.items
            ≡ slice_set self.old.cells.items self.old.parent cell }
        ensures parent { self.new.parent ≡ outer_place self.old.cells.items self.old.parent }
        ensures count { self.new.count ≡ outer_count self.old.cells.items self.old.parent + 1 }
        ensures text { self.new.text ≡ self.old.text }
        ensures full { self.new.full ≡ self.old.full }
        ensures room { SameRoom self.old self.new }
        ensures memory { TakesNoMemory self.old self.new }
    {
        let at = self.parent as usize;
        let (parent, count) = match self.cells[at] {
            Cell::Array { link, len } => (link, len),
            Cell::Object { link, len } => (link, len),
            _ => (0, 0),
        };
        self.cells[at] = cell;
        self.parent = parent;
        self.count = count + 1;
    }

    // The bytes of the text that a cell names.
    fn text_at(&self, at: usize) -> &[u8]
        requires { (s : List ℕ) × NamesText self.now.cells.items self.now.text.items at s }
        ensures { (s : List ℕ) → NamesText self.now.cells.items self.now.text.items at s
            → result.now ≡ s }
    {
        match self.cells[at] {
            Cell::Str { start, len } => &self.text[start as usize..start as usize + len as usize],
            _ => unreachable!(),
        }
    }

    // Whether one of the keys from a place on is the key at the last.
    fn has_key(&self, first: usize, last: usize) -> bool
        requires { (ps : Pairs) × (s : List ℕ)
            × MembersThenKey self.now.cells.items self.now.text.items first ps last s }
        ensures { (ps : Pairs) (s : List ℕ)
            → MembersThenKey self.now.cells.items self.now.text.items first ps last s
            → IsTrue result ↔ Contains (names ps) s }
    {
        let key = self.text_at(last);
        let mut at = first;
        while at < last {
            if self.text_at(at) == key {
                return true;
            }
            at = self.cells[at + 1].next_at(at + 1);
        }
        false
    }

    /// Returns whether the key that was recorded last is also an earlier key of the same object
    /// (RFC 8259, section 4). The last event has to be a recorded key. Compares it with each
    /// earlier key of the object until one is equal.
    ///
    /// ```
    /// use json_doc::{DocumentVisitor, JsonVisitor};
    /// use json_text::{Event, Parser};
    /// let mut visitor = DocumentVisitor::new(alloc, 20)?;
    /// assert!(rt; visitor.visit_object_start());
    /// let mut parser = Parser::new("{\"a\": null}");
    /// let _ = parser.next()?;
    /// if let Event::Key(name) = parser.next()? {
    ///     assert!(rt; visitor.visit_key(name) && !visitor.key_repeats());
    ///     assert!(rt; visitor.visit_null() && visitor.visit_key(name) && visitor.key_repeats());
    /// }
    /// ```
    pub fn key_repeats(&self) -> bool
        requires { (ts : List Token) × (s : List ℕ)
            × ⟦<DocumentVisitor as JsonVisitor>⟧.holds self.now (ts ++ key_token s ∷ []) }
        ensures { (ts : List Token) (s : List ℕ)
            → ⟦<DocumentVisitor as JsonVisitor>⟧.holds self.now (ts ++ key_token s ∷ [])
            → IsTrue result ↔ Contains (open_keys ts) s }
    {
        self.has_key(self.parent as usize + 1, self.cells.len() - 1)
    }

    /// Returns the document of the value whose events were recorded. They have to be all events of
    /// one value. `alloc` allocates the `Rc`. Fails with `NoMemory` if memory runs out.
    pub fn finish(self, alloc: Global) -> Result<Rc<Doc>>
        requires { (t : Tree) × ⟦<DocumentVisitor as JsonVisitor>⟧.holds self (tokens t) }
        ensures ok { IfOk result (λ d. (t : Tree)
            → ⟦<DocumentVisitor as JsonVisitor>⟧.holds self (tokens t) → IsDocOf d.value t) }
        ensures err { OnlyNoMemory result }
    {
        Ok(Rc::new(alloc, self.into_doc())?)
    }

    // Returns the document of the tree whose events were recorded, which has to be whole.
    pub(crate) fn into_doc(self) -> Doc
        requires { (t : Tree) × Holds self (tokens t) }
        ensures { (t : Tree) → Holds self (tokens t) → IsDocOf result t }
    {
        let text = unsafe { String::from_utf8_unchecked(self.text) };
        let cells = self.cells;
        Doc {
            cells,
            text,
            root: 0,
        }
    }
}

// Appends a text for which there is room, and which begins in the input at `from`.
#[inline(always)]
fn append_text(out: &mut Vec<u8>, s: Span<'_>, input: &[u8], from: usize)
    requires room { vec_len out.old + length s.raw.now ≤ vec_capacity out.old }
    requires lent { IsLentBy s input.now from }
    ensures items { (t : List ℕ) → chars s.entry.lossy t s.entry.raw.now
        → out.new.items ≡ out.old.items ++ t }
    ensures grows { vec_len out.old ≤ vec_len out.new }
    ensures len { vec_len out.new ≤ vec_len out.old + length s.entry.raw.now }
    ensures capacity { vec_capacity out.new ≡ vec_capacity out.old }
{
    match s.plain() {
        Some(text) => extend_reserved_from(out, input, from, from + text.len()),
        None => s.unescape_into(out),
    }
}

impl JsonVisitor for DocumentVisitor {
    ghost use Rattle.json_doc.specs.Recorded.{visitor_state, Holds, TakesNoMemory};

    ghost holds = { Holds };

    ghost state = { visitor_state };

    ghost keeps_memory = { TakesNoMemory };

    #[inline(always)]
    fn visit_null(&mut self) -> bool {
        if !self.admit(1, 0) {
            return false;
        }
        self.push(Cell::Null);
        true
    }

    #[inline(always)]
    fn visit_bool(&mut self, b: bool) -> bool {
        if !self.admit(1, 0) {
            return false;
        }
        self.push(Cell::Bool(b));
        true
    }

    #[inline(always)]
    fn visit_u64(&mut self, n: u64) -> bool {
        if !self.admit(1, 0) {
            return false;
        }
        self.push(Cell::Unsigned(n));
        true
    }

    #[inline(always)]
    fn visit_i64(&mut self, n: i64) -> bool {
        if !self.admit(1, 0) {
            return false;
        }
        self.push(Cell::Negative(n));
        true
    }

    #[inline(always)]
    fn visit_raw_number(&mut self, literal: &str) -> bool {
        self.take_raw_number(literal, literal.as_bytes(), 0)
    }

    #[inline(always)]
    fn visit_str(&mut self, s: Span<'_>) -> bool {
        self.take_str(s, s.raw.as_bytes(), 0)
    }

    #[inline(always)]
    fn visit_key(&mut self, s: Span<'_>) -> bool {
        self.take_key(s, s.raw.as_bytes(), 0)
    }

    #[inline(always)]
    fn visit_array_start(&mut self) -> bool {
        if !self.admit(1, 0) {
            return false;
        }
        let (link, len) = (self.parent, self.count);
        self.open(Cell::Array { link, len });
        true
    }

    #[inline(always)]
    fn visit_array_end(&mut self) -> bool {
        if self.full {
            return false;
        }
        let link = self.cells.len() as u32;
        let len = self.count;
        self.close(Cell::Array { link, len });
        true
    }

    #[inline(always)]
    fn visit_object_start(&mut self) -> bool {
        if !self.admit(1, 0) {
            return false;
        }
        let (link, len) = (self.parent, self.count);
        self.open(Cell::Object { link, len });
        true
    }

    #[inline(always)]
    fn visit_object_end(&mut self) -> bool {
        if self.full {
            return false;
        }
        let link = self.cells.len() as u32;
        let len = self.count / 2;
        self.close(Cell::Object { link, len });
        true
    }
}
