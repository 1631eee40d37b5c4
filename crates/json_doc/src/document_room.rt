// Room that serves one document after another.
ghost use Rattle.std.specs.Prelude.{◌≡◌, ◌+◌, ◌/◌, ◌<◌, ◌^◌, [], length, false, IfOk};
ghost use Rattle.json_grammar.specs.Tree.{Tree};
ghost use Rattle.json_grammar.specs.Grammar.{is_text};
ghost use Rattle.json_grammar.specs.Rules.{fits};
ghost use Rattle.json_io.specs.Errors.{OnlyNoMemory};
ghost use Rattle.json_text.specs.Ruled.{rules_of};
ghost use Rattle.json_doc.specs.Docs.{IsDocOf};
ghost use Rattle.json_doc.specs.Reading.{FailsByRules};
ghost use Rattle.json_doc.specs.Recorded.{visitor_state, Holds};

use crate::cell::Cell;
use crate::doc::Doc;
use crate::document_visitor::DocumentVisitor;
use crate::reader::read_by;
use json_io::Result;
use json_text::Rules;
use std::alloc::Global;
use std::mem;

/// Memory for documents that are read one after another: each document is read into the memory of
/// the one before. So texts of one size allocate for the first of them alone.
///
/// ```
/// use json_doc::DocumentRoom;
/// use json_text::Rules;
/// let mut room = DocumentRoom::new(alloc);
/// assert_eq!(rt; room.read("[1, 2]", Rules::usual())?.view().len(), 2);
/// assert_eq!(rt; room.read("[\"x\"]", Rules::usual())?.text(), "x");
/// ```
#[derive(Drop)]
pub struct DocumentRoom {
    alloc: Global,
    doc: Option<Doc>,
}

impl DocumentRoom {
    /// Creates a room that has no document and no memory yet; [`DocumentRoom::read`] allocates by
    /// `alloc`.
    pub fn new(alloc: Global) -> DocumentRoom {
        DocumentRoom { alloc, doc: None }
    }

    /// Reads a JSON text of at most 4,294,967,295 bytes into a document, in place of the document
    /// before, and lends it until the room is used again. `rules` say how many levels the text may
    /// have, and whether names may repeat in an object. Fails with the first error of the text by
    /// the rules, at its place, as [`read_document_with`](crate::read_document_with) does, and with
    /// `NoMemory` if memory runs out. Then the room has no document, and its memory is freed.
    ///
    /// ```
    /// use json_doc::DocumentRoom;
    /// use json_text::{ErrorCode, Rules};
    /// let mut room = DocumentRoom::new(alloc);
    /// let refused = room.read("[1, x]", Rules::usual()).err().ok_or("it was read")?;
    /// assert_eq!(rt; (refused.code, refused.offset()), (ErrorCode::InvalidJsonValue, Some(4)));
    /// ```
    pub fn read(&mut self, text: &str, rules: Rules) -> Result<&Doc>
        requires { length text.now < 2 ^ 32 }
        ensures ok { IfOk result (λ d. (t : Tree) × is_text false t text.now
            × fits t (rules_of rules) × IsDocOf d.now t) }
        ensures err { FailsByRules (rules_of rules) text.now result }
    {
        let visitor = self.builder(text.len())?;
        let doc = read_by(visitor, self.alloc, text, rules)?;
        self.doc = Some(doc);
        match &self.doc {
            Some(doc) => Ok(doc),
            None => unreachable!(),
        }
    }

    // Returns a builder in the room, which is empty then.
    fn builder(&mut self, text_len: usize) -> Result<DocumentVisitor>
        requires { text_len < 2 ^ 32 }
        ensures room { IfOk result (λ v. visitor_state v ≡ record {
          cell_room = (text_len + 1) / 2;
          text_room = text_len;
          nodes = 0;
          bytes = 0;
          full = false;
        }) }
        ensures held { IfOk result (λ v. Holds v []) }
        ensures err { OnlyNoMemory result }
    {
        match mem::replace(&mut self.doc, None) {
            Some(doc) => DocumentVisitor::in_room(doc.cells, doc.text.into_bytes(), text_len),
            None => DocumentVisitor::new(self.alloc, text_len),
        }
    }
}
