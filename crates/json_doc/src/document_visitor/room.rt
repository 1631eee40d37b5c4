// Room that grows.
ghost use Rattle.std.specs.Prelude.{◌≡◌, ◌+◌, ◌≤◌, List, OnOk};
ghost use Rattle.json_grammar.specs.Tree.{Token};
ghost use Rattle.json_io.specs.Errors.{OnlyNoMemory};
ghost use Rattle.json_doc.specs.Recorded.{visitor_state, Holds};

use super::DocumentVisitor;
use json_io::{Error, ErrorCode, Place, Result};

/// The most nodes and keys, and the most bytes of text, of a document.
const MOST: usize = 4_294_967_295;

impl DocumentVisitor {
    /// Makes room for one more node or key and `bytes` more bytes of text. Fails with `NoMemory` if
    /// memory runs out, or if the document would have more than 4,294,967,295 of either.
    pub(crate) fn make_room(&mut self, bytes: usize) -> Result<()>
        ensures nodes { OnOk result ((visitor_state self.new).nodes + 1
            ≤ (visitor_state self.new).cell_room) }
        ensures bytes { OnOk result ((visitor_state self.new).bytes + bytes
            ≤ (visitor_state self.new).text_room) }
        ensures held { (ts : List Token) → Holds self.old ts → Holds self.new ts }
        ensures full { self.new.full ≡ self.old.full }
        ensures err { OnlyNoMemory result }
    {
        if self.cells.len() == MOST || bytes > MOST - self.text.len() {
            return Err(Error {
                code: ErrorCode::NoMemory,
                place: Place::None,
            });
        }
        if self.cells.len() == self.room {
            self.cells.reserve(1)?;
            self.room = self.cells.capacity().min(MOST);
        }
        if bytes > self.text_room - self.text.len() {
            self.text.reserve(bytes)?;
            self.text_room = self.text.capacity().min(MOST);
        }
        Ok(())
    }
}
