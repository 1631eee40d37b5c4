// A parsed document, and where its texts are.
ghost use Rattle.std.specs.Prelude.{◌≡◌, ◌<◌, length, slice_index_or};
ghost use Rattle.json_doc.specs.Docs.{doc_cells};
ghost use Rattle.json_doc.specs.declared.cell.Cell.TheVariants.{Null as null_cell};
ghost use Rattle.mezdruk_c.specs.Placed.{placed_once};
ghost use denote.RawPtr.{InBlock};

use crate::address::address;
use json_doc::{Cell, Doc};
use std::rc::Rc;

/// A parsed document, and the address of its text. The text stays at that address as long as this
/// holds the document.
#[derive(Drop)]
pub struct Parsed {
    pub(crate) doc: Rc<Doc>,
    texts: *const u8,
    ghost placed: { InBlock texts } by { placed_once texts },
}

/// Bytes that a document lends: `length` bytes at the address `bytes`. They stay there as long as
/// the document is held.
#[derive(Clone, Copy)]
pub struct BorrowedBytes {
    /// The address of the first byte.
    pub bytes: *const u8,
    /// The number of bytes.
    pub length: usize,
}

// Returns the cell of a node.
fn node_cell(doc: &Doc, node: u32) -> Cell
    requires { node < length (doc_cells doc.now) }
    ensures { result ≡ slice_index_or (doc_cells doc.now) node null_cell }
{
    doc.cells()[node as usize]
}

impl Parsed {
    ghost use Rattle.std.specs.Prelude.{MatchOption, None, IsSomeAnd};
    ghost use Rattle.mezdruk_c.specs.Lending.{LendsText};
    ghost use Rattle.mezdruk_c.specs.Payloads.{tree_at_node, node_text, member_name};
    ghost use denote.RawPtr.{◌+ₚ◌};

    /// Creates a holder of `doc`.
    pub fn of(doc: Rc<Doc>) -> Parsed
        ensures { result.doc ≡ doc }
    {
        let texts = address(doc.text().as_bytes());
        Parsed { doc, texts }
    }

    // Lends a range of the texts.
    fn range(&self, start: u32, len: u32) -> BorrowedBytes
        ensures at { result.bytes ≡ self.now.texts +ₚ start }
        ensures length { result.length ≡ len }
    {
        BorrowedBytes {
            bytes: unsafe { self.texts.byte_add(start as usize) },
            length: len as usize,
        }
    }

    /// Returns the address and the length of the content of the string or name at `node`, or of the
    /// literal of a number that is no integer of 64 bits. They are valid as long as `self` holds
    /// the document. Returns `None` if `node` is any other value or is not in the document.
    pub fn lend(&self, node: u32) -> Option<BorrowedBytes>
        ensures { MatchOption (node_text self.now.doc.value node) (result ≡ None)
            (λ s. IsSomeAnd result (λ l. LendsText self.now s l.bytes l.length)) }
    {
        if node as usize >= self.doc.cells().len() {
            return None;
        }
        match node_cell(&self.doc, node) {
            Cell::Str { start, len } => Some(self.range(start, len)),
            Cell::Raw { start, len } => Some(self.range(start, len)),
            _ => None,
        }
    }

    /// Returns the address and the length of the name of the member at `index`, counted from 0, of
    /// the object at `node`. They are valid as long as `self` holds the document. Returns `None` if
    /// there is no such object or member.
    pub fn lend_name(&self, node: u32, index: usize) -> Option<BorrowedBytes>
        ensures { MatchOption (member_name (tree_at_node self.now.doc.value node) index)
            (result ≡ None)
            (λ s. IsSomeAnd result (λ l. LendsText self.now s l.bytes l.length)) }
    {
        if node as usize >= self.doc.cells().len() {
            return None;
        }
        match self.doc.view_at(node).key_view(index) {
            Some(name) => self.lend(name.place()),
            None => None,
        }
    }
}
