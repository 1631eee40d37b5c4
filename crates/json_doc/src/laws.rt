//! Laws of documents and of the trees that they represent. No program needs to call them.
ghost use Rattle.json_doc.specs.Laws.{OneTreeOfDoc, TreeAtRoot, TreesAreProper, ReadingBegins, EventsFitRoom};

use crate::doc::Doc;

/// Proves that a document represents at most one tree, that is, one JSON value.
pub fn document_has_one_tree()
    ensures { OneTreeOfDoc }
{}

/// Proves that the tree that a document represents is the one at its root.
pub fn tree_at_root()
    ensures { TreeAtRoot }
{}

/// Proves that the tree at each position of a document is proper: its literals are numbers (RFC
/// 8259, section 6), and its strings and keys are UTF-8.
pub fn trees_are_proper(_doc: &Doc)
    ensures { TreesAreProper _doc.now }
{}

/// Proves that the tokens that are read of a prefix of a JSON text begin the tokens of some tree.
pub fn reading_begins()
    ensures { ReadingBegins }
{}

/// Proves that a [`DocumentVisitor`](crate::DocumentVisitor) with the room that a JSON text may
/// need records each event of that text.
pub fn builder_has_room()
    ensures { EventsFitRoom }
{}
