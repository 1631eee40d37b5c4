// A parsed document.
ghost use Rattle.std.specs.Prelude.{◌≡◌, None, Some, IfOk};

use crate::owner::Owner;
use crate::parsed::Parsed;
use crate::payload::Payload;
use json_doc::Doc;
use json_io::Result;
use std::alloc::Global;
use std::rc::Rc;

/// A parsed document. Each value and each name in it is a node with a number. Memory of zeros is an
/// empty document, which has no nodes.
#[repr(C)]
#[derive(Drop)]
pub struct Document {
    /// The number of the node of the whole value.
    pub root: u32,
    pub(crate) owner: Owner,
}

impl Document {
    ghost use Rattle.json_doc.specs.Docs.{doc_root};
    ghost use Rattle.json_io.specs.Errors.{OnlyNoMemory};
    ghost use Rattle.mezdruk_c.specs.Owned.{owned_payload};
    ghost use Rattle.mezdruk_c.specs.Payloads.{document_owned};

    /// Creates an empty document, which has no nodes. Allocates nothing.
    pub fn empty(alloc: Global) -> Document
        ensures { owned_payload result.owner ≡ None }
    {
        Document {
            root: 0,
            owner: Owner::empty(alloc),
        }
    }

    /// Creates a document that owns `doc`. Fails with `NoMemory` if memory runs out.
    pub fn of(alloc: Global, doc: Rc<Doc>) -> Result<Document>
        ensures ok { IfOk result (λ d. document_owned (owned_payload d.owner) ≡ Some doc.value) }
        ensures root { IfOk result (λ d. d.root ≡ doc_root doc.value) }
        ensures only { OnlyNoMemory result }
    {
        let root = doc.root();
        match Box::new(alloc, Payload::Document(Parsed::of(doc))) {
            Ok(payload) => Ok(Document {
                root,
                owner: Owner::of(payload),
            }),
            Err(error) => Err(error.into()),
        }
    }
}
