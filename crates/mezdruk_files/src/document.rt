// Documents in memory.
ghost use Rattle.std.specs.Prelude.{◌≡◌, Some, IfOk, IfErr, string_bytes};
ghost use Rattle.json_doc.specs.Docs.{doc_root, doc_tree};
ghost use Rattle.json_command.specs.Input.{IsInput};
ghost use Rattle.mezdruk_files.specs.Documents.{document_bytes};
ghost use Rattle.mezdruk_files.specs.Running.{ReadingDocumentFails};
ghost use Rattle.json_io.specs.Errors.{OnlyNoMemory};
ghost use Rattle.json_text.specs.Ruled.{rules_of};
ghost use Rattle.json_value.specs.Denotes.{tree_of};

use json_doc::{Doc, read_document_with};
use json_io::{Error, ErrorCode, Place, Result, check_utf8};
use json_text::Rules;
use json_value::Value;
use std::alloc::Global;
use std::rc::Rc;

/// The greatest number of bytes of a document that is read.
pub(crate) const MAX_BYTES: usize = 4_294_967_295;

/// A document in memory: its bytes, and the name by which reports of errors call it.
///
/// ```
/// use mezdruk_files::NamedDocument;
/// let document = NamedDocument::new(alloc, "a.json", b"[1]")?;
/// assert_eq!(rt; document.name.as_str(), "a.json");
/// ```
#[derive(Drop)]
pub struct NamedDocument {
    /// The name by which reports of errors call the document, such as that of its file.
    pub name: String,
    /// The bytes of the document; `None` if they could not be read.
    pub bytes: Option<Vec<u8>>,
}

impl NamedDocument {
    /// Creates a document by copying its name and its bytes. Fails with `NoMemory` if memory runs
    /// out.
    pub fn new(alloc: Global, name: &str, bytes: &[u8]) -> Result<NamedDocument>
        ensures name { IfOk result (λ d. string_bytes d.name ≡ name.now) }
        ensures bytes { IfOk result (λ d. document_bytes d ≡ Some bytes.now) }
        ensures only { OnlyNoMemory result }
    {
        Ok(NamedDocument {
            name: String::from_str(alloc, name)?,
            bytes: Some(bytes.to_vec(alloc)?),
        })
    }
}

/// Reads the bytes as a JSON text (RFC 8259) by the rules and returns its document. Fails with
/// `TooLarge` if there are more than 4,294,967,295 bytes, with `InvalidUTF8` or an error of the
/// grammar or the rules at its offset, and with `NoMemory` if memory runs out.
pub(crate) fn read_bytes(alloc: Global, bytes: &[u8], rules: Rules) -> Result<Rc<Doc>>
    ensures ok { IfOk result (λ d. IsInput (rules_of rules) bytes.now
        (doc_tree d.value (doc_root d.value))) }
    ensures err { IfErr result
        (λ e. ReadingDocumentFails (rules_of rules) bytes.now e.code e.place) }
{
    if bytes.len() > MAX_BYTES {
        return Err(Error {
            code: ErrorCode::TooLarge,
            place: Place::None,
        });
    }
    match check_utf8(bytes) {
        Ok(text) => read_document_with(alloc, text, rules),
        Err(error) => Err(error),
    }
}

/// Reads the value of the document of bytes by the rules (RFC 8259). Fails with `TooLarge` past
/// 4,294,967,295 bytes, `InvalidUTF8` and each fault of the grammar by the rules at its offset, and
/// `NoMemory` if memory runs out.
///
/// ```
/// use mezdruk_files::read_value;
/// use json_text::Rules;
/// let value = read_value(alloc, b"[1, 2]", Rules::usual())?;
/// assert_eq!(rt; value.to_string(alloc)?.as_str(), "[1,2]");
/// ```
pub fn read_value(alloc: Global, bytes: &[u8], rules: Rules) -> Result<Value>
    ensures ok { IfOk result (λ v. IsInput (rules_of rules) bytes.now (tree_of v)) }
    ensures err { IfErr result
        (λ e. ReadingDocumentFails (rules_of rules) bytes.now e.code e.place) }
{
    match read_bytes(alloc, bytes, rules) {
        Ok(doc) => Value::from_place(alloc, &doc, doc.root()),
        Err(error) => Err(error),
    }
}
