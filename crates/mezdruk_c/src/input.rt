// Reading the caller's text.
ghost use Rattle.std.specs.Prelude.{IfOk, IfErr};
ghost use Rattle.json_doc.specs.Docs.{doc_root, doc_tree};
ghost use Rattle.json_text.specs.Ruled.{rules_of};
ghost use Rattle.json_command.specs.Input.{IsInput};
ghost use Rattle.mezdruk_c.specs.Texts.{ReadingTextFails};

use json_doc::{Doc, read_document_with};
use json_io::{Error, ErrorCode, Place, Result, check_utf8};
use json_text::Rules;
use std::alloc::Global;
use std::rc::Rc;

/// The greatest number of bytes that are read.
const MAX_BYTES: usize = 4_294_967_295;

/// Reads a JSON text (RFC 8259) by the rules and returns its document. Fails with `TooLarge` if the
/// text has more than 4,294,967,295 bytes, and with `NoMemory` if memory runs out. Fails with
/// `InvalidUTF8` or an error of the grammar or the rules at its offset if the text is not valid.
pub fn read_input(alloc: Global, text: &[u8], rules: Rules) -> Result<Rc<Doc>>
    ensures ok { IfOk result (λ d. IsInput (rules_of rules) text.now
        (doc_tree d.value (doc_root d.value))) }
    ensures failed { IfErr result (λ e. ReadingTextFails (rules_of rules) text.now e.code e.place) }
{
    if text.len() > MAX_BYTES {
        return Err(Error {
            code: ErrorCode::TooLarge,
            place: Place::None,
        });
    }
    let text = check_utf8(text)?;
    read_document_with(alloc, text, rules)
}
