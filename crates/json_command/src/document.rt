// The document of a source's text.
ghost use Rattle.std.specs.Prelude.{IfOk, IfErr};
ghost use Rattle.json_text.specs.Ruled.{rules_of};
ghost use Rattle.json_io.specs.Transfer.{TakesOneBeyond};
ghost use Rattle.json_doc.specs.Docs.{doc_root, doc_tree};
ghost use Rattle.json_command.specs.Input.{max_bytes};
ghost use Rattle.json_command.specs.Reading.{ReadsInput, InputFails, ReturnsReadError};

use json_doc::{Doc, read_document_with};
use json_io::{Result, Source, check_utf8, read_all};
use json_text::Rules;
use std::alloc::Global;
use std::rc::Rc;

/// The greatest number of bytes of an input.
pub(crate) const MAX_BYTES: usize = 4_294_967_295;

/// Reads all that the source has left as one JSON text (RFC 8259), and returns its document.
/// `rules` say how many levels the text may have, and whether names may repeat in an object. Fails
/// with `Io` at the place `Reading` if the source fails, and with `TooLarge` if it has more than
/// 4,294,967,295 bytes. Fails with `InvalidUTF8` or the fault of the text by the rules, at its
/// offset, and with `NoMemory` if memory runs out.
pub fn read_document_from<S: Source>(alloc: Global, source: &mut S, rules: Rules) -> Result<Rc<Doc>>
    ensures read { IfOk result (λ d. ReadsInput (rules_of rules)
        (S.state source.old) (S.state source.new) (doc_tree d.value (doc_root d.value))) }
    ensures failed { IfErr result (λ e. InputFails (rules_of rules)
        (S.state source.old) (S.state source.new) e.code e.place) }
    ensures taken { TakesOneBeyond max_bytes (S.state source.old) (S.state source.new) }
    ensures read_error { ReturnsReadError (S.state source.old) (S.state source.new) result }
{
    let bytes = read_all(alloc, source, MAX_BYTES)?;
    let text = check_utf8(&bytes)?;
    read_document_with(alloc, text, rules)
}
