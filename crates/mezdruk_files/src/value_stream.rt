// The values of a document, one after another.
ghost use Rattle.std.specs.Prelude.{◌≡◌, ◌≤◌, length, IfOk, IfErr, IsUtf8};
ghost use Rattle.std.specs.Str.{IsCharBoundary};
ghost use Rattle.json_doc.specs.Docs.{doc_root, doc_tree};
ghost use Rattle.json_command.specs.Input.{max_bytes};
ghost use Rattle.mezdruk_files.specs.Parts.{part_view, value_part as spec_value_part};
ghost use Rattle.mezdruk_files.specs.Streams.{ReadsAt, TextFault, ValueFails};

use crate::document::MAX_BYTES;
use crate::part::{DocumentPart, Scope, whole_part};
use json_doc::{Doc, read_front};
use json_io::{Error, ErrorCode, Place, Result, check_utf8};
use json_text::Parser;
use std::alloc::Global;
use std::rc::Rc;

/// An offset in the text of a document, and how many values precede it.
#[derive(Clone, Copy)]
pub(crate) struct StreamPlace<'a> {
    /// The name of the document.
    pub(crate) name: &'a str,
    /// The text of the document.
    pub(crate) text: &'a str,
    /// The offset in bytes.
    pub(crate) offset: usize,
    /// The number of values before the offset.
    pub(crate) number: usize,
}

/// Returns the bytes as a string. Fails with `TooLarge` if there are more than 4,294,967,295, and
/// with `InvalidUTF8` at the first byte that is not UTF-8.
pub(crate) fn document_text(bytes: &[u8]) -> Result<&str>
    ensures ok { IfOk result (λ text. text.now ≡ bytes.now) }
    ensures utf8 { IfOk result (λ text. IsUtf8 bytes.now) }
    ensures few { IfOk result (λ text. length bytes.now ≤ max_bytes) }
    ensures err { IfErr result (λ e. TextFault bytes.now e.code e.place) }
{
    if bytes.len() > MAX_BYTES {
        return Err(Error {
            code: ErrorCode::TooLarge,
            place: Place::None,
        });
    }
    check_utf8(bytes)
}

/// Reads the value at an offset by the usual rules, and returns its document and the offset after
/// it. Fails with the error of the grammar at its offset if no valid value is there, and with
/// `NoMemory` if memory runs out.
pub(crate) fn read_value_at(alloc: Global, text: &str, offset: usize) -> Result<(Rc<Doc>, usize)>
    requires { IsCharBoundary text.now offset }
    ensures ok { IfOk result (λ r. ReadsAt text.now offset
        (doc_tree r.0.value (doc_root r.0.value)) r.1) }
    ensures boundary { IfOk result (λ r. IsCharBoundary text.now r.1) }
    ensures err { IfErr result (λ e. ValueFails text.now offset e.code e.place) }
{
    let mut parser = Parser::at(text, offset);
    match read_front(alloc, &mut parser) {
        Ok(doc) => Ok((doc, parser.index())),
        Err(error) => Err(error),
    }
}

/// Returns the value at an offset as a part of its document.
pub(crate) fn value_part(place: StreamPlace<'_>) -> DocumentPart<'_>
    ensures { part_view result
        ≡ spec_value_part place.entry.name.now place.entry.text.now place.entry.number }
{
    DocumentPart {
        scope: Scope::Value(place.number),
        ..whole_part(place.name, place.text.as_bytes())
    }
}
