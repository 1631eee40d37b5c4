// The text of a node of a document.
ghost use Rattle.std.specs.Prelude.{◌≡◌, ◌≢◌, ◌<◌, length, IfOk, IfErr, OnOk};
ghost use Rattle.json_doc.specs.Docs.{doc_cells, doc_tree};
ghost use Rattle.json_layout.specs.Styles.{printed};
ghost use Rattle.json_io.specs.Errors.{no_memory};
ghost use Rattle.mezdruk_c.specs.Asked.{AreOptions};
ghost use Rattle.mezdruk_c.specs.Buffers.{buffer_bytes};
ghost use Rattle.mezdruk_c.specs.Documents.{document_node_tree, IsSameDocument};
ghost use Rattle.mezdruk_c.specs.Faults.{CallFailsFor};
ghost use Rattle.mezdruk_c.specs.Payloads.{tree_in};
ghost use Rattle.mezdruk_c.specs.PrintedNodes.{IsPrintedTree, FailsToPrint, PrintsNode, PrintFails};

use crate::buffer::ResultBuffer;
use crate::document::Document;
use crate::failure::Failure;
use crate::fault::{FaultReport, give};
use crate::options::Options;
use crate::owner::Owner;
use crate::payload::Payload;
use crate::values::value_to_text;
use json_doc::Doc;
use json_io::{Error, ErrorCode, Place};
use json_layout::Style;
use json_value::Value;
use std::alloc::Global;
use std::rc::Rc;

/// The failure of a call on a node that the document does not have.
const NO_NODE: Failure = Failure::Text(Error {
    code: ErrorCode::NotFound,
    place: Place::None,
});

// Returns the text of the value at a place of a document.
fn print_place(
    alloc: Global,
    doc: &Rc<Doc>,
    at: u32,
    style: Style<'_>,
) -> Result<ResultBuffer, Failure>
    requires { at < length (doc_cells doc.now.value) }
    ensures done { IfOk result (λ b. buffer_bytes b
        ≡ printed style.entry (doc_tree doc.now.value at)) }
    ensures failed { IfErr result (λ f. f ≡ Failure.Text no_memory) }
{
    match Value::from_place(alloc, doc, at) {
        Ok(value) => value_to_text(alloc, &value, style),
        Err(error) => Err(Failure::Text(error)),
    }
}

// Returns the text of the value at a node of what C holds.
fn print_node(
    alloc: Global,
    payload: &Payload,
    node: u32,
    style: Style<'_>,
) -> Result<ResultBuffer, Failure>
    ensures done { IfOk result (λ b. IsPrintedTree style.entry (tree_in payload.now node)
        (buffer_bytes b)) }
    ensures failed { IfErr result (FailsToPrint (tree_in payload.now node)) }
{
    match payload {
        Payload::Document(parsed) => {
            if (node as usize) < parsed.doc.cells().len() {
                print_place(alloc, &parsed.doc, node, style)
            } else {
                Err(NO_NODE)
            }
        }
        _ => Err(NO_NODE),
    }
}

// Returns the text of the value at a node of a document.
fn print(
    alloc: Global,
    document: &mut Document,
    node: u32,
    style: Style<'_>,
) -> Result<ResultBuffer, Failure>
    ensures done { IfOk result
        (λ b. IsPrintedTree style.entry (document_node_tree document.old node)
        (buffer_bytes b)) }
    ensures failed { IfErr result (FailsToPrint (document_node_tree document.old node)) }
    ensures kept { IsSameDocument document.old document.new }
{
    let Some(payload) = document.owner.take(alloc) else {
        return Err(NO_NODE);
    };
    let text = print_node(alloc, &payload, node, style);
    document.owner = Owner::of(payload);
    text
}

// Returns the text of the value at a node of a document, by the options.
fn print_by(
    alloc: Global,
    document: &mut Document,
    node: u32,
    options: &Options,
) -> Result<ResultBuffer, Failure>
    ensures allowed { OnOk result (AreOptions options.now) }
    ensures done { IfOk result (λ b. PrintsNode options.now (document_node_tree document.old node)
        (buffer_bytes b)) }
    ensures failed { IfErr result (PrintFails options.now (document_node_tree document.old node)) }
    ensures kept { IsSameDocument document.old document.new }
{
    match options.asked() {
        Some(asked) => print(alloc, document, node, asked.style),
        None => Err(Failure::Options),
    }
}

/// Writes the text of the value at `node`, the number of a node of the document, to `output`, in
/// the style of the options, and returns 0. The document stays the same.
///
/// On an error it writes the error to `fault`, leaves `output` unchanged, and returns the status: 2
/// for options that are not valid, 3 if the document has no such node, and 6 if memory ran out.
#[unsafe(no_mangle)]
pub extern "C" fn mezdruk_print(
    alloc: Global,
    document: &mut Document,
    node: u32,
    options: &Options,
    output: &mut ResultBuffer,
    fault: &mut FaultReport,
) -> u8
    ensures allowed { result ≡ 0 → AreOptions options.now }
    ensures done { result ≡ 0 → PrintsNode options.now (document_node_tree document.old node)
        (buffer_bytes output.new) }
    ensures failed { result ≢ 0
        → CallFailsFor (PrintFails options.now
        (document_node_tree document.old node)) result fault.new }
    ensures kept { IsSameDocument document.old document.new }
    ensures stays { result ≢ 0 → output.new ≡ output.old }
{
    give(print_by(alloc, document, node, options), output, fault)
}
