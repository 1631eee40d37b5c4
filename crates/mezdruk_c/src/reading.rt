// Reading what C holds.
ghost use Rattle.std.specs.Prelude.{◌≡◌, ◌<◌, None, IfSome, MatchOption, IsSomeAnd, length, option_map};
ghost use Rattle.std.specs.Option.{option_and_then};
ghost use Rattle.json_doc.specs.Docs.{doc_cells};
ghost use Rattle.json_doc.specs.Places.{place_after};
ghost use Rattle.json_doc.specs.Seen.{view_tree};
ghost use Rattle.json_value.specs.Doubles.{double_in};
ghost use Rattle.mezdruk_c.specs.Copying.{CopiesText, CopiesFound};
ghost use Rattle.mezdruk_c.specs.Nodes.{ShowsTree};
ghost use Rattle.mezdruk_c.specs.Payloads.{tree_in, element_tree, member_tree, member_name, IsChildIn, IsAfterIn};
ghost use Rattle.mezdruk_c.specs.Trees.{text_or_literal};

use crate::node::{Node, node_of, node_string};
use crate::payload::Payload;
use json_doc::{Cell, Doc, DocView};
use json_value::View;

/// Returns a view of the value or name at `node`, or `None` if the payload is no document or has no
/// such node.
pub fn view_in(payload: &Payload, node: u32) -> Option<DocView<'_>>
    ensures { option_map view_tree result ≡ tree_in payload.now node }
{
    match payload {
        Payload::Document(parsed) => {
            if (node as usize) < parsed.doc.cells().len() {
                Some(parsed.doc.view_at(node))
            } else {
                None
            }
        }
        _ => None,
    }
}

/// Returns what the value or name at `node` is, as C reads it, or `None` if the payload is no
/// document or has no such node.
pub fn node_in(payload: &Payload, node: u32) -> Option<Node>
    ensures { MatchOption (tree_in payload.now node) (result ≡ None)
        (λ t. IsSomeAnd result (λ n. ShowsTree n t)) }
{
    match view_in(payload, node) {
        Some(view) => Some(node_of(view)),
        None => None,
    }
}

/// Returns the node of the element at `index`, counted from 0, of the array at `node`, or `None` if
/// there is no such array or element.
pub fn element_in(payload: &Payload, node: u32, index: usize) -> Option<u32>
    ensures tree { option_and_then (tree_in payload.now) result
        ≡ element_tree (tree_in payload.now node) index }
    ensures numbered { IfSome result (IsChildIn payload.now node index) }
{
    match payload {
        Payload::Document(parsed) => {
            if (node as usize) < parsed.doc.cells().len() {
                match parsed.doc.view_at(node).element(index) {
                    Some(element) => Some(element.place()),
                    None => None,
                }
            } else {
                None
            }
        }
        _ => None,
    }
}

/// Returns the node of the value of the member at `index`, counted from 0, of the object at `node`,
/// or `None` if there is no such object or member.
pub fn member_in(payload: &Payload, node: u32, index: usize) -> Option<u32>
    ensures tree { option_and_then (tree_in payload.now) result
        ≡ member_tree (tree_in payload.now node) index }
    ensures numbered { IfSome result (IsChildIn payload.now node index) }
{
    match payload {
        Payload::Document(parsed) => {
            if (node as usize) < parsed.doc.cells().len() {
                match parsed.doc.view_at(node).pair_value(index) {
                    Some(value) => Some(value.place()),
                    None => None,
                }
            } else {
                None
            }
        }
        _ => None,
    }
}

// Returns the node after the value at a node and all that is below it.
fn after_node(doc: &Doc, node: u32) -> u32
    requires { node < length (doc_cells doc.now) }
    ensures { result ≡ place_after (doc_cells doc.now) node }
{
    match doc.cells()[node as usize] {
        Cell::Array { link, .. } => link,
        Cell::Object { link, .. } => link,
        _ => node + 1,
    }
}

/// Returns the node after the value at `node` and all its elements and members, or `None` if the
/// payload is no document or has no such node.
pub fn after_in(payload: &Payload, node: u32) -> Option<u32>
    ensures { MatchOption (tree_in payload.now node) (result ≡ None)
        (λ t. IsSomeAnd result (IsAfterIn payload.now node)) }
{
    match payload {
        Payload::Document(parsed) => {
            if (node as usize) < parsed.doc.cells().len() {
                Some(after_node(&parsed.doc, node))
            } else {
                None
            }
        }
        _ => None,
    }
}

/// Returns the double nearest to the number at `node`, or `None` if the double is not finite or
/// there is no number at this node.
pub fn real_in(payload: &Payload, node: u32) -> Option<f64>
    ensures { result ≡ option_and_then double_in (tree_in payload.now node) }
{
    match view_in(payload, node) {
        Some(view) => View::packed(view).as_f64(),
        None => None,
    }
}

/// Returns the name of the member at `index`, counted from 0, of the object at `node`, or `None` if
/// there is no such object or member.
pub fn code_name_in(payload: &Payload, node: u32, index: usize) -> Option<&str>
    ensures { option_map (λ s. s.now) result ≡ member_name (tree_in payload.now node) index }
{
    match view_in(payload, node) {
        Some(view) => view.key(index),
        None => None,
    }
}

/// Returns the content of the string at `node`, or the literal of a number there that is no integer
/// of 64 bits. Returns `None` for any other node, and if there is no such node.
pub fn text_slice(payload: &Payload, node: u32) -> Option<&str>
    ensures { option_map (λ s. s.now) result
        ≡ option_and_then text_or_literal (tree_in payload.now node) }
{
    match view_in(payload, node) {
        Some(view) => node_string(view),
        None => None,
    }
}

// Copies a text to the beginning of the bytes if there is room, and returns its length.
fn copy_text(text: &str, bytes: &mut [u8]) -> usize
    ensures { CopiesText bytes.old bytes.new result text.now }
{
    let length = text.len();
    if length <= bytes.len() {
        bytes[..length].copy_from_slice(text.as_bytes());
    }
    length
}

/// Copies the text to the beginning of `bytes` if there is room, and returns its length in bytes in
/// any case. Returns `None`, and leaves `bytes` unchanged, if `text` is `None`.
pub fn copy_found(text: Option<&str>, bytes: &mut [u8]) -> Option<usize>
    ensures { CopiesFound bytes.old bytes.new result (option_map (λ s. s.now) text.entry) }
{
    match text {
        Some(text) => Some(copy_text(text, bytes)),
        None => None,
    }
}
