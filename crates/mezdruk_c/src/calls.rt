// The calls that read a document.
ghost use Rattle.std.specs.Prelude.{◌≡◌, ◌↔◌, None, Some, IfSome, IsSome, IsTrue};
ghost use Rattle.std.specs.Bool.{OnTrue, OnFalse};
ghost use Rattle.mezdruk_c.specs.Copying.{CopiesText};
ghost use Rattle.mezdruk_c.specs.Documents.{document_node_tree, document_node_text, name_at, real_at, IsSameDocument, IsChildNode, IsAfterNode};
ghost use Rattle.mezdruk_c.specs.Nodes.{ShowsTree};
ghost use Rattle.mezdruk_c.specs.Payloads.{element_tree, member_tree};

use crate::document::Document;
use crate::node::Node;
use crate::owner::Owner;
use crate::reading::{
    after_in, code_name_in, copy_found, element_in, member_in, node_in, real_in, text_slice,
};
use std::alloc::Global;

/// Writes what is at `node`, the number of a value or a name in the document, to `shown`. Returns
/// false, and leaves `shown` unchanged, if the document is empty or has no such node. The document
/// stays the same.
#[unsafe(no_mangle)]
pub extern "C" fn mezdruk_read(
    alloc: Global,
    document: &mut Document,
    node: u32,
    shown: &mut Node,
) -> bool
    ensures known { IsTrue result ↔ IsSome (document_node_tree document.old node) }
    ensures shown { OnTrue result
        (IfSome (document_node_tree document.old node) (ShowsTree shown.new)) }
    ensures untouched { OnFalse result (shown.new ≡ shown.old) }
    ensures kept { IsSameDocument document.old document.new }
{
    let Some(payload) = document.owner.take(alloc) else {
        return false;
    };
    let found = node_in(&payload, node);
    document.owner = Owner::of(payload);
    match found {
        Some(n) => {
            *shown = n;
            true
        }
        None => false,
    }
}

/// Writes the node of the element at `index` of an array, counted from 0, to `element`. `node` is
/// the number of the array's node. Returns false, and leaves `element` unchanged, if `node` is no
/// array of the document or has no such element. The document stays the same.
#[unsafe(no_mangle)]
pub extern "C" fn mezdruk_element(
    alloc: Global,
    document: &mut Document,
    node: u32,
    index: usize,
    element: &mut u32,
) -> bool
    ensures found { OnTrue result (document_node_tree document.old element.new
        ≡ element_tree (document_node_tree document.old node) index) }
    ensures numbered { OnTrue result (IsChildNode document.old node index element.new) }
    ensures lacks { OnFalse result
        (element_tree (document_node_tree document.old node) index ≡ None) }
    ensures untouched { OnFalse result (element.new ≡ element.old) }
    ensures kept { IsSameDocument document.old document.new }
{
    let Some(payload) = document.owner.take(alloc) else {
        return false;
    };
    let found = element_in(&payload, node, index);
    document.owner = Owner::of(payload);
    match found {
        Some(n) => {
            *element = n;
            true
        }
        None => false,
    }
}

/// Writes the node of the value of the member at `index` of an object, counted from 0, to `value`.
/// `node` is the number of the object's node. Returns false, and leaves `value` unchanged, if
/// `node` is no object of the document or has no such member. The document stays the same.
#[unsafe(no_mangle)]
pub extern "C" fn mezdruk_member(
    alloc: Global,
    document: &mut Document,
    node: u32,
    index: usize,
    value: &mut u32,
) -> bool
    ensures found { OnTrue result (document_node_tree document.old value.new
        ≡ member_tree (document_node_tree document.old node) index) }
    ensures numbered { OnTrue result (IsChildNode document.old node index value.new) }
    ensures lacks { OnFalse result (member_tree (document_node_tree document.old node) index ≡ None) }
    ensures untouched { OnFalse result (value.new ≡ value.old) }
    ensures kept { IsSameDocument document.old document.new }
{
    let Some(payload) = document.owner.take(alloc) else {
        return false;
    };
    let found = member_in(&payload, node, index);
    document.owner = Owner::of(payload);
    match found {
        Some(n) => {
            *value = n;
            true
        }
        None => false,
    }
}

/// Copies the content of a string or a name, or the literal of a number that is no integer of 64
/// bits, to the beginning of `bytes`, and writes its number of bytes to `length`. `node` is the
/// number of its node.
///
/// If `bytes` is shorter than the text, nothing is copied, but `length` is written. Returns false,
/// and leaves `bytes` and `length` unchanged, if there is no such text. The document stays the
/// same.
#[unsafe(no_mangle)]
pub extern "C" fn mezdruk_text(
    alloc: Global,
    document: &mut Document,
    node: u32,
    bytes: &mut [u8],
    length: &mut usize,
) -> bool
    ensures known { IsTrue result ↔ IsSome (document_node_text document.old node) }
    ensures copied { OnTrue result (IfSome (document_node_text document.old node)
        (CopiesText bytes.old bytes.new length.new)) }
    ensures untouched { OnFalse result ((bytes.new ≡ bytes.old) × (length.new ≡ length.old)) }
    ensures kept { IsSameDocument document.old document.new }
{
    let Some(payload) = document.owner.take(alloc) else {
        return false;
    };
    let copied = copy_found(text_slice(&payload, node), bytes);
    document.owner = Owner::of(payload);
    match copied {
        Some(n) => {
            *length = n;
            true
        }
        None => false,
    }
}

/// Copies the name of the member at `index` of an object, counted from 0, to the beginning of
/// `bytes`, and writes its number of bytes to `length`. `node` is the number of the object's node.
///
/// If `bytes` is shorter than the name, nothing is copied, but `length` is written. Returns false,
/// and leaves `bytes` and `length` unchanged, if there is no such member. The document stays the
/// same.
#[unsafe(no_mangle)]
pub extern "C" fn mezdruk_name(
    alloc: Global,
    document: &mut Document,
    node: u32,
    index: usize,
    bytes: &mut [u8],
    length: &mut usize,
) -> bool
    ensures known { IsTrue result ↔ IsSome (name_at document.old node index) }
    ensures copied { OnTrue result (IfSome (name_at document.old node index)
        (CopiesText bytes.old bytes.new length.new)) }
    ensures untouched { OnFalse result ((bytes.new ≡ bytes.old) × (length.new ≡ length.old)) }
    ensures kept { IsSameDocument document.old document.new }
{
    let Some(payload) = document.owner.take(alloc) else {
        return false;
    };
    let copied = copy_found(code_name_in(&payload, node, index), bytes);
    document.owner = Owner::of(payload);
    match copied {
        Some(n) => {
            *length = n;
            true
        }
        None => false,
    }
}

/// Writes the node that follows the value at `node`, with all its elements and members, to `after`.
/// It is the next element after an element, and the next member's name after a member's value, if
/// there is one. Returns false, and leaves `after` unchanged, if the document has no such node. The
/// document stays the same.
#[unsafe(no_mangle)]
pub extern "C" fn mezdruk_after(
    alloc: Global,
    document: &mut Document,
    node: u32,
    after: &mut u32,
) -> bool
    ensures known { IsTrue result ↔ IsSome (document_node_tree document.old node) }
    ensures numbered { OnTrue result (IsAfterNode document.old node after.new) }
    ensures untouched { OnFalse result (after.new ≡ after.old) }
    ensures kept { IsSameDocument document.old document.new }
{
    let Some(payload) = document.owner.take(alloc) else {
        return false;
    };
    let found = after_in(&payload, node);
    document.owner = Owner::of(payload);
    match found {
        Some(n) => {
            *after = n;
            true
        }
        None => false,
    }
}

/// Writes the double nearest to the number at `node` to `number`; of two that are equally near, the
/// even one. Returns false, and leaves `number` unchanged, if that double is not finite, or if the
/// node is not a number. The document stays the same.
#[unsafe(no_mangle)]
pub extern "C" fn mezdruk_real(
    alloc: Global,
    document: &mut Document,
    node: u32,
    number: &mut f64,
) -> bool
    ensures nearest { OnTrue result (real_at document.old node ≡ Some number.new) }
    ensures lacks { OnFalse result (real_at document.old node ≡ None) }
    ensures untouched { OnFalse result (number.new ≡ number.old) }
    ensures kept { IsSameDocument document.old document.new }
{
    let Some(payload) = document.owner.take(alloc) else {
        return false;
    };
    let found = real_in(&payload, node);
    document.owner = Owner::of(payload);
    match found {
        Some(x) => {
            *number = x;
            true
        }
        None => false,
    }
}
