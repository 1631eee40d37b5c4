// The calls that lend a text of a document.
ghost use Rattle.std.specs.Prelude.{◌≡◌, ◌↔◌, None, IfSome, IsSome, IsSomeAnd, IsTrue, MatchOption};
ghost use Rattle.std.specs.Bool.{OnTrue, OnFalse};
ghost use Rattle.std.specs.Option.{option_and_then};
ghost use Rattle.mezdruk_c.specs.Documents.{document_node_text, name_at, IsSameDocument};
ghost use Rattle.mezdruk_c.specs.Lending.{LendsIn, LendsOwned};
ghost use Rattle.mezdruk_c.specs.Owned.{owned_payload};
ghost use Rattle.mezdruk_c.specs.Payloads.{tree_in, member_name};
ghost use Rattle.mezdruk_c.specs.Trees.{text_or_literal};

use crate::document::Document;
use crate::owner::Owner;
use crate::parsed::BorrowedBytes;
use crate::payload::Payload;
use std::alloc::Global;

// Lends the bytes of a string or a literal.
fn lend_in(payload: &Payload, node: u32) -> Option<BorrowedBytes>
    ensures { MatchOption (option_and_then text_or_literal (tree_in payload.now node))
        (result ≡ None) (λ s. IsSomeAnd result (λ l. LendsIn payload.now s l.bytes l.length)) }
{
    match payload {
        Payload::Document(parsed) => parsed.lend(node),
        _ => None,
    }
}

// Lends the name of a member.
fn lend_name_in(payload: &Payload, node: u32, index: usize) -> Option<BorrowedBytes>
    ensures { MatchOption (member_name (tree_in payload.now node) index)
        (result ≡ None) (λ s. IsSomeAnd result (λ l. LendsIn payload.now s l.bytes l.length)) }
{
    match payload {
        Payload::Document(parsed) => parsed.lend_name(node, index),
        _ => None,
    }
}

/// Lends the content of a string or a name, or the literal of a number that is no integer of 64
/// bits: writes the address of its first byte to `bytes` and its number of bytes to `length`.
/// `node` is the number of its node. The bytes stay at that address until the document is freed or
/// replaced.
///
/// Returns false, and leaves `bytes` and `length` unchanged, if there is no such text. The document
/// stays the same.
#[unsafe(no_mangle)]
pub extern "C" fn mezdruk_lend(
    alloc: Global,
    document: &mut Document,
    node: u32,
    bytes: &mut *const u8,
    length: &mut usize,
) -> bool
    ensures known { IsTrue result ↔ IsSome (document_node_text document.old node) }
    ensures lent { OnTrue result (IfSome (document_node_text document.old node)
        (λ s. LendsOwned (owned_payload document.old.owner) s bytes.new length.new)) }
    ensures untouched { OnFalse result ((bytes.new ≡ bytes.old) × (length.new ≡ length.old)) }
    ensures kept { IsSameDocument document.old document.new }
{
    let Some(payload) = document.owner.take(alloc) else {
        return false;
    };
    let found = lend_in(&payload, node);
    document.owner = Owner::of(payload);
    match found {
        Some(lent) => {
            let at = lent.bytes;
            *bytes = at;
            *length = lent.length;
            true
        }
        None => false,
    }
}

/// Lends the name of the member at `index` of an object, counted from 0: writes the address of its
/// first byte to `bytes` and its number of bytes to `length`. `node` is the number of the object's
/// node. The bytes stay at that address until the document is freed or replaced.
///
/// Returns false, and leaves `bytes` and `length` unchanged, if there is no such member. The
/// document stays the same.
#[unsafe(no_mangle)]
pub extern "C" fn mezdruk_lend_name(
    alloc: Global,
    document: &mut Document,
    node: u32,
    index: usize,
    bytes: &mut *const u8,
    length: &mut usize,
) -> bool
    ensures known { IsTrue result ↔ IsSome (name_at document.old node index) }
    ensures lent { OnTrue result (IfSome (name_at document.old node index)
        (λ s. LendsOwned (owned_payload document.old.owner) s bytes.new length.new)) }
    ensures untouched { OnFalse result ((bytes.new ≡ bytes.old) × (length.new ≡ length.old)) }
    ensures kept { IsSameDocument document.old document.new }
{
    let Some(payload) = document.owner.take(alloc) else {
        return false;
    };
    let found = lend_name_in(&payload, node, index);
    document.owner = Owner::of(payload);
    match found {
        Some(lent) => {
            let at = lent.bytes;
            *bytes = at;
            *length = lent.length;
            true
        }
        None => false,
    }
}
