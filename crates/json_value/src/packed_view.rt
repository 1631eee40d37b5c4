// A place of a document that is seen, and the counted reference to the document where a value holds
// one.
ghost use Rattle.std.specs.Prelude.{◌≡◌, None, Some, IfSome, map, IfOk};
ghost use Rattle.std.proofs.Props.{props};
ghost use Rattle.json_doc.specs.Docs.{doc_tree};
ghost use Rattle.json_doc.specs.Seen.{view_doc, view_place, view_tree};
ghost use Rattle.json_doc.specs.Left.{children_left, pairs_left};
ghost use Rattle.json_value.specs.Denotes.{tree_of, pair_of};
ghost use Rattle.json_value.specs.Positions.{doc_position};
ghost use Rattle.json_io.specs.Errors.{OnlyNoMemory};

use crate::container::{Container, Form};
use crate::literal::Literal;
use crate::pair::{Keyed, Pair};
use crate::place::DocumentPosition;
use crate::text::Text;
use crate::value::Value;
use json_doc::{Doc, DocChildren, DocNode, DocPairs, DocView};
use json_io::Result;
use std::alloc::Global;
use std::rc::Rc;

#[derive(Clone, Copy)]
pub(crate) struct PackedView<'a> {
    pub(crate) view: DocView<'a>,
    pub(crate) holder: Option<&'a Rc<Doc>>,
    ghost held: { IfSome holder (λ d. d.now.value ≡ view_doc view) } by { Prim.hlevel props },
}

impl<'a> PackedView<'a> {
    ghost use Rattle.json_value.specs.ViewTargets.{doc_held};
    ghost use Rattle.json_value.specs.ViewPositions.{held_position};

    // Creates a view of a value in a document that no value holds.
    #[inline]
    pub(crate) fn of_document(view: DocView<'a>) -> PackedView<'a>
        ensures view { result.view ≡ view.entry }
        ensures holder { result.holder ≡ None }
    {
        PackedView { view, holder: None }
    }

    // Creates a view of the position that a value holds.
    #[inline]
    pub(crate) fn of_place(place: &'a DocumentPosition) -> PackedView<'a>
        ensures tree { view_tree result.view ≡ doc_tree place.now.doc.value place.now.at }
        ensures doc { view_doc result.view ≡ place.now.doc.value }
        ensures at { view_place result.view ≡ place.now.at }
        ensures holder { doc_held result.holder ≡ Some place.now.doc.value }
    {
        PackedView {
            view: place.view(),
            holder: Some(&place.doc),
        }
    }

    // Returns `view`, at another position of the same document, with the same holder.
    #[inline]
    pub(crate) fn beside(self, view: DocView<'a>) -> PackedView<'a>
        requires { view_doc view ≡ view_doc self.view }
        ensures view { result.view ≡ view.entry }
        ensures holder { result.holder ≡ self.entry.holder }
    {
        PackedView {
            view,
            holder: self.holder,
        }
    }

    // Returns what is viewed as a value: packed in the same document if a value holds it, else a
    // copy.
    pub(crate) fn to_value(self, alloc: Global) -> Result<Value>
        ensures tree { IfOk result (λ v. tree_of v ≡ view_tree self.entry.view) }
        ensures position { IfOk result (λ v. doc_position v
            ≡ held_position self.entry.holder (view_place self.entry.view)) }
        ensures only { OnlyNoMemory result }
    {
        match self.holder {
            Some(doc) => Value::from_place(alloc, doc, self.view.place()),
            None => copy_document(alloc, self.view),
        }
    }
}

#[cycle(copied)]
fn copy_document(alloc: Global, view: DocView<'_>) -> Result<Value>
    ensures tree { IfOk result (λ v. tree_of v ≡ view_tree view.entry) }
    ensures position { IfOk result (λ v. doc_position v ≡ None) }
    ensures only { OnlyNoMemory result }
{
    match view.node() {
        DocNode::Null => Ok(Value::Null),
        DocNode::Boolean(boolean) => Ok(Value::Bool(boolean)),
        DocNode::Number(number) => Ok(Value::Number(number)),
        DocNode::Raw(literal) => {
            let literal = Literal::copy(alloc, literal)?;
            Ok(Value::Raw(literal))
        }
        DocNode::String(text) => {
            let text = Text::copy(alloc, text)?;
            Ok(Value::Text(text))
        }
        DocNode::Array(children) => {
            let list = copy_children(alloc, children, view.len())?;
            Ok(Value::Array(Container {
                form: Form::Owned(list),
            }))
        }
        DocNode::Object(members) => {
            let list = copy_members(alloc, members, view.len())?;
            Ok(Value::Object(Container {
                form: Form::Owned(list),
            }))
        }
    }
}

// Copies the elements into a list with room for `count`.
#[cycle(copied)]
fn copy_children(alloc: Global, children: DocChildren<'_>, count: usize) -> Result<Vec<Value>>
    ensures list { IfOk result (λ v. map tree_of v.items ≡ children_left children.entry) }
    ensures only { OnlyNoMemory result }
{
    let mut list = Vec::with_capacity(alloc, count)?;
    for child in children {
        let value = copy_document(alloc, child)?;
        list.push(value)?;
    }
    Ok(list)
}

// Copies the members into a list with room for `count`.
#[cycle(copied)]
fn copy_members(alloc: Global, members: DocPairs<'_>, count: usize) -> Result<Vec<Pair>>
    ensures pairs { IfOk result (λ v. map pair_of v.items ≡ pairs_left members.entry) }
    ensures only { OnlyNoMemory result }
{
    let mut list = Vec::with_capacity(alloc, count)?;
    for (key, value) in members {
        let key = Text::copy(alloc, key)?;
        let value = copy_document(alloc, value)?;
        list.push(Keyed { key, value })?;
    }
    Ok(list)
}
