// Follows paths in documents.
ghost use Rattle.std.specs.Prelude.{◌≡◌, option_map};
ghost use Rattle.json_doc.specs.Left.{pairs_left};
ghost use Rattle.json_doc.specs.Seen.{view_tree};
ghost use Rattle.json_value.specs.Edits.{step_of, steps_of};
ghost use Rattle.json_value.specs.Seen.{first_of};
ghost use Rattle.json_value.specs.Steps.{child, tree_at};

use json_doc::{DocNode, DocPairs, DocView};
use json_value::PointerNode;

// Returns the value of the first member named `key`.
#[inline(always)]
fn find_packed_member<'a>(members: DocPairs<'a>, key: &str) -> Option<DocView<'a>>
    ensures { option_map view_tree result
        ≡ option_map (λ p. p.1) (first_of key.now (pairs_left members.entry)) }
{
    for (name, value) in members {
        if name == key {
            return Some(value);
        }
    }
    None
}

// Returns the value to which a step leads.
#[inline(always)]
fn child_at<'a>(view: DocView<'a>, step: &PointerNode) -> Option<DocView<'a>>
    ensures { option_map view_tree result ≡ child (step_of step.now) (view_tree view.entry) }
{
    match step {
        PointerNode::Key(key) => match view.node() {
            DocNode::Object(members) => find_packed_member(members, key.as_str()),
            _ => None,
        },
        PointerNode::Index(i) => view.element(*i),
    }
}

// Returns the value to which a path leads.
#[inline(always)]
pub(crate) fn follow<'a>(view: DocView<'a>, path: &[PointerNode]) -> Option<DocView<'a>>
    ensures { option_map view_tree result ≡ tree_at (steps_of path.now) (view_tree view.entry) }
{
    let mut here = view;
    for step in path {
        here = child_at(here, step)?;
    }
    Some(here)
}
