// Open containers of a value.
ghost use Rattle.std.specs.Prelude.{◌≡◌, ◌∷◌, List, option_map, slice_get};
ghost use Rattle.json_grammar.specs.Tree.{list, pairs, trees_list, pairs_list, Trees, Pairs};
ghost use Rattle.json_value.specs.Seen.{seen, member_seen};
ghost use Rattle.json_value.specs.ViewTargets.{view_target};
ghost use Rattle.json_tokens.specs.Values.{Left, left_after_opening, element_targets, elements_of, members_of, PullsElement, PullsMember, FrontIs};

use crate::token::TokenKind;
use json_value::{ArrayIter, Iter, View};

/// What is left of an open array or object.
#[derive(Drop)]
pub(crate) enum Level<'a> {
    /// No array or object is open.
    Root,
    List(ArrayIter<'a>),
    Pairs(Iter<'a>),
}

impl<'a> Level<'a> {
    /// Returns all elements of an array.
    pub(crate) fn elements(view: View<'a>) -> Level<'a>
        ensures { (ts : Trees) (c : List Left) → seen view.entry ≡ list ts
            → left_after_opening result c ≡ elements_of (trees_list ts) ∷ c }
    {
        match view.as_array() {
            Some(array) => Level::List(array.iter()),
            None => Level::Root,
        }
    }

    /// Returns all members of an object.
    pub(crate) fn members(view: View<'a>) -> Level<'a>
        ensures { (ps : Pairs) (c : List Left) → seen view.entry ≡ pairs ps
            → left_after_opening result c ≡ members_of (pairs_list ps) ∷ c }
    {
        match view.as_object() {
            Some(object) => Level::Pairs(object.iter()),
            None => Level::Root,
        }
    }

    /// Takes the next element of an array. Returns `None` if none is left or this is no array.
    pub(crate) fn element(&mut self) -> Option<View<'a>>
        ensures tree { (c : List Left) → PullsElement (left_after_opening self.old c)
            (option_map seen result) (left_after_opening self.new c) }
        ensures target { option_map view_target result ≡ slice_get (element_targets self.old) 0 }
    {
        match self {
            Level::List(elements) => elements.next(),
            _ => None,
        }
    }

    /// Takes the next member of an object. Returns `None` if none is left or this is no object.
    pub(crate) fn member(&mut self) -> Option<(&'a str, View<'a>)>
        ensures { (c : List Left)
            → PullsMember (left_after_opening self.old c) (option_map member_seen result)
            (left_after_opening self.new c) }
    {
        match self {
            Level::Pairs(members) => members.next(),
            _ => None,
        }
    }

    /// Returns the kind of the next token if no element is left.
    pub(crate) fn front(&self) -> TokenKind
        ensures { (c : List Left) → FrontIs (left_after_opening self.now c) result }
    {
        match self {
            Level::Root | Level::List(_) => TokenKind::EndArray,
            Level::Pairs(members) => {
                if members.len() == 0 {
                    TokenKind::EndObject
                } else {
                    TokenKind::Key
                }
            }
        }
    }
}
