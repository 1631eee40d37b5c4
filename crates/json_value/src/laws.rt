//! Laws of values: the contract of each function is a law, and the function does nothing.
ghost use Rattle.json_grammar.specs.Proper.{IsProper};
ghost use Rattle.json_value.specs.Denotes.{tree_of};
ghost use Rattle.json_value.specs.Laws.{FirstElementsAreRead, FirstMembersAreRead, FirstElementsStay, FirstMembersStay};
ghost use Rattle.json_value.specs.Laws.{PackedArrayHasPosition, PackedObjectHasPosition, PositionedArrayIsPlace, PositionedObjectIsPlace};
ghost use Rattle.json_value.specs.Laws.{OwnArrayIsNoPlace, OwnObjectIsNoPlace, PlacesOfElements, PlacesOfMembers};
ghost use Rattle.json_value.specs.Laws.{ChangeIsThere, ChangeRefusedThere, NoChangeNowhere, StepsLeadToParts};

use crate::value::Value;

/// Proves that the tree of each value is proper: its numbers are literals of RFC 8259, section 6,
/// and its strings and keys are UTF-8.
pub fn values_are_proper(_value: &Value)
    ensures { IsProper (tree_of _value.now) }
{}

/// Proves that the first write to a packed container makes the values that are read from the
/// positions of its elements or members in the document.
pub fn first_write_reads_places()
    ensures elements { FirstElementsAreRead }
    ensures members { FirstMembersAreRead }
{}

/// Proves that the first write to a container that is not packed leaves its list as it is.
pub fn first_write_keeps_own_list()
    ensures elements { FirstElementsStay }
    ensures members { FirstMembersStay }
{}

/// Proves that a packed container with elements or members has its position in the document, and
/// that a container with a position is packed.
pub fn packed_containers_have_positions()
    ensures array { PackedArrayHasPosition }
    ensures object { PackedObjectHasPosition }
    ensures array_only { PositionedArrayIsPlace }
    ensures object_only { PositionedObjectIsPlace }
{}

/// Proves that a container with an owned list is not packed, and that the positions of its parts
/// are those of the parts of its elements or members.
pub fn own_lists_are_no_places()
    ensures array { OwnArrayIsNoPlace }
    ensures object { OwnObjectIsNoPlace }
    ensures elements { PlacesOfElements }
    ensures members { PlacesOfMembers }
{}

/// Proves where a change along steps happens: the changed tree is found where the steps lead. The
/// change is an error if the tree there refuses it, or if the steps lead nowhere. Steps lead where
/// the definition of edits says that a path leads.
pub fn changes_are_where_steps_lead()
    ensures there { ChangeIsThere }
    ensures refused { ChangeRefusedThere }
    ensures nowhere { NoChangeNowhere }
    ensures parts { StepsLeadToParts }
{}
