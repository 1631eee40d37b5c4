//! All functions and types of this crate, by which `json_value` prints documents. No program calls
//! them.

pub use crate::emit_packed::{
    emit_document, emit_elements, emit_members, emit_no_pairs, emit_no_values, emit_number,
};
pub use crate::key_order::{IndexedMember, MemberKeys, entry_of, is_less, sort_by_key};
pub use crate::show_packed::{show_bool, show_document, show_elements, show_members, show_number};
pub use crate::show_sorted_packed::{
    SortedLayout, show_sorted_document, show_sorted_elements, show_sorted_members,
};
pub use crate::walk::{EventsFailed, EventsResult, events_result};
