//! JSON values (RFC 8259, section 3) that can be read and edited. A [`Value`] owns its content, or
//! is packed: then it refers to a position in a shared document, from which it is read. The first
//! write to a packed array or object copies one level of it; deeper containers stay packed.
//!
//! ```
//! use json_doc::read_document;
//! use json_value::{Edit, Path, PointerNode, Text, Value};
//! let doc = read_document(alloc, "{\"a\": [1], \"b\": [2]}")?;
//! let mut value = Value::from_place(alloc, &doc, doc.root())?;
//! let mut path = Path::new(alloc);
//! path.push(PointerNode::Key(Text::from_static("a")))?;
//! value.apply(alloc, &Edit::Push { path, value: Value::new_bool(true) })?;
//! let shown = value.to_string(alloc)?;
//! assert_eq!(rt; shown.as_str(), "{\"a\":[1,true],\"b\":[2]}");
//! ```
#![tactic(auto)]

mod array;
mod array_view;
mod container;
mod container_mut;
mod display;
mod emit;
mod equality;
mod index;
mod key_order;
pub mod laws;
mod literal;
mod object;
mod object_view;
mod packed_view;
mod pair;
mod path;
mod place;
mod places;
mod show_owned;
mod show_sorted;
mod text;
mod texts;
mod value;
mod view;

pub use array::Array;
pub use array_view::{ArrayIter, ArrayView};
pub use container::Container;
pub use index::Index;
pub use literal::Literal;
pub use object::Object;
pub use object_view::{Iter, ObjectView};
pub use pair::{Keyed, Pair, find_key};
pub use path::{Edit, Path, PointerNode};
pub use places::{Places, put, update};
pub use text::Text;
pub use value::{Value, ValueRef};
pub use view::View;
