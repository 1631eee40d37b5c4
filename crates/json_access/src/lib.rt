//! Traits to read and change JSON values (RFC 8259, section 3). [`JsonValueTrait`] reads a value, a
//! view, a reference to one, or an `Option` or a `Result` of these; `None` and `Err` are read as
//! null. [`JsonContainerTrait`] gets the array or the object that a value is. [`JsonValueMutTrait`]
//! changes a value in place.
//!
//! ```
//! use json_access::{JsonValueMutTrait, JsonValueTrait};
//! use json_value::Value;
//! let mut value = Value::new_object();
//! value.insert(alloc, "age", Value::new_u64(36))?;
//! assert_eq!(rt; value.get("age").as_u64(), Some(36));
//! assert!(rt; value.get("name").is_null());
//! if let Some(age) = value.get_mut(alloc, "age")? {
//!     *age = Value::new_u64(37);
//! }
//! assert_eq!(rt; value.get("age").as_u64(), Some(37));
//! ```
#![tactic(auto)]

mod container_trait;
mod raw;
mod value_mut_trait;
mod value_trait;

pub use container_trait::JsonContainerTrait;
pub use value_mut_trait::JsonValueMutTrait;
pub use value_trait::JsonValueTrait;
