//! Reads a struct from an object, member by member, and says what it means: the calls that the code
//! uses which `tools/make/derive` writes.
//!
//! A struct is marked by a comment. `tools/make/derive crates/NAME` writes its impls of
//! [`DeserializeFrom`] and [`Serialize`] into the module `json` beside it:
//!
//! ```text
//! mod json;
//!
//! // json: derive
//! #[derive(Drop)]
//! pub struct Server {
//!     pub host: String,
//!     // json: default 8080
//!     pub port: u16,
//!     // json: name "log-file"
//!     pub log_file: Option<String>,
//! }
//! ```
//!
//! The members may be in any order. Each member of a field's name has to be of the field's type,
//! and the last one counts. A field of the type `Option` is `None` if its member is missing.
//! Members of other names are skipped; of a struct that is marked by `// json: derive strict` they
//! are refused.
#![tactic(auto)]

mod builder;

pub use builder::{Builder, read_struct, required, try_read_struct};
pub use json_data::{DeserializeFrom, InputStr, Tokens, error_without_place};
pub use json_print::Events;
pub use json_text::{ErrorCode, Result};
pub use json_write::{Field, KeyRoom, Serialize, serialize_fields};
