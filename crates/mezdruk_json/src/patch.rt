//! JSON Pointer (RFC 6901), JSON Patch (RFC 6902) and JSON Merge Patch (RFC 7396) over values, and
//! the patches that lead from one value to another.

pub use json_diff::{diff, diff_examples, diff_laws, merge_diff};
pub use json_patch::{
    PatchCode, PatchError, Pointer, apply_merge, apply_patch, examples, laws, run_patch,
};
