//! The programs that `mezdruk` runs in place of a command of its own. The first argument names the
//! program, and the program gets the arguments after it.
//!
//! ```
//! use json_text::{SliceSource, VecSink, Words};
//! use mezdruk_programs::run_named;
//! let mut words = Words::new(alloc);
//! words.push("reshape")?;
//! words.push("[[\"set\",[\"a\"],2]]")?;
//! let mut source = SliceSource::new(b"{\"a\": 1}");
//! let (mut sink, mut errs) = (VecSink::new(alloc), VecSink::new(alloc));
//! assert_eq!(rt; run_named(alloc, &words, &mut source, &mut sink, &mut errs), Some(0));
//! assert_eq!(rt; sink.as_slice(), b"{\"a\":2}".as_slice());
//! ```
#![tactic(auto)]

mod program;

pub use program::run_named;
