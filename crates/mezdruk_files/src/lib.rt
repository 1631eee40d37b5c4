//! What the program `mezdruk` does with files, as functions: documents in memory are read, changed
//! and printed with a newline after each. The errors of those that are not valid are reported.
//!
//! ```
//! use mezdruk_files::{NamedDocument, Job, Unchanged, print_documents};
//! use json_print::Style;
//! use json_text::{Rules, VecSink};
//! let documents = vec![in alloc;
//!     NamedDocument::new(alloc, "a.json", b" [1, 2.50] ")?,
//!     NamedDocument::new(alloc, "b.json", b"[1,\n 01]")?,
//!     NamedDocument::new(alloc, "c.json", b"{}")?,
//! ]?;
//! let job = Job::new(Unchanged, Style::new(None, false), Rules::usual());
//! let (mut sink, mut errs) = (VecSink::new(alloc), VecSink::new(alloc));
//! assert_eq!(rt; print_documents(alloc, &documents, &job, &mut sink, &mut errs), 1);
//! assert_eq!(rt; sink.as_slice(), b"[1,2.50]\n{}\n".as_slice());
//! ```
#![tactic(auto)]

mod change;
mod change_error;
mod difference;
mod document;
mod document_error;
mod each_line;
mod edit_all;
mod edit_at;
mod edited_text;
mod excerpt;
mod found_layout;
mod get;
mod get_all;
mod hint;
mod job;
mod line_input;
mod mark;
mod measure;
mod overlay;
mod painter;
mod part;
mod patch_problem;
mod patches;
mod query;
mod report;
mod run;
mod text;
mod value_path;
mod value_stream;

pub use change::{Unchanged, ValueChange};
pub use change_error::{ChangeCode, ChangeError};
pub use difference::{Comparison, PatchForm, PatchStyle, print_difference};
pub use document::{NamedDocument, read_value};
pub use document_error::DocumentError;
pub use edit_all::EditAll;
pub use edit_at::EditAt;
pub use edited_text::{EditedText, edit_document};
pub use found_layout::find_style;
pub use get::{GetPath, GetPointer};
pub use get_all::GetAll;
pub use job::{InputForm, Job};
pub use line_input::{NamedSource, print_lines};
pub use mark::skip_mark;
pub use measure::{GetKeys, GetLength};
pub use overlay::MergeInTurn;
pub use painter::Painter;
pub use patch_problem::{OperationMember, PatchProblem};
pub use patches::{ApplyMerge, ApplyPatch};
pub use query::{QueryAll, QueryCount};
pub use report::{file_report, input_report};
pub use run::print_documents;
pub use value_path::ValuePath;
