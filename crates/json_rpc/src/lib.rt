//! A JSON-RPC 2.0 service over one document: each line of input is a request, or a batch of them,
//! that reads or changes the document. Each reply is a line of output.
//!
//! ```
//! use json_rpc::run_rpc;
//! use json_text::{SliceSource, VecSink, Words};
//! let arguments = Words::new(alloc);
//! let line = b"{\"jsonrpc\":\"2.0\",\"method\":\"get\",\"params\":[[]],\"id\":1}";
//! let mut source = SliceSource::new(line);
//! let (mut sink, mut errs) = (VecSink::new(alloc), VecSink::new(alloc));
//! assert_eq!(rt; run_rpc(alloc, &arguments, &mut source, &mut sink, &mut errs), 0);
//! assert_eq!(rt; sink.as_slice(), b"{\"jsonrpc\":\"2.0\",\"result\":null,\"id\":1}\n".as_slice());
//! ```
#![tactic(auto)]

mod document_change;
mod error;
pub mod examples;
pub mod laws;
mod lines;
mod message;
mod operation;
mod params;
mod perform;
mod reply;
mod request;
mod response;
mod run;
mod serve;
mod service;

pub use error::RpcError;
pub use message::MAX_LINE_BYTES;
pub use run::run_rpc;
pub use service::{Service, line_only_reads};
