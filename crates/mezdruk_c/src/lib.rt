//! The calls of the C library, which `bindings/mezdruk.h` declares. Each does with the caller's
//! bytes what the Rust crates of this repository do.
#![tactic(auto)]

mod about;
mod address;
mod buffer;
mod calls;
mod check;
mod diff;
mod document;
mod edit;
mod error_sink;
mod failure;
mod fault;
mod free;
mod held;
mod input;
mod lending;
mod lines;
mod node;
mod options;
mod owner;
mod parse;
mod parsed;
mod parts;
mod patch;
mod payload;
mod pointer;
mod printer;
mod printing;
mod reading;
mod slice;
mod values;
