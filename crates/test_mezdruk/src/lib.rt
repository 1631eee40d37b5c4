//! Tests alone: worked examples of the programs of `mezdruk` and of what they are made of. They are
//! here and not in the libraries, since a library with tests is proved twice, and in one crate, since
//! each check of a crate over the programs begins with more than a minute.
#![tactic(auto)]

#[cfg(test)]
mod arguments;
#[cfg(test)]
mod files;
#[cfg(test)]
mod history;
#[cfg(test)]
mod lines;
#[cfg(test)]
mod programs;
#[cfg(test)]
mod rpc;
