//! Worked examples of `reshape::run`, which [`vectors`] runs. The tests of this
//! crate are about the other functions of `reshape`: sources and sinks that fail, what arguments
//! ask for, edits that no arguments spell, the examples of README.md, and what the program says of
//! itself. They are here and not in `reshape` or `reshape_cli`, since a library or a program with
//! tests is proved twice.
#![tactic(auto)]

mod rows;
mod run;

pub use run::vectors;

#[cfg(test)]
mod about;
#[cfg(test)]
mod asked;
#[cfg(test)]
mod hostile;
#[cfg(test)]
mod levels;
#[cfg(test)]
mod readme;
#[cfg(test)]
mod shared;
#[cfg(test)]
mod system;
