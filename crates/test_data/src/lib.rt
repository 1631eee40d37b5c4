//! Tests alone: worked examples of data that are read, explained and written, of the values of a
//! stream, and of derived structs. They are here and not in the crates that they test, since a
//! library with tests is proved twice.
#![tactic(auto)]

#[cfg(test)]
mod config;
#[cfg(test)]
mod derived;
#[cfg(test)]
mod drawing;
#[cfg(test)]
mod explained;
#[cfg(test)]
mod floats_explained;
#[cfg(test)]
mod kept;
#[cfg(test)]
mod keys;
#[cfg(test)]
mod looks;
#[cfg(test)]
mod repeated_names;
#[cfg(test)]
mod rows;
#[cfg(test)]
mod streams;
#[cfg(test)]
mod texts;
#[cfg(test)]
mod trees;
#[cfg(test)]
mod tuples;
#[cfg(test)]
mod values;
