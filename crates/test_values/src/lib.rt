//! Tests alone: worked examples of documents and numbers; of values that are read, compared,
//! printed, made, copied and edited; of places that are lent; and of the calls of arrays and
//! objects. They are not in their libraries, since a library with tests is proved twice, and are in
//! one crate, since each check of a crate over `json_value` begins with most of a minute.
#![tactic(auto)]

#[cfg(test)]
mod arrays;
#[cfg(test)]
mod documents;
#[cfg(test)]
mod doubles;
#[cfg(test)]
mod edits;
#[cfg(test)]
mod entries;
#[cfg(test)]
mod equality;
#[cfg(test)]
mod lending;
#[cfg(test)]
mod looks;
#[cfg(test)]
mod making;
#[cfg(test)]
mod objects;
#[cfg(test)]
mod paths;
#[cfg(test)]
mod places;
#[cfg(test)]
mod positions;
#[cfg(test)]
mod printed;
#[cfg(test)]
mod readings;
#[cfg(test)]
mod views;
#[cfg(test)]
mod writing;
