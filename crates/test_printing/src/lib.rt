//! Tests alone: worked examples of what is printed, and of writers and readers that fail. They are
//! here and not in `json_print`, since a library with tests is proved twice.
#![tactic(auto)]

#[cfg(test)]
mod failures;
#[cfg(test)]
mod texts;
