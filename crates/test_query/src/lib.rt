//! Tests of `json_query`: queries over documents, with the texts of the values that they select, and
//! texts that are no queries, with their errors.
#![tactic(auto)]

#[cfg(test)]
mod queries;
#[cfg(test)]
mod texts;
