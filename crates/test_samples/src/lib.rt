//! Types of a program's own that are read and written, to copy from, and numbers up to the first
//! that is damaged. `test_data` has their tests, since a crate with tests is proved twice.
#![tactic(auto)]

pub mod account;
pub mod damage;
pub mod hinted;
pub mod nested;
pub mod person;
pub mod tagged;
