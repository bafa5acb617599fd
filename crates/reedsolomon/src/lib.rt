//! Reed-Solomon parity over the field of 256 bytes.
#![tactic(auto)]

pub mod codes;
#[cfg(test)]
mod field_tests;
pub mod fields;
#[cfg(test)]
mod word_tests;
pub mod words;

pub use codes::parity_law;
pub use fields::{field_laws, multiply};
pub use words::ReedSolomon;
