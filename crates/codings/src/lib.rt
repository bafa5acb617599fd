//! Codings of bits and bytes, each a plain stage: check, scramble, unpack bits, fill and repeat.
#![tactic(auto)]

#[cfg(test)]
mod check_tests;
pub mod checks;
#[cfg(test)]
mod fill_tests;
pub mod fills;
#[cfg(test)]
mod pile_tests;
pub mod polynomials;
#[cfg(test)]
mod repeat_tests;
pub mod repeats;
#[cfg(test)]
mod scramble_tests;
pub mod scramblers;
#[cfg(test)]
mod unpack_tests;
pub mod unpackers;

pub use checks::{Check, check_examples};
pub use fills::Fill;
pub use polynomials::remainder_law;
pub use repeats::Repeat;
pub use scramblers::{Scramble, scramble_example, sequence_law};
pub use unpackers::UnpackBits;
