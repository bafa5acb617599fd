//! The convolutional code, a plain stage.
#![tactic(auto)]

pub mod convolutions;
#[cfg(test)]
mod tests;

pub use convolutions::Convolve;
