//! The interleaver: the bits of a block, put to other places.
#![tactic(auto)]

mod blocks;
pub mod interleavers;
pub mod places;
mod steps;
mod strides;
#[cfg(test)]
mod tests;
mod walks;

pub use interleavers::Interleave;
