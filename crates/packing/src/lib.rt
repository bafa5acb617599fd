//! A header's bits, and the five bytes that a header packs to.
#![tactic(auto)]

pub mod bits;
pub mod laws;
pub mod packs;
pub mod refusals;
mod words;

pub use bits::{HEADER_BITS, header_bits, header_from};
pub use laws::{packing_examples, packing_loses_nothing};
pub use packs::{PACKED_BYTES, pack, unpack};
pub use refusals::{PackRefusal, UnpackRefusal};

#[cfg(test)]
mod tests;
