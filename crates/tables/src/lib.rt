//! The certificate's tables as text, a line for each modulation of a tone map.
#![tactic(auto)]

mod columns;
mod lines;

pub use lines::{certificate_line, tone_map_line};

#[cfg(test)]
mod tests;
