//! The stages from bits to phase increments and to cells.
//!
//! A cell is a phase in eighths of a turn, 0 to 7. [`Map`] makes a phase increment of each 1, 2 or
//! 3 bits, and [`Difference`] adds each increment to the cell that was put out a row earlier.
#![tactic(auto)]

pub mod differences;
pub mod maps;
#[cfg(test)]
mod tests;

pub use differences::{Difference, cells_follow_the_recurrence};
pub use maps::{Map, neighbours_differ_in_one_bit};
