//! The desk of a type-test room: it keeps a receiver, a transmit buffer and at most one begun frame,
//! and answers calls line by line.
#![tactic(auto)]

mod begins;
mod desks;
mod lines;
mod receives;
mod records;
mod requests;

pub use desks::Desk;
