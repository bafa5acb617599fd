//! Sending a frame: begin writes the header's rows, finish the payload's.
#![tactic(auto)]

pub mod begun;
mod header_rows;
pub mod laws;
mod payload_rows;
pub mod refusals;
pub mod sendings;

pub use begun::Begun;
pub use laws::begun_and_finished_rows_are_the_frames;
pub use refusals::{BeginRefusal, FinishRefusal, SendRefusal, Unfinished};
pub use sendings::{begin, finish, send};
