//! The receiver: rows of cells in, whole frames out, and a reader of recorded rows.
//!
//! A [`Receiver`] is started under a reference, fed one row at a time, and has its frame taken. A
//! [`Recording`] hands out the rows of lent cells.
#![tactic(auto)]

mod buffers;
mod decisions;
mod kept;
pub mod laws;
pub mod playback;
pub mod receivers;
pub mod recordings;
pub mod refusals;
pub mod scripts;
mod sizes;
mod states;
#[cfg(test)]
mod tests;

pub use laws::{nothing_lost_altered_or_invented, rows_yield_exactly_their_frame};
pub use playback::replay;
pub use receivers::Receiver;
pub use recordings::{RecordRefusal, RecordedRow, Recording};
pub use refusals::{
    FeedRefusal, HeaderFault, Part, PayloadFault, ReceiverFault, StartRefusal, TakeRefusal,
};
pub use scripts::{Reply, Step};
