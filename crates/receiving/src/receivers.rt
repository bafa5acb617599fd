//! The receiver.
ghost use Rattle.std.specs.Prelude.{ℕ, ◌<◌, ◌≤◌};
ghost use Rattle.receiving.specs.Keeping.{rows_kept};
ghost use Rattle.receiving.specs.Phases.{at_least, bytes_of, fewer_than, most_bytes};

use crate::kept::Kept;
use crate::sizes::MOST_BYTES;
use crate::states::Phase;

mod calls;
mod hearing;
mod lawful;

/// A receiver of frames, which asks for no memory: it keeps the rows of the longest frame.
///
/// A new one does not listen. [`start`](Receiver::start) has it listen under a reference,
/// [`feed`](Receiver::feed) gives it one row at a time, and [`take`](Receiver::take) hands over a
/// whole frame.
#[derive(Drop)]
pub struct Receiver {
    phase: Phase,
    kept: Kept,
    // An array, whose count the phase has: a receiver asks for no memory.
    bytes: [u8; MOST_BYTES],
    ghost low: { at_least phase ≤ rows_kept kept },
    ghost high: { rows_kept kept < fewer_than phase },
    ghost short: { bytes_of phase ≤ most_bytes },
}
