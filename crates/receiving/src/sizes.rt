//! The sizes of frames that a receiver knows by number.
pub use frame::HEADER_ROWS;
pub use rows::{HEADER_CELLS, LAST_HEADER_ROW, MOST_CELLS, MOST_PAYLOAD_CELLS};

/// The most bytes of a payload's block.
pub const MOST_BYTES: usize = 255;
