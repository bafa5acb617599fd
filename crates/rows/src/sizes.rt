//! The sizes of the longest frames, and of the header's part of every frame.
use crate::carriers::CARRIERS;
use frame::HEADER_ROWS;

/// The cells of the header's rows.
pub const HEADER_CELLS: usize = CARRIERS * HEADER_ROWS;

/// The number of the last header row, from which the payload's phases go on.
pub const LAST_HEADER_ROW: usize = HEADER_ROWS - 1;

/// The cells of the longest payload: 252 rows.
pub const MOST_PAYLOAD_CELLS: usize = CARRIERS * 252;

/// The cells of the longest frame: 265 rows.
pub const MOST_CELLS: usize = HEADER_CELLS + MOST_PAYLOAD_CELLS;
