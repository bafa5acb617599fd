//! Rows of cells: which carriers are live, and which rows can be fed.
#![tactic(auto)]

pub mod carriers;
pub mod gathering;
pub mod references;
pub mod sizes;

pub use carriers::{CARRIERS, HIGHEST_PHASE, SILENCE, is_reference, row_fits};
pub use gathering::{gather, gather_all, spread};
pub use references::{NotReference, Reference};
pub use sizes::{HEADER_CELLS, LAST_HEADER_ROW, MOST_CELLS, MOST_PAYLOAD_CELLS};
