//! Frames of a narrowband power-line modem, CENELEC A, 36 carriers: what a header may say, and
//! how much payload it then carries.
#![tactic(auto)]

mod headers;
mod laws;
mod lengths;
mod modulations;
mod refusals;
mod sizes;

pub use headers::{DT_HIGHEST, FL_HIGHEST, Header, MOD_HIGHEST, PDC_HIGHEST, TM_HIGHEST};
pub use laws::{legal_sizes_are_sound, refused_with_the_first_that_applies, worked_examples};
pub use lengths::{LegalLength, largest, smallest};
pub use modulations::{Modulation, UnknownModulation};
pub use refusals::{Field, Refusal};
pub use sizes::{BAND_CARRIERS, HEADER_ROWS, size};

#[cfg(test)]
mod tests;
