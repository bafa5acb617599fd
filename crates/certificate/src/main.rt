//! Prints the certificate's table: for the tone map with all six sub-bands, one line for each
//! modulation.
#![tactic(auto)]

use std::io;
use tables::certificate_line;

/// The tone map with all six sub-bands.
const ALL_BANDS: u32 = 63;

fn main(rt: HostRuntime) -> io::Result<()> {
    for modulation in 0..=3 {
        let line = certificate_line(rt.alloc(), ALL_BANDS, modulation)?;
        println!(rt; "{line}")?;
    }
    Ok(())
}
