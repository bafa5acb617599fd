//! Prints, for each of the 63 legal tone maps and each modulation, the certificate's line with the
//! tone map's number in front.
#![tactic(auto)]

use std::io;
use std::io::{BufWriter, Write};
use tables::tone_map_line;

/// The highest legal tone map, all six sub-bands.
const HIGHEST: u32 = 63;

fn main(rt: HostRuntime) -> io::Result<()> {
    let mut out = BufWriter::new(rt.alloc(), rt.stdout())?;
    for tm in 1..=HIGHEST {
        for modulation in 0..=3 {
            let line = tone_map_line(rt.alloc(), tm, modulation)?;
            writeln!(out, "{line}")?;
        }
    }
    out.flush()
}
