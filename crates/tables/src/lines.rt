//! The lines of the certificate and of the list of tone maps.
ghost use Rattle.std.specs.Prelude.{IfOk, string_bytes, OnOk};
ghost use Rattle.tables.specs.Lines.{With_lengths, Certificate_line, Tone_map_line};

use crate::columns::{push_length, push_number};
use frame::{Header, largest, smallest};
use std::alloc::{AllocError, Global};

// Two numbers, and no enum or struct: a modulation that is none has a line too, and callers ask by both.
/// Appends MOD, the smallest legal FL and its N, the largest legal FL and its N.
fn push_lengths(line: &mut String, tm: u32, modulation: u32) -> Result<(), AllocError>
    ensures { OnOk result (With_lengths tm modulation (string_bytes line.old) (string_bytes line.new)) }
{
    let header = Header {
        pdc: 0,
        modulation,
        fl: 0,
        tm,
        dt: 0,
    };
    push_number(line, modulation as usize)?;
    push_length(line, smallest(header))?;
    push_length(line, largest(header))?;
    Ok(())
}

/// The certificate's line for a modulation under a tone map: MOD, the smallest legal FL and its
/// N, the largest legal FL and its N, in columns of five, with dashes where no FL is legal.
///
/// Fails only for want of memory.
pub fn certificate_line(heap: Global, tm: u32, modulation: u32) -> Result<String, AllocError>
    ensures { IfOk result (λ s. Certificate_line tm modulation (string_bytes s)) }
{
    let mut columns = String::new(heap);
    push_lengths(&mut columns, tm, modulation)?;
    Ok(columns)
}

/// The same line with the tone map's number in a column in front.
///
/// Fails only for want of memory.
pub fn tone_map_line(heap: Global, tm: u32, modulation: u32) -> Result<String, AllocError>
    ensures { IfOk result (λ s. Tone_map_line tm modulation (string_bytes s)) }
{
    let mut line = String::new(heap);
    push_number(&mut line, tm as usize)?;
    push_lengths(&mut line, tm, modulation)?;
    Ok(line)
}
