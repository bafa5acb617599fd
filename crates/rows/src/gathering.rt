//! Gathering the live cells of rows, and spreading them over rows.
ghost use Rattle.std.specs.Prelude.{◌≡◌, ℕ, ◌≤◌, length};
ghost use Rattle.rows.specs.Carriers.{gathered, laid_over, spread};
ghost use Rattle.stage.specs.Calls.{Holds};

use crate::carriers::{SILENCE, is_live};

// Filled buffers and counts: senders and receivers ask for no memory.
/// Puts the live cells of rows to the front of a buffer, row by row, the lowest carrier first, as
/// many as it has room for; answers how many there are.
pub fn gather(tm: u32, cells: &[u8], buffer: &mut [u8]) -> usize
    ensures value { result ≡ length (gathered tm cells.now) }
    ensures buffer { buffer.new ≡ laid_over (gathered tm cells.now) buffer.old }
{
    let mut count = 0;
    for (place, cell) in cells.iter().enumerate() {
        if is_live(tm, place) {
            // An index: of a write through get_mut or iter_mut's next, proofs know the length alone.
            if count < buffer.len() {
                buffer[count] = *cell;
            }
            count += 1;
        }
    }
    count
}

/// Puts the live cells of rows to the front of a buffer that could hold all their cells; answers how
/// many there are.
pub fn gather_all(tm: u32, cells: &[u8], buffer: &mut [u8]) -> usize
    requires { length cells.now ≤ length buffer.old }
    ensures { Holds buffer.new result (gathered tm cells.now) }
{
    gather(tm, cells, buffer)
}

/// Fills rows with the given cells, one after the other, on live carriers, and with silence on the
/// others. Where there are too few, phase 0 stands for those that are missing.
pub fn spread(tm: u32, given: &[u8], cells: &mut [u8])
    ensures { cells.new ≡ spread tm (length cells.old) given.now }
{
    let mut rest = given.iter();
    for (place, cell) in cells.iter_mut().enumerate() {
        *cell = if is_live(tm, place) {
            rest.next().copied().unwrap_or(0)
        } else {
            SILENCE
        };
    }
}
