//! Recorded rows.
ghost use Rattle.std.specs.Prelude.{◌≡◌, ℕ, ◌*◌, ◌≤◌, length};

mod reading;

/// A row of a recording, as the recording has it.
#[derive(Clone, Copy)]
pub struct RecordedRow<'a> {
    /// The row's number, from 0 on.
    pub number: usize,
    /// The place of its first cell.
    pub place: usize,
    /// Its 36 cells.
    pub cells: &'a [u8],
}

/// Why a row of a recording was not handed out.
#[derive(Clone, Copy, PartialEq, Eq, Debug)]
pub enum RecordRefusal {
    /// 9: so many cells are left, fewer than a row has.
    Short(usize),
}

/// A reader of recorded rows: cells lent to it, one row of 36 behind the other.
// No Iterator: a short part is refused as often as it is asked for, so the items would have no end.
#[derive(Drop)]
pub struct Recording<'a> {
    cells: &'a [u8],
    row: usize,
    ghost inside: { 36 * row ≤ length cells.now },
}
