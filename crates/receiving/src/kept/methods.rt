//! Keeping rows, and reading them.
ghost use Rattle.std.specs.Prelude.{◌≡◌, ℕ, ◌+◌, ◌-◌, ◌*◌, ◌<◌, ◌≤◌, true, [], ◌++◌, length, drop};
ghost use Rattle.stage.specs.Plain.{within};
ghost use Rattle.rows.specs.Carriers.{carriers, highest_phase, is_reference, row_at};
ghost use Rattle.rows.specs.Rows.{header_cells, header_rows};
ghost use Rattle.receiving.specs.Fronts.{most_rows};
ghost use Rattle.receiving.specs.Keeping.{kept, rows_kept};

use crate::buffers::row_from;
use crate::sizes::{HEADER_CELLS, MOST_CELLS};
use rows::CARRIERS;

impl super::Kept {
    /// No rows.
    pub fn new() -> Self
        ensures rows { rows_kept result ≡ 0 }
        ensures cells { kept result ≡ [] }
    {
        super::Kept {
            cells: [0; MOST_CELLS],
            rows: 0,
        }
    }

    /// Forgets all rows.
    pub fn clear(&mut self)
        ensures rows { rows_kept self.new ≡ 0 }
        ensures cells { kept self.new ≡ [] }
    {
        self.rows = 0;
    }

    /// How many rows there are.
    pub fn count(&self) -> usize
        ensures { result ≡ rows_kept self.now }
    {
        self.rows
    }

    /// Keeps one row more, behind the others. One of the header's is of phases.
    pub fn append(&mut self, row: &[u8])
        requires room { rows_kept self.old < most_rows }
        requires long { length row.now ≡ carriers }
        requires phases { rows_kept self.old < header_rows → within highest_phase row.now ≡ true }
        ensures rows { rows_kept self.new ≡ rows_kept self.old + 1 }
        ensures cells { kept self.new ≡ kept self.old ++ row.now }
    {
        let place = CARRIERS * self.rows;
        self.cells[place..place + CARRIERS].copy_from_slice(row);
        self.rows += 1;
    }

    /// The cells of all rows.
    pub fn all_cells(&self) -> &[u8]
        ensures cells { result.now ≡ kept self.now }
        ensures long { length result.now ≡ carriers * rows_kept self.now }
    {
        &self.cells[0..CARRIERS * self.rows]
    }

    /// The cells of the rows behind the header's.
    pub fn behind_header(&self) -> &[u8]
        requires { header_rows ≤ rows_kept self.now }
        ensures cells { result.now ≡ drop header_cells (kept self.now) }
        ensures long { length result.now ≡ carriers * (rows_kept self.now - header_rows) }
    {
        &self.cells[HEADER_CELLS..CARRIERS * self.rows]
    }

    /// The header row of this number, from 0 on. Its cells are phases.
    pub fn header_row(&self, number: usize) -> &[u8]
        requires header { header_rows ≤ rows_kept self.now }
        requires inside { number < header_rows }
        ensures cells { result.now ≡ row_at number (kept self.now) }
        ensures refers { is_reference result.now ≡ true }
    {
        row_from(&self.cells, CARRIERS * number)
    }
}
