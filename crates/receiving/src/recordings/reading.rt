//! Reading a recording row by row.
ghost use Rattle.std.specs.Prelude.{◌≡◌};
ghost use Rattle.receiving.specs.Recordings.{next_count, next_row, record_number, recorded, rows_read, shown};

use crate::buffers::row_from;
use crate::recordings::{RecordRefusal, RecordedRow};
use rows::CARRIERS;

impl RecordRefusal {
    /// The number under which the refusal is known to hosts.
    pub fn number(self) -> u32
        ensures { result ≡ record_number self }
    {
        match self {
            RecordRefusal::Short(_) => 9,
        }
    }
}

impl<'a> super::Recording<'a> {
    /// A recording of which no row is read yet.
    pub fn new(cells: &'a [u8]) -> super::Recording<'a>
        ensures cells { recorded result ≡ cells.now }
        ensures count { rows_read result ≡ 0 }
    {
        super::Recording { cells, row: 0 }
    }

    /// The next row, with its number and the place of its first cell; nothing behind the last.
    ///
    /// Refuses with 9 a part at the end that is shorter than a row, each time it is asked.
    pub fn next_row(&mut self) -> Option<Result<RecordedRow<'a>, RecordRefusal>>
        ensures value { shown result ≡ next_row (recorded self.old) (rows_read self.old) }
        ensures cells { recorded self.new ≡ recorded self.old }
        ensures count { rows_read self.new ≡ next_count (recorded self.old) (rows_read self.old) }
    {
        let number = self.row;
        let place = CARRIERS * number;
        let left = self.cells.len() - place;
        if left == 0 {
            return None;
        }
        if left < CARRIERS {
            return Some(Err(RecordRefusal::Short(left)));
        }
        self.row += 1;
        Some(Ok(RecordedRow {
            number,
            place,
            cells: row_from(self.cells, place),
        }))
    }
}
