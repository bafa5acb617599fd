//! Writing the payload's rows of a frame.
ghost use Rattle.std.specs.Prelude.{◌≡◌, ℕ, ◌*◌, ◌≤◌, ◌++◌, length, take, drop};
ghost use Rattle.chains.specs.Chains.{payload_chain};
ghost use Rattle.frame.specs.Answers.{payload};
ghost use Rattle.frame.specs.Sizes.{payload_rows};
ghost use Rattle.rows.specs.Carriers.{carriers, gathered, row_at, spread};
ghost use Rattle.rows.specs.Rows.{header_cells, last_header_row};
ghost use Rattle.sending.specs.Sendings.{frame_cells, payload_part};
ghost use Rattle.stage.specs.Calls.{Holds};
ghost use Rattle.stage.specs.Model.{coding};

use crate::begun::Begun;
use chains::code_payload;
use rows::{CARRIERS, HEADER_CELLS, MOST_PAYLOAD_CELLS, Reference, gather_all, spread};

// Facts on a header with its payload and its buffer stand in each contract: a struct of the three would
// be made for one call. Buffers are filled and counted, since no memory is asked for.
impl Begun {
    /// The coding of a payload that goes on from the live cells of a row of phases, at the front of
    /// `coded`; answers how many cells it has.
    fn code_over(
        &self,
        row: &Reference,
        live: &[u8],
        bytes: &[u8],
        coded: &mut [u8; MOST_PAYLOAD_CELLS],
    ) -> usize
        requires live { live.now ≡ gathered self.now.header.tm row.now.cells }
        requires exactly { length bytes.now ≡ payload self.now.header }
        ensures { Holds coded.new result (coding (payload_chain self.now.header (gathered self.now.header.tm row.now.cells)) bytes.now) }
    {
        let mut work = [0u8; MOST_PAYLOAD_CELLS];
        let Ok(count) = code_payload(self.header, live, bytes, &mut work, coded) else {
            unreachable()
        };
        count
    }

    /// The coding of a payload that goes on from a row of phases, at the front of `coded`; answers
    /// how many cells it has.
    fn code_behind(
        &self,
        row: &Reference,
        bytes: &[u8],
        coded: &mut [u8; MOST_PAYLOAD_CELLS],
    ) -> usize
        requires { length bytes.now ≡ payload self.now.header }
        ensures { Holds coded.new result (coding (payload_chain self.now.header (gathered self.now.header.tm row.now.cells)) bytes.now) }
    {
        let mut live = [0u8; CARRIERS];
        let count = gather_all(self.header.tm, row.cells(), &mut live);
        let (front, _) = live.split_at(count);
        self.code_over(row, front, bytes, coded)
    }

    /// Spreads the given cells over the payload's rows behind the header's; all else is as it was.
    fn spread_behind(&self, given: &[u8], cells: &mut [u8])
        requires { frame_cells self.now.header ≤ length cells.old }
        ensures { cells.new ≡ take header_cells cells.old ++ (spread self.now.header.tm (carriers * payload_rows self.now.header.fl) given.now ++ drop (frame_cells self.now.header) cells.old) }
    {
        let end = HEADER_CELLS + CARRIERS * self.header.payload_rows();
        spread(self.header.tm, given, &mut cells[HEADER_CELLS..end]);
    }

    /// Writes the payload's rows behind the header's, from the last of these on; all else is as it
    /// was.
    pub(crate) fn write_payload(&self, row: &Reference, bytes: &[u8], cells: &mut [u8])
        requires row { row.now.cells ≡ row_at last_header_row cells.old }
        requires exactly { length bytes.now ≡ payload self.now.header }
        requires room { frame_cells self.now.header ≤ length cells.old }
        ensures { cells.new ≡ take header_cells cells.old ++ (payload_part self.now.header bytes.now cells.old ++ drop (frame_cells self.now.header) cells.old) }
    {
        let mut coded = [0u8; MOST_PAYLOAD_CELLS];
        let count = self.code_behind(row, bytes, &mut coded);
        let (front, _) = coded.split_at(count);
        self.spread_behind(front, cells);
    }
}
