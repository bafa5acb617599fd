//! A row that can be the next: so many are missing, or the last of its part decides.
ghost use Rattle.std.specs.Prelude.{◌≡◌, ℕ, ◌+◌, ◌++◌, length};
ghost use Rattle.rows.specs.Carriers.{carriers};
ghost use Rattle.receiving.specs.declared.states.Phase.TheVariants.{Heading, Loading};
ghost use Rattle.receiving.specs.Keeping.{kept, rows_kept};
ghost use Rattle.receiving.specs.Receivers.{view};
ghost use Rattle.receiving.specs.Steps.{with_header_row, with_payload_row};

use crate::decisions::{FrameRows, decide_header};
use crate::refusals::FeedRefusal;
use crate::sizes::HEADER_ROWS;
use crate::states::{LegalHeader, Phase};
use rows::Reference;

impl super::Receiver {
    /// Keeps a header row. The thirteenth decides on the header.
    ///
    /// Listening ends unless the row says how it goes on.
    pub(super) fn hear_header_row(
        &mut self,
        reference: &Reference,
        row: &Reference,
    ) -> Result<usize, FeedRefusal>
        requires { self.old.phase ≡ Heading reference.now }
        ensures value { result ≡ (with_header_row reference.now.cells (rows_kept self.old.kept + 1) (kept self.old.kept ++ row.now.cells)).1 }
        ensures after { view self.new ≡ (with_header_row reference.now.cells (rows_kept self.old.kept + 1) (kept self.old.kept ++ row.now.cells)).0 }
    {
        self.phase = Phase::Deaf;
        self.kept.append(row.cells());
        let count = self.kept.count();
        if count < HEADER_ROWS {
            self.phase = Phase::Heading(*reference);
            return Ok(HEADER_ROWS - count);
        }
        let legal = decide_header(reference, &self.kept)?;
        self.phase = Phase::Loading(legal);
        Ok(legal.header.payload_rows())
    }

    /// Keeps a row behind the header's. The last decides on the payload.
    ///
    /// Listening ends unless the row says how it goes on.
    pub(super) fn hear_payload_row(
        &mut self,
        legal: LegalHeader,
        row: &[u8],
    ) -> Result<usize, FeedRefusal>
        requires loading { self.old.phase ≡ Loading legal }
        requires long { length row.now ≡ carriers }
        ensures value { result ≡ (with_payload_row legal.header (rows_kept self.old.kept + 1) (kept self.old.kept ++ row.now)).1 }
        ensures after { view self.new ≡ (with_payload_row legal.header (rows_kept self.old.kept + 1) (kept self.old.kept ++ row.now)).0 }
    {
        self.phase = Phase::Deaf;
        self.kept.append(row);
        let count = self.kept.count();
        let all = legal.header.row_count();
        if count < all {
            self.phase = Phase::Loading(legal);
            return Ok(all - count);
        }
        let frame = FrameRows {
            legal,
            rows: &self.kept,
        };
        let length = frame.decide_payload(&mut self.bytes)?;
        self.phase = Phase::Whole(legal.header, length);
        Ok(0)
    }
}
