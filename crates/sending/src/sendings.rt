//! Begin, finish and send.
ghost use Rattle.std.specs.Prelude.{◌≡◌, ℕ, ◌≤◌, ◌++◌, length, drop};
ghost use Rattle.frame.specs.Answers.{payload};
ghost use Rattle.sending.specs.Laws.{HoldsFrame, Sent};
ghost use Rattle.sending.specs.Sendings.{CanBegin, CanFinish, begin_answer, begin_buffer, begun_told, finish_answer, finish_buffer, finish_told, frame_cells, send_answer, send_buffer, sent};

use crate::begun::Begun;
use crate::header_rows::last_header_row;
use crate::refusals::{BeginRefusal, FinishRefusal, SendRefusal, Unfinished};
use frame::Header;
use rows::{CARRIERS, Reference};

/// A frame that can be begun with this header and reference in a buffer of so many cells, and the
/// reference.
fn beginning(
    header: Header,
    reference: &[u8],
    room: usize,
) -> Result<(Begun, Reference), BeginRefusal>
    ensures { CanBegin result header reference.now room }
{
    let begun = Begun::of(header)?;
    let Ok(reference) = Reference::try_from(reference) else {
        return Err(BeginRefusal::Reference);
    };
    let (_, rows) = begun.size();
    if room < CARRIERS * rows {
        return Err(BeginRefusal::TooShort);
    }
    Ok((begun, reference))
}

/// Begins a frame: writes the header's 13 rows under a reference row to the front of `cells`, and
/// answers the begun frame.
///
/// Refuses, in this order, an illegal header with 1 to 5, a reference that is not 36 cells of 0 to 7
/// with 8, and a buffer that cannot hold the whole frame with 7; the buffer is then as it was. Cells
/// behind the header's rows are as they were.
pub fn begin(header: Header, reference: &[u8], cells: &mut [u8]) -> Result<Begun, BeginRefusal>
    ensures answer { begun_told result ≡ begin_answer header reference.now (length cells.old) }
    ensures buffer { cells.new ≡ begin_buffer header reference.now (begun_told result) cells.old }
{
    let (begun, reference) = beginning(header, reference, cells.len())?;
    begun.write_header(&reference, cells);
    Ok(begun)
}

impl Begun {
    /// The last header row of a buffer in which the frame can be finished with so many bytes.
    fn finishing(&self, count: usize, cells: &[u8]) -> Result<Reference, FinishRefusal>
        ensures { CanFinish result self.now.header count cells.now }
    {
        let (length, rows) = self.size();
        if count != length {
            return Err(FinishRefusal::PayloadLength);
        }
        if cells.len() < CARRIERS * rows {
            return Err(FinishRefusal::TooShort);
        }
        let Ok(row) = last_header_row(cells) else {
            return Err(FinishRefusal::Reference);
        };
        Ok(row)
    }

    /// Writes a whole frame.
    fn write_frame(&self, reference: &Reference, bytes: &[u8], cells: &mut [u8])
        requires exactly { length bytes.now ≡ payload self.now.header }
        requires room { frame_cells self.now.header ≤ length cells.old }
        ensures buffer { cells.new ≡ sent self.now.header reference.now.cells bytes.now ++ drop (frame_cells self.now.header) cells.old }
        ensures law { HoldsFrame reference.now.cells self.now.header bytes.now cells.old cells.new }
    {
        self.write_header(reference, cells);
        let Ok(row) = last_header_row(cells) else {
            unreachable()
        };
        self.write_payload(&row, bytes, cells);
    }
}

/// Finishes a begun frame: writes the payload's rows behind the header's, from the last header row in
/// the buffer on, 8 on carriers that are not live; answers how many rows the frame has.
///
/// Refuses, in this order, a payload that has not exactly the header's number of bytes with 6, a
/// buffer that cannot hold the whole frame with 7, and a last header row that is not 36 cells of 0 to 7
/// with 8; the buffer is then as it was, and the begun frame is handed back. All other cells are as
/// they were.
pub fn finish(begun: Begun, bytes: &[u8], cells: &mut [u8]) -> Result<usize, Unfinished>
    ensures answer { finish_told result ≡ finish_answer begun.header bytes.now cells.old }
    ensures buffer { cells.new ≡ finish_buffer begun.header bytes.now (finish_told result) cells.old }
{
    match begun.finishing(bytes.len(), cells) {
        Ok(row) => {
            begun.write_payload(&row, bytes, cells);
            let (_, rows) = begun.size();
            Ok(rows)
        }
        Err(why) => Err(Unfinished { why, begun }),
    }
}

/// Sends a frame: begins it and finishes it in one buffer; answers how many rows it has.
///
/// The front of the buffer then holds the rows of the frame under the reference, and the rest is as
/// it was.
///
/// Refuses, in this order, as [`begin`] does, and a payload that has not exactly the header's number of
/// bytes with 6; the buffer is then as it was.
pub fn send(
    header: Header,
    reference: &[u8],
    bytes: &[u8],
    cells: &mut [u8],
) -> Result<usize, SendRefusal>
    ensures answer { result ≡ send_answer header reference.now bytes.now (length cells.old) }
    ensures buffer { cells.new ≡ send_buffer header reference.now bytes.now result cells.old }
    ensures law { Sent reference.now header bytes.now result cells.old cells.new }
{
    let (begun, reference) = beginning(header, reference, cells.len())?;
    let (length, rows) = begun.size();
    if bytes.len() != length {
        return Err(SendRefusal::PayloadLength);
    }
    begun.write_frame(&reference, bytes, cells);
    Ok(rows)
}
