//! What the last row of a part decides: the header, and the payload.
ghost use Rattle.std.specs.Prelude.{◌≡◌, ℕ, ◌*◌, true, length, drop};
ghost use Rattle.stage.specs.Calls.{Holds};
ghost use Rattle.stage.specs.Model.{decoding};
ghost use Rattle.frame.specs.Sizes.{live_carriers, payload_rows, row_count};
ghost use Rattle.chains.specs.Chains.{header_chain, is_row, payload_chain};
ghost use Rattle.rows.specs.Carriers.{carriers, gathered, is_reference, row_at};
ghost use Rattle.rows.specs.Rows.{header_cells, header_rows, last_header_row, payload_reference};
ghost use Rattle.receiving.specs.Decisions.{header_decision, in_header, in_payload, payload_decision};
ghost use Rattle.receiving.specs.Keeping.{kept, rows_kept};
ghost use Rattle.receiving.specs.Verdicts.{Decided, Delivered, of_header, of_payload, turned};

use crate::kept::Kept;
use crate::refusals::{FeedRefusal, HeaderFault, PayloadFault, ReceiverFault};
use crate::sizes::{HEADER_CELLS, LAST_HEADER_ROW, MOST_BYTES, MOST_PAYLOAD_CELLS};
use crate::states::LegalHeader;
use chains::{ChainRefusal, decode_header, decode_payload};
use packing::bits::HEADER_BITS;
use packing::header_from;
use rows::{CARRIERS, Reference, gather_all};
use stage::Refusal;
use stage::buffers::copy_front;

/// The bits that a header's cells carry.
fn decode_header_cells(
    reference: &Reference,
    cells: &[u8],
) -> Result<[u8; HEADER_BITS], HeaderFault>
    requires { length cells.now ≡ header_cells }
    ensures { result ≡ turned of_header (decoding (header_chain reference.now.cells) cells.now) }
{
    let mut work = [0; HEADER_CELLS];
    let mut result = [0; HEADER_CELLS];
    match decode_header(reference.cells(), cells, &mut work, &mut result) {
        Ok(_) => {
            let mut bits = [0; HEADER_BITS];
            copy_front(HEADER_BITS, &result, &mut bits);
            Ok(bits)
        }
        Err(refusal) => {
            let Refusal::Fault(fault) = refusal else {
                unreachable()
            };
            Err(HeaderFault(fault))
        }
    }
}

/// The bits that a header's cells carry; a fault is the header's.
fn header_bits(reference: &Reference, cells: &[u8]) -> Result<[u8; HEADER_BITS], ReceiverFault>
    requires { length cells.now ≡ header_cells }
    ensures { result ≡ turned in_header (decoding (header_chain reference.now.cells) cells.now) }
{
    let bits = decode_header_cells(reference, cells)?;
    Ok(bits)
}

/// The header that thirteen rows carry under a reference.
///
/// Refuses with 10 rows that are no header's, and with 2 to 5 those of an illegal header.
pub fn decide_header(reference: &Reference, rows: &Kept) -> Result<LegalHeader, FeedRefusal>
    requires { rows_kept rows.now ≡ header_rows }
    ensures { Decided (header_decision reference.now.cells (kept rows.now)) result }
{
    let bits = header_bits(reference, rows.all_cells())?;
    let legal = LegalHeader::try_from(header_from(&bits))?;
    Ok(legal)
}

/// All rows of a frame.
#[derive(Clone, Copy)]
pub struct FrameRows<'a> {
    /// The header.
    pub legal: LegalHeader,
    /// The header's rows, and those behind them.
    pub rows: &'a Kept,
    ghost all: { rows_kept rows.now ≡ row_count legal.header.fl },
}

// Buffers that are filled, and counts of what is in them: a receiver asks for no memory.
impl<'a> FrameRows<'a> {
    /// Puts the payload that live cells carry at the front of `bytes`; answers its length.
    fn decode_live(
        &self,
        reference: &[u8],
        cells: &[u8],
        bytes: &mut [u8; MOST_BYTES],
    ) -> Result<usize, PayloadFault>
        requires refers { is_row (live_carriers self.now.legal.header.tm) reference.now ≡ true }
        requires long { length cells.now ≡ live_carriers self.now.legal.header.tm * payload_rows self.now.legal.header.fl }
        ensures { Delivered (turned of_payload (decoding (payload_chain self.now.legal.header reference.now) cells.now)) result bytes.new }
    {
        let mut work = [0; MOST_PAYLOAD_CELLS];
        let mut result = [0; MOST_PAYLOAD_CELLS];
        match decode_payload(self.legal.header, reference, cells, &mut work, &mut result) {
            Ok(length) => {
                copy_front(length, &result, bytes);
                Ok(length)
            }
            Err(refusal) => {
                let ChainRefusal::Stage(told) = refusal else {
                    unreachable()
                };
                let Refusal::Fault(fault) = told else {
                    unreachable()
                };
                Err(PayloadFault(fault))
            }
        }
    }

    /// The reference of the payload at the front of a buffer: the live cells of the last header row.
    fn live_reference(&self, buffer: &mut [u8; CARRIERS]) -> usize
        ensures live { Holds buffer.new result (payload_reference self.now.legal.header (kept self.now.rows.now)) }
        ensures refers { is_reference (row_at last_header_row (kept self.now.rows.now)) ≡ true }
    {
        gather_all(
            self.legal.header.tm,
            self.rows.header_row(LAST_HEADER_ROW),
            buffer,
        )
    }

    /// The live cells of the rows behind the header's at the front of a buffer.
    fn live_cells(&self, buffer: &mut [u8; MOST_PAYLOAD_CELLS]) -> usize
        ensures live { Holds buffer.new result (gathered self.now.legal.header.tm (drop header_cells (kept self.now.rows.now))) }
        ensures long { length (drop header_cells (kept self.now.rows.now)) ≡ carriers * payload_rows self.now.legal.header.fl }
    {
        gather_all(self.legal.header.tm, self.rows.behind_header(), buffer)
    }

    /// Puts the payload that the rows carry at the front of `bytes`; a fault is the payload's.
    fn payload_bytes(&self, bytes: &mut [u8; MOST_BYTES]) -> Result<usize, ReceiverFault>
        ensures { Delivered (turned in_payload (decoding (payload_chain self.now.legal.header (payload_reference self.now.legal.header (kept self.now.rows.now))) (gathered self.now.legal.header.tm (drop header_cells (kept self.now.rows.now))))) result bytes.new }
    {
        let mut reference = [0; CARRIERS];
        let live = self.live_reference(&mut reference);
        let mut cells = [0; MOST_PAYLOAD_CELLS];
        let count = self.live_cells(&mut cells);
        let length = self.decode_live(&reference[0..live], &cells[0..count], bytes)?;
        Ok(length)
    }

    /// Puts the payload that the rows carry at the front of `bytes`; answers its length.
    ///
    /// Refuses with 10 rows that carry no payload of the header.
    pub fn decide_payload(&self, bytes: &mut [u8; MOST_BYTES]) -> Result<usize, FeedRefusal>
        ensures { Delivered (payload_decision self.now.legal.header (kept self.now.rows.now)) result bytes.new }
    {
        let length = self.payload_bytes(bytes)?;
        Ok(length)
    }
}
