//! How many bytes a header's payload has, and how many rows its frame.
ghost use Rattle.std.specs.Prelude.{◌≡◌, ◌≤◌};
ghost use Rattle.frame.specs.Refusals.{first_beyond, legal_tone_map};
ghost use Rattle.frame.specs.Sizes.{live_carriers, payload_rows, row_count, coded_bits, block_bytes};
ghost use Rattle.frame.specs.Answers.{size_answer};

use crate::headers::{DT_HIGHEST, FL_HIGHEST, Header, MOD_HIGHEST, PDC_HIGHEST, TM_HIGHEST};
use crate::modulations::Modulation;
use crate::refusals::{Field, Refusal};

/// The highest delimiter type that is not reserved.
const DT_USED: u32 = 3;

/// The highest tone map of the six sub-bands is one less than this.
const SIX_BANDS: u32 = 64;

/// A Reed-Solomon block has at most this many bytes, parity included.
const BLOCK_LONGEST: usize = 255;

/// A sub-band has this many carriers.
pub const BAND_CARRIERS: usize = 6;

/// A frame begins with this many rows of header.
pub const HEADER_ROWS: usize = 13;

/// A unit of FL has this many payload rows.
const UNIT_ROWS: usize = 4;

/// The first field, in the order of sending, that holds more than its bits can.
fn first_beyond(header: Header) -> Option<Field>
    ensures { result ≡ first_beyond header }
{
    if header.pdc > PDC_HIGHEST {
        Some(Field::Pdc)
    } else if header.modulation > MOD_HIGHEST {
        Some(Field::Mod)
    } else if header.fl > FL_HIGHEST {
        Some(Field::Fl)
    } else if header.tm > TM_HIGHEST {
        Some(Field::Tm)
    } else if header.dt > DT_HIGHEST {
        Some(Field::Dt)
    } else {
        None
    }
}

/// Whether a tone map has some of the six sub-bands and nothing else.
fn legal_tone_map(tm: u32) -> bool
    ensures { result ≡ legal_tone_map tm }
{
    tm / SIX_BANDS == 0 && tm % SIX_BANDS != 0
}

impl Header {
    /// m: the carriers that are live for the payload, six for each bit of the tone map.
    pub fn live_carriers(self) -> usize
        ensures value { result ≡ live_carriers self.tm }
        ensures most { result ≤ 192 }
    {
        BAND_CARRIERS * self.tm.count_ones() as usize
    }

    /// n: the payload's rows, four for each unit of FL.
    pub fn payload_rows(self) -> usize
        ensures { result ≡ payload_rows self.fl }
    {
        UNIT_ROWS * self.fl as usize
    }

    /// All rows of the frame, the header's and the payload's.
    pub fn row_count(self) -> usize
        ensures { result ≡ row_count self.fl }
    {
        HEADER_ROWS + self.payload_rows()
    }

    /// P: the bits that the payload rows carry in a modulation, each of its copies counted once.
    fn coded_bits(self, modulation: Modulation) -> usize
        ensures { result ≡ coded_bits modulation self.fl self.tm }
    {
        let cells = self.live_carriers() * self.payload_rows();
        cells * modulation.bits_per_cell() / modulation.copies()
    }

    /// R: the bytes of the Reed-Solomon block in a modulation, payload and parity together.
    fn block_bytes(self, modulation: Modulation) -> usize
        ensures { result ≡ block_bytes modulation self.fl self.tm }
    {
        let bits = self.coded_bits(modulation);
        if bits < 12 { 0 } else { (bits / 2 - 6) / 8 }
    }
}

/// The payload's length N in bytes and the frame's row count, of a legal header.
///
/// Refuses an illegal header with 1 to 5, with the first that applies in that order.
pub fn size(header: Header) -> Result<(usize, usize), Refusal>
    ensures { result ≡ size_answer header }
{
    if let Some(field) = first_beyond(header) {
        return Err(Refusal::OutOfRange(field));
    }
    if !legal_tone_map(header.tm) {
        return Err(Refusal::ToneMap(header.tm));
    }
    if header.dt > DT_USED {
        return Err(Refusal::Reserved(header.dt));
    }
    let modulation = header.payload_modulation();
    let block = header.block_bytes(modulation);
    let parity = 2 * modulation.correctable();
    if block < parity + 1 {
        Err(Refusal::BlockTooShort(block))
    } else if block > BLOCK_LONGEST {
        Err(Refusal::BlockTooLong(block))
    } else {
        Ok((block - parity, header.row_count()))
    }
}
