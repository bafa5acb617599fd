//! Packing a header to five bytes, and unpacking.
ghost use Rattle.std.specs.Prelude.{◌≡◌, length};
ghost use Rattle.frame.specs.Answers.{refusal};
ghost use Rattle.packing.specs.Packings.{Packed, pack_answer, packed, unpack_answer, unpack_unless};

use crate::refusals::{PackRefusal, UnpackRefusal};
use crate::words::{Word, word_fault};
use frame::{Header, size};

/// A packed header has this many bytes.
pub const PACKED_BYTES: usize = 5;

/// How many numbers FL's six bits hold; MOD stands above them in the second byte.
const FL_NUMBERS: u32 = 64;

/// How many numbers TM's low byte holds; TM[8] counts as much.
const LOW_TM_NUMBERS: u32 = 256;

/// How much TM[8] counts as the highest bit of the fourth byte.
const TM_8_WEIGHT: u32 = 128;

/// How much DT's lowest bit counts in the fourth byte, above four bits of the check.
const DT_WEIGHT: u32 = 16;

/// How many numbers DT's three bits hold.
const DT_NUMBERS: u32 = 8;

/// The five bytes that a header packs to.
fn packed_bytes(header: Header) -> [u8; PACKED_BYTES]
    ensures { result ≡ packed header }
{
    Word::of_header(header).bytes()
}

/// Writes a header as five bytes to the front of `out` and answers how many these are: its 28 bits,
/// their check of five bits, and seven zeros.
///
/// Refuses an illegal header with 1 to 5, with the first that applies in that order, and then with
/// 7 a buffer of fewer than five bytes. What stands behind the five bytes, and after a refusal all of
/// `out`, is as it was.
pub fn pack(header: Header, out: &mut [u8]) -> Result<usize, PackRefusal>
    ensures answer { result ≡ pack_answer header (length out.old) }
    ensures buffer { Packed header result out.old out.new }
{
    size(header)?;
    if out.len() < PACKED_BYTES {
        return Err(PackRefusal::TooShort);
    }
    out[0..PACKED_BYTES].copy_from_slice(&packed_bytes(header));
    Ok(PACKED_BYTES)
}

/// The header, if it is legal.
fn legal_header(header: Header) -> Result<Header, UnpackRefusal>
    ensures { result ≡ unpack_unless (refusal header) header }
{
    size(header)?;
    Ok(header)
}

/// The legal header that five bytes hold.
///
/// Refuses with 13 other than five bytes, then with 10 a wrong check or a one among the seven zeros
/// behind it, and then an illegal header with 2 to 5, with the first that applies in that order.
pub fn unpack(bytes: &[u8]) -> Result<Header, UnpackRefusal>
    ensures { result ≡ unpack_answer bytes.now }
{
    let [pdc, mod_fl, tm_low, tm_dt_check, _last] = bytes else {
        return Err(UnpackRefusal::NotFiveBytes);
    };
    if let Some(fault) = word_fault(bytes) {
        return Err(UnpackRefusal::from(fault));
    }
    legal_header(Header {
        pdc: *pdc as u32,
        modulation: *mod_fl as u32 / FL_NUMBERS,
        fl: *mod_fl as u32 % FL_NUMBERS,
        tm: *tm_dt_check as u32 / TM_8_WEIGHT * LOW_TM_NUMBERS + *tm_low as u32,
        dt: *tm_dt_check as u32 / DT_WEIGHT % DT_NUMBERS,
    })
}
