//! The word of 40 bits between a header and its five bytes: 28 bits, their check and seven zeros.
ghost use Rattle.std.specs.Prelude.{◌≡◌, ◌≤◌, true, length};
ghost use Rattle.stage.specs.Model.{plain, coding, decoding};
ghost use Rattle.stage.specs.Plain.{within};
ghost use Rattle.codings.specs.Checks.{checking};
ghost use Rattle.codings.specs.Unpackers.{unpacking};
ghost use Rattle.packing.specs.Bits.{header_bits, part, value};
ghost use Rattle.packing.specs.Faults.{fault_of, parts_fault, zeros_fault};
ghost use Rattle.packing.specs.Packings.{bytes_of, fault_in, header_word};

use crate::bits::{header_bits, value_of};
use crate::packs::PACKED_BYTES;
use codings::{Check, UnpackBits};
use frame::Header;
use stage::buffers::first_difference;
use stage::{ChainFault, Refusal, Stage, StageFault};

/// A header with its check has this many bits.
const CHECKED_BITS: usize = 33;

/// So many zeros stand behind the check.
const ZEROS: usize = 7;

/// The bits of five bytes.
const WORD_BITS: usize = CHECKED_BITS + ZEROS;

/// The number under which the check's faults are known.
const CHECK_NUMBER: u8 = 1;

/// The bits of a header with their check behind them.
fn checked_bits(header: Header) -> [u8; CHECKED_BITS]
    ensures { result ≡ coding (plain checking) (header_bits header) }
{
    let bits = header_bits(header);
    let mut work = [0u8; CHECKED_BITS];
    let mut checked = [0u8; CHECKED_BITS];
    let _ = Check.code(&bits, &mut work, &mut checked);
    checked
}

/// A word of 40 bits.
#[derive(Clone, Copy)]
pub(crate) struct Word {
    bits: [u8; WORD_BITS],
    ghost are_bits: { within 1 bits ≡ true },
}

impl Word {
    /// The word of a header.
    pub(crate) fn of_header(header: Header) -> Word
        ensures { result.bits ≡ coding (plain header_word) (header_bits header) }
    {
        let checked = checked_bits(header);
        let mut bits = [0u8; WORD_BITS];
        bits[0..CHECKED_BITS].copy_from_slice(&checked);
        Word { bits }
    }

    /// The byte that the eight bits from `at` on write.
    fn byte_at(&self, at: usize) -> u8
        requires { at ≤ 32 }
        ensures { result ≡ value (part at 8 self.now.bits) }
    {
        value_of(&self.bits[at..at + 8]) as u8
    }

    /// The five bytes of the word.
    pub(crate) fn bytes(&self) -> [u8; PACKED_BYTES]
        ensures { result ≡ bytes_of self.now.bits }
    {
        [
            self.byte_at(0),
            self.byte_at(8),
            self.byte_at(16),
            self.byte_at(24),
            self.byte_at(32),
        ]
    }
}

/// The word that five bytes hold.
fn word_of_bytes(bytes: &[u8; PACKED_BYTES]) -> [u8; WORD_BITS]
    ensures { result ≡ coding (plain unpacking) bytes.now }
{
    let mut work = [0u8; WORD_BITS];
    let mut word = [0u8; WORD_BITS];
    let _ = UnpackBits.code(bytes, &mut work, &mut word);
    word
}

/// The fault in a stage's answer, if it was refused with one.
fn fault_of(answer: Result<usize, Refusal>) -> Option<ChainFault>
    ensures { result ≡ fault_of answer }
{
    match answer {
        Err(Refusal::Fault(fault)) => Some(fault),
        _ => None,
    }
}

/// The check's fault, of the part of a word that it covers.
fn check_fault(checked: &[u8]) -> Option<ChainFault>
    requires { length checked.now ≡ 33 }
    ensures { result ≡ fault_in (decoding (plain checking) checked.now) }
{
    let mut work = [0u8; CHECKED_BITS];
    let mut bits = [0u8; CHECKED_BITS];
    fault_of(Check.decode(checked, &mut work, &mut bits))
}

/// The fault of the part of a word behind the check, at the first element that is not 0.
fn zeros_fault(zeros: &[u8]) -> Option<ChainFault>
    requires { length zeros.now ≡ 7 }
    ensures { result ≡ zeros_fault zeros.now }
{
    let place = first_difference(&[0; ZEROS], zeros)?;
    let fault = StageFault {
        number: CHECK_NUMBER,
        place: CHECKED_BITS + place,
    };
    Some(ChainFault { fault, depth: 0 })
}

/// The fault of five bytes as a word, part by part: the check's, or else that of the zeros.
fn parts_fault(bytes: &[u8; PACKED_BYTES]) -> Option<ChainFault>
    ensures { result ≡ parts_fault (coding (plain unpacking) bytes.now) }
{
    let word = word_of_bytes(bytes);
    if let Some(fault) = check_fault(&word[0..CHECKED_BITS]) {
        return Some(fault);
    }
    zeros_fault(&word[CHECKED_BITS..WORD_BITS])
}

/// The fault of five bytes as a header's word, if they are none's.
pub(crate) fn word_fault(bytes: &[u8]) -> Option<ChainFault>
    requires { length bytes.now ≡ 5 }
    ensures { result ≡ fault_in (decoding (plain header_word) (coding (plain unpacking) bytes.now)) }
{
    let Some(bytes) = bytes.as_array::<PACKED_BYTES>() else {
        unreachable()
    };
    parts_fault(bytes)
}
