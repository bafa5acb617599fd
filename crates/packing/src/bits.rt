//! A header as bits, in the order of sending, each field highest bit first.
ghost use Rattle.std.specs.Prelude.{◌≡◌, ◌+◌, ◌-◌, ◌*◌, ◌/◌, ◌%◌, ◌^◌, ◌<◌, ◌≤◌, length};
ghost use Rattle.packing.specs.Bits.{bits_of, header_bits, header_from, value};

use frame::Header;
use std::array;

/// The bits of a header before its check.
pub const HEADER_BITS: usize = 28;

/// The lowest bits of a number, as many as the array has, the highest of them first.
fn bits_of<const WIDTH: usize>(number: u32) -> [u8; WIDTH]
    requires { WIDTH ≤ 32 }
    ensures { result ≡ bits_of WIDTH number }
{
    array::from_fn(
        |place: usize| -> u8
            requires { (WIDTH ≤ 32) × (place < WIDTH) }
            ensures { result ≡ number / 2 ^ (WIDTH - 1 - place) % 2 }
        { ((number >> (WIDTH - 1 - place)) % 2) as u8 },
    )
}

/// The 28 bits of a header: PDC, MOD, FL, TM[7] to TM[0], TM[8], DT.
///
/// Of a number above what its field holds the bits are those that the field can hold.
#[tactic(auto, unfolding(crate::specs::Bits::header_bits))]
pub fn header_bits(header: Header) -> [u8; HEADER_BITS]
    ensures { result ≡ header_bits header }
{
    let mut bits = [0u8; HEADER_BITS];
    bits[0..8].copy_from_slice(&bits_of::<8>(header.pdc));
    bits[8..10].copy_from_slice(&bits_of::<2>(header.modulation));
    bits[10..16].copy_from_slice(&bits_of::<6>(header.fl));
    bits[16..24].copy_from_slice(&bits_of::<8>(header.tm));
    bits[24..25].copy_from_slice(&bits_of::<1>(header.tm / 256));
    bits[25..28].copy_from_slice(&bits_of::<3>(header.dt));
    bits
}

/// The number that up to eight bits write, the first of them highest.
pub(crate) fn value_of(bits: &[u8]) -> u32
    requires { length bits.now ≤ 8 }
    ensures value { result ≡ value bits.now }
    ensures bound { result < 65536 }
{
    let mut number = 0;
    for bit in bits {
        number = 2 * number + *bit as u32;
    }
    number
}

/// The header that 28 bits write, in the order of sending.
///
/// Whether it is legal is for [`size`](frame::size) to say.
#[tactic(auto, unfolding(crate::specs::Bits::header_from))]
pub fn header_from(bits: &[u8; HEADER_BITS]) -> Header
    ensures { result ≡ header_from bits.now }
{
    Header {
        pdc: value_of(&bits[0..8]),
        modulation: value_of(&bits[8..10]),
        fl: value_of(&bits[10..16]),
        tm: 256 * value_of(&bits[24..25]) + value_of(&bits[16..24]),
        dt: value_of(&bits[25..28]),
    }
}
