//! Unpacking: each byte as eight bits, highest first.

ghost use Rattle.std.specs.Prelude.{◌≡◌, ℕ, ◌*◌, ◌<◌, ◌≤◌, length, take, Some, slice_index, EachIndex};
ghost use Rattle.stage.specs.Agreement.{Regains};
ghost use Rattle.codings.specs.Unpackers.{bit_of, eight_bits, byte_of, packed, unpacking};
ghost use Rattle.codings.specs.UnpackLaws.{unpacking_sound};

use stage::PlainStage;
use stage::buffers::first_above;

/// The most bytes that the stage takes.
const MOST_BYTES: usize = 255;

/// How many bits a byte has.
const WIDTH: usize = 8;

/// A plain stage that puts out the eight bits of each byte, highest first; it takes 0 to 255
/// bytes.
#[derive(Clone, Copy)]
pub struct UnpackBits;

/// The bit `k` of `byte`, counted from the highest.
fn bit_from_top(byte: u8, k: usize) -> u8
    requires { k < 8 }
    ensures { result ≡ bit_of byte k }
{
    (byte >> (WIDTH - 1 - k)) % 2
}

/// Writes the eight bits of `byte` over `eight`, highest first.
fn put_bits(byte: u8, eight: &mut [u8])
    requires { length eight.old ≡ 8 }
    ensures { eight.new ≡ eight_bits byte }
{
    for (k, bit) in eight.iter_mut().enumerate() {
        *bit = bit_from_top(byte, k);
    }
}

/// The byte of eight bits, highest first.
fn byte_from_bits(bits: &[u8]) -> u8
    requires eight { length bits.now ≡ 8 }
    requires bits { EachIndex bits.now (λ k. slice_index bits.now k ≤ 1) }
    ensures { result ≡ byte_of (λ k. slice_index bits.now k) }
{
    128 * bits[0]
        + 64 * bits[1]
        + 32 * bits[2]
        + 16 * bits[3]
        + 8 * bits[4]
        + 4 * bits[5]
        + 2 * bits[6]
        + bits[7]
}

/// Writes the byte of each eight bits over `bytes`.
fn pack(bits: &[u8], bytes: &mut [u8])
    requires eights { length bits.now ≡ length bytes.old * 8 }
    requires bits { EachIndex bits.now (λ k. slice_index bits.now k ≤ 1) }
    ensures { bytes.new ≡ packed (length bytes.old) bits.now }
{
    for (i, eight) in bits.chunks_exact(WIDTH).enumerate() {
        bytes[i] = byte_from_bits(eight);
    }
}

/// Writes the bytes of the first `count` times eight bits over the front of the buffer that holds
/// them.
fn pack_front(count: usize, buffer: &mut [u8])
    requires room { count * 8 ≤ length buffer.old }
    requires bits { (k : ℕ) → k < count * 8 → slice_index buffer.old k ≤ 1 }
    ensures { take count buffer.new ≡ packed count buffer.old }
{
    for i in 0..count {
        buffer[i] = byte_from_bits(&buffer[i * WIDTH..(i + 1) * WIDTH]);
    }
}

impl PlainStage for UnpackBits {
    ghost meaning = { λ _. unpacking };

    fn number(&self) -> u8 {
        4
    }

    fn takes(&self) -> u8 {
        255
    }

    fn puts(&self) -> u8 {
        1
    }

    fn coded_length(&self, length: usize) -> Option<usize> {
        if length <= MOST_BYTES {
            Some(length * WIDTH)
        } else {
            None
        }
    }

    fn message_length(&self, length: usize) -> Option<usize> {
        (length % WIDTH == 0 && length <= MOST_BYTES * WIDTH).then_some(length / WIDTH)
    }

    fn write_coding(&self, list: &[u8], coded: &mut [u8]) {
        for (i, byte) in list.iter().enumerate() {
            // By place: what is written through `chunks_exact_mut` is not known behind it.
            put_bits(*byte, &mut coded[i * WIDTH..(i + 1) * WIDTH]);
        }
    }

    fn regain(&self, received: &[u8], list: &mut [u8]) -> Option<usize> {
        if let Some(place) = first_above(received, 1) {
            return Some(place);
        }
        pack(received, list);
        None
    }

    fn regain_front(&self, n: usize, reach: usize, work: &mut [u8], res: &mut [u8]) -> Option<usize>
        requires long { unpacking.message_length n ≡ Some reach }
        requires aside { n ≤ length work.old }
        requires front { n ≤ length res.old }
        requires room { reach ≤ length res.old }
        ensures regained { Regains unpacking (take n res.old) result (take reach res.new) }
        ensures work { work.new ≡ work.old }
    {
        if let Some(place) = first_above(&res[0..n], 1) {
            return Some(place);
        }
        pack_front(reach, res);
        None
    }

    ghost sound = { λ _. unpacking_sound };
}
