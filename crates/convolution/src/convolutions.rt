//! The convolutional code of rate one half and constraint length seven.

ghost use Rattle.std.specs.Prelude.{◌≡◌, ◌+◌, ◌*◌, ◌%◌, ◌<◌, ◌≤◌, length, take, slice_set, Some};
ghost use Rattle.stage.specs.Agreement.{Regains};
ghost use Rattle.convolution.specs.Convolutions.{convolution, SingleOne};
ghost use Rattle.convolution.specs.Words.{word_x, word_y, fitting_bit};
ghost use Rattle.convolution.specs.NearestLaws.{convolution_sound};

use stage::PlainStage;

/// The number under which the stage's faults are known.
const NUMBER: u8 = 5;

/// The most bits that the stage takes.
const MOST_BITS: usize = 2_040;

/// How many zeros follow the message.
const TAIL: usize = 6;

/// A register holds the six bits before the one in hand; a word is the register and that bit.
const REGISTERS: u8 = 64;

/// A plain stage that takes 0 to 2,040 bits and puts out two bits, X and Y, for each of them and
/// for each of six zeros behind them.
#[derive(Clone, Copy)]
pub struct Convolve;

/// The coding of the single bit 1, as a fact of the definition. The function does nothing: its
/// contract is the fact.
pub fn single_one_is_coded()
    ensures { SingleOne }
{}

/// The word of a register and the bit in hand.
fn word_of(register: u8, bit: u8) -> u8
    requires six { register < 64 }
    requires bit { bit ≤ 1 }
    ensures { result ≡ 2 * register + bit }
{
    2 * register + bit
}

/// X of a word: the XOR of the bits 0, 1, 2, 3 and 6 back.
fn x_of(word: u8) -> u8
    ensures { result ≡ word_x word }
{
    (word ^ (word >> 1) ^ (word >> 2) ^ (word >> 3) ^ (word >> 6)) & 1
}

/// Y of a word: the XOR of the bits 0, 2, 3, 5 and 6 back.
fn y_of(word: u8) -> u8
    ensures { result ≡ word_y word }
{
    (word ^ (word >> 2) ^ (word >> 3) ^ (word >> 5) ^ (word >> 6)) & 1
}

/// Writes X and Y of a word over pair `i` of `coded`; answers the register behind it.
fn put_pair(i: usize, word: u8, coded: &mut [u8]) -> u8
    requires { 2 * i + 1 < length coded.old }
    ensures register { result ≡ word % 64 }
    ensures pair { coded.new ≡ slice_set (slice_set coded.old (2 * i) (word_x word)) (2 * i + 1) (word_y word) }
{
    coded[2 * i] = x_of(word);
    coded[2 * i + 1] = y_of(word);
    word % REGISTERS
}

/// The bit at place `i` of a message of `count` bits that makes X the received `x`, after the
/// bits in `register`; 0 in the tail.
fn bit_at(i: usize, count: usize, register: u8, x: u8) -> u8
    requires { register < 64 }
    ensures { result ≡ fitting_bit i count register x }
{
    if i < count {
        x.min(1) ^ x_of(2 * register)
    } else {
        0
    }
}

impl PlainStage for Convolve {
    ghost meaning = { λ _. convolution };

    ghost sound = { λ _. convolution_sound };

    fn number(&self) -> u8 {
        NUMBER
    }

    fn takes(&self) -> u8 {
        1
    }

    fn puts(&self) -> u8 {
        1
    }

    fn coded_length(&self, length: usize) -> Option<usize> {
        if length <= MOST_BITS {
            Some(2 * (length + TAIL))
        } else {
            None
        }
    }

    fn message_length(&self, length: usize) -> Option<usize> {
        if length % 2 == 0 && 2 * TAIL <= length && length <= 2 * (MOST_BITS + TAIL) {
            Some(length / 2 - TAIL)
        } else {
            None
        }
    }

    fn write_coding(&self, list: &[u8], coded: &mut [u8]) {
        let mut register = 0u8;
        for (i, bit) in list.iter().enumerate() {
            register = put_pair(i, word_of(register, *bit), coded);
        }
        for i in list.len()..list.len() + TAIL {
            register = put_pair(i, word_of(register, 0), coded);
        }
    }

    fn regain(&self, received: &[u8], list: &mut [u8]) -> Option<usize> {
        let mut register = 0u8;
        for (i, pair) in received.chunks_exact(2).enumerate() {
            let bit = bit_at(i, list.len(), register, pair[0]);
            let word = word_of(register, bit);
            if pair[0] != x_of(word) {
                return Some(2 * i);
            }
            if pair[1] != y_of(word) {
                return Some(2 * i + 1);
            }
            if i < list.len() {
                list[i] = bit;
            }
            register = word % REGISTERS;
        }
        None
    }

    fn regain_front(&self, n: usize, reach: usize, work: &mut [u8], res: &mut [u8]) -> Option<usize>
        requires long { convolution.message_length n ≡ Some reach }
        requires aside { n ≤ length work.old }
        requires front { n ≤ length res.old }
        requires room { reach ≤ length res.old }
        ensures regained { Regains convolution (take n res.old) result (take reach res.new) }
        ensures work { work.new ≡ work.old }
    {
        let mut register = 0u8;
        for i in 0..reach + TAIL {
            let bit = bit_at(i, reach, register, res[2 * i]);
            let word = word_of(register, bit);
            if res[2 * i] != x_of(word) {
                return Some(2 * i);
            }
            if res[2 * i + 1] != y_of(word) {
                return Some(2 * i + 1);
            }
            res[i] = bit;
            register = word % REGISTERS;
        }
        None
    }
}
