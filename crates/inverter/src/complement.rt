//! A stage that complements bits.

ghost use Rattle.std.specs.Prelude.{◌≡◌, ◌≤◌, true, map, length, take, Some};
ghost use Rattle.stage.specs.Plain.{within};
ghost use Rattle.stage.specs.Model.{plain, legal};
ghost use Rattle.stage.specs.Agreement.{Regains};
ghost use Rattle.inverter.specs.Complement.{complement, flip};
ghost use Rattle.inverter.specs.Complements.{complement_sound};

use stage::PlainStage;
use stage::buffers::first_above;

/// The number under which the stage's faults are known.
const NUMBER: u8 = 101;

/// The highest bit.
const HIGHEST_BIT: u8 = 1;

/// The longest list that the stage takes.
const LONGEST: usize = 65_535;

/// A plain stage that puts out each bit complemented; it takes 0 to 65,535 bits.
#[derive(Clone, Copy)]
pub struct Inverter;

/// The other bit.
fn other_bit(bit: u8) -> u8
    requires { bit ≤ 1 }
    ensures { result ≡ flip bit }
{
    1 - bit
}

/// Writes the complement of each of `bits` over `others`.
fn complement_all(bits: &[u8], others: &mut [u8])
    requires bits { within 1 bits.now ≡ true }
    requires long { length others.old ≡ length bits.now }
    ensures { others.new ≡ map flip bits.now }
{
    for (i, bit) in bits.iter().enumerate() {
        others[i] = other_bit(*bit);
    }
}

/// Complements each of `bits`.
fn complement_over(bits: &mut [u8])
    requires { within 1 bits.old ≡ true }
    ensures { bits.new ≡ map flip bits.old }
{
    for bit in bits.iter_mut() {
        *bit = other_bit(*bit);
    }
}

impl PlainStage for Inverter {
    ghost meaning = { λ _. complement };

    ghost sound = { λ _. complement_sound };

    fn number(&self) -> u8 {
        NUMBER
    }

    fn takes(&self) -> u8 {
        HIGHEST_BIT
    }

    fn puts(&self) -> u8 {
        HIGHEST_BIT
    }

    fn coded_length(&self, length: usize) -> Option<usize> {
        (length <= LONGEST).then_some(length)
    }

    fn message_length(&self, length: usize) -> Option<usize> {
        (length <= LONGEST).then_some(length)
    }

    fn write_coding(&self, list: &[u8], coded: &mut [u8]) {
        complement_all(list, coded);
    }

    fn regain(&self, received: &[u8], list: &mut [u8]) -> Option<usize> {
        if let Some(place) = first_above(received, HIGHEST_BIT) {
            return Some(place);
        }
        complement_all(received, list);
        None
    }

    fn code_front(&self, n: usize, reach: usize, work: &mut [u8], res: &mut [u8])
        requires list { legal (plain complement) (take n res.old) ≡ true }
        requires long { complement.coded_length n ≡ Some reach }
        requires aside { n ≤ length work.old }
        requires front { n ≤ length res.old }
        requires room { reach ≤ length res.old }
        ensures coded { take reach res.new ≡ complement.coding (take n res.old) }
        ensures work { work.new ≡ work.old }
    {
        complement_over(&mut res[0..reach]);
    }

    fn regain_front(&self, n: usize, reach: usize, work: &mut [u8], res: &mut [u8]) -> Option<usize>
        requires long { complement.message_length n ≡ Some reach }
        requires aside { n ≤ length work.old }
        requires front { n ≤ length res.old }
        requires room { reach ≤ length res.old }
        ensures regained { Regains complement (take n res.old) result (take reach res.new) }
        ensures work { work.new ≡ work.old }
    {
        if let Some(place) = first_above(&res[0..n], HIGHEST_BIT) {
            return Some(place);
        }
        complement_over(&mut res[0..n]);
        None
    }
}
