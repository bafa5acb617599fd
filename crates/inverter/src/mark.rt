//! A stage that puts a closing mark behind a list of bits.

ghost use Rattle.std.specs.Prelude.{◌≡◌, ◌+◌, ◌-◌, ◌<◌, ◌≤◌, length, take, Some};
ghost use Rattle.stage.specs.Agreement.{Regains};
ghost use Rattle.inverter.specs.Mark.{marking};
ghost use Rattle.inverter.specs.Marks.{marking_sound};

use stage::PlainStage;
use stage::buffers::first_above;

/// The number under which the stage's faults are known.
const NUMBER: u8 = 102;

/// The highest element that the stage takes.
const TAKES: u8 = 1;

/// The closing mark, and the highest element that the stage puts out.
const MARK: u8 = 1;

/// The longest list that the stage puts out.
const LONGEST: usize = 65_535;

/// A plain stage that puts a 1 behind a list of 0 to 65,534 bits.
#[derive(Clone, Copy)]
pub struct Marker;

/// The place of the first element of `received` that is no bit, or no mark where that stands.
fn first_wrong(received: &[u8]) -> Option<usize>
    requires { 0 < length received.now }
    ensures { Regains marking received.now result (take (length received.now - 1) received.now) }
{
    let (bits, mark) = received.split_at(received.len() - 1);
    if let Some(place) = first_above(bits, TAKES) {
        return Some(place);
    }
    if mark[0] != MARK {
        return Some(bits.len());
    }
    None
}

impl PlainStage for Marker {
    ghost meaning = { λ _. marking };

    ghost sound = { λ _. marking_sound };

    fn number(&self) -> u8 {
        NUMBER
    }

    fn takes(&self) -> u8 {
        TAKES
    }

    fn puts(&self) -> u8 {
        MARK
    }

    fn coded_length(&self, length: usize) -> Option<usize> {
        if length < LONGEST {
            Some(length + 1)
        } else {
            None
        }
    }

    fn message_length(&self, length: usize) -> Option<usize> {
        if 0 < length && length <= LONGEST {
            Some(length - 1)
        } else {
            None
        }
    }

    fn write_coding(&self, list: &[u8], coded: &mut [u8]) {
        coded[0..list.len()].copy_from_slice(list);
        coded[list.len()] = MARK;
    }

    fn regain(&self, received: &[u8], list: &mut [u8]) -> Option<usize> {
        list.copy_from_slice(&received[0..list.len()]);
        first_wrong(received)
    }

    fn code_front(&self, n: usize, reach: usize, work: &mut [u8], res: &mut [u8])
        requires long { marking.coded_length n ≡ Some reach }
        requires aside { n ≤ length work.old }
        requires front { n ≤ length res.old }
        requires room { reach ≤ length res.old }
        ensures coded { take reach res.new ≡ marking.coding (take n res.old) }
        ensures work { work.new ≡ work.old }
    {
        res[n] = MARK;
    }

    fn regain_front(&self, n: usize, reach: usize, work: &mut [u8], res: &mut [u8]) -> Option<usize>
        requires long { marking.message_length n ≡ Some reach }
        requires aside { n ≤ length work.old }
        requires front { n ≤ length res.old }
        requires room { reach ≤ length res.old }
        ensures regained { Regains marking (take n res.old) result (take reach res.new) }
        ensures work { work.new ≡ work.old }
    {
        first_wrong(&res[0..n])
    }
}
