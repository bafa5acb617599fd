//! A stage that appends a remainder by which damage to a short message is found.

ghost use Rattle.std.specs.Prelude.{◌≡◌};
ghost use Rattle.codings.specs.Polynomials.{remainder};
ghost use Rattle.codings.specs.Checks.{checking, generator, cells, shifted, CheckExamples};
ghost use Rattle.codings.specs.CheckLaws.{checking_sound};

use stage::PlainStage;
use stage::buffers::{first_above, first_difference};

/// How many bits the stage takes.
const MESSAGE: usize = 28;

/// How many bits it appends.
const CHECK: usize = 5;

/// How many bits it puts out.
const CODED: usize = MESSAGE + CHECK;

/// A plain stage that takes 28 bits and puts their remainder by x^5 + x^2 + 1 behind them.
///
/// Any other list is illegal. A received list is refused at place 0 where it has not 33 elements,
/// else at the first of the first 28 that is no bit, else at the first check bit that is wrong.
#[derive(Clone, Copy)]
pub struct Check;

/// The shift register of the division, a cell for each power below the fifth.
#[derive(Clone, Copy)]
struct Register {
    x4: u8,
    x3: u8,
    x2: u8,
    x1: u8,
    x0: u8,
}

/// The register after one more bit of the message.
fn shift(register: Register, bit: u8) -> Register
    ensures { result ≡ shifted register bit }
{
    let feedback = register.x4 ^ bit;
    Register {
        x4: register.x3,
        x3: register.x2,
        x2: register.x1 ^ feedback,
        x1: register.x0,
        x0: feedback,
    }
}

/// The register after all bits of a message.
fn divide(message: &[u8]) -> Register
    ensures { cells result ≡ remainder generator message.now }
{
    let mut register = Register {
        x4: 0,
        x3: 0,
        x2: 0,
        x1: 0,
        x0: 0,
    };
    for bit in message {
        register = shift(register, *bit);
    }
    register
}

/// The remainder of a message, highest power first.
fn check_of(message: &[u8]) -> [u8; CHECK]
    ensures { result ≡ remainder generator message.now }
{
    let register = divide(message);
    [
        register.x4,
        register.x3,
        register.x2,
        register.x1,
        register.x0,
    ]
}

impl PlainStage for Check {
    ghost meaning = { λ _. checking };

    fn number(&self) -> u8 {
        1
    }

    fn takes(&self) -> u8 {
        1
    }

    fn puts(&self) -> u8 {
        1
    }

    fn coded_length(&self, length: usize) -> Option<usize> {
        (length == MESSAGE).then_some(CODED)
    }

    fn message_length(&self, length: usize) -> Option<usize> {
        (length == CODED).then_some(MESSAGE)
    }

    fn write_coding(&self, list: &[u8], coded: &mut [u8]) {
        let (message, check) = coded.split_at_mut(MESSAGE);
        message.copy_from_slice(list);
        check.copy_from_slice(&check_of(list));
    }

    fn regain(&self, received: &[u8], list: &mut [u8]) -> Option<usize> {
        let (message, check) = received.split_at(MESSAGE);
        list.copy_from_slice(message);
        if let Some(place) = first_above(message, 1) {
            return Some(place);
        }
        first_difference(&check_of(message), check).map(|place| MESSAGE + place)
    }

    ghost sound = { λ _. checking_sound };
}

/// The worked examples hold of the definition. The function does nothing: its contract is the fact.
pub fn check_examples()
    ensures { CheckExamples }
{}
