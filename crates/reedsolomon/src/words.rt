//! A stage that appends Reed-Solomon parity to a message of bytes.

ghost use Rattle.std.specs.Prelude.{◌≡◌, ◌*◌, ◌<◌, true, length, take, Some, None};
ghost use Rattle.std.specs.Result.{result_map_both};
ghost use Rattle.stage.specs.Model.{plain};
ghost use Rattle.stage.specs.Searches.{FirstDifference};
ghost use Rattle.reedsolomon.specs.Codes.{known_strength, parity};
ghost use Rattle.reedsolomon.specs.Words.{words, made_words, generator_table, Shifted};
ghost use Rattle.reedsolomon.specs.WordLaws.{words_sound};

use crate::fields::multiply;
use stage::buffers::first_difference;
use stage::{PlainStage, Refusal};

/// The number under which the stage's faults are known.
const NUMBER: u8 = 3;

/// The most bytes that the stage puts out.
const LONGEST: usize = 255;

/// How many damaged bytes a robust code word is made to survive.
const STRENGTH_ROBUST: usize = 4;

/// How many damaged bytes any other code word is made to survive.
const STRENGTH: usize = 8;

/// The cells of a register for the most parity, and one more.
const REGISTER: usize = 2 * STRENGTH + 1;

/// The generator with the roots α to α^8, below its highest coefficient.
const GENERATOR_ROBUST: [u8; 8] = [227, 44, 178, 71, 172, 8, 224, 37];

/// The generator with the roots α to α^16, below its highest coefficient.
const GENERATOR: [u8; 16] = [
    118, 52, 103, 31, 104, 126, 187, 232, 17, 56, 183, 49, 100, 81, 44, 79,
];

/// A plain stage that takes 1 to 255 − 2T bytes and puts 2T bytes of parity behind them; T is 4 or
/// 8.
///
/// Any other list is illegal. A received list is refused at place 0 where it has fewer than 2T + 1
/// or more than 255 bytes, else at the first byte of parity that is wrong.
#[derive(Clone, Copy)]
pub struct ReedSolomon {
    strength: usize,
    ghost known: { known_strength strength ≡ true },
}

impl ReedSolomon {
    /// The stage with 2 · `strength` bytes of parity.
    ///
    /// Refuses with `Setting` where `strength` is neither 4 nor 8.
    pub fn new(strength: usize) -> Result<ReedSolomon, Refusal>
        ensures { result_map_both (λ (s : ReedSolomon). plain (words s.strength)) (λ e. e) result ≡ made_words strength }
    {
        if strength == STRENGTH_ROBUST || strength == STRENGTH {
            Ok(ReedSolomon { strength })
        } else {
            Err(Refusal::Setting)
        }
    }

    /// The generator's coefficients below its highest.
    fn generator(&self) -> &'static [u8]
        ensures { result.now ≡ take (2 * self.now.strength) (generator_table self.now.strength) }
    {
        if self.strength == STRENGTH_ROBUST {
            &GENERATOR_ROBUST
        } else {
            &GENERATOR
        }
    }

    /// The parity of a message, at the front of a register for the most of it and one cell more.
    fn parity(&self, message: &[u8]) -> [u8; REGISTER]
        ensures { take (2 * self.now.strength) result ≡ parity self.now.strength message.now }
    {
        let generator = self.generator();
        let mut register = [0u8; REGISTER];
        for byte in message {
            shift(generator, register[0] ^ *byte, &mut register);
        }
        register
    }

    /// The first place at which `check` is not the parity of a message.
    fn first_wrong(&self, message: &[u8], check: &[u8]) -> Option<usize>
        requires { length check.now ≡ 2 * self.now.strength }
        ensures { FirstDifference check.now (parity self.now.strength message.now) result }
    {
        let parity = self.parity(message);
        first_difference(check, &parity[..check.len()])
    }
}

/// Moves the cells of a register up one power and adds the generator, `feedback` times; the cell
/// behind them is taken in.
fn shift(generator: &[u8], feedback: u8, register: &mut [u8])
    requires { length generator.now < length register.old }
    ensures { Shifted feedback generator.now register.old register.new (length generator.now) }
{
    for (i, coefficient) in generator.iter().enumerate() {
        // An index: each cell is made of the one behind it, which the next turn writes.
        register[i] = register[i + 1] ^ multiply(feedback, *coefficient);
    }
}

impl PlainStage for ReedSolomon {
    ghost meaning = { λ s. words s.strength };

    fn number(&self) -> u8 {
        NUMBER
    }

    fn takes(&self) -> u8 {
        255
    }

    fn puts(&self) -> u8 {
        255
    }

    fn coded_length(&self, length: usize) -> Option<usize> {
        if 1 <= length && length <= LONGEST - 2 * self.strength {
            Some(length + 2 * self.strength)
        } else {
            None
        }
    }

    fn message_length(&self, length: usize) -> Option<usize> {
        if 2 * self.strength + 1 <= length && length <= LONGEST {
            Some(length - 2 * self.strength)
        } else {
            None
        }
    }

    fn write_coding(&self, list: &[u8], coded: &mut [u8]) {
        let parity = self.parity(list);
        let (front, back) = coded.split_at_mut(list.len());
        front.copy_from_slice(list);
        back.copy_from_slice(&parity[..back.len()]);
    }

    fn regain(&self, received: &[u8], list: &mut [u8]) -> Option<usize> {
        let (message, check) = received.split_at(list.len());
        list.copy_from_slice(message);
        let place = self.first_wrong(message, check)?;
        Some(message.len() + place)
    }

    ghost sound = { λ s. words_sound s.strength s.known };
}
