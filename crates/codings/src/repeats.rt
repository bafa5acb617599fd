//! Repetition: each bit several times in a row.

ghost use Rattle.std.specs.Prelude.{◌≡◌, ◌<◌, ◌≤◌, true, cond, length, take, replicate, Some};
ghost use Rattle.std.specs.Result.{result_map_both};
ghost use Rattle.stage.specs.declared.faults.Refusal.TheVariants.{Setting};
ghost use Rattle.stage.specs.Model.{plain};
ghost use Rattle.stage.specs.Agreement.{Regains};
ghost use Rattle.codings.specs.Repeats.{known_times, made_repeat, repetition, FirstOther, Copied};
ghost use Rattle.codings.specs.RepeatLaws.{repetition_sound};

use stage::{PlainStage, Refusal};

/// The most bits that the stage takes.
const MOST_BITS: usize = 2_268;

/// How often a bit is put out in a robust payload.
const TIMES_PAYLOAD: usize = 4;

/// How often a bit is put out in a header.
const TIMES_HEADER: usize = 6;

/// A plain stage that puts out each bit 4 or 6 times; it takes 0 to 2,268 bits.
#[derive(Clone, Copy)]
pub struct Repeat {
    times: usize,
    ghost known: { known_times times ≡ true },
}

impl Repeat {
    /// The stage that puts out each bit `times` times.
    ///
    /// Refuses with `Setting` where `times` is neither 4 nor 6.
    pub fn new(times: usize) -> Result<Repeat, Refusal>
        ensures { result_map_both (λ (s : Repeat). plain (repetition s.times)) (λ e. e) result ≡ made_repeat times }
    {
        if times == TIMES_PAYLOAD || times == TIMES_HEADER {
            Ok(Repeat { times })
        } else {
            Err(Refusal::Setting)
        }
    }
}

/// Writes `bit` over each element of `copies`.
fn put_copies(bit: u8, copies: &mut [u8])
    ensures { copies.new ≡ replicate (length copies.old) bit }
{
    // `fill` writes the last element by itself, which costs more where there are so few.
    for copy in copies.iter_mut() {
        *copy = bit;
    }
}

/// The place of the first element of `copies` that is not `bit`.
fn first_other(copies: &[u8], bit: u8) -> Option<usize>
    ensures { FirstOther bit copies.now result }
{
    copies.iter().position(|copy| *copy != bit)
}

/// The bit of which a group is made of copies, or the first place where stands another than the bit
/// nearest to its first element.
fn copied_bit(copies: &[u8]) -> Result<u8, usize>
    requires { 0 < length copies.now }
    ensures { Copied copies.now result }
{
    let bit = copies[0].min(1);
    match first_other(copies, bit) {
        None => Ok(bit),
        Some(place) => Err(place),
    }
}

impl PlainStage for Repeat {
    ghost meaning = { λ s. repetition s.times };

    fn number(&self) -> u8 {
        7
    }

    fn takes(&self) -> u8 {
        1
    }

    fn puts(&self) -> u8 {
        1
    }

    fn coded_length(&self, length: usize) -> Option<usize> {
        if length <= MOST_BITS {
            Some(length * self.times)
        } else {
            None
        }
    }

    fn message_length(&self, length: usize) -> Option<usize> {
        (length % self.times == 0 && length <= MOST_BITS * self.times).then_some(
            length / self.times,
        )
    }

    fn write_coding(&self, list: &[u8], coded: &mut [u8]) {
        for (i, bit) in list.iter().enumerate() {
            // By place: what is written through `chunks_exact_mut` is not known behind it.
            put_copies(*bit, &mut coded[i * self.times..(i + 1) * self.times]);
        }
    }

    fn regain(&self, received: &[u8], list: &mut [u8]) -> Option<usize> {
        for (i, copies) in received.chunks_exact(self.times).enumerate() {
            match copied_bit(copies) {
                Ok(bit) => list[i] = bit,
                Err(place) => return Some(i * self.times + place),
            }
        }
        None
    }

    fn regain_front(&self, n: usize, reach: usize, work: &mut [u8], res: &mut [u8]) -> Option<usize>
        requires long { (repetition self.now.times).message_length n ≡ Some reach }
        requires aside { n ≤ length work.old }
        requires front { n ≤ length res.old }
        requires room { reach ≤ length res.old }
        ensures regained { Regains (repetition self.now.times) (take n res.old) result (take reach res.new) }
        ensures work { work.new ≡ work.old }
    {
        for i in 0..reach {
            match copied_bit(&res[i * self.times..(i + 1) * self.times]) {
                Ok(bit) => res[i] = bit,
                Err(place) => return Some(i * self.times + place),
            }
        }
        None
    }

    ghost sound = { λ s. repetition_sound s.times s.known };
}
