//! Filling: zeros behind a list of bits of fixed length.

ghost use Rattle.std.specs.Prelude.{◌≡◌, ◌≤◌, true, cond, length, take, Some};
ghost use Rattle.std.specs.Result.{result_map_both};
ghost use Rattle.stage.specs.declared.faults.Refusal.TheVariants.{Setting};
ghost use Rattle.stage.specs.Model.{plain};
ghost use Rattle.stage.specs.Agreement.{Regains};
ghost use Rattle.codings.specs.Fills.{made_fill, fillable, filling};
ghost use Rattle.codings.specs.FillLaws.{filling_sound};

use stage::buffers::first_above;
use stage::{PlainStage, Refusal};

/// The most bits that the stage puts out.
const MOST_FILLED: usize = 9_072;

/// A plain stage that takes a fixed count of bits and puts zeros behind them up to a total.
#[derive(Clone, Copy)]
pub struct Fill {
    bits: usize,
    total: usize,
    ghost range: { fillable bits total ≡ true },
}

impl Fill {
    /// The stage that takes `bits` bits and puts out `total`.
    ///
    /// Refuses with `Setting` where `bits` is above `total`, or `total` above 9,072.
    pub fn new(bits: usize, total: usize) -> Result<Fill, Refusal>
        ensures { result_map_both (λ (s : Fill). plain (filling s.bits s.total)) (λ e. e) result ≡ made_fill bits total }
    {
        if bits <= total && total <= MOST_FILLED {
            Ok(Fill { bits, total })
        } else {
            Err(Refusal::Setting)
        }
    }

    /// The place of the first element of `received` that a coding has not there.
    fn first_wrong(&self, received: &[u8]) -> Option<usize>
        requires { length received.now ≡ self.now.total }
        ensures { Regains (filling self.now.bits self.now.total) received.now result (take self.now.bits received.now) }
    {
        let (bits, zeros) = received.split_at(self.bits);
        if let Some(place) = first_above(bits, 1) {
            return Some(place);
        }
        first_above(zeros, 0).map(|place| self.bits + place)
    }
}

impl PlainStage for Fill {
    ghost meaning = { λ s. filling s.bits s.total };

    fn number(&self) -> u8 {
        6
    }

    fn takes(&self) -> u8 {
        1
    }

    fn puts(&self) -> u8 {
        1
    }

    fn coded_length(&self, length: usize) -> Option<usize> {
        (length == self.bits).then_some(self.total)
    }

    fn message_length(&self, length: usize) -> Option<usize> {
        (length == self.total).then_some(self.bits)
    }

    fn write_coding(&self, list: &[u8], coded: &mut [u8]) {
        let (bits, zeros) = coded.split_at_mut(self.bits);
        bits.copy_from_slice(list);
        zeros.fill(0);
    }

    fn regain(&self, received: &[u8], list: &mut [u8]) -> Option<usize> {
        list.copy_from_slice(&received[0..self.bits]);
        self.first_wrong(received)
    }

    fn code_front(&self, n: usize, reach: usize, work: &mut [u8], res: &mut [u8])
        requires long { (filling self.now.bits self.now.total).coded_length n ≡ Some reach }
        requires aside { n ≤ length work.old }
        requires front { n ≤ length res.old }
        requires room { reach ≤ length res.old }
        ensures coded { take reach res.new ≡ (filling self.now.bits self.now.total).coding (take n res.old) }
        ensures work { work.new ≡ work.old }
    {
        res[n..reach].fill(0);
    }

    fn regain_front(&self, n: usize, reach: usize, work: &mut [u8], res: &mut [u8]) -> Option<usize>
        requires long { (filling self.now.bits self.now.total).message_length n ≡ Some reach }
        requires aside { n ≤ length work.old }
        requires front { n ≤ length res.old }
        requires room { reach ≤ length res.old }
        ensures regained { Regains (filling self.now.bits self.now.total) (take n res.old) result (take reach res.new) }
        ensures work { work.new ≡ work.old }
    {
        self.first_wrong(&res[0..n])
    }

    ghost sound = { λ s. filling_sound s.bits s.total s.range };
}
