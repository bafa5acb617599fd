//! Plain stages: what their authors write, and how that makes a stage.

ghost use Rattle.std.specs.Prelude.{◌≡◌, ◌≤◌, true, length, take, Some};
ghost use Rattle.stage.specs.Model.{plain, legal};
ghost use Rattle.stage.specs.Plain.{Plain};
ghost use Rattle.stage.specs.Sound.{Sound};
ghost use Rattle.stage.specs.Agreement.{Regains};
ghost use Rattle.stage.specs.Plains.{plain_keeps};

use crate::buffers::copy_front;
use crate::faults::{ChainFault, StageFault};
use crate::interface::Stage;
use crate::outline::{Outline, Span};

/// A plain stage: one coding that is not made of other stages.
///
/// The ghost `meaning` is what its author writes down of the coding, and the law that it is sound is
/// what the author shows. Whatever implements this trait is a [`Stage`] that keeps the promise.
pub trait PlainStage {
    ghost meaning: { Self → Plain };

    /// The number under which the stage's faults are known.
    fn number(&self) -> u8
        ensures { result ≡ (meaning self.now).number };

    /// The highest element that the stage takes.
    fn takes(&self) -> u8
        ensures { result ≡ (meaning self.now).takes };

    /// The highest element that the stage puts out.
    fn puts(&self) -> u8
        ensures { result ≡ (meaning self.now).puts };

    /// The length of the coding of `length` elements, if so many are taken.
    fn coded_length(&self, length: usize) -> Option<usize>
        ensures { result ≡ (meaning self.now).coded_length length };

    /// The length of the lists whose codings have `length` elements, if any has.
    fn message_length(&self, length: usize) -> Option<usize>
        ensures { result ≡ (meaning self.now).message_length length };

    /// Writes the coding of a legal list over `coded`, which is as long as that.
    fn write_coding(&self, list: &[u8], coded: &mut [u8])
        requires list { legal (plain (meaning self.now)) list.now ≡ true }
        requires long { (meaning self.now).coded_length (length list.now) ≡ Some (length coded.old) }
        ensures { coded.new ≡ (meaning self.now).coding list.now };

    /// Takes `received` for the coding of a list of the length of `list`, and writes that over it.
    ///
    /// Where `received` is no such coding, answers how far it agrees with the one that comes nearest;
    /// `list` is then working memory.
    fn regain(&self, received: &[u8], list: &mut [u8]) -> Option<usize>
        requires { (meaning self.now).message_length (length received.now) ≡ Some (length list.old) }
        ensures { Regains (meaning self.now) received.now result list.new };

    /// Writes the coding of the legal list of the first `n` elements of `res` over its first `reach`.
    ///
    /// The list is copied to `work`. A stage that can write over its own list does so instead, and
    /// leaves `work` alone.
    fn code_front(&self, n: usize, reach: usize, work: &mut [u8], res: &mut [u8])
        requires list { legal (plain (meaning self.now)) (take n res.old) ≡ true }
        requires long { (meaning self.now).coded_length n ≡ Some reach }
        requires aside { n ≤ length work.old }
        requires front { n ≤ length res.old }
        requires room { reach ≤ length res.old }
        ensures { take reach res.new ≡ (meaning self.now).coding (take n res.old) }
    {
        copy_front(n, res, work);
        self.write_coding(&work[0..n], &mut res[0..reach]);
    }

    /// Takes the first `n` elements of `res` for the coding of a list of `reach` elements, and writes
    /// that over the front, as `regain` does.
    ///
    /// The received list is copied to `work`, unless the stage can write over it.
    fn regain_front(&self, n: usize, reach: usize, work: &mut [u8], res: &mut [u8]) -> Option<usize>
        requires long { (meaning self.now).message_length n ≡ Some reach }
        requires aside { n ≤ length work.old }
        requires front { n ≤ length res.old }
        requires room { reach ≤ length res.old }
        ensures { Regains (meaning self.now) (take n res.old) result (take reach res.new) }
    {
        copy_front(n, res, work);
        self.regain(&work[0..n], &mut res[0..reach])
    }

    ghost sound: { (s : Self) → Sound (meaning s) };
}

impl<P: PlainStage> Stage for P {
    ghost model = { λ s. plain (P.PlainStage.meaning s) };

    ghost keeps = { λ s h. plain_keeps (P.PlainStage.meaning s) (P.PlainStage.sound s) };

    fn outline(&self) -> Outline {
        Outline {
            takes: self.takes(),
            puts: self.puts(),
            members: 1,
            fit: true,
        }
    }

    fn coded_span(&self, length: usize) -> Span {
        Span::of(length, self.coded_length(length))
    }

    fn decoded_span(&self, length: usize) -> Span {
        Span::of(length, self.message_length(length))
    }

    fn code_in(&self, n: usize, work: &mut [u8], res: &mut [u8]) -> usize {
        let Some(length) = self.coded_length(n) else {
            unreachable()
        };
        self.code_front(n, length, work, res);
        length
    }

    fn decode_in(&self, n: usize, work: &mut [u8], res: &mut [u8]) -> Result<usize, ChainFault> {
        let number = self.number();
        let Some(length) = self.message_length(n) else {
            return Err(ChainFault::from(StageFault { number, place: 0 }));
        };
        match self.regain_front(n, length, work, res) {
            None => Ok(length),
            Some(place) => Err(ChainFault::from(StageFault { number, place })),
        }
    }
}
