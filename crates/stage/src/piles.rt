//! The pile of two stages, and the law that it keeps the promise.

ghost use Rattle.std.specs.Prelude.{◌≡◌, ℕ, ◌≤◌, true, false, length, take};
ghost use Rattle.stage.specs.Model.{Model, pile, fits, legal, coding, decoding, code_room, decode_room};
ghost use Rattle.stage.specs.Calls.{Holds, Leaves, HasRoom};
ghost use Rattle.stage.specs.Piles.{PileLaw, MisfitLaw};
ghost use Rattle.stage.specs.Legality.{fitting};
ghost use Rattle.stage.specs.PilePromise.{pile_keeps};

use crate::faults::ChainFault;
use crate::interface::Stage;
use crate::outline::{Outline, Span};

/// The most plain stages that a pile may be made of.
const MOST_MEMBERS: u32 = 65_535;

/// Two stages as one: a list goes through `first` and then through `second`, which is nearer
/// the line.
#[derive(Drop)]
pub struct Pile<A, B> {
    /// The member nearer the host.
    pub first: A,
    /// The member nearer the line.
    pub second: B,
}

impl<A: Stage, B: Stage> Stage for Pile<A, B> {
    ghost model = { λ p. pile (A.Stage.model p.first) (B.Stage.model p.second) };

    ghost keeps = { λ p h.
        let a = A.Stage.model p.first in
        let b = B.Stage.model p.second in
        let f = fitting a b h in
        pile_keeps a b (A.Stage.keeps p.first f.first) (B.Stage.keeps p.second f.second) h };

    fn outline(&self) -> Outline {
        let first = self.first.outline();
        let second = self.second.outline();
        let members = first.members + second.members;
        Outline {
            takes: first.takes,
            puts: second.puts,
            members: members.min(MOST_MEMBERS + 1),
            fit: first.fit && second.fit && first.puts <= second.takes && members <= MOST_MEMBERS,
        }
    }

    fn coded_span(&self, length: usize) -> Span {
        let near = self.first.coded_span(length);
        match near.last {
            Some(middle) => near.then(self.second.coded_span(middle)),
            None => near,
        }
    }

    fn decoded_span(&self, length: usize) -> Span {
        let near = self.second.decoded_span(length);
        match near.last {
            Some(middle) => near.then(self.first.decoded_span(middle)),
            None => near,
        }
    }

    fn code_in(&self, n: usize, work: &mut [u8], res: &mut [u8]) -> usize {
        let middle = code_first(self, n, work, res);
        self.second.code_in(middle, work, res)
    }

    fn decode_in(&self, n: usize, work: &mut [u8], res: &mut [u8]) -> Result<usize, ChainFault> {
        let middle = decode_second(self, n, work, res)?;
        match self.first.decode_in(middle, work, res) {
            Ok(length) => Ok(length),
            Err(fault) => Err(fault.deeper(self.second.outline().members as usize)),
        }
    }
}

/// Codes by the first member of a pile; what it leaves is legal for the second, and there is room
/// for the second's lists.
fn code_first<A: Stage, B: Stage>(
    pair: &Pile<A, B>,
    n: usize,
    work: &mut [u8],
    res: &mut [u8],
) -> usize
    requires list { legal (pile (A.Stage.model pair.now.first) (B.Stage.model pair.now.second)) (take n res.old) ≡ true }
    requires front { n ≤ length res.old }
    requires work_room { code_room (pile (A.Stage.model pair.now.first) (B.Stage.model pair.now.second)) n ≤ length work.old }
    requires result_room { code_room (pile (A.Stage.model pair.now.first) (B.Stage.model pair.now.second)) n ≤ length res.old }
    ensures coded { Holds res.new result (coding (A.Stage.model pair.now.first) (take n res.old)) }
    ensures list { legal (B.Stage.model pair.now.second) (take result res.new) ≡ true }
    ensures work_room { code_room (B.Stage.model pair.now.second) result ≤ length work.new }
    ensures result_room { code_room (B.Stage.model pair.now.second) result ≤ length res.new }
{
    pair.first.code_in(n, work, res)
}

/// Decodes by the second member of a pile; where it accepts, there is room for the first's lists.
fn decode_second<A: Stage, B: Stage>(
    pair: &Pile<A, B>,
    n: usize,
    work: &mut [u8],
    res: &mut [u8],
) -> Result<usize, ChainFault>
    requires fit { fits (pile (A.Stage.model pair.now.first) (B.Stage.model pair.now.second)) ≡ true }
    requires front { n ≤ length res.old }
    requires work_room { decode_room (pile (A.Stage.model pair.now.first) (B.Stage.model pair.now.second)) n ≤ length work.old }
    requires result_room { decode_room (pile (A.Stage.model pair.now.first) (B.Stage.model pair.now.second)) n ≤ length res.old }
    ensures left { Leaves (decoding (B.Stage.model pair.now.second) (take n res.old)) result res.new }
    ensures rooms { HasRoom (A.Stage.model pair.now.first) result work.new res.new }
{
    pair.second.decode_in(n, work, res)
}

impl<A: Stage, B: Stage> Pile<A, B> {
    /// Whether the members fit: each in itself, the first's alphabet into the second's, and
    /// together no more than 65,535 plain stages.
    pub fn fit(&self) -> bool
        ensures { result ≡ fits (pile (A.Stage.model self.now.first) (B.Stage.model self.now.second)) }
    {
        self.outline().fit
    }
}

/// Answers whether the members of a pile fit. Where they do, the law of piles holds of it; where
/// they do not, nothing is legal for it, nor for any pile around it.
pub fn pile_keeps_the_promise<A: Stage, B: Stage>(pair: &Pile<A, B>) -> bool
    ensures value { result ≡ fits (pile (A.Stage.model pair.now.first) (B.Stage.model pair.now.second)) }
    ensures law { result ≡ true → PileLaw (A.Stage.model pair.now.first) (B.Stage.model pair.now.second) }
    ensures misfit { result ≡ false → MisfitLaw (A.Stage.model pair.now.first) (B.Stage.model pair.now.second) }
{
    pair.fit()
}
