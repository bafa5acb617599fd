//! Interleaving: the bits of each block, put to other places of it.

ghost use Rattle.std.specs.Prelude.{◌≡◌, ◌*◌, true};
ghost use Rattle.std.specs.Result.{result_map_both};
ghost use Rattle.stage.specs.Model.{plain};
ghost use Rattle.interleave.specs.Interleavings.{known_sizes, made_interleave, interleaving, KeepsThePromise};
ghost use Rattle.interleave.specs.MoveLaws.{interleaving_sound};

use crate::blocks::Block;
use crate::walks::Walk;
use stage::buffers::first_above;
use stage::{PlainStage, Refusal};

/// The number under which the stage's faults are known.
const NUMBER: u8 = 8;

/// The highest bit.
const HIGHEST_BIT: u8 = 1;

/// The shortest row, and what a longer one grows by.
const STEP: usize = 6;

/// The longest row.
const WIDEST: usize = 36;

/// The most rows of a block.
const MOST_ROWS: usize = 252;

/// The most blocks of a list.
const MOST_BLOCKS: usize = 3;

/// A plain stage that takes bits in blocks of rows, and puts the bits of each block to other
/// places of it.
#[derive(Clone, Copy)]
pub struct Interleave {
    block: Block,
    blocks: usize,
    ghost known: { known_sizes block.width block.rows blocks ≡ true },
}

impl Interleave {
    /// The stage for `blocks` blocks of `rows` rows of `width` bits.
    ///
    /// Refuses with `Setting` where `width` is not 6 to 36 in steps of 6, `rows` not 1 to 252, or
    /// `blocks` not 1 to 3.
    pub fn new(width: usize, rows: usize, blocks: usize) -> Result<Interleave, Refusal>
        ensures { result_map_both (λ (s : Interleave). plain (interleaving s.block.width s.block.rows s.blocks)) (λ e. e) result ≡ made_interleave width rows blocks }
    {
        if are_known(width, rows, blocks) {
            Ok(Interleave {
                block: Block::of(width, rows),
                blocks,
            })
        } else {
            Err(Refusal::Setting)
        }
    }

    /// How many bits a list has.
    fn bits(&self) -> usize
        ensures { result ≡ self.now.block.width * self.now.block.rows * self.now.blocks }
    {
        self.block.size() * self.blocks
    }
}

/// Whether rows may have `width` bits, blocks `rows` rows, and lists `blocks` blocks.
fn are_known(width: usize, rows: usize, blocks: usize) -> bool
    ensures { result ≡ known_sizes width rows blocks }
{
    (STEP <= width && width <= WIDEST && width % STEP == 0)
        && (1 <= rows && rows <= MOST_ROWS && (1 <= blocks && blocks <= MOST_BLOCKS))
}

/// With every setting that `Interleave::new` takes, the interleaver keeps the promise of stages.
pub fn interleaving_keeps_the_promise()
    ensures { KeepsThePromise }
{}

impl PlainStage for Interleave {
    ghost meaning = { λ s. interleaving s.block.width s.block.rows s.blocks };

    ghost sound = { λ s. interleaving_sound s.block.width s.block.rows s.blocks s.known };

    fn number(&self) -> u8 {
        NUMBER
    }

    fn takes(&self) -> u8 {
        HIGHEST_BIT
    }

    fn puts(&self) -> u8 {
        HIGHEST_BIT
    }

    fn coded_length(&self, length: usize) -> Option<usize> {
        (length == self.bits()).then_some(self.bits())
    }

    fn message_length(&self, length: usize) -> Option<usize> {
        (length == self.bits()).then_some(self.bits())
    }

    fn write_coding(&self, list: &[u8], coded: &mut [u8]) {
        let mut walk = Walk::at(&self.block, 0);
        for bit in list {
            coded[walk.place()] = *bit;
            walk = walk.onward();
        }
    }

    fn regain(&self, received: &[u8], list: &mut [u8]) -> Option<usize> {
        if let Some(place) = first_above(received, HIGHEST_BIT) {
            return Some(place);
        }
        let mut walk = Walk::at(&self.block, 0);
        for bit in list.iter_mut() {
            *bit = received[walk.place()];
            walk = walk.onward();
        }
        None
    }
}
