//! A walk through the bits of a list of blocks, one by one, that knows where each goes.

ghost use Rattle.std.specs.Prelude.{◌≡◌, ◌+◌, ◌*◌, ◌%◌, ◌<◌, ◌≤◌, if◌then◌else◌, nat_lt};
ghost use Rattle.interleave.specs.Places.{steps_of};
ghost use Rattle.interleave.specs.Interleavings.{goes_to};
ghost use Rattle.interleave.specs.Walks.{At};

use crate::blocks::Block;
use crate::strides::Stride;

/// Where a walk stands: at which bit and in which column, the row and the column to which the bit
/// goes, and the place where its block begins.
#[derive(Clone, Copy)]
pub(crate) struct Walk<'a> {
    block: &'a Block,
    bit: usize,
    column: usize,
    row: usize,
    target: usize,
    base: usize,
    ghost at: { At (steps_of block.now.width block.now.rows) block.now.width block.now.rows bit column row target base },
    ghost few: { bit ≤ 65535 },
}

impl<'a> Walk<'a> {
    /// The walk that stands at bit `bit` of a list of blocks like `block`.
    pub(crate) fn at(block: &'a Block, bit: usize) -> Walk<'a>
        requires { bit ≤ 65535 }
        ensures block { result.block.now ≡ block.now }
        ensures bit { result.bit ≡ bit }
    {
        let size = block.size();
        let base = bit / size * size;
        let in_block = bit % size;
        let column = in_block % block.width;
        let old_row = in_block / block.width;
        let steps = block.steps;
        let row = (old_row * steps.row_by_row + column * steps.row_by_column) % block.rows;
        let target = (column * steps.column_by_column + row * steps.column_by_row) % block.width;
        Walk {
            block,
            bit,
            column,
            row,
            target,
            base,
        }
    }

    /// The place to which the bit goes.
    pub(crate) fn place(&self) -> usize
        ensures { result ≡ goes_to self.now.block.now.width self.now.block.now.rows self.now.bit }
    {
        self.base + (self.row * self.block.width + self.target)
    }

    /// The walk one bit on.
    pub(crate) fn onward(&self) -> Walk<'a>
        requires { self.now.bit < 65535 }
        ensures block { result.block.now ≡ self.now.block.now }
        ensures bit { result.bit ≡ self.now.bit + 1 }
    {
        let block = self.block;
        let bit = self.bit + 1;
        if self.column + 1 < block.width {
            let (row, target) = self.goes_on(block.along);
            return Walk {
                block,
                bit,
                column: self.column + 1,
                row,
                target,
                base: self.base,
            };
        }
        let (row, target) = self.goes_on(block.down);
        Walk {
            block,
            bit,
            column: 0,
            row,
            target,
            base: self.base_onward(),
        }
    }

    /// The row and the column to which the bit goes that stands a stride further.
    fn goes_on(&self, stride: Stride) -> (usize, usize)
        requires rows { stride.rows < self.now.block.now.rows }
        requires on { stride.on < self.now.block.now.width }
        requires over { stride.over < self.now.block.now.width }
        ensures row { result.0 ≡ (self.now.row + stride.rows) % self.now.block.now.rows }
        ensures target { result.1 ≡ (self.now.target + (if nat_lt (self.now.row + stride.rows) self.now.block.now.rows then stride.on else stride.over)) % self.now.block.now.width }
    {
        let row = self.row + stride.rows;
        if row < self.block.rows {
            let target = wrapped(self.target + stride.on, self.block.width);
            return (row, target);
        }
        let target = wrapped(self.target + stride.over, self.block.width);
        (row - self.block.rows, target)
    }

    /// Where the block of the next bit begins, which is this one or the one behind it.
    fn base_onward(&self) -> usize
        requires { self.now.bit < 65535 }
        ensures { result ≡ (if nat_lt (self.now.bit + 1) (self.now.base + self.now.block.now.width * self.now.block.now.rows) then self.now.base else self.now.base + self.now.block.now.width * self.now.block.now.rows) }
    {
        let end = self.base + self.block.size();
        if self.bit + 1 < end { self.base } else { end }
    }
}

/// A number below twice `end` modulo `end`.
fn wrapped(number: usize, end: usize) -> usize
    requires { number < end + end }
    ensures { result ≡ number % end }
{
    if number < end { number } else { number - end }
}
