//! A block of rows, and the numbers by which its bits go to other places.

ghost use Rattle.std.specs.Prelude.{◌≡◌, ◌*◌, ◌<◌, ◌≤◌};
ghost use Rattle.interleave.specs.Places.{steps_of};
ghost use Rattle.interleave.specs.Walks.{steps_in, Along, Down};

use crate::steps::find_smallest;
use crate::strides::{Steps, Stride};

/// From this number on the steps are sought.
const FIRST_STEP: usize = 1;

/// The size of a block, its steps, and the strides that they make: `along` from a column to the
/// next in its row, and `down` from the last column of a row to the first of the next.
#[derive(Clone, Copy)]
pub struct Block {
    pub(crate) width: usize,
    pub(crate) rows: usize,
    pub(crate) steps: Steps,
    pub(crate) along: Stride,
    pub(crate) down: Stride,
    ghost some: { 0 < width },
    ghost wide: { width ≤ 36 },
    ghost many: { 0 < rows },
    ghost high: { rows ≤ 252 },
    ghost least: { steps_in steps ≡ steps_of width rows },
    ghost on: { Along steps width rows along },
    ghost back: { Down steps width rows down },
}

impl Block {
    /// The block of `rows` rows of `width` bits.
    pub(crate) fn of(width: usize, rows: usize) -> Block
        requires some { 0 < width }
        requires wide { width ≤ 36 }
        requires many { 0 < rows }
        requires high { rows ≤ 252 }
        ensures width { result.width ≡ width }
        ensures rows { result.rows ≡ rows }
    {
        let column_by_column = find_smallest(width, FIRST_STEP);
        let column_by_row = find_smallest(width, column_by_column + 1);
        let row_by_row = find_smallest(rows, FIRST_STEP);
        let row_by_column = find_smallest(rows, row_by_row + 1);
        let again = width - rows * column_by_row % width;
        let slide = row_by_column % rows;
        let on = column_by_column + slide * column_by_row;
        let turn = (row_by_row + (rows - (width - 1) * row_by_column % rows)) % rows;
        let back = turn * column_by_row + (width - (width - 1) * column_by_column % width);
        Block {
            width,
            rows,
            steps: Steps {
                column_by_column,
                column_by_row,
                row_by_row,
                row_by_column,
            },
            along: Stride {
                rows: slide,
                on: on % width,
                over: (on + again) % width,
            },
            down: Stride {
                rows: turn,
                on: back % width,
                over: (back + again) % width,
            },
        }
    }

    /// How many bits the block has.
    pub(crate) fn size(&self) -> usize
        ensures product { result ≡ self.now.width * self.now.rows }
        ensures some { 0 < result }
        ensures few { result ≤ 36 * 252 }
    {
        self.width * self.rows
    }
}
