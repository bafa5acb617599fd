//! The stage that adds each phase increment to the cell put out a row earlier.

ghost use Rattle.std.specs.Prelude.{◌≡◌, ◌+◌, ◌%◌, ◌<◌, ◌≤◌, true, length, take, Some, None, nat_le};
ghost use Rattle.std.specs.Result.{result_map_both};
ghost use Rattle.stage.specs.Model.{plain, legal};
ghost use Rattle.phases.specs.Differences.{row_length, is_reference, made_difference, earlier, turn_between, whole_rows, difference, Recurrence};
ghost use Rattle.phases.specs.DifferenceLaws.{difference_sound};

use stage::buffers::all_within;
use stage::{PlainStage, Refusal};

/// The number under which the stage's faults are known.
const NUMBER: u8 = 10;

/// The highest increment, and the highest cell.
const HIGHEST: u8 = 7;

/// The shortest row, and what a longer one grows by.
const STEP: usize = 6;

/// The longest row.
const WIDEST: usize = 36;

/// The longest list of increments.
const LONGEST: usize = 9_072;

/// A plain stage that adds each increment, modulo 8, to the cell put out a row earlier, and the
/// first row to a reference; it takes up to 9,072 increments in whole rows.
#[derive(Clone, Copy)]
pub struct Difference {
    // A count beside it: a stage has no heap, so a row stands in memory for the longest.
    row: [u8; 36],
    count: usize,
    ghost long: { row_length count ≡ true },
    ghost legal: { is_reference (take count row) ≡ true },
}

/// Every cell of the stage is its increment and the cell a row earlier, added modulo 8.
pub fn cells_follow_the_recurrence()
    ensures { Recurrence }
{}

/// Whether a row may have `count` cells.
fn is_row_length(count: usize) -> bool
    ensures { result ≡ row_length count }
{
    STEP <= count && count <= WIDEST && count % STEP == 0
}

/// Whether `reference` is a row of phases.
fn is_row(reference: &[u8]) -> bool
    ensures { result ≡ is_reference reference.now }
{
    is_row_length(reference.len()) && all_within(reference, HIGHEST)
}

/// Whether a received element is a cell.
fn is_cell(element: u8) -> bool
    ensures { result ≡ nat_le element 7 }
{
    element <= HIGHEST
}

/// A row as long as the longest, with `reference` in front.
fn padded(reference: &[u8]) -> [u8; 36]
    requires { is_reference reference.now ≡ true }
    ensures { take (length reference.now) result ≡ reference.now }
{
    let mut row = [0u8; 36];
    row[..reference.len()].copy_from_slice(reference);
    row
}

/// The same length, if it is that of whole rows of `count` and not too long.
fn rows_of(count: usize, length: usize) -> Option<usize>
    requires { 0 < count }
    ensures { result ≡ whole_rows count length }
{
    (length <= LONGEST && length % count == 0).then_some(length)
}

/// Two phases added.
fn sum(increment: u8, before: u8) -> u8
    ensures { result ≡ (increment + before) % 8 }
{
    increment.wrapping_add(before) & HIGHEST
}

/// The increment between two phases.
fn turn(cell: u8, before: u8) -> u8
    ensures { result ≡ turn_between cell before }
{
    cell.wrapping_sub(before) & HIGHEST
}

/// The cell a row before place `i`, that of the reference for the first row.
fn cell_before(i: usize, reference: &[u8], cells: &[u8]) -> u8
    requires { i < length cells.now }
    ensures { result ≡ earlier reference.now cells.now i }
{
    let row = reference.len();
    if i < row {
        reference[i]
    } else {
        cells[i - row]
    }
}

impl Difference {
    /// The stage over a reference of 6 to 36 cells, in steps of 6.
    ///
    /// Refuses with `Setting` a reference of another length, or with a cell above 7.
    pub fn new(reference: &[u8]) -> Result<Difference, Refusal>
        ensures { result_map_both (λ (d : Difference). plain (difference (take d.count d.row))) (λ e. e) result ≡ made_difference reference.now }
    {
        if !is_row(reference) {
            return Err(Refusal::Setting);
        }
        let row = padded(reference);
        let count = reference.len();
        Ok(Difference { row, count })
    }

    /// The reference.
    fn reference(&self) -> &[u8]
        ensures row { result.now ≡ take self.now.count self.now.row }
        ensures legal { is_reference result.now ≡ true }
    {
        &self.row[0..self.count]
    }
}

impl PlainStage for Difference {
    ghost meaning = { λ s. difference (take s.count s.row) };

    fn number(&self) -> u8 {
        NUMBER
    }

    fn takes(&self) -> u8 {
        HIGHEST
    }

    fn puts(&self) -> u8 {
        HIGHEST
    }

    fn coded_length(&self, length: usize) -> Option<usize> {
        rows_of(self.count, length)
    }

    fn message_length(&self, length: usize) -> Option<usize> {
        rows_of(self.count, length)
    }

    fn write_coding(&self, list: &[u8], coded: &mut [u8]) {
        let reference = self.reference();
        for (i, increment) in list.iter().enumerate() {
            coded[i] = sum(*increment, cell_before(i, reference, coded));
        }
    }

    fn regain(&self, received: &[u8], list: &mut [u8]) -> Option<usize> {
        let reference = self.reference();
        for (i, cell) in received.iter().enumerate() {
            if !is_cell(*cell) {
                return Some(i);
            }
            list[i] = turn(*cell, cell_before(i, reference, received));
        }
        None
    }

    fn code_front(&self, n: usize, reach: usize, work: &mut [u8], res: &mut [u8])
        requires list { legal (plain (difference (take self.now.count self.now.row))) (take n res.old) ≡ true }
        requires long { (difference (take self.now.count self.now.row)).coded_length n ≡ Some reach }
        requires aside { n ≤ length work.old }
        requires front { n ≤ length res.old }
        requires room { reach ≤ length res.old }
        ensures coded { take reach res.new ≡ (difference (take self.now.count self.now.row)).coding (take n res.old) }
        ensures work { work.new ≡ work.old }
    {
        let reference = self.reference();
        for i in 0..reach {
            res[i] = sum(res[i], cell_before(i, reference, res));
        }
    }

    ghost sound = { λ s. difference_sound (take s.count s.row) s.legal };
}
