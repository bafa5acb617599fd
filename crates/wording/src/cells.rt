//! Lists of cells as text, and rows of them.
ghost use Rattle.std.specs.Prelude.{◌≡◌, ◌<◌, min, true, ◌++◌, map, IfOk, vec_items, OnOk};
ghost use Rattle.wording.specs.Cells.{all_cells, cell_char, cells_of, highest_cell, is_cell, read_cells, with_row, with_rows};
ghost use Rattle.wording.specs.Hexes.{digit_value};
ghost use Rattle.wording.specs.Words.{Reads, unread};
ghost use Rattle.std.specs.Option.{option_map};

use crate::digits::{digit_of, digit_value, is_cell};
use crate::words::Words;
use std::alloc::{AllocError, Global};

/// The highest cell that a character is for.
const HIGHEST_CELL: u8 = 35;

/// The cells of a row.
const ROW_LENGTH: usize = 36;

/// Whether all characters of a word are those of cells.
fn all_cells(word: &[u8]) -> bool
    ensures { result ≡ all_cells word.now }
{
    word.iter().all(|character| is_cell(*character))
}

/// The cells that characters write.
fn cells_in(heap: Global, word: &[u8]) -> Result<Vec<u8>, AllocError>
    requires { all_cells word.now ≡ true }
    ensures { IfOk result (λ v. v.items ≡ map digit_value word.now) }
{
    let mut cells = Vec::new(heap);
    for character in word {
        cells.push(digit_value(*character))?;
    }
    Ok(cells)
}

/// The cells that a word writes: a character for each, `0` to `9` and then `a` to `z`, or a dash for
/// the empty list; none if it writes no cells.
///
/// Fails only for want of memory.
pub fn cells_of(heap: Global, word: &[u8]) -> Result<Option<Vec<u8>>, AllocError>
    ensures { IfOk result (λ o. option_map vec_items o ≡ cells_of word.now) }
{
    if word == b"-".as_slice() {
        return Ok(Some(Vec::new(heap)));
    }
    if !all_cells(word) {
        return Ok(None);
    }
    let cells = cells_in(heap, word)?;
    Ok(Some(cells))
}

impl Words<'_> {
    /// The next word as a list of cells; none if it is none, or there is no word.
    pub fn cells(&mut self, heap: Global) -> Result<Option<Vec<u8>>, AllocError>
        ensures { IfOk result (λ o. Reads read_cells (unread self.old) (option_map vec_items o) (unread self.new)) }
    {
        let Some(word) = self.next_word() else {
            return Ok(None);
        };
        let cells = cells_of(heap, word)?;
        Ok(cells)
    }
}

/// A cell, or the highest that a character is for.
fn shown(cell: u8) -> u8
    ensures value { result ≡ min cell highest_cell }
    ensures bound { result < 36 }
{
    cell.min(HIGHEST_CELL)
}

/// The character of a cell.
fn cell_char(cell: u8) -> u8
    ensures { result ≡ cell_char cell }
{
    digit_of(shown(cell))
}

/// Appends the characters of cells.
fn append_cells(text: &mut Vec<u8>, cells: &[u8]) -> Result<(), AllocError>
    ensures { OnOk result (text.new.items ≡ text.old.items ++ map cell_char cells.now) }
{
    for cell in cells {
        text.push(cell_char(*cell))?;
    }
    Ok(())
}

/// Appends a row as a word of its own.
///
/// Fails only for want of memory.
pub fn append_row(text: &mut Vec<u8>, row: &[u8]) -> Result<(), AllocError>
    ensures { OnOk result (text.new.items ≡ with_row text.old.items row.now) }
{
    text.extend_from_slice(b" ")?;
    append_cells(text, row)?;
    Ok(())
}

/// Appends the first `count` rows of cells, each as a word of its own.
///
/// Fails only for want of memory.
pub fn append_rows(text: &mut Vec<u8>, cells: &[u8], count: usize) -> Result<(), AllocError>
    ensures { OnOk result (text.new.items ≡ with_rows text.old.items cells.now count) }
{
    let mut rest = cells;
    // By count, and not `chunks`: a row that the cells do not reach is shown as a word without characters.
    for _ in 0..count {
        let (row, behind) = rest.split_at(ROW_LENGTH.min(rest.len()));
        append_row(text, row)?;
        rest = behind;
    }
    Ok(())
}
