//! References: rows of phases, from which the phases of the rows behind them go on.
ghost use Rattle.std.specs.Prelude.{◌≡◌, true, false, MatchResult};
ghost use Rattle.rows.specs.Carriers.{is_reference};

use crate::carriers::{CARRIERS, is_reference};

/// A reference: 36 phases.
#[derive(Clone, Copy)]
pub struct Reference {
    cells: [u8; CARRIERS],
    ghost phases: { is_reference cells ≡ true },
}

/// What is no reference: not 36 cells, or not all of them phases.
#[derive(Clone, Copy, PartialEq, Eq, Debug)]
pub struct NotReference;

/// A row of 36 phases is the reference with these cells, and no other list is one.
impl TryFrom<&[u8]> for Reference {
    type Error = NotReference;

    ghost try_from_gives = { λ row r. MatchResult r
        (λ reference. reference.cells ≡ row.now)
        (λ _. is_reference row.now ≡ false) };

    fn try_from(row: &[u8]) -> Result<Reference, NotReference> {
        if !is_reference(row) {
            return Err(NotReference);
        }
        let mut cells = [0; CARRIERS];
        cells.copy_from_slice(row);
        Ok(Reference { cells })
    }
}

impl Reference {
    /// The cells of the row.
    pub fn cells(&self) -> &[u8; CARRIERS]
        ensures { result.now ≡ self.now.cells }
    {
        &self.cells
    }
}
