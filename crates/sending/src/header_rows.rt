//! Writing the header's rows of a frame.
ghost use Rattle.std.specs.Prelude.{◌≡◌, ℕ, ◌≤◌, ◌++◌, length, drop, false, MatchResult};
ghost use Rattle.rows.specs.Carriers.{is_reference, row_at};
ghost use Rattle.rows.specs.Rows.{header_cells, last_header_row};
ghost use Rattle.sending.specs.Sendings.{header_part};

use crate::begun::Begun;
use chains::code_header;
use packing::header_bits;
use rows::{CARRIERS, HEADER_CELLS, NotReference, Reference};
use stage::buffers::copy_front;

impl Begun {
    /// The cells of the header's rows under a reference.
    fn header_cells(&self, reference: &Reference) -> [u8; HEADER_CELLS]
        ensures { result ≡ header_part self.now.header reference.now.cells }
    {
        let bits = header_bits(self.header);
        let mut work = [0u8; HEADER_CELLS];
        let mut cells = [0u8; HEADER_CELLS];
        let _ = code_header(reference.cells(), &bits, &mut work, &mut cells);
        cells
    }

    /// Writes the header's rows to the front of a buffer; the rest is as it was.
    pub(crate) fn write_header(&self, reference: &Reference, cells: &mut [u8])
        requires { header_cells ≤ length cells.old }
        ensures { cells.new ≡ header_part self.now.header reference.now.cells ++ drop header_cells cells.old }
    {
        let rows = self.header_cells(reference);
        copy_front(HEADER_CELLS, &rows, cells);
    }
}

/// The last header row in a buffer, from which the payload's phases go on.
pub(crate) fn last_header_row(cells: &[u8]) -> Result<Reference, NotReference>
    requires { header_cells ≤ length cells.now }
    ensures { MatchResult result (λ row. row.cells ≡ row_at last_header_row cells.now) (λ _. is_reference (row_at last_header_row cells.now) ≡ false) }
{
    Reference::try_from(&cells[HEADER_CELLS - CARRIERS..HEADER_CELLS])
}
