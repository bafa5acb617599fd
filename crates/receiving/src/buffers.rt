//! Rows in lists of cells.
ghost use Rattle.std.specs.Prelude.{◌≡◌, ℕ, ◌+◌, ◌≤◌, length, take, drop};
ghost use Rattle.rows.specs.Carriers.{carriers};

use rows::CARRIERS;

/// The row that begins at a place of cells.
pub fn row_from(cells: &[u8], place: usize) -> &[u8]
    requires { place + carriers ≤ length cells.now }
    ensures { result.now ≡ take carriers (drop place cells.now) }
{
    &cells[place..place + CARRIERS]
}
