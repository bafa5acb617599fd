//! Carriers of a row: which are live, and how high their cells may be.
ghost use Rattle.std.specs.Prelude.{◌≡◌, ℕ, ◌*◌, ◌%◌};
ghost use Rattle.rows.specs.Carriers.{band_carriers, highest_on, is_reference, live_cell, row_fits};

use frame::BAND_CARRIERS;
use stage::buffers::all_within;

/// The carriers of a row.
pub const CARRIERS: usize = 36;

/// The sub-bands of a row.
const BANDS: usize = CARRIERS / BAND_CARRIERS;

/// The highest phase of a cell, in eighths of a turn.
pub const HIGHEST_PHASE: u8 = 7;

/// The cell of a silent carrier.
pub const SILENCE: u8 = 8;

/// Whether the cell at a place of rows, one behind the other, lies on a live carrier.
pub(crate) fn is_live(tm: u32, place: usize) -> bool
    ensures { result ≡ live_cell tm place }
{
    (tm >> (place % CARRIERS / BAND_CARRIERS)) % 2 == 1
}

/// The highest number that the cells of a sub-band of rows, one behind the other, may be.
fn highest_in(tm: u32, band: usize) -> u8
    ensures { result ≡ highest_on tm (band_carriers * (band % 6)) }
{
    if is_live(tm, BAND_CARRIERS * (band % BANDS)) {
        HIGHEST_PHASE
    } else {
        SILENCE
    }
}

/// Whether a row is a reference: 36 phases.
pub fn is_reference(row: &[u8]) -> bool
    ensures { result ≡ is_reference row.now }
{
    row.len() == CARRIERS && all_within(row, HIGHEST_PHASE)
}

/// Whether a row can be one of a payload with this tone map: 36 cells, phases on live carriers, and
/// phases or silence on the others.
pub fn row_fits(tm: u32, row: &[u8]) -> bool
    ensures { result ≡ row_fits tm row.now }
{
    let (bands, _) = row.as_chunks::<BAND_CARRIERS>();
    row.len() == CARRIERS
        && bands
            .iter()
            .enumerate()
            .all(|(band, cells)| all_within(cells, highest_in(tm, band)))
}
