//! The rows that a receiver keeps.
ghost use Rattle.std.specs.Prelude.{◌≡◌, ℕ, ◌≤◌, true};
ghost use Rattle.receiving.specs.Fronts.{front_is_phases, most_rows};

use crate::sizes::MOST_CELLS;

mod methods;

/// The rows fed so far, one behind the other from the front of an array that holds the longest frame.
/// The cells of the first thirteen are phases.
// An array and a count: a receiver asks for no memory, so its rows lie in fixed memory and not in a Vec.
#[derive(Drop)]
pub struct Kept {
    cells: [u8; MOST_CELLS],
    rows: usize,
    ghost few: { rows ≤ most_rows },
    ghost phases: { front_is_phases rows cells ≡ true },
}
