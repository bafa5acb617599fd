//! Piles of stages whose settings may be refused.

ghost use Rattle.std.specs.Prelude.{◌≡◌};
ghost use Rattle.chains.specs.Makings.{of_cells, of_pile, piled, piled_cells};
ghost use Rattle.std.specs.Result.{result_map_both as mapped_both};

use interleave::Interleave;
use phases::{Difference, Map};
use stage::{Pile, Refusal, Stage};

/// The three stages nearest the line, from bits to cells.
pub type ToCells = Pile<Pile<Interleave, Map>, Difference>;

/// The pile of two stages, or the refusal of the first whose setting was refused.
pub fn pile_up<A: Stage + Drop, B: Stage + Drop>(
    first: Result<A, Refusal>,
    second: Result<B, Refusal>,
) -> Result<Pile<A, B>, Refusal>
    ensures { mapped_both (of_pile A.Stage.model B.Stage.model) (λ e. e) result ≡ piled (mapped_both A.Stage.model (λ e. e) first) (mapped_both B.Stage.model (λ e. e) second) }
{
    let first = first?;
    let second = second?;
    Ok(Pile { first, second })
}

/// The stages that put `blocks` blocks of `rows` rows of `width` bits into cells, over a reference.
///
/// Refuses with `Setting` what one of the stages refuses.
pub fn to_cells(
    width: usize,
    rows: usize,
    blocks: usize,
    reference: &[u8],
) -> Result<ToCells, Refusal>
    ensures { mapped_both of_cells (λ e. e) result ≡ piled_cells width rows blocks reference.now }
{
    let increments = pile_up(Interleave::new(width, rows, blocks), Map::new(blocks));
    pile_up(increments, Difference::new(reference))
}
