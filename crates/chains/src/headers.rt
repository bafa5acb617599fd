//! The header chain.

ghost use Rattle.std.specs.Prelude.{◌≡◌};
ghost use Rattle.chains.specs.Calls.{made_header_chain};
ghost use Rattle.chains.specs.Makings.{piled_header, of_cells};
ghost use Rattle.chains.specs.Meanings.{of_header_chain};
ghost use Rattle.std.specs.Result.{result_map_both as mapped_both};

use crate::makings::{ToCells, pile_up, to_cells};
use crate::wholes::Chain;
use codings::{Check, Repeat};
use convolution::Convolve;
use frame::HEADER_ROWS;
use stage::{Pile, Refusal};

/// Header rows have a cell on each of so many carriers.
const CARRIERS: usize = 36;

/// A header's cell carries one bit.
const BITS: usize = 1;

/// How often each coded bit is sent.
const COPIES: usize = 6;

/// The chain that carries a header's 28 bits in 468 cells: check, convolution, repeat,
/// interleave, map and difference.
pub type HeaderChain = Chain<Pile<Pile<Pile<Check, Convolve>, Repeat>, ToCells>>;

/// The stages of the header chain, piled up.
fn piled_over(reference: &[u8]) -> Result<HeaderChain, Refusal>
    ensures { mapped_both of_header_chain (λ e. e) result ≡ piled_header reference.now }
{
    let checked = Pile {
        first: Check,
        second: Convolve,
    };
    let copied = pile_up(Ok(checked), Repeat::new(COPIES));
    let pile = pile_up(copied, to_cells(CARRIERS, HEADER_ROWS, BITS, reference))?;
    Ok(Chain { pile })
}

impl HeaderChain {
    /// The chain over a reference row.
    ///
    /// Refuses with `Setting` a reference that is not 36 cells of 0 to 7.
    pub fn new(reference: &[u8]) -> Result<HeaderChain, Refusal>
        ensures { mapped_both of_header_chain (λ e. e) result ≡ made_header_chain reference.now }
    {
        if reference.len() != CARRIERS {
            return Err(Refusal::Setting);
        }
        piled_over(reference)
    }
}
