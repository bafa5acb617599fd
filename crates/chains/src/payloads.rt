//! The payload chain of a header.

ghost use Rattle.std.specs.Prelude.{◌≡◌, ◌≤◌, length};
ghost use Rattle.chains.specs.Calls.{made_payload_chain};
ghost use Rattle.chains.specs.Makings.{of_bits, of_line, piled_bits, piled_cells, piled_payload, repeated_first};
ghost use Rattle.chains.specs.Meanings.{of_payload_chain};
ghost use Rattle.frame.specs.Answers.{Legal, payload};
ghost use Rattle.frame.specs.Modulations.{bits_per_cell};
ghost use Rattle.frame.specs.Sizes.{live_carriers};
ghost use Rattle.std.specs.Result.{result_map_both as mapped_both};

use crate::choices::Choice;
use crate::makings::{ToCells, pile_up, to_cells};
use crate::refusals::ChainRefusal;
use crate::wholes::Chain;
use codings::{Fill, Repeat, Scramble, UnpackBits};
use convolution::Convolve;
use frame::{Header, Modulation, size};
use reedsolomon::ReedSolomon;
use stage::{Pile, Refusal};

/// How often each coded bit of a robust payload is sent.
const ROBUST_COPIES: usize = 4;

/// The convolution puts out so many bits for a byte of the block.
const BYTE_CONVOLVED: usize = 16;

/// The convolution puts out so many bits for its tail.
const TAIL_CONVOLVED: usize = 12;

/// The stages from payload bytes to coded bits.
type ToBits = Pile<Pile<Pile<Scramble, ReedSolomon>, Pile<UnpackBits, Convolve>>, Fill>;

/// The stages from coded bits to cells, with or without copies.
type Line = Choice<Pile<Repeat, ToCells>, ToCells>;

/// The chain that carries a payload in the live cells of the payload rows: scramble,
/// Reed-Solomon, unpack bits, convolution, fill, repeat where the payload is robust, interleave,
/// map and difference.
pub type PayloadChain = Chain<Pile<ToBits, Line>>;

/// The stages for a block of `bytes` bytes, 2 · `strength` of them parity, and `total` coded bits.
fn to_bits(strength: usize, bytes: usize, total: usize) -> Result<ToBits, Refusal>
    requires { bytes ≤ 1000 }
    ensures { mapped_both of_bits (λ e. e) result ≡ piled_bits strength bytes total }
{
    let block = pile_up(Ok(Scramble), ReedSolomon::new(strength));
    let convolved = Pile {
        first: UnpackBits,
        second: Convolve,
    };
    let from = BYTE_CONVOLVED * bytes + TAIL_CONVOLVED;
    pile_up(pile_up(block, Ok(convolved)), Fill::new(from, total))
}

/// The stages that put coded bits into `rows` rows of as many cells as the reference has.
fn to_line(modulation: Modulation, rows: usize, reference: &[u8]) -> Result<Line, Refusal>
    ensures { mapped_both of_line (λ e. e) result ≡ repeated_first modulation (piled_cells (length reference.now) rows (bits_per_cell modulation) reference.now) }
{
    let cells = to_cells(reference.len(), rows, modulation.bits_per_cell(), reference);
    match modulation {
        Modulation::Robust => {
            let line = pile_up(Repeat::new(ROBUST_COPIES), cells)?;
            Ok(Choice::First(line))
        }
        _ => {
            let line = cells?;
            Ok(Choice::Second(line))
        }
    }
}

/// The stages of a payload chain, piled up, for `bytes` bytes of payload.
fn piled_over(
    modulation: Modulation,
    bytes: usize,
    rows: usize,
    reference: &[u8],
) -> Result<PayloadChain, Refusal>
    requires bytes { bytes ≤ 255 }
    requires rows { rows ≤ 252 }
    requires carriers { length reference.now ≤ 36 }
    ensures { mapped_both of_payload_chain (λ e. e) result ≡ piled_payload modulation bytes (length reference.now) rows reference.now }
{
    let strength = modulation.correctable();
    let cells = reference.len() * rows;
    let total = cells * modulation.bits_per_cell() / modulation.copies();
    let bits = to_bits(strength, bytes + 2 * strength, total);
    let pile = pile_up(bits, to_line(modulation, rows, reference))?;
    Ok(Chain { pile })
}

/// The chain of a legal header over a reference of as many cells as carriers are live, if they
/// are phases.
fn over_row(header: Header, bytes: usize, reference: &[u8]) -> Result<PayloadChain, ChainRefusal>
    requires legal { Legal header }
    requires bytes { bytes ≡ payload header }
    requires row { length reference.now ≡ live_carriers header.tm }
    ensures { mapped_both of_payload_chain (λ e. e) result ≡ made_payload_chain header reference.now }
{
    let modulation = header.payload_modulation();
    match piled_over(modulation, bytes, header.payload_rows(), reference) {
        Ok(chain) => Ok(chain),
        Err(_) => Err(ChainRefusal::Reference),
    }
}

impl PayloadChain {
    /// The chain of a header over a reference.
    ///
    /// Refuses, in this order, an illegal header as [`size`] does, and with `Reference` a reference
    /// that has not a cell of 0 to 7 for each live carrier.
    pub fn new(header: Header, reference: &[u8]) -> Result<PayloadChain, ChainRefusal>
        ensures { mapped_both of_payload_chain (λ e. e) result ≡ made_payload_chain header reference.now }
    {
        let (bytes, _) = size(header)?;
        if reference.len() != header.live_carriers() {
            return Err(ChainRefusal::Reference);
        }
        over_row(header, bytes, reference)
    }
}
