//! The calls that the layers above make: a chain is made for one call.

ghost use Rattle.std.specs.Prelude.{◌≡◌, length};
ghost use Rattle.chains.specs.Calls.{by_its_stage, code_header_answer, code_payload_answer, decode_header_answer, decode_payload_answer, made_payload_chain};
ghost use Rattle.chains.specs.Chains.{header_chain, payload_chain};
ghost use Rattle.chains.specs.Meanings.{of_payload_chain, Means};
ghost use Rattle.stage.specs.Calls.{Coded, Decoded};
ghost use Rattle.stage.specs.Model.{coding, decoding};
ghost use Rattle.std.specs.Result.{result_map_both as mapped_both};

use crate::headers::HeaderChain;
use crate::payloads::PayloadChain;
use crate::refusals::ChainRefusal;
use frame::Header;
use stage::{Refusal, Stage};

// Coding and decoding are told apart by name, as in a stage: a parameter for which would be no plainer.
/// Puts the 468 cells that carry a header's 28 bits at the front of `res` and answers how many
/// they are.
///
/// Refuses, in this order, with `Setting` a reference that is not 36 cells of 0 to 7, with
/// `Illegal` what is not 28 bits, and with `TooShort` a buffer of fewer than 468 elements.
///
/// On success `work`, and `res` behind the cells, are working memory. A refusal leaves both
/// buffers as they were.
pub fn code_header(
    reference: &[u8],
    bits: &[u8],
    work: &mut [u8],
    res: &mut [u8],
) -> Result<usize, Refusal>
    ensures answer { result ≡ code_header_answer reference.now bits.now (length work.old) (length res.old) }
    ensures buffers { Coded (coding (header_chain reference.now) bits.now) result work.old res.old work.new res.new }
{
    let chain = HeaderChain::new(reference)?;
    chain.code(bits, work, res)
}

/// Puts the 28 bits that a header's 468 cells carry at the front of `res` and answers how many
/// they are.
///
/// Refuses, in this order, with `Setting` a reference that is not 36 cells of 0 to 7, with
/// `TooShort` a buffer that is shorter than the longest list of the decoding, and with `Fault`
/// cells that carry no header.
///
/// On success `work`, and `res` behind the bits, are working memory. After a fault both buffers
/// are working memory, whole. Any other refusal leaves them as they were.
pub fn decode_header(
    reference: &[u8],
    cells: &[u8],
    work: &mut [u8],
    res: &mut [u8],
) -> Result<usize, Refusal>
    ensures answer { result ≡ decode_header_answer reference.now cells.now (length work.old) (length res.old) }
    ensures buffers { Decoded (decoding (header_chain reference.now) cells.now) result work.old res.old work.new res.new }
{
    let chain = HeaderChain::new(reference)?;
    chain.decode(cells, work, res)
}

/// The payload chain of a header over a reference, by its meaning.
fn chain_of(header: Header, reference: &[u8]) -> Result<PayloadChain, ChainRefusal>
    ensures value { mapped_both of_payload_chain (λ e. e) result ≡ made_payload_chain header reference.now }
    ensures meaning { Means result (payload_chain header reference.now) }
{
    PayloadChain::new(header, reference)
}

/// Puts the live cells that carry a payload at the front of `res`, row after row, and answers
/// how many they are.
///
/// Refuses, in this order, an illegal header as `size` does, with `Reference` a reference that has
/// not a cell of 0 to 7 for each live carrier, and as a stage with `Illegal` a payload of another
/// length than the header's, and with `TooShort` a buffer that is shorter than the longest list of
/// the coding.
///
/// On success `work`, and `res` behind the cells, are working memory. A refusal leaves both
/// buffers as they were.
pub fn code_payload(
    header: Header,
    reference: &[u8],
    payload: &[u8],
    work: &mut [u8],
    res: &mut [u8],
) -> Result<usize, ChainRefusal>
    ensures answer { result ≡ code_payload_answer header reference.now payload.now (length work.old) (length res.old) }
    ensures buffers { Coded (coding (payload_chain header reference.now) payload.now) (by_its_stage result) work.old res.old work.new res.new }
{
    let chain = chain_of(header, reference)?;
    let length = chain.code(payload, work, res)?;
    Ok(length)
}

/// Puts the payload that live cells carry at the front of `res` and answers how many bytes it
/// has.
///
/// Refuses, in this order, an illegal header as `size` does, with `Reference` a reference that has
/// not a cell of 0 to 7 for each live carrier, and as a stage with `TooShort` a buffer that is
/// shorter than the longest list of the decoding, and with `Fault` cells that carry no payload of
/// the header.
///
/// On success `work`, and `res` behind the payload, are working memory. After a fault both
/// buffers are working memory, whole. Any other refusal leaves them as they were.
pub fn decode_payload(
    header: Header,
    reference: &[u8],
    cells: &[u8],
    work: &mut [u8],
    res: &mut [u8],
) -> Result<usize, ChainRefusal>
    ensures answer { result ≡ decode_payload_answer header reference.now cells.now (length work.old) (length res.old) }
    ensures buffers { Decoded (decoding (payload_chain header reference.now) cells.now) (by_its_stage result) work.old res.old work.new res.new }
{
    let chain = chain_of(header, reference)?;
    let length = chain.decode(cells, work, res)?;
    Ok(length)
}
