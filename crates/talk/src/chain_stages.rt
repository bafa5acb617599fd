//! The chains of a frame as stages, and the calls on them.
ghost use Rattle.std.specs.Prelude.{◌≡◌, true, IfOk, vec_items};
ghost use Rattle.chains.specs.Calls.{made_payload_chain};
ghost use Rattle.chains.specs.Meanings.{of_payload_chain};
ghost use Rattle.talk.specs.ChainStages.{chain_answer, header_reply, payload_behind, payload_reply, row_reply};
ghost use Rattle.wording.specs.Requests.{read_request};
ghost use Rattle.wording.specs.Words.{unread};
ghost use Rattle.rows.specs.Carriers.{gathered, is_reference};
ghost use Rattle.std.specs.Option.{option_map};
ghost use Rattle.std.specs.Result.{result_map_both as mapped_both};

use chains::{ChainRefusal, HeaderChain, PayloadChain};
use frame::{Header, size};
use rows::{CARRIERS, gather, is_reference};
use std::alloc::{AllocError, Global};
use wording::{Direction, Words, answer_to, call_text, front, refused_text};

/// `header CELLS`.
pub fn header_reply(
    heap: Global,
    words: &mut Words<'_>,
    direction: Direction,
) -> Result<Option<Vec<u8>>, AllocError>
    ensures { IfOk result (λ o. option_map vec_items o ≡ header_reply direction (unread words.old)) }
{
    let Some(row) = words.cells(heap)? else {
        return Ok(None);
    };
    answer_to(heap, words, direction, HeaderChain::new(row.as_slice()))
}

/// The payload chain of a header over the live cells of a row.
fn live_chain(header: Header, row: &[u8]) -> Result<PayloadChain, ChainRefusal>
    requires { is_reference row.now ≡ true }
    ensures { mapped_both of_payload_chain (λ e. e) result ≡ made_payload_chain header (gathered header.tm row.now) }
{
    let mut live = [0u8; CARRIERS];
    let count = gather(header.tm, row, &mut live);
    PayloadChain::new(header, front(&live, count))
}

/// The payload chain of a header behind a row, its reference on live carriers.
///
/// Refuses, in this order, an illegal header as [`size`] does, and a row that is not 36 cells of 0
/// to 7.
fn payload_behind(header: Header, row: &[u8]) -> Result<PayloadChain, ChainRefusal>
    ensures { mapped_both of_payload_chain (λ e. e) result ≡ payload_behind header row.now }
{
    size(header)?;
    if !is_reference(row) {
        return Err(ChainRefusal::Reference);
    }
    live_chain(header, row)
}

// Not `answer_to`: a chain is refused by its number alone, and a text for each refusal would be a parameter.
/// Reads what is asked of a payload chain, which its settings made or did not, and gives the text of
/// the answer; none if it cannot be read.
fn chain_answer(
    heap: Global,
    words: &mut Words<'_>,
    direction: Direction,
    chain: Result<PayloadChain, ChainRefusal>,
) -> Result<Option<Vec<u8>>, AllocError>
    ensures { IfOk result (λ o. option_map vec_items o ≡ chain_answer direction (mapped_both of_payload_chain (λ e. e) chain) (read_request (unread words.old))) }
{
    let Some(request) = words.request(heap)? else {
        return Ok(None);
    };
    match chain {
        Ok(chain) => {
            let text = call_text(heap, direction, &chain, &request)?;
            Ok(Some(text))
        }
        Err(refusal) => {
            let text = refused_text(heap, refusal.number())?;
            Ok(Some(text))
        }
    }
}

/// Reads the row behind a payload chain's numbers, and what is asked of it.
fn row_reply(
    heap: Global,
    words: &mut Words<'_>,
    direction: Direction,
    header: Header,
) -> Result<Option<Vec<u8>>, AllocError>
    ensures { IfOk result (λ o. option_map vec_items o ≡ row_reply header direction (unread words.old)) }
{
    let Some(row) = words.cells(heap)? else {
        return Ok(None);
    };
    chain_answer(
        heap,
        words,
        direction,
        payload_behind(header, row.as_slice()),
    )
}

/// `payload MOD FL TM CELLS`.
pub fn payload_reply(
    heap: Global,
    words: &mut Words<'_>,
    direction: Direction,
) -> Result<Option<Vec<u8>>, AllocError>
    ensures { IfOk result (λ o. option_map vec_items o ≡ payload_reply direction (unread words.old)) }
{
    let Some(modulation) = words.number() else {
        return Ok(None);
    };
    let Some(fl) = words.number() else {
        return Ok(None);
    };
    let Some(tm) = words.number() else {
        return Ok(None);
    };
    let header = Header {
        pdc: 0,
        modulation,
        fl,
        tm,
        dt: 0,
    };
    row_reply(heap, words, direction, header)
}
