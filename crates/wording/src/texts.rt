//! The text of answers: refusals, faults, headers, and the answers to stage calls.
ghost use Rattle.std.specs.Prelude.{◌≡◌, IfOk, OnOk};
ghost use Rattle.wording.specs.Texts.{answer_text, labelled, list_text, refusal_text, refused_text, with_chain_fault, with_fault, with_header};

use crate::buffers::front;
use crate::hexes::append_hex;
use frame::Header;
use stage::{ChainFault, Refusal};
use std::alloc::{AllocError, Global};

// No Display: lines are bytes that need not be text, so their answers are bytes, and a String would
// only be taken apart again.
/// Appends a label and a number behind it.
pub fn append_labelled(
    heap: Global,
    text: &mut Vec<u8>,
    label: &str,
    number: usize,
) -> Result<(), AllocError>
    ensures { OnOk result (text.new.items ≡ labelled text.old.items label.now number) }
{
    let digits = number.to_string(heap)?;
    text.extend_from_slice(label.as_bytes())?;
    text.extend_from_slice(digits.as_bytes())?;
    Ok(())
}

/// Appends a chain's fault.
///
/// Fails only for want of memory.
pub fn append_chain_fault(
    heap: Global,
    text: &mut Vec<u8>,
    fault: ChainFault,
) -> Result<(), AllocError>
    ensures { OnOk result (text.new.items ≡ with_chain_fault text.old.items fault) }
{
    append_labelled(heap, text, " stage ", fault.fault.number as usize)?;
    append_labelled(heap, text, " place ", fault.fault.place)?;
    append_labelled(heap, text, " depth ", fault.depth)?;
    Ok(())
}

/// Appends a header's five numbers.
///
/// Fails only for want of memory.
pub fn append_header(heap: Global, text: &mut Vec<u8>, header: Header) -> Result<(), AllocError>
    ensures { OnOk result (text.new.items ≡ with_header text.old.items header) }
{
    append_labelled(heap, text, " ", header.pdc as usize)?;
    append_labelled(heap, text, " ", header.modulation as usize)?;
    append_labelled(heap, text, " ", header.fl as usize)?;
    append_labelled(heap, text, " ", header.tm as usize)?;
    append_labelled(heap, text, " ", header.dt as usize)?;
    Ok(())
}

/// The text of an answer that is one word.
///
/// Fails only for want of memory.
pub fn word_text(heap: Global, word: &[u8]) -> Result<Vec<u8>, AllocError>
    ensures { IfOk result (λ t. t.items ≡ word.now) }
{
    let mut text = Vec::new(heap);
    text.extend_from_slice(word)?;
    Ok(text)
}

/// The text of a refusal by its number.
///
/// Fails only for want of memory.
pub fn refused_text(heap: Global, number: u32) -> Result<Vec<u8>, AllocError>
    ensures { IfOk result (λ t. t.items ≡ refused_text number) }
{
    let mut text = Vec::new(heap);
    append_labelled(heap, &mut text, "refused ", number as usize)?;
    Ok(text)
}

/// Appends a refusal's fault, if it has one.
fn append_fault(heap: Global, text: &mut Vec<u8>, refusal: Refusal) -> Result<(), AllocError>
    ensures { OnOk result (text.new.items ≡ with_fault text.old.items refusal) }
{
    if let Refusal::Fault(fault) = refusal {
        append_chain_fault(heap, text, fault)?;
    }
    Ok(())
}

/// The text of a refused stage call.
///
/// Fails only for want of memory.
pub fn refusal_text(heap: Global, refusal: Refusal) -> Result<Vec<u8>, AllocError>
    ensures { IfOk result (λ t. t.items ≡ refusal_text refusal) }
{
    let mut text = refused_text(heap, u32::from(refusal.number()))?;
    append_fault(heap, &mut text, refusal)?;
    Ok(text)
}

/// The text of a list that a stage call gave.
fn list_text(heap: Global, list: &[u8]) -> Result<Vec<u8>, AllocError>
    ensures { IfOk result (λ t. t.items ≡ list_text list.now) }
{
    let mut text = word_text(heap, b"list ")?;
    append_hex(&mut text, list)?;
    Ok(text)
}

/// The text of the answer to a stage call; a list that it gave lies in front of the result buffer.
///
/// Fails only for want of memory.
pub(crate) fn answer_text(
    heap: Global,
    answer: Result<usize, Refusal>,
    buffer: &[u8],
) -> Result<Vec<u8>, AllocError>
    ensures { IfOk result (λ t. t.items ≡ answer_text answer buffer.now) }
{
    match answer {
        Ok(length) => list_text(heap, front(buffer, length)),
        Err(refusal) => refusal_text(heap, refusal),
    }
}
