//! The calls `pack` and `unpack`.
ghost use Rattle.std.specs.Prelude.{◌≡◌, ◌++◌, length, IfOk, vec_items, codes, OnOk};
ghost use Rattle.packing.specs.Packings.{pack_answer, unpack_answer};
ghost use Rattle.wording.specs.Hexes.{hex_of};
ghost use Rattle.talk.specs.Packs.{Leaves, pack_reply, packed_text, unpack_reply, unpacked_text, with_check_fault};
ghost use Rattle.wording.specs.Words.{unread};
ghost use Rattle.std.specs.Option.{option_map};

use frame::Header;
use packing::{PackRefusal, UnpackRefusal, pack, unpack};
use std::alloc::{AllocError, Global};
use wording::{
    Words, append_chain_fault, append_header, append_hex, front, refused_text, word_text,
};

/// Packs a header to the front of a buffer.
fn pack_front(header: Header, out: &mut [u8]) -> Result<usize, PackRefusal>
    ensures { Leaves header (length out.old) result out.new }
{
    pack(header, out)
}

/// The text of packed bytes.
fn bytes_text(heap: Global, bytes: &[u8]) -> Result<Vec<u8>, AllocError>
    ensures { IfOk result (λ t. t.items ≡ codes "bytes " ++ hex_of bytes.now) }
{
    let mut text = word_text(heap, b"bytes ")?;
    append_hex(&mut text, bytes)?;
    Ok(text)
}

/// Packs a header into a buffer, and gives the text of the answer.
fn pack_into(heap: Global, header: Header, out: &mut [u8]) -> Result<Vec<u8>, AllocError>
    ensures { IfOk result (λ t. t.items ≡ packed_text header (pack_answer header (length out.old))) }
{
    match pack_front(header, out) {
        Ok(length) => bytes_text(heap, front(out, length)),
        Err(refusal) => refused_text(heap, refusal.number()),
    }
}

/// Packs a header into a buffer of `room` bytes, and gives the text of the answer.
fn pack_text(heap: Global, header: Header, room: usize) -> Result<Vec<u8>, AllocError>
    ensures { IfOk result (λ t. t.items ≡ packed_text header (pack_answer header room)) }
{
    let mut out = vec![in heap; 0u8; room]?;
    pack_into(heap, header, out.as_mut_slice())
}

/// Reads the rest of `pack HEADER ROOM`, and gives the text of the answer; none if it cannot be
/// read.
pub fn pack_reply(heap: Global, words: &mut Words<'_>) -> Result<Option<Vec<u8>>, AllocError>
    ensures { IfOk result (λ o. option_map vec_items o ≡ pack_reply (unread words.old)) }
{
    let Some(header) = words.header() else {
        return Ok(None);
    };
    let Some(room) = words.last_room() else {
        return Ok(None);
    };
    let text = pack_text(heap, header, room)?;
    Ok(Some(text))
}

/// Appends the fault of a refused unpacking, if it has one.
fn append_check_fault(
    heap: Global,
    text: &mut Vec<u8>,
    refusal: UnpackRefusal,
) -> Result<(), AllocError>
    ensures { OnOk result (text.new.items ≡ with_check_fault text.old.items refusal) }
{
    if let UnpackRefusal::Fault(fault) = refusal {
        append_chain_fault(heap, text, fault)?;
    }
    Ok(())
}

/// Unpacks bytes, and gives the text of the answer.
fn unpack_text(heap: Global, bytes: &[u8]) -> Result<Vec<u8>, AllocError>
    ensures { IfOk result (λ t. t.items ≡ unpacked_text (unpack_answer bytes.now)) }
{
    match unpack(bytes) {
        Ok(header) => {
            let mut text = word_text(heap, b"header")?;
            append_header(heap, &mut text, header)?;
            Ok(text)
        }
        Err(refusal) => {
            let mut text = refused_text(heap, refusal.number())?;
            append_check_fault(heap, &mut text, refusal)?;
            Ok(text)
        }
    }
}

/// Reads the rest of `unpack HEX`, and gives the text of the answer; none if it cannot be read.
pub fn unpack_reply(heap: Global, words: &mut Words<'_>) -> Result<Option<Vec<u8>>, AllocError>
    ensures { IfOk result (λ o. option_map vec_items o ≡ unpack_reply (unread words.old)) }
{
    let Some(bytes) = words.last_list(heap)? else {
        return Ok(None);
    };
    let text = unpack_text(heap, bytes.as_slice())?;
    Ok(Some(text))
}
