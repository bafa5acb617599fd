//! The calls `start`, `feed` and `take`.
ghost use Rattle.std.specs.Prelude.{◌≡◌, length, IfOk, Ok, Err, vec_items, OnOk};
ghost use Rattle.desk.specs.Desks.{desk_view};
ghost use Rattle.desk.specs.Receiving.{TakesOut, fed_text, feed_reply, feed_turn, part_text, start_reply, start_turn, take_reply, take_turn, taken_text, with_feed_fault};
ghost use Rattle.desk.specs.Views.{Took};
ghost use Rattle.wording.specs.Words.{unread};
ghost use Rattle.receiving.specs.Receivers.{view};
ghost use Rattle.receiving.specs.Steps.{taken};
ghost use Rattle.std.specs.Option.{option_map};

use crate::desks::Desk;
use frame::Header;
use receiving::{FeedRefusal, Part, Receiver, TakeRefusal};
use std::alloc::{AllocError, Global};
use wording::{
    Words, append_chain_fault, append_header, append_hex, append_labelled, front, refused_text,
    word_text,
};

/// The text of the part of a frame in which a fault lies.
fn part_text(heap: Global, part: Part) -> Result<Vec<u8>, AllocError>
    ensures { IfOk result (λ t. t.items ≡ part_text part) }
{
    match part {
        Part::Header => word_text(heap, b" part header"),
        Part::Payload => word_text(heap, b" part payload"),
    }
}

/// Appends the fault of a refused row and its part, if it has one.
fn append_feed_fault(
    heap: Global,
    text: &mut Vec<u8>,
    refusal: FeedRefusal,
) -> Result<(), AllocError>
    ensures { OnOk result (text.new.items ≡ with_feed_fault text.old.items refusal) }
{
    if let FeedRefusal::Fault(fault) = refusal {
        append_chain_fault(heap, text, fault.fault)?;
        let part = part_text(heap, fault.part)?;
        text.extend_from_slice(part.as_slice())?;
    }
    Ok(())
}

/// The text of a refused row.
fn feed_refusal_text(heap: Global, refusal: FeedRefusal) -> Result<Vec<u8>, AllocError>
    ensures { IfOk result (λ t. t.items ≡ fed_text (Err refusal)) }
{
    let mut text = refused_text(heap, refusal.number())?;
    append_feed_fault(heap, &mut text, refusal)?;
    Ok(text)
}

/// The text of how many rows are missing.
fn missing_text(heap: Global, missing: usize) -> Result<Vec<u8>, AllocError>
    ensures { IfOk result (λ t. t.items ≡ fed_text (Ok missing)) }
{
    let mut text = Vec::new(heap);
    append_labelled(heap, &mut text, "missing ", missing)?;
    Ok(text)
}

/// The text of a frame.
fn frame_text(heap: Global, header: Header, bytes: &[u8]) -> Result<Vec<u8>, AllocError>
    ensures { IfOk result (λ t. t.items ≡ taken_text (Ok (header, bytes.now))) }
{
    let mut text = word_text(heap, b"frame")?;
    append_header(heap, &mut text, header)?;
    text.extend_from_slice(b" ")?;
    append_hex(&mut text, bytes)?;
    Ok(text)
}

/// Takes a frame from a receiver to the front of a buffer.
fn take_out(receiver: &mut Receiver, out: &mut [u8]) -> Result<(Header, usize), TakeRefusal>
    ensures value { TakesOut (taken (view receiver.old) (length out.old)).1 result out.new }
    ensures after { view receiver.new ≡ (taken (view receiver.old) (length out.old)).0 }
{
    receiver.take(out)
}

/// Takes a frame by way of a buffer, and gives the text of the answer.
fn take_into(heap: Global, receiver: &mut Receiver, out: &mut [u8]) -> Result<Vec<u8>, AllocError>
    ensures text { IfOk result (λ t. t.items ≡ taken_text (taken (view receiver.old) (length out.old)).1) }
    ensures after { view receiver.new ≡ (taken (view receiver.old) (length out.old)).0 }
{
    match take_out(receiver, out) {
        Ok((header, length)) => frame_text(heap, header, front(out, length)),
        Err(refusal) => refused_text(heap, refusal.number()),
    }
}

// Calls alike but for their words and their turn: a turn as a parameter would be no plainer.
impl Desk {
    /// Has the receiver listen afresh, and gives the text of the answer.
    fn start(&mut self, heap: Global, row: &[u8]) -> Result<Vec<u8>, AllocError>
        ensures { IfOk result (λ t. Took (start_turn (desk_view self.old) row.now) t.items (desk_view self.new)) }
    {
        match self.receiver.start(row) {
            Ok(()) => word_text(heap, b"listening"),
            Err(refusal) => refused_text(heap, refusal.number()),
        }
    }

    /// Feeds a row to the receiver, and gives the text of the answer.
    fn feed(&mut self, heap: Global, row: &[u8]) -> Result<Vec<u8>, AllocError>
        ensures { IfOk result (λ t. Took (feed_turn (desk_view self.old) row.now) t.items (desk_view self.new)) }
    {
        match self.receiver.feed(row) {
            Ok(missing) => missing_text(heap, missing),
            Err(refusal) => feed_refusal_text(heap, refusal),
        }
    }

    /// Takes the receiver's frame into a buffer of `room` bytes, and gives the text of the answer.
    fn take(&mut self, heap: Global, room: usize) -> Result<Vec<u8>, AllocError>
        ensures { IfOk result (λ t. Took (take_turn (desk_view self.old) room) t.items (desk_view self.new)) }
    {
        let mut out = vec![in heap; 0u8; room]?;
        let text = take_into(heap, &mut self.receiver, out.as_mut_slice())?;
        Ok(text)
    }

    /// Reads the rest of `start CELLS`, and gives the text of the answer; none if it cannot be read.
    pub(crate) fn start_reply(
        &mut self,
        heap: Global,
        words: &mut Words<'_>,
    ) -> Result<Option<Vec<u8>>, AllocError>
        ensures { IfOk result (λ o. Took (start_reply (desk_view self.old) (unread words.old)) (option_map vec_items o) (desk_view self.new)) }
    {
        let Some(row) = words.last_cells(heap)? else {
            return Ok(None);
        };
        let text = self.start(heap, row.as_slice())?;
        Ok(Some(text))
    }

    /// Reads the rest of `feed CELLS`, and gives the text of the answer; none if it cannot be read.
    pub(crate) fn feed_reply(
        &mut self,
        heap: Global,
        words: &mut Words<'_>,
    ) -> Result<Option<Vec<u8>>, AllocError>
        ensures { IfOk result (λ o. Took (feed_reply (desk_view self.old) (unread words.old)) (option_map vec_items o) (desk_view self.new)) }
    {
        let Some(row) = words.last_cells(heap)? else {
            return Ok(None);
        };
        let text = self.feed(heap, row.as_slice())?;
        Ok(Some(text))
    }

    /// Reads the rest of `take ROOM`, and gives the text of the answer; none if it cannot be read.
    pub(crate) fn take_reply(
        &mut self,
        heap: Global,
        words: &mut Words<'_>,
    ) -> Result<Option<Vec<u8>>, AllocError>
        ensures { IfOk result (λ o. Took (take_reply (desk_view self.old) (unread words.old)) (option_map vec_items o) (desk_view self.new)) }
    {
        let Some(room) = words.last_room() else {
            return Ok(None);
        };
        let text = self.take(heap, room)?;
        Ok(Some(text))
    }
}
