//! The calls `begin` and `finish`.
ghost use Rattle.std.specs.Prelude.{◌≡◌, IfOk, vec_items, codes};
ghost use Rattle.desk.specs.Desks.{desk_view};
ghost use Rattle.desk.specs.Sending.{Begins, Finishes, begin_asked, begin_reply, begin_turn, finish_reply, finish_turn};
ghost use Rattle.desk.specs.Views.{Took};
ghost use Rattle.wording.specs.Cells.{with_rows};
ghost use Rattle.wording.specs.Words.{unread};
ghost use Rattle.std.specs.Option.{option_map};

use crate::desks::Desk;
use crate::requests::{BeginRequest, read_begin};
use frame::Header;
use sending::{BeginRefusal, Begun, Unfinished, begin, finish};
use std::alloc::{AllocError, Global};
use wording::{Words, append_rows, refused_text, word_text};

// A count beside the cells: a transmit buffer may be longer than its frame.
/// The text of a frame's rows, each a word.
fn rows_text(heap: Global, cells: &[u8], count: usize) -> Result<Vec<u8>, AllocError>
    ensures { IfOk result (λ t. t.items ≡ with_rows (codes "rows") cells.now count) }
{
    let mut text = word_text(heap, b"rows")?;
    append_rows(&mut text, cells, count)?;
    Ok(text)
}

/// Begins a frame in these cells.
fn begin_in(header: Header, reference: &[u8], cells: &mut Vec<u8>) -> Result<Begun, BeginRefusal>
    ensures { Begins header reference.now cells.old.items result cells.new.items }
{
    begin(header, reference, cells.as_mut_slice())
}

/// Finishes a begun frame in these cells.
fn finish_in(begun: Begun, bytes: &[u8], cells: &mut Vec<u8>) -> Result<usize, Unfinished>
    ensures { Finishes begun.header bytes.now cells.old.items result cells.new.items }
{
    finish(begun, bytes, cells.as_mut_slice())
}

impl Desk {
    /// Begins a frame in a new transmit buffer. If that is accepted the begun frame before it, and its
    /// buffer, are dropped; if it is refused nothing changes.
    fn begin(&mut self, heap: Global, request: &BeginRequest) -> Result<Vec<u8>, AllocError>
        ensures { IfOk result (λ t. Took (begin_turn (desk_view self.old) (begin_asked request.now)) t.items (desk_view self.new)) }
    {
        let mut cells = vec![in heap; 0u8; request.room]?;
        match begin_in(request.header, request.reference.as_slice(), &mut cells) {
            Ok(begun) => {
                let text = word_text(heap, b"begun")?;
                self.cells = cells;
                self.begun = Some(begun);
                Ok(text)
            }
            Err(refusal) => refused_text(heap, refusal.number()),
        }
    }

    /// Finishes the begun frame in the transmit buffer, and shows its rows. Afterwards there is no
    /// begun frame, but if that is refused nothing changes. Without a begun frame there is no such call.
    fn finish(&mut self, heap: Global, bytes: &[u8]) -> Result<Vec<u8>, AllocError>
        ensures { IfOk result (λ t. Took (finish_turn (desk_view self.old) bytes.now) t.items (desk_view self.new)) }
    {
        let Some(begun) = self.begun.take() else {
            return word_text(heap, b"unreadable");
        };
        match finish_in(begun, bytes, &mut self.cells) {
            Ok(rows) => {
                let text = rows_text(heap, self.cells.as_slice(), rows)?;
                Ok(text)
            }
            Err(refused) => {
                let Unfinished { why, begun } = refused;
                self.begun = Some(begun);
                let text = refused_text(heap, why.number())?;
                Ok(text)
            }
        }
    }

    /// Reads the rest of `begin HEADER CELLS ROOM`, and gives the text of the answer; none if it
    /// cannot be read.
    pub(crate) fn begin_reply(
        &mut self,
        heap: Global,
        words: &mut Words<'_>,
    ) -> Result<Option<Vec<u8>>, AllocError>
        ensures { IfOk result (λ o. Took (begin_reply (desk_view self.old) (unread words.old)) (option_map vec_items o) (desk_view self.new)) }
    {
        let Some(request) = read_begin(heap, words)? else {
            return Ok(None);
        };
        let text = self.begin(heap, &request)?;
        Ok(Some(text))
    }

    /// Reads the rest of `finish HEX`, and gives the text of the answer; none if it cannot be read.
    pub(crate) fn finish_reply(
        &mut self,
        heap: Global,
        words: &mut Words<'_>,
    ) -> Result<Option<Vec<u8>>, AllocError>
        ensures { IfOk result (λ o. Took (finish_reply (desk_view self.old) (unread words.old)) (option_map vec_items o) (desk_view self.new)) }
    {
        let Some(bytes) = words.last_list(heap)? else {
            return Ok(None);
        };
        let text = self.finish(heap, bytes.as_slice())?;
        Ok(Some(text))
    }
}
