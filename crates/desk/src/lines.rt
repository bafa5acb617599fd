//! The answers to lines.
ghost use Rattle.std.specs.Prelude.{◌≡◌, IfOk, vec_items};
ghost use Rattle.desk.specs.Desks.{desk_view};
ghost use Rattle.desk.specs.Lines.{body_turn, line_turn, named_reply, new_desk, other_reply, read_reply};
ghost use Rattle.desk.specs.Views.{Took};
ghost use Rattle.wording.specs.Words.{read_word, unread};
ghost use Rattle.std.specs.Option.{option_map};

use crate::desks::Desk;
use crate::records::record_reply;
use receiving::Receiver;
use std::alloc::{AllocError, Global};
use talk::call_reply;
use wording::{Words, is_skipped, without_end, word_text};

// Two names and no table: one is of this crate, the others of `talk`.
/// The call with this name, if it is one that changes nothing.
fn other_reply(
    heap: Global,
    words: &mut Words<'_>,
    name: &[u8],
) -> Result<Option<Vec<u8>>, AllocError>
    ensures { IfOk result (λ o. option_map vec_items o ≡ other_reply name.now (unread words.old)) }
{
    if name == b"record".as_slice() {
        record_reply(heap, words)
    } else {
        call_reply(heap, words, name)
    }
}

impl Desk {
    /// A desk whose receiver does not listen, with no transmit buffer and no begun frame.
    pub fn new(heap: Global) -> Desk
        ensures { desk_view result ≡ new_desk }
    {
        Desk {
            receiver: Receiver::new(),
            cells: Vec::new(heap),
            begun: None,
        }
    }

    /// The call with this name.
    fn named_reply(
        &mut self,
        heap: Global,
        words: &mut Words<'_>,
        name: &[u8],
    ) -> Result<Option<Vec<u8>>, AllocError>
        ensures { IfOk result (λ o. Took (named_reply (desk_view self.old) name.now (unread words.old)) (option_map vec_items o) (desk_view self.new)) }
    {
        // As in `protocol`, where a `match` on the names was tried: the proof did not close.
        if name == b"begin".as_slice() {
            self.begin_reply(heap, words)
        } else if name == b"finish".as_slice() {
            self.finish_reply(heap, words)
        } else if name == b"start".as_slice() {
            self.start_reply(heap, words)
        } else if name == b"feed".as_slice() {
            self.feed_reply(heap, words)
        } else if name == b"take".as_slice() {
            self.take_reply(heap, words)
        } else {
            other_reply(heap, words, name)
        }
    }

    /// Reads a call, makes it, and gives the text of the answer; none if it cannot be read.
    fn read_reply(
        &mut self,
        heap: Global,
        words: &mut Words<'_>,
    ) -> Result<Option<Vec<u8>>, AllocError>
        ensures { IfOk result (λ o. Took (read_reply (desk_view self.old) (read_word (unread words.old))) (option_map vec_items o) (desk_view self.new)) }
    {
        let Some(name) = words.next_word() else {
            return Ok(None);
        };
        self.named_reply(heap, words, name)
    }

    /// The answer to a line without its end.
    fn body_reply(&mut self, heap: Global, body: &[u8]) -> Result<Option<Vec<u8>>, AllocError>
        ensures { IfOk result (λ o. Took (body_turn (desk_view self.old) body.now) (option_map vec_items o) (desk_view self.new)) }
    {
        if is_skipped(body) {
            return Ok(None);
        }
        let mut words = Words::new(body);
        let text = match self.read_reply(heap, &mut words)? {
            Some(text) => text,
            None => word_text(heap, b"unreadable")?,
        };
        Ok(Some(text))
    }

    /// The answer to a line, as a line without its end; none where the line gets no answer: it is
    /// empty, or begins with `#`.
    ///
    /// Whatever bytes it has, the line is answered: what is no call gets `unreadable`, and changes
    /// nothing. Fails only for want of memory.
    pub fn reply(&mut self, heap: Global, line: &[u8]) -> Result<Option<Vec<u8>>, AllocError>
        ensures { IfOk result (λ o. Took (line_turn (desk_view self.old) line.now) (option_map vec_items o) (desk_view self.new)) }
    {
        self.body_reply(heap, without_end(line))
    }
}
