//! The answers to calls that depend on none before them.
ghost use Rattle.std.specs.Prelude.{◌≡◌, IfOk, vec_items};
ghost use Rattle.talk.specs.Replies.{call_reply};
ghost use Rattle.wording.specs.Words.{unread};
ghost use Rattle.std.specs.Option.{option_map};

use crate::packs::{pack_reply, unpack_reply};
use crate::stages::stage_reply;
use std::alloc::{AllocError, Global};
use wording::{Direction, Words, size_reply};

/// Reads the rest of the call with this name, and gives the text of the answer; none if it cannot be
/// read. These are the calls that depend on none before them.
///
/// Fails only for want of memory.
pub fn call_reply(
    heap: Global,
    words: &mut Words<'_>,
    name: &[u8],
) -> Result<Option<Vec<u8>>, AllocError>
    ensures { IfOk result (λ o. option_map vec_items o ≡ call_reply name.now (unread words.old)) }
{
    // As in `protocol`, where a `match` on the names was tried: the proof did not close.
    if name == b"size".as_slice() {
        size_reply(heap, words)
    } else if name == b"pack".as_slice() {
        pack_reply(heap, words)
    } else if name == b"unpack".as_slice() {
        unpack_reply(heap, words)
    } else if name == b"code".as_slice() {
        stage_reply(heap, words, Direction::Code)
    } else if name == b"decode".as_slice() {
        stage_reply(heap, words, Direction::Decode)
    } else {
        Ok(None)
    }
}
