//! The answers to lines.
ghost use Rattle.std.specs.Prelude.{◌≡◌, IfOk, vec_items};
ghost use Rattle.protocol.specs.Replies.{body_reply, call_reply, reply_of};
ghost use Rattle.wording.specs.Words.{unread};
ghost use Rattle.std.specs.Option.{option_map};

use crate::stages::stage_reply;
use std::alloc::{AllocError, Global};
use wording::{Direction, Words, is_skipped, size_reply, without_end, word_text};

// Not shared with `desk`, whose calls keep something: what they share is in `wording`.
/// Reads a call, and gives the text of the answer; none if it cannot be read.
fn call_reply(heap: Global, words: &mut Words<'_>) -> Result<Option<Vec<u8>>, AllocError>
    ensures { IfOk result (λ o. option_map vec_items o ≡ call_reply (unread words.old)) }
{
    let Some(name) = words.next_word() else {
        return Ok(None);
    };
    // Tried as a `match` on the names: the proof did not close.
    if name == b"size".as_slice() {
        size_reply(heap, words)
    } else if name == b"code".as_slice() {
        stage_reply(heap, words, Direction::Code)
    } else if name == b"decode".as_slice() {
        stage_reply(heap, words, Direction::Decode)
    } else {
        Ok(None)
    }
}

/// The text of the answer to a line without its end; none if the line is empty or a remark.
fn body_reply(heap: Global, body: &[u8]) -> Result<Option<Vec<u8>>, AllocError>
    ensures { IfOk result (λ o. option_map vec_items o ≡ body_reply body.now) }
{
    if is_skipped(body) {
        return Ok(None);
    }
    let mut words = Words::new(body);
    let text = match call_reply(heap, &mut words)? {
        Some(text) => text,
        None => word_text(heap, b"unreadable")?,
    };
    Ok(Some(text))
}

/// The text of the answer to a line, given with its end; none if the line is empty or a remark.
///
/// Fails only for want of memory.
pub fn reply(heap: Global, line: &[u8]) -> Result<Option<Vec<u8>>, AllocError>
    ensures { IfOk result (λ o. option_map vec_items o ≡ reply_of line.now) }
{
    body_reply(heap, without_end(line))
}
