//! The stages by name, and the calls on them.
ghost use Rattle.std.specs.Prelude.{◌≡◌, IfOk, vec_items};
ghost use Rattle.protocol.specs.Stages.{named_reply, stage_reply};
ghost use Rattle.wording.specs.Words.{unread};
ghost use Rattle.std.specs.Option.{option_map};

use codings::{Check, Repeat, Scramble, UnpackBits};
use phases::Map;
use std::alloc::{AllocError, Global};
use wording::{Direction, Words, answer_to, difference_reply, fill_reply, number_reply};

// Not shared with `talk`, which knows more names: what they share is in `wording`, and the rest is names.
/// Reads the settings of the stage with this name and what is asked of it, and gives the text of the
/// answer; none if it cannot be read.
fn named_reply(
    heap: Global,
    words: &mut Words<'_>,
    direction: Direction,
    name: &[u8],
) -> Result<Option<Vec<u8>>, AllocError>
    ensures { IfOk result (λ o. option_map vec_items o ≡ named_reply direction name.now (unread words.old)) }
{
    // Tried as a `match` on the names: the proof did not close.
    if name == b"check".as_slice() {
        answer_to(heap, words, direction, Ok(Check))
    } else if name == b"scramble".as_slice() {
        answer_to(heap, words, direction, Ok(Scramble))
    } else if name == b"unpack-bits".as_slice() {
        answer_to(heap, words, direction, Ok(UnpackBits))
    } else if name == b"fill".as_slice() {
        fill_reply(heap, words, direction)
    } else if name == b"repeat".as_slice() {
        number_reply(heap, words, direction, Repeat::new)
    } else if name == b"map".as_slice() {
        number_reply(heap, words, direction, Map::new)
    } else if name == b"difference".as_slice() {
        difference_reply(heap, words, direction)
    } else {
        Ok(None)
    }
}

/// Reads the name of a stage, its settings and what is asked of it, and gives the text of the
/// answer; none if it cannot be read.
pub fn stage_reply(
    heap: Global,
    words: &mut Words<'_>,
    direction: Direction,
) -> Result<Option<Vec<u8>>, AllocError>
    ensures { IfOk result (λ o. option_map vec_items o ≡ stage_reply direction (unread words.old)) }
{
    let Some(name) = words.next_word() else {
        return Ok(None);
    };
    named_reply(heap, words, direction, name)
}
