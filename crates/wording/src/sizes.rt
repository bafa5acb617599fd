//! The call `size`.
ghost use Rattle.std.specs.Prelude.{◌≡◌, IfOk, vec_items};
ghost use Rattle.frame.specs.Answers.{size_answer};
ghost use Rattle.wording.specs.Sizes.{size_reply, sized_text};
ghost use Rattle.wording.specs.Words.{unread};
ghost use Rattle.std.specs.Option.{option_map};

use crate::texts::{append_labelled, refused_text};
use crate::words::Words;
use frame::{Header, size};
use std::alloc::{AllocError, Global};

/// The text of a header's size.
fn size_text(heap: Global, header: Header) -> Result<Vec<u8>, AllocError>
    ensures { IfOk result (λ t. t.items ≡ sized_text (size_answer header)) }
{
    match size(header) {
        Ok((payload, rows)) => {
            let mut text = Vec::new(heap);
            append_labelled(heap, &mut text, "size ", payload)?;
            append_labelled(heap, &mut text, " ", rows)?;
            Ok(text)
        }
        Err(refusal) => refused_text(heap, refusal.number()),
    }
}

/// Reads the rest of `size HEADER`, and gives the text of the answer; none if it cannot be read.
pub fn size_reply(heap: Global, words: &mut Words<'_>) -> Result<Option<Vec<u8>>, AllocError>
    ensures { IfOk result (λ o. option_map vec_items o ≡ size_reply (unread words.old)) }
{
    let Some(header) = words.last_header() else {
        return Ok(None);
    };
    let text = size_text(heap, header)?;
    Ok(Some(text))
}
