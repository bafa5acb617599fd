//! The call `record`.
ghost use Rattle.std.specs.Prelude.{◌≡◌, IfOk, vec_items};
ghost use Rattle.desk.specs.Records.{count_text, record_reply, record_text};
ghost use Rattle.wording.specs.Words.{unread};
ghost use Rattle.std.specs.Option.{option_map};

use receiving::{RecordRefusal, Recording};
use rows::CARRIERS;
use std::alloc::{AllocError, Global};
use wording::{Words, append_labelled, append_row};

/// The text of how many whole rows cells have.
fn count_text(heap: Global, cells: &[u8]) -> Result<Vec<u8>, AllocError>
    ensures { IfOk result (λ t. t.items ≡ count_text cells.now) }
{
    let mut text = Vec::new(heap);
    append_labelled(heap, &mut text, "rows ", cells.len() / CARRIERS)?;
    Ok(text)
}

/// Reads a recording row by row, and gives the text of its rows and of the short part behind them.
fn record_text(heap: Global, cells: &[u8]) -> Result<Vec<u8>, AllocError>
    ensures { IfOk result (λ t. t.items ≡ record_text cells.now) }
{
    let mut text = count_text(heap, cells)?;
    let mut recording = Recording::new(cells);
    // No `for`: a `Recording` is no `Iterator`, since a short part is refused as often as it is asked for.
    while let Some(next) = recording.next_row() {
        match next {
            Ok(row) => append_row(&mut text, row.cells)?,
            Err(RecordRefusal::Short(left)) => {
                append_labelled(heap, &mut text, " short ", left)?;
                return Ok(text);
            }
        }
    }
    Ok(text)
}

/// Reads the rest of `record CELLS`, and gives the text of the answer; none if it cannot be read.
pub(crate) fn record_reply(
    heap: Global,
    words: &mut Words<'_>,
) -> Result<Option<Vec<u8>>, AllocError>
    ensures { IfOk result (λ o. option_map vec_items o ≡ record_reply (unread words.old)) }
{
    let Some(cells) = words.last_cells(heap)? else {
        return Ok(None);
    };
    let text = record_text(heap, cells.as_slice())?;
    Ok(Some(text))
}
