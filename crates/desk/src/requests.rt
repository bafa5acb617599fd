//! Reading what `begin` asks.
ghost use Rattle.std.specs.Prelude.{◌≡◌, IfOk};
ghost use Rattle.desk.specs.Sending.{begin_asked, read_begin};
ghost use Rattle.wording.specs.Words.{unread};
ghost use Rattle.std.specs.Option.{option_map};

use frame::Header;
use std::alloc::{AllocError, Global};
use wording::{Words, served};

/// What `begin` asks.
#[derive(Drop)]
pub struct BeginRequest {
    /// The header of the frame.
    pub header: Header,
    /// The reference row.
    pub reference: Vec<u8>,
    /// The cells of the transmit buffer.
    pub room: usize,
}

/// The words that are left as HEADER CELLS ROOM; none if they are not, or there are more.
///
/// Fails only for want of memory.
pub fn read_begin(heap: Global, words: &mut Words<'_>) -> Result<Option<BeginRequest>, AllocError>
    ensures { IfOk result (λ o. option_map begin_asked o ≡ read_begin (unread words.old)) }
{
    let Some(header) = words.header() else {
        return Ok(None);
    };
    let Some(reference) = words.cells(heap)? else {
        return Ok(None);
    };
    let Some(room) = words.number() else {
        return Ok(None);
    };
    Ok(words.alone(BeginRequest {
        header,
        reference,
        room: served(room),
    }))
}
