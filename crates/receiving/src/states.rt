//! What a receiver is at.
ghost use Rattle.std.specs.Prelude.{◌≡◌, ℕ, ◌<◌, ◌≤◌, Some, MatchResult};
ghost use Rattle.frame.specs.Answers.{Legal, refusal};
ghost use Rattle.frame.specs.Sizes.{row_count};
ghost use Rattle.rows.specs.Rows.{header_rows};
ghost use Rattle.receiving.specs.Fronts.{most_rows};

use frame::{Header, Refusal, size};
use rows::Reference;

/// A legal header: its frame has a row behind the header's, and is no longer than the longest.
#[derive(Clone, Copy)]
pub struct LegalHeader {
    /// The header.
    pub header: Header,
    ghost legal: { Legal header },
    ghost some: { header_rows < row_count header.fl },
    ghost few: { row_count header.fl ≤ most_rows },
}

impl TryFrom<Header> for LegalHeader {
    type Error = Refusal;

    ghost try_from_gives = { λ header r. MatchResult r
        (λ legal. legal.header ≡ header)
        (λ e. refusal header ≡ Some e) };

    fn try_from(header: Header) -> Result<LegalHeader, Refusal> {
        size(header)?;
        Ok(LegalHeader { header })
    }
}

/// What a receiver is at; the rows kept and the bytes decoded stand beside it.
#[derive(Clone, Copy)]
pub enum Phase {
    /// It does not listen and has no frame.
    Deaf,
    /// It listens to header rows under this reference.
    Heading(Reference),
    /// It listens to the rows behind this header.
    Loading(LegalHeader),
    /// It has the frame of this header, with so many bytes of payload.
    Whole(Header, usize),
}
