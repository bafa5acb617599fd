//! A frame that has been begun.
ghost use Rattle.std.specs.Prelude.{◌≡◌, Some, MatchResult};
ghost use Rattle.frame.specs.Answers.{Legal, payload, refusal};
ghost use Rattle.frame.specs.Sizes.{row_count};

use frame::{Header, Refusal, size};

/// A frame whose header rows are written and whose payload rows are not: a state of plain numbers that
/// is moved, never copied. It comes from [`begin`](crate::begin), and only
/// [`finish`](crate::finish) takes it; letting it go gives the frame up.
#[derive(Drop)]
pub struct Begun {
    pub(crate) header: Header,
    ghost legal: { Legal header },
}

impl Begun {
    /// A frame of this header, if it is legal.
    pub(crate) fn of(header: Header) -> Result<Begun, Refusal>
        ensures { MatchResult result (λ begun. begun.header ≡ header) (λ e. refusal header ≡ Some e) }
    {
        size(header)?;
        Ok(Begun { header })
    }

    /// The payload's length and the row count.
    pub(crate) fn size(&self) -> (usize, usize)
        ensures { result ≡ (payload self.now.header, row_count self.now.header.fl) }
    {
        let Ok(sizes) = size(self.header) else {
            unreachable()
        };
        sizes
    }
}
