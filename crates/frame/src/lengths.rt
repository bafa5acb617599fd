//! The frame lengths that make a header legal: the smallest and the largest.
ghost use Rattle.std.specs.Prelude.{◌≡◌};
ghost use Rattle.std.specs.Iterator.{IsFinite};
ghost use Rattle.std.specs.Iterator.Runs.{SomeRun};
ghost use Rattle.frame.specs.Lengths.{First_legal, Largest, Smallest, legal_length};

use crate::headers::{FL_HIGHEST, Header};
use crate::sizes::size;

/// A legal frame length, with the payload that it gives.
#[derive(Clone, Copy, PartialEq, Eq, Debug)]
pub struct LegalLength {
    /// FL.
    pub fl: u32,
    /// N, the payload's bytes.
    pub payload: usize,
}

/// This frame length with its payload, if it makes the header legal.
fn legal_length(header: Header, fl: u32) -> Option<LegalLength>
    ensures { result ≡ legal_length header fl }
{
    match size(header.with_fl(fl)) {
        Ok((payload, _)) => Some(LegalLength { fl, payload }),
        Err(_) => None,
    }
}

/// The first of these frame lengths that makes the header legal, or none if none of them does.
fn first_legal<I: Iterator<Item = u32>>(header: Header, mut lengths: I) -> Option<LegalLength>
where
    I: Drop,
    requires can { I.can_next lengths }
    requires finite { IsFinite (I.remaining lengths) }
    ensures { SomeRun I.next_gives lengths (λ run. First_legal header run result) }
{
    lengths.find_map(|fl| legal_length(header, fl))
}

/// The smallest frame length that makes this header legal, or none if there is no such length.
///
/// The header's own FL does not matter.
pub fn smallest(header: Header) -> Option<LegalLength>
    ensures { Smallest header result }
{
    first_legal(header, 0..=FL_HIGHEST)
}

/// The largest frame length that makes this header legal, or none if there is no such length.
///
/// The header's own FL does not matter.
pub fn largest(header: Header) -> Option<LegalLength>
    ensures { Largest header result }
{
    first_legal(header, (0..=FL_HIGHEST).rev())
}
