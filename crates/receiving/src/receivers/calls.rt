//! The calls on a receiver.
ghost use Rattle.std.specs.Prelude.{◌≡◌, length};
ghost use Rattle.receiving.specs.Receivers.{view};
ghost use Rattle.receiving.specs.Steps.{fed, fresh, start_answer, started, take_buffer, take_told, taken};

use crate::kept::Kept;
use crate::refusals::{FeedRefusal, StartRefusal, TakeRefusal};
use crate::sizes::MOST_BYTES;
use crate::states::Phase;
use frame::Header;
use rows::{Reference, row_fits};

impl super::Receiver {
    /// A receiver that does not listen.
    pub fn new() -> Self
        ensures { view result ≡ fresh }
    {
        super::Receiver {
            phase: Phase::Deaf,
            kept: Kept::new(),
            bytes: [0; MOST_BYTES],
        }
    }

    /// Listens to a frame under this reference from its first row on, whatever went before: rows fed
    /// so far, and a whole frame that was not taken, are dropped.
    ///
    /// Refuses with 8 what is not 36 cells of 0 to 7, and then changes nothing.
    pub fn start(&mut self, reference: &[u8]) -> Result<(), StartRefusal>
        ensures value { result ≡ start_answer reference.now }
        ensures after { view self.new ≡ started (view self.old) reference.now }
    {
        let Ok(reference) = Reference::try_from(reference) else {
            return Err(StartRefusal::Reference);
        };
        self.kept.clear();
        self.phase = Phase::Heading(reference);
        Ok(())
    }

    /// The steps of [`feed`](crate::Receiver::feed).
    pub(super) fn hear(&mut self, row: &[u8]) -> Result<usize, FeedRefusal>
        ensures value { result ≡ (fed (view self.old) row.now).1 }
        ensures after { view self.new ≡ (fed (view self.old) row.now).0 }
    {
        match self.phase {
            Phase::Deaf | Phase::Whole(_, _) => Err(FeedRefusal::NotListening),
            Phase::Heading(reference) => {
                let Ok(row) = Reference::try_from(row) else {
                    return Err(FeedRefusal::Row);
                };
                self.hear_header_row(&reference, &row)
            }
            Phase::Loading(legal) => {
                if !row_fits(legal.header.tm, row) {
                    return Err(FeedRefusal::Row);
                }
                self.hear_payload_row(legal, row)
            }
        }
    }

    /// The steps of [`take`](crate::Receiver::take).
    pub(super) fn hand_over(&mut self, out: &mut [u8]) -> Result<(Header, usize), TakeRefusal>
        ensures value { result ≡ take_told (taken (view self.old) (length out.old)).1 }
        ensures after { view self.new ≡ (taken (view self.old) (length out.old)).0 }
        ensures buffer { out.new ≡ take_buffer (taken (view self.old) (length out.old)).1 out.old }
    {
        let Phase::Whole(header, length) = self.phase else {
            return Err(TakeRefusal::NoFrame);
        };
        if out.len() < length {
            return Err(TakeRefusal::TooShort);
        }
        out[..length].copy_from_slice(&self.bytes[..length]);
        self.phase = Phase::Deaf;
        Ok((header, length))
    }
}
