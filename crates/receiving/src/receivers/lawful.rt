//! Feed and take, lawful after every history of calls.
ghost use Rattle.std.specs.Prelude.{◌≡◌, List, length};
ghost use Rattle.receiving.specs.Calls.{LawfulFeed, LawfulTake};
ghost use Rattle.receiving.specs.Histories.{Call, run};
ghost use Rattle.receiving.specs.Receivers.{view};
ghost use Rattle.receiving.specs.Steps.{fed, take_buffer, take_told, taken};

use crate::refusals::{FeedRefusal, TakeRefusal};
use frame::Header;

impl super::Receiver {
    /// Takes the frame's next row and answers how many rows of the part in hand are missing: of the
    /// header, or from its thirteenth row on of the payload. After the last row the frame is whole.
    ///
    /// Refuses, in this order: with 11 any row while it does not listen; with 9 what is not 36 cells,
    /// or has a cell above 7 on a live carrier or above 8 on another; with 10 the last row of a part
    /// whose rows are no coding, naming the part and where the fault lies; with 2 to 5 the thirteenth
    /// row of an illegal header. After 9 it goes on listening as if the row had not been fed. 10 and 2
    /// to 5 end listening.
    ///
    /// Whatever history of calls led to what the receiver holds, the answer is the lawful one.
    pub fn feed(&mut self, row: &[u8]) -> Result<usize, FeedRefusal>
        ensures value { result ≡ (fed (view self.old) row.now).1 }
        ensures after { view self.new ≡ (fed (view self.old) row.now).0 }
        ensures law { (cs : List Call) → view self.old ≡ run cs → LawfulFeed cs row.now result }
    {
        self.hear(row)
    }

    /// Hands over a whole frame: its payload at the front of `out`, and its header with the payload's
    /// length. The receiver then does not listen and has no frame.
    ///
    /// Refuses, in this order: with 12 where no frame is whole; with 7 where `out` is shorter than
    /// the payload, and the frame can still be taken. A refusal writes nothing.
    ///
    /// Whatever history of calls led to what the receiver holds, the answer is the lawful one.
    pub fn take(&mut self, out: &mut [u8]) -> Result<(Header, usize), TakeRefusal>
        ensures value { result ≡ take_told (taken (view self.old) (length out.old)).1 }
        ensures after { view self.new ≡ (taken (view self.old) (length out.old)).0 }
        ensures buffer { out.new ≡ take_buffer (taken (view self.old) (length out.old)).1 out.old }
        ensures law { (cs : List Call) → view self.old ≡ run cs → LawfulTake cs (length out.old) result out.old out.new }
    {
        self.hand_over(out)
    }
}
