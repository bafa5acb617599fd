//! Numbers and headers among the words of a line.
ghost use Rattle.std.specs.Prelude.{IfOk, vec_items};
ghost use Rattle.std.specs.Option.{option_map};
ghost use Rattle.wording.specs.Calls.{read_header, read_list, read_number};
ghost use Rattle.wording.specs.Words.{Reads, unread};

use crate::hexes::list_of;
use crate::numbers::number_of;
use crate::words::Words;
use frame::Header;
use std::alloc::{AllocError, Global};

impl Words<'_> {
    /// The next word as a number; none if it is no number, or there is no word.
    pub fn number(&mut self) -> Option<u32>
        ensures { Reads read_number (unread self.old) result (unread self.new) }
    {
        let word = self.next_word()?;
        let number = number_of(word)?;
        Some(number)
    }

    /// The next word as a list; none if it is no list, or there is no word.
    pub fn list(&mut self, heap: Global) -> Result<Option<Vec<u8>>, AllocError>
        ensures { IfOk result (λ o. Reads read_list (unread self.old) (option_map vec_items o) (unread self.new)) }
    {
        let Some(word) = self.next_word() else {
            return Ok(None);
        };
        let list = list_of(heap, word)?;
        Ok(list)
    }

    /// The next five words as a header.
    pub fn header(&mut self) -> Option<Header>
        ensures { Reads read_header (unread self.old) result (unread self.new) }
    {
        let pdc = self.number()?;
        let modulation = self.number()?;
        let fl = self.number()?;
        let tm = self.number()?;
        let dt = self.number()?;
        Some(Header {
            pdc,
            modulation,
            fl,
            tm,
            dt,
        })
    }
}
