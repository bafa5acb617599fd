//! Reading the last words of a line.
ghost use Rattle.std.specs.Prelude.{◌≡◌, IfOk, vec_items};
ghost use Rattle.wording.specs.Lasts.{last_cells, last_header, last_list, last_room};
ghost use Rattle.wording.specs.Calls.{nothing_behind};
ghost use Rattle.wording.specs.Words.{unread};
ghost use Rattle.std.specs.Option.{option_map};

use crate::requests::served;
use crate::words::Words;
use frame::Header;
use std::alloc::{AllocError, Global};

impl Words<'_> {
    /// What was read, if no word is left behind it; none else.
    pub fn alone<T: Drop>(&mut self, value: T) -> Option<T>
        ensures { result ≡ nothing_behind value (unread self.old) }
    {
        if self.next_word().is_some() {
            None
        } else {
            Some(value)
        }
    }

    // Four readers alike but for what they read: a reader as a parameter would be no plainer.
    /// The only word that is left as a list of bytes; none if it is none, or it is not the only one.
    ///
    /// Fails only for want of memory.
    pub fn last_list(&mut self, heap: Global) -> Result<Option<Vec<u8>>, AllocError>
        ensures { IfOk result (λ o. option_map vec_items o ≡ last_list (unread self.old)) }
    {
        let Some(list) = self.list(heap)? else {
            return Ok(None);
        };
        Ok(self.alone(list))
    }

    /// The only word that is left as cells; none if it is none, or it is not the only one.
    ///
    /// Fails only for want of memory.
    pub fn last_cells(&mut self, heap: Global) -> Result<Option<Vec<u8>>, AllocError>
        ensures { IfOk result (λ o. option_map vec_items o ≡ last_cells (unread self.old)) }
    {
        let Some(cells) = self.cells(heap)? else {
            return Ok(None);
        };
        Ok(self.alone(cells))
    }

    /// The only word that is left as the length of a buffer to lend; none if it is no number, or it is
    /// not the only one.
    pub fn last_room(&mut self) -> Option<usize>
        ensures { result ≡ last_room (unread self.old) }
    {
        let room = self.number()?;
        self.alone(served(room))
    }

    /// The five words that are left as a header; none if they are none, or there are more.
    pub fn last_header(&mut self) -> Option<Header>
        ensures { result ≡ last_header (unread self.old) }
    {
        let header = self.header()?;
        self.alone(header)
    }
}
