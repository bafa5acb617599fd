//! The stage interface.

ghost use Rattle.std.specs.Prelude.{◌≡◌, ℕ, ◌≤◌, true, length, take};
ghost use Rattle.stage.specs.Model.{Model, fits, legal, coding, decoding, code_room, decode_room, outlined, code_span, decode_span};
ghost use Rattle.stage.specs.Promise.{Promise};
ghost use Rattle.stage.specs.Calls.{code_answer, decode_answer, Coded, Decoded, Holds, Leaves};

use crate::buffers::{all_within, copy_front};
use crate::faults::{ChainFault, Refusal};
use crate::outline::{Outline, Span};

/// A coding stage: a plain one, or a pile of two.
///
/// The ghost `model` is what the stage means; the law is the promise that its author shows.
/// `code` and `decode` are the same for all. Whoever writes a plain stage implements
/// [`PlainStage`](crate::PlainStage), and the other five methods are there too.
pub trait Stage {
    ghost model: { Self → Model };

    /// What the stage takes and puts out, its count of plain stages, and whether they fit.
    fn outline(&self) -> Outline
        ensures { result ≡ outlined (model self.now) };

    /// How long the lists become when a list of `length` elements is coded.
    fn coded_span(&self, length: usize) -> Span
        ensures { result ≡ code_span (model self.now) length };

    /// How long the lists become when a list of `length` elements is decoded.
    fn decoded_span(&self, length: usize) -> Span
        ensures { result ≡ decode_span (model self.now) length };

    // A length beside a buffer: no heap is asked for, so the list grows into the rest of a lent buffer.
    /// Codes the first `n` elements of `res` in place and answers the coding's length.
    ///
    /// Both buffers have the room for it. `work`, and `res` behind the coding, are working
    /// memory.
    fn code_in(&self, n: usize, work: &mut [u8], res: &mut [u8]) -> usize
        requires list { legal (model self.now) (take n res.old) ≡ true }
        requires front { n ≤ length res.old }
        requires work_room { code_room (model self.now) n ≤ length work.old }
        requires result_room { code_room (model self.now) n ≤ length res.old }
        ensures { Holds res.new result (coding (model self.now) (take n res.old)) };

    /// Decodes the first `n` elements of `res` in place and answers the list's length.
    ///
    /// Both buffers have the room for it. Refuses by the fault where they are no coding. `work`,
    /// `res` behind the list, and after a fault all of `res`, are working memory.
    fn decode_in(&self, n: usize, work: &mut [u8], res: &mut [u8]) -> Result<usize, ChainFault>
        requires fit { fits (model self.now) ≡ true }
        requires front { n ≤ length res.old }
        requires work_room { decode_room (model self.now) n ≤ length work.old }
        requires result_room { decode_room (model self.now) n ≤ length res.old }
        ensures { Leaves (decoding (model self.now) (take n res.old)) result res.new };

    // Two buffers and no struct: they are lent from two places, and would only be taken apart again.
    /// Puts the coding of `list` at the front of `res` and answers its length.
    ///
    /// Refuses, in this order, with `Misfit` where the members do not fit, with `Illegal` where
    /// the list has a length or an element that is not taken, and with `TooShort` where a
    /// buffer is shorter than the longest list of the call, `list` included.
    ///
    /// On success `work`, and `res` behind the coding, are working memory. A refusal leaves
    /// both buffers as they were.
    fn code(&self, list: &[u8], work: &mut [u8], res: &mut [u8]) -> Result<usize, Refusal>
        ensures answer { result ≡ code_answer (model self.now) list.now (length work.old) (length res.old) }
        ensures buffers { Coded (coding (model self.now) list.now) result work.old res.old work.new res.new }
    {
        let outline = self.outline();
        if !outline.fit {
            return Err(Refusal::Misfit);
        }
        let span = self.coded_span(list.len());
        if !all_within(list, outline.takes) || span.last.is_none() {
            return Err(Refusal::Illegal);
        }
        if !span.fits_in(work.len(), res.len()) {
            return Err(Refusal::TooShort);
        }
        copy_front(list.len(), list, res);
        Ok(self.code_in(list.len(), work, res))
    }

    /// Puts the list of which `list` is the coding at the front of `res` and answers its
    /// length.
    ///
    /// Refuses, in this order, with `Misfit` where the members do not fit, with `TooShort` where
    /// a buffer is shorter than the longest list of the call, `list` included, and with `Fault`
    /// where `list` is no coding. Lists are counted from the line inward, up to and with the
    /// first whose length no coding has.
    ///
    /// On success `work`, and `res` behind the list, are working memory. After a fault both
    /// buffers are working memory, whole. Any other refusal leaves them as they were.
    fn decode(&self, list: &[u8], work: &mut [u8], res: &mut [u8]) -> Result<usize, Refusal>
        ensures answer { result ≡ decode_answer (model self.now) list.now (length work.old) (length res.old) }
        ensures buffers { Decoded (decoding (model self.now) list.now) result work.old res.old work.new res.new }
    {
        if !self.outline().fit {
            return Err(Refusal::Misfit);
        }
        let span = self.decoded_span(list.len());
        if !span.fits_in(work.len(), res.len()) {
            return Err(Refusal::TooShort);
        }
        copy_front(list.len(), list, res);
        let length = self.decode_in(list.len(), work, res)?;
        Ok(length)
    }

    ghost keeps: { (s : Self) → fits (model s) ≡ true → Promise (model s) };
}
