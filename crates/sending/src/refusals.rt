//! Why sending is refused.
ghost use Rattle.std.specs.Prelude.{◌≡◌};
ghost use Rattle.sending.specs.Numbers.{begin_number, finish_number, send_number};
ghost use Rattle.sending.specs.declared.refusals.BeginRefusal.TheVariants.{Header as BadHeader};
ghost use Rattle.sending.specs.declared.refusals.SendRefusal.TheVariants.{Begin as NotBegun};

use crate::begun::Begun;
use frame::Refusal;

/// Why [`begin`](crate::begin) was refused.
#[derive(Clone, Copy, PartialEq, Eq, Debug)]
pub enum BeginRefusal {
    /// 1 to 5: the header is illegal.
    Header(Refusal),
    /// 8: the reference is not 36 cells of 0 to 7.
    Reference,
    /// 7: the buffer cannot hold the whole frame.
    TooShort,
}

/// Why [`finish`](crate::finish) was refused.
#[derive(Clone, Copy, PartialEq, Eq, Debug)]
pub enum FinishRefusal {
    /// 6: the payload has not exactly the header's number of bytes.
    PayloadLength,
    /// 7: the buffer cannot hold the whole frame.
    TooShort,
    /// 8: the last header row in the buffer is not 36 cells of 0 to 7.
    Reference,
}

/// Why [`send`](crate::send) was refused.
#[derive(Clone, Copy, PartialEq, Eq, Debug)]
pub enum SendRefusal {
    /// 1 to 5, 8, 7: the frame cannot be begun.
    Begin(BeginRefusal),
    /// 6: the payload has not exactly the header's number of bytes.
    PayloadLength,
}

/// A refused finish: why, and the begun frame, handed back.
#[derive(Drop)]
pub struct Unfinished {
    /// Why it was refused.
    pub why: FinishRefusal,
    /// The begun frame, to be finished another time or given up.
    pub begun: Begun,
}

/// A header's refusal is carried whole.
impl From<Refusal> for BeginRefusal {
    ghost from_gives = { λ e r. r ≡ BadHeader e };

    fn from(refusal: Refusal) -> BeginRefusal {
        BeginRefusal::Header(refusal)
    }
}

/// A begin's refusal is carried whole.
impl From<BeginRefusal> for SendRefusal {
    ghost from_gives = { λ e r. r ≡ NotBegun e };

    fn from(refusal: BeginRefusal) -> SendRefusal {
        SendRefusal::Begin(refusal)
    }
}

impl BeginRefusal {
    /// The number under which the refusal is known to hosts: 1 to 5, 8 or 7.
    pub fn number(self) -> u32
        ensures { result ≡ begin_number self }
    {
        match self {
            BeginRefusal::Header(refusal) => refusal.number(),
            BeginRefusal::Reference => 8,
            BeginRefusal::TooShort => 7,
        }
    }
}

impl FinishRefusal {
    /// The number under which the refusal is known to hosts: 6, 7 or 8.
    pub fn number(self) -> u32
        ensures { result ≡ finish_number self }
    {
        match self {
            FinishRefusal::PayloadLength => 6,
            FinishRefusal::TooShort => 7,
            FinishRefusal::Reference => 8,
        }
    }
}

impl SendRefusal {
    /// The number under which the refusal is known to hosts: 1 to 5, 8, 7 or 6.
    pub fn number(self) -> u32
        ensures { result ≡ send_number self }
    {
        match self {
            SendRefusal::Begin(refusal) => refusal.number(),
            SendRefusal::PayloadLength => 6,
        }
    }
}
