//! Why calls on a receiver are refused.
ghost use Rattle.std.specs.Prelude.{◌≡◌};
ghost use Rattle.receiving.specs.Decisions.{feed_number, in_header, in_payload, start_number, take_number};
ghost use Rattle.receiving.specs.declared.refusals.FeedRefusal.TheVariants.{Fault, Header as BadHeader};

use frame::Refusal;
use stage::ChainFault;

/// A part of a frame.
#[derive(Clone, Copy, PartialEq, Eq, Debug)]
pub enum Part {
    /// The thirteen header rows.
    Header,
    /// The rows behind them.
    Payload,
}

/// The fault of a receiver: a chain's fault, and the part of the frame that the chain was for.
#[derive(Clone, Copy, PartialEq, Eq, Debug)]
pub struct ReceiverFault {
    /// The part of the frame in which the fault lies.
    pub part: Part,
    /// The fault of that part's chain.
    pub fault: ChainFault,
}

/// Why a start was refused.
#[derive(Clone, Copy, PartialEq, Eq, Debug)]
pub enum StartRefusal {
    /// 8: the reference is not 36 cells of 0 to 7.
    Reference,
}

/// Why a row was refused.
#[derive(Clone, Copy, PartialEq, Eq, Debug)]
pub enum FeedRefusal {
    /// 11: the receiver does not listen.
    NotListening,
    /// 9: the row is not 36 cells, or a cell is above 7 on a live carrier or above 8 on another.
    Row,
    /// 10: the rows of a part are no coding; listening ends.
    Fault(ReceiverFault),
    /// 2 to 5: the header from the line is illegal; listening ends.
    Header(Refusal),
}

/// Why a take was refused.
#[derive(Clone, Copy, PartialEq, Eq, Debug)]
pub enum TakeRefusal {
    /// 12: no frame is whole.
    NoFrame,
    /// 7: the buffer is shorter than the payload.
    TooShort,
}

// Two types alike: `From` goes by the type, and the part of the frame is what it adds.
/// A fault of the header chain.
#[derive(Clone, Copy, PartialEq, Eq, Debug)]
pub struct HeaderFault(pub ChainFault);

/// A fault of the payload chain.
#[derive(Clone, Copy, PartialEq, Eq, Debug)]
pub struct PayloadFault(pub ChainFault);

/// A fault of the header chain lies in the header rows.
impl From<HeaderFault> for ReceiverFault {
    ghost from_gives = { λ f r. r ≡ in_header f.0 };

    fn from(fault: HeaderFault) -> ReceiverFault {
        ReceiverFault {
            part: Part::Header,
            fault: fault.0,
        }
    }
}

/// A fault of the payload chain lies in the rows behind the header's.
impl From<PayloadFault> for ReceiverFault {
    ghost from_gives = { λ f r. r ≡ in_payload f.0 };

    fn from(fault: PayloadFault) -> ReceiverFault {
        ReceiverFault {
            part: Part::Payload,
            fault: fault.0,
        }
    }
}

/// A receiver's fault is carried whole.
impl From<ReceiverFault> for FeedRefusal {
    ghost from_gives = { λ f r. r ≡ Fault f };

    fn from(fault: ReceiverFault) -> FeedRefusal {
        FeedRefusal::Fault(fault)
    }
}

/// A header's refusal is carried whole.
impl From<Refusal> for FeedRefusal {
    ghost from_gives = { λ e r. r ≡ BadHeader e };

    fn from(refusal: Refusal) -> FeedRefusal {
        FeedRefusal::Header(refusal)
    }
}

impl StartRefusal {
    /// The number under which the refusal is known to hosts.
    pub fn number(self) -> u32
        ensures { result ≡ start_number self }
    {
        match self {
            StartRefusal::Reference => 8,
        }
    }
}

impl FeedRefusal {
    /// The number under which the refusal is known to hosts: that of the header's refusal, if it is one.
    pub fn number(self) -> u32
        ensures { result ≡ feed_number self }
    {
        match self {
            FeedRefusal::NotListening => 11,
            FeedRefusal::Row => 9,
            FeedRefusal::Fault(_) => 10,
            FeedRefusal::Header(refusal) => refusal.number(),
        }
    }
}

impl TakeRefusal {
    /// The number under which the refusal is known to hosts.
    pub fn number(self) -> u32
        ensures { result ≡ take_number self }
    {
        match self {
            TakeRefusal::NoFrame => 12,
            TakeRefusal::TooShort => 7,
        }
    }
}
