//! What a stage says when it refuses: the stage's own fault, the chain's fault around it,
//! and the refusals of the two calls.

ghost use Rattle.std.specs.Prelude.{◌≡◌};
ghost use Rattle.stage.specs.Faults.{at_the_line, deeper_by, refused_for, number_of};

/// The fault of one plain stage: which stage, and how far the received list was right.
#[derive(Clone, Copy, PartialEq, Eq, Debug)]
pub struct StageFault {
    // A number and no enum: whoever writes a stage brings a number of their own.
    /// The number of the stage that refused.
    pub number: u8,
    /// The length of the longest front part that the list shares with some coding of its
    /// length; 0 if no coding has that length.
    pub place: usize,
}

/// The fault of a chain: a stage's fault, and where in the chain that stage stands.
#[derive(Clone, Copy, PartialEq, Eq, Debug)]
pub struct ChainFault {
    /// The fault of the plain stage that refused.
    pub fault: StageFault,
    /// How many plain stages stand nearer the line than the one that refused.
    pub depth: usize,
}

impl ChainFault {
    /// The same fault, seen from a chain that has `members` more plain stages nearer the line.
    ///
    /// The depth stops at the largest number that it can hold; no pile that fits comes near it.
    pub fn deeper(self, members: usize) -> ChainFault
        ensures { result ≡ deeper_by members self }
    {
        ChainFault {
            fault: self.fault,
            depth: self.depth.saturating_add(members),
        }
    }
}

/// A stage's fault is that of a chain of which it is the member next to the line.
impl From<StageFault> for ChainFault {
    ghost from_gives = { λ f r. r ≡ at_the_line f };

    fn from(fault: StageFault) -> ChainFault {
        ChainFault { fault, depth: 0 }
    }
}

/// Why a call of a stage, or the making of one, was refused.
#[derive(Clone, Copy, PartialEq, Eq, Debug)]
pub enum Refusal {
    /// A setting of the stage is outside its range.
    Setting,
    /// The work buffer or the result buffer is shorter than the longest list of the call.
    TooShort,
    /// The received list is no coding; the fault says which stage found that, and where.
    Fault(ChainFault),
    /// The list to code has a length or an element that the stage does not take.
    Illegal,
    /// The members of a pile do not fit.
    Misfit,
}

impl Refusal {
    /// The number under which the refusal is known to hosts: 1, 7, 10, 13 or 14.
    pub fn number(self) -> u8
        ensures { result ≡ number_of self }
    {
        match self {
            Refusal::Setting => 1,
            Refusal::TooShort => 7,
            Refusal::Fault(_) => 10,
            Refusal::Illegal => 13,
            Refusal::Misfit => 14,
        }
    }
}

/// A chain's fault becomes the refusal that carries it whole.
impl From<ChainFault> for Refusal {
    ghost from_gives = { λ f r. r ≡ refused_for f };

    fn from(fault: ChainFault) -> Refusal {
        Refusal::Fault(fault)
    }
}
