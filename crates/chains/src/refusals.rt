//! Why a chain was not made, or a call on it was refused.
ghost use Rattle.std.specs.Prelude.{◌≡◌};
ghost use Rattle.chains.specs.Refusals.{by_header, by_stage, number_of};

use frame::Refusal as FrameRefusal;
use stage::Refusal as StageRefusal;

/// Why a payload chain was not made, or a call on it was refused.
#[derive(Clone, Copy, PartialEq, Debug)]
pub enum ChainRefusal {
    /// The header is not legal.
    Header(FrameRefusal),
    /// The reference has not a phase for each live carrier, and nothing else.
    Reference,
    /// The chain refused the call.
    Stage(StageRefusal),
}

impl ChainRefusal {
    /// The number under which the refusal is known to hosts: that of the header's or the call's, and 1 for
    /// the reference, which is a setting.
    pub fn number(self) -> u32
        ensures { result ≡ number_of self }
    {
        match self {
            ChainRefusal::Header(refusal) => refusal.number(),
            ChainRefusal::Reference => 1,
            ChainRefusal::Stage(refusal) => refusal.number() as u32,
        }
    }
}

impl From<FrameRefusal> for ChainRefusal {
    ghost from_gives = { λ e r. r ≡ by_header e };

    fn from(refusal: FrameRefusal) -> ChainRefusal {
        ChainRefusal::Header(refusal)
    }
}

impl From<StageRefusal> for ChainRefusal {
    ghost from_gives = { λ e r. r ≡ by_stage e };

    fn from(refusal: StageRefusal) -> ChainRefusal {
        ChainRefusal::Stage(refusal)
    }
}
