//! Why packing and unpacking are refused.
ghost use Rattle.std.specs.Prelude.{◌≡◌};
ghost use Rattle.packing.specs.Packings.{pack_number, unpack_number};
ghost use Rattle.packing.specs.declared.refusals.PackRefusal.TheVariants.{Header as PackHeader};
ghost use Rattle.packing.specs.declared.refusals.UnpackRefusal.TheVariants.{Fault, Header as UnpackHeader};

use frame::Refusal;
use stage::ChainFault;

/// Why [`pack`](crate::pack) was refused.
#[derive(Clone, Copy, PartialEq, Eq, Debug)]
pub enum PackRefusal {
    /// 1 to 5: the header is illegal.
    Header(Refusal),
    /// 7: the buffer has fewer than five bytes.
    TooShort,
}

impl PackRefusal {
    /// The number under which the refusal is known to hosts: 1 to 5 or 7.
    pub fn number(self) -> u32
        ensures { result ≡ pack_number self }
    {
        match self {
            PackRefusal::Header(refusal) => refusal.number(),
            PackRefusal::TooShort => 7,
        }
    }
}

/// Why [`unpack`](crate::unpack) was refused.
#[derive(Clone, Copy, PartialEq, Eq, Debug)]
pub enum UnpackRefusal {
    /// 13: there are other than five bytes.
    NotFiveBytes,
    /// 10: the check or the zeros behind it are wrong.
    Fault(ChainFault),
    /// 2 to 5: the header is illegal.
    Header(Refusal),
}

impl UnpackRefusal {
    /// The number under which the refusal is known to hosts: 2 to 5, 10 or 13.
    pub fn number(self) -> u32
        ensures { result ≡ unpack_number self }
    {
        match self {
            UnpackRefusal::NotFiveBytes => 13,
            UnpackRefusal::Fault(_) => 10,
            UnpackRefusal::Header(refusal) => refusal.number(),
        }
    }
}

/// A header's refusal is carried whole.
impl From<Refusal> for PackRefusal {
    ghost from_gives = { λ e r. r ≡ PackHeader e };

    fn from(refusal: Refusal) -> PackRefusal {
        PackRefusal::Header(refusal)
    }
}

/// A header's refusal is carried whole.
impl From<Refusal> for UnpackRefusal {
    ghost from_gives = { λ e r. r ≡ UnpackHeader e };

    fn from(refusal: Refusal) -> UnpackRefusal {
        UnpackRefusal::Header(refusal)
    }
}

/// The check's fault is carried whole.
impl From<ChainFault> for UnpackRefusal {
    ghost from_gives = { λ f r. r ≡ Fault f };

    fn from(fault: ChainFault) -> UnpackRefusal {
        UnpackRefusal::Fault(fault)
    }
}
