//! The header of a frame, as numbers.
ghost use Rattle.std.specs.Prelude.{◌≡◌, ◌≤◌};
ghost use Rattle.frame.specs.Headers.{with_fl};
ghost use Rattle.frame.specs.Modulations.{modulation_of};

use crate::modulations::Modulation;

/// The highest PDC that its eight bits hold.
pub const PDC_HIGHEST: u32 = 255;

/// The highest MOD that its two bits hold.
pub const MOD_HIGHEST: u32 = 3;

/// The highest FL that its six bits hold.
pub const FL_HIGHEST: u32 = 63;

/// The highest TM that its nine bits hold.
pub const TM_HIGHEST: u32 = 511;

/// The highest DT that its three bits hold.
pub const DT_HIGHEST: u32 = 7;

/// A header's five fields, each wide enough to hold a number that the field itself cannot.
///
/// Which numbers are legal is for [`size`](crate::size) to say.
// Numbers, and no enums: a number that stands for nothing has to be held, to be refused by name.
#[derive(Clone, Copy, PartialEq, Eq, Debug)]
pub struct Header {
    /// PDC, the phase detection counter: 0 to 255.
    pub pdc: u32,
    /// MOD, the payload's modulation: 0 robust, 1 DBPSK, 2 DQPSK, 3 D8PSK.
    pub modulation: u32,
    /// FL, the frame length: a quarter of the number of payload rows, 0 to 63.
    pub fl: u32,
    /// TM, the tone map: bit k makes the six carriers of sub-band k live, 0 to 511.
    pub tm: u32,
    /// DT, the delimiter type: 0 no reply, 1 reply expected, 2 acknowledged, 3 not acknowledged;
    /// 4 to 7 are reserved.
    pub dt: u32,
}

impl Header {
    /// This header with another frame length, all its other fields as they are.
    pub fn with_fl(self, fl: u32) -> Header
        ensures { result ≡ with_fl self fl }
    {
        Header { fl, ..self }
    }

    /// The payload's modulation, the one that MOD stands for; of a MOD above 3, which no legal header
    /// has, that of 3.
    pub fn payload_modulation(self) -> Modulation
        ensures { result ≡ modulation_of self.modulation }
    {
        Modulation::try_from(self.modulation).unwrap_or(Modulation::D8psk)
    }
}
