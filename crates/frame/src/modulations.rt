//! The four modulations, and what each fixes about the payload.
ghost use Rattle.std.specs.Prelude.{◌≡◌};
ghost use Rattle.frame.specs.Modulations.{modulation_answer, bits_per_cell, copies, correctable};

/// How the payload's cells carry bits.
#[derive(Clone, Copy, PartialEq, Eq, Debug)]
pub enum Modulation {
    /// One bit a cell, every bit sent four times.
    Robust,
    /// One bit a cell.
    Dbpsk,
    /// Two bits a cell.
    Dqpsk,
    /// Three bits a cell.
    D8psk,
}

/// A number that stands for no modulation.
#[derive(Clone, Copy, PartialEq, Eq, Debug)]
pub struct UnknownModulation(pub u32);

/// The modulation that a header's MOD stands for.
impl TryFrom<u32> for Modulation {
    type Error = UnknownModulation;

    ghost try_from_gives = { λ number answer. answer ≡ modulation_answer number };

    fn try_from(number: u32) -> Result<Modulation, UnknownModulation> {
        match number {
            0 => Ok(Modulation::Robust),
            1 => Ok(Modulation::Dbpsk),
            2 => Ok(Modulation::Dqpsk),
            3 => Ok(Modulation::D8psk),
            _ => Err(UnknownModulation(number)),
        }
    }
}

impl Modulation {
    /// b: the bits that one live cell carries.
    pub fn bits_per_cell(self) -> usize
        ensures { result ≡ bits_per_cell self }
    {
        match self {
            Modulation::Robust | Modulation::Dbpsk => 1,
            Modulation::Dqpsk => 2,
            Modulation::D8psk => 3,
        }
    }

    /// r: how many times each coded bit is sent.
    pub fn copies(self) -> usize
        ensures { result ≡ copies self }
    {
        match self {
            Modulation::Robust => 4,
            _ => 1,
        }
    }

    /// T: how many bytes of a block the Reed-Solomon code could mend; it spends 2T on parity.
    pub fn correctable(self) -> usize
        ensures { result ≡ correctable self }
    {
        match self {
            Modulation::Robust => 4,
            _ => 8,
        }
    }
}
