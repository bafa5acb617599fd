//! The refusals a header can meet, each with its number.
ghost use Rattle.std.specs.Prelude.{◌≡◌};
ghost use Rattle.frame.specs.Refusals.{number_of};

/// A header's field, by the name the standard gives it.
#[derive(Clone, Copy, PartialEq, Eq, Debug)]
pub enum Field {
    Pdc,
    Mod,
    Fl,
    Tm,
    Dt,
}

/// Why a call was refused, with the numbers that tell the caller what to change.
#[derive(Clone, Copy, PartialEq, Eq, Debug)]
pub enum Refusal {
    /// 1: a number is above what its field holds; names the first such field in the order of
    /// sending.
    OutOfRange(Field),
    /// 2: this tone map has a bit above the six sub-bands, or none of the six.
    ToneMap(u32),
    /// 3: this delimiter type is reserved.
    Reserved(u32),
    /// 4: the Reed-Solomon block has this many bytes, too few for its parity and one byte of
    /// payload.
    BlockTooShort(usize),
    /// 5: the Reed-Solomon block would have this many bytes, more than 255.
    BlockTooLong(usize),
}

impl Refusal {
    /// The refusal's number, as certificates and the text protocol print it.
    pub fn number(self) -> u32
        ensures { result ≡ number_of self }
    {
        match self {
            Refusal::OutOfRange(_) => 1,
            Refusal::ToneMap(_) => 2,
            Refusal::Reserved(_) => 3,
            Refusal::BlockTooShort(_) => 4,
            Refusal::BlockTooLong(_) => 5,
        }
    }
}
