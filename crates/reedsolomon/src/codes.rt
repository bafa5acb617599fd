//! Codes over the field of 256 bytes. The function does nothing: its contract is the law.

ghost use Rattle.reedsolomon.specs.Codes.{ParityLaw};

/// What the parity of a message of bytes is: the message moved up 2T powers is a multiple of the
/// generator plus the parity, which has 2T bytes, and no other such bytes will do. So the message
/// with its parity behind it is a multiple of the generator, and is 0 at α to α^2T.
pub fn parity_law()
    ensures { ParityLaw }
{}
