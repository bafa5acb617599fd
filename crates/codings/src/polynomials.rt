//! Polynomials over two elements. The function does nothing: its contract is the law.

ghost use Rattle.codings.specs.Polynomials.{RemainderLaw};

/// What the checks append is the remainder of division, for every message and every monic
/// generator: the message moved up is a multiple of the generator plus the remainder, whose
/// degree is below the generator's, and no other polynomial of such a degree will do.
pub fn remainder_law()
    ensures { RemainderLaw }
{}
