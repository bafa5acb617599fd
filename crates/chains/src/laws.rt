//! What the layers above may rely on. The function does nothing: its contract is the law.
ghost use Rattle.chains.specs.Carries.{ChainsCarry};

/// The header chain carries 28 bits in 468 cells, and the payload chain of a legal header its
/// payload in the live cells of its payload rows; both keep the promise of stages.
pub fn chains_carry_their_frames()
    ensures { ChainsCarry }
{}
