//! The answer of a call, as a record that programs in C and Rust can read.

ghost use Rattle.std.specs.Prelude.{◌≡◌};
ghost use Rattle.framecoder.specs.Answers.{refused, told};

use stage::Refusal;

// C interface: numbers that a C program reads, 0 where there is nothing to tell, in place of a `Result`.
/// The answer of a call: the length of the list at the front of the result buffer, or a refusal.
#[repr(C)]
#[derive(Clone, Copy)]
pub struct Answer {
    /// The refusal's number; 0 where there is none.
    pub refusal: u32,
    /// The number of the stage whose fault it was; 0 without a fault.
    pub stage: u32,
    /// How many elements the list has; 0 after a refusal.
    pub length: usize,
    /// How far the received list was right; 0 without a fault.
    pub place: usize,
    /// How many plain stages stand nearer the line than that stage; 0 without a fault.
    pub depth: usize,
}

/// The answer that tells a refusal.
impl From<Refusal> for Answer {
    ghost from_gives = { λ e r. r ≡ refused e };

    fn from(refusal: Refusal) -> Answer {
        let bare = Answer {
            refusal: refusal.number() as u32,
            stage: 0,
            length: 0,
            place: 0,
            depth: 0,
        };
        match refusal {
            Refusal::Fault(chain) => Answer {
                stage: chain.fault.number as u32,
                place: chain.fault.place,
                depth: chain.depth,
                ..bare
            },
            _ => bare,
        }
    }
}

/// The answer that tells what a call of a stage answered.
impl From<Result<usize, Refusal>> for Answer {
    ghost from_gives = { λ a r. r ≡ told a };

    fn from(answer: Result<usize, Refusal>) -> Answer {
        match answer {
            Ok(length) => Answer {
                refusal: 0,
                stage: 0,
                length,
                place: 0,
                depth: 0,
            },
            Err(refusal) => Answer::from(refusal),
        }
    }
}
