//! A stage that is one of two, chosen when it is made.

ghost use Rattle.chains.specs.Choices.{one_of, one_of_keeps};

use stage::{ChainFault, Outline, Span, Stage};

/// One of two stages; it is a stage just as the one it holds.
// Neither an Option nor a Result: both variants hold a stage, and neither stands for want or failure.
#[derive(Drop)]
pub enum Choice<A, B> {
    /// The one.
    First(A),
    /// The other.
    Second(B),
}

impl<A: Stage, B: Stage> Stage for Choice<A, B> {
    ghost model = { one_of A.Stage.model B.Stage.model };

    ghost keeps = { one_of_keeps A.Stage.model B.Stage.model A.Stage.keeps B.Stage.keeps };

    // Two arms alike in each method: they are of two types, and a closure would have to be generic.
    fn outline(&self) -> Outline {
        match self {
            Choice::First(stage) => stage.outline(),
            Choice::Second(stage) => stage.outline(),
        }
    }

    fn coded_span(&self, length: usize) -> Span {
        match self {
            Choice::First(stage) => stage.coded_span(length),
            Choice::Second(stage) => stage.coded_span(length),
        }
    }

    fn decoded_span(&self, length: usize) -> Span {
        match self {
            Choice::First(stage) => stage.decoded_span(length),
            Choice::Second(stage) => stage.decoded_span(length),
        }
    }

    fn code_in(&self, n: usize, work: &mut [u8], res: &mut [u8]) -> usize {
        match self {
            Choice::First(stage) => stage.code_in(n, work, res),
            Choice::Second(stage) => stage.code_in(n, work, res),
        }
    }

    fn decode_in(&self, n: usize, work: &mut [u8], res: &mut [u8]) -> Result<usize, ChainFault> {
        match self {
            Choice::First(stage) => stage.decode_in(n, work, res),
            Choice::Second(stage) => stage.decode_in(n, work, res),
        }
    }
}
