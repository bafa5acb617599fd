//! A chain as a stage of its own.

ghost use Rattle.chains.specs.Wholes.{of_whole, whole_keeps};

use stage::{ChainFault, Outline, Span, Stage};

/// A chain: a pile of stages that nobody else takes apart. It is a stage just as its pile.
#[derive(Drop)]
pub struct Chain<P> {
    pub(crate) pile: P,
}

impl<P: Stage> Stage for Chain<P> {
    ghost model = { of_whole P.Stage.model };

    ghost keeps = { whole_keeps P.Stage.model P.Stage.keeps };

    fn outline(&self) -> Outline {
        self.pile.outline()
    }

    fn coded_span(&self, length: usize) -> Span {
        self.pile.coded_span(length)
    }

    fn decoded_span(&self, length: usize) -> Span {
        self.pile.decoded_span(length)
    }

    fn code_in(&self, n: usize, work: &mut [u8], res: &mut [u8]) -> usize {
        self.pile.code_in(n, work, res)
    }

    fn decode_in(&self, n: usize, work: &mut [u8], res: &mut [u8]) -> Result<usize, ChainFault> {
        self.pile.decode_in(n, work, res)
    }
}
