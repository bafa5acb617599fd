//! Piles of these stages.

use crate::{Check, Scramble};
use stage::{Pile, Refusal, Stage};

#[test]
fn bytes_do_not_fit_into_a_stage_of_bits(rt: HostRuntime) {
    let pile = Pile {
        first: Scramble,
        second: Check,
    };
    let mut work = [0u8; 40];
    let mut result = [9u8; 40];
    assert_eq!(rt;
        pile.code(&[0], &mut work, &mut result),
        Err(Refusal::Misfit)
    );
    assert_eq!(rt;
        pile.decode(&[0], &mut work[0..0], &mut result),
        Err(Refusal::Misfit)
    );
    assert!(rt; result[0] == 9);
}
