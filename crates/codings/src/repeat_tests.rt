//! What a caller sees of the stage that repeats bits.

use crate::repeats::Repeat;
use stage::{ChainFault, Refusal, Stage, StageFault};
use std::test::Fail;

#[test]
fn a_bit_is_put_out_so_many_times(rt: HostRuntime) -> Result<(), Fail> {
    let Ok(stage) = Repeat::new(6) else {
        assert!(rt; false);
        return Ok(());
    };
    let mut work = [0u8; 12];
    let mut line = [9u8; 12];
    assert!(rt; stage.code(&[1, 0], &mut work, &mut line) == Ok(12));
    assert!(rt; line == [1, 1, 1, 1, 1, 1, 0, 0, 0, 0, 0, 0]);
    let mut bits = [0u8; 12];
    assert!(rt; stage.decode(&line, &mut work, &mut bits) == Ok(2));
    assert!(rt; bits[0] == 1 && bits[1] == 0);
    Ok(())
}

#[test]
fn a_copy_that_differs_is_the_place_of_the_fault(rt: HostRuntime) -> Result<(), Fail> {
    let Ok(stage) = Repeat::new(4) else {
        assert!(rt; false);
        return Ok(());
    };
    let mut work = [0u8; 8];
    let mut bits = [0u8; 8];
    assert!(rt; stage.decode(&[1, 1, 0, 1], &mut work, &mut bits) == Err(repeat_fault(2)));
    assert!(rt;
        stage.decode(&[0, 0, 0, 0, 2, 2, 2, 2], &mut work, &mut bits) == Err(repeat_fault(4))
    );
    assert!(rt; stage.decode(&[1, 1, 1, 1, 1], &mut work, &mut bits) == Err(repeat_fault(0)));
    Ok(())
}

#[test]
fn other_counts_are_refused(rt: HostRuntime) {
    assert!(rt; Repeat::new(0).is_err() && Repeat::new(5).is_err() && Repeat::new(7).is_err());
}

fn repeat_fault(place: usize) -> Refusal {
    let fault = StageFault { number: 7, place };
    Refusal::Fault(ChainFault { fault, depth: 0 })
}
