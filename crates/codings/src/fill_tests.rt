//! What a caller sees of the stage that fills up with zeros.

use crate::fills::Fill;
use stage::{ChainFault, Refusal, Stage, StageFault};
use std::test::Fail;

#[test]
fn zeros_stand_behind_the_bits(rt: HostRuntime) -> Result<(), Fail> {
    let Ok(stage) = Fill::new(3, 5) else {
        assert!(rt; false);
        return Ok(());
    };
    let mut work = [0u8; 5];
    let mut line = [9u8; 5];
    assert!(rt; stage.code(&[1, 0, 1], &mut work, &mut line) == Ok(5));
    assert!(rt; line == [1, 0, 1, 0, 0]);
    let mut bits = [0u8; 5];
    assert!(rt; stage.decode(&line, &mut work, &mut bits) == Ok(3));
    assert!(rt; bits[0] == 1 && bits[1] == 0 && bits[2] == 1);
    assert!(rt; stage.code(&[1, 0], &mut work, &mut line) == Err(Refusal::Illegal));
    Ok(())
}

#[test]
fn the_fault_is_at_the_first_element_that_is_no_bit_or_no_zero(
    rt: HostRuntime,
) -> Result<(), Fail> {
    let Ok(stage) = Fill::new(3, 5) else {
        assert!(rt; false);
        return Ok(());
    };
    let mut work = [0u8; 5];
    let mut bits = [0u8; 5];
    assert!(rt; stage.decode(&[1, 2, 0, 0, 1], &mut work, &mut bits) == Err(fill_fault(1)));
    assert!(rt; stage.decode(&[1, 1, 0, 0, 1], &mut work, &mut bits) == Err(fill_fault(4)));
    assert!(rt; stage.decode(&[1, 1, 0, 0], &mut work, &mut bits) == Err(fill_fault(0)));
    Ok(())
}

#[test]
fn more_bits_than_the_total_are_refused(rt: HostRuntime) {
    assert!(rt; Fill::new(6, 5).is_err() && Fill::new(0, 9_073).is_err());
    assert!(rt; Fill::new(0, 0).is_ok() && Fill::new(9_072, 9_072).is_ok());
}

fn fill_fault(place: usize) -> Refusal {
    let fault = StageFault { number: 6, place };
    Refusal::Fault(ChainFault { fault, depth: 0 })
}
