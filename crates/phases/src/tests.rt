//! What a caller sees of the two stages.

use crate::differences::Difference;
use crate::maps::Map;
use stage::{ChainFault, Pile, Refusal, Stage, StageFault};
use std::test::Fail;

/// The reference of the tests.
const REFERENCE: [u8; 6] = [0, 1, 2, 3, 4, 5];

/// A fault of the only stage of a chain.
fn fault(number: u8, place: usize) -> Refusal {
    let fault = StageFault { number, place };
    Refusal::Fault(ChainFault { fault, depth: 0 })
}

#[test]
fn three_bits_make_the_increments_of_the_table(rt: HostRuntime) -> Result<(), Fail> {
    let Ok(map) = Map::new(3) else {
        assert!(rt; false);
        return Ok(());
    };
    let mut work = [0u8; 9];
    let mut line = [0u8; 9];
    assert!(rt; map.code(&[0, 1, 1, 1, 0, 0, 1, 1, 0], &mut work, &mut line) == Ok(3));
    assert!(rt; line[0] == 2 && line[1] == 7 && line[2] == 4);
    let mut message = [0u8; 9];
    assert!(rt; map.decode(&[2, 7, 4], &mut work, &mut message) == Ok(9));
    assert!(rt; message == [0, 1, 1, 1, 0, 0, 1, 1, 0]);
    Ok(())
}

#[test]
fn an_increment_that_is_not_in_use_is_the_place_of_the_fault(rt: HostRuntime) -> Result<(), Fail> {
    let Ok(map) = Map::new(2) else {
        assert!(rt; false);
        return Ok(());
    };
    let mut work = [0u8; 8];
    let mut message = [0u8; 8];
    assert!(rt; map.decode(&[6, 2, 3, 0], &mut work, &mut message) == Err(fault(9, 2)));
    assert!(rt; map.decode(&[6, 255, 0], &mut work, &mut message) == Err(fault(9, 1)));
    assert!(rt; map.code(&[1, 0, 1], &mut work, &mut message) == Err(Refusal::Illegal));
    Ok(())
}

#[test]
fn an_increment_has_one_to_three_bits(rt: HostRuntime) {
    assert!(rt; Map::new(0).is_err() && Map::new(4).is_err());
    assert!(rt; Map::new(1).is_ok() && Map::new(2).is_ok() && Map::new(3).is_ok());
}

#[test]
fn increments_are_added_to_the_row_before(rt: HostRuntime) -> Result<(), Fail> {
    let Ok(difference) = Difference::new(&REFERENCE) else {
        assert!(rt; false);
        return Ok(());
    };
    let increments = [1, 1, 1, 1, 1, 1, 7, 7, 7, 7, 7, 7];
    let mut work = [0u8; 12];
    let mut cells = [0u8; 12];
    assert!(rt; difference.code(&increments, &mut work, &mut cells) == Ok(12));
    assert!(rt; cells == [1, 2, 3, 4, 5, 6, 0, 1, 2, 3, 4, 5]);
    let mut message = [0u8; 12];
    assert!(rt; difference.decode(&cells, &mut work, &mut message) == Ok(12));
    assert!(rt; message == increments);
    Ok(())
}

#[test]
fn the_first_element_above_seven_is_the_place_of_the_fault(rt: HostRuntime) -> Result<(), Fail> {
    let Ok(difference) = Difference::new(&REFERENCE) else {
        assert!(rt; false);
        return Ok(());
    };
    let mut work = [0u8; 6];
    let mut message = [0u8; 6];
    let received = [7, 7, 7, 8, 0, 200];
    assert!(rt; difference.decode(&received, &mut work, &mut message) == Err(fault(10, 3)));
    assert!(rt; difference.decode(&[0; 5], &mut work, &mut message) == Err(fault(10, 0)));
    Ok(())
}

#[test]
fn a_reference_is_a_row_of_cells(rt: HostRuntime) {
    assert!(rt; Difference::new(&[0; 5]).is_err() && Difference::new(&[0; 42]).is_err());
    assert!(rt; Difference::new(&[0, 1, 2, 3, 4, 8]).is_err() && Difference::new(&[7; 36]).is_ok());
}

#[test]
fn bits_become_cells_through_a_pile(rt: HostRuntime) -> Result<(), Fail> {
    let Ok(first) = Map::new(1) else {
        assert!(rt; false);
        return Ok(());
    };
    let Ok(second) = Difference::new(&REFERENCE) else {
        assert!(rt; false);
        return Ok(());
    };
    let chain = Pile { first, second };
    let mut work = [0u8; 6];
    let mut cells = [0u8; 6];
    assert!(rt; chain.code(&[1, 0, 1, 1, 0, 0], &mut work, &mut cells) == Ok(6));
    assert!(rt; cells == [4, 1, 6, 7, 4, 5]);
    Ok(())
}
