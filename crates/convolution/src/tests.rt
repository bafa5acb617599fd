//! What the convolution puts out, and where it finds damage.

use crate::convolutions::Convolve;
use stage::{ChainFault, Refusal, Stage, StageFault};

/// The coding of the single bit 1.
const SINGLE_ONE: [u8; 14] = [1, 1, 1, 0, 1, 1, 1, 1, 0, 0, 0, 1, 1, 1];

/// The refusal of a list that is no coding, at this place.
fn refused_at(place: usize) -> Refusal {
    Refusal::Fault(ChainFault {
        fault: StageFault { number: 5, place },
        depth: 0,
    })
}

#[test]
fn a_single_one_is_coded_and_taken_back(rt: HostRuntime) {
    let mut work = [9u8; 14];
    let mut line = [9u8; 14];
    assert!(rt; Convolve.code(&[1], &mut work, &mut line) == Ok(14));
    assert!(rt; line == SINGLE_ONE);
    let mut bits = [9u8; 14];
    assert!(rt; Convolve.decode(&line, &mut work, &mut bits) == Ok(1));
    assert!(rt; bits[0] == 1);
}

#[test]
fn a_changed_bit_is_found_where_no_coding_agrees(rt: HostRuntime) {
    let mut work = [0u8; 14];
    let mut bits = [0u8; 14];
    let mut line = SINGLE_ONE;
    line[0] = 0;
    assert!(rt; Convolve.decode(&line, &mut work, &mut bits) == Err(refused_at(1)));
    line[0] = 2;
    assert!(rt; Convolve.decode(&line, &mut work, &mut bits) == Err(refused_at(0)));
    line = SINGLE_ONE;
    line[2] = 0;
    assert!(rt; Convolve.decode(&line, &mut work, &mut bits) == Err(refused_at(2)));
}

#[test]
fn lengths_are_those_of_a_message_and_its_tail(rt: HostRuntime) {
    let mut work = [0u8; 14];
    let mut line = [9u8; 14];
    assert!(rt; Convolve.code(&[], &mut work, &mut line) == Ok(12));
    assert!(rt; Convolve.decode(&SINGLE_ONE[0..13], &mut work, &mut line) == Err(refused_at(0)));
    assert!(rt; Convolve.decode(&SINGLE_ONE[0..10], &mut work, &mut line) == Err(refused_at(0)));
}
