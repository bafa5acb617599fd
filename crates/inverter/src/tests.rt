//! What a third party sees of stages, piles and faults.

use crate::complement::Inverter;
use crate::mark::Marker;
use stage::{ChainFault, Pile, Refusal, Stage, StageFault};

#[test]
fn a_pile_takes_back_what_it_coded(rt: HostRuntime) {
    let chain = Pile {
        first: Marker,
        second: Inverter,
    };
    let mut work = [0u8; 4];
    let mut line = [0u8; 4];
    assert!(rt; chain.code(&[1, 0, 0], &mut work, &mut line) == Ok(4));
    assert!(rt; line == [0, 1, 1, 0]);
    let mut message = [0u8; 4];
    assert!(rt; chain.decode(&line, &mut work, &mut message) == Ok(3));
    assert!(rt; message[0] == 1 && message[1] == 0 && message[2] == 0);
}

#[test]
fn a_wrong_mark_is_found_behind_the_inverter(rt: HostRuntime) {
    let chain = Pile {
        first: Marker,
        second: Inverter,
    };
    let mut work = [0u8; 4];
    let mut message = [0u8; 4];
    let fault = StageFault {
        number: 102,
        place: 3,
    };
    let expected = Refusal::Fault(ChainFault { fault, depth: 1 });
    assert!(rt; expected.number() == 10);
    assert!(rt; chain.decode(&[0, 1, 1, 1], &mut work, &mut message) == Err(expected));
}

#[test]
fn a_refused_coding_leaves_both_buffers(rt: HostRuntime) {
    let chain = Pile {
        first: Marker,
        second: Inverter,
    };
    let mut work = [9u8; 4];
    let mut line = [9u8; 3];
    assert!(rt; chain.code(&[1, 0, 0], &mut work, &mut line) == Err(Refusal::TooShort));
    assert!(rt; work == [9; 4] && line == [9; 3]);
}
