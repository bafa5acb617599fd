//! What the check appends, and where it finds damage.

use crate::checks::Check;
use stage::{ChainFault, Refusal, Stage, StageFault};

/// The 28 bits of a header of a DBPSK frame of length 2 with all carriers live, and its check.
const DBPSK: [u8; 33] = [
    0, 0, 0, 0, 0, 0, 0, 0, 0, 1, 0, 0, 0, 0, 1, 0, 0, 0, 1, 1, 1, 1, 1, 1, 0, 0, 0, 0, 0, 1, 1, 1,
    1,
];

/// The same of a robust frame of length 10.
const ROBUST: [u8; 33] = [
    0, 0, 0, 0, 0, 0, 0, 0, 0, 0, 0, 0, 1, 0, 1, 0, 0, 0, 1, 1, 1, 1, 1, 1, 0, 0, 0, 0, 0, 1, 1, 0,
    0,
];

/// The refusal of a list that is no coding, at this place.
fn refused_at(place: usize) -> Refusal {
    Refusal::Fault(ChainFault {
        fault: StageFault { number: 1, place },
        depth: 0,
    })
}

#[test]
fn headers_get_their_five_check_bits(rt: HostRuntime) {
    let mut work = [0u8; 33];
    let mut line = [9u8; 33];
    assert!(rt; Check.code(&DBPSK[0..28], &mut work, &mut line) == Ok(33));
    assert!(rt; line == DBPSK);
    assert!(rt; Check.code(&ROBUST[0..28], &mut work, &mut line) == Ok(33));
    assert!(rt; line == ROBUST);
}

#[test]
fn a_changed_check_bit_is_the_place(rt: HostRuntime) {
    let mut work = [0u8; 33];
    let mut message = [0u8; 33];
    let mut line = DBPSK;
    assert!(rt; Check.decode(&line, &mut work, &mut message) == Ok(28));
    line[32] = 0;
    assert!(rt; Check.decode(&line, &mut work, &mut message) == Err(refused_at(32)));
}

#[test]
fn a_changed_last_bit_shows_in_the_third_check_bit(rt: HostRuntime) {
    let mut work = [0u8; 33];
    let mut message = [0u8; 33];
    let mut line = DBPSK;
    line[27] = 1;
    assert!(rt; Check.decode(&line, &mut work, &mut message) == Err(refused_at(30)));
    line[27] = 2;
    assert!(rt; Check.decode(&line, &mut work, &mut message) == Err(refused_at(27)));
}

#[test]
fn other_lengths_are_refused(rt: HostRuntime) {
    let mut work = [0u8; 40];
    let mut result = [0u8; 40];
    assert!(rt; Check.code(&DBPSK[0..27], &mut work, &mut result) == Err(Refusal::Illegal));
    assert!(rt; Check.code(&DBPSK[0..29], &mut work, &mut result) == Err(Refusal::Illegal));
    assert!(rt; Check.decode(&DBPSK[0..32], &mut work, &mut result) == Err(refused_at(0)));
}
