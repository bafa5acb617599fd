//! Where the interleaver puts bits, and where it finds damage.

use crate::interleavers::Interleave;
use stage::{ChainFault, Refusal, Stage, StageFault};
use std::test::Fail;

/// How many bits 13 rows of 36 have.
const BLOCK: usize = 468;

/// The refusal of a list that is no coding, at this place.
fn refused_at(place: usize) -> Refusal {
    Refusal::Fault(ChainFault {
        fault: StageFault { number: 8, place },
        depth: 0,
    })
}

/// Whether, in a block of 13 rows of 36, a single 1 at `from` is put to `to` and taken back.
fn goes(from: usize, to: usize) -> bool {
    let Ok(stage) = Interleave::new(36, 13, 1) else {
        return false;
    };
    if from >= BLOCK || to >= BLOCK {
        return false;
    }
    let mut bits = [0u8; BLOCK];
    bits[from] = 1;
    let mut moved = [0u8; BLOCK];
    moved[to] = 1;
    let mut work = [9u8; BLOCK];
    let mut line = [9u8; BLOCK];
    let coded = stage.code(&bits, &mut work, &mut line) == Ok(BLOCK) && line == moved;
    let mut back = [9u8; BLOCK];
    coded && stage.decode(&moved, &mut work, &mut back) == Ok(BLOCK) && back == bits
}

#[test]
fn bits_go_where_they_do_by_hand(rt: HostRuntime) {
    assert!(rt; goes(1, 83));
    assert!(rt; goes(36, 41));
    assert!(rt; goes(467, 163));
}

#[test]
fn bits_stay_in_their_block(rt: HostRuntime) -> Result<(), Fail> {
    let Ok(stage) = Interleave::new(6, 2, 2) else {
        assert!(rt; false);
        return Ok(());
    };
    let mut bits = [0u8; 24];
    bits[13] = 1;
    let mut moved = [0u8; 24];
    moved[18] = 1;
    let mut work = [9u8; 24];
    let mut line = [9u8; 24];
    assert!(rt; stage.code(&bits, &mut work, &mut line) == Ok(24));
    assert!(rt; line == moved);
    Ok(())
}

#[test]
fn an_element_that_is_no_bit_is_refused_where_it_stands(rt: HostRuntime) -> Result<(), Fail> {
    let Ok(stage) = Interleave::new(6, 2, 1) else {
        assert!(rt; false);
        return Ok(());
    };
    let mut work = [9u8; 12];
    let mut bits = [9u8; 12];
    let mut line = [1u8; 12];
    line[7] = 2;
    assert!(rt; stage.decode(&line, &mut work, &mut bits) == Err(refused_at(7)));
    assert!(rt; stage.decode(&line[0..11], &mut work, &mut bits) == Err(refused_at(0)));
    assert!(rt; stage.code(&line[0..6], &mut work, &mut bits) == Err(Refusal::Illegal));
    Ok(())
}

/// Whether these sizes are taken.
fn taken(width: usize, rows: usize, blocks: usize) -> bool {
    Interleave::new(width, rows, blocks).is_ok()
}

#[test]
fn sizes_end_where_they_are_said_to(rt: HostRuntime) {
    assert!(rt; taken(6, 1, 1) && taken(36, 252, 3));
    assert!(rt; !taken(0, 1, 1) && !taken(8, 1, 1) && !taken(42, 1, 1));
    assert!(rt; !taken(6, 0, 1) && !taken(6, 253, 1));
    assert!(rt; !taken(6, 1, 0) && !taken(6, 1, 4));
}
