//! What a caller sees of the stage that unpacks bytes.

use crate::unpackers::UnpackBits;
use stage::{ChainFault, Refusal, Stage, StageFault};

#[test]
fn the_highest_bit_comes_first(rt: HostRuntime) {
    let mut work = [0u8; 16];
    let mut line = [9u8; 16];
    assert!(rt; UnpackBits.code(&[0x80, 0x35], &mut work, &mut line) == Ok(16));
    assert!(rt; line == [1, 0, 0, 0, 0, 0, 0, 0, 0, 0, 1, 1, 0, 1, 0, 1]);
    let mut bytes = [0u8; 16];
    assert!(rt; UnpackBits.decode(&line, &mut work, &mut bytes) == Ok(2));
    assert!(rt; bytes[0] == 0x80 && bytes[1] == 0x35);
}

#[test]
fn the_fault_is_at_the_first_element_that_is_no_bit(rt: HostRuntime) {
    let mut work = [0u8; 8];
    let mut bytes = [0u8; 8];
    assert!(rt;
        UnpackBits.decode(&[1, 0, 1, 0, 1, 2, 1, 3], &mut work, &mut bytes) == Err(unpack_fault(5))
    );
    assert!(rt;
        UnpackBits.decode(&[1, 0, 1, 0, 1, 1, 1], &mut work, &mut bytes) == Err(unpack_fault(0))
    );
}

#[test]
fn the_longest_list_is_of_255_bytes(rt: HostRuntime) {
    let mut work = [0u8; 2_048];
    let mut line = [0u8; 2_048];
    assert!(rt; UnpackBits.code(&[255u8; 255], &mut work, &mut line) == Ok(2_040));
    assert!(rt; UnpackBits.code(&[255u8; 256], &mut work, &mut line) == Err(Refusal::Illegal));
}

fn unpack_fault(place: usize) -> Refusal {
    let fault = StageFault { number: 4, place };
    Refusal::Fault(ChainFault { fault, depth: 0 })
}
