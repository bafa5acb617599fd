//! What the scrambler puts out.

use crate::scramblers::Scramble;
use stage::{ChainFault, Refusal, Stage, StageFault};

#[test]
fn two_zero_bytes_show_the_first_sixteen_bits(rt: HostRuntime) {
    let mut work = [0u8; 2];
    let mut line = [0u8; 2];
    assert!(rt; Scramble.code(&[0x00, 0x00], &mut work, &mut line) == Ok(2));
    assert!(rt; line == [0x0e, 0xf2]);
}

#[test]
fn scrambling_again_takes_it_back(rt: HostRuntime) {
    let mut work = [0u8; 2];
    let mut message = [9u8; 2];
    assert!(rt; Scramble.decode(&[0x0e, 0xf2], &mut work, &mut message) == Ok(2));
    assert!(rt; message == [0x00, 0x00]);
    assert!(rt; Scramble.decode(&[0xff, 0x00], &mut work, &mut message) == Ok(2));
    assert!(rt; message == [0xf1, 0xf2]);
}

#[test]
fn lists_end_at_255_bytes(rt: HostRuntime) {
    let mut work = [0u8; 256];
    let mut result = [0u8; 256];
    let fault = StageFault {
        number: 2,
        place: 0,
    };
    let expected = Refusal::Fault(ChainFault { fault, depth: 0 });
    let given = [0u8; 256];
    assert!(rt; Scramble.code(&[], &mut work, &mut result) == Ok(0));
    assert!(rt; Scramble.code(&given[0..255], &mut work, &mut result) == Ok(255));
    assert!(rt; Scramble.code(&given, &mut work, &mut result) == Err(Refusal::Illegal));
    assert!(rt; Scramble.decode(&given, &mut work, &mut result) == Err(expected));
}
