//! What parity is put behind a message, and where damage is found.

use crate::words::ReedSolomon;
use stage::{ChainFault, Refusal, Stage, StageFault};
use std::test::Fail;

/// The most bytes of a code word.
const LONGEST: usize = 255;

/// The code word of the message 01 with T = 4: the generator with the roots α to α^8.
const ONE_BYTE: [u8; 9] = [0x01, 0xe3, 0x2c, 0xb2, 0x47, 0xac, 0x08, 0xe0, 0x25];

/// The code word of the message 01 02 with T = 4.
const TWO_BYTES: [u8; 10] = [1, 2, 88, 59, 134, 211, 88, 187, 111, 51];

/// The code word of the message FF 00 10 with T = 8.
const THREE_BYTES: [u8; 19] = [
    255, 0, 16, 75, 213, 220, 54, 233, 218, 139, 249, 35, 203, 98, 33, 223, 165, 224, 76,
];

/// The refusal of a list that is no code word, at this place.
fn refused_at(place: usize) -> Refusal {
    Refusal::Fault(ChainFault {
        fault: StageFault { number: 3, place },
        depth: 0,
    })
}

/// Whether a strength is refused with 1.
fn is_refused(strength: usize) -> bool {
    match ReedSolomon::new(strength) {
        Ok(_) => false,
        Err(refusal) => refusal == Refusal::Setting,
    }
}

#[test]
fn strengths_other_than_four_and_eight_are_refused(rt: HostRuntime) {
    assert!(rt; !is_refused(4) && !is_refused(8));
    assert!(rt; is_refused(0) && is_refused(3) && is_refused(5) && is_refused(6));
    assert!(rt; is_refused(7) && is_refused(9) && is_refused(16) && is_refused(usize::MAX));
}

#[test]
fn a_single_one_shows_the_generator_and_is_taken_back(rt: HostRuntime) -> Result<(), Fail> {
    let Ok(stage) = ReedSolomon::new(4) else {
        assert!(rt; false);
        return Ok(());
    };
    let mut work = [9u8; 9];
    let mut line = [9u8; 9];
    assert!(rt; stage.code(&[1], &mut work, &mut line) == Ok(9));
    assert!(rt; line == ONE_BYTE);
    let mut message = [9u8; 9];
    assert!(rt; stage.decode(&line, &mut work, &mut message) == Ok(1));
    assert!(rt; message[0] == 1);
    Ok(())
}

#[test]
fn strength_eight_puts_sixteen_bytes_behind_a_message(rt: HostRuntime) -> Result<(), Fail> {
    let Ok(stage) = ReedSolomon::new(8) else {
        assert!(rt; false);
        return Ok(());
    };
    let mut work = [9u8; 19];
    let mut line = [9u8; 19];
    assert!(rt; stage.code(&[255, 0, 16], &mut work, &mut line) == Ok(19));
    assert!(rt; line == THREE_BYTES);
    let mut message = [9u8; 19];
    assert!(rt; stage.decode(&line, &mut work, &mut message) == Ok(3));
    assert!(rt; message[0] == 255 && message[1] == 0 && message[2] == 16);
    Ok(())
}

/// Whether `longest` equal bytes are coded as 255 of them and taken back, and one more is illegal.
///
/// Such a word is a multiple of (x^255 − 1) / (x − 1), which is 0 at every power of α but 1.
fn ends_at(strength: usize, longest: usize) -> bool {
    let Ok(stage) = ReedSolomon::new(strength) else {
        return false;
    };
    if longest >= LONGEST {
        return false;
    }
    let equal = [7u8; LONGEST];
    let mut work = [9u8; LONGEST];
    let mut line = [9u8; LONGEST];
    let coded = stage.code(&equal[0..longest], &mut work, &mut line) == Ok(LONGEST)
        && line == equal;
    let mut message = [9u8; LONGEST];
    let decoded = stage.decode(&line, &mut work, &mut message) == Ok(longest)
        && &message[0..longest] == &equal[0..longest];
    let more = stage.code(&equal[0..longest + 1], &mut work, &mut line);
    coded && decoded && more == Err(Refusal::Illegal)
}

#[test]
fn messages_end_where_the_word_has_255_bytes(rt: HostRuntime) {
    assert!(rt; ends_at(4, 247));
    assert!(rt; ends_at(8, 239));
}

#[test]
fn an_empty_message_is_refused(rt: HostRuntime) -> Result<(), Fail> {
    let Ok(stage) = ReedSolomon::new(4) else {
        assert!(rt; false);
        return Ok(());
    };
    let mut work = [9u8; 9];
    let mut line = [9u8; 9];
    assert!(rt; stage.code(&[], &mut work, &mut line) == Err(Refusal::Illegal));
    Ok(())
}

#[test]
fn damaged_parity_is_found_where_it_stands(rt: HostRuntime) -> Result<(), Fail> {
    let Ok(stage) = ReedSolomon::new(4) else {
        assert!(rt; false);
        return Ok(());
    };
    let mut work = [0u8; 9];
    let mut message = [0u8; 9];
    let mut line = ONE_BYTE;
    line[8] = 0x26;
    assert!(rt; stage.decode(&line, &mut work, &mut message) == Err(refused_at(8)));
    line[4] = 0x46;
    assert!(rt; stage.decode(&line, &mut work, &mut message) == Err(refused_at(4)));
    line[1] = 0;
    assert!(rt; stage.decode(&line, &mut work, &mut message) == Err(refused_at(1)));
    Ok(())
}

#[test]
fn a_damaged_message_is_found_where_its_parity_differs(rt: HostRuntime) -> Result<(), Fail> {
    let Ok(stage) = ReedSolomon::new(4) else {
        assert!(rt; false);
        return Ok(());
    };
    let mut work = [0u8; 10];
    let mut message = [0u8; 10];
    let mut line = TWO_BYTES;
    assert!(rt; stage.decode(&line, &mut work, &mut message) == Ok(2));
    line[1] = 3;
    assert!(rt; stage.decode(&line, &mut work, &mut message) == Err(refused_at(2)));
    // The parity of 00 BE begins with the same byte as that of 01 02.
    line[0] = 0;
    line[1] = 0xbe;
    assert!(rt; stage.decode(&line, &mut work, &mut message) == Err(refused_at(3)));
    Ok(())
}

#[test]
fn a_length_that_no_word_has_is_refused_at_the_front(rt: HostRuntime) -> Result<(), Fail> {
    let Ok(stage) = ReedSolomon::new(4) else {
        assert!(rt; false);
        return Ok(());
    };
    let mut work = [0u8; 256];
    let mut message = [0u8; 256];
    assert!(rt; stage.decode(&[], &mut work, &mut message) == Err(refused_at(0)));
    assert!(rt; stage.decode(&ONE_BYTE[0..8], &mut work, &mut message) == Err(refused_at(0)));
    assert!(rt; stage.decode(&[0; 256], &mut work, &mut message) == Err(refused_at(0)));
    Ok(())
}

#[test]
fn short_buffers_are_refused_and_left_as_they_were(rt: HostRuntime) -> Result<(), Fail> {
    let Ok(stage) = ReedSolomon::new(4) else {
        assert!(rt; false);
        return Ok(());
    };
    let mut short = [9u8; 8];
    let mut buffer = [9u8; 9];
    assert!(rt; stage.code(&[1], &mut short, &mut buffer) == Err(Refusal::TooShort));
    assert!(rt; stage.code(&[1], &mut buffer, &mut short) == Err(Refusal::TooShort));
    assert!(rt; stage.decode(&ONE_BYTE, &mut short, &mut buffer) == Err(Refusal::TooShort));
    assert!(rt; stage.decode(&ONE_BYTE, &mut buffer, &mut short) == Err(Refusal::TooShort));
    assert!(rt; short == [9; 8] && buffer == [9; 9]);
    Ok(())
}
