//! Calls that ask for memory, and are given it.
use crate::*;
use codings::Repeat;
use std::test::Fail;

/// Whether an answer has this text.
fn says(answer: Option<Vec<u8>>, text: &[u8]) -> bool {
    match answer {
        Some(bytes) => bytes.as_slice() == text,
        None => false,
    }
}

#[test]
fn a_stage_set_by_a_number_is_called(rt: HostRuntime) -> Result<(), Fail> {
    let mut words = Words::new(b"4 0100 8 8");
    let answer = number_reply(rt.alloc(), &mut words, Direction::Code, Repeat::new)?;
    assert!(rt; says(answer, b"list 0101010100000000"));
    Ok(())
}

#[test]
fn a_stage_set_by_two_numbers_is_called(rt: HostRuntime) -> Result<(), Fail> {
    let mut words = Words::new(b"3 5 0101010000 5 5");
    let answer = fill_reply(rt.alloc(), &mut words, Direction::Decode)?;
    assert!(rt; says(answer, b"list 010101"));
    Ok(())
}

#[test]
fn a_stage_set_by_a_reference_is_called(rt: HostRuntime) -> Result<(), Fail> {
    let mut words = Words::new(b"6 000000000000 010203040506 6 6");
    let answer = difference_reply(rt.alloc(), &mut words, Direction::Code)?;
    assert!(rt; says(answer, b"list 010203040506"));
    Ok(())
}

#[test]
fn a_header_is_sized(rt: HostRuntime) -> Result<(), Fail> {
    let mut words = Words::new(b"0 1 2 63 0");
    let answer = size_reply(rt.alloc(), &mut words)?;
    assert!(rt; says(answer, b"size 1 21"));
    Ok(())
}

#[test]
fn the_last_words_are_read_as_lists(rt: HostRuntime) -> Result<(), Fail> {
    let list = Words::new(b"0aff").last_list(rt.alloc())?;
    assert!(rt; says(list, &[10, 255]));
    let cells = Words::new(b"08z").last_cells(rt.alloc())?;
    assert!(rt; says(cells, &[0, 8, 35]));
    Ok(())
}
