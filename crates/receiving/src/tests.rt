//! What a caller sees of receivers and recordings. The rows, and the places of faults, are the second
//! coder's.

use crate::receivers::Receiver;
use crate::recordings::{RecordRefusal, Recording};
use crate::refusals::{FeedRefusal, Part, ReceiverFault, StartRefusal, TakeRefusal};
use crate::sizes::HEADER_ROWS;
use frame::{Header, Refusal};
use rows::{CARRIERS, SILENCE};
use stage::{ChainFault, StageFault};
use std::process::Abort;
use std::test::Fail;

/// The reference of the tests.
const REFERENCE: [u8; CARRIERS] = [0; CARRIERS];

/// The header rows of a frame under a reference of zeros: PDC 0, DBPSK, FL 3, tone map 31, DT 0. A
/// digit stands for a carrier, the lowest first, with 0 for phase 0 and 1 for phase 4.
const HEADER: [u64; 13] = [
    0b011011_000111_001100_001000_100110_010111,
    0b011101_001001_001001_001110_101100_111010,
    0b010011_100101_111111_000010_110110_101001,
    0b000010_111011_110011_011110_111100_100001,
    0b111110_011101_101110_000111_011000_111001,
    0b111010_011101_011100_111011_000000_000001,
    0b010010_101100_000101_010111_111010_110010,
    0b100011_011101_001101_010110_011111_001010,
    0b010100_111000_011100_110100_101100_010011,
    0b011111_001101_111111_010010_111000_010000,
    0b111001_111110_011000_010000_011011_010101,
    0b010001_111000_001111_101011_011100_011001,
    0b010111_110011_100010_101100_010010_011100,
];

/// Its payload rows, for the bytes 1 to 5.
const PAYLOAD: [u64; 12] = [
    0b010001_000101_011000_010010_010010_000000,
    0b011010_111011_000110_100100_110000_000000,
    0b010011_011001_110101_100100_110001_000000,
    0b110111_110001_000000_111110_100010_000000,
    0b000100_010000_100000_000000_111111_000000,
    0b011000_001011_001101_001100_000001_000000,
    0b011110_110111_100110_000110_111100_000000,
    0b101110_000101_010000_001011_111001_000000,
    0b110001_000000_010110_010100_100000_000000,
    0b101100_110101_110101_100101_000100_000000,
    0b001111_001011_110010_000111_011000_000000,
    0b111101_000011_101101_101010_011100_000000,
];

/// The rows of the same header but for DT, which is 4 and so reserved.
const RESERVED: [u64; 13] = [
    0b000011_011111_000100_001010_100100_010101,
    0b000001_110001_001001_000000_100110_111110,
    0b001011_011001_001111_111100_101100_101001,
    0b001010_001111_001010_100000_110110_111001,
    0b010110_100001_010111_111000_110011_000001,
    0b110010_010001_010101_010100_101001_111001,
    0b011001_000001_001100_001000_110011_001001,
    0b101100_110000_000100_101001_110110_010001,
    0b011011_010011_010010_001001_000100_101001,
    0b010001_100010_111101_101011_010001_101011,
    0b110100_010011_011010_101101_110100_101010,
    0b011110_010111_001111_001110_101011_101110,
    0b010100_010100_100100_001101_000101_100011,
];

/// How many payload rows the frame has.
const PAYLOAD_ROWS: usize = 12;

/// How many carriers are live in the payload rows.
const LIVE: usize = 30;

/// The frame's header.
fn header() -> Header {
    Header {
        pdc: 0,
        modulation: 1,
        fl: 3,
        tm: 31,
        dt: 0,
    }
}

/// The row with these digits on the live carriers, and silence on the others.
fn row(digits: u64, live: usize) -> [u8; CARRIERS] {
    let mut cells = [SILENCE; CARRIERS];
    for carrier in 0..CARRIERS {
        if carrier < live {
            cells[carrier] = 4 * (digits >> (CARRIERS - 1 - carrier) & 1) as u8;
        }
    }
    cells
}

/// The row with another phase on the carrier 7.
fn damaged(digits: u64, live: usize) -> [u8; CARRIERS] {
    row(digits ^ (1 << 28), live)
}

/// What a fault in a part is refused with.
fn fault(part: Part, number: u8, place: usize, depth: usize) -> FeedRefusal {
    let fault = StageFault { number, place };
    FeedRefusal::Fault(ReceiverFault {
        part,
        fault: ChainFault { fault, depth },
    })
}

/// Feeds all header rows but the last.
fn feed_header(rt: &impl Abort, receiver: &mut Receiver) {
    for number in 0..HEADER_ROWS - 1 {
        assert!(rt; receiver.feed(&row(HEADER[number], CARRIERS)) == Ok(HEADER_ROWS - 1 - number));
    }
}

/// Feeds all rows of the frame but the last.
fn feed_frame(rt: &impl Abort, receiver: &mut Receiver) {
    feed_header(rt, receiver);
    assert!(rt; receiver.feed(&row(HEADER[12], CARRIERS)) == Ok(PAYLOAD_ROWS));
    for number in 0..PAYLOAD_ROWS - 1 {
        assert!(rt; receiver.feed(&row(PAYLOAD[number], LIVE)) == Ok(PAYLOAD_ROWS - 1 - number));
    }
}

#[test]
fn a_whole_frame_is_received_and_taken_once(rt: HostRuntime) {
    let mut receiver = Receiver::new();
    let mut bytes = [9; 6];
    assert!(rt; receiver.start(&REFERENCE) == Ok(()));
    feed_frame(&rt, &mut receiver);
    assert!(rt; receiver.feed(&row(PAYLOAD[11], LIVE)) == Ok(0));
    assert!(rt; receiver.feed(&row(HEADER[0], CARRIERS)) == Err(FeedRefusal::NotListening));
    assert!(rt; receiver.take(&mut bytes[0..4]) == Err(TakeRefusal::TooShort));
    assert!(rt; bytes == [9; 6]);
    assert!(rt; receiver.take(&mut bytes) == Ok((header(), 5)));
    assert!(rt; bytes == [1, 2, 3, 4, 5, 9]);
    assert!(rt; receiver.take(&mut bytes) == Err(TakeRefusal::NoFrame));
    assert!(rt; receiver.feed(&row(HEADER[0], CARRIERS)) == Err(FeedRefusal::NotListening));
}

#[test]
fn a_refused_row_changes_nothing(rt: HostRuntime) {
    let mut receiver = Receiver::new();
    let mut bytes = [0; 5];
    assert!(rt; receiver.feed(&row(HEADER[0], CARRIERS)) == Err(FeedRefusal::NotListening));
    assert!(rt; receiver.start(&REFERENCE) == Ok(()));
    assert!(rt; receiver.feed(&[0; 35]) == Err(FeedRefusal::Row));
    feed_header(&rt, &mut receiver);
    assert!(rt; receiver.feed(&row(HEADER[12], LIVE)) == Err(FeedRefusal::Row));
    assert!(rt; receiver.feed(&row(HEADER[12], CARRIERS)) == Ok(PAYLOAD_ROWS));
    assert!(rt; receiver.feed(&row(PAYLOAD[0], LIVE - 1)) == Err(FeedRefusal::Row));
    assert!(rt; receiver.feed(&[9; CARRIERS]) == Err(FeedRefusal::Row));
    assert!(rt; receiver.take(&mut bytes) == Err(TakeRefusal::NoFrame));
    for number in 0..PAYLOAD_ROWS {
        assert!(rt; receiver.feed(&row(PAYLOAD[number], LIVE)) == Ok(PAYLOAD_ROWS - 1 - number));
    }
    assert!(rt; receiver.take(&mut bytes) == Ok((header(), 5)));
    assert!(rt; bytes == [1, 2, 3, 4, 5]);
}

#[test]
fn a_damaged_header_row_ends_listening_at_the_thirteenth(rt: HostRuntime) {
    let mut receiver = Receiver::new();
    assert!(rt; receiver.start(&REFERENCE) == Ok(()));
    for number in 0..HEADER_ROWS - 1 {
        let cells = if number == 4 {
            damaged(HEADER[number], CARRIERS)
        } else {
            row(HEADER[number], CARRIERS)
        };
        assert!(rt; receiver.feed(&cells) == Ok(HEADER_ROWS - 1 - number));
    }
    let answer = receiver.feed(&row(HEADER[12], CARRIERS));
    assert!(rt; answer == Err(fault(Part::Header, 7, 307, 3)));
    assert!(rt; receiver.feed(&row(PAYLOAD[0], LIVE)) == Err(FeedRefusal::NotListening));
}

#[test]
fn a_damaged_last_row_ends_listening_without_a_frame(rt: HostRuntime) {
    let mut receiver = Receiver::new();
    let mut bytes = [0; 5];
    assert!(rt; receiver.start(&REFERENCE) == Ok(()));
    feed_frame(&rt, &mut receiver);
    let answer = receiver.feed(&damaged(PAYLOAD[11], LIVE));
    assert!(rt; answer == Err(fault(Part::Payload, 5, 231, 4)));
    assert!(rt; receiver.take(&mut bytes) == Err(TakeRefusal::NoFrame));
    assert!(rt; receiver.feed(&row(PAYLOAD[11], LIVE)) == Err(FeedRefusal::NotListening));
}

#[test]
fn an_illegal_header_ends_listening(rt: HostRuntime) {
    let mut receiver = Receiver::new();
    assert!(rt; receiver.start(&REFERENCE) == Ok(()));
    for number in 0..HEADER_ROWS - 1 {
        assert!(rt;
            receiver.feed(&row(RESERVED[number], CARRIERS)) == Ok(HEADER_ROWS - 1 - number)
        );
    }
    let answer = receiver.feed(&row(RESERVED[12], CARRIERS));
    assert!(rt; answer == Err(FeedRefusal::Header(Refusal::Reserved(4))));
    assert!(rt; receiver.feed(&row(RESERVED[0], CARRIERS)) == Err(FeedRefusal::NotListening));
}

#[test]
fn a_start_drops_rows_and_frames_unless_it_is_refused(rt: HostRuntime) {
    let mut receiver = Receiver::new();
    let mut bytes = [0; 5];
    assert!(rt; receiver.start(&REFERENCE) == Ok(()));
    feed_header(&rt, &mut receiver);
    assert!(rt; receiver.start(&REFERENCE) == Ok(()));
    feed_frame(&rt, &mut receiver);
    assert!(rt; receiver.start(&[8; CARRIERS]) == Err(StartRefusal::Reference));
    assert!(rt; receiver.feed(&row(PAYLOAD[11], LIVE)) == Ok(0));
    assert!(rt; receiver.start(&REFERENCE) == Ok(()));
    assert!(rt; receiver.take(&mut bytes) == Err(TakeRefusal::NoFrame));
    feed_header(&rt, &mut receiver);
}

#[test]
fn a_recording_hands_out_its_rows_and_refuses_a_short_part(rt: HostRuntime) -> Result<(), Fail> {
    let mut cells = [3; 77];
    cells[36] = 5;
    let mut recording = Recording::new(&cells);
    let Some(Ok(first)) = recording.next_row() else {
        assert!(rt; false);
        return Ok(());
    };
    assert!(rt; first.number == 0 && first.place == 0);
    assert!(rt; first.cells.len() == CARRIERS && first.cells[0] == 3);
    let Some(Ok(second)) = recording.next_row() else {
        assert!(rt; false);
        return Ok(());
    };
    assert!(rt; second.number == 1 && second.place == 36);
    assert!(rt; second.cells.len() == CARRIERS && second.cells[0] == 5);
    for _ in 0..2 {
        let Some(Err(RecordRefusal::Short(left))) = recording.next_row() else {
            assert!(rt; false);
            return Ok(());
        };
        assert!(rt; left == 5);
    }
    Ok(())
}

#[test]
fn a_recording_of_whole_rows_ends(rt: HostRuntime) {
    let cells = [7; CARRIERS];
    let mut recording = Recording::new(&cells);
    assert!(rt; recording.next_row().is_some());
    assert!(rt; recording.next_row().is_none());
    assert!(rt; recording.next_row().is_none());
}
