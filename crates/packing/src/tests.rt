//! Packed headers that are published, and bytes that are no packed header.
use crate::*;
use frame::{Field, Header, Refusal};
use stage::{ChainFault, StageFault};

/// A header with PDC 0 and DT 0, and all six sub-bands live.
fn header(modulation: u32, fl: u32) -> Header {
    Header {
        pdc: 0,
        modulation,
        fl,
        tm: 63,
        dt: 0,
    }
}

/// The refusal of a word that is right up to this bit.
fn fault(place: usize) -> UnpackRefusal {
    UnpackRefusal::Fault(ChainFault {
        fault: StageFault { number: 1, place },
        depth: 0,
    })
}

#[test]
fn published_headers_pack_to_their_bytes(rt: HostRuntime) {
    let mut out = [0xEEu8; 6];
    assert!(rt; pack(header(1, 2), &mut out) == Ok(5));
    assert!(rt; out == [0x00, 0x42, 0x3F, 0x07, 0x80, 0xEE]);
    assert!(rt; pack(header(0, 10), &mut out) == Ok(5));
    assert!(rt; out == [0x00, 0x0A, 0x3F, 0x06, 0x00, 0xEE]);
}

#[test]
fn published_bytes_unpack_to_their_headers(rt: HostRuntime) {
    assert_eq!(rt; unpack(&[0x00, 0x42, 0x3F, 0x07, 0x80]), Ok(header(1, 2)));
    assert_eq!(rt; unpack(&[0x00, 0x0A, 0x3F, 0x06, 0x00]), Ok(header(0, 10)));
}

#[test]
fn a_wrong_bit_of_the_check_is_the_place(rt: HostRuntime) {
    assert_eq!(rt; unpack(&[0x00, 0x42, 0x3F, 0x07, 0x00]), Err(fault(32)));
    assert_eq!(rt; unpack(&[0x00, 0x42, 0x3F, 0x0F, 0x80]), Err(fault(28)));
}

#[test]
fn a_one_among_the_zeros_is_the_place(rt: HostRuntime) {
    assert_eq!(rt; unpack(&[0x00, 0x42, 0x3F, 0x07, 0xC0]), Err(fault(33)));
    assert_eq!(rt; unpack(&[0x00, 0x42, 0x3F, 0x07, 0x81]), Err(fault(39)));
    assert_eq!(rt; unpack(&[0x00, 0x42, 0x3F, 0x07, 0x01]), Err(fault(32)));
}

#[test]
fn other_than_five_bytes_are_refused_first(rt: HostRuntime) {
    assert_eq!(rt; unpack(&[]), Err(UnpackRefusal::NotFiveBytes));
    assert_eq!(rt; unpack(&[0; 4]), Err(UnpackRefusal::NotFiveBytes));
    assert_eq!(rt; unpack(&[0xFF; 6]), Err(UnpackRefusal::NotFiveBytes));
}

#[test]
fn illegal_headers_are_refused_behind_the_check(rt: HostRuntime) {
    assert_eq!(rt;
        unpack(&[0; 5]),
        Err(UnpackRefusal::Header(Refusal::ToneMap(0)))
    );
}

#[test]
fn packing_refuses_the_header_before_the_buffer(rt: HostRuntime) {
    let mut out = [0xEEu8; 4];
    assert_eq!(rt; pack(header(1, 2), &mut out), Err(PackRefusal::TooShort));
    assert_eq!(rt;
        pack(header(4, 2), &mut out),
        Err(PackRefusal::Header(Refusal::OutOfRange(Field::Mod)))
    );
    assert_eq!(rt;
        pack(header(1, 29), &mut out),
        Err(PackRefusal::Header(Refusal::BlockTooLong(260)))
    );
    assert!(rt; out == [0xEE; 4]);
}

#[test]
fn refusals_have_their_numbers(rt: HostRuntime) {
    assert_eq!(rt; PackRefusal::TooShort.number(), 7);
    assert_eq!(rt; PackRefusal::Header(Refusal::Reserved(4)).number(), 3);
    assert_eq!(rt; UnpackRefusal::NotFiveBytes.number(), 13);
    assert_eq!(rt; fault(30).number(), 10);
    assert_eq!(rt; UnpackRefusal::Header(Refusal::ToneMap(0)).number(), 2);
}

#[test]
fn bits_are_sent_highest_first_and_read_back(rt: HostRuntime) {
    let sent = Header {
        pdc: 0x80,
        modulation: 2,
        fl: 0x21,
        tm: 0x101,
        dt: 3,
    };
    let bits = header_bits(sent);
    assert!(rt;
        bits == [
            1, 0, 0, 0, 0, 0, 0, 0, 1, 0, 1, 0, 0, 0, 0, 1, 0, 0, 0, 0, 0, 0, 0, 1, 1, 0, 1, 1,
        ]
    );
    assert_eq!(rt; header_from(&bits), sent);
}
