//! The worked examples, run on the code.
use crate::*;

/// A header with PDC 0.
fn header(modulation: u32, fl: u32, tm: u32, dt: u32) -> Header {
    Header {
        pdc: 0,
        modulation,
        fl,
        tm,
        dt,
    }
}

#[test]
fn legal_headers_have_the_published_sizes(rt: HostRuntime) {
    assert_eq!(rt; size(header(1, 2, 63, 0)), Ok((1, 21)));
    assert_eq!(rt; size(header(0, 10, 63, 0)), Ok((13, 53)));
    assert_eq!(rt; size(header(1, 28, 63, 3)), Ok((235, 125)));
    assert_eq!(rt; size(header(3, 9, 63, 0)), Ok((226, 49)));
}

#[test]
fn blocks_too_short_or_too_long_are_refused_with_their_length(rt: HostRuntime) {
    assert_eq!(rt; size(header(1, 1, 63, 0)), Err(Refusal::BlockTooShort(8)));
    assert_eq!(rt; size(header(1, 29, 63, 0)), Err(Refusal::BlockTooLong(260)));
    assert_eq!(rt; size(header(3, 10, 63, 0)), Err(Refusal::BlockTooLong(269)));
    assert_eq!(rt; size(header(2, 0, 63, 0)), Err(Refusal::BlockTooShort(0)));
}

#[test]
fn the_first_refusal_that_applies_is_given(rt: HostRuntime) {
    assert_eq!(rt; size(header(1, 2, 0, 4)), Err(Refusal::ToneMap(0)));
    assert_eq!(rt; size(header(1, 2, 64, 4)), Err(Refusal::ToneMap(64)));
    assert_eq!(rt; size(header(1, 1, 63, 4)), Err(Refusal::Reserved(4)));
    assert_eq!(rt;
        size(header(4, 64, 0, 4)),
        Err(Refusal::OutOfRange(Field::Mod))
    );
    assert_eq!(rt;
        size(header(3, 64, 0, 4)),
        Err(Refusal::OutOfRange(Field::Fl))
    );
}

#[test]
fn each_field_can_be_out_of_range(rt: HostRuntime) {
    let legal = header(1, 2, 63, 0);
    assert_eq!(rt;
        size(Header { pdc: 256, ..legal }),
        Err(Refusal::OutOfRange(Field::Pdc))
    );
    assert_eq!(rt;
        size(Header { tm: 512, ..legal }),
        Err(Refusal::OutOfRange(Field::Tm))
    );
    assert_eq!(rt;
        size(Header { dt: 8, ..legal }),
        Err(Refusal::OutOfRange(Field::Dt))
    );
    assert_eq!(rt;
        size(Header {
            pdc: 255,
            dt: 3,
            ..legal
        }),
        Ok((1, 21))
    );
}

#[test]
fn the_full_tone_map_has_its_certified_lengths(rt: HostRuntime) {
    let robust = header(0, 0, 63, 0);
    assert_eq!(rt; smallest(robust), Some(LegalLength { fl: 5, payload: 2 }));
    assert_eq!(rt;
        largest(robust),
        Some(LegalLength {
            fl: 63,
            payload: 133,
        })
    );
    assert_eq!(rt; smallest(header(1, 0, 0, 0)), None);
    assert_eq!(rt; largest(header(1, 0, 63, 4)), None);
}
