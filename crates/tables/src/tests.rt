//! Lines that the two tables do not show.
use crate::*;
use std::test::Fail;

#[test]
fn a_tone_map_without_a_legal_length_has_dashes(rt: HostRuntime) -> Result<(), Fail> {
    let line = tone_map_line(rt.alloc(), 0, 1)?;
    assert_eq!(rt; line.as_str(), "    0    1    -    -    -    -");
    Ok(())
}

#[test]
fn a_number_wider_than_its_column_is_not_cut(rt: HostRuntime) -> Result<(), Fail> {
    let line = certificate_line(rt.alloc(), 63, 123456)?;
    assert_eq!(rt; line.as_str(), "123456    -    -    -    -");
    Ok(())
}
