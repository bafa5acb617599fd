//! What a caller sees of the field.

use crate::multiply;

#[test]
fn x_times_its_highest_power_takes_the_polynomial_away(rt: HostRuntime) {
    assert_eq!(rt; multiply(2, 128), 29);
}

#[test]
fn one_changes_nothing(rt: HostRuntime) {
    assert_eq!(rt; multiply(1, 173), 173);
}

#[test]
fn a_byte_times_its_inverse_is_one(rt: HostRuntime) {
    assert_eq!(rt; multiply(142, 2), 1);
}
