//! Digits: `0` to `9`, and letters from ten on.
ghost use Rattle.std.specs.Prelude.{◌≡◌, ◌<◌, true};
ghost use Rattle.wording.specs.Cells.{is_cell};
ghost use Rattle.wording.specs.Hexes.{digit_of, digit_value, is_hex};

// No `to_digit` of std: it takes upper case too, which this protocol does not.
/// Whether a character is a lower-case hexadecimal digit.
pub fn is_hex(digit: u8) -> bool
    ensures { result ≡ is_hex digit }
{
    digit.is_ascii_digit() || matches!(digit, b'a'..=b'f')
}

/// Whether a character is one of a cell: `0` to `9` or `a` to `z`.
pub fn is_cell(digit: u8) -> bool
    ensures { result ≡ is_cell digit }
{
    digit.is_ascii_digit() || digit.is_ascii_lowercase()
}

/// The value of a digit: `a` is ten, and `z` the highest.
pub fn digit_value(digit: u8) -> u8
    requires { is_cell digit ≡ true }
    ensures value { result ≡ digit_value digit }
    ensures hex { is_hex digit ≡ true → result < 16 }
{
    if digit.is_ascii_digit() {
        digit - b'0'
    } else {
        digit - b'a' + 10
    }
}

/// The digit with this value.
pub fn digit_of(value: u8) -> u8
    requires { value < 36 }
    ensures { result ≡ digit_of value }
{
    if value < 10 {
        b'0' + value
    } else {
        b'a' - 10 + value
    }
}
