//! The field of 256 bytes: the sum of two bytes is their XOR, and this is their product.

ghost use Rattle.std.specs.Prelude.{◌≡◌};
ghost use Rattle.reedsolomon.specs.Fields.{product, doubled, lowest_times, FieldLaws};

/// The first number that is no coefficient of x^7 and below.
const HIGHEST_BIT: u8 = 128;

/// The field's polynomial without its highest power: x^4 + x^3 + x^2 + 1.
const LOWER: u8 = 29;

/// The product of a byte and x.
fn double(a: u8) -> u8
    ensures { result ≡ doubled a }
{
    if a < HIGHEST_BIT {
        a * 2
    } else {
        ((a - HIGHEST_BIT) * 2) ^ LOWER
    }
}

/// The product of `a` and the lowest coefficient of `b`.
fn times_lowest(b: u8, a: u8) -> u8
    ensures { result ≡ lowest_times b a }
{
    if b % 2 == 1 { a } else { 0 }
}

/// The product of two bytes.
pub fn multiply(a: u8, b: u8) -> u8
    ensures { result ≡ product a b }
{
    let mut sum = 0;
    let mut power = a;
    let mut rest = b;
    while rest != 0 {
        sum ^= times_lowest(rest, power);
        power = double(power);
        rest /= 2;
    }
    sum
}

/// The product is the remainder of the product of polynomials, and with XOR as the sum the bytes
/// are a field. The function does nothing: its contract is the law.
pub fn field_laws()
    ensures { FieldLaws }
{}
