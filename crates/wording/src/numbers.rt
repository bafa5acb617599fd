//! Decimal numbers.
ghost use Rattle.std.specs.Prelude.{◌≡◌};
ghost use Rattle.std.specs.Char.{is_ascii_digit};
ghost use Rattle.std.specs.List.{list_all};
ghost use Rattle.wording.specs.Numbers.{number_of};

use std::str::from_utf8;

/// Whether all characters of a word are decimal digits.
fn all_digits(word: &[u8]) -> bool
    ensures { result ≡ list_all is_ascii_digit word.now }
{
    word.iter().all(|digit| digit.is_ascii_digit())
}

/// The number that a word of decimal digits writes, or none if the word is empty, has any other
/// byte in it, or writes more than 4294967295.
///
/// Leading zeros are welcome, a sign is not.
pub fn number_of(word: &[u8]) -> Option<u32>
    ensures { result ≡ number_of word.now }
{
    // First, since `parse` would welcome a sign, and a word that is no number is told by its first such byte.
    if !all_digits(word) {
        return None;
    }
    let text = from_utf8(word).ok()?;
    text.parse().ok()
}
