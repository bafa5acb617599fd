//! Lists of bytes as hexadecimal text.
ghost use Rattle.std.specs.Prelude.{◌≡◌, ◌+◌, ◌*◌, ◌<◌, true, ◌++◌, IfOk, vec_items, OnOk};
ghost use Rattle.wording.specs.Hexes.{all_hex, digit_value, digits_of, hex_of, is_hex, list_of};
ghost use Rattle.std.specs.Option.{option_map};

use crate::digits::{digit_of, digit_value, is_hex};
use std::alloc::{AllocError, Global};

/// Whether all characters of a word are lower-case hexadecimal digits.
fn all_hex(word: &[u8]) -> bool
    ensures { result ≡ all_hex word.now }
{
    word.iter().all(|digit| is_hex(*digit))
}

/// The byte that two digits write.
fn byte_of(high: u8, low: u8) -> u8
    requires high { is_hex high ≡ true }
    requires low { is_hex low ≡ true }
    ensures { result ≡ 16 * digit_value high + digit_value low }
{
    16 * digit_value(high) + digit_value(low)
}

/// The list that a word writes: pairs of lower-case hexadecimal digits, or a dash for the empty
/// list; none if it writes no list.
///
/// Fails only for want of memory.
pub fn list_of(heap: Global, word: &[u8]) -> Result<Option<Vec<u8>>, AllocError>
    ensures { IfOk result (λ o. option_map vec_items o ≡ list_of word.now) }
{
    if word == b"-".as_slice() {
        return Ok(Some(Vec::new(heap)));
    }
    let (pairs, odd) = word.as_chunks::<2>();
    if !odd.is_empty() || !all_hex(word) {
        return Ok(None);
    }
    let mut list = Vec::new(heap);
    for [high, low] in pairs {
        list.push(byte_of(*high, *low))?;
    }
    Ok(Some(list))
}

/// Appends the digits of a list.
fn append_digits(text: &mut Vec<u8>, list: &[u8]) -> Result<(), AllocError>
    ensures { OnOk result (text.new.items ≡ text.old.items ++ digits_of list.now) }
{
    for byte in list {
        text.push(digit_of(*byte / 16))?;
        text.push(digit_of(*byte % 16))?;
    }
    Ok(())
}

/// Appends the text of a list.
///
/// Fails only for want of memory.
pub fn append_hex(text: &mut Vec<u8>, list: &[u8]) -> Result<(), AllocError>
    ensures { OnOk result (text.new.items ≡ text.old.items ++ hex_of list.now) }
{
    if list.is_empty() {
        text.push(b'-')?;
    } else {
        append_digits(text, list)?;
    }
    Ok(())
}
