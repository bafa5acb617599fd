//! Small helpers on lists and lent buffers that stages and piles share.

ghost use Rattle.std.specs.Prelude.{◌≡◌, ℕ, ◌≤◌, length, take, drop};
ghost use Rattle.stage.specs.Plain.{within};
ghost use Rattle.stage.specs.Searches.{FirstAbove, FirstDifference};

/// Whether every element of `list` is at most `highest`.
pub fn all_within(list: &[u8], highest: u8) -> bool
    ensures { result ≡ within highest list.now }
{
    first_above(list, highest).is_none()
}

/// The place of the first element of `list` that is above `highest`.
pub fn first_above(list: &[u8], highest: u8) -> Option<usize>
    ensures { FirstAbove highest list.now result }
{
    list.iter().position(|element| *element > highest)
}

/// The place at which two lists of one length first differ.
pub fn first_difference(left: &[u8], right: &[u8]) -> Option<usize>
    requires { length left.now ≡ length right.now }
    ensures { FirstDifference left.now right.now result }
{
    left.iter().zip(right).position(|(one, other)| one != other)
}

/// Copies the first `n` elements of `from` to the front of `to`; the rest of `to` is as it was.
pub fn copy_front(n: usize, from: &[u8], to: &mut [u8])
    requires source { n ≤ length from.now }
    requires target { n ≤ length to.old }
    ensures front { take n to.new ≡ take n from.now }
    ensures rest { drop n to.new ≡ drop n to.old }
{
    to[0..n].copy_from_slice(&from[0..n]);
}
