//! The search for the smallest number without a common factor.

ghost use Rattle.std.specs.Prelude.{◌≡◌, ◌+◌, ◌<◌, ◌≤◌};
ghost use Rattle.interleave.specs.Factors.{divides_both, are_apart, smallest_apart};

/// Whether `d` divides `a` and `b`.
fn divides_both(d: usize, a: usize, b: usize) -> bool
    requires { 0 < d }
    ensures { result ≡ divides_both d a b }
{
    a % d == 0 && b % d == 0
}

/// Whether `a` and `b` have no common factor.
fn have_none_in_common(a: usize, b: usize) -> bool
    requires some { 0 < b }
    requires few { b ≤ 252 }
    ensures { result ≡ are_apart a b }
{
    (2..b + 1).all(
        |d|
            requires { 2 ≤ d }
        { !divides_both(d, a, b) },
    )
}

/// The smallest number from `start` on that has no common factor with `m`.
pub(crate) fn find_smallest(m: usize, start: usize) -> usize
    requires some { 0 < m }
    requires few { m ≤ 252 }
    requires near { start ≤ 1000 }
    ensures found { result ≡ smallest_apart m start }
    ensures bound { result ≤ start + m }
{
    (start..start + m)
        .find(|k| have_none_in_common(*k, m))
        .unwrap_or(start + m)
}
