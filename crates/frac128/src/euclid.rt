//! Euclid's algorithm.
ghost use Rattle.std.specs.Prelude.{◌≡◌, ◌<◌, ◌≤◌};
ghost use Rattle.frac128.specs.Gcd.{gcd};

/// The greatest common divisor, by Euclid's steps: in 128 bits while the numbers need them, and in 64
/// bits, where division is far cheaper, from there on. With 1, as with the denominator of a whole
/// number, it takes no step.
pub(crate) fn gcd(a: u128, b: u128) -> u128
    ensures value { result ≡ gcd a b }
    ensures positive { 0 < b → 0 < result }
    ensures bound { 0 < b → result ≤ b }
{
    if b == 1 {
        return 1;
    }
    let mut x = a;
    let mut y = b;
    'steps: while y > u64::MAX as u128 {
        let rest = x % y;
        x = y;
        y = rest;
    }
    if y == 0 {
        return x;
    }
    gcd_of_words(y as u64, (x % y) as u64) as u128
}

/// The greatest common divisor of two numbers of 64 bits.
fn gcd_of_words(a: u64, b: u64) -> u64
    ensures { result ≡ gcd a b }
{
    let mut x = a;
    let mut y = b;
    'steps: while y != 0 {
        let rest = x % y;
        x = y;
        y = rest;
    }
    x
}
