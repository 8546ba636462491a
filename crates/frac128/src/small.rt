//! Numbers of at most 2^127 - 1 in size: the steps of which sums and products of fractions are made.
ghost use Rattle.std.specs.Prelude.{◌≡◌, ◌*◌, ◌/◌, ◌^◌, ◌<◌, pos, ◌+ℤ◌, ◌*ℤ◌, unsigned_abs, int_div};
ghost use Rattle.std.specs.Option.{SomeIff};
ghost use Rattle.std.specs.Ordering.{nat_cmp};
ghost use Rattle.frac128.specs.Frac.{signed_as};

use std::cmp::Ordering;

/// The largest number for which products are formed in 128 bits.
const WORD: u128 = u64::MAX as u128;

/// A size as a signed number.
pub(crate) fn signed(size: u128) -> i128
    requires { size < 2 ^ 127 }
    ensures { result ≡ pos size }
{
    size as i128
}

/// A size with the sign that `num / den` has.
pub(crate) fn signed_as(num: i128, den: i128, size: u128) -> i128
    requires { size < 2 ^ 127 }
    ensures { result ≡ signed_as num den size }
{
    if (num < 0) == (den < 0) {
        signed(size)
    } else {
        -signed(size)
    }
}

/// The size, where it is at most 2^127 - 1.
pub(crate) fn checked_size(size: u128) -> Option<u128>
    ensures { SomeIff result (size < 2 ^ 127) size }
{
    if size <= i128::MAX as u128 {
        Some(size)
    } else {
        None
    }
}

/// The sum, where it is at most 2^127 - 1 in size.
pub(crate) fn checked_sum(a: i128, b: i128) -> Option<i128>
    ensures { SomeIff result (unsigned_abs (a +ℤ b) < 2 ^ 127) (a +ℤ b) }
{
    match a.checked_add(b) {
        Some(sum) if sum != i128::MIN => Some(sum),
        _ => None,
    }
}

/// The product, where it is at most 2^127 - 1 in size.
pub(crate) fn checked_product(a: i128, b: i128) -> Option<i128>
    ensures { SomeIff result (unsigned_abs (a *ℤ b) < 2 ^ 127) (a *ℤ b) }
{
    match a.checked_mul(b) {
        Some(product) if product != i128::MIN => Some(product),
        _ => None,
    }
}

/// The product, where it is at most 2^127 - 1.
pub(crate) fn checked_size_product(a: u128, b: u128) -> Option<u128>
    ensures { SomeIff result (a * b < 2 ^ 127) (a * b) }
{
    match a.checked_mul(b) {
        Some(product) if product <= i128::MAX as u128 => Some(product),
        _ => None,
    }
}

/// The quotient of two sizes. By 1 nothing is divided.
pub(crate) fn divided(size: u128, by: u128) -> u128
    requires { 0 < by }
    ensures { result ≡ size / by }
{
    if by == 1 {
        return size;
    }
    size / by
}

/// The quotient toward zero. By 1 nothing is divided.
pub(crate) fn quotient(num: i128, by: u128) -> i128
    requires positive { 0 < by }
    requires num_small { unsigned_abs num < 2 ^ 127 }
    requires by_small { by < 2 ^ 127 }
    ensures value { result ≡ int_div num (pos by) }
    ensures small { unsigned_abs result < 2 ^ 127 }
{
    if by == 1 {
        return num;
    }
    num / (by as i128)
}

/// Compares a * b with c * d, in 128 bits where all four numbers have at most 64, and else by the
/// products of 256 bits, the high halves first.
pub(crate) fn compare_products(a: u128, b: u128, c: u128, d: u128) -> Ordering
    ensures { result ≡ nat_cmp (a * b) (c * d) }
{
    if a <= WORD && b <= WORD && c <= WORD && d <= WORD {
        return (a * b).cmp(&(c * d));
    }
    let (low, high) = a.carrying_mul(b, 0);
    let (other_low, other_high) = c.carrying_mul(d, 0);
    high.cmp(&other_high).then(low.cmp(&other_low))
}
