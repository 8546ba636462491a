//! Fractions as a file writes them.
ghost use Rattle.std.specs.Prelude.{◌≡◌, ◌≤◌, IfSome};
ghost use Rattle.std.specs.Char.{is_ascii_digit};
ghost use Rattle.std.specs.List.{list_all};
ghost use Rattle.model_core.specs.Literal.{within, number_between, whole_of, quotient_of, unsigned_fraction, text_fraction, whole_fraction};

use frac128::Frac;

/// The greatest size of a numerator.
const MOST_NUMERATOR: u32 = 1_000_000_000;

/// The greatest denominator.
const MOST_DENOMINATOR: u32 = 1_000_000;

/// Whether each byte is a decimal digit.
fn are_all_digits(text: &[u8]) -> bool
    ensures { result ≡ list_all is_ascii_digit text.now }
{
    text.iter().all(|b| b.is_ascii_digit())
}

/// The number where it is from `low` to `high`.
pub fn within(low: u32, high: u32, number: u32) -> Option<u32>
    ensures value { result ≡ within low high number }
    ensures bounds { IfSome result (λ n. (low ≤ n) × (n ≤ high)) }
{
    if number < low {
        return None;
    }
    if number > high {
        return None;
    }
    Some(number)
}

/// The number from `low` to `high` that decimal digits stand for, after any number of zeros.
fn number_between(low: u32, high: u32, digits: &str) -> Option<u32>
    ensures value { result ≡ number_between low high digits.now }
    ensures bounds { IfSome result (λ n. (low ≤ n) × (n ≤ high)) }
{
    if !are_all_digits(digits.as_bytes()) {
        return None;
    }
    match digits.parse::<u32>() {
        Ok(number) => within(low, high, number),
        Err(_) => None,
    }
}

/// The number from `low` to `high` that bytes stand for as decimal digits.
pub fn number_in(low: u32, high: u32, digits: &[u8]) -> Option<u32>
    ensures value { result ≡ number_between low high digits.now }
    ensures bounds { IfSome result (λ n. (low ≤ n) × (n ≤ high)) }
{
    match str::from_utf8(digits) {
        Ok(digits) => number_between(low, high, digits),
        Err(_) => None,
    }
}

/// The whole number that digits are.
pub fn whole_of(digits: &[u8]) -> Option<Frac>
    ensures { result ≡ whole_of digits.now }
{
    let number = number_in(0, MOST_NUMERATOR, digits)?;
    Some(Frac::whole(i64::from(number)))
}

/// A numerator over a denominator.
pub fn quotient_of(above: &[u8], below: &[u8]) -> Option<Frac>
    ensures { result ≡ quotient_of above.now below.now }
{
    let num = number_in(0, MOST_NUMERATOR, above)?;
    let den = number_in(1, MOST_DENOMINATOR, below)?;
    Frac::new(i128::from(num), i128::from(den)).ok()
}

/// The fraction without a sign that a text is.
fn unsigned_fraction(text: &str) -> Option<Frac>
    ensures { result ≡ unsigned_fraction text.now }
{
    match text.split_once('/') {
        Some((above, below)) => quotient_of(above.as_bytes(), below.as_bytes()),
        None => whole_of(text.as_bytes()),
    }
}

/// The fraction that a text is: maybe `-`, decimal digits, and maybe `/` and decimal digits. Zeros may
/// stand before the digits, and the fraction needn't be in lowest terms. `None` comes for any other
/// text, and where the numerator is greater than 10^9 or the denominator isn't from 1 to 10^6.
pub fn text_fraction(text: &str) -> Option<Frac>
    ensures { result ≡ text_fraction text.now }
{
    match text.strip_prefix('-') {
        Some(digits) => {
            let size = unsigned_fraction(digits)?;
            Some(size.negated())
        }
        None => unsigned_fraction(text),
    }
}

/// The fraction that an integer is. `None` comes exactly where it is greater than 10^9 in size.
pub fn whole_fraction(number: i64) -> Option<Frac>
    ensures { result ≡ whole_fraction number }
{
    if number.unsigned_abs() > u64::from(MOST_NUMERATOR) {
        return None;
    }
    Some(Frac::whole(number))
}
