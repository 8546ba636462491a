//! The rows of tables, which are one text each: a line a row.
use frac128::Frac;
use std::process::Abort;

/// The number that a word writes.
pub fn number(rt: &impl Abort, digits: &str) -> i128 {
    digits.parse::<i128>().ok().expect(rt, "a number")
}

/// The small number that a word writes.
pub fn small(rt: &impl Abort, digits: &str) -> u32 {
    digits.parse::<u32>().ok().expect(rt, "a number")
}

/// The fraction that a word writes, as `-3/2`.
pub fn fraction(rt: &impl Abort, word: &str) -> Frac {
    let (num, den) = word.split_once('/').expect(rt, "two numbers");
    Frac::new(number(rt, num), number(rt, den))
        .ok()
        .expect(rt, "a fraction")
}

/// A line without an arrow is empty or a remark.
pub fn check_remark(rt: &impl Abort, line: &str) {
    assert!(rt; line.is_empty() || line.starts_with('#'), "{line}");
}
