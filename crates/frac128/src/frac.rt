ghost use Rattle.std.specs.Prelude.{◌≡◌, ◌≢◌, ◌↔◌, ◌==◌, ℕ, ◌<◌, ◌^◌, pos, unsigned_abs, Some, IsTrue, IsOk, IfOk, IfErr};
ghost use Rattle.std.specs.Option.{SomeIff};
ghost use Rattle.std.specs.Ordering.{as_partial_cmp};
ghost use Rattle.std.specs.Cmp.Rules.{comparing};
ghost use Rattle.std.proofs.Common.{rules, refl};
ghost use Rattle.frac128.specs.Rational.{ℚ, IsLowest, ◌+ℚ◌, ◌-ℚ◌, ◌*ℚ◌, ◌/ℚ◌, neg_ℚ, abs_ℚ, reciprocal, whole, zero_ℚ, one_ℚ, eq_ℚ, cmp_ℚ};
ghost use Rattle.frac128.specs.RationalOrder.{cmp_ℚ_total, eq_ℚ-cmp_ℚ, partial_order_ℚ};
ghost use Rattle.frac128.specs.Frac.{SumFits, ProductFits, QuotientFits, IsSmall, ShareGrid, fraction_text};

use crate::euclid::gcd;
use crate::small::{
    checked_product, checked_size, checked_size_product, checked_sum, compare_products, divided,
    quotient, signed, signed_as,
};
use std::cmp::Ordering;
use std::fmt;
use std::marker::Model;

/// A rational number: a numerator over a denominator of at least 1, in lowest terms.
///
/// Both numbers are at most 2^127 - 1 in size, so -2^127 never stands in a fraction. Zero is 0/1.
/// Contracts see a fraction as the rational number `ℚ` that it is. No call takes memory.
#[derive(Clone, Copy, Debug)]
pub struct Frac {
    num: i128,
    den: i128,
}

impl Model for Frac {
    ghost use Rattle.frac128.specs.Rational.{ℚ, code_ℚ};

    ghost Value = { ℚ };

    ghost coded = { code_ℚ };

    ghost use Rattle.frac128.specs.FracModel.{number, HasNumber, numbers_of, numbers_of-number};

    ghost view = { number };

    ghost invariant = { HasNumber };

    ghost inverse = { numbers_of };

    ghost inverse_ok = { numbers_of-number };
}

impl PartialEq for Frac {
    ghost eq = { eq_ℚ };

    ghost laws = { Prim.search (comparing, rules) };

    fn eq(&self, other: &Frac) -> bool {
        self.num() == other.num() && self.den() == other.den()
    }
}

impl Eq for Frac {
    ghost laws = { Prim.search (comparing, rules) };
}

impl Ord for Frac {
    ghost cmp = { cmp_ℚ };

    ghost total = { cmp_ℚ_total };

    ghost matches_partial_cmp = { λ x y. refl };

    ghost matches_eq = { eq_ℚ-cmp_ℚ };

    /// Compares two fractions as rational numbers.
    fn cmp(&self, other: &Frac) -> Ordering {
        let size = self.num_size();
        let other_size = other.num_size();
        let den = self.den_size();
        let other_den = other.den_size();
        match (self.num() < 0, other.num() < 0) {
            (true, false) => Ordering::Less,
            (false, true) => Ordering::Greater,
            (true, true) => compare_products(other_size, den, size, other_den),
            (false, false) => compare_products(size, other_den, other_size, den),
        }
    }
}

impl PartialOrd for Frac {
    ghost partial_cmp = { as_partial_cmp cmp_ℚ };

    ghost laws = { partial_order_ℚ };

    fn partial_cmp(&self, other: &Frac) -> Option<Ordering> {
        Some(self.cmp(other))
    }
}

impl fmt::Display for Frac {
    ghost output = { λ x. Some (fraction_text x) };

    /// Writes `3/2`, or `-2` where the denominator is 1.
    fn fmt<W: fmt::Write>(&self, f: &mut fmt::Formatter<W>) -> fmt::Result {
        let num = self.num();
        let den = self.den();
        if den == 1 {
            return write!(f, "{num}");
        }
        write!(f, "{num}/{den}")
    }
}

/// The two operands, as they were given, of a sum, difference, product or quotient that is refused
/// because a number of it is greater in size than 2^127 - 1.
#[derive(Clone, Copy, Debug, PartialEq, Eq)]
pub struct Overflow {
    /// The operand on the left.
    pub a: Frac,

    /// The operand on the right.
    pub b: Frac,
}

/// Why a numerator and a denominator make no fraction.
#[derive(Clone, Copy, Debug, PartialEq, Eq)]
pub enum FracFault {
    /// The denominator is 0.
    ZeroDenominator,

    /// A number of the lowest terms is greater in size than 2^127 - 1. Both numbers stand as given.
    TooLarge { num: i128, den: i128 },
}

impl Frac {
    /// Zero, which is 0/1.
    pub fn zero() -> Frac
        ensures { result ≡ zero_ℚ }
    {
        Frac::whole(0)
    }

    /// One, which is 1/1.
    pub fn one() -> Frac
        ensures { result ≡ one_ℚ }
    {
        Frac::whole(1)
    }

    /// A whole number, over the denominator 1.
    pub fn whole(number: i64) -> Frac
        ensures { result ≡ whole number }
    {
        Frac::from_lowest_terms(number as i128, 1)
    }

    /// Whether the fraction is 0.
    pub fn is_zero(&self) -> bool
        ensures { IsTrue result ↔ (self.now ≡ zero_ℚ) }
    {
        self.num() == 0
    }

    /// The negation, which always fits, since both numbers are at most 2^127 - 1 in size.
    pub fn negated(&self) -> Frac
        ensures { result ≡ neg_ℚ self.now }
    {
        Frac::from_lowest_terms(-self.num(), self.den_size())
    }

    /// The absolute value, which always fits too.
    #[tactic(auto, using(crate::specs::Absolute::absolute_up, crate::specs::Absolute::absolute_down))]
    pub fn absolute(&self) -> Frac
        ensures { result ≡ abs_ℚ self.now }
    {
        if self.num() < 0 {
            self.negated()
        } else {
            *self
        }
    }

    /// The numerator in lowest terms, which has the fraction's sign.
    pub fn num(&self) -> i128
        ensures value { result ≡ self.now.num }
        ensures small { unsigned_abs self.now.num < 2 ^ 127 }
    {
        self.num
    }

    /// The denominator in lowest terms, at least 1.
    pub fn den(&self) -> i128
        ensures value { result ≡ pos self.now.den }
        ensures small { self.now.den < 2 ^ 127 }
    {
        self.den
    }

    /// The denominator as an unsigned number.
    fn den_size(&self) -> u128
        ensures value { result ≡ self.now.den }
        ensures small { result < 2 ^ 127 }
        ensures positive { 0 < result }
    {
        self.den() as u128
    }

    /// The numerator's size.
    fn num_size(&self) -> u128
        ensures value { result ≡ unsigned_abs self.now.num }
        ensures small { result < 2 ^ 127 }
    {
        self.num().unsigned_abs()
    }

    /// The fraction of two numbers that are in lowest terms already.
    fn from_lowest_terms(num: i128, den: u128) -> Frac
        requires lowest { IsLowest num den }
        requires num_small { unsigned_abs num < 2 ^ 127 }
        requires den_small { den < 2 ^ 127 }
        ensures num { result.num ≡ num }
        ensures den { result.den ≡ den }
    {
        Frac {
            num,
            den: den as i128,
        }
    }

    /// The reciprocal of a fraction other than 0.
    fn reciprocal(&self) -> Frac
        requires { self.now ≢ zero_ℚ }
        ensures { result ≡ reciprocal self.now }
    {
        let num = signed(self.den_size());
        if self.num() < 0 {
            Frac::from_lowest_terms(-num, self.num_size())
        } else {
            Frac::from_lowest_terms(num, self.num_size())
        }
    }

    /// The sum, where each number formed on the way is at most 2^127 - 1 in size.
    ///
    /// The common divisor of the denominators is divided out before the numerators are raised to
    /// the common denominator, and only what the sum shares with it can be divided out after.
    /// (Knuth, The Art of Computer Programming, volume 2, section 4.5.1.)
    fn checked_sum(&self, other: &Frac) -> Option<Frac>
        ensures { SomeIff result (SumFits self.now other.now) (self.now +ℚ other.now) }
    {
        let first = self.den_size();
        let second = other.den_size();
        let common = gcd(first, second);
        let step = divided(first, common);
        let left = checked_product(self.num(), signed(divided(second, common)))?;
        let right = checked_product(other.num(), signed(step))?;
        let top = checked_sum(left, right)?;
        let shared = gcd(top.unsigned_abs(), common);
        let den = checked_size_product(step, divided(second, shared))?;
        let num = quotient(top, shared);
        Some(Frac::from_lowest_terms(num, den))
    }

    /// The product, where its numbers are at most 2^127 - 1 in size.
    ///
    /// Each numerator is reduced by the other denominator first, so the product is in lowest terms
    /// at once. (Knuth, The Art of Computer Programming, volume 2, section 4.5.1.)
    fn checked_product(&self, other: &Frac) -> Option<Frac>
        ensures { SomeIff result (ProductFits self.now other.now) (self.now *ℚ other.now) }
    {
        let first = self.den_size();
        let second = other.den_size();
        let down = gcd(self.num_size(), second);
        let up = gcd(other.num_size(), first);
        let left = quotient(self.num(), down);
        let right = quotient(other.num(), up);
        let num = checked_product(left, right)?;
        let den = checked_size_product(divided(first, up), divided(second, down))?;
        Some(Frac::from_lowest_terms(num, den))
    }

    /// The quotient of two whole numbers, where its numbers are at most 2^127 - 1 in size.
    fn checked_quotient(num: i128, den: i128) -> Option<Frac>
        requires { den ≢ pos 0 }
        ensures { SomeIff result (QuotientFits num den) (whole num /ℚ whole den) }
    {
        let top = num.unsigned_abs();
        let bottom = den.unsigned_abs();
        let common = gcd(top, bottom);
        let size = checked_size(divided(top, common))?;
        let den_size = checked_size(divided(bottom, common))?;
        let num_signed = signed_as(num, den, size);
        Some(Frac::from_lowest_terms(num_signed, den_size))
    }

    /// The fraction `num / den`, put into lowest terms.
    ///
    /// It answers `ZeroDenominator` exactly where `den` is 0, and else `TooLarge`, with the numbers as
    /// given, exactly where a number of the lowest terms is greater in size than 2^127 - 1. That
    /// happens only where one of the two is -2^127 and the other one is odd.
    pub fn new(num: i128, den: i128) -> Result<Frac, FracFault>
        ensures zero { (result ≡ Err FracFault.ZeroDenominator) ↔ (den ≡ pos 0) }
        ensures fits { IsOk result ↔ ((den ≢ pos 0) × IsSmall (whole num /ℚ whole den)) }
        ensures value { IfOk result (λ x. x ≡ whole num /ℚ whole den) }
        ensures large { IfErr result (λ e. den ≢ pos 0 → e ≡ FracFault.TooLarge num den) }

        // Numbers of at most 2^127 - 1 in size always make a fraction.
        ensures plain { den ≢ pos 0 → unsigned_abs num < 2 ^ 127 → unsigned_abs den < 2 ^ 127 → IsOk result }
    {
        if den == 0 {
            return Err(FracFault::ZeroDenominator);
        }
        match Frac::checked_quotient(num, den) {
            Some(x) => Ok(x),
            None => Err(FracFault::TooLarge { num, den }),
        }
    }

    /// The sum.
    ///
    /// For a/b and c/d let g be the greatest common divisor of b and d. The two numerators are raised
    /// to a (d/g) and c (b/g), and added to s. With h, the greatest common divisor of s and g, the
    /// sum's denominator is (b/g) (d/h). `Overflow` comes exactly where one of these four numbers is
    /// greater in size than 2^127 - 1, even if the sum itself is not.
    ///
    /// So it never comes on a bounded grid: where for some D from 1 to 2^126 both fractions and their
    /// sum are multiples of 1/D, with multiples of at most 2^126 in size.
    pub fn add(&self, other: &Frac) -> Result<Frac, Overflow>
        ensures fits { IsOk result ↔ SumFits self.now other.now }
        ensures value { IfOk result (λ sum. sum ≡ self.now +ℚ other.now) }
        ensures operands { IfErr result (λ e. e ≡ record { a = self.now; b = other.now }) }
        ensures grid { (unit : ℕ) → ShareGrid unit self.now other.now (self.now +ℚ other.now) → IsOk result }
    {
        match self.checked_sum(other) {
            Some(sum) => Ok(sum),
            None => Err(Overflow {
                a: *self,
                b: *other,
            }),
        }
    }

    /// The difference, which is the sum with the second fraction negated.
    ///
    /// `Overflow` comes exactly where `add` answers it for that sum, and carries the fractions as they
    /// were given. It never comes where both fractions and their difference are on one bounded grid,
    /// as for `add`.
    pub fn sub(&self, other: &Frac) -> Result<Frac, Overflow>
        ensures fits { IsOk result ↔ SumFits self.now (neg_ℚ other.now) }
        ensures value { IfOk result (λ difference. difference ≡ self.now -ℚ other.now) }
        ensures operands { IfErr result (λ e. e ≡ record { a = self.now; b = other.now }) }
        ensures grid { (unit : ℕ) → ShareGrid unit self.now other.now (self.now -ℚ other.now) → IsOk result }
    {
        match self.checked_sum(&other.negated()) {
            Some(difference) => Ok(difference),
            None => Err(Overflow {
                a: *self,
                b: *other,
            }),
        }
    }

    /// The product.
    ///
    /// `Overflow` comes exactly where a number of the product in lowest terms is greater in size than
    /// 2^127 - 1.
    pub fn mul(&self, other: &Frac) -> Result<Frac, Overflow>
        ensures fits { IsOk result ↔ IsSmall (self.now *ℚ other.now) }
        ensures value { IfOk result (λ product. product ≡ self.now *ℚ other.now) }
        ensures operands { IfErr result (λ e. e ≡ record { a = self.now; b = other.now }) }
    {
        match self.checked_product(other) {
            Some(product) => Ok(product),
            None => Err(Overflow {
                a: *self,
                b: *other,
            }),
        }
    }

    /// The quotient by a fraction other than 0, which is the product with its reciprocal.
    ///
    /// `Overflow` comes exactly where a number of the quotient in lowest terms is greater in size than
    /// 2^127 - 1, and carries the fractions as they were given.
    pub fn div(&self, other: &Frac) -> Result<Frac, Overflow>
        requires { other.now ≢ zero_ℚ }
        ensures fits { IsOk result ↔ IsSmall (self.now /ℚ other.now) }
        ensures value { IfOk result (λ quotient. quotient ≡ self.now /ℚ other.now) }
        ensures operands { IfErr result (λ e. e ≡ record { a = self.now; b = other.now }) }
    {
        match self.checked_product(&other.reciprocal()) {
            Some(quotient) => Ok(quotient),
            None => Err(Overflow {
                a: *self,
                b: *other,
            }),
        }
    }
}
