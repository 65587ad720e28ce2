//! The fraction and its operations.

ghost use Rattle.std.specs.Prelude.{◌≡◌, ◌*◌, ◌/◌, ◌^◌, ◌<◌, ℤ, pos, ◌+ℤ◌, ◌*ℤ◌, neg_ℤ, unsigned_abs, int_div};
ghost use Rattle.cy_ratio.specs.Fraction.{IsReduced, named, fraction_of, lowest, sum_of, difference_of, product_of, reciprocal_of, quotient_of, floor_of, remainder_of, power_of, raised};

use crate::RatioError;
use crate::named::{denominator, denominators, gcd, minus, plus, quotient, scaled, signed, times};
use crate::order::compare;
use std::cmp::Ordering;
use std::marker::Model;

/// A fraction in lowest terms, with its numerator in i128 and its denominator from 1 to 2^127 - 1.
#[derive(Clone, Copy, Debug)]
pub struct Ratio {
    num: i128,
    den: u128,
}

impl Model for Ratio {
    ghost use Rattle.cy_ratio.specs.Fraction.{Fraction, IsReduced};

    ghost Value = { Fraction };

    ghost view = { λ r. record { num = r.num; den = r.den } };

    ghost invariant = { λ r. IsReduced (record { num = r.num; den = r.den }) };

    ghost inverse = { λ f. record { num = f.num; den = f.den } };
}

impl Ratio {
    /// `num / den` in lowest terms: both by their greatest common divisor, and both negated where `den`
    /// is below 0. Zero where `den` is 0; Range where a negated number leaves i128.
    pub fn new(num: i128, den: i128) -> Result<Ratio, RatioError>
        ensures { result ≡ fraction_of num den }
    {
        if den == 0 {
            return Err(RatioError::Zero);
        }
        if den == 1 {
            return Ok(Ratio { num, den: 1 });
        }
        let size = den.unsigned_abs();
        let g = gcd(num.unsigned_abs(), size);
        let above = signed((num < 0) != (den < 0), num.unsigned_abs() / g)?;
        let below = denominator(size / g)?;
        Ok(Ratio {
            num: above,
            den: below,
        })
    }

    /// The sum. a/b + c/d names a(d/g), c(b/g), their sum and b(d/g), with g the greatest common
    /// divisor of b and d. Range where one of them leaves i128.
    pub fn add(self, o: Ratio) -> Result<Ratio, RatioError>
        ensures { result ≡ sum_of self o }
    {
        if self.den == 1 && o.den == 1 {
            return whole(plus(self.num, o.num));
        }
        sum(self.num, self.den, o.num, o.den)
    }

    /// The difference. a/b - c/d names a(d/g), c(b/g), their difference and b(d/g), with g the greatest
    /// common divisor of b and d. Range where one of them leaves i128.
    pub fn sub(self, o: Ratio) -> Result<Ratio, RatioError>
        ensures { result ≡ difference_of self o }
    {
        if self.den == 1 && o.den == 1 {
            return whole(minus(self.num, o.num));
        }
        difference(self.num, self.den, o.num, o.den)
    }

    /// The product. a/b * c/d names (a/g)(c/h) and (b/h)(d/g), with g the greatest common divisor of a
    /// and d, and h that of c and b. Range where one of them leaves i128.
    pub fn mul(self, o: Ratio) -> Result<Ratio, RatioError>
        ensures { result ≡ product_of self o }
    {
        if self.den == 1 && o.den == 1 {
            return whole(times(self.num, o.num));
        }
        product(self.num, self.den, o.num, o.den)
    }

    /// The quotient: the product with the reciprocal of `o`, which is d/c of c/d, both negated where c
    /// is below 0. Zero where `o` is 0; Range where the reciprocal or the product has a number that
    /// leaves i128.
    pub fn div(self, o: Ratio) -> Result<Ratio, RatioError>
        ensures { result ≡ quotient_of self o }
    {
        let turned = reciprocal(o.num, o.den)?;
        self.mul(turned)
    }

    /// What is left after the greatest whole number of times that `o` goes into this; it has the sign of `o`.
    /// It is x - y * f, with f the greatest whole number not above x / y. Zero where `o` is 0; Range where
    /// the quotient, the product or the difference has a number that leaves i128.
    pub fn rem(self, o: Ratio) -> Result<Ratio, RatioError>
        ensures { result ≡ remainder_of self o }
    {
        let times = self.div(o)?;
        let taken = o.mul(times.floor())?;
        self.sub(taken)
    }

    /// The power with a whole exponent from -127 to 127; with 0 it is 1, also for 0.
    /// It is the product of as many factors, and below 0 the reciprocal of that. Range where the exponent
    /// is another, or where the reciprocal or one of the powers from 1 to the exponent's size leaves i128;
    /// Zero for 0 under a negative exponent.
    pub fn pow(self, e: i128) -> Result<Ratio, RatioError>
        ensures { result ≡ power_of self e }
    {
        if e < -127 || e > 127 {
            return Err(RatioError::Range);
        }
        let raised = raised(self.num, self.den, e.unsigned_abs() as u32)?;
        if e < 0 {
            reciprocal(raised.num, raised.den)
        } else {
            Ok(raised)
        }
    }

    /// The greatest whole number not above this.
    fn floor(self) -> Ratio
        ensures { result ≡ floor_of self }
    {
        Ratio {
            num: self.num.div_euclid(self.den as i128),
            den: 1,
        }
    }

    /// The numerator, which has the sign of the fraction.
    pub fn num(self) -> i128
        ensures value { result ≡ self.num }
        ensures reduced { IsReduced self }
    {
        self.num
    }

    /// The denominator, 1 or more.
    pub fn den(self) -> i128
        ensures value { result ≡ pos self.den }
        ensures reduced { IsReduced self }
    {
        self.den as i128
    }
}

impl PartialEq for Ratio {
    ghost use Rattle.std.specs.Ordering.{eq_by_cmp};
    ghost use Rattle.std.specs.Cmp.{partial_equiv_from_equiv};
    ghost use Rattle.std.proofs.lemmas.Cmp.{eq_by_cmp_equiv};
    ghost use Rattle.cy_ratio.specs.Fraction.{order_of};
    ghost use Rattle.cy_ratio.specs.Order.{order_total};

    ghost eq = { eq_by_cmp order_of };

    ghost laws = { partial_equiv_from_equiv (eq_by_cmp_equiv order_total) };

    fn eq(&self, other: &Ratio) -> bool {
        self.cmp(other) == Ordering::Equal
    }
}

impl Eq for Ratio {
    ghost use Rattle.std.proofs.lemmas.Cmp.{eq_by_cmp_equiv};
    ghost use Rattle.cy_ratio.specs.Order.{order_total};

    ghost laws = { eq_by_cmp_equiv order_total };
}

impl PartialOrd for Ratio {
    ghost use Rattle.std.specs.Prelude.{refl};
    ghost use Rattle.std.specs.Ordering.{as_partial_cmp};
    ghost use Rattle.std.specs.Cmp.{po};
    ghost use Rattle.cy_ratio.specs.Fraction.{order_of};
    ghost use Rattle.cy_ratio.specs.Order.{order_total};

    ghost partial_cmp = { as_partial_cmp order_of };

    ghost laws = { po order_total (λ x y. refl) };

    fn partial_cmp(&self, other: &Ratio) -> Option<Ordering> {
        Some(self.cmp(other))
    }
}

impl Ord for Ratio {
    ghost use Rattle.std.specs.Prelude.{refl};
    ghost use Rattle.cy_ratio.specs.Fraction.{order_of};
    ghost use Rattle.cy_ratio.specs.Order.{order_total};

    ghost cmp = { order_of };

    ghost total = { order_total };

    ghost matches_partial_cmp = { λ x y. refl };

    ghost matches_eq = { λ x y. refl };

    /// How the two compare, exactly: as their products across.
    fn cmp(&self, other: &Ratio) -> Ordering {
        compare(self.num, self.den, other.num, other.den)
    }
}

/// A whole number that a rule names, as a fraction.
fn whole(n: Result<i128, RatioError>) -> Result<Ratio, RatioError>
    ensures { (z : ℤ) → n ≡ named z → result ≡ fraction_of z (pos 1) }
{
    Ratio::new(n?, 1)
}

/// a/b + c/d, for denominators from 1 to 2^127 - 1.
fn sum(a: i128, b: u128, c: i128, d: u128) -> Result<Ratio, RatioError>
    requires left { (0 < b) × (b < 2 ^ 127) }
    requires right { (0 < d) × (d < 2 ^ 127) }
    ensures { result ≡ sum_of (record { num = a; den = b }) (record { num = c; den = d }) }
{
    let g = gcd(b, d);
    let left = scaled(a, d / g)?;
    let right = scaled(c, b / g)?;
    let above = plus(left, right)?;
    let below = denominators(b, d / g)?;
    Ratio::new(above, below as i128)
}

/// a/b - c/d, for denominators from 1 to 2^127 - 1.
fn difference(a: i128, b: u128, c: i128, d: u128) -> Result<Ratio, RatioError>
    requires left { (0 < b) × (b < 2 ^ 127) }
    requires right { (0 < d) × (d < 2 ^ 127) }
    ensures { result ≡ difference_of (record { num = a; den = b }) (record { num = c; den = d }) }
{
    let g = gcd(b, d);
    let left = scaled(a, d / g)?;
    let right = scaled(c, b / g)?;
    let above = minus(left, right)?;
    let below = denominators(b, d / g)?;
    Ratio::new(above, below as i128)
}

/// a/b * c/d, for fractions in lowest terms.
fn product(a: i128, b: u128, c: i128, d: u128) -> Result<Ratio, RatioError>
    requires left { IsReduced (record { num = a; den = b }) }
    requires right { IsReduced (record { num = c; den = d }) }
    ensures { result ≡ product_of (record { num = a; den = b }) (record { num = c; den = d }) }
{
    let g = gcd(a.unsigned_abs(), d);
    let h = gcd(c.unsigned_abs(), b);
    let above = times(quotient(a, g), quotient(c, h))?;
    let below = denominators(b / h, d / g)?;
    Ok(Ratio {
        num: above,
        den: below,
    })
}

/// d/c, the reciprocal of c/d, for a fraction in lowest terms.
fn reciprocal(c: i128, d: u128) -> Result<Ratio, RatioError>
    requires { IsReduced (record { num = c; den = d }) }
    ensures { result ≡ reciprocal_of (record { num = c; den = d }) }
{
    if c == 0 {
        return Err(RatioError::Zero);
    }
    let above = signed(c < 0, d)?;
    let below = denominator(c.unsigned_abs())?;
    Ok(Ratio {
        num: above,
        den: below,
    })
}

/// The power of a/b, a fraction in lowest terms, by products from 1 on.
fn raised(a: i128, b: u128, e: u32) -> Result<Ratio, RatioError>
    requires { IsReduced (record { num = a; den = b }) }
    ensures { result ≡ raised (record { num = a; den = b }) e }
{
    let mut num = 1;
    let mut den = 1;
    for _ in 0..e {
        num = times(num, a)?;
        den = denominators(den, b)?;
    }
    Ok(Ratio { num, den })
}
