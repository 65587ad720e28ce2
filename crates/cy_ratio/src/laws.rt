//! Laws of the operations.

ghost use Rattle.std.specs.Prelude.{◌≡◌, ◌*◌, ◌^◌, ◌<◌, ℕ, ℤ, pos, negsuc, ◌*ℤ◌, ◌+ℤ◌, ◌-ℤ◌, suc, Ok};
ghost use Rattle.std.specs.Ordering.{int_cmp};
ghost use Rattle.std.specs.declared.cmp.Ordering.TheVariants.{Equal};
ghost use Rattle.cy_ratio.specs.Fraction.{Fraction, IsReduced, fraction_of, sum_of, difference_of, product_of, quotient_of, remainder_of, floor_of, power, power_of, order_of};
ghost use Rattle.cy_ratio.specs.Value.{IsWorth, IsPart};

/// `new(n, d)` is worth n / d.
pub fn new_worth()
    ensures { (n d : ℤ) (r : Fraction) → fraction_of n d ≡ Ok r → IsWorth r n d }
{}

/// `add` is worth the sum.
pub fn sum_worth()
    ensures { (x y r : Fraction) → sum_of x y ≡ Ok r →
        IsWorth r ((x.num *ℤ pos y.den) +ℤ (y.num *ℤ pos x.den)) (pos (x.den * y.den)) }
{}

/// `sub` is worth the difference.
pub fn difference_worth()
    ensures { (x y r : Fraction) → difference_of x y ≡ Ok r →
        IsWorth r ((x.num *ℤ pos y.den) -ℤ (y.num *ℤ pos x.den)) (pos (x.den * y.den)) }
{}

/// `mul` is worth the product.
pub fn product_worth()
    ensures { (x y r : Fraction) → product_of x y ≡ Ok r
        → IsWorth r (x.num *ℤ y.num) (pos (x.den * y.den)) }
{}

/// `div` is worth the quotient.
pub fn quotient_worth()
    ensures { (x y r : Fraction) → quotient_of x y ≡ Ok r →
        IsWorth r (x.num *ℤ pos y.den) (pos x.den *ℤ y.num) }
{}

/// `rem` is worth x - y * f, where f is the greatest whole number not above x / y.
pub fn remainder_worth()
    ensures { (x y r : Fraction) → IsReduced x → IsReduced y → remainder_of x y ≡ Ok r →
        (q : Fraction) × (quotient_of x y ≡ Ok q)
        × IsWorth r ((x.num *ℤ pos y.den) -ℤ ((y.num *ℤ (floor_of q).num) *ℤ pos x.den))
        (pos (x.den * y.den)) }
{}

/// `rem` has the sign of `y`, or is 0, and is nearer to 0 than `y`.
pub fn remainder_part()
    ensures { (x y r : Fraction) → IsReduced x → IsReduced y → remainder_of x y ≡ Ok r
        → IsPart r y }
{}

/// `pow` is worth the product of as many factors as the exponent says, or below 0 its reciprocal.
pub fn power_worth()
    ensures whole { (x r : Fraction) (n : ℕ) → power_of x (pos n) ≡ Ok r
        → IsWorth r (power x.num n) (pos (x.den ^ n)) }
    ensures reciprocal { (x r : Fraction) (n : ℕ) → power_of x (negsuc n) ≡ Ok r
        → IsWorth r (pos (x.den ^ suc n)) (power x.num (suc n)) }
{}

/// Fractions in lowest terms that are worth the same are equal.
pub fn one_fraction()
    ensures worth { (x y : Fraction) → IsReduced x → IsReduced y → IsWorth x y.num (pos y.den)
        → x ≡ y }
    ensures order { (x y : Fraction) → IsReduced x → IsReduced y → order_of x y ≡ Equal → x ≡ y }
{}

/// Fractions are ordered as their products across.
pub fn order_worth()
    ensures { (x y : Fraction) → 0 < x.den → 0 < y.den
        → order_of x y ≡ int_cmp (x.num *ℤ pos y.den) (y.num *ℤ pos x.den) }
{}
