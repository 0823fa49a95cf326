//! Laws of the definitions that the contracts of this crate cite. They leave no choice.

ghost use Rattle.std.specs.Prelude.{◌≡◌, ◌≢◌, ◌↔◌, ℤ, pos, Result, IsTrue};
ghost use Rattle.chi_num.specs.Division.{IsRemainder, LiesBefore};
ghost use Rattle.chi_num.specs.Exactly.{ExactlyOne};
ghost use Rattle.chi_num.specs.Product.{IsProduct};
ghost use Rattle.chi_num.specs.Quotient.{IsQuotient};
ghost use Rattle.chi_num.specs.Range.{Gives, IsInRange};
ghost use Rattle.chi_num.specs.Results.{fits, fitted, rounded, floor_of, ceiling_of, remainder_of};
ghost use Rattle.chi_num.specs.Rounding.{IsFloor, IsCeiling, IsNearest};
ghost use Rattle.chi_num.specs.declared.fault.NumFault.{NumFault};

/// Each fraction has exactly one floor, one ceiling and one nearest whole number.
pub fn rounding_laws()
    ensures floor { (n d : ℤ) → d ≢ pos 0 → ExactlyOne (IsFloor n d) }
    ensures ceiling { (n d : ℤ) → d ≢ pos 0 → ExactlyOne (IsCeiling n d) }
    ensures nearest { (n d : ℤ) → d ≢ pos 0 → ExactlyOne (IsNearest n d) }
{}

/// Two reals have exactly one product, and exactly one quotient where the divisor isn't 0.
pub fn real_laws()
    ensures product { (a b : ℤ) → ExactlyOne (IsProduct a b) }
    ensures quotient { (a b : ℤ) → b ≢ pos 0 → ExactlyOne (IsQuotient a b) }
{}

/// Two ints have exactly one remainder where the divisor isn't 0, and it has the divisor's sign
/// unless it is 0.
pub fn remainder_laws()
    ensures remainder { (a b : ℤ) → b ≢ pos 0 → ExactlyOne (IsRemainder a b) }
    ensures sign { (a b r : ℤ) → IsRemainder a b r → LiesBefore b r }
{}

/// The functions that give a result give the one that its relation says, and a call gives that
/// result where it is in range.
pub fn results_law()
    ensures range { (z : ℤ) → IsTrue (fits z) ↔ IsInRange z }
    ensures floor { (n d : ℤ) → d ≢ pos 0 → IsFloor n d (floor_of n d) }
    ensures ceiling { (n d : ℤ) → d ≢ pos 0 → IsCeiling n d (ceiling_of n d) }
    ensures nearest { (n d : ℤ) → d ≢ pos 0 → IsNearest n d (rounded n d) }
    ensures remainder { (a b : ℤ) → b ≢ pos 0 → IsRemainder a b (remainder_of a b) }
    ensures given { (answer : Result ℤ NumFault) → (z : ℤ) → Gives answer (λ r. r ≡ z) → answer ≡ fitted z }
{}
