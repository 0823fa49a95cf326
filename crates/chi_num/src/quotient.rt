//! Quotients of reals, rounded to the nearest unit.

ghost use Rattle.std.specs.Prelude.{◌≡◌, ◌≢◌, ◌↔◌, ◌^◌, ◌≤◌, Err, pos, ◌*ℤ◌, unsigned_abs};
ghost use Rattle.chi_num.specs.Quotient.{IsQuotient};
ghost use Rattle.chi_num.specs.Range.{Gives};
ghost use Rattle.chi_num.specs.Units.{units_per_one};

use crate::fraction::nearest_to;
use crate::range::fitted;
use crate::real::UNITS_PER_ONE;
use crate::{NumFault, Real};

/// The quotient, rounded to the nearest unit, a tie away from zero.
pub fn real_div(a: Real, b: Real) -> Result<Real, NumFault>
    ensures zero { (result ≡ Err NumFault.Zero) ↔ (b ≡ pos 0) }
    ensures quotient { b ≢ pos 0 → Gives result (IsQuotient a b) }
{
    let divisor = b.units();
    if divisor == 0 {
        return Err(NumFault::Zero);
    }
    let units = quotient(a.units(), divisor)?;
    Ok(Real::from_units(units))
}

fn quotient(a: i64, b: i64) -> Result<i64, NumFault>
    requires { b ≢ pos 0 }
    ensures { Gives result (IsQuotient a b) }
{
    fitted(nearest_to(scaled(a), b))
}

fn scaled(a: i64) -> i128
    ensures value { result ≡ a *ℤ units_per_one }
    ensures bound { unsigned_abs result ≤ 2 ^ 93 }
{
    a as i128 * UNITS_PER_ONE as i128
}
