//! Products of reals, rounded to the nearest unit.

ghost use Rattle.std.specs.Prelude.{◌≡◌, ◌^◌, ◌≤◌, ◌*ℤ◌, unsigned_abs};
ghost use Rattle.chi_num.specs.Product.{IsProduct};
ghost use Rattle.chi_num.specs.Range.{Gives};

use crate::fraction::nearest_to;
use crate::range::fitted;
use crate::real::UNITS_PER_ONE;
use crate::{NumFault, Real};

/// The product, rounded to the nearest unit, a tie away from zero.
pub fn real_mul(a: Real, b: Real) -> Result<Real, NumFault>
    ensures { Gives result (IsProduct a b) }
{
    let units = product(a.units(), b.units())?;
    Ok(Real::from_units(units))
}

fn product(a: i64, b: i64) -> Result<i64, NumFault>
    ensures { Gives result (IsProduct a b) }
{
    fitted(nearest_to(exact_product(a, b), UNITS_PER_ONE))
}

/// In units of a billionth of a unit.
fn exact_product(a: i64, b: i64) -> i128
    ensures value { result ≡ a *ℤ b }
    ensures bound { unsigned_abs result ≤ 2 ^ 126 }
{
    a as i128 * b as i128
}
