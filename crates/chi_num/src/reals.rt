//! Sums and differences of reals, which are exact in their units.

ghost use Rattle.std.specs.Prelude.{◌≡◌, pos, ◌+ℤ◌, ◌-ℤ◌, ◌*ℤ◌, neg_ℤ, unsigned_abs};
ghost use Rattle.chi_num.specs.Range.{Gives};
ghost use Rattle.chi_num.specs.Units.{units_per_one};

use crate::ints::{int_abs, int_add, int_mul, int_neg, int_sub};
use crate::real::UNITS_PER_ONE;
use crate::{NumFault, Real};

/// The real with the value of an int.
pub fn real_of(a: i64) -> Result<Real, NumFault>
    ensures { Gives result (λ r. r ≡ a *ℤ units_per_one) }
{
    let units = int_mul(a, UNITS_PER_ONE)?;
    Ok(Real::from_units(units))
}

/// The real with the other sign. Only the least real has none.
pub fn real_neg(a: Real) -> Result<Real, NumFault>
    ensures { Gives result (λ r. r ≡ neg_ℤ a) }
{
    let units = int_neg(a.units())?;
    Ok(Real::from_units(units))
}

/// How far a real is from 0. Only for the least real that is no real.
pub fn real_abs(a: Real) -> Result<Real, NumFault>
    ensures { Gives result (λ r. r ≡ pos (unsigned_abs a)) }
{
    let units = int_abs(a.units())?;
    Ok(Real::from_units(units))
}

/// The sum of two reals, if it is one. Nothing is rounded.
pub fn real_add(a: Real, b: Real) -> Result<Real, NumFault>
    ensures { Gives result (λ r. r ≡ a +ℤ b) }
{
    let units = int_add(a.units(), b.units())?;
    Ok(Real::from_units(units))
}

/// The first real less the second, if that is one. Nothing is rounded.
pub fn real_sub(a: Real, b: Real) -> Result<Real, NumFault>
    ensures { Gives result (λ r. r ≡ a -ℤ b) }
{
    let units = int_sub(a.units(), b.units())?;
    Ok(Real::from_units(units))
}
