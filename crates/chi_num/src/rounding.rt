//! The ints next to a real.

ghost use Rattle.std.specs.Prelude.{◌^◌, ◌≤◌, pos, unsigned_abs};
ghost use Rattle.chi_num.specs.Rounding.{IsFloor, IsCeiling, IsNearest};
ghost use Rattle.chi_num.specs.Units.{units_per_one};

use crate::Real;
use crate::fraction::{floor_of, nearest_to};
use crate::real::UNITS_PER_ONE;

/// The greatest int that is at most the real.
pub fn floor(a: Real) -> i64
    ensures { IsFloor a units_per_one result }
{
    whole_floor(a.units() as i128) as i64
}

/// The least int that is at least the real.
pub fn ceil(a: Real) -> i64
    ensures { IsCeiling a units_per_one result }
{
    -whole_floor(-(a.units() as i128)) as i64
}

/// The int nearest to the real, a tie away from zero.
pub fn round(a: Real) -> i64
    ensures { IsNearest a units_per_one result }
{
    whole_nearest(a.units() as i128) as i64
}

fn whole_floor(units: i128) -> i128
    requires { unsigned_abs units ≤ 2 ^ 63 }
    ensures floor { IsFloor units units_per_one result }
    ensures bound { unsigned_abs result ≤ 2 ^ 62 }
{
    floor_of(units, UNITS_PER_ONE)
}

fn whole_nearest(units: i128) -> i128
    requires { unsigned_abs units ≤ 2 ^ 63 }
    ensures nearest { IsNearest units units_per_one result }
    ensures bound { unsigned_abs result ≤ 2 ^ 62 }
{
    nearest_to(units, UNITS_PER_ONE)
}
