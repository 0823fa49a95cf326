//! Whole numbers that 64 bits hold.

ghost use Rattle.std.specs.Prelude.{◌≡◌};
ghost use Rattle.chi_num.specs.Range.{Gives};

use crate::NumFault;

/// The number itself where 64 bits hold it.
pub fn fitted(exact: i128) -> Result<i64, NumFault>
    ensures { Gives result (λ r. r ≡ exact) }
{
    i64::try_from(exact).map_err(|_| NumFault::Range)
}
