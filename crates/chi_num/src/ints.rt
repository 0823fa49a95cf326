//! Sums, differences and products of ints, which are exact.

ghost use Rattle.std.specs.Prelude.{◌≡◌, pos, ◌+ℤ◌, ◌-ℤ◌, ◌*ℤ◌, neg_ℤ, unsigned_abs};
ghost use Rattle.chi_num.specs.Range.{Gives};

use crate::NumFault;

/// The int with the other sign. Only the least int has none.
pub fn int_neg(a: i64) -> Result<i64, NumFault>
    ensures { Gives result (λ r. r ≡ neg_ℤ a) }
{
    a.checked_neg().ok_or(NumFault::Range)
}

/// How far an int is from 0. Only for the least int that is no int.
pub fn int_abs(a: i64) -> Result<i64, NumFault>
    ensures { Gives result (λ r. r ≡ pos (unsigned_abs a)) }
{
    a.checked_abs().ok_or(NumFault::Range)
}

/// The sum of two ints, if it is one.
pub fn int_add(a: i64, b: i64) -> Result<i64, NumFault>
    ensures { Gives result (λ r. r ≡ a +ℤ b) }
{
    a.checked_add(b).ok_or(NumFault::Range)
}

/// The first int less the second, if that is one.
pub fn int_sub(a: i64, b: i64) -> Result<i64, NumFault>
    ensures { Gives result (λ r. r ≡ a -ℤ b) }
{
    a.checked_sub(b).ok_or(NumFault::Range)
}

/// The product of two ints, if it is one.
pub fn int_mul(a: i64, b: i64) -> Result<i64, NumFault>
    ensures { Gives result (λ r. r ≡ a *ℤ b) }
{
    a.checked_mul(b).ok_or(NumFault::Range)
}
