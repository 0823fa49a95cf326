//! Division of ints, which rounds down.

ghost use Rattle.std.specs.Prelude.{◌≡◌, ◌≢◌, ◌↔◌, ◌+◌, ◌^◌, ◌<◌, ◌≤◌, Err, pos, ◌*ℤ◌, unsigned_abs, IsOkAnd};
ghost use Rattle.chi_num.specs.Division.{IsRemainder};
ghost use Rattle.chi_num.specs.Range.{Gives};
ghost use Rattle.chi_num.specs.Rounding.{IsFloor};

use crate::NumFault;
use crate::fraction::floor_of;
use crate::range::fitted;

/// `a div b`, rounded down.
pub fn int_div(a: i64, b: i64) -> Result<i64, NumFault>
    ensures zero { (result ≡ Err NumFault.Zero) ↔ (b ≡ pos 0) }
    ensures quotient { b ≢ pos 0 → Gives result (IsFloor a b) }
{
    if b == 0 {
        return Err(NumFault::Zero);
    }
    quotient(a, b)
}

fn quotient(a: i64, b: i64) -> Result<i64, NumFault>
    requires { b ≢ pos 0 }
    ensures { Gives result (IsFloor a b) }
{
    fitted(floor_of(a as i128, b))
}

/// `a mod b`, which has the sign of `b` unless it is 0.
pub fn int_mod(a: i64, b: i64) -> Result<i64, NumFault>
    ensures zero { (result ≡ Err NumFault.Zero) ↔ (b ≡ pos 0) }
    ensures remainder { b ≢ pos 0 → IsOkAnd result (IsRemainder a b) }
{
    if b == 0 {
        return Err(NumFault::Zero);
    }
    Ok(remainder(a, b))
}

fn remainder(a: i64, b: i64) -> i64
    requires { b ≢ pos 0 }
    ensures { IsRemainder a b result }
{
    rest_of(a as i128, b) as i64
}

fn rest_of(number: i128, divisor: i64) -> i128
    requires divides { divisor ≢ pos 0 }
    requires small { unsigned_abs number ≤ 2 ^ 126 }
    ensures rest { IsRemainder number divisor result }
    ensures bound { unsigned_abs result < unsigned_abs divisor }
{
    let quotient = floor_of(number, divisor);
    number - multiple(divisor, quotient)
}

fn multiple(divisor: i64, count: i128) -> i128
    requires { unsigned_abs (divisor *ℤ count) ≤ 2 ^ 126 + 2 ^ 64 }
    ensures { result ≡ divisor *ℤ count }
{
    divisor as i128 * count
}
