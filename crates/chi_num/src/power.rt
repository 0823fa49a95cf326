//! Powers of ints, which are exact.

ghost use Rattle.std.specs.Prelude.{◌≡◌, ◌↔◌, ◌≤◌, ℕ, Err, pos, ◌<ℤ◌, unsigned_abs};
ghost use Rattle.chi_num.specs.Power.{power};
ghost use Rattle.chi_num.specs.Range.{Gives};

use crate::NumFault;

/// `a ^ b`, which is 1 where both are 0.
pub fn int_pow(a: i64, b: i64) -> Result<i64, NumFault>
    ensures negative { (result ≡ Err NumFault.Power) ↔ (b <ℤ pos 0) }
    ensures power { (count : ℕ) → b ≡ pos count → Gives result (λ r. r ≡ power a count) }
{
    if b < 0 {
        return Err(NumFault::Power);
    }
    power_of(a, b.unsigned_abs())
}

// A power of 64 or more factors, each of size 2 or more, is out of range.
#[tactic(auto, using(crate::proofs::Powers::power_out))]
fn power_of(base: i64, count: u64) -> Result<i64, NumFault>
    ensures { Gives result (λ r. r ≡ power base count) }
{
    if base.unsigned_abs() < 2 {
        Ok(unit_power(base, count))
    } else if count < 64 {
        short_power(base, count as u32)
    } else {
        Err(NumFault::Range)
    }
}

#[tactic(auto, using(crate::proofs::Powers::unit_none, crate::proofs::Powers::unit_even, crate::proofs::Powers::unit_odd, crate::proofs::Powers::unit_up))]
fn unit_power(base: i64, count: u64) -> i64
    requires { unsigned_abs base ≤ 1 }
    ensures { result ≡ power base count }
{
    if base < 0 {
        if count % 2 == 0 { 1 } else { base }
    } else if count == 0 {
        1
    } else {
        base
    }
}

#[tactic(auto, using(crate::proofs::Powers::int_pow_is))]
fn short_power(base: i64, count: u32) -> Result<i64, NumFault>
    ensures { Gives result (λ r. r ≡ power base count) }
{
    base.checked_pow(count).ok_or(NumFault::Range)
}
