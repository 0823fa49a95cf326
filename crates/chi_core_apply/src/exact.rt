//! Exact results of numbers, where 64 bits hold them.

ghost use Rattle.std.specs.Prelude.{◌≡◌, ◌≢◌, ◌+ℤ◌, ◌-ℤ◌, ◌*ℤ◌, ◌≤ℤ◌, neg_ℤ, nat_abs, ℕ, pos};
ghost use Rattle.chi_num.specs.Power.{power};
ghost use Rattle.chi_num.specs.Results.{fitted, floor_of, rounded};
ghost use Rattle.chi_num.specs.Units.{units_per_one};

use chi_num::{
    NumFault, Real, int_abs, int_add, int_div, int_mul, int_neg, int_pow, int_sub, real_abs,
    real_add, real_div, real_mul, real_neg, real_of, real_sub,
};

#[tactic(auto, using(crate::proofs::Numbers::exact))]
pub fn sum(x: i64, y: i64) -> Result<i64, NumFault>
    ensures { result ≡ fitted (x +ℤ y) }
{
    int_add(x, y)
}

#[tactic(auto, using(crate::proofs::Numbers::exact))]
pub fn difference(x: i64, y: i64) -> Result<i64, NumFault>
    ensures { result ≡ fitted (x -ℤ y) }
{
    int_sub(x, y)
}

#[tactic(auto, using(crate::proofs::Numbers::exact))]
pub fn product(x: i64, y: i64) -> Result<i64, NumFault>
    ensures { result ≡ fitted (x *ℤ y) }
{
    int_mul(x, y)
}

#[tactic(auto, using(crate::proofs::Numbers::exact))]
pub fn opposite(x: i64) -> Result<i64, NumFault>
    ensures { result ≡ fitted (neg_ℤ x) }
{
    int_neg(x)
}

#[tactic(auto, using(crate::proofs::Numbers::exact))]
pub fn size(x: i64) -> Result<i64, NumFault>
    ensures { result ≡ fitted (pos (nat_abs x)) }
{
    int_abs(x)
}

#[tactic(auto, using(crate::proofs::Numbers::exact))]
pub fn floor_quotient(x: i64, y: i64) -> Result<i64, NumFault>
    requires { y ≢ pos 0 }
    ensures { result ≡ fitted (floor_of x y) }
{
    int_div(x, y)
}

#[tactic(auto, using(crate::proofs::Numbers::exact))]
pub fn power_of(x: i64, y: i64) -> Result<i64, NumFault>
    requires { pos 0 ≤ℤ y }
    ensures { (n : ℕ) → y ≡ pos n → result ≡ fitted (power x n) }
{
    int_pow(x, y)
}

#[tactic(auto, using(crate::proofs::Numbers::exact))]
pub fn real_sum(x: Real, y: Real) -> Result<Real, NumFault>
    ensures { result ≡ fitted (x +ℤ y) }
{
    real_add(x, y)
}

#[tactic(auto, using(crate::proofs::Numbers::exact))]
pub fn real_difference(x: Real, y: Real) -> Result<Real, NumFault>
    ensures { result ≡ fitted (x -ℤ y) }
{
    real_sub(x, y)
}

#[tactic(auto, using(crate::proofs::Numbers::exact))]
pub fn real_product(x: Real, y: Real) -> Result<Real, NumFault>
    ensures { result ≡ fitted (rounded (x *ℤ y) units_per_one) }
{
    real_mul(x, y)
}

#[tactic(auto, using(crate::proofs::Numbers::exact))]
pub fn real_quotient(x: Real, y: Real) -> Result<Real, NumFault>
    requires { y ≢ pos 0 }
    ensures { result ≡ fitted (rounded (x *ℤ units_per_one) y) }
{
    real_div(x, y)
}

#[tactic(auto, using(crate::proofs::Numbers::exact))]
pub fn real_opposite(x: Real) -> Result<Real, NumFault>
    ensures { result ≡ fitted (neg_ℤ x) }
{
    real_neg(x)
}

#[tactic(auto, using(crate::proofs::Numbers::exact))]
pub fn real_size(x: Real) -> Result<Real, NumFault>
    ensures { result ≡ fitted (pos (nat_abs x)) }
{
    real_abs(x)
}

#[tactic(auto, using(crate::proofs::Numbers::exact))]
pub fn wide(x: i64) -> Result<Real, NumFault>
    ensures { result ≡ fitted (x *ℤ units_per_one) }
{
    real_of(x)
}
