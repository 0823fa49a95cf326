//! Arithmetic on ints and reals. Nothing of it uses anything up.

ghost use Rattle.std.specs.Prelude.{◌≡◌, ◌≢◌, IfOk, IfErr};
ghost use Rattle.chi_core.specs.Answer.{Gives, Amiss};
ghost use Rattle.chi_core.specs.Arithmetic.{widened, negated, absolute, sign_of, floored, ceiled, nearest_to, quotient, divided, remainder, powered};
ghost use Rattle.chi_core_apply.specs.Failures.{IsFailure};

use crate::exact;
use crate::failure::Failure;
use crate::reading::{int_in, real_in};
use chi_core::{FaultKind, View};
use chi_num::{ceil, floor, int_mod, round};
use chi_value::Value;

/// An int as a real.
#[tactic(auto, using(crate::proofs::Numbers::kinds, crate::proofs::Numbers::fitting))]
pub fn widened(a: &Value, view: &View) -> Result<Value, Failure>
    requires { widened a.now view.now ≢ Amiss }
    ensures value { IfOk result (λ v. widened a.now view.now ≡ Gives v view.now) }
    ensures fails { IfErr result (λ failure. IsFailure failure (widened a.now view.now)) }
{
    match exact::wide(int_in(a)) {
        Ok(z) => Ok(Value::Real(z)),
        Err(_) => Err(Failure::Fault(FaultKind::RealRange)),
    }
}

/// A number with the other sign.
#[tactic(auto, using(crate::proofs::Numbers::kinds, crate::proofs::Numbers::fitting))]
pub fn negated(a: &Value, view: &View) -> Result<Value, Failure>
    requires { negated a.now view.now ≢ Amiss }
    ensures value { IfOk result (λ v. negated a.now view.now ≡ Gives v view.now) }
    ensures fails { IfErr result (λ failure. IsFailure failure (negated a.now view.now)) }
{
    match a {
        Value::Int(x) => match exact::opposite(*x) {
            Ok(z) => Ok(Value::Int(z)),
            Err(_) => Err(Failure::Fault(FaultKind::IntRange)),
        },
        Value::Real(x) => match exact::real_opposite(*x) {
            Ok(z) => Ok(Value::Real(z)),
            Err(_) => Err(Failure::Fault(FaultKind::RealRange)),
        },
        Value::Bool(_)
        | Value::Text(_)
        | Value::Choice(_, _)
        | Value::TupleOf(_)
        | Value::ListOf(_)
        | Value::SetOf(_)
        | Value::DictOf(_)
        | Value::Chan(_)
        | Value::Dist(_)
        | Value::Timer(_)
        | Value::Inst(_) => unreachable!(),
    }
}

/// A number without its sign.
#[tactic(auto, using(crate::proofs::Numbers::kinds, crate::proofs::Numbers::fitting))]
pub fn absolute(a: &Value, view: &View) -> Result<Value, Failure>
    requires { absolute a.now view.now ≢ Amiss }
    ensures value { IfOk result (λ v. absolute a.now view.now ≡ Gives v view.now) }
    ensures fails { IfErr result (λ failure. IsFailure failure (absolute a.now view.now)) }
{
    match a {
        Value::Int(x) => match exact::size(*x) {
            Ok(z) => Ok(Value::Int(z)),
            Err(_) => Err(Failure::Fault(FaultKind::IntRange)),
        },
        Value::Real(x) => match exact::real_size(*x) {
            Ok(z) => Ok(Value::Real(z)),
            Err(_) => Err(Failure::Fault(FaultKind::RealRange)),
        },
        Value::Bool(_)
        | Value::Text(_)
        | Value::Choice(_, _)
        | Value::TupleOf(_)
        | Value::ListOf(_)
        | Value::SetOf(_)
        | Value::DictOf(_)
        | Value::Chan(_)
        | Value::Dist(_)
        | Value::Timer(_)
        | Value::Inst(_) => unreachable!(),
    }
}

/// The quotient of two ints, rounded down.
#[tactic(auto, using(crate::proofs::Numbers::kinds, crate::proofs::Numbers::fitting))]
pub fn divided(a: &Value, b: &Value, view: &View) -> Result<Value, Failure>
    requires { divided a.now b.now view.now ≢ Amiss }
    ensures value { IfOk result (λ v. divided a.now b.now view.now ≡ Gives v view.now) }
    ensures fails { IfErr result (λ failure. IsFailure failure (divided a.now b.now view.now)) }
{
    let x = int_in(a);
    let y = int_in(b);
    if y == 0 {
        return Err(Failure::Fault(FaultKind::DivideByZero));
    }
    match exact::floor_quotient(x, y) {
        Ok(z) => Ok(Value::Int(z)),
        Err(_) => Err(Failure::Fault(FaultKind::IntRange)),
    }
}

/// What is left of an int after the quotient rounded down.
#[tactic(auto, using(crate::proofs::Numbers::kinds, crate::proofs::Numbers::rounding))]
pub fn remainder(a: &Value, b: &Value, view: &View) -> Result<Value, Failure>
    requires { remainder a.now b.now view.now ≢ Amiss }
    ensures value { IfOk result (λ v. remainder a.now b.now view.now ≡ Gives v view.now) }
    ensures fails { IfErr result (λ failure. IsFailure failure (remainder a.now b.now view.now)) }
{
    let x = int_in(a);
    let y = int_in(b);
    if y == 0 {
        return Err(Failure::Fault(FaultKind::DivideByZero));
    }
    match int_mod(x, y) {
        Ok(z) => Ok(Value::Int(z)),
        Err(_) => Err(Failure::Fault(FaultKind::IntRange)),
    }
}

/// An int raised to the power of another.
#[tactic(auto, using(crate::proofs::Numbers::kinds, crate::proofs::Numbers::fitting))]
pub fn powered(a: &Value, b: &Value, view: &View) -> Result<Value, Failure>
    requires { powered a.now b.now view.now ≢ Amiss }
    ensures value { IfOk result (λ v. powered a.now b.now view.now ≡ Gives v view.now) }
    ensures fails { IfErr result (λ failure. IsFailure failure (powered a.now b.now view.now)) }
{
    let x = int_in(a);
    let y = int_in(b);
    if y < 0 {
        return Err(Failure::Fault(FaultKind::BadPower));
    }
    match exact::power_of(x, y) {
        Ok(z) => Ok(Value::Int(z)),
        Err(_) => Err(Failure::Fault(FaultKind::IntRange)),
    }
}

/// The quotient of two reals, rounded to the nearest unit.
#[tactic(auto, using(crate::proofs::Numbers::kinds, crate::proofs::Numbers::fitting))]
pub fn quotient(a: &Value, b: &Value, view: &View) -> Result<Value, Failure>
    requires { quotient a.now b.now view.now ≢ Amiss }
    ensures value { IfOk result (λ v. quotient a.now b.now view.now ≡ Gives v view.now) }
    ensures fails { IfErr result (λ failure. IsFailure failure (quotient a.now b.now view.now)) }
{
    let x = real_in(a);
    let y = real_in(b);
    if y.units() == 0 {
        return Err(Failure::Fault(FaultKind::DivideByZero));
    }
    match exact::real_quotient(x, y) {
        Ok(z) => Ok(Value::Real(z)),
        Err(_) => Err(Failure::Fault(FaultKind::RealRange)),
    }
}

/// The greatest int that is at most a real.
#[tactic(auto, using(crate::proofs::Numbers::kinds, crate::proofs::Numbers::rounding))]
pub fn floored(a: &Value, view: &View) -> Result<Value, Failure>
    requires { floored a.now view.now ≢ Amiss }
    ensures value { IfOk result (λ v. floored a.now view.now ≡ Gives v view.now) }
    ensures fails { IfErr result (λ failure. IsFailure failure (floored a.now view.now)) }
{
    Ok(Value::Int(floor(real_in(a))))
}

/// The least int that is at least a real.
#[tactic(auto, using(crate::proofs::Numbers::kinds, crate::proofs::Numbers::rounding))]
pub fn ceiled(a: &Value, view: &View) -> Result<Value, Failure>
    requires { ceiled a.now view.now ≢ Amiss }
    ensures value { IfOk result (λ v. ceiled a.now view.now ≡ Gives v view.now) }
    ensures fails { IfErr result (λ failure. IsFailure failure (ceiled a.now view.now)) }
{
    Ok(Value::Int(ceil(real_in(a))))
}

/// The int nearest to a real, a tie away from zero.
#[tactic(auto, using(crate::proofs::Numbers::kinds, crate::proofs::Numbers::rounding))]
pub fn nearest_to(a: &Value, view: &View) -> Result<Value, Failure>
    requires { nearest_to a.now view.now ≢ Amiss }
    ensures value { IfOk result (λ v. nearest_to a.now view.now ≡ Gives v view.now) }
    ensures fails { IfErr result (λ failure. IsFailure failure (nearest_to a.now view.now)) }
{
    Ok(Value::Int(round(real_in(a))))
}
