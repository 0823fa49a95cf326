//! `+`, `-` and `*`, which are for numbers and containers.

ghost use Rattle.std.specs.Prelude.{◌≡◌, ◌≢◌, IfOk, IfErr};
ghost use Rattle.chi_value.specs.declared.value.Value.{out-Value};
ghost use Rattle.chi_core.specs.Answer.{Gives, Amiss};
ghost use Rattle.chi_core.specs.Operators.{sum, difference, product};
ghost use Rattle.chi_core_apply.specs.Failures.{IsFailure};

use crate::containers::{in_both, in_first, joined, joined_on, united, without_keys};
use crate::exact;
use crate::failure::Failure;
use chi_core::{FaultKind, View};
use chi_value::Value;
use std::alloc::Global;

/// Of numbers the sum, of sets and dictionaries what is in either, of strings and lists one after the other.
#[tactic(auto, using(crate::proofs::Numbers::fitting))]
pub fn sum(alloc: Global, a: &Value, b: &Value, view: &View) -> Result<Value, Failure>
    requires { sum a.now b.now (out-Value a.now) (out-Value b.now) view.now ≢ Amiss }
    ensures value { IfOk result (λ v. sum a.now b.now (out-Value a.now) (out-Value b.now) view.now ≡ Gives v view.now) }
    ensures fails { IfErr result (λ failure. IsFailure failure (sum a.now b.now (out-Value a.now) (out-Value b.now) view.now)) }
{
    match (a, b) {
        (Value::Int(x), Value::Int(y)) => match exact::sum(*x, *y) {
            Ok(z) => Ok(Value::Int(z)),
            Err(_) => Err(Failure::Fault(FaultKind::IntRange)),
        },
        (Value::Real(x), Value::Real(y)) => match exact::real_sum(*x, *y) {
            Ok(z) => Ok(Value::Real(z)),
            Err(_) => Err(Failure::Fault(FaultKind::RealRange)),
        },
        (Value::SetOf(_), _) | (Value::DictOf(_), _) => united(alloc, a, b, view),
        (_, _) => joined(alloc, a, b, view),
    }
}

/// Of numbers the difference, of sets what is in the first alone, a dictionary without the keys in a set.
#[tactic(auto, using(crate::proofs::Numbers::fitting))]
pub fn difference(alloc: Global, a: &Value, b: &Value, view: &View) -> Result<Value, Failure>
    requires { difference a.now b.now (out-Value a.now) (out-Value b.now) view.now ≢ Amiss }
    ensures value { IfOk result (λ v. difference a.now b.now (out-Value a.now) (out-Value b.now) view.now ≡ Gives v view.now) }
    ensures fails { IfErr result (λ failure. IsFailure failure (difference a.now b.now (out-Value a.now) (out-Value b.now) view.now)) }
{
    match (a, b) {
        (Value::Int(x), Value::Int(y)) => match exact::difference(*x, *y) {
            Ok(z) => Ok(Value::Int(z)),
            Err(_) => Err(Failure::Fault(FaultKind::IntRange)),
        },
        (Value::Real(x), Value::Real(y)) => match exact::real_difference(*x, *y) {
            Ok(z) => Ok(Value::Real(z)),
            Err(_) => Err(Failure::Fault(FaultKind::RealRange)),
        },
        (Value::DictOf(_), _) => without_keys(alloc, a, b, view),
        (_, _) => in_first(alloc, a, b, view),
    }
}

/// Of numbers the product, of sets what is in both.
#[tactic(auto, using(crate::proofs::Numbers::fitting))]
pub fn product(alloc: Global, a: &Value, b: &Value, view: &View) -> Result<Value, Failure>
    requires { product a.now b.now (out-Value a.now) (out-Value b.now) view.now ≢ Amiss }
    ensures value { IfOk result (λ v. product a.now b.now (out-Value a.now) (out-Value b.now) view.now ≡ Gives v view.now) }
    ensures fails { IfErr result (λ failure. IsFailure failure (product a.now b.now (out-Value a.now) (out-Value b.now) view.now)) }
{
    match (a, b) {
        (Value::Int(x), Value::Int(y)) => match exact::product(*x, *y) {
            Ok(z) => Ok(Value::Int(z)),
            Err(_) => Err(Failure::Fault(FaultKind::IntRange)),
        },
        (Value::Real(x), Value::Real(y)) => match exact::real_product(*x, *y) {
            Ok(z) => Ok(Value::Real(z)),
            Err(_) => Err(Failure::Fault(FaultKind::RealRange)),
        },
        (_, _) => in_both(alloc, a, b, view),
    }
}

/// As sum, where the first is used up.
pub fn sum_on(alloc: Global, a: Value, b: &Value, view: &View) -> Result<Value, Failure>
    requires { sum a b.now (out-Value a) (out-Value b.now) view.now ≢ Amiss }
    ensures value { IfOk result (λ v. sum a b.now (out-Value a) (out-Value b.now) view.now ≡ Gives v view.now) }
    ensures fails { IfErr result (λ failure. IsFailure failure (sum a b.now (out-Value a) (out-Value b.now) view.now)) }
{
    match a {
        Value::ListOf(items) => Ok(joined_on(alloc, Value::ListOf(items), b, view)?),
        a => Ok(sum(alloc, &a, b, view)?),
    }
}
