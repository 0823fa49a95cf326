//! Slices: a bound that is given is the next of the operands.

ghost use Rattle.std.specs.Prelude.{◌≡◌, ◌≢◌, None, Some, IfOk, IfErr};
ghost use Rattle.chi_ops.specs.Sequences.{slice};
ghost use Rattle.chi_core.specs.Answer.{Gives, Amiss};
ghost use Rattle.chi_core.specs.Containers.{done, sliced};
ghost use Rattle.chi_core_apply.specs.Bounds.{next_bound};
ghost use Rattle.chi_core_apply.specs.Failures.{IsFailure};

use crate::failure::Failure;
use crate::reading::int_in;
use chi_core::View;
use chi_ops::slice;
use chi_value::Value;
use std::alloc::Global;

/// A bound, if it is given, and the operands after it.
#[tactic(auto, using(crate::proofs::Bounding::bounding))]
fn next_bound(given: bool, operands: &[Value]) -> (Option<i64>, &[Value])
    requires { next_bound given operands.now ≢ None }
    ensures { next_bound given operands.now ≡ Some (result.0, result.1.now) }
{
    if !given {
        return (None, operands);
    }
    match operands.split_first() {
        Some((bound, rest)) => (Some(int_in(bound)), rest),
        None => unreachable!(),
    }
}

#[tactic(auto, using(crate::proofs::Operations::operations))]
fn taken(
    alloc: Global,
    a: &Value,
    first: Option<i64>,
    last: Option<i64>,
    by: Option<i64>,
    view: &View,
) -> Result<Value, Failure>
    requires { done (slice a.now first last by) view.now ≢ Amiss }
    ensures value { IfOk result (λ v. done (slice a.now first last by) view.now ≡ Gives v view.now) }
    ensures fails { IfErr result (λ failure. IsFailure failure (done (slice a.now first last by) view.now)) }
{
    Ok(slice(alloc, a, first, last, by)?)
}

/// The part of a list or string between bounds, of which some are given.
#[tactic(auto, using(crate::proofs::Bounding::slicing))]
pub fn sliced(
    alloc: Global,
    given: (bool, bool, bool),
    a: &Value,
    bounds: &[Value],
    view: &View,
) -> Result<Value, Failure>
    requires { sliced given.0 given.1 given.2 a.now bounds.now view.now ≢ Amiss }
    ensures value { IfOk result (λ v. sliced given.0 given.1 given.2 a.now bounds.now view.now ≡ Gives v view.now) }
    ensures fails { IfErr result (λ failure. IsFailure failure (sliced given.0 given.1 given.2 a.now bounds.now view.now)) }
{
    let (first, rest) = next_bound(given.0, bounds);
    let (last, rest) = next_bound(given.1, rest);
    let (by, _) = next_bound(given.2, rest);
    Ok(taken(alloc, a, first, last, by, view)?)
}

#[tactic(auto, using(crate::proofs::Operations::operations))]
fn taken_off(
    alloc: Global,
    a: Value,
    first: Option<i64>,
    last: Option<i64>,
    by: Option<i64>,
    view: &View,
) -> Result<Value, Failure>
    requires { done (slice a first last by) view.now ≢ Amiss }
    ensures value { IfOk result (λ v. done (slice a first last by) view.now ≡ Gives v view.now) }
    ensures fails { IfErr result (λ failure. IsFailure failure (done (slice a first last by) view.now)) }
{
    Ok(chi_ops::sliced(alloc, a, first, last, by)?)
}

/// As sliced, of a list or string that is used up.
#[tactic(auto, using(crate::proofs::Bounding::slicing))]
pub fn sliced_off(
    alloc: Global,
    given: (bool, bool, bool),
    a: Value,
    bounds: &[Value],
    view: &View,
) -> Result<Value, Failure>
    requires { sliced given.0 given.1 given.2 a bounds.now view.now ≢ Amiss }
    ensures value { IfOk result (λ v. sliced given.0 given.1 given.2 a bounds.now view.now ≡ Gives v view.now) }
    ensures fails { IfErr result (λ failure. IsFailure failure (sliced given.0 given.1 given.2 a bounds.now view.now)) }
{
    let (first, rest) = next_bound(given.0, bounds);
    let (last, rest) = next_bound(given.1, rest);
    let (by, _) = next_bound(given.2, rest);
    Ok(taken_off(alloc, a, first, last, by, view)?)
}
