//! Operations on containers and strings. Nothing of them uses anything up.

ghost use Rattle.std.specs.Prelude.{◌≡◌, ◌≢◌, ℤ, IfOk, IfErr};
ghost use Rattle.chi_value.specs.declared.value.Value.{out-Value};
ghost use Rattle.chi_ops.specs.Operations.{has, sub, lookup, pop, union, meet, minus, minus_keys, keys_of, values_of};
ghost use Rattle.chi_ops.specs.Sequences.{index, del, join, enumerate, range};
ghost use Rattle.chi_core.specs.Answer.{Gives, Amiss};
ghost use Rattle.chi_core.specs.Comparisons.{tells};
ghost use Rattle.chi_core.specs.Containers.{done, range_of, element_at, without, size_of, is_empty};
ghost use Rattle.chi_core_apply.specs.Failures.{IsFailure};

use crate::failure::Failure;
use crate::reading::int_in;
use chi_core::View;
use chi_ops::{
    del, enumerate, has, index, join, keys, lookup, meet, minus, minus_keys, pop, range, size, sub,
    union, values,
};
use chi_value::Value;
use std::alloc::Global;

#[tactic(auto, using(crate::proofs::Operations::operations))]
pub fn joined(alloc: Global, a: &Value, b: &Value, view: &View) -> Result<Value, Failure>
    requires { done (join a.now b.now) view.now ≢ Amiss }
    ensures value { IfOk result (λ v. done (join a.now b.now) view.now ≡ Gives v view.now) }
    ensures fails { IfErr result (λ failure. IsFailure failure (done (join a.now b.now) view.now)) }
{
    Ok(join(alloc, a, b)?)
}

/// As joined, of a list that is used up, and grows where it isn't shared.
#[tactic(auto, using(crate::proofs::Operations::operations))]
pub fn joined_on(alloc: Global, a: Value, b: &Value, view: &View) -> Result<Value, Failure>
    requires { done (join a b.now) view.now ≢ Amiss }
    ensures value { IfOk result (λ v. done (join a b.now) view.now ≡ Gives v view.now) }
    ensures fails { IfErr result (λ failure. IsFailure failure (done (join a b.now) view.now)) }
{
    Ok(chi_ops::joined(alloc, a, b)?)
}

#[tactic(auto, using(crate::proofs::Operations::operations))]
pub fn united(alloc: Global, a: &Value, b: &Value, view: &View) -> Result<Value, Failure>
    requires { done (union a.now b.now) view.now ≢ Amiss }
    ensures value { IfOk result (λ v. done (union a.now b.now) view.now ≡ Gives v view.now) }
    ensures fails { IfErr result (λ failure. IsFailure failure (done (union a.now b.now) view.now)) }
{
    Ok(union(alloc, a, b)?)
}

#[tactic(auto, using(crate::proofs::Operations::operations))]
pub fn in_both(alloc: Global, a: &Value, b: &Value, view: &View) -> Result<Value, Failure>
    requires { done (meet a.now b.now) view.now ≢ Amiss }
    ensures value { IfOk result (λ v. done (meet a.now b.now) view.now ≡ Gives v view.now) }
    ensures fails { IfErr result (λ failure. IsFailure failure (done (meet a.now b.now) view.now)) }
{
    Ok(meet(alloc, a, b)?)
}

#[tactic(auto, using(crate::proofs::Operations::operations))]
pub fn in_first(alloc: Global, a: &Value, b: &Value, view: &View) -> Result<Value, Failure>
    requires { done (minus a.now b.now) view.now ≢ Amiss }
    ensures value { IfOk result (λ v. done (minus a.now b.now) view.now ≡ Gives v view.now) }
    ensures fails { IfErr result (λ failure. IsFailure failure (done (minus a.now b.now) view.now)) }
{
    Ok(minus(alloc, a, b)?)
}

#[tactic(auto, using(crate::proofs::Operations::operations))]
pub fn without_keys(alloc: Global, a: &Value, b: &Value, view: &View) -> Result<Value, Failure>
    requires { done (minus_keys a.now b.now) view.now ≢ Amiss }
    ensures value { IfOk result (λ v. done (minus_keys a.now b.now) view.now ≡ Gives v view.now) }
    ensures fails { IfErr result (λ failure. IsFailure failure (done (minus_keys a.now b.now) view.now)) }
{
    Ok(minus_keys(alloc, a, b)?)
}

/// What a key of a dictionary has.
#[tactic(auto, using(crate::proofs::Operations::operations))]
pub fn looked_up(alloc: Global, a: &Value, key: &Value, view: &View) -> Result<Value, Failure>
    requires { done (lookup a.now key.now) view.now ≢ Amiss }
    ensures value { IfOk result (λ v. done (lookup a.now key.now) view.now ≡ Gives v view.now) }
    ensures fails { IfErr result (λ failure. IsFailure failure (done (lookup a.now key.now) view.now)) }
{
    Ok(lookup(alloc, a, key)?)
}

#[tactic(auto, using(crate::proofs::Operations::operations))]
pub fn popped(alloc: Global, a: &Value, view: &View) -> Result<Value, Failure>
    requires { done (pop a.now) view.now ≢ Amiss }
    ensures value { IfOk result (λ v. done (pop a.now) view.now ≡ Gives v view.now) }
    ensures fails { IfErr result (λ failure. IsFailure failure (done (pop a.now) view.now)) }
{
    Ok(pop(alloc, a)?)
}

/// As popped, of a container that is used up.
#[tactic(auto, using(crate::proofs::Operations::operations))]
pub fn popped_off(alloc: Global, a: Value, view: &View) -> Result<Value, Failure>
    requires { done (pop a) view.now ≢ Amiss }
    ensures value { IfOk result (λ v. done (pop a) view.now ≡ Gives v view.now) }
    ensures fails { IfErr result (λ failure. IsFailure failure (done (pop a) view.now)) }
{
    Ok(chi_ops::popped(alloc, a)?)
}

#[tactic(auto, using(crate::proofs::Operations::operations))]
pub fn enumerated(alloc: Global, a: &Value, view: &View) -> Result<Value, Failure>
    requires { done (enumerate a.now) view.now ≢ Amiss }
    ensures value { IfOk result (λ v. done (enumerate a.now) view.now ≡ Gives v view.now) }
    ensures fails { IfErr result (λ failure. IsFailure failure (done (enumerate a.now) view.now)) }
{
    Ok(enumerate(alloc, a)?)
}

#[tactic(auto, using(crate::proofs::Operations::operations))]
pub fn keys_in(alloc: Global, a: &Value, view: &View) -> Result<Value, Failure>
    requires { done (keys_of a.now) view.now ≢ Amiss }
    ensures value { IfOk result (λ v. done (keys_of a.now) view.now ≡ Gives v view.now) }
    ensures fails { IfErr result (λ failure. IsFailure failure (done (keys_of a.now) view.now)) }
{
    Ok(keys(alloc, a)?)
}

#[tactic(auto, using(crate::proofs::Operations::operations))]
pub fn values_in(alloc: Global, a: &Value, view: &View) -> Result<Value, Failure>
    requires { done (values_of a.now) view.now ≢ Amiss }
    ensures value { IfOk result (λ v. done (values_of a.now) view.now ≡ Gives v view.now) }
    ensures fails { IfErr result (λ failure. IsFailure failure (done (values_of a.now) view.now)) }
{
    Ok(values(alloc, a)?)
}

#[tactic(auto, using(crate::proofs::Operations::operations))]
fn indexed(alloc: Global, a: &Value, i: i64, view: &View) -> Result<Value, Failure>
    requires { done (index a.now i) view.now ≢ Amiss }
    ensures value { IfOk result (λ v. done (index a.now i) view.now ≡ Gives v view.now) }
    ensures fails { IfErr result (λ failure. IsFailure failure (done (index a.now i) view.now)) }
{
    Ok(index(alloc, a, i)?)
}

#[tactic(auto, using(crate::proofs::Operations::operations))]
fn deleted(alloc: Global, a: &Value, i: i64, view: &View) -> Result<Value, Failure>
    requires { done (del a.now i) view.now ≢ Amiss }
    ensures value { IfOk result (λ v. done (del a.now i) view.now ≡ Gives v view.now) }
    ensures fails { IfErr result (λ failure. IsFailure failure (done (del a.now i) view.now)) }
{
    Ok(del(alloc, a, i)?)
}

/// The element of a list, or the byte of a string, at an index.
#[tactic(auto, using(crate::proofs::Numbers::kinds))]
pub fn element_at(alloc: Global, a: &Value, i: &Value, view: &View) -> Result<Value, Failure>
    requires { element_at a.now i.now view.now ≢ Amiss }
    ensures value { IfOk result (λ v. element_at a.now i.now view.now ≡ Gives v view.now) }
    ensures fails { IfErr result (λ failure. IsFailure failure (element_at a.now i.now view.now)) }
{
    Ok(indexed(alloc, a, int_in(i), view)?)
}

/// A list without the element at an index.
#[tactic(auto, using(crate::proofs::Numbers::kinds))]
pub fn without(alloc: Global, a: &Value, i: &Value, view: &View) -> Result<Value, Failure>
    requires { without a.now i.now view.now ≢ Amiss }
    ensures value { IfOk result (λ v. without a.now i.now view.now ≡ Gives v view.now) }
    ensures fails { IfErr result (λ failure. IsFailure failure (without a.now i.now view.now)) }
{
    Ok(deleted(alloc, a, int_in(i), view)?)
}

/// An element is in a list or set, or a key in a dictionary.
#[tactic(auto, using(crate::proofs::Truths::truths))]
pub fn is_in(a: &Value, x: &Value, view: &View) -> Value
    requires { tells (has a.now x.now) view.now ≢ Amiss }
    ensures { tells (has a.now x.now) view.now ≡ Gives result view.now }
{
    Value::Bool(has(a, x))
}

/// A set is a subset of another.
#[tactic(auto, using(crate::proofs::Truths::truths))]
pub fn is_within(a: &Value, b: &Value, view: &View) -> Value
    requires { tells (sub a.now b.now) view.now ≢ Amiss }
    ensures { tells (sub a.now b.now) view.now ≡ Gives result view.now }
{
    Value::Bool(sub(a, b))
}

/// How many elements, entries or bytes there are.
#[tactic(auto, using(crate::proofs::Sizes::sizes))]
pub fn size_of(a: &Value, view: &View) -> Value
    requires { size_of a.now view.now ≢ Amiss }
    ensures { size_of a.now view.now ≡ Gives result view.now }
{
    Value::Int(i64::from(size(a)))
}

#[tactic(auto, using(crate::proofs::Sizes::sizes))]
pub fn is_empty(a: &Value, view: &View) -> Value
    requires { is_empty a.now view.now ≢ Amiss }
    ensures { is_empty a.now view.now ≡ Gives result view.now }
{
    Value::Bool(size(a) == 0)
}

#[tactic(auto, using(crate::proofs::Ranges::made))]
fn ranged(alloc: Global, first: i64, last: i64, by: i64, view: &View) -> Result<Value, Failure>
    ensures value { IfOk result (λ v. done (range first last by) view.now ≡ Gives v view.now) }
    ensures fails { IfErr result (λ failure. IsFailure failure (done (range first last by) view.now)) }
{
    Ok(range(alloc, first, last, by)?)
}

/// The ints from the first to before the last, so far apart.
#[tactic(auto, using(crate::proofs::Ranges::ranges))]
pub fn range_of(
    alloc: Global,
    first: &Value,
    last: &Value,
    by: &Value,
    view: &View,
) -> Result<Value, Failure>
    requires { range_of (out-Value first.now) (out-Value last.now) (out-Value by.now) view.now ≢ Amiss }
    ensures value { IfOk result (λ v. range_of (out-Value first.now) (out-Value last.now) (out-Value by.now) view.now ≡ Gives v view.now) }
    ensures fails { IfErr result (λ failure. IsFailure failure (range_of (out-Value first.now) (out-Value last.now) (out-Value by.now) view.now)) }
{
    Ok(ranged(alloc, int_in(first), int_in(last), int_in(by), view)?)
}
