//! Distributions, each with the stream from which it is drawn, and draws from them.

ghost use Rattle.std.specs.Prelude.{◌≡◌, ◌≢◌, None, Some, IfOk, IfErr};
ghost use Rattle.chi_value.specs.declared.value.Value.{out-Value};
ghost use Rattle.chi_core.specs.Answer.{Gives, Amiss};
ghost use Rattle.chi_core.specs.Distributions.{constant_of, distribution, stream_in, uniform_in, bernoulli_in, binomial_in, exponential_in, uniform_of, bernoulli_of, binomial_of, exponential_of, value_drawn, after_drawing, sample_of};
ghost use Rattle.chi_dist.specs.Draws.{sampled};
ghost use Rattle.chi_core_apply.specs.Failures.{IsFailure};
ghost use Rattle.chi_core_apply.specs.Scenery.{scene_of};

use crate::failure::Failure;
use crate::making::times_in;
use crate::reading::{int_in, real_in};
use crate::scenery::Scenery;
use chi_base::{Boxed, NoMemory};
use chi_core::{FaultKind, View};
use chi_dist::{Drawn, sample_after};
use chi_num::Dist;
use chi_value::Value;
use std::alloc::Global;

/// The distribution that always gives this value.
pub fn constant_of(alloc: Global, a: &Value, view: &View) -> Result<Value, NoMemory>
    requires { constant_of a.now view.now ≢ Amiss }
    ensures { IfOk result (λ v. constant_of a.now view.now ≡ Gives v view.now) }
{
    match a {
        Value::Bool(x) => Ok(Value::Dist(Boxed::new(alloc, Dist::ConstBool(*x))?)),
        Value::Int(x) => Ok(Value::Dist(Boxed::new(alloc, Dist::ConstInt(*x))?)),
        Value::Real(x) => Ok(Value::Dist(Boxed::new(alloc, Dist::ConstReal(*x))?)),
        Value::Text(_)
        | Value::Choice(_, _)
        | Value::TupleOf(_)
        | Value::ListOf(_)
        | Value::SetOf(_)
        | Value::DictOf(_)
        | Value::Chan(_)
        | Value::Dist(_)
        | Value::Timer(_)
        | Value::Inst(_) => unreachable!(),
    }
}

/// The stream that an operand names.
#[tactic(auto, using(crate::proofs::Drawing::streams))]
fn stream_in(stream: &Value) -> u32
    requires { stream_in (out-Value stream.now) ≢ None }
    ensures { stream_in (out-Value stream.now) ≡ Some result }
{
    match times_in(stream) {
        Some(number) => number,
        None => unreachable!(),
    }
}

#[tactic(auto, using(crate::proofs::Drawing::uniforms))]
fn uniform_from(
    alloc: Global,
    a: &Value,
    b: &Value,
    stream: u32,
    view: &View,
) -> Result<Value, NoMemory>
    requires { distribution (uniform_in (out-Value a.now) (out-Value b.now) stream) view.now ≢ Amiss }
    ensures { IfOk result (λ v. distribution (uniform_in (out-Value a.now) (out-Value b.now) stream) view.now ≡ Gives v view.now) }
{
    match a {
        Value::Int(from) => {
            let dist = Dist::UniformInt(*from, int_in(b), stream);
            Ok(Value::Dist(Boxed::new(alloc, dist)?))
        }
        Value::Real(from) => {
            let dist = Dist::UniformReal(*from, real_in(b), stream);
            Ok(Value::Dist(Boxed::new(alloc, dist)?))
        }
        Value::Bool(_)
        | Value::Text(_)
        | Value::Choice(_, _)
        | Value::TupleOf(_)
        | Value::ListOf(_)
        | Value::SetOf(_)
        | Value::DictOf(_)
        | Value::Chan(_)
        | Value::Dist(_)
        | Value::Timer(_)
        | Value::Inst(_) => unreachable!(),
    }
}

/// The numbers from one to before another, each as likely as the others.
#[tactic(auto, using(crate::proofs::Drawing::by_streams))]
pub fn uniform_of(
    alloc: Global,
    a: &Value,
    b: &Value,
    stream: &Value,
    view: &View,
) -> Result<Value, NoMemory>
    requires { uniform_of a.now b.now stream.now view.now ≢ Amiss }
    ensures { IfOk result (λ v. uniform_of a.now b.now stream.now view.now ≡ Gives v view.now) }
{
    uniform_from(alloc, a, b, stream_in(stream), view)
}

#[tactic(auto, using(crate::proofs::Drawing::trials))]
fn bernoulli_from(
    alloc: Global,
    chance: &Value,
    stream: u32,
    view: &View,
) -> Result<Value, NoMemory>
    requires { distribution (bernoulli_in (out-Value chance.now) stream) view.now ≢ Amiss }
    ensures { IfOk result (λ v. distribution (bernoulli_in (out-Value chance.now) stream) view.now ≡ Gives v view.now) }
{
    let dist = Dist::Bernoulli(real_in(chance), stream);
    Ok(Value::Dist(Boxed::new(alloc, dist)?))
}

/// A trial that succeeds by a chance.
#[tactic(auto, using(crate::proofs::Drawing::by_streams))]
pub fn bernoulli_of(
    alloc: Global,
    chance: &Value,
    stream: &Value,
    view: &View,
) -> Result<Value, NoMemory>
    requires { bernoulli_of chance.now stream.now view.now ≢ Amiss }
    ensures { IfOk result (λ v. bernoulli_of chance.now stream.now view.now ≡ Gives v view.now) }
{
    bernoulli_from(alloc, chance, stream_in(stream), view)
}

#[tactic(auto, using(crate::proofs::Drawing::trials))]
fn binomial_from(
    alloc: Global,
    trials: &Value,
    chance: &Value,
    stream: u32,
    view: &View,
) -> Result<Value, NoMemory>
    requires { distribution (binomial_in (out-Value trials.now) (out-Value chance.now) stream) view.now ≢ Amiss }
    ensures { IfOk result (λ v. distribution (binomial_in (out-Value trials.now) (out-Value chance.now) stream) view.now ≡ Gives v view.now) }
{
    let dist = Dist::Binomial(int_in(trials), real_in(chance), stream);
    Ok(Value::Dist(Boxed::new(alloc, dist)?))
}

/// How many of so many trials succeed by a chance.
#[tactic(auto, using(crate::proofs::Drawing::by_streams))]
pub fn binomial_of(
    alloc: Global,
    trials: &Value,
    chance: &Value,
    stream: &Value,
    view: &View,
) -> Result<Value, NoMemory>
    requires { binomial_of trials.now chance.now stream.now view.now ≢ Amiss }
    ensures { IfOk result (λ v. binomial_of trials.now chance.now stream.now view.now ≡ Gives v view.now) }
{
    binomial_from(alloc, trials, chance, stream_in(stream), view)
}

#[tactic(auto, using(crate::proofs::Drawing::means))]
fn exponential_from(
    alloc: Global,
    mean: &Value,
    stream: u32,
    view: &View,
) -> Result<Value, NoMemory>
    requires { distribution (exponential_in (out-Value mean.now) stream) view.now ≢ Amiss }
    ensures { IfOk result (λ v. distribution (exponential_in (out-Value mean.now) stream) view.now ≡ Gives v view.now) }
{
    let dist = Dist::Exponential(real_in(mean), stream);
    Ok(Value::Dist(Boxed::new(alloc, dist)?))
}

/// A real with a mean, exponentially distributed.
#[tactic(auto, using(crate::proofs::Drawing::by_streams))]
pub fn exponential_of(
    alloc: Global,
    mean: &Value,
    stream: &Value,
    view: &View,
) -> Result<Value, NoMemory>
    requires { exponential_of mean.now stream.now view.now ≢ Amiss }
    ensures { IfOk result (λ v. exponential_of mean.now stream.now view.now ≡ Gives v view.now) }
{
    exponential_from(alloc, mean, stream_in(stream), view)
}

fn value_drawn(drawn: Drawn) -> Value
    ensures { result ≡ value_drawn drawn }
{
    match drawn {
        Drawn::Bool(x) => Value::Bool(x),
        Drawn::Int(x) => Value::Int(x),
        Drawn::Real(x) => Value::Real(x),
    }
}

/// What a distribution draws, where so many draws were taken from each stream of a seed.
#[tactic(auto, using(crate::proofs::Drawing::drawing))]
fn sample_from(seed: u64, dist: &Dist, view: &mut View) -> Result<Value, Failure>
    requires { after_drawing (sampled seed view.old.draws dist.now) view.old ≢ Amiss }
    ensures value { IfOk result (λ v. after_drawing (sampled seed view.old.draws dist.now) view.old ≡ Gives v view.new) }
    ensures fails { IfErr result (λ failure. IsFailure failure (after_drawing (sampled seed view.old.draws dist.now) view.old)) }
{
    match sample_after(seed, &mut view.draws, dist) {
        Ok(drawn) => Ok(value_drawn(drawn)),
        Err(_) => Err(Failure::Fault(FaultKind::BadDistribution)),
    }
}

/// What a distribution draws from its stream, where so many draws were taken from each.
pub fn sample_of(s: &Scenery<'_>, a: &Value, view: &mut View) -> Result<Value, Failure>
    requires { sample_of (scene_of s.now) a.now view.old ≢ Amiss }
    ensures value { IfOk result (λ v. sample_of (scene_of s.now) a.now view.old ≡ Gives v view.new) }
    ensures fails { IfErr result (λ failure. IsFailure failure (sample_of (scene_of s.now) a.now view.old)) }
{
    match a {
        Value::Dist(dist) => Ok(sample_from(s.seed, dist.get(), view)?),
        Value::Bool(_)
        | Value::Int(_)
        | Value::Real(_)
        | Value::Text(_)
        | Value::Choice(_, _)
        | Value::TupleOf(_)
        | Value::ListOf(_)
        | Value::SetOf(_)
        | Value::DictOf(_)
        | Value::Chan(_)
        | Value::Timer(_)
        | Value::Inst(_) => unreachable!(),
    }
}
