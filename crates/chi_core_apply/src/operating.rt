//! Operators, predefined names and casts: what each makes of the values of its operands.

ghost use Rattle.std.specs.Prelude.{◌≡◌, ◌≢◌, [], ◌∷◌, IfOk, IfErr};
ghost use Rattle.chi_core.specs.Answer.{Gives, Amiss};
ghost use Rattle.chi_core.specs.Operators.{applied};
ghost use Rattle.chi_core_apply.specs.Operands.{AreOperands};
ghost use Rattle.chi_core_apply.specs.Failures.{IsFailure};
ghost use Rattle.chi_core_apply.specs.Scenery.{scene_of};

use crate::arithmetic::{
    absolute, ceiled, divided, floored, nearest_to, negated, powered, quotient, remainder, widened,
};
use crate::casts::{is_finished, is_ready, sign_of, to_int, to_real, to_text, to_timer, to_truth};
use crate::comparing::{above, at_least, at_most, below, different, equal, opposite};
use crate::containers::{
    element_at, enumerated, is_empty, is_in, is_within, keys_in, looked_up, popped, popped_off,
    range_of, size_of, values_in, without,
};
use crate::distributions::{
    bernoulli_of, binomial_of, constant_of, exponential_of, sample_of, uniform_of,
};
use crate::failure::Failure;
use crate::least::best_of;
use crate::operands::{Operands, split_operands};
use crate::scenery::Scenery;
use crate::slicing::{sliced, sliced_off};
use crate::summing::{difference, product, sum, sum_on};
use chi_core::{OpName, View};
use chi_num::Real;
use chi_value::Value;
use std::alloc::Global;
use std::slice;

/// An operator without operands.
fn of_none(alloc: Global, s: &Scenery<'_>, name: OpName, view: &mut View) -> Result<Value, Failure>
    requires { applied (scene_of s.now) name ([]) view.old ≢ Amiss }
    ensures value { IfOk result (λ v. applied (scene_of s.now) name ([]) view.old ≡ Gives v view.new) }
    ensures fails { IfErr result (λ failure. IsFailure failure (applied (scene_of s.now) name ([]) view.old)) }
{
    match name {
        OpName::Time => Ok(Value::Real(Real::from_units(s.clock))),
        OpName::Not
        | OpName::Add
        | OpName::Sub
        | OpName::Mul
        | OpName::Divide
        | OpName::Div
        | OpName::Mod
        | OpName::Power
        | OpName::Neg
        | OpName::Equal
        | OpName::NotEqual
        | OpName::Less
        | OpName::AtMost
        | OpName::Greater
        | OpName::AtLeast
        | OpName::In
        | OpName::Subset
        | OpName::Sample
        | OpName::Index
        | OpName::Lookup
        | OpName::Slice(_, _, _)
        | OpName::Abs
        | OpName::Sign
        | OpName::Min
        | OpName::Max
        | OpName::Floor
        | OpName::Ceil
        | OpName::Round
        | OpName::Size
        | OpName::Empty
        | OpName::Pop
        | OpName::Del
        | OpName::Range
        | OpName::Enumerate
        | OpName::DictKeys
        | OpName::DictValues
        | OpName::Constant
        | OpName::Uniform
        | OpName::Bernoulli
        | OpName::Binomial
        | OpName::Exponential
        | OpName::Ready
        | OpName::Finished
        | OpName::Widen
        | OpName::ToInt
        | OpName::ToReal
        | OpName::ToText
        | OpName::ToBool
        | OpName::ToTimer => unreachable!(),
    }
}

/// An operator of one operand.
pub fn of_one(
    alloc: Global,
    s: &Scenery<'_>,
    name: OpName,
    a: &Value,
    view: &mut View,
) -> Result<Value, Failure>
    requires { applied (scene_of s.now) name (a.now ∷ []) view.old ≢ Amiss }
    ensures value { IfOk result (λ v. applied (scene_of s.now) name (a.now ∷ []) view.old ≡ Gives v view.new) }
    ensures fails { IfErr result (λ failure. IsFailure failure (applied (scene_of s.now) name (a.now ∷ []) view.old)) }
{
    match name {
        OpName::Not => Ok(opposite(a, view)),
        OpName::Neg => Ok(negated(a, view)?),
        OpName::Abs => Ok(absolute(a, view)?),
        OpName::Floor => Ok(floored(a, view)?),
        OpName::Ceil => Ok(ceiled(a, view)?),
        OpName::Round => Ok(nearest_to(a, view)?),
        OpName::Size => Ok(size_of(a, view)),
        OpName::Empty => Ok(is_empty(a, view)),
        OpName::Pop => Ok(popped(alloc, a, view)?),
        OpName::Enumerate => Ok(enumerated(alloc, a, view)?),
        OpName::DictKeys => Ok(keys_in(alloc, a, view)?),
        OpName::DictValues => Ok(values_in(alloc, a, view)?),
        OpName::Widen => Ok(widened(a, view)?),
        OpName::Sample => Ok(sample_of(s, a, view)?),
        OpName::Slice(first, last, by) => Ok(sliced(alloc, (first, last, by), a, &[], view)?),
        OpName::Sign => Ok(sign_of(a, view)),
        OpName::Range => Ok(range_of(alloc, &Value::Int(0), a, &Value::Int(1), view)?),
        OpName::Constant => Ok(constant_of(alloc, a, view)?),
        OpName::Ready => Ok(is_ready(s, a, view)),
        OpName::Finished => Ok(is_finished(s, a, view)),
        OpName::ToInt => Ok(to_int(a, view)?),
        OpName::ToReal => Ok(to_real(s, a, view)?),
        OpName::ToText => Ok(to_text(alloc, s, a, view)?),
        OpName::ToBool => Ok(to_truth(a, view)?),
        OpName::ToTimer => Ok(to_timer(s, a, view)?),
        OpName::Add
        | OpName::Sub
        | OpName::Mul
        | OpName::Divide
        | OpName::Div
        | OpName::Mod
        | OpName::Power
        | OpName::Equal
        | OpName::NotEqual
        | OpName::Less
        | OpName::AtMost
        | OpName::Greater
        | OpName::AtLeast
        | OpName::In
        | OpName::Subset
        | OpName::Index
        | OpName::Lookup
        | OpName::Min
        | OpName::Max
        | OpName::Del
        | OpName::Uniform
        | OpName::Bernoulli
        | OpName::Binomial
        | OpName::Exponential
        | OpName::Time => unreachable!(),
    }
}

/// An operator of two operands.
pub fn of_two(
    alloc: Global,
    s: &Scenery<'_>,
    name: OpName,
    a: &Value,
    b: &Value,
    view: &mut View,
) -> Result<Value, Failure>
    requires { applied (scene_of s.now) name (a.now ∷ b.now ∷ []) view.old ≢ Amiss }
    ensures value { IfOk result (λ v. applied (scene_of s.now) name (a.now ∷ b.now ∷ []) view.old ≡ Gives v view.new) }
    ensures fails { IfErr result (λ failure. IsFailure failure (applied (scene_of s.now) name (a.now ∷ b.now ∷ []) view.old)) }
{
    match name {
        OpName::Divide => Ok(quotient(a, b, view)?),
        OpName::Div => Ok(divided(a, b, view)?),
        OpName::Mod => Ok(remainder(a, b, view)?),
        OpName::Power => Ok(powered(a, b, view)?),
        OpName::Equal => Ok(equal(a, b, view)),
        OpName::NotEqual => Ok(different(a, b, view)),
        OpName::Less => Ok(below(a, b, view)),
        OpName::AtMost => Ok(at_most(a, b, view)),
        OpName::Greater => Ok(above(a, b, view)),
        OpName::AtLeast => Ok(at_least(a, b, view)),
        OpName::In => Ok(is_in(b, a, view)),
        OpName::Subset => Ok(is_within(a, b, view)),
        OpName::Index => Ok(element_at(alloc, a, b, view)?),
        OpName::Lookup => Ok(looked_up(alloc, a, b, view)?),
        OpName::Del => Ok(without(alloc, a, b, view)?),
        OpName::Add => Ok(sum(alloc, a, b, view)?),
        OpName::Sub => Ok(difference(alloc, a, b, view)?),
        OpName::Mul => Ok(product(alloc, a, b, view)?),
        OpName::Min => Ok(best_of(false, a, b, &[], view)),
        OpName::Max => Ok(best_of(true, a, b, &[], view)),
        OpName::Range => Ok(range_of(alloc, a, b, &Value::Int(1), view)?),
        OpName::Bernoulli => Ok(bernoulli_of(alloc, a, b, view)?),
        OpName::Exponential => Ok(exponential_of(alloc, a, b, view)?),
        OpName::Slice(first, last, by) => {
            let bounds = slice::from_ref(b);
            Ok(sliced(alloc, (first, last, by), a, bounds, view)?)
        }
        OpName::Not
        | OpName::Neg
        | OpName::Sample
        | OpName::Abs
        | OpName::Sign
        | OpName::Floor
        | OpName::Ceil
        | OpName::Round
        | OpName::Size
        | OpName::Empty
        | OpName::Pop
        | OpName::Enumerate
        | OpName::DictKeys
        | OpName::DictValues
        | OpName::Constant
        | OpName::Uniform
        | OpName::Binomial
        | OpName::Ready
        | OpName::Finished
        | OpName::Time
        | OpName::Widen
        | OpName::ToInt
        | OpName::ToReal
        | OpName::ToText
        | OpName::ToBool
        | OpName::ToTimer => unreachable!(),
    }
}

/// An operator of three or more operands.
#[tactic(auto, using(crate::proofs::Ranges::many, crate::proofs::Lists::more))]
fn of_more(
    alloc: Global,
    s: &Scenery<'_>,
    name: OpName,
    a: &Value,
    b: &Value,
    c: &Value,
    others: &[Value],
    values: &[Value],
    view: &mut View,
) -> Result<Value, Failure>
    requires all { values.now ≡ a.now ∷ b.now ∷ c.now ∷ others.now }
    requires there { applied (scene_of s.now) name (a.now ∷ b.now ∷ c.now ∷ others.now) view.old ≢ Amiss }
    ensures value { IfOk result (λ v. applied (scene_of s.now) name (a.now ∷ b.now ∷ c.now ∷ others.now) view.old ≡ Gives v view.new) }
    ensures fails { IfErr result (λ failure. IsFailure failure (applied (scene_of s.now) name (a.now ∷ b.now ∷ c.now ∷ others.now) view.old)) }
{
    match name {
        OpName::Min => Ok(best_of(false, a, b, &values[2..], view)),
        OpName::Max => Ok(best_of(true, a, b, &values[2..], view)),
        OpName::Range => {
            if others.is_empty() {
                Ok(range_of(alloc, a, b, c, view)?)
            } else {
                unreachable!()
            }
        }
        OpName::Uniform => {
            if others.is_empty() {
                Ok(uniform_of(alloc, a, b, c, view)?)
            } else {
                unreachable!()
            }
        }
        OpName::Binomial => {
            if others.is_empty() {
                Ok(binomial_of(alloc, a, b, c, view)?)
            } else {
                unreachable!()
            }
        }
        OpName::Slice(first, last, by) => {
            let bounds = &values[1..];
            Ok(sliced(alloc, (first, last, by), a, bounds, view)?)
        }
        OpName::Not
        | OpName::Add
        | OpName::Sub
        | OpName::Mul
        | OpName::Divide
        | OpName::Div
        | OpName::Mod
        | OpName::Power
        | OpName::Neg
        | OpName::Equal
        | OpName::NotEqual
        | OpName::Less
        | OpName::AtMost
        | OpName::Greater
        | OpName::AtLeast
        | OpName::In
        | OpName::Subset
        | OpName::Sample
        | OpName::Index
        | OpName::Lookup
        | OpName::Abs
        | OpName::Sign
        | OpName::Floor
        | OpName::Ceil
        | OpName::Round
        | OpName::Size
        | OpName::Empty
        | OpName::Pop
        | OpName::Del
        | OpName::Enumerate
        | OpName::DictKeys
        | OpName::DictValues
        | OpName::Constant
        | OpName::Bernoulli
        | OpName::Exponential
        | OpName::Ready
        | OpName::Finished
        | OpName::Time
        | OpName::Widen
        | OpName::ToInt
        | OpName::ToReal
        | OpName::ToText
        | OpName::ToBool
        | OpName::ToTimer => unreachable!(),
    }
}

/// What an operator makes of the values of its operands.
pub fn apply(
    alloc: Global,
    s: &Scenery<'_>,
    name: OpName,
    values: &[Value],
    view: &mut View,
) -> Result<Value, Failure>
    requires { applied (scene_of s.now) name values.now view.old ≢ Amiss }
    ensures value { IfOk result (λ v. applied (scene_of s.now) name values.now view.old ≡ Gives v view.new) }
    ensures fails { IfErr result (λ failure. IsFailure failure (applied (scene_of s.now) name values.now view.old)) }
{
    match split_operands(values) {
        Operands::None => Ok(of_none(alloc, s, name, view)?),
        Operands::One(a) => Ok(of_one(alloc, s, name, a, view)?),
        Operands::Two(a, b) => Ok(of_two(alloc, s, name, a, b, view)?),
        Operands::More(a, b, c, others) => {
            Ok(of_more(alloc, s, name, a, b, c, others, values, view)?)
        }
    }
}

/// As of_one, where the operand is used up.
pub fn of_one_used(
    alloc: Global,
    s: &Scenery<'_>,
    name: OpName,
    a: Value,
    view: &mut View,
) -> Result<Value, Failure>
    requires { applied (scene_of s.now) name (a ∷ []) view.old ≢ Amiss }
    ensures value { IfOk result (λ v. applied (scene_of s.now) name (a ∷ []) view.old ≡ Gives v view.new) }
    ensures fails { IfErr result (λ failure. IsFailure failure (applied (scene_of s.now) name (a ∷ []) view.old)) }
{
    match name {
        OpName::Pop => Ok(popped_off(alloc, a, view)?),
        OpName::Slice(first, last, by) => Ok(sliced_off(alloc, (first, last, by), a, &[], view)?),
        name => Ok(of_one(alloc, s, name, &a, view)?),
    }
}

/// As of_two, where the operands are used up.
pub fn of_two_used(
    alloc: Global,
    s: &Scenery<'_>,
    name: OpName,
    a: Value,
    b: Value,
    view: &mut View,
) -> Result<Value, Failure>
    requires { applied (scene_of s.now) name (a ∷ b ∷ []) view.old ≢ Amiss }
    ensures value { IfOk result (λ v. applied (scene_of s.now) name (a ∷ b ∷ []) view.old ≡ Gives v view.new) }
    ensures fails { IfErr result (λ failure. IsFailure failure (applied (scene_of s.now) name (a ∷ b ∷ []) view.old)) }
{
    match name {
        OpName::Add => Ok(sum_on(alloc, a, &b, view)?),
        OpName::Slice(first, last, by) => {
            let bounds = slice::from_ref(&b);
            Ok(sliced_off(alloc, (first, last, by), a, bounds, view)?)
        }
        name => Ok(of_two(alloc, s, name, &a, &b, view)?),
    }
}
