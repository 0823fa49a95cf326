//! Casts, and what values mean to a process: its time, its timers and the instances that it knows.

ghost use Rattle.std.specs.Prelude.{◌≡◌, ◌≢◌, ◌-ℤ◌, pos, IfOk, IfErr};
ghost use Rattle.std.specs.Int.{int_max};
ghost use Rattle.chi_num.specs.Results.{fitted};
ghost use Rattle.chi_core.specs.Answer.{Gives, Amiss};
ghost use Rattle.chi_core.specs.Arithmetic.{sign_of};
ghost use Rattle.chi_core.specs.Casts.{to_int, to_real, to_timer, is_ready, is_finished, has_finished, to_truth, truth_meant, to_text};
ghost use Rattle.chi_core_apply.specs.Failures.{IsFailure};
ghost use Rattle.chi_core_apply.specs.Scenery.{scene_of};

use crate::exact;
use crate::failure::Failure;
use crate::reading::{due_in, instance_in, real_in};
use crate::scenery::Scenery;
use chi_core::{FaultKind, View};
use chi_num::{NumFault, ReadFault, Real, read_int, read_real};
use chi_token::Bytes;
use chi_value::{MOST_ELEMENTS, TextFault, Value, text_of};
use std::alloc::Global;

/// An int of an int or of a text.
#[tactic(auto, using(crate::proofs::Casting::meanings, crate::proofs::Numbers::rounding))]
pub fn to_int(a: &Value, view: &View) -> Result<Value, Failure>
    requires { to_int a.now view.now ≢ Amiss }
    ensures value { IfOk result (λ v. to_int a.now view.now ≡ Gives v view.now) }
    ensures fails { IfErr result (λ failure. IsFailure failure (to_int a.now view.now)) }
{
    match a {
        Value::Int(x) => Ok(Value::Int(*x)),
        Value::Text(text) => match read_int(text.as_slice()) {
            Ok(z) => Ok(Value::Int(z)),
            Err(ReadFault::Form) => Err(Failure::Fault(FaultKind::BadText)),
            Err(ReadFault::Range) => Err(Failure::Fault(FaultKind::IntRange)),
        },
        Value::Bool(_)
        | Value::Real(_)
        | Value::Choice(_, _)
        | Value::TupleOf(_)
        | Value::ListOf(_)
        | Value::SetOf(_)
        | Value::DictOf(_)
        | Value::Chan(_)
        | Value::Dist(_)
        | Value::Timer(_)
        | Value::Inst(_) => unreachable!(),
    }
}

/// How long it is until a timer is due; nothing once it is.
#[tactic(auto, using(crate::proofs::Casting::times))]
fn time_left(due: i64, clock: i64) -> Result<i64, NumFault>
    ensures { result ≡ fitted (int_max (pos 0) (due -ℤ clock)) }
{
    if due <= clock {
        Ok(0)
    } else {
        exact::difference(due, clock)
    }
}

/// A real of a number, of a text, or of the time until a timer is due.
#[tactic(auto, using(crate::proofs::Casting::meanings, crate::proofs::Numbers::fitting, crate::proofs::Numbers::rounding))]
pub fn to_real(s: &Scenery<'_>, a: &Value, view: &View) -> Result<Value, Failure>
    requires { to_real (scene_of s.now) a.now view.now ≢ Amiss }
    ensures value { IfOk result (λ v. to_real (scene_of s.now) a.now view.now ≡ Gives v view.now) }
    ensures fails { IfErr result (λ failure. IsFailure failure (to_real (scene_of s.now) a.now view.now)) }
{
    match a {
        Value::Int(x) => match exact::wide(*x) {
            Ok(z) => Ok(Value::Real(z)),
            Err(_) => Err(Failure::Fault(FaultKind::RealRange)),
        },
        Value::Real(x) => Ok(Value::Real(Real::from_units(x.units()))),
        Value::Text(text) => match read_real(text.as_slice()) {
            Ok(z) => Ok(Value::Real(z)),
            Err(ReadFault::Form) => Err(Failure::Fault(FaultKind::BadText)),
            Err(ReadFault::Range) => Err(Failure::Fault(FaultKind::RealRange)),
        },
        Value::Timer(due) => match time_left(*due, s.clock) {
            Ok(z) => Ok(Value::Real(Real::from_units(z))),
            Err(_) => Err(Failure::Fault(FaultKind::RealRange)),
        },
        Value::Bool(_)
        | Value::Choice(_, _)
        | Value::TupleOf(_)
        | Value::ListOf(_)
        | Value::SetOf(_)
        | Value::DictOf(_)
        | Value::Chan(_)
        | Value::Dist(_)
        | Value::Inst(_) => unreachable!(),
    }
}

/// -1, 0 or 1, as a number is below 0, 0 or above it.
#[tactic(auto, using(crate::proofs::Casting::signs))]
pub fn sign_of(a: &Value, view: &View) -> Value
    requires { sign_of a.now view.now ≢ Amiss }
    ensures { sign_of a.now view.now ≡ Gives result view.now }
{
    match a {
        Value::Int(x) => Value::Int(x.signum()),
        Value::Real(x) => Value::Int(x.units().signum()),
        Value::Bool(_)
        | Value::Text(_)
        | Value::Choice(_, _)
        | Value::TupleOf(_)
        | Value::ListOf(_)
        | Value::SetOf(_)
        | Value::DictOf(_)
        | Value::Chan(_)
        | Value::Dist(_)
        | Value::Timer(_)
        | Value::Inst(_) => unreachable!(),
    }
}

/// A timer that is due so much after the clock.
#[tactic(auto, using(crate::proofs::Numbers::kinds, crate::proofs::Numbers::fitting))]
pub fn to_timer(s: &Scenery<'_>, a: &Value, view: &View) -> Result<Value, Failure>
    requires { to_timer (scene_of s.now) a.now view.now ≢ Amiss }
    ensures value { IfOk result (λ v. to_timer (scene_of s.now) a.now view.now ≡ Gives v view.now) }
    ensures fails { IfErr result (λ failure. IsFailure failure (to_timer (scene_of s.now) a.now view.now)) }
{
    match exact::sum(s.clock, real_in(a).units()) {
        Ok(z) => Ok(Value::Timer(z)),
        Err(_) => Err(Failure::Fault(FaultKind::RealRange)),
    }
}

/// Whether a timer is due.
#[tactic(auto, using(crate::proofs::Casting::knowing))]
pub fn is_ready(s: &Scenery<'_>, a: &Value, view: &View) -> Value
    requires { is_ready (scene_of s.now) a.now view.now ≢ Amiss }
    ensures { is_ready (scene_of s.now) a.now view.now ≡ Gives result view.now }
{
    Value::Bool(due_in(a) <= s.clock)
}

/// Whether an instance is finished; of no instance, true.
#[tactic(auto, using(crate::proofs::Casting::finishing))]
pub fn is_finished(s: &Scenery<'_>, a: &Value, view: &View) -> Value
    requires { is_finished (scene_of s.now) a.now view.now ≢ Amiss }
    ensures { is_finished (scene_of s.now) a.now view.now ≡ Gives result view.now }
{
    has_finished(s, instance_in(a), view)
}

fn has_finished(s: &Scenery<'_>, number: Option<u32>, view: &View) -> Value
    requires { has_finished (scene_of s.now) number view.now ≢ Amiss }
    ensures { has_finished (scene_of s.now) number view.now ≡ Gives result view.now }
{
    match number {
        None => Value::Bool(true),
        Some(p) => match s.finished.get(p as usize) {
            Some(finished) => Value::Bool(*finished),
            None => Value::Bool(false),
        },
    }
}

/// A truth value of a truth value or of its text.
#[tactic(auto, using(crate::proofs::Casting::meanings))]
pub fn to_truth(a: &Value, view: &View) -> Result<Value, Failure>
    requires { to_truth a.now view.now ≢ Amiss }
    ensures value { IfOk result (λ v. to_truth a.now view.now ≡ Gives v view.now) }
    ensures fails { IfErr result (λ failure. IsFailure failure (to_truth a.now view.now)) }
{
    match a {
        Value::Bool(x) => Ok(Value::Bool(*x)),
        Value::Text(text) => Ok(truth_meant(text.as_slice(), view)?),
        Value::Int(_)
        | Value::Real(_)
        | Value::Choice(_, _)
        | Value::TupleOf(_)
        | Value::ListOf(_)
        | Value::SetOf(_)
        | Value::DictOf(_)
        | Value::Chan(_)
        | Value::Dist(_)
        | Value::Timer(_)
        | Value::Inst(_) => unreachable!(),
    }
}

fn truth_meant(text: &[u8], view: &View) -> Result<Value, Failure>
    ensures value { IfOk result (λ v. truth_meant text.now view.now ≡ Gives v view.now) }
    ensures fails { IfErr result (λ failure. IsFailure failure (truth_meant text.now view.now)) }
{
    if text == b"true".as_slice() {
        Ok(Value::Bool(true))
    } else if text == b"false".as_slice() {
        Ok(Value::Bool(false))
    } else {
        Err(Failure::Fault(FaultKind::BadText))
    }
}

/// The text of a plain value.
#[tactic(auto, using(crate::proofs::Texting::texts))]
pub fn to_text(alloc: Global, s: &Scenery<'_>, a: &Value, view: &View) -> Result<Value, Failure>
    requires { to_text (scene_of s.now) a.now view.now ≢ Amiss }
    ensures value { IfOk result (λ v. to_text (scene_of s.now) a.now view.now ≡ Gives v view.now) }
    ensures fails { IfErr result (λ failure. IsFailure failure (to_text (scene_of s.now) a.now view.now)) }
{
    let mut text = Vec::new(alloc);
    match text_of(alloc, a, s.names, &mut text) {
        Ok(()) => {
            if text.len() > MOST_ELEMENTS {
                return Err(Failure::Fault(FaultKind::TooLarge));
            }
            Ok(Value::Text(Bytes::copy_of(alloc, text.as_slice())?))
        }
        Err(TextFault::Limit) => Err(Failure::Fault(FaultKind::TooLarge)),
        Err(TextFault::NoMemory) => Err(Failure::NoMemory),
    }
}
