//! Values that are made: defaults and literals of their parts.

ghost use Rattle.std.specs.Prelude.{◌≡◌, ◌≢◌, ◌<◌, ◌≤◌, ℕ, pos, None, Some, IfNone, IfSome, IfOk, IfErr};
ghost use Rattle.chi_ops.specs.Operations.{build as built};
ghost use Rattle.chi_value.specs.declared.value.TheConstants.{MOST_ELEMENTS};
ghost use Rattle.chi_core.specs.Reading.{int_of};
ghost use Rattle.chi_core.specs.Answer.{Gives, Amiss};
ghost use Rattle.chi_core.specs.Containers.{done};
ghost use Rattle.chi_core.specs.Evaluation.{fresh};
ghost use Rattle.chi_core_apply.specs.Failures.{IsFailure};

use crate::failure::Failure;
use crate::reading::int_in;
use chi_core::View;
use chi_ops::build;
use chi_value::{Kind, MOST_ELEMENTS, Shape, Value, default_of};
use std::alloc::Global;

/// A fresh default: each channel in it is new.
pub fn fresh(alloc: Global, shape: &Shape, view: &mut View) -> Result<Value, Failure>
    ensures value { IfOk result (λ v. fresh shape.now view.old ≡ Gives v view.new) }
    ensures fails { IfErr result (λ failure. IsFailure failure (fresh shape.now view.old)) }
{
    let (value, channels) = default_of(alloc, shape, view.channels)?;
    view.channels = channels;
    Ok(value)
}

/// A literal of its parts, which uses nothing up.
#[tactic(auto, using(crate::proofs::Operations::operations))]
pub fn made_of(alloc: Global, kind: Kind, parts: Vec<Value>, view: &View) -> Result<Value, Failure>
    requires { done (built kind parts.items) view.now ≢ Amiss }
    ensures value { IfOk result (λ v. done (built kind parts.items) view.now ≡ Gives v view.now) }
    ensures fails { IfErr result (λ failure. IsFailure failure (done (built kind parts.items) view.now)) }
{
    Ok(build(alloc, kind, parts)?)
}

/// How many values a list of so many values has, where it may have that many.
#[tactic(auto, using(crate::proofs::Numbers::rounding))]
pub fn times_in(count: &Value) -> Option<u32>
    requires { int_of count.now ≢ None }
    ensures few { IfSome result (λ n. int_of count.now ≡ Some (pos n)) }
    ensures within { IfSome result (λ n. n ≤ MOST_ELEMENTS) }
    ensures many { IfNone result ((n : ℕ) → int_of count.now ≡ Some (pos n) → MOST_ELEMENTS < n) }
{
    let count = int_in(count);
    if count < 0 || count > MOST_ELEMENTS as i64 {
        None
    } else {
        Some(count as u32)
    }
}
