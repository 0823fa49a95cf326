//! Literals of parts, and lists of so many values.

ghost use Rattle.std.specs.Prelude.{◌≡◌, ◌≢◌, IfOk, IfErr, map};
ghost use Rattle.chi_ops.specs.Operations.{build as built};
ghost use Rattle.chi_core.specs.Answer.{Gives, Amiss, in_turn, then_do, times};
ghost use Rattle.chi_core.specs.Containers.{done};
ghost use Rattle.chi_plain_eval.specs.Calls.{meaning};
ghost use Rattle.chi_plain_eval.specs.Kinds.{repeated_each};
ghost use Rattle.chi_core_frame.specs.Stops.{Stops};

use crate::expressions::{eval, eval_all};
use crate::here::Here;
use crate::reading::times_of;
use chi_core::{CExpr, FaultKind, View};
use chi_core_frame::{Stop, Variables, list_of, literal_of};
use chi_value::{Kind, Value};

/// A literal of its parts, which are evaluated from left to right.
#[cycle(eval)]
#[tactic(auto, using(chi_core_frame::proofs::Stopping::stopping, crate::proofs::Operating::gathering))]
pub fn build(
    parts: &[CExpr],
    here: &Here<'_>,
    kind: Kind,
    variables: &Variables,
    view: &mut View,
) -> Result<Value, Stop>
    requires { then_do (in_turn (map (meaning here.now variables.now) parts.now) view.old) (λ values. done (built kind values)) ≢ Amiss }
    ensures value { IfOk result (λ v. then_do (in_turn (map (meaning here.now variables.now) parts.now) view.old) (λ values. done (built kind values)) ≡ Gives v view.new) }
    ensures stops { IfErr result (λ stop. Stops stop (then_do (in_turn (map (meaning here.now variables.now) parts.now) view.old) (λ values. done (built kind values)))) }
{
    let values = eval_all(parts, here, variables, view)?;
    literal_of(here.alloc, kind, values, view)
}

/// A list of so many values, each evaluated anew.
#[cycle(eval)]
#[tactic(auto, using(crate::proofs::Repeating::repeats))]
pub fn repeat_each(
    count: &CExpr,
    here: &Here<'_>,
    each: &CExpr,
    variables: &Variables,
    view: &mut View,
) -> Result<Value, Stop>
    requires { repeated_each (meaning here.now variables.now) count.now each.now view.old ≢ Amiss }
    ensures value { IfOk result (λ v. repeated_each (meaning here.now variables.now) count.now each.now view.old ≡ Gives v view.new) }
    ensures stops { IfErr result (λ stop. Stops stop (repeated_each (meaning here.now variables.now) count.now each.now view.old)) }
{
    let n = eval(count, here, variables, view)?;
    match times_of(n) {
        Some(times) => {
            let values = repeat(each, here, times, variables, view)?;
            list_of(here.alloc, values)
        }
        None => Err(Stop::Fault(FaultKind::TooLarge)),
    }
}

/// So many values, each evaluated anew.
#[cycle(eval)]
#[tactic(auto, using(chi_core_frame::proofs::Stopping::stopping, crate::proofs::Repeating::repeating))]
fn repeat(
    each: &CExpr,
    here: &Here<'_>,
    count: u32,
    variables: &Variables,
    view: &mut View,
) -> Result<Vec<Value>, Stop>
    requires { times count (meaning here.now variables.now each.now) view.old ≢ Amiss }
    ensures values { IfOk result (λ vs. times count (meaning here.now variables.now each.now) view.old ≡ Gives vs.items view.new) }
    ensures stops { IfErr result (λ stop. Stops stop (times count (meaning here.now variables.now each.now) view.old)) }
{
    let mut values = Vec::new(here.alloc);
    for turn in 0..count {
        let value = eval(each, here, variables, view)?;
        values.push(value)?;
    }
    Ok(values)
}
