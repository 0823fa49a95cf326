//! Expressions, targets and items, with these surroundings and variables. What is asked for is never
//! amiss.

ghost use Rattle.std.specs.Prelude.{◌≡◌, ◌≢◌, map, Err, IfOk, IfErr};
ghost use Rattle.chi_core.specs.Answer.{Gives, Amiss, in_turn};
ghost use Rattle.chi_core.specs.Spots.{spot_of};
ghost use Rattle.chi_core_frame.specs.Spots.{spot_in};
ghost use Rattle.chi_core_frame.specs.Stops.{Stops};
ghost use Rattle.chi_plain_eval.specs.Surroundings.{value_in, constant_in};
ghost use Rattle.chi_plain_eval.specs.Terms.{act_first, came_to};

use crate::calls::{CONSTANT, OUTSIDE};
use crate::expressions::{eval, eval_all};
use crate::here::Here;
use crate::items;
use crate::places::path_of;
use crate::surroundings::Surroundings;
use chi_core::{CExpr, CTarget, View};
use chi_core_frame::{Spot, Stop, Term, Variables};
use chi_value::Value;
use std::alloc::Global;

/// The value of an expression.
#[tactic(auto, unfolding(crate::specs::Calls::run_of))]
pub fn value_of(
    alloc: Global,
    surroundings: &Surroundings<'_>,
    variables: &Variables,
    e: &CExpr,
    view: &mut View,
) -> Result<Value, Stop>
    requires { value_in surroundings.now variables.now e.now view.old ≢ Amiss }
    ensures value { IfOk result (λ v. value_in surroundings.now variables.now e.now view.old ≡ Gives v view.new) }
    ensures stops { IfErr result (λ stop. Stops stop (value_in surroundings.now variables.now e.now view.old)) }
{
    let here = Here {
        alloc,
        surroundings,
        room: OUTSIDE,
    };
    Ok(eval(e, &here, variables, view)?)
}

/// The values of expressions, from left to right.
#[tactic(auto, unfolding(crate::specs::Calls::run_of))]
pub fn values_of(
    alloc: Global,
    surroundings: &Surroundings<'_>,
    variables: &Variables,
    es: &[CExpr],
    view: &mut View,
) -> Result<Vec<Value>, Stop>
    requires { in_turn (map (value_in surroundings.now variables.now) es.now) view.old ≢ Amiss }
    ensures values { IfOk result (λ vs. in_turn (map (value_in surroundings.now variables.now) es.now) view.old ≡ Gives vs.items view.new) }
    ensures stops { IfErr result (λ stop. Stops stop (in_turn (map (value_in surroundings.now variables.now) es.now) view.old)) }
{
    let here = Here {
        alloc,
        surroundings,
        room: OUTSIDE,
    };
    Ok(eval_all(es, &here, variables, view)?)
}

/// The value of a constant's expression, which calls no function.
#[tactic(auto, unfolding(crate::specs::Calls::run_of))]
pub fn constant_value(
    alloc: Global,
    surroundings: &Surroundings<'_>,
    e: &CExpr,
    view: &mut View,
) -> Result<Value, Stop>
    requires { constant_in surroundings.now e.now view.old ≢ Amiss }
    ensures value { IfOk result (λ v. constant_in surroundings.now e.now view.old ≡ Gives v view.new) }
    ensures stops { IfErr result (λ stop. Stops stop (constant_in surroundings.now e.now view.old)) }
{
    let variables = Variables::new(alloc, 0, Vec::new(alloc))?;
    let here = Here {
        alloc,
        surroundings,
        room: CONSTANT,
    };
    Ok(eval(e, &here, &variables, view)?)
}

/// The spot of a target: its indexes are evaluated from left to right.
#[tactic(auto, using(crate::proofs::Spotting::places, chi_core_frame::proofs::Stopping::stopping), unfolding(crate::specs::Calls::run_of))]
pub fn spot_of(
    alloc: Global,
    surroundings: &Surroundings<'_>,
    variables: &Variables,
    target: &CTarget,
    view: &mut View,
) -> Result<Spot, Stop>
    requires { spot_of (value_in surroundings.now variables.now) target.now view.old ≢ Amiss }
    ensures spot { IfOk result (λ spot. spot_of (value_in surroundings.now variables.now) target.now view.old ≡ Gives (spot_in spot) view.new) }
    ensures stops { IfErr result (λ stop. Stops stop (spot_of (value_in surroundings.now variables.now) target.now view.old)) }
{
    let steps = target.steps.as_slice();
    let here = Here {
        alloc,
        surroundings,
        room: OUTSIDE,
    };
    let path = path_of(steps, &here, variables, view)?;
    let slot = target.slot;
    Ok(Spot { slot, path })
}

/// Does the first item of a term, which is one that functions and processes share. Where a function
/// returns, its value is the answer. What costs too much leaves the variables and the term as they were.
#[tactic(auto, unfolding(crate::specs::Calls::run_of))]
pub fn act<'a>(
    alloc: Global,
    surroundings: &Surroundings<'_>,
    variables: &mut Variables,
    term: &mut Term<'a>,
    view: &mut View,
) -> Result<Option<Value>, Stop>
    requires { act_first (value_in surroundings.now variables.old) variables.old term.old view.old ≢ Amiss }
    ensures value { IfOk result (λ returned. act_first (value_in surroundings.now variables.old) variables.old term.old view.old ≡ Gives (came_to returned variables.new term.new) view.new) }
    ensures stops { IfErr result (λ stop. Stops stop (act_first (value_in surroundings.now variables.old) variables.old term.old view.old)) }
    ensures kept { result ≡ Err Stop.Spent → (variables.new ≡ variables.old) × (term.new ≡ term.old) }
{
    let here = Here {
        alloc,
        surroundings,
        room: OUTSIDE,
    };
    Ok(items::act(term, &here, variables, view)?)
}
