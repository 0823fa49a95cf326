//! Assignments. One of one value to one target may run a model.

#![tactic(auto, using(chi_check_types::proofs::Firsts::first_of_none, chi_check_types::proofs::Firsts::first_of_append))]

ghost use Rattle.std.specs.Prelude.{◌≡◌, option_map, IfOk, OnOk};
ghost use Rattle.chi_check_types.specs.Faults.{first_of};
ghost use Rattle.chi_check_types.specs.Typed.{after};
ghost use Rattle.chi_check_stat_rules.specs.ModelRuns as runs;
ghost use Rattle.chi_check_stat_lines.specs.Stated as stated;
ghost use Rattle.chi_check_experiments.specs.Experiments as spec;

use crate::blocks::all_lined;
use crate::calls::{Called, model_call, run_called};
use chi_base::{Items, NoMemory};
use chi_check_stat_lines::{assignment_in, one, target_in};
use chi_check_stat_rules::{Aim, Home, assigned_run};
use chi_check_types::{Fault, Scope};
use chi_core::XStat;
use chi_token::Place;
use chi_tree::{Expr, Target};
use std::alloc::Global;

/// The one target, and the call of a model that is the one value.
fn call_alone<'a>(
    alloc: Global,
    scope: &Scope,
    targets: &'a [Target],
    values: &'a [Expr],
) -> Result<Option<(&'a Target, Called<'a>)>, NoMemory>
    ensures { IfOk result (λ c. option_map (λ c. (c.0.now, spec.call_with c.1.name.now c.1.arguments.now c.1.model)) c ≡ spec.call_alone scope.now targets.now values.now) }
{
    let [target] = targets else {
        return Ok(None);
    };
    let [value] = values else {
        return Ok(None);
    };
    match model_call(alloc, scope, value)? {
        None => Ok(None),
        Some(called) => Ok(Some((target, called))),
    }
}

/// A run whose value is stored, where the `=` stands at the place.
fn stored(
    alloc: Global,
    scope: &Scope,
    line: u32,
    equals: Place,
    aim: Option<Aim>,
    called: Called<'_>,
    kept: &mut Option<Fault>,
) -> Result<Option<Items<XStat>>, NoMemory>
    ensures made { let r = spec.run_called scope.now (spec.call_with called.entry.name.now called.entry.arguments.now called.entry.model) in
        IfOk result (λ s. s ≡ stated.one (runs.assigned_run line equals aim r.made).made) }
    ensures noted { let r = spec.run_called scope.now (spec.call_with called.entry.name.now called.entry.arguments.now called.entry.model) in
        OnOk result (kept.new ≡ first_of (first_of kept.old r.faults) (runs.assigned_run line equals aim r.made).faults) }
{
    match run_called(alloc, scope, called, kept) {
        Ok(run) => one(alloc, assigned_run(line, equals, aim, run, kept)),
        Err(refusal) => {
            drop(aim);
            Err(refusal)
        }
    }
}

/// A run whose value goes to a target.
fn assign_run(
    alloc: Global,
    scope: &Scope,
    target: &Target,
    equals: Place,
    called: Called<'_>,
    kept: &mut Option<Fault>,
) -> Result<Option<Items<XStat>>, NoMemory>
    ensures made { IfOk result (λ s. s ≡ stated.one (spec.run_assigned scope.now equals target.now (spec.call_with called.entry.name.now called.entry.arguments.now called.entry.model)).made) }
    ensures noted { OnOk result (kept.new ≡ first_of kept.old (spec.run_assigned scope.now equals target.now (spec.call_with called.entry.name.now called.entry.arguments.now called.entry.model)).faults) }
{
    let line = target.name.place.line;
    match target_in(alloc, &Home::Experiment, scope, target, kept) {
        Ok(aim) => stored(alloc, scope, line, equals, aim, called, kept),
        Err(refusal) => {
            drop(called);
            Err(refusal)
        }
    }
}

/// An assignment, whose `=` stands at the place.
#[tactic(auto, using(chi_check_types::proofs::Firsts::first_of_none, chi_check_types::proofs::Firsts::first_of_append, crate::proofs::TrialFolds::one_lined))]
pub(crate) fn assign(
    alloc: Global,
    scope: &Scope,
    targets: &[Target],
    equals: Place,
    values: &[Expr],
    kept: &mut Option<Fault>,
) -> Result<Option<Items<XStat>>, NoMemory>
    ensures made { IfOk result (λ s. s ≡ stated.one (spec.assignment_tried scope.now targets.now equals values.now).made) }
    ensures noted { OnOk result (kept.new ≡ first_of kept.old (spec.assignment_tried scope.now targets.now equals values.now).faults) }
{
    match call_alone(alloc, scope, targets, values)? {
        Some((target, called)) => assign_run(alloc, scope, target, equals, called, kept),
        None => {
            let home = &Home::Experiment;
            let made = assignment_in(alloc, home, scope, targets, equals, values, kept)?;
            all_lined(alloc, made)
        }
    }
}
