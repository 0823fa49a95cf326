//! Expressions and targets of statements.

#![tactic(auto, using(chi_check_types::proofs::Firsts::first_of_none, chi_check_types::proofs::Firsts::first_of_append))]

ghost use Rattle.std.specs.Prelude.{◌≡◌, map, option_map, IfOk, OnOk};
ghost use Rattle.chi_tree.specs.declared.expr.Postfix.{out-Postfix};
ghost use Rattle.chi_check_types.specs.Faults.{first_of};
ghost use Rattle.chi_check_stat_lines.specs.Stated as stated;
ghost use Rattle.chi_check_stat_lines.specs.Values as spec;

use crate::lists::one;
use chi_base::{Items, NoMemory};
use chi_check_expr::type_in;
use chi_check_expr_rules::one_more;
use chi_check_stat_rules::{Aim, Home, expr_place, site_of};
use chi_check_types::{Fault, Made, Scope, note, rules};
use chi_core::{CExpr, CStat, CTarget};
use chi_token::Place;
use chi_tree::{Expr, Postfix, Target};
use std::alloc::Global;

/// A value, where it stands in a body.
pub fn value_in(
    alloc: Global,
    home: &Home,
    scope: &Scope,
    e: &Expr,
    kept: &mut Option<Fault>,
) -> Result<Option<Made>, NoMemory>
    ensures made { IfOk result (λ m. m ≡ (spec.value_in home.now scope.now e.now).made) }
    ensures noted { OnOk result (kept.new ≡ first_of kept.old (spec.value_in home.now scope.now e.now).faults) }
{
    type_in(alloc, e, scope, site_of(home), kept)
}

/// A value that may be left out.
pub(crate) fn some_value_in(
    alloc: Global,
    home: &Home,
    scope: &Scope,
    e: &Option<Expr>,
    kept: &mut Option<Fault>,
) -> Result<Option<Option<Made>>, NoMemory>
    ensures made { IfOk result (λ m. m ≡ spec.made_if (option_map (spec.value_in home.now scope.now) e.now)) }
    ensures noted { OnOk result (kept.new ≡ first_of kept.old (spec.faults_if (option_map (spec.value_in home.now scope.now) e.now))) }
{
    match e {
        None => Ok(None),
        Some(e) => Ok(Some(value_in(alloc, home, scope, e, kept)?)),
    }
}

/// Values in order, each with a type or without.
pub fn values_in(
    alloc: Global,
    home: &Home,
    scope: &Scope,
    es: &[Expr],
    kept: &mut Option<Fault>,
) -> Result<Items<Option<Made>>, NoMemory>
    ensures made { IfOk result (λ ms. ms ≡ map spec.made_of (spec.values_in home.now scope.now es.now)) }
    ensures noted { OnOk result (kept.new ≡ first_of kept.old (spec.all_faults (spec.values_in home.now scope.now es.now))) }
{
    let mut all = Vec::new(alloc);
    for e in es {
        let made = value_in(alloc, home, scope, e, kept)?;
        all.push(made)?;
    }
    Ok(Items::of(alloc, all)?)
}

/// The condition of a guard, a branch or a loop.
pub fn test_in(
    alloc: Global,
    home: &Home,
    scope: &Scope,
    e: &Expr,
    kept: &mut Option<Fault>,
) -> Result<Option<CExpr>, NoMemory>
    ensures made { IfOk result (λ m. m ≡ (spec.test_in home.now scope.now e.now).made) }
    ensures noted { OnOk result (kept.new ≡ first_of kept.old (spec.test_in home.now scope.now e.now).faults) }
{
    let made = value_in(alloc, home, scope, e, kept)?;
    Ok(chi_check_stat_rules::condition(expr_place(e), made, kept))
}

/// The guard of an alternative, which may be left out.
pub fn guard_in(
    alloc: Global,
    home: &Home,
    scope: &Scope,
    guard: &Option<Expr>,
    kept: &mut Option<Fault>,
) -> Result<Option<Option<CExpr>>, NoMemory>
    ensures made { IfOk result (λ m. m ≡ (spec.guard_in home.now scope.now guard.now).made) }
    ensures noted { OnOk result (kept.new ≡ first_of kept.old (spec.guard_in home.now scope.now guard.now).faults) }
{
    match guard {
        None => Ok(Some(None)),
        Some(guard) => match test_in(alloc, home, scope, guard, kept)? {
            None => Ok(None),
            Some(test) => Ok(Some(Some(test))),
        },
    }
}

fn instance_in(
    alloc: Global,
    home: &Home,
    scope: &Scope,
    e: &Expr,
    kept: &mut Option<Fault>,
) -> Result<Option<CExpr>, NoMemory>
    ensures made { IfOk result (λ m. m ≡ (spec.instance_in home.now scope.now e.now).made) }
    ensures noted { OnOk result (kept.new ≡ first_of kept.old (spec.instance_in home.now scope.now e.now).faults) }
{
    let made = value_in(alloc, home, scope, e, kept)?;
    Ok(chi_check_stat_rules::finished_one(expr_place(e), made, kept))
}

fn with_last(
    alloc: Global,
    all: Option<Items<CExpr>>,
    e: Option<CExpr>,
) -> Result<Option<Items<CExpr>>, NoMemory>
    ensures { IfOk result (λ es. es ≡ spec.with_last all e) }
{
    let Some(all) = all else {
        drop(e);
        return Ok(None);
    };
    let Some(e) = e else {
        drop(all);
        return Ok(None);
    };
    Ok(Some(one_more(alloc, all, e)?))
}

#[tactic(auto, using(chi_check_types::proofs::Firsts::first_of_none, chi_check_types::proofs::Firsts::first_of_append, crate::proofs::Turns::joined_more, crate::proofs::Turns::joined_end, crate::proofs::Parts::grown_by))]
pub(crate) fn instances_in(
    alloc: Global,
    home: &Home,
    scope: &Scope,
    es: &[Expr],
    kept: &mut Option<Fault>,
) -> Result<Option<Items<CExpr>>, NoMemory>
    ensures made { IfOk result (λ m. m ≡ (spec.all_of (map (spec.instance_in home.now scope.now) es.now)).made) }
    ensures noted { OnOk result (kept.new ≡ first_of kept.old (spec.all_of (map (spec.instance_in home.now scope.now) es.now)).faults) }
{
    let mut all = Some(Items::of(alloc, Vec::new(alloc))?);
    for e in es {
        let made = instance_in(alloc, home, scope, e, kept)?;
        all = with_last(alloc, all, made)?;
    }
    Ok(all)
}

#[tactic(auto, using(chi_check_types::proofs::Firsts::first_of_none, chi_check_types::proofs::Firsts::first_of_append, crate::proofs::Parts::noted_index))]
fn step_in(
    alloc: Global,
    home: &Home,
    scope: &Scope,
    name: Place,
    aim: Option<Aim>,
    step: &Postfix,
    kept: &mut Option<Fault>,
) -> Result<Option<Aim>, NoMemory>
    ensures made { IfOk result (λ a. a ≡ (spec.step_in home.now scope.now name aim (out-Postfix step.now)).made) }
    ensures noted { OnOk result (kept.new ≡ first_of kept.old (spec.step_in home.now scope.now name aim (out-Postfix step.now)).faults) }
{
    match step {
        Postfix::Index { place, index } => {
            match value_in(alloc, home, scope, index.get(), kept) {
                Ok(index) => {
                    chi_check_stat_targets::index_step(alloc, name, *place, aim, index, kept)
                }
                Err(refusal) => {
                    drop(aim);
                    Err(refusal)
                }
            }
        }
        Postfix::Slice { place, .. } => {
            drop(aim);
            note(kept, rules::INDEX, *place);
            Ok(None)
        }
        Postfix::Field(field) => chi_check_stat_targets::field_step(alloc, field, aim, kept),
    }
}

fn steps_in(
    alloc: Global,
    home: &Home,
    scope: &Scope,
    name: Place,
    aim: Option<Aim>,
    steps: &[Postfix],
    kept: &mut Option<Fault>,
) -> Result<Option<Aim>, NoMemory>
    ensures made { IfOk result (λ a. a ≡ (spec.steps_in home.now scope.now name aim steps.now).made) }
    ensures noted { OnOk result (kept.new ≡ first_of kept.old (spec.steps_in home.now scope.now name aim steps.now).faults) }
{
    let mut part = aim;
    for step in steps {
        part = step_in(alloc, home, scope, name, part, step, kept)?;
    }
    Ok(part)
}

/// A target: its name, and the steps into its parts.
pub fn target_in(
    alloc: Global,
    home: &Home,
    scope: &Scope,
    target: &Target,
    kept: &mut Option<Fault>,
) -> Result<Option<Aim>, NoMemory>
    ensures made { IfOk result (λ a. a ≡ (spec.target_in home.now scope.now target.now).made) }
    ensures noted { OnOk result (kept.new ≡ first_of kept.old (spec.target_in home.now scope.now target.now).faults) }
{
    let place = target.name.place;
    let named = chi_check_stat_targets::named_target(alloc, scope, &target.name, kept)?;
    steps_in(
        alloc,
        home,
        scope,
        place,
        named,
        target.steps.as_slice(),
        kept,
    )
}

fn targets_in(
    alloc: Global,
    home: &Home,
    scope: &Scope,
    targets: &[Target],
    kept: &mut Option<Fault>,
) -> Result<Items<Option<Aim>>, NoMemory>
    ensures made { IfOk result (λ ms. ms ≡ map spec.made_of (map (spec.target_in home.now scope.now) targets.now)) }
    ensures noted { OnOk result (kept.new ≡ first_of kept.old (spec.all_faults (map (spec.target_in home.now scope.now) targets.now))) }
{
    let mut all = Vec::new(alloc);
    for target in targets {
        let made = target_in(alloc, home, scope, target, kept)?;
        all.push(made)?;
    }
    Ok(Items::of(alloc, all)?)
}

fn assignment_place(targets: &[Target], equals: Place) -> Place
    ensures { result ≡ spec.assignment_place targets.now equals }
{
    match targets.first() {
        None => equals,
        Some(target) => target.name.place,
    }
}

/// An assignment, whose `=` stands at the place.
pub fn assignment_in(
    alloc: Global,
    home: &Home,
    scope: &Scope,
    targets: &[Target],
    equals: Place,
    values: &[Expr],
    kept: &mut Option<Fault>,
) -> Result<Option<Items<CStat>>, NoMemory>
    ensures made { IfOk result (λ s. s ≡ stated.one (spec.assignment_in home.now scope.now targets.now equals values.now).made) }
    ensures noted { OnOk result (kept.new ≡ first_of kept.old (spec.assignment_in home.now scope.now targets.now equals values.now).faults) }
{
    let line = assignment_place(targets, equals).line;
    let aims = targets_in(alloc, home, scope, targets, kept)?;
    let values = values_in(alloc, home, scope, values, kept)?;
    let made = chi_check_stat_targets::assigned(alloc, line, equals, aims, values, kept)?;
    one(alloc, made)
}

/// Where a new instance goes.
pub(crate) fn goal_in(
    alloc: Global,
    home: &Home,
    scope: &Scope,
    target: &Option<Target>,
    kept: &mut Option<Fault>,
) -> Result<Option<Option<CTarget>>, NoMemory>
    ensures made { IfOk result (λ t. t ≡ spec.made_if (option_map (spec.goal_in home.now scope.now) target.now)) }
    ensures noted { OnOk result (kept.new ≡ first_of kept.old (spec.faults_if (option_map (spec.goal_in home.now scope.now) target.now))) }
{
    let Some(target) = target else {
        return Ok(None);
    };
    let aim = target_in(alloc, home, scope, target, kept)?;
    Ok(Some(chi_check_stat_targets::instance_target(target.name.place, aim, kept)))
}
