//! What of an item is evaluated, which is all of it that costs. Nothing is kept.

ghost use Rattle.std.specs.Prelude.{◌≡◌, ◌≢◌, IfErr, OnOk};
ghost use Rattle.chi_core.specs.declared.statement.CStat.{out-CStat};
ghost use Rattle.chi_core.specs.Answer.{Amiss, Gives, Spent, through};
ghost use Rattle.chi_core_frame.specs.Stops.{Stops};
ghost use Rattle.chi_core_frame.specs.Terms.{item_of};
ghost use Rattle.chi_plain_eval.specs.Surroundings.{value_in};
ghost use Rattle.chi_plain_open.specs.Acted.{acted};
ghost use Rattle.chi_plain_costs.specs.Tried.{tried_assignment, tried_expression, tried_item, tried_statement, tried_target, tried_tests};

use chi_core::{Branch, CExpr, CStat, CTarget, View};
use chi_core_frame::{Stop, Task, Variables};
use chi_plain_eval::{Surroundings, spot_of, truth_in, value_of, values_of};
use chi_plain_open::Instance;
use std::alloc::Global;

/// An expression.
#[tactic(auto, using(crate::proofs::Tries::expressions))]
fn try_expression(
    alloc: Global,
    scene: &Surroundings<'_>,
    variables: &Variables,
    e: &CExpr,
    view: &mut View,
) -> Result<(), Stop>
    requires { tried_expression (value_in scene.now variables.now) e.now view.old ≢ Amiss }
    ensures goes { OnOk result (tried_expression (value_in scene.now variables.now) e.now view.old ≡ Gives tt view.new) }
    ensures stops { IfErr result (λ stop. Stops stop (tried_expression (value_in scene.now variables.now) e.now view.old)) }
{
    let _ = value_of(alloc, scene, variables, e, view)?;
    Ok(())
}

/// The indexes of a target.
#[tactic(auto, using(crate::proofs::Tries::targets))]
fn try_target(
    alloc: Global,
    scene: &Surroundings<'_>,
    variables: &Variables,
    target: &CTarget,
    view: &mut View,
) -> Result<(), Stop>
    requires { tried_target (value_in scene.now variables.now) target.now tt view.old ≢ Amiss }
    ensures goes { OnOk result (tried_target (value_in scene.now variables.now) target.now tt view.old ≡ Gives tt view.new) }
    ensures stops { IfErr result (λ stop. Stops stop (tried_target (value_in scene.now variables.now) target.now tt view.old)) }
{
    let _ = spot_of(alloc, scene, variables, target, view)?;
    Ok(())
}

/// The indexes of targets, from left to right.
#[tactic(auto, using(chi_plain_open::proofs::Stepped::turns))]
fn try_targets(
    alloc: Global,
    scene: &Surroundings<'_>,
    variables: &Variables,
    targets: &[CTarget],
    view: &mut View,
) -> Result<(), Stop>
    requires { through (tried_target (value_in scene.now variables.now)) targets.now tt view.old ≢ Amiss }
    ensures goes { OnOk result (through (tried_target (value_in scene.now variables.now)) targets.now tt view.old ≡ Gives tt view.new) }
    ensures stops { IfErr result (λ stop. Stops stop (through (tried_target (value_in scene.now variables.now)) targets.now tt view.old)) }
{
    for target in targets {
        try_target(alloc, scene, variables, target, view)?;
    }
    Ok(())
}

/// An assignment: the values, and then the targets.
#[tactic(auto, using(crate::proofs::Tries::assignments))]
fn try_assignment(
    alloc: Global,
    scene: &Surroundings<'_>,
    variables: &Variables,
    targets: &[CTarget],
    values: &[CExpr],
    view: &mut View,
) -> Result<(), Stop>
    requires { tried_assignment (value_in scene.now variables.now) targets.now values.now view.old ≢ Amiss }
    ensures goes { OnOk result (tried_assignment (value_in scene.now variables.now) targets.now values.now view.old ≡ Gives tt view.new) }
    ensures stops { IfErr result (λ stop. Stops stop (tried_assignment (value_in scene.now variables.now) targets.now values.now view.old)) }
{
    let _ = values_of(alloc, scene, variables, values, view)?;
    try_targets(alloc, scene, variables, targets, view)
}

/// The tests of branches, up to the first that is true.
#[tactic(auto, using(crate::proofs::Tries::tests))]
fn try_tests(
    alloc: Global,
    scene: &Surroundings<'_>,
    variables: &Variables,
    branches: &[Branch],
    view: &mut View,
) -> Result<(), Stop>
    requires { tried_tests (value_in scene.now variables.now) branches.now view.old ≢ Amiss }
    ensures goes { OnOk result (tried_tests (value_in scene.now variables.now) branches.now view.old ≡ Gives tt view.new) }
    ensures stops { IfErr result (λ stop. Stops stop (tried_tests (value_in scene.now variables.now) branches.now view.old)) }
{
    for branch in branches {
        let test = value_of(alloc, scene, variables, &branch.test, view)?;
        if truth_in(&test) {
            return Ok(());
        }
    }
    Ok(())
}

/// A statement that functions have too.
#[tactic(auto, using(crate::proofs::Tries::statements))]
fn try_statement(
    alloc: Global,
    scene: &Surroundings<'_>,
    variables: &Variables,
    statement: &CStat,
    view: &mut View,
) -> Result<(), Stop>
    requires { tried_statement (value_in scene.now variables.now) (out-CStat statement.now) view.old ≢ Amiss }
    ensures goes { OnOk result (tried_statement (value_in scene.now variables.now) (out-CStat statement.now) view.old ≡ Gives tt view.new) }
    ensures stops { IfErr result (λ stop. Stops stop (tried_statement (value_in scene.now variables.now) (out-CStat statement.now) view.old)) }
{
    match statement {
        CStat::Declare(_, _, e) => try_expression(alloc, scene, variables, e, view),
        CStat::Assign(_, targets, values) => {
            let places = targets.as_slice();
            let expressions = values.as_slice();
            try_assignment(alloc, scene, variables, places, expressions, view)
        }
        CStat::If(_, branches, _) => {
            let tests = branches.as_slice();
            try_tests(alloc, scene, variables, tests, view)
        }
        CStat::While(_, test, _) => try_expression(alloc, scene, variables, test, view),
        CStat::For(_, _, e, _) => try_expression(alloc, scene, variables, e, view),
        CStat::Return(_, e) => try_expression(alloc, scene, variables, e, view),
        CStat::Break(_)
        | CStat::Continue(_)
        | CStat::Pass(_)
        | CStat::Exit(_, _)
        | CStat::Write(_, _, _)
        | CStat::Select(_, _)
        | CStat::Run(_, _)
        | CStat::Start(_, _)
        | CStat::Finish(_, _) => Ok(()),
    }
}

/// An item that functions have too.
fn try_item(
    alloc: Global,
    scene: &Surroundings<'_>,
    variables: &Variables,
    task: &Task<'_>,
    view: &mut View,
) -> Result<(), Stop>
    requires { tried_item (value_in scene.now variables.now) (item_of task.now) view.old ≢ Amiss }
    ensures goes { OnOk result (tried_item (value_in scene.now variables.now) (item_of task.now) view.old ≡ Gives tt view.new) }
    ensures stops { IfErr result (λ stop. Stops stop (tried_item (value_in scene.now variables.now) (item_of task.now) view.old)) }
{
    match task {
        Task::Do(statement) => try_statement(alloc, scene, variables, statement, view),
        Task::Loop(_, test, _) => try_expression(alloc, scene, variables, test, view),
        Task::Walk(_, _, _, _) => Ok(()),
    }
}

/// The first item of an instance, which is one that functions have too.
#[tactic(auto, using(crate::proofs::Foretold::foretelling))]
pub fn try_shared(
    alloc: Global,
    scene: &Surroundings<'_>,
    instance: &Instance<'_>,
    view: &mut View,
) -> Result<(), Stop>
    requires { acted (value_in scene.now) instance.now view.old ≢ Amiss }
    ensures goes { OnOk result (acted (value_in scene.now) instance.now view.old ≢ Spent) }
    ensures stops { IfErr result (λ stop. Stops stop (acted (value_in scene.now) instance.now view.old)) }
{
    match instance.first() {
        Some(task) => try_item(alloc, scene, instance.variables(), task, view),
        None => unreachable!(),
    }
}
