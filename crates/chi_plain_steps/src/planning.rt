//! What the statements come to that functions don't have. Nothing is changed.

ghost use Rattle.std.specs.Prelude.{◌≡◌, ◌≢◌, ◌≤◌, [], length, IfErr, IfOk, OnOk, Some, unwrap_or};
ghost use Rattle.chi_core.specs.declared.limits.TheConstants.{MOST_OFFERS};
ghost use Rattle.chi_core.specs.declared.statement.CStat.{out-CStat};
ghost use Rattle.chi_core.specs.Answer.{Amiss, Gives};
ghost use Rattle.chi_core.specs.Opening.{opened};
ghost use Rattle.chi_core.specs.Starting.{all_started};
ghost use Rattle.chi_core.specs.Performing.{all_named, written};
ghost use Rattle.chi_core_frame.specs.Stops.{Stops};
ghost use Rattle.chi_plain_eval.specs.Surroundings.{value_in};
ghost use Rattle.chi_plain_steps.specs.Plans.{is_own, leaves_with, left_with, offers_kept, plan_of, planned};

use crate::deed::Deed;
use chi_base::NoMemory;
use chi_core::{CAlt, CElem, CExpr, CStat, Core, FaultKind, ProcDef, View};
use chi_core_frame::{Stop, Variables};
use chi_format::{RenderFault, render, rendered_where_allowed};
use chi_plain_eval::{Surroundings, instance_in, value_of, values_of};
use chi_plain_open::{Instance, Offer, open_select, start_all};
use chi_value::{Piece, TextFault, Value, quoted_of};
use std::alloc::Global;

/// The text of a format's pieces with the values of expressions.
#[tactic(auto, using(chi_plain_open::proofs::Going::going))]
fn written(
    alloc: Global,
    core: &Core,
    scene: &Surroundings<'_>,
    variables: &Variables,
    pieces: &[Piece],
    values: &[CExpr],
    view: &mut View,
) -> Result<Vec<u8>, Stop>
    requires { written core.now (value_in scene.now variables.now) pieces.now values.now view.old ≢ Amiss }
    ensures text { IfOk result (λ text. written core.now (value_in scene.now variables.now) pieces.now values.now view.old ≡ Gives text.items view.new) }
    ensures stops { IfErr result (λ stop. Stops stop (written core.now (value_in scene.now variables.now) pieces.now values.now view.old)) }
{
    rendered_where_allowed();
    let values = values_of(alloc, scene, variables, values, view)?;
    match render(alloc, pieces, values.as_slice(), &core.names) {
        Ok(text) => Ok(text),
        Err(RenderFault::Limit) => Err(Stop::Fault(FaultKind::TooLarge)),
        Err(RenderFault::NoMemory) => Err(Stop::NoMemory),
    }
}

/// The value of an exit can be told, or it is too large.
fn tell(alloc: Global, core: &Core, value: &Value, view: &View) -> Result<(), Stop>
    requires { leaves_with core.now value.now view.now ≢ Amiss }
    ensures told { OnOk result (leaves_with core.now value.now view.now ≡ Gives (Some value.now) view.now) }
    ensures stops { IfErr result (λ stop. Stops stop (leaves_with core.now value.now view.now)) }
{
    let mut text = Vec::new(alloc);
    match quoted_of(alloc, value, &core.names, &mut text) {
        Ok(()) => Ok(()),
        Err(TextFault::Limit) => Err(Stop::Fault(FaultKind::TooLarge)),
        Err(TextFault::NoMemory) => Err(Stop::NoMemory),
    }
}

/// The value of an exit.
#[tactic(auto, using(chi_plain_open::proofs::Going::going))]
fn left_with(
    alloc: Global,
    core: &Core,
    scene: &Surroundings<'_>,
    variables: &Variables,
    e: &Option<CExpr>,
    view: &mut View,
) -> Result<Option<Value>, Stop>
    requires { left_with core.now (value_in scene.now variables.now) e.now view.old ≢ Amiss }
    ensures value { IfOk result (λ v. left_with core.now (value_in scene.now variables.now) e.now view.old ≡ Gives v view.new) }
    ensures stops { IfErr result (λ stop. Stops stop (left_with core.now (value_in scene.now variables.now) e.now view.old)) }
{
    match e {
        Some(e) => {
            let value = value_of(alloc, scene, variables, e, view)?;
            tell(alloc, core, &value, view)?;
            Ok(Some(value))
        }
        None => Ok(None),
    }
}

/// The instances that values name.
#[tactic(auto, using(crate::proofs::Named::naming))]
fn all_named(alloc: Global, values: &[Value], view: &View) -> Result<Vec<u32>, NoMemory>
    requires { all_named [] values.now view.now ≢ Amiss }
    ensures { IfOk result (λ numbers. all_named [] values.now view.now ≡ Gives numbers.items view.now) }
{
    let mut numbers = Vec::new(alloc);
    for value in values {
        if let Some(number) = instance_in(value) {
            numbers.push(number)?;
        }
    }
    Ok(numbers)
}

/// Opens a select: the variables, where they have changed, and the offers.
#[tactic(auto, using(crate::proofs::Finishing::finishing))]
fn opened<'a>(
    alloc: Global,
    scene: &Surroundings<'_>,
    variables: &Variables,
    alternatives: &'a [CAlt],
    view: &mut View,
) -> Result<(Option<Variables>, Vec<Offer<'a>>), Stop>
    requires { opened (value_in scene.now) scene.now.clock variables.now alternatives.now view.old ≢ Amiss }
    ensures opened { IfOk result (λ o. opened (value_in scene.now) scene.now.clock variables.now alternatives.now view.old
        ≡ Gives (record { variables = unwrap_or o.0 variables.now; offers = o.1.items }) view.new) }
    ensures few { IfOk result (λ o. length o.1.items ≤ MOST_OFFERS) }
    ensures stops { IfErr result (λ stop. Stops stop (opened (value_in scene.now) scene.now.clock variables.now alternatives.now view.old)) }
{
    let opening = open_select(alloc, scene, variables, alternatives, view)?;
    Ok(opening.finish())
}

/// Starts the elements: the variables, where they have changed, and the new instances.
#[tactic(auto, using(crate::proofs::Finishing::finishing))]
fn started<'a>(
    alloc: Global,
    procs: &'a [ProcDef],
    scene: &Surroundings<'_>,
    variables: &Variables,
    elements: &[CElem],
    view: &mut View,
) -> Result<(Option<Variables>, Vec<Instance<'a>>), Stop>
    requires { all_started (value_in scene.now) procs.now variables.now elements.now view.old ≢ Amiss }
    ensures started { IfOk result (λ s. all_started (value_in scene.now) procs.now variables.now elements.now view.old
        ≡ Gives (record { variables = unwrap_or s.0 variables.now; made = s.1.items }) view.new) }
    ensures stops { IfErr result (λ stop. Stops stop (all_started (value_in scene.now) procs.now variables.now elements.now view.old)) }
{
    let starting = start_all(alloc, scene, procs, variables, elements, view)?;
    Ok(starting.finish())
}

/// Whether functions don't have the statement.
pub fn is_own(statement: &CStat) -> bool
    ensures { result ≡ is_own (out-CStat statement.now) }
{
    match statement {
        CStat::Write(_, _, _)
        | CStat::Exit(_, _)
        | CStat::Select(_, _)
        | CStat::Run(_, _)
        | CStat::Start(_, _)
        | CStat::Finish(_, _) => true,
        CStat::Declare(_, _, _)
        | CStat::Assign(_, _, _)
        | CStat::If(_, _, _)
        | CStat::While(_, _, _)
        | CStat::For(_, _, _, _)
        | CStat::Break(_)
        | CStat::Continue(_)
        | CStat::Pass(_)
        | CStat::Return(_, _) => false,
    }
}

/// What such a statement comes to.
#[tactic(auto, using(chi_plain_open::proofs::Going::going, crate::proofs::Planned::planning))]
pub fn plan<'a>(
    alloc: Global,
    core: &'a Core,
    scene: &Surroundings<'_>,
    variables: &Variables,
    statement: &'a CStat,
    view: &mut View,
) -> Result<Deed<'a>, Stop>
    requires { planned core.now (value_in scene.now) scene.now.clock variables.now (out-CStat statement.now) view.old ≢ Amiss }
    ensures deed { IfOk result (λ deed. planned core.now (value_in scene.now) scene.now.clock variables.now (out-CStat statement.now) view.old ≡ Gives (plan_of variables.now deed) view.new) }
    ensures few { IfOk result (λ deed. length (offers_kept deed) ≤ MOST_OFFERS) }
    ensures stops { IfErr result (λ stop. Stops stop (planned core.now (value_in scene.now) scene.now.clock variables.now (out-CStat statement.now) view.old)) }
{
    let procs = core.procs.as_slice();
    match statement {
        CStat::Write(_, pieces, values) => Ok(Deed::Writes(written(
            alloc,
            core,
            scene,
            variables,
            pieces.as_slice(),
            values.as_slice(),
            view,
        )?)),
        CStat::Exit(_, e) => Ok(Deed::Exits(left_with(alloc, core, scene, variables, e, view)?)),
        CStat::Select(_, alternatives) => {
            let (changed, offers) = opened(alloc, scene, variables, alternatives.as_slice(), view)?;
            Ok(Deed::Waits(changed, offers))
        }
        CStat::Run(_, parts) => {
            let (changed, made) = started(alloc, procs, scene, variables, parts.as_slice(), view)?;
            Ok(Deed::Runs(changed, made))
        }
        CStat::Start(_, parts) => {
            let (changed, made) = started(alloc, procs, scene, variables, parts.as_slice(), view)?;
            Ok(Deed::Starts(changed, made))
        }
        CStat::Finish(_, expressions) => {
            let values = values_of(alloc, scene, variables, expressions.as_slice(), view)?;
            Ok(Deed::Joins(all_named(alloc, values.as_slice(), view)?))
        }
        CStat::Declare(_, _, _)
        | CStat::Assign(_, _, _)
        | CStat::If(_, _, _)
        | CStat::While(_, _, _)
        | CStat::For(_, _, _, _)
        | CStat::Break(_)
        | CStat::Continue(_)
        | CStat::Pass(_)
        | CStat::Return(_, _) => unreachable!(),
    }
}
