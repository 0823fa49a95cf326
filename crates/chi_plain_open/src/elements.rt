//! The elements of a run or a start statement, as they are started.

ghost use Rattle.std.specs.Prelude.{◌≡◌, ◌≢◌, None, Some, IfErr, IfOk, OnOk, map, option_map};
ghost use denote.Param.Weighed.{most};
ghost use Rattle.chi_core.specs.declared.element.CElem.{size-CElem};
ghost use Rattle.chi_core.specs.Answer.{Amiss, Gives, through};
ghost use Rattle.chi_core.specs.Starting.{all_started, makes, started_by, starts, unwound};
ghost use Rattle.chi_core_frame.specs.Spots.{spot_in};
ghost use Rattle.chi_core_frame.specs.Stops.{Stops};
ghost use Rattle.chi_plain_eval.specs.Surroundings.{value_in};
ghost use Rattle.chi_plain_open.specs.Drafts.{spot_told, started_of, starts_each, starts_unwound};

use crate::starting::Starting;
use chi_core::{CElem, CExpr, CTarget, ProcDef, View};
use chi_core_frame::{Spot, Stop, Variables};
use chi_plain_eval::{Surroundings, elements_in, spot_of, value_of, values_of};
use chi_value::Value;
use std::alloc::Global;

/// What elements are started within, and none of them changes.
#[derive(Clone, Copy)]
struct Here<'s, 'a> {
    alloc: Global,
    scene: &'s Surroundings<'s>,
    procs: &'a [ProcDef],
}

/// The parts of an unwind.
#[derive(Clone, Copy)]
struct UnwindParts<'e> {
    slots: &'e [u32],
    over: &'e CExpr,
    elements: &'e [CElem],
}

/// The process of a number, which takes so many arguments.
pub fn started_by<'a>(procs: &'a [ProcDef], number: u32, count: usize) -> &'a ProcDef
    requires { started_by procs.now number count ≢ None }
    ensures { started_by procs.now number count ≡ Some result.now }
{
    &procs[number as usize]
}

/// The spot of an element's target, where it has one.
#[tactic(auto, using(crate::proofs::Going::going))]
fn target_of(
    alloc: Global,
    scene: &Surroundings<'_>,
    variables: &Variables,
    target: &Option<CTarget>,
    view: &mut View,
) -> Result<Option<Spot>, Stop>
    requires { spot_told (value_in scene.now variables.now) target.now view.old ≢ Amiss }
    ensures spot { IfOk result (λ spot. spot_told (value_in scene.now variables.now) target.now view.old ≡ Gives (option_map spot_in spot) view.new) }
    ensures stops { IfErr result (λ stop. Stops stop (spot_told (value_in scene.now variables.now) target.now view.old)) }
{
    match target {
        Some(target) => Ok(Some(spot_of(alloc, scene, variables, target, view)?)),
        None => Ok(None),
    }
}

/// An element that makes an instance.
#[tactic(auto, using(crate::proofs::Going::going, crate::proofs::Making::told_is), unfolding(chi_core::specs::Starting::makes))]
fn make<'a>(
    here: &Here<'_, 'a>,
    target: &Option<CTarget>,
    number: u32,
    arguments: &[CExpr],
    starting: &mut Starting<'_, 'a>,
    view: &mut View,
) -> Result<(), Stop>
    requires { makes (value_in here.now.scene.now) here.now.procs.now target.now number arguments.now (started_of starting.old) view.old ≢ Amiss }
    ensures made { OnOk result (makes (value_in here.now.scene.now) here.now.procs.now target.now number arguments.now (started_of starting.old) view.old ≡ Gives (started_of starting.new) view.new) }
    ensures stops { IfErr result (λ stop. Stops stop (makes (value_in here.now.scene.now) here.now.procs.now target.now number arguments.now (started_of starting.old) view.old)) }
    ensures origin { starting.new.origin ≡ starting.old.origin }
{
    let alloc = here.alloc;
    let scene = here.scene;
    let values = values_of(alloc, scene, starting.variables(), arguments, view)?;
    let spot = target_of(alloc, scene, starting.variables(), target, view)?;
    let process = started_by(here.procs, number, values.len());
    starting.make(alloc, number, process, values, spot, view)?;
    Ok(())
}

/// An element.
#[cycle(start)]
#[tactic(auto, using(crate::proofs::Going::going))]
fn start<'a>(
    here: &Here<'_, 'a>,
    element: &CElem,
    starting: &mut Starting<'_, 'a>,
    view: &mut View,
) -> Result<(), Stop>
    requires { starts (value_in here.now.scene.now) here.now.procs.now element.now (started_of starting.old) view.old ≢ Amiss }
    ensures started { OnOk result (starts (value_in here.now.scene.now) here.now.procs.now element.now (started_of starting.old) view.old ≡ Gives (started_of starting.new) view.new) }
    ensures stops { IfErr result (λ stop. Stops stop (starts (value_in here.now.scene.now) here.now.procs.now element.now (started_of starting.old) view.old)) }
    ensures origin { starting.new.origin ≡ starting.old.origin }
{
    match element {
        CElem::Make(target, number, arguments) => {
            Ok(make(here, target, *number, arguments.as_slice(), starting, view)?)
        }
        CElem::Unwind(slots, over, elements) => {
            let parts = UnwindParts {
                slots: slots.as_slice(),
                over,
                elements: elements.as_slice(),
            };
            Ok(unwind(here, element, &parts, starting, view)?)
        }
    }
}

/// Elements in order.
#[cycle(start)]
#[tactic(auto, using(crate::proofs::Going::going, crate::proofs::Through::mapped))]
fn start_each<'a>(
    here: &Here<'_, 'a>,
    elements: &[CElem],
    starting: &mut Starting<'_, 'a>,
    view: &mut View,
) -> Result<(), Stop>
    requires { starts_each (map (starts (value_in here.now.scene.now) here.now.procs.now) elements.now) (started_of starting.old) view.old ≢ Amiss }
    ensures started { OnOk result (starts_each (map (starts (value_in here.now.scene.now) here.now.procs.now) elements.now) (started_of starting.old) view.old ≡ Gives (started_of starting.new) view.new) }
    ensures stops { IfErr result (λ stop. Stops stop (starts_each (map (starts (value_in here.now.scene.now) here.now.procs.now) elements.now) (started_of starting.old) view.old)) }
    ensures origin { starting.new.origin ≡ starting.old.origin }
{
    for element in elements {
        start(here, element, starting, view)?;
    }
    Ok(())
}

/// An element that is an unwind.
#[cycle(start)]
fn unwind<'a>(
    here: &Here<'_, 'a>,
    element: &CElem,
    parts: &UnwindParts<'_>,
    starting: &mut Starting<'_, 'a>,
    view: &mut View,
) -> Result<(), Stop>
    requires well { starts (value_in here.now.scene.now) here.now.procs.now element.now (started_of starting.old) view.old ≢ Amiss }
    requires is { element.now ≡ CElem.Unwind parts.now.slots.now parts.now.over.now parts.now.elements.now }
    ensures started { OnOk result (starts_unwound (value_in here.now.scene.now) here.now.procs.now parts.now.slots.now parts.now.over.now (map (starts (value_in here.now.scene.now) here.now.procs.now) parts.now.elements.now) (started_of starting.old) view.old ≡ Gives (started_of starting.new) view.new) }
    ensures stops { IfErr result (λ stop. Stops stop (starts_unwound (value_in here.now.scene.now) here.now.procs.now parts.now.slots.now parts.now.over.now (map (starts (value_in here.now.scene.now) here.now.procs.now) parts.now.elements.now) (started_of starting.old) view.old)) }
    ensures origin { starting.new.origin ≡ starting.old.origin }
{
    Ok(unwind_over(here, parts, starting, view)?)
}

/// Elements once more for each element of a container.
#[cycle(start)]
#[tactic(auto, using(crate::proofs::Going::going))]
fn unwind_over<'a>(
    here: &Here<'_, 'a>,
    parts: &UnwindParts<'_>,
    starting: &mut Starting<'_, 'a>,
    view: &mut View,
) -> Result<(), Stop>
    requires { starts_unwound (value_in here.now.scene.now) here.now.procs.now parts.now.slots.now parts.now.over.now (map (starts (value_in here.now.scene.now) here.now.procs.now) parts.now.elements.now) (started_of starting.old) view.old ≢ Amiss }
    ensures started { OnOk result (starts_unwound (value_in here.now.scene.now) here.now.procs.now parts.now.slots.now parts.now.over.now (map (starts (value_in here.now.scene.now) here.now.procs.now) parts.now.elements.now) (started_of starting.old) view.old ≡ Gives (started_of starting.new) view.new) }
    ensures stops { IfErr result (λ stop. Stops stop (starts_unwound (value_in here.now.scene.now) here.now.procs.now parts.now.slots.now parts.now.over.now (map (starts (value_in here.now.scene.now) here.now.procs.now) parts.now.elements.now) (started_of starting.old) view.old)) }
    ensures origin { starting.new.origin ≡ starting.old.origin }
{
    let alloc = here.alloc;
    let container = value_of(alloc, here.scene, starting.variables(), parts.over, view)?;
    let inner = elements_in(alloc, container)?;
    unwind_each(here, parts, inner, starting, view)?;
    Ok(())
}

/// Elements once more for each of these elements of a container.
#[cycle(start)]
#[tactic(auto, using(crate::proofs::Going::going, crate::proofs::Through::moved))]
fn unwind_each<'a>(
    here: &Here<'_, 'a>,
    parts: &UnwindParts<'_>,
    inner: Vec<Value>,
    starting: &mut Starting<'_, 'a>,
    view: &mut View,
) -> Result<(), Stop>
    requires { through (unwound (value_in here.now.scene.now) here.now.procs.now parts.now.slots.now (map (starts (value_in here.now.scene.now) here.now.procs.now) parts.now.elements.now)) inner.items (started_of starting.old) view.old ≢ Amiss }
    ensures started { OnOk result (through (unwound (value_in here.now.scene.now) here.now.procs.now parts.now.slots.now (map (starts (value_in here.now.scene.now) here.now.procs.now) parts.now.elements.now)) inner.items (started_of starting.old) view.old ≡ Gives (started_of starting.new) view.new) }
    ensures stops { IfErr result (λ stop. Stops stop (through (unwound (value_in here.now.scene.now) here.now.procs.now parts.now.slots.now (map (starts (value_in here.now.scene.now) here.now.procs.now) parts.now.elements.now)) inner.items (started_of starting.old) view.old)) }
    ensures origin { starting.new.origin ≡ starting.old.origin }
{
    for element in inner {
        unwind_one(here, parts, element, starting, view)?;
    }
    Ok(())
}

/// Elements once more for one element of a container.
#[cycle(start)]
#[tactic(auto, using(crate::proofs::Going::going))]
fn unwind_one<'a>(
    here: &Here<'_, 'a>,
    parts: &UnwindParts<'_>,
    element: Value,
    starting: &mut Starting<'_, 'a>,
    view: &mut View,
) -> Result<(), Stop>
    requires { unwound (value_in here.now.scene.now) here.now.procs.now parts.now.slots.now (map (starts (value_in here.now.scene.now) here.now.procs.now) parts.now.elements.now) element (started_of starting.old) view.old ≢ Amiss }
    ensures started { OnOk result (unwound (value_in here.now.scene.now) here.now.procs.now parts.now.slots.now (map (starts (value_in here.now.scene.now) here.now.procs.now) parts.now.elements.now) element (started_of starting.old) view.old ≡ Gives (started_of starting.new) view.new) }
    ensures stops { IfErr result (λ stop. Stops stop (unwound (value_in here.now.scene.now) here.now.procs.now parts.now.slots.now (map (starts (value_in here.now.scene.now) here.now.procs.now) parts.now.elements.now) element (started_of starting.old) view.old)) }
    ensures origin { starting.new.origin ≡ starting.old.origin }
{
    starting.bind(here.alloc, parts.slots, element)?;
    start_each(here, parts.elements, starting, view)?;
    Ok(())
}

/// Starts the elements.
#[tactic(auto, using(crate::proofs::Going::going, crate::proofs::Through::through_map))]
pub fn start_all<'v, 'a>(
    alloc: Global,
    scene: &Surroundings<'_>,
    procs: &'a [ProcDef],
    variables: &'v Variables,
    elements: &[CElem],
    view: &mut View,
) -> Result<Starting<'v, 'a>, Stop>
    requires { all_started (value_in scene.now) procs.now variables.now elements.now view.old ≢ Amiss }
    ensures started { IfOk result (λ s. all_started (value_in scene.now) procs.now variables.now elements.now view.old ≡ Gives (started_of s) view.new) }
    ensures origin { IfOk result (λ s. s.origin ≡ variables.now) }
    ensures stops { IfErr result (λ stop. Stops stop (all_started (value_in scene.now) procs.now variables.now elements.now view.old)) }
{
    let mut starting = Starting::new(alloc, variables);
    let here = Here {
        alloc,
        scene,
        procs,
    };
    start_each(&here, elements, &mut starting, view)?;
    Ok(starting)
}
