//! The alternatives of a select, as they are opened.

ghost use Rattle.std.specs.Prelude.{◌≡◌, ◌≢◌, ◌++◌, [], IfErr, IfOk, OnOk, map};
ghost use denote.Param.Weighed.{most};
ghost use Rattle.chi_core.specs.declared.statement.CAlt.{size-CAlt};
ghost use Rattle.chi_core.specs.Answer.{Amiss, Gives, through};
ghost use Rattle.chi_core.specs.Opening.{act_of, delayed_by, each_opens, guarded, offered, opened, opens, unwinds, unwound};
ghost use Rattle.chi_core_frame.specs.Stops.{Stops};
ghost use Rattle.chi_plain_eval.specs.Surroundings.{value_in};
ghost use Rattle.chi_plain_open.specs.Drafts.{opening_of};

use crate::opening::Opening;
use crate::targets::read_at;
use chi_core::{Act, CAlt, CComm, CExpr, CStat, FaultKind, View};
use chi_core_frame::{Stop, Variables};
use chi_num::Real;
use chi_plain_eval::{Surroundings, channel_in, due_in, elements_in, real_in, truth_in, value_of};
use chi_value::Value;
use std::alloc::Global;

/// What is around alternatives, and none of them changes.
#[derive(Clone, Copy)]
struct Around<'s> {
    alloc: Global,
    scene: &'s Surroundings<'s>,
    /// The names that the unwinds around bind, the outermost first.
    names: &'s [u32],
}

/// The parts of an unwind.
#[derive(Clone, Copy)]
struct UnwindParts<'a> {
    slots: &'a [u32],
    over: &'a CExpr,
    alternatives: &'a [CAlt],
}

/// A delay that begins at a time, in units of a real.
fn delayed_by(clock: i64, delay: Real, view: &View) -> Result<Act, Stop>
    ensures act { IfOk result (λ act. delayed_by clock delay view.now ≡ Gives act view.now) }
    ensures stops { IfErr result (λ stop. Stops stop (delayed_by clock delay view.now)) }
{
    let delay = delay.units();
    if delay < 0 {
        return Err(Stop::Fault(FaultKind::NegativeDelay));
    }
    match clock.checked_add(delay) {
        Some(due) => Ok(Act::Delay(due)),
        None => Err(Stop::Fault(FaultKind::RealRange)),
    }
}

/// What is offered.
#[tactic(auto, using(crate::proofs::Going::going))]
fn act_of(
    alloc: Global,
    scene: &Surroundings<'_>,
    variables: &Variables,
    communication: &CComm,
    view: &mut View,
) -> Result<Act, Stop>
    requires { act_of (value_in scene.now) scene.now.clock variables.now communication.now view.old ≢ Amiss }
    ensures act { IfOk result (λ act. act_of (value_in scene.now) scene.now.clock variables.now communication.now view.old ≡ Gives act view.new) }
    ensures stops { IfErr result (λ stop. Stops stop (act_of (value_in scene.now) scene.now.clock variables.now communication.now view.old)) }
{
    match communication {
        CComm::Send(target, None) => {
            let channel = read_at(alloc, scene, variables, target, view)?;
            Ok(Act::Send(channel_in(&channel), None))
        }
        CComm::Send(target, Some(sent)) => {
            let channel = read_at(alloc, scene, variables, target, view)?;
            let value = value_of(alloc, scene, variables, sent, view)?;
            Ok(Act::Send(channel_in(&channel), Some(value)))
        }
        CComm::Receive(target, slot) => {
            let channel = read_at(alloc, scene, variables, target, view)?;
            Ok(Act::Receive(channel_in(&channel), *slot))
        }
        CComm::Delay(delay) => {
            let delay = value_of(alloc, scene, variables, delay, view)?;
            Ok(delayed_by(scene.clock, real_in(&delay), view)?)
        }
        CComm::Timer(timer) => {
            let timer = value_of(alloc, scene, variables, timer, view)?;
            Ok(Act::Delay(due_in(&timer)))
        }
    }
}

/// The communication of an alternative whose guard holds.
#[tactic(auto, using(crate::proofs::Going::going))]
fn offer<'a>(
    around: &Around<'_>,
    communication: &'a CComm,
    body: &'a [CStat],
    opening: &mut Opening<'_, 'a>,
    view: &mut View,
) -> Result<(), Stop>
    requires { offered (value_in around.now.scene.now) around.now.scene.now.clock around.now.names.now communication.now body.now (opening_of opening.old) view.old ≢ Amiss }
    ensures offered { OnOk result (offered (value_in around.now.scene.now) around.now.scene.now.clock around.now.names.now communication.now body.now (opening_of opening.old) view.old ≡ Gives (opening_of opening.new) view.new) }
    ensures stops { IfErr result (λ stop. Stops stop (offered (value_in around.now.scene.now) around.now.scene.now.clock around.now.names.now communication.now body.now (opening_of opening.old) view.old)) }
    ensures origin { opening.new.origin ≡ opening.old.origin }
{
    let alloc = around.alloc;
    let act = act_of(
        alloc,
        around.scene,
        opening.variables(),
        communication,
        view,
    )?;
    opening.keep(alloc, around.names, body, act, view)?;
    Ok(())
}

/// An alternative with its guard.
#[tactic(auto, using(crate::proofs::Going::going))]
fn guard<'a>(
    around: &Around<'_>,
    guard: &Option<CExpr>,
    communication: &'a CComm,
    body: &'a [CStat],
    opening: &mut Opening<'_, 'a>,
    view: &mut View,
) -> Result<(), Stop>
    requires { guarded (value_in around.now.scene.now) around.now.scene.now.clock guard.now around.now.names.now communication.now body.now (opening_of opening.old) view.old ≢ Amiss }
    ensures guarded { OnOk result (guarded (value_in around.now.scene.now) around.now.scene.now.clock guard.now around.now.names.now communication.now body.now (opening_of opening.old) view.old ≡ Gives (opening_of opening.new) view.new) }
    ensures stops { IfErr result (λ stop. Stops stop (guarded (value_in around.now.scene.now) around.now.scene.now.clock guard.now around.now.names.now communication.now body.now (opening_of opening.old) view.old)) }
    ensures origin { opening.new.origin ≡ opening.old.origin }
{
    match guard {
        Some(test) => {
            let holds = value_of(around.alloc, around.scene, opening.variables(), test, view)?;
            if truth_in(&holds) {
                Ok(offer(around, communication, body, opening, view)?)
            } else {
                Ok(())
            }
        }
        None => Ok(offer(around, communication, body, opening, view)?),
    }
}

/// An alternative within unwinds that bind these names, the outermost first.
#[cycle(open)]
#[tactic(auto, using(crate::proofs::Going::going))]
fn open<'a>(
    around: &Around<'_>,
    alternative: &'a CAlt,
    opening: &mut Opening<'_, 'a>,
    view: &mut View,
) -> Result<(), Stop>
    requires { opens (value_in around.now.scene.now) around.now.scene.now.clock alternative.now around.now.names.now (opening_of opening.old) view.old ≢ Amiss }
    ensures opened { OnOk result (opens (value_in around.now.scene.now) around.now.scene.now.clock alternative.now around.now.names.now (opening_of opening.old) view.old ≡ Gives (opening_of opening.new) view.new) }
    ensures stops { IfErr result (λ stop. Stops stop (opens (value_in around.now.scene.now) around.now.scene.now.clock alternative.now around.now.names.now (opening_of opening.old) view.old)) }
    ensures origin { opening.new.origin ≡ opening.old.origin }
{
    match alternative {
        CAlt::Guarded(test, communication, body) => {
            Ok(guard(around, test, communication, body.as_slice(), opening, view)?)
        }
        CAlt::Unwind(slots, over, alternatives) => {
            let parts = UnwindParts {
                slots: slots.as_slice(),
                over,
                alternatives: alternatives.as_slice(),
            };
            Ok(unwind(around, alternative, &parts, opening, view)?)
        }
    }
}

/// Alternatives in order.
#[cycle(open)]
#[tactic(auto, using(crate::proofs::Going::going, crate::proofs::Through::mapped))]
fn open_each<'a>(
    around: &Around<'_>,
    alternatives: &'a [CAlt],
    opening: &mut Opening<'_, 'a>,
    view: &mut View,
) -> Result<(), Stop>
    requires { each_opens (value_in around.now.scene.now) around.now.scene.now.clock around.now.names.now (map (opens (value_in around.now.scene.now) around.now.scene.now.clock) alternatives.now) (opening_of opening.old) view.old ≢ Amiss }
    ensures opened { OnOk result (each_opens (value_in around.now.scene.now) around.now.scene.now.clock around.now.names.now (map (opens (value_in around.now.scene.now) around.now.scene.now.clock) alternatives.now) (opening_of opening.old) view.old ≡ Gives (opening_of opening.new) view.new) }
    ensures stops { IfErr result (λ stop. Stops stop (each_opens (value_in around.now.scene.now) around.now.scene.now.clock around.now.names.now (map (opens (value_in around.now.scene.now) around.now.scene.now.clock) alternatives.now) (opening_of opening.old) view.old)) }
    ensures origin { opening.new.origin ≡ opening.old.origin }
{
    for alternative in alternatives {
        open(around, alternative, opening, view)?;
    }
    Ok(())
}

/// An alternative that is an unwind.
#[cycle(open)]
fn unwind<'a>(
    around: &Around<'_>,
    alternative: &'a CAlt,
    parts: &UnwindParts<'a>,
    opening: &mut Opening<'_, 'a>,
    view: &mut View,
) -> Result<(), Stop>
    requires well { opens (value_in around.now.scene.now) around.now.scene.now.clock alternative.now around.now.names.now (opening_of opening.old) view.old ≢ Amiss }
    requires is { alternative.now ≡ CAlt.Unwind parts.now.slots.now parts.now.over.now parts.now.alternatives.now }
    ensures opened { OnOk result (unwinds (value_in around.now.scene.now) around.now.scene.now.clock parts.now.slots.now parts.now.over.now (map (opens (value_in around.now.scene.now) around.now.scene.now.clock) parts.now.alternatives.now) around.now.names.now (opening_of opening.old) view.old ≡ Gives (opening_of opening.new) view.new) }
    ensures stops { IfErr result (λ stop. Stops stop (unwinds (value_in around.now.scene.now) around.now.scene.now.clock parts.now.slots.now parts.now.over.now (map (opens (value_in around.now.scene.now) around.now.scene.now.clock) parts.now.alternatives.now) around.now.names.now (opening_of opening.old) view.old)) }
    ensures origin { opening.new.origin ≡ opening.old.origin }
{
    Ok(unwind_over(around, parts, opening, view)?)
}

/// Alternatives once more for each element of a container.
#[cycle(open)]
#[tactic(auto, using(crate::proofs::Going::going))]
fn unwind_over<'a>(
    around: &Around<'_>,
    parts: &UnwindParts<'a>,
    opening: &mut Opening<'_, 'a>,
    view: &mut View,
) -> Result<(), Stop>
    requires { unwinds (value_in around.now.scene.now) around.now.scene.now.clock parts.now.slots.now parts.now.over.now (map (opens (value_in around.now.scene.now) around.now.scene.now.clock) parts.now.alternatives.now) around.now.names.now (opening_of opening.old) view.old ≢ Amiss }
    ensures opened { OnOk result (unwinds (value_in around.now.scene.now) around.now.scene.now.clock parts.now.slots.now parts.now.over.now (map (opens (value_in around.now.scene.now) around.now.scene.now.clock) parts.now.alternatives.now) around.now.names.now (opening_of opening.old) view.old ≡ Gives (opening_of opening.new) view.new) }
    ensures stops { IfErr result (λ stop. Stops stop (unwinds (value_in around.now.scene.now) around.now.scene.now.clock parts.now.slots.now parts.now.over.now (map (opens (value_in around.now.scene.now) around.now.scene.now.clock) parts.now.alternatives.now) around.now.names.now (opening_of opening.old) view.old)) }
    ensures origin { opening.new.origin ≡ opening.old.origin }
{
    let alloc = around.alloc;
    let container = value_of(alloc, around.scene, opening.variables(), parts.over, view)?;
    let elements = elements_in(alloc, container)?;
    unwind_each(around, parts, elements, opening, view)?;
    Ok(())
}

/// Alternatives once more for each of these elements.
#[cycle(open)]
#[tactic(auto, using(crate::proofs::Going::going, crate::proofs::Through::moved))]
fn unwind_each<'a>(
    around: &Around<'_>,
    parts: &UnwindParts<'a>,
    elements: Vec<Value>,
    opening: &mut Opening<'_, 'a>,
    view: &mut View,
) -> Result<(), Stop>
    requires { through (unwound (value_in around.now.scene.now) around.now.scene.now.clock around.now.names.now parts.now.slots.now (map (opens (value_in around.now.scene.now) around.now.scene.now.clock) parts.now.alternatives.now)) elements.items (opening_of opening.old) view.old ≢ Amiss }
    ensures opened { OnOk result (through (unwound (value_in around.now.scene.now) around.now.scene.now.clock around.now.names.now parts.now.slots.now (map (opens (value_in around.now.scene.now) around.now.scene.now.clock) parts.now.alternatives.now)) elements.items (opening_of opening.old) view.old ≡ Gives (opening_of opening.new) view.new) }
    ensures stops { IfErr result (λ stop. Stops stop (through (unwound (value_in around.now.scene.now) around.now.scene.now.clock around.now.names.now parts.now.slots.now (map (opens (value_in around.now.scene.now) around.now.scene.now.clock) parts.now.alternatives.now)) elements.items (opening_of opening.old) view.old)) }
    ensures origin { opening.new.origin ≡ opening.old.origin }
{
    let mut inner = Vec::new(around.alloc);
    inner.extend_from_slice(around.names)?;
    inner.extend_from_slice(parts.slots)?;
    for element in elements {
        unwind_one(around, parts, element, inner.as_slice(), opening, view)?;
    }
    Ok(())
}

/// Alternatives once more for one element. `inner` are the names with those of the slots.
#[cycle(open)]
#[tactic(auto, using(crate::proofs::Going::going))]
fn unwind_one<'a>(
    around: &Around<'_>,
    parts: &UnwindParts<'a>,
    element: Value,
    inner: &[u32],
    opening: &mut Opening<'_, 'a>,
    view: &mut View,
) -> Result<(), Stop>
    requires well { unwound (value_in around.now.scene.now) around.now.scene.now.clock around.now.names.now parts.now.slots.now (map (opens (value_in around.now.scene.now) around.now.scene.now.clock) parts.now.alternatives.now) element (opening_of opening.old) view.old ≢ Amiss }
    requires inner { inner.now ≡ around.now.names.now ++ parts.now.slots.now }
    ensures opened { OnOk result (unwound (value_in around.now.scene.now) around.now.scene.now.clock around.now.names.now parts.now.slots.now (map (opens (value_in around.now.scene.now) around.now.scene.now.clock) parts.now.alternatives.now) element (opening_of opening.old) view.old ≡ Gives (opening_of opening.new) view.new) }
    ensures stops { IfErr result (λ stop. Stops stop (unwound (value_in around.now.scene.now) around.now.scene.now.clock around.now.names.now parts.now.slots.now (map (opens (value_in around.now.scene.now) around.now.scene.now.clock) parts.now.alternatives.now) element (opening_of opening.old) view.old)) }
    ensures origin { opening.new.origin ≡ opening.old.origin }
{
    let alloc = around.alloc;
    let scene = around.scene;
    opening.bind(alloc, parts.slots, element)?;
    let within = Around {
        alloc,
        scene,
        names: inner,
    };
    open_each(&within, parts.alternatives, opening, view)?;
    Ok(())
}

/// Opens a select.
#[tactic(auto, using(crate::proofs::Going::going))]
pub fn open_select<'v, 'a>(
    alloc: Global,
    scene: &Surroundings<'_>,
    variables: &'v Variables,
    alternatives: &'a [CAlt],
    view: &mut View,
) -> Result<Opening<'v, 'a>, Stop>
    requires { opened (value_in scene.now) scene.now.clock variables.now alternatives.now view.old ≢ Amiss }
    ensures opened { IfOk result (λ o. opened (value_in scene.now) scene.now.clock variables.now alternatives.now view.old ≡ Gives (opening_of o) view.new) }
    ensures origin { IfOk result (λ o. o.origin ≡ variables.now) }
    ensures stops { IfErr result (λ stop. Stops stop (opened (value_in scene.now) scene.now.clock variables.now alternatives.now view.old)) }
{
    let mut opening = Opening::new(alloc, variables);
    let around = Around {
        alloc,
        scene,
        names: &[],
    };
    open_each(&around, alternatives, &mut opening, view)?;
    Ok(opening)
}
