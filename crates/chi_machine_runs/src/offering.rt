//! What an instance offers.

ghost use Rattle.std.specs.Prelude.{◌≡◌, ◌≢◌, ◌+◌, ◌<◌, ◌^◌, IfErr, IfOk, OnOk};
ghost use Rattle.chi_core.specs.declared.act.Act.TheVariants as act;
ghost use Rattle.chi_core.specs.Answer.{Amiss, Gives};
ghost use Rattle.chi_core.specs.Opening.{delayed_by};
ghost use Rattle.chi_core_apply.specs.Scenery.{scene_of};
ghost use Rattle.chi_core_frame.specs.Stops.{Stops};
ghost use Rattle.chi_exec_law.specs.Runs.{Goes, Stuck};
ghost use Rattle.chi_machine_laws.specs.Deeds.{send_on, send_void_on, receive_on, delay_on, timer_on};
ghost use Rattle.chi_machine_runs.specs.Keeping.{kept_with};
ghost use Rattle.chi_machine_runs.specs.Kept.{act_of, slot_in};
ghost use Rattle.chi_machine_runs.specs.Views.{done_by, there, Failed};

use crate::brought::Brought;
use crate::opened::{Carried, Kept, Opened};
use crate::within::Within;
use chi_chan::Offer;
use chi_core::{FaultKind, View};
use chi_core_apply::{channel_in, due_in, real_in};
use chi_core_frame::Stop;
use chi_exec::{Machine, pop};
use chi_num::Real;

// An offer is kept, and the instance goes on behind its instruction.
#[inline(always)]
fn offer(
    m: &mut Machine,
    opened: &mut Opened,
    names: &[u32],
    offer: Offer,
    kept: Kept,
) -> Result<(), Stop>
    requires place { m.old.at + 1 < 2 ^ 64 }
    requires sound { kept_with names.now kept.place m.old.frame.value.variables opened.old (act_of offer kept.carried) m.old.view ≢ Amiss }
    ensures kept { OnOk result (kept_with names.now kept.place m.old.frame.value.variables opened.old (act_of offer kept.carried) m.old.view ≡ Gives opened.new m.old.view) }
    ensures behind { OnOk result (m.new ≡ record m.old { at = m.old.at + 1 }) }
    ensures stops { IfErr result (λ stop. Stops stop (kept_with names.now kept.place m.old.frame.value.variables opened.old (act_of offer kept.carried) m.old.view)) }
{
    opened.keep(names, &m.frame.variables, offer, kept, &m.view)?;
    m.at += 1;
    Ok(())
}

/// It offers to send the value on top on the channel below it.
#[inline(always)]
#[tactic(auto, using(crate::proofs::Offered::offering))]
pub fn send(
    m: &mut Machine,
    opened: &mut Opened,
    brought: &Brought,
    w: &Within<'_>,
    place: u64,
    names: &[u32],
) -> Result<(), Stop>
    requires place { m.old.at + 1 < 2 ^ 64 }
    requires sound { done_by (send_on place names.now) w.now.code.now m.old opened.old brought.now ≢ Stuck }
    ensures goes { OnOk result (done_by (send_on place names.now) w.now.code.now m.old opened.old brought.now ≡ Goes (there w.now.code.now m.new opened.new brought.now)) }
    ensures ends { IfErr result (λ stop. Failed stop (done_by (send_on place names.now) w.now.code.now m.old opened.old brought.now)) }
{
    let value = pop(&mut m.stack);
    let channel = channel_in(&pop(&mut m.stack));
    let carried = Carried::Sent(value);
    offer(
        m,
        opened,
        names,
        Offer::Send(channel),
        Kept { carried, place },
    )
}

/// It offers to send on a channel that carries nothing.
#[inline(always)]
#[tactic(auto, using(crate::proofs::Offered::offering))]
pub fn send_void(
    m: &mut Machine,
    opened: &mut Opened,
    brought: &Brought,
    w: &Within<'_>,
    place: u64,
    names: &[u32],
) -> Result<(), Stop>
    requires place { m.old.at + 1 < 2 ^ 64 }
    requires sound { done_by (send_void_on place names.now) w.now.code.now m.old opened.old brought.now ≢ Stuck }
    ensures goes { OnOk result (done_by (send_void_on place names.now) w.now.code.now m.old opened.old brought.now ≡ Goes (there w.now.code.now m.new opened.new brought.now)) }
    ensures ends { IfErr result (λ stop. Failed stop (done_by (send_void_on place names.now) w.now.code.now m.old opened.old brought.now)) }
{
    let channel = channel_in(&pop(&mut m.stack));
    let carried = Carried::Nothing;
    offer(
        m,
        opened,
        names,
        Offer::Send(channel),
        Kept { carried, place },
    )
}

/// It offers to receive, into a slot or nothing.
#[inline(always)]
#[tactic(auto, using(crate::proofs::Offered::offering))]
pub fn receive(
    m: &mut Machine,
    opened: &mut Opened,
    brought: &Brought,
    w: &Within<'_>,
    names: &[u32],
    kept: Kept,
) -> Result<(), Stop>
    requires place { m.old.at + 1 < 2 ^ 64 }
    requires sound { done_by (receive_on kept.place (slot_in kept.carried) names.now) w.now.code.now m.old opened.old brought.now ≢ Stuck }
    ensures goes { OnOk result (done_by (receive_on kept.place (slot_in kept.carried) names.now) w.now.code.now m.old opened.old brought.now ≡ Goes (there w.now.code.now m.new opened.new brought.now)) }
    ensures ends { IfErr result (λ stop. Failed stop (done_by (receive_on kept.place (slot_in kept.carried) names.now) w.now.code.now m.old opened.old brought.now)) }
{
    let channel = channel_in(&pop(&mut m.stack));
    offer(m, opened, names, Offer::Receive(channel), kept)
}

/// When a delay that begins at a time is over, in units of a real.
#[inline(always)]
pub(crate) fn due_after(clock: i64, delay: Real, view: &View) -> Result<i64, Stop>
    ensures due { IfOk result (λ due. delayed_by clock delay view.now ≡ Gives (act.Delay due) view.now) }
    ensures stops { IfErr result (λ stop. Stops stop (delayed_by clock delay view.now)) }
{
    let delay = delay.units();
    if delay < 0 {
        return Err(Stop::Fault(FaultKind::NegativeDelay));
    }
    match clock.checked_add(delay) {
        Some(due) => Ok(due),
        None => Err(Stop::Fault(FaultKind::RealRange)),
    }
}

/// It offers to go on after a delay.
#[inline(always)]
#[tactic(auto, using(crate::proofs::Offered::offering))]
pub fn delay(
    m: &mut Machine,
    opened: &mut Opened,
    brought: &Brought,
    w: &Within<'_>,
    place: u64,
    names: &[u32],
) -> Result<(), Stop>
    requires place { m.old.at + 1 < 2 ^ 64 }
    requires sound { done_by (delay_on (scene_of w.now.scenery) place names.now) w.now.code.now m.old opened.old brought.now ≢ Stuck }
    ensures goes { OnOk result (done_by (delay_on (scene_of w.now.scenery) place names.now) w.now.code.now m.old opened.old brought.now ≡ Goes (there w.now.code.now m.new opened.new brought.now)) }
    ensures ends { IfErr result (λ stop. Failed stop (done_by (delay_on (scene_of w.now.scenery) place names.now) w.now.code.now m.old opened.old brought.now)) }
{
    let delay = real_in(&pop(&mut m.stack));
    let due = due_after(w.scenery.clock, delay, &m.view)?;
    let carried = Carried::Nothing;
    offer(m, opened, names, Offer::Delay(due), Kept { carried, place })
}

/// It offers to go on once a timer is due.
#[inline(always)]
#[tactic(auto, using(crate::proofs::Offered::offering))]
pub fn timer(
    m: &mut Machine,
    opened: &mut Opened,
    brought: &Brought,
    w: &Within<'_>,
    place: u64,
    names: &[u32],
) -> Result<(), Stop>
    requires place { m.old.at + 1 < 2 ^ 64 }
    requires sound { done_by (timer_on place names.now) w.now.code.now m.old opened.old brought.now ≢ Stuck }
    ensures goes { OnOk result (done_by (timer_on place names.now) w.now.code.now m.old opened.old brought.now ≡ Goes (there w.now.code.now m.new opened.new brought.now)) }
    ensures ends { IfErr result (λ stop. Failed stop (done_by (timer_on place names.now) w.now.code.now m.old opened.old brought.now)) }
{
    let due = due_in(&pop(&mut m.stack));
    let carried = Carried::Nothing;
    offer(m, opened, names, Offer::Delay(due), Kept { carried, place })
}
