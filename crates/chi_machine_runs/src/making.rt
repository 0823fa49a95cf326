//! How an instance makes others.

ghost use Rattle.std.specs.Prelude.{◌≡◌, ◌≢◌, ◌+◌, ◌-◌, ◌<◌, ◌≤◌, ◌^◌, [], ◌∷◌, length, take, drop, reverse, option_map, slice_get, None, Some, IfErr, IfOk, OnOk};
ghost use Rattle.chi_core.specs.Answer.{Amiss, Gives};
ghost use Rattle.chi_core.specs.Variables.{variables_of};
ghost use Rattle.chi_core_frame.specs.declared.stop.Stop.TheVariants.{NoMemory};
ghost use Rattle.chi_core_frame.specs.Spots.{spot_in};
ghost use Rattle.chi_core_frame.specs.Stops.{Stops};
ghost use Rattle.chi_exec_steps.specs.Views.{state_of};
ghost use Rattle.chi_exec_law.specs.Runs.{Goes, Stuck};
ghost use Rattle.chi_exec_law.specs.Instructions.{index_count, spots_from};
ghost use Rattle.chi_machine_laws.specs.Deeds.{aims_of, make_on, makes_on};
ghost use Rattle.chi_machine_runs.specs.Making.{counted, spots_of, with_keys};
ghost use Rattle.chi_machine_runs.specs.Views.{brought_of, done_by, held_in, there, Failed};

use crate::brought::Brought;
use crate::made::{Made, Room};
use crate::opened::Opened;
use crate::within::Within;
use chi_code::{Aim, Entry};
use chi_core::{FaultKind, MOST_INSTANCES, View};
use chi_core_frame::{Spot, Stop, Variables, store};
use chi_exec::{Machine, path_of, pop_many, step_count};
use chi_value::Value;
use std::alloc::Global;

// What is made: an instance of the process of this number, which is told to the target, if there is one.
#[derive(Clone, Copy)]
struct Making<'a> {
    process: u32,
    entry: &'a Entry,
    target: &'a Option<Aim>,
}

// How many indexes the target takes.
fn key_count(target: &Option<Aim>) -> usize
    requires { index_count (aims_of target.now) < 2 ^ 64 }
    ensures { result ≡ index_count (aims_of target.now) }
{
    match target {
        Some(aim) => step_count(aim.steps.as_slice()),
        None => 0,
    }
}

// The spot that an aim names, with its indexes in order.
#[tactic(auto, using(crate::proofs::News::spotting))]
fn spot_by(alloc: Global, aim: &Aim, keys: Vec<Value>) -> Result<Spot, Stop>
    requires { spots_from (aim.now ∷ []) keys.items ≢ None }
    ensures spot { IfOk result (λ spot. spots_from (aim.now ∷ []) keys.items ≡ Some (spot_in spot ∷ [])) }
    ensures stops { IfErr result (λ stop. stop ≡ NoMemory) }
{
    let mut left = keys;
    left.reverse();
    let path = path_of(alloc, aim.steps.as_slice(), &mut left)?;
    let slot = aim.slot;
    Ok(Spot { slot, path })
}

// The spot of the target, if there is one.
fn spot_for(alloc: Global, target: &Option<Aim>, keys: Vec<Value>) -> Result<Option<Spot>, Stop>
    requires { spots_from (aims_of target.now) keys.items ≢ None }
    ensures spot { IfOk result (λ spot. spots_from (aims_of target.now) keys.items ≡ Some (spots_of spot)) }
    ensures stops { IfErr result (λ stop. stop ≡ NoMemory) }
{
    match target {
        Some(aim) => Ok(Some(spot_by(alloc, aim, keys)?)),
        None => Ok(None),
    }
}

// The room of an instance that has finished, or else new room, with nothing under way and no offers.
fn room_for(spare: &mut Vec<Room>, alloc: Global) -> Result<Room, Stop>
    ensures idle { IfOk result (λ room. room.frame.value.under.items ≡ []) }
    ensures stops { IfErr result (λ stop. stop ≡ NoMemory) }
{
    match spare.pop() {
        Some(room) => {
            let mut room = room;
            room.clear();
            Ok(room)
        }
        None => Room::new(alloc),
    }
}

// The same, with the arguments, which are taken from the stack.
fn room_with(
    spare: &mut Vec<Room>,
    stack: &mut Vec<Value>,
    alloc: Global,
    entry: &Entry,
) -> Result<Room, Stop>
    requires { entry.now.arity ≤ length stack.old.items }
    ensures begun { IfOk result (λ room. room.frame.value.variables ≡ variables_of entry.now.slots (drop (length stack.old.items - entry.now.arity) stack.old.items)) }
    ensures idle { IfOk result (λ room. room.frame.value.under.items ≡ []) }
    ensures rest { OnOk result (stack.new.items ≡ take (length stack.old.items - entry.now.arity) stack.old.items) }
    ensures stops { IfErr result (λ stop. stop ≡ NoMemory) }
{
    let mut room = room_for(spare, alloc)?;
    let slots = entry.slots as usize;
    let arity = entry.arity as usize;
    room.frame.variables.begin(slots, arity, stack)?;
    Ok(room)
}

// The next instance is counted, and its number told.
#[tactic(auto, using(crate::proofs::News::counting))]
fn count(
    alloc: Global,
    spot: Option<Spot>,
    variables: &mut Variables,
    view: &mut View,
) -> Result<(), Stop>
    requires { counted (option_map spot_in spot) variables.old view.old ≢ Amiss }
    ensures counted { OnOk result (counted (option_map spot_in spot) variables.old view.old ≡ Gives variables.new view.new) }
    ensures stops { IfErr result (λ stop. Stops stop (counted (option_map spot_in spot) variables.old view.old)) }
{
    let number = view.instances;
    if number as usize >= MOST_INSTANCES {
        return Err(Stop::Fault(FaultKind::TooManyInstances));
    }
    view.instances = number + 1;
    match spot {
        Some(spot) => store(alloc, variables, spot, Value::Inst(Some(number)), view),
        None => Ok(()),
    }
}

// A new instance joins those that were made.
#[tactic(auto, using(crate::proofs::News::adding))]
fn add(
    m: &mut Machine,
    opened: &Opened,
    brought: &mut Brought,
    w: &Within<'_>,
    spot: Option<Spot>,
    new: Made,
) -> Result<(), Stop>
    requires place { m.old.at + 1 < 2 ^ 64 }
    requires sound { makes_on (held_in w.now.code.now new) (option_map spot_in spot) (state_of m.old) (reverse m.old.stack.items) (brought_of w.now.code.now opened.now brought.old) ≢ Stuck }
    ensures goes { OnOk result (makes_on (held_in w.now.code.now new) (option_map spot_in spot) (state_of m.old) (reverse m.old.stack.items) (brought_of w.now.code.now opened.now brought.old)
        ≡ Goes (there w.now.code.now m.new opened.now brought.new)) }
    ensures ends { IfErr result (λ stop. Failed stop (makes_on (held_in w.now.code.now new) (option_map spot_in spot) (state_of m.old) (reverse m.old.stack.items) (brought_of w.now.code.now opened.now brought.old))) }
{
    brought.made.push(new)?;
    count(w.alloc, spot, &mut m.frame.variables, &mut m.view)?;
    m.at += 1;
    Ok(())
}

// With the indexes of the target.
fn make_with(
    m: &mut Machine,
    opened: &Opened,
    brought: &mut Brought,
    w: &Within<'_>,
    making: &Making<'_>,
    keys: Vec<Value>,
) -> Result<(), Stop>
    requires place { m.old.at + 1 < 2 ^ 64 }
    requires sound { with_keys w.now.code.now making.now.process (aims_of making.now.target.now) making.now.entry.now keys.items (reverse m.old.stack.items) (state_of m.old) (brought_of w.now.code.now opened.now brought.old) ≢ Stuck }
    ensures goes { OnOk result (with_keys w.now.code.now making.now.process (aims_of making.now.target.now) making.now.entry.now keys.items (reverse m.old.stack.items) (state_of m.old) (brought_of w.now.code.now opened.now brought.old)
        ≡ Goes (there w.now.code.now m.new opened.now brought.new)) }
    ensures ends { IfErr result (λ stop. Failed stop (with_keys w.now.code.now making.now.process (aims_of making.now.target.now) making.now.entry.now keys.items (reverse m.old.stack.items) (state_of m.old) (brought_of w.now.code.now opened.now brought.old))) }
{
    let spot = spot_for(w.alloc, making.target, keys)?;
    let room = room_with(&mut brought.spare, &mut m.stack, w.alloc, making.entry)?;
    let at = making.entry.entry as usize;
    let process = making.process;
    add(m, opened, brought, w, spot, Made { process, at, room })
}

#[tactic(auto, using(crate::proofs::Many::enough, crate::proofs::Many::many_last))]
fn make_by(
    m: &mut Machine,
    opened: &Opened,
    brought: &mut Brought,
    w: &Within<'_>,
    making: &Making<'_>,
) -> Result<(), Stop>
    requires place { m.old.at + 1 < 2 ^ 64 }
    requires sound { done_by (make_on w.now.code.now making.now.process (aims_of making.now.target.now) (Some making.now.entry.now)) w.now.code.now m.old opened.now brought.old ≢ Stuck }
    ensures goes { OnOk result (done_by (make_on w.now.code.now making.now.process (aims_of making.now.target.now) (Some making.now.entry.now)) w.now.code.now m.old opened.now brought.old
        ≡ Goes (there w.now.code.now m.new opened.now brought.new)) }
    ensures ends { IfErr result (λ stop. Failed stop (done_by (make_on w.now.code.now making.now.process (aims_of making.now.target.now) (Some making.now.entry.now)) w.now.code.now m.old opened.now brought.old)) }
{
    let keys = pop_many(&mut m.stack, key_count(making.target))?;
    make_with(m, opened, brought, w, making, keys)
}

/// It makes an instance of the process of this number. The number of the new one is stored at the target, if there is one.
#[inline(never)]
#[tactic(auto, using(crate::proofs::News::processes))]
pub fn make(
    m: &mut Machine,
    opened: &Opened,
    brought: &mut Brought,
    w: &Within<'_>,
    process: u32,
    target: &Option<Aim>,
) -> Result<(), Stop>
    requires place { m.old.at + 1 < 2 ^ 64 }
    requires sound { done_by (make_on w.now.code.now process (aims_of target.now) (slice_get w.now.code.now.procs process)) w.now.code.now m.old opened.now brought.old ≢ Stuck }
    ensures goes { OnOk result (done_by (make_on w.now.code.now process (aims_of target.now) (slice_get w.now.code.now.procs process)) w.now.code.now m.old opened.now brought.old
        ≡ Goes (there w.now.code.now m.new opened.now brought.new)) }
    ensures ends { IfErr result (λ stop. Failed stop (done_by (make_on w.now.code.now process (aims_of target.now) (slice_get w.now.code.now.procs process)) w.now.code.now m.old opened.now brought.old)) }
{
    match w.code.procs.as_slice().get(process as usize) {
        Some(entry) => make_by(
            m,
            opened,
            brought,
            w,
            &Making {
                process,
                entry,
                target,
            },
        ),
        None => unreachable!(),
    }
}
