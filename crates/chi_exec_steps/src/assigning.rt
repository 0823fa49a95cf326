//! Assignments.

ghost use Rattle.std.specs.Prelude.{◌≡◌, ◌≢◌, ◌+◌, ◌<◌, ◌≤◌, ◌^◌, [], ◌∷◌, map, reverse, None, Some, IsTrue, IfOk, IfErr, OnOk};
ghost use Rattle.chi_code.specs.declared.instr.AimStep.TheVariants as way;
ghost use Rattle.chi_core_frame.specs.declared.stop.Stop.TheVariants.{NoMemory};
ghost use Rattle.chi_core_frame.specs.Spots.{spot_in};
ghost use Rattle.chi_ops.specs.Paths.{steps_of};
ghost use Rattle.chi_ops.specs.Store.{by};
ghost use Rattle.chi_exec_law.specs.Runs.{Goes, Stuck};
ghost use Rattle.chi_exec_law.specs.Instructions.{assign_on, step_count, index_count, path_from, spots_from, store_values, with_keys};
ghost use Rattle.chi_exec_steps.specs.Assigned.{item_on, assign_item_on};
ghost use Rattle.chi_exec_steps.specs.Views.{state_of, Ended};

use crate::machinery::Machine;
use crate::simple::store as store_slot;
use crate::stacking::{pop, pop_many};
use chi_code::{Aim, AimStep};
use chi_core_frame::{Spot, Stop, store, store_each};
use chi_ops::Path;
use chi_value::Value;
use std::alloc::Global;

/// How many indexes a target takes.
#[tactic(auto, using(crate::proofs::Aims::counting_steps))]
pub fn step_count(steps: &[AimStep]) -> usize
    requires { step_count steps.now < 2 ^ 64 }
    ensures { result ≡ step_count steps.now }
{
    let mut count = 0usize;
    for step in steps {
        match step {
            AimStep::Index => count += 1,
            AimStep::Part(_) => {}
        }
    }
    count
}

// How many indexes targets take.
#[tactic(auto, using(crate::proofs::Aims::counting))]
fn index_count(aims: &[Aim]) -> usize
    requires { index_count aims.now < 2 ^ 64 }
    ensures { result ≡ index_count aims.now }
{
    let mut count = 0usize;
    for aim in aims {
        count += step_count(aim.steps.as_slice());
    }
    count
}

/// The way into a variable, with its indexes, which are taken from the end.
#[tactic(auto, using(crate::proofs::Aims::pathing))]
pub fn path_of(alloc: Global, steps: &[AimStep], left: &mut Vec<Value>) -> Result<Vec<Path>, Stop>
    requires { path_from steps.now (reverse left.old.items) ≢ None }
    ensures path { IfOk result (λ path. path_from steps.now (reverse left.old.items) ≡ Some (steps_of path.items, reverse left.new.items)) }
    ensures stops { IfErr result (λ stop. stop ≡ NoMemory) }
{
    let mut path = Vec::new(alloc);
    for step in steps {
        match step {
            AimStep::Index => match left.pop() {
                Some(key) => path.push(Path::Key(key))?,
                None => unreachable!(),
            },
            AimStep::Part(k) => path.push(Path::Part(*k))?,
        }
    }
    Ok(path)
}

// The spots that targets name, with their indexes in order.
#[tactic(auto, using(crate::proofs::Aims::spotting))]
fn spots_of(alloc: Global, aims: &[Aim], keys: Vec<Value>) -> Result<Vec<Spot>, Stop>
    requires { spots_from aims.now keys.items ≢ None }
    ensures spots { IfOk result (λ spots. spots_from aims.now keys.items ≡ Some (map spot_in spots.items)) }
    ensures stops { IfErr result (λ stop. stop ≡ NoMemory) }
{
    let mut left = keys;
    left.reverse();
    let mut spots = Vec::new(alloc);
    for aim in aims {
        let path = path_of(alloc, aim.steps.as_slice(), &mut left)?;
        let slot = aim.slot;
        spots.push(Spot { slot, path })?;
    }
    Ok(spots)
}

// The values go to their spots.
#[tactic(auto, using(crate::proofs::Turns::ended, crate::proofs::Turns::not_amiss))]
fn store_values(
    m: &mut Machine,
    alloc: Global,
    spots: Vec<Spot>,
    values: Vec<Value>,
) -> Result<(), Stop>
    requires place { m.old.at + 1 < 2 ^ 64 }
    requires sound { store_values (Some (map spot_in spots.items)) values.items (reverse m.old.stack.items) (state_of m.old) ≢ Stuck }
    ensures goes { OnOk result (store_values (Some (map spot_in spots.items)) values.items (reverse m.old.stack.items) (state_of m.old) ≡ Goes (state_of m.new)) }
    ensures ends { IfErr result (λ stop. Ended stop (store_values (Some (map spot_in spots.items)) values.items (reverse m.old.stack.items) (state_of m.old))) }
{
    store_each(alloc, spots, values, &mut m.frame.variables, &m.view)?;
    m.at += 1;
    Ok(())
}

#[tactic(auto, using(crate::proofs::Aims::spots_wanted))]
fn assign_spots(
    m: &mut Machine,
    alloc: Global,
    aims: &[Aim],
    keys: Vec<Value>,
    values: Vec<Value>,
) -> Result<(), Stop>
    requires place { m.old.at + 1 < 2 ^ 64 }
    requires sound { store_values (spots_from aims.now keys.items) values.items (reverse m.old.stack.items) (state_of m.old) ≢ Stuck }
    ensures goes { OnOk result (store_values (spots_from aims.now keys.items) values.items (reverse m.old.stack.items) (state_of m.old) ≡ Goes (state_of m.new)) }
    ensures ends { IfErr result (λ stop. Ended stop (store_values (spots_from aims.now keys.items) values.items (reverse m.old.stack.items) (state_of m.old))) }
{
    let spots = spots_of(alloc, aims, keys)?;
    store_values(m, alloc, spots, values)
}

#[tactic(auto, using(crate::proofs::Turns::enough, crate::proofs::Turns::many_last))]
fn assign_values(m: &mut Machine, alloc: Global, aims: &[Aim], keys: Vec<Value>) -> Result<(), Stop>
    requires place { m.old.at + 1 < 2 ^ 64 }
    requires sound { with_keys aims.now keys.items (reverse m.old.stack.items) (state_of m.old) ≢ Stuck }
    ensures goes { OnOk result (with_keys aims.now keys.items (reverse m.old.stack.items) (state_of m.old) ≡ Goes (state_of m.new)) }
    ensures ends { IfErr result (λ stop. Ended stop (with_keys aims.now keys.items (reverse m.old.stack.items) (state_of m.old))) }
{
    let values = pop_many(&mut m.stack, aims.len())?;
    assign_spots(m, alloc, aims, keys, values)
}

#[inline(never)]
#[tactic(auto, using(crate::proofs::Turns::enough, crate::proofs::Turns::many_last))]
fn assign_parts(m: &mut Machine, alloc: Global, aims: &[Aim]) -> Result<(), Stop>
    requires place { m.old.at + 1 < 2 ^ 64 }
    requires sound { assign_on aims.now (state_of m.old) ≢ Stuck }
    ensures goes { OnOk result (assign_on aims.now (state_of m.old) ≡ Goes (state_of m.new)) }
    ensures ends { IfErr result (λ stop. Ended stop (assign_on aims.now (state_of m.old))) }
{
    let keys = pop_many(&mut m.stack, index_count(aims))?;
    assign_values(m, alloc, aims, keys)
}

// The way to what a key leads to.
fn key_path(alloc: Global, key: Value) -> Result<Vec<Path>, Stop>
    ensures path { IfOk result (λ path. steps_of path.items ≡ by key ∷ []) }
    ensures stops { IfErr result (λ stop. stop ≡ NoMemory) }
{
    let mut path = Vec::new(alloc);
    path.push(Path::Key(key))?;
    Ok(path)
}

// The value goes to an element of what a variable has.
#[inline(always)]
#[tactic(auto, using(crate::proofs::Turns::ended, crate::proofs::Turns::not_amiss))]
fn store_item(
    m: &mut Machine,
    alloc: Global,
    slot: u32,
    key: Value,
    value: Value,
) -> Result<(), Stop>
    requires place { m.old.at + 1 < 2 ^ 64 }
    requires sound { item_on slot key value (reverse m.old.stack.items) (state_of m.old) ≢ Stuck }
    ensures goes { OnOk result (item_on slot key value (reverse m.old.stack.items) (state_of m.old) ≡ Goes (state_of m.new)) }
    ensures ends { IfErr result (λ stop. Ended stop (item_on slot key value (reverse m.old.stack.items) (state_of m.old))) }
{
    let path = key_path(alloc, key)?;
    let spot = Spot { slot, path };
    store(alloc, &mut m.frame.variables, spot, value, &m.view)?;
    m.at += 1;
    Ok(())
}

#[inline(never)]
fn assign_item(m: &mut Machine, alloc: Global, slot: u32) -> Result<(), Stop>
    requires place { m.old.at + 1 < 2 ^ 64 }
    requires sound { assign_item_on slot (state_of m.old) ≢ Stuck }
    ensures goes { OnOk result (assign_item_on slot (state_of m.old) ≡ Goes (state_of m.new)) }
    ensures ends { IfErr result (λ stop. Ended stop (assign_item_on slot (state_of m.old))) }
{
    let key = pop(&mut m.stack);
    let value = pop(&mut m.stack);
    store_item(m, alloc, slot, key, value)
}

// Whether a step goes to an index or a key.
#[inline(always)]
fn is_index(step: &AimStep) -> bool
    ensures { IsTrue result → step.now ≡ way.Index }
{
    match step {
        AimStep::Index => true,
        AimStep::Part(_) => false,
    }
}

// Whether the way is one index or key.
#[inline(always)]
fn is_one_index(steps: &[AimStep]) -> bool
    ensures { IsTrue result → steps.now ≡ way.Index ∷ [] }
{
    if steps.len() != 1 {
        return false;
    }
    match steps.first() {
        Some(step) => is_index(step),
        None => false,
    }
}

/// Values go to targets, whose indexes lie on top of them.
#[inline(always)]
#[tactic(auto, using(crate::proofs::Aims::whole))]
pub fn assign(m: &mut Machine, alloc: Global, aims: &[Aim]) -> Result<(), Stop>
    requires place { m.old.at + 1 < 2 ^ 64 }
    requires sound { assign_on aims.now (state_of m.old) ≢ Stuck }
    ensures goes { OnOk result (assign_on aims.now (state_of m.old) ≡ Goes (state_of m.new)) }
    ensures ends { IfErr result (λ stop. Ended stop (assign_on aims.now (state_of m.old))) }
{
    if let [aim] = aims {
        let steps = aim.steps.as_slice();
        if steps.is_empty() {
            store_slot(m, aim.slot);
            return Ok(());
        }
        if is_one_index(steps) {
            return assign_item(m, alloc, aim.slot);
        }
    }
    assign_parts(m, alloc, aims)
}
