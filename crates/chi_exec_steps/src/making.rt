//! Instructions that make values of values.

ghost use Rattle.std.specs.Prelude.{◌≡◌, ◌≢◌, ◌+◌, ◌<◌, ◌^◌, reverse, IfErr, OnOk};
ghost use Rattle.chi_core.specs.Containers.{done};
ghost use Rattle.chi_ops.specs.Operations.{build};
ghost use Rattle.chi_core_apply.specs.Scenery.{scene_of};
ghost use Rattle.chi_core_frame.specs.declared.stop.Stop.TheVariants.{NoMemory};
ghost use Rattle.chi_exec_law.specs.Runs.{Goes, Stuck};
ghost use Rattle.chi_exec_law.specs.State.{pushed};
ghost use Rattle.chi_exec_law.specs.Instructions.{push_on, const_on, build_on, part_on, default_on, spread_on, put_on};
ghost use Rattle.chi_exec_steps.specs.Views.{state_of, Ended};

use crate::machinery::Machine;
use crate::simple::push;
use crate::stacking::{pop, pop_many};
use chi_core_apply::{Scenery, parts_from};
use chi_core_frame::{Stop, copied, fresh_of, literal_of, part_of};
use chi_value::{Kind, Shape, Value};
use std::alloc::Global;

pub fn literal(m: &mut Machine, alloc: Global, x: &Value) -> Result<(), Stop>
    requires place { m.old.at + 1 < 2 ^ 64 }
    ensures goes { OnOk result (push_on x.now (state_of m.old) ≡ Goes (state_of m.new)) }
    ensures ends { IfErr result (λ stop. stop ≡ NoMemory) }
{
    let x = copied(alloc, x)?;
    push(m, alloc, x)
}

pub fn constant(m: &mut Machine, alloc: Global, s: &Scenery<'_>, k: u32) -> Result<(), Stop>
    requires place { m.old.at + 1 < 2 ^ 64 }
    requires sound { const_on (scene_of s.now) k (state_of m.old) ≢ Stuck }
    ensures goes { OnOk result (const_on (scene_of s.now) k (state_of m.old) ≡ Goes (state_of m.new)) }
    ensures ends { IfErr result (λ stop. Ended stop (const_on (scene_of s.now) k (state_of m.old))) }
{
    let x = copied(alloc, &s.constants[k as usize])?;
    push(m, alloc, x)
}

#[tactic(auto, using(crate::proofs::Turns::ended, crate::proofs::Turns::not_amiss))]
fn build_of(m: &mut Machine, alloc: Global, kind: Kind, parts: Vec<Value>) -> Result<(), Stop>
    requires place { m.old.at + 1 < 2 ^ 64 }
    requires sound { put_on (done (build kind parts.items) m.old.view) (reverse m.old.stack.items) (state_of m.old) ≢ Stuck }
    ensures goes { OnOk result (put_on (done (build kind parts.items) m.old.view) (reverse m.old.stack.items) (state_of m.old) ≡ Goes (state_of m.new)) }
    ensures ends { IfErr result (λ stop. Ended stop (put_on (done (build kind parts.items) m.old.view) (reverse m.old.stack.items) (state_of m.old))) }
{
    let v = literal_of(alloc, kind, parts, &m.view)?;
    push(m, alloc, v)
}

#[tactic(auto, using(crate::proofs::Turns::enough, crate::proofs::Turns::many_last))]
pub fn build(m: &mut Machine, alloc: Global, kind: Kind, n: u32) -> Result<(), Stop>
    requires place { m.old.at + 1 < 2 ^ 64 }
    requires sound { build_on kind n (state_of m.old) ≢ Stuck }
    ensures goes { OnOk result (build_on kind n (state_of m.old) ≡ Goes (state_of m.new)) }
    ensures ends { IfErr result (λ stop. Ended stop (build_on kind n (state_of m.old))) }
{
    let parts = pop_many(&mut m.stack, n as usize)?;
    build_of(m, alloc, kind, parts)
}

#[tactic(auto, using(crate::proofs::Turns::ended, crate::proofs::Turns::not_amiss))]
pub fn part(m: &mut Machine, alloc: Global, k: u32) -> Result<(), Stop>
    requires place { m.old.at + 1 < 2 ^ 64 }
    requires sound { part_on k (state_of m.old) ≢ Stuck }
    ensures goes { OnOk result (part_on k (state_of m.old) ≡ Goes (state_of m.new)) }
    ensures ends { IfErr result (λ stop. Ended stop (part_on k (state_of m.old))) }
{
    let whole = pop(&mut m.stack);
    let v = part_of(alloc, whole, k, &m.view)?;
    push(m, alloc, v)
}

#[tactic(auto, using(crate::proofs::Turns::ended, crate::proofs::Turns::not_amiss))]
pub fn default(m: &mut Machine, alloc: Global, shape: &Shape) -> Result<(), Stop>
    requires place { m.old.at + 1 < 2 ^ 64 }
    requires sound { default_on shape.now (state_of m.old) ≢ Stuck }
    ensures goes { OnOk result (default_on shape.now (state_of m.old) ≡ Goes (state_of m.new)) }
    ensures ends { IfErr result (λ stop. Ended stop (default_on shape.now (state_of m.old))) }
{
    let v = fresh_of(alloc, shape, &mut m.view)?;
    push(m, alloc, v)
}

// Values come on a stack, the last one topmost.
#[tactic(auto, using(crate::proofs::Turns::pushed_last))]
fn put_all(stack: &mut Vec<Value>, values: Vec<Value>) -> Result<(), Stop>
    ensures put { OnOk result (pushed values.items (reverse stack.old.items) ≡ reverse stack.new.items) }
    ensures stops { IfErr result (λ stop. stop ≡ NoMemory) }
{
    let mut values = values;
    stack.append(&mut values)?;
    Ok(())
}

pub fn spread(m: &mut Machine, alloc: Global) -> Result<(), Stop>
    requires place { m.old.at + 1 < 2 ^ 64 }
    requires sound { spread_on (state_of m.old) ≢ Stuck }
    ensures goes { OnOk result (spread_on (state_of m.old) ≡ Goes (state_of m.new)) }
    ensures ends { IfErr result (λ stop. Ended stop (spread_on (state_of m.old))) }
{
    let x = pop(&mut m.stack);
    let parts = parts_from(alloc, x)?;
    put_all(&mut m.stack, parts)?;
    m.at += 1;
    Ok(())
}
