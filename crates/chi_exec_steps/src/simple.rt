//! Instructions on scalars and variables.

ghost use Rattle.std.specs.Prelude.{◌≡◌, ◌≢◌, ◌+◌, ◌<◌, ◌^◌, IfErr, OnOk};
ghost use Rattle.chi_core_frame.specs.declared.stop.Stop.TheVariants.{NoMemory};
ghost use Rattle.chi_exec_law.specs.Runs.{Goes, Stuck};
ghost use Rattle.chi_exec_law.specs.Instructions.{tick_on, push_on, load_on, and_on, or_on, store_on, jump_on, if_false_on};
ghost use Rattle.chi_exec_steps.specs.Views.{state_of, Ended};

use crate::machinery::Machine;
use crate::stacking::{pop, put};
use chi_core_frame::{Stop, copied};
use chi_value::Value;
use std::alloc::Global;

/// Takes one off what is left of the bound.
#[inline(always)]
pub fn tick(m: &mut Machine) -> Result<(), Stop>
    requires place { m.old.at + 1 < 2 ^ 64 }
    ensures goes { OnOk result (tick_on (state_of m.old) ≡ Goes (state_of m.new)) }
    ensures ends { IfErr result (λ stop. Ended stop (tick_on (state_of m.old))) }
{
    if m.view.left == 0 {
        return Err(Stop::Spent);
    }
    m.view.left -= 1;
    m.at += 1;
    Ok(())
}

/// Puts a value on top.
#[inline(always)]
pub fn push(m: &mut Machine, alloc: Global, x: Value) -> Result<(), Stop>
    requires place { m.old.at + 1 < 2 ^ 64 }
    ensures goes { OnOk result (push_on x (state_of m.old) ≡ Goes (state_of m.new)) }
    ensures ends { IfErr result (λ stop. stop ≡ NoMemory) }
{
    put(&mut m.stack, x, alloc)?;
    m.at += 1;
    Ok(())
}

/// Puts what a variable has on top.
#[inline(always)]
pub fn load(m: &mut Machine, alloc: Global, k: u32) -> Result<(), Stop>
    requires place { m.old.at + 1 < 2 ^ 64 }
    requires sound { load_on k (state_of m.old) ≢ Stuck }
    ensures goes { OnOk result (load_on k (state_of m.old) ≡ Goes (state_of m.new)) }
    ensures ends { IfErr result (λ stop. Ended stop (load_on k (state_of m.old))) }
{
    if let Value::Int(x) = m.frame.variables.get(k) {
        let x = *x;
        return push(m, alloc, Value::Int(x));
    }
    if let Value::Chan(x) = m.frame.variables.get(k) {
        let x = *x;
        return push(m, alloc, Value::Chan(x));
    }
    load_copy(m, alloc, k)
}

#[inline(never)]
fn load_copy(m: &mut Machine, alloc: Global, k: u32) -> Result<(), Stop>
    requires place { m.old.at + 1 < 2 ^ 64 }
    requires sound { load_on k (state_of m.old) ≢ Stuck }
    ensures goes { OnOk result (load_on k (state_of m.old) ≡ Goes (state_of m.new)) }
    ensures ends { IfErr result (λ stop. Ended stop (load_on k (state_of m.old))) }
{
    let x = copied(alloc, m.frame.variables.get(k))?;
    push(m, alloc, x)
}

#[inline(always)]
pub fn and(m: &mut Machine, alloc: Global, to: u64) -> Result<(), Stop>
    requires place { m.old.at + 1 < 2 ^ 64 }
    requires sound { and_on to (state_of m.old) ≢ Stuck }
    ensures goes { OnOk result (and_on to (state_of m.old) ≡ Goes (state_of m.new)) }
    ensures ends { IfErr result (λ stop. Ended stop (and_on to (state_of m.old))) }
{
    match pop(&mut m.stack) {
        Value::Bool(true) => {
            m.at += 1;
            Ok(())
        }
        Value::Bool(false) => {
            put(&mut m.stack, Value::Bool(false), alloc)?;
            m.at = to as usize;
            Ok(())
        }
        _ => unreachable!(),
    }
}

#[inline(always)]
pub fn or(m: &mut Machine, alloc: Global, to: u64) -> Result<(), Stop>
    requires place { m.old.at + 1 < 2 ^ 64 }
    requires sound { or_on to (state_of m.old) ≢ Stuck }
    ensures goes { OnOk result (or_on to (state_of m.old) ≡ Goes (state_of m.new)) }
    ensures ends { IfErr result (λ stop. Ended stop (or_on to (state_of m.old))) }
{
    match pop(&mut m.stack) {
        Value::Bool(true) => {
            put(&mut m.stack, Value::Bool(true), alloc)?;
            m.at = to as usize;
            Ok(())
        }
        Value::Bool(false) => {
            m.at += 1;
            Ok(())
        }
        _ => unreachable!(),
    }
}

/// Goes elsewhere if the value on top, which it takes, is false.
#[inline(always)]
pub fn if_false(m: &mut Machine, to: u64)
    requires place { m.old.at + 1 < 2 ^ 64 }
    requires sound { if_false_on to (state_of m.old) ≢ Stuck }
    ensures { if_false_on to (state_of m.old) ≡ Goes (state_of m.new) }
{
    match pop(&mut m.stack) {
        Value::Bool(true) => m.at += 1,
        Value::Bool(false) => m.at = to as usize,
        _ => unreachable!(),
    }
}

#[inline(always)]
pub fn store(m: &mut Machine, k: u32)
    requires place { m.old.at + 1 < 2 ^ 64 }
    requires sound { store_on k (state_of m.old) ≢ Stuck }
    ensures { store_on k (state_of m.old) ≡ Goes (state_of m.new) }
{
    let x = pop(&mut m.stack);
    m.frame.variables.set(k, x);
    m.at += 1;
}

/// Goes elsewhere.
#[inline(always)]
pub fn jump(m: &mut Machine, to: u64)
    ensures { jump_on to (state_of m.old) ≡ Goes (state_of m.new) }
{
    m.at = to as usize;
}
