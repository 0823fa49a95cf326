//! Calls of functions.

ghost use Rattle.std.specs.Prelude.{◌≡◌, ◌≢◌, ◌+◌, ◌-◌, ◌<◌, ◌≤◌, ◌^◌, [], length, take, drop, Some, IfOk, IfErr, OnOk};
ghost use Rattle.chi_core.specs.Variables.{variables_of};
ghost use Rattle.chi_core_frame.specs.declared.stop.Stop.TheVariants.{NoMemory};
ghost use Rattle.chi_exec_law.specs.Runs.{Goes, Stuck};
ghost use Rattle.chi_exec_law.specs.Instructions.{call_on, enter, ret_on};
ghost use Rattle.chi_exec_steps.specs.Entering.{called};
ghost use Rattle.chi_exec_steps.specs.Views.{state_of, Ended};

use crate::machinery::{Caller, Frame, Machine, Turning, fresh_frame};
use chi_code::Entry;
use chi_core::{FaultKind, MOST_CALLS};
use chi_core_frame::Stop;
use chi_value::Value;
use std::alloc::Global;
use std::mem;

/// Begins the body of a function, with its arguments from the stack.
#[inline(never)]
#[tactic(auto, using(crate::proofs::Turns::depths))]
pub fn call(m: &mut Machine, alloc: Global, functions: &[Entry], k: u32) -> Result<(), Stop>
    requires place { m.old.at + 1 < 2 ^ 64 }
    requires sound { call_on functions.now k (state_of m.old) ≢ Stuck }
    ensures goes { OnOk result (call_on functions.now k (state_of m.old) ≡ Goes (state_of m.new)) }
    ensures ends { IfErr result (λ stop. Ended stop (call_on functions.now k (state_of m.old))) }
{
    if m.callers.len() == MOST_CALLS {
        return Err(Stop::Fault(FaultKind::CallDepth));
    }
    match functions.get(k as usize) {
        Some(f) => enter(m, alloc, f),
        None => unreachable!(),
    }
}

// Nothing is under way any longer.
#[inline(always)]
fn empty(under: &mut Vec<Turning>)
    ensures { under.new.items ≡ [] }
{
    while let Some(turning) = under.pop() {
        drop(turning);
    }
}

// A frame for a call, that of a call that is over or else a new one: nothing is under way in it.
#[inline(always)]
fn frame_for(spare: &mut Vec<Box<Frame>>, alloc: Global) -> Result<Box<Frame>, Stop>
    ensures idle { IfOk result (λ frame. frame.value.under.items ≡ []) }
    ensures stops { IfErr result (λ stop. stop ≡ NoMemory) }
{
    match spare.pop() {
        Some(frame) => {
            let mut frame = frame;
            empty(&mut frame.under);
            Ok(frame)
        }
        None => fresh_frame(alloc),
    }
}

// The frame of a call, with its arguments, which are taken from the stack.
#[inline(always)]
fn frame_with(
    spare: &mut Vec<Box<Frame>>,
    stack: &mut Vec<Value>,
    alloc: Global,
    f: &Entry,
) -> Result<Box<Frame>, Stop>
    requires { f.now.arity ≤ length stack.old.items }
    ensures begun { IfOk result (λ frame. frame.value.variables ≡ variables_of f.now.slots (drop (length stack.old.items - f.now.arity) stack.old.items)) }
    ensures idle { IfOk result (λ frame. frame.value.under.items ≡ []) }
    ensures rest { OnOk result (stack.new.items ≡ take (length stack.old.items - f.now.arity) stack.old.items) }
    ensures stops { IfErr result (λ stop. stop ≡ NoMemory) }
{
    let mut frame = frame_for(spare, alloc)?;
    let slots = f.slots as usize;
    let arity = f.arity as usize;
    frame.variables.begin(slots, arity, stack)?;
    Ok(frame)
}

// The caller waits, and a body begins with its frame.
#[inline(always)]
fn go_within(m: &mut Machine, frame: Box<Frame>, entry: u64) -> Result<(), Stop>
    requires { m.old.at + 1 < 2 ^ 64 }
    ensures goes { OnOk result (state_of m.new ≡ called entry frame.value m.old) }
    ensures stops { IfErr result (λ stop. stop ≡ NoMemory) }
{
    let back = m.at + 1;
    let frame = mem::replace(&mut m.frame, frame);
    m.callers.push(Caller { back, frame })?;
    m.at = entry as usize;
    Ok(())
}

#[tactic(auto, using(crate::proofs::Turns::enough))]
#[inline(always)]
fn enter(m: &mut Machine, alloc: Global, f: &Entry) -> Result<(), Stop>
    requires place { m.old.at + 1 < 2 ^ 64 }
    requires sound { enter (Some f.now) (state_of m.old) ≢ Stuck }
    ensures goes { OnOk result (enter (Some f.now) (state_of m.old) ≡ Goes (state_of m.new)) }
    ensures ends { IfErr result (λ stop. stop ≡ NoMemory) }
{
    let frame = frame_with(&mut m.spare, &mut m.stack, alloc, f)?;
    go_within(m, frame, f.entry)?;
    Ok(())
}

// Keeps the frame of a call that is over, without what was in it.
#[inline(always)]
fn keep(spare: &mut Vec<Box<Frame>>, frame: Box<Frame>) {
    let mut frame = frame;
    frame.variables.clear();
    empty(&mut frame.under);
    let _ = spare.push(frame);
}

/// Goes back to the caller.
#[inline(never)]
pub fn ret(m: &mut Machine) -> Result<(), Stop>
    requires sound { ret_on (state_of m.old) ≢ Stuck }
    ensures goes { OnOk result (ret_on (state_of m.old) ≡ Goes (state_of m.new)) }
    ensures ends { IfErr result (λ stop. Ended stop (ret_on (state_of m.old))) }
{
    match m.callers.pop() {
        Some(Caller { back, frame }) => {
            let over = mem::replace(&mut m.frame, frame);
            keep(&mut m.spare, over);
            m.at = back;
            Ok(())
        }
        None => unreachable!(),
    }
}
